//! What a table's text is read as, and the choices over it.

ghost use Rattle.version_table.specs.Table.{IsValidTable};

use crate::runs::runs_of;
use crate::slots::slots_of;
use std::alloc::Global;
use version_table::{
    AudioPacket, Choice, OutOfMemory, Table, TableFault, Unit, Version, distortion_of, least_total,
    level, read_table, smallest,
};

/// The answer of a case: its word, and its table's text with `|` for a line end. Empty for a note.
pub(crate) fn answer_of(alloc: Global, word: &str, lines: &str) -> Result<String, OutOfMemory> {
    let text = text_of(alloc, lines)?;
    if word == "#" {
        return Ok(String::new(alloc));
    }
    match read_table(alloc, text.as_slice()) {
        Ok(table) => of_table(alloc, word, &table),
        Err(fault) => refusal(alloc, word, fault),
    }
}

/// Why a text is no table: the fault's own words for `say`, else the line or the limit.
fn refusal(alloc: Global, word: &str, fault: TableFault) -> Result<String, OutOfMemory> {
    if word == "say" {
        return Ok(format!(in alloc; "{fault}")?);
    }
    match fault {
        TableFault::TableSyntax(line) => Ok(format!(in alloc; "line {line}")?),
        TableFault::TableLimit(name) => Ok(String::from_str(alloc, name.as_str())?),
        TableFault::OutOfMemory => Err(OutOfMemory),
    }
}

/// The bytes of a text in which `|` stands for a line end.
fn text_of(alloc: Global, lines: &str) -> Result<Vec<u8>, OutOfMemory> {
    let mut text = Vec::new(alloc);
    for byte in lines.bytes() {
        text.push(if byte == b'|' { b'\n' } else { byte })?;
    }
    Ok(text)
}

/// The answer of a case whose text is a table.
fn of_table(alloc: Global, word: &str, table: &Table) -> Result<String, OutOfMemory>
    requires { IsValidTable table.now }
{
    match word {
        "table" => content_of(alloc, table),
        "choices" => choices_of(alloc, table),
        "slots" => slots_of(alloc, table),
        "runs" => runs_of(alloc, table),
        _ => Ok(String::from_str(alloc, "table")?),
    }
}

/// All that the table has.
fn content_of(alloc: Global, table: &Table) -> Result<String, OutOfMemory> {
    let Table {
        slot,
        nodes,
        evaluations,
        ..
    } = table;
    let mut out = format!(in alloc; "slot {slot}, nodes {nodes}, evaluations {evaluations}")?;
    for program in table.programs.as_slice() {
        out.push_str(format!(in alloc; "; program {}:", program.vbv)?.as_str())?;
        for unit in program.units.as_slice() {
            add_unit(alloc, &mut out, unit)?;
        }
        for audio in program.audios.as_slice() {
            out.push_str("; audio")?;
            for packet in audio.as_slice() {
                let AudioPacket { due, gone, bytes } = *packet;
                out.push_str(format!(in alloc; " {due} {gone} {bytes}")?.as_str())?;
            }
        }
    }
    Ok(out)
}

/// Adds a unit's due time and its versions.
fn add_unit(alloc: Global, out: &mut String, unit: &Unit) -> Result<(), OutOfMemory> {
    out.push_str(format!(in alloc; " unit {}", unit.due)?.as_str())?;
    for Version { bytes, distortion } in unit.versions.as_slice() {
        out.push_str(format!(in alloc; " {bytes}:{distortion}")?.as_str())?;
    }
    Ok(())
}

/// The smallest choice and level choice 1, each with its distortion, and the least total.
fn choices_of(alloc: Global, table: &Table) -> Result<String, OutOfMemory>
    requires { IsValidTable table.now }
{
    let smallest = smallest(alloc, table)?;
    let level = level(alloc, table, 1)?;
    let mut out = String::new(alloc);
    add_choice(alloc, &mut out, "smallest", &smallest)?;
    out.push_str(format!(in alloc; " distortion {}; ", distortion_of(table, &smallest))?.as_str())?;
    add_choice(alloc, &mut out, "level 1", &level)?;
    out.push_str(format!(in alloc; " distortion {}; ", distortion_of(table, &level))?.as_str())?;
    out.push_str(format!(in alloc; "least total {}", least_total(table))?.as_str())?;
    Ok(out)
}

/// Adds a name and the numbers of a choice.
fn add_choice(
    alloc: Global,
    out: &mut String,
    name: &str,
    choice: &Choice,
) -> Result<(), OutOfMemory> {
    out.push_str(name)?;
    for k in choice.as_slice() {
        out.push_str(format!(in alloc; " {k}")?.as_str())?;
    }
    Ok(())
}
