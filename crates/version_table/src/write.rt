ghost use Rattle.std.specs.Prelude.{◌≡◌, ◌++◌, ◌∷◌, [], codes, map, IfOk, OnOk};
ghost use Rattle.std.specs.List.{flat_map};
ghost use Rattle.std.specs.Fmt.{decimal};
ghost use Rattle.version_table.specs.Lines.{stated, text_of_version, text_of_line, line_of_unit, line_of_packet, lines_of_audio, lines_of_program};
ghost use Rattle.version_table.specs.Text.{IsTextTable, text_of_lines, table_spelling};

use crate::table::{AudioPacket, ProgramRow, Table, Unit, Version};
use list_types::{ListOf, OutOfMemory};
use std::alloc::Global;

/// The table text, in its one spelling. Fails only for want of memory.
#[tactic(auto, unfolding(crate::specs::Lines::text_of_line))]
pub fn write_table(alloc: Global, table: &Table) -> Result<ListOf<u8>, OutOfMemory>
    requires { IsTextTable table.now }
    ensures { IfOk result (λ text. text ≡ table_spelling table.now) }
{
    let mut out = Vec::new(alloc);
    out.extend_from_slice(b"remux table 1\n")?;
    push_number_line(&mut out, b"slot ", u64::from(table.slot))?;
    push_number_line(&mut out, b"nodes ", u64::from(table.nodes))?;
    push_number_line(&mut out, b"evaluations ", u64::from(table.evaluations))?;
    push_programs(&mut out, table.programs.as_slice())?;
    Ok(ListOf::from_vec(out))
}

fn push_programs(out: &mut Vec<u8>, programs: &[ProgramRow]) -> Result<(), OutOfMemory>
    ensures { OnOk result (out.new.items ≡ out.old.items ++ text_of_lines (flat_map lines_of_program programs.now)) }
{
    for program in programs {
        push_program(out, program)?;
    }
    Ok(())
}

#[tactic(auto, unfolding(crate::specs::Lines::text_of_line))]
fn push_program(out: &mut Vec<u8>, program: &ProgramRow) -> Result<(), OutOfMemory>
    ensures { OnOk result (out.new.items ≡ out.old.items ++ text_of_lines (lines_of_program program.now)) }
{
    push_number_line(out, b"program ", u64::from(program.vbv))?;
    push_units(out, program.units.as_slice())?;
    push_audios(out, program.audios.as_slice())?;
    Ok(())
}

fn push_units(out: &mut Vec<u8>, units: &[Unit]) -> Result<(), OutOfMemory>
    ensures { OnOk result (out.new.items ≡ out.old.items ++ text_of_lines (map line_of_unit units.now)) }
{
    for unit in units {
        push_unit(out, unit)?;
    }
    Ok(())
}

#[tactic(auto, unfolding(crate::specs::Lines::text_of_line))]
fn push_unit(out: &mut Vec<u8>, unit: &Unit) -> Result<(), OutOfMemory>
    ensures { OnOk result (out.new.items ≡ out.old.items ++ text_of_line (line_of_unit unit.now)) }
{
    push_word_and_number(out, b"unit ", unit.due)?;
    push_versions(out, unit.versions.as_slice())?;
    out.push(b'\n')?;
    Ok(())
}

fn push_versions(out: &mut Vec<u8>, versions: &[Version]) -> Result<(), OutOfMemory>
    ensures { OnOk result (out.new.items ≡ out.old.items ++ flat_map text_of_version (map stated versions.now)) }
{
    for version in versions {
        push_word_and_number(out, b" ", u64::from(version.bytes))?;
        push_word_and_number(out, b":", version.distortion)?;
    }
    Ok(())
}

fn push_audios(out: &mut Vec<u8>, audios: &[ListOf<AudioPacket>]) -> Result<(), OutOfMemory>
    ensures { OnOk result (out.new.items ≡ out.old.items ++ text_of_lines (flat_map lines_of_audio audios.now)) }
{
    for packets in audios {
        push_audio(out, packets.as_slice())?;
    }
    Ok(())
}

#[tactic(auto, unfolding(crate::specs::Lines::text_of_line))]
fn push_audio(out: &mut Vec<u8>, packets: &[AudioPacket]) -> Result<(), OutOfMemory>
    ensures { OnOk result (out.new.items ≡ out.old.items ++ text_of_lines (lines_of_audio packets.now)) }
{
    out.extend_from_slice(b"audio\n")?;
    push_packets(out, packets)?;
    Ok(())
}

fn push_packets(out: &mut Vec<u8>, packets: &[AudioPacket]) -> Result<(), OutOfMemory>
    ensures { OnOk result (out.new.items ≡ out.old.items ++ text_of_lines (map line_of_packet packets.now)) }
{
    for packet in packets {
        push_packet(out, packet)?;
    }
    Ok(())
}

#[tactic(auto, unfolding(crate::specs::Lines::text_of_line))]
fn push_packet(out: &mut Vec<u8>, packet: &AudioPacket) -> Result<(), OutOfMemory>
    ensures { OnOk result (out.new.items ≡ out.old.items ++ text_of_line (line_of_packet packet.now)) }
{
    push_word_and_number(out, b"packet ", packet.due)?;
    push_word_and_number(out, b" ", packet.gone)?;
    push_word_and_number(out, b" ", u64::from(packet.bytes))?;
    out.push(b'\n')?;
    Ok(())
}

/// A line of a word with its space, and one number.
fn push_number_line(out: &mut Vec<u8>, word: &[u8], n: u64) -> Result<(), OutOfMemory>
    ensures { OnOk result (out.new.items ≡ out.old.items ++ (word.now ++ decimal n ++ codes "\n")) }
{
    push_word_and_number(out, word, n)?;
    out.push(b'\n')?;
    Ok(())
}

/// A word or a sign, and one number.
fn push_word_and_number(out: &mut Vec<u8>, word: &[u8], n: u64) -> Result<(), OutOfMemory>
    ensures { OnOk result (out.new.items ≡ out.old.items ++ (word.now ++ decimal n)) }
{
    out.extend_from_slice(word)?;
    push_number(out, n)?;
    Ok(())
}

/// A number in decimal.
fn push_number(out: &mut Vec<u8>, n: u64) -> Result<(), OutOfMemory>
    ensures { OnOk result (out.new.items ≡ out.old.items ++ decimal n) }
{
    if n < 10 {
        out.push(b'0' + n as u8)?;
        return Ok(());
    }
    push_number(out, n / 10)?;
    out.push(b'0' + (n % 10) as u8)?;
    Ok(())
}
