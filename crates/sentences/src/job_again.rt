//! The text of a job, read once more for what a sentence wants of it.

use job_report::Form;
use job_report::limits::JOB_TEXT_MOST;
use shelf_io::read_file;
use shelf_kinds::FileShelf;
use std::alloc::{AllocError, Global};
use std::rt::Files;
use toml::de::Error;
use toml::{Table, Value};

/// The fields of a job.
const JOB_FIELDS: [&str; 6] = [
    "slot",
    "start",
    "stream_id",
    "nodes",
    "evaluations",
    "program",
];

/// The fields of a program of a job.
const PROGRAM_FIELDS: [&str; 8] = [
    "file", "program", "number", "weight", "coarser", "drift", "drop", "form",
];

/// The bytes of a job's text; none where they can't be read any more.
pub(crate) fn job_bytes<R: Files + AllocGlobal>(rt: &R, name: &str) -> Option<Vec<u8>> {
    match read_file(
        rt.alloc(),
        &mut FileShelf::new(rt),
        name,
        JOB_TEXT_MOST as u64,
    ) {
        Ok(bytes) => Some(bytes.into_vec()),
        Err(_) => None,
    }
}

/// The fields of a job's text; none where it is none any more.
pub(crate) fn job_table<R: Files + AllocGlobal>(rt: &R, name: &str) -> Option<Table> {
    let bytes = job_bytes(rt, name)?;
    match toml::table_from_slice(rt.alloc(), bytes.as_slice()) {
        Ok(table) => Some(table),
        Err(_) => None,
    }
}

/// The file of a program, counted from 0.
pub(crate) fn file_of(table: &Table, program: u64) -> Option<&str> {
    text_of(table, program, "file")
}

/// The form of that file.
pub(crate) fn form_of(table: &Table, program: u64) -> Form {
    match text_of(table, program, "form") {
        Some("ps") => Form::Ps,
        _ => Form::Ts,
    }
}

/// A text of a program, counted from 0.
fn text_of<'a>(table: &'a Table, program: u64, name: &str) -> Option<&'a str> {
    let programs = table.get("program").and_then(Value::as_array)?;
    let program = programs.get(program as usize)?;
    program.get(name).and_then(Value::as_str)
}

/// A whole number of a job's text; another one where it has none of that name.
pub(crate) fn integer(table: &Table, name: &str, other: u64) -> u64 {
    match table.get(name) {
        Some(value) => match value.as_integer() {
            Some(number) => number.max(0) as u64,
            None => other,
        },
        None => other,
    }
}

/// The first line, from 1, that is no TOML, and why; none where the text is TOML.
pub(crate) fn syntax_fault(alloc: Global, bytes: &[u8]) -> Option<(u64, Error)> {
    match toml::table_from_slice(alloc, bytes) {
        Ok(_) => None,
        Err(fault) => {
            let place = fault.span()?.start;
            Some((line_of(bytes, place), fault))
        }
    }
}

/// The line, from 1, in which a byte stands.
fn line_of(bytes: &[u8], place: usize) -> u64 {
    let mut line = 1u64;
    for byte in bytes.iter().take(place) {
        if *byte == b'\n' {
            line = line.saturating_add(1);
        }
    }
    line
}

/// The names of a job that are none of its fields, or of one of its programs where the refusal names one.
pub(crate) fn unknown_names(
    alloc: Global,
    table: &Table,
    refused: &str,
) -> Result<String, AllocError> {
    match program_of(refused) {
        None => names_beside(alloc, table, &JOB_FIELDS),
        Some(number) => match program_table(table, number) {
            Some(program) => names_beside(alloc, program, &PROGRAM_FIELDS),
            None => Ok(String::new(alloc)),
        },
    }
}

/// The program, from 0, of a name such as `program[0].unknown`.
fn program_of(refused: &str) -> Option<usize> {
    let (number, _) = refused.strip_prefix("program[")?.split_once("]")?;
    number.parse::<usize>().ok()
}

fn program_table(table: &Table, number: usize) -> Option<&Table> {
    let programs = table.get("program").and_then(Value::as_array)?;
    programs.get(number)?.as_table()
}

/// The names of a table that aren't among some.
fn names_beside(alloc: Global, table: &Table, some: &[&str]) -> Result<String, AllocError> {
    let mut names = String::new(alloc);
    for name in table.keys() {
        if !is_among(name.as_str(), some) {
            if !names.is_empty() {
                names.push_str(", ")?;
            }
            names.push_str(name.as_str())?;
        }
    }
    Ok(names)
}

fn is_among(name: &str, some: &[&str]) -> bool {
    for one in some {
        if *one == name {
            return true;
        }
    }
    false
}
