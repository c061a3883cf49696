//! The decoder buffers that the files of a job state: plain ffmpeg states one that is smaller than its pictures.

use crate::first_header::first_header;
use crate::job_again::{file_of, form_of, job_table};
use crate::line::{End, list, number};
use crate::sources::CODE;
use job_report::Form;
use serde_json::Value;
use std::alloc::AllocError;
use std::rt::Files;
use stream_constants::limits::PROGRAMS_MOST;
use toml::Table;

/// Buffers of fewer units are small: a picture of 4 Mbit/s at 25 a second has ten on average.
const SMALL_UNITS: u16 = 20;

/// The small buffers that files of a job state, as a sentence; an empty one where there is none.
pub(crate) fn small_buffers<R: Files + AllocGlobal>(
    rt: &R,
    end: &End<'_>,
) -> Result<String, AllocError> {
    let mut said = String::new(rt.alloc());
    let Some(table) = job_table(rt, end.word(1)) else {
        return Ok(said);
    };
    for program in 0..PROGRAMS_MOST as u64 {
        if let Some(file) = file_of(&table, program) {
            add_small(rt, &mut said, file, form_of(&table, program))?;
        }
    }
    Ok(said)
}

/// Adds the buffer that a file states, where it is small.
fn add_small<R: Files + AllocGlobal>(
    rt: &R,
    said: &mut String,
    file: &str,
    form: Form,
) -> Result<(), AllocError> {
    let Some(units) = small_buffer(rt, file, form) else {
        return Ok(());
    };
    let text = format!(in rt.alloc();
        "; {file} states a buffer of {units} units of 2,048 bytes, as ffmpeg does where it is given no `-bufsize`"
    )?;
    said.push_str(text.as_str())
}

/// The programs of a run that go out coarser than their sources, and whose files state small buffers; none where there is none.
pub(crate) fn coarse_programs<R: Files + AllocGlobal>(
    rt: &R,
    end: &End<'_>,
    line: &Value,
    table: &Table,
) -> Result<Option<String>, AllocError> {
    let alloc = rt.alloc();
    let mut said = String::new(alloc);
    for (at, program) in list(line, "programs").iter().enumerate() {
        if is_coarse(program) {
            if let Some(file) = file_of(table, at as u64) {
                let form = form_of(table, at as u64);
                add_coarse(rt, &mut said, file, form, number(program, "number"))?;
            }
        }
    }
    if said.is_empty() {
        return Ok(None);
    }
    let whole = format!(in alloc;
        "{job}: {said}a picture that doesn't fit its buffer is made coarser even where the channel is empty: `ffmpeg -i FILE {CODE}` \
         states a greater one",
        job = end.word(1)
    )?;
    Ok(Some(whole))
}

/// Whether some picture of a program of a line goes out in another version than the source's.
fn is_coarse(program: &Value) -> bool {
    for version in list(program, "choice") {
        if version.as_u64() != Some(0) {
            return true;
        }
    }
    false
}

/// Adds a coarser program, where its file states a small buffer.
fn add_coarse<R: Files + AllocGlobal>(
    rt: &R,
    said: &mut String,
    file: &str,
    form: Form,
    number: u64,
) -> Result<(), AllocError> {
    let Some(units) = small_buffer(rt, file, form) else {
        return Ok(());
    };
    let text = format!(in rt.alloc();
        "program number {number} goes out coarser than its source, and {file} states a buffer of {units} units of 2,048 bytes; "
    )?;
    said.push_str(text.as_str())
}

/// The buffer that a file states, in units of 2,048 bytes, where it is small.
fn small_buffer<R: Files>(rt: &R, name: &str, form: Form) -> Option<u16> {
    match first_header(rt, name, form) {
        Some(header) if header.buffer < SMALL_UNITS => Some(header.buffer),
        _ => None,
    }
}
