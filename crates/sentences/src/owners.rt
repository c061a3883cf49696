//! Which program a stream is of: lines count streams over all programs.

use crate::line::End;
use crate::named_program::NamedProgram;
use crate::table_again::table_again;
use arrayvec::ArrayVec;
use std::alloc::{AllocError, Global};
use std::rt::Files;
use stream_constants::limits::PROGRAMS_MOST;
use toml::Table;

/// A program's streams: its video, then its audio streams.
#[derive(Clone, Copy, Default)]
pub(crate) struct Owner<'a> {
    /// The file of the program; empty where the table names none.
    file: &'a str,
    /// How many streams it has.
    count: u64,
}

/// The programs of a job in order, up to the first whose file doesn't tell its streams.
pub(crate) fn owners_of_job<'a, R: Files + AllocGlobal>(
    rt: &R,
    table: &'a Table,
) -> ArrayVec<Owner<'a>, PROGRAMS_MOST> {
    let mut owners = ArrayVec::new();
    for program in 0..PROGRAMS_MOST as u64 {
        let Some(owner) = owner_of(rt, table, program) else {
            return owners;
        };
        add_owner(&mut owners, owner);
    }
    owners
}

/// A program of a job.
fn owner_of<'a, R: Files + AllocGlobal>(
    rt: &R,
    table: &'a Table,
    program: u64,
) -> Option<Owner<'a>> {
    let named = NamedProgram::of_job(table, program)?;
    let streams = named.streams(rt)?;
    Some(Owner {
        file: named.file,
        count: streams.len() as u64,
    })
}

/// The programs of a table's text.
pub(crate) fn owners_of_table<R: Files + AllocGlobal>(
    rt: &R,
    end: &End<'_>,
) -> ArrayVec<Owner<'static>, PROGRAMS_MOST> {
    let mut owners = ArrayVec::new();
    if let Some(table) = table_again(rt, end.word(1)) {
        for program in table.programs.as_slice() {
            let count = 1 + program.audios.len() as u64;
            add_owner(&mut owners, Owner { file: "", count });
        }
    }
    owners
}

/// Adds a program where there is room.
fn add_owner<'a>(owners: &mut ArrayVec<Owner<'a>, PROGRAMS_MOST>, owner: Owner<'a>) {
    if !owners.is_full() {
        owners.push(owner);
    }
}

/// What a stream is, by its number over all programs; nothing where that isn't known.
pub(crate) fn owner_in_words(
    alloc: Global,
    owners: &[Owner<'_>],
    stream: u64,
) -> Result<String, AllocError> {
    let mut left = stream;
    for (program, owner) in owners.iter().enumerate() {
        if left < owner.count {
            return stream_in_words(alloc, program, owner, left);
        }
        left -= owner.count;
    }
    Ok(String::new(alloc))
}

/// A stream of a program, its video being 0.
fn stream_in_words(
    alloc: Global,
    program: usize,
    owner: &Owner<'_>,
    stream: u64,
) -> Result<String, AllocError> {
    let file = match owner.file {
        "" => String::new(alloc),
        file => format!(in alloc; ", {file}")?,
    };
    match stream.checked_sub(1) {
        None => format!(in alloc; "the video of program {program}{file}"),
        Some(audio) => format!(in alloc; "audio stream {audio} of program {program}{file}"),
    }
}
