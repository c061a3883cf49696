//! One program of a transport stream by itself, with the bytes of its file.

ghost use Rattle.std.specs.Prelude.{◌≡◌, ◌+◌, ◌≤◌, IfOk, IfErr, IsErrAnd, MatchResult};
ghost use Rattle.job_report.specs.declared.limits.TheConstants.{START_MOST};
ghost use Rattle.shelf_io.specs.Asked.{AsksUpTo};
ghost use Rattle.version_table.specs.declared.limits.TheConstants.{SLOT_MOST};
ghost use Rattle.program_reader.specs.declared.limits.TheConstants.{FILE_BYTES_MOST};
ghost use Rattle.job_programs.specs.Alone.{HasAloneCause, IsAlone, IsAloneOn};
ghost use Rattle.job_programs.specs.Told.{CountReads, EndsFailed, EndsMissing, ReadsEnd};
ghost use Rattle.job_programs.specs.Private.Alone.{IsAloneContentFault, IsAloneFault};

use crate::next::passes_limit;
use crate::source_fault::{ProgramsFault, SourceFault};
use crate::times::is_within_time;
use job_report::Form;
use list_types::ListOf;
use program_reader::limits::FILE_BYTES_MOST;
use program_reader::{Program, ProgramFault, read_program};
use shelf_io::{Fault, Shelf, read_file};
use std::alloc::Global;

/// A program, and the bytes of its file.
#[derive(Drop)]
pub struct AloneProgram {
    pub content: ListOf<u8>,
    pub program: Program,
}

/// The program of this number in a transport stream, its earliest time due at `start` (in ticks), within the times of a stream of such
/// slots, with the bytes of the file; or why it isn't read, in the words of the first program of a job. It stands in no job, and no
/// table is made of it. No file is changed.
pub fn read_alone<K: Shelf>(
    alloc: Global,
    shelf: &mut K,
    name: &str,
    number: u16,
    start: u64,
    slot: u32,
) -> Result<AloneProgram, ProgramsFault>
    requires start { start ≤ START_MOST }
    requires slot { slot ≤ SLOT_MOST }
    ensures program { IfOk result (λ read. IsAloneOn (K.files shelf.old) name.now slot start number read.content read.program) }
    ensures cause { IfErr result (HasAloneCause (K.files shelf.old) name.now slot start number (K.counts shelf.old) (K.counts shelf.new) (K.since_fault shelf.new)) }

    ensures files { K.files shelf.new ≡ K.files shelf.old }
    ensures asked { AsksUpTo name.now (FILE_BYTES_MOST + 1) (K.asked shelf.old) (K.asked shelf.new) }
    ensures counts { CountReads (K.counts shelf.old) (K.counts shelf.new) }
    ensures ends { ReadsEnd (IsErrAnd result EndsFailed) (IsErrAnd result EndsMissing) (K.counts shelf.old) (K.counts shelf.new) (K.since_fault shelf.new) }
{
    match read_file(alloc, shelf, name, FILE_BYTES_MOST as u64) {
        Ok(content) => alone_in(alloc, content, number, start, slot),
        Err(Fault::Failed) => Err(ProgramsFault::Failed(0)),
        Err(Fault::Missing) => Err(ProgramsFault::Missing(0)),
        Err(Fault::OutOfMemory) => Err(ProgramsFault::OutOfMemory),
    }
}

/// Takes the program out of the bytes that were read of its file, and keeps them.
fn alone_in(
    alloc: Global,
    content: ListOf<u8>,
    number: u16,
    start: u64,
    slot: u32,
) -> Result<AloneProgram, ProgramsFault>
    requires start { start ≤ START_MOST }
    requires slot { slot ≤ SLOT_MOST }
    ensures program { IfOk result (λ read. (read.content ≡ content) × IsAlone slot start number content read.program) }
    ensures fault { IfErr result (IsAloneContentFault slot start number content) }
{
    match program_in(alloc, content.as_slice(), number, start, slot) {
        Ok(program) => Ok(AloneProgram { content, program }),
        Err(ProgramFault::Refused { kind, at }) => Err(ProgramsFault::Refused(SourceFault {
            program: 0,
            kind,
            at,
        })),
        Err(ProgramFault::OutOfMemory) => Err(ProgramsFault::OutOfMemory),
    }
}

/// The program in the bytes of a transport stream by itself, or the first of what refuses it.
fn program_in(
    alloc: Global,
    content: &[u8],
    number: u16,
    start: u64,
    slot: u32,
) -> Result<Program, ProgramFault>
    requires start { start ≤ START_MOST }
    requires slot { slot ≤ SLOT_MOST }
    ensures { MatchResult result (IsAlone slot start number content.now) (IsAloneFault slot start number content.now) }
{
    let program = match read_program(alloc, content, Form::Ts, number, &[], start) {
        Ok(program) => program,
        Err(fault) => return Err(fault),
    };
    if !is_within_time(&program, slot) {
        return Err(passes_limit());
    }
    Ok(program)
}
