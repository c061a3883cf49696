//! The program of a program stream, whose bytes are held while it is read.
ghost use Rattle.std.specs.Prelude.{◌≡◌, ◌+◌, ◌<◌, ◌≤◌, length, map, true, None, IfErr, IfOk, MatchResult};
ghost use Rattle.file_pass.specs.FilePass.{ReadsUpTo};
ghost use Rattle.shelf_io.specs.Files.{IfTold};
ghost use Rattle.job_report.specs.declared.limits.TheConstants.{START_MOST};
ghost use Rattle.version_table.specs.declared.limits.TheConstants.{VERSIONS_MOST};
ghost use Rattle.program_reader.specs.declared.limits.TheConstants.{FILE_BYTES_MOST};
ghost use Rattle.program_reader.specs.Programs.{IsProgramOfFile, IsProgramRefused};
ghost use Rattle.program_reader.specs.Sizes.{AreProgramSizes};
ghost use Rattle.passed_programs.specs.PassedFile.{HoldsProgram, IsPassedProgram, IsRefusedWithin, OnRefused, stop_in};
ghost use Rattle.passed_programs.specs.PassedProgram.{IsReadOff};

use crate::file_program::ProgramWanted;
use crate::passed_fault::PassedFault;
use crate::passed_program::PassedProgram;
use crate::passes::{PROGRAM_LIMIT, PassedFile, outside_refused};
use crate::sized_passed::SizedPassed;
use list_types::{ListOf, OutOfMemory};
use program_reader::{
    AudioPiece, AudioSource, Program, ProgramFault, SizedProgram, SizesWanted, read_program,
    read_sized_program,
};
use shelf_io::{Shelf, read_file};
use std::alloc::Global;

/// The program of a file that is held whole while it is read, and then given up.
pub(crate) fn read_held<K: Shelf>(
    alloc: Global,
    shelf: &mut K,
    file: &PassedFile<'_>,
    wanted: &ProgramWanted<'_>,
    sizes: SizesWanted<'_>,
) -> Result<SizedPassed, PassedFault>
    requires limit { file.now.limit ≤ FILE_BYTES_MOST }
    requires start { wanted.now.start ≤ START_MOST }
    requires coarser { length sizes.coarser.now < VERSIONS_MOST }
    ensures program { IfOk result (IsPassedProgram wanted.now.start file.now.limit sizes.entry
        (HoldsProgram (K.files shelf.old) file.now.name.now wanted.now.form wanted.now.number wanted.now.drop.now wanted.now.start)) }
    ensures refused { IfErr result (λ fault. OnRefused fault (λ found. IfTold (K.files shelf.old) file.now.name.now
        (λ content. IsRefusedWithin file.now.limit wanted.now.form wanted.now.number wanted.now.drop.now content found))) }
    ensures reads { ReadsUpTo K.files K.counts K.asked K.since_fault file.now.name.now (file.now.limit + 1) (stop_in result) shelf.old shelf.new }
{
    match read_file(alloc, shelf, file.name, file.limit) {
        Ok(content) => held_program(alloc, content.as_slice(), file.limit, wanted, sizes),
        Err(fault) => Err(outside_refused(fault)),
    }
}

/// The program of the bytes that were read of a file, one more than the limit at most.
fn held_program(
    alloc: Global,
    content: &[u8],
    limit: u64,
    wanted: &ProgramWanted<'_>,
    sizes: SizesWanted<'_>,
) -> Result<SizedPassed, PassedFault>
    requires limit { limit ≤ FILE_BYTES_MOST }
    requires start { wanted.now.start ≤ START_MOST }
    requires coarser { length sizes.coarser.now < VERSIONS_MOST }
    ensures program { IfOk result (IsPassedProgram wanted.now.start limit sizes.entry
        (λ size program. (size ≡ length content.now) × IsProgramOfFile wanted.now.form content.now wanted.now.number wanted.now.drop.now wanted.now.start program)) }
    ensures refused { IfErr result (λ fault. OnRefused fault (IsRefusedWithin limit wanted.now.form wanted.now.number wanted.now.drop.now content.now)) }
    ensures never { stop_in result ≡ None }
{
    let size = content.len() as u64;
    if size > limit {
        return Err(PassedFault::Refused(PROGRAM_LIMIT));
    }
    program_reader::laws::programs_of_files_are_read();
    let sized = match sized_program(alloc, content, wanted, sizes) {
        Ok(sized) => sized,
        Err(fault) => return Err(PassedFault::Refused(fault)),
    };
    let SizedProgram { program, sizes } = sized;
    program_reader::laws::see_bytes(program.video.as_slice());
    match read_off(alloc, program) {
        Ok(program) => Ok(SizedPassed {
            program,
            sizes,
            size,
        }),
        Err(_) => Err(PassedFault::Refused(ProgramFault::OutOfMemory)),
    }
}

/// The program in the bytes of a file, with the sizes of its units' versions where they are wanted.
fn sized_program(
    alloc: Global,
    content: &[u8],
    wanted: &ProgramWanted<'_>,
    sizes: SizesWanted<'_>,
) -> Result<SizedProgram, ProgramFault>
    requires start { wanted.now.start ≤ START_MOST }
    requires coarser { length sizes.coarser.now < VERSIONS_MOST }
    ensures program { MatchResult result (λ sized. IsProgramOfFile wanted.now.form content.now wanted.now.number wanted.now.drop.now wanted.now.start sized.program)
        (IsProgramRefused wanted.now.form content.now wanted.now.number wanted.now.drop.now) }
    ensures sizes { IfOk result (λ sized. sizes.entry.are_wanted ≡ true → AreProgramSizes sized.program sizes.entry.coarser.now sized.sizes) }
{
    let ProgramWanted {
        form,
        number,
        drop,
        start,
    } = *wanted;
    if sizes.are_wanted {
        return match read_sized_program(alloc, content, form, number, drop, start, sizes.coarser) {
            Ok(sized) => Ok(sized),
            Err(fault) => Err(fault),
        };
    }
    match read_program(alloc, content, form, number, drop, start) {
        Ok(program) => Ok(SizedProgram {
            program,
            sizes: ListOf::new(alloc),
        }),
        Err(fault) => Err(fault),
    }
}

/// A program without the bytes of its streams, which are given up.
fn read_off(alloc: Global, program: Program) -> Result<PassedProgram, OutOfMemory>
    ensures { IfOk result (IsReadOff program) }
{
    let Program {
        map,
        base,
        vbv,
        video: _,
        units,
        audios,
        units_dropped,
        pes_dropped,
        rest,
        not_carried,
    } = program;
    let audios = pieces_of(alloc, audios)?;
    Ok(PassedProgram {
        map,
        base,
        vbv,
        units,
        audios,
        units_dropped,
        pes_dropped,
        rest,
        not_carried,
    })
}

/// The pieces of audio streams, without their bytes.
fn pieces_of(
    alloc: Global,
    audios: ListOf<AudioSource>,
) -> Result<ListOf<ListOf<AudioPiece>>, OutOfMemory>
    ensures { IfOk result (λ pieces. pieces ≡ map (λ audio. audio.pieces) audios) }
{
    let mut pieces = ListOf::new(alloc);
    for audio in audios.into_vec() {
        pieces.push(audio.pieces)?;
    }
    Ok(pieces)
}
