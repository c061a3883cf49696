//! The streams that stand in a file, by its form.
ghost use Rattle.std.specs.Prelude.{◌≡◌, ◌≢◌, ℕ, List, MatchResult};
ghost use Rattle.job_report.specs.declared.job.Form.TheVariants.{Ts, Ps};
ghost use Rattle.program_reader.specs.Programs.{StandIn, AreStreamsRefused};

use crate::program_fault::{ProgramFault, SourceKind, demux_refused, split_refused};
use job_report::Form;
use program_stream::stream_ids::PACK_HEADER_BYTES;
use program_stream::{SplitFault, find_elements, split};
use std::alloc::Global;
use ts_demux::{Demuxed, demux};

/// The number of the one program of a program stream.
const ONE_PROGRAM: u16 = 1;

/// The streams of a program that stand in a file.
#[derive(Drop)]
pub struct FoundStreams {
    pub demuxed: Demuxed,
    /// How many last elements of a program stream its end cuts, 0 or 1; 0 for a transport stream.
    pub cut: u32,
}

/// Finds the streams of a program in a file of a form, without the audio streams whose PIDs or stream ids are in `drop`. An error is the
/// first refusal of the file's packets and tables, or of its elements, its number and its streams, or want of memory.
pub fn find_streams(
    alloc: Global,
    file: &[u8],
    form: Form,
    number: u16,
    drop: &[u16],
) -> Result<FoundStreams, ProgramFault>
    ensures { MatchResult result (λ found. StandIn form file.now number drop.now found.demuxed found.cut) (AreStreamsRefused form file.now number drop.now) }
{
    match form {
        Form::Ts => find_in_packets(alloc, file, number, drop),
        Form::Ps => find_in_elements(alloc, file, number, drop),
    }
}

/// Finds the streams of a program in a transport stream.
fn find_in_packets(
    alloc: Global,
    file: &[u8],
    number: u16,
    drop: &[u16],
) -> Result<FoundStreams, ProgramFault>
    ensures { MatchResult result (λ found. StandIn Ts file.now number drop.now found.demuxed found.cut) (AreStreamsRefused Ts file.now number drop.now) }
{
    match demux(alloc, file, number, drop) {
        Ok(demuxed) => Ok(FoundStreams { demuxed, cut: 0 }),
        Err(fault) => Err(demux_refused(fault)),
    }
}

/// Finds the streams of a program in a program stream.
fn find_in_elements(
    alloc: Global,
    file: &[u8],
    number: u16,
    drop: &[u16],
) -> Result<FoundStreams, ProgramFault>
    ensures { MatchResult result (λ found. StandIn Ps file.now number drop.now found.demuxed found.cut) (AreStreamsRefused Ps file.now number drop.now) }
{
    if number != ONE_PROGRAM {
        return Err(other_number(file, number));
    }
    match split(alloc, file, drop) {
        Ok((demuxed, cut)) => Ok(FoundStreams { demuxed, cut }),
        Err(fault) => Err(split_refused(fault)),
    }
}

/// What refuses a program stream of which another program is wanted than the one it has.
fn other_number(file: &[u8], number: u16) -> ProgramFault
    requires { number ≢ 1 }
    ensures { (drop : List ℕ) → AreStreamsRefused Ps file.now number drop result }
{
    if file.len() < PACK_HEADER_BYTES {
        return split_refused(SplitFault::ShortFile { at: 0 });
    }
    match find_elements(file) {
        Ok(_cut) => ProgramFault::Refused {
            kind: SourceKind::NoProgram,
            at: 0,
        },
        Err(fault) => split_refused(fault),
    }
}
