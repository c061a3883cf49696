ghost use Rattle.std.specs.Prelude.{◌≡◌, [], IfErr, IfOk, IsErrOf, MatchResult};
ghost use Rattle.shelf_io.specs.Causes.{SourceCauses};
ghost use Rattle.ts_demux.specs.declared.pass_fault.PassFault.TheVariants.{Outside};
ghost use Rattle.ts_demux.specs.CarriedMap.{HasStreams};
ghost use Rattle.ts_demux.specs.Demux.{IsDemuxRefused};
ghost use Rattle.ts_demux.specs.Pass.{HoldsOfFile, OnRefused};
ghost use Rattle.ts_demux.specs.Private.CarriedMap.{AreCarried, IsMapRefused};

use crate::carried_streams::{CarriedStreams, carry_streams};
use crate::demux_fault::DemuxFault;
use crate::map_pass::read_map;
use crate::packet_buffer::PacketBuffer;
use crate::pass_fault::PassFault;
use psi_tables::{PACKET_SECTION_BYTES, ProgramMap, pmt_length};
use shelf_io::{Fault, Source};
use std::alloc::Global;
use stream_constants::limits::AUDIOS_MOST;

/// The most streams that are carried: the video and the audio streams.
const STREAMS_CARRIED: usize = 1 + AUDIOS_MOST;

/// The streams of a program that are carried, out of the packets of a source from its front on: those of the map that `read_map` reads, but for the audio streams
/// whose PIDs are in `drop`. An error is the source's fault, or the first refusal up to the map or of it: a file shorter than a packet, those of packets and
/// sections, then that it has no video, too many streams, or too much to say of them.
pub fn read_streams<S: Source>(
    alloc: Global,
    buffer: &mut PacketBuffer,
    source: &mut S,
    program: u16,
    drop: &[u16],
) -> Result<CarriedStreams, PassFault>
    requires { buffer.old ≡ [] }
    ensures streams { IfOk result (λ carried. HoldsOfFile (S.left source.old) (S.left source.new) (S.most source.old) (S.most source.new) buffer.new (HasStreams program drop.now carried)) }
    ensures refused { IfErr result (λ fault. OnRefused fault (λ refusal. HoldsOfFile (S.left source.old) (S.left source.new) (S.most source.old) (S.most source.new) buffer.new
        (λ file. IsDemuxRefused file program drop.now refusal))) }
    ensures causes { SourceCauses S.faults S.absences (IsErrOf result (Outside Fault.Failed)) (IsErrOf result (Outside Fault.Missing)) source.old source.new }
    ensures keeps { S.keeps source.old source.new }
{
    let whole = match read_map(buffer, source, program) {
        Ok(whole) => whole,
        Err(fault) => return Err(fault),
    };
    match streams_of(alloc, whole, drop) {
        Ok(carried) => Ok(carried),
        Err(fault) => Err(PassFault::Refused(fault)),
    }
}

/// The streams of a map that are carried.
fn streams_of(alloc: Global, whole: ProgramMap, drop: &[u16]) -> Result<CarriedStreams, DemuxFault>
    ensures { MatchResult result (AreCarried drop.now whole) (IsMapRefused drop.now whole) }
{
    let carried = match carry_streams(alloc, whole, drop) {
        Ok(carried) => carried,
        Err(fault) => return Err(fault),
    };
    if carried.map.streams.len() > STREAMS_CARRIED {
        return Err(DemuxFault::ProgramLimit { at: 0 });
    }
    if pmt_length(&carried.map) > PACKET_SECTION_BYTES {
        return Err(DemuxFault::PmtTooLong { at: 0 });
    }
    Ok(carried)
}
