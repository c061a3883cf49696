ghost use Rattle.std.specs.Prelude.{◌≡◌, ◌≤◌, ◌^◌, map, [], length, MatchResult, IfErr, IfOk};
ghost use Rattle.ts_demux.specs.declared.demux_fault.DemuxFault.TheVariants.{OutOfMemory};
ghost use Rattle.ts_demux.specs.Demux.{IsDemuxed, IsDemuxRefused};
ghost use Rattle.ts_demux.specs.CarriedPackets.{AreDistinct};
ghost use Rattle.ts_demux.specs.CarriedMap.{HasStreams};
ghost use Rattle.ts_demux.specs.Private.PesGatherer.{stream_gathered};
ghost use Rattle.ts_demux.specs.Private.StreamWalk.{AreGathered, IsGatherFault};
ghost use Rattle.ts_demux.specs.Faults.{IsMemory};

use crate::carried_map::read_streams;
use crate::carried_streams::CarriedStreams;
use crate::demux_fault::DemuxFault;
use crate::demuxed::{AudioStream, Demuxed};
use crate::packet_buffer::PacketBuffer;
use crate::pass_fault::PassFault;
use crate::pes_gatherer::PesGatherer;
use crate::stream_walk::gather_streams;
use list_types::ListOf;
use psi_tables::Stream;
use shelf_io::{SOURCE_BYTES_MOST, SliceSource};
use std::alloc::Global;
use stream_constants::packets::PACKET_BYTES;

/// The bytes that are taken from a file in memory at once: sixteen packets, which stay in the nearest cache.
const ROOM_BYTES: usize = 16 * PACKET_BYTES;

/// Takes a program out of a transport stream (ISO/IEC 13818-1, 2.4.3 and 2.4.4): the PES packets of its first video stream
/// and of its audio streams, but for those whose PIDs are in `drop`. An error is the first refusal in the order of reading:
/// the file's length, the packets and sections of its tables up to the program's map, the streams of that map, and then
/// all packets of the carried streams. Places are bytes of the file.
pub fn demux(alloc: Global, file: &[u8], program: u16, drop: &[u16]) -> Result<Demuxed, DemuxFault>
    ensures { MatchResult result (IsDemuxed file.now program drop.now) (IsDemuxRefused file.now program drop.now) }
{
    if file.len() as u64 > SOURCE_BYTES_MOST {
        return Err(DemuxFault::OutOfMemory);
    }
    let mut buffer = PacketBuffer::new(vec![in alloc; 0u8; ROOM_BYTES]?);
    let carried = match streams_in(alloc, &mut buffer, file, program, drop) {
        Ok(carried) => carried,
        Err(fault) => return Err(fault),
    };
    let streams = carried.map.streams.as_slice();
    let gatherers = match gather_in(alloc, &mut buffer, file, streams) {
        Ok(gatherers) => gatherers,
        Err(fault) => return Err(fault),
    };
    let mut streams = match all_streams(alloc, gatherers) {
        Ok(streams) => streams,
        Err(fault) => return Err(fault),
    };
    let video = streams.remove(0);
    Ok(Demuxed {
        map: carried.map,
        video: video.units,
        audios: ListOf::from_vec(streams),
        rest: (file.len() % PACKET_BYTES) as u8,
        not_carried: carried.others,
    })
}

/// The carried streams of a program of a file, as `read_streams` reads them of a source.
fn streams_in(
    alloc: Global,
    buffer: &mut PacketBuffer,
    file: &[u8],
    program: u16,
    drop: &[u16],
) -> Result<CarriedStreams, DemuxFault>
    requires few { length file.now ≤ 2 ^ 60 }
    requires empty { buffer.old ≡ [] }
    ensures { MatchResult result (λ carried. HasStreams program drop.now carried file.now) (IsDemuxRefused file.now program drop.now) }
{
    match read_streams(alloc, buffer, &mut SliceSource::new(file), program, drop) {
        Ok(carried) => Ok(carried),
        Err(PassFault::Refused(fault)) => Err(fault),
        Err(PassFault::Outside(_)) => Err(DemuxFault::OutOfMemory),
    }
}

/// The PES packets of some streams of a file, as `gather_streams` gathers them of a source.
fn gather_in(
    alloc: Global,
    buffer: &mut PacketBuffer,
    file: &[u8],
    streams: &[Stream],
) -> Result<Vec<PesGatherer>, DemuxFault>
    requires few { length file.now ≤ 2 ^ 60 }
    requires distinct { AreDistinct (map (λ stream. stream.pid) streams.now) }
    ensures { MatchResult result (λ gatherers. AreGathered file.now (map (λ stream. stream.pid) streams.now) gatherers.items) (IsGatherFault file.now (map (λ stream. stream.pid) streams.now)) }
{
    buffer.clear();
    match gather_streams(alloc, buffer, &mut SliceSource::new(file), streams) {
        Ok(gatherers) => Ok(gatherers),
        Err(PassFault::Refused(fault)) => Err(fault),
        Err(PassFault::Outside(_)) => Err(DemuxFault::OutOfMemory),
    }
}

/// The streams that are gathered, in order.
fn all_streams(alloc: Global, gatherers: Vec<PesGatherer>) -> Result<Vec<AudioStream>, DemuxFault>
    ensures ok { IfOk result (λ streams. streams.items ≡ map stream_gathered gatherers.items) }
    ensures memory { IfErr result (λ fault. fault ≡ OutOfMemory) }
{
    let mut gatherers = gatherers;
    let mut streams = Vec::new(alloc);
    while !gatherers.is_empty() {
        let gatherer = gatherers.remove(0);
        let pid = gatherer.pid;
        let units = gatherer.into_units(alloc)?;
        streams.push(AudioStream { pid, units })?;
    }
    Ok(streams)
}
