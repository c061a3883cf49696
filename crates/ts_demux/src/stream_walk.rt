ghost use Rattle.std.specs.Prelude.{◌≡◌, ℕ, ◌+◌, ◌*◌, ◌^◌, ◌<◌, ◌⊎◌, List, [], map, IfOk, IfErr, OnOk, IsErrOf, MatchResult};
ghost use Rattle.stream_constants.specs.declared.packets.TheConstants.{PACKET_BYTES};
ghost use Rattle.shelf_io.specs.Causes.{SourceCauses};
ghost use Rattle.ts_packets.specs.TransportStream.{piece_at, piece_count};
ghost use Rattle.ts_demux.specs.declared.pass_fault.PassFault.TheVariants.{Outside};
ghost use Rattle.ts_demux.specs.CarriedPackets.{AreDistinct};
ghost use Rattle.ts_demux.specs.Pass.{IsEarly, IsWhole, OnRefused};
ghost use Rattle.ts_demux.specs.Demux.{IsFirstStreamFault};
ghost use Rattle.ts_demux.specs.Private.PesGatherer.{AllGather, gatherer_pids};
ghost use Rattle.ts_demux.specs.Private.StreamWalk.{AreGathered};
ghost use Rattle.ts_demux.specs.Faults.{IsMemory};

use crate::carried_packets::CarriedPackets;
use crate::demux_fault::DemuxFault;
use crate::packet_buffer::PacketBuffer;
use crate::pass_fault::PassFault;
use crate::pes_gatherer::PesGatherer;
use psi_tables::Stream;
use shelf_io::{Fault, Source};
use std::alloc::Global;
use stream_constants::packets::PACKET_BYTES;

/// Gathers the PES packets of some streams, packet by packet.
#[derive(Drop)]
pub struct StreamGatherers {
    packets: CarriedPackets,
    /// One for each stream, in order.
    pub gatherers: Vec<PesGatherer>,
}

impl StreamGatherers {
    ghost use Rattle.ts_demux.specs.CarriedPackets.{pids_read};
    ghost use Rattle.ts_demux.specs.Private.StreamWalk.{AreBeside, GathersUpTo};

    /// Those of some streams, before the first packet of every file. An error is want of memory.
    pub fn new(alloc: Global, streams: &[Stream]) -> Result<StreamGatherers, DemuxFault>
        ensures { MatchResult result (λ walk. (pids_read walk.packets ≡ map (λ stream. stream.pid) streams.now) × AreBeside walk × ((file : List ℕ) → GathersUpTo file 0 walk)) IsMemory }
    {
        let packets = match CarriedPackets::new(alloc, streams) {
            Ok(packets) => packets,
            Err(fault) => return Err(fault),
        };
        let gatherers = match new_gatherers(alloc, streams) {
            Ok(gatherers) => gatherers,
            Err(fault) => return Err(fault),
        };
        Ok(StreamGatherers { packets, gatherers })
    }

    /// Takes the n-th packet of every file in which they stand before it.
    pub fn take(
        &mut self,
        alloc: Global,
        n: usize,
        bytes: &[u8; PACKET_BYTES],
    ) -> Result<(), DemuxFault>
        requires place { PACKET_BYTES * n < 2 ^ 64 }
        requires distinct { AreDistinct (pids_read self.old.packets) }
        requires beside { AreBeside self.old }
        requires stands { (file : List ℕ) × GathersUpTo file n self.old }
        ensures taken { (file : List ℕ) → n < piece_count file → bytes.now ≡ piece_at file n → GathersUpTo file n self.old → OnOk result (GathersUpTo file (n + 1) self.new) }
        ensures refused { IfErr result (λ fault. IsMemory fault ⊎ ((file : List ℕ) → n < piece_count file → bytes.now ≡ piece_at file n → GathersUpTo file n self.old →
            IsFirstStreamFault file (pids_read self.old.packets) fault)) }
        ensures pids { OnOk result ((pids_read self.new.packets ≡ pids_read self.old.packets) × AreBeside self.new) }
    {
        let found = match self.packets.take(n, bytes) {
            Ok(found) => found,
            Err(fault) => return Err(fault),
        };
        let Some(found) = found else {
            return Ok(());
        };
        self.gatherers[found.index].add(alloc, found.at, found.start, found.payload)
    }
}

/// A gatherer for each of some streams.
fn new_gatherers(alloc: Global, streams: &[Stream]) -> Result<Vec<PesGatherer>, DemuxFault>
    ensures { MatchResult result (λ gatherers. ((file : List ℕ) → AllGather file 0 gatherers.items) × (gatherer_pids gatherers.items ≡ map (λ stream. stream.pid) streams.now)) IsMemory }
{
    let mut gatherers = Vec::new(alloc);
    for stream in streams {
        gatherers.push(PesGatherer::new(alloc, stream.pid))?;
    }
    Ok(gatherers)
}

/// Gathers the PES packets of some streams, whose PIDs differ, from all packets of a source, in the streams' order. An
/// error is the source's fault, want of memory, or the first packet's that is refused.
pub fn gather_streams<S: Source>(
    alloc: Global,
    buffer: &mut PacketBuffer,
    source: &mut S,
    streams: &[Stream],
) -> Result<Vec<PesGatherer>, PassFault>
    requires empty { buffer.old ≡ [] }
    requires distinct { AreDistinct (map (λ stream. stream.pid) streams.now) }
    ensures gathered { IfOk result (λ gatherers. IsWhole (S.left source.old) (S.left source.new) (S.most source.old) (S.most source.new) buffer.new (λ file. AreGathered file (map (λ stream. stream.pid) streams.now) gatherers.items)) }
    ensures refused { IfErr result (λ fault. OnRefused fault (λ refusal. IsMemory refusal ⊎ IsEarly (S.left source.old) (S.left source.new) (S.most source.old) (S.most source.new) buffer.new (λ file. IsFirstStreamFault file (map (λ stream. stream.pid) streams.now) refusal))) }
    ensures causes { SourceCauses S.faults S.absences (IsErrOf result (Outside Fault.Failed)) (IsErrOf result (Outside Fault.Missing)) source.old source.new }
    ensures keeps { S.keeps source.old source.new }
{
    let mut walk = match StreamGatherers::new(alloc, streams) {
        Ok(walk) => walk,
        Err(fault) => return Err(PassFault::Refused(fault)),
    };
    let mut n = 0;
    loop {
        match buffer.fill(source) {
            Ok(()) => {}
            Err(fault) => return Err(PassFault::Outside(fault)),
        }
        let Some(packet) = buffer.first() else {
            return Ok(walk.gatherers);
        };
        let taken = walk.take(alloc, n, packet);
        buffer.pass();
        match taken {
            Ok(()) => n += 1,
            Err(fault) => return Err(PassFault::Refused(fault)),
        }
    }
}
