ghost use Rattle.std.specs.Prelude.{◌≡◌, ℕ, ◌+◌, ◌*◌, ◌^◌, ◌<◌, ◌≤◌, ◌⊎◌, List, [], map, length, Option, None, IfOk, IfErr, OnOk, IsErrOf, MatchResult};
ghost use Rattle.std.specs.Option.{option_copied};
ghost use Rattle.stream_constants.specs.declared.packets.TheConstants.{PACKET_BYTES};
ghost use Rattle.shelf_io.specs.Causes.{SourceCauses};
ghost use Rattle.shelf_io.specs.Source.{source_bytes_most};
ghost use Rattle.ts_packets.specs.TransportStream.{piece_at, piece_count};
ghost use Rattle.ts_demux.specs.declared.demuxed.PesUnit.{PesUnit};
ghost use Rattle.ts_demux.specs.declared.pass_fault.PassFault.TheVariants.{Outside};
ghost use Rattle.ts_demux.specs.CarriedPackets.{AreDistinct};
ghost use Rattle.ts_demux.specs.Demux.{IsFirstStreamFault};
ghost use Rattle.ts_demux.specs.Faults.{IsMemory};
ghost use Rattle.ts_demux.specs.Pass.{IsEarly, OnRefused};

use crate::open_packet::OpenPacket;
use psi_tables::Stream;
use shelf_io::{Fault, Source};
use std::alloc::Global;
use stream_constants::packets::PACKET_BYTES;
use ts_demux::{CarriedPackets, DemuxFault, PacketBuffer, PassFault, PesUnit};

/// The PES packets of one of some streams, one after the other, out of the transport packets of a source from its front on. The packets of the
/// other streams are read too, since the first of all that is refused is a file's refusal.
#[derive(Drop)]
pub struct PassingPackets {
    packets: CarriedPackets,
    /// The number of the stream whose PES packets are given.
    index: usize,
    /// How many transport packets were read.
    read: usize,
    pes: OpenPacket,
}

impl PassingPackets {
    ghost use Rattle.pes_passing.specs.PassingPackets.{count_of, Goes, HasPassed, held_of, index_of, pids_of, read_of, StandsIn};
    ghost use Rattle.pes_passing.specs.Private.OpenPacket.{ended_behind, Holds};

    /// A reader of the stream that has this number among some, before the first packet of every source. An error is want of memory.
    pub fn new(
        alloc: Global,
        streams: &[Stream],
        index: usize,
    ) -> Result<PassingPackets, DemuxFault>
        requires { index < length streams.now }
        ensures passed { IfOk result (λ packets. (left : Option (List ℕ)) (most : ℕ) → most ≤ source_bytes_most → HasPassed left left most most [] [] packets) }
        ensures streams { IfOk result (λ packets. (pids_of packets ≡ map (λ stream. stream.pid) streams.now) × (index_of packets ≡ index)) }
        ensures memory { IfErr result IsMemory }
    {
        let packets = match CarriedPackets::new(alloc, streams) {
            Ok(packets) => packets,
            Err(fault) => return Err(fault),
        };
        Ok(PassingPackets {
            packets,
            index,
            read: 0,
            pes: OpenPacket::new(alloc),
        })
    }

    /// Reads on until a PES packet has ended, and answers true; or up to the source's end, and answers false. Then `packet` is that one, or the last one,
    /// which the source's end may cut. An error is the source's fault, want of memory, or that of the first transport packet that is refused.
    pub fn next<S: Source>(
        &mut self,
        buffer: &mut PacketBuffer,
        source: &mut S,
    ) -> Result<bool, PassFault>
        requires distinct { AreDistinct (pids_of self.old) }
        requires stands { (left : Option (List ℕ)) × (most : ℕ) × (ended : List PesUnit) × HasPassed left (S.left source.old) most (S.most source.old) buffer.old ended self.old }
        ensures passed { (left : Option (List ℕ)) (most : ℕ) (ended : List PesUnit) → HasPassed left (S.left source.old) most (S.most source.old) buffer.old ended self.old →
            IfOk result (λ more. Goes more left (S.left source.new) most (S.most source.new) buffer.new ended self.new) }
        ensures refused { (left : Option (List ℕ)) (most : ℕ) (ended : List PesUnit) → HasPassed left (S.left source.old) most (S.most source.old) buffer.old ended self.old →
            IfErr result (λ fault. OnRefused fault (λ refusal. IsMemory refusal
            ⊎ IsEarly left (S.left source.new) most (S.most source.new) buffer.new (λ file. IsFirstStreamFault file (pids_of self.old) refusal))) }
        ensures same { OnOk result ((pids_of self.new ≡ pids_of self.old) × (index_of self.new ≡ index_of self.old) × (read_of self.old ≤ read_of self.new)) }
        ensures causes { SourceCauses S.faults S.absences (IsErrOf result (Outside Fault.Failed)) (IsErrOf result (Outside Fault.Missing)) source.old source.new }
        ensures keeps { S.keeps source.old source.new }
    {
        match self.pes.turn() {
            Ok(()) => {}
            Err(fault) => return Err(PassFault::Refused(fault)),
        }
        loop {
            match buffer.fill(source) {
                Ok(()) => {}
                Err(fault) => return Err(PassFault::Outside(fault)),
            }
            let Some(packet) = buffer.first() else {
                return Ok(false);
            };
            let taken = self.take(packet);
            buffer.pass();
            match taken {
                Ok(true) => return Ok(true),
                Ok(false) => {}
                Err(fault) => return Err(PassFault::Refused(fault)),
            }
        }
    }

    /// The PES packet that has ended last, or behind the source's end the last one; None before the first begins.
    pub fn packet(&self) -> Option<&PesUnit>
        ensures { option_copied result ≡ held_of self.now }
    {
        self.pes.held.as_ref()
    }

    /// How many PES packets have ended.
    pub fn count(&self) -> u64
        ensures { result ≡ count_of self.now }
    {
        self.pes.count
    }

    /// How many transport packets were read.
    pub fn packets_read(&self) -> usize
        ensures { result ≡ read_of self.now }
    {
        self.read
    }

    /// Takes the next packet of every file in which it stands before it, and answers whether that ends the held PES packet.
    fn take(&mut self, packet: &[u8; PACKET_BYTES]) -> Result<bool, DemuxFault>
        requires place { PACKET_BYTES * self.old.read + PACKET_BYTES < 2 ^ 64 }
        requires distinct { AreDistinct (pids_of self.old) }
        requires turned { self.old.pes.begun ≡ None }
        requires few { self.old.pes.count ≤ self.old.read }
        ensures taken { (file : List ℕ) (ended : List PesUnit) → self.old.read < piece_count file → packet.now ≡ piece_at file self.old.read → StandsIn file ended self.old →
            IfOk result (λ ends. StandsIn file (ended_behind ends ended self.new.pes.held) self.new) }
        ensures holds { IfOk result (λ ends. Holds ends self.new.pes) }
        ensures refused { IfErr result (λ fault. IsMemory fault
            ⊎ ((file : List ℕ) (ended : List PesUnit) → self.old.read < piece_count file → packet.now ≡ piece_at file self.old.read → StandsIn file ended self.old →
            IsFirstStreamFault file (pids_of self.old) fault)) }
        ensures same { OnOk result ((pids_of self.new ≡ pids_of self.old) × (self.new.index ≡ self.old.index) × (self.new.read ≡ self.old.read + 1)) }
    {
        let found = match self.packets.take(self.read, packet) {
            Ok(found) => found,
            Err(fault) => return Err(fault),
        };
        self.read += 1;
        let Some(found) = found else {
            return Ok(false);
        };
        if found.index != self.index {
            return Ok(false);
        }
        self.pes.add(found.at, found.start, found.payload)
    }
}
