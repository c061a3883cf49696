ghost use Rattle.std.specs.Prelude.{◌≡◌, ◌≢◌, ℕ, ◌+◌, ◌*◌, ◌^◌, ◌<◌, ◌≤◌, List, Some, map, length, slice_get, IfOk, IfSome, MatchOption, MatchResult};
ghost use Rattle.stream_constants.specs.declared.packets.TheConstants.{PACKET_BYTES, PAYLOAD_BYTES};
ghost use Rattle.ts_packets.specs.TransportStream.{piece_at, piece_count};
ghost use Rattle.ts_demux.specs.Faults.{IsMemory};

use crate::demux_fault::{DemuxFault, pid_refused};
use crate::file_packets::place_of;
use psi_tables::Stream;
use std::alloc::Global;
use stream_constants::packets::{PACKET_BYTES, PAYLOAD_BYTES};
use ts_packets::{PidReader, pid_of};

/// A PID whose packets are carried.
#[derive(Drop)]
pub struct CarriedPid {
    pid: u16,
    packets: PidReader,
}

/// What a packet of a carried PID carries.
#[derive(Clone, Copy)]
pub struct StreamPayload<'a> {
    /// The number of its PID among those that are carried.
    pub index: usize,
    /// The place of its packet in the file, in bytes.
    pub at: u64,
    /// A PES packet begins in it.
    pub start: bool,
    /// 1 to 184 bytes.
    pub payload: &'a [u8],
}

/// Reads the packets of a file one by one, and gives what those of some PIDs carry. No packet is kept.
#[derive(Drop)]
pub struct CarriedPackets {
    streams: Vec<CarriedPid>,
}

impl CarriedPackets {
    ghost use Rattle.ts_demux.specs.CarriedPackets.{pids_read, AreDistinct, StandsAt, TakesPacket};

    /// A reader of the packets of these streams, before the first packet of every file. An error is want of memory.
    pub fn new(alloc: Global, streams: &[Stream]) -> Result<CarriedPackets, DemuxFault>
        ensures { MatchResult result (λ packets. (pids_read packets ≡ map (λ stream. stream.pid) streams.now) × ((file : List ℕ) → StandsAt file 0 packets)) IsMemory }
    {
        let mut read = Vec::new(alloc);
        for stream in streams {
            let packets = PidReader::new();
            read.push(CarriedPid {
                pid: stream.pid,
                packets,
            })?;
        }
        Ok(CarriedPackets { streams: read })
    }

    /// Reads the n-th packet of every file in which the reader stands before it, and answers the payload of a carried PID,
    /// where it has one that doesn't come again. An error is the packet's first fault: no sync byte, or those of a packet
    /// of a carried PID behind the others of its PID.
    pub fn take<'a>(
        &mut self,
        n: usize,
        bytes: &'a [u8; PACKET_BYTES],
    ) -> Result<Option<StreamPayload<'a>>, DemuxFault>
        requires place { PACKET_BYTES * n < 2 ^ 64 }
        requires distinct { AreDistinct (pids_read self.old) }
        ensures taken { (file : List ℕ) → n < piece_count file → bytes.now ≡ piece_at file n → StandsAt file n self.old → TakesPacket file (pids_read self.old) n result }
        ensures behind { (file : List ℕ) → n < piece_count file → bytes.now ≡ piece_at file n → StandsAt file n self.old → IfOk result (λ _. StandsAt file (n + 1) self.new) }
        ensures fits { IfOk result (λ found. IfSome found (λ payload. (0 < length payload.payload.now) × (length payload.payload.now ≤ PAYLOAD_BYTES))) }
        ensures index { IfOk result (λ found. IfSome found (λ payload. payload.index < length (pids_read self.old))) }
        ensures pids { pids_read self.new ≡ pids_read self.old }
    {
        let Ok(pid) = pid_of(bytes) else {
            return Err(DemuxFault::Sync { at: place_of(n) });
        };
        let Some(index) = index_of(self.streams.as_slice(), pid) else {
            return Ok(None);
        };
        let taken = match self.streams[index].packets.take(bytes) {
            Ok(taken) => taken,
            Err(fault) => return Err(pid_refused(place_of(n), fault)),
        };
        let Some(packet) = taken else {
            return Ok(None);
        };
        Ok(Some(StreamPayload {
            index,
            at: place_of(n),
            start: packet.start,
            payload: packet.payload,
        }))
    }
}

/// The number of a PID among those that are carried.
fn index_of(streams: &[CarriedPid], pid: u16) -> Option<usize>
    ensures { MatchOption result ((k : ℕ) → slice_get (map (λ stream. stream.pid) streams.now) k ≢ Some pid) (λ index. slice_get (map (λ stream. stream.pid) streams.now) index ≡ Some pid) }
{
    for (index, stream) in streams.iter().enumerate() {
        if stream.pid == pid {
            return Some(index);
        }
    }
    None
}
