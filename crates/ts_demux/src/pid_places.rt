//! The packets of one PID in a file (ISO/IEC 13818-1, 2.4.3.2 to 2.4.3.5).
ghost use Rattle.std.specs.Prelude.{◌≡◌, ℕ, ◌+◌, ◌*◌, ◌^◌, ◌<◌, ◌≤◌, All, List, length, IfErr, IfOk, IfSome, MatchResult, OnOk, ◌++◌};
ghost use Rattle.std.specs.Option.{option_to_list};
ghost use Rattle.stream_constants.specs.declared.packets.TheConstants.{PACKET_BYTES, PAYLOAD_BYTES};
ghost use Rattle.ts_packets.specs.PidReader.{carried_at};
ghost use Rattle.ts_packets.specs.TransportStream.{piece_at, piece_count};
ghost use Rattle.ts_demux.specs.Faults.{IsMemory};
ghost use Rattle.ts_demux.specs.PidPlaces.{ArePlaces, IsPlacesFault, pcr_in, place_with};

use crate::demux_fault::{DemuxFault, pid_refused};
use crate::file_packets::{packet_at, place_of};
use list_types::ListOf;
use std::alloc::Global;
use stream_constants::packets::PACKET_BYTES;
use ts_packets::{Packet, PidReader, pid_of};

/// A packet of a PID.
#[derive(Clone, Copy, Debug, PartialEq, Eq)]
pub struct Place {
    /// Its number among the packets of the file, from 0.
    pub packet: u64,
    /// Its program clock reference, in ticks of 1/27,000,000 s.
    pub pcr: Option<u64>,
    /// A section or a PES packet begins in its payload.
    pub start: bool,
    /// Bytes of payload, at most 184; 0 also where its payload is that of the packet before it, sent again.
    pub payload: u8,
}

/// Reads the packets of a file one by one, and gives those of one PID. No packet is kept.
#[derive(Drop)]
pub struct PlaceReader {
    pid: u16,
    packets: PidReader,
}

impl PlaceReader {
    ghost use Rattle.ts_demux.specs.PidPlaces.{IsBeforePlace, TakesPlace};

    /// A reader of the packets of a PID, before the first packet of every file.
    pub fn new(pid: u16) -> PlaceReader
        ensures pid { result.pid ≡ pid }
        ensures stands { (file : List ℕ) → IsBeforePlace file 0 result }
    {
        PlaceReader {
            pid,
            packets: PidReader::new(),
        }
    }

    /// Reads the n-th packet of every file in which the reader stands before it, and answers it where it is one of the PID. An
    /// error is the packet's first fault: no sync byte, or for one of the PID what it is refused for behind the others.
    pub fn take(
        &mut self,
        n: usize,
        bytes: &[u8; PACKET_BYTES],
    ) -> Result<Option<Place>, DemuxFault>
        requires place { PACKET_BYTES * n < 2 ^ 64 }
        ensures taken { (file : List ℕ) → n < piece_count file → bytes.now ≡ piece_at file n → IsBeforePlace file n self.old → TakesPlace file self.old.pid n result }
        ensures behind { (file : List ℕ) → n < piece_count file → bytes.now ≡ piece_at file n → IsBeforePlace file n self.old → IfOk result (λ _. IsBeforePlace file (n + 1) self.new) }
        ensures pid { self.new.pid ≡ self.old.pid }
        ensures fits { IfOk result (λ found. IfSome found (λ place. place.payload ≤ PAYLOAD_BYTES)) }
    {
        let Ok(pid) = pid_of(bytes) else {
            return Err(DemuxFault::Sync { at: place_of(n) });
        };
        if pid != self.pid {
            return Ok(None);
        }
        match self.packets.take(bytes) {
            Ok(taken) => Ok(Some(placed(n, bytes, taken))),
            Err(fault) => Err(pid_refused(place_of(n), fault)),
        }
    }
}

/// The n-th packet of a file, which carries what is taken of it.
fn placed(n: usize, bytes: &[u8; PACKET_BYTES], taken: Option<Packet>) -> Place
    requires { IfSome taken (λ packet. (0 < length packet.payload.now) × (length packet.payload.now ≤ PAYLOAD_BYTES)) }
    ensures place { result ≡ place_with n bytes.now (carried_at (PACKET_BYTES * n) taken.entry) }
    ensures fits { result.payload ≤ PAYLOAD_BYTES }
{
    let pcr = pcr_in(bytes);
    match taken {
        Some(packet) => Place {
            packet: n as u64,
            pcr,
            start: packet.start,
            payload: packet.payload.len() as u8,
        },
        None => Place {
            packet: n as u64,
            pcr,
            start: false,
            payload: 0,
        },
    }
}

/// The program clock reference of a packet's bytes.
fn pcr_in(bytes: &[u8; PACKET_BYTES]) -> Option<u64>
    ensures { result ≡ pcr_in bytes.now }
{
    match Packet::read(bytes) {
        Ok(packet) => match packet.field {
            Some(field) => field.pcr,
            None => None,
        },
        Err(_) => None,
    }
}

/// The packets of a PID in a file, in order. An error is the fault of the first packet that is refused for it: one without the
/// sync byte, or one of the PID for what it is or for those before it; or want of memory.
pub fn places(alloc: Global, file: &[u8], pid: u16) -> Result<ListOf<Place>, DemuxFault>
    ensures places { MatchResult result (ArePlaces file.now pid) (IsPlacesFault file.now pid) }
    ensures fits { IfOk result (λ places. All (λ place. place.payload ≤ PAYLOAD_BYTES) places) }
{
    let mut reader = PlaceReader::new(pid);
    let mut found = ListOf::new(alloc);
    let mut n = 0;
    while let Some(bytes) = packet_at(file, n) {
        let place = match reader.take(n, bytes) {
            Ok(place) => place,
            Err(fault) => return Err(fault),
        };
        push_found(&mut found, place)?;
        n += 1;
    }
    Ok(found)
}

/// Adds a place, where there is one. An error is want of memory.
fn push_found(places: &mut ListOf<Place>, found: Option<Place>) -> Result<(), DemuxFault>
    ensures added { OnOk result (places.new ≡ places.old ++ option_to_list found) }
    ensures fits { All (λ place. place.payload ≤ PAYLOAD_BYTES) places.old → IfSome found (λ place. place.payload ≤ PAYLOAD_BYTES) → OnOk result (All (λ place. place.payload ≤ PAYLOAD_BYTES) places.new) }
    ensures memory { IfErr result IsMemory }
{
    if let Some(place) = found {
        places.push(place)?;
    }
    Ok(())
}
