//! The sections of PID 0 and of the PID of a program's map, as the decoder's system buffers get them (ISO/IEC 13818-1, 2.4.2.3).
ghost use Rattle.std.specs.Prelude.{◌≡◌, ◌*◌, ◌+◌, ◌++◌, ◌^◌, ◌<◌, ◌≤◌, ◌∷◌, ℕ, List, [], All, IfErr, IfOk, IfSome, MatchResult, OnOk, length, map};
ghost use Rattle.std.specs.Option.{option_to_list};
ghost use Rattle.stream_constants.specs.declared.packets.TheConstants.{PACKET_BYTES, PAYLOAD_BYTES};
ghost use Rattle.ts_packets.specs.TransportStream.{piece_at, piece_count};
ghost use Rattle.tstd_model.specs.PacketBytes.{HasHeaderWithin};
ghost use Rattle.ts_demux.specs.Demux.{AreStreamsSound};
ghost use Rattle.ts_demux.specs.Faults.{IsMemory};
ghost use Rattle.ts_demux.specs.PidPlaces.{IsPlacesFault};
ghost use Rattle.ts_demux.specs.Tables.{pat_pid};
ghost use Rattle.stream_audit.specs.Findings.{CanBeJudged};
ghost use Rattle.stream_audit.specs.Refusals.{IsSystemFault};
ghost use Rattle.stream_audit.specs.Streams.{section_arrival, system_places, system_stream};

use crate::audited_stream::AuditedStream;
use list_types::ListOf;
use std::alloc::Global;
use stream_constants::packets::PACKET_BYTES;
use ts_demux::{DemuxFault, Place, PlaceReader, packet_at, places};
use tstd_model::{Arrival, BufferKind};

/// The PID of the PAT (Table 2-3).
const PAT_PID: u16 = 0;

/// The readers of the packets of PID 0 and of the PID of a map, which may be PID 0 too, side by side.
#[derive(Drop)]
pub struct SectionPlaces {
    pat: PlaceReader,
    map: PlaceReader,
}

impl SectionPlaces {
    ghost use Rattle.stream_audit.specs.Private.Sections.{StandBefore, TakesSection};

    /// Before the first packet of every file.
    pub(crate) fn new(map_pid: u16) -> Self
        ensures { (file : List ℕ) → StandBefore file map_pid 0 result }
    {
        SectionPlaces {
            pat: PlaceReader::new(PAT_PID),
            map: PlaceReader::new(map_pid),
        }
    }

    /// Reads the n-th packet of every file in which they stand before it, and answers it where it is of one of the PIDs. An error is
    /// what refuses it for one of them.
    pub(crate) fn take(
        &mut self,
        n: usize,
        bytes: &[u8; PACKET_BYTES],
    ) -> Result<Option<Place>, DemuxFault>
        requires place { PACKET_BYTES * n < 2 ^ 64 }
        ensures taken { (file : List ℕ) (map_pid : ℕ) → n < piece_count file → bytes.now ≡ piece_at file n → StandBefore file map_pid n self.old → TakesSection file map_pid n result }
        ensures behind { (file : List ℕ) (map_pid : ℕ) → n < piece_count file → bytes.now ≡ piece_at file n → StandBefore file map_pid n self.old →
            IfOk result (λ _. StandBefore file map_pid (n + 1) self.new) }
        ensures fits { IfOk result (λ found. IfSome found (λ place. place.payload ≤ PAYLOAD_BYTES)) }
    {
        let pat = match self.pat.take(n, bytes) {
            Ok(found) => found,
            Err(fault) => return Err(fault),
        };
        let map = match self.map.take(n, bytes) {
            Ok(found) => found,
            Err(fault) => return Err(fault),
        };
        Ok(pat.or(map))
    }
}

/// The packets of the sections of PID 0 and of a map's PID as they come to the decoder. The error is want of memory.
fn section_arrivals(alloc: Global, file: &[u8], map_pid: u16) -> Result<ListOf<Arrival>, DemuxFault>
    requires few { piece_count file.now ≤ 2 ^ 32 }
    requires pat_sound { AreStreamsSound file.now (pat_pid ∷ []) }
    requires map_sound { AreStreamsSound file.now (map_pid ∷ []) }
    ensures arrivals { IfOk result (λ arrivals. arrivals ≡ map section_arrival (system_places file.now map_pid)) }
    ensures headers { IfOk result (All HasHeaderWithin) }
    ensures memory { IfErr result IsMemory }
{
    let mut readers = SectionPlaces::new(map_pid);
    let mut arrivals = ListOf::new(alloc);
    let mut n = 0;
    while let Some(bytes) = packet_at(file, n) {
        let found = match readers.take(n, bytes) {
            Ok(found) => found,
            Err(fault) => return Err(fault),
        };
        push_section(&mut arrivals, found)?;
        n += 1;
    }
    Ok(arrivals)
}

/// Adds a packet of sections, where there is one: all of its payload goes on from TB. An error is want of memory.
pub(crate) fn push_section(
    arrivals: &mut ListOf<Arrival>,
    found: Option<Place>,
) -> Result<(), DemuxFault>
    requires few { IfSome found (λ place. place.packet < 2 ^ 32) }
    requires fits { IfSome found (λ place. place.payload ≤ PAYLOAD_BYTES) }
    ensures added { OnOk result (arrivals.new ≡ arrivals.old ++ map section_arrival (option_to_list found)) }
    ensures headers { All HasHeaderWithin arrivals.old → OnOk result (All HasHeaderWithin arrivals.new) }
    ensures memory { IfErr result IsMemory }
{
    if let Some(place) = found {
        arrivals.push(Arrival {
            slot_no: place.packet as u32,
            header: 0,
            payload: place.payload,
        })?;
    }
    Ok(())
}

/// That no packet of a file is refused for a PID. An error is what refuses the first one that is; or want of memory.
fn check_pid(alloc: Global, file: &[u8], pid: u16) -> Result<(), DemuxFault>
    ensures { MatchResult result (λ _. AreStreamsSound file.now (pid ∷ [])) (IsPlacesFault file.now pid) }
{
    match places(alloc, file, pid) {
        Ok(_) => Ok(()),
        Err(fault) => Err(fault),
    }
}

/// The sections of PID 0 and of the PID of the program's map, as the decoder's system buffers get them; the judge can look at them.
/// An error is what refuses the first packet that is refused for PID 0, else for the map's PID; or want of memory.
pub fn system_stream(alloc: Global, file: &[u8], map_pid: u16) -> Result<AuditedStream, DemuxFault>
    requires few { piece_count file.now ≤ 2 ^ 32 }
    ensures stream { IfOk result (λ stream. stream ≡ system_stream file.now map_pid) }
    ensures sound { IfOk result (λ _. AreStreamsSound file.now (pat_pid ∷ []) × AreStreamsSound file.now (map_pid ∷ [])) }
    ensures judged { IfOk result CanBeJudged }
    ensures refused { IfErr result (IsSystemFault file.now map_pid) }
{
    match check_pid(alloc, file, PAT_PID) {
        Ok(()) => {}
        Err(fault) => return Err(fault),
    }
    match check_pid(alloc, file, map_pid) {
        Ok(()) => {}
        Err(fault) => return Err(fault),
    }
    match section_arrivals(alloc, file, map_pid) {
        Ok(arrivals) => Ok(AuditedStream {
            pid: PAT_PID,
            kind: BufferKind::System,
            arrivals,
            removals: ListOf::new(alloc),
        }),
        Err(fault) => Err(fault),
    }
}
