//! The sections of PID 0 and of the PID of a program's map, out of a source that gives their file (ISO/IEC 13818-1, 2.4.2.3).
ghost use Rattle.std.specs.Prelude.{◌≡◌, ◌∷◌, [], All, IfErr, IfOk, IsErrOf, map};
ghost use Rattle.shelf_io.specs.Causes.{SourceCauses};
ghost use Rattle.tstd_model.specs.PacketBytes.{HasHeaderWithin};
ghost use Rattle.ts_demux.specs.declared.pass_fault.PassFault.TheVariants.{Outside};
ghost use Rattle.ts_demux.specs.Demux.{AreStreamsSound};
ghost use Rattle.ts_demux.specs.Pass.{IsWhole};
ghost use Rattle.ts_demux.specs.Tables.{pat_pid};
ghost use Rattle.stream_audit.specs.declared.places_fault.PlacesFault.TheVariants as faults;
ghost use Rattle.stream_audit.specs.SectionPass.{IsSectionPassRefused};
ghost use Rattle.stream_audit.specs.Streams.{section_arrival, system_places};

use crate::places_fault::{PACKETS_MOST, PlacesFault};
use crate::sections::{SectionPlaces, push_section};
use list_types::ListOf;
use shelf_io::{Fault, Source};
use std::alloc::Global;
use ts_demux::{PacketBuffer, PassFault};
use tstd_model::Arrival;

/// The packets of the sections of PID 0 and of a map's PID as they come to the decoder, out of a source that gives their file from its front
/// on: 8 bytes are kept of each. An error is the source's fault, that of the first packet that is refused for one of the PIDs, that there are more
/// packets than `PACKETS_MOST`, or want of memory, which is said as the source says it.
pub fn pass_sections<S: Source>(
    alloc: Global,
    buffer: &mut PacketBuffer,
    source: &mut S,
    map_pid: u16,
) -> Result<ListOf<Arrival>, PlacesFault>
    requires empty { buffer.old ≡ [] }
    ensures sections { IfOk result (λ arrivals. IsWhole (S.left source.old) (S.left source.new) (S.most source.old) (S.most source.new) buffer.new
        (λ file. AreStreamsSound file (pat_pid ∷ []) × AreStreamsSound file (map_pid ∷ []) × (arrivals ≡ map section_arrival (system_places file map_pid)))) }
    ensures headers { IfOk result (All HasHeaderWithin) }
    ensures refused { IfErr result (IsSectionPassRefused (S.left source.old) (S.left source.new) (S.most source.old) (S.most source.new) buffer.new map_pid) }
    ensures causes { SourceCauses S.faults S.absences (IsErrOf result (faults.Passing (Outside Fault.Failed))) (IsErrOf result (faults.Passing (Outside Fault.Missing))) source.old source.new }
    ensures keeps { S.keeps source.old source.new }
{
    let mut readers = SectionPlaces::new(map_pid);
    let mut arrivals = ListOf::new(alloc);
    let mut n = 0;
    'packets: loop {
        match buffer.fill(source) {
            Ok(()) => {}
            Err(fault) => return Err(PlacesFault::Passing(PassFault::Outside(fault))),
        }
        let Some(packet) = buffer.first() else {
            return Ok(arrivals);
        };
        let taken = readers.take(n, packet);
        buffer.pass();
        if n >= PACKETS_MOST {
            return Err(PlacesFault::TooMany);
        }
        match taken {
            Ok(found) => {
                let Ok(()) = push_section(&mut arrivals, found) else {
                    return Err(PlacesFault::Passing(PassFault::Outside(Fault::OutOfMemory)));
                };
                n += 1;
            }
            Err(fault) => return Err(PlacesFault::Passing(PassFault::Refused(fault))),
        }
    }
}
