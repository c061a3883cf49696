//! The packets of a PID, out of a source that gives their file.
ghost use Rattle.std.specs.Prelude.{◌≡◌, ◌∷◌, ◌++◌, ◌<◌, ◌≤◌, ◌^◌, [], List, IfErr, IfSome, IsErrOf, OnOk};
ghost use Rattle.std.specs.Option.{option_to_list};
ghost use Rattle.stream_constants.specs.declared.packets.TheConstants.{PAYLOAD_BYTES};
ghost use Rattle.shelf_io.specs.Causes.{SourceCauses};
ghost use Rattle.ts_demux.specs.declared.pid_places.Place.{Place};
ghost use Rattle.ts_demux.specs.declared.pass_fault.PassFault.TheVariants.{Outside};
ghost use Rattle.ts_demux.specs.Demux.{AreStreamsSound};
ghost use Rattle.ts_demux.specs.Pass.{IsWhole};
ghost use Rattle.ts_demux.specs.PidPlaces.{places_on};
ghost use Rattle.stream_audit.specs.declared.places_fault.PlacesFault.TheVariants as faults;
ghost use Rattle.stream_audit.specs.PlacePass.{IsPassRefused};

use crate::place_walk::PlaceWalk;
use crate::places_fault::{PACKETS_MOST, PlacesFault};
use shelf_io::{Fault, Source};
use ts_demux::{PacketBuffer, PassFault, Place, PlaceReader};

/// Hands the packets of a PID to a walk that has taken nothing yet, one by one, out of a source that gives their file from its front on. No
/// packet is kept. An error is the source's fault, that of the first packet that is refused for the PID, or that there are more packets
/// than `PACKETS_MOST`.
pub fn pass_places<S: Source, W: PlaceWalk>(
    buffer: &mut PacketBuffer,
    source: &mut S,
    pid: u16,
    walk: &mut W,
) -> Result<(), PlacesFault>
    requires empty { buffer.old ≡ [] }
    requires begins { W.has_taken walk.old [] walk.old }
    ensures taken { OnOk result (IsWhole (S.left source.old) (S.left source.new) (S.most source.old) (S.most source.new) buffer.new
        (λ file. AreStreamsSound file (pid ∷ []) × W.has_taken walk.old (places_on file pid) walk.new)) }
    ensures refused { IfErr result (IsPassRefused (S.left source.old) (S.left source.new) (S.most source.old) (S.most source.new) buffer.new pid) }
    ensures causes { SourceCauses S.faults S.absences (IsErrOf result (faults.Passing (Outside Fault.Failed))) (IsErrOf result (faults.Passing (Outside Fault.Missing))) source.old source.new }
    ensures keeps { S.keeps source.old source.new }
{
    let mut reader = PlaceReader::new(pid);
    let mut n = 0;
    'packets: loop {
        match buffer.fill(source) {
            Ok(()) => {}
            Err(fault) => return Err(PlacesFault::Passing(PassFault::Outside(fault))),
        }
        let Some(packet) = buffer.first() else {
            return Ok(());
        };
        let taken = reader.take(n, packet);
        buffer.pass();
        if n >= PACKETS_MOST {
            return Err(PlacesFault::TooMany);
        }
        match taken {
            Ok(found) => {
                hand_on(walk, found);
                n += 1;
            }
            Err(fault) => return Err(PlacesFault::Passing(PassFault::Refused(fault))),
        }
    }
}

/// Hands a packet to a walk, where there is one.
fn hand_on<W: PlaceWalk>(walk: &mut W, found: Option<Place>)
    requires number { IfSome found (λ place. place.packet < 2 ^ 32) }
    requires payload { IfSome found (λ place. place.payload ≤ PAYLOAD_BYTES) }
    requires taken { (start : W) × (places : List Place) × W.has_taken start places walk.old }
    ensures { (start : W) (places : List Place) → W.has_taken start places walk.old → W.has_taken start (places ++ option_to_list found) walk.new }
{
    if let Some(place) = found {
        walk.see(&place);
    }
}
