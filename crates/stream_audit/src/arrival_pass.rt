//! What the packets of a PID bring to a decoder, out of a source that gives their file (ISO/IEC 13818-1, 2.4.2.3).
ghost use Rattle.std.specs.Prelude.{◌≡◌, ◌∷◌, ◌++◌, [], false, All, IfErr, IfOk, IsErrOf, map};
ghost use Rattle.std.specs.List.Sorted.{IsStrictlyIncreasing};
ghost use Rattle.shelf_io.specs.Causes.{SourceCauses};
ghost use Rattle.tstd_model.specs.PacketBytes.{HasHeaderWithin};
ghost use Rattle.ts_demux.specs.declared.pass_fault.PassFault.TheVariants.{Outside};
ghost use Rattle.ts_demux.specs.Demux.{AreStreamsSound};
ghost use Rattle.ts_demux.specs.Pass.{IsWhole};
ghost use Rattle.ts_demux.specs.PidPlaces.{places_on};
ghost use Rattle.stream_audit.specs.declared.places_fault.PlacesFault.TheVariants as faults;
ghost use Rattle.stream_audit.specs.PesBytes.{brought_by_all};
ghost use Rattle.stream_audit.specs.PlacePass.{IsPassRefused};

use crate::pes_parts::PesParts;
use crate::place_pass::pass_places;
use crate::place_walk::PlaceWalk;
use crate::places_fault::PlacesFault;
use list_types::ListOf;
use shelf_io::{Fault, Source};
use std::alloc::Global;
use ts_demux::{PacketBuffer, PassFault, Place};
use tstd_model::Arrival;

/// A list of what packets bring that come one by one.
#[derive(Drop)]
pub struct ArrivalWalk<'a> {
    parts: PesParts<'a>,
    arrivals: ListOf<Arrival>,
    /// Memory was wanted and not there.
    wanting: bool,
}

impl<'a> PlaceWalk for ArrivalWalk<'a> {
    ghost use Rattle.stream_audit.specs.Private.ArrivalPass.{HasListed};

    ghost has_taken = { λ start places walk. HasListed start places walk };

    fn see(&mut self, place: &Place) {
        let arrival = self.parts.arrival(place);
        self.wanting = is_wanting(&mut self.arrivals, arrival, self.wanting);
    }
}

/// Adds a packet to a list. Answers whether memory was wanted for that, or before.
fn is_wanting(arrivals: &mut ListOf<Arrival>, arrival: Arrival, before: bool) -> bool
    ensures before { result ≡ false → before ≡ false }
    ensures added { result ≡ false → arrivals.new ≡ arrivals.old ++ arrival ∷ [] }
    ensures headers { HasHeaderWithin arrival → All HasHeaderWithin arrivals.old → All HasHeaderWithin arrivals.new }
{
    match arrivals.push(arrival) {
        Ok(()) => before,
        Err(_) => true,
    }
}

/// What the packets of a PID bring to the decoder of its stream, in order, out of a source that gives their file from its front on: 8 bytes are
/// kept of each. An error is the source's fault, that of the first packet that is refused for the PID, that there are too many packets, or want of
/// memory, which is said as the source says it.
pub fn read_arrivals<'a, S: Source>(
    alloc: Global,
    buffer: &mut PacketBuffer,
    source: &mut S,
    pid: u16,
    parts: PesParts<'a>,
) -> Result<ListOf<Arrival>, PlacesFault>
    requires empty { buffer.old ≡ [] }
    ensures arrivals { IfOk result (λ arrivals. IsWhole (S.left source.old) (S.left source.new) (S.most source.old) (S.most source.new) buffer.new
        (λ file. AreStreamsSound file (pid ∷ []) × (arrivals ≡ brought_by_all (places_on file pid) parts.entry))) }
    // What the judge of buffers asks of them.
    ensures slots { IfOk result (λ arrivals. IsStrictlyIncreasing (map (λ arrival. arrival.slot_no) arrivals)) }
    ensures headers { IfOk result (All HasHeaderWithin) }
    ensures refused { IfErr result (IsPassRefused (S.left source.old) (S.left source.new) (S.most source.old) (S.most source.new) buffer.new pid) }
    ensures causes { SourceCauses S.faults S.absences (IsErrOf result (faults.Passing (Outside Fault.Failed))) (IsErrOf result (faults.Passing (Outside Fault.Missing))) source.old source.new }
    ensures keeps { S.keeps source.old source.new }
{
    let arrivals = ListOf::new(alloc);
    let mut walk = ArrivalWalk {
        parts,
        arrivals,
        wanting: false,
    };
    match pass_places(buffer, source, pid, &mut walk) {
        Ok(()) => {}
        Err(fault) => return Err(fault),
    }
    let ArrivalWalk {
        parts: _parts,
        arrivals,
        wanting,
    } = walk;
    if wanting {
        return Err(PlacesFault::Passing(PassFault::Outside(Fault::OutOfMemory)));
    }
    Ok(arrivals)
}
