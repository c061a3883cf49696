//! The decoder of one stream, as the packets of its PID pass (ISO/IEC 13818-1, 2.4.2).
ghost use Rattle.std.specs.Prelude.{◌≡◌, ◌∷◌, ◌≤◌, ◌^◌, [], ℕ, All, IfErr, IfOk, IsErrOf, IsTrue, List, None, map};
ghost use Rattle.std.specs.List.Sorted.{IsNonDecreasing};
ghost use Rattle.shelf_io.specs.Causes.{SourceCauses};
ghost use Rattle.tstd_model.specs.declared.decoder_input.PacketPart.{PacketPart};
ghost use Rattle.tstd_model.specs.declared.decoder_input.BufferKind.{BufferKind};
ghost use Rattle.tstd_model.specs.declared.decoder_input.Removal.{Removal};
ghost use Rattle.ts_demux.specs.declared.pass_fault.PassFault.TheVariants.{Outside};
ghost use Rattle.ts_demux.specs.Demux.{AreStreamsSound};
ghost use Rattle.ts_demux.specs.Pass.{IsWhole};
ghost use Rattle.ts_demux.specs.PidPlaces.{places_on};
ghost use Rattle.stream_audit.specs.declared.places_fault.PlacesFault.TheVariants as faults;
ghost use Rattle.stream_audit.specs.Findings.{FindsOn};
ghost use Rattle.stream_audit.specs.PlacePass.{IsPassRefused};
ghost use Rattle.stream_audit.specs.StreamWatch.{BeginsStream, HasTakenStream, brought_stream};

use crate::busy_watch::BusyWatch;
use crate::judge::tb_subticks;
use crate::pes_parts::PesParts;
use crate::place_pass::pass_places;
use crate::place_walk::PlaceWalk;
use crate::places_fault::PlacesFault;
use shelf_io::{Fault, Source};
use ts_demux::{PacketBuffer, Place};
use tstd_model::{BufferKind, PacketWatch, Removal};

/// The decoder of a stream, whose packets are looked at one by one.
#[derive(Drop)]
pub struct StreamWatch<'a> {
    parts: PesParts<'a>,
    watch: PacketWatch<'a>,
    tb: BusyWatch,
}

impl<'a> StreamWatch<'a> {
    /// A stream of which nothing has come, in slots of `slot` ticks: its removals, and what its bytes are.
    pub fn new(slot: u32, kind: BufferKind, removals: &'a [Removal], parts: PesParts<'a>) -> Self
        requires slot_fits { slot ≤ 2 ^ 16 }
        requires dues_fit { All (λ removal. removal.due ≤ 2 ^ 53) removals.now }
        ensures { BeginsStream slot kind removals.now parts.entry result }
    {
        StreamWatch {
            parts,
            watch: PacketWatch::new(slot, kind, removals),
            tb: BusyWatch::new(slot, tb_subticks(kind)),
        }
    }

    /// All packets have come: whether surely nothing is found on it.
    fn is_clean(self) -> bool
        ensures { IsTrue result → (start : StreamWatch) (file : List ℕ) (pid slot : ℕ) (kind : BufferKind) (removals : List Removal) (parts : List PacketPart) → HasTakenStream start (places_on file pid) self.entry → BeginsStream slot kind removals parts start → IsNonDecreasing (map (λ removal. removal.due) removals) → FindsOn slot (brought_stream file pid kind removals parts) None }
    {
        let StreamWatch {
            parts: _parts,
            watch,
            tb,
        } = self;
        if !tb.empties() {
            return false;
        }
        watch.is_clean()
    }
}

impl<'a> PlaceWalk for StreamWatch<'a> {
    ghost use Rattle.stream_audit.specs.StreamWatch.{HasTakenStream};

    ghost has_taken = { λ start places stream. HasTakenStream start places stream };

    fn see(&mut self, place: &Place) {
        let arrival = self.parts.arrival(place);
        self.watch.take(&arrival);
        self.tb.take(&arrival);
    }
}

/// Whether surely nothing is found on the stream on a PID, as its file passes out of a source from its front on; no leaves it open.
/// No packet is kept. An error is the source's fault, that of the first packet that is refused for the PID, or that there are too many
/// packets.
pub fn watch_stream<'a, S: Source>(
    buffer: &mut PacketBuffer,
    source: &mut S,
    pid: u16,
    stream: StreamWatch<'a>,
) -> Result<bool, PlacesFault>
    requires empty { buffer.old ≡ [] }
    ensures clean { (slot : ℕ) (kind : BufferKind) (removals : List Removal) (parts : List PacketPart) → BeginsStream slot kind removals parts stream.entry → IsNonDecreasing (map (λ removal. removal.due) removals) →
        IfOk result (λ clean. IsTrue clean → IsWhole (S.left source.old) (S.left source.new) (S.most source.old) (S.most source.new) buffer.new
        (λ file. AreStreamsSound file (pid ∷ []) × FindsOn slot (brought_stream file pid kind removals parts) None)) }
    ensures refused { IfErr result (IsPassRefused (S.left source.old) (S.left source.new) (S.most source.old) (S.most source.new) buffer.new pid) }
    ensures causes { SourceCauses S.faults S.absences (IsErrOf result (faults.Passing (Outside Fault.Failed))) (IsErrOf result (faults.Passing (Outside Fault.Missing))) source.old source.new }
    ensures keeps { S.keeps source.old source.new }
{
    let mut stream = stream;
    match pass_places(buffer, source, pid, &mut stream) {
        Ok(()) => {}
        Err(fault) => return Err(fault),
    }
    Ok(stream.is_clean())
}
