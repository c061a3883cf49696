ghost use Rattle.std.specs.Prelude.{◌≡◌, ◌≤◌, ◌<◌, ℕ, List, [], Some, None, true, false, length, IfOk, IfErr, OnOk, OnErr, IsErrOf, ◌↔◌, IsTrue};
ghost use Rattle.shelf_io.specs.Asked.{AsksNothing};
ghost use Rattle.shelf_io.specs.Causes.{WriteCauses};
ghost use Rattle.slot_rule.specs.declared.sent.Sent.{Sent};
ghost use Rattle.mux_writer.specs.declared.layout.Layout.{Layout};
ghost use Rattle.file_pieces.specs.FilePieces.{HasServed};
ghost use Rattle.shelf_io.specs.Facts.{ShelfFacts, shelf_facts};
ghost use Rattle.job_pieces.specs.Appended.{ChangesAlone, HasGained, HasGainedFront, HasStopped, StandApartFrom};
ghost use Rattle.job_pieces.specs.Private.Sending.{CanGoOn, HasFilled, HasSent, stop_of};

use crate::fill::fill_from;
use crate::lanes_stop::LanesStop;
use crate::room::Room;
use file_pieces::{FilePieces, Lane};
use mux_writer::StreamWriter;
use shelf_io::{Fault, Shelf, Writing, put_all};

/// A stream that is made of files, as far as it is written.
#[derive(Drop)]
pub(crate) struct Sending<'a> {
    pub(crate) writer: StreamWriter<'a>,
    pub(crate) pieces: FilePieces,
    /// The packets that are added next.
    pub(crate) room: Room,
}

impl<'a> Sending<'a> {
    /// Adds the packets of the next slots to a file, as many as are added together: false where no slot is left.
    pub(crate) fn append_next<K: Shelf>(
        &mut self,
        shelf: &mut K,
        out: &str,
        lanes: &[Lane<'_>],
    ) -> Result<bool, LanesStop>
        requires can { CanGoOn lanes.now (K.files shelf.old) self.old }
        requires apart { StandApartFrom out.now lanes.now }
        ensures can { OnOk result (CanGoOn lanes.now (K.files shelf.new) self.new) }
        ensures rows { self.new.writer.rows ≡ self.old.writer.rows }
        ensures on { IfOk result (λ more. more ≡ true → self.old.writer.at < self.new.writer.at) }
        ensures end { IfOk result (λ more. more ≡ false → length self.new.writer.rows ≤ self.new.writer.at) }
        ensures sent { (layout : Layout) (slot : ℕ) (rows : List Sent) (first : ShelfFacts) →
            HasSent lanes.now layout slot rows out.now first (shelf_facts K.files K.counts K.asked K.since_fault shelf.old) self.old.writer →
            OnOk result (HasSent lanes.now layout slot rows out.now first (shelf_facts K.files K.counts K.asked K.since_fault shelf.new) self.new.writer) }
        ensures stopped { (layout : Layout) (slot : ℕ) (rows : List Sent) (first : ShelfFacts) →
            HasSent lanes.now layout slot rows out.now first (shelf_facts K.files K.counts K.asked K.since_fault shelf.old) self.old.writer →
            IfErr result (HasStopped lanes.now layout slot rows out.now first (shelf_facts K.files K.counts K.asked K.since_fault shelf.new)) }
    {
        match self.fill(shelf, lanes) {
            Ok(()) => {}
            Err(stop) => return Err(stop),
        }
        let more = self.has_packets();
        match self.put(shelf, out) {
            Ok(()) => Ok(more),
            Err(fault) => Err(of_write(fault)),
        }
    }

    /// Fills the room.
    fn fill<K: Shelf>(&mut self, shelf: &mut K, lanes: &[Lane<'_>]) -> Result<(), LanesStop>
        requires can { CanGoOn lanes.now (K.files shelf.old) self.old }
        ensures rows { self.new.writer.rows ≡ self.old.writer.rows }
        ensures filled { OnOk result (HasFilled lanes.now (K.files shelf.old) self.old self.new) }
        ensures going { OnOk result (self.new.pieces.stop ≡ None) }
        ensures stopped { IfErr result (λ stop. stop ≡ stop_of self.new.pieces.stop) }
        ensures shelf { HasServed lanes.now self.new.pieces.stop (K.files shelf.old) (K.files shelf.new) (K.counts shelf.old) (K.counts shelf.new) (K.since_fault shelf.new)
            (K.asked shelf.old) (K.asked shelf.new) }
    {
        let filled = fill_from(
            shelf,
            lanes,
            &mut self.pieces,
            &mut self.writer,
            &mut self.room,
        );
        match self.pieces.stop() {
            Some(stop) => Err(LanesStop::Unread(stop)),
            None => match filled {
                Ok(()) => Ok(()),
                Err(fault) => Err(no_memory(fault)),
            },
        }
    }

    /// Whether there are packets to be added.
    fn has_packets(&self) -> bool
        ensures some { result ≡ true → ¬ (self.now.room ≡ []) }
        ensures none { result ≡ false → self.now.room ≡ [] }
    {
        !self.room.as_slice().is_empty()
    }

    /// Adds the packets in the room to a file.
    fn put<K: Shelf>(&mut self, shelf: &mut K, out: &str) -> Result<(), Fault>
        ensures alone { ChangesAlone out.now (K.files shelf.old) (K.files shelf.new) }
        ensures ok { OnOk result (HasGained out.now self.old.room (K.files shelf.old) (K.files shelf.new)) }
        ensures err { OnErr result (HasGainedFront out.now self.old.room (K.files shelf.old) (K.files shelf.new)) }
        ensures empty { OnOk result (self.new.room ≡ []) }
        ensures pieces { self.new.pieces ≡ self.old.pieces }
        ensures writer { self.new.writer ≡ self.old.writer }

        ensures asked { AsksNothing (K.asked shelf.old) (K.asked shelf.new) }
        ensures causes { WriteCauses (IsErrOf result Fault.Failed) (IsErrOf result Fault.Missing) (K.counts shelf.old) (K.counts shelf.new) }
        ensures fault_last { OnErr result (K.since_fault shelf.new ≡ 0) }
    {
        match put_all(&mut Writing::new(shelf, out), self.room.as_slice()) {
            Ok(()) => {
                self.room.clear();
                Ok(())
            }
            Err(fault) => Err(fault),
        }
    }
}

/// What stops the writing where pieces weren't stopped by their files.
fn no_memory(fault: Fault) -> LanesStop
    ensures { result ≡ LanesStop.OutOfMemory }
{
    let _ = fault;
    LanesStop::OutOfMemory
}

/// What a fault of writing stops.
fn of_write(fault: Fault) -> LanesStop
    ensures failed { fault ≡ Fault.Failed → result ≡ LanesStop.Unwritten }
    ensures memory { fault ≡ Fault.OutOfMemory → result ≡ LanesStop.OutOfMemory }
{
    match fault {
        Fault::Failed => LanesStop::Unwritten,
        Fault::Missing => LanesStop::OutOfMemory,
        Fault::OutOfMemory => LanesStop::OutOfMemory,
    }
}
