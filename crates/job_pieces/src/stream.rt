ghost use Rattle.std.specs.Prelude.{◌≡◌, ◌≤◌, All, Option, length, IfErr, IfOk, OnOk};
ghost use Rattle.shelf_io.specs.Files.{Files};
ghost use Rattle.version_table.specs.declared.limits.TheConstants.{SLOT_LEAST, SLOT_MOST};
ghost use Rattle.mux_writer.specs.Layout.{IsLayout};
ghost use Rattle.mux_writer.specs.Output.{IsOfLayout};
ghost use Rattle.mux_writer.specs.Writing.{IsAtFront};
ghost use Rattle.file_pieces.specs.FilePieces.{AreHeld, HaveLanesVersions, LanesHave};
ghost use Rattle.shelf_io.specs.Facts.{shelf_facts};
ghost use Rattle.job_pieces.specs.Appended.{HasEnded, HasStopped, StandApartFrom};
ghost use Rattle.job_pieces.specs.Private.Sending.{CanGoOn};

use crate::lanes_stop::LanesStop;
use crate::room::Room;
use crate::sending::Sending;
use file_pieces::{FilePieces, Lane};
use list_types::OutOfMemory;
use mux_writer::{Layout, StreamWriter};
use shelf_io::Shelf;
use slot_rule::SlotList;
use std::alloc::Global;

/// Streams of files, in the slots of a schedule.
#[derive(Clone, Copy)]
pub struct SentStream<'a> {
    pub lanes: &'a [Lane<'a>],
    pub layout: &'a Layout,
    /// Ticks of a slot.
    pub slot: u32,
    pub slots: &'a SlotList,
}

impl<'a> SentStream<'a> {
    /// Adds the stream to the end of a file, which is none of those that are read.
    pub fn append<K: Shelf>(&self, alloc: Global, shelf: &mut K, out: &str) -> Result<(), LanesStop>
        requires layout { IsLayout self.now.layout.now }
        requires slot_least { SLOT_LEAST ≤ self.now.slot }
        requires slot_most { self.now.slot ≤ SLOT_MOST }
        requires slots { length self.now.slots.now.rows ≡ self.now.slots.now.slots }
        requires rows { All (IsOfLayout self.now.layout.now (LanesHave self.now.lanes.now)) self.now.slots.now.rows }
        requires held { AreHeld (K.files shelf.old) self.now.lanes.now }
        requires versions { HaveLanesVersions (K.files shelf.old) self.now.lanes.now }
        requires apart { StandApartFrom out.now self.now.lanes.now }
        ensures ok { OnOk result (HasEnded self.now.lanes.now self.now.layout.now self.now.slot self.now.slots.now.rows out.now
            (shelf_facts K.files K.counts K.asked K.since_fault shelf.old) (shelf_facts K.files K.counts K.asked K.since_fault shelf.new)) }
        ensures stopped { IfErr result (HasStopped self.now.lanes.now self.now.layout.now self.now.slot self.now.slots.now.rows out.now
            (shelf_facts K.files K.counts K.asked K.since_fault shelf.old) (shelf_facts K.files K.counts K.asked K.since_fault shelf.new)) }
    {
        let mut sending = match self.begin(alloc) {
            Ok(sending) => sending,
            Err(OutOfMemory) => return Err(LanesStop::OutOfMemory),
        };
        loop {
            match sending.append_next(shelf, out, self.lanes) {
                Ok(true) => {}
                Ok(false) => return Ok(()),
                Err(stop) => return Err(stop),
            }
        }
    }

    /// Before the first slot.
    fn begin(&self, alloc: Global) -> Result<Sending<'a>, OutOfMemory>
        requires layout { IsLayout self.now.layout.now }
        requires slot_least { SLOT_LEAST ≤ self.now.slot }
        requires slot_most { self.now.slot ≤ SLOT_MOST }
        requires slots { length self.now.slots.now.rows ≡ self.now.slots.now.slots }
        requires rows { All (IsOfLayout self.now.layout.now (LanesHave self.now.lanes.now)) self.now.slots.now.rows }
        ensures can { IfOk result (λ sending. (told : Option Files) → AreHeld told self.now.lanes.now → HaveLanesVersions told self.now.lanes.now →
            CanGoOn self.now.lanes.now told sending) }
        ensures front { IfOk result (λ sending. IsAtFront self.now.layout.now self.now.slot self.now.slots.now.rows sending.writer) }
    {
        let pieces = FilePieces::new(alloc, self.lanes)?;
        Ok(Sending {
            writer: StreamWriter::new(self.layout, self.slot, self.slots),
            pieces,
            room: Room::new(),
        })
    }
}
