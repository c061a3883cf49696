ghost use Rattle.std.specs.Prelude.{◌≡◌, None, Option, IfOk, IsErrOf, IsSome};
ghost use Rattle.shelf_io.specs.Files.{Files};
ghost use Rattle.mux_writer.specs.Pieces.{HasPayloadSize};
ghost use Rattle.file_pieces.specs.FilePieces.{AreHeld, AreServed, HasServed, IsSentIn, IsServed, LaneHas, LanesHave, lane_name};
ghost use Rattle.file_pieces.specs.Private.Calls.{IsSentOf, counts_behind, fault_told, stop_for};
ghost use Rattle.file_pieces.specs.Reads.{ReadsFile};

use crate::again_fault::AgainFault;
use crate::lane::Lane;
use crate::lane_state::LaneState;
use list_types::OutOfMemory;
use mux_writer::Filled;
use shelf_io::{Fault, Shelf};
use std::alloc::Global;
use stream_constants::packets::PAYLOAD_BYTES;

/// A piece by its numbers: those of its stream, of its item within the stream, and its own within the item.
#[derive(Clone, Copy, Debug, PartialEq, Eq)]
pub struct PieceNumber {
    pub stream: u32,
    pub item: u32,
    pub piece: u32,
}

/// What stopped the pieces of files.
#[derive(Clone, Copy, Debug, PartialEq, Eq)]
pub struct PiecesStop {
    /// The number of the stream that was read.
    pub stream: u32,
    /// Failed, where a read of its file failed or the file has changed; Missing where it isn't held.
    pub fault: Fault,
}

/// What is kept of the streams of files between calls for their pieces.
#[derive(Drop)]
pub struct FilePieces {
    states: Vec<LaneState>,
    stop: Option<PiecesStop>,
}

impl FilePieces {
    /// Before the first piece of these streams.
    pub fn new(alloc: Global, lanes: &[Lane<'_>]) -> Result<FilePieces, OutOfMemory>
        ensures served { IfOk result (λ pieces. (told : Option Files) → AreHeld told lanes.now → AreServed told lanes.now pieces.states.items) }
        ensures going { IfOk result (λ pieces. pieces.stop ≡ None) }
    {
        let mut states = Vec::with_capacity(alloc, lanes.len())?;
        for lane in lanes {
            let _ = lane;
            states.push(LaneState::new(alloc))?;
        }
        Ok(FilePieces { states, stop: None })
    }

    /// What stopped the pieces, or None while they go on.
    pub fn stop(&self) -> Option<PiecesStop>
        ensures { result ≡ self.now.stop }
    {
        self.stop
    }

    /// Puts a piece of a stream into the front of `into`. A fault of the outside stops the pieces.
    pub fn piece<K: Shelf>(
        &mut self,
        shelf: &mut K,
        lanes: &[Lane<'_>],
        number: PieceNumber,
        into: &mut [u8; PAYLOAD_BYTES],
    ) -> Result<Filled, Fault>
        requires going { self.old.stop ≡ None }
        requires served { AreServed (K.files shelf.old) lanes.now self.old.states.items }
        requires piece { LanesHave lanes.now number.stream number.item number.piece }
        ensures served { AreServed (K.files shelf.old) lanes.now self.new.states.items }
        ensures size { IfOk result (λ filled. HasPayloadSize filled.bytes) }
        ensures piece { IfOk result (IsSentIn (K.files shelf.old) lanes.now number.stream number.item number.piece into.new) }
        ensures failed { IsErrOf result Fault.Failed → IsSome self.new.stop }
        ensures missing { ¬ IsErrOf result Fault.Missing }
        ensures shelf { HasServed lanes.now self.new.stop (K.files shelf.old) (K.files shelf.new) (K.counts shelf.old) (K.counts shelf.new) (K.since_fault shelf.new)
            (K.asked shelf.old) (K.asked shelf.new) }
    {
        let stream = number.stream as usize;
        let lane = &lanes[stream];
        let state = &mut self.states[stream];
        match lane_piece(state, shelf, lane, number, into) {
            Ok(filled) => Ok(filled),
            Err(fault) => Err(self.end(shelf, lane.name(), number.stream, fault)),
        }
    }

    /// Ends the pieces for a fault, but for want of memory. Of what has changed the shelf is told.
    fn end<K: Shelf>(&mut self, shelf: &mut K, name: &str, stream: u32, fault: AgainFault) -> Fault
        requires changed { fault ≡ AgainFault.Changed → K.files shelf.old ≡ None }
        ensures result { result ≡ fault_told fault }
        ensures stop { self.new.stop ≡ stop_for stream fault self.old.stop }
        ensures states { self.new.states.items ≡ self.old.states.items }
        ensures files { K.files shelf.new ≡ K.files shelf.old }
        ensures counts { K.counts shelf.new ≡ counts_behind fault (K.counts shelf.old) }
        ensures asked { K.asked shelf.new ≡ K.asked shelf.old }
        ensures last { fault ≡ AgainFault.Changed → K.since_fault shelf.new ≡ 0 }
        ensures since { (fault ≡ AgainFault.Changed → ⊥) → K.since_fault shelf.new ≡ K.since_fault shelf.old }
    {
        let fault = match fault {
            AgainFault::OutOfMemory => return Fault::OutOfMemory,
            AgainFault::Failed => Fault::Failed,
            AgainFault::Missing => Fault::Missing,
            AgainFault::Changed => {
                shelf.distrust(name);
                Fault::Failed
            }
        };
        self.stop = Some(PiecesStop { stream, fault });
        Fault::Failed
    }
}

/// Puts a piece of a stream into the front of `into`.
fn lane_piece<K: Shelf>(
    state: &mut LaneState,
    shelf: &mut K,
    lane: &Lane<'_>,
    number: PieceNumber,
    into: &mut [u8; PAYLOAD_BYTES],
) -> Result<Filled, AgainFault>
    requires served { IsServed (K.files shelf.old) lane.now state.old }
    requires piece { LaneHas lane.now number.item number.piece }
    ensures served { IsServed (K.files shelf.old) lane.now state.new }
    ensures size { IfOk result (λ filled. HasPayloadSize filled.bytes) }
    ensures piece { IfOk result (IsSentOf (K.files shelf.old) lane.now number.item number.piece into.new) }
    ensures changed { IsErrOf result AgainFault.Changed → K.files shelf.old ≡ None }
    ensures reads { ReadsFile (lane_name lane.now) (IsErrOf result AgainFault.Failed) (IsErrOf result AgainFault.Missing) (K.files shelf.old) (K.files shelf.new)
        (K.counts shelf.old) (K.counts shelf.new) (K.since_fault shelf.new) (K.asked shelf.old) (K.asked shelf.new) }
{
    match lane {
        Lane::Video(video) => state.video_piece(
            shelf,
            video,
            number.item as usize,
            number.piece,
            into,
        ),
        Lane::Audio(audio) => state.audio_piece(shelf, audio, number.item as usize, into),
    }
}
