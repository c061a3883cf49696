ghost use Rattle.std.specs.Prelude.{◌≡◌, ℕ, ◌+◌, ◌<◌, ◌≤◌, ◌^◌, true, None, Option, length, IfOk, IsSome, OnOk, IsErrOf};
ghost use Rattle.shelf_io.specs.Files.{Files};
ghost use Rattle.pes_units.specs.PesPieces.{packets_for};
ghost use Rattle.mux_writer.specs.Pieces.{HasPayloadSize, IsFilledWith};
ghost use Rattle.file_pieces.specs.Lane.{IsAudioHeld, IsAudioLane, IsVideoHeld, IsVideoLane, planned_size};
ghost use Rattle.file_pieces.specs.LaneState.{IsAudioKept, IsAudioSent, IsVideoKept, IsVideoSent};
ghost use Rattle.file_pieces.specs.Reads.{ReadsFile};

use crate::again_fault::AgainFault;
use crate::file_stream::FileStream;
use crate::lane::{AudioLane, VideoLane};
use crate::unit_again::{packet_again, state_again};
use list_types::ListOf;
use mux_writer::Filled;
use shelf_io::Shelf;
use std::alloc::Global;
use stream_constants::packets::PAYLOAD_BYTES;
use syntax_types::SeqState;
use version_source::packet_piece;

/// What is kept of a stream that is sent: how far it is read, and of a video one sequence state and one PES packet.
#[derive(Drop)]
pub struct LaneState {
    file: FileStream,
    /// The number of a unit.
    next: usize,
    /// The state in force before it.
    state: Option<SeqState>,
    /// The PES packet of the unit before it, once a piece of it was asked for.
    packet: Option<ListOf<u8>>,
}

impl LaneState {
    /// Before the first unit or piece.
    pub fn new(alloc: Global) -> LaneState
        ensures video { (told : Option Files) (lane : VideoLane) → IsVideoKept told lane result }
        ensures audio { (told : Option Files) (lane : AudioLane) → IsAudioKept told lane result }
    {
        LaneState {
            file: FileStream::new(alloc),
            next: 0,
            state: None,
            packet: None,
        }
    }

    /// Puts a piece of a unit's PES packet into the front of `into`, which is as long as was planned.
    pub fn video_piece<K: Shelf>(
        &mut self,
        shelf: &mut K,
        lane: &VideoLane<'_>,
        number: usize,
        piece: u32,
        into: &mut [u8; PAYLOAD_BYTES],
    ) -> Result<Filled, AgainFault>
        requires lane { IsVideoLane lane.now }
        requires told { IsVideoHeld (K.files shelf.old) lane.now }
        requires kept { IsVideoKept (K.files shelf.old) lane.now self.old }
        requires number { number < length lane.now.units.now }
        requires piece { piece < packets_for (planned_size lane.now number) }
        ensures kept { IsVideoKept (K.files shelf.old) lane.now self.new }
        ensures size { IfOk result (λ filled. HasPayloadSize filled.bytes) }
        ensures piece { IfOk result (IsVideoSent (K.files shelf.old) lane.now number piece into.new) }
        ensures changed { IsErrOf result AgainFault.Changed → K.files shelf.old ≡ None }
        ensures reads { ReadsFile lane.now.stream.name.now (IsErrOf result AgainFault.Failed) (IsErrOf result AgainFault.Missing) (K.files shelf.old) (K.files shelf.new)
            (K.counts shelf.old) (K.counts shelf.new) (K.since_fault shelf.new) (K.asked shelf.old) (K.asked shelf.new) }
    {
        match self.hold(shelf, lane, number) {
            Ok(()) => {}
            Err(fault) => return Err(fault),
        }
        match &self.packet {
            Some(packet) => Ok(packet_piece(packet.as_slice(), piece, into)),
            None => unreachable!(),
        }
    }

    /// Puts a piece of an audio stream into the front of `into`.
    pub fn audio_piece<K: Shelf>(
        &mut self,
        shelf: &mut K,
        lane: &AudioLane<'_>,
        number: usize,
        into: &mut [u8; PAYLOAD_BYTES],
    ) -> Result<Filled, AgainFault>
        requires lane { IsAudioLane lane.now }
        requires told { IsAudioHeld (K.files shelf.old) lane.now }
        requires kept { IsAudioKept (K.files shelf.old) lane.now self.old }
        requires number { number < length lane.now.pieces.now }
        ensures kept { IsAudioKept (K.files shelf.old) lane.now self.new }
        ensures size { IfOk result (λ filled. HasPayloadSize filled.bytes) }
        ensures piece { IfOk result (IsAudioSent (K.files shelf.old) lane.now number into.new) }
        ensures changed { IsErrOf result AgainFault.Changed → K.files shelf.old ≡ None }
        ensures reads { ReadsFile lane.now.stream.name.now (IsErrOf result AgainFault.Failed) (IsErrOf result AgainFault.Missing) (K.files shelf.old) (K.files shelf.new)
            (K.counts shelf.old) (K.counts shelf.new) (K.since_fault shelf.new) (K.asked shelf.old) (K.asked shelf.new) }
    {
        let piece = lane.piece(number);
        let to = piece.at + u64::from(piece.packet.bytes);
        match self.file.reach(shelf, &lane.stream, piece.at, to) {
            Ok(()) => {}
            Err(fault) => return Err(fault),
        }
        Ok(put_part(self.file.part(piece.at, to), piece.start, into))
    }

    /// Keeps the PES packet of the unit of this number. A unit before the one that is kept is reached from the first one on.
    fn hold<K: Shelf>(
        &mut self,
        shelf: &mut K,
        lane: &VideoLane<'_>,
        number: usize,
    ) -> Result<(), AgainFault>
        requires lane { IsVideoLane lane.now }
        requires told { IsVideoHeld (K.files shelf.old) lane.now }
        requires kept { IsVideoKept (K.files shelf.old) lane.now self.old }
        requires number { number < length lane.now.units.now }
        ensures kept { IsVideoKept (K.files shelf.old) lane.now self.new }
        ensures held { OnOk result (self.new.next ≡ number + 1) }
        ensures packet { OnOk result (IsSome self.new.packet) }
        ensures changed { IsErrOf result AgainFault.Changed → K.files shelf.old ≡ None }
        ensures reads { ReadsFile lane.now.stream.name.now (IsErrOf result AgainFault.Failed) (IsErrOf result AgainFault.Missing) (K.files shelf.old) (K.files shelf.new)
            (K.counts shelf.old) (K.counts shelf.new) (K.since_fault shelf.new) (K.asked shelf.old) (K.asked shelf.new) }
    {
        if self.holds(number) {
            return Ok(());
        }
        self.go_back(number);
        match self.go_to(shelf, lane, number) {
            Ok(()) => self.make(shelf, lane),
            Err(fault) => Err(fault),
        }
    }

    /// Whether the PES packet of the unit of this number is kept.
    fn holds(&self, number: usize) -> bool
        requires { number + 1 < 2 ^ 64 }
        ensures next { result ≡ true → self.now.next ≡ number + 1 }
        ensures packet { result ≡ true → IsSome self.now.packet }
    {
        if self.next != number + 1 {
            return false;
        }
        self.packet.is_some()
    }

    /// Begins anew where the unit of this number stands before the next one.
    fn go_back(&mut self, number: usize)
        ensures kept { (told : Option Files) (lane : VideoLane) → IsVideoKept told lane self.old → IsVideoKept told lane self.new }
        ensures before { self.new.next ≤ number }
    {
        if self.next <= number {
            return;
        }
        self.next = 0;
        self.state = None;
        self.packet = None;
    }

    /// Goes on to the unit of this number: of those before it the heads are read.
    fn go_to<K: Shelf>(
        &mut self,
        shelf: &mut K,
        lane: &VideoLane<'_>,
        number: usize,
    ) -> Result<(), AgainFault>
        requires lane { IsVideoLane lane.now }
        requires told { IsVideoHeld (K.files shelf.old) lane.now }
        requires kept { IsVideoKept (K.files shelf.old) lane.now self.old }
        requires before { self.old.next ≤ number }
        requires number { number < length lane.now.units.now }
        ensures kept { IsVideoKept (K.files shelf.old) lane.now self.new }
        ensures there { OnOk result (self.new.next ≡ number) }
        ensures changed { IsErrOf result AgainFault.Changed → K.files shelf.old ≡ None }
        ensures reads { ReadsFile lane.now.stream.name.now (IsErrOf result AgainFault.Failed) (IsErrOf result AgainFault.Missing) (K.files shelf.old) (K.files shelf.new)
            (K.counts shelf.old) (K.counts shelf.new) (K.since_fault shelf.new) (K.asked shelf.old) (K.asked shelf.new) }
    {
        while self.next < number {
            match self.skip(shelf, lane) {
                Ok(()) => {}
                Err(fault) => return Err(fault),
            }
        }
        Ok(())
    }

    /// Goes over the next unit.
    fn skip<K: Shelf>(&mut self, shelf: &mut K, lane: &VideoLane<'_>) -> Result<(), AgainFault>
        requires lane { IsVideoLane lane.now }
        requires told { IsVideoHeld (K.files shelf.old) lane.now }
        requires kept { IsVideoKept (K.files shelf.old) lane.now self.old }
        requires number { self.old.next < length lane.now.units.now }
        ensures kept { IsVideoKept (K.files shelf.old) lane.now self.new }
        ensures there { OnOk result (self.new.next ≡ self.old.next + 1) }
        ensures changed { IsErrOf result AgainFault.Changed → K.files shelf.old ≡ None }
        ensures reads { ReadsFile lane.now.stream.name.now (IsErrOf result AgainFault.Failed) (IsErrOf result AgainFault.Missing) (K.files shelf.old) (K.files shelf.new)
            (K.counts shelf.old) (K.counts shelf.new) (K.since_fault shelf.new) (K.asked shelf.old) (K.asked shelf.new) }
    {
        let unit = lane.unit(self.next);
        match self.file.reach(shelf, &lane.stream, unit.begin, unit.end) {
            Ok(()) => {}
            Err(fault) => return Err(fault),
        }
        let bytes = self.file.part(unit.begin, unit.end);
        match state_again(bytes, self.state.as_ref()) {
            Ok(state) => {
                self.state = Some(state);
                self.next += 1;
                self.packet = None;
                Ok(())
            }
            Err(fault) => Err(fault),
        }
    }

    /// Makes the PES packet of the next unit, and goes over it.
    fn make<K: Shelf>(&mut self, shelf: &mut K, lane: &VideoLane<'_>) -> Result<(), AgainFault>
        requires lane { IsVideoLane lane.now }
        requires told { IsVideoHeld (K.files shelf.old) lane.now }
        requires kept { IsVideoKept (K.files shelf.old) lane.now self.old }
        requires number { self.old.next < length lane.now.units.now }
        ensures kept { IsVideoKept (K.files shelf.old) lane.now self.new }
        ensures there { OnOk result (self.new.next ≡ self.old.next + 1) }
        ensures packet { OnOk result (IsSome self.new.packet) }
        ensures changed { IsErrOf result AgainFault.Changed → K.files shelf.old ≡ None }
        ensures reads { ReadsFile lane.now.stream.name.now (IsErrOf result AgainFault.Failed) (IsErrOf result AgainFault.Missing) (K.files shelf.old) (K.files shelf.new)
            (K.counts shelf.old) (K.counts shelf.new) (K.since_fault shelf.new) (K.asked shelf.old) (K.asked shelf.new) }
    {
        let unit = lane.unit(self.next);
        match self.file.reach(shelf, &lane.stream, unit.begin, unit.end) {
            Ok(()) => {}
            Err(fault) => return Err(fault),
        }
        let plan = lane.plan(self.next);
        let bytes = self.file.part(unit.begin, unit.end);
        let packet = match packet_again(self.file.alloc(), bytes, self.state.as_ref(), &plan) {
            Ok(packet) => packet,
            Err(fault) => return Err(fault),
        };
        match state_again(bytes, self.state.as_ref()) {
            Ok(state) => {
                self.state = Some(state);
                self.next += 1;
                self.packet = Some(packet);
                Ok(())
            }
            Err(fault) => Err(fault),
        }
    }
}

/// Puts bytes, no more than a packet has room for, into the front of `into`.
fn put_part(part: &[u8], start: bool, into: &mut [u8; PAYLOAD_BYTES]) -> Filled
    requires { HasPayloadSize (length part.now) }
    ensures size { HasPayloadSize result.bytes }
    ensures part { IsFilledWith (record { start = start; bytes = part.now }) result into.new }
{
    let size = part.len();
    into[..size].copy_from_slice(part);
    Filled {
        bytes: size as u8,
        start,
    }
}
