ghost use Rattle.std.specs.Prelude.{◌≡◌, ◌^◌, ◌≤◌, ◌++◌, ◌∷◌, [], ℕ, IsTrue, List, None, map};
ghost use Rattle.std.specs.List.{All};
ghost use Rattle.std.specs.List.Sorted.{IsStrictlyIncreasing, IsNonDecreasing};
ghost use Rattle.tstd_model.specs.PacketBytes.{Arrival, HasHeaderWithin};
ghost use Rattle.tstd_model.specs.Decoder.{BufferKind, Removal, Video, Audio, System};
ghost use Rattle.tstd_model.specs.Faults.{IsFirstOrNone};
ghost use Rattle.tstd_model.specs.Watch.{HasWatched};
ghost use Rattle.tstd_model.specs.Private.Watches.{Goes, HasWatchedEach, SureFound, SureHeld, SureMain, SureTb};

use crate::decoder_input::{Arrival, BufferKind, Removal};
use crate::leave_queue::LeaveQueue;
use crate::move_watch::MoveWatch;
use crate::passing::Wanted;
use crate::removal_runs::RemovalRuns;
use crate::sizes::{mb_bytes, room_bytes, tb_subticks};
use crate::sure::{Sure, both};
use crate::taken::Taken;
use crate::tb_watch::TbWatch;
use crate::walks::HOLD_SUBTICKS;

/// A decoder whose packets are looked at one by one, each as a whole: what it is sure of is so, and what it isn't is left open.
///
/// It keeps two places in the removals, and of the packets that are in a multiplexing buffer when they leave it at the latest, as 66
/// instants at most; no packet, and it takes no memory.
#[derive(Drop)]
pub struct PacketWatch<'a> {
    kind: BufferKind,
    tb: TbWatch,
    // bytes that removals take and that haven't come
    taken: Taken<'a>,
    moves: MoveWatch<'a>,
    leaves: LeaveQueue,
    sure: Sure,
}

impl<'a> PacketWatch<'a> {
    /// A decoder to which nothing has come.
    pub fn new(slot: u32, kind: BufferKind, removals: &'a [Removal]) -> Self
        requires slot_fits { slot ≤ 2 ^ 16 }
        requires dues_fit { All (λ removal. removal.due ≤ 2 ^ 53) removals.now }
        ensures { HasWatched slot kind removals.now [] result }
    {
        PacketWatch::begin(slot, kind, removals)
    }

    /// The same, of which each question is told.
    pub(crate) fn begin(slot: u32, kind: BufferKind, removals: &'a [Removal]) -> Self
        requires slot_fits { slot ≤ 2 ^ 16 }
        requires dues_fit { All (λ removal. removal.due ≤ 2 ^ 53) removals.now }
        ensures { HasWatchedEach slot kind removals.now [] result }
    {
        let tb = TbWatch::new(slot, tb_subticks(kind));
        let later = RemovalRuns::new(removals);
        let taken = Taken::new(0, later);
        let rooms = RemovalRuns::new(removals);
        let moves = MoveWatch::new(room_bytes(kind), rooms);
        let leaves = LeaveQueue::new(mb_bytes(kind));
        let sure = Sure::of(kind);
        PacketWatch {
            kind,
            tb,
            taken,
            moves,
            leaves,
            sure,
        }
    }

    /// The next packet comes.
    pub fn take(&mut self, packet: &Arrival)
        requires { HasHeaderWithin packet.now }
        ensures { (slot : ℕ) (kind : BufferKind) (removals : List Removal) (given : List Arrival) → HasWatched slot kind removals given self.old → HasWatched slot kind removals (given ++ packet.now ∷ []) self.new }
    {
        self.pass(packet);
    }

    /// The same, of which each question is told.
    pub(crate) fn pass(&mut self, packet: &Arrival)
        requires { HasHeaderWithin packet.now }
        ensures { Goes self.old packet.now self.new }
    {
        match self.kind {
            BufferKind::Video { vbv: _ } => self.take_video(packet),
            BufferKind::Audio => self.take_audio(packet),
            BufferKind::System => self.take_sections(packet),
        }
    }

    /// A packet of video comes.
    fn take_video(&mut self, packet: &Arrival)
        requires video { (vbv : ℕ) × (self.old.kind ≡ Video vbv) }
        requires within { HasHeaderWithin packet.now }
        ensures { Goes self.old packet.now self.new }
    {
        let Some(tb) = self.tb.take(packet) else {
            self.sure = Sure::nothing();
            return;
        };
        let count = Wanted::DataAlone.count(packet);
        let taken = self.taken.take(count);
        let moved = self.moves.take(tb.end, count);
        let room = self.leaves.has_room(packet, tb.first);
        let left = self.leaves.leave_by(packet, moved);
        let main = both(room, left);
        let found = taken.are_behind(moved);
        let held = taken.are_by(count, tb.first + HOLD_SUBTICKS);
        self.sure = self.sure.and(Sure {
            tb: tb.keeps,
            main,
            found,
            held,
        });
    }

    /// A packet of audio comes.
    fn take_audio(&mut self, packet: &Arrival)
        requires audio { self.old.kind ≡ Audio }
        requires within { HasHeaderWithin packet.now }
        ensures { Goes self.old packet.now self.new }
    {
        let Some(tb) = self.tb.take(packet) else {
            self.sure = Sure::nothing();
            return;
        };
        let count = Wanted::Payload.count(packet);
        let taken = self.taken.take(count);
        let room = self.moves.make_room(count);
        let main = room.are_by(count, tb.first);
        let found = taken.are_behind(Some(tb.end));
        let held = taken.are_by(count, tb.first + HOLD_SUBTICKS);
        self.sure = self.sure.and(Sure {
            tb: tb.keeps,
            main,
            found,
            held,
        });
    }

    /// A packet of sections comes.
    fn take_sections(&mut self, packet: &Arrival)
        requires system { self.old.kind ≡ System }
        requires within { HasHeaderWithin packet.now }
        ensures { Goes self.old packet.now self.new }
    {
        let Some(tb) = self.tb.take(packet) else {
            self.sure = Sure::nothing();
            return;
        };
        self.sure = self.sure.and(Sure {
            tb: tb.keeps,
            main: false,
            found: false,
            held: false,
        });
    }

    /// All packets have come: what is sure.
    pub(crate) fn end(mut self) -> Sure
        ensures tb { IsTrue result.tb → SureTb self.entry [] }
        ensures main { IsTrue result.main → SureMain self.entry [] }
        ensures found { IsTrue result.found → SureFound self.entry [] }
        ensures held { IsTrue result.held → SureHeld self.entry [] }
    {
        let more = self.taken.take(1);
        let found = more.is_none();
        let judged = self.sure.and(Sure::of(self.kind));
        judged.and(Sure {
            tb: true,
            main: true,
            found,
            held: true,
        })
    }

    /// All packets have come: whether there surely is no fault.
    pub fn is_clean(self) -> bool
        ensures { IsTrue result → (slot : ℕ) (kind : BufferKind) (removals : List Removal) (given : List Arrival) → HasWatched slot kind removals given self.entry → IsStrictlyIncreasing (map (λ arrival. arrival.slot_no) given) → IsNonDecreasing (map (λ removal. removal.due) removals) → IsFirstOrNone slot kind given removals None }
    {
        self.end().is_all()
    }
}
