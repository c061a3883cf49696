ghost use Rattle.std.specs.Prelude.{◌≡◌, ◌+◌, ◌<◌, ◌≤◌, ◌^◌, None, IsTrue, map, length};
ghost use Rattle.std.specs.List.{All};
ghost use Rattle.std.specs.List.Sorted.{IsStrictlyIncreasing, IsNonDecreasing};
ghost use Rattle.stream_constants.specs.declared.decoder.TheConstants.{TB_BYTES, VIDEO_BYTES, AUDIO_BYTES, SYSTEM_BYTES};
ghost use Rattle.tstd_model.specs.PacketBytes.{HasHeaderWithin, parts, arrives, kept};
ghost use Rattle.tstd_model.specs.Decoder.{Video, IsInLevel, leave_tb, transport_buffer, moves};
ghost use Rattle.tstd_model.specs.Faults.{IsFirstOrNone};
ghost use Rattle.tstd_model.specs.Private.Cursors.{instants_of, parts_in, is_wanted};
ghost use Rattle.tstd_model.specs.Private.Limits.{InLimits};
ghost use Rattle.tstd_model.specs.Private.Scans.{taken_from};
ghost use Rattle.tstd_model.specs.Private.Walks.{main_buffer, first_excess, late_found, old_found};

use crate::decoder_input::{Arrival, BufferKind, Removal};
use crate::earliest::{earlier, earliest};
use crate::fault::TstdFault;
use crate::leaves::{MbLeaves, SystemLeaves};
use crate::moves::{Moves, Rooms};
use crate::packet_bytes::PacketBytes;
use crate::packet_watch::PacketWatch;
use crate::passing::{Passing, Wanted};
use crate::removed_bytes::{RemovedByte, RemovedBytes};
use crate::sizes::{eb_bytes, tb_subticks};
use crate::sure::Sure;
use crate::tb_bytes::TbBytes;
use crate::walks::{HOLD_SUBTICKS, first_late, first_old, first_over};
use stream_constants::clock::BYTE_SUBTICKS_PER_TICK;
use stream_constants::decoder::{AUDIO_BYTES, SYSTEM_BYTES, TB_BYTES, VIDEO_BYTES};

/// The first fault of a decoder, or none where there is none (13818-1, 2.4.2).
///
/// `slot` is the length of a slot, in ticks. Where several faults have one instant, a removal that finds too little goes
/// first, of several the first, then a buffer that is over its size, then a byte that is held too long.
/// Takes no memory; each byte is looked at a fixed number of times.
pub fn first_fault(
    slot: u32,
    kind: BufferKind,
    arrivals: &[Arrival],
    removals: &[Removal],
) -> Option<TstdFault>
    requires slot_fits { slot ≤ 2 ^ 16 }
    requires in_level { IsInLevel kind }
    requires slots_rise { IsStrictlyIncreasing (map (λ arrival. arrival.slot_no) arrivals.now) }
    requires headers_within { All HasHeaderWithin arrivals.now }
    requires few { length removals.now < 2 ^ 32 }
    requires dues_rise { IsNonDecreasing (map (λ removal. removal.due) removals.now) }
    requires dues_fit { All (λ removal. removal.due ≤ 2 ^ 53) removals.now }
    ensures { IsFirstOrNone slot kind arrivals.now removals.now result }
{
    // with it the check knows that the slots' numbers, and so all instants, fit
    let _slots = slots_until_last(arrivals);
    let decoder = SystemDecoder {
        slot,
        kind,
        arrivals,
        removals,
    };
    let sure = watched(slot, kind, arrivals, removals);
    let over = earlier(decoder.tb_excess(sure.tb), decoder.main_excess(sure.main));
    earliest(decoder.late(sure.found), over, decoder.old(sure.held))
}

/// What is sure of a decoder by a look at it packet by packet.
fn watched(slot: u32, kind: BufferKind, arrivals: &[Arrival], removals: &[Removal]) -> Sure
    requires slot_fits { slot ≤ 2 ^ 16 }
    requires headers_within { All HasHeaderWithin arrivals.now }
    requires dues_fit { All (λ removal. removal.due ≤ 2 ^ 53) removals.now }
    ensures tb { IsTrue result.tb → first_excess (transport_buffer slot kind arrivals.now) ≡ None }
    ensures main { IsTrue result.main → first_excess (main_buffer slot kind arrivals.now removals.now) ≡ None }
    ensures found { IsTrue result.found → late_found slot kind arrivals.now removals.now ≡ None }
    ensures held { IsTrue result.held → old_found slot kind arrivals.now removals.now ≡ None }
{
    let mut watch = PacketWatch::begin(slot, kind, removals);
    let mut later = arrivals;
    'packets: loop {
        let Some((packet, rest)) = later.split_first() else {
            return watch.end();
        };
        watch.pass(packet);
        later = rest;
    }
}

/// How many slots there are until behind the last packet.
fn slots_until_last(arrivals: &[Arrival]) -> u64
    requires { IsStrictlyIncreasing (map (λ arrival. arrival.slot_no) arrivals.now) }
    ensures few { result ≤ 2 ^ 32 }
    ensures below { All (λ arrival. arrival.slot_no < result) arrivals.now }
{
    match arrivals.last() {
        Some(last) => behind(last.slot_no),
        None => 0,
    }
}

/// The number behind that of a slot.
fn behind(slot_no: u32) -> u64
    ensures value { result ≡ slot_no + 1 }
    ensures few { result ≤ 2 ^ 32 }
{
    u64::from(slot_no) + 1
}

/// A decoder, what comes to it and what is removed from it.
#[derive(Drop)]
struct SystemDecoder<'a> {
    slot: u32,
    kind: BufferKind,
    arrivals: &'a [Arrival],
    removals: &'a [Removal],
}

impl<'a> SystemDecoder<'a> {
    /// The bytes that come.
    fn bytes(&self) -> PacketBytes<'a>
        requires { InLimits self.now }
        ensures instants { instants_of result ≡ arrives self.now.slot self.now.arrivals.now }
        ensures belong { parts_in result ≡ parts self.now.arrivals.now }
    {
        PacketBytes::new(self.arrivals, BYTE_SUBTICKS_PER_TICK * u64::from(self.slot))
    }

    /// The bytes that leave TB.
    fn tb_bytes(&self) -> TbBytes<'a>
        requires { InLimits self.now }
        ensures instants { instants_of result ≡ leave_tb self.now.slot self.now.kind self.now.arrivals.now }
        ensures belong { parts_in result ≡ parts self.now.arrivals.now }
    {
        TbBytes::new(self.bytes(), tb_subticks(self.kind))
    }

    /// When wanted bytes come into the buffer behind TB.
    fn passing(&self, wanted: Wanted) -> Passing<'a>
        requires { InLimits self.now }
        ensures { result ≡ kept (is_wanted wanted) (parts self.now.arrivals.now) (leave_tb self.now.slot self.now.kind self.now.arrivals.now) }
    {
        Passing::new(self.tb_bytes(), wanted)
    }

    /// The bytes that are removed.
    fn removed(&self) -> RemovedBytes<'a>
        requires { InLimits self.now }
        ensures { result ≡ taken_from 0 self.now.removals.now }
    {
        RemovedBytes::new(self.removals)
    }

    /// When data moves from MB to EB.
    fn moves(&self, vbv: u8) -> Moves<'a>
        requires limits { InLimits self.now }
        requires video { self.now.kind ≡ Video vbv }
        ensures { result ≡ moves self.now.slot vbv self.now.arrivals.now self.now.removals.now }
    {
        Moves::new(
            self.passing(Wanted::DataAlone),
            Rooms::new(eb_bytes(vbv), self.removed()),
        )
    }

    /// The first instant at which TB is over its size.
    fn tb_excess(&self, sure: bool) -> Option<u64>
        requires limits { InLimits self.now }
        requires sure { IsTrue sure → first_excess (transport_buffer self.now.slot self.now.kind self.now.arrivals.now) ≡ None }
        ensures { result ≡ first_excess (transport_buffer self.now.slot self.now.kind self.now.arrivals.now) }
    {
        if sure {
            return None;
        }
        first_over(TB_BYTES, self.bytes(), self.tb_bytes())
    }

    /// The first instant at which the buffer behind TB is over its size.
    fn main_excess(&self, sure: bool) -> Option<u64>
        requires limits { InLimits self.now }
        requires sure { IsTrue sure → first_excess (main_buffer self.now.slot self.now.kind self.now.arrivals.now self.now.removals.now) ≡ None }
        ensures { result ≡ first_excess (main_buffer self.now.slot self.now.kind self.now.arrivals.now self.now.removals.now) }
    {
        if sure {
            return None;
        }
        let comes = self.passing(Wanted::Payload);
        match self.kind {
            BufferKind::Video { vbv } => {
                let leaves = MbLeaves::new(self.bytes(), self.moves(vbv));
                first_over(VIDEO_BYTES - eb_bytes(vbv), comes, leaves)
            }
            BufferKind::Audio => first_over(AUDIO_BYTES, comes, self.removed()),
            BufferKind::System => {
                let leaves = SystemLeaves::new(self.passing(Wanted::Payload));
                first_over(SYSTEM_BYTES, comes, leaves)
            }
        }
    }

    /// The first byte that a removal doesn't find.
    fn late(&self, sure: bool) -> Option<RemovedByte>
        requires limits { InLimits self.now }
        requires sure { IsTrue sure → late_found self.now.slot self.now.kind self.now.arrivals.now self.now.removals.now ≡ None }
        ensures { result ≡ late_found self.now.slot self.now.kind self.now.arrivals.now self.now.removals.now }
    {
        if sure {
            return None;
        }
        match self.kind {
            BufferKind::Video { vbv } => first_late(self.moves(vbv), self.removed()),
            BufferKind::Audio => first_late(self.passing(Wanted::Payload), self.removed()),
            BufferKind::System => self.removed().next_byte(),
        }
    }

    /// The first instant past the limit at which a byte is held.
    fn old(&self, sure: bool) -> Option<u64>
        requires limits { InLimits self.now }
        requires sure { IsTrue sure → old_found self.now.slot self.now.kind self.now.arrivals.now self.now.removals.now ≡ None }
        ensures { result ≡ old_found self.now.slot self.now.kind self.now.arrivals.now self.now.removals.now }
    {
        if sure {
            return None;
        }
        match self.kind {
            BufferKind::Video { vbv: _ } => {
                first_old(self.bytes(), Wanted::DataAlone, self.removed())
            }
            BufferKind::Audio => first_old(self.bytes(), Wanted::Payload, self.removed()),
            BufferKind::System => None,
        }
    }
}
