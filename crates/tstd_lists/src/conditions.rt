ghost use Rattle.std.specs.Prelude.{◌≡◌, ◌<◌, ◌≤◌, ◌^◌, map, length, IsTrue};
ghost use Rattle.std.specs.List.{All};
ghost use Rattle.std.specs.List.Sorted.{IsStrictlyIncreasing, IsNonDecreasing};
ghost use Rattle.tstd_model.specs.PacketBytes.{HasHeaderWithin};
ghost use Rattle.tstd_lists.specs.Private.Conditions.{ArePackets, AreRemovals};

use stream_constants::packets::PACKET_BYTES;
use tstd_model::{Arrival, Removal};

/// The latest tick of a removal.
const DUE_MOST: u64 = 1 << 53;

/// Whether the slots of packets rise, and headers and payloads fit.
pub fn are_packets(arrivals: &[Arrival]) -> bool
    ensures { IsTrue result → ArePackets arrivals.now }
{
    slots_rise(arrivals)
        && arrivals.iter().all(|arrival| arrival.header <= arrival.payload
            && arrival.payload as usize <= PACKET_BYTES)
}

fn slots_rise(arrivals: &[Arrival]) -> bool
    ensures { IsTrue result → IsStrictlyIncreasing (map (λ arrival. arrival.slot_no) arrivals.now) }
{
    for i in 1..arrivals.len() {
        if arrivals[i - 1].slot_no >= arrivals[i].slot_no {
            return false;
        }
    }
    true
}

/// Whether the times of removals don't fall, and they are few and early enough.
pub fn are_removals(removals: &[Removal]) -> bool
    ensures { IsTrue result → AreRemovals removals.now }
{
    removals.len() < 1 << 32
        && dues_rise(removals)
        && removals.iter().all(|removal| removal.due <= DUE_MOST)
}

fn dues_rise(removals: &[Removal]) -> bool
    ensures { IsTrue result → IsNonDecreasing (map (λ removal. removal.due) removals.now) }
{
    for i in 1..removals.len() {
        if removals[i - 1].due > removals[i].due {
            return false;
        }
    }
    true
}
