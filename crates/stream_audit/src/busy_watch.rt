//! A transport buffer whose packets come one by one, and whether it is empty once in each second (ISO/IEC 13818-1, 2.4.2.6).
ghost use Rattle.std.specs.Prelude.{◌≡◌, ◌≤◌, ◌^◌, ◌++◌, ◌∷◌, [], ℕ, List, None, IsTrue, map};
ghost use Rattle.std.specs.Option.{ForSome};
ghost use Rattle.std.specs.List.Sorted.{IsStrictlyIncreasing};
ghost use Rattle.tstd_model.specs.declared.decoder_input.Arrival.{Arrival};
ghost use Rattle.stream_audit.specs.NeverEmpty.{IsFirstBusy, buffer_with};
ghost use Rattle.stream_audit.specs.Private.BusyTime.{IsShort};

use crate::busy_time::{BusyTime, first_instant};
use stream_constants::clock::BYTE_SUBTICKS_PER_TICK;
use tstd_model::Arrival;

/// A transport buffer whose packets come one by one.
#[derive(Clone, Copy)]
pub struct BusyWatch {
    /// Subticks from byte to byte.
    step: u64,
    /// Subticks that a byte takes to leave.
    subticks: u64,
    /// Since when it isn't empty; none where it wasn't for a second.
    time: Option<BusyTime>,
    ghost subticks_fit: { subticks ≤ 203040 },
    ghost short: { ForSome time IsShort },
    ghost from_fits: { ForSome time (λ busy. busy.from ≤ 2 ^ 60) },
    ghost same: { ForSome time (λ busy. busy.subticks ≡ subticks) },
}

impl BusyWatch {
    ghost use Rattle.stream_audit.specs.BusyWatch.{HasEmptied};

    /// A buffer that nothing has come into, in slots of `slot` ticks, and that a byte takes so many subticks to leave.
    pub fn new(slot: u32, subticks: u64) -> Self
        requires slot_fits { slot ≤ 2 ^ 16 }
        requires subticks_fit { subticks ≤ 203040 }
        ensures { HasEmptied slot subticks [] result }
    {
        BusyWatch {
            step: BYTE_SUBTICKS_PER_TICK * u64::from(slot),
            subticks,
            time: Some(BusyTime::new(subticks)),
        }
    }

    /// The next packet comes.
    pub fn take(&mut self, packet: &Arrival)
        ensures { (slot subticks : ℕ) (given : List Arrival) → HasEmptied slot subticks given self.old → HasEmptied slot subticks (given ++ packet.now ∷ []) self.new }
    {
        if self.subticks < self.step {
            // each byte leaves before the next one comes
            return;
        }
        let Some(time) = self.time else {
            return;
        };
        self.time = time.behind(first_instant(packet.slot_no, self.step), self.step);
    }

    /// All packets have come: whether it was surely empty once in each second.
    pub fn empties(&self) -> bool
        ensures { IsTrue result → (slot subticks : ℕ) (given : List Arrival) → HasEmptied slot subticks given self.now → IsStrictlyIncreasing (map (λ arrival. arrival.slot_no) given) → IsFirstBusy (buffer_with slot subticks given) None }
    {
        self.time.is_some()
    }
}
