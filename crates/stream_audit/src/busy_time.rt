//! A transport buffer that isn't empty once in a second (ISO/IEC 13818-1, 2.4.2.6).
ghost use Rattle.std.specs.Prelude.{◌≡◌, ◌≤◌, ◌<◌, ◌+◌, ◌*◌, ◌^◌, ◌++◌, List, ℕ, Some, MatchOption, max, map, ◌∷◌, IfNone, IfSome};
ghost use Rattle.std.specs.Option.{ForSome};
ghost use Rattle.std.specs.List.Sorted.{IsStrictlyIncreasing};
ghost use Rattle.stream_constants.specs.declared.packets.TheConstants.{PACKET_BYTES};
ghost use Rattle.tstd_model.specs.Instants.{spaced};
ghost use Rattle.stream_audit.specs.NeverEmpty.{IsFirstBusy, buffer_of, buffer_with};
ghost use Rattle.stream_audit.specs.Private.BusyTime.{IsShort, busy_behind};

use stream_constants::clock::{BYTE_SUBTICKS_PER_TICK, SUBTICKS_PER_SECOND};
use stream_constants::packets::PACKET_BYTES;
use tstd_model::Arrival;

/// Since when a transport buffer isn't empty, and until when by what has come, in subticks.
#[derive(Clone, Copy)]
pub struct BusyTime {
    /// Subticks that a byte takes to leave.
    subticks: u64,
    from: u64,
    until: u64,
}

impl BusyTime {
    /// Before anything comes, where a byte takes so many subticks to leave.
    pub(crate) fn new(subticks: u64) -> Self
        ensures begins { result ≡ record { subticks = subticks; from = 0; until = 0 } }
        ensures short { IsShort result }
    {
        BusyTime {
            subticks,
            from: 0,
            until: 0,
        }
    }

    /// The same where it is busy when a byte comes, or a busy time that begins then.
    fn at(self, first: u64) -> BusyTime
        requires { IsShort self }
        ensures same { (rest : List ℕ) → busy_behind self (first ∷ rest) ≡ busy_behind result (first ∷ rest) }
        ensures short { IsShort result }
        ensures comes { first ≤ result.until }
        ensures from { result.from ≤ max first self.from }
        ensures subticks { result.subticks ≡ self.subticks }
    {
        if first <= self.until {
            return self;
        }
        BusyTime {
            subticks: self.subticks,
            from: first,
            until: first,
        }
    }

    /// A packet comes, its bytes from an instant on with a step between them that is at most what each takes to leave. Answers the
    /// instant at which the buffer hasn't been empty for a second, where that is reached.
    fn take(&mut self, first: u64, step: u64) -> Option<u64>
        requires together { step ≤ self.old.subticks }
        requires short { IsShort self.old }
        requires first_fits { first ≤ 2 ^ 60 }
        requires from_fits { self.old.from ≤ 2 ^ 60 }
        requires subticks_fit { self.old.subticks ≤ 203040 }
        ensures busy { (later : List ℕ) → MatchOption result (busy_behind self.old (spaced first step PACKET_BYTES ++ later) ≡ busy_behind self.new later)
            (λ at. busy_behind self.old (spaced first step PACKET_BYTES ++ later) ≡ Some at) }
        ensures short { IfNone result (IsShort self.new) }
        ensures from { self.new.from ≤ 2 ^ 60 }
        ensures subticks { self.new.subticks ≡ self.old.subticks }
    {
        let mut time = self.at(first);
        time.until += PACKET_BYTES as u64 * time.subticks;
        *self = time;
        if time.from + SUBTICKS_PER_SECOND <= time.until {
            Some(time.from + SUBTICKS_PER_SECOND)
        } else {
            None
        }
    }

    /// The same time behind a packet; none where the buffer hasn't been empty for a second then.
    pub(crate) fn behind(self, first: u64, step: u64) -> Option<BusyTime>
        requires together { step ≤ self.subticks }
        requires short { IsShort self }
        requires first_fits { first ≤ 2 ^ 60 }
        requires from_fits { self.from ≤ 2 ^ 60 }
        requires subticks_fit { self.subticks ≤ 203040 }
        ensures busy { IfSome result (λ time. (later : List ℕ) → busy_behind self (spaced first step PACKET_BYTES ++ later) ≡ busy_behind time later) }
        ensures short { ForSome result IsShort }
        ensures from { ForSome result (λ time. time.from ≤ 2 ^ 60) }
        ensures subticks { ForSome result (λ time. time.subticks ≡ self.subticks) }
    {
        let mut time = self;
        match time.take(first, step) {
            Some(_) => None,
            None => Some(time),
        }
    }
}

/// The instant at which the first byte of a slot comes, the bytes `step` subticks apart.
pub(crate) fn first_instant(slot_no: u32, step: u64) -> u64
    requires { step ≤ 203040 }
    ensures value { result ≡ PACKET_BYTES * slot_no * step }
    ensures small { result ≤ 2 ^ 60 }
{
    PACKET_BYTES as u64 * u64::from(slot_no) * step
}

/// The first instant, in subticks, at which a transport buffer hasn't been empty for a second, or none where there is none.
///
/// Packets come in these slots alone, of `slot` ticks each, and a byte takes `rate` subticks to leave. Takes no memory.
pub fn first_full(slot: u32, rate: u64, packets: &[u32]) -> Option<u64>
    requires slot_fits { slot ≤ 2 ^ 16 }
    requires some { 0 < rate }
    requires rate_fits { rate ≤ 203040 }
    requires slots_rise { IsStrictlyIncreasing packets.now }
    ensures { IsFirstBusy (buffer_of slot rate packets.now) result }
{
    let step = BYTE_SUBTICKS_PER_TICK * u64::from(slot);
    if rate < step {
        // each byte leaves before the next one comes
        return None;
    }
    let mut time = BusyTime::new(rate);
    for slot_no in packets {
        if let Some(at) = time.take(first_instant(*slot_no, step), step) {
            return Some(at);
        }
    }
    None
}

/// The same for a buffer that these packets come into.
pub fn first_busy(slot: u32, rate: u64, arrivals: &[Arrival]) -> Option<u64>
    requires slot_fits { slot ≤ 2 ^ 16 }
    requires rate_fits { rate ≤ 203040 }
    requires slots_rise { IsStrictlyIncreasing (map (λ arrival. arrival.slot_no) arrivals.now) }
    ensures { IsFirstBusy (buffer_with slot rate arrivals.now) result }
{
    let step = BYTE_SUBTICKS_PER_TICK * u64::from(slot);
    if rate < step {
        // each byte leaves before the next one comes
        return None;
    }
    let mut time = BusyTime::new(rate);
    for arrival in arrivals {
        if let Some(at) = time.take(first_instant(arrival.slot_no, step), step) {
            return Some(at);
        }
    }
    None
}
