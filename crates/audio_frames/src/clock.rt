ghost use Rattle.std.specs.Prelude.{◌≡◌, ℕ, ◌+◌, ◌<◌, ◌≤◌, ◌^◌, length, map, All, IfSome, None, pos, neg_ℤ, ◌+ℤ◌, ◌*ℤ◌, ◌≤ℤ◌, slice_index};
ghost use Rattle.std.specs.List.Sorted.{IsStrictlyIncreasing};
ghost use Rattle.audio_frames.specs.declared.limits.TheConstants.{FRAMES_MOST};
ghost use Rattle.audio_frames.specs.Times.{frame_ticks, given_time};
ghost use Rattle.audio_frames.specs.Private.Packets.{IsClockAt, IsCountUpTo, start_of, time_between};

use crate::pes_start::PesStart;
use stream_constants::clock::{TICKS_PER_SECOND, TICKS_PER_TIME_UNIT};

/// Samples of a frame (ISO/IEC 11172-3, 2.4.2.1: Layer II).
pub const FRAME_SAMPLES: u64 = 1_152;

/// Ticks of a frame, times its samples per second.
const FRAME_TICKS: u64 = FRAME_SAMPLES * TICKS_PER_SECOND;

/// Ticks in a unit of a PTS.
const TICKS_PER_UNIT: i64 = TICKS_PER_TIME_UNIT as i64;

/// What gives each frame its time, at one of them.
#[derive(Clone, Copy)]
pub struct Clock {
    /// Samples per second.
    pub rate: u32,
    /// How many packets' payloads begin up to the frame.
    pub packets: usize,
    /// The last given time, in units of 1/90,000 s.
    pub given: i64,
    /// How many frames ago it was given.
    pub ago: u64,
    /// The frame's time in ticks.
    pub time: i64,
}

impl Clock {
    ghost use Rattle.std.specs.Prelude.{◌≡◌, ℕ, ◌+◌, ◌<◌, ◌≤◌, ◌^◌, length, map, All, IfSome, None, slice_index, pos, neg_ℤ, ◌+ℤ◌, ◌*ℤ◌, ◌≤ℤ◌};
    ghost use Rattle.audio_frames.specs.Times.{frame_ticks, given_time};
    ghost use Rattle.audio_frames.specs.Private.Packets.{IsClockAt, start_of};
    ghost use Rattle.std.specs.List.Sorted.{IsStrictlyIncreasing};

    /// The clock at the first frame, if it is given a time.
    pub fn start(rate: u32, starts: &[PesStart], places: &[u64]) -> Option<Clock>
        requires first { (0 < length starts.now) × (start_of starts.now 0 ≡ 0) }
        requires rising { IsStrictlyIncreasing (map (λ start. start.at) starts.now) }
        requires times { All (λ start. IfSome start.time (λ time. (neg_ℤ (pos (2 ^ 54)) ≤ℤ time) × (time ≤ℤ pos (2 ^ 54)))) starts.now }
        requires rate { (16000 ≤ rate) × (rate ≤ 48000) }
        requires some { 0 < length places.now }
        ensures clock { IfSome result (IsClockAt starts.now places.now 0) }
        ensures rate { IfSome result (λ clock. clock.rate ≡ rate) }
        ensures none { result ≡ None → given_time starts.now places.now 0 ≡ None }
    {
        let packets = packets_up_to(starts, 0, places[0]);
        match time_between(starts, 0, packets) {
            Some(given) => Some(Clock::since(rate, packets, given, 0)),
            None => None,
        }
    }

    /// The clock at the frame behind a frame.
    pub fn next(self, starts: &[PesStart], places: &[u64], frame: usize) -> Clock
        requires rising { IsStrictlyIncreasing (map (λ start. start.at) starts.now) }
        requires times { All (λ start. IfSome start.time (λ time. (neg_ℤ (pos (2 ^ 54)) ≤ℤ time) × (time ≤ℤ pos (2 ^ 54)))) starts.now }
        requires clock { IsClockAt starts.now places.now frame self }
        requires within { frame + 1 < length places.now }
        requires behind { slice_index places.now frame ≤ slice_index places.now (frame + 1) }
        requires few { frame + 1 < FRAMES_MOST }
        ensures clock { IsClockAt starts.now places.now (frame + 1) result }
        ensures rate { result.rate ≡ self.rate }
    {
        let packets = packets_up_to(starts, self.packets, places[frame + 1]);
        match time_between(starts, self.packets, packets) {
            Some(given) => Clock::since(self.rate, packets, given, 0),
            None => Clock::since(self.rate, packets, self.given, self.ago + 1),
        }
    }

    /// The clock so many frames behind one with a given time.
    fn since(rate: u32, packets: usize, given: i64, ago: u64) -> Clock
        requires low { neg_ℤ (pos (2 ^ 54)) ≤ℤ given }
        requires high { given ≤ℤ pos (2 ^ 54) }
        requires ago { ago < FRAMES_MOST }
        requires rate { (16000 ≤ rate) × (rate ≤ 48000) }
        ensures rate { result.rate ≡ rate }
        ensures packets { result.packets ≡ packets }
        ensures given { result.given ≡ given }
        ensures ago { result.ago ≡ ago }
        ensures time { result.time ≡ (pos TICKS_PER_TIME_UNIT *ℤ result.given) +ℤ pos (frame_ticks result.rate result.ago) }
    {
        Clock {
            rate,
            packets,
            given,
            ago,
            time: time_after(given, ago, rate),
        }
    }
}

/// The number of packets whose payloads begin at a place or before it, where it is known of the first ones.
fn packets_up_to(starts: &[PesStart], from: usize, at: u64) -> usize
    requires rising { IsStrictlyIncreasing (map (λ start. start.at) starts.now) }
    requires from { from ≤ length starts.now }
    requires known { (k : ℕ) → k < from → start_of starts.now k ≤ at }
    ensures count { IsCountUpTo starts.now at result }
    ensures from { from ≤ result }
{
    let mut count = from;
    while count < starts.len() && starts[count].at <= at {
        count += 1;
    }
    count
}

/// The time of the last of the packets from one number up to another, if there are any.
fn time_between(starts: &[PesStart], from: usize, up_to: usize) -> Option<i64>
    requires times { All (λ start. IfSome start.time (λ time. (neg_ℤ (pos (2 ^ 54)) ≤ℤ time) × (time ≤ℤ pos (2 ^ 54)))) starts.now }
    requires within { up_to ≤ length starts.now }
    ensures time { result ≡ time_between starts.now from up_to }
    ensures range { IfSome result (λ time. (neg_ℤ (pos (2 ^ 54)) ≤ℤ time) × (time ≤ℤ pos (2 ^ 54))) }
{
    if from < up_to {
        starts[up_to - 1].time
    } else {
        None
    }
}

/// The time of a frame so many frames behind one with a given time, in ticks.
fn time_after(given: i64, ago: u64, rate: u32) -> i64
    requires low { neg_ℤ (pos (2 ^ 54)) ≤ℤ given }
    requires high { given ≤ℤ pos (2 ^ 54) }
    requires ago { ago < FRAMES_MOST }
    requires rate { (16000 ≤ rate) × (rate ≤ 48000) }
    ensures { result ≡ (pos TICKS_PER_TIME_UNIT *ℤ given) +ℤ pos (frame_ticks rate ago) }
{
    TICKS_PER_UNIT * given + ticks_of(rate, ago) as i64
}

/// Ticks of so many frames.
fn ticks_of(rate: u32, count: u64) -> u64
    requires count { count < FRAMES_MOST }
    requires rate { (16000 ≤ rate) × (rate ≤ 48000) }
    ensures ticks { result ≡ frame_ticks rate count }
    ensures small { result < 2 ^ 60 }
{
    let rate = u64::from(rate);
    // whole ticks of a frame and the rest of them apart, so that each product has 64 bits
    count * (FRAME_TICKS / rate) + count * (FRAME_TICKS % rate) / rate
}
