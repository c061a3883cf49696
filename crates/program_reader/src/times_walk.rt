//! The times of units, looked up while the PES packets of their video pass (ISO/IEC 13818-1, 2.4.3.7).
ghost use Rattle.std.specs.Prelude.{◌≡◌, ◌<◌, ◌≤◌, ℕ, List, All, length, take, MatchOption};
ghost use Rattle.es_units.specs.PictureFinder.{picture_places};
ghost use Rattle.program_reader.specs.PictureTimes.{times_of_unit};
ghost use Rattle.program_reader.specs.TimesWalk.{HasPassed, Join};
ghost use Rattle.program_reader.specs.Private.TimesWalk.{EndsWith, IsNextOf, times_behind};

use crate::stamp_walk::NO_TIMES;
use elementary_streams::PlacedPacket;
use pes_units::Times;

/// How many pictures and how many PES packets of a video are passed by. It stands before the units that are looked up next.
#[derive(Clone, Copy)]
pub struct TimesWalk {
    place: usize,
    packet: usize,
}

impl TimesWalk {
    /// Nothing is passed by.
    pub fn new() -> TimesWalk
        ensures { (places : List ℕ) (packets : List PlacedPacket) (bound : ℕ) → HasPassed places packets bound result }
    {
        TimesWalk {
            place: 0,
            packet: 0,
        }
    }

    /// The times of a unit from a place of the video up to another, by where pictures begin and by the PES packets so far: those of the
    /// packet in which the unit's picture is the first one to begin. Units are looked up one behind the other.
    pub fn times_of(
        &mut self,
        places: &[u64],
        packets: &[PlacedPacket],
        begin: u64,
        end: u64,
    ) -> Times
        requires passed { HasPassed places.now packets.now begin self.old }
        requires order { begin ≤ end }
        ensures times { (es : List ℕ) → picture_places es ≡ places.now → Join 0 packets.now (length es) → end ≤ length es →
            result ≡ times_of_unit es packets.now (begin, end) }
        ensures passed { HasPassed places.now packets.now end self.new }
    {
        let Some(at) = self.next_place(places, begin) else {
            return NO_TIMES;
        };
        if at >= end {
            return NO_TIMES;
        }
        let Some(packet) = self.packet_of(packets, at) else {
            return NO_TIMES;
        };
        times_behind(&packet, self.last_passed(places))
    }

    /// The first picture at a place or behind it; those before are passed by.
    fn next_place(&mut self, places: &[u64], begin: u64) -> Option<u64>
        requires within { self.old.place ≤ length places.now }
        requires before { All (λ place. place < begin) (take self.old.place places.now) }
        ensures within { self.new.place ≤ length places.now }
        ensures before { All (λ place. place < begin) (take self.new.place places.now) }
        ensures next { MatchOption result (self.new.place ≡ length places.now) (λ at. (begin ≤ at) × IsNextOf places.now self.new.place at) }
        ensures packet { self.new.packet ≡ self.old.packet }
    {
        while self.place < places.len() {
            let at = places[self.place];
            if at >= begin {
                return Some(at);
            }
            self.place += 1;
        }
        None
    }

    /// The first PES packet that ends behind a place; those before are passed by.
    fn packet_of(&mut self, packets: &[PlacedPacket], at: u64) -> Option<PlacedPacket>
        requires within { self.old.packet ≤ length packets.now }
        requires before { All (λ packet. packet.end ≤ at) (take self.old.packet packets.now) }
        ensures within { self.new.packet ≤ length packets.now }
        ensures before { All (λ packet. packet.end ≤ at) (take self.new.packet packets.now) }
        ensures next { MatchOption result (self.new.packet ≡ length packets.now) (λ packet. (at < packet.end) × IsNextOf packets.now self.new.packet packet) }
        ensures place { self.new.place ≡ self.old.place }
    {
        while self.packet < packets.len() {
            let packet = packets[self.packet];
            if packet.end > at {
                return Some(packet);
            }
            self.packet += 1;
        }
        None
    }

    /// The last picture that is passed by.
    fn last_passed(&self, places: &[u64]) -> Option<u64>
        requires within { self.now.place ≤ length places.now }
        ensures { EndsWith (take self.now.place places.now) result }
    {
        if self.place == 0 {
            return None;
        }
        Some(places[self.place - 1])
    }
}

/// The times of a picture in a PES packet, by the last picture before it: none where that begins in the packet too.
fn times_behind(packet: &PlacedPacket, last: Option<u64>) -> Times
    ensures { result ≡ times_behind packet.now last }
{
    match last {
        Some(last) => {
            if packet.from <= last {
                NO_TIMES
            } else {
                packet.header.times
            }
        }
        None => packet.header.times,
    }
}
