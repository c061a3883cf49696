//! The clock of a file by its program clock references (ISO/IEC 13818-1, 2.4.2.2 and 2.4.3.5).
ghost use Rattle.std.specs.Prelude.{◌≡◌, ◌<◌, ◌≤◌, ◌+◌, ◌*◌, ◌%◌, ◌^◌, ◌++◌, ◌∷◌, [], nat_lt, List, All, Some, None, if◌then◌else◌};
ghost use Rattle.stream_constants.specs.declared.packets.TheConstants.{PACKET_BYTES};
ghost use Rattle.pcr_writer.specs.declared.pcr.TheConstants.{BASE_END_BYTE, PCR_MODULUS};
ghost use Rattle.pcr_writer.specs.PcrPacket.{arrival_ticks};
ghost use Rattle.ts_demux.specs.declared.pid_places.Place.{Place};
ghost use Rattle.stream_audit.specs.declared.clock.TheConstants.{PCR_TOLERANCE_TICKS};
ghost use Rattle.stream_audit.specs.Clock.{HasSeen, apart, off_of, ticks_from};
ghost use Rattle.stream_audit.specs.Private.Clock.{off_behind, zero_behind};

use pcr_writer::PCR_MODULUS;
use stream_constants::packets::PACKET_BYTES;
use ts_demux::Place;

/// How far a program clock reference may be off, in ticks: 500 ns are 13.5 (2.4.2.2).
pub const PCR_TOLERANCE_TICKS: u64 = 13;

/// The byte of a packet, from 0, that has the last bit of a reference's base.
const REFERENCE_BYTE: u64 = 10;

/// The clock of a file whose slots last `slot` ticks, as the packets of its clock references come.
#[derive(Clone, Copy)]
pub struct FileClock {
    slot: u32,
    /// What it shows when the file's first byte comes, once there was a reference.
    zero: Option<u64>,
    /// The byte of the file where the packet of the first reference begins that is off.
    off: Option<u64>,
}

impl FileClock {
    ghost use Rattle.std.specs.Prelude.{◌≡◌};

    /// Before the first packet.
    pub fn new(slot: u32) -> FileClock
        ensures seen { HasSeen slot [] result }
        ensures slot { result.slot ≡ slot }
    {
        FileClock {
            slot,
            zero: None,
            off: None,
        }
    }

    /// The next packet of the PID comes.
    pub fn take(&mut self, place: &Place)
        requires slot_fits { self.old.slot ≤ 2 ^ 16 }
        requires packet_fits { place.now.packet ≤ 2 ^ 40 }
        ensures seen { (places : List Place) → HasSeen self.old.slot places self.old → HasSeen self.old.slot (places ++ place.now ∷ []) self.new }
        ensures slot { self.new.slot ≡ self.old.slot }
    {
        if let Some(pcr) = place.pcr {
            self.look_at(place.packet, pcr);
        }
    }

    /// The packet of this number comes, with a reference.
    fn look_at(&mut self, packet: u64, pcr: u64)
        requires slot_fits { self.old.slot ≤ 2 ^ 16 }
        requires packet_fits { packet ≤ 2 ^ 40 }
        ensures zero { self.new.zero ≡ zero_behind self.old.slot self.old.zero packet pcr }
        ensures off { self.new.off ≡ off_behind self.old.slot self.old.zero self.old.off packet pcr }
        ensures slot { self.new.slot ≡ self.old.slot }
    {
        let arrival = arrival_ticks(self.slot, packet);
        let zero = self.zero.unwrap_or(ticks_from(arrival, pcr));
        self.zero = Some(zero);
        self.off = self.off.or(off_at(zero, arrival, packet, pcr));
    }

    /// What the clock shows when the file's first byte comes.
    pub fn zero(&self) -> Option<u64>
        ensures { result ≡ self.now.zero }
    {
        self.zero
    }

    /// The byte of the file where the packet of the first reference begins that is off by 14 ticks or more.
    pub fn first_off(&self) -> Option<u64>
        ensures { result ≡ self.now.off }
    {
        self.off
    }
}

/// The byte of the file where a packet begins whose reference is off by a clock; the reference's byte comes so many ticks behind the
/// file's first one.
fn off_at(zero: u64, arrival: u64, packet: u64, pcr: u64) -> Option<u64>
    requires arrival_fits { arrival ≤ 2 ^ 60 }
    requires packet_fits { packet ≤ 2 ^ 40 }
    ensures { result ≡ (if nat_lt PCR_TOLERANCE_TICKS (apart ((zero + arrival) % PCR_MODULUS) pcr) then Some (PACKET_BYTES * packet) else None) }
{
    if apart(behind(zero, arrival), pcr) > PCR_TOLERANCE_TICKS {
        Some(PACKET_BYTES as u64 * packet)
    } else {
        None
    }
}

/// The ticks from the file's first byte on at which the byte of the n-th packet comes that ends a reference's base.
fn arrival_ticks(slot: u32, n: u64) -> u64
    requires slot_fits { slot ≤ 2 ^ 16 }
    requires packet_fits { n ≤ 2 ^ 40 }
    ensures value { result ≡ arrival_ticks slot n BASE_END_BYTE }
    ensures small { result ≤ 2 ^ 60 }
{
    let slot = u64::from(slot);
    n * slot + REFERENCE_BYTE * slot / PACKET_BYTES as u64
}

/// The time so many ticks behind another one, on a clock that goes round.
pub fn behind(time: u64, ticks: u64) -> u64
    requires { ticks ≤ 2 ^ 60 }
    ensures value { result ≡ (time + ticks) % PCR_MODULUS }
{
    (time % PCR_MODULUS + ticks) % PCR_MODULUS
}

/// How much later the one time is than the other, on a clock that goes round: less than a round.
pub fn ticks_from(earlier: u64, later: u64) -> u64
    ensures value { result ≡ ticks_from earlier later }
    ensures less { result < PCR_MODULUS }
{
    (later % PCR_MODULUS + (PCR_MODULUS - earlier % PCR_MODULUS)) % PCR_MODULUS
}

/// How far apart two times are, by the shorter way round.
fn apart(one: u64, other: u64) -> u64
    ensures { result ≡ apart one other }
{
    ticks_from(one, other).min(ticks_from(other, one))
}

/// The clock of a file by these packets of a PID, and the first of their references that is off.
pub fn clock_in(slot: u32, places: &[Place]) -> FileClock
    requires slot_fits { slot ≤ 2 ^ 16 }
    requires packets_fit { All (λ place. place.packet ≤ 2 ^ 40) places.now }
    ensures { HasSeen slot places.now result }
{
    let mut clock = FileClock::new(slot);
    for place in places {
        clock.take(place);
    }
    clock
}

/// The byte of the file where the packet of the first clock reference begins that is off by 14 ticks or more, by the first reference
/// and the places of their packets in a stream of constant rate, or none where there is none.
///
/// `places` are the packets of the program's PCR PID. Takes no memory.
pub fn first_pcr(slot: u32, places: &[Place]) -> Option<u64>
    requires slot_fits { slot ≤ 2 ^ 16 }
    requires packets_fit { All (λ place. place.packet ≤ 2 ^ 40) places.now }
    ensures { result ≡ off_of slot places.now }
{
    clock_in(slot, places).first_off()
}
