//! The time of a place in a stream, by the clocks that stand before it.

use shelf_io::Shelf;
use shelf_kinds::FileShelf;
use std::rt::Files;
use stream_constants::packets::PACKET_BYTES;

/// How many bytes are read at once: whole packets.
const PIECE_BYTES: usize = 348 * PACKET_BYTES;

/// How many pieces before the place are looked through for a clock.
const PIECES_MOST: u64 = 16;

/// Ticks of a round of the clock: 2^33 times of 1/90,000 s.
const ROUND: u64 = 300 << 33;

/// A clock that a packet carries.
#[derive(Clone, Copy)]
struct Clock {
    pid: u16,
    ticks: u64,
}

/// How many ticks the last clock before a packet shows more than the file's first one; none where the file tells none.
pub(crate) fn ticks_before<R: Files>(rt: &R, name: &str, at: u64) -> Option<u64> {
    let mut shelf = FileShelf::new(rt);
    let mut room = [0u8; PIECE_BYTES];
    let Ok(count) = shelf.read(name, 0, &mut room) else {
        return None;
    };
    let first = clocks_in(&room[..count], None, true)?;
    for back in 1..=PIECES_MOST {
        let from = at.saturating_sub(back.saturating_mul(PIECE_BYTES as u64));
        let wanted = PIECE_BYTES.min((at - from) as usize);
        let Ok(count) = shelf.read(name, from, &mut room[..wanted]) else {
            return None;
        };
        if let Some(last) = clocks_in(&room[..count], Some(first.pid), false) {
            return Some(last.ticks.wrapping_add(ROUND).wrapping_sub(first.ticks) % ROUND);
        }
        if from == 0 {
            break;
        }
    }
    None
}

/// How far a clock stands behind the first one of its PID.
#[derive(Clone, Copy)]
pub(crate) struct ClockSpan {
    pub(crate) packets: u64,
    pub(crate) ticks: u64,
}

/// How many packets and ticks the clock in the packet at a byte stands behind the first one of its PID; none where the file doesn't tell.
pub(crate) fn span_to<R: Files>(rt: &R, name: &str, pid: u64, at: u64) -> Option<ClockSpan> {
    let mut shelf = FileShelf::new(rt);
    let mut room = [0u8; PIECE_BYTES];
    let Ok(count) = shelf.read(name, at, &mut room[..PACKET_BYTES]) else {
        return None;
    };
    let last = clock_of(&room[..count])?;
    for piece in 0..PIECES_MOST {
        let from = piece.saturating_mul(PIECE_BYTES as u64);
        let Ok(count) = shelf.read(name, from, &mut room) else {
            return None;
        };
        if let Some((packet, first)) = first_on(&room[..count], pid) {
            let place = (from / PACKET_BYTES as u64).saturating_add(packet);
            return Some(ClockSpan {
                packets: (at / PACKET_BYTES as u64).saturating_sub(place),
                ticks: last.ticks.wrapping_add(ROUND).wrapping_sub(first.ticks) % ROUND,
            });
        }
    }
    None
}

/// How many ticks the last clock of a program stream of so many bytes shows more than its first one; none where its ends have none.
pub(crate) fn pack_ticks<R: Files>(rt: &R, name: &str, bytes: u64) -> Option<u64> {
    let mut shelf = FileShelf::new(rt);
    let mut room = [0u8; PIECE_BYTES];
    let Ok(count) = shelf.read(name, 0, &mut room) else {
        return None;
    };
    let first = pack_clock_in(&room[..count], true)?;
    let from = bytes.saturating_sub(PIECE_BYTES as u64);
    let Ok(count) = shelf.read(name, from, &mut room) else {
        return None;
    };
    let last = pack_clock_in(&room[..count], false)?;
    Some(last.wrapping_add(ROUND).wrapping_sub(first) % ROUND)
}

/// The first or last clock of the pack headers of a piece (13818-1, 2.5.3.3), in ticks, without its extension.
fn pack_clock_in(piece: &[u8], is_first: bool) -> Option<u64> {
    let mut found = None;
    for at in 0..piece.len() {
        if let [0, 0, 1, 0xba, a, b, c, d, e, ..] = &piece[at..] {
            let field = u64::from_be_bytes([0, 0, 0, *a, *b, *c, *d, *e]);
            let base = (field >> 35 & 7) << 30 | (field >> 19 & 0x7fff) << 15 | field >> 3 & 0x7fff;
            found = Some(base.wrapping_mul(300));
            if is_first {
                break;
            }
        }
    }
    found
}

/// The first clock of a PID in a piece, and its packet's number there.
fn first_on(piece: &[u8], pid: u64) -> Option<(u64, Clock)> {
    let mut number = 0u64;
    for packet in piece.chunks_exact(PACKET_BYTES) {
        if let Some(clock) = clock_of(packet) {
            if u64::from(clock.pid) == pid {
                return Some((number, clock));
            }
        }
        number = number.saturating_add(1);
    }
    None
}

/// The first or last clock of a piece, of one PID where it is named.
fn clocks_in(piece: &[u8], pid: Option<u16>, is_first: bool) -> Option<Clock> {
    let mut found = None;
    for packet in piece.chunks_exact(PACKET_BYTES) {
        if let Some(clock) = clock_of(packet) {
            if pid.is_none() || pid == Some(clock.pid) {
                found = Some(clock);
                if is_first {
                    break;
                }
            }
        }
    }
    found
}

/// The clock that a packet carries (13818-1, 2.4.3.4), where it carries one.
fn clock_of(packet: &[u8]) -> Option<Clock> {
    match packet {
        [
            0x47,
            high,
            low,
            control,
            length,
            flags,
            a,
            b,
            c,
            d,
            e,
            f,
            ..
        ] if control & 0x20 != 0 && *length >= 7 && flags & 0x10 != 0 => {
            let base = u64::from(u32::from_be_bytes([*a, *b, *c, *d])) << 1 | u64::from(e >> 7);
            let extension = u64::from(e & 1) << 8 | u64::from(*f);
            Some(Clock {
                pid: u16::from_be_bytes([high & 0x1f, *low]),
                ticks: base.wrapping_mul(300).wrapping_add(extension),
            })
        }
        _ => None,
    }
}
