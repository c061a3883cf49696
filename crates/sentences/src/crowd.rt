//! How many bytes a transport buffer holds at an instant, by the packets that came up to then (13818-1, 2.4.2.3).

use shelf_io::Shelf;
use shelf_kinds::FileShelf;
use std::rt::Files;
use stream_constants::clock::BYTE_SUBTICKS_PER_TICK;
use stream_constants::packets::PACKET_BYTES;

/// How many packets are read at once.
const PIECE_PACKETS: usize = 348;

/// A transport buffer, and the packets that come into it.
#[derive(Clone, Copy)]
pub(crate) struct TransportBuffer<'a> {
    pub(crate) file: &'a str,
    /// Ticks of a slot.
    pub(crate) slot: u64,
    /// The PIDs of its packets: two, or one twice.
    pub(crate) pids: [u64; 2],
    /// Subticks that a byte takes to leave it.
    pub(crate) leaving: u64,
}

/// What of a transport buffer's packets has come so far.
#[derive(Drop)]
struct Crowd {
    /// Subticks from byte to byte of the file.
    step: u64,
    /// Subticks that a byte takes to leave.
    leaving: u64,
    /// When the last byte leaves.
    empty: u64,
    /// The instant that is asked of, and how many bytes are there then.
    at: u64,
    held: u64,
}

impl TransportBuffer<'_> {
    /// How many bytes it holds at an instant, in subticks; none where the file can't be read.
    pub(crate) fn held_at<R: Files>(&self, rt: &R, at: u64) -> Option<u64> {
        let mut shelf = FileShelf::new(rt);
        let mut room = [0u8; PIECE_PACKETS * PACKET_BYTES];
        let mut crowd = Crowd {
            step: BYTE_SUBTICKS_PER_TICK.saturating_mul(self.slot),
            leaving: self.leaving,
            empty: 0,
            at,
            held: 0,
        };
        for piece in 0..u64::MAX {
            let first = piece.saturating_mul(PIECE_PACKETS as u64);
            let place = first.saturating_mul(PACKET_BYTES as u64);
            if crowd.comes(place) > at {
                break;
            }
            let Ok(count) = shelf.read(self.file, place, &mut room) else {
                return None;
            };
            crowd.take(&room[..count], self.pids, first);
            if count < PIECE_PACKETS * PACKET_BYTES {
                break;
            }
        }
        Some(crowd.held)
    }
}

impl Crowd {
    /// The instant at which a byte of the file comes.
    fn comes(&self, byte: u64) -> u64 {
        byte.saturating_mul(self.step)
    }

    /// Takes the packets of these PIDs in a piece of the file, the first of whose packets has this number.
    fn take(&mut self, piece: &[u8], pids: [u64; 2], first: u64) {
        let mut number = first;
        for packet in piece.chunks_exact(PACKET_BYTES) {
            if is_on(packet, pids) {
                self.add(number.saturating_mul(PACKET_BYTES as u64));
            }
            number = number.saturating_add(1);
        }
    }

    /// Adds the packet that begins at a byte of the file.
    fn add(&mut self, first: u64) {
        // the last byte leaves so much later where none of them waits
        let apart = self.step.saturating_sub(self.leaving);
        let last = apart.saturating_mul(PACKET_BYTES as u64 - 1);
        let empty = self
            .empty
            .max(self.comes(first).saturating_add(last))
            .saturating_add(self.leaving.saturating_mul(PACKET_BYTES as u64));
        if empty > self.at {
            self.add_bytes(first);
        } else {
            self.empty = empty;
        }
    }

    /// Adds its bytes one by one, and counts those that are there at the instant.
    fn add_bytes(&mut self, first: u64) {
        for k in 0..PACKET_BYTES as u64 {
            let comes = self.comes(first.saturating_add(k));
            self.empty = self.empty.max(comes).saturating_add(self.leaving);
            if comes <= self.at && self.empty > self.at {
                self.held = self.held.saturating_add(1);
            }
        }
    }
}

/// Whether a packet is one of these PIDs.
fn is_on(packet: &[u8], pids: [u64; 2]) -> bool {
    match packet {
        [0x47, high, low, ..] => {
            let pid = u64::from(u16::from_be_bytes([high & 0x1f, *low]));
            pid == pids[0] || pid == pids[1]
        }
        _ => false,
    }
}
