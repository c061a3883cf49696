//! The pieces of audio PES packets, each sent in one transport packet.
ghost use Rattle.std.specs.Prelude.{◌≡◌, ◌≤◌, ◌<◌, ◌+◌, ◌-◌, ◌/◌, ◌^◌, ℕ, length, All, IfOk, OnOk};
ghost use Rattle.program_reader.specs.Audio.{time_of_byte, payload_place, packet_size, piece_size, placed_pieces, IsPiece, ArePieces};
ghost use Rattle.elementary_streams.specs.NearTimes.{IsTime};
ghost use Rattle.program_reader.specs.Dues.{Follow, HasTimes, IsTimeFrom};
ghost use Rattle.program_reader.specs.Private.Pieces.{IsSized, AddsPieces, TellsFrom};

use crate::due::DueClock;
use crate::frame_walk::byte_time;
use crate::limits::{PES_PACKETS_MOST, PIECE_BYTES};
use crate::program::AudioPiece;
use audio_frames::Frame;
use elementary_streams::PlacedPacket;
use list_types::{ListOf, OutOfMemory};
use std::alloc::Global;
use version_table::AudioPacket;

/// A piece, and the frames from that of its last byte on.
#[derive(Clone, Copy)]
struct FoundPiece<'a> {
    piece: AudioPiece,
    left: &'a [Frame],
}

/// The pieces of the PES packets of an audio stream, in order, with their times by the frames of the stream.
pub fn audio_pieces(
    alloc: Global,
    packets: &[PlacedPacket],
    frames: &[Frame],
    clock: &DueClock,
) -> Result<ListOf<AudioPiece>, OutOfMemory>
    requires few { length packets.now ≤ PES_PACKETS_MOST }
    requires follow { Follow 0 packets.now }
    requires start { clock.now.start < 2 ^ 50 }
    requires earliest { IsTime clock.now.earliest }
    requires times { All (HasTimes clock.now.earliest frames.now) packets.now }
    ensures { IfOk result (ArePieces clock.now.start clock.now.earliest frames.now (placed_pieces 0 packets.now)) }
{
    let mut pieces = ListOf::new(alloc);
    let mut left = frames;
    let mut at = 0;
    for packet in packets {
        left = add_pieces(&mut pieces, packet, at, left, clock)?;
        at += packet_size(packet);
    }
    Ok(pieces)
}

/// Adds the pieces of a PES packet that begins at a place of its stream. The frames that are left tell the times of all payload
/// bytes behind the packet.
fn add_pieces<'a>(
    pieces: &mut ListOf<AudioPiece>,
    packet: &PlacedPacket,
    at: u64,
    frames: &'a [Frame],
    clock: &DueClock,
) -> Result<&'a [Frame], OutOfMemory>
    requires sized { IsSized at packet.now }
    requires start { clock.now.start < 2 ^ 50 }
    requires earliest { IsTime clock.now.earliest }
    requires times { HasTimes clock.now.earliest frames.now packet.now }
    ensures pieces { OnOk result (AddsPieces clock.now.start clock.now.earliest frames.now packet.now at pieces.old pieces.new) }
    ensures left { IfOk result (λ left. TellsFrom packet.now.end frames.now left.now) }
{
    let mut left = frames;
    for k in 0..piece_count(packet) {
        let found = piece_at(packet, at, PIECE_BYTES * k, left, clock);
        left = found.left;
        pieces.push(found.piece)?;
    }
    Ok(left)
}

/// The number of pieces of a PES packet.
fn piece_count(packet: &PlacedPacket) -> u64
    requires sized { IsSized 0 packet.now }
    ensures value { result ≡ (packet_size packet.now + (PIECE_BYTES - 1)) / PIECE_BYTES }
    ensures small { packet_size packet.now < 2 ^ 42 }
{
    (packet_size(packet) + (PIECE_BYTES - 1)) / PIECE_BYTES
}

/// The piece that begins at a place of a PES packet, which begins at one of its stream.
fn piece_at<'a>(
    packet: &PlacedPacket,
    at: u64,
    from: u64,
    frames: &'a [Frame],
    clock: &DueClock,
) -> FoundPiece<'a>
    requires sized { IsSized at packet.now }
    requires inside { from < packet_size packet.now }
    requires start { clock.now.start < 2 ^ 50 }
    requires earliest { IsTime clock.now.earliest }
    requires times { (byte : ℕ) → from ≤ byte → byte < packet_size packet.now → IsTimeFrom clock.now.earliest (time_of_byte frames.now (payload_place packet.now byte)) }
    ensures piece { IsPiece clock.now.start clock.now.earliest frames.now packet.now at from (piece_size (packet_size packet.now) from) result.piece }
    ensures left { TellsFrom (payload_place packet.now (from + piece_size (packet_size packet.now) from - 1)) frames.now result.left.now }
{
    let size = packet_size(packet);
    let bytes = if size - from < PIECE_BYTES {
        size - from
    } else {
        PIECE_BYTES
    };
    let first = byte_time(frames, payload_place(packet, from));
    let last = byte_time(first.left, payload_place(packet, from + bytes - 1));
    FoundPiece {
        piece: AudioPiece {
            packet: AudioPacket {
                due: clock.due(first.time),
                gone: clock.due(last.time),
                bytes: bytes as u8,
            },
            start: from == 0,
            at: at + from,
        },
        left: last.left,
    }
}

/// Bytes of a PES packet.
fn packet_size(packet: &PlacedPacket) -> u64
    requires sized { IsSized 0 packet.now }
    ensures value { result ≡ packet_size packet.now }
    ensures small { result < 2 ^ 42 }
{
    u64::from(packet.header.len) + (packet.end - packet.from)
}

/// The payload byte that a byte of a PES packet counts with: itself, or the first one for a byte of the header.
fn payload_place(packet: &PlacedPacket, byte: u64) -> u64
    requires sized { IsSized 0 packet.now }
    requires inside { byte < packet_size packet.now }
    ensures { result ≡ payload_place packet.now byte }
{
    packet.from + byte.saturating_sub(u64::from(packet.header.len))
}
