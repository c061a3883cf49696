//! PES packets and the pieces that are cut of them (ISO/IEC 13818-1, 2.4.3.6).
ghost use Rattle.std.specs.Prelude.{◌≡◌, ◌≤◌, ◌<◌, ◌++◌, length, take, drop, IfOk};
ghost use Rattle.std.specs.Option.{option_copied};
ghost use Rattle.syntax_types.specs.declared.picture.SeqState.{SeqState};
ghost use Rattle.pes_units.specs.VideoHeader.{AreInRange, IsBesidePts, written_pes_header};
ghost use Rattle.pes_units.specs.PesPieces.{packets_for, piece_of};
ghost use Rattle.picture_grammar.specs.Picture.{MayPrecede};
ghost use Rattle.mux_writer.specs.Pieces.{HasPayloadSize, IsFilledWith};
ghost use Rattle.version_maker.specs.Versions.{IsVersionAt};
ghost use Rattle.version_source.specs.Pieces.{audio_payload};
ghost use Rattle.version_source.specs.Sendable.{IsPieceOf, IsUnitOf, LeavesState, bytes_of_unit};
ghost use Rattle.version_source.specs.Private.Sending.{IsPacketOf};

use list_types::{ListOf, OutOfMemory};
use mux_writer::Filled;
use pes_units::{MOST_HEADER_BYTES, Times, write_video_header};
use program_reader::{AudioPiece, UnitSource};
use std::alloc::Global;
use stream_constants::packets::PAYLOAD_BYTES;
use syntax_types::SeqState;
use version_maker::{UNIT_BYTES_MOST, first_version_of, version_of, want_of_memory};

/// The PES packet of a unit of a video in the version of this number, behind the state before it. The error is want of memory.
pub fn unit_packet(
    alloc: Global,
    es: &[u8],
    unit: &UnitSource,
    before: Option<&SeqState>,
    coarser: &[u16],
    index: u8,
) -> Result<ListOf<u8>, OutOfMemory>
    requires unit { IsUnitOf es.now unit.now }
    requires before { MayPrecede (option_copied before) }
    requires picture { (after : SeqState) × LeavesState (option_copied before) (bytes_of_unit es.now unit.now) after }
    requires index { index ≤ length coarser.now }
    ensures { IfOk result (IsPacketOf es.now coarser.now (option_copied before.entry) unit.now index) }
{
    let bytes = unit_bytes(es, unit);
    let version = unit_version(alloc, bytes, before, coarser, index)?;
    let packet = with_header(alloc, &unit.times, &version)?;
    Ok(packet)
}

/// The version of this number of a unit that spells a picture. The macroblocks of the unit itself, version 0, aren't read.
/// The error is want of memory.
fn unit_version(
    alloc: Global,
    unit: &[u8],
    before: Option<&SeqState>,
    coarser: &[u16],
    index: u8,
) -> Result<ListOf<u8>, OutOfMemory>
    requires unit { length unit.now ≤ UNIT_BYTES_MOST }
    requires before { MayPrecede (option_copied before) }
    requires picture { (after : SeqState) × LeavesState (option_copied before) unit.now after }
    requires index { index ≤ length coarser.now }
    ensures { IfOk result (IsVersionAt (option_copied before.entry) unit.now coarser.now index) }
{
    if index == 0 {
        return first_version_of(alloc, unit, before);
    }
    match version_of(alloc, unit, before, coarser, index) {
        Ok(version) => Ok(version),
        Err(fault) => Err(want_of_memory(fault)),
    }
}

/// The bytes of a unit of a video.
pub fn unit_bytes<'a>(es: &'a [u8], unit: &UnitSource) -> &'a [u8]
    requires { IsUnitOf es.now unit.now }
    ensures bytes { result.now ≡ bytes_of_unit es.now unit.now }
    ensures short { length result.now ≤ 1048576 }
{
    &es[unit.begin as usize..unit.end as usize]
}

/// A version with the header of a PES packet before it, which says these times.
pub fn with_header(
    alloc: Global,
    times: &Times,
    version: &ListOf<u8>,
) -> Result<ListOf<u8>, OutOfMemory>
    requires in_range { AreInRange times.now }
    requires beside { IsBesidePts times.now }
    ensures { IfOk result (λ packet. packet ≡ written_pes_header times.now ++ version.now) }
{
    let mut header = [0; MOST_HEADER_BYTES];
    let len = write_video_header(times, &mut header);
    let mut packet = header[..usize::from(len)].to_vec(alloc)?;
    packet.extend_from_slice(version.as_slice())?;
    Ok(ListOf::from_vec(packet))
}

/// Puts piece k of a PES packet into the front of `into`.
#[tactic(auto, using(crate::proofs::Cuts::place_stands, crate::proofs::Cuts::part_size))]
pub fn packet_piece(packet: &[u8], k: u32, into: &mut [u8; PAYLOAD_BYTES]) -> Filled
    requires { k < packets_for (length packet.now) }
    ensures size { HasPayloadSize result.bytes }
    ensures piece { IsFilledWith (piece_of packet.now k) result into.new }
{
    let part = part_from(packet, PAYLOAD_BYTES * k as usize);
    let size = part.len();
    into[..size].copy_from_slice(part);
    Filled {
        bytes: size as u8,
        start: k == 0,
    }
}

/// The bytes from a place on, as many as a packet has room for.
#[tactic(auto, using(crate::proofs::Cuts::part_rest, crate::proofs::Cuts::part_full))]
fn part_from(packet: &[u8], from: usize) -> &[u8]
    requires { from < length packet.now }
    ensures { result.now ≡ take PAYLOAD_BYTES (drop from packet.now) }
{
    if packet.len() - from <= PAYLOAD_BYTES {
        return &packet[from..];
    }
    &packet[from..from + PAYLOAD_BYTES]
}

/// Puts a piece of an audio stream into the front of `into`.
pub fn audio_piece(bytes: &[u8], piece: &AudioPiece, into: &mut [u8; PAYLOAD_BYTES]) -> Filled
    requires { IsPieceOf bytes.now piece.now }
    ensures size { HasPayloadSize result.bytes }
    ensures piece { IsFilledWith (audio_payload bytes.now piece.now) result into.new }
{
    let from = piece.at as usize;
    let size = usize::from(piece.packet.bytes);
    into[..size].copy_from_slice(&bytes[from..from + size]);
    Filled {
        bytes: piece.packet.bytes,
        start: piece.start,
    }
}
