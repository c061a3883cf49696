//! PES packets of streams, out of sources that give the file in pieces.
ghost use Rattle.std.specs.Prelude.{◌≡◌, ℕ, ◌<◌, ◌∷◌, [], ◌++◌, map, length, slice_get, Some, OnOk, IfOk};
ghost use Rattle.std.specs.Option.{option_copied, option_to_list};
ghost use Rattle.ts_packets.specs.TransportStream.{piece_count};
ghost use Rattle.ts_demux.specs.CarriedPackets.{AreDistinct};
ghost use Rattle.ts_demux.specs.Pass.{IsWhole};
ghost use Rattle.pes_passing.specs.PassingPackets.{packets_before};

use list_types::{ListOf, OutOfMemory};
use pes_passing::PassingPackets;
use psi_tables::Stream;
use shelf_io::{Reading, Source};
use shelf_kinds::{CalmShelf, ShortShelf};
use std::alloc::{AllocError, Global};
use std::test::Fail;
use stream_constants::packets::{PACKET_BYTES, SYNC_BYTE};
use test_packets::{AUDIO_PID, VIDEO_PID, alike, two_streams};
use ts_demux::{DemuxFault, PacketBuffer, PassFault, PesUnit};

/// How many bytes a call gives at most: parts of a packet, and one.
const GIVEN: [u32; 4] = [1, 187, 188, 189];

/// The PES packets of a stream out of a source, each with its place, and the last one: what a caller owes and knows is shown by the clauses alone.
fn all_packets<S: Source>(
    alloc: Global,
    buffer: &mut PacketBuffer,
    source: &mut S,
    streams: &[Stream],
    index: usize,
) -> Result<Vec<PesUnit>, PassFault>
    requires empty { buffer.old ≡ [] }
    requires index { index < length streams.now }
    requires distinct { AreDistinct (map (λ stream. stream.pid) streams.now) }
    ensures { IfOk result (λ units. IsWhole (S.left source.old) (S.left source.new) (S.most source.old) (S.most source.new) buffer.new
        (λ file. (pid : ℕ) × (slice_get (map (λ stream. stream.pid) streams.now) index ≡ Some pid) × (units.items ≡ packets_before file pid (piece_count file)))) }
{
    let mut packets = match PassingPackets::new(alloc, streams, index) {
        Ok(packets) => packets,
        Err(fault) => return Err(PassFault::Refused(fault)),
    };
    let mut units = Vec::new(alloc);
    loop {
        let more = match packets.next(buffer, source) {
            Ok(more) => more,
            Err(fault) => return Err(fault),
        };
        match push_copy(alloc, &mut units, packets.packet()) {
            Ok(()) => {}
            Err(_) => return Err(PassFault::Refused(DemuxFault::OutOfMemory)),
        }
        if !more {
            return Ok(units);
        }
    }
}

/// Puts a copy of a PES packet behind others.
fn push_copy(
    alloc: Global,
    units: &mut Vec<PesUnit>,
    packet: Option<&PesUnit>,
) -> Result<(), OutOfMemory>
    ensures { OnOk result (units.new.items ≡ units.old.items ++ option_to_list (option_copied packet.entry)) }
{
    let Some(packet) = packet else {
        return Ok(());
    };
    let bytes = packet.bytes.as_slice().to_vec(alloc)?;
    units.push(PesUnit {
        at: packet.at,
        bytes: ListOf::from_vec(bytes),
    })?;
    Ok(())
}

/// The PES packets of the first or the second stream of a file, out of a source that gives so many bytes a call, through a room of so many.
fn packets_of(
    alloc: Global,
    file: &[u8],
    given: u32,
    room: usize,
    index: usize,
) -> Result<Result<Vec<PesUnit>, PassFault>, Fail>
    requires { index < 2 }
{
    let mut inner = CalmShelf::new(alloc);
    inner.put_file("a", file)?;
    let mut shelf = ShortShelf::new(inner, given.max(1));
    let mut source = Reading::new(&mut shelf, "a");
    let mut buffer = PacketBuffer::new(vec![in alloc; 0u8; room.max(PACKET_BYTES)]?);
    let streams = two_streams();
    Ok(all_packets(alloc, &mut buffer, &mut source, &streams, index))
}

/// A video packet before the first PES packet; a PES packet of two; one of the audio; one of the video and one of the audio whose packets stand between
/// each other; the last one of the video; and three bytes: 1,883 bytes, of which so many stand in the file.
fn mixed_file(alloc: Global, length: usize) -> Result<Vec<u8>, AllocError> {
    let mut file = Vec::new(alloc);
    for packet in [
        alike(VIDEO_PID, false, 0, 0xA0),
        alike(VIDEO_PID, true, 1, 0xA1),
        alike(VIDEO_PID, false, 2, 0xA2),
        alike(AUDIO_PID, true, 7, 0xC7),
        alike(VIDEO_PID, true, 3, 0xA3),
        alike(AUDIO_PID, true, 8, 0xC8),
        alike(17, true, 0, 0xEE),
        alike(AUDIO_PID, false, 9, 0xC9),
        alike(VIDEO_PID, false, 4, 0xA4),
        alike(VIDEO_PID, true, 5, 0xA5),
    ] {
        file.extend_from_slice(&packet)?;
    }
    file.extend_from_slice(&[SYNC_BYTE, 0x01, 0x01])?;
    file.truncate(length);
    Ok(file)
}

/// The place of a PES packet, how many bytes it has, and its first and its last one.
type Said = (u64, usize, u8, u8);

/// True where these PES packets are so.
fn are_so(packets: &Result<Vec<PesUnit>, PassFault>, said: &[Said]) -> bool {
    let Ok(packets) = packets else {
        return false;
    };
    let same = packets.as_slice().iter().zip(said).all(|(unit, (at, len, first, last))| {
        unit.at == *at
            && unit.bytes.len() == *len
            && unit.bytes.as_slice().first() == Some(first)
            && unit.bytes.as_slice().last() == Some(last)
    });
    same && packets.len() == said.len()
}

#[test]
fn the_packets_of_a_stream_whatever_a_call_gives(rt: HostRuntime) -> Result<(), Fail> {
    let file = mixed_file(rt.alloc(), 1883)?;
    for given in GIVEN {
        for room in [188, 375, 3_008] {
            let video = packets_of(rt.alloc(), file.as_slice(), given, room, 0)?;
            assert!(rt;
                are_so(
                    &video,
                    &[
                        (188, 368, 0xA1, 0xA2),
                        (752, 368, 0xA3, 0xA4),
                        (1692, 184, 0xA5, 0xA5)
                    ]
                )
            );
            let audio = packets_of(rt.alloc(), file.as_slice(), given, room, 1)?;
            assert!(rt; are_so(&audio, &[(564, 184, 0xC7, 0xC7), (940, 368, 0xC8, 0xC9)]));
        }
    }
    Ok(())
}

#[test]
fn a_file_that_ends_within_a_packet(rt: HostRuntime) -> Result<(), Fail> {
    let (cut, first, none) = (
        mixed_file(rt.alloc(), 1000)?,
        mixed_file(rt.alloc(), 375)?,
        mixed_file(rt.alloc(), 188)?,
    );
    for given in GIVEN {
        let video = packets_of(rt.alloc(), cut.as_slice(), given, 188, 0)?;
        assert!(rt; are_so(&video, &[(188, 368, 0xA1, 0xA2), (752, 184, 0xA3, 0xA3)]));
        let audio = packets_of(rt.alloc(), first.as_slice(), given, 188, 1)?;
        assert!(rt; are_so(&audio, &[]));
        let before = packets_of(rt.alloc(), none.as_slice(), given, 188, 0)?;
        assert!(rt; are_so(&before, &[]));
    }
    Ok(())
}

/// A packet of the other stream is refused too, and where both have a fault the first in the file.
#[test]
fn the_first_packet_that_is_refused(rt: HostRuntime) -> Result<(), Fail> {
    let mut file = mixed_file(rt.alloc(), 1880)?;
    file.extend_from_slice(&alike(AUDIO_PID, false, 12, 0xCC))?;
    file.extend_from_slice(&alike(VIDEO_PID, false, 9, 0xA9))?;
    for index in 0..2 {
        let refused = packets_of(rt.alloc(), file.as_slice(), 189, 188, index)?;
        assert_eq!(rt;
            refused.err(),
            Some(PassFault::Refused(DemuxFault::Gap { at: 1880 }))
        );
    }
    Ok(())
}
