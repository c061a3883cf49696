//! A file that passes out of a source: its clock, its video packet by packet, and what its packets bring.

use crate::files::{VIDEO_BYTES, clock, pat, pes_packet, pmt, video};
use shelf_io::SliceSource;
use std::alloc::{AllocError, Global};
use std::test::Fail;
use stream_audit::{
    FoundClock, KeptBytes, PesParts, PlacesFault, StreamWatch, pass_sections, read_arrivals,
    read_clock, watch_stream,
};
use stream_constants::packets::PACKET_BYTES;
use test_packets::{MAP_PID, VIDEO_PID, file_of};
use ts_demux::PacketBuffer;
use tstd_model::{Arrival, BufferKind, Removal};

/// Bytes of the files at most.
const FILE_BYTES: usize = 1_000;

/// The clock of a file in slots of 40,000 ticks, by the references on a PID.
fn clock_by(
    alloc: Global,
    file: &[u8],
    pid: u16,
) -> Result<Result<Option<FoundClock>, PlacesFault>, AllocError> {
    let mut buffer = PacketBuffer::new(vec![in alloc; 0u8; PACKET_BYTES]?);
    let mut source = SliceSource::new(&file[..file.len().min(FILE_BYTES)]);
    Ok(read_clock(&mut buffer, &mut source, 40_000, pid))
}

/// Whether the video of a file in slots of 40,000 ticks is surely clean, of which so many bytes are removed at tick 200,000.
fn is_clean(
    alloc: Global,
    file: &[u8],
    bytes: u32,
) -> Result<Result<bool, PlacesFault>, AllocError> {
    let packets = [pes_packet(alloc)?];
    let removals = [Removal {
        due: 200_000,
        bytes,
    }];
    let kept = KeptBytes {
        skipped: 0,
        kept: u64::from(VIDEO_BYTES),
    };
    let parts = PesParts::new(0, kept, &packets);
    let stream = StreamWatch::new(40_000, BufferKind::Video { vbv: 1 }, &removals, parts);
    let mut buffer = PacketBuffer::new(vec![in alloc; 0u8; PACKET_BYTES]?);
    let mut source = SliceSource::new(&file[..file.len().min(FILE_BYTES)]);
    Ok(watch_stream(&mut buffer, &mut source, VIDEO_PID, stream))
}

// The reference of the packet of number 2 says when its byte comes, so that the clock shows 0 at the file's front; that of number 3 is off by 14 ticks.
#[test]
fn the_clock_of_a_file_that_passes(rt: HostRuntime) -> Result<(), Fail> {
    let file = file_of(rt.alloc(), &[pat(), pmt(), video(82_127), clock(122_141)])?;
    let found = FoundClock {
        zero: 0,
        off: Some(564),
    };
    let by_video = clock_by(rt.alloc(), file.as_slice(), VIDEO_PID)?;
    let by_map = clock_by(rt.alloc(), file.as_slice(), MAP_PID)?;
    assert!(rt; by_video == Ok(Some(found)));
    assert!(rt; by_map == Ok(None));
    Ok(())
}

#[test]
fn a_video_that_is_surely_clean_and_one_with_a_byte_too_few(rt: HostRuntime) -> Result<(), Fail> {
    let file = file_of(rt.alloc(), &[pat(), pmt(), video(82_127)])?;
    let whole = is_clean(rt.alloc(), file.as_slice(), VIDEO_BYTES)?;
    let larger = is_clean(rt.alloc(), file.as_slice(), VIDEO_BYTES + 1)?;
    assert!(rt; whole == Ok(true));
    assert!(rt; larger == Ok(false));
    Ok(())
}

/// Whether the sections of a file, with its map on PID 256, bring these packets.
fn are_sections(alloc: Global, file: &[u8], expected: &[Arrival]) -> Result<bool, AllocError> {
    let mut buffer = PacketBuffer::new(vec![in alloc; 0u8; PACKET_BYTES]?);
    let mut source = SliceSource::new(&file[..file.len().min(FILE_BYTES)]);
    match pass_sections(alloc, &mut buffer, &mut source, MAP_PID) {
        Ok(arrivals) => Ok(arrivals.as_slice() == expected),
        Err(_) => Ok(false),
    }
}

/// Whether the video's PID brings these packets, of whose payload all is kept behind its PES header.
fn are_video(alloc: Global, file: &[u8], expected: &[Arrival]) -> Result<bool, AllocError> {
    let packets = [pes_packet(alloc)?];
    let kept = KeptBytes {
        skipped: 0,
        kept: u64::from(VIDEO_BYTES),
    };
    let parts = PesParts::new(0, kept, &packets);
    let mut buffer = PacketBuffer::new(vec![in alloc; 0u8; PACKET_BYTES]?);
    let mut source = SliceSource::new(&file[..file.len().min(FILE_BYTES)]);
    match read_arrivals(alloc, &mut buffer, &mut source, VIDEO_PID, parts) {
        Ok(arrivals) => Ok(arrivals.as_slice() == expected),
        Err(_) => Ok(false),
    }
}

/// A packet of sections in a slot, whose payload is the 184 bytes behind its header.
fn sections_in(slot_no: u32) -> Arrival {
    Arrival {
        slot_no,
        header: 0,
        payload: 184,
    }
}

// Of the video's packet 4 bytes are header and 8 adaptation field, so that 176 go on: 14 of a PES header, and 162 behind it.
#[test]
fn what_the_packets_of_a_file_bring(rt: HostRuntime) -> Result<(), Fail> {
    let file = file_of(rt.alloc(), &[pat(), video(82_127), pmt()])?;
    let video = Arrival {
        slot_no: 1,
        header: 14,
        payload: 176,
    };
    let sections = [sections_in(0), sections_in(2)];
    assert!(rt; are_sections(rt.alloc(), file.as_slice(), &sections)?);
    assert!(rt; are_video(rt.alloc(), file.as_slice(), &[video])?);
    Ok(())
}
