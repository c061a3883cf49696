//! Audio streams, out of sources that give the file in pieces.

use audio_frames::{AudioFault, Frame};
use elementary_streams::{AxisTime, ReadStream, StreamFault};
use passed_programs::{read_audio, read_id_audio};
use pes_units::PesFault;
use program_maker::{in_program_stream, make_program};
use program_stream::{ElementFault, SplitFault};
use shelf_io::Reading;
use shelf_kinds::{CalmShelf, ShortShelf};
use std::alloc::{AllocError, Global};
use std::test::Fail;
use stream_constants::packets::PACKET_BYTES;
use stream_pass::ReadFault;
use test_packets::{AUDIO_PID, VIDEO_PID, alike, file_of, two_streams};
use ts_demux::{DemuxFault, PacketBuffer, PassFault, demux};

/// How many bytes a call gives at most: one, parts of a packet, and the whole file.
const GIVEN: [u32; 5] = [1, 187, 188, 189, 4_000_000_000];

/// Bytes of a frame of 192 kbit/s at 48,000 Hz, and ticks of its 1,152 samples.
const FRAME_BYTES: u64 = 576;

const FRAME_TICKS: i64 = 648_000;

/// The audio stream of a file behind its video stream, which begins at 1 s, out of a source that gives so many bytes a call.
fn audio_of(
    alloc: Global,
    file: &[u8],
    given: u32,
) -> Result<Result<ReadStream, ReadFault<PassFault, StreamFault>>, Fail> {
    let mut inner = CalmShelf::new(alloc);
    inner.put_file("a", file)?;
    let mut shelf = ShortShelf::new(inner, given.max(1));
    let mut source = Reading::new(&mut shelf, "a");
    let mut buffer = PacketBuffer::new(vec![in alloc; 0u8; PACKET_BYTES]?);
    let streams = two_streams();
    let first = AxisTime::of(90_000);
    Ok(read_audio(alloc, &mut buffer, &mut source, &streams, 1, first))
}

/// True where so many frames are read, one behind the other from 1 s on, each in a PES packet of its own.
fn are_frames(read: &ReadStream, count: usize) -> bool {
    let mut at = 0u64;
    let mut time = 27_000_000i64;
    for frame in read.frames.as_slice() {
        let expected = Frame {
            at,
            len: FRAME_BYTES,
            time,
        };
        if *frame != expected {
            return false;
        }
        at = at.wrapping_add(FRAME_BYTES);
        time = time.wrapping_add(FRAME_TICKS);
    }
    read.frames.len() == count && read.packets.len() == count && read.bytes == at && read.kind == 3
}

/// Three pictures of 25 a second last as long as five frames of 24 ms.
#[test]
fn a_program_whatever_a_call_gives(rt: HostRuntime) -> Result<(), Fail> {
    let file = make_program(rt.alloc(), 1, 3)?;
    for given in GIVEN {
        let read = audio_of(rt.alloc(), file.as_slice(), given)??;
        assert!(rt; are_frames(&read, 5));
        assert_eq!(rt; read.dropped, 0);
    }
    Ok(())
}

/// The last frame has no end then, and its PES packet is dropped.
#[test]
fn a_file_that_ends_within_its_last_packet(rt: HostRuntime) -> Result<(), Fail> {
    let file = make_program(rt.alloc(), 1, 3)?;
    let bytes = file.as_slice();
    for missing in [1, 187] {
        let cut = &bytes[..bytes.len().saturating_sub(missing)];
        for given in [187, 189] {
            let read = audio_of(rt.alloc(), cut, given)??;
            assert!(rt; are_frames(&read, 4));
            assert_eq!(rt; read.dropped, 1);
        }
    }
    Ok(())
}

/// A packet of no stream, one of the video, and two PES packets of the audio that are none.
fn refused_file(alloc: Global) -> Result<Vec<u8>, AllocError> {
    let packets = [
        alike(17, true, 0, 0xEE),
        alike(VIDEO_PID, true, 1, 0xA1),
        alike(AUDIO_PID, true, 7, 0xC7),
        alike(AUDIO_PID, true, 8, 0xC8),
    ];
    file_of(alloc, &packets)
}

/// A fault of a transport packet, of the video too, comes before the audio's, wherever it stands.
#[test]
fn the_first_refusal(rt: HostRuntime) -> Result<(), Fail> {
    let mut file = refused_file(rt.alloc())?;
    let audio = audio_of(rt.alloc(), file.as_slice(), 189)?;
    assert_eq!(rt;
        audio.err(),
        Some(ReadFault::Refused(StreamFault::Pes {
            at: 376,
            fault: PesFault::BadPrefix
        }))
    );
    file.extend_from_slice(&alike(VIDEO_PID, true, 3, 0xA3))?;
    let packets = audio_of(rt.alloc(), file.as_slice(), 189)?;
    assert_eq!(rt;
        packets.err(),
        Some(ReadFault::Passing(PassFault::Refused(DemuxFault::Gap { at: 752 })))
    );
    Ok(())
}

/// Its payload is empty, so that no frame of Layer II stands in it.
#[test]
fn a_file_without_a_packet_of_the_audio(rt: HostRuntime) -> Result<(), Fail> {
    let audio = audio_of(rt.alloc(), &alike(17, true, 0, 0xEE), 188)?;
    assert_eq!(rt;
        audio.err(),
        Some(ReadFault::Refused(StreamFault::Frames(AudioFault::NotLayer2 { at: 0 })))
    );
    Ok(())
}

/// The audio stream of a program stream whose video begins at 1 s, out of a source that gives so many bytes a call.
fn element_audio_of(
    alloc: Global,
    file: &[u8],
    given: u32,
) -> Result<Result<ReadStream, ReadFault<ElementFault, StreamFault>>, Fail> {
    let mut inner = CalmShelf::new(alloc);
    inner.put_file("a", file)?;
    let mut shelf = ShortShelf::new(inner, given.max(1));
    let mut source = Reading::new(&mut shelf, "a");
    let first = AxisTime::of(90_000);
    Ok(read_id_audio(alloc, &mut source, 0xC0, first))
}

/// An element that is refused comes before the audio's packets.
#[test]
fn a_program_stream_whatever_a_call_gives(rt: HostRuntime) -> Result<(), Fail> {
    let transport = make_program(rt.alloc(), 1, 3)?;
    let demuxed = demux(rt.alloc(), transport.as_slice(), 1, &[])?;
    let mut file = in_program_stream(rt.alloc(), &demuxed)?.into_vec();
    for given in [1, 3, 7, 4_000_000_000] {
        let read = match element_audio_of(rt.alloc(), file.as_slice(), given)? {
            Ok(read) => read,
            Err(_) => return Err(Fail::from("refused")),
        };
        assert!(rt; are_frames(&read, 5));
        assert_eq!(rt; read.dropped, 0);
    }
    let at = file.len() as u64;
    file.extend_from_slice(&[0, 0, 1, 0xE0, 0, 0])?;
    assert_eq!(rt;
        element_audio_of(rt.alloc(), file.as_slice(), 7)?.err(),
        Some(ReadFault::Passing(ElementFault::Refused(SplitFault::BadLength { at })))
    );
    Ok(())
}
