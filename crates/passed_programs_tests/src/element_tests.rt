//! Videos of program streams, out of sources that give the file in pieces.
use crate::video_tests::{are_in_time, has_units_of};
use job_report::Form;
use passed_programs::read_id_video;
use program_maker::{in_program_stream, make_program};
use program_reader::{ProgramFault, SizesWanted, SourceKind, WalkedVideo, read_program};
use program_stream::{ElementFault, SplitFault};
use shelf_io::Reading;
use shelf_kinds::{CalmShelf, ShortShelf};
use std::alloc::{AllocError, Global};
use std::test::Fail;
use stream_pass::ReadFault;
use ts_demux::demux;

/// How many bytes a call gives at most: one, parts of an element, and the whole file.
const GIVEN: [u32; 4] = [1, 3, 7, 4_000_000_000];

const VIDEO_ID: u16 = 0xE0;

/// A pack header without stuffing.
const PACK: [u8; 14] = [
    0, 0, 1, 0xBA, 0x44, 0x00, 0x04, 0x00, 0x04, 0x01, 0x00, 0x00, 0x07, 0xF8,
];

/// A video packet of one byte, which is none of a PES header.
const SHORT_VIDEO: [u8; 7] = [0, 0, 1, 0xE0, 0, 1, 0xAA];

/// The video of a program stream, out of a source that gives so many bytes a call.
fn video_of(
    alloc: Global,
    file: &[u8],
    given: u32,
) -> Result<Result<WalkedVideo, ReadFault<ElementFault, ProgramFault>>, Fail> {
    let mut inner = CalmShelf::new(alloc);
    inner.put_file("a", file)?;
    let mut shelf = ShortShelf::new(inner, given.max(1));
    let mut source = Reading::new(&mut shelf, "a");
    let wanted = SizesWanted {
        are_wanted: false,
        coarser: &[],
    };
    Ok(read_id_video(alloc, &mut source, VIDEO_ID, wanted))
}

#[test]
fn a_program_whatever_a_call_gives(rt: HostRuntime) -> Result<(), Fail> {
    let transport = make_program(rt.alloc(), 1, 6)?;
    let demuxed = demux(rt.alloc(), transport.as_slice(), 1, &[])?;
    let file = in_program_stream(rt.alloc(), &demuxed)?;
    let whole = read_program(rt.alloc(), file.as_slice(), Form::Ps, 1, &[], 0)?;
    for given in GIVEN {
        let video = match video_of(rt.alloc(), file.as_slice(), given)? {
            Ok(video) => video,
            Err(_) => return Err(Fail::from("refused")),
        };
        assert!(rt; has_units_of(&video, &whole));
        assert!(rt; are_in_time(&video, 6));
        assert_eq!(rt; (video.units_dropped, video.pes_dropped), (0, 0));
    }
    Ok(())
}

/// A file of these parts behind a pack header.
fn file_of(alloc: Global, parts: &[&[u8]]) -> Result<Vec<u8>, AllocError> {
    let mut file = Vec::new(alloc);
    file.extend_from_slice(&PACK)?;
    for part in parts {
        file.extend_from_slice(*part)?;
    }
    Ok(file)
}

/// A fault of an element comes before the video's, wherever it stands.
#[test]
fn the_first_refusal(rt: HostRuntime) -> Result<(), Fail> {
    let packets = file_of(rt.alloc(), &[&SHORT_VIDEO, &SHORT_VIDEO])?;
    assert_eq!(rt;
        video_of(rt.alloc(), packets.as_slice(), 7)?.err(),
        Some(ReadFault::Refused(ProgramFault::Refused {
            kind: SourceKind::Short,
            at: 14
        }))
    );
    let elements = file_of(
        rt.alloc(),
        &[&SHORT_VIDEO, &SHORT_VIDEO, &[0, 0, 1, 0xC0, 0, 0]],
    )?;
    assert_eq!(rt;
        video_of(rt.alloc(), elements.as_slice(), 7)?.err(),
        Some(ReadFault::Passing(ElementFault::Refused(SplitFault::BadLength { at: 28 })))
    );
    Ok(())
}

#[test]
fn a_file_without_a_packet_of_the_video(rt: HostRuntime) -> Result<(), Fail> {
    assert_eq!(rt;
        video_of(rt.alloc(), &PACK, 3)?.err(),
        Some(ReadFault::Refused(ProgramFault::Refused {
            kind: SourceKind::NoSequence,
            at: 0
        }))
    );
    Ok(())
}
