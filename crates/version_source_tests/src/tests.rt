use crate::asking::{Ask, are_right, is_given};
use crate::kept::Kept;
use crate::orders::{by_turns, count_items, from_the_last, in_order, last_pieces};
use mux_writer::Filled;
use std::test::Fail;
use version_source::VersionSource;

/// The streams of two programs with one audio stream each: the video and the audio of the first one, then those of the other.
const STREAMS: u32 = 4;

/// The header of a picture that is decoded at 97,200 and shown at 100,800, two picture times of 3,600 behind the first one:
/// 100,800 is 3 * 32,768 + 19 * 128 + 64, and 97,200 is 2 * 32,768 + 247 * 128 + 48.
const HEADER: [u8; 19] = [
    0x00, 0x00, 0x01, 0xE0, 0x00, 0x00, 0x80, 0xC0, 0x0A, 0x31, 0x00, 0x07, 0x13, 0x81, 0x11, 0x00,
    0x05, 0xF7, 0x61,
];

#[test]
fn pieces_are_those_of_the_kept_versions_in_each_order(rt: HostRuntime) -> Result<(), Fail> {
    let mut kept = Kept::new(rt.alloc());
    kept.add(rt.alloc(), 1, 4, &[24, 48, 128])?;
    kept.add(rt.alloc(), 2, 3, &[32])?;
    let mut source = VersionSource::new(
        rt.alloc(),
        kept.programs.as_slice(),
        kept.jobs.as_slice(),
        kept.choice.as_slice(),
    )?;
    // five audio frames for three pictures, rounded down, and four packets a frame
    assert_eq!(rt; (count_items(&kept, 0), count_items(&kept, 1)), (4, 24));
    assert_eq!(rt; (count_items(&kept, 2), count_items(&kept, 3)), (3, 20));
    let ask = Ask {
        stream: 2,
        item: 2,
        piece: 0,
    };
    let whole = Filled {
        bytes: 184,
        start: true,
    };
    assert!(rt; is_given(&mut source, &kept, ask, whole, &HEADER)?);
    let asks = in_order(rt.alloc(), &kept, STREAMS)?;
    assert!(rt; are_right(&mut source, &kept, asks.as_slice())?);
    let asks = from_the_last(rt.alloc(), &kept, STREAMS)?;
    assert!(rt; are_right(&mut source, &kept, asks.as_slice())?);
    let asks = last_pieces(rt.alloc(), &kept, STREAMS)?;
    assert!(rt; are_right(&mut source, &kept, asks.as_slice())?);
    let asks = by_turns(rt.alloc(), &kept, 0, 2)?;
    assert!(rt; are_right(&mut source, &kept, asks.as_slice())?);
    Ok(())
}
