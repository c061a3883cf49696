ghost use Rattle.std.specs.Prelude.{◌<◌, ◌≤◌, length, IfOk, IfErr};
ghost use Rattle.audio_frames.specs.declared.limits.TheConstants.{PAYLOAD_BYTES_MOST};
ghost use Rattle.audio_frames.specs.Times.{AreStarts, AreFramesOf, IsAudioRefused};

use audio_frames::{AudioFault, Frame, FrameWalk, PesStart, frames};
use list_types::{ListOf, OutOfMemory};
use std::alloc::Global;
use std::test::Fail;

/// Bytes of a frame of 8 kbit/s at 24,000 Hz, and ticks of its 1,152 samples.
const FRAME_BYTES: usize = 48;

const FRAME_TICKS: i64 = 1_296_000;

/// The pieces that are tried.
const PIECES: [usize; 4] = [1, 187, 188, 189];

/// Where the frames begin, and how many there are.
const FIRST: usize = 3;

const FRAMES: usize = 10;

/// Three bytes, ten frames, and twenty bytes of an eleventh.
const SIZE: usize = 503;

fn ten_frames() -> [u8; SIZE] {
    let mut payload = [0; SIZE];
    for k in 0..FRAMES + 1 {
        let at = FIRST + FRAME_BYTES * k;
        payload[at] = 0xFF;
        payload[at + 1] = 0xF5;
        payload[at + 2] = 0x14;
    }
    payload
}

/// The frames of a payload that comes in pieces of so many bytes, as `frames` has them.
fn walked(
    alloc: Global,
    payload: &[u8],
    size: usize,
    starts: &[PesStart],
) -> Result<ListOf<Frame>, AudioFault>
    requires some { 0 < size }
    requires few { length payload.now ≤ PAYLOAD_BYTES_MOST }
    requires starts { AreStarts (length payload.now) starts.now }
    ensures frames { IfOk result (AreFramesOf payload.now starts.now) }
    ensures refused { IfErr result (IsAudioRefused payload.now starts.now) }
{
    let mut walk = FrameWalk::new(alloc);
    let mut from = 0;
    while from < payload.len() {
        let count = size.min(payload.len() - from);
        walk = walk.push(&payload[from..from + count])?;
        from += count;
    }
    walk.end(alloc, starts)
}

#[test]
fn frames_are_the_same_in_pieces(rt: HostRuntime) -> Result<(), Fail> {
    let alloc = rt.alloc();
    let payload = ten_frames();
    let starts = [PesStart {
        at: 0,
        time: Some(90_000),
    }];
    for size in PIECES {
        let found = walked(alloc, &payload, size, &starts)?;
        let whole = frames(alloc, &payload, &starts)?;
        assert_eq!(rt; found.as_slice(), whole.as_slice());
        assert_eq!(rt; found.len(), FRAMES);
        let last = Frame {
            at: 435,
            len: 68,
            time: 27_000_000 + 9 * FRAME_TICKS,
        };
        assert_eq!(rt; found.as_slice()[FRAMES - 1], last);
    }
    Ok(())
}

#[test]
fn frames_break_off_at_the_same_byte_in_pieces(rt: HostRuntime) -> Result<(), Fail> {
    let alloc = rt.alloc();
    let mut payload = ten_frames();
    payload[FIRST + FRAME_BYTES * 4] = 0;
    let starts = [PesStart {
        at: 0,
        time: Some(90_000),
    }];
    for size in PIECES {
        let found = walked(alloc, &payload, size, &starts);
        assert_eq!(rt; found.is_ok(), false);
        if let Err(fault) = found {
            assert_eq!(rt; fault, AudioFault::AudioSync { at: 195 });
        }
    }
    Ok(())
}

/// How many frames are known of the first bytes of ten frames.
fn known(alloc: Global, payload: &[u8; SIZE], count: usize) -> Result<usize, OutOfMemory> {
    let front = &payload[..count.min(SIZE)];
    let walk = FrameWalk::new(alloc).push(front)?;
    Ok(walk.places().len())
}

#[test]
fn a_frame_is_known_as_soon_as_it_is_whole(rt: HostRuntime) -> Result<(), Fail> {
    let alloc = rt.alloc();
    let payload = ten_frames();
    // the first one with the header behind it, the second one with its last byte
    let counts = [
        known(alloc, &payload, 54)?,
        known(alloc, &payload, 55)?,
        known(alloc, &payload, 98)?,
        known(alloc, &payload, 99)?,
    ];
    assert_eq!(rt; counts, [0, 1, 1, 2]);
    Ok(())
}
