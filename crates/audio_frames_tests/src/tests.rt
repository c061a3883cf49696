use audio_frames::{Frame, PesStart, frames};
use std::test::Fail;

/// Two frames of 192 kbit/s at 48,000 Hz, 576 bytes each.
const TWO_FRAMES: usize = 1_152;

fn two_frames() -> [u8; TWO_FRAMES] {
    let mut payload = [0; TWO_FRAMES];
    payload[0] = 0xFF;
    payload[1] = 0xFD;
    payload[2] = 0xA4;
    payload[576] = 0xFF;
    payload[577] = 0xFD;
    payload[578] = 0xA4;
    payload
}

#[test]
fn two_frames_are_a_frame_time_apart(rt: HostRuntime) -> Result<(), Fail> {
    let starts = [
        PesStart {
            at: 0,
            time: Some(90_000),
        },
        PesStart {
            at: 576,
            time: None,
        },
    ];
    let frames = frames(rt.alloc(), &two_frames(), &starts)?;
    let expected = [
        Frame {
            at: 0,
            len: 576,
            time: 27_000_000,
        },
        Frame {
            at: 576,
            len: 576,
            time: 27_648_000,
        },
    ];
    assert_eq!(rt; frames.as_slice(), expected.as_slice());
    Ok(())
}
