//! An audio stream that is read while its PES packets pass.
ghost use Rattle.std.specs.Prelude.{◌≡◌, ◌⊎◌, ◌∷◌, [], ◌+◌, ◌≤◌, length, pos, IfOk, MatchResult};
ghost use Rattle.ts_demux.specs.declared.demuxed.AudioStream.{AudioStream};
ghost use Rattle.elementary_streams.specs.declared.stream_fault.StreamFault.TheVariants as faults;
ghost use Rattle.elementary_streams.specs.Audio.{IsStreamRead, IsStreamRefused};

use audio_frames::{AudioFault, Frame};
use audio_walk::AudioWalk;
use elementary_streams::{AxisTime, ReadStream, StreamFault};
use list_types::{ListOf, OutOfMemory};
use pes_units::PesFault;
use std::alloc::Global;
use std::test::Fail;
use ts_demux::PesUnit;

/// Bytes of a frame of 8 kbit/s at 24,000 Hz, and ticks of its 1,152 samples.
const FRAME_BYTES: usize = 48;

const FRAME_TICKS: i64 = 1_296_000;

/// Where the frames begin, and how many there are.
const FIRST: usize = 3;

const FRAMES: usize = 10;

/// Three bytes, ten frames, and twenty bytes of an eleventh.
const SIZE: usize = 503;

fn ten_frames() -> [u8; SIZE] {
    let mut payload = [0; SIZE];
    for k in 0..FRAMES + 1 {
        let at = FIRST + FRAME_BYTES * k;
        payload[at] = 0xFF;
        payload[at + 1] = 0xF5;
        payload[at + 2] = 0x14;
    }
    payload
}

/// The same, but that the fifth frame has no sync word.
fn with_broken_fifth() -> [u8; SIZE] {
    let mut payload = ten_frames();
    payload[FIRST + FRAME_BYTES * 4] = 0;
    payload
}

/// The header of an audio PES packet with a PTS of 90,000, which so many bytes follow.
fn timed_header(count: u16) -> [u8; 14]
    requires { count ≤ 1024 }
{
    let [high, low] = (count + 8).to_be_bytes();
    [
        0, 0, 1, 0xC0, high, low, 0x80, 0x80, 5, 0x21, 0x00, 0x05, 0xBF, 0x21,
    ]
}

/// The same without a time.
fn untimed_header(count: u16) -> [u8; 9]
    requires { count ≤ 1024 }
{
    let [high, low] = (count + 3).to_be_bytes();
    [0, 0, 1, 0xC0, high, low, 0x80, 0, 0]
}

/// A PES packet at a place of the file.
fn packet_of(alloc: Global, at: u64, header: &[u8], payload: &[u8]) -> Result<PesUnit, OutOfMemory>
    requires { length header.now + length payload.now ≤ 2048 }
    ensures { IfOk result (λ packet. length packet.bytes ≤ 2048) }
{
    let mut bytes = Vec::new(alloc);
    bytes.extend_from_slice(header)?;
    bytes.extend_from_slice(payload)?;
    Ok(PesUnit {
        at,
        bytes: ListOf::from_vec(bytes),
    })
}

/// The two PES packets of a payload, of which the second begins at a byte.
fn two_packets(
    alloc: Global,
    payload: &[u8; SIZE],
    cut: usize,
) -> Result<(PesUnit, PesUnit), OutOfMemory>
    requires { cut ≤ 503 }
    ensures { IfOk result (λ packets. (length packets.0.bytes ≤ 2048) × (length packets.1.bytes ≤ 2048)) }
{
    let first = packet_of(alloc, 188, &timed_header(cut as u16), &payload[..cut])?;
    let second = packet_of(
        alloc,
        376,
        &untimed_header((SIZE - cut) as u16),
        &payload[cut..],
    )?;
    Ok((first, second))
}

/// What is read of a stream of two PES packets, or its first refusal, in a program whose video begins at 90,000: a caller knows both by the clauses of the walk
/// alone.
fn walk_two(alloc: Global, first: &PesUnit, second: &PesUnit) -> Result<ReadStream, StreamFault>
    requires first { length first.now.bytes ≤ 2048 }
    requires second { length second.now.bytes ≤ 2048 }
    ensures { (stream : AudioStream) → stream.units ≡ first.now ∷ second.now ∷ [] →
        MatchResult result (IsStreamRead (pos 90000) stream) (λ fault. (fault ≡ faults.OutOfMemory) ⊎ IsStreamRefused (pos 90000) stream fault) }
{
    match AudioWalk::new(alloc).take(first) {
        Ok(walk) => walk.end(Some(second), &AxisTime::of(90_000)),
        Err(fault) => Err(fault),
    }
}

/// True where the ten frames are read of two PES packets, of which the second begins at a byte.
fn are_ten(read: &ReadStream, cut: usize) -> bool {
    let first = Frame {
        at: 0,
        len: 51,
        time: 27_000_000,
    };
    let last = Frame {
        at: 435,
        len: 68,
        time: 27_000_000 + 9 * FRAME_TICKS,
    };
    let begins = match read.packets.as_slice() {
        [one, two] => one.from == 0
            && one.end == cut as u64
            && two.from == cut as u64
            && two.end == SIZE as u64,
        _ => false,
    };
    begins
        && read.frames.len() == FRAMES
        && read.frames.as_slice().first() == Some(&first)
        && read.frames.as_slice().last() == Some(&last)
        && read.bytes == SIZE as u64
        && read.dropped == 0
        && read.kind == 4
}

/// Where the first frame begins in the first packet, whose time is then its own.
#[test]
fn frames_are_the_same_wherever_packets_are_cut(rt: HostRuntime) -> Result<(), Fail> {
    let alloc = rt.alloc();
    let payload = ten_frames();
    for cut in FIRST + 1..SIZE {
        let (first, second) = two_packets(alloc, &payload, cut)?;
        let read = walk_two(alloc, &first, &second)?;
        assert!(rt; are_ten(&read, cut));
    }
    Ok(())
}

/// Where it begins in the second one, which has no time.
#[test]
fn a_first_frame_without_a_time(rt: HostRuntime) -> Result<(), Fail> {
    let alloc = rt.alloc();
    let payload = ten_frames();
    for cut in 1..FIRST + 1 {
        let (first, second) = two_packets(alloc, &payload, cut)?;
        let refused = walk_two(alloc, &first, &second);
        assert_eq!(rt;
            refused.err(),
            Some(StreamFault::Frames(AudioFault::NoAudioTime { at: 3 }))
        );
    }
    Ok(())
}

/// The fifth frame has no sync word; the fault of a PES packet behind it comes first.
#[test]
fn packets_are_refused_before_frames(rt: HostRuntime) -> Result<(), Fail> {
    let alloc = rt.alloc();
    let (first, second) = two_packets(alloc, &with_broken_fifth(), 400)?;
    let frames = walk_two(alloc, &first, &second);
    assert_eq!(rt;
        frames.err(),
        Some(StreamFault::Frames(AudioFault::AudioSync { at: 195 }))
    );
    let bad = packet_of(alloc, 376, &[0, 0, 2], &[])?;
    let last = walk_two(alloc, &first, &bad);
    let prefix = StreamFault::Pes {
        at: 376,
        fault: PesFault::BadPrefix,
    };
    assert_eq!(rt; last.err(), Some(prefix));
    let whole = walk_two(alloc, &bad, &first);
    assert_eq!(rt; whole.err(), Some(prefix));
    Ok(())
}
