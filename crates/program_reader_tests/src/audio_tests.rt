//! Audio packets, their times, and PES packets that the file's end cuts.

use crate::packets::File;
use crate::streams::{I_FRAME, PROGRESSIVE, SEQUENCE, Unit, two_frames, unit_of};
use job_report::Form;
use program_reader::{ProgramFault, SourceKind, read_program};
use std::test::Fail;

/// When the earliest time is due, in ticks.
const START: u64 = 1_000;

fn first() -> Unit {
    unit_of(&[SEQUENCE, PROGRESSIVE, I_FRAME])
}

#[test]
fn audio_may_begin_before_the_video(rt: HostRuntime) -> Result<(), Fail> {
    let mut file = File::new(rt.alloc())?;
    file.video(Some(90_000), first().as_slice())?;
    file.audio(Some(88_000), &two_frames(), 0)?;
    let program = read_program(rt.alloc(), file.bytes.as_slice(), Form::Ts, 1, &[], START)?;
    assert_eq!(rt; program.base, 300 * 88_000 - START);
    if let ([unit], [audio]) = (program.units.as_slice(), program.audios.as_slice()) {
        assert_eq!(rt; unit.due, START + 600_000);
        if let [piece] = audio.pieces.as_slice() {
            // the second frame is 1,152 samples later, 1,296,000 ticks
            assert_eq!(rt;
                (piece.packet.due, piece.packet.gone),
                (START, START + 1_296_000)
            );
            assert_eq!(rt; (piece.packet.bytes, piece.start, piece.at), (110, true, 0));
        }
    }
    Ok(())
}

#[test]
fn audio_may_begin_behind_the_video(rt: HostRuntime) -> Result<(), Fail> {
    let mut file = File::new(rt.alloc())?;
    file.video(Some(90_000), first().as_slice())?;
    file.audio(Some(92_000), &two_frames(), 0)?;
    let program = read_program(rt.alloc(), file.bytes.as_slice(), Form::Ts, 1, &[], START)?;
    if let ([unit], [audio]) = (program.units.as_slice(), program.audios.as_slice()) {
        assert_eq!(rt; unit.due, START);
        if let [piece] = audio.pieces.as_slice() {
            assert_eq!(rt; piece.packet.due, START + 600_000);
        }
    }
    Ok(())
}

#[test]
fn a_cut_last_audio_packet_is_dropped(rt: HostRuntime) -> Result<(), Fail> {
    let mut file = File::new(rt.alloc())?;
    file.video(Some(90_000), first().as_slice())?;
    file.audio(Some(90_000), &two_frames(), 0)?;
    file.audio(None, &two_frames(), 1)?;
    let program = read_program(rt.alloc(), file.bytes.as_slice(), Form::Ts, 1, &[], START)?;
    assert_eq!(rt; program.pes_dropped, 1);
    if let [audio] = program.audios.as_slice() {
        assert_eq!(rt; (audio.pieces.len(), audio.bytes.len()), (1, 110));
    }
    // one that isn't the last one is refused, at its packet
    file.audio(None, &two_frames(), 0)?;
    let want = ProgramFault::Refused {
        kind: SourceKind::BadLength,
        at: 4 * 188,
    };
    let fault = read_program(rt.alloc(), file.bytes.as_slice(), Form::Ts, 1, &[], START).err();
    assert_eq!(rt; fault, Some(want));
    Ok(())
}

#[test]
fn a_cut_last_video_header_is_dropped(rt: HostRuntime) -> Result<(), Fail> {
    let mut file = File::new(rt.alloc())?;
    file.video(Some(90_000), first().as_slice())?;
    file.audio(Some(90_000), &two_frames(), 0)?;
    file.cut_video()?;
    let program = read_program(
        rt.alloc(),
        file.bytes.as_slice(),
        Form::Ts,
        1,
        &[258],
        START,
    )?;
    assert_eq!(rt;
        (
            program.units.len(),
            program.pes_dropped,
            program.units_dropped
        ),
        (1, 1, 0)
    );
    assert_eq!(rt;
        (program.audios.len(), program.not_carried.as_slice()),
        (0, [258].as_slice())
    );
    Ok(())
}
