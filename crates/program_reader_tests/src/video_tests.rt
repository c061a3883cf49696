//! Units, their times, and what refuses them.

use crate::packets::{File, Time};
use crate::streams::{
    I_BOTTOM, I_FRAME, I_REPEATED, I_THREE, I_TOP, INTERLACED, OPEN_GROUP, PROGRESSIVE, SEQUENCE,
    SEQUENCE_OF_RATE_1, SEQUENCE_OF_RATE_4, Unit, b_frame, b_unit, frame_of, two_frames, unit_of,
};
use job_report::Form;
use program_maker::make_program;
use program_reader::{Program, ProgramFault, SourceKind, read_program};
use std::alloc::{AllocError, Global};
use std::test::Fail;

/// When the earliest time is due, in ticks.
const START: u64 = 1_000;

/// A file of these units and times.
fn file_of(alloc: Global, units: &[(Time, Unit)]) -> Result<File, AllocError> {
    let mut file = File::new(alloc)?;
    for (time, unit) in units {
        file.video(*time, unit.as_slice())?;
    }
    Ok(file)
}

/// The program of a file of these units and of one audio packet at a time.
fn program_of(alloc: Global, units: &[(Time, Unit)], audio: u64) -> Result<Program, Fail> {
    let mut file = file_of(alloc, units)?;
    file.audio(Some(audio), &two_frames(), 0)?;
    Ok(read_program(alloc, file.bytes.as_slice(), Form::Ts, 1, &[], START)?)
}

/// Why such a file is refused.
fn fault_of(alloc: Global, units: &[(Time, Unit)]) -> Result<Option<ProgramFault>, Fail> {
    let mut file = file_of(alloc, units)?;
    file.audio(Some(90_000), &two_frames(), 0)?;
    Ok(read_program(alloc, file.bytes.as_slice(), Form::Ts, 1, &[], START).err())
}

/// When the units of a program are due.
fn dues_of(alloc: Global, program: &Program) -> Result<Vec<u64>, AllocError> {
    let mut dues = Vec::new(alloc);
    for unit in program.units.as_slice() {
        dues.push(unit.due)?;
    }
    Ok(dues)
}

/// A unit with a sequence header, and one without.
fn first() -> Unit {
    unit_of(&[SEQUENCE, PROGRESSIVE, I_FRAME])
}

fn other() -> Unit {
    unit_of(&[I_FRAME])
}

#[test]
fn times_go_on_behind_the_round_of_the_clock(rt: HostRuntime) -> Result<(), Fail> {
    let last = (1 << 33) - 3_600;
    let program = program_of(rt.alloc(), &[(Some(last), first()), (Some(0), other())], 0)?;
    let dues = dues_of(rt.alloc(), &program)?;
    assert_eq!(rt; dues.as_slice(), [START, START + 1_080_000].as_slice());
    assert_eq!(rt; program.base, 300 * last - START);
    assert_eq!(rt; program.vbv, 112);
    let units = program.units.as_slice();
    assert_eq!(rt; units.len(), 2);
    if let [one, two] = units {
        assert_eq!(rt; (one.begin, two.begin, two.end), (0, 170, 340));
        assert_eq!(rt; (one.times.pts, two.times.pts), (Some(last), Some(0)));
    }
    Ok(())
}

#[test]
fn a_unit_without_a_time_is_a_frame_period_later(rt: HostRuntime) -> Result<(), Fail> {
    let program = program_of(
        rt.alloc(),
        &[(Some(90_000), first()), (None, other())],
        90_000,
    )?;
    let dues = dues_of(rt.alloc(), &program)?;
    assert_eq!(rt; dues.as_slice(), [START, START + 1_080_000].as_slice());
    Ok(())
}

#[test]
fn fields_share_a_frame_period(rt: HostRuntime) -> Result<(), Fail> {
    let slow = unit_of(&[SEQUENCE_OF_RATE_1, INTERLACED, I_TOP]);
    let units = [
        (Some(90_000), slow),
        (None, unit_of(&[I_BOTTOM])),
        (None, unit_of(&[I_TOP])),
    ];
    let program = program_of(rt.alloc(), &units, 90_000)?;
    let dues = dues_of(rt.alloc(), &program)?;
    // 1,126,125 ticks a frame
    assert_eq!(rt;
        dues.as_slice(),
        [START, START + 563_062, START + 1_126_125].as_slice()
    );
    let fast = unit_of(&[SEQUENCE, INTERLACED, I_TOP]);
    let units = [
        (Some(90_000), fast),
        (None, unit_of(&[I_BOTTOM])),
        (None, unit_of(&[I_TOP])),
    ];
    let program = program_of(rt.alloc(), &units, 90_000)?;
    let dues = dues_of(rt.alloc(), &program)?;
    assert_eq!(rt;
        dues.as_slice(),
        [START, START + 540_000, START + 1_080_000].as_slice()
    );
    Ok(())
}

#[test]
fn film_of_three_fields_and_two_is_due_as_it_is_shown(rt: HostRuntime) -> Result<(), Fail> {
    // 900,900 ticks a frame: three fields are 1,351,350
    let units = [
        (
            Some(90_000),
            frame_of(&[SEQUENCE_OF_RATE_4, INTERLACED, I_THREE]),
        ),
        (None, frame_of(&[I_FRAME])),
        (None, b_frame(true)),
        (None, b_frame(false)),
        (None, frame_of(&[I_THREE])),
        (None, frame_of(&[I_FRAME])),
        (None, frame_of(&[I_FRAME])),
    ];
    let program = program_of(rt.alloc(), &units, 90_000)?;
    let dues = dues_of(rt.alloc(), &program)?;
    // behind I and P what the one before is shown for, behind B its own
    assert_eq!(rt;
        dues.as_slice(),
        [
            START,
            START + 900_900,
            START + 2_252_250,
            START + 3_603_600,
            START + 4_504_500,
            START + 5_405_400,
            START + 6_756_750
        ]
        .as_slice()
    );
    Ok(())
}

#[test]
fn a_frame_of_a_progressive_sequence_is_shown_two_or_three_times(
    rt: HostRuntime,
) -> Result<(), Fail> {
    let units = [
        (Some(90_000), unit_of(&[SEQUENCE, PROGRESSIVE, I_REPEATED])),
        (None, unit_of(&[I_THREE])),
        (None, other()),
        (None, other()),
    ];
    let program = program_of(rt.alloc(), &units, 90_000)?;
    let dues = dues_of(rt.alloc(), &program)?;
    assert_eq!(rt;
        dues.as_slice(),
        [
            START,
            START + 1_080_000,
            START + 3_240_000,
            START + 6_480_000
        ]
        .as_slice()
    );
    Ok(())
}

#[test]
fn fields_behind_a_frame_of_three_fields_share_what_it_is_shown_for(
    rt: HostRuntime,
) -> Result<(), Fail> {
    let units = [
        (Some(90_000), frame_of(&[SEQUENCE, INTERLACED, I_THREE])),
        (None, unit_of(&[I_TOP])),
        (None, unit_of(&[I_BOTTOM])),
        (None, frame_of(&[I_FRAME])),
        (None, frame_of(&[I_FRAME])),
    ];
    let program = program_of(rt.alloc(), &units, 90_000)?;
    let dues = dues_of(rt.alloc(), &program)?;
    // 540,000 ticks a field: the frame before the pair is shown for 1,620,000, and the pair for 1,080,000
    assert_eq!(rt;
        dues.as_slice(),
        [
            START,
            START + 1_080_000,
            START + 1_620_000,
            START + 2_700_000,
            START + 3_780_000
        ]
        .as_slice()
    );
    Ok(())
}

#[test]
fn units_that_are_refused(rt: HostRuntime) -> Result<(), Fail> {
    let field = unit_of(&[SEQUENCE, INTERLACED, I_TOP]);
    let cases = [
        ([(None, first()), (Some(0), other())], SourceKind::NoTime, 0),
        (
            [(Some(1), first()), (Some(1), other())],
            SourceKind::TimeOrder,
            170,
        ),
        (
            [(Some(0), field), (None, unit_of(&[I_TOP]))],
            SourceKind::FieldPair,
            170,
        ),
        (
            [(Some(0), unit_of(&[I_TOP])), (Some(0), unit_of(&[I_TOP]))],
            SourceKind::NoSequence,
            0,
        ),
    ];
    for (units, kind, at) in cases.iter() {
        let want = ProgramFault::Refused {
            kind: *kind,
            at: *at,
        };
        assert_eq!(rt; fault_of(rt.alloc(), units)?, Some(want));
    }
    Ok(())
}

#[test]
fn a_last_unit_that_breaks_a_rule_is_dropped(rt: HostRuntime) -> Result<(), Fail> {
    let mut cut = other();
    cut.truncate(24);
    let program = program_of(rt.alloc(), &[(Some(0), first()), (Some(3_600), cut)], 0)?;
    assert_eq!(rt; (program.units.len(), program.units_dropped), (1, 1));
    Ok(())
}

#[test]
fn units_before_the_first_sequence_header_are_dropped(rt: HostRuntime) -> Result<(), Fail> {
    let opened = unit_of(&[SEQUENCE, PROGRESSIVE, OPEN_GROUP, I_FRAME]);
    let units = [
        (Some(0), other()),
        (Some(3_600), other()),
        (Some(7_200), opened),
    ];
    let program = program_of(rt.alloc(), &units, 7_200)?;
    assert_eq!(rt; (program.units.len(), program.units_dropped), (1, 2));
    assert_eq!(rt;
        dues_of(rt.alloc(), &program)?.as_slice(),
        [START].as_slice()
    );
    Ok(())
}

#[test]
fn pictures_of_an_open_group_are_kept_without_the_one_before(rt: HostRuntime) -> Result<(), Fail> {
    // decoded at 0, 1 and 2 frame periods of 3,600; the first one is shown behind the other two, whose forward reference isn't there
    let mut file = File::new(rt.alloc())?;
    let opened = unit_of(&[SEQUENCE, PROGRESSIVE, OPEN_GROUP, I_FRAME]);
    file.video_shown_later(100_800, 90_000, opened.as_slice())?;
    file.video(Some(93_600), b_unit().as_slice())?;
    file.video(Some(97_200), b_unit().as_slice())?;
    file.audio(Some(90_000), &two_frames(), 0)?;
    let program = read_program(rt.alloc(), file.bytes.as_slice(), Form::Ts, 1, &[], START)?;
    assert_eq!(rt; (program.units.len(), program.units_dropped), (3, 0));
    assert_eq!(rt; program.base, 300 * 90_000 - START);
    assert_eq!(rt;
        dues_of(rt.alloc(), &program)?.as_slice(),
        [START, START + 1_080_000, START + 2_160_000].as_slice()
    );
    if let [first, second, third] = program.units.as_slice() {
        // 165 bytes behind a header of 19, 170 behind one of 14
        assert_eq!(rt;
            (first.begin, second.begin, third.begin, third.end),
            (0, 165, 335, 505)
        );
        assert_eq!(rt;
            (first.times.pts, first.times.dts),
            (Some(100_800), Some(90_000))
        );
        assert_eq!(rt; (second.times.pts, second.times.dts), (Some(93_600), None));
    }
    Ok(())
}

#[test]
fn a_generated_program_is_read(rt: HostRuntime) -> Result<(), Fail> {
    let mut file = make_program(rt.alloc(), 1, 12)?.into_vec();
    for _ in 0..100 {
        file.push(0)?;
    }
    let program = read_program(rt.alloc(), file.as_slice(), Form::Ts, 1, &[], START)?;
    assert_eq!(rt;
        (program.units.len(), program.audios.len(), program.rest),
        (12, 1, 100)
    );
    assert_eq!(rt; (program.units_dropped, program.pes_dropped), (0, 0));
    for (number, unit) in program.units.as_slice().iter().enumerate() {
        assert_eq!(rt;
            unit.due,
            START.wrapping_add(1_080_000u64.wrapping_mul(number as u64))
        );
    }
    if let [audio] = program.audios.as_slice() {
        // 20 frames, each in a PES packet of 590 bytes
        assert_eq!(rt; (audio.bytes.len(), audio.pieces.len()), (11_800, 80));
    }
    Ok(())
}
