use job_report::Form;
use program_maker::make_program;
use program_reader::{Program, SizedProgram, read_sized_program};
use program_table::row_of_sized_program;
use std::test::Fail;
use version_source::laws::programs_can_be_sent;
use version_table::ProgramRow;

/// When the earliest time is due, in ticks.
const START: u64 = 27_000_000;

/// The ratios of versions, in sixteenths.
const RATIOS: [u16; 2] = [24, 48];

/// Bytes of a header with a PTS and a DTS, as each generated picture has them.
const HEADER_BYTES: u64 = 19;

/// Each unit has a version for each ratio beside version 0, which is as long as the unit with its header and differs in nothing.
fn begins_with_sources(row: &ProgramRow, program: &Program) -> bool {
    for (unit, source) in row.units.as_slice().iter().zip(program.units.as_slice()) {
        let size = source
            .end
            .wrapping_sub(source.begin)
            .wrapping_add(HEADER_BYTES);
        let is_source = match unit.versions.as_slice() {
            [first, _, _] => u64::from(first.bytes) == size && first.distortion == 0,
            _ => false,
        };
        if !is_source {
            return false;
        }
    }
    true
}

/// Units are due as those of another row, and their versions are as long and so many times as far from their sources: the last unit
/// `times`, and each one before it `more` times farther than the one behind it.
fn counts(row: &ProgramRow, other: &ProgramRow, times: u64, more: u64) -> bool {
    let mut behind = row.units.len() as u64;
    for (unit, single) in row.units.as_slice().iter().zip(other.units.as_slice()) {
        behind = behind.wrapping_sub(1);
        let times = times.wrapping_add(more.wrapping_mul(behind));
        for (version, once) in unit
            .versions
            .as_slice()
            .iter()
            .zip(single.versions.as_slice())
        {
            if version.bytes != once.bytes
                || version.distortion != once.distortion.wrapping_mul(times)
            {
                return false;
            }
        }
        if unit.due != single.due {
            return false;
        }
    }
    true
}

#[test]
fn a_program_that_was_sized_as_it_was_read(rt: HostRuntime) -> Result<(), Fail> {
    let file = make_program(rt.alloc(), 1, 12)?;
    let SizedProgram { program, sizes } = read_sized_program(
        rt.alloc(),
        file.as_slice(),
        Form::Ts,
        1,
        &[],
        START,
        &RATIOS,
    )?;
    programs_can_be_sent();
    let row = row_of_sized_program(rt.alloc(), &program, sizes.as_slice(), 3, 0)?;
    assert_eq!(rt; (row.units.len(), row.audios.len()), (12, 1));
    if let [audio] = row.audios.as_slice() {
        assert_eq!(rt; audio.len(), 80);
    }
    assert!(rt; begins_with_sources(&row, &program));
    let once = row_of_sized_program(rt.alloc(), &program, sizes.as_slice(), 1, 0)?;
    assert!(rt; counts(&row, &once, 3, 0));
    // An I picture and eleven P pictures: each counts 3 times 8, and 3 times 6 more for each one behind it.
    let carried = row_of_sized_program(rt.alloc(), &program, sizes.as_slice(), 3, 6)?;
    assert!(rt; counts(&carried, &once, 24, 18));
    Ok(())
}
