//! Units that are spelled, with what their trees hold.

use crate::fixtures::{
    B_FRAME, GRAY, I_FRAME, INTERLACED, P_FIELD, P_FRAME, PROGRESSIVE, SEQUENCE_16, SEQUENCE_32,
    SEQUENCE_48, Unit, headers, picture, unit_of,
};
use std::alloc::Global;
use std::test::Fail;
use syntax_types::Macroblock;

/// The macroblocks skipped before, the vectors forward and backward, and whether it is intra.
type Told = (u16, usize, usize, bool);

fn told(macroblock: &Macroblock) -> Told {
    (
        macroblock.skipped_before,
        macroblock.forward.len(),
        macroblock.backward.len(),
        macroblock.kind.intra,
    )
}

/// The bytes of the head by both calls, and the macroblocks of the one slice: None where the calls differ, or the unit
/// has another number of slices.
fn only_slice(alloc: Global, unit: &Unit) -> Option<(u64, Vec<Told>)> {
    let checked = headers(alloc, unit).ok()?;
    let read = picture(alloc, unit).ok()?;
    let [slice] = read.slices.as_slice() else {
        return None;
    };
    if checked.slices_at != read.head.len() as u64 || checked.coding.kind != read.coding.kind {
        return None;
    }
    let mut macroblocks = Vec::new(alloc);
    for macroblock in slice.macroblocks.as_slice() {
        macroblocks.push(told(macroblock)).ok()?;
    }
    Some((checked.slices_at, macroblocks))
}

#[test]
fn pictures_have_the_macroblocks_that_are_spelled(rt: HostRuntime) {
    let gray = (0, 0, 0, true);
    let rows: [(&str, Unit, u64, &[Told]); 5] = [
        (
            "an I-picture of 16 x 16",
            unit_of(&[SEQUENCE_16, PROGRESSIVE, I_FRAME], GRAY),
            39,
            &[gray],
        ),
        (
            "a P-picture of 48 x 16, whose second macroblock is skipped",
            unit_of(
                &[SEQUENCE_48, PROGRESSIVE, P_FRAME],
                "00010 0 1 001 1 1 011 001 1 1",
            ),
            40,
            &[(0, 1, 0, false), (1, 1, 0, false)],
        ),
        (
            "a B-picture of 48 x 16: both ways, one skipped, forward",
            unit_of(
                &[SEQUENCE_48, PROGRESSIVE, B_FRAME],
                "00010 0 1 10 1 1 1 1 011 0010 1 1",
            ),
            40,
            &[(0, 1, 1, false), (1, 1, 0, false)],
        ),
        (
            "a P-picture of 32 x 16: forward, intra",
            unit_of(
                &[SEQUENCE_32, PROGRESSIVE, P_FRAME],
                "00010 0 1 001 1 1 1 00011 100 10 100 10 100 10 100 10 00 10 00 10",
            ),
            40,
            &[(0, 1, 0, false), gray],
        ),
        (
            "the top field of a frame of 32 x 16: two vectors of 16 x 8, then one",
            unit_of(
                &[SEQUENCE_32, INTERLACED, P_FIELD],
                "00010 0 1 001 10 0 1 1 1 1 1 1 001 01 0 1 1",
            ),
            40,
            &[(0, 2, 0, false), (0, 1, 0, false)],
        ),
    ];
    for (name, unit, head, want) in rows {
        let found = only_slice(rt.alloc(), &unit);
        assert!(rt; matches!(&found, Some(_)), "{name}");
        if let Some((bytes, macroblocks)) = found {
            assert!(rt; bytes == head && macroblocks.as_slice() == want, "{name}");
        }
    }
}

#[test]
fn zero_bytes_and_a_sequence_end_code_may_stand_behind_a_slice(
    rt: HostRuntime,
) -> Result<(), Fail> {
    let mut unit = unit_of(&[SEQUENCE_16, PROGRESSIVE, I_FRAME], GRAY);
    assert!(rt; matches!(picture(rt.alloc(), &unit), Ok(read) if !read.sequence_end));
    let _ = unit.try_extend_from_slice(&[0, 0, 0, 0, 1, 0xB7, 0]);
    assert!(rt; matches!(picture(rt.alloc(), &unit), Ok(read) if read.sequence_end));
    Ok(())
}
