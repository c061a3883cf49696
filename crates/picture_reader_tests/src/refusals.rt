//! Each kind of refusal at its place, in bits from the unit's first one. An I-picture of 16 x 16 has its slice's bits from
//! bit 344 on, a P-picture from bit 352 on.

use crate::fixtures::{
    GRAY, P_FRAME, PROGRESSIVE, SEQUENCE_32, Unit, i_unit, put_slice, refusal, unit_of,
};
use picture_reader::PictureFault;

/// The gray picture of 16 x 16 with one byte changed.
fn changed(place: usize, value: u8) -> Unit {
    let mut unit = i_unit(GRAY);
    if let Some(byte) = unit.as_mut_slice().get_mut(place) {
        *byte = value;
    }
    unit
}

fn p_unit(printed: &str) -> Unit {
    unit_of(&[SEQUENCE_32, PROGRESSIVE, P_FRAME], printed)
}

#[test]
fn each_kind_is_refused_at_its_place(rt: HostRuntime) {
    let rows = [
        // In the slice: no coefficient's code; a run past the last place; the levels 0 and -2048.
        (
            i_unit("00001 0 1 1 100 00000000000000000000000000000000 1"),
            PictureFault::NoCode { at: 355 },
        ),
        (
            i_unit("00001 0 1 1 100 000001 111111 000000000001 10"),
            PictureFault::TooMany { at: 355 },
        ),
        (
            i_unit("00001 0 1 1 100 000001 000000 000000000000 10"),
            PictureFault::BadEscape { at: 355 },
        ),
        (
            i_unit("00001 0 1 1 100 000001 000000 100000000000 10"),
            PictureFault::BadEscape { at: 355 },
        ),
        // quantiser_scale_code 0, no macroblock_type, an address past the row, no pattern.
        (i_unit("00000 0 1 1"), PictureFault::BadType { at: 344 }),
        (i_unit("00001 0 1 00 1"), PictureFault::BadType { at: 351 }),
        (
            i_unit("00001 0 011 1"),
            PictureFault::BadAddress { at: 350 },
        ),
        (
            p_unit("00001 0 1 01 000000000 1"),
            PictureFault::BadPattern { at: 361 },
        ),
        // The bits end behind the first block.
        (
            i_unit("00001 0 1 1 100 10 100"),
            PictureFault::End { at: 360 },
        ),
        // The first of two macroblocks is skipped.
        (
            p_unit("00010 0 011 001 1 1"),
            PictureFault::Uncovered { at: 0 },
        ),
        // Two rows of macroblocks, one of which is there.
        (changed(6, 32), PictureFault::Uncovered { at: 0 }),
        // In the head: another start code, an identifier, the profile, low_delay, a width of 15.
        (changed(42, 0xB7), PictureFault::BadHeader { at: 312 }),
        (changed(16, 0xA4), PictureFault::NotMpeg2 { at: 128 }),
        (changed(16, 0x11), PictureFault::Profile { at: 132 }),
        (changed(21, 0x80), PictureFault::LowDelay { at: 168 }),
        (changed(4, 0x00), PictureFault::Size { at: 32 }),
    ];
    for (row, (unit, want)) in rows.iter().enumerate() {
        assert_eq!(rt; refusal(rt.alloc(), unit), Some(*want), "row {row}");
    }
}

#[test]
fn a_later_bad_element_is_refused_before_what_is_missing(rt: HostRuntime) {
    // Of three rows the first comes, then the third one, which is bad; then the third one alone.
    let mut unit = changed(6, 48);
    put_slice(&mut unit, 2, "00000 0 1 1");
    assert_eq!(rt;
        refusal(rt.alloc(), &unit),
        Some(PictureFault::BadType { at: 416 })
    );
    let mut unit = changed(6, 48);
    put_slice(&mut unit, 2, GRAY);
    assert_eq!(rt;
        refusal(rt.alloc(), &unit),
        Some(PictureFault::Uncovered { at: 0 })
    );
}

#[test]
fn slices_that_fall_or_come_twice_are_uncovered(rt: HostRuntime) {
    let mut twice = i_unit(GRAY);
    put_slice(&mut twice, 0, GRAY);
    assert_eq!(rt;
        refusal(rt.alloc(), &twice),
        Some(PictureFault::Uncovered { at: 0 })
    );
    let mut past = i_unit(GRAY);
    put_slice(&mut past, 1, GRAY);
    assert_eq!(rt;
        refusal(rt.alloc(), &past),
        Some(PictureFault::Uncovered { at: 0 })
    );
}
