//! Each kind of refusal at its place, which is the first bit of the element that is refused.

use crate::fixtures::{Coded, bit_count, macroblock_of};
use macroblock_reader::SliceFault;

/// Why the first macroblock of a row of so many is refused, whose bits end with those that are printed.
fn refusal(coded: Coded, columns: u16, printed: &str) -> Option<SliceFault> {
    macroblock_of(coded, true, columns, printed, bit_count(printed)).err()
}

/// The columns that are left, bits, and the refusal of the address.
const ADDRESSES: [(u16, &str, SliceFault); 12] = [
    // Increment 4 in a row of three; a front of 4 and 5 alone, in a row of three and of four.
    (3, "0011 001 1 1", SliceFault::BadAddress { at: 0 }),
    (3, "001", SliceFault::BadAddress { at: 0 }),
    (4, "001", SliceFault::End { at: 0 }),
    (4, "00", SliceFault::End { at: 0 }),
    // An escape in a row of 33; behind it increment 2 in a row of 34.
    (
        33,
        "00000001000 1 001 1 1",
        SliceFault::BadAddress { at: 0 },
    ),
    (
        34,
        "00000001000 011 001 1 1",
        SliceFault::BadAddress { at: 11 },
    ),
    (34, "00000001000", SliceFault::End { at: 11 }),
    (34, "00000001000 0", SliceFault::BadAddress { at: 11 }),
    // No code begins with eight zero bits.
    (120, "00000000", SliceFault::BadAddress { at: 0 }),
    (120, "0000000", SliceFault::End { at: 0 }),
    (0, "1 001 1 1", SliceFault::BadAddress { at: 0 }),
    (3, "", SliceFault::End { at: 0 }),
];

#[test]
fn addresses_are_refused_where_they_pass_the_row(rt: HostRuntime) {
    for &(columns, printed, want) in &ADDRESSES {
        let found = refusal(Coded::PFrame, columns, printed);
        assert_eq!(rt; found, Some(want), "{columns} columns: {printed}");
    }
}

#[test]
fn a_later_macroblock_of_an_i_picture_skips_none(rt: HostRuntime) {
    let skips = SliceFault::BadAddress { at: 0 };
    for printed in ["011 1", "01", "0"] {
        let found = macroblock_of(Coded::IFrame, false, 3, printed, bit_count(printed)).err();
        assert_eq!(rt; found, Some(skips), "{printed}");
    }
}

/// A coding, bits, and the refusal of an element.
const ELEMENTS: [(Coded, &str, SliceFault); 18] = [
    // macroblock_type of each table.
    (Coded::IFrame, "1 00", SliceFault::BadType { at: 1 }),
    (Coded::PFrame, "1 000000", SliceFault::BadType { at: 1 }),
    (Coded::PFrame, "1 00000", SliceFault::End { at: 1 }),
    (
        Coded::BInterlaced,
        "1 000000",
        SliceFault::BadType { at: 1 },
    ),
    // Motion type 0.
    (Coded::PField, "1 001 00 1 1", SliceFault::BadType { at: 4 }),
    (
        Coded::PInterlaced,
        "1 001 00 1 1",
        SliceFault::BadType { at: 4 },
    ),
    (Coded::PInterlaced, "1 001 0", SliceFault::End { at: 4 }),
    // quantiser_scale_code 0.
    (
        Coded::PFrame,
        "1 00001 00000 1010 1 0 10",
        SliceFault::BadType { at: 6 },
    ),
    (Coded::PFrame, "1 00001 0000", SliceFault::End { at: 6 }),
    // The marker behind a concealment vector.
    (
        Coded::IConcealed,
        "1 1 0 1 1 0 100 0110",
        SliceFault::BadType { at: 5 },
    ),
    // motion_code: the longest begin with six zero bits.
    (Coded::PFrame, "1 001 0000000", SliceFault::NoCode { at: 4 }),
    (Coded::PFrame, "1 001 000000", SliceFault::End { at: 4 }),
    (
        Coded::PFrame,
        "1 001 1 0000000",
        SliceFault::NoCode { at: 5 },
    ),
    // coded_block_pattern: 0 isn't one of 4:2:0 pictures.
    (
        Coded::PFrame,
        "1 01 000000001 1 0 10",
        SliceFault::BadPattern { at: 3 },
    ),
    (
        Coded::PFrame,
        "1 01 00000000",
        SliceFault::BadPattern { at: 3 },
    ),
    (Coded::PFrame, "1 01 0000000", SliceFault::End { at: 3 }),
    // dmvector is a bit 0, or two bits.
    (Coded::PField, "1 001 11 1 1", SliceFault::End { at: 7 }),
    (Coded::PField, "1 001 11 1 0 1", SliceFault::End { at: 9 }),
];

#[test]
fn elements_are_refused_at_their_first_bit(rt: HostRuntime) {
    for &(coded, printed, want) in &ELEMENTS {
        let found = refusal(coded, 3, printed);
        assert_eq!(rt; found, Some(want), "{coded:?}: {printed}");
    }
}

/// Bits, and the refusal of a coefficient. Each has the pattern 32. Those of 31 bits in front have an escape of run 63 and level
/// 1, which takes the last place.
const COEFFICIENTS: [(&str, SliceFault); 11] = [
    // The longest codes begin with eleven zero bits.
    ("1 01 1010 1 0 000000000000", SliceFault::NoCode { at: 9 }),
    ("1 01 1010 1 0 00000000000", SliceFault::End { at: 9 }),
    // The levels 0 and -2048 of escapes.
    (
        "1 01 1010 000001 000000 000000000000 10",
        SliceFault::BadEscape { at: 7 },
    ),
    (
        "1 01 1010 000001 000000 100000000000 10",
        SliceFault::BadEscape { at: 7 },
    ),
    // Behind the last place: a code, with and without its sign; a front of codes, and one of the end of block too.
    (
        "1 01 1010 000001 111111 000000000001 11 0 10",
        SliceFault::TooMany { at: 31 },
    ),
    (
        "1 01 1010 000001 111111 000000000001 11",
        SliceFault::TooMany { at: 31 },
    ),
    (
        "1 01 1010 000001 111111 000000000001 0",
        SliceFault::TooMany { at: 31 },
    ),
    (
        "1 01 1010 000001 111111 000000000001 1",
        SliceFault::End { at: 31 },
    ),
    // It goes before the level of an escape, which needn't be there.
    (
        "1 01 1010 000001 111111 000000000001 000001 000000 100000000000",
        SliceFault::TooMany { at: 31 },
    ),
    ("1 01 1010 1 0 000001 111111", SliceFault::TooMany { at: 9 }),
    ("1 01 1010 1 0 000001 11111", SliceFault::End { at: 9 }),
];

#[test]
fn coefficients_are_refused_at_their_first_bit(rt: HostRuntime) {
    for &(printed, want) in &COEFFICIENTS {
        let found = refusal(Coded::PFrame, 3, printed);
        assert_eq!(rt; found, Some(want), "{printed}");
    }
}
