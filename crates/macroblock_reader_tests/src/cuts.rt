//! The same slice and the same macroblock cut after every bit: the refusal is at the first bit of the element that is
//! cut, and has the kind End. Places were counted by hand.

use crate::fixtures::{Coded, macroblock_of, slice_of};
use crate::macroblocks::CONCEALED;
use macroblock_reader::SliceFault;

/// Quantiser code 1 and no information. A macroblock with the vector (0, -1), which has 1 bit of residual. Behind one that
/// is skipped: quantiser code 4, pattern 32, and in block 0 an escape of run 0 and level 2047, then the pair (0, 3). 64 bits.
const SLICE: &str =
    "00001 0 1 001 1 01 1 0 011 00001 00100 1010 000001000000011111111111 00101 0 10";

#[test]
fn a_slice_that_is_cut_ends_at_the_cut_element(rt: HostRuntime) {
    // From cuts of so many bits up to the next row's: the macroblocks, or the place of the element.
    let rows = [
        (0, Err(0)), // quantiser_scale_code
        (5, Err(5)), // slice_extension_flag
        (6, Err(6)), // address
        (7, Err(7)), // type
        (10, Err(10)), // motion code, horizontal
        (11, Err(11)), // motion code, vertical
        (13, Err(13)), // its sign
        (14, Err(14)), // its residual
        (15, Ok(1)), // behind the macroblock, also with a zero bit
        (17, Err(15)), // address
        (18, Err(18)), // type
        (23, Err(23)), // quantiser code
        (28, Err(28)), // pattern
        (32, Err(32)), // escape
        (56, Err(56)), // coefficient
        (61, Err(61)), // its sign
        (62, Err(62)), // end of block
        (64, Ok(2)),
        (65, Ok(2)),
    ];
    for (row, next) in rows.iter().zip(rows.iter().skip(1)) {
        for count in row.0..next.0 {
            let slice = slice_of(rt.alloc(), Coded::PFrame, 4, SLICE, count);
            let found = slice.map(|(slice, _bits)| slice.macroblocks.len());
            let want = row.1.map_err(|at| SliceFault::End { at });
            assert_eq!(rt; found, want, "{count} bits");
        }
    }
}

#[test]
fn a_macroblock_that_is_cut_ends_at_the_cut_element(rt: HostRuntime) {
    // Address, type, dct_type, quantiser code; vector; marker; then the elements of each block. 62 bits.
    let elements = [
        0, 1, 3, 4, 9, 10, 12, 13, 14, 15, 18, 21, 23, 24, 28, 31, 35, 38, 42, 45, 49, 51, 52, 56,
        58, 62,
    ];
    for (place, next) in elements.iter().zip(elements.iter().skip(1)) {
        for count in *place..*next {
            let found = macroblock_of(Coded::IConcealed, true, 3, CONCEALED, count).err();
            assert_eq!(rt; found, Some(SliceFault::End { at: *place }), "{count} bits");
        }
    }
    assert!(rt; macroblock_of(Coded::IConcealed, true, 3, CONCEALED, 62).is_ok());
}
