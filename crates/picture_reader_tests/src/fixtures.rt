//! Units put together from the bytes of their heads and the printed bits of their slices.

use arrayvec::ArrayVec;
use picture_reader::{Headers, PictureFault, check_picture, read_picture};
use std::alloc::Global;
use syntax_types::Picture;

/// A unit that is put together.
pub type Unit = ArrayVec<u8, 128>;

/// A sequence header of 16 columns and 16 rows, 25 pictures a second, a buffer of 112 units: 12 bytes.
pub const SEQUENCE_16: &[u8] = &[
    0, 0, 1, 0xB3, 0x01, 0x00, 0x10, 0x13, 0x24, 0x9F, 0x23, 0x80,
];

/// The same of 32 columns.
pub const SEQUENCE_32: &[u8] = &[
    0, 0, 1, 0xB3, 0x02, 0x00, 0x10, 0x13, 0x24, 0x9F, 0x23, 0x80,
];

/// The same of 48 columns.
pub const SEQUENCE_48: &[u8] = &[
    0, 0, 1, 0xB3, 0x03, 0x00, 0x10, 0x13, 0x24, 0x9F, 0x23, 0x80,
];

/// The extension of a progressive sequence: 10 bytes.
pub const PROGRESSIVE: &[u8] = &[0, 0, 1, 0xB5, 0x14, 0x8A, 0x00, 0x01, 0x00, 0x00];

/// The extension of an interlaced sequence.
pub const INTERLACED: &[u8] = &[0, 0, 1, 0xB5, 0x14, 0x82, 0x00, 0x01, 0x00, 0x00];

/// An I-picture that is a progressive frame: its header of 8 bytes, and its extension of 9.
pub const I_FRAME: &[u8] = &[
    0, 0, 1, 0, 0x00, 0x0F, 0xFF, 0xF8, 0, 0, 1, 0xB5, 0x8F, 0xFF, 0xF3, 0x41, 0x80,
];

/// A P-picture, with forward f_codes of 1: its header has 9 bytes.
pub const P_FRAME: &[u8] = &[
    0, 0, 1, 0, 0x00, 0x17, 0xFF, 0xFB, 0x80, 0, 0, 1, 0xB5, 0x81, 0x1F, 0xF3, 0x41, 0x80,
];

/// A B-picture, with f_codes of 1 both ways: its header has 9 bytes.
pub const B_FRAME: &[u8] = &[
    0, 0, 1, 0, 0x00, 0x1F, 0xFF, 0xFB, 0xB8, 0, 0, 1, 0xB5, 0x81, 0x11, 0x13, 0x41, 0x80,
];

/// The top field of a P-picture, with forward f_codes of 1.
pub const P_FIELD: &[u8] = &[
    0, 0, 1, 0, 0x00, 0x17, 0xFF, 0xFB, 0x80, 0, 0, 1, 0xB5, 0x81, 0x1F, 0xF1, 0x00, 0x00,
];

/// A slice of one intra macroblock whose blocks are flat: quantiser code 1 and no information; address, type, four blocks of
/// luminance, two of chrominance. 36 bits.
pub const GRAY: &str = "00001 0 1 1 100 10 100 10 100 10 100 10 00 10 00 10";

/// A unit with these parts of a head.
pub fn head_of(parts: &[&[u8]]) -> Unit {
    let mut unit = Unit::new();
    for part in parts {
        let _ = unit.try_extend_from_slice(part);
    }
    unit
}

/// The bits of a byte that is begun, and how many they are.
#[derive(Clone, Copy)]
struct Begun {
    bits: u8,
    count: u32,
}

/// Puts printed bits behind a unit and the byte that is begun there.
fn put_bits(unit: &mut Unit, begun: Begun, printed: &str) -> Begun {
    let mut bits = begun.bits;
    let mut count = begun.count;
    for c in printed.bytes() {
        if c != b' ' {
            bits = bits.wrapping_mul(2).wrapping_add(u8::from(c == b'1'));
            count = count.wrapping_add(1) % 8;
            if count == 0 {
                let _ = unit.try_push(bits);
            }
        }
    }
    Begun { bits, count }
}

/// Puts a slice of this row behind a unit: its start code, the printed bits, and zero bits to a whole byte.
pub fn put_slice(unit: &mut Unit, row: u8, printed: &str) {
    let _ = unit.try_extend_from_slice(&[0, 0, 1, row.saturating_add(1)]);
    let begun = put_bits(unit, Begun { bits: 0, count: 0 }, printed);
    let filled = put_bits(unit, begun, "0000000");
    let _ = filled;
}

/// A unit with one slice, of the first row.
pub fn unit_of(parts: &[&[u8]], printed: &str) -> Unit {
    let mut unit = head_of(parts);
    put_slice(&mut unit, 0, printed);
    unit
}

/// An I-picture of 16 x 16, whose head has 39 bytes.
pub fn i_unit(printed: &str) -> Unit {
    unit_of(&[SEQUENCE_16, PROGRESSIVE, I_FRAME], printed)
}

pub fn picture(alloc: Global, unit: &Unit) -> Result<Picture, PictureFault> {
    read_picture(alloc, unit.as_slice(), None)
}

pub fn headers(alloc: Global, unit: &Unit) -> Result<Headers, PictureFault> {
    check_picture(alloc, unit.as_slice(), None)
}

/// Why both calls refuse a unit: None where one of them doesn't, or they differ.
pub fn refusal(alloc: Global, unit: &Unit) -> Option<PictureFault> {
    let checked = headers(alloc, unit).err();
    let read = picture(alloc, unit).err();
    if checked == read { read } else { None }
}
