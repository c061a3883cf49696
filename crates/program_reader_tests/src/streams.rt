//! Units and audio frames put together from the bytes of their heads.

use arrayvec::ArrayVec;

/// A unit that is put together.
pub type Unit = ArrayVec<u8, 128>;

/// A sequence header of 16 columns and 16 rows, 25 pictures a second, a buffer of 112 units: 12 bytes.
pub const SEQUENCE: &[u8] = &[
    0, 0, 1, 0xB3, 0x01, 0x00, 0x10, 0x13, 0x24, 0x9F, 0x23, 0x80,
];

/// The same of 24,000/1,001 pictures a second.
pub const SEQUENCE_OF_RATE_1: &[u8] = &[
    0, 0, 1, 0xB3, 0x01, 0x00, 0x10, 0x11, 0x24, 0x9F, 0x23, 0x80,
];

/// The same of 30,000/1,001 pictures a second.
pub const SEQUENCE_OF_RATE_4: &[u8] = &[
    0, 0, 1, 0xB3, 0x01, 0x00, 0x10, 0x14, 0x24, 0x9F, 0x23, 0x80,
];

/// The extension of a progressive sequence: 10 bytes.
pub const PROGRESSIVE: &[u8] = &[0, 0, 1, 0xB5, 0x14, 0x8A, 0x00, 0x01, 0x00, 0x00];

/// The extension of an interlaced sequence.
pub const INTERLACED: &[u8] = &[0, 0, 1, 0xB5, 0x14, 0x82, 0x00, 0x01, 0x00, 0x00];

/// A group of pictures header, whose time code is 0; the group is open.
pub const OPEN_GROUP: &[u8] = &[0, 0, 1, 0xB8, 0x00, 0x08, 0x00, 0x00];

/// An I-picture that is a progressive frame: its header of 8 bytes, and its extension of 9.
pub const I_FRAME: &[u8] = &[
    0, 0, 1, 0, 0x00, 0x0F, 0xFF, 0xF8, 0, 0, 1, 0xB5, 0x8F, 0xFF, 0xF3, 0x41, 0x80,
];

/// The same with repeat_first_field.
pub const I_REPEATED: &[u8] = &[
    0, 0, 1, 0, 0x00, 0x0F, 0xFF, 0xF8, 0, 0, 1, 0xB5, 0x8F, 0xFF, 0xF3, 0x43, 0x80,
];

/// The same with top_field_first and repeat_first_field.
pub const I_THREE: &[u8] = &[
    0, 0, 1, 0, 0x00, 0x0F, 0xFF, 0xF8, 0, 0, 1, 0xB5, 0x8F, 0xFF, 0xF3, 0xC3, 0x80,
];

/// The top field of an I-picture, and the bottom field.
pub const I_TOP: &[u8] = &[
    0, 0, 1, 0, 0x00, 0x0F, 0xFF, 0xF8, 0, 0, 1, 0xB5, 0x8F, 0xFF, 0xF1, 0x00, 0x00,
];

pub const I_BOTTOM: &[u8] = &[
    0, 0, 1, 0, 0x00, 0x0F, 0xFF, 0xF8, 0, 0, 1, 0xB5, 0x8F, 0xFF, 0xF2, 0x00, 0x00,
];

/// A B-picture that is a progressive frame, with f_codes of 1 both ways: its header of 9 bytes, and its extension of 9.
const B_FRAME: &[u8] = &[
    0, 0, 1, 0, 0x00, 0x1F, 0xFF, 0xFB, 0xB8, 0, 0, 1, 0xB5, 0x81, 0x11, 0x13, 0x41, 0x80,
];

/// The same with top_field_first and repeat_first_field.
const B_THREE: &[u8] = &[
    0, 0, 1, 0, 0x00, 0x1F, 0xFF, 0xFB, 0xB8, 0, 0, 1, 0xB5, 0x81, 0x11, 0x13, 0xC3, 0x80,
];

/// A slice of the first row with one macroblock that is predicted forward by a vector of 0: quantiser code 2 and no information;
/// address, type, vector: 00010 0 1 0010 1 1.
const FORWARD_SLICE: &[u8] = &[0, 0, 1, 1, 0x12, 0x58];

/// A slice of the first row with one intra macroblock whose blocks are flat: quantiser code 1 and no information; address,
/// type, four blocks of luminance, two of chrominance: 00001 0 1 1 100 10 100 10 100 10 100 10 00 10 00 10.
const SLICE: &[u8] = &[0, 0, 1, 1, 0x0B, 0x94, 0xA5, 0x22, 0x20];

/// The second row of a frame of an interlaced sequence, so coded: its slice's start code is the next one.
fn second_row(slice: &[u8]) -> Unit {
    let mut row = Unit::new();
    let _ = row.try_extend_from_slice(slice);
    if let Some(code) = row.get_mut(3) {
        *code = 2;
    }
    row
}

/// A frame of an interlaced sequence with these parts of a head: two rows.
pub fn frame_of(parts: &[&[u8]]) -> Unit {
    let mut unit = unit_of(parts);
    let _ = unit.try_extend_from_slice(second_row(SLICE).as_slice());
    unit
}

/// A B-picture of an interlaced sequence, which is shown for three fields or for two.
pub fn b_frame(is_three: bool) -> Unit {
    let mut unit = Unit::new();
    let _ = unit.try_extend_from_slice(if is_three { B_THREE } else { B_FRAME });
    let _ = unit.try_extend_from_slice(FORWARD_SLICE);
    let _ = unit.try_extend_from_slice(second_row(FORWARD_SLICE).as_slice());
    unit
}

/// A unit with these parts of a head, and one flat slice.
pub fn unit_of(parts: &[&[u8]]) -> Unit {
    let mut unit = Unit::new();
    for part in parts {
        let _ = unit.try_extend_from_slice(part);
    }
    let _ = unit.try_extend_from_slice(SLICE);
    unit
}

/// A B-picture of one macroblock, predicted from the picture that is shown before it.
pub fn b_unit() -> Unit {
    let mut unit = Unit::new();
    let _ = unit.try_extend_from_slice(B_FRAME);
    let _ = unit.try_extend_from_slice(FORWARD_SLICE);
    unit
}

/// Two audio frames of 48 bytes: 8 kbit/s at 24,000 Hz.
pub fn two_frames() -> [u8; 96] {
    let mut frames = [0; 96];
    for (at, byte) in frames.iter_mut().enumerate() {
        *byte = match at % 48 {
            0 => 0xFF,
            1 => 0xF5,
            2 => 0x14,
            _ => 0,
        };
    }
    frames
}
