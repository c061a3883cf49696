//! Codings and readers that the tests share.
ghost use Rattle.std.specs.Prelude.{◌≡◌, ◌≤◌, ◌<◌, true};
ghost use Rattle.picture_grammar.specs.Picture.{IsCoding};
ghost use Rattle.syntax_types.specs.declared.picture.TheConstants.{FRAME_PICTURE as frame_picture};

use arrayvec::ArrayVec;
use bit_cursor::BitReader;
use macroblock_reader::{SliceFault, read_macroblock, read_slice};
use shelf_io::SliceSource;
use std::alloc::Global;
use syntax_types::{
    B_PICTURE, FRAME_PICTURE, I_PICTURE, Macroblock, P_PICTURE, PicCoding, PictureParameters,
    SeqState, Slice, TOP_FIELD,
};

/// How the pictures of the tests are coded.
#[derive(Clone, Copy, Debug)]
pub enum Coded {
    /// A frame whose vectors and blocks are all those of a frame, type I.
    IFrame,
    /// A frame whose macroblocks choose, type I, with concealment vectors and Table B-15.
    IConcealed,
    /// As `IFrame`, type P.
    PFrame,
    /// A frame whose macroblocks choose, type P.
    PInterlaced,
    /// The top field, type P.
    PField,
    /// A frame whose macroblocks choose, type B.
    BInterlaced,
}

/// Forward residuals have 2 bits and 1 bit, backward ones none and 3 bits: horizontal, then vertical.
const F_CODES: [[u8; 2]; 2] = [[3, 2], [1, 4]];

pub fn coding(coded: Coded) -> PicCoding
    ensures { IsCoding result }
{
    match coded {
        Coded::IFrame => picture_coding(I_PICTURE, FRAME_PICTURE, true, false),
        Coded::IConcealed => picture_coding(I_PICTURE, FRAME_PICTURE, false, true),
        Coded::PFrame => picture_coding(P_PICTURE, FRAME_PICTURE, true, false),
        Coded::PInterlaced => picture_coding(P_PICTURE, FRAME_PICTURE, false, false),
        Coded::PField => picture_coding(P_PICTURE, TOP_FIELD, false, false),
        Coded::BInterlaced => picture_coding(B_PICTURE, FRAME_PICTURE, false, false),
    }
}

fn picture_coding(kind: u8, structure: u8, frame_pred_frame_dct: bool, concealed: bool) -> PicCoding
    requires kind { (1 ≤ kind) × (kind ≤ 3) }
    requires structure { (1 ≤ structure) × (structure ≤ 3) }
    requires frame { frame_pred_frame_dct ≡ true → structure ≡ frame_picture }
    ensures { IsCoding result }
{
    PicCoding {
        kind,
        vbv_delay: 0xFFFF,
        f_code: F_CODES,
        dc_precision: 0,
        structure,
        top_field_first: false,
        frame_pred_frame_dct,
        concealment: concealed,
        q_scale_type: false,
        intra_vlc_format: concealed,
        alternate_scan: false,
        repeat_first_field: false,
        progressive_frame: frame_pred_frame_dct,
    }
}

/// A sequence with a row of so many macroblocks.
pub fn seq(columns: u16) -> SeqState {
    SeqState {
        width: columns.saturating_mul(16),
        height: 16,
        rate_code: 3,
        vbv: 112,
        progressive: true,
        intra: [16; 64],
        non_intra: [16; 64],
    }
}

/// How many bits are printed.
pub fn bit_count(printed: &str) -> u64 {
    let mut count = 0u64;
    for c in printed.bytes() {
        count = count.wrapping_add(u64::from(c != b' '));
    }
    count
}

/// Zero bits that fill so many bits up to whole bytes.
pub fn filling(count: u64) -> u32
    ensures { result < 8 }
{
    ((8 - count % 8) % 8) as u32
}

/// The first of the bits that are printed in groups, so many of them, as bytes, with zero bits in front that fill them up.
pub fn bytes_of(printed: &str, count: u64) -> ArrayVec<u8, 64> {
    let mut bytes = ArrayVec::new();
    let mut byte = 0u8;
    let mut held = filling(count);
    let mut left = count;
    for c in printed.bytes() {
        if c != b' ' && left != 0 {
            left = left.saturating_sub(1);
            byte = byte.wrapping_mul(2).wrapping_add(u8::from(c == b'1'));
            held = held.wrapping_add(1) % 8;
            if held == 0 {
                let _ = bytes.try_push(byte);
            }
        }
    }
    bytes
}

/// The same refusal, its place counted from behind so many bits.
fn behind(skipped: u64, fault: SliceFault) -> SliceFault {
    match fault {
        SliceFault::NoCode { at } => SliceFault::NoCode {
            at: at.saturating_sub(skipped),
        },
        SliceFault::TooMany { at } => SliceFault::TooMany {
            at: at.saturating_sub(skipped),
        },
        SliceFault::BadEscape { at } => SliceFault::BadEscape {
            at: at.saturating_sub(skipped),
        },
        SliceFault::BadType { at } => SliceFault::BadType {
            at: at.saturating_sub(skipped),
        },
        SliceFault::BadAddress { at } => SliceFault::BadAddress {
            at: at.saturating_sub(skipped),
        },
        SliceFault::BadPattern { at } => SliceFault::BadPattern {
            at: at.saturating_sub(skipped),
        },
        SliceFault::End { at } => SliceFault::End {
            at: at.saturating_sub(skipped),
        },
        SliceFault::Outside(fault) => SliceFault::Outside(fault),
        SliceFault::OutOfMemory => SliceFault::OutOfMemory,
    }
}

/// The macroblock that the first of the printed bits begin with, where there are so many of them and no more, and how
/// many bits it has. Places count from the first printed bit.
pub fn macroblock_of(
    coded: Coded,
    first: bool,
    columns_left: u16,
    printed: &str,
    count: u64,
) -> Result<(Macroblock, u64), SliceFault> {
    let bytes = bytes_of(printed, count);
    let mut source = SliceSource::new(bytes.as_slice());
    let mut reader = BitReader::new(&mut source);
    let _ = reader.bits(filling(count));
    let skipped = reader.place();
    match read_macroblock(&mut reader, &coding(coded), first, columns_left) {
        Ok(macroblock) => Ok((macroblock, reader.place().saturating_sub(skipped))),
        Err(fault) => Err(behind(skipped, fault)),
    }
}

/// The first macroblock of a row of three, which all of the printed bits spell: None where bits are left.
pub fn whole(coded: Coded, printed: &str) -> Result<Option<Macroblock>, SliceFault> {
    let count = bit_count(printed);
    let (macroblock, bits) = macroblock_of(coded, true, 3, printed, count)?;
    if bits == count {
        Ok(Some(macroblock))
    } else {
        Ok(None)
    }
}

/// The slice of a row of so many macroblocks, behind its start code, in the same way.
pub fn slice_of(
    alloc: Global,
    coded: Coded,
    columns: u16,
    printed: &str,
    count: u64,
) -> Result<(Slice, u64), SliceFault> {
    let bytes = bytes_of(printed, count);
    let mut source = SliceSource::new(bytes.as_slice());
    let mut reader = BitReader::new(&mut source);
    let _ = reader.bits(filling(count));
    let skipped = reader.place();
    let seq = seq(columns);
    let coding = coding(coded);
    let picture = PictureParameters {
        seq: &seq,
        coding: &coding,
    };
    match read_slice(&mut reader, picture, 0, alloc) {
        Ok(slice) => Ok((slice, reader.place().saturating_sub(skipped))),
        Err(fault) => Err(behind(skipped, fault)),
    }
}
