//! The macroblocks of slices, each read once and coarsened by each ratio.
ghost use Rattle.std.specs.Prelude.{◌≡◌, ◌<◌, ◌≤◌, ◌^◌, IsTrue, length};
ghost use Rattle.picture_grammar.specs.Picture.{IsCoding};
ghost use Rattle.quant_math.specs.Scales.{IsCode};
ghost use Rattle.requantiser.specs.Levels.{HasWeights};
ghost use Rattle.requantiser.specs.VersionState.{IsSpelledMacroblock};

use crate::coarsen::way::{coding, first_slice, sequence};
use arrayvec::ArrayVec;
use bit_cursor::BitReader;
use macroblock_reader::{read_macroblock_into, read_slice_head};
use picture_grammar::limits::{MACROBLOCK_SIZE, SLICE_CLOSING_BITS};
use quant_math::LAST_CODE;
use requantiser::{VersionRoom, VersionState, coarsen_macroblock};
use shelf_io::SliceSource;
use std::alloc::{AllocError, Global};
use syntax_types::{Macroblock, PicCoding, PictureParameters, SeqState};

/// The most ratios at a time.
pub const RATIOS_MOST: usize = 8;

/// What stood there, and the distortion of each ratio.
#[derive(Clone, Copy)]
pub struct Tally {
    pub macroblocks: u64,
    pub coefficients: u64,
    pub distortions: [u64; RATIOS_MOST],
}

/// What is lent: a macroblock to read into, and room to write into.
#[derive(Drop)]
struct Lent {
    from: Macroblock,
    to: VersionRoom,
}

/// Reads and coarsens slices until none stands next.
pub fn coarsen_slices(alloc: Global, bytes: &[u8], ratios: &ArrayVec<u16, RATIOS_MOST>) -> Tally
    requires { length bytes.now ≤ 2 ^ 60 }
{
    let mut tally = Tally {
        macroblocks: 0,
        coefficients: 0,
        distortions: [0; RATIOS_MOST],
    };
    let mut lent = Lent {
        from: Macroblock::empty(),
        to: VersionRoom::new(),
    };
    let mut rest = bytes;
    for _ in 0..u64::MAX {
        let Some((slice, behind)) = first_slice(rest) else {
            break;
        };
        let seq = sequence(slice.head);
        let coding = coding(slice.head);
        let picture = PictureParameters {
            seq: &seq,
            coding: &coding,
        };
        coarsen_slice(alloc, picture, slice.bytes, ratios, &mut lent, &mut tally);
        rest = behind;
    }
    tally
}

/// Reads and coarsens the macroblocks of a slice.
fn coarsen_slice(
    alloc: Global,
    picture: PictureParameters<'_>,
    bytes: &[u8],
    ratios: &ArrayVec<u16, RATIOS_MOST>,
    lent: &mut Lent,
    tally: &mut Tally,
)
    requires weights { HasWeights picture.seq.now }
    requires is_coding { IsCoding picture.coding.now }
    requires bytes { length bytes.now ≤ 2 ^ 60 }
{
    let mut source = SliceSource::new(bytes);
    let mut reader = BitReader::new(&mut source);
    let Ok(head) = read_slice_head(&mut reader, alloc) else {
        return;
    };
    if head.code == 0 || head.code > LAST_CODE {
        return;
    }
    let Ok(mut states) = states_at_start(alloc, picture.coding, ratios.as_slice(), head.code) else {
        return;
    };
    let mut left = columns(picture.seq);
    let mut first = true;
    for _ in 0..left {
        if !reads_next(&mut reader, picture.coding, first, left, &mut lent.from) {
            return;
        }
        left -= lent.from.skipped_before + 1;
        let Ok((bits, _known)) = reader.peek(SLICE_CLOSING_BITS as u32) else {
            return;
        };
        let inner = !first && bits != 0;
        let states = states.as_mut_slice();
        coarsen(picture, inner, states, &lent.from, &mut lent.to, tally);
        if bits == 0 {
            return;
        }
        first = false;
    }
}

/// The macroblocks of a row (mb_width, ISO/IEC 13818-2, 6.3.3).
fn columns(seq: &SeqState) -> u16 {
    seq.width / MACROBLOCK_SIZE + u16::from(seq.width % MACROBLOCK_SIZE != 0)
}

/// The states of all ratios at the start of a slice with this code.
fn states_at_start(
    alloc: Global,
    coding: &PicCoding,
    ratios: &[u16],
    code: u8,
) -> Result<Vec<VersionState>, AllocError>
    requires { IsCode code }
{
    let mut states = Vec::new(alloc);
    for ratio in ratios {
        states.push(VersionState::new(coding, *ratio, code))?;
    }
    Ok(states)
}

/// Reads the next macroblock, and says whether there was one. It isn't inlined, so that the macroblock is filled as for any
/// caller.
#[inline(never)]
fn reads_next(
    reader: &mut BitReader<'_, SliceSource<'_>>,
    coding: &PicCoding,
    first: bool,
    left: u16,
    into: &mut Macroblock,
) -> bool
    requires { IsCoding coding.now }
    ensures spelled { IsTrue result → IsSpelledMacroblock coding.now into.new }
    ensures within { IsTrue result → into.new.skipped_before < left }
{
    match read_macroblock_into(reader, coding, first, left, into) {
        Ok(()) => true,
        Err(_) => false,
    }
}

/// Coarsens the macroblock that was read by all ratios.
fn coarsen(
    picture: PictureParameters<'_>,
    inner: bool,
    states: &mut [VersionState],
    from: &Macroblock,
    to: &mut VersionRoom,
    tally: &mut Tally,
)
    requires weights { HasWeights picture.seq.now }
    requires spelled { IsSpelledMacroblock picture.coding.now from.now }
{
    for i in 0..states.len() {
        let distortion = coarsen_by(picture, inner, &mut states[i], from, to);
        if i < RATIOS_MOST {
            tally.distortions[i] = tally.distortions[i].wrapping_add(distortion);
        }
    }
    tally.macroblocks = tally.macroblocks.wrapping_add(1);
    tally.coefficients = tally.coefficients.wrapping_add(coefficients(from));
}

/// Coarsens a macroblock by one ratio, and gives the distortion. It isn't inlined either.
#[inline(never)]
fn coarsen_by(
    picture: PictureParameters<'_>,
    inner: bool,
    state: &mut VersionState,
    from: &Macroblock,
    to: &mut VersionRoom,
) -> u64
    requires weights { HasWeights picture.seq.now }
    requires spelled { IsSpelledMacroblock picture.coding.now from.now }
{
    if u16::MAX - from.skipped_before <= state.skipped {
        return 0;
    }
    coarsen_macroblock(picture, inner, state, from, to).distortion
}

/// The coefficients of a macroblock, without DC coefficients of intra blocks.
fn coefficients(macroblock: &Macroblock) -> u64 {
    let mut count: u64 = 0;
    for block in &macroblock.blocks {
        count = count.wrapping_add(block.pairs.len() as u64);
    }
    count
}
