//! Macroblocks as they are drawn (ISO/IEC 13818-2, 6.2.5).
ghost use Rattle.std.specs.Prelude.{◌≡◌, ◌<◌, ◌≤◌, ◌+◌, [], ◌∷◌, ◌++◌, length, if◌then◌else◌};
ghost use Rattle.std.specs.List.{range_with_len};
ghost use Rattle.picture_grammar.specs.Macroblock.{is_coded as is_block_coded, no_block};
ghost use Rattle.program_maker.specs.Draws.{draw_each};
ghost use Rattle.program_maker.specs.Macroblocks.{run_level, number_of_pairs, coded_block, block_at, intra_kind, predicted as predicted_of, p_kind, drawn_kind, quantiser_code, coded_pattern, drawn_blocks, drawn_macroblock, still};

use crate::draws::Draws;
use arrayvec::ArrayVec;
use syntax_types::{
    BLOCK_PLACES, BLOCKS, Block, Dc, FRAME_BASED, Kind, Macroblock, RunLevel, VECTORS_MOST, Vector,
};

/// The DC coefficient of each intra block: size 0.
const NO_DIFFERENCE: Dc = Dc { size: 0, bits: 0 };

/// Draws a macroblock of a P-picture, or of an I-picture, into one that is lent, whatever that holds.
#[tactic(auto, unfolding(crate::specs::Macroblocks::drawn_macroblock))]
pub fn draw_macroblock(draws: &mut Draws, predicted: bool, into: &mut Macroblock)
    ensures drawn { into.new ≡ (drawn_macroblock predicted draws.old.state).0 }
    ensures state { draws.new.state ≡ (drawn_macroblock predicted draws.old.state).1 }
{
    let kind = draw_kind(draws, predicted);
    let code = draw_code(draws, kind);
    let pattern = draw_pattern(draws, kind.pattern);
    draw_blocks(draws, kind, pattern, &mut into.blocks);
    set_vectors(kind.forward, &mut into.forward);
    into.backward.clear();
    into.skipped_before = 0;
    into.kind = Kind {
        quant: code.is_some(),
        ..kind
    };
    into.motion_type = FRAME_BASED;
    into.field_dct = false;
    into.code = code;
    into.pattern = pattern;
}

// The flags of an intra macroblock.
fn intra() -> Kind
    ensures { result ≡ intra_kind }
{
    Kind {
        quant: false,
        forward: false,
        backward: false,
        pattern: false,
        intra: true,
    }
}

// The flags of another one.
fn predicted(forward: bool, pattern: bool) -> Kind
    ensures { result ≡ predicted_of forward pattern }
{
    Kind {
        quant: false,
        forward,
        backward: false,
        pattern,
        intra: false,
    }
}

// The flags by the number that is drawn.
fn kind_by(choice: u32) -> Kind
    ensures { result ≡ p_kind choice }
{
    if choice == 0 {
        predicted(true, false)
    } else if choice == 1 {
        predicted(false, true)
    } else if choice == 2 {
        predicted(true, true)
    } else {
        intra()
    }
}

#[tactic(auto, unfolding(crate::specs::Macroblocks::drawn_kind))]
fn draw_kind(draws: &mut Draws, predicted: bool) -> Kind
    ensures drawn { result ≡ (drawn_kind predicted draws.old.state).0 }
    ensures state { draws.new.state ≡ (drawn_kind predicted draws.old.state).1 }
{
    if predicted {
        kind_by(draws.pick(4))
    } else {
        intra()
    }
}

#[tactic(auto, unfolding(crate::specs::Macroblocks::quantiser_code))]
fn draw_code(draws: &mut Draws, kind: Kind) -> Option<u8>
    ensures drawn { result ≡ (quantiser_code kind draws.old.state).0 }
    ensures state { draws.new.state ≡ (quantiser_code kind draws.old.state).1 }
{
    if !(kind.intra || kind.pattern) {
        return None;
    }
    if draws.pick(8) != 0 {
        return None;
    }
    Some(1 + draws.pick(31) as u8)
}

#[tactic(auto, unfolding(crate::specs::Macroblocks::coded_pattern))]
fn draw_pattern(draws: &mut Draws, stands: bool) -> u8
    ensures drawn { result ≡ (coded_pattern stands draws.old.state).0 }
    ensures state { draws.new.state ≡ (coded_pattern stands draws.old.state).1 }
{
    if stands { 1 + draws.pick(63) as u8 } else { 0 }
}

// The vector of motion codes 0 where there is forward motion.
fn set_vectors(forward: bool, into: &mut ArrayVec<Vector, VECTORS_MOST>)
    ensures { into.new.items ≡ (if forward then still ∷ [] else []) }
{
    into.clear();
    if forward {
        into.push(Vector {
            select: None,
            code: [0, 0],
            residual: [0, 0],
            dual: None,
        });
    }
}

// The six blocks in order.
fn draw_blocks(draws: &mut Draws, kind: Kind, pattern: u8, into: &mut [Block; BLOCKS])
    ensures drawn { into.new ≡ (drawn_blocks kind pattern draws.old.state).0 }
    ensures state { draws.new.state ≡ (drawn_blocks kind pattern draws.old.state).1 }
{
    for i in 0..BLOCKS {
        draw_block_at(draws, kind, pattern, i, &mut into[i]);
    }
}

// A block, where it is coded, and an empty one elsewhere.
#[tactic(auto, unfolding(crate::specs::Macroblocks::block_at))]
fn draw_block_at(draws: &mut Draws, kind: Kind, pattern: u8, i: usize, into: &mut Block)
    requires { i < BLOCKS }
    ensures drawn { into.new ≡ (block_at kind pattern i draws.old.state).0 }
    ensures state { draws.new.state ≡ (block_at kind pattern i draws.old.state).1 }
{
    if is_coded(kind, pattern, i) {
        draw_block(draws, kind.intra, into)
    } else {
        into.dc = None;
        into.pairs.clear();
    }
}

// Block i is coded: each of an intra macroblock, and otherwise those whose bit of the pattern is set (6.3.17.4).
fn is_coded(kind: Kind, pattern: u8, i: usize) -> bool
    requires { i < BLOCKS }
    ensures { result ≡ is_block_coded kind pattern i }
{
    kind.intra || (pattern >> (BLOCKS - 1 - i)) % 2 == 1
}

#[tactic(auto, unfolding(crate::specs::Macroblocks::coded_block))]
fn draw_block(draws: &mut Draws, intra: bool, into: &mut Block)
    ensures drawn { into.new ≡ (coded_block intra draws.old.state).0 }
    ensures state { draws.new.state ≡ (coded_block intra draws.old.state).1 }
{
    let number = draw_number(draws, intra);
    draw_pairs(draws, number, &mut into.pairs);
    into.dc = if intra { Some(NO_DIFFERENCE) } else { None };
}

// How many coefficients follow.
fn draw_number(draws: &mut Draws, intra: bool) -> u32
    ensures drawn { result ≡ (number_of_pairs intra draws.old.state).0 }
    ensures state { draws.new.state ≡ (number_of_pairs intra draws.old.state).1 }
    ensures few { result < 8 }
{
    if intra {
        draws.pick(8)
    } else {
        1 + draws.pick(7)
    }
}

fn draw_pairs(draws: &mut Draws, number: u32, into: &mut ArrayVec<RunLevel, BLOCK_PLACES>)
    requires { number ≤ BLOCK_PLACES }
    ensures drawn { into.new.items ≡ (draw_each (range_with_len 0 number) (λ _. run_level) draws.old.state).0 }
    ensures state { draws.new.state ≡ (draw_each (range_with_len 0 number) (λ _. run_level) draws.old.state).1 }
{
    into.clear();
    for _i in 0..number {
        into.push(draw_run_level(draws));
    }
}

#[tactic(auto, unfolding(crate::specs::Macroblocks::run_level))]
fn draw_run_level(draws: &mut Draws) -> RunLevel
    ensures drawn { result ≡ (run_level draws.old.state).0 }
    ensures state { draws.new.state ≡ (run_level draws.old.state).1 }
{
    let run = draws.pick(4) as u8;
    let size = 1 + draws.pick(6) as i16;
    let negative = draws.pick(2) == 1;
    RunLevel {
        run,
        level: if negative { -size } else { size },
    }
}
