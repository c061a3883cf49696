//! How many bits a macroblock is written in: each table's code by its length, with no bits put together.
ghost use Rattle.std.specs.Prelude.{◌≡◌, ◌≤◌, ◌<◌, ◌+◌, ◌^◌, length, slice_index_or};
ghost use Rattle.std.specs.List.{flat_map, range_with_len};
ghost use Rattle.syntax_types.specs.declared.block.Block.{Block as BlockOf};
ghost use Rattle.picture_grammar.specs.Macroblock.{block_way as way_of_block, no_block};
ghost use Rattle.picture_grammar.specs.Written.{written_coded_block, written_macroblock};
ghost use Rattle.macroblock_writer.specs.Parts.{HasDcAlone, dc_length, head_length, motion_length, written_dc_block};

use crate::block_counts::{block_bits, dc_block_bits};
use crate::head_counts::{bits_where, head_bits};
use crate::vector_counts::vectors_bits;
use picture_grammar::stands::{block_way, has_concealment, has_motion_type, is_coded};
use syntax_types::{BLOCKS, Macroblock, PicCoding};

/// How many bits a macroblock of this picture is written in by `write_macroblock` (ISO/IEC 13818-2, 6.2.5).
pub fn macroblock_bits(coding: &PicCoding, macroblock: &Macroblock) -> u32
    ensures value { result ≡ length (written_macroblock coding.now macroblock.now) }
    ensures few { result < 2 ^ 17 }
{
    let m = macroblock;
    head_bits(coding, m.skipped_before, m.kind, m.code, m.pattern)
        + motion_bits(coding, macroblock)
        + blocks_bits(coding, macroblock)
}

/// The bits of what a macroblock says whatever its coefficients are: its motion, and the DC coefficients of an intra one,
/// each with the end of its block. Where no other coefficients stand, it is written in these and in those of its head.
pub fn motion_and_dc_bits(coding: &PicCoding, macroblock: &Macroblock) -> u32
    ensures value { result ≡ motion_length coding.now macroblock.now + dc_length coding.now macroblock.now }
    ensures few { result ≤ 26403 }
    ensures whole { HasDcAlone macroblock.now → length (written_macroblock coding.now macroblock.now)
        ≡ head_length coding.now macroblock.now.skipped_before macroblock.now.kind macroblock.now.code macroblock.now.pattern + result }
{
    motion_bits(coding, macroblock) + dc_bits(coding, macroblock)
}

// motion_type, the vectors, and the marker behind a vector of concealment.
fn motion_bits(coding: &PicCoding, macroblock: &Macroblock) -> u32
    ensures value { result ≡ motion_length coding.now macroblock.now }
    ensures few { result ≤ 2403 }
{
    bits_where(has_motion_type(coding, macroblock.kind), 2)
        + vectors_bits(coding.f_code[0], macroblock.forward.as_slice())
        + vectors_bits(coding.f_code[1], macroblock.backward.as_slice())
        + bits_where(has_concealment(coding, macroblock.kind), 1)
}

// The DC coefficients of an intra macroblock.
fn dc_bits(coding: &PicCoding, macroblock: &Macroblock) -> u32
    ensures value { result ≡ dc_length coding.now macroblock.now }
    ensures few { result ≤ 24000 }
{
    if macroblock.kind.intra {
        dc_blocks_bits(coding, macroblock)
    } else {
        0
    }
}

// The DC coefficient of each block, with the end of the block.
fn dc_blocks_bits(coding: &PicCoding, macroblock: &Macroblock) -> u32
    ensures value { result ≡ length (flat_map (λ i. let block : BlockOf = slice_index_or macroblock.now.blocks i no_block in
        written_dc_block (way_of_block coding.now macroblock.now.kind i) block.dc) (range_with_len 0 BLOCKS)) }
    ensures few { result ≤ 24000 }
{
    let mut bits = 0;
    for i in 0..BLOCKS {
        bits += dc_bits_at(coding, macroblock, i);
    }
    bits
}

fn dc_bits_at(coding: &PicCoding, macroblock: &Macroblock, i: usize) -> u32
    requires block { i < BLOCKS }
    ensures value { result ≡ (let block : BlockOf = slice_index_or macroblock.now.blocks i no_block in length (written_dc_block (way_of_block coding.now macroblock.now.kind i) block.dc)) }
    ensures few { result ≤ 4000 }
{
    dc_block_bits(
        block_way(coding, macroblock.kind, i),
        macroblock.blocks[i].dc,
    )
}

// The coded blocks in order.
fn blocks_bits(coding: &PicCoding, macroblock: &Macroblock) -> u32
    ensures value { result ≡ length (flat_map (written_coded_block coding.now macroblock.now) (range_with_len 0 BLOCKS)) }
    ensures few { result ≤ 24000 }
{
    let mut bits = 0;
    for i in 0..BLOCKS {
        bits += coded_block_bits(coding, macroblock, i);
    }
    bits
}

fn coded_block_bits(coding: &PicCoding, macroblock: &Macroblock, i: usize) -> u32
    requires block { i < BLOCKS }
    ensures value { result ≡ length (written_coded_block coding.now macroblock.now i) }
    ensures few { result ≤ 4000 }
{
    let kind = macroblock.kind;
    if !is_coded(kind, macroblock.pattern, i) {
        return 0;
    }
    block_bits(block_way(coding, kind, i), &macroblock.blocks[i])
}
