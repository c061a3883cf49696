//! How many bits blocks are written in.
ghost use Rattle.std.specs.Prelude.{◌≡◌, ◌≤◌, length, IsTrue};
ghost use Rattle.prefix_codes.specs.TableName.{is_coefficients, code_for};
ghost use Rattle.picture_grammar.specs.Block.{coefficient_table, dc_table, first_place};
ghost use Rattle.picture_grammar.specs.Written.{if_any, written_block, written_coefficient, written_coefficients, written_dc};
ghost use Rattle.macroblock_writer.specs.Parts.{written_dc_block};

use picture_grammar::escape::{LEVEL_BITS, RUN_BITS};
use picture_grammar::stands::size_table;
use prefix_codes::{TableName, code_bits, coefficient_code, symbol};
use syntax_types::{BLOCK_PLACES, Block, BlockWay, Dc, RunLevel};

/// The bits of a block's written spelling.
pub fn block_bits(way: BlockWay, block: &Block) -> u32
    ensures value { result ≡ length (written_block way block.now) }
    ensures few { result ≤ 4000 }
{
    dc_bits(way, block.dc) + coefficients_bits(way, block.pairs.as_slice())
}

/// The bits of a block with this DC coefficient and no other one, its end among them.
pub fn dc_block_bits(way: BlockWay, dc: Option<Dc>) -> u32
    ensures value { result ≡ length (written_dc_block way dc) }
    ensures few { result ≤ 4000 }
{
    dc_bits(way, dc) + code_bits(first_table(way), symbol::END_OF_BLOCK)
}

// The size by its table, and so many bits.
fn dc_bits(way: BlockWay, dc: Option<Dc>) -> u32
    ensures value { result ≡ length (if_any (written_dc way) dc) }
    ensures few { result ≤ 300 }
{
    match dc {
        Some(dc) => code_bits(size_table(way), u16::from(dc.size)) + u32::from(dc.size),
        None => 0,
    }
}

// The coefficients from the first place on, and the end of block.
fn coefficients_bits(way: BlockWay, pairs: &[RunLevel]) -> u32
    requires room { length pairs.now ≤ BLOCK_PLACES }
    ensures value { result ≡ length (written_coefficients way (first_place way) pairs.now) }
    ensures few { result ≤ 3000 }
{
    let mut table = first_table(way);
    let later = later_table(way);
    let mut bits = 0;
    for pair in pairs {
        bits += coefficient_bits(table, *pair);
        table = later;
    }
    bits + code_bits(table, symbol::END_OF_BLOCK)
}

// The table's code and a sign bit where there is such a code, else an escape.
#[inline]
fn coefficient_bits(table: TableName, pair: RunLevel) -> u32
    requires table { IsTrue (is_coefficients table) }
    ensures value { result ≡ length (written_coefficient table pair) }
    ensures few { result ≤ 42 }
{
    match coefficient_code(table, pair.run, pair.level.unsigned_abs()) {
        Some(code) => u32::from(code.len) + 1,
        None => code_bits(table, symbol::ESCAPE) + (RUN_BITS + LEVEL_BITS),
    }
}

// The table of a block's first coefficient that isn't the DC coefficient of an intra block (7.2.2.1).
fn first_table(way: BlockWay) -> TableName
    ensures table { result ≡ coefficient_table way (first_place way) }
    ensures coefficients { IsTrue (is_coefficients result) }
{
    if way.intra {
        later_table(way)
    } else {
        TableName::CoeffFirst
    }
}

// The table of each coefficient behind it.
fn later_table(way: BlockWay) -> TableName
    ensures table { result ≡ coefficient_table way 1 }
    ensures coefficients { IsTrue (is_coefficients result) }
{
    if way.intra && way.vlc_one {
        TableName::CoeffOne
    } else {
        TableName::CoeffZero
    }
}
