//! How many bits the codes of coefficients have.
ghost use Rattle.std.specs.Prelude.{◌≡◌, ◌<◌, ◌≤◌, length, IsTrue, if◌then◌else◌};
ghost use Rattle.prefix_codes.specs.TableName.{is_coefficients, code_for};
ghost use Rattle.prefix_codes.specs.declared.symbol.TheConstants.{END_OF_BLOCK};
ghost use Rattle.prefix_codes.specs.declared.table_name.TableName.TheVariants.{CoeffZero};
ghost use Rattle.syntax_types.specs.declared.block.BlockWay.{BlockWay as WayOf};
ghost use Rattle.requantiser.specs.Private.Lengths.{length_by, table_number as number_of, table_numbered};

use picture_grammar::escape::{LEVEL_BITS, RUN_BITS};
use prefix_codes::{TableName, code_bits, coefficient_code, symbol};
use syntax_types::BlockWay;

/// Tables of coefficients.
pub const TABLES: usize = 3;

/// The bits of a coefficient by a table: the table's code and a sign bit where there is such a code, else an escape.
#[cold]
pub fn coefficient_bits(table: TableName, run: u8, size: u16) -> u32
    requires table { IsTrue (is_coefficients table) }
    ensures value { result ≡ length_by table run size }
    ensures few { result ≤ 42 }
{
    match coefficient_code(table, run, size) {
        Some(code) => u32::from(code.len) + 1,
        None => code_bits(table, symbol::ESCAPE) + (RUN_BITS + LEVEL_BITS),
    }
}

/// The bits of the end of a block that has coefficients, but none in an intra block, where it stands in each.
#[inline]
pub fn end_bits(intra: bool) -> u32
    ensures value { result ≡ (if intra then 0 else length (code_for CoeffZero END_OF_BLOCK)) }
    ensures few { result ≤ 24 }
{
    if intra {
        0
    } else {
        code_bits(TableName::CoeffZero, symbol::END_OF_BLOCK)
    }
}

/// The number of the table of a coefficient at a place, behind the others (ISO/IEC 13818-2, 7.2.2.1).
#[inline]
pub fn table_number(way: BlockWay, place: u8) -> usize
    ensures value { result ≡ number_of way place }
    ensures bound { result < TABLES }
{
    if way.intra {
        if way.vlc_one { 2 } else { 0 }
    } else if place == 0 {
        1
    } else {
        0
    }
}

/// The same by the numbers of a first place and of all others.
#[inline]
pub fn table_at(first: usize, later: usize, place: u8) -> usize
    requires first { first < TABLES }
    requires later { later < TABLES }
    ensures value { (way : WayOf) → first ≡ number_of way 0 → later ≡ number_of way 1 → result ≡ number_of way place }
    ensures bound { result < TABLES }
{
    if place == 0 {
        return first;
    }
    later
}

/// The table with this number.
pub fn numbered(number: usize) -> TableName
    requires { number < TABLES }
    ensures table { result ≡ table_numbered number }
    ensures coefficients { IsTrue (is_coefficients result) }
{
    match number {
        0 => TableName::CoeffZero,
        1 => TableName::CoeffFirst,
        _ => TableName::CoeffOne,
    }
}
