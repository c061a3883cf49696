//! macroblock_address_increment with the escapes before it (6.2.5, 6.3.17).
ghost use Rattle.std.specs.Prelude.{◌≡◌, ◌<◌, ◌≤◌, IfOk};
ghost use Rattle.picture_grammar.specs.Macroblock.{address_increment, most_increment as most_of};
ghost use Rattle.macroblock_reader.specs.Private.Answers.{Answers};

use crate::elements::read_symbol;
use crate::fault::SliceFault;
use crate::why::Why;
use bit_cursor::BitReader;
use picture_grammar::limits::ESCAPE_INCREMENT;
use prefix_codes::TableName;
use prefix_codes::symbol::ADDRESS_ESCAPE;
use shelf_io::Source;
use syntax_types::{I_PICTURE, PicCoding};

/// How far the address rises, at most so far.
#[inline]
pub fn read_increment<S: Source>(from: &mut BitReader<'_, S>, most: u16) -> Result<u16, SliceFault>
    ensures answers { Answers ⊥ (address_increment most) result from.old from.new }
    ensures some { IfOk result (λ increment. 0 < increment) }
    ensures within { IfOk result (λ increment. increment ≤ most) }
{
    let mut left = most;
    'escapes: loop {
        let symbol = read_symbol(from, TableName::Address, left, Why::BadAddress)?;
        if symbol != ADDRESS_ESCAPE {
            return Ok(most - left + symbol);
        }
        left -= ESCAPE_INCREMENT;
    }
}

/// How far the address may rise.
#[inline]
pub fn most_increment(coding: &PicCoding, first: bool, columns_left: u16) -> u16
    ensures value { result ≡ most_of coding.now first columns_left }
    ensures within { result ≤ columns_left }
{
    if coding.kind == I_PICTURE && !first {
        columns_left.min(1)
    } else {
        columns_left
    }
}
