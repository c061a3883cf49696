ghost use Rattle.std.specs.Prelude.{◌≡◌, ◌-◌, ◌≤◌, ◌<◌, ◌^◌, unsigned_abs};
ghost use Rattle.bit_lists.specs.Bits.{bits_of};
ghost use Rattle.picture_grammar.specs.Written.{level_bits};
ghost use Rattle.prefix_codes.specs.TableName.{code_for as bits_for};

use picture_grammar::escape::LEVEL_BITS;
use prefix_codes::{Code, TableName, WINDOW_BITS, code_of};

/// The code of a symbol, and no bits where the table lacks it.
pub fn code_for(table: TableName, symbol: u16) -> Code
    ensures code { bits_of result.len result.bits ≡ bits_for table symbol }
    ensures fits { result.bits < 2 ^ result.len }
    ensures len { result.len ≤ WINDOW_BITS }
{
    match code_of(table, symbol) {
        Some(code) => code,
        None => Code { bits: 0, len: 0 },
    }
}

/// A level behind an escape: 12 bits of two's complement (Table B-16).
pub fn level_field(level: i16) -> u32
    requires { unsigned_abs level < 2 ^ (LEVEL_BITS - 1) }
    ensures field { result ≡ level_bits level }
    ensures fits { result < 2 ^ LEVEL_BITS }
{
    let size = u32::from(level.unsigned_abs());
    if level < 0 {
        (1 << LEVEL_BITS) - size
    } else {
        size
    }
}
