//! What stands in a macroblock beside its vectors and blocks, and where.
ghost use Rattle.std.specs.Prelude.{◌≡◌, ◌<◌, ◌^◌, ◌≤◌, [], ◌∷◌, true, false, IfSome, if◌then◌else◌};
ghost use Rattle.bit_lists.specs.Bits.{bits_of};
ghost use Rattle.bit_lists.specs.Fields.{flag};
ghost use Rattle.bit_cursor.specs.BitWriter.{is_stopped, Writes};
ghost use Rattle.picture_grammar.specs.Macroblock.{type_symbol as symbol_of_kind};
ghost use Rattle.picture_grammar.specs.Written.{if_any};

use bit_cursor::BitWriter;
use prefix_codes::{TableName, symbol};
use shelf_io::{Fault, Sink};
use syntax_types::Kind;

/// The symbol of macroblock_type.
pub fn type_symbol(kind: Kind) -> u16
    ensures { result ≡ symbol_of_kind kind }
{
    symbol::QUANT * u16::from(kind.quant)
        + symbol::FORWARD * u16::from(kind.forward)
        + symbol::BACKWARD * u16::from(kind.backward)
        + symbol::PATTERN * u16::from(kind.pattern)
        + symbol::INTRA * u16::from(kind.intra)
}

/// Writes a number in n bits where it stands, and nothing elsewhere.
pub fn put_where<K: Sink>(
    to: &mut BitWriter<'_, K>,
    stands: bool,
    value: u32,
    n: u32,
) -> Result<(), Fault>
    requires goes { is_stopped to.old ≡ false }
    requires number { value < 2 ^ n }
    requires width { n ≤ 32 }
    ensures { Writes K.written K.faults K.keeps to.old to.new result (if stands then bits_of n value else []) }
{
    if stands {
        to.put_bits(value, n)
    } else {
        Ok(())
    }
}

/// Writes a flag where it stands, and nothing elsewhere.
pub fn put_flag_where<K: Sink>(
    to: &mut BitWriter<'_, K>,
    stands: bool,
    is_set: bool,
) -> Result<(), Fault>
    requires goes { is_stopped to.old ≡ false }
    ensures { Writes K.written K.faults K.keeps to.old to.new result (if stands then flag is_set ∷ [] else []) }
{
    if stands {
        to.put_bits(u32::from(is_set), 1)
    } else {
        Ok(())
    }
}

/// Writes quantiser_scale_code where it stands.
pub fn write_code_where<K: Sink>(to: &mut BitWriter<'_, K>, code: Option<u8>) -> Result<(), Fault>
    requires goes { is_stopped to.old ≡ false }
    requires number { IfSome code (λ code. code < 2 ^ 5) }
    ensures { Writes K.written K.faults K.keeps to.old to.new result (if_any (bits_of 5) code) }
{
    match code {
        Some(code) => to.put_bits(u32::from(code), 5),
        None => Ok(()),
    }
}
