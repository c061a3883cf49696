//! How many bits the head of a macroblock is written in: what of it depends on its coefficients, besides these.
ghost use Rattle.std.specs.Prelude.{◌≡◌, ◌≤◌, ◌+◌, ◌^◌, length, if◌then◌else◌, []};
ghost use Rattle.bit_lists.specs.Bits.{bits_of};
ghost use Rattle.prefix_codes.specs.declared.table_name.TableName.TheVariants.{Pattern};
ghost use Rattle.picture_grammar.specs.Macroblock.{type_symbol as symbol_of_kind, type_table as table_of_types};
ghost use Rattle.picture_grammar.specs.Written.{if_any, written_increment};
ghost use Rattle.prefix_codes.specs.TableName.{code_for};
ghost use Rattle.macroblock_writer.specs.Parts.{head_length, kind_length};

use crate::increment::ESCAPE_INCREMENT;
use crate::modes::type_symbol;
use picture_grammar::stands::{has_dct_type, type_table};
use prefix_codes::{TableName, code_bits, symbol};
use syntax_types::{Kind, PicCoding};

/// The bits of a macroblock's head behind so many skipped ones: macroblock_address_increment, macroblock_type, and dct_type,
/// quantiser_scale_code and coded_block_pattern where they stand (ISO/IEC 13818-2, 6.2.5, 6.2.5.1 and 6.2.5.3).
pub fn head_bits(
    coding: &PicCoding,
    skipped_before: u16,
    kind: Kind,
    code: Option<u8>,
    pattern: u8,
) -> u32
    ensures value { result ≡ head_length coding.now skipped_before kind code pattern }
    ensures few { result ≤ 2 ^ 16 + 54 }
{
    increment_bits(u32::from(skipped_before) + 1)
        + kind_bits(coding, kind)
        + quantiser_bits(code)
        + pattern_bits(kind.pattern, pattern)
}

/// The bits of macroblock_type, and of dct_type where it stands.
#[inline]
pub fn kind_bits(coding: &PicCoding, kind: Kind) -> u32
    ensures value { result ≡ kind_length coding.now kind }
    ensures few { result ≤ 25 }
{
    type_bits(coding, kind) + bits_where(has_dct_type(coding, kind), 1)
}

/// The bits of macroblock_address_increment: macroblock_escape as often as it goes, then a code from 1 to 33.
#[inline]
pub fn increment_bits(increment: u32) -> u32
    requires some { 1 ≤ increment }
    requires most { increment ≤ 2 ^ 16 }
    ensures value { result ≡ length (written_increment increment) }
    ensures few { result ≤ 2 ^ 16 }
{
    if increment <= ESCAPE_INCREMENT {
        return code_bits(TableName::Address, increment as u16);
    }
    let escapes = (increment - 1) / ESCAPE_INCREMENT;
    let left = increment - ESCAPE_INCREMENT * escapes;
    escapes * code_bits(TableName::Address, symbol::ADDRESS_ESCAPE)
        + code_bits(TableName::Address, left as u16)
}

// macroblock_type.
#[inline]
fn type_bits(coding: &PicCoding, kind: Kind) -> u32
    ensures value { result ≡ length (code_for (table_of_types coding.now) (symbol_of_kind kind)) }
    ensures few { result ≤ 24 }
{
    code_bits(type_table(coding), type_symbol(kind))
}

// quantiser_scale_code where it stands.
#[inline]
fn quantiser_bits(code: Option<u8>) -> u32
    ensures value { result ≡ length (if_any (bits_of 5) code) }
    ensures few { result ≤ 5 }
{
    match code {
        Some(_code) => 5,
        None => 0,
    }
}

/// The bits of coded_block_pattern where it stands.
#[inline]
pub fn pattern_bits(stands: bool, pattern: u8) -> u32
    ensures value { result ≡ length (if stands then code_for Pattern pattern else []) }
    ensures few { result ≤ 24 }
{
    if stands {
        code_bits(TableName::Pattern, u16::from(pattern))
    } else {
        0
    }
}

/// So many bits where something stands.
#[inline]
pub fn bits_where(stands: bool, n: u32) -> u32
    ensures { result ≡ (if stands then n else 0) }
{
    if stands { n } else { 0 }
}
