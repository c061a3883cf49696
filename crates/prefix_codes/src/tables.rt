ghost use Rattle.std.specs.Prelude.{◌≡◌};
ghost use Rattle.prefix_codes.specs.Private.Levels.{first_of, second_of};
ghost use Rattle.prefix_codes.specs.Private.Codes.{codes_of};

use crate::table_name::TableName;

pub mod coefficients;
pub mod macroblocks;

/// How many of a window's first bits a first level tells apart.
pub const FIRST_BITS: u32 = 8;

/// A word has a length in its lowest bits, so many.
pub const LENGTH_BITS: u32 = 8;

/// It has a number behind the length, in so many bits.
pub const NUMBER_BITS: u32 = 16;

/// Words of a first level from this one on lead to the second levels.
pub const LINK: u32 = 1 << 31;

/// The first level of a table: a word for each value of a window's first `FIRST_BITS` bits.
///
/// Below `LINK` a word's length and number are the length and the symbol of the code that stands there, and the word is 0
/// where none does. From `LINK` on the code is longer: the length says how many more bits tell it, and the number where
/// the words for their values begin in the second levels.
pub fn first_level(table: TableName) -> &'static [u32; 256]
    ensures { result.now ≡ first_of table }
{
    match table {
        TableName::Address => &macroblocks::ADDRESS_FIRST,
        TableName::TypeI => &macroblocks::TYPE_I_FIRST,
        TableName::TypeP => &macroblocks::TYPE_P_FIRST,
        TableName::TypeB => &macroblocks::TYPE_B_FIRST,
        TableName::Pattern => &macroblocks::PATTERN_FIRST,
        TableName::Motion => &macroblocks::MOTION_FIRST,
        TableName::DcLuma => &macroblocks::DC_LUMA_FIRST,
        TableName::DcChroma => &macroblocks::DC_CHROMA_FIRST,
        TableName::CoeffZero => &coefficients::COEFF_ZERO_FIRST,
        TableName::CoeffFirst => &coefficients::COEFF_FIRST_FIRST,
        TableName::CoeffOne => &coefficients::COEFF_ONE_FIRST,
    }
}

/// The second levels of a table, one behind the other.
pub fn second_levels(table: TableName) -> &'static [u32]
    ensures { result.now ≡ second_of table }
{
    match table {
        TableName::Address => &macroblocks::ADDRESS_SECOND,
        TableName::TypeI => &[],
        TableName::TypeP => &[],
        TableName::TypeB => &[],
        TableName::Pattern => &macroblocks::PATTERN_SECOND,
        TableName::Motion => &macroblocks::MOTION_SECOND,
        TableName::DcLuma => &macroblocks::DC_LUMA_SECOND,
        TableName::DcChroma => &macroblocks::DC_CHROMA_SECOND,
        TableName::CoeffZero => &coefficients::COEFF_ZERO_SECOND,
        TableName::CoeffFirst => &coefficients::COEFF_ZERO_SECOND,
        TableName::CoeffOne => &coefficients::COEFF_ONE_SECOND,
    }
}

/// The codes of a table by their places: a word's number is the value of the code's bits. It is 0 where there is none.
pub fn codes(table: TableName) -> &'static [u32]
    ensures { result.now ≡ codes_of table }
{
    match table {
        TableName::Address => &macroblocks::ADDRESS_CODES,
        TableName::TypeI => &macroblocks::TYPE_I_CODES,
        TableName::TypeP => &macroblocks::TYPE_P_CODES,
        TableName::TypeB => &macroblocks::TYPE_B_CODES,
        TableName::Pattern => &macroblocks::PATTERN_CODES,
        TableName::Motion => &macroblocks::MOTION_CODES,
        TableName::DcLuma => &macroblocks::DC_LUMA_CODES,
        TableName::DcChroma => &macroblocks::DC_CHROMA_CODES,
        TableName::CoeffZero => &coefficients::COEFF_ZERO_CODES,
        TableName::CoeffFirst => &coefficients::COEFF_FIRST_CODES,
        TableName::CoeffOne => &coefficients::COEFF_ONE_CODES,
    }
}
