ghost use Rattle.std.specs.Prelude.{◌≡◌, ◌<◌, ◌^◌, slice_index};
ghost use Rattle.prefix_codes.specs.declared.table_name.TableName.TheVariants.{CoeffZero, CoeffFirst, CoeffOne};
ghost use Rattle.block_coeffs.specs.Private.ShortCodes.{words_of, run_of, level_of, length_of};

mod words;

use prefix_codes::TableName;
use words::{FIRST_WORDS, ONE_WORDS, ZERO_WORDS};

/// How many of a window's first bits have a word.
pub const SHORT_BITS: u32 = 9;

/// Words from this one on are those of coefficients.
pub const PAIR_WORDS: u32 = 1 << 16;

/// What these first bits of a window stand for by a table of coefficients, where they have its whole code, the sign with it.
///
/// From `PAIR_WORDS` on a word is a coefficient: its run, how many bits it has, and its level. Below, it is the end of block,
/// and 0 where the bits don't tell.
#[inline(always)]
pub fn short_word(table: TableName, front: u32) -> u32
    requires { front < 2 ^ SHORT_BITS }
    ensures { result ≡ slice_index (words_of table) front }
{
    match table {
        TableName::Address => 0,
        TableName::TypeI => 0,
        TableName::TypeP => 0,
        TableName::TypeB => 0,
        TableName::Pattern => 0,
        TableName::Motion => 0,
        TableName::DcLuma => 0,
        TableName::DcChroma => 0,
        TableName::CoeffZero => zero_word(front),
        TableName::CoeffFirst => first_word(front),
        TableName::CoeffOne => one_word(front),
    }
}

#[inline(always)]
#[tactic(auto, unfolding(crate::specs::Private::ShortCodes::words_of))]
fn zero_word(front: u32) -> u32
    requires { front < 2 ^ SHORT_BITS }
    ensures { result ≡ slice_index (words_of CoeffZero) front }
{
    ZERO_WORDS[front as usize]
}

#[inline(always)]
#[tactic(auto, unfolding(crate::specs::Private::ShortCodes::words_of))]
fn first_word(front: u32) -> u32
    requires { front < 2 ^ SHORT_BITS }
    ensures { result ≡ slice_index (words_of CoeffFirst) front }
{
    FIRST_WORDS[front as usize]
}

#[inline(always)]
#[tactic(auto, unfolding(crate::specs::Private::ShortCodes::words_of))]
fn one_word(front: u32) -> u32
    requires { front < 2 ^ SHORT_BITS }
    ensures { result ≡ slice_index (words_of CoeffOne) front }
{
    ONE_WORDS[front as usize]
}

/// The run in a word.
#[inline(always)]
pub fn run_in(word: u32) -> u32
    ensures place { result ≡ run_of word }
    ensures few { result < 2 ^ 8 }
{
    word % (1 << 8)
}

/// The length in a word, in bits with the sign.
#[inline(always)]
pub fn length_in(word: u32) -> u32
    ensures { result ≡ length_of word }
{
    (word >> 8) % (1 << 8)
}

/// The level in a word.
#[inline(always)]
pub fn level_in(word: u32) -> i16
    ensures { result ≡ level_of word }
{
    ((word >> 16) as u16).cast_signed()
}

/// The word of a coefficient.
#[inline(always)]
pub fn word_of(run: u32, level: i16, len: u32) -> u32
    requires run { run < 2 ^ 8 }
    requires len { len < 2 ^ 8 }
    ensures run { run_of result ≡ run }
    ensures len { length_of result ≡ len }
    ensures level { level_of result ≡ level }
{
    u32::from(level.cast_unsigned()) * (1 << 16) + len * (1 << 8) + run
}
