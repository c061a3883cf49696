ghost use Rattle.std.specs.Prelude.{◌≡◌, ◌≢◌, ◌≤◌, ◌<◌, ◌^◌, ◌+◌, ℕ, [], ◌∷◌, ◌++◌, IsTrue};
ghost use Rattle.bit_lists.specs.Fields.{flag};
ghost use Rattle.prefix_codes.specs.TableName.{Begins, is_coefficients};
ghost use Rattle.picture_grammar.specs.Block.{signed, escape_level};
ghost use Rattle.block_coeffs.specs.Private.Standing.{IsFound};
ghost use Rattle.grammar_reading.specs.Window.{seen};

use crate::cut::why_none;
use crate::short_codes::word_of;
use crate::why::Why;
use grammar_reading::BitWindow;
use picture_grammar::escape::{LEVEL_BITS, RUN_BITS};
use prefix_codes::symbol::{END_OF_BLOCK, ESCAPE, LEVELS_PER_RUN};
use prefix_codes::{TableName, WINDOW_BITS, find, find_whole};
use syntax_types::BLOCK_PLACES;

/// The level of an escape that is forbidden beside 0: -2048 in two's complement (Table B-16).
const FORBIDDEN_LEVEL: u32 = 1 << (LEVEL_BITS - 1);

/// What stands at the front of a window where a coefficient or the end of block must come (6.2.6).
#[derive(Clone, Copy)]
pub enum Standing {
    /// The end of block, in so many bits.
    EndOfBlock { len: u32 },
    /// A coefficient, by a word of `short_codes`, and the place behind it.
    Pair { word: u32, next: u32 },
    /// Neither, for this reason, behind so many bits.
    Refused { why: Why, behind: u32 },
}

/// What stands at the front of a window, by a table of coefficients, at a place of the block: one look-up.
pub fn what_stands(table: TableName, place: u32, window: BitWindow) -> Standing
    requires table { IsTrue (is_coefficients table) }
    requires place { place ≤ BLOCK_PLACES }
    ensures { IsFound table place window result }
{
    let Some((symbol, len)) = find(table, window.bits, window.known) else {
        return Standing::Refused {
            why: why_none(table, place, window),
            behind: 0,
        };
    };
    let len = u32::from(len);
    if symbol < END_OF_BLOCK {
        by_table(place, window, symbol, len)
    } else if symbol == END_OF_BLOCK {
        Standing::EndOfBlock { len }
    } else {
        escaped(place, window)
    }
}

/// The same where the window is whole: then a code of the table has its sign there.
#[inline(always)]
pub fn what_stands_whole(table: TableName, place: u32, window: BitWindow) -> Standing
    requires table { IsTrue (is_coefficients table) }
    requires place { place ≤ BLOCK_PLACES }
    requires whole { window.known ≡ WINDOW_BITS }
    ensures { IsFound table place window result }
{
    let Some((symbol, len)) = find_whole(table, window.bits) else {
        return Standing::Refused {
            why: why_none(table, place, window),
            behind: 0,
        };
    };
    let len = u32::from(len);
    if symbol < END_OF_BLOCK {
        with_sign_behind(place, window, symbol, len)
    } else if symbol == END_OF_BLOCK {
        Standing::EndOfBlock { len }
    } else {
        escaped(place, window)
    }
}

/// The coefficient whose code stands there, or its refusal where the bits end before its sign.
fn by_table(place: u32, window: BitWindow, symbol: u16, len: u32) -> Standing
    requires place { place ≤ BLOCK_PLACES }
    requires within { len ≤ window.known }
    ensures { (table : TableName) → IsTrue (is_coefficients table) → symbol ≢ END_OF_BLOCK → symbol ≢ ESCAPE →
        Begins table (seen window window.known) symbol len → IsFound table place window result }
{
    let run = u32::from(symbol / LEVELS_PER_RUN);
    if place + run >= BLOCK_PLACES as u32 {
        return Standing::Refused {
            why: Why::TooMany,
            behind: 0,
        };
    }
    if len == window.known {
        return Standing::Refused {
            why: Why::End,
            behind: len,
        };
    }
    with_sign_behind(place, window, symbol, len)
}

/// The coefficient whose code stands there: its run and the size of its level are the symbol's, and its sign follows.
#[inline(always)]
fn with_sign_behind(place: u32, window: BitWindow, symbol: u16, len: u32) -> Standing
    requires place { place ≤ BLOCK_PLACES }
    requires sign { len < window.known }
    ensures { (table : TableName) → IsTrue (is_coefficients table) → symbol ≢ END_OF_BLOCK → symbol ≢ ESCAPE →
        Begins table (seen window window.known) symbol len → IsFound table place window result }
{
    let run = u32::from(symbol / LEVELS_PER_RUN);
    if place + run >= BLOCK_PLACES as u32 {
        return Standing::Refused {
            why: Why::TooMany,
            behind: 0,
        };
    }
    let level = with_sign(symbol % LEVELS_PER_RUN, bit_at(window, len));
    Standing::Pair {
        word: word_of(run, level, len + 1),
        next: place + run + 1,
    }
}

/// The escape whose code stands there, with its run and its level (7.2.2.3). Where the bits end within it, the zeros
/// past them make its run the least that it may have.
#[cold]
fn escaped(place: u32, window: BitWindow) -> Standing
    requires { place ≤ BLOCK_PLACES }
    ensures { (table : TableName) (len : ℕ) → IsTrue (is_coefficients table) →
        Begins table (seen window window.known) ESCAPE len → IsFound table place window result }
{
    let run = (window.bits >> LEVEL_BITS) % (1 << RUN_BITS);
    let level = window.bits % (1 << LEVEL_BITS);
    let why = if place + run >= BLOCK_PLACES as u32 {
        Why::TooMany
    } else if window.known < WINDOW_BITS {
        Why::End
    } else if level == 0 || level == FORBIDDEN_LEVEL {
        Why::BadEscape
    } else {
        return Standing::Pair {
            word: word_of(run, in_twos_complement(level), WINDOW_BITS),
            next: place + run + 1,
        };
    };
    Standing::Refused { why, behind: 0 }
}

/// The bit behind so many bits of a window.
#[inline]
fn bit_at(window: BitWindow, index: u32) -> bool
    requires { index < WINDOW_BITS }
    ensures { seen window (index + 1) ≡ seen window index ++ flag result ∷ [] }
{
    ((window.bits << index) >> (WINDOW_BITS - 1)) % 2 == 1
}

/// A level by its size and its sign.
#[inline]
fn with_sign(size: u16, negative: bool) -> i16
    requires { size < LEVELS_PER_RUN }
    ensures { result ≡ signed size negative }
{
    let size = size as i16;
    if negative { -size } else { size }
}

/// The level of an escape (Table B-16).
#[inline]
fn in_twos_complement(level: u32) -> i16
    requires { level < 2 ^ LEVEL_BITS }
    ensures { result ≡ escape_level level }
{
    if level < FORBIDDEN_LEVEL {
        level as i16
    } else {
        level as i16 - (1 << LEVEL_BITS)
    }
}
