ghost use Rattle.std.specs.Prelude.{◌≡◌, ◌-◌, ◌/◌, ◌%◌, ◌<◌, ◌≤◌, ◌^◌, ◌↔◌, ℕ, IfSome, IfNone, IsTrue, length as count, slice_index};
ghost use Rattle.bit_lists.specs.Bits.{bits_of, front_of};
ghost use Rattle.prefix_codes.specs.TableName.{code_for, code_in, coefficient_code as code_of_coefficient, is_coefficients, Begins};
ghost use Rattle.prefix_codes.specs.Private.Words.{number_in, length_in};
ghost use Rattle.prefix_codes.specs.Private.Levels.{first_of, Answers};
ghost use Rattle.prefix_codes.specs.Private.Codes.{coefficient_place as place_of_coefficient, place_of as place_of_symbol, code_word, run_place as first_place};

use crate::code::Code;
use crate::symbol::{END_OF_BLOCK, ESCAPE, LEVELS_PER_RUN, RUNS};
use crate::table_name::TableName;
use crate::tables::coefficients::RUN_PLACES;
use crate::tables::{
    FIRST_BITS, LENGTH_BITS, LINK, NUMBER_BITS, codes, first_level, second_levels,
};

/// The number of bits of a window.
pub const WINDOW_BITS: u32 = 24;

/// Words of a first level from this one on aren't those of a symbol below `END_OF_BLOCK`.
const RARE_WORDS: u32 = (END_OF_BLOCK as u32) << LENGTH_BITS;

/// A place past the codes of every table.
const NO_PLACE: usize = 255;

/// The symbol and the length in bits of the code that stands at the front of some bits: the first `known` bits of a
/// window, which are the lowest 24 of its number, the first one the most significant.
///
/// None where no code of the table begins these bits, also where they are too few.
#[inline]
pub fn find(table: TableName, window: u32, known: u32) -> Option<(u16, u8)>
    ensures front { (symbol len : ℕ) →
        (result ≡ Some (symbol, len)) ↔ Begins table (front_of WINDOW_BITS window known) symbol len }
    ensures len { IfSome result (λ found. (0 < found.1) × (found.1 ≤ known)) }
{
    let word = word_at(table, window);
    let len = length(word);
    if len == 0 {
        return None;
    }
    if u32::from(len) > known {
        return None;
    }
    Some((number(word), len))
}

/// The same where all bits of the window are known. Most codes of a picture have at most `FIRST_BITS` bits and a symbol below
/// `END_OF_BLOCK`: one comparison tells them from all others.
#[inline(always)]
pub fn find_whole(table: TableName, window: u32) -> Option<(u16, u8)>
    ensures front { (symbol len : ℕ) →
        (result ≡ Some (symbol, len)) ↔ Begins table (front_of WINDOW_BITS window WINDOW_BITS) symbol len }
    ensures len { IfSome result (λ found. (0 < found.1) × (found.1 ≤ WINDOW_BITS)) }
{
    let first = first_word(table, window);
    let word = if 0 < first && first < RARE_WORDS {
        first
    } else {
        let last = last_word(table, window, first);
        let len = length(last);
        if len == 0 {
            return None;
        }
        if last >= RARE_WORDS {
            return Some((number(last), len));
        }
        last
    };
    Some((number(word), length(word)))
}

/// The code that a symbol is written by, without the sign bit of a motion code or a level. None where the table lacks
/// the symbol.
///
/// Ask for a coefficient only where its run is below `symbol::RUNS` and its level below `symbol::LEVELS_PER_RUN`: run 62
/// with level 32 would be the end of block, and run 0 with level 65 run 1 with level 1.
#[inline]
pub fn code_of(table: TableName, symbol: u16) -> Option<Code>
    ensures code { IfSome result (λ code. code_in table symbol ≡ Some (bits_of code.len code.bits)) }
    ensures fits { IfSome result (λ code. code.bits < 2 ^ code.len) }
    ensures len { IfSome result (λ code. (0 < code.len) × (code.len ≤ WINDOW_BITS)) }
    ensures none { IfNone result (code_in table symbol ≡ None) }
{
    in_word(word_of(table, place_of(table, symbol)))
}

/// The bits of the code of a symbol, none where the table lacks it.
#[inline]
pub fn code_bits(table: TableName, symbol: u16) -> u32
    ensures value { result ≡ count (code_for table symbol) }
    ensures few { result ≤ 24 }
{
    match code_of(table, symbol) {
        Some(code) => u32::from(code.len),
        None => 0,
    }
}

/// The code of a run and the size of a level without its sign bit, by a table of coefficients. None where the table lacks
/// it, also past the runs and levels that tables have.
#[inline]
pub fn coefficient_code(table: TableName, run: u8, size: u16) -> Option<Code>
    requires { IsTrue (is_coefficients table) }
    ensures code { IfSome result (λ code. code_of_coefficient table run size ≡ Some (bits_of code.len code.bits)) }
    ensures fits { IfSome result (λ code. code.bits < 2 ^ code.len) }
    ensures len { IfSome result (λ code. (0 < code.len) × (code.len ≤ WINDOW_BITS)) }
    ensures none { IfNone result (code_of_coefficient table run size ≡ None) }
{
    in_word(word_of(table, coefficient_place(u16::from(run), size)))
}

// ---- levels

/// The word of the code that begins a window, all of whose bits are known.
#[inline]
fn word_at(table: TableName, window: u32) -> u32
    ensures { Answers table (bits_of WINDOW_BITS window) result }
{
    last_word(table, window, first_word(table, window))
}

/// The word of the first level for a window.
#[inline]
fn first_word(table: TableName, window: u32) -> u32
    ensures { result ≡ slice_index (first_of table) (window / 2 ^ (WINDOW_BITS - FIRST_BITS) % 2 ^ FIRST_BITS) }
{
    let place = (window >> (WINDOW_BITS - FIRST_BITS)) % (1 << FIRST_BITS);
    first_level(table)[place as usize]
}

/// The word to which that one leads: itself, or one of the second levels.
#[inline]
fn last_word(table: TableName, window: u32, word: u32) -> u32
    requires { word ≡ slice_index (first_of table) (window / 2 ^ (WINDOW_BITS - FIRST_BITS) % 2 ^ FIRST_BITS) }
    ensures { Answers table (bits_of WINDOW_BITS window) result }
{
    if word < LINK {
        word
    } else {
        linked(table, window, word)
    }
}

/// The word of a code that is longer than the first level's bits, by the first level's word.
fn linked(table: TableName, window: u32, link: u32) -> u32
    requires is { link ≡ slice_index (first_of table) (window / 2 ^ (WINDOW_BITS - FIRST_BITS) % 2 ^ FIRST_BITS) }
    requires longer { LINK ≤ link }
    ensures { Answers table (bits_of WINDOW_BITS window) result }
{
    let more = u32::from(length(link));
    let place = (window >> (WINDOW_BITS - FIRST_BITS - more)) % (1 << more);
    second_levels(table)[usize::from(number(link)) + place as usize]
}

// ---- codes

/// The place of a symbol's code among those of its table, and a place past them where it has none.
#[inline]
fn place_of(table: TableName, symbol: u16) -> usize
    ensures { result ≡ place_of_symbol table symbol }
{
    match table {
        TableName::CoeffZero | TableName::CoeffFirst | TableName::CoeffOne => match symbol {
            END_OF_BLOCK => 0,
            ESCAPE => 1,
            _ => coefficient_place(symbol / LEVELS_PER_RUN, symbol % LEVELS_PER_RUN),
        },
        _ => usize::from(symbol),
    }
}

/// The place of the code of a run and the size of a level.
#[inline]
fn coefficient_place(run: u16, size: u16) -> usize
    ensures { result ≡ place_of_coefficient run size }
{
    if run >= RUNS || size == 0 {
        return NO_PLACE;
    }
    let place = run_place(run) + usize::from(size) - 1;
    if place < run_place(run + 1) {
        place
    } else {
        NO_PLACE
    }
}

/// The first place of a run's codes.
#[inline]
#[tactic(auto, unfolding(crate::specs::Private::Codes::run_place))]
fn run_place(run: u16) -> usize
    requires { run ≤ RUNS }
    ensures place { result ≡ first_place run }
    ensures few { result < 2 ^ 8 }
{
    usize::from(RUN_PLACES[usize::from(run)])
}

/// The word at a place among the codes of a table, 0 past them.
#[inline]
fn word_of(table: TableName, place: usize) -> u32
    ensures { result ≡ code_word table place }
{
    let words = codes(table);
    if place < words.len() { words[place] } else { 0 }
}

/// The code that a word of codes holds.
#[inline]
fn in_word(word: u32) -> Option<Code>
    ensures some { IfSome result (λ code. (0 < code.len) × (code.len ≡ length_in word) × (code.bits ≡ number_in word)) }
    ensures none { IfNone result (length_in word ≡ 0) }
{
    let len = length(word);
    if len == 0 {
        None
    } else {
        Some(Code {
            bits: u32::from(number(word)),
            len,
        })
    }
}

// ---- words

/// The number in a word.
#[inline]
fn number(word: u32) -> u16
    ensures { result ≡ number_in word }
{
    ((word >> LENGTH_BITS) % (1 << NUMBER_BITS)) as u16
}

/// The length in a word.
#[inline]
fn length(word: u32) -> u8
    ensures { result ≡ length_in word }
{
    (word % (1 << LENGTH_BITS)) as u8
}
