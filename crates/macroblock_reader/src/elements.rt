//! Elements of macroblocks: numbers, flags and codes of tables, each refused at its own place.
ghost use Rattle.std.specs.Prelude.{◌≡◌, ◌<◌, ◌≤◌, [], ◌∷◌, ◌==◌, not, false, None, Some, IfSome, length, if◌then◌else◌};
ghost use Rattle.bit_cursor.specs.BitReader.{bits_left, bits_held};
ghost use Rattle.picture_grammar.specs.Refusal.Refusal.{BadType};
ghost use Rattle.picture_grammar.specs.Grammar.{optional, when};
ghost use Rattle.picture_grammar.specs.Element.{uimsbf, one_flag, marker_bit, rule};
ghost use Rattle.picture_grammar.specs.Macroblock.{quantiser_scale_code};
ghost use Rattle.grammar_reading.specs.Window.{ShowsFront};
ghost use Rattle.grammar_reading.specs.declared.symbol.SymbolFound.TheVariants.{Symbol};
ghost use Rattle.grammar_reading.specs.Symbol.{IsSymbolFound, symbol_up_to};
ghost use Rattle.macroblock_reader.specs.Private.Answers.{Answers, answer_as};
ghost use Rattle.macroblock_reader.specs.Private.Why.{refusal_of, fault_of_bits};

use crate::fault::SliceFault;
use crate::why::Why;
use bit_cursor::{BitFault, BitReader};
use grammar_reading::{
    BitWindow, SymbolFound, held_window, read_flag, read_number, what_symbol, whole_window,
};
use prefix_codes::{TableName, WINDOW_BITS, find_whole};
use shelf_io::Source;

/// Bits of quantiser_scale_code (6.2.4, 6.2.5).
pub const SCALE_CODE_BITS: u32 = 5;

/// The next n bits as a number of at most 16 bits, with no rule.
#[inline]
pub fn read_bits<S: Source>(from: &mut BitReader<'_, S>, n: u32) -> Result<u16, SliceFault>
    requires { n ≤ 16 }
    ensures { Answers ⊥ (uimsbf n []) result from.old from.new }
{
    match read_number(from, n) {
        Ok(number) => Ok(number as u16),
        Err(fault) => Err(fault_at_place(fault, from.place())),
    }
}

/// The next bit as a flag.
#[inline]
pub fn read_bit<S: Source>(from: &mut BitReader<'_, S>) -> Result<bool, SliceFault>
    ensures { Answers ⊥ one_flag result from.old from.new }
{
    match read_flag(from) {
        Ok(is_set) => Ok(is_set),
        Err(fault) => Err(fault_at_place(fault, from.place())),
    }
}

/// A flag that stands only where it is called for, and counts as false elsewhere.
#[inline]
pub fn read_bit_where<S: Source>(
    from: &mut BitReader<'_, S>,
    stands: bool,
) -> Result<bool, SliceFault>
    ensures { Answers ⊥ (when stands one_flag false) result from.old from.new }
{
    if stands { read_bit(from) } else { Ok(false) }
}

/// A number of at most 8 bits that isn't 0.
#[inline]
pub fn read_not_zero<S: Source>(from: &mut BitReader<'_, S>, n: u32) -> Result<u8, SliceFault>
    requires some { 0 < n }
    requires width { n ≤ 8 }
    ensures { Answers ⊥ (uimsbf n (rule BadType (λ number. not (number == 0)) ∷ [])) result from.old from.new }
{
    let at = from.place();
    match from.bits(n) {
        Ok(number) => {
            if number == 0 {
                return Err(SliceFault::BadType { at });
            }
            Ok(number as u8)
        }
        Err(fault) => Err(fault_at_place(fault, at)),
    }
}

/// quantiser_scale_code, where it stands.
#[inline]
pub fn read_code_where<S: Source>(
    from: &mut BitReader<'_, S>,
    stands: bool,
) -> Result<Option<u8>, SliceFault>
    ensures { Answers ⊥ (optional stands quantiser_scale_code) result from.old from.new }
{
    if stands {
        let code = read_not_zero(from, SCALE_CODE_BITS)?;
        return Ok(Some(code));
    }
    Ok(None)
}

/// marker_bit, where it stands, which is 1.
#[inline]
pub fn read_marker_where<S: Source>(
    from: &mut BitReader<'_, S>,
    stands: bool,
) -> Result<(), SliceFault>
    ensures { Answers ⊥ (optional stands (marker_bit BadType)) (answer_as (λ _. if stands then Some 1 else None) result) from.old from.new }
{
    if stands { read_marker(from) } else { Ok(()) }
}

fn read_marker<S: Source>(from: &mut BitReader<'_, S>) -> Result<(), SliceFault>
    ensures { Answers ⊥ (marker_bit BadType) (answer_as (λ _. 1) result) from.old from.new }
{
    let at = from.place();
    match from.bits(1) {
        Ok(bit) => {
            if bit == 0 {
                return Err(SliceFault::BadType { at });
            }
            Ok(())
        }
        Err(fault) => Err(fault_at_place(fault, at)),
    }
}

/// The symbol of a code of a table, up to this one: one look-up. Where none stands the refusal has this reason.
#[inline(always)]
pub fn read_symbol<S: Source>(
    from: &mut BitReader<'_, S>,
    table: TableName,
    most: u16,
    why: Why,
) -> Result<u16, SliceFault>
    ensures { Answers ⊥ (symbol_up_to table most (refusal_of why) (refusal_of why)) result from.old from.new }
{
    if !from.hold_ahead(WINDOW_BITS)? {
        return read_rare_symbol(from, table, most, why);
    }
    let Some((symbol, len)) = whole_symbol(table, most, whole_window(from)) else {
        return read_rare_symbol(from, table, most, why);
    };
    from.skip(len);
    Ok(symbol)
}

/// The same where no such code stands at the front of a whole window, or fewer bits than that are left. The call's answer
/// has a place of its own in this rare branch, which the caller needn't clear beforehand.
#[inline(always)]
fn read_rare_symbol<S: Source>(
    from: &mut BitReader<'_, S>,
    table: TableName,
    most: u16,
    why: Why,
) -> Result<u16, SliceFault>
    ensures { Answers ⊥ (symbol_up_to table most (refusal_of why) (refusal_of why)) result from.old from.new }
{
    match find_rare_symbol(from, table, most, why) {
        Ok(symbol) => Ok(symbol),
        Err(fault) => Err(fault),
    }
}

#[cold]
#[inline(never)]
fn find_rare_symbol<S: Source>(
    from: &mut BitReader<'_, S>,
    table: TableName,
    most: u16,
    why: Why,
) -> Result<u16, SliceFault>
    ensures { Answers ⊥ (symbol_up_to table most (refusal_of why) (refusal_of why)) result from.old from.new }
{
    from.hold_ahead(WINDOW_BITS)?;
    match what_symbol(table, most, held_window(from)) {
        SymbolFound::Symbol { symbol, len } => {
            from.skip(len);
            Ok(symbol)
        }
        SymbolFound::NoCode => Err(why.at(from.place())),
        SymbolFound::PastMost => Err(why.at(from.place())),
        SymbolFound::Cut => Err(Why::End.at(from.place())),
    }
}

/// The symbol of the code that stands at the front of a whole window, and its length in bits. None where none does, or the
/// symbol is past the greatest one that may stand.
#[inline(always)]
fn whole_symbol(table: TableName, most: u16, window: BitWindow) -> Option<(u16, u32)>
    requires { window.known ≡ WINDOW_BITS }
    ensures { IfSome result (λ found. IsSymbolFound table most window (Symbol found.0 found.1)) }
{
    let Some((symbol, len)) = find_whole(table, window.bits) else {
        return None;
    };
    if symbol > most {
        return None;
    }
    Some((symbol, u32::from(len)))
}

/// The fault of a reader of bits, with the place of the element that was asked for.
fn fault_at_place(fault: BitFault, at: u64) -> SliceFault
    ensures { result ≡ fault_of_bits fault at }
{
    match fault {
        BitFault::End => SliceFault::End { at },
        BitFault::Outside(outside) => SliceFault::Outside(outside),
    }
}
