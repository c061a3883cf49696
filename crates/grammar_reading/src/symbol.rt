ghost use Rattle.std.specs.Prelude.{◌↔◌, ℕ, Some, IsTrue};
ghost use Rattle.prefix_codes.specs.TableName.{Begins};
ghost use Rattle.grammar_reading.specs.Window.{seen};
ghost use Rattle.grammar_reading.specs.Symbol.{IsSymbolFound, IsNoneFound};
ghost use Rattle.grammar_reading.specs.Cut.{BeginsCode};
ghost use Rattle.grammar_reading.specs.Private.Cut.{BeginsCodeUpTo};

use crate::window::BitWindow;
use prefix_codes::symbol::ESCAPE;
use prefix_codes::{TableName, WINDOW_BITS, code_of, find};

/// The greatest symbol of all tables.
pub const SYMBOL_MOST: u16 = ESCAPE;

/// What stands at the front of a window where a code of a table must stand.
#[derive(Clone, Copy)]
pub enum SymbolFound {
    /// A code, of so many bits.
    Symbol { symbol: u16, len: u32 },
    /// No code.
    NoCode,
    /// Codes of greater symbols than may stand there, or the front of such codes and of no others.
    PastMost,
    /// The bits end within a code that may stand there.
    Cut,
}

/// What stands at the front of a window where a code of the table must stand, of a symbol up to this one: one look-up.
#[inline]
pub fn what_symbol(table: TableName, most: u16, window: BitWindow) -> SymbolFound
    ensures { IsSymbolFound table most window result }
{
    let Some((symbol, len)) = find(table, window.bits, window.known) else {
        return why_none(table, most, window);
    };
    if symbol > most {
        return SymbolFound::PastMost;
    }
    SymbolFound::Symbol {
        symbol,
        len: u32::from(len),
    }
}

/// Why no code stands there: the known bits end within codes, or no code begins as they do.
#[cold]
#[inline(never)]
fn why_none(table: TableName, most: u16, window: BitWindow) -> SymbolFound
    requires { (symbol len : ℕ) → Begins table (seen window window.known) symbol len → ⊥ }
    ensures { IsNoneFound table most window result }
{
    if window.known == WINDOW_BITS {
        SymbolFound::NoCode
    } else if begins_up_to(table, most, window) {
        SymbolFound::Cut
    } else if begins_up_to(table, SYMBOL_MOST, window) {
        SymbolFound::PastMost
    } else {
        SymbolFound::NoCode
    }
}

/// Whether the known bits begin the code of a symbol up to this one.
fn begins_up_to(table: TableName, most: u16, window: BitWindow) -> bool
    ensures { IsTrue result ↔ BeginsCodeUpTo table most (seen window window.known) }
{
    for symbol in 0..=most {
        if begins_code(table, symbol, window) {
            return true;
        }
    }
    false
}

/// Whether the known bits begin the code of a symbol.
pub fn begins_code(table: TableName, symbol: u16, window: BitWindow) -> bool
    ensures { IsTrue result ↔ BeginsCode table symbol (seen window window.known) }
{
    let Some(code) = code_of(table, symbol) else {
        return false;
    };
    let len = u32::from(code.len);
    window.known <= len
        && code.bits >> (len - window.known)
            == window.bits % (1 << WINDOW_BITS) >> (WINDOW_BITS - window.known)
}
