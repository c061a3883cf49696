ghost use Rattle.std.specs.Prelude.{◌≡◌, ◌≤◌, ℕ, ◌↔◌, List, IsTrue};
ghost use Rattle.prefix_codes.specs.TableName.{Begins, is_coefficients};
ghost use Rattle.block_coeffs.specs.Private.Why.{IsWhy};
ghost use Rattle.block_coeffs.specs.Private.Cut.{symbol_fits, BeginAllowed};
ghost use Rattle.grammar_reading.specs.Window.{seen, ShowsFront};

use crate::why::Why;
use grammar_reading::{BitWindow, begins_code};
use prefix_codes::symbol::{END_OF_BLOCK, ESCAPE, LEVELS_PER_RUN};
use prefix_codes::{TableName, WINDOW_BITS};
use syntax_types::BLOCK_PLACES;

/// Why nothing stands at bits that no code of the table begins: they end within a code that may stand at the place, or
/// within one that leads past the block's last place alone, or no code stands there.
#[cold]
#[inline(never)]
pub fn why_none(table: TableName, place: u32, window: BitWindow) -> Why
    requires table { IsTrue (is_coefficients table) }
    requires place { place ≤ BLOCK_PLACES }
    requires none { (symbol len : ℕ) → Begins table (seen window window.known) symbol len → ⊥ }
    ensures { (bits : List ℕ) → ShowsFront window bits → IsWhy table place result bits }
{
    if window.known == WINDOW_BITS {
        Why::NoCode
    } else if may_begin(table, place, window) {
        Why::End
    } else if may_begin(table, 0, window) {
        Why::TooMany
    } else {
        Why::NoCode
    }
}

/// Whether the known bits begin a code of the table that may stand at the place.
fn may_begin(table: TableName, place: u32, window: BitWindow) -> bool
    requires table { IsTrue (is_coefficients table) }
    requires place { place ≤ BLOCK_PLACES }
    ensures { IsTrue result ↔ BeginAllowed table place (seen window window.known) }
{
    for symbol in 0..ESCAPE + 1 {
        if fits(symbol, place) && begins_code(table, symbol, window) {
            return true;
        }
    }
    false
}

/// Whether a coefficient with this symbol may stand at a place: the end of block everywhere, an escape where any run is
/// left.
fn fits(symbol: u16, place: u32) -> bool
    requires { place ≤ BLOCK_PLACES }
    ensures { result ≡ symbol_fits place symbol }
{
    let least_run = if symbol == ESCAPE {
        0
    } else {
        u32::from(symbol / LEVELS_PER_RUN)
    };
    symbol == END_OF_BLOCK || place + least_run < BLOCK_PLACES as u32
}
