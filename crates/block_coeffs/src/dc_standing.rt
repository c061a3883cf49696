ghost use Rattle.std.specs.Prelude.{ℕ, List, IsTrue};
ghost use Rattle.prefix_codes.specs.TableName.{Begins, is_sizes};
ghost use Rattle.grammar_reading.specs.Window.{seen, ShowsFront};
ghost use Rattle.block_coeffs.specs.Private.DcStanding.{IsWhyNoSize, IsDcFound};

use crate::why::Why;
use grammar_reading::{BitWindow, begins_code};
use prefix_codes::{TableName, WINDOW_BITS, find};
use syntax_types::Dc;

/// The greatest dct_dc_size (Tables B-12 and B-13).
const SIZE_MOST: u16 = 11;

/// What stands at the front of a window where a DC coefficient must come (7.2.1).
#[derive(Clone, Copy)]
pub enum DcStanding {
    /// The coefficient, in so many bits.
    Coefficient { dc: Dc, len: u32 },
    /// None, for this reason, behind so many bits.
    Refused { why: Why, behind: u32 },
}

/// What stands at the front of a window, by a table of sizes: one look-up.
pub fn what_dc(table: TableName, window: BitWindow) -> DcStanding
    requires { IsTrue (is_sizes table) }
    ensures { IsDcFound table window result }
{
    let Some((size, code_len)) = find(table, window.bits, window.known) else {
        return DcStanding::Refused {
            why: why_no_size(table, window),
            behind: 0,
        };
    };
    let behind = u32::from(code_len);
    let len = behind + u32::from(size);
    if len > window.known {
        return DcStanding::Refused {
            why: Why::End,
            behind,
        };
    }
    let bits = (window.bits >> (WINDOW_BITS - len)) % (1 << size);
    DcStanding::Coefficient {
        dc: Dc {
            size: size as u8,
            bits: bits as u16,
        },
        len,
    }
}

/// Why no size stands at bits that no code of the table begins: they end within one, or no code stands there.
fn why_no_size(table: TableName, window: BitWindow) -> Why
    requires table { IsTrue (is_sizes table) }
    requires none { (symbol len : ℕ) → Begins table (seen window window.known) symbol len → ⊥ }
    ensures { (bits : List ℕ) → ShowsFront window bits → IsWhyNoSize table result bits }
{
    for size in 0..SIZE_MOST + 1 {
        if begins_code(table, size, window) {
            return Why::End;
        }
    }
    Why::NoCode
}
