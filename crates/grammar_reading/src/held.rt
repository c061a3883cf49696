//! Windows of the bits that a reader holds.
ghost use Rattle.std.specs.Prelude.{◌≡◌, ◌<◌, ◌≤◌, length, IfSome};
ghost use Rattle.bit_cursor.specs.BitReader.{bits_left, bits_held};
ghost use Rattle.grammar_reading.specs.Window.{ShowsFront};

use crate::window::BitWindow;
use bit_cursor::BitReader;
use prefix_codes::WINDOW_BITS;
use shelf_io::Source;

/// What is seen of the bits that are left by those that are held: all of them, or a whole window.
#[inline]
pub fn held_window<S: Source>(from: &BitReader<'_, S>) -> BitWindow
    ensures shows { IfSome (bits_left from.now) (λ bits. (bits_held from.now < WINDOW_BITS → length bits ≡ bits_held from.now) → ShowsFront result bits) }
    ensures held { result.known ≤ bits_held from.now }
{
    let (bits, known) = from.held_window(WINDOW_BITS);
    BitWindow { bits, known }
}

/// The same where a whole window is held.
#[inline]
pub fn whole_window<S: Source>(from: &BitReader<'_, S>) -> BitWindow
    requires { WINDOW_BITS ≤ bits_held from.now }
    ensures shows { IfSome (bits_left from.now) (ShowsFront result) }
    ensures whole { result.known ≡ WINDOW_BITS }
{
    BitWindow {
        bits: from.held_front(WINDOW_BITS),
        known: WINDOW_BITS,
    }
}
