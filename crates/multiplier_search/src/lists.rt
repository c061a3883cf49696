ghost use Rattle.std.specs.Prelude.{◌≡◌, ◌<◌, ◌≤◌, length, map, slice_index_or, slice_set, false, IsTrue, ◌↔◌};
ghost use Rattle.std.specs.List.{insert};
ghost use Rattle.dual_bounds.specs.declared.constants.TheConstants.{WINDOWS_MOST};
ghost use Rattle.dual_bounds.specs.declared.windows.Window.{Window};
ghost use Rattle.dual_bounds.specs.Values.{from_start};
ghost use Rattle.multiplier_search.specs.Windows.{Precedes};
ghost use Rattle.multiplier_search.specs.Private.Turns.{AreFromStart, IsPlace};

use dual_bounds::{Multiplier, Multipliers, Window, Windows, copied};

/// The same windows with another one at this place.
pub fn replaced(windows: &[Window], place: usize, window: Window) -> Windows
    requires few { length windows.now ≤ WINDOWS_MOST }
    requires place { place < length windows.now }
    ensures { result.items ≡ slice_set windows.now place window }
{
    let mut changed = copied(windows);
    changed.as_mut_slice()[place] = window;
    changed
}

/// The same windows and one more, at this place.
pub fn inserted(windows: &[Window], place: usize, window: Window) -> Windows
    requires few { length windows.now < WINDOWS_MOST }
    requires place { place ≤ length windows.now }
    ensures { result.items ≡ insert windows.now place window }
{
    let mut wider = copied(windows);
    wider.insert(place, window);
    wider
}

/// The place of the first window that doesn't precede another one.
pub fn place_of(windows: &[Window], window: Window) -> usize
    ensures { IsPlace windows.now window result }
{
    let mut place = 0;
    while place < windows.len() && precedes(windows[place], window) {
        place += 1;
    }
    place
}

/// Whether the window at this place isn't preceded by another one.
pub fn is_taken(windows: &[Window], place: usize, window: Window) -> bool
    ensures { result ≡ false → (d : Window) → place < length windows.now → Precedes window (slice_index_or windows.now place d) }
{
    place < windows.len() && !precedes(window, windows[place])
}

/// Whether a window ends before another, or with it and begins before it.
fn precedes(window: Window, other: Window) -> bool
    ensures { IsTrue result ↔ Precedes window other }
{
    window.due < other.due || (window.due == other.due && window.from < other.from)
}

/// Windows from time 0 on as multipliers.
pub fn multipliers_of(windows: &[Window]) -> Multipliers
    requires few { length windows.now ≤ WINDOWS_MOST }
    requires starts { AreFromStart windows.now }
    ensures { map from_start result.items ≡ windows.now }
{
    let mut multipliers = Multipliers::new();
    for window in windows {
        multipliers.push(Multiplier {
            due: window.due,
            lambda: window.lambda,
        });
    }
    multipliers
}
