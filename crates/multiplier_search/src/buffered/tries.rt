ghost use Rattle.version_table.specs.Table.{IsValidTable};

use super::narrow;
use super::priced::PricedTable;
use buffer_windows::{BufferWindow, room, stop};
use version_table::Table;

/// Units before a window's end at whose stops its tail is tried.
const TAILS_TRIED: usize = 40;

/// A window, or the same with other programs and another tail where that gains, each tried alone; the table is charged for it.
pub fn improve_window(table: &Table, priced: &mut PricedTable, start: BufferWindow) -> BufferWindow
    requires { IsValidTable table.now }
{
    let mut window = start;
    if window.first > 0 {
        for program in 0..table.programs.len().min(8) as u32 {
            let changed = BufferWindow {
                programs: window.programs ^ (1u8 << program),
                ..window
            };
            if gain_of(table, priced, window, changed) > 0 {
                priced.change(window, changed);
                window = changed;
            }
        }
    }
    let best = best_tail(table, priced, window);
    priced.change(window, best);
    best
}

/// The window with the tail that gains most.
fn best_tail(table: &Table, priced: &PricedTable, window: BufferWindow) -> BufferWindow
    requires { IsValidTable table.now }
{
    let mut best = window;
    let mut most = 0;
    let mut last = window.first;
    for unit in priced.last_by(window.due, TAILS_TRIED) {
        let next = narrow(stop(table.slot, unit.due))
            .max(window.first)
            .min(window.tail);
        let between = last
            .saturating_add(next.saturating_sub(last) / 2)
            .max(window.first)
            .min(window.tail);
        for tail in [between, next] {
            let changed = BufferWindow { tail, ..window };
            let gained = gain_of(table, priced, window, changed);
            if gained > most {
                most = gained;
                best = changed;
            }
        }
        last = next;
    }
    best
}

/// What the value gains where a window is changed for another.
fn gain_of(table: &Table, priced: &PricedTable, old: BufferWindow, new: BufferWindow) -> i128
    requires { IsValidTable table.now }
{
    let worth = i128::from(new.lambda).saturating_mul(i128::from(room(table, &new)));
    let before = i128::from(old.lambda).saturating_mul(i128::from(room(table, &old)));
    priced
        .gain(old, new)
        .saturating_sub(worth)
        .saturating_add(before)
}
