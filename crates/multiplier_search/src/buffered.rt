ghost use Rattle.std.specs.Prelude.{IfOk};
ghost use Rattle.version_table.specs.Table.{IsValidTable};
ghost use Rattle.multiplier_search.specs.Buffered.{AreSearchedBuffered};

mod ordered;
mod priced;
mod tries;

use crate::relaxed::greedy::intervals_of;
use crate::relaxed::hull::{MixedTable, MixedUnit};
use crate::relaxed::slack::{HeldSlack, Interval, Slack, due_at};
use buffer_windows::{BufferWindow, BufferWindows, stop};
use dual_bounds::Fixed;
use dual_bounds::constants::LAMBDA_MOST;
use list_types::OutOfMemory;
use ordered::in_order;
use priced::PricedTable;
use std::alloc::Global;
use stream_constants::decoder::HOLD_TICKS;
use tries::improve_window;
use version_table::Table;

/// Windows that see the buffers: those of the linear relaxation in which no more is sent early than the elementary buffers hold, each
/// with the programs and the tail that gain most. Fails only for want of memory.
///
/// Proved is that they are allowed and stand in order. That their bound is close is measured.
pub fn buffered_windows(
    alloc: Global,
    table: &Table,
    fixed: &Fixed,
) -> Result<BufferWindows, OutOfMemory>
    requires { IsValidTable table.now }
    ensures { IfOk result (AreSearchedBuffered table.now) }
{
    let mixed = MixedTable::held(alloc, table)?;
    let HeldSlack { mut slack, held } = Slack::held(alloc, table, mixed.units.as_slice())?;
    let intervals = intervals_of(alloc, &mixed, &mut slack, fixed)?;
    let mut windows = Vec::new(alloc);
    for interval in intervals.as_slice() {
        if interval.price > 0 {
            windows.push(window_of(
                table,
                &slack,
                mixed.units.as_slice(),
                held.as_slice(),
                *interval,
            ))?;
        }
    }
    let mut priced = PricedTable::new(alloc, table, fixed, windows.as_slice())?;
    let mut improved = Vec::new(alloc);
    for window in windows.as_slice() {
        improved.push(improve_window(table, &mut priced, *window))?;
    }
    improved.sort_by_key(|window| (window.due, window.first, window.tail, window.programs))?;
    in_order(alloc, table, improved.as_slice())
}

/// The window of an interval: it begins with the slot in which its first unit is due where the buffers hold less than a second does,
/// and counts all of them; else a second before it.
fn window_of(
    table: &Table,
    slack: &Slack,
    units: &[MixedUnit],
    held: &[bool],
    interval: Interval,
) -> BufferWindow
    requires { IsValidTable table.now }
{
    let due = due_at(units, interval.last);
    let from = slack.start_of(interval, units).min(due);
    let slot = u64::from(table.slot);
    let sees = interval.first < held.len() && held[interval.first];
    let first = if sees {
        from.saturating_sub(1) / slot
    } else {
        from.saturating_sub(HOLD_TICKS).div_ceil(slot)
    };
    let first = narrow(first);
    BufferWindow {
        first,
        due,
        programs: if sees {
            u8::MAX >> (8u32.saturating_sub(table.programs.len() as u32).min(7))
        } else {
            0
        },
        tail: first.max(narrow(stop(table.slot, due))),
        lambda: interval.price.min(LAMBDA_MOST),
    }
}

/// A slot's number, of those that a window can name.
pub(crate) fn narrow(slot: u64) -> u32 {
    slot.min(u64::from(u32::MAX)) as u32
}
