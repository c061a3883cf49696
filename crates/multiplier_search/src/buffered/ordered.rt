ghost use Rattle.std.specs.Prelude.{◌≡◌, ◌+◌, ℕ, true, length, slice_index_or, IfOk};
ghost use Rattle.version_table.specs.Table.{IsValidTable};
ghost use Rattle.buffer_windows.specs.declared.windows.BufferWindow.{BufferWindow as SeeingWindow};
ghost use Rattle.multiplier_search.specs.Buffered.{AreSearchedBuffered, IsSoundBuffered, PrecedesBuffered};

use buffer_windows::constants::BUFFER_WINDOWS_MOST;
use buffer_windows::{BufferWindow, BufferWindows, stop};
use dual_bounds::constants::LAMBDA_MOST;
use list_types::OutOfMemory;
use std::alloc::Global;
use version_table::Table;

/// Of some windows in order those that are allowed, where there aren't too many, and of equal ones the first. Fails only for want of
/// memory.
pub fn in_order(
    alloc: Global,
    table: &Table,
    windows: &[BufferWindow],
) -> Result<BufferWindows, OutOfMemory>
    requires { IsValidTable table.now }
    ensures { IfOk result (AreSearchedBuffered table.now) }
{
    let mut ordered = BufferWindows::new(alloc);
    for window in windows {
        ordered = or_with(table, ordered, *window)?;
    }
    Ok(ordered)
}

/// The windows and one more, where it is allowed, stands behind them, and they aren't too many.
fn or_with(
    table: &Table,
    windows: BufferWindows,
    window: BufferWindow,
) -> Result<BufferWindows, OutOfMemory>
    requires valid { IsValidTable table.now }
    requires searched { AreSearchedBuffered table.now windows }
    ensures { IfOk result (AreSearchedBuffered table.now) }
{
    let mut windows = windows;
    let most = windows.as_slice().len() >= BUFFER_WINDOWS_MOST;
    if most || !is_sound(table, window) || !is_behind(windows.as_slice(), window) {
        return Ok(windows);
    }
    windows.push(window)?;
    Ok(windows)
}

/// Whether a window is allowed, with a lambda within its limit.
fn is_sound(table: &Table, window: BufferWindow) -> bool
    requires { IsValidTable table.now }
    ensures { result ≡ true → IsSoundBuffered table.now window }
{
    let slot = u64::from(table.slot);
    let first = u64::from(window.first);
    window.first <= window.tail
        && u64::from(window.tail) <= first.max(stop(table.slot, window.due))
        && (window.first == 0 || first * slot < window.due)
        && u32::from(window.programs) < 1u32 << table.programs.len()
        && window.lambda <= LAMBDA_MOST
}

/// Whether a window stands behind the last of some.
fn is_behind(windows: &[BufferWindow], window: BufferWindow) -> bool
    ensures { result ≡ true → (k : ℕ) (d : SeeingWindow) → k + 1 ≡ length windows.now → PrecedesBuffered (slice_index_or windows.now k d) window }
{
    match windows.last() {
        Some(last) => precedes(*last, window),
        None => true,
    }
}

/// Whether one window stands before another.
fn precedes(window: BufferWindow, other: BufferWindow) -> bool
    ensures { result ≡ true → PrecedesBuffered window other }
{
    if window.due != other.due {
        return window.due < other.due;
    }
    if window.first != other.first {
        return window.first < other.first;
    }
    if window.tail != other.tail {
        return window.tail < other.tail;
    }
    window.programs < other.programs
}
