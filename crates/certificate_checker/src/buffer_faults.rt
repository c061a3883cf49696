ghost use Rattle.std.specs.Prelude.{◌≡◌, ◌≤◌, ◌^◌, ◌↔◌, IsTrue, length, MatchOption};
ghost use Rattle.version_table.specs.declared.limits.TheConstants.{PROGRAMS_MOST};
ghost use Rattle.version_table.specs.Table.{IsValidTable};
ghost use Rattle.buffer_windows.specs.Windows.{IsBufferWindow};
ghost use Rattle.certificate_checker.specs.Faults.{AreBufferWindows, AreRightBufferWindows, BufferWindowGoesBefore, BufferWindowsRise, CountPrograms, IsFirstOfBufferWindows, KeepBufferLimit};

use crate::why::Why;
use buffer_windows::{BufferWindow, stop};
use dual_bounds::constants::LAMBDA_MOST;
use version_table::Table;

/// What is wrong with windows that see the buffers first.
pub(crate) fn fault_of_buffer_windows(table: &Table, windows: &[BufferWindow]) -> Option<Why>
    requires { IsValidTable table.now }
    ensures { MatchOption result (AreRightBufferWindows table.now windows.now) (IsFirstOfBufferWindows table.now windows.now) }
{
    if !buffer_windows_rise(windows) {
        return Some(Why::DueOrder);
    }
    if !are_buffer_windows(table.slot, windows) {
        return Some(Why::WindowEmpty);
    }
    if !count_programs(table.programs.len(), windows) {
        return Some(Why::ProgramRange);
    }
    if !keep_buffer_limit(windows) {
        return Some(Why::LambdaLimit);
    }
    None
}

/// Whether each window goes before the next.
fn buffer_windows_rise(windows: &[BufferWindow]) -> bool
    ensures { IsTrue result ↔ BufferWindowsRise windows.now }
{
    for i in 1..windows.len() {
        if !goes_before(&windows[i - 1], &windows[i]) {
            return false;
        }
    }
    true
}

/// Whether a window goes before another, by its due time, first slot, tail slot and programs.
fn goes_before(a: &BufferWindow, b: &BufferWindow) -> bool
    ensures { IsTrue result ↔ BufferWindowGoesBefore a.now b.now }
{
    if a.due != b.due {
        a.due < b.due
    } else if a.first != b.first {
        a.first < b.first
    } else if a.tail != b.tail {
        a.tail < b.tail
    } else {
        a.programs < b.programs
    }
}

/// Whether each window has its tail and its due times where they may be.
fn are_buffer_windows(slot: u32, windows: &[BufferWindow]) -> bool
    requires { 1 ≤ slot }
    ensures { IsTrue result ↔ AreBufferWindows slot windows.now }
{
    for window in windows {
        if !is_buffer_window(slot, window) {
            return false;
        }
    }
    true
}

/// Whether a window has its tail between its first slot and the last that ends in time, and is due behind its beginning.
fn is_buffer_window(slot: u32, window: &BufferWindow) -> bool
    requires { 1 ≤ slot }
    ensures { IsTrue result ↔ IsBufferWindow slot window.now }
{
    let last = stop(slot, window.due).max(u64::from(window.first));
    let begins = u64::from(window.first) * u64::from(slot);
    window.first <= window.tail
        && u64::from(window.tail) <= last
        && (window.first == 0 || begins < window.due)
}

/// Whether no window counts the buffer of a program that there isn't, of so many.
fn count_programs(programs: usize, windows: &[BufferWindow]) -> bool
    requires { programs ≤ PROGRAMS_MOST }
    ensures { IsTrue result ↔ CountPrograms programs windows.now }
{
    let limit = 1_u32 << programs;
    for window in windows {
        if u32::from(window.programs) >= limit {
            return false;
        }
    }
    true
}

/// Whether no lambda passes its limit.
fn keep_buffer_limit(windows: &[BufferWindow]) -> bool
    ensures { IsTrue result ↔ KeepBufferLimit windows.now }
{
    windows.iter().all(|window| window.lambda <= LAMBDA_MOST)
}
