ghost use Rattle.std.specs.Prelude.{◌≡◌, ◌+◌, ◌*◌, ◌≤◌, ◌<◌, ◌^◌};
ghost use Rattle.version_table.specs.declared.limits.TheConstants.{TIME_SLOTS_MOST};
ghost use Rattle.version_table.specs.Table.{IsValidTable, IsValidProgram};
ghost use Rattle.buffer_windows.specs.Room.{buffer_bytes, counted_eb_bytes as eb_bytes, last_due, mb_bytes};
ghost use Rattle.buffer_windows.specs.Windows.{counts_buffer};

use crate::rooms::stop;
use crate::windows::BufferWindow;
use dual_bounds::constants::MARGIN_TICKS;
use stream_constants::clock::SUBTICKS_PER_TICK;
use stream_constants::decoder::{EB_UNIT_BYTES, MB_SUBTICKS};
use version_table::{ProgramRow, Table};

/// What the buffers of all programs give a window, in bytes.
pub(crate) fn buffer_bytes(table: &Table, window: &BufferWindow) -> u64
    requires { IsValidTable table.now }
    ensures value { result ≡ buffer_bytes table.now window.now }
    ensures few { result < 2 ^ 47 }
{
    let mut total = 0;
    for (k, program) in table.programs.as_slice().iter().enumerate() {
        total += eb_bytes(window, k, program) + mb_bytes(table.slot, window, program);
    }
    total
}

/// The bytes of a program's elementary buffer, where the window counts it.
fn eb_bytes(window: &BufferWindow, number: usize, program: &ProgramRow) -> u64
    requires { number < 8 }
    ensures value { result ≡ eb_bytes window.now number program.now }
    ensures few { result ≤ 522240 }
{
    if 0 < window.first && counts_buffer(window, number) {
        EB_UNIT_BYTES * u64::from(program.vbv)
    } else {
        0
    }
}

/// Whether the window counts the elementary buffer of the program of this number.
pub(crate) fn counts_buffer(window: &BufferWindow, number: usize) -> bool
    requires { number < 8 }
    ensures { result ≡ counts_buffer window.now number }
{
    (window.programs >> number) % 2 == 1
}

/// The bytes that a program's MB can give from the window's tail on, up to 7,200 ticks before its last due time in the window.
fn mb_bytes(slot: u32, window: &BufferWindow, program: &ProgramRow) -> u64
    requires some { 1 ≤ slot }
    requires most { slot ≤ 40000 }
    requires valid { IsValidProgram slot program.now }
    ensures value { result ≡ mb_bytes slot window.now program.now }
    ensures few { result < 2 ^ 43 }
{
    let due = last_due(window, program, slot);
    if stop(slot, due) <= u64::from(window.tail) {
        return 0;
    }
    let left = due - MARGIN_TICKS - u64::from(window.tail) * u64::from(slot);
    SUBTICKS_PER_TICK * left / MB_SUBTICKS
}

/// The last due time of a program's units in the window; 0 where none is.
fn last_due(window: &BufferWindow, program: &ProgramRow, slot: u32) -> u64
    requires { IsValidProgram slot program.now }
    ensures value { result ≡ last_due window.now program.now }
    ensures small { result ≤ TIME_SLOTS_MOST * slot }
{
    let units = program.units.as_slice();
    let behind = units.partition_point(|unit| unit.due <= window.due);
    if behind == 0 {
        0
    } else {
        units[behind - 1].due
    }
}
