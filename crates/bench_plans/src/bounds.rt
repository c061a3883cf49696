//! Searches for bounds over a table, so that the search can be measured (bench/README.md).
//!
//! The words are what is searched for and the name of a table's file: `read` reads the table alone, `single` finds the
//! best single multiplier, `improve` makes ten turns from it, `window` finds the best window, `relaxation` the windows of
//! the linear relaxation, `buffers` those that see the buffers. `room` looks for a window of time without room; its value is then
//! what that needs. It prints the value, the bound and how many windows there are.
ghost use Rattle.version_table.specs.Table.{IsValidTable};

use buffer_windows::value_of_windows;
use dual_bounds::{Windows, bound_of, dual_value, nothing_fixed, window_value};
use impossible_proof::no_room;
use list_types::OutOfMemory;
use multiplier_search::{best_single, best_window, buffered_windows, improve, relaxation};
use shelf_io::read_file;
use shelf_kinds::FileShelf;
use std::alloc::Global;
use std::io;
use version_table::{Table, read_table};

/// The most bytes that are read of a file.
const FILE_BYTES: u64 = 1 << 30;
/// Turns of `improve`.
const TURNS: u32 = 10;

/// What a search came to.
#[derive(Clone, Copy)]
struct Came {
    value: i128,
    windows: usize,
}

/// Does what the words say.
pub fn work(rt: &HostRuntime, words: &[String]) -> io::Result<()> {
    let [what, name] = words else {
        return println!(rt;
            "bench_plans bounds read|single|improve|window|relaxation|buffers|room TABLE"
        );
    };
    let mut shelf = FileShelf::new(rt);
    let Ok(text) = read_file(rt.alloc(), &mut shelf, name.as_str(), FILE_BYTES) else {
        return println!(rt; "no such file");
    };
    let Ok(table) = read_table(rt.alloc(), text.as_slice()) else {
        return println!(rt; "no table");
    };
    let Ok(came) = search(rt.alloc(), &table, what.as_str()) else {
        return println!(rt; "out of memory");
    };
    println!(rt;
        "value {}, bound {}, {} windows",
        came.value,
        bound_of(came.value),
        came.windows
    )
}

/// Searches for what the word says.
fn search(alloc: Global, table: &Table, what: &str) -> Result<Came, OutOfMemory>
    requires { IsValidTable table.now }
{
    if what == "relaxation" {
        return relaxed(alloc, table);
    }
    if what == "buffers" {
        return buffered(alloc, table);
    }
    if what == "room" {
        return roomless(alloc, table);
    }
    if what == "window" {
        return window(alloc, table);
    }
    if what == "improve" {
        return turned(alloc, table);
    }
    if what == "single" {
        return single(alloc, table);
    }
    Ok(Came {
        value: 0,
        windows: 0,
    })
}

/// The windows that see the buffers.
fn buffered(alloc: Global, table: &Table) -> Result<Came, OutOfMemory>
    requires { IsValidTable table.now }
{
    let fixed = nothing_fixed(alloc, table)?;
    let windows = buffered_windows(alloc, table, &fixed)?;
    Ok(Came {
        value: value_of_windows(table, fixed.as_slice(), windows.as_slice()) / 184,
        windows: windows.as_slice().len(),
    })
}

/// The windows of the relaxation.
fn relaxed(alloc: Global, table: &Table) -> Result<Came, OutOfMemory>
    requires { IsValidTable table.now }
{
    let fixed = nothing_fixed(alloc, table)?;
    let found = relaxation(alloc, table, &fixed, &Windows::new())?;
    Ok(Came {
        value: window_value(table, &fixed, found.as_slice()),
        windows: found.len(),
    })
}

/// The best window.
fn window(alloc: Global, table: &Table) -> Result<Came, OutOfMemory>
    requires { IsValidTable table.now }
{
    let fixed = nothing_fixed(alloc, table)?;
    let found = best_window(alloc, table, &fixed)?;
    Ok(Came {
        value: window_value(table, &fixed, found.as_slice()),
        windows: found.len(),
    })
}

/// The best single multiplier.
fn single(alloc: Global, table: &Table) -> Result<Came, OutOfMemory>
    requires { IsValidTable table.now }
{
    let fixed = nothing_fixed(alloc, table)?;
    let found = best_single(alloc, table, &fixed)?;
    Ok(Came {
        value: dual_value(table, &fixed, found.as_slice()),
        windows: found.len(),
    })
}

/// Ten turns from the best single multiplier.
fn turned(alloc: Global, table: &Table) -> Result<Came, OutOfMemory>
    requires { IsValidTable table.now }
{
    let fixed = nothing_fixed(alloc, table)?;
    let start = best_single(alloc, table, &fixed)?;
    let found = improve(alloc, table, &fixed, &start, TURNS)?;
    Ok(Came {
        value: dual_value(table, &fixed, found.as_slice()),
        windows: found.len(),
    })
}

/// The first window of time without room.
fn roomless(alloc: Global, table: &Table) -> Result<Came, OutOfMemory>
    requires { IsValidTable table.now }
{
    match no_room(alloc, table)? {
        Some(found) => Ok(Came {
            value: i128::from(found.needed),
            windows: 1,
        }),
        None => Ok(Came {
            value: 0,
            windows: 0,
        }),
    }
}
