//! Runs the slot rule over a table, so that its instructions can be counted (bench/README.md).
//!
//! The words are what is run and the name of a table's file: `read` reads the table alone, `miss` runs its level choice 0
//! by `first_miss`, `run` by a kept run, and `change` runs level choice 1 after it in the same kept run. It prints the
//! slot of the last first miss, and the checkpoints.
ghost use Rattle.version_table.specs.Table.{IsValidTable};

use list_types::OutOfMemory;
use shelf_io::read_file;
use shelf_kinds::FileShelf;
use slot_rule::{Miss, SlotRun, first_miss};
use std::alloc::Global;
use std::io;
use version_table::{Table, level, read_table};

/// The most bytes that are read of a file.
const FILE_BYTES: u64 = 1 << 30;

/// What a run came to.
#[derive(Clone, Copy)]
struct Came {
    miss: Option<Miss>,
    checkpoints: u32,
}

/// Does what the words say.
pub fn work(rt: &HostRuntime, words: &[String]) -> io::Result<()> {
    let [what, name] = words else {
        return println!(rt; "bench_plans runs read|miss|run|change TABLE");
    };
    let mut shelf = FileShelf::new(rt);
    let Ok(text) = read_file(rt.alloc(), &mut shelf, name.as_str(), FILE_BYTES) else {
        return println!(rt; "no such file");
    };
    let Ok(table) = read_table(rt.alloc(), text.as_slice()) else {
        return println!(rt; "no table");
    };
    let Ok(came) = run(rt.alloc(), &table, what.as_str()) else {
        return println!(rt; "out of memory");
    };
    match came.miss {
        Some(miss) => println!(rt;
            "missed in slot {}, {} checkpoints",
            miss.slot, came.checkpoints
        ),
        None => println!(rt; "{} checkpoints", came.checkpoints),
    }
}

/// Runs what the word says.
fn run(alloc: Global, table: &Table, what: &str) -> Result<Came, OutOfMemory>
    requires { IsValidTable table.now }
{
    let before = level(alloc, table, 0)?;
    let after = level(alloc, table, 1)?;
    if what == "read" {
        return Ok(Came {
            miss: None,
            checkpoints: 0,
        });
    }
    if what == "miss" {
        return Ok(Came {
            miss: first_miss(table, &before),
            checkpoints: 0,
        });
    }
    let mut run = SlotRun::new(alloc, table)?;
    let mut miss = run.run(&before);
    if what == "change" {
        miss = run.run(&after);
    }
    Ok(Came {
        miss,
        checkpoints: run.checkpoints(),
    })
}
