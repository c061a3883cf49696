//! Plans a table, so that a plan can be measured (bench/README.md).
//!
//! The words are the name of a table's file, the nodes and the evaluations. It prints the bound, the plan's distortion and how many nodes
//! the tree has.
ghost use Rattle.std.specs.Prelude.{IfOk};
ghost use Rattle.version_table.specs.Table.{IsValidTable};
ghost use Rattle.version_table.specs.Text.{Holds, IsTableRead};

use branch_plan::{PlanFault, plan};
use list_types::ListOf;
use shelf_io::read_file;
use shelf_kinds::FileShelf;
use std::alloc::Global;
use std::io;
use version_table::limits::{EVALUATIONS_MOST, NODES_MOST};
use version_table::{Table, TableFault, read_table};

/// The most bytes that are read of a file.
const FILE_BYTES: u64 = 1 << 30;

/// What a plan came to.
#[derive(Clone, Copy)]
struct Came {
    bound: u64,
    distortion: u64,
    nodes: usize,
}

/// Does what the words say.
pub fn work(rt: &HostRuntime, words: &[String]) -> io::Result<()> {
    let [name, nodes, evaluations] = words else {
        return println!(rt; "bench_plans plans TABLE NODES EVALUATIONS");
    };
    let mut shelf = FileShelf::new(rt);
    let Ok(text) = read_file(rt.alloc(), &mut shelf, name.as_str(), FILE_BYTES) else {
        return println!(rt; "no such file");
    };
    let Ok(table) = table_in(rt.alloc(), text) else {
        return println!(rt; "no table");
    };
    let Ok(came) = planned(
        rt.alloc(),
        &table,
        number(nodes.as_str()),
        number(evaluations.as_str()),
    ) else {
        return println!(rt; "no plan");
    };
    println!(rt;
        "bound {}, distortion {}, {} nodes",
        came.bound, came.distortion, came.nodes
    )
}

/// The table in a text, which is let go before the table is planned.
fn table_in(alloc: Global, text: ListOf<u8>) -> Result<Table, TableFault>
    ensures { IfOk result (λ table. IsTableRead text (Holds table)) }
{
    read_table(alloc, text.as_slice())
}

/// The number that a word says, or 0.
fn number(word: &str) -> u32 {
    word.parse::<u32>().unwrap_or(0)
}

/// The plan with so many nodes and evaluations, or as many as there may be.
fn planned(alloc: Global, table: &Table, nodes: u32, evaluations: u32) -> Result<Came, PlanFault>
    requires { IsValidTable table.now }
{
    let planned = plan(
        alloc,
        table,
        nodes.max(1).min(NODES_MOST),
        evaluations.min(EVALUATIONS_MOST),
    )?;
    Ok(Came {
        bound: planned.cert.bound,
        distortion: planned.cert.distortion,
        nodes: planned.cert.nodes.len(),
    })
}
