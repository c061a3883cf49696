ghost use Rattle.std.specs.Prelude.{◌≤◌};
ghost use Rattle.version_table.specs.declared.limits.TheConstants.{EVALUATIONS_MOST, NODES_MOST};
ghost use Rattle.version_table.specs.Table.{IsValidTable};

use branch_plan::{PlanFault, Search, plan};
use slot_rule::Miss;
use std::alloc::Global;
use std::process::Abort;
use std::test::Fail;
use version_table::{Table, read_table};

/// What a plan comes to.
#[derive(Clone, Copy, Debug, PartialEq)]
struct Came {
    bound: u64,
    distortion: u64,
    search: Search,
}

/// Asserts what the plan of a table's text comes to, with one node and so many evaluations.
fn assert_plan(
    rt: &impl Abort,
    alloc: Global,
    text: &[u8],
    evaluations: u32,
    choice: &[u8],
    came: Came,
) -> Result<(), Fail>
    requires { evaluations ≤ EVALUATIONS_MOST }
{
    let table = read_table(alloc, text)?;
    let planned = plan(alloc, &table, 1, evaluations)?;
    let cert = &planned.cert;
    assert_eq!(rt; cert.choice.as_slice(), choice);
    let is = Came {
        bound: cert.bound,
        distortion: cert.distortion,
        search: planned.search,
    };
    assert_eq!(rt; is, came);
    assert_eq!(rt; cert.nodes.len(), 1);
    Ok(())
}

#[test]
fn of_three_units_a_pair_bounds_most(rt: HostRuntime) -> Result<(), Fail> {
    let text =
        b"remux table 1\nslot 4000\nnodes 1\nevaluations 0\nprogram 112\nunit 27200 552:0 368:10\nunit 43200 552:0 368:4\nunit 47200 552:0 368:4\n";
    let came = Came {
        bound: 14,
        distortion: 18,
        search: Search::Budget,
    };
    assert_plan(&rt, rt.alloc(), text, 0, &[1, 1, 1], came)
}

#[test]
fn one_multiplier_shows_that_a_plan_is_the_best(rt: HostRuntime) -> Result<(), Fail> {
    let text =
        b"remux table 1\nslot 4000\nnodes 1\nevaluations 0\nprogram 112\nunit 27200 552:0 368:10\n";
    let came = Came {
        bound: 10,
        distortion: 10,
        search: Search::Optimal,
    };
    assert_plan(&rt, rt.alloc(), text, 0, &[1], came)
}

#[test]
fn a_window_bounds_where_multipliers_do_not(rt: HostRuntime) -> Result<(), Fail> {
    let text =
        b"remux table 1\nslot 40000\nnodes 1\nevaluations 0\nprogram 112\nunit 54000000 115000:0 92000:10\n";
    let came = Came {
        bound: 3,
        distortion: 10,
        search: Search::Budget,
    };
    assert_plan(&rt, rt.alloc(), text, 0, &[1], came)
}

/// Two units, of which the first can't be sent as its version 0.
const TWO_UNITS: &[u8] =
    b"remux table 1\nslot 4000\nnodes 1\nevaluations 0\nprogram 112\nunit 27200 552:0 368:10\nunit 2000000 552:0 368:10\n";

#[test]
fn a_single_change_makes_a_plan_the_best(rt: HostRuntime) -> Result<(), Fail> {
    let came = Came {
        bound: 10,
        distortion: 10,
        search: Search::Optimal,
    };
    assert_plan(&rt, rt.alloc(), TWO_UNITS, 2, &[1, 0], came)
}

#[test]
fn one_run_fills_the_room(rt: HostRuntime) -> Result<(), Fail> {
    let came = Came {
        bound: 10,
        distortion: 10,
        search: Search::Optimal,
    };
    assert_plan(&rt, rt.alloc(), TWO_UNITS, 1, &[1, 0], came)
}

#[test]
fn with_runs_enough_no_change_is_left_that_helps(rt: HostRuntime) -> Result<(), Fail> {
    let came = Came {
        bound: 10,
        distortion: 10,
        search: Search::Optimal,
    };
    assert_plan(&rt, rt.alloc(), TWO_UNITS, 7, &[1, 0], came)
}

#[test]
fn without_evaluations_nothing_is_changed(rt: HostRuntime) -> Result<(), Fail> {
    let came = Came {
        bound: 10,
        distortion: 20,
        search: Search::Budget,
    };
    assert_plan(&rt, rt.alloc(), TWO_UNITS, 0, &[1, 1], came)
}

#[test]
fn without_units_the_plan_is_empty(rt: HostRuntime) -> Result<(), Fail> {
    let text = b"remux table 1\nslot 1080\nnodes 4\nevaluations 0\nprogram 112\n";
    let came = Came {
        bound: 0,
        distortion: 0,
        search: Search::Optimal,
    };
    assert_plan(&rt, rt.alloc(), text, 0, &[], came)
}

#[test]
fn a_smallest_choice_that_misses_is_told(rt: HostRuntime) -> Result<(), Fail> {
    let text =
        b"remux table 1\nslot 1080\nnodes 4\nevaluations 0\nprogram 112\nunit 36935 1840:0\n";
    let table = read_table(rt.alloc(), text)?;
    let miss = Miss {
        stream: 0,
        unit: 0,
        slot: 22,
        due: 36_935,
    };
    match plan(rt.alloc(), &table, 4, 0) {
        Err(PlanFault::Missed(found)) => assert_eq!(rt; found, miss),
        _other => assert_eq!(rt; 0, 1),
    }
    Ok(())
}

/// Asserts what the plan of a table's text comes to, with at most so many nodes and no evaluations, and how many nodes it has.
fn assert_branched(
    rt: &impl Abort,
    alloc: Global,
    text: &[u8],
    nodes: u32,
    came: Came,
    made: usize,
) -> Result<(), Fail>
    requires some { 1 ≤ nodes }
    requires few { nodes ≤ NODES_MOST }
{
    let table = read_table(alloc, text)?;
    let planned = plan(alloc, &table, nodes, 0)?;
    let cert = &planned.cert;
    assert_eq!(rt; cert.choice.as_slice(), [1].as_slice());
    let is = Came {
        bound: cert.bound,
        distortion: cert.distortion,
        search: planned.search,
    };
    assert_eq!(rt; is, came);
    assert_eq!(rt; cert.nodes.len(), made);
    Ok(())
}

/// One unit of three versions, of which the first can't be sent in time.
const THREE_VERSIONS: &[u8] =
    b"remux table 1\nslot 1080\nnodes 4\nevaluations 0\nprogram 112\nunit 36936 2024:0 1840:9 920:40\n";

#[test]
fn a_branch_shows_that_a_plan_is_the_best(rt: HostRuntime) -> Result<(), Fail> {
    let came = Came {
        bound: 9,
        distortion: 9,
        search: Search::Optimal,
    };
    assert_branched(&rt, rt.alloc(), THREE_VERSIONS, 4, came, 4)
}

#[test]
fn too_few_nodes_for_a_branch_leave_one(rt: HostRuntime) -> Result<(), Fail> {
    let came = Came {
        bound: 0,
        distortion: 9,
        search: Search::Budget,
    };
    assert_branched(&rt, rt.alloc(), THREE_VERSIONS, 3, came, 1)
}

#[test]
fn a_branch_closes_what_a_window_leaves(rt: HostRuntime) -> Result<(), Fail> {
    let text =
        b"remux table 1\nslot 40000\nnodes 1\nevaluations 0\nprogram 112\nunit 54000000 115000:0 92000:10\n";
    let came = Came {
        bound: 10,
        distortion: 10,
        search: Search::Optimal,
    };
    assert_branched(&rt, rt.alloc(), text, 3, came, 3)
}

/// The text of a table of 24 units of three versions, eight in each of three programs, in slots that have room for some seven tenths of
/// all first versions.
fn some_units(alloc: Global) -> Result<Vec<u8>, Fail> {
    let mut text = Vec::new(alloc);
    text.extend_from_slice(b"remux table 1\nslot 9000\nnodes 1\nevaluations 0\n")?;
    for program in 0..3_u32 {
        text.extend_from_slice(b"program 112\n")?;
        for k in 0..8_u32 {
            let due = 13_500_000 + 360_000 * program + 1_080_000 * k;
            let bytes = 13_000 + 11_000 * ((k + program) % 3) + 1_700 * (k % 5);
            let line = format!(in alloc;
                "unit {due} {bytes}:0 {}:{} {}:{}\n",
                bytes * 3 / 5,
                bytes * 2 + 900 * k,
                bytes * 7 / 25,
                bytes * 14 + 700 * program
            )?;
            text.extend_from_slice(line.as_bytes())?;
        }
    }
    Ok(text)
}

/// The bound of a plan with at most so many nodes and one evaluation.
fn bound_with(alloc: Global, table: &Table, nodes: u32) -> Result<u64, Fail>
    requires valid { IsValidTable table.now }
    requires some { 1 ≤ nodes }
    requires few { nodes ≤ NODES_MOST }
{
    let planned = plan(alloc, table, nodes, 1)?;
    Ok(planned.cert.bound)
}

#[test]
fn more_nodes_give_no_lower_bound(rt: HostRuntime) -> Result<(), Fail> {
    let alloc = rt.alloc();
    let text = some_units(alloc)?;
    let table = read_table(alloc, text.as_slice())?;
    let bounds = [
        bound_with(alloc, &table, 1)?,
        bound_with(alloc, &table, 10)?,
        bound_with(alloc, &table, 100)?,
        bound_with(alloc, &table, 1_000)?,
        bound_with(alloc, &table, 10_000)?,
        bound_with(alloc, &table, 100_000)?,
        bound_with(alloc, &table, 1_048_576)?,
    ];
    assert!(rt; bounds.iter().is_sorted());
    Ok(())
}
