use dual_bounds::{Multiplier, Multipliers, Window, Windows, nothing_fixed, window_value};
use multiplier_search::{best_single, best_window, improve, improve_windows, relaxation};
use std::alloc::Global;
use std::process::Abort;
use std::test::Fail;
use version_table::read_table;

/// Asserts that the first best multiplier of a table's text is this one, or that there is none.
fn assert_best(
    rt: &impl Abort,
    alloc: Global,
    text: &[u8],
    best: Option<Multiplier>,
) -> Result<(), Fail> {
    let table = read_table(alloc, text)?;
    let fixed = nothing_fixed(alloc, &table)?;
    let found = best_single(alloc, &table, &fixed)?;
    assert_eq!(rt; found.as_slice().first().copied(), best);
    Ok(())
}

#[test]
fn of_three_units_the_first_bounds_most(rt: HostRuntime) -> Result<(), Fail> {
    let text =
        b"remux table 1\nslot 4000\nnodes 1\nevaluations 0\nprogram 112\nunit 27200 552:0 368:10\nunit 43200 552:0 368:4\nunit 47200 552:0 368:4\n";
    let best = Multiplier {
        due: 27_200,
        lambda: 2_560,
    };
    assert_best(&rt, rt.alloc(), text, Some(best))
}

#[test]
fn of_equal_values_the_least_due_time_and_lambda_are_taken(rt: HostRuntime) -> Result<(), Fail> {
    let text =
        b"remux table 1\nslot 40000\nnodes 1\nevaluations 0\nprogram 112\nunit 54000000 115000:0 92000:10\nprogram 112\nunit 53000000 184:0\n";
    let best = Multiplier {
        due: 53_000_000,
        lambda: 0,
    };
    assert_best(&rt, rt.alloc(), text, Some(best))
}

#[test]
fn without_room_the_greatest_lambda_is_taken(rt: HostRuntime) -> Result<(), Fail> {
    let text = b"remux table 1\nslot 4000\nnodes 1\nevaluations 0\nprogram 112\nunit 20000 184:0\n";
    let best = Multiplier {
        due: 20_000,
        lambda: 1_099_511_627_776,
    };
    assert_best(&rt, rt.alloc(), text, Some(best))
}

#[test]
fn without_units_there_is_none(rt: HostRuntime) -> Result<(), Fail> {
    let text = b"remux table 1\nslot 4000\nnodes 1\nevaluations 0\nprogram 112\n";
    assert_best(&rt, rt.alloc(), text, None)
}

#[test]
fn a_window_that_ends_late_bounds_what_no_multiplier_does(rt: HostRuntime) -> Result<(), Fail> {
    let text =
        b"remux table 1\nslot 40000\nnodes 1\nevaluations 0\nprogram 112\nunit 54000000 115000:0 92000:10\n";
    let table = read_table(rt.alloc(), text)?;
    let fixed = nothing_fixed(rt.alloc(), &table)?;
    let found = best_window(rt.alloc(), &table, &fixed)?;
    let best = Window {
        from: 54_000_000,
        due: 54_000_000,
        lambda: 20,
    };
    assert_eq!(rt; found.as_slice().first().copied(), Some(best));
    Ok(())
}

#[test]
fn a_turn_adds_the_second_multiplier_of_three_units(rt: HostRuntime) -> Result<(), Fail> {
    let text =
        b"remux table 1\nslot 4000\nnodes 1\nevaluations 0\nprogram 112\nunit 27200 552:0 368:10\nunit 43200 552:0 368:4\nunit 47200 552:0 368:4\n";
    let table = read_table(rt.alloc(), text)?;
    let fixed = nothing_fixed(rt.alloc(), &table)?;
    let start = best_single(rt.alloc(), &table, &fixed)?;
    let found = improve(rt.alloc(), &table, &fixed, &start, 1)?;
    let first = Multiplier {
        due: 27_200,
        lambda: 2_560,
    };
    let second = Multiplier {
        due: 47_200,
        lambda: 1_024,
    };
    assert_eq!(rt; found.as_slice().first().copied(), Some(first));
    assert_eq!(rt; found.as_slice().get(1).copied(), Some(second));
    assert_eq!(rt; found.len(), 2);
    let relaxed = relaxation(rt.alloc(), &table, &fixed, &Windows::new())?;
    assert_eq!(rt; window_value(&table, &fixed, relaxed.as_slice()), 3_584);
    Ok(())
}

#[test]
fn a_turn_finds_the_lambda_of_a_window(rt: HostRuntime) -> Result<(), Fail> {
    let text =
        b"remux table 1\nslot 40000\nnodes 1\nevaluations 0\nprogram 112\nunit 54000000 115000:0 92000:10\n";
    let table = read_table(rt.alloc(), text)?;
    let fixed = nothing_fixed(rt.alloc(), &table)?;
    let best = Window {
        from: 54_000_000,
        due: 54_000_000,
        lambda: 20,
    };
    let mut start = Windows::new();
    start.push(Window { lambda: 0, ..best });
    let found = improve_windows(rt.alloc(), &table, &fixed, &start, 1)?;
    assert_eq!(rt; found.as_slice().first().copied(), Some(best));
    let relaxed = relaxation(rt.alloc(), &table, &fixed, &Windows::new())?;
    assert_eq!(rt; relaxed.as_slice().first().copied(), Some(best));
    Ok(())
}

/// Asserts that one turn from no multiplier gives this one of a table's text, or none.
fn assert_added(
    rt: &impl Abort,
    alloc: Global,
    text: &[u8],
    added: Option<Multiplier>,
) -> Result<(), Fail> {
    let table = read_table(alloc, text)?;
    let fixed = nothing_fixed(alloc, &table)?;
    let found = improve(alloc, &table, &fixed, &Multipliers::new(), 1)?;
    assert_eq!(rt; found.as_slice().first().copied(), added);
    Ok(())
}

/// The first two versions take three packets, the last one: it costs less from 1,281 a packet on, and there is room for two.
#[test]
fn a_turn_with_versions_of_equal_packets(rt: HostRuntime) -> Result<(), Fail> {
    let text =
        b"remux table 1\nslot 4000\nnodes 1\nevaluations 0\nprogram 112\nunit 27200 552:0 551:3 184:10\n";
    let added = Multiplier {
        due: 27_200,
        lambda: 1_280,
    };
    assert_added(&rt, rt.alloc(), text, Some(added))
}

/// Room for one packet less than none, and one to be sent: the value is two lambdas.
#[test]
fn a_turn_where_room_is_negative_takes_the_greatest_lambda(rt: HostRuntime) -> Result<(), Fail> {
    let text =
        b"remux table 1\nslot 4000\nnodes 1\nevaluations 0\nprogram 112\nunit 20000 184:0\naudio\npacket 19000 19000 184\n";
    let added = Multiplier {
        due: 20_000,
        lambda: 1_099_511_627_776,
    };
    assert_added(&rt, rt.alloc(), text, Some(added))
}

#[test]
fn a_turn_without_units_adds_none(rt: HostRuntime) -> Result<(), Fail> {
    let text = b"remux table 1\nslot 4000\nnodes 1\nevaluations 0\nprogram 112\n";
    assert_added(&rt, rt.alloc(), text, None)
}
