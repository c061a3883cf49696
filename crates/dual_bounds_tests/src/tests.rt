use dual_bounds::{
    Multiplier, Window, bound_of, capacity, dual_value, nothing_fixed, window_capacity,
    window_value,
};
use std::test::Fail;
use version_table::read_table;

#[test]
fn three_units_have_the_bound_14(rt: HostRuntime) -> Result<(), Fail> {
    let text =
        b"remux table 1\nslot 4000\nnodes 1\nevaluations 0\nprogram 112\nunit 27200 552:0 368:10\nunit 43200 552:0 368:4\nunit 47200 552:0 368:4\n";
    let table = read_table(rt.alloc(), text)?;
    let fixed = nothing_fixed(rt.alloc(), &table)?;
    assert_eq!(rt; capacity(&table, 27_200), 2);
    assert_eq!(rt; capacity(&table, 43_200), 6);
    assert_eq!(rt; capacity(&table, 47_200), 7);
    let first = Multiplier {
        due: 27_200,
        lambda: 2_560,
    };
    let second = Multiplier {
        due: 47_200,
        lambda: 1_024,
    };
    assert_eq!(rt; dual_value(&table, &fixed, &[first]), 2_560);
    assert_eq!(rt; dual_value(&table, &fixed, &[first, second]), 3_584);
    assert_eq!(rt; bound_of(3_584), 14);
    Ok(())
}

#[test]
fn a_window_bounds_what_no_multiplier_does(rt: HostRuntime) -> Result<(), Fail> {
    let text =
        b"remux table 1\nslot 40000\nnodes 1\nevaluations 0\nprogram 112\nunit 54000000 115000:0 92000:10\n";
    let table = read_table(rt.alloc(), text)?;
    let fixed = nothing_fixed(rt.alloc(), &table)?;
    assert_eq!(rt; window_capacity(&table, 0, 54_000_000), 1_199);
    assert_eq!(rt; window_capacity(&table, 54_000_000, 54_000_000), 599);
    let window = Window {
        from: 54_000_000,
        due: 54_000_000,
        lambda: 20,
    };
    let multiplier = Multiplier {
        due: 54_000_000,
        lambda: 20,
    };
    assert_eq!(rt; window_value(&table, &fixed, &[window]), 520);
    assert_eq!(rt; dual_value(&table, &fixed, &[multiplier]), -11_480);
    assert_eq!(rt; bound_of(520), 3);
    assert_eq!(rt; bound_of(-11_480), 0);
    Ok(())
}

#[test]
fn audio_takes_room(rt: HostRuntime) -> Result<(), Fail> {
    let text =
        b"remux table 1\nslot 4000\nnodes 1\nevaluations 0\nprogram 112\naudio\npacket 19000 19000 184\npacket 27200 27200 184\n";
    let table = read_table(rt.alloc(), text)?;
    let fixed = nothing_fixed(rt.alloc(), &table)?;
    assert_eq!(rt; capacity(&table, 20_000), -1);
    assert_eq!(rt; capacity(&table, 27_200), 0);
    assert_eq!(rt; window_capacity(&table, 19_001, 27_200), 1);
    let greatest = Multiplier {
        due: 20_000,
        lambda: 1_099_511_627_776,
    };
    assert_eq!(rt; dual_value(&table, &fixed, &[greatest]), 1_099_511_627_776);
    assert_eq!(rt; dual_value(&table, &fixed, &[]), 0);
    Ok(())
}
