use std::test::Fail;
use version_table::read_table;
use window_slots::longest_slot;

#[test]
fn three_packets_want_shorter_slots(rt: HostRuntime) -> Result<(), Fail> {
    let text = b"remux table 1\nslot 4000\nnodes 1\nevaluations 0\nprogram 112\nunit 27200 552:0\n";
    let table = read_table(rt.alloc(), text)?;
    let longest = longest_slot(&table, 27_200, 27_200, 3);
    assert_eq!(rt; longest, Some(3_333));
    assert_eq!(rt; longest_slot(&table, 27_200, 27_200, 2), Some(4_000));
    assert_eq!(rt; longest_slot(&table, 27_200, 27_200, 16), Some(1_052));
    assert_eq!(rt; longest_slot(&table, 27_200, 27_200, 17), None);
    Ok(())
}

#[test]
fn audio_in_the_window_wants_shorter_slots(rt: HostRuntime) -> Result<(), Fail> {
    let text =
        b"remux table 1\nslot 4000\nnodes 1\nevaluations 0\nprogram 112\nunit 27200 552:0\naudio\npacket 19000 19000 184\npacket 27200 27200 184\n";
    let table = read_table(rt.alloc(), text)?;
    assert_eq!(rt; longest_slot(&table, 27_200, 27_200, 3), Some(2_857));
    assert_eq!(rt; longest_slot(&table, 19_000, 27_200, 3), Some(2_500));
    Ok(())
}

#[test]
fn a_late_window_may_lose_room_in_shorter_slots(rt: HostRuntime) -> Result<(), Fail> {
    let text =
        b"remux table 1\nslot 40000\nnodes 1\nevaluations 0\nprogram 112\nunit 54000000 110768:0\n";
    let table = read_table(rt.alloc(), text)?;
    assert_eq!(rt;
        longest_slot(&table, 54_000_000, 54_000_000, 602),
        Some(39_847)
    );
    Ok(())
}
