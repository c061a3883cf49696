ghost use Rattle.std.specs.Prelude.{◌≤◌, All};
ghost use Rattle.version_table.specs.declared.limits.TheConstants.{SLOT_LEAST};

use rate_fit::{Verdict, fit, greatest_fit, longest};
use slot_rule::Miss;
use std::alloc::Global;
use std::process::Abort;
use std::test::Fail;
use version_table::read_table;

/// Asserts the verdicts on the table of a text, whose slot is the longest of these, and the greatest slot in which it fits.
fn assert_verdicts(
    rt: &impl Abort,
    alloc: Global,
    text: &[u8],
    slots: &[u32],
    came: &[Verdict],
    fits: Option<u32>,
) -> Result<(), Fail>
    requires { All (λ slot. SLOT_LEAST ≤ slot) slots.now }
{
    let table = read_table(alloc, text)?;
    assert_eq!(rt; table.slot, longest(slots));
    let verdicts = fit(alloc, table, slots)?;
    let greatest = greatest_fit(slots, verdicts.as_slice());
    assert_eq!(rt; verdicts.as_slice(), came);
    assert_eq!(rt; greatest, fits);
    Ok(())
}

/// A first miss in stream 0.
fn missed(unit: u32, slot: u32, due: u64) -> Verdict {
    Verdict::Missed(Miss {
        stream: 0,
        unit,
        slot,
        due,
    })
}

#[test]
fn what_is_just_in_time_is_late_in_longer_slots(rt: HostRuntime) -> Result<(), Fail> {
    let text =
        b"remux table 1\nslot 4000\nnodes 4\nevaluations 0\nprogram 112\nunit 36936 1840:0\n";
    let came = [Verdict::Scheduled, missed(0, 7, 36_936)];
    assert_verdicts(&rt, rt.alloc(), text, &[1_080, 4_000], &came, Some(1_080))?;
    let came = [missed(0, 7, 36_936)];
    assert_verdicts(&rt, rt.alloc(), text, &[4_000], &came, None)
}

#[test]
fn longer_slots_may_fit_where_shorter_ones_do_not(rt: HostRuntime) -> Result<(), Fail> {
    let text =
        b"remux table 1\nslot 4001\nnodes 1\nevaluations 0\nprogram 1\nunit 80000 1840:0\nunit 91200 368:0\n";
    let came = [
        missed(1, 21, 91_200),
        Verdict::Scheduled,
        missed(1, 20, 91_200),
    ];
    assert_verdicts(
        &rt,
        rt.alloc(),
        text,
        &[3_999, 4_000, 4_001],
        &came,
        Some(4_000),
    )
}

#[test]
fn a_stream_has_so_many_slots(rt: HostRuntime) -> Result<(), Fail> {
    let text =
        b"remux table 1\nslot 1017\nnodes 1\nevaluations 0\nprogram 112\nunit 2181843386369 184:0\n";
    let came = [Verdict::Limit, Verdict::Scheduled];
    assert_verdicts(&rt, rt.alloc(), text, &[1_016, 1_017], &came, Some(1_017))
}
