use crate::{CostStep, CostSweep, SortedSteps};
use std::test::Fail;

#[test]
fn a_sweep_charges_what_is_due(rt: HostRuntime) -> Result<(), Fail> {
    let late = CostStep {
        due: 9,
        from: 0,
        rise: 5,
        packets: 3,
        fewer: 0,
    };
    let early = CostStep {
        due: 4,
        from: 0,
        rise: 1,
        packets: 2,
        fewer: 0,
    };
    let lower = CostStep {
        due: 4,
        from: 3,
        rise: 4,
        packets: 0,
        fewer: 2,
    };
    let steps = vec![in rt.alloc(); late, early, lower]?;
    let sorted = SortedSteps::new(rt.alloc(), steps)?;
    let mut sweep = CostSweep::new(rt.alloc(), &sorted)?;
    assert_eq!(rt; sweep.next_due(), Some(4));
    let below = sweep.costs(2);
    assert_eq!(rt; below.paid, 10);
    assert_eq!(rt; below.spared, 0);
    let at = sweep.costs(3);
    assert_eq!(rt; at.paid, 16);
    assert_eq!(rt; at.spared, 6);
    assert_eq!(rt; sweep.next_due(), Some(9));
    let last = sweep.costs(3);
    assert_eq!(rt; last.paid, 25);
    assert_eq!(rt; last.spared, 6);
    assert_eq!(rt; sweep.next_due(), None);
    Ok(())
}
