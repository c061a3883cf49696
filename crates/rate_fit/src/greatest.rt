//! The greatest of some slots that is scheduled.

ghost use Rattle.std.specs.Prelude.{◌≡◌, length};
ghost use Rattle.version_table.specs.declared.table.Table.{Table as AnyTable};
ghost use Rattle.rate_fit.specs.Fit.{AreVerdicts, IsGreatestFit};
ghost use Rattle.rate_fit.specs.Private.Greatest.{IsGreatestSaid, with_verdict};

use crate::laws::verdict_is_one;
use crate::verdict::Verdict;

/// The greatest slot that is scheduled, by the verdicts on some slots; none where none is.
pub fn greatest_fit(slots: &[u32], verdicts: &[Verdict]) -> Option<u32>
    requires { length verdicts.now ≡ length slots.now }
    ensures { (table : AnyTable) → AreVerdicts table slots.now verdicts.now → IsGreatestFit table slots.now result }
{
    verdict_is_one();
    greatest_said(slots, verdicts)
}

/// The greatest slot of which it is said.
fn greatest_said(slots: &[u32], verdicts: &[Verdict]) -> Option<u32>
    requires { length verdicts.now ≡ length slots.now }
    ensures { IsGreatestSaid slots.now verdicts.now (length slots.now) result }
{
    let mut greatest = None;
    for at in 0..slots.len() {
        greatest = greater_said(greatest, slots[at], &verdicts[at]);
    }
    greatest
}

/// The greatest slot of which it is said, with one more.
fn greater_said(greatest: Option<u32>, slot: u32, verdict: &Verdict) -> Option<u32>
    ensures { result ≡ with_verdict greatest slot verdict.now }
{
    match verdict {
        Verdict::Scheduled => match greatest {
            Some(other) => Some(other.max(slot)),
            None => Some(slot),
        },
        Verdict::Missed(_) => greatest,
        Verdict::Limit => greatest,
    }
}
