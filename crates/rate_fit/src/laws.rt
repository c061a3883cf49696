//! A law of verdicts, the contract of a function that does nothing.

ghost use Rattle.std.specs.Prelude.{◌≡◌};
ghost use Rattle.version_table.specs.declared.table.Table.{Table as AnyTable};
ghost use Rattle.rate_fit.specs.declared.verdict.Verdict.{Verdict as AnyVerdict};
ghost use Rattle.rate_fit.specs.Fit.{IsSlotVerdict};

use slot_rule::{first_miss_is_one, no_miss_where_scheduled};
use version_table::smallest_choice_is_one;

/// There is one verdict on a table in its slots.
pub fn verdict_is_one()
    ensures { (table : AnyTable) (one other : AnyVerdict) → IsSlotVerdict table one → IsSlotVerdict table other → one ≡ other }
{
    smallest_choice_is_one();
    first_miss_is_one();
    no_miss_where_scheduled();
}
