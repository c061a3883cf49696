//! Laws of the command, each the contract of a function that does nothing.

ghost use Rattle.std.specs.Prelude.{ℕ, List, Some};
ghost use Rattle.shelf_io.specs.Files.{Files};
ghost use Rattle.command_words.specs.declared.status.Status.{Status as AnyStatus};
ghost use Rattle.command_words.specs.Status.{IsSameStatus};
ghost use Rattle.plan_command.specs.PlanCommand.{PlanCallsFor};

use slot_rule::{first_miss_is_one, no_miss_where_scheduled};
use version_table::{one_reading, smallest_choice_is_one};

/// What TABLE holds calls for one status.
pub fn plan_calls_for_one()
    ensures { (table : List ℕ) (files : Files) (status other : AnyStatus) → PlanCallsFor table (Some files) status
        → PlanCallsFor table (Some files) other → IsSameStatus status other }
{
    one_reading();
    smallest_choice_is_one();
    no_miss_where_scheduled();
    first_miss_is_one();
}
