//! A law of the command, the contract of a function that does nothing.

ghost use Rattle.std.specs.Prelude.{ℕ, List, Some};
ghost use Rattle.shelf_io.specs.Files.{Files};
ghost use Rattle.command_words.specs.declared.status.Status.{Status as AnyStatus};
ghost use Rattle.command_words.specs.Status.{IsSameStatus};
ghost use Rattle.run_command.specs.RunCommand.{RunCallsFor};

use job_files::laws::job_calls_for_one;
use slot_rule::{first_miss_is_one, no_miss_where_scheduled};
use version_table::smallest_choice_is_one;

/// What JOB and the files that it names hold calls for one status.
pub fn run_calls_for_one()
    ensures { (job out certificate : List ℕ) (files : Files) (status other : AnyStatus) → RunCallsFor job out certificate (Some files) status
        → RunCallsFor job out certificate (Some files) other → IsSameStatus status other }
{
    smallest_choice_is_one();
    no_miss_where_scheduled();
    first_miss_is_one();
    job_calls_for_one();
}
