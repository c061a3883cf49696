//! A law of the command, the contract of a function that does nothing.

ghost use Rattle.std.specs.Prelude.{ℕ, List, Some};
ghost use Rattle.shelf_io.specs.Files.{Files};
ghost use Rattle.command_words.specs.declared.status.Status.{Status as AnyStatus};
ghost use Rattle.command_words.specs.Status.{IsSameStatus};
ghost use Rattle.fit_command.specs.FitCommand.{FitCallsFor};

use job_programs::laws::files_have_one_answer;
use program_table::laws::one_table;

/// What JOB, LIST and the files that the job names hold calls for one status.
pub fn fit_calls_for_one()
    ensures { (name list : List ℕ) (files : Files) (status other : AnyStatus) → FitCallsFor name list (Some files) status
        → FitCallsFor name list (Some files) other → IsSameStatus status other }
{
    files_have_one_answer();
    one_table();
}
