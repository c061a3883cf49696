//! A law of the command, the contract of a function that does nothing.

ghost use Rattle.std.specs.Prelude.{ℕ, List, Some};
ghost use Rattle.shelf_io.specs.Files.{Files};
ghost use Rattle.command_words.specs.declared.status.Status.{Status as AnyStatus};
ghost use Rattle.command_words.specs.Status.{IsSameStatus};
ghost use Rattle.check_command.specs.CheckCommand.{CheckCallsFor};

use bound_certificate::laws::one_reading;
use certificate_checker::laws::{first_fault_is_one, no_fault_of_the_faultless};
use job_files::laws::job_calls_for_one;

/// What JOB, the files that it names and CERT hold calls for one status.
pub fn check_calls_for_one()
    ensures { (job certificate : List ℕ) (files : Files) (status other : AnyStatus) → CheckCallsFor job certificate (Some files) status
        → CheckCallsFor job certificate (Some files) other → IsSameStatus status other }
{
    one_reading();
    no_fault_of_the_faultless();
    first_fault_is_one();
    job_calls_for_one();
}
