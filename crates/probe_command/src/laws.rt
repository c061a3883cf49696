//! A law of the command, the contract of a function that does nothing.

ghost use Rattle.std.specs.Prelude.{ℕ, List, Some};
ghost use Rattle.shelf_io.specs.Files.{Files};
ghost use Rattle.command_words.specs.declared.status.Status.{Status as AnyStatus};
ghost use Rattle.command_words.specs.Status.{IsSameStatus};
ghost use Rattle.probe_command.specs.ProbeCommand.{ProbeCallsFor};

use job_programs::laws::probed_file_has_one_answer;

/// What FILE holds calls for one status.
pub fn probe_calls_for_one()
    ensures { (file : List ℕ) (number : ℕ) (files : Files) (status other : AnyStatus) → ProbeCallsFor file number (Some files) status
        → ProbeCallsFor file number (Some files) other → IsSameStatus status other }
{
    probed_file_has_one_answer();
}
