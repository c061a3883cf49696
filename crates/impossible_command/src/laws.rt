//! A law of the command, the contract of a function that does nothing.

ghost use Rattle.std.specs.Prelude.{ℕ, List, Some};
ghost use Rattle.shelf_io.specs.Files.{Files};
ghost use Rattle.command_words.specs.declared.status.Status.{Status as AnyStatus};
ghost use Rattle.command_words.specs.Status.{IsSameStatus};
ghost use Rattle.impossible_command.specs.ImpossibleCommand.{ImpossibleCallsFor};

use version_table::one_reading;

/// What TABLE holds calls for one status.
pub fn impossible_calls_for_one()
    ensures { (table : List ℕ) (files : Files) (status other : AnyStatus) → ImpossibleCallsFor table (Some files) status
        → ImpossibleCallsFor table (Some files) other → IsSameStatus status other }
{
    one_reading();
}
