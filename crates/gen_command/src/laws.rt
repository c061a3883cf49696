//! A law of the command, the contract of a function that does nothing.

ghost use Rattle.command_words.specs.declared.status.Status.{Status as AnyStatus};
ghost use Rattle.command_words.specs.Status.{IsSameStatus};
ghost use Rattle.gen_command.specs.GenCommand.{GenCallsFor};

/// Whatever the files hold, one status is called for.
pub fn gen_calls_for_one()
    ensures { (status other : AnyStatus) → GenCallsFor status → GenCallsFor other → IsSameStatus status other }
{}
