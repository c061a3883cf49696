//! Laws of the top call.

ghost use Rattle.std.specs.Prelude.{◌≡◌, ◌⊎◌, List, ℕ, Option, Some, map};
ghost use Rattle.std.specs.String.{string_bytes};
ghost use Rattle.shelf_io.specs.Files.{Files};
ghost use Rattle.program_reader.specs.declared.program.Program.{Program};
ghost use Rattle.version_table.specs.declared.table.Table.{Table};
ghost use Rattle.version_table.specs.Choice.{IsSmallestChoice};
ghost use Rattle.slot_rule.specs.Schedule.{IsScheduled};
ghost use Rattle.command_words.specs.declared.status.JobRefusal.{JobRefusal};
ghost use Rattle.command_words.specs.declared.status.Status.{Status as AnyStatus};
ghost use Rattle.command_words.specs.Answer.{HasCause};
ghost use Rattle.command_words.specs.Command.{IsPlanCommand, IsGenCommand, IsProbeCommand, IsRunCommand, Command as AnyCommand};
ghost use Rattle.shelf_io.specs.Facts.{ShelfFacts};
ghost use Rattle.command_words.specs.Status.{IsSameStatus, TellsStatus};
ghost use Rattle.check_command.specs.CheckCommand.{CheckCallsFor};
ghost use Rattle.check_plan_command.specs.CheckPlanCommand.{CheckPlanCallsFor};
ghost use Rattle.plan_command.specs.PlanCommand.{HoldsTable, PlanCallsFor, PlanDone};
ghost use Rattle.probe_command.specs.ProbeCommand.{HoldsProbed, IsProbedTable, ProbeDone};
ghost use Rattle.run_command.specs.RunCommand.{RunDone};
ghost use Rattle.remux_core.specs.Outcome.{WordsCallFor};
ghost use Rattle.remux_core.specs.Tasks.{task_of};

use crate::top_call::run;
use audit_command::laws::audit_calls_for_one;
use check_command::laws::check_calls_for_one;
use check_plan_command::laws::check_plan_calls_for_one;
use command_words::Status;
use fit_command::laws::fit_calls_for_one;
use gen_command::laws::gen_calls_for_one;
use impossible_command::laws::impossible_calls_for_one;
use plan_command::laws::plan_calls_for_one;
use probe_command::laws::probe_calls_for_one;
use run_command::laws::run_calls_for_one;
use shelf_io::VecSink;
use shelf_kinds::CalmShelf;
use std::alloc::Global;
use version_table::{one_reading, spelling_is_read};

/// Words and files call for one status.
pub fn one_status_is_called_for()
    ensures { (words : List (List ℕ)) (files : Files) (status other : AnyStatus) → WordsCallFor words files status
        → WordsCallFor words files other → IsSameStatus status other }
{
    plan_calls_for_one();
    gen_calls_for_one();
    run_calls_for_one();
    check_calls_for_one();
    probe_calls_for_one();
    check_plan_calls_for_one();
    impossible_calls_for_one();
    fit_calls_for_one();
    audit_calls_for_one();
}

/// The line of each status but that of work that was done tells the exit status.
pub fn lines_tell_their_status()
    ensures { (command : Option AnyCommand) (old new : ShelfFacts) (status : AnyStatus) (line : List ℕ) → HasCause (task_of command) old new status line
        → (status ≡ Status.Ok → ⊥) → TellsStatus status line }
{}

/// What `run` leaves, `check` accepts: the files after the work of `run JOB OUT CERT` call for status 0 of `check JOB CERT`.
pub fn check_accepts_runs()
    ensures { (words : List (List ℕ)) (job out certificate : List ℕ) (files after : Files) (line : List ℕ) → IsRunCommand words job out certificate
        → RunDone job out certificate files line after → CheckCallsFor job certificate (Some after) Status.Ok }
{}

/// What `plan` leaves, `check-plan` accepts: the files after the work of `plan TABLE CERT` call for status 0 of `check-plan TABLE CERT`.
pub fn check_plan_accepts_plans()
    ensures { (words : List (List ℕ)) (table certificate : List ℕ) (files after : Files) (line : List ℕ) → IsPlanCommand words table certificate
        → PlanDone table certificate files line after → CheckPlanCallsFor table certificate (Some after) Status.Ok }
{}

/// What `probe` leaves in TABLE, `plan` reads: it is the text of the program's table, and no status 3 is called for.
pub fn plan_takes_probed_tables()
    ensures reads { (file : List ℕ) (number : ℕ) (name : List ℕ) (files after : Files) (line : List ℕ) → ProbeDone file number name files line after
        → (program : Program) × (table : Table) × HoldsProbed (Some files) file number program × IsProbedTable program table × HoldsTable (Some after) name table }
    ensures refuses_none { (file : List ℕ) (number : ℕ) (name : List ℕ) (files after : Files) (line : List ℕ) (refusal : JobRefusal)
        → ProbeDone file number name files line after → PlanCallsFor name (Some after) (Status.JobRefused refusal) → ⊥ }
{
    spelling_is_read();
    one_reading();
}

/// A run over a shelf and a sink that never fail: it ends as its words and files call for, or for want of memory.
pub fn calm_run(alloc: Global, words: &[String], shelf: &mut CalmShelf, out: &mut VecSink) -> Status
    ensures called_for { (status : AnyStatus) → WordsCallFor (map string_bytes words.now) shelf.old.files status
        → IsSameStatus result status ⊎ (result ≡ Status.OutOfMemory) }
    // So each table whose smallest choice is scheduled is planned.
    ensures plans { (name certificate : List ℕ) (table : Table) → IsPlanCommand (map string_bytes words.now) name certificate
        → HoldsTable (Some shelf.old.files) name table
        → ((choice : List ℕ) → IsSmallestChoice table choice → IsScheduled table choice)
        → (result ≡ Status.Ok) ⊎ (result ≡ Status.OutOfMemory) }
    // The table of each program that a file holds is made.
    ensures probes { (file : List ℕ) (number : ℕ) (name : List ℕ) (program : Program) → IsProbeCommand (map string_bytes words.now) file number name
        → HoldsProbed (Some shelf.old.files) file number program
        → (result ≡ Status.Ok) ⊎ (result ≡ Status.OutOfMemory) }
    // And each program that is asked for is made.
    ensures makes { (seed pictures : ℕ) (name : List ℕ) → IsGenCommand (map string_bytes words.now) seed pictures name
        → (result ≡ Status.Ok) ⊎ (result ≡ Status.OutOfMemory) }
{
    run(alloc, words, shelf, out)
}
