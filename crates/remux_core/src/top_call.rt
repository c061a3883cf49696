ghost use Rattle.std.specs.Prelude.{◌≡◌, ◌⊎◌, map, Some};
ghost use Rattle.std.specs.String.{string_bytes};
ghost use Rattle.shelf_io.specs.Files.{Files};
ghost use Rattle.command_words.specs.declared.status.Status.{Status as AnyStatus};
ghost use Rattle.command_words.specs.Command.{IsCommand};
ghost use Rattle.command_words.specs.Ended.{answer_of};
ghost use Rattle.shelf_io.specs.Facts.{shelf_facts, sink_facts};
ghost use Rattle.command_words.specs.Status.{IsSameStatus};
ghost use Rattle.remux_core.specs.Outcome.{Outcome, WordsCallFor};
ghost use Rattle.remux_core.specs.Private.Performed.{PerformsWords};
ghost use Rattle.remux_core.specs.Promises.{FaultsEnd, NoneFailed};

use audit_command::audit_file;
use audit_command::laws::audit_calls_for_one;
use check_command::check_job;
use check_command::laws::check_calls_for_one;
use check_plan_command::check_plan;
use check_plan_command::laws::check_plan_calls_for_one;
use command_words::{Ended, Parsed, Status, end_with, parse};
use fit_command::fit_job;
use fit_command::laws::fit_calls_for_one;
use gen_command::gen_file;
use gen_command::laws::gen_calls_for_one;
use impossible_command::judge_file;
use impossible_command::laws::impossible_calls_for_one;
use job_report::Report;
use plan_command::laws::plan_calls_for_one;
use plan_command::plan_file;
use probe_command::laws::probe_calls_for_one;
use probe_command::probe_file;
use run_command::laws::run_calls_for_one;
use run_command::run_job;
use shelf_io::{Fault, Shelf, Sink, put_all};
use std::alloc::Global;

/// Runs a command: words, a shelf of files, and a sink for the report line.
///
/// The words `plan TABLE CERT` plan the table text in the file TABLE and write the certificate of the plan to CERT. The words
/// `gen SEED PICTURES OUT` write the generated program of a seed with so many pictures to OUT. `run JOB OUT CERT` plan the
/// programs of the job in JOB, write their stream to OUT and the certificate of the plan to CERT. `check JOB CERT` read the same
/// programs and check the certificate in CERT. `probe FILE PROGRAM TABLE` write the table of one program of FILE to TABLE.
/// `check-plan TABLE CERT` check the certificate in CERT for the table in TABLE. `impossible TABLE` tell whether it is shown of the
/// table in TABLE that no choice is scheduled. `fit JOB LIST` tell in which of the slots in LIST the programs of the job in JOB
/// fit. `audit FILE PROGRAM SLOT` judge one program of FILE, in slots of so many ticks, by the decoder's model. All other words are a
/// usage fault. One line of JSON goes to `out` for each status but want of memory.
pub fn run<K: Shelf, O: Sink>(alloc: Global, words: &[String], shelf: &mut K, out: &mut O) -> Status
    // What the words and files decide, what failed outside, how it is reported, and what every command promises.
    ensures outcome { Outcome (map string_bytes words.now)
        (shelf_facts K.files K.counts K.asked K.since_fault shelf.old)
        (shelf_facts K.files K.counts K.asked K.since_fault shelf.new)
        (sink_facts O.written O.faults O.since_fault out.old)
        (sink_facts O.written O.faults O.since_fault out.new)
        result }

    // A call of the outside that fails is the last one of its kind, and the status tells it.
    ensures faults_end { FaultsEnd
        (shelf_facts K.files K.counts K.asked K.since_fault shelf.old)
        (shelf_facts K.files K.counts K.asked K.since_fault shelf.new)
        (sink_facts O.written O.faults O.since_fault out.old)
        (sink_facts O.written O.faults O.since_fault out.new)
        result }

    // Where no call of the outside failed, the status is the one that words and files call for, unless memory was wanted.
    ensures called_for { (files : Files) (status : AnyStatus) → K.files shelf.old ≡ Some files
        → WordsCallFor (map string_bytes words.now) files status
        → NoneFailed
        (shelf_facts K.files K.counts K.asked K.since_fault shelf.old)
        (shelf_facts K.files K.counts K.asked K.since_fault shelf.new)
        (sink_facts O.written O.faults O.since_fault out.old)
        (sink_facts O.written O.faults O.since_fault out.new)
        → IsSameStatus result status ⊎ (result ≡ Status.OutOfMemory) }

    // Usage is the words' fault alone, whatever the shelf tells.
    ensures usage { result ≡ Status.Usage → IsCommand (map string_bytes words.now) → ⊥ }
    ensures no_command { (IsCommand (map string_bytes words.now) → ⊥)
        → (result ≡ Status.Usage) ⊎ ((result ≡ Status.WriteFault) ⊎ (result ≡ Status.OutOfMemory)) }
{
    // Laws that the clauses stand on: each command is called for one status.
    plan_calls_for_one();
    gen_calls_for_one();
    run_calls_for_one();
    check_calls_for_one();
    probe_calls_for_one();
    check_plan_calls_for_one();
    impossible_calls_for_one();
    fit_calls_for_one();
    audit_calls_for_one();
    let Some(ended) = perform(alloc, words, shelf) else {
        return Status::OutOfMemory;
    };
    match put_all(out, ended.line.as_slice()) {
        Ok(()) => ended.status,
        Err(Fault::Failed) => Status::WriteFault,
        Err(Fault::OutOfMemory) => Status::OutOfMemory,
        Err(Fault::Missing) => unreachable!(),
    }
}

/// Does the work of a command; none for want of memory.
fn perform<K: Shelf>(alloc: Global, words: &[String], shelf: &mut K) -> Option<Ended>
    ensures { PerformsWords (map string_bytes words.now)
        (shelf_facts K.files K.counts K.asked K.since_fault shelf.old)
        (shelf_facts K.files K.counts K.asked K.since_fault shelf.new)
        (answer_of result) }
{
    match parse(words) {
        Some(Parsed::Plan(files)) => plan_file(alloc, &files, shelf),
        Some(Parsed::Gen(words)) => gen_file(alloc, &words, shelf),
        Some(Parsed::Run(files)) => run_job(alloc, &files, shelf),
        Some(Parsed::Check(files)) => check_job(alloc, &files, shelf),
        Some(Parsed::Probe(words)) => probe_file(alloc, &words, shelf),
        Some(Parsed::CheckPlan(files)) => check_plan(alloc, &files, shelf),
        Some(Parsed::Impossible(files)) => judge_file(alloc, &files, shelf),
        Some(Parsed::Fit(files)) => fit_job(alloc, &files, shelf),
        Some(Parsed::Audit(words)) => audit_file(alloc, &words, shelf),
        None => end_with(alloc, Status::Usage, &Report::Usage),
    }
}
