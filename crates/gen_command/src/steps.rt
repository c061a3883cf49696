ghost use Rattle.std.specs.Prelude.{◌≤◌};
ghost use Rattle.command_words.specs.Ended.{PerformsOn};
ghost use Rattle.gen_command.specs.GenCommand.{gen_task_of};

use crate::report::gen_report;
use command_words::{Ended, GenWords, Status, end_unwritten, end_with};
use program_maker::{PICTURES_MOST, make_program};
use shelf_io::{Fault, Shelf, write_file};
use std::alloc::Global;

/// Does the work of `gen SEED PICTURES OUT`; none for want of memory. OUT is started once the program and the report stand.
pub fn gen_file<K: Shelf>(alloc: Global, words: &GenWords<'_>, shelf: &mut K) -> Option<Ended>
    requires { words.now.pictures ≤ PICTURES_MOST }
    ensures { PerformsOn K.files K.counts K.asked K.since_fault shelf.old shelf.new (gen_task_of words.now) result }
{
    let Ok(program) = make_program(alloc, words.seed, words.pictures) else {
        return None;
    };
    let done = end_with(
        alloc,
        Status::Ok,
        &gen_report(program.as_slice(), words.pictures),
    )?;
    match write_file(shelf, words.out, program.as_slice()) {
        Ok(()) => Some(done),
        Err(Fault::Failed) => end_unwritten(alloc, words.out),
        Err(Fault::OutOfMemory) => None,
        Err(Fault::Missing) => unreachable!(),
    }
}
