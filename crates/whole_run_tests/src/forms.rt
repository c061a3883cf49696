//! A job of files of both forms: the PES packets of a generated program in a transport stream and in a program stream.

use crate::second_run::{have_same_audio, have_same_times};
use crate::shelves::run_on;
use job_report::Form;
use program_maker::{in_program_stream, make_program};
use program_reader::{Program, read_program};
use shelf_kinds::CalmShelf;
use std::test::Fail;
use ts_demux::demux;

/// When the earliest time is due, in ticks: as jobs have it that don't state another one.
const START: u64 = 13_500_000;

/// A job of both files at 20.304 Mbit/s, more than they need.
const BOTH: &str = "slot = 2000\n[[program]]\nfile = \"a.ts\"\nprogram = 1\nnumber = 1\n\
    [[program]]\nfile = \"a.mpg\"\nprogram = 1\nnumber = 2\nform = \"ps\"\n";

/// Whether two programs have the same pictures, times and audio.
fn are_alike(source: &Program, sent: &Program) -> bool {
    have_same_times(source, sent)
        && have_same_audio(source, sent)
        && source.video.as_slice() == sent.video.as_slice()
}

/// In a channel with room each goes out in its own pictures, and there is no difference.
#[test]
fn both_forms_go_out_alike(rt: HostRuntime) -> Result<(), Fail> {
    let alloc = rt.alloc();
    let file = make_program(alloc, 1, 12)?;
    let other = in_program_stream(alloc, &demux(alloc, file.as_slice(), 1, &[])?)?;
    let source = read_program(alloc, file.as_slice(), Form::Ts, 1, &[], START)?;
    let mut shelf = CalmShelf::new(alloc);
    shelf.put_file("a.ts", file.as_slice())?;
    shelf.put_file("a.mpg", other.as_slice())?;
    let ran = run_on(alloc, BOTH, shelf)?;
    assert_eq!(rt; ran.code, 0);
    for number in [1, 2] {
        let sent = read_program(alloc, ran.stream.as_slice(), Form::Ts, number, &[], START)?;
        assert!(rt; are_alike(&source, &sent));
    }
    Ok(())
}
