//! A run over a shelf that moves few bytes a call is the run over one that moves them at once.
ghost use Rattle.std.specs.Prelude.{◌≤◌};

use crate::calls::words_of;
use program_maker::make_program;
use remux_core::run;
use shelf_io::{Shelf, VecSink};
use shelf_kinds::{CalmShelf, ShortShelf};
use std::alloc::Global;
use std::test::Fail;

const JOB: &str = "slot = 4000\n[[program]]\nfile = \"a.ts\"\nprogram = 1\nnumber = 1\n";

/// A shelf that holds a job and its program.
fn shelf_of(alloc: Global) -> Result<CalmShelf, Fail> {
    let mut shelf = CalmShelf::new(alloc);
    shelf.put_file("j", JOB.as_bytes())?;
    let program = make_program(alloc, 1, 12)?;
    shelf.put_file("a.ts", program.as_slice())?;
    Ok(shelf)
}

/// The exit status of a run over a shelf, and its line.
fn run_over<K: Shelf>(alloc: Global, shelf: &mut K) -> Result<(u8, VecSink), Fail> {
    let words = words_of(alloc, &["run", "j", "o", "c"])?;
    let mut out = VecSink::new(alloc);
    let status = run(alloc, words.as_slice(), shelf, &mut out);
    Ok((status.code(), out))
}

/// Whether a run with at most so many bytes a call ends as the whole one, with the same line and files.
fn is_same(alloc: Global, limit: u32, whole: &CalmShelf, line: &VecSink) -> Result<bool, Fail>
    requires { 1 ≤ limit }
{
    let mut shelf = ShortShelf::new(shelf_of(alloc)?, limit);
    let (code, out) = run_over(alloc, &mut shelf)?;
    Ok(
        code == 0
            && out.bytes() == line.bytes()
            && shelf.file("o") == whole.file("o")
            && shelf.file("c") == whole.file("c"),
    )
}

#[test]
fn a_run_in_short_calls_is_the_same(rt: HostRuntime) -> Result<(), Fail> {
    let alloc = rt.alloc();
    let mut whole = shelf_of(alloc)?;
    let (code, line) = run_over(alloc, &mut whole)?;
    let length = whole.file("o").map(|bytes| bytes.len());
    let same = [
        is_same(alloc, 1, &whole, &line)?,
        is_same(alloc, 7, &whole, &line)?,
        is_same(alloc, 188, &whole, &line)?,
    ];
    assert_eq!(rt; (code, length, same), (0, Some(1_065_960), [true; 3]));
    Ok(())
}
