//! Runs over a shelf in memory.

use program_maker::make_program;
use remux_core::run;
use shelf_io::{Fault, VecSink};
use shelf_kinds::{CalmShelf, MemShelf, MemSink};
use std::alloc::{AllocError, Global};
use std::test::Fail;

/// A job of the program in `a.ts` at 10.152 Mbit/s, more than it needs.
pub const ROOMY: &str = "slot = 4000\n[[program]]\nfile = \"a.ts\"\nprogram = 1\nnumber = 1\n";

/// The same at 1.504 Mbit/s, with a small plan.
pub const TIGHT: &str =
    "slot = 27000\nnodes = 20\nevaluations = 100\n[[program]]\nfile = \"a.ts\"\nprogram = 1\nnumber = 1\n";

/// What a run printed, and left in its files.
#[derive(Drop)]
pub struct Ran {
    pub code: u8,
    pub line: Vec<u8>,
    pub stream: Vec<u8>,
    pub certificate: Vec<u8>,
}

/// The words of `run`.
pub fn run_words(alloc: Global) -> Result<Vec<String>, AllocError> {
    let mut all = Vec::new(alloc);
    for word in ["run", "job.toml", "out.ts", "run.cert"] {
        all.push(String::from_str(alloc, word)?)?;
    }
    Ok(all)
}

/// What a probe printed, and the table that it wrote.
#[derive(Drop)]
pub struct Probed {
    pub code: u8,
    pub line: Vec<u8>,
    pub table: Vec<u8>,
}

/// Probes program 1 of a file `a.ts`.
pub fn probe_over(alloc: Global, file: &[u8]) -> Result<Probed, Fail> {
    let mut words = Vec::new(alloc);
    for word in ["probe", "a.ts", "1", "table.txt"] {
        words.push(String::from_str(alloc, word)?)?;
    }
    let mut shelf = CalmShelf::new(alloc);
    shelf.put_file("a.ts", file)?;
    let mut out = VecSink::new(alloc);
    let status = run(alloc, words.as_slice(), &mut shelf, &mut out);
    Ok(Probed {
        code: status.code(),
        line: content(alloc, Some(out.bytes()))?,
        table: content(alloc, shelf.file("table.txt"))?,
    })
}

/// The bytes of a file, none where it isn't there.
fn content(alloc: Global, file: Option<&[u8]>) -> Result<Vec<u8>, AllocError> {
    let mut bytes = Vec::new(alloc);
    bytes.extend_from_slice(file.unwrap_or(&[]))?;
    Ok(bytes)
}

/// Runs a job over a file `a.ts`.
pub fn run_over(alloc: Global, job: &str, file: &[u8]) -> Result<Ran, Fail> {
    let mut shelf = CalmShelf::new(alloc);
    shelf.put_file("a.ts", file)?;
    run_on(alloc, job, shelf)
}

/// Runs a job over the files of a shelf.
pub fn run_on(alloc: Global, job: &str, mut shelf: CalmShelf) -> Result<Ran, Fail> {
    let words = run_words(alloc)?;
    shelf.put_file("job.toml", job.as_bytes())?;
    let mut out = VecSink::new(alloc);
    let status = run(alloc, words.as_slice(), &mut shelf, &mut out);
    Ok(Ran {
        code: status.code(),
        line: content(alloc, Some(out.bytes()))?,
        stream: content(alloc, shelf.file("out.ts"))?,
        certificate: content(alloc, shelf.file("run.cert"))?,
    })
}

/// A shelf on which the job and a generated program of twelve pictures stand, and whose call with this number fails.
pub fn failing_shelf(alloc: Global, job: &str, call: u64) -> Result<MemShelf, Fail> {
    let file = make_program(alloc, 1, 12)?;
    let mut shelf = MemShelf::new(alloc, vec![in alloc; call]?);
    shelf.put_file("job.toml", job.as_bytes())?;
    shelf.put_file("a.ts", file.as_slice())?;
    Ok(shelf)
}

/// The exit status of a run over it.
pub fn code_over(alloc: Global, shelf: &mut MemShelf) -> Result<u8, AllocError> {
    let words = run_words(alloc)?;
    let mut out = MemSink::new(alloc, Vec::new(alloc));
    Ok(run(alloc, words.as_slice(), shelf, &mut out).code())
}

/// Whether bytes begin and end with these texts.
pub fn is_between(bytes: &[u8], begin: &str, end: &str) -> bool {
    bytes.starts_with(begin.as_bytes()) && bytes.ends_with(end.as_bytes())
}
