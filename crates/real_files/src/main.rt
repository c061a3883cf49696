//! A file written and read back over the real shelf and the real sink: what no clause tells of them, since they tell no contents.
//!
//! It makes a file, adds to it and puts what stands at some places of it, one line each; `rt ci` compares the lines.
#![tactic(auto)]

use shelf_io::{Fault, Shelf, Sink, Writing, put_all, write_file};
use shelf_kinds::{FileShelf, OutSink};
use std::process::ExitCode;

/// The file that is written, in the working folder.
const NAME: &str = "written.bin";
/// How many bytes are asked for at each place.
const ASKED: usize = 4;

fn main(rt: HostRuntime) -> ExitCode {
    match tell_files(&mut FileShelf::new(&rt), &mut OutSink::new(&rt)) {
        Ok(()) => ExitCode::from(0),
        Err(_) => ExitCode::from(1),
    }
}

/// Writes a file, adds to it, and writes it anew; each time it puts what some places hold.
fn tell_files<K: Shelf, O: Sink>(shelf: &mut K, out: &mut O) -> Result<(), Fault> {
    tell_place(shelf, 0, out)?;
    write_file(shelf, NAME, b"01234567")?;
    tell_place(shelf, 0, out)?;
    tell_place(shelf, 3, out)?;
    put_all(&mut Writing::new(shelf, NAME), b"89")?;
    tell_place(shelf, 5, out)?;
    tell_place(shelf, 8, out)?;
    tell_place(shelf, 10, out)?;
    tell_place(shelf, 11, out)?;
    write_file(shelf, NAME, b"ab")?;
    tell_place(shelf, 0, out)
}

/// Puts the bytes that stand in the file from a place on, as many as one call gives; a word where there is no file.
fn tell_place<K: Shelf, O: Sink>(shelf: &mut K, place: u64, out: &mut O) -> Result<(), Fault> {
    let mut bytes = [0u8; ASKED];
    match shelf.read(NAME, place, &mut bytes) {
        Ok(count) => put_all(out, &bytes[..count])?,
        Err(Fault::Missing) => put_all(out, b"missing")?,
        Err(fault) => return Err(fault),
    }
    put_all(out, b"\n")
}
