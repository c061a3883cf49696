//! Makes the versions of the pictures of an elementary stream, so that they can be compared, decoded and measured
//! (bench/README.md).
//!
//! The words are what is done, the stream's file, for `write` the file that is written, and ratios in sixteenths, at most
//! seven. `read` goes through each unit with `check_picture` alone; `sizes` asks `size_picture` too, with one ladder; `last` makes the version at
//! the last ratio by `version_of`, or version 0 where there is no ratio; `write` writes that; `compare` makes all versions
//! and compares them with what `sizes_of` says; `rewrite` reads each picture, writes it with `write_picture` and reads that
//! again. It prints how many units were taken, the first refusal, how many differ and the first of them, and the bytes and
//! the distortion of each version over all units, or the bytes that were written.
mod made;
mod rewrite;
mod same;
mod stream;
mod totals;

use crate::versions::made::{RATIOS_MOST, Task};
use crate::versions::stream::stream_of;
use arrayvec::ArrayVec;
use std::io::Write;
use std::rt::Files;
use std::{fs, io};

/// Does what the words say.
pub fn work(rt: &HostRuntime, words: &[String]) -> io::Result<()> {
    let [what, from, rest @ ..] = words else {
        return println!(rt;
            "bench_pictures versions read|sizes|last|compare|rewrite STREAM [RATIO ..], or write STREAM OUT [RATIO ..]"
        );
    };
    let task = Task::named(what.as_str());
    let ratios = ratios_of(rest);
    let file = fs::read(rt, from.as_str())?;
    let made = match stream_of(rt.alloc(), task, file.as_slice(), &ratios) {
        Ok(made) => made,
        Err(fault) => return println!(rt; "{fault}"),
    };
    println!(rt; "{} bytes, {} units taken", file.len(), made.taken)?;
    if let Some(fault) = made.refused {
        println!(rt; "the next one is refused: {fault}")?;
    }
    println!(rt; "{} units that differ", made.different)?;
    if let Some(number) = made.first_different {
        println!(rt; "the first of them is unit {number}")?;
    }
    for number in 0..made.totals.count() {
        let size = made.totals.size(number);
        println!(rt; "{} bytes, distortion {}", size.bytes, size.distortion)?;
    }
    match task {
        Task::Write => write_file(rt, rest, made.bytes.as_slice()),
        _ => Ok(()),
    }
}

/// The ratios among the words, as many as there may be.
fn ratios_of(words: &[String]) -> ArrayVec<u16, RATIOS_MOST> {
    let mut ratios = ArrayVec::new();
    for word in words {
        if let Ok(ratio) = word.as_str().parse::<u16>() {
            if ratios.len() < RATIOS_MOST {
                ratios.push(ratio);
            }
        }
    }
    ratios
}

/// Writes bytes to the file that the first word names, if there is one.
fn write_file(rt: &HostRuntime, words: &[String], bytes: &[u8]) -> io::Result<()> {
    match words.first() {
        Some(name) => fs::create(rt, name.as_str())?.write_all(bytes),
        None => Ok(()),
    }
}
