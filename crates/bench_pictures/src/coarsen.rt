//! Coarsens the macroblocks in a file of slices, so that the instructions of a step can be counted (bench/README.md).
//!
//! The words are the name of a file that `bench/coarsen/cut_slices` makes, and ratios in sixteenths, at most eight. It
//! prints how many macroblocks and coefficients stand there before the first bits that spell no slice, and for each ratio
//! the distortion.
mod slices;
mod way;

ghost use Rattle.std.specs.Prelude.{◌≤◌, ◌^◌, length};

use crate::coarsen::slices::{RATIOS_MOST, Tally, coarsen_slices};
use arrayvec::ArrayVec;
use shelf_io::read_file;
use shelf_kinds::FileShelf;
use std::io;

/// The most bytes that are read of a file.
const FILE_BYTES: u64 = 1 << 30;

/// Does what the words say.
pub fn work(rt: &HostRuntime, words: &[String]) -> io::Result<()> {
    let Some((name, rest)) = words.split_first() else {
        return println!(rt; "bench_pictures coarsen SLICES [RATIO ..]");
    };
    let mut ratios = ArrayVec::new();
    for word in rest {
        let Ok(ratio) = word.as_str().parse::<u16>() else {
            return println!(rt; "no ratio");
        };
        if ratios.len() < RATIOS_MOST {
            ratios.push(ratio);
        }
    }
    let mut shelf = FileShelf::new(rt);
    let Ok(bytes) = read_file(rt.alloc(), &mut shelf, name.as_str(), FILE_BYTES) else {
        return println!(rt; "no such file");
    };
    let tally = coarsen_slices(rt.alloc(), bytes.as_slice(), &ratios);
    println!(rt;
        "{} macroblocks, {} coefficients",
        tally.macroblocks, tally.coefficients
    )?;
    for distortion in tally.distortions {
        println!(rt; "{distortion}")?;
    }
    Ok(())
}
