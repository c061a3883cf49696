//! Drivers that measure and compare over pictures: blocks and pictures read, macroblocks coarsened, versions made (bench/README.md).
//!
//! The first word is the driver's name; each prints how it is called where no words are behind that.
#![tactic(auto)]

mod blocks;
mod coarsen;
mod pictures;
mod versions;

use std::{env, io};

fn main(rt: HostRuntime) -> io::Result<()> {
    let mut words = Vec::new(rt.alloc());
    for word in env::args(&rt)?.skip(1) {
        words.push(word)?;
    }
    let Some((driver, rest)) = words.as_slice().split_first() else {
        return tell_use(&rt);
    };
    match driver.as_str() {
        "blocks" => blocks::work(&rt, rest),
        "pictures" => pictures::work(&rt, rest),
        "coarsen" => coarsen::work(&rt, rest),
        "versions" => versions::work(&rt, rest),
        _ => tell_use(&rt),
    }
}

/// Prints the drivers' names.
fn tell_use(rt: &HostRuntime) -> io::Result<()> {
    println!(rt; "bench_pictures blocks|pictures|coarsen|versions ..")
}
