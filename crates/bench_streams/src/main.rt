//! Drivers that measure and compare over streams: a program taken out of a transport stream or a program stream, programs read with their times,
//! and output streams written (bench/README.md).
//!
//! The first word is the driver's name; each prints how it is called where no words are behind that.
#![tactic(auto)]

mod demux;
mod mux;
mod programs;

use std::{env, io};

fn main(rt: HostRuntime) -> io::Result<()> {
    let mut words = Vec::new(rt.alloc());
    for word in env::args(&rt)?.skip(1) {
        words.push(word)?;
    }
    let Some((driver, rest)) = words.as_slice().split_first() else {
        return tell_use(&rt);
    };
    match driver.as_str() {
        "demux" => demux::work(&rt, rest),
        "programs" => programs::work(&rt, rest),
        "mux" => mux::work(&rt, rest),
        _ => tell_use(&rt),
    }
}

/// Prints the drivers' names.
fn tell_use(rt: &HostRuntime) -> io::Result<()> {
    println!(rt; "bench_streams demux|programs|mux ..")
}
