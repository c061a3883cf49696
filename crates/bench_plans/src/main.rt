//! Drivers that measure and compare over tables: runs of the slot rule, searches for bounds, plans (bench/README.md).
//!
//! The first word is the driver's name; each prints how it is called where no words are behind that.
#![tactic(auto)]

mod bounds;
mod plans;
mod runs;

use std::{env, io};

fn main(rt: HostRuntime) -> io::Result<()> {
    let mut words = Vec::new(rt.alloc());
    for word in env::args(&rt)?.skip(1) {
        words.push(word)?;
    }
    let Some((driver, rest)) = words.as_slice().split_first() else {
        return tell_use(&rt);
    };
    match driver.as_str() {
        "runs" => runs::work(&rt, rest),
        "bounds" => bounds::work(&rt, rest),
        "plans" => plans::work(&rt, rest),
        _ => tell_use(&rt),
    }
}

/// Prints the drivers' names.
fn tell_use(rt: &HostRuntime) -> io::Result<()> {
    println!(rt; "bench_plans runs|bounds|plans ..")
}
