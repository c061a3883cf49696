//! The first fault of a decoder for each list of packets and removals on standard input, one a line.
//!
//! A line is `v VBV`, `a` or `s` for video, audio and sections, then the ticks of a slot, how many packets come and the
//! slot, PES header bytes and payload bytes of each, then how many removals there are and the tick and bytes of each.
//! It prints `none`, `late REMOVAL`, `overflow SUBTICK`, `old SUBTICK`, or `?` for what is no such line.
#![tactic(auto)]

mod conditions;
mod lists;

use lists::read_lists;
use std::io;
use std::io::{BufRead, BufReader};
use tstd_model::TstdFault;

fn main(rt: HostRuntime) -> io::Result<()> {
    let lines = BufReader::new(rt.alloc(), rt.reader())?.lines(rt.alloc());
    for line in lines {
        let lists = read_lists(rt.alloc(), line?.as_str())?;
        match lists {
            Some(lists) => match lists.first_fault() {
                Some(answer) => match answer {
                    None => println!(rt; "none")?,
                    Some(TstdFault::Late { removal }) => println!(rt; "late {removal}")?,
                    Some(TstdFault::Overflow { at }) => println!(rt; "overflow {at}")?,
                    Some(TstdFault::Old { at }) => println!(rt; "old {at}")?,
                },
                None => println!(rt; "?")?,
            },
            None => println!(rt; "?")?,
        }
    }
    Ok(())
}
