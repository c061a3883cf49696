//! Writes output streams of made-up schedules, so that their instructions can be counted and their bytes be compared with
//! another program's (bench/README.md).
//!
//! The words are how many slots the stream has, and for `write` the file that it goes to: `rows` makes the schedule alone,
//! `count` gives its packets to a sink that counts them, `write` to the end of the file.
mod made_layout;
mod made_pieces;
mod made_rows;

use crate::mux::made_layout::made_layout;
use crate::mux::made_pieces::MadePieces;
use crate::mux::made_rows::made_rows;
use mux_writer::write_stream;
use shelf_io::{Shelf, Writing};
use shelf_kinds::{CountSink, FileShelf};
use std::io;

/// Ticks of a slot, for a stream of 37.6 Mbit/s.
const SLOT: u32 = 1_080;

#[tactic(auto, using(crate::proofs::Made::all_of_layout))]
/// Does what the words say.
pub fn work(rt: &HostRuntime, words: &[String]) -> io::Result<()> {
    let [what, number, behind @ ..] = words else {
        return println!(rt; "bench_streams mux rows|count|write SLOTS [OUT]");
    };
    let Ok(slots) = number.as_str().parse::<u32>() else {
        return println!(rt; "no number of slots");
    };
    let layout = made_layout();
    let Ok(schedule) = made_rows(rt.alloc(), slots) else {
        return println!(rt; "out of memory");
    };
    let mut pieces = MadePieces { calls: 0 };
    if what.as_str() == "rows" {
        return println!(rt; "{} slots", schedule.slots);
    }
    let Some(to) = behind.first() else {
        let mut counted = CountSink::new();
        return match write_stream(&mut counted, &layout, SLOT, &schedule, &mut pieces) {
            Ok(()) => println!(rt; "{} bytes", counted.count()),
            Err(fault) => println!(rt; "{fault}"),
        };
    };
    let mut shelf = FileShelf::new(rt);
    if let Err(fault) = shelf.start(to.as_str()) {
        return println!(rt; "{fault}");
    }
    let mut file = Writing::new(&mut shelf, to.as_str());
    match write_stream(&mut file, &layout, SLOT, &schedule, &mut pieces) {
        Ok(()) => println!(rt; "{} slots", schedule.slots),
        Err(fault) => println!(rt; "{fault}"),
    }
}
