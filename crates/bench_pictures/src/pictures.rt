//! Reads the pictures of an elementary stream, so that its instructions can be counted (bench/README.md).
//!
//! The words are what is done and the stream's file: `units` cuts it into units alone, `check` goes through each of them
//! with `check_picture` too, `read` makes each one's tree with `read_picture`, behind the state of the one before. It prints
//! how many pictures of each type were read, how many of them were fields, and the first refusal.
use es_units::split_units;
use picture_reader::{Headers, PictureFault, check_picture, read_picture};
use std::alloc::Global;
use std::rt::Files;
use std::{fs, io};
use syntax_types::{FRAME_PICTURE, PicCoding, SeqState};

/// A unit is at most this long.
const UNIT_MOST: usize = 1 << 30;

/// How many pictures were read.
#[derive(Drop)]
struct Count {
    types: [u32; 4],
    fields: u32,
}

impl Count {
    fn add(&mut self, coding: &PicCoding) {
        let kind = usize::from(coding.kind % 4);
        self.types[kind] = self.types[kind].wrapping_add(1);
        if coding.structure != FRAME_PICTURE {
            self.fields = self.fields.wrapping_add(1);
        }
    }
}

/// Does what the words say.
pub fn work(rt: &HostRuntime, words: &[String]) -> io::Result<()> {
    let [what, from] = words else {
        return println!(rt; "bench_pictures pictures units|check|read STREAM");
    };
    let file = fs::read(rt, from.as_str())?;
    let units = match split_units(rt.alloc(), file.as_slice()) {
        Ok(units) => units,
        Err(fault) => return println!(rt; "{fault}"),
    };
    let keeps = what.as_str() == "read";
    println!(rt; "{} bytes, {} units", file.len(), units.cuts.len())?;
    if what.as_str() == "units" {
        return Ok(());
    }
    let mut count = Count {
        types: [0; 4],
        fields: 0,
    };
    let mut before: Option<SeqState> = None;
    for (number, (begin, end)) in units.cuts.as_slice().iter().enumerate() {
        let unit = file.get(*begin as usize..*end as usize).unwrap_or(&[]);
        match headers_of(rt.alloc(), unit, before.as_ref(), keeps) {
            Ok((seq, coding)) => {
                count.add(&coding);
                before = Some(seq);
            }
            Err(fault) => {
                println!(rt; "unit {number}: {fault}")?;
                break;
            }
        }
    }
    let [_, i, p, b] = count.types;
    println!(rt; "{i} I, {p} P, {b} B, of them {} fields", count.fields)
}

/// The state and the coding of the next picture, by either call.
fn headers_of(
    alloc: Global,
    unit: &[u8],
    before: Option<&SeqState>,
    keeps: bool,
) -> Result<(SeqState, PicCoding), PictureFault> {
    let front = unit.get(..unit.len().min(UNIT_MOST)).unwrap_or(&[]);
    if keeps {
        let picture = read_picture(alloc, front, before)?;
        Ok((picture.seq, picture.coding))
    } else {
        let Headers { seq, coding, .. } = check_picture(alloc, front, before)?;
        Ok((seq, coding))
    }
}
