//! Where the packets of a table stand.

ghost use Rattle.version_table.specs.Table.{IsValidTable};

use slot_rule::{Miss, ScheduleFault, Sent, SlotList, first_miss, schedule};
use std::alloc::Global;
use version_table::{OutOfMemory, Table, smallest};

/// The most slots of one lane that are printed one by one.
const SLOTS_SHOWN: usize = 12;

/// What a slot holds a packet of. Programs and streams are counted from 0, streams over all programs.
#[derive(Clone, Copy, PartialEq, Eq)]
enum Lane {
    Null,
    Pat,
    Pmt(usize),
    Pcr(usize),
    Stream(usize),
}

impl Lane {
    /// The lane of what stands in a slot.
    fn of(sent: Sent) -> Lane {
        match sent {
            Sent::Null => Lane::Null,
            Sent::Pat => Lane::Pat,
            Sent::Pmt(program) => Lane::Pmt(usize::from(program)),
            Sent::Pcr(program) => Lane::Pcr(usize::from(program)),
            Sent::Video { stream, .. } => Lane::Stream(stream as usize),
            Sent::Audio { stream, .. } => Lane::Stream(stream as usize),
        }
    }
}

/// The number of slots under the smallest choice, and where the packets of each lane stand; or the first miss.
pub(crate) fn slots_of(alloc: Global, table: &Table) -> Result<String, OutOfMemory>
    requires { IsValidTable table.now }
{
    let choice = smallest(alloc, table)?;
    let miss = first_miss(table, &choice);
    match schedule(alloc, table, &choice) {
        Ok(list) if miss.is_none() => lanes_of(alloc, table, &list),
        Err(ScheduleFault::Missed(found)) if miss == Some(found) => words_of(alloc, found),
        Err(ScheduleFault::OutOfMemory) => Err(OutOfMemory),
        _ => Ok(String::from_str(alloc, "a schedule and a miss that don't agree")?),
    }
}

/// A miss, in words.
pub(crate) fn words_of(alloc: Global, miss: Miss) -> Result<String, OutOfMemory> {
    let Miss {
        stream,
        unit,
        slot,
        due,
    } = miss;
    Ok(format!(in alloc; "missed: stream {stream}, unit {unit}, slot {slot}, due {due}")?)
}

/// The number of slots, and where the packets of each lane stand.
fn lanes_of(alloc: Global, table: &Table, list: &SlotList) -> Result<String, OutOfMemory> {
    let mut out = format!(in alloc; "{} slots, pat", list.slots)?;
    add_slots(alloc, &mut out, Lane::Pat, list)?;
    let mut stream = 0usize;
    for (n, program) in table.programs.as_slice().iter().enumerate() {
        out.push_str("; program: pmt")?;
        add_slots(alloc, &mut out, Lane::Pmt(n), list)?;
        out.push_str(", pcr")?;
        add_slots(alloc, &mut out, Lane::Pcr(n), list)?;
        out.push_str(", video")?;
        add_slots(alloc, &mut out, Lane::Stream(stream), list)?;
        stream = stream.saturating_add(1);
        for _audio in program.audios.as_slice() {
            out.push_str(", audio")?;
            add_slots(alloc, &mut out, Lane::Stream(stream), list)?;
            stream = stream.saturating_add(1);
        }
    }
    Ok(out)
}

/// Adds the slots of a lane: each of a few, or how many there are, the first and the last.
fn add_slots(
    alloc: Global,
    out: &mut String,
    lane: Lane,
    list: &SlotList,
) -> Result<(), OutOfMemory> {
    let mut slots = Vec::new(alloc);
    for (n, sent) in list.rows.as_slice().iter().enumerate() {
        if Lane::of(*sent) == lane {
            slots.push(n)?;
        }
    }
    match (slots.as_slice().first(), slots.as_slice().last()) {
        (Some(first), Some(last)) if slots.len() > SLOTS_SHOWN => {
            let many = slots.len();
            out.push_str(format!(in alloc; " {many} from {first} to {last}")?.as_str())?;
        }
        _ => {
            for n in slots.as_slice() {
                out.push_str(format!(in alloc; " {n}")?.as_str())?;
            }
        }
    }
    Ok(())
}
