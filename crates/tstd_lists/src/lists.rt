use crate::conditions::{are_packets, are_removals};
use std::alloc::{AllocError, Global};
use std::str::SplitWhitespace;
use stream_constants::main_level::VBV_MOST;
use tstd_model::{Arrival, BufferKind, Removal, TstdFault, first_fault};

/// What comes to a decoder and is removed from it.
#[derive(Drop)]
pub struct Lists {
    slot: u32,
    kind: BufferKind,
    arrivals: Vec<Arrival>,
    removals: Vec<Removal>,
}

impl Lists {
    /// The first fault, where the lists are such as a decoder takes.
    pub fn first_fault(&self) -> Option<Option<TstdFault>> {
        let arrivals = self.arrivals.as_slice();
        let removals = self.removals.as_slice();
        let in_level = match self.kind {
            BufferKind::Video { vbv } => vbv <= VBV_MOST,
            BufferKind::Audio | BufferKind::System => true,
        };
        if self.slot <= 65_536 && in_level && are_packets(arrivals) && are_removals(removals) {
            Some(first_fault(self.slot, self.kind, arrivals, removals))
        } else {
            None
        }
    }
}

/// The lists of a line, or none where it isn't one.
pub fn read_lists(alloc: Global, line: &str) -> Result<Option<Lists>, AllocError> {
    let mut words = line.split_whitespace();
    let kind = match words.next() {
        Some("v") => match number(&mut words) {
            Some(vbv) => BufferKind::Video { vbv: byte(vbv) },
            None => return Ok(None),
        },
        Some("a") => BufferKind::Audio,
        Some("s") => BufferKind::System,
        _ => return Ok(None),
    };
    let Some(slot) = number(&mut words) else {
        return Ok(None);
    };
    let Some(count) = number(&mut words) else {
        return Ok(None);
    };
    let mut arrivals = Vec::new(alloc);
    for _ in 0..count {
        let Some(arrival) = packet(&mut words) else {
            return Ok(None);
        };
        arrivals.push(arrival)?;
    }
    let Some(count) = number(&mut words) else {
        return Ok(None);
    };
    let mut removals = Vec::new(alloc);
    for _ in 0..count {
        let Some(removal) = removal(&mut words) else {
            return Ok(None);
        };
        removals.push(removal)?;
    }
    Ok(Some(Lists {
        slot: short(slot),
        kind,
        arrivals,
        removals,
    }))
}

/// A packet, in three words.
fn packet(words: &mut SplitWhitespace) -> Option<Arrival> {
    let slot_no = number(words)?;
    let header = number(words)?;
    let payload = number(words)?;
    Some(Arrival {
        slot_no: short(slot_no),
        header: byte(header),
        payload: byte(payload),
    })
}

/// A removal, in two words.
fn removal(words: &mut SplitWhitespace) -> Option<Removal> {
    let due = number(words)?;
    let bytes = number(words)?;
    Some(Removal {
        due,
        bytes: short(bytes),
    })
}

/// The number that the next word says.
fn number(words: &mut SplitWhitespace) -> Option<u64> {
    words.next()?.parse::<u64>().ok()
}

/// A number, or the greatest of 8 bits.
fn byte(number: u64) -> u8 {
    u8::try_from(number).unwrap_or(u8::MAX)
}

/// A number, or the greatest of 32 bits.
fn short(number: u64) -> u32 {
    u32::try_from(number).unwrap_or(u32::MAX)
}
