//! When a decoder removes the units of a video, by the clock of the file (ISO/IEC 13818-1, 2.4.2.3).
ghost use Rattle.std.specs.Prelude.{◌≡◌, ◌≤◌, ◌^◌, All, IfOk, map, pos};
ghost use Rattle.std.specs.List.Sorted.{IsNonDecreasing};
ghost use Rattle.stream_audit.specs.Removals.{removed_at, unit_removals};

use crate::clock::ticks_from;
use crate::kept_units::KeptUnits;
use list_types::{ListOf, OutOfMemory};
use pcr_writer::PCR_MODULUS;
use std::alloc::Global;
use tstd_model::Removal;

/// The ticks from the file's first byte on up to a time that is due so many ticks behind a program's base, where the file's clock
/// begins at `zero`; a time before the first byte counts as that byte's.
pub fn removed_at(zero: u64, base: u64, due: u64) -> u64
    requires { due ≤ 2 ^ 52 }
    ensures value { result ≡ removed_at zero base (pos due) }
    ensures most { result ≤ 2 ^ 53 }
{
    let ahead = ticks_from(zero, base);
    if ahead < PCR_MODULUS / 2 {
        due + ahead
    } else {
        due.saturating_sub(PCR_MODULUS - ahead)
    }
}

/// The removals of a video's units, each by its due; their dues don't fall. The error is want of memory.
pub fn unit_removals(
    alloc: Global,
    zero: u64,
    kept: &KeptUnits,
) -> Result<ListOf<Removal>, OutOfMemory>
    requires fit { All (λ unit. unit.due ≤ 2 ^ 52) kept.now.units }
    requires rise { IsNonDecreasing (map (λ unit. unit.due) kept.now.units) }
    ensures removals { IfOk result (λ removals. removals ≡ unit_removals zero kept.now) }
    // What the judge of buffers asks of them.
    ensures fit { IfOk result (λ removals. All (λ removal. removal.due ≤ 2 ^ 53) removals) }
    ensures rise { IfOk result (λ removals. IsNonDecreasing (map (λ removal. removal.due) removals)) }
{
    let mut removals = ListOf::new(alloc);
    for unit in kept.units.as_slice() {
        let removal = Removal {
            due: removed_at(zero, kept.base, unit.due),
            bytes: unit.bytes,
        };
        removals.push(removal)?;
    }
    Ok(removals)
}
