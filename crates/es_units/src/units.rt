ghost use Rattle.std.specs.Prelude.{◌≡◌, ℕ, Some, None, IfOk, Err};
ghost use Rattle.es_units.specs.Units.{cut_units, first_sequence};

use crate::cuts::{find_sequence, next_cut};
use crate::unit_fault::UnitFault;
use list_types::ListOf;
use std::alloc::Global;

/// The units of a video stream.
#[derive(Drop)]
pub struct Units {
    /// How many units end at the first sequence header or before it, and are dropped. It stands still at its type's end.
    pub dropped: u32,
    /// The place where each unit begins and the one where it ends, in bytes of the stream. Each ends where the next one
    /// begins, and the last one at the stream's end.
    pub cuts: ListOf<(u64, u64)>,
}

/// Cuts a video stream into units. The only errors are NoSequence at 0, exactly where no sequence header stands, and
/// want of memory.
pub fn split_units(alloc: Global, es: &[u8]) -> Result<Units, UnitFault>
    ensures units { IfOk result (λ units. cut_units es.now ≡ Some units) }
    ensures no_sequence { (at : ℕ) → result ≡ Err (UnitFault.NoSequence at) → (at ≡ 0) × (first_sequence es.now ≡ None) }
{
    let Some(first) = find_sequence(es) else {
        return Err(UnitFault::NoSequence { at: 0 });
    };
    let mut cuts = ListOf::new(alloc);
    let mut dropped: u32 = 0;
    let mut begin = first;
    let mut from = 0;
    while let Some(cut) = next_cut(es, from) {
        if cut <= first {
            dropped = dropped.saturating_add(1);
        } else {
            cuts.push((begin as u64, cut as u64))?;
            begin = cut;
        }
        from = cut + 1;
    }
    cuts.push((begin as u64, es.len() as u64))?;
    Ok(Units { dropped, cuts })
}
