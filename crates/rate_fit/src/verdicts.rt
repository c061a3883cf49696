//! A verdict for each slot.

ghost use Rattle.std.specs.Prelude.{◌≡◌, ◌≤◌, ℕ, length, All, IfOk};
ghost use Rattle.version_table.specs.declared.limits.TheConstants.{SLOT_LEAST};
ghost use Rattle.version_table.specs.Choice.{Fits, IsSmallestChoice};
ghost use Rattle.version_table.specs.Table.{IsValidTable, greatest};
ghost use Rattle.rate_fit.specs.Fit.{AreVerdicts, IsSlotVerdict, in_slots};

use crate::times::is_within_time;
use crate::verdict::Verdict;
use list_types::{ListOf, OutOfMemory};
use slot_rule::first_miss;
use std::alloc::Global;
use version_table::{Choice, Table, smallest};

/// A verdict for each of some slots, in their order: whether the slot rule schedules the table's smallest choice in slots of so many ticks. The
/// table's own slot doesn't matter; in the longest of them it is valid. Fails only for want of memory.
pub fn fit(alloc: Global, mut table: Table, slots: &[u32]) -> Result<ListOf<Verdict>, OutOfMemory>
    requires valid { IsValidTable (in_slots (greatest slots.now) table) }
    requires slots { All (λ slot. SLOT_LEAST ≤ slot) slots.now }
    ensures verdicts { IfOk result (AreVerdicts table slots.now) }
    ensures count { IfOk result (λ verdicts. length verdicts ≡ length slots.now) }
{
    table.slot = longest(slots);
    let choice = smallest(alloc, &table)?;
    let mut verdicts = ListOf::new(alloc);
    for slot in slots {
        let verdict = verdict_in(&mut table, *slot, &choice);
        verdicts.push(verdict)?;
    }
    Ok(verdicts)
}

/// The longest of some slots; of none 0.
pub fn longest(slots: &[u32]) -> u32
    ensures { result ≡ greatest slots.now }
{
    let mut longest = 0;
    for slot in slots {
        longest = longest.max(*slot);
    }
    longest
}

/// Sets the slot of a table that is valid in slots at least as long; the verdict on it there.
fn verdict_in(table: &mut Table, slot: u32, choice: &Choice) -> Verdict
    requires valid { (longer : ℕ) × (slot ≤ longer) × IsValidTable (in_slots longer table.now) }
    requires least { SLOT_LEAST ≤ slot }
    requires smallest { IsSmallestChoice (in_slots slot table.now) choice.now }
    requires fits { Fits (in_slots slot table.now) choice.now }
    ensures table { table.new ≡ in_slots slot table.old }
    ensures verdict { IsSlotVerdict (in_slots slot table.old) result }
{
    table.slot = slot;
    verdict_of(table, choice)
}

/// The verdict on a table in its slots, which is valid in slots at least as long.
fn verdict_of(table: &Table, choice: &Choice) -> Verdict
    requires valid { (longer : ℕ) × (table.now.slot ≤ longer) × IsValidTable (in_slots longer table.now) }
    requires least { SLOT_LEAST ≤ table.now.slot }
    requires smallest { IsSmallestChoice table.now choice.now }
    requires fits { Fits table.now choice.now }
    ensures { IsSlotVerdict table.now result }
{
    if !is_within_time(table) {
        return Verdict::Limit;
    }
    match first_miss(table, choice) {
        Some(miss) => Verdict::Missed(miss),
        None => Verdict::Scheduled,
    }
}
