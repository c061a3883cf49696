//! The JSON objects of what is said of slots. Each call fails only for want of memory.

ghost use Rattle.std.specs.Prelude.{◌≡◌, [], ◌∷◌, codes, map, IfOk};
ghost use Rattle.serde_json.specs.Data.{array};
ghost use Rattle.serde_json.specs.View.{view, items_of};
ghost use Rattle.job_report.specs.Report as spec;
ghost use Rattle.job_report.specs.Report.{json_number, text_of, json_entry, missed_object, object_of, report_object};
ghost use Rattle.job_report.specs.declared.report.Report.TheVariants.{Fit, NoFit};

use crate::report::{SlotMiss, SlotVerdict};
use list_types::ListOf;
use serde_json::{Value, json};
use std::alloc::{AllocError, Global};

/// The greatest slot in which a job fits, and what is said of each slot.
pub(crate) fn fit_object(
    alloc: Global,
    fit: u32,
    slots: &ListOf<SlotVerdict>,
) -> Result<Value, AllocError>
    ensures { IfOk result (λ value. view value ≡ report_object (Fit fit slots.now)) }
{
    let slots = slot_objects(alloc, slots.as_slice())?;
    json!(in alloc; {"fit": fit, "slots": slots})
}

/// What is said of each slot, where a job fits in none.
pub(crate) fn no_fit_object(alloc: Global, slots: &ListOf<SlotVerdict>) -> Result<Value, AllocError>
    ensures { IfOk result (λ value. view value ≡ report_object (NoFit slots.now)) }
{
    let slots = slot_objects(alloc, slots.as_slice())?;
    json!(in alloc; {"reason": "no fit", "slots": slots, "status": 12})
}

/// What is said of some slots.
fn slot_objects(alloc: Global, slots: &[SlotVerdict]) -> Result<Value, AllocError>
    ensures { IfOk result (λ value. view value ≡ array (items_of (map spec.slot_object slots.now))) }
{
    let mut items = Vec::with_capacity(alloc, slots.len())?;
    for slot in slots {
        items.push(slot_object(alloc, slot)?)?;
    }
    Ok(Value::Array(items))
}

/// What is said of a slot.
fn slot_object(alloc: Global, said: &SlotVerdict) -> Result<Value, AllocError>
    ensures { IfOk result (λ value. view value ≡ spec.slot_object said.now) }
{
    if said.limit {
        return said_object(alloc, said.slot, "limit");
    }
    match said.miss {
        Some(miss) => miss_object(alloc, said.slot, miss),
        None => said_object(alloc, said.slot, "scheduled"),
    }
}

/// A slot with its verdict alone.
fn said_object(alloc: Global, slot: u32, verdict: &str) -> Result<Value, AllocError>
    ensures { IfOk result (λ value. view value ≡ object_of (json_entry (codes "slot") (json_number slot) ∷ json_entry (codes "verdict") (text_of verdict.now) ∷ [])) }
{
    json!(in alloc; {"slot": slot, "verdict": verdict})
}

/// A slot with the first miss in it.
fn miss_object(alloc: Global, slot: u32, miss: SlotMiss) -> Result<Value, AllocError>
    ensures { IfOk result (λ value. view value ≡ missed_object slot miss) }
{
    json!(in alloc; {
        "due": miss.due, "packet_slot": miss.packet_slot, "slot": slot, "stream": miss.stream,
        "unit": miss.unit, "verdict": "missed"
    })
}
