//! What is reported of slots.

ghost use Rattle.std.specs.Prelude.{◌≡◌, length, IfOk};
ghost use Rattle.fit_command.specs.Report as spec;
ghost use Rattle.fit_command.specs.Private.Judged as judged;

use job_report::{Report, SlotMiss, SlotVerdict};
use list_types::{ListOf, OutOfMemory};
use rate_fit::Verdict;
use std::alloc::Global;

/// What is reported by the verdicts on slots, and by the greatest one that fits. Fails only for want of memory.
pub(crate) fn report_of(
    alloc: Global,
    greatest: Option<u32>,
    slots: &[u32],
    verdicts: &[Verdict],
) -> Result<Report, OutOfMemory>
    requires { length verdicts.now ≡ length slots.now }
    ensures { IfOk result (λ report. report ≡ judged.report_of greatest slots.now verdicts.now) }
{
    let slots = slot_reports(alloc, slots, verdicts)?;
    Ok(match greatest {
        Some(fit) => Report::Fit { fit, slots },
        None => Report::NoFit { slots },
    })
}

/// What is reported of each slot.
fn slot_reports(
    alloc: Global,
    slots: &[u32],
    verdicts: &[Verdict],
) -> Result<ListOf<SlotVerdict>, OutOfMemory>
    requires { length verdicts.now ≡ length slots.now }
    ensures { IfOk result (λ reports. reports ≡ spec.slot_reports slots.now verdicts.now) }
{
    let mut reports = ListOf::new(alloc);
    for at in 0..slots.len() {
        reports.push(slot_report(slots[at], &verdicts[at]))?;
    }
    Ok(reports)
}

/// What is reported of a slot.
fn slot_report(slot: u32, verdict: &Verdict) -> SlotVerdict
    ensures { result ≡ spec.slot_report slot verdict.now }
{
    match verdict {
        Verdict::Scheduled => SlotVerdict {
            slot,
            limit: false,
            miss: None,
        },
        Verdict::Missed(miss) => SlotVerdict {
            slot,
            limit: false,
            miss: Some(SlotMiss {
                due: miss.due,
                packet_slot: miss.slot,
                stream: miss.stream,
                unit: miss.unit,
            }),
        },
        Verdict::Limit => SlotVerdict {
            slot,
            limit: true,
            miss: None,
        },
    }
}
