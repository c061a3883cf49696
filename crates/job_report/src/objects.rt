//! The JSON object of each report. Each call fails only for want of memory.

ghost use Rattle.std.specs.Prelude.{◌≡◌, [], ◌∷◌, codes, IfOk};
ghost use Rattle.serde_json.specs.View.{view};
ghost use Rattle.job_report.specs.Report as spec;
ghost use Rattle.job_report.specs.Report.{json_number, text_of, json_entry, object_of, search_of, report_object};
ghost use Rattle.job_report.specs.declared.report.Report.TheVariants.{Plan, Run, Probe, Check, Gen, NoRoomVerdict, AuditClean, Unschedulable, CertSyntax};

use crate::arrays::{counts, pids, programs, sizes, versions};
use crate::report::ProgramReport;
use list_types::ListOf;
use serde_json::{Value, json};
use std::alloc::{AllocError, Global};
use version_table::Choice;

/// A plan.
pub(crate) fn plan_object(
    alloc: Global,
    bound: u64,
    choice: &Choice,
    distortion: u64,
    nodes: u32,
    optimal: bool,
) -> Result<Value, AllocError>
    ensures { IfOk result (λ value. view value ≡ report_object (Plan bound choice.now distortion nodes optimal)) }
{
    let choice = versions(alloc, choice.as_slice())?;
    let search = search(optimal);
    json!(in alloc; {
        "bound": bound, "choice": choice, "distortion": distortion, "nodes": nodes, "search": search
    })
}

/// A stream that was written.
pub(crate) fn run_object(
    alloc: Global,
    bound: u64,
    distortion: u64,
    nodes: u32,
    reports: &ListOf<ProgramReport>,
    optimal: bool,
    slots: u32,
) -> Result<Value, AllocError>
    ensures { IfOk result (λ value. view value ≡ report_object (Run bound distortion nodes reports.now optimal slots)) }
{
    let reports = programs(alloc, reports.as_slice())?;
    let search = search(optimal);
    json!(in alloc; {
        "bound": bound, "distortion": distortion, "nodes": nodes, "programs": reports, "search": search,
        "slots": slots
    })
}

/// What is said of a search.
fn search(optimal: bool) -> &'static str
    ensures { text_of result.now ≡ search_of optimal }
{
    if optimal { "optimal" } else { "budget" }
}

/// One program of a run.
pub(crate) fn program_object(alloc: Global, program: &ProgramReport) -> Result<Value, AllocError>
    ensures { IfOk result (λ value. view value ≡ spec.program_object program.now) }
{
    let audio_bytes = sizes(alloc, program.audio_bytes.as_slice())?;
    let choice = versions(alloc, program.choice.as_slice())?;
    let not_carried = pids(alloc, program.not_carried.as_slice())?;
    json!(in alloc; {
        "audio_bytes": audio_bytes, "choice": choice, "descriptors_dropped": program.descriptors_dropped,
        "not_carried": not_carried, "number": program.number, "pes_dropped": program.pes_dropped,
        "rest": program.rest, "units_dropped": program.units_dropped
    })
}

/// The packets of each audio stream, and the units.
pub(crate) fn probe_object(
    alloc: Global,
    audio_packets: &ListOf<u32>,
    units: u32,
) -> Result<Value, AllocError>
    ensures { IfOk result (λ value. view value ≡ report_object (Probe audio_packets.now units)) }
{
    let audio_packets = counts(alloc, audio_packets.as_slice())?;
    json!(in alloc; {"audio_packets": audio_packets, "units": units})
}

/// A certificate that holds.
pub(crate) fn check_object(alloc: Global, bound: u64) -> Result<Value, AllocError>
    ensures { IfOk result (λ value. view value ≡ report_object (Check bound)) }
{
    json!(in alloc; {"bound": bound, "verdict": "yes"})
}

/// A verdict alone.
pub(crate) fn verdict_object(alloc: Global, verdict: &str) -> Result<Value, AllocError>
    ensures { IfOk result (λ value. view value ≡ object_of (json_entry (codes "verdict") (text_of verdict.now) ∷ [])) }
{
    json!(in alloc; {"verdict": verdict})
}

/// A window of time that has too little room.
pub(crate) fn no_room_object(
    alloc: Global,
    due: u64,
    from: u64,
    needed: u64,
    room: i64,
) -> Result<Value, AllocError>
    ensures { IfOk result (λ value. view value ≡ report_object (NoRoomVerdict due from needed room)) }
{
    json!(in alloc; {
        "due": due, "from": from, "needed": needed, "room": room, "verdict": "none"
    })
}

/// A stream whose audit finds nothing.
pub(crate) fn clean_object(alloc: Global) -> Result<Value, AllocError>
    ensures { IfOk result (λ value. view value ≡ report_object AuditClean) }
{
    json!(in alloc; {"audit": "clean"})
}

/// The first finding of an audit.
pub(crate) fn audit_object(
    alloc: Global,
    at: u64,
    fault: &str,
    pid: u16,
) -> Result<Value, AllocError>
    ensures { IfOk result (λ value. view value ≡ object_of (json_entry (codes "at") (json_number at) ∷ json_entry (codes "fault") (text_of fault.now)
        ∷ json_entry (codes "pid") (json_number pid) ∷ json_entry (codes "reason") (text_of (codes "audit"))
        ∷ json_entry (codes "status") (json_number 11) ∷ [])) }
{
    json!(in alloc; {"at": at, "fault": fault, "pid": pid, "reason": "audit", "status": 11})
}

/// A program that was made.
pub(crate) fn gen_object(alloc: Global, bytes: u64, pictures: u32) -> Result<Value, AllocError>
    ensures { IfOk result (λ value. view value ≡ report_object (Gen bytes pictures)) }
{
    json!(in alloc; {"bytes": bytes, "pictures": pictures})
}

/// A reason with its status alone.
pub(crate) fn reason_object(alloc: Global, reason: &str, status: u8) -> Result<Value, AllocError>
    ensures { IfOk result (λ value. view value
        ≡ object_of (json_entry (codes "reason") (text_of reason.now) ∷ json_entry (codes "status") (json_number status) ∷ [])) }
{
    json!(in alloc; {"reason": reason, "status": status})
}

/// A reason with a name.
pub(crate) fn named_object(
    alloc: Global,
    name: &str,
    reason: &str,
    status: u8,
) -> Result<Value, AllocError>
    ensures { IfOk result (λ value. view value
        ≡ object_of (json_entry (codes "name") (text_of name.now) ∷ json_entry (codes "reason") (text_of reason.now)
        ∷ json_entry (codes "status") (json_number status) ∷ [])) }
{
    json!(in alloc; {"name": name, "reason": reason, "status": status})
}

/// A line that no text of a kind has there.
pub(crate) fn line_object(alloc: Global, line: u64, reason: &str) -> Result<Value, AllocError>
    ensures { IfOk result (λ value. view value ≡ object_of (json_entry (codes "line") (json_number line) ∷ json_entry (codes "reason") (text_of reason.now)
        ∷ json_entry (codes "status") (json_number 3) ∷ [])) }
{
    json!(in alloc; {"line": line, "reason": reason, "status": 3})
}

/// A program that is refused.
pub(crate) fn source_object(
    alloc: Global,
    at: u64,
    kind: &str,
    program: u8,
) -> Result<Value, AllocError>
    ensures { IfOk result (λ value. view value ≡ object_of (json_entry (codes "at") (json_number at) ∷ json_entry (codes "kind") (text_of kind.now)
        ∷ json_entry (codes "program") (json_number program) ∷ json_entry (codes "reason") (text_of (codes "source"))
        ∷ json_entry (codes "status") (json_number 4) ∷ [])) }
{
    json!(in alloc; {"at": at, "kind": kind, "program": program, "reason": "source", "status": 4})
}

/// The first miss of the smallest choice.
pub(crate) fn miss_object(
    alloc: Global,
    due: u64,
    slot: u32,
    stream: u32,
    unit: u32,
) -> Result<Value, AllocError>
    ensures { IfOk result (λ value. view value ≡ report_object (Unschedulable due slot stream unit)) }
{
    json!(in alloc; {
        "due": due, "reason": "unschedulable", "slot": slot, "status": 5, "stream": stream, "unit": unit
    })
}

/// A byte that no certificate has there.
pub(crate) fn byte_object(alloc: Global, byte: u64) -> Result<Value, AllocError>
    ensures { IfOk result (λ value. view value ≡ report_object (CertSyntax byte)) }
{
    json!(in alloc; {"byte": byte, "reason": "certificate", "status": 8})
}

/// A node at which a certificate is wrong.
pub(crate) fn node_object(alloc: Global, node: u32, why: &str) -> Result<Value, AllocError>
    ensures { IfOk result (λ value. view value ≡ object_of (json_entry (codes "node") (json_number node) ∷ json_entry (codes "reason") (text_of (codes "certificate"))
        ∷ json_entry (codes "status") (json_number 8) ∷ json_entry (codes "why") (text_of why.now) ∷ [])) }
{
    json!(in alloc; {"node": node, "reason": "certificate", "status": 8, "why": why})
}
