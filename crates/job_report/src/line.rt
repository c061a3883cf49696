//! The line of a report: its object as compact JSON, and a line end.

ghost use Rattle.std.specs.Prelude.{◌≡◌, ◌++◌, false, IfOk, codes};
ghost use Rattle.std.specs.String.{string_bytes};
ghost use Rattle.serde_json.specs.View.{view};
ghost use Rattle.serde_json.specs.Written.{compact_text, has_float};
ghost use Rattle.job_report.specs.Report.{report_object, report_line};

use crate::fit_objects::{fit_object, no_fit_object};
use crate::objects::{
    audit_object, byte_object, check_object, clean_object, gen_object, line_object, miss_object,
    named_object, no_room_object, node_object, plan_object, probe_object, reason_object,
    run_object, source_object, verdict_object,
};
use crate::report::Report;
use list_types::OutOfMemory;
use serde_json::Value;
use std::alloc::{AllocError, Global};

/// The one line that reports how a command ended. Fails only for want of memory.
pub fn report_text(alloc: Global, report: &Report) -> Result<Vec<u8>, OutOfMemory>
    ensures { IfOk result (λ text. text.items ≡ report_line report.now) }
{
    let value = value_of(alloc, report)?;
    let line = line_of(alloc, &value)?;
    Ok(line.into_bytes())
}

/// The line of a value without a float.
fn line_of(alloc: Global, value: &Value) -> Result<String, AllocError>
    requires { has_float (view value.now) ≡ false }
    ensures { IfOk result (λ line. string_bytes line ≡ compact_text (view value.now) ++ codes "\n") }
{
    let mut line = value.to_string(alloc)?;
    line.push('\n')?;
    Ok(line)
}

/// The object of a report.
fn value_of(alloc: Global, report: &Report) -> Result<Value, AllocError>
    ensures { IfOk result (λ value. view value ≡ report_object report.now) }
{
    match report {
        Report::Plan {
            bound,
            choice,
            distortion,
            nodes,
            optimal,
        } => plan_object(alloc, *bound, choice, *distortion, *nodes, *optimal),
        Report::Run {
            bound,
            distortion,
            nodes,
            programs,
            optimal,
            slots,
        } => run_object(
            alloc,
            *bound,
            *distortion,
            *nodes,
            programs,
            *optimal,
            *slots,
        ),
        Report::Probe {
            audio_packets,
            units,
        } => probe_object(alloc, audio_packets, *units),
        Report::Check { bound } => check_object(alloc, *bound),
        Report::Gen { bytes, pictures } => gen_object(alloc, *bytes, *pictures),
        Report::ScheduledVerdict => verdict_object(alloc, "scheduled"),
        Report::NoRoomVerdict {
            due,
            from,
            needed,
            room,
        } => no_room_object(alloc, *due, *from, *needed, *room),
        Report::OpenVerdict => verdict_object(alloc, "open"),
        Report::AuditClean => clean_object(alloc),
        Report::Fit { fit, slots } => fit_object(alloc, *fit, slots),
        Report::Usage => reason_object(alloc, "usage", 2),
        Report::TableSyntax { line } => line_object(alloc, *line, "table syntax"),
        Report::TableLimit { name } => named_object(alloc, name.as_str(), "table limit", 3),
        Report::JobSyntax => reason_object(alloc, "job syntax", 3),
        Report::JobField { name } => named_object(alloc, name.as_str(), "job field", 3),
        Report::JobLimit { name } => named_object(alloc, name.as_str(), "job limit", 3),
        Report::ListSyntax { line } => line_object(alloc, *line, "list"),
        Report::Source { at, kind, program } => {
            source_object(alloc, *at, kind.as_str(), *program)
        }
        Report::Unschedulable {
            due,
            slot,
            stream,
            unit,
        } => miss_object(alloc, *due, *slot, *stream, *unit),
        Report::ReadFault { name } => named_object(alloc, name.as_str(), "read", 6),
        Report::WriteFault { name } => named_object(alloc, name.as_str(), "write", 7),
        Report::CertSyntax { byte } => byte_object(alloc, *byte),
        Report::CertFault { node, why } => node_object(alloc, *node, why.as_str()),
        Report::Missing { name } => named_object(alloc, name.as_str(), "missing", 9),
        Report::AuditFault { at, fault, pid } => audit_object(alloc, *at, fault.as_str(), *pid),
        Report::NoFit { slots } => no_fit_object(alloc, slots),
    }
}
