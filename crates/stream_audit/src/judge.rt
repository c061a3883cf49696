//! What is found on streams by the model of the decoder, and which finding is the first (ISO/IEC 13818-1, 2.4.2).
ghost use Rattle.std.specs.Prelude.{◌≡◌, ◌≤◌, ◌^◌, All};
ghost use Rattle.tstd_model.specs.Decoder.{tb_subticks, transport_buffer};
ghost use Rattle.stream_audit.specs.Findings.{CanBeJudged, FindsBy, FindsFirst, FindsOn, finding_of};
ghost use Rattle.stream_audit.specs.NeverEmpty.{IsFirstBusy};

use crate::audited_stream::AuditedStream;
use crate::busy_time::first_busy;
use crate::finding::{FaultName, Finding};
use stream_constants::decoder::{AUDIO_TB_SUBTICKS, SYSTEM_TB_SUBTICKS, VIDEO_TB_SUBTICKS};
use tstd_model::{BufferKind, TstdFault, first_fault};

/// Subticks that a byte takes to leave TB.
pub(crate) fn tb_subticks(kind: BufferKind) -> u64
    ensures value { result ≡ tb_subticks kind }
    ensures most { result ≤ 203040 }
{
    match kind {
        BufferKind::Video { vbv: _ } => VIDEO_TB_SUBTICKS,
        BufferKind::Audio => AUDIO_TB_SUBTICKS,
        BufferKind::System => SYSTEM_TB_SUBTICKS,
    }
}

/// A fault of a decoder as a finding on the PID of its stream.
fn finding_of(pid: u16, fault: TstdFault) -> Finding
    ensures { result ≡ finding_of pid fault }
{
    match fault {
        TstdFault::Overflow { at } => Finding {
            pid,
            fault: FaultName::Overflow,
            at,
        },
        TstdFault::Old { at } => Finding {
            pid,
            fault: FaultName::Old,
            at,
        },
        TstdFault::Late { removal } => Finding {
            pid,
            fault: FaultName::Late,
            at: u64::from(removal),
        },
    }
}

/// The first instant at which a stream's TB hasn't been empty for a second, in subticks, or none where there is none.
fn first_full_of(slot: u32, stream: &AuditedStream) -> Option<u64>
    requires slot_fits { slot ≤ 2 ^ 16 }
    requires stream { CanBeJudged stream.now }
    ensures { IsFirstBusy (transport_buffer slot stream.now.kind stream.now.arrivals) result }
{
    first_busy(slot, tb_subticks(stream.kind), stream.arrivals.as_slice())
}

/// What is found on a stream, in slots of `slot` ticks: the first fault of its decoder; where it has none, that its TB isn't empty
/// for a second; or nothing. Takes no memory.
pub fn find_on(slot: u32, stream: &AuditedStream) -> Option<Finding>
    requires slot_fits { slot ≤ 2 ^ 16 }
    requires stream { CanBeJudged stream.now }
    ensures { FindsOn slot stream.now result }
{
    let fault = first_fault(
        slot,
        stream.kind,
        stream.arrivals.as_slice(),
        stream.removals.as_slice(),
    );
    if let Some(fault) = fault {
        return Some(finding_of(stream.pid, fault));
    }
    match first_full_of(slot, stream) {
        Some(at) => Some(Finding {
            pid: stream.pid,
            fault: FaultName::Full,
            at,
        }),
        None => None,
    }
}

/// What is found first on streams, each of which is looked at before the next one.
pub fn find_first(slot: u32, streams: &[AuditedStream]) -> Option<Finding>
    requires slot_fits { slot ≤ 2 ^ 16 }
    requires streams { All CanBeJudged streams.now }
    ensures { FindsFirst slot streams.now result }
{
    for stream in streams {
        if let Some(finding) = find_on(slot, stream) {
            return Some(finding);
        }
    }
    None
}

/// The first finding of a program: the first of its clock references that is off, by the byte of the file where the packet begins, on
/// their PID; else what is found first on its streams. Takes no memory.
pub fn find(slot: u32, pcr_pid: u16, off: Option<u64>, streams: &[AuditedStream]) -> Option<Finding>
    requires slot_fits { slot ≤ 2 ^ 16 }
    requires streams { All CanBeJudged streams.now }
    ensures { FindsBy slot pcr_pid off streams.now result }
{
    match off {
        Some(at) => Some(Finding {
            pid: pcr_pid,
            fault: FaultName::Pcr,
            at,
        }),
        None => find_first(slot, streams),
    }
}
