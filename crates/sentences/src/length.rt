//! About how many bytes the stream of a job has, by the clocks at both ends of its files.

use crate::clock::{pack_ticks, ticks_before};
use crate::job_again::{file_of, form_of, integer, job_table};
use job_report::Form;
use job_report::limits::START_DEFAULT;
use std::fs;
use std::rt::Files;
use stream_constants::limits::PROGRAMS_MOST;
use stream_constants::packets::PACKET_BYTES;

/// About how many bytes `run` writes for a job: as many slots as its longest file lasts, behind `start`. None where no file tells how long
/// it lasts, or the job can't be read.
pub fn stream_bytes<R: Files + AllocGlobal>(rt: &R, job: &str) -> Option<u64> {
    let table = job_table(rt, job)?;
    let mut longest = 0u64;
    for program in 0..PROGRAMS_MOST as u64 {
        if let Some(file) = file_of(&table, program) {
            let ticks = file_ticks(rt, file, form_of(&table, program));
            longest = longest.max(ticks.unwrap_or(0));
        }
    }
    if longest == 0 {
        return None;
    }
    let lasting = longest.saturating_add(integer(&table, "start", START_DEFAULT));
    let slots = lasting.checked_div(integer(&table, "slot", 0))?;
    Some(slots.saturating_mul(PACKET_BYTES as u64))
}

/// How long a file of a form lasts, in ticks; none where its ends have no clocks.
fn file_ticks<R: Files>(rt: &R, file: &str, form: Form) -> Option<u64> {
    let bytes = fs::metadata(rt, file).ok()?.len();
    match form {
        Form::Ts => ticks_before(rt, file, bytes - bytes % PACKET_BYTES as u64),
        Form::Ps => pack_ticks(rt, file, bytes),
    }
}
