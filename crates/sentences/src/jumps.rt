//! What is said where the pictures of a run pause, or its stream lasts longer than they do: the times of a source jump forward.

use crate::amounts::Seconds;
use crate::first_header::first_header;
use crate::job_again::{file_of, form_of, integer};
use crate::line::{End, list, number};
use job_report::limits::START_DEFAULT;
use serde_json::Value;
use std::alloc::{AllocError, Global};
use std::rt::Files;
use stream_constants::clock::TICKS_PER_SECOND;
use toml::Table;

/// How long the pictures of a program may pause, in ticks.
const PAUSE_MOST: u64 = TICKS_PER_SECOND;

/// How long OUT may last beyond its pictures, in ticks: a second, and one for audio behind the last picture and the end of a period.
const BEYOND_MOST: u64 = 2 * TICKS_PER_SECOND;

/// Which programs have no picture for longer than a second; else that OUT lasts longer than the pictures of any of its programs. None where
/// neither is so.
pub(crate) fn long_waits<R: Files + AllocGlobal>(
    rt: &R,
    end: &End<'_>,
    line: &Value,
    table: &Table,
) -> Result<Option<String>, AllocError> {
    match long_pauses(rt.alloc(), end, line)? {
        Some(said) => Ok(Some(said)),
        None => long_end(rt, end, line, table),
    }
}

/// Which programs have no picture for longer than a second, and where; none where none has.
fn long_pauses(alloc: Global, end: &End<'_>, line: &Value) -> Result<Option<String>, AllocError> {
    let mut said = String::new(alloc);
    for (at, program) in list(line, "programs").iter().enumerate() {
        match end.pictures.pause_of(at) {
            Some(pause) if pause.ticks > PAUSE_MOST => {
                let one = format!(in alloc;
                    "program number {number} has no picture for {lasting} s before its picture {picture} from 0; ",
                    number = number(program, "number"),
                    lasting = Seconds { ticks: pause.ticks },
                    picture = pause.picture
                )?;
                said.push_str(one.as_str())?;
            }
            _ => {}
        }
    }
    if said.is_empty() {
        return Ok(None);
    }
    let out = end.word(2);
    let whole = format!(in alloc;
        "{out}: {said}the times of its source jump forward there, and {out} has null packets meanwhile"
    )?;
    Ok(Some(whole))
}

/// That OUT lasts longer than the pictures of any of its programs; none where it doesn't.
fn long_end<R: Files + AllocGlobal>(
    rt: &R,
    end: &End<'_>,
    line: &Value,
    table: &Table,
) -> Result<Option<String>, AllocError> {
    let lasting = number(line, "slots").saturating_mul(integer(table, "slot", 0));
    let start = integer(table, "start", START_DEFAULT);
    let shown = longest_program(rt, line, table);
    if lasting.saturating_sub(start).saturating_sub(shown) < BEYOND_MOST {
        return Ok(None);
    }
    let out = end.word(2);
    let said = format!(in rt.alloc();
        "{out} lasts {lasting} s, though no program has pictures for more than {shown} s: where the times of a source jump forward, or \
         only audio goes on, {out} has null packets",
        lasting = Seconds { ticks: lasting },
        shown = Seconds { ticks: shown }
    )?;
    Ok(Some(said))
}

/// How long the pictures of a program last at most, of the program that has most, in ticks.
fn longest_program<R: Files>(rt: &R, line: &Value, table: &Table) -> u64 {
    let mut longest = 0u64;
    for (at, program) in list(line, "programs").iter().enumerate() {
        let form = form_of(table, at as u64);
        let rate = match file_of(table, at as u64).and_then(|file| first_header(rt, file, form)) {
            Some(header) => header.rate,
            None => 0,
        };
        let pictures = list(program, "choice").len() as u64;
        longest = longest.max(pictures.saturating_mul(picture_ticks(rate)));
    }
    longest
}

/// Ticks of a picture at most, by the frame_rate_code of its sequence (13818-2, Table 6-4): at codes 4 and 5 pictures of 24 a second
/// may be shown with repeated fields.
fn picture_ticks(rate: u8) -> u64 {
    match rate {
        2 | 5 => TICKS_PER_SECOND / 24,
        3 => TICKS_PER_SECOND / 25,
        _ => TICKS_PER_SECOND * 1_001 / 24_000,
    }
}
