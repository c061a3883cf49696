use crate::audited::broken;
use crate::certificates::refused_certificate;
use crate::done::{after_run, no_room};
use crate::fitted::{fitting, no_fit};
use crate::line::End;
use crate::misses::unschedulable;
use crate::outside::{missing, unread, unwritten, usage};
use crate::sources::refused_source;
use crate::texts::refused_text;
use serde_json::Value;
use std::alloc::AllocError;
use std::io;
use std::rt::Files;

/// Prints on standard error what the end of a command means to a reader; nothing where the work was done and all is as a reader may
/// think. Files of the command may be read again for it, and none is written.
pub fn print_sentence<R: Files + Eprint + AllocGlobal>(rt: &R, end: &End<'_>) -> io::Result<()> {
    let line = match Value::from_slice(rt.alloc(), end.line) {
        Ok(line) => Some(line),
        Err(_) => None,
    };
    match sentence(rt, end, line.as_ref()) {
        Ok(Some(said)) => eprintln!(rt; "remux: {said}"),
        Ok(None) => Ok(()),
        Err(AllocError) => eprintln!(rt;
            "remux: the line says why; docs/REFUSALS.md tells what helps"
        ),
    }
}

/// The sentence; none where there is nothing to say.
fn sentence<R: Files + AllocGlobal>(
    rt: &R,
    end: &End<'_>,
    line: Option<&Value>,
) -> Result<Option<String>, AllocError> {
    let Some(line) = line else {
        return unprinted(rt, end);
    };
    match end.code {
        0 => done(rt, end, line),
        2 => Ok(Some(usage(rt.alloc(), end)?)),
        3 => Ok(Some(refused_text(rt, end, line)?)),
        4 => Ok(Some(refused_source(rt, end, line)?)),
        5 => Ok(Some(unschedulable(rt, end, line)?)),
        6 => Ok(Some(unread(rt.alloc(), end, line)?)),
        7 => Ok(Some(unwritten(rt.alloc(), end, line)?)),
        8 => Ok(Some(refused_certificate(rt.alloc(), end, line)?)),
        9 => Ok(Some(missing(rt.alloc(), end, line)?)),
        11 => Ok(Some(broken(rt, end, line)?)),
        12 => Ok(Some(no_fit(rt, end, line)?)),
        _ => unprinted(rt, end),
    }
}

/// What is said of work that was done.
fn done<R: Files + AllocGlobal>(
    rt: &R,
    end: &End<'_>,
    line: &Value,
) -> Result<Option<String>, AllocError> {
    match end.word(0) {
        "impossible" => no_room(rt, end, line),
        "fit" => Ok(Some(fitting(rt, end, line)?)),
        "run" => after_run(rt, end, line),
        _ => Ok(None),
    }
}

/// What is said where no whole line was printed: standard output couldn't be written, or memory is wanting.
fn unprinted<R: AllocGlobal>(rt: &R, end: &End<'_>) -> Result<Option<String>, AllocError> {
    let said = match end.code {
        0 => return Ok(None),
        7 =>
            "standard output can't be written, so the line isn't whole; is there room, or did its reader end?",
        10 => "memory is wanting; nothing is claimed of the files that are written",
        _ => "the line says why; docs/REFUSALS.md tells what helps",
    };
    Ok(Some(String::from_str(rt.alloc(), said)?))
}
