//! How far a command is, told on a terminal while it works.

use sentences::stream_bytes;
use std::fs;
use std::rt::{Clock, Files};
use std::time::Instant;

/// Whether a command tells on standard error how far it is.
#[derive(Clone, Copy, PartialEq)]
pub enum Progress {
    /// It does: standard error is a terminal.
    Shown,
    /// It doesn't.
    Hidden,
}

/// Clears the row of a terminal in which it stands.
const CLEARED: &str = "\r\u{1b}[K";

/// The row of a terminal in which progress is told.
#[derive(Drop)]
pub(crate) struct Row<'a, R> {
    rt: &'a R,
    progress: Progress,
}

impl<'a, R: Eprint> Row<'a, R> {
    /// A row that is empty.
    pub(crate) fn new(rt: &'a R, progress: Progress) -> Row<'a, R> {
        Row { rt, progress }
    }

    /// Clears it, so that a line may be printed.
    pub(crate) fn clear(&self) {
        if self.progress == Progress::Shown {
            let _ = eprint!(self.rt; "{CLEARED}");
        }
    }
}

/// What is told of one command. Whether it could be printed changes nothing.
#[derive(Drop)]
pub(crate) struct Watch<'a, R> {
    rt: &'a R,
    /// When the command began; none where nothing is told.
    begun: Option<Instant>,
    pace: Pace,
    /// Bytes of the file that is read.
    size: u64,
    /// Bytes that were written to the file that was started last, when that was in milliseconds, and about how many bytes it gets; 0 where
    /// that isn't known.
    written: u64,
    started: u64,
    wanted: u64,
}

impl<'a, R: Files + Clock + Eprint + AllocGlobal> Watch<'a, R> {
    /// Before a command.
    pub(crate) fn new(rt: &'a R, progress: Progress) -> Watch<'a, R> {
        let begun = match progress {
            Progress::Shown => Instant::now(rt).ok(),
            Progress::Hidden => None,
        };
        Watch {
            rt,
            begun,
            pace: Pace::new(),
            size: 0,
            written: 0,
            started: 0,
            wanted: 0,
        }
    }

    /// So many bytes of a file were read from a place on; none at its end.
    pub(crate) fn see_read(&mut self, name: &str, at: u64, count: usize) {
        let Some(millis) = self.millis() else {
            return;
        };
        if at == 0 {
            self.size = size_of(self.rt, name);
        }
        let done = at.saturating_add(count as u64) / 1_000_000;
        let all = self.size / 1_000_000;
        let seconds = millis / 1_000;
        if count == 0 && self.pace.may_end(millis) {
            let _ = eprint!(self.rt;
                "{CLEARED}{name}: {done} MB read, and worked on ({seconds} s)"
            );
        } else if count > 0 && self.pace.may_go_on(millis) {
            let _ = eprint!(self.rt; "{CLEARED}{name}: {done} of {all} MB read ({seconds} s)");
        }
    }

    /// A file is started: that of the stream of a job, or another one, and then the name is empty.
    pub(crate) fn see_start(&mut self, job: &str) {
        let Some(millis) = self.millis() else {
            return;
        };
        self.written = 0;
        self.started = millis;
        self.wanted = match job {
            "" => 0,
            job => stream_bytes(self.rt, job).unwrap_or(0),
        };
    }

    /// So many bytes were added to the file that was started.
    pub(crate) fn see_append(&mut self, name: &str, count: usize) {
        let Some(millis) = self.millis() else {
            return;
        };
        self.written = self.written.saturating_add(count as u64);
        if self.pace.may_go_on(millis) {
            self.tell_written(name, millis);
        }
    }

    /// Tells how much of a file is written, of how much and with the time left, where that is known.
    fn tell_written(&self, name: &str, millis: u64) {
        let done = self.written / 1_000_000;
        let seconds = millis / 1_000;
        let Some(left) = self.millis_left(millis) else {
            let _ = eprint!(self.rt; "{CLEARED}{name}: {done} MB written ({seconds} s)");
            return;
        };
        let all = self.wanted / 1_000_000;
        let left = left.div_ceil(1_000);
        let _ = eprint!(self.rt;
            "{CLEARED}{name}: {done} of about {all} MB written, about {left} s left ({seconds} s)"
        );
    }

    /// In how many milliseconds the rest of the file is written, at the pace so far; none where it isn't known how long it gets.
    fn millis_left(&self, millis: u64) -> Option<u64> {
        let rest = self.wanted.checked_sub(self.written)?;
        let spent = millis.saturating_sub(self.started);
        spent.saturating_mul(rest).checked_div(self.written)
    }

    /// Milliseconds since the command began; none where nothing is told.
    fn millis(&self) -> Option<u64> {
        let spent = self.begun?.elapsed(self.rt).ok()?;
        let seconds = spent.as_secs().saturating_mul(1_000);
        Some(seconds.saturating_add(u64::from(spent.subsec_millis())))
    }
}

/// The bytes of a file, as far as the machine tells.
fn size_of<R: Files>(rt: &R, name: &str) -> u64 {
    match fs::metadata(rt, name) {
        Ok(file) => file.len(),
        Err(_) => 0,
    }
}

/// How often something is told: what goes on once in a fifth of a second, ends of files five times in a second, so at most ten times
/// a second in all.
#[derive(Clone, Copy)]
struct Pace {
    /// The fifth of a second, from 1, in which something that goes on was told last.
    fifth: u64,
    /// The second, from 1, in which an end was told last, and how many were.
    second: u64,
    ends: u8,
}

impl Pace {
    /// Before anything was told.
    fn new() -> Pace {
        Pace {
            fifth: 0,
            second: 0,
            ends: 0,
        }
    }

    /// Whether to tell now what goes on.
    fn may_go_on(&mut self, millis: u64) -> bool {
        let fifth = millis / 200 + 1;
        let may = fifth != self.fifth;
        self.fifth = fifth;
        may
    }

    /// Whether to tell now that a file is read to its end.
    fn may_end(&mut self, millis: u64) -> bool {
        let second = millis / 1_000 + 1;
        if second != self.second {
            self.second = second;
            self.ends = 0;
        }
        self.ends = self.ends.saturating_add(1);
        self.ends <= 5
    }
}
