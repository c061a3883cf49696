//! Answers the cases of its standard input, one a line, so that a new case needs no new code. A case is a word and the text
//! of a table, in which `|` stands for a line end; its answer is printed beneath it. Empty lines and notes, which begin with
//! `#`, are printed as they stand.
//!
//! | word | what is printed |
//! |---|---|
//! | `read` | what the reader answers: `table`, the line that no table has, or the name of the limit that is broken |
//! | `say` | the words of its refusal |
//! | `table` | all that the table has |
//! | `choices` | the smallest choice, level choice 1, and the least total of distortions |
//! | `slots` | where the packets stand under the smallest choice, or the first miss |
//! | `runs` | the first misses of level choices 0, 1, 2, 3, 3, 2, 0, one after another in a run that is kept, and what it kept of the last |
//!
//! Stands on `version_table` and `slot_rule`.
#![tactic(auto)]

mod runs;
mod slots;
mod texts;

use crate::texts::answer_of;
use std::io;

fn main(rt: HostRuntime) -> io::Result<()> {
    for line in rt.lines(rt.alloc()) {
        let line = line?;
        println!(rt; "{}", line.as_str())?;
        if let Some((word, lines)) = line.as_str().split_once(' ') {
            let Ok(answer) = answer_of(rt.alloc(), word, lines) else {
                return println!(rt; "out of memory");
            };
            if !answer.is_empty() {
                println!(rt; "    {}", answer.as_str())?;
            }
        }
    }
    Ok(())
}
