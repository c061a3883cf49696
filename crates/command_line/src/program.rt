ghost use Rattle.std.specs.Prelude.{◌≡◌, ◌⊎◌, map};
ghost use Rattle.std.specs.String.{string_bytes};
ghost use Rattle.command_words.specs.Command.{IsCommand};
ghost use Rattle.command_words.specs.Status.{code_of};
ghost use Rattle.command_words.specs.declared.status.Status.{Status as AnyStatus};

use crate::exit::exit_status;
use crate::heard::HeardSink;
use crate::progress::{Progress, Row, Watch};
use crate::watched::{RunFiles, WatchedShelf};
use sentences::{End, SentPictures, print_sentence};
use shelf_kinds::{FileShelf, OutSink};
use std::rt::{Clock, Files};

/// Runs a command over the working folder and standard output. A sentence on standard error says what its end means where that isn't
/// plain, and where progress is shown how far it is, while it works; whether these could be printed changes nothing. The exit status is 2
/// exactly for words of no command, but for a report that can't be written (7) and want of memory (10).
pub fn command<R: Files + Clock + Print + Eprint + AllocGlobal>(
    rt: &R,
    words: &[String],
    progress: Progress,
) -> u8
    ensures status { (status : AnyStatus) × (result ≡ code_of status) }
    ensures usage { result ≡ 2 → IsCommand (map string_bytes words.now) → ⊥ }
    ensures no_command { (IsCommand (map string_bytes words.now) → ⊥) → (result ≡ 2) ⊎ ((result ≡ 7) ⊎ (result ≡ 10)) }
{
    let mut out = HeardSink::new(rt.alloc(), Row::new(rt, progress), OutSink::new(rt));
    let mut shelf = WatchedShelf::new(
        FileShelf::new(rt),
        Watch::new(rt, progress),
        files_of_run(words),
        SentPictures::new(rt.alloc()),
    );
    let code = exit_status(rt.alloc(), words, &mut shelf, &mut out);
    Row::new(rt, progress).clear();
    let end = End {
        words,
        code,
        line: out.line(),
        pictures: shelf.pictures(),
    };
    let _ = print_sentence(rt, &end);
    code
}

/// The files of a run.
fn files_of_run(words: &[String]) -> RunFiles<'_> {
    match words {
        [verb, job, out, _] if verb.as_str() == "run" => RunFiles {
            job: job.as_str(),
            out: out.as_str(),
        },
        _ => RunFiles { job: "", out: "" },
    }
}
