//! What is said of words that are no command, and of files that aren't there, can't be read or can't be written.

use crate::line::{End, text};
use help_text::command_help;
use serde_json::Value;
use std::alloc::{AllocError, Global};

/// Which command these words miss, or that they name none.
pub(crate) fn usage(alloc: Global, end: &End<'_>) -> Result<String, AllocError> {
    let verb = match end.word(0) {
        "--help" => end.word(1),
        verb => verb,
    };
    if verb.is_empty() {
        return String::from_str(
            alloc,
            "no command is named, or two names of its files are those of one file; `remux --help` lists the commands",
        );
    }
    match command_help(verb) {
        Some(help) => format!(in alloc;
            "these words are no command: `{words}` is, its names of files not empty and not alike, its numbers in range; `remux --help \
             {verb}` tells it",
            words = first_line(help)
        ),
        None => { format!(in alloc; "`{verb}` is no command; `remux --help` lists the commands") }
    }
}

/// The first line of a text.
fn first_line(text: &str) -> &str {
    match text.split_once("\n") {
        Some((line, _)) => line,
        None => text,
    }
}

/// Where the name of a file comes from that isn't a word of the command.
fn named_in<'a>(end: &End<'a>, name: &str) -> &'a str {
    for word in end.words {
        if word.as_str() == name {
            return "";
        }
    }
    end.word(1)
}

/// What a name is where the job's text has it.
fn origin(alloc: Global, end: &End<'_>, name: &str) -> Result<String, AllocError> {
    match named_in(end, name) {
        "" => Ok(String::new(alloc)),
        job => format!(in alloc; ", which {job} names,"),
    }
}

/// Which file can't be read.
pub(crate) fn unread(alloc: Global, end: &End<'_>, line: &Value) -> Result<String, AllocError> {
    let name = text(line, "name");
    let origin = origin(alloc, end, name)?;
    format!(in alloc;
        "{name}{origin} is there and can't be read; is it a file and no folder, and may you read it?"
    )
}

/// Which file isn't there.
pub(crate) fn missing(alloc: Global, end: &End<'_>, line: &Value) -> Result<String, AllocError> {
    let name = text(line, "name");
    let origin = origin(alloc, end, name)?;
    format!(in alloc;
        "{name}{origin} isn't there; a name is taken as it stands, from the folder that the program runs in"
    )
}

/// Which file can't be written.
pub(crate) fn unwritten(alloc: Global, end: &End<'_>, line: &Value) -> Result<String, AllocError> {
    let name = text(line, "name");
    let after = if end.word(0) == "run" && end.word(2) == name {
        ", and the certificate wasn't started"
    } else {
        ""
    };
    format!(in alloc;
        "{name} can't be written: it may hold a front of its content{after}; is its folder there, is there room, and may you write there?"
    )
}
