//! How a command ended, and the members of the line that it printed.

use crate::sent_pictures::SentPictures;
use serde_json::Value;

/// The words of a command, the exit status that it ended with, the line that it printed, and the pictures that it sent.
#[derive(Clone, Copy)]
pub struct End<'a> {
    /// The words of the command.
    pub words: &'a [String],
    /// The exit status.
    pub code: u8,
    /// What was printed on standard output: a whole line, or a front of one.
    pub line: &'a [u8],
    /// The pictures of the stream that a run wrote.
    pub pictures: &'a SentPictures,
}

impl<'a> End<'a> {
    /// A word of the command; none is empty.
    pub(crate) fn word(&self, place: usize) -> &'a str {
        match self.words.get(place) {
            Some(word) => word.as_str(),
            None => "",
        }
    }

    /// The last word, which names the certificate of the commands that have one.
    pub(crate) fn last_word(&self) -> &'a str {
        match self.words.last() {
            Some(word) => word.as_str(),
            None => "",
        }
    }
}

/// A number of a line; 0 where it has none of that name.
pub(crate) fn number(line: &Value, name: &str) -> u64 {
    match line.get(name) {
        Some(value) => value.as_u64().unwrap_or(0),
        None => 0,
    }
}

/// A text of a line; the empty one where it has none of that name.
pub(crate) fn text<'a>(line: &'a Value, name: &str) -> &'a str {
    match line.get(name) {
        Some(value) => value.as_str().unwrap_or(""),
        None => "",
    }
}

/// The items of a list of a line; none where it has no list of that name.
pub(crate) fn list<'a>(line: &'a Value, name: &str) -> &'a [Value] {
    match line.get(name) {
        Some(value) => match value.as_array() {
            Some(items) => items.as_slice(),
            None => &[],
        },
        None => &[],
    }
}
