//! What is said of the pictures that a run sent coarser than their sources.

use crate::line::{End, list};
use serde_json::Value;
use std::alloc::{AllocError, Global};

/// How many pictures a run sent, and how many of them coarser, by their types (13818-2, 6.3.9).
#[derive(Clone, Copy)]
struct Count {
    pictures: u64,
    coarser: u64,
    i: u64,
    p: u64,
    b: u64,
}

impl Count {
    /// Of no picture.
    fn new() -> Count {
        Count {
            pictures: 0,
            coarser: 0,
            i: 0,
            p: 0,
            b: 0,
        }
    }

    /// Adds the pictures of a program: their versions, and their types as far as they are known.
    fn add_program(&mut self, choice: &[Value], types: &[u8]) {
        for (at, version) in choice.iter().enumerate() {
            self.pictures = self.pictures.saturating_add(1);
            if version.as_u64() != Some(0) {
                self.add_coarser(types.get(at).copied());
            }
        }
    }

    /// Adds a coarser picture, by its picture_coding_type.
    fn add_coarser(&mut self, kind: Option<u8>) {
        self.coarser = self.coarser.saturating_add(1);
        match kind {
            Some(1) => self.i = self.i.saturating_add(1),
            Some(2) => self.p = self.p.saturating_add(1),
            Some(3) => self.b = self.b.saturating_add(1),
            _ => {}
        }
    }

    /// Whether the type of each coarser picture is known.
    fn is_by_type(&self) -> bool {
        self.i.saturating_add(self.p).saturating_add(self.b) == self.coarser
    }
}

/// How many pictures go out coarser, and of which types; none where none does.
pub(crate) fn coarser_pictures(
    alloc: Global,
    end: &End<'_>,
    line: &Value,
) -> Result<Option<String>, AllocError> {
    let mut count = Count::new();
    for (at, program) in list(line, "programs").iter().enumerate() {
        count.add_program(list(program, "choice"), end.pictures.types_of(at));
    }
    if count.coarser == 0 {
        return Ok(None);
    }
    let mut said = format!(in alloc;
        "{job}: {coarser} of {pictures} pictures go out coarser",
        job = end.word(1),
        coarser = count.coarser,
        pictures = count.pictures
    )?;
    if count.is_by_type() {
        let types = format!(in alloc; ": {} I, {} P, {} B", count.i, count.p, count.b)?;
        said.push_str(types.as_str())?;
    }
    Ok(Some(said))
}
