ghost use Rattle.std.specs.Prelude.{◌≤◌, length};

use crate::progress::Watch;
use sentences::SentPictures;
use shelf_io::{Fault, Shelf};
use std::rt::{Clock, Files};

/// The files of a run; both names are empty where the words are those of another command.
#[derive(Clone, Copy)]
pub(crate) struct RunFiles<'a> {
    /// Its job.
    pub(crate) job: &'a str,
    /// The file to which it writes its stream.
    pub(crate) out: &'a str,
}

/// A shelf that hands each call on to another one, tells how far the command is, and keeps the types of the pictures that are written
/// to OUT.
#[derive(Drop)]
pub(crate) struct WatchedShelf<'a, R, K> {
    shelf: K,
    seen: Seen<'a, R>,
}

impl<'a, R: Files + Clock + Eprint + AllocGlobal, K: Shelf> WatchedShelf<'a, R, K> {
    /// A shelf before any call, and the files of the run, whose pictures are wanted.
    pub(crate) fn new(
        shelf: K,
        watch: Watch<'a, R>,
        files: RunFiles<'a>,
        pictures: SentPictures,
    ) -> WatchedShelf<'a, R, K> {
        WatchedShelf {
            shelf,
            seen: Seen {
                watch,
                files,
                pictures,
            },
        }
    }

    /// The types of the pictures of OUT.
    pub(crate) fn pictures(&self) -> &SentPictures {
        &self.seen.pictures
    }
}

impl<'a, R: Files + Clock + Eprint + AllocGlobal, K: Shelf> Shelf for WatchedShelf<'a, R, K> {
    ghost files = { λ watched. K.files watched.shelf };

    ghost counts = { λ watched. K.counts watched.shelf };

    ghost asked = { λ watched. K.asked watched.shelf };

    ghost since_fault = { λ watched. K.since_fault watched.shelf };

    fn read(&mut self, name: &str, at: u64, buf: &mut [u8]) -> Result<usize, Fault> {
        match self.shelf.read(name, at, buf) {
            Ok(count) => {
                self.seen.watch.see_read(name, at, count);
                Ok(count)
            }
            Err(fault) => Err(fault),
        }
    }

    fn start(&mut self, name: &str) -> Result<(), Fault> {
        self.seen.see_start(name);
        self.shelf.start(name)
    }

    fn append(&mut self, name: &str, piece: &[u8]) -> Result<usize, Fault> {
        match self.shelf.append(name, piece) {
            Ok(count) => {
                self.seen.see_append(name, piece, count);
                Ok(count)
            }
            Err(fault) => Err(fault),
        }
    }

    fn distrust(&mut self, name: &str) {
        self.shelf.distrust(name);
    }
}

/// What is seen of the calls.
#[derive(Drop)]
struct Seen<'a, R> {
    watch: Watch<'a, R>,
    files: RunFiles<'a>,
    pictures: SentPictures,
}

impl<'a, R: Files + Clock + Eprint + AllocGlobal> Seen<'a, R> {
    /// A file is started: of OUT the job tells how long it gets.
    fn see_start(&mut self, name: &str) {
        let job = if name == self.files.out {
            self.files.job
        } else {
            ""
        };
        self.watch.see_start(job);
    }

    /// The first bytes of a piece were added to a file.
    fn see_append(&mut self, name: &str, piece: &[u8], count: usize)
        requires { count ≤ length piece.now }
    {
        self.watch.see_append(name, count);
        if name == self.files.out {
            self.pictures.hear(&piece[..count]);
        }
    }
}
