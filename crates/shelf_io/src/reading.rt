ghost use Rattle.std.specs.Prelude.{◌≡◌};

use crate::fault::Fault;
use crate::shelf::Shelf;
use crate::source::{SOURCE_BYTES_MOST, Source};

/// A source over the first `SOURCE_BYTES_MOST` bytes of one file of a shelf. Its counts are the shelf's.
#[derive(Drop)]
pub struct Reading<'a, K> {
    shelf: &'a mut K,
    name: &'a str,
    place: u64,
}

impl<'a, K: Shelf> Reading<'a, K> {
    ghost use Rattle.shelf_io.specs.Reading.{shelf_of, name_of, place_of};

    /// A source over the bytes of a file.
    pub fn new(shelf: &'a mut K, name: &'a str) -> Self
        ensures same_shelf { (shelf_of result).ghost_name ≡ shelf.entry.ghost_name }
        ensures shelf { (shelf_of result).now ≡ shelf.old }
        ensures name { name_of result ≡ name.entry.now }
        ensures place { place_of result ≡ 0 }
    {
        Reading {
            shelf,
            name,
            place: 0,
        }
    }
}

impl<'a, K: Shelf> Source for Reading<'a, K> {
    ghost use Rattle.shelf_io.specs.Reading.{shelf_of, name_of, place_of, most_from, left_from, KeepsShelf};
    ghost use Rattle.std.proofs.Common.{rules, arith};

    ghost left = { λ reading. left_from (K.files (shelf_of reading).now) (name_of reading) (place_of reading) };

    ghost most = { λ reading. most_from (place_of reading) };

    ghost faults = { λ reading. (K.counts (shelf_of reading).now).faults };

    ghost absences = { λ reading. (K.counts (shelf_of reading).now).absences };

    ghost keeps = { KeepsShelf K.files K.counts };

    ghost most_fits = { λ reading. Prim.omega arith };

    ghost keeps_itself = { Prim.search rules };

    ghost keeps_on = { Prim.search rules };

    fn take(&mut self, buf: &mut [u8]) -> Result<usize, Fault> {
        let most = SOURCE_BYTES_MOST.saturating_sub(self.place) as usize;
        let size = buf.len().min(most);
        let count = self.shelf.read(self.name, self.place, &mut buf[..size])?;
        self.place += count as u64;
        Ok(count)
    }
}
