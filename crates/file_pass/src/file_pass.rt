ghost use Rattle.std.specs.Prelude.{◌≡◌, ◌≤◌};
ghost use Rattle.shelf_io.specs.Source.{source_bytes_most};

use shelf_io::{Fault, Shelf, Source};

/// A source over the bytes of one file of a shelf that stand before a place, its limit. Its counts are the shelf's. Behind a read that failed it calls the shelf
/// no more, and says that memory is wanting.
#[derive(Drop)]
pub struct FilePass<'a, K> {
    shelf: &'a mut K,
    name: &'a str,
    // the place of the byte that comes next
    place: u64,
    limit: u64,
    // what the read that failed answered
    stop: Option<Fault>,
    ghost within: { place ≤ limit },
    ghost few: { limit ≤ source_bytes_most },
}

impl<'a, K: Shelf> FilePass<'a, K> {
    ghost use Rattle.file_pass.specs.FilePass.{HasPassed, limit_of, name_of, place_of, shelf_of, stop_of};

    /// A source over the bytes of a file before a place.
    pub fn new(shelf: &'a mut K, name: &'a str, limit: u64) -> Self
        requires { limit ≤ source_bytes_most }
        ensures same_shelf { (shelf_of result).ghost_name ≡ shelf.entry.ghost_name }
        ensures shelf { (shelf_of result).now ≡ shelf.old }
        ensures name { name_of result ≡ name.entry.now }
        ensures limit { limit_of result ≡ limit }
        ensures place { place_of result ≡ 0 }
        ensures begins { HasPassed K.files K.counts K.asked K.since_fault shelf.old result }
    {
        FilePass::from_place(shelf, name, limit, 0)
    }

    /// The same from a place on.
    pub fn from_place(shelf: &'a mut K, name: &'a str, limit: u64, place: u64) -> Self
        requires place { place ≤ limit }
        requires limit { limit ≤ source_bytes_most }
        ensures same_shelf { (shelf_of result).ghost_name ≡ shelf.entry.ghost_name }
        ensures shelf { (shelf_of result).now ≡ shelf.old }
        ensures name { name_of result ≡ name.entry.now }
        ensures limit { limit_of result ≡ limit }
        ensures place { place_of result ≡ place }
        ensures begins { HasPassed K.files K.counts K.asked K.since_fault shelf.old result }
    {
        FilePass {
            shelf,
            name,
            place,
            limit,
            stop: None,
        }
    }

    /// The place in the file of the byte that comes next, its limit at most.
    pub fn place(&self) -> u64
        ensures place { result ≡ place_of self.now }
        ensures within { result ≤ limit_of self.now }
    {
        self.place
    }

    /// What the read that failed answered, or None where none failed.
    pub fn stop(&self) -> Option<Fault>
        ensures { result ≡ stop_of self.now }
    {
        self.stop
    }
}

impl<'a, K: Shelf> Source for FilePass<'a, K> {
    ghost use Rattle.std.specs.Prelude.{◌-◌};
    ghost use Rattle.file_pass.specs.FilePass.{KeepsPass, left_to, limit_of, name_of, place_of, shelf_of};
    ghost use Rattle.std.proofs.Common.{rules, arith};

    ghost left = { λ pass. left_to (K.files (shelf_of pass).now) (name_of pass) (limit_of pass) (place_of pass) };

    ghost most = { λ pass. limit_of pass - place_of pass };

    ghost faults = { λ pass. (K.counts (shelf_of pass).now).faults };

    ghost absences = { λ pass. (K.counts (shelf_of pass).now).absences };

    ghost keeps = { KeepsPass K.files K.counts K.asked K.since_fault };

    ghost most_fits = { λ pass. Prim.omega (arith, pass.few) };

    ghost keeps_itself = { Prim.search rules };

    ghost keeps_on = { Prim.search rules };

    fn take(&mut self, buf: &mut [u8]) -> Result<usize, Fault> {
        if self.stop.is_some() {
            return Err(Fault::OutOfMemory);
        }
        let size = buf.len().min((self.limit - self.place) as usize);
        match self.shelf.read(self.name, self.place, &mut buf[..size]) {
            Ok(count) => {
                self.place += count as u64;
                Ok(count)
            }
            Err(fault) => {
                self.stop = Some(fault);
                Err(fault)
            }
        }
    }
}
