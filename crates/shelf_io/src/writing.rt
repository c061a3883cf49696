ghost use Rattle.std.specs.Prelude.{◌≡◌};

use crate::fault::Fault;
use crate::shelf::Shelf;
use crate::sink::Sink;

/// A sink over one file of a shelf, to whose end it adds. Its count of faults is the shelf's of failed writes.
#[derive(Drop)]
pub struct Writing<'a, K> {
    shelf: &'a mut K,
    name: &'a str,
}

impl<'a, K: Shelf> Writing<'a, K> {
    ghost use Rattle.shelf_io.specs.Writing.{shelf_of, name_of};

    /// A sink over the end of a file.
    pub fn new(shelf: &'a mut K, name: &'a str) -> Self
        ensures same_shelf { (shelf_of result).ghost_name ≡ shelf.entry.ghost_name }
        ensures shelf { (shelf_of result).now ≡ shelf.old }
        ensures name { name_of result ≡ name.entry.now }
    {
        Writing { shelf, name }
    }
}

impl<'a, K: Shelf> Sink for Writing<'a, K> {
    ghost use Rattle.shelf_io.specs.Writing.{shelf_of, name_of, written_to, KeepsOthers};
    ghost use Rattle.std.proofs.Common.{rules};

    ghost written = { λ writing. written_to (K.files (shelf_of writing).now) (name_of writing) };

    ghost faults = { λ writing. (K.counts (shelf_of writing).now).write_faults };

    ghost since_fault = { λ writing. K.since_fault (shelf_of writing).now };

    ghost keeps = { KeepsOthers K.files K.counts K.asked };

    ghost keeps_itself = { Prim.search rules };

    ghost keeps_on = { Prim.search rules };

    fn put(&mut self, piece: &[u8]) -> Result<usize, Fault> {
        self.shelf.append(self.name, piece)
    }
}
