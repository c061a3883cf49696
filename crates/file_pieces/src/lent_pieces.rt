ghost use Rattle.std.specs.Prelude.{◌≡◌, None};
ghost use Rattle.file_pieces.specs.FilePieces.{HaveLanesVersions};
ghost use Rattle.file_pieces.specs.Private.OneVersions.{one-versions};

use crate::kept_pieces::{FilePieces, PieceNumber};
use crate::lane::Lane;
use mux_writer::{Filled, PieceSource};
use shelf_io::{Fault, Shelf};
use stream_constants::packets::PAYLOAD_BYTES;

/// The pieces of streams of files, while a shelf is lent to them. Once a read has failed, a file isn't held or isn't what it was, they answer Failed; from then on they
/// call the shelf no more, and say that memory is wanting.
#[derive(Drop)]
pub struct LentPieces<'a, K: Shelf> {
    shelf: &'a mut K,
    lanes: &'a [Lane<'a>],
    pieces: &'a mut FilePieces,
    /// Where files are told, the units have versions.
    ghost made: { HaveLanesVersions (K.files shelf.now) lanes.now } by { one-versions (K.files shelf.now) lanes.now },
}

impl<'a, K: Shelf> LentPieces<'a, K> {
    ghost use Rattle.std.specs.Prelude.{ℕ, List, Some};
    ghost use Rattle.shelf_io.specs.Files.{Files};
    ghost use Rattle.version_maker.specs.declared.version.UnitVersion.{UnitVersion};
    ghost use Rattle.version_source.specs.Pieces.{pieces_of};
    ghost use Rattle.file_pieces.specs.FilePieces.{AreLanesVersions, AreServed, LanesHave, lanes_items};
    ghost use Rattle.file_pieces.specs.LentPieces.{HasIt, HasLent, lanes_of, pieces_held, shelf_of, told_of};

    /// The pieces of these streams, behind those that were asked for so far.
    pub fn new(shelf: &'a mut K, lanes: &'a [Lane<'a>], pieces: &'a mut FilePieces) -> Self
        requires { HaveLanesVersions (K.files shelf.old) lanes.now }
        ensures same_shelf { (shelf_of result).ghost_name ≡ shelf.entry.ghost_name }
        ensures shelf { (shelf_of result).now ≡ shelf.old }
        ensures same_pieces { (pieces_held result).ghost_name ≡ pieces.entry.ghost_name }
        ensures pieces { (pieces_held result).now ≡ pieces.old }
        ensures lanes { lanes_of result ≡ lanes.entry.now }
        ensures told { (files : Files) (versions : List (List (List UnitVersion))) → K.files shelf.old ≡ Some files → AreLanesVersions files lanes.now versions →
            told_of result ≡ Some (pieces_of (lanes_items files lanes.now versions)) }
        ensures untold { K.files shelf.old ≡ None → told_of result ≡ None }
        ensures has { AreServed (K.files shelf.old) lanes.now pieces.old.states.items → (stream item piece : ℕ) → LanesHave lanes.now stream item piece →
            HasIt result stream item piece }
        ensures begins { pieces.old.stop ≡ None → HasLent shelf.old result }
    {
        LentPieces {
            shelf,
            lanes,
            pieces,
        }
    }
}

impl<'a, K: Shelf> PieceSource for LentPieces<'a, K> {
    ghost use Rattle.file_pieces.specs.LentPieces.{HasIt, KeepsLent, stops_of, told_of};
    ghost use Rattle.std.proofs.Common.{rules};

    ghost told = { told_of };

    ghost has = { HasIt };

    ghost faults = { stops_of };

    ghost keeps = { KeepsLent };

    ghost keeps_itself = { Prim.search rules };

    ghost keeps_on = { Prim.search rules };

    fn piece(
        &mut self,
        stream: u32,
        item: u32,
        piece: u32,
        into: &mut [u8; PAYLOAD_BYTES],
    ) -> Result<Filled, Fault> {
        if self.pieces.stop().is_some() {
            return Err(Fault::OutOfMemory);
        }
        let number = PieceNumber {
            stream,
            item,
            piece,
        };
        self.pieces.piece(self.shelf, self.lanes, number, into)
    }
}
