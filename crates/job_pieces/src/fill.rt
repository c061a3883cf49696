ghost use Rattle.std.specs.Prelude.{◌≡◌, ◌≤◌, ◌<◌, List, [], None, All, length, IfSome, IsSome, OnOk, IsErrOf};
ghost use Rattle.shelf_io.specs.Causes.{SinkCauses};
ghost use Rattle.mux_writer.specs.Output.{IsOfLayout};
ghost use Rattle.version_maker.specs.declared.version.UnitVersion.{UnitVersion};
ghost use Rattle.version_source.specs.Pieces.{pieces_of};
ghost use Rattle.file_pieces.specs.FilePieces.{AreLanesVersions, AreServed, HasServed, HaveLanesVersions, LanesHave, lanes_items};
ghost use Rattle.job_pieces.specs.Private.Filled.{HoldsMore, WritesOn};

use crate::room::Room;
use file_pieces::{FilePieces, Lane, LentPieces};
use mux_writer::{PieceSource, StreamWriter};
use shelf_io::{Fault, Shelf};
use stream_constants::packets::PACKET_BYTES;

/// Puts the packets of the next slots into the room, as many as fit: none only where no slot is left. A fault is the piece source's own, and the packets before it
/// stay.
pub(crate) fn fill_room<P: PieceSource>(
    writer: &mut StreamWriter<'_>,
    pieces: &mut P,
    room: &mut Room,
) -> Result<(), Fault>
    requires has { All (IsOfLayout writer.old.layout (P.has pieces.old)) writer.old.rows }
    requires empty { room.old ≡ [] }
    ensures rows { writer.new.rows ≡ writer.old.rows }
    ensures layout { writer.new.layout ≡ writer.old.layout }
    ensures writes { WritesOn writer.old writer.new }
    ensures held { IfSome (P.told pieces.old) (λ told. HoldsMore told writer.old writer.new room.new) }
    ensures on { writer.old.at ≤ writer.new.at }
    ensures end { OnOk result (room.new ≡ [] → length writer.new.rows ≤ writer.new.at) }
    ensures more { OnOk result (writer.new.at ≤ writer.old.at → room.new ≡ []) }

    ensures causes { SinkCauses P.faults (IsErrOf result Fault.Failed) (IsErrOf result Fault.Missing) pieces.old pieces.new }
    ensures keeps { P.keeps pieces.old pieces.new }
{
    let mut packet = [0; PACKET_BYTES];
    while room.has_room() {
        match writer.next(pieces, &mut packet) {
            Ok(true) => room.push(&packet),
            Ok(false) => return Ok(()),
            Err(fault) => return Err(fault),
        }
    }
    Ok(())
}

/// The same out of files, while their shelf is lent.
pub(crate) fn fill_from<K: Shelf>(
    shelf: &mut K,
    lanes: &[Lane<'_>],
    pieces: &mut FilePieces,
    writer: &mut StreamWriter<'_>,
    room: &mut Room,
) -> Result<(), Fault>
    requires going { pieces.old.stop ≡ None }
    requires served { AreServed (K.files shelf.old) lanes.now pieces.old.states.items }
    requires versions { HaveLanesVersions (K.files shelf.old) lanes.now }
    requires rows { All (IsOfLayout writer.old.layout (LanesHave lanes.now)) writer.old.rows }
    requires empty { room.old ≡ [] }
    ensures served { AreServed (K.files shelf.old) lanes.now pieces.new.states.items }
    ensures rows { writer.new.rows ≡ writer.old.rows }
    ensures layout { writer.new.layout ≡ writer.old.layout }
    ensures writes { WritesOn writer.old writer.new }
    ensures held { IfSome (K.files shelf.old) (λ files. (versions : List (List (List UnitVersion))) → AreLanesVersions files lanes.now versions →
        HoldsMore (pieces_of (lanes_items files lanes.now versions)) writer.old writer.new room.new) }
    ensures on { writer.old.at ≤ writer.new.at }
    ensures end { OnOk result (room.new ≡ [] → length writer.new.rows ≤ writer.new.at) }
    ensures more { OnOk result (writer.new.at ≤ writer.old.at → room.new ≡ []) }

    ensures failed { IsErrOf result Fault.Failed → IsSome pieces.new.stop }
    ensures missing { ¬ IsErrOf result Fault.Missing }
    ensures shelf { HasServed lanes.now pieces.new.stop (K.files shelf.old) (K.files shelf.new) (K.counts shelf.old) (K.counts shelf.new) (K.since_fault shelf.new)
        (K.asked shelf.old) (K.asked shelf.new) }
{
    let mut lent = LentPieces::new(shelf, lanes, pieces);
    fill_room(writer, &mut lent, room)
}
