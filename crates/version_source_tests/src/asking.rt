//! A piece source is asked for pieces, and what it gives is compared with the versions that are kept.
ghost use Rattle.std.specs.Prelude.{ℕ, IfSome};
ghost use Rattle.version_source.specs.Pieces.{HasPiece, stream_items};
ghost use Rattle.version_source.specs.Source.{HasIt};
ghost use Rattle.version_source_tests.specs.Private.Kept.{AreKept, HasAll};

use crate::item::{Item, item_of};
use crate::kept::Kept;
use mux_writer::{Filled, PieceSource};
use shelf_io::Fault;
use stream_constants::packets::PAYLOAD_BYTES;
use version_source::VersionSource;

/// A piece, by its numbers.
#[derive(Clone, Copy)]
pub struct Ask {
    /// The number of the stream over all programs.
    pub stream: u32,
    pub item: u32,
    pub piece: u32,
}

/// Whether the source gives these pieces as they are kept, asked for in this order.
pub fn are_right(source: &mut VersionSource<'_>, kept: &Kept, asks: &[Ask]) -> Result<bool, Fault>
    requires kept { AreKept kept.now.programs kept.now.jobs kept.now.versions kept.now.choice.items }
    requires has { HasAll (stream_items kept.now.programs kept.now.versions kept.now.choice.items) source.old }
    ensures { HasAll (stream_items kept.now.programs kept.now.versions kept.now.choice.items) source.new }
{
    for ask in asks {
        if !is_right(source, kept, *ask)? {
            return Ok(false);
        }
    }
    Ok(true)
}

/// Whether the source gives a piece as it is kept. A piece that isn't kept is wrong.
fn is_right(source: &mut VersionSource<'_>, kept: &Kept, ask: Ask) -> Result<bool, Fault>
    requires kept { AreKept kept.now.programs kept.now.jobs kept.now.versions kept.now.choice.items }
    requires has { HasAll (stream_items kept.now.programs kept.now.versions kept.now.choice.items) source.old }
    ensures { HasAll (stream_items kept.now.programs kept.now.versions kept.now.choice.items) source.new }
{
    let mut buffer = [0; PAYLOAD_BYTES];
    let Some((item, filled)) = piece_of(source, kept, ask, &mut buffer)? else {
        return Ok(false);
    };
    Ok(item.is_held(ask.piece, filled, &buffer))
}

/// Whether the source gives a piece with this length and this flag, which begins with these bytes. A piece that isn't kept is wrong.
pub fn is_given(
    source: &mut VersionSource<'_>,
    kept: &Kept,
    ask: Ask,
    want: Filled,
    front: &[u8],
) -> Result<bool, Fault>
    requires kept { AreKept kept.now.programs kept.now.jobs kept.now.versions kept.now.choice.items }
    requires has { HasAll (stream_items kept.now.programs kept.now.versions kept.now.choice.items) source.old }
    ensures { HasAll (stream_items kept.now.programs kept.now.versions kept.now.choice.items) source.new }
{
    let mut buffer = [0; PAYLOAD_BYTES];
    let Some((_, filled)) = piece_of(source, kept, ask, &mut buffer)? else {
        return Ok(false);
    };
    Ok(filled == want && buffer.as_slice().starts_with(front))
}

/// Puts a piece that is kept into the buffer, and answers its item and what the source says of it; None where it isn't kept.
fn piece_of<'a>(
    source: &mut VersionSource<'_>,
    kept: &'a Kept,
    ask: Ask,
    buffer: &mut [u8; PAYLOAD_BYTES],
) -> Result<Option<(Item<'a>, Filled)>, Fault>
    requires kept { AreKept kept.now.programs kept.now.jobs kept.now.versions kept.now.choice.items }
    requires has { HasAll (stream_items kept.now.programs kept.now.versions kept.now.choice.items) source.old }
    ensures { HasAll (stream_items kept.now.programs kept.now.versions kept.now.choice.items) source.new }
{
    let Some(item) = item_of_piece(kept, ask) else {
        return Ok(None);
    };
    let filled = filled_with(source, ask, buffer)?;
    Ok(Some((item, filled)))
}

/// The item of a piece, where it has such a piece.
pub fn item_of_piece<'a>(kept: &'a Kept, ask: Ask) -> Option<Item<'a>>
    requires { AreKept kept.now.programs kept.now.jobs kept.now.versions kept.now.choice.items }
    ensures { IfSome result (λ _. HasPiece (stream_items kept.now.programs kept.now.versions kept.now.choice.items) ask.stream ask.item ask.piece) }
{
    let item = item_of(
        kept.programs.as_slice(),
        kept.versions.as_slice(),
        kept.choice.as_slice(),
        ask.stream as usize,
        ask.item as usize,
    )?;
    if item.has_piece(ask.piece) {
        return Some(item);
    }
    None
}

/// Puts a piece of the source into the buffer. After a fault it is asked for once more.
pub fn filled_with(
    source: &mut VersionSource<'_>,
    ask: Ask,
    buffer: &mut [u8; PAYLOAD_BYTES],
) -> Result<Filled, Fault>
    requires { HasIt source.old ask.stream ask.item ask.piece }
    ensures { (stream item piece : ℕ) → HasIt source.old stream item piece → HasIt source.new stream item piece }
{
    match source.piece(ask.stream, ask.item, ask.piece, buffer) {
        Ok(filled) => Ok(filled),
        Err(_) => source.piece(ask.stream, ask.item, ask.piece, buffer),
    }
}
