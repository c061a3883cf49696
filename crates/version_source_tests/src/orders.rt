//! Orders in which pieces are asked for.
ghost use Rattle.version_source_tests.specs.Private.Kept.{AreKept};

use crate::asking::{Ask, item_of_piece};
use crate::kept::Kept;
use std::alloc::{AllocError, Global};

/// More than the items of a stream, and than the pieces of an item.
const MOST: u32 = 1_000;

/// How many pieces an item of a stream has; none where there is no such item.
pub fn count_pieces(kept: &Kept, stream: u32, item: u32) -> u32
    requires { AreKept kept.now.programs kept.now.jobs kept.now.versions kept.now.choice.items }
{
    for piece in 0..MOST {
        let ask = Ask {
            stream,
            item,
            piece,
        };
        if item_of_piece(kept, ask).is_none() {
            return piece;
        }
    }
    MOST
}

/// How many items a stream has.
pub fn count_items(kept: &Kept, stream: u32) -> u32
    requires { AreKept kept.now.programs kept.now.jobs kept.now.versions kept.now.choice.items }
{
    for item in 0..MOST {
        if count_pieces(kept, stream, item) == 0 {
            return item;
        }
    }
    MOST
}

/// Adds all pieces of an item in order.
fn push_item(asks: &mut Vec<Ask>, kept: &Kept, stream: u32, item: u32) -> Result<(), AllocError>
    requires { AreKept kept.now.programs kept.now.jobs kept.now.versions kept.now.choice.items }
{
    for piece in 0..count_pieces(kept, stream, item) {
        asks.push(Ask {
            stream,
            item,
            piece,
        })?;
    }
    Ok(())
}

/// All pieces of so many streams, in order.
pub fn in_order(alloc: Global, kept: &Kept, streams: u32) -> Result<Vec<Ask>, AllocError>
    requires { AreKept kept.now.programs kept.now.jobs kept.now.versions kept.now.choice.items }
{
    let mut asks = Vec::new(alloc);
    for stream in 0..streams {
        for item in 0..count_items(kept, stream) {
            push_item(&mut asks, kept, stream, item)?;
        }
    }
    Ok(asks)
}

/// All pieces of so many streams, from the last item of each to the first.
pub fn from_the_last(alloc: Global, kept: &Kept, streams: u32) -> Result<Vec<Ask>, AllocError>
    requires { AreKept kept.now.programs kept.now.jobs kept.now.versions kept.now.choice.items }
{
    let mut asks = Vec::new(alloc);
    for stream in 0..streams {
        for item in (0..count_items(kept, stream)).rev() {
            push_item(&mut asks, kept, stream, item)?;
        }
    }
    Ok(asks)
}

/// Of each item of so many streams the last piece alone.
pub fn last_pieces(alloc: Global, kept: &Kept, streams: u32) -> Result<Vec<Ask>, AllocError>
    requires { AreKept kept.now.programs kept.now.jobs kept.now.versions kept.now.choice.items }
{
    let mut asks = Vec::new(alloc);
    for stream in 0..streams {
        for item in 0..count_items(kept, stream) {
            asks.push(Ask {
                stream,
                item,
                piece: count_pieces(kept, stream, item).saturating_sub(1),
            })?;
        }
    }
    Ok(asks)
}

/// The pieces of two streams in turn, one of each, item by item. Where one item has fewer pieces, those of the other one go on.
pub fn by_turns(alloc: Global, kept: &Kept, first: u32, second: u32) -> Result<Vec<Ask>, AllocError>
    requires { AreKept kept.now.programs kept.now.jobs kept.now.versions kept.now.choice.items }
{
    let mut asks = Vec::new(alloc);
    for item in 0..count_items(kept, first) {
        for piece in 0..MOST {
            for stream in [first, second] {
                let ask = Ask {
                    stream,
                    item,
                    piece,
                };
                if item_of_piece(kept, ask).is_some() {
                    asks.push(ask)?;
                }
            }
        }
    }
    Ok(asks)
}
