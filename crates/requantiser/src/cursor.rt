ghost use Rattle.std.specs.Prelude.{◌≡◌, ◌≤◌, ◌<◌, ◌+◌, ◌*◌, ◌^◌, ℕ, IfSome, length};
ghost use Rattle.std.specs.Option.{option_map};
ghost use Rattle.picture_grammar.specs.Picture.{IsLawful, rows};
ghost use Rattle.picture_grammar.specs.Slice.{columns as columns_of};
ghost use Rattle.requantiser.specs.Distortion.{coefficient_of_macroblock, coefficient_of_picture};
ghost use Rattle.requantiser.specs.Private.Cursor.{StandsAt};
ghost use Rattle.requantiser.specs.Private.Shapes.{IsSide};

use crate::step::code_in_force;
use picture_grammar::grid::columns;
use syntax_types::{Macroblock, Picture, Slice};

/// The code before the first slice, where none is in force.
const ANY_CODE: u8 = 1;

/// Where a walk over the addresses of a picture stands.
#[derive(Clone, Copy)]
pub struct Cursor<'a> {
    /// quantiser_scale_code in force before the next macroblock.
    pub code: u8,
    /// The address behind the last macroblock.
    pub start: usize,
    /// The macroblocks of the slice that are left.
    pub macroblocks: &'a [Macroblock],
    /// The slices behind it.
    pub slices: &'a [Slice],
}

/// What stands at an address, and where the walk goes on.
#[derive(Clone, Copy)]
pub struct Found<'a> {
    /// quantiser_scale_code in force in the macroblock.
    pub code: u8,
    /// The macroblock, unless it is skipped.
    pub macroblock: Option<&'a Macroblock>,
    pub rest: Cursor<'a>,
}

/// The walk before the first address of a picture.
pub fn start(picture: &Picture) -> Cursor<'_>
    requires lawful { IsLawful picture.now }
    requires few { rows picture.now.seq picture.now.coding * columns_of picture.now.seq ≤ 2 ^ 19 }
    ensures { StandsAt picture.now 0 result.code result.start result.macroblocks.now result.slices.now }
{
    Cursor {
        code: ANY_CODE,
        start: 0,
        macroblocks: &[],
        slices: picture.slices.as_slice(),
    }
}

/// What stands at the address to which a walk has come.
pub fn find_at<'a>(picture: &Picture, cursor: Cursor<'a>, address: usize) -> Found<'a>
    requires stands { StandsAt picture.now address cursor.code cursor.start cursor.macroblocks.now cursor.slices.now }
    requires within { address < rows picture.now.seq picture.now.coding * columns_of picture.now.seq }
    ensures value { (i place : ℕ) → coefficient_of_picture picture.now address i place
        ≡ coefficient_of_macroblock picture.now.seq picture.now.coding result.code (option_map (λ m. m.now) result.macroblock) i place }
    ensures side { IfSome result.macroblock (λ m. IsSide picture.now.seq result.code m.now) }
    ensures rest { StandsAt picture.now (address + 1) result.rest.code result.rest.start result.rest.macroblocks.now result.rest.slices.now }
{
    let cursor = opened(picture, cursor);
    match cursor.macroblocks.split_first() {
        None => unreachable!(),
        Some((macroblock, macroblocks)) => {
            let at = cursor.start + usize::from(macroblock.skipped_before);
            if address < at {
                return Found {
                    code: cursor.code,
                    macroblock: None,
                    rest: cursor,
                };
            }
            let code = code_in_force(macroblock.code, cursor.code);
            let rest = Cursor {
                code,
                start: at + 1,
                macroblocks,
                slices: cursor.slices,
            };
            Found {
                code,
                macroblock: Some(macroblock),
                rest,
            }
        }
    }
}

/// The same walk with the next slice opened, where the last one has no more macroblocks.
fn opened<'a>(picture: &Picture, cursor: Cursor<'a>) -> Cursor<'a>
    ensures { (address : ℕ) → StandsAt picture.now address cursor.entry.code cursor.entry.start cursor.entry.macroblocks.now cursor.entry.slices.now
        → address < rows picture.now.seq picture.now.coding * columns_of picture.now.seq
        → StandsAt picture.now address result.code result.start result.macroblocks.now result.slices.now × (0 < length result.macroblocks.now) }
{
    if !cursor.macroblocks.is_empty() {
        return cursor;
    }
    match cursor.slices.split_first() {
        None => cursor,
        Some((slice, slices)) => Cursor {
            code: slice.code,
            start: usize::from(slice.row) * columns(&picture.seq),
            macroblocks: slice.macroblocks.as_slice(),
            slices,
        },
    }
}
