ghost use Rattle.std.specs.Prelude.{◌≡◌, ◌≤◌, ◌*◌, ◌^◌, IfSome};
ghost use Rattle.std.specs.Option.{option_map};
ghost use Rattle.picture_grammar.specs.Picture.{IsLawful, rows as rows_of};
ghost use Rattle.picture_grammar.specs.Slice.{columns as columns_of};
ghost use Rattle.requantiser.specs.Distortion.{coefficient_of_macroblock, difference_of, distortion_between};
ghost use Rattle.requantiser.specs.Private.Shapes.{IsSide};

use crate::cursor::{Found, find_at, start};
use crate::difference::{Side, difference_of_one, difference_of_two};
use picture_grammar::grid::{columns, rows};
use syntax_types::{Picture, PictureParameters};

/// The sum of the squares of the differences of all coefficients of two pictures with the same macroblocks, but the DC
/// coefficients of intra blocks.
pub fn distortion(from: &Picture, to: &Picture) -> u64
    requires from { IsLawful from.now }
    requires to { IsLawful to.now }
    requires columns { columns_of to.now.seq ≡ columns_of from.now.seq }
    requires rows { rows_of to.now.seq to.now.coding ≡ rows_of from.now.seq from.now.coding }
    ensures { result ≡ distortion_between from.now to.now }
{
    let end = rows(&from.seq, &from.coding) * columns(&from.seq);
    let mut first = start(from);
    let mut second = start(to);
    let mut sum = 0;
    for address in 0..end {
        let a = find_at(from, first, address);
        let b = find_at(to, second, address);
        sum += difference(from, to, a, b);
        first = a.rest;
        second = b.rest;
    }
    sum
}

/// The sum of the squares of the differences at an address.
fn difference(from: &Picture, to: &Picture, a: Found<'_>, b: Found<'_>) -> u64
    requires first { IfSome a.macroblock (λ m. IsSide from.now.seq a.code m.now) }
    requires second { IfSome b.macroblock (λ m. IsSide to.now.seq b.code m.now) }
    ensures value { result ≡ difference_of (coefficient_of_macroblock from.now.seq from.now.coding a.entry.code (option_map (λ m. m.now) a.entry.macroblock))
        (coefficient_of_macroblock to.now.seq to.now.coding b.entry.code (option_map (λ m. m.now) b.entry.macroblock)) }
    ensures bound { result ≤ 2 ^ 41 }
{
    let source = PictureParameters {
        seq: &from.seq,
        coding: &from.coding,
    };
    let version = PictureParameters {
        seq: &to.seq,
        coding: &to.coding,
    };
    match a.macroblock {
        Some(first) => match b.macroblock {
            Some(second) => difference_of_two(
                Side {
                    picture: source,
                    code: a.code,
                    macroblock: first,
                },
                Side {
                    picture: version,
                    code: b.code,
                    macroblock: second,
                },
            ),
            None => difference_of_one(Side {
                picture: source,
                code: a.code,
                macroblock: first,
            }),
        },
        None => match b.macroblock {
            Some(second) => difference_of_one(Side {
                picture: version,
                code: b.code,
                macroblock: second,
            }),
            None => 0,
        },
    }
}
