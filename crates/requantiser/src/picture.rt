ghost use Rattle.std.specs.Prelude.{◌≡◌, ◌≤◌, ℕ, IfOk, Option, List, map};
ghost use Rattle.std.specs.List.{AllByRecursion, AllZip};
ghost use Rattle.syntax_types.specs.declared.picture.SeqState.{SeqState as State};
ghost use Rattle.picture_grammar.specs.Picture.{IsLawful, MayPrecede, SpellsPicture};
ghost use Rattle.picture_grammar.specs.Slice.{columns};
ghost use Rattle.requantiser.specs.Levels.{HasWeights};
ghost use Rattle.requantiser.specs.Slices.{IsCoarserSlice};
ghost use Rattle.requantiser.specs.Version.{IsLawfulBehind, IsVersion};
ghost use Rattle.requantiser.specs.Private.Shapes.{IsWalkableSlice};
ghost use Rattle.requantiser.specs.Private.Walk.{coarsened_slice};

use crate::slice::coarsen_slice;
use picture_heads::{NO_DELAY, without_delay};
use std::alloc::Global;
use syntax_types::{ListOf, OutOfMemory, PicCoding, Picture, PictureParameters, Slice};

/// The version of a lawful picture at `m` sixteenths.
pub fn coarsen(alloc: Global, picture: &Picture, m: u16) -> Result<Picture, OutOfMemory>
    requires { IsLawful picture.now }
    ensures version { IfOk result (λ made. IsVersion m picture.now made) }
    ensures lawful { IfOk result (λ made. IsLawful made) }
    ensures behind { IfOk result (λ made. (before : Option State) (bytes : List ℕ) → MayPrecede before → SpellsPicture before picture.now bytes → IsLawfulBehind before made) }
{
    let head = without_delay(alloc, picture.head.as_slice())?;
    let slices = coarsen_slices(alloc, picture, m)?;
    Ok(Picture {
        seq: picture.seq,
        coding: PicCoding {
            vbv_delay: NO_DELAY,
            ..picture.coding
        },
        head,
        slices,
        sequence_end: picture.sequence_end,
    })
}

/// The slices of the version of a lawful picture at `m` sixteenths.
fn coarsen_slices(alloc: Global, picture: &Picture, m: u16) -> Result<ListOf<Slice>, OutOfMemory>
    requires { IsLawful picture.now }
    ensures { IfOk result (λ slices. AllZip (IsCoarserSlice picture.now.seq picture.now.coding m) picture.now.slices slices) }
{
    let slices = picture.slices.as_slice();
    let parameters = PictureParameters {
        seq: &picture.seq,
        coding: &picture.coding,
    };
    let made = walk_slices(alloc, parameters, m, slices)?;
    Ok(made)
}

/// The slices of a version, by the walk.
fn walk_slices(
    alloc: Global,
    picture: PictureParameters<'_>,
    m: u16,
    slices: &[Slice],
) -> Result<ListOf<Slice>, OutOfMemory>
    requires weights { HasWeights picture.seq.now }
    requires few { columns picture.seq.now ≤ u16.MAX }
    requires walkable { AllByRecursion (IsWalkableSlice (columns picture.seq.now)) slices.now }
    ensures { IfOk result (λ made. made ≡ map (coarsened_slice picture.entry.seq.now picture.entry.coding.now m) slices.now) }
{
    let mut made = ListOf::new(alloc);
    for slice in slices {
        made.push(coarsen_slice(alloc, picture, m, slice)?)?;
    }
    Ok(made)
}
