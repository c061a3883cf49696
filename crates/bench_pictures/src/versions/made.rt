ghost use Rattle.std.specs.Prelude.{◌≤◌, length};
ghost use Rattle.std.specs.Option.{option_copied};
ghost use Rattle.picture_grammar.specs.Picture.{MayPrecede};

use crate::versions::rewrite::{Rewritten, rewrite_picture};
use crate::versions::totals::differ;
use arrayvec::ArrayVec;
use list_types::ListOf;
use picture_reader::PictureFault;
use std::alloc::Global;
use syntax_types::SeqState;
use version_maker::{
    Ladder, UNIT_BYTES_MOST, VersionSize, size_picture, sizes_of, version_of, versions_of,
};
use version_table::limits::VERSIONS_MOST;

/// The most ratios.
pub const RATIOS_MOST: usize = 7;

/// What is done with each unit.
#[derive(Clone, Copy)]
pub enum Task {
    Read,
    Sizes,
    Last,
    Write,
    Compare,
    Rewrite,
}

impl Task {
    /// By its word.
    pub fn named(word: &str) -> Task {
        match word {
            "sizes" => Task::Sizes,
            "last" => Task::Last,
            "write" => Task::Write,
            "compare" => Task::Compare,
            "rewrite" => Task::Rewrite,
            _ => Task::Read,
        }
    }
}

/// What was made of a unit.
#[derive(Drop)]
pub struct Made {
    pub sizes: ArrayVec<VersionSize, VERSIONS_MOST>,
    pub bytes: ListOf<u8>,
    pub differs: bool,
}

/// Does what is to be done with a unit.
pub fn made_of(
    alloc: Global,
    task: Task,
    unit: &[u8],
    before: Option<&SeqState>,
    ratios: &ArrayVec<u16, RATIOS_MOST>,
    ladder: &mut Ladder,
) -> Result<Made, PictureFault>
    requires unit { length unit.now ≤ UNIT_BYTES_MOST }
    requires before { MayPrecede (option_copied before) }
{
    match task {
        Task::Read => Ok(of_sizes(alloc, ArrayVec::new(), false)),
        Task::Sizes => {
            let sized = size_picture(alloc, unit, before, ratios.as_slice(), ladder)?;
            Ok(of_sizes(alloc, sized.sizes, false))
        }
        Task::Compare => compared(alloc, unit, before, ratios),
        Task::Rewrite => written_again(alloc, unit, before),
        Task::Last => last_version(alloc, unit, before, ratios),
        Task::Write => last_version(alloc, unit, before, ratios),
    }
}

/// Sizes without bytes.
fn of_sizes(alloc: Global, sizes: ArrayVec<VersionSize, VERSIONS_MOST>, differs: bool) -> Made {
    Made {
        sizes,
        bytes: ListOf::new(alloc),
        differs,
    }
}

/// The sizes of all versions, compared with the versions.
fn compared(
    alloc: Global,
    unit: &[u8],
    before: Option<&SeqState>,
    ratios: &ArrayVec<u16, RATIOS_MOST>,
) -> Result<Made, PictureFault>
    requires unit { length unit.now ≤ UNIT_BYTES_MOST }
    requires before { MayPrecede (option_copied before) }
{
    let sizes = sizes_of(alloc, unit, before, ratios.as_slice())?;
    let versions = versions_of(alloc, unit, before, ratios.as_slice())?;
    let differs = differ(sizes.as_slice(), versions.as_slice());
    Ok(of_sizes(alloc, sizes, differs))
}

/// The picture written and read again.
fn written_again(
    alloc: Global,
    unit: &[u8],
    before: Option<&SeqState>,
) -> Result<Made, PictureFault>
    requires unit { length unit.now ≤ UNIT_BYTES_MOST }
    requires before { MayPrecede (option_copied before) }
{
    let Rewritten { bytes, differs } = rewrite_picture(alloc, unit, before)?;
    Ok(Made {
        sizes: only_size(bytes.len()),
        bytes,
        differs,
    })
}

/// One size, of bytes alone.
fn only_size(bytes: usize) -> ArrayVec<VersionSize, VERSIONS_MOST> {
    let mut sizes = ArrayVec::new();
    sizes.push(VersionSize {
        bytes: bytes as u64,
        distortion: 0,
    });
    sizes
}

/// The version at the last ratio, or version 0 where there is none.
fn last_version(
    alloc: Global,
    unit: &[u8],
    before: Option<&SeqState>,
    ratios: &ArrayVec<u16, RATIOS_MOST>,
) -> Result<Made, PictureFault>
    requires unit { length unit.now ≤ UNIT_BYTES_MOST }
    requires before { MayPrecede (option_copied before) }
{
    let index = ratios.len() as u8;
    let bytes = version_of(alloc, unit, before, ratios.as_slice(), index)?;
    Ok(Made {
        sizes: only_size(bytes.len()),
        bytes,
        differs: false,
    })
}
