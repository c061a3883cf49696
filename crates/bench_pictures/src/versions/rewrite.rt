//! A picture is read, written and read again.
ghost use Rattle.std.specs.Prelude.{◌≤◌, length};
ghost use Rattle.std.specs.Option.{option_copied};
ghost use Rattle.picture_grammar.specs.Picture.{IsLawful, MayPrecede};

use crate::versions::same::same_picture;
use list_types::{ListOf, OutOfMemory};
use picture_reader::{PictureFault, read_picture};
use picture_writer::write_picture;
use shelf_io::VecSink;
use std::alloc::Global;
use syntax_types::{Picture, SeqState};
use version_maker::UNIT_BYTES_MOST;

/// A picture that was written and read again.
#[derive(Drop)]
pub struct Rewritten {
    /// What was written.
    pub bytes: ListOf<u8>,
    /// These bytes aren't read as the picture's tree.
    pub differs: bool,
}

/// The picture of a unit, written and read again behind the same state.
pub fn rewrite_picture(
    alloc: Global,
    unit: &[u8],
    before: Option<&SeqState>,
) -> Result<Rewritten, PictureFault>
    requires unit { length unit.now ≤ UNIT_BYTES_MOST }
    requires before { MayPrecede (option_copied before) }
{
    let picture = match read_picture(alloc, unit, before) {
        Ok(picture) => picture,
        Err(fault) => return Err(fault),
    };
    let bytes = written(alloc, &picture)?;
    let differs = !is_read_as(alloc, bytes.as_slice(), before, &picture);
    Ok(Rewritten { bytes, differs })
}

/// The bytes of a picture.
fn written(alloc: Global, picture: &Picture) -> Result<ListOf<u8>, OutOfMemory>
    requires lawful { IsLawful picture.now }
{
    let mut sink = VecSink::new(alloc);
    match write_picture(&mut sink, picture) {
        Ok(()) => Ok(ListOf::from_vec(sink.into_bytes())),
        Err(_) => Err(OutOfMemory),
    }
}

/// Whether these bytes are read as the picture's tree.
fn is_read_as(alloc: Global, bytes: &[u8], before: Option<&SeqState>, picture: &Picture) -> bool {
    let front = bytes.get(..bytes.len().min(UNIT_BYTES_MOST)).unwrap_or(&[]);
    match read_picture(alloc, front, before) {
        Ok(again) => same_picture(picture, &again),
        Err(_) => false,
    }
}
