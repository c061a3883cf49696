ghost use Rattle.std.specs.Prelude.{◌≡◌, ◌<◌, ◌^◌, false, OnOk};
ghost use Rattle.std.specs.List.{flat_map, AllByRecursion};
ghost use Rattle.bit_cursor.specs.BitWriter.{is_stopped, odd_bits, Writes};
ghost use Rattle.picture_grammar.specs.Picture.{IsCoding};
ghost use Rattle.picture_grammar.specs.StartCode.{start_code_bits};
ghost use Rattle.macroblock_writer.specs.Private.WholeSlices.{written_whole_slice};
ghost use Rattle.picture_writer.specs.WrittenPicture.{written_end};
ghost use Rattle.picture_writer.specs.Private.Slices.{CanBeWritten};

use bit_cursor::BitWriter;
use macroblock_writer::write_slice;
use shelf_io::{Fault, Sink};
use stream_constants::start_codes::{FIRST_SLICE, SEQUENCE_END};
use syntax_types::{PictureParameters, Slice};

/// Writes slices, each behind its start code and up to a whole byte.
pub fn write_slices<K: Sink>(
    to: &mut BitWriter<'_, K>,
    picture: PictureParameters<'_>,
    slices: &[Slice],
) -> Result<(), Fault>
    requires goes { is_stopped to.old ≡ false }
    requires whole { odd_bits to.old ≡ 0 }
    requires coding { IsCoding picture.coding.now }
    requires spelled { AllByRecursion (CanBeWritten picture.seq.now picture.coding.now) slices.now }
    ensures writes { Writes K.written K.faults K.keeps to.old to.new result (flat_map (written_whole_slice picture.entry.coding.now) slices.now) }
    ensures whole { OnOk result (odd_bits to.new ≡ 0) }
{
    for slice in slices {
        write_whole_slice(to, picture, slice)?;
    }
    Ok(())
}

fn write_whole_slice<K: Sink>(
    to: &mut BitWriter<'_, K>,
    picture: PictureParameters<'_>,
    slice: &Slice,
) -> Result<(), Fault>
    requires goes { is_stopped to.old ≡ false }
    requires whole { odd_bits to.old ≡ 0 }
    requires coding { IsCoding picture.coding.now }
    requires spelled { CanBeWritten picture.seq.now picture.coding.now slice.now }
    ensures writes { Writes K.written K.faults K.keeps to.old to.new result (written_whole_slice picture.entry.coding.now slice.now) }
    ensures whole { OnOk result (odd_bits to.new ≡ 0) }
{
    write_start_code(to, slice.row + FIRST_SLICE)?;
    write_slice(to, picture, slice)?;
    to.align_zero()
}

/// Writes the sequence end code where it stands (6.2.1). A fault is the sink's own, and stops the writer.
pub fn write_end<K: Sink>(to: &mut BitWriter<'_, K>, sequence_end: bool) -> Result<(), Fault>
    requires goes { is_stopped to.old ≡ false }
    requires whole { odd_bits to.old ≡ 0 }
    ensures writes { Writes K.written K.faults K.keeps to.old to.new result (written_end sequence_end) }
    ensures whole { OnOk result (odd_bits to.new ≡ 0) }
{
    if sequence_end {
        write_start_code(to, SEQUENCE_END)
    } else {
        Ok(())
    }
}

/// Writes the start code with this last byte (ISO/IEC 13818-2, 6.2.1). A fault is the sink's own, and stops the writer.
pub fn write_start_code<K: Sink>(to: &mut BitWriter<'_, K>, byte: u8) -> Result<(), Fault>
    requires goes { is_stopped to.old ≡ false }
    ensures writes { Writes K.written K.faults K.keeps to.old to.new result (start_code_bits byte) }
    ensures odd { OnOk result (odd_bits to.new ≡ odd_bits to.old) }
{
    to.put_bits((1 << 8) + u32::from(byte), 32)
}
