ghost use Rattle.std.specs.Prelude.{◌≡◌, ◌<◌, ◌^◌, ℕ, List, ◌++◌, false, IfSome};
ghost use Rattle.std.specs.List.{flat_map, AllByRecursion};
ghost use Rattle.bit_lists.specs.Bits.{bits_of};
ghost use Rattle.bit_cursor.specs.BitWriter.{is_stopped, Writes};
ghost use Rattle.picture_grammar.specs.Picture.{IsCoding};
ghost use Rattle.picture_grammar.specs.Slice.{ClosesSlice, slice as slice_grammar};
ghost use Rattle.picture_grammar.specs.Written.{written_macroblock, written_slice_info, written_slice};
ghost use Rattle.picture_laws.specs.Spellable.{IsSpellable};
ghost use Rattle.macroblock_writer.specs.Private.Writing.{CanBeWritten, SliceFits, written_byte, written_extension};

use crate::macroblock::write_parts;
use bit_cursor::BitWriter;
use shelf_io::{Fault, Sink};
use syntax_types::{Macroblock, PicCoding, PictureParameters, Slice, SliceInfo};

/// Writes a slice that some bits spell in this picture (ISO/IEC 13818-2, 6.2.4), from behind its start code to the end of
/// its last macroblock. A fault is the sink's own, and stops the writer.
pub fn write_slice<K: Sink>(
    to: &mut BitWriter<'_, K>,
    picture: PictureParameters<'_>,
    slice: &Slice,
) -> Result<(), Fault>
    requires goes { is_stopped to.old ≡ false }
    requires coding { IsCoding picture.coding.now }
    requires spelled { (row : ℕ) × IsSpellable (slice_grammar picture.seq.now picture.coding.now row) slice.now }
    ensures writes { Writes K.written K.faults K.keeps to.old to.new result (written_slice picture.entry.coding.now slice.now) }
    ensures read_back { (row : ℕ) (following : List ℕ) → IsSpellable (slice_grammar picture.entry.seq.now picture.entry.coding.now row) slice.now → ClosesSlice following →
        (slice_grammar picture.entry.seq.now picture.entry.coding.now row).Spells slice.now (written_slice picture.entry.coding.now slice.now ++ following) following }
{
    write_header_and_macroblocks(to, picture.coding, slice)
}

fn write_header_and_macroblocks<K: Sink>(
    to: &mut BitWriter<'_, K>,
    coding: &PicCoding,
    slice: &Slice,
) -> Result<(), Fault>
    requires goes { is_stopped to.old ≡ false }
    requires coding { IsCoding coding.now }
    requires fits { SliceFits coding.now slice.now }
    ensures { Writes K.written K.faults K.keeps to.old to.new result (written_slice coding.now slice.now) }
{
    write_slice_head(to, slice.code, &slice.info)?;
    write_macroblocks(to, coding, slice.macroblocks.as_slice())
}

/// Writes what stands in a slice from behind its start code to its first macroblock (ISO/IEC 13818-2, 6.2.4):
/// quantiser_scale_code, and the flag of the extension with what it calls for. A fault is the sink's own, and stops the
/// writer.
pub fn write_slice_head<K: Sink>(
    to: &mut BitWriter<'_, K>,
    code: u8,
    info: &Option<SliceInfo>,
) -> Result<(), Fault>
    requires goes { is_stopped to.old ≡ false }
    requires code { code < 2 ^ 5 }
    requires reserved { IfSome info.now (λ info. info.reserved < 2 ^ 7) }
    ensures { Writes K.written K.faults K.keeps to.old to.new result (bits_of 5 code ++ written_slice_info info.now) }
{
    to.put_bits(u32::from(code), 5)?;
    write_info(to, info)
}

// The flag of the extension, and what stands behind it where it is set.
fn write_info<K: Sink>(to: &mut BitWriter<'_, K>, info: &Option<SliceInfo>) -> Result<(), Fault>
    requires goes { is_stopped to.old ≡ false }
    requires reserved { IfSome info.now (λ info. info.reserved < 2 ^ 7) }
    ensures { Writes K.written K.faults K.keeps to.old to.new result (written_slice_info info.now) }
{
    match info {
        Some(info) => write_extension(to, info),
        None => to.put_bits(0, 1),
    }
}

// The flag, intra_slice and the reserved bits in one number, each byte of extra information behind a bit 1, and the bit 0.
fn write_extension<K: Sink>(to: &mut BitWriter<'_, K>, info: &SliceInfo) -> Result<(), Fault>
    requires goes { is_stopped to.old ≡ false }
    requires reserved { info.now.reserved < 2 ^ 7 }
    ensures { Writes K.written K.faults K.keeps to.old to.new result (written_extension info.now) }
{
    let flags = 2 + u32::from(info.intra_slice);
    to.put_bits((flags << 7) + u32::from(info.reserved), 9)?;
    write_information(to, info.bytes.as_slice())?;
    to.put_bits(0, 1)
}

fn write_information<K: Sink>(to: &mut BitWriter<'_, K>, bytes: &[u8]) -> Result<(), Fault>
    requires goes { is_stopped to.old ≡ false }
    ensures { Writes K.written K.faults K.keeps to.old to.new result (flat_map written_byte bytes.now) }
{
    for byte in bytes {
        to.put_bits((1 << 8) + u32::from(*byte), 9)?;
    }
    Ok(())
}

fn write_macroblocks<K: Sink>(
    to: &mut BitWriter<'_, K>,
    coding: &PicCoding,
    macroblocks: &[Macroblock],
) -> Result<(), Fault>
    requires goes { is_stopped to.old ≡ false }
    requires coding { IsCoding coding.now }
    requires fit { AllByRecursion (CanBeWritten coding.now) macroblocks.now }
    ensures { Writes K.written K.faults K.keeps to.old to.new result (flat_map (written_macroblock coding.now) macroblocks.now) }
{
    for macroblock in macroblocks {
        write_parts(to, coding, macroblock)?;
    }
    Ok(())
}
