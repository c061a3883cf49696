//! Pictures, drawn and written (ISO/IEC 13818-2, 6.2).
ghost use Rattle.std.specs.Prelude.{◌≡◌, ◌<◌, ◌+◌, ◌++◌, [], ◌∷◌, false, OnOk, IfOk};
ghost use Rattle.std.specs.List.{flat_map};
ghost use Rattle.bit_cursor.specs.BitWriter.{is_stopped, odd_bits, AddsBits};
ghost use Rattle.bit_lists.specs.Bits.{bits_of};
ghost use Rattle.picture_grammar.specs.StartCode.{start_code_bits};
ghost use Rattle.picture_grammar.specs.Written.{IsWritten, written_macroblock};
ghost use Rattle.macroblock_writer.specs.Private.Going.{GoesOn};
ghost use Rattle.macroblock_writer.specs.Private.WholeSlices.{written_whole_slice};
ghost use Rattle.program_maker.specs.Heads.{coding_of, is_predicted as is_predicted_by};
ghost use Rattle.program_maker.specs.Pictures.{drawn_row, drawn_slice, drawn_slices, drawn_picture};

use crate::draws::Draws;
use crate::format::{COLUMNS, ROWS, SLICE_CODE};
use crate::heads::{coding, is_predicted, write_head};
use crate::macroblocks::draw_macroblock;
use bit_cursor::BitWriter;
use list_types::{ListOf, OutOfMemory};
use macroblock_writer::write_macroblock;
use shelf_io::{Fault, Sink, VecSink};
use std::alloc::Global;
use stream_constants::start_codes::FIRST_SLICE;
use syntax_types::Macroblock;

/// Draws picture k and gives its bytes. The macroblock is lent, whatever it holds.
pub fn make_picture(
    alloc: Global,
    draws: &mut Draws,
    k: u32,
    lent: &mut Macroblock,
) -> Result<ListOf<u8>, OutOfMemory>
    ensures written { IfOk result (λ bytes. IsWritten (drawn_picture k draws.old.state).0 bytes) }
    ensures state { OnOk result (draws.new.state ≡ (drawn_picture k draws.old.state).1) }
{
    let mut sink = VecSink::new(alloc);
    let Ok(()) = write_head(&mut sink, k) else {
        return Err(OutOfMemory);
    };
    let Ok(()) = write_drawn_slices(&mut sink, draws, is_predicted(k), lent) else {
        return Err(OutOfMemory);
    };
    Ok(ListOf::from_vec(sink.into_bytes()))
}

// Draws the slices of a picture and writes them.
fn write_drawn_slices<K: Sink>(
    to: &mut K,
    draws: &mut Draws,
    predicted: bool,
    lent: &mut Macroblock,
) -> Result<(), Fault>
    ensures written { OnOk result (AddsBits (K.written to.old) (K.written to.new)
        (flat_map (written_whole_slice (coding_of predicted)) (drawn_slices predicted draws.old.state).0)) }
    ensures state { OnOk result (draws.new.state ≡ (drawn_slices predicted draws.old.state).1) }
{
    let mut writer = BitWriter::new(to);
    put_slices(&mut writer, draws, predicted, lent)?;
    writer.finish()
}

fn put_slices<K: Sink>(
    to: &mut BitWriter<'_, K>,
    draws: &mut Draws,
    predicted: bool,
    lent: &mut Macroblock,
) -> Result<(), Fault>
    requires goes { is_stopped to.old ≡ false }
    requires whole { odd_bits to.old ≡ 0 }
    ensures written { OnOk result (GoesOn K.written to.old to.new
        (flat_map (written_whole_slice (coding_of predicted)) (drawn_slices predicted draws.old.state).0)) }
    ensures state { OnOk result (draws.new.state ≡ (drawn_slices predicted draws.old.state).1) }
    ensures whole { OnOk result (odd_bits to.new ≡ 0) }
{
    for row in 0..ROWS {
        put_slice(to, draws, predicted, row, lent)?;
    }
    Ok(())
}

// Draws a slice and puts it behind its start code, up to a whole byte.
fn put_slice<K: Sink>(
    to: &mut BitWriter<'_, K>,
    draws: &mut Draws,
    predicted: bool,
    row: u8,
    lent: &mut Macroblock,
) -> Result<(), Fault>
    requires goes { is_stopped to.old ≡ false }
    requires whole { odd_bits to.old ≡ 0 }
    requires row { row < ROWS }
    ensures written { OnOk result (GoesOn K.written to.old to.new (written_whole_slice (coding_of predicted) (drawn_slice predicted row draws.old.state).0)) }
    ensures state { OnOk result (draws.new.state ≡ (drawn_slice predicted row draws.old.state).1) }
    ensures whole { OnOk result (odd_bits to.new ≡ 0) }
{
    put_slice_header(to, row)?;
    put_macroblocks(to, draws, predicted, lent)?;
    to.align_zero()
}

// The start code, quantiser_scale_code, and no extension.
fn put_slice_header<K: Sink>(to: &mut BitWriter<'_, K>, row: u8) -> Result<(), Fault>
    requires goes { is_stopped to.old ≡ false }
    requires row { row < ROWS }
    ensures { OnOk result (GoesOn K.written to.old to.new (start_code_bits (row + FIRST_SLICE) ++ (bits_of 5 SLICE_CODE ++ 0 ∷ []))) }
{
    to.put_bits((1 << 8) + u32::from(row + FIRST_SLICE), 32)?;
    to.put_bits(2 * u32::from(SLICE_CODE), 6)
}

// The macroblocks of a row, each drawn into the one that is lent.
fn put_macroblocks<K: Sink>(
    to: &mut BitWriter<'_, K>,
    draws: &mut Draws,
    predicted: bool,
    lent: &mut Macroblock,
) -> Result<(), Fault>
    requires goes { is_stopped to.old ≡ false }
    ensures written { OnOk result (GoesOn K.written to.old to.new
        (flat_map (written_macroblock (coding_of predicted)) (drawn_row predicted draws.old.state).0)) }
    ensures state { OnOk result (draws.new.state ≡ (drawn_row predicted draws.old.state).1) }
{
    let coding = coding(predicted);
    for _i in 0..COLUMNS {
        draw_macroblock(draws, predicted, lent);
        write_macroblock(to, &coding, lent)?;
    }
    Ok(())
}
