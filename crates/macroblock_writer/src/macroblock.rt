ghost use Rattle.std.specs.Prelude.{◌≡◌, ◌<◌, ◌++◌, ℕ, List, Bool, false, if◌then◌else◌, []};
ghost use Rattle.std.specs.List.{flat_map, range_with_len};
ghost use Rattle.bit_cursor.specs.BitWriter.{is_stopped, Writes};
ghost use Rattle.prefix_codes.specs.declared.table_name.TableName.TheVariants.{Pattern};
ghost use Rattle.picture_grammar.specs.Macroblock.{macroblock as macroblock_grammar};
ghost use Rattle.picture_grammar.specs.Picture.{IsCoding};
ghost use Rattle.picture_grammar.specs.Written.{written_coded_block, written_macroblock};
ghost use Rattle.prefix_codes.specs.TableName.{code_for};
ghost use Rattle.picture_laws.specs.Spellable.{IsSpellable};
ghost use Rattle.macroblock_writer.specs.Private.Writing.{CanBeWritten, written_modes, written_motion, written_coefficients};

use crate::increment::write_increment;
use crate::modes::{put_flag_where, put_where, type_symbol, write_code_where};
use crate::vectors::write_vectors;
use bit_cursor::BitWriter;
use block_coeffs::{write_block, write_code};
use picture_grammar::stands::{
    block_way, has_concealment, has_dct_type, has_motion_type, is_coded, type_table,
};
use prefix_codes::TableName;
use shelf_io::{Fault, Sink};
use syntax_types::{BLOCKS, Macroblock, PicCoding};

/// Writes a macroblock that some bits spell in this picture (ISO/IEC 13818-2, 6.2.5): its parts in order, each where it
/// stands. A fault is the sink's own, and stops the writer.
pub fn write_macroblock<K: Sink>(
    to: &mut BitWriter<'_, K>,
    coding: &PicCoding,
    macroblock: &Macroblock,
) -> Result<(), Fault>
    requires goes { is_stopped to.old ≡ false }
    requires coding { IsCoding coding.now }
    requires spelled { (first : Bool) × (columns_left : ℕ) × IsSpellable (macroblock_grammar coding.now first columns_left) macroblock.now }
    ensures writes { Writes K.written K.faults K.keeps to.old to.new result (written_macroblock coding.now macroblock.now) }
    ensures read_back { (first : Bool) (columns_left : ℕ) (following : List ℕ) → IsSpellable (macroblock_grammar coding.now first columns_left) macroblock.now →
        (macroblock_grammar coding.now first columns_left).Spells macroblock.now (written_macroblock coding.now macroblock.now ++ following) following }
{
    write_parts(to, coding, macroblock)
}

/// Writes a macroblock whose numbers fit their bits, and whose coded blocks some bits spell.
pub fn write_parts<K: Sink>(
    to: &mut BitWriter<'_, K>,
    coding: &PicCoding,
    macroblock: &Macroblock,
) -> Result<(), Fault>
    requires goes { is_stopped to.old ≡ false }
    requires coding { IsCoding coding.now }
    requires fits { CanBeWritten coding.now macroblock.now }
    ensures { Writes K.written K.faults K.keeps to.old to.new result (written_macroblock coding.now macroblock.now) }
{
    write_increment(to, u32::from(macroblock.skipped_before) + 1)?;
    write_modes(to, coding, macroblock)?;
    write_motion(to, coding, macroblock)?;
    write_coefficients(to, coding, macroblock)
}

// macroblock_modes() and quantiser_scale_code.
fn write_modes<K: Sink>(
    to: &mut BitWriter<'_, K>,
    coding: &PicCoding,
    macroblock: &Macroblock,
) -> Result<(), Fault>
    requires goes { is_stopped to.old ≡ false }
    requires fits { CanBeWritten coding.now macroblock.now }
    ensures { Writes K.written K.faults K.keeps to.old to.new result (written_modes coding.now macroblock.now) }
{
    let kind = macroblock.kind;
    write_code(to, type_table(coding), type_symbol(kind))?;
    let motion_type = u32::from(macroblock.motion_type);
    put_where(to, has_motion_type(coding, kind), motion_type, 2)?;
    put_flag_where(to, has_dct_type(coding, kind), macroblock.field_dct)?;
    write_code_where(to, macroblock.code)
}

// The vectors, and the marker behind a vector of concealment.
fn write_motion<K: Sink>(
    to: &mut BitWriter<'_, K>,
    coding: &PicCoding,
    macroblock: &Macroblock,
) -> Result<(), Fault>
    requires goes { is_stopped to.old ≡ false }
    requires coding { IsCoding coding.now }
    requires fits { CanBeWritten coding.now macroblock.now }
    ensures { Writes K.written K.faults K.keeps to.old to.new result (written_motion coding.now macroblock.now) }
{
    write_vectors(to, coding.f_code[0], macroblock.forward.as_slice())?;
    write_vectors(to, coding.f_code[1], macroblock.backward.as_slice())?;
    put_flag_where(to, has_concealment(coding, macroblock.kind), true)
}

// coded_block_pattern and the blocks.
fn write_coefficients<K: Sink>(
    to: &mut BitWriter<'_, K>,
    coding: &PicCoding,
    macroblock: &Macroblock,
) -> Result<(), Fault>
    requires goes { is_stopped to.old ≡ false }
    requires fits { CanBeWritten coding.now macroblock.now }
    ensures { Writes K.written K.faults K.keeps to.old to.new result (written_coefficients coding.now macroblock.now) }
{
    write_pattern(to, macroblock.kind.pattern, macroblock.pattern)?;
    write_blocks(to, coding, macroblock)
}

// coded_block_pattern where it stands.
fn write_pattern<K: Sink>(to: &mut BitWriter<'_, K>, stands: bool, pattern: u8) -> Result<(), Fault>
    requires goes { is_stopped to.old ≡ false }
    ensures { Writes K.written K.faults K.keeps to.old to.new result (if stands then code_for Pattern pattern else []) }
{
    if stands {
        write_code(to, TableName::Pattern, u16::from(pattern))
    } else {
        Ok(())
    }
}

// The coded blocks in order.
fn write_blocks<K: Sink>(
    to: &mut BitWriter<'_, K>,
    coding: &PicCoding,
    macroblock: &Macroblock,
) -> Result<(), Fault>
    requires goes { is_stopped to.old ≡ false }
    requires fits { CanBeWritten coding.now macroblock.now }
    ensures { Writes K.written K.faults K.keeps to.old to.new result (flat_map (written_coded_block coding.now macroblock.now) (range_with_len 0 BLOCKS)) }
{
    for i in 0..BLOCKS {
        write_coded_block(to, coding, macroblock, i)?;
    }
    Ok(())
}

fn write_coded_block<K: Sink>(
    to: &mut BitWriter<'_, K>,
    coding: &PicCoding,
    macroblock: &Macroblock,
    i: usize,
) -> Result<(), Fault>
    requires goes { is_stopped to.old ≡ false }
    requires fits { CanBeWritten coding.now macroblock.now }
    requires block { i < BLOCKS }
    ensures { Writes K.written K.faults K.keeps to.old to.new result (written_coded_block coding.now macroblock.now i) }
{
    let kind = macroblock.kind;
    if !is_coded(kind, macroblock.pattern, i) {
        return Ok(());
    }
    write_block(to, block_way(coding, kind, i), &macroblock.blocks[i])
}
