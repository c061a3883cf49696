//! Motion vectors (6.2.5.2 and 6.2.5.2.1).
ghost use Rattle.std.specs.Prelude.{◌≡◌, ◌<◌, ◌-◌, ◌^◌, [], ◌∷◌, false};
ghost use Rattle.std.specs.List.{flat_map, AllByRecursion};
ghost use Rattle.bit_lists.specs.Fields.{flag};
ghost use Rattle.bit_cursor.specs.BitWriter.{is_stopped, Writes};
ghost use Rattle.picture_grammar.specs.Motion.{dmvector_code};
ghost use Rattle.picture_grammar.specs.Written.{if_any, written_part, written_vector, written_vector_part};
ghost use Rattle.macroblock_writer.specs.Private.Writing.{CanStand};

use bit_cursor::BitWriter;
use block_coeffs::write_code;
use prefix_codes::TableName;
use shelf_io::{Fault, Sink};
use syntax_types::Vector;

/// Writes the vectors of a direction, whose f_codes these are.
pub fn write_vectors<K: Sink>(
    to: &mut BitWriter<'_, K>,
    f_codes: [u8; 2],
    vectors: &[Vector],
) -> Result<(), Fault>
    requires goes { is_stopped to.old ≡ false }
    requires f_codes { AllByRecursion (λ number. number < 2 ^ 4) f_codes }
    requires stand { AllByRecursion (CanStand f_codes) vectors.now }
    ensures { Writes K.written K.faults K.keeps to.old to.new result (flat_map (written_vector f_codes) vectors.now) }
{
    for vector in vectors {
        write_vector(to, f_codes, *vector)?;
    }
    Ok(())
}

// The field select where it stands, the horizontal part, the vertical part.
fn write_vector<K: Sink>(
    to: &mut BitWriter<'_, K>,
    f_codes: [u8; 2],
    vector: Vector,
) -> Result<(), Fault>
    requires goes { is_stopped to.old ≡ false }
    requires f_codes { AllByRecursion (λ number. number < 2 ^ 4) f_codes }
    requires stands { CanStand f_codes vector }
    ensures { Writes K.written K.faults K.keeps to.old to.new result (written_vector f_codes vector) }
{
    write_select(to, vector.select)?;
    write_part(to, f_codes, vector, 0)?;
    write_part(to, f_codes, vector, 1)
}

// motion_vertical_field_select where it stands.
fn write_select<K: Sink>(to: &mut BitWriter<'_, K>, select: Option<bool>) -> Result<(), Fault>
    requires goes { is_stopped to.old ≡ false }
    ensures { Writes K.written K.faults K.keeps to.old to.new result (if_any (λ field. flag field ∷ []) select) }
{
    match select {
        Some(field) => to.put_bits(u32::from(field), 1),
        None => Ok(()),
    }
}

// One part of a vector, 0 horizontal and 1 vertical, with its dmvector.
fn write_part<K: Sink>(
    to: &mut BitWriter<'_, K>,
    f_codes: [u8; 2],
    vector: Vector,
    part: usize,
) -> Result<(), Fault>
    requires goes { is_stopped to.old ≡ false }
    requires f_codes { AllByRecursion (λ number. number < 2 ^ 4) f_codes }
    requires stands { CanStand f_codes vector }
    requires part { part < 2 }
    ensures { Writes K.written K.faults K.keeps to.old to.new result (written_vector_part f_codes vector part) }
{
    let f_code = f_codes[part];
    write_motion_code(to, f_code, vector.code[part], vector.residual[part])?;
    match vector.dual {
        Some(dual) => write_dmvector(to, dual[part]),
        None => Ok(()),
    }
}

// motion_code by Table B-10, its sign, motion_residual.
fn write_motion_code<K: Sink>(
    to: &mut BitWriter<'_, K>,
    f_code: u8,
    code: i8,
    residual: u16,
) -> Result<(), Fault>
    requires goes { is_stopped to.old ≡ false }
    requires f_code { f_code < 2 ^ 4 }
    requires fits { residual < 2 ^ (f_code - 1) }
    ensures { Writes K.written K.faults K.keeps to.old to.new result (written_part f_code code residual) }
{
    let size = code.unsigned_abs();
    write_code(to, TableName::Motion, u16::from(size))?;
    if size == 0 {
        return Ok(());
    }
    to.put_bits(u32::from(code < 0), 1)?;
    to.put_bits(u32::from(residual), u32::from(f_code).saturating_sub(1))
}

// dmvector by Table B-11.
fn write_dmvector<K: Sink>(to: &mut BitWriter<'_, K>, difference: i8) -> Result<(), Fault>
    requires goes { is_stopped to.old ≡ false }
    ensures { Writes K.written K.faults K.keeps to.old to.new result (dmvector_code difference) }
{
    if difference == 0 {
        to.put_bits(0, 1)
    } else {
        to.put_bits(2 + u32::from(difference < 0), 2)
    }
}
