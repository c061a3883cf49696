//! How many bits motion vectors are written in.
ghost use Rattle.std.specs.Prelude.{◌≡◌, ◌≤◌, ◌<◌, ◌∷◌, [], length};
ghost use Rattle.std.specs.List.{flat_map};
ghost use Rattle.bit_lists.specs.Fields.{flag};
ghost use Rattle.picture_grammar.specs.Motion.{dmvector_code};
ghost use Rattle.picture_grammar.specs.Written.{if_any, written_part, written_vector, written_vector_part};

use prefix_codes::{TableName, code_bits};
use syntax_types::{VECTORS_MOST, Vector};

/// The bits of the vectors of a direction, whose f_codes these are.
pub fn vectors_bits(f_codes: [u8; 2], vectors: &[Vector]) -> u32
    requires few { length vectors.now ≤ VECTORS_MOST }
    ensures value { result ≡ length (flat_map (written_vector f_codes) vectors.now) }
    ensures few { result ≤ 1200 }
{
    let mut bits = 0;
    for vector in vectors {
        bits += vector_bits(f_codes, *vector);
    }
    bits
}

// The field select where it stands, the horizontal part, the vertical part.
fn vector_bits(f_codes: [u8; 2], vector: Vector) -> u32
    ensures value { result ≡ length (written_vector f_codes vector) }
    ensures few { result ≤ 600 }
{
    select_bits(vector.select) + part_bits(f_codes, vector, 0) + part_bits(f_codes, vector, 1)
}

// motion_vertical_field_select where it stands.
fn select_bits(select: Option<bool>) -> u32
    ensures value { result ≡ length (if_any (λ field. flag field ∷ []) select) }
    ensures few { result ≤ 1 }
{
    match select {
        Some(_field) => 1,
        None => 0,
    }
}

// One part of a vector, 0 horizontal and 1 vertical, with its dmvector.
fn part_bits(f_codes: [u8; 2], vector: Vector, part: usize) -> u32
    requires part { part < 2 }
    ensures value { result ≡ length (written_vector_part f_codes vector part) }
    ensures few { result ≤ 290 }
{
    let code = motion_code_bits(f_codes[part], vector.code[part], vector.residual[part]);
    match vector.dual {
        Some(dual) => code + dmvector_bits(dual[part]),
        None => code,
    }
}

// motion_code by Table B-10, its sign, motion_residual.
fn motion_code_bits(f_code: u8, code: i8, residual: u16) -> u32
    ensures value { result ≡ length (written_part f_code code residual) }
    ensures few { result ≤ 280 }
{
    let size = code.unsigned_abs();
    let bits = code_bits(TableName::Motion, u16::from(size));
    if size == 0 {
        return bits;
    }
    bits + 1 + u32::from(f_code).saturating_sub(1)
}

// dmvector by Table B-11.
fn dmvector_bits(difference: i8) -> u32
    ensures value { result ≡ length (dmvector_code difference) }
    ensures few { result ≤ 2 }
{
    if difference == 0 { 1 } else { 2 }
}
