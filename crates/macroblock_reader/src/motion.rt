//! Motion vectors (6.2.5.2, 6.2.5.2.1 and 6.3.17.2).
ghost use Rattle.std.specs.Prelude.{◌≡◌, ◌<◌, ◌≤◌, ◌^◌, ◌-◌, [], pos, IfOk, IfSome, slice_index};
ghost use Rattle.prefix_codes.specs.declared.table_name.TableName.TheVariants.{Motion};
ghost use Rattle.picture_grammar.specs.Refusal.Refusal.{NoCode};
ghost use Rattle.picture_grammar.specs.Grammar.{optional, when};
ghost use Rattle.picture_grammar.specs.Element.{uimsbf, one_flag, vlclbf};
ghost use Rattle.picture_grammar.specs.Block.{signed as signed_size};
ghost use Rattle.picture_grammar.specs.Motion.{dmvector, has_residual as residual_stands, vector_part, motion_vector, motion_vectors};
ghost use Rattle.picture_grammar.specs.Macroblock.{f_codes, motion_format as format_by_type};
ghost use Rattle.picture_grammar.specs.Picture.{IsCoding};
ghost use Rattle.macroblock_reader.specs.Private.Answers.{Answers, answer_as};
ghost use Rattle.macroblock_reader.specs.Private.Parts.{part_of, format_of, differences_by};
ghost use Rattle.macroblock_reader.specs.Private.WholeParts.{IsPartFound};

use crate::elements::{read_bit, read_bit_where, read_bits, read_symbol};
use crate::fault::SliceFault;
use crate::why::Why;
use arrayvec::ArrayVec;
use bit_cursor::BitReader;
use grammar_reading::{BitWindow, whole_window};
use picture_grammar::stands::is_frame;
use prefix_codes::{TableName, WINDOW_BITS, find_whole};
use shelf_io::Source;
use syntax_types::{DUAL_PRIME, FIELD_BASED, PicCoding, SIXTEEN_BY_EIGHT, VECTORS_MOST, Vector};

/// The greatest magnitude of motion_code (Table B-10).
const SIZE_MOST: u16 = 16;

/// The most bits of dmvector (Table B-11).
const DMVECTOR_BITS: u32 = 2;

/// The place of the forward f_codes.
pub const FORWARD_CODES: usize = 0;

/// The place of the backward f_codes.
pub const BACKWARD_CODES: usize = 1;

/// The f_codes of a direction.
pub fn codes_of(coding: &PicCoding, direction: usize) -> [u8; 2]
    requires coding { IsCoding coding.now }
    requires direction { direction < 2 }
    ensures value { result ≡ f_codes coding.now direction }
    ensures horizontal { slice_index result 0 < 2 ^ 4 }
    ensures vertical { slice_index result 1 < 2 ^ 4 }
{
    coding.f_code[direction]
}

/// How the vectors of a direction are coded (Tables 6-17 and 6-18).
#[derive(Clone, Copy)]
pub struct VectorFormat {
    /// There are two, and not one.
    pub two: bool,
    /// A field is selected for each.
    pub select: bool,
    /// They have dmvectors.
    pub dual: bool,
}

/// How the vectors of a macroblock are coded, by its motion type.
pub fn vector_format(coding: &PicCoding, motion_type: u8) -> VectorFormat
    ensures { format_of result ≡ format_by_type coding.now motion_type }
{
    let dual = motion_type == DUAL_PRIME;
    if is_frame(coding) {
        let field = motion_type == FIELD_BASED;
        VectorFormat {
            two: field,
            select: field,
            dual,
        }
    } else {
        VectorFormat {
            two: motion_type == SIXTEEN_BY_EIGHT,
            select: !dual,
            dual,
        }
    }
}

/// motion_vectors(s), where they stand, into a list that is lent.
#[inline(always)]
pub fn read_vectors_where<S: Source>(
    from: &mut BitReader<'_, S>,
    stands: bool,
    codes: [u8; 2],
    format: VectorFormat,
    into: &mut ArrayVec<Vector, VECTORS_MOST>,
) -> Result<(), SliceFault>
    requires horizontal { slice_index codes 0 < 2 ^ 4 }
    requires vertical { slice_index codes 1 < 2 ^ 4 }
    ensures { Answers ⊥ (when stands (motion_vectors codes (format_of format)) []) (answer_as (λ _. into.new.items) result) from.old from.new }
{
    empty(into);
    if stands {
        match read_vectors(from, codes, format, into) {
            Ok(()) => Ok(()),
            Err(fault) => Err(fault),
        }
    } else {
        Ok(())
    }
}

/// Empties a list of vectors: two are taken one by one at less cost than a list is cleared.
#[inline]
fn empty(list: &mut ArrayVec<Vector, VECTORS_MOST>)
    ensures { list.new.items ≡ [] }
{
    let count = list.len();
    if count == 0 {
        return;
    }
    list.pop();
    list.pop();
}

/// motion_vectors(s) into an empty list. Two ways come of this: one of them knows that no dmvector stands.
#[inline(never)]
fn read_vectors<S: Source>(
    from: &mut BitReader<'_, S>,
    codes: [u8; 2],
    format: VectorFormat,
    into: &mut ArrayVec<Vector, VECTORS_MOST>,
) -> Result<(), SliceFault>
    requires horizontal { slice_index codes 0 < 2 ^ 4 }
    requires vertical { slice_index codes 1 < 2 ^ 4 }
    requires empty { into.old.items ≡ [] }
    ensures { Answers ⊥ (motion_vectors codes (format_of format)) (answer_as (λ _. into.new.items) result) from.old from.new }
{
    if format.dual {
        read_list(from, codes, format, into)
    } else {
        let plain = VectorFormat {
            two: format.two,
            select: format.select,
            dual: false,
        };
        read_list(from, codes, plain, into)
    }
}

/// One vector or two, into an empty list.
#[inline(always)]
fn read_list<S: Source>(
    from: &mut BitReader<'_, S>,
    codes: [u8; 2],
    format: VectorFormat,
    into: &mut ArrayVec<Vector, VECTORS_MOST>,
) -> Result<(), SliceFault>
    requires horizontal { slice_index codes 0 < 2 ^ 4 }
    requires vertical { slice_index codes 1 < 2 ^ 4 }
    requires empty { into.old.items ≡ [] }
    ensures { Answers ⊥ (motion_vectors codes (format_of format)) (answer_as (λ _. into.new.items) result) from.old from.new }
{
    let first = read_vector(from, codes, format)?;
    into.push(first);
    if format.two {
        let second = read_vector(from, codes, format)?;
        into.push(second);
        return Ok(());
    }
    Ok(())
}

/// motion_vertical_field_select, then motion_vector, with the f_codes of its direction.
#[inline(always)]
fn read_vector<S: Source>(
    from: &mut BitReader<'_, S>,
    codes: [u8; 2],
    format: VectorFormat,
) -> Result<Vector, SliceFault>
    requires horizontal { slice_index codes 0 < 2 ^ 4 }
    requires vertical { slice_index codes 1 < 2 ^ 4 }
    ensures { Answers ⊥ (motion_vector codes (format_of format)) result from.old from.new }
{
    let select = read_select(from, format.select)?;
    let horizontal = read_part(from, codes[0], format.dual)?;
    let vertical = read_part(from, codes[1], format.dual)?;
    Ok(Vector {
        select,
        code: [horizontal.code, vertical.code],
        residual: [horizontal.residual, vertical.residual],
        dual: differences(format.dual, horizontal.difference, vertical.difference),
    })
}

/// The dmvectors of both parts, where they stand.
fn differences(dual: bool, horizontal: i8, vertical: i8) -> Option<[i8; 2]>
    ensures { result ≡ differences_by dual horizontal vertical }
{
    if dual {
        Some([horizontal, vertical])
    } else {
        None
    }
}

/// motion_vertical_field_select, where it stands.
#[inline]
fn read_select<S: Source>(
    from: &mut BitReader<'_, S>,
    stands: bool,
) -> Result<Option<bool>, SliceFault>
    ensures { Answers ⊥ (optional stands one_flag) result from.old from.new }
{
    if stands {
        let select = read_bit(from)?;
        return Ok(Some(select));
    }
    Ok(None)
}

/// One part of a vector, horizontal or vertical.
#[derive(Clone, Copy)]
struct VectorPart {
    code: i8,
    residual: u16,
    difference: i8,
}

/// motion_code and its sign bit, motion_residual, then dmvector. Most parts stand whole in a window, and have no dmvector.
#[inline(always)]
fn read_part<S: Source>(
    from: &mut BitReader<'_, S>,
    f_code: u8,
    dual: bool,
) -> Result<VectorPart, SliceFault>
    requires { f_code < 2 ^ 4 }
    ensures { Answers ⊥ (vector_part f_code dual) (answer_as part_of result) from.old from.new }
{
    if dual {
        return read_part_by_elements(from, f_code, dual);
    }
    if !from.hold_ahead(WINDOW_BITS)? {
        return read_part_by_elements(from, f_code, dual);
    }
    let Some((part, len)) = whole_part(f_code, whole_window(from)) else {
        return read_part_by_elements(from, f_code, dual);
    };
    from.skip(len);
    Ok(part)
}

/// The part without dmvector that stands at the front of a whole window, and its length in bits. None where none does, or it
/// is longer than the window.
#[inline(always)]
fn whole_part(f_code: u8, window: BitWindow) -> Option<(VectorPart, u32)>
    requires code { f_code < 2 ^ 4 }
    requires whole { window.known ≡ WINDOW_BITS }
    ensures { IfSome result (λ found. IsPartFound f_code window (part_of found.0) found.1) }
{
    let Some((size, len)) = find_whole(TableName::Motion, window.bits) else {
        return None;
    };
    let behind = u32::from(len);
    if size == 0 {
        return Some((
            VectorPart {
                code: 0,
                residual: 0,
                difference: 0,
            },
            behind,
        ));
    }
    let residual_bits = u32::from(f_code.saturating_sub(1));
    let end = behind + 1 + residual_bits;
    if end > WINDOW_BITS {
        return None;
    }
    let negative = (window.bits >> (WINDOW_BITS - 1 - behind)) % 2 == 1;
    let residual = (window.bits >> (WINDOW_BITS - end)) % (1 << residual_bits);
    Some((
        VectorPart {
            code: signed(size as u8, negative),
            residual: residual as u16,
            difference: 0,
        },
        end,
    ))
}

/// The same element by element. The call's answer has a place of its own in this rare branch, which the caller needn't
/// clear beforehand.
#[inline(always)]
fn read_part_by_elements<S: Source>(
    from: &mut BitReader<'_, S>,
    f_code: u8,
    dual: bool,
) -> Result<VectorPart, SliceFault>
    requires { f_code < 2 ^ 4 }
    ensures { Answers ⊥ (vector_part f_code dual) (answer_as part_of result) from.old from.new }
{
    match read_elements(from, f_code, dual) {
        Ok(part) => Ok(part),
        Err(fault) => Err(fault),
    }
}

#[cold]
#[inline(never)]
fn read_elements<S: Source>(
    from: &mut BitReader<'_, S>,
    f_code: u8,
    dual: bool,
) -> Result<VectorPart, SliceFault>
    requires { f_code < 2 ^ 4 }
    ensures { Answers ⊥ (vector_part f_code dual) (answer_as part_of result) from.old from.new }
{
    let size = read_size(from)?;
    let negative = read_bit_where(from, size != 0)?;
    let residual = read_residual(from, f_code, size)?;
    let difference = read_difference(from, dual)?;
    Ok(VectorPart {
        code: signed(size, negative),
        residual,
        difference,
    })
}

/// The magnitude of motion_code.
#[inline(always)]
fn read_size<S: Source>(from: &mut BitReader<'_, S>) -> Result<u8, SliceFault>
    ensures answers { Answers ⊥ (vlclbf Motion NoCode []) result from.old from.new }
    ensures few { IfOk result (λ size. size ≤ SIZE_MOST) }
{
    let size = read_symbol(from, TableName::Motion, SIZE_MOST, Why::NoCode)?;
    Ok(size as u8)
}

/// A size with its sign.
#[inline]
fn signed(size: u8, negative: bool) -> i8
    requires { size ≤ SIZE_MOST }
    ensures { result ≡ signed_size size negative }
{
    let size = size as i8;
    if negative { -size } else { size }
}

/// motion_residual, where it stands, and 0 elsewhere.
#[inline(always)]
fn read_residual<S: Source>(
    from: &mut BitReader<'_, S>,
    f_code: u8,
    size: u8,
) -> Result<u16, SliceFault>
    requires { f_code < 2 ^ 4 }
    ensures { Answers ⊥ (when (residual_stands f_code size) (uimsbf (f_code - 1) []) 0) result from.old from.new }
{
    if has_residual(f_code, size) {
        read_bits(from, u32::from(f_code.saturating_sub(1)))
    } else {
        Ok(0)
    }
}

fn has_residual(f_code: u8, size: u8) -> bool
    ensures { result ≡ residual_stands f_code size }
{
    f_code != 1 && size != 0
}

/// dmvector, where it stands, and 0 elsewhere.
#[inline]
fn read_difference<S: Source>(from: &mut BitReader<'_, S>, dual: bool) -> Result<i8, SliceFault>
    ensures { Answers ⊥ (when dual dmvector (pos 0)) result from.old from.new }
{
    if dual { read_dmvector(from) } else { Ok(0) }
}

/// dmvector (Table B-11). It is refused at its first bit.
#[cold]
#[inline(never)]
fn read_dmvector<S: Source>(from: &mut BitReader<'_, S>) -> Result<i8, SliceFault>
    ensures { Answers ⊥ dmvector result from.old from.new }
{
    let at = from.place();
    let (bits, known) = from.peek(DMVECTOR_BITS)?;
    if known == 0 {
        return Err(SliceFault::End { at });
    }
    if bits < 2 {
        from.skip(1);
        return Ok(0);
    }
    if known == 1 {
        return Err(SliceFault::End { at });
    }
    from.skip(DMVECTOR_BITS);
    Ok(if bits == 2 { 1 } else { -1 })
}
