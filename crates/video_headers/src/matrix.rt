//! Quantiser matrices (6.2.2.1, 6.2.3.2, 6.3.11).
ghost use Rattle.std.specs.Prelude.{◌≡◌, ◌∷◌, [], ℕ, List, Option, length, IfOk, IfSome};
ghost use Rattle.std.specs.Option.{option_map};
ghost use Rattle.picture_grammar.specs.Refusal.Refusal.{BadHeader};
ghost use Rattle.picture_grammar.specs.Grammar.{repeated};
ghost use Rattle.picture_grammar.specs.Element.{uimsbf, rule};
ghost use Rattle.picture_grammar.specs.Headers.{is_not_zero, in_raster_order, matrix_if_loaded, matrix_or, quant_matrix_extension};
ghost use Rattle.video_headers.specs.Private.Reading.{Answers, Rests};

use crate::fault::HeadFault;
use crate::fields::{read_flag, read_limited, read_limited_flag};
use crate::limit::Limit;
use crate::why::Why;
use arrayvec::ArrayVec;
use bit_cursor::BitReader;
use quant_math::scan;
use shelf_io::Source;
use syntax_types::BLOCK_PLACES;

/// The weights of a matrix in the order in which they are coded, that of the zigzag scan.
pub type Weights = ArrayVec<u8, BLOCK_PLACES>;

const WEIGHT: Limit = Limit {
    least: 1,
    most: u8::MAX as u32,
    otherwise: Why::BadHeader,
};

/// A load flag, and the weights that stand behind it where it is set.
pub fn read_matrix<S: Source>(reader: &mut BitReader<'_, S>) -> Result<Option<Weights>, HeadFault>
    ensures answers { Answers matrix_if_loaded (λ loaded. option_map (λ w. w.items) loaded) result (Rests reader.old) (λ _. Rests reader.new) reader.old reader.new }
    ensures count { IfOk result (λ loaded. IfSome loaded (λ w. length w.items ≡ BLOCK_PLACES)) }
{
    if !read_flag(reader)? {
        return Ok(None);
    }
    let weights = read_weights(reader)?;
    Ok(Some(weights))
}

/// The weights behind a load flag that is set.
fn read_weights<S: Source>(reader: &mut BitReader<'_, S>) -> Result<Weights, HeadFault>
    ensures answers { Answers (repeated BLOCK_PLACES (uimsbf 8 (rule BadHeader is_not_zero ∷ []))) (λ w. w.items) result (Rests reader.old) (λ _. Rests reader.new) reader.old reader.new }
    ensures count { IfOk result (λ w. length w.items ≡ BLOCK_PLACES) }
{
    let mut weights = Weights::new();
    for _ in 0..BLOCK_PLACES {
        let weight = read_limited(reader, 8, &[WEIGHT])?;
        weights.push(weight as u8);
    }
    Ok(weights)
}

/// A matrix that was loaded, in raster order, or this one where none was.
pub fn matrix_or(loaded: &Option<Weights>, matrix: [u8; 64]) -> [u8; 64]
    requires { IfSome loaded.now (λ w. length w.items ≡ BLOCK_PLACES) }
    ensures { result ≡ matrix_or (option_map (λ w. w.items) loaded.now) matrix }
{
    match loaded {
        None => matrix,
        Some(weights) => in_raster_order(weights.as_slice()),
    }
}

/// Weights in raster order: they are coded in the order of the zigzag scan (7.3.1).
fn in_raster_order(weights: &[u8]) -> [u8; 64]
    requires { length weights.now ≡ BLOCK_PLACES }
    ensures { result ≡ in_raster_order weights.now }
{
    let mut matrix = [0; 64];
    for place in 0..64u8 {
        matrix[scan(false, place) as usize] = weights[place as usize];
    }
    matrix
}

/// The matrices that a quant matrix extension loads.
#[derive(Drop)]
pub struct LoadedWeights {
    pub intra: Option<Weights>,
    pub non_intra: Option<Weights>,
}

const NO_CHROMA_MATRIX: Limit = Limit {
    least: 0,
    most: 0,
    otherwise: Why::BadHeader,
};

/// A quant matrix extension behind its identifier: 4:2:0 has no matrices of its own for chrominance (6.2.3.2).
pub fn read_quant_matrix_extension<S: Source>(
    reader: &mut BitReader<'_, S>,
) -> Result<LoadedWeights, HeadFault>
    ensures answers { Answers quant_matrix_extension (λ loaded. record { intra = option_map (λ w. w.items) loaded.intra; non_intra = option_map (λ w. w.items) loaded.non_intra }) result (Rests reader.old) (λ _. Rests reader.new) reader.old reader.new }
    ensures intra { IfOk result (λ loaded. IfSome loaded.intra (λ w. length w.items ≡ BLOCK_PLACES)) }
    ensures non_intra { IfOk result (λ loaded. IfSome loaded.non_intra (λ w. length w.items ≡ BLOCK_PLACES)) }
{
    let intra = read_matrix(reader)?;
    let non_intra = read_matrix(reader)?;
    let _chroma_intra = read_limited_flag(reader, NO_CHROMA_MATRIX)?;
    let _chroma_non_intra = read_limited_flag(reader, NO_CHROMA_MATRIX)?;
    Ok(LoadedWeights { intra, non_intra })
}
