//! Extensions behind their start code (6.2.2.2).
ghost use Rattle.std.specs.Prelude.{◌≡◌, ◌==◌, true, length, IfOk, IfSome};
ghost use Rattle.std.specs.Option.{option_map};
ghost use Rattle.syntax_types.specs.declared.block.TheConstants.{BLOCK_PLACES};
ghost use Rattle.picture_grammar.specs.Head.{extension};
ghost use Rattle.video_headers.specs.Private.Part.{has_extensions, identifiers_of, identifier, checked, checked_number, FourTaken};
ghost use Rattle.video_headers.specs.Private.Reading.{Answers, AnswersLook, Rests};
ghost use Rattle.video_headers.specs.Private.Wholes.{Wholes};

use crate::fault::HeadFault;
use crate::matrix::{LoadedWeights, read_quant_matrix_extension};
use crate::part::{Part, is_scalable};
use crate::unread::read_unread;
use crate::zeros::read_zero_bits;
use bit_cursor::{BitFault, BitReader};
use shelf_io::Source;
use stream_constants::start_codes::QUANT_MATRIX;

/// The identifier of an extension behind this header.
fn read_identifier<S: Source>(reader: &mut BitReader<'_, S>, part: Part) -> Result<u32, HeadFault>
    requires { has_extensions part ≡ true }
    ensures { Answers (identifier (identifiers_of part)) (λ v. v) result (Wholes reader.old) (λ _. Rests reader.new) reader.old reader.new }
{
    let at = reader.place();
    let number = next_four_bits(reader)?;
    checked(number, part, at)
}

/// An identifier that may stand there, or the refusal of these four bits, or of none.
fn checked(number: Option<u32>, part: Part, at: u64) -> Result<u32, HeadFault>
    ensures { result ≡ checked number part at }
{
    match number {
        None => Err(HeadFault::End { at }),
        Some(number) => {
            let scalable = is_scalable(number);
            let allowed = part.allows(number);
            checked_number(scalable, allowed, number, at)
        }
    }
}

/// An identifier that isn't of another profile and is allowed, or its refusal.
fn checked_number(scalable: bool, allowed: bool, number: u32, at: u64) -> Result<u32, HeadFault>
    ensures { result ≡ checked_number scalable allowed number at }
{
    if scalable {
        return Err(HeadFault::Profile { at });
    }
    if allowed {
        Ok(number)
    } else {
        Err(HeadFault::BadHeader { at })
    }
}

/// The next four bits, which are taken, or none.
fn next_four_bits<S: Source>(reader: &mut BitReader<'_, S>) -> Result<Option<u32>, HeadFault>
    ensures { AnswersLook result (Wholes reader.old) (λ number. FourTaken number reader.new) reader.old reader.new }
{
    match reader.bits(4) {
        Ok(number) => Ok(Some(number)),
        Err(BitFault::End) => Ok(None),
        Err(BitFault::Outside(fault)) => Err(HeadFault::Outside(fault)),
    }
}

/// An extension behind its start code. What it loads is 64 weights each.
pub fn read_extension<S: Source>(
    reader: &mut BitReader<'_, S>,
    part: Part,
) -> Result<LoadedWeights, HeadFault>
    requires { has_extensions part ≡ true }
    ensures answers { Answers (extension (identifiers_of part)) (λ loaded. record { intra = option_map (λ w. w.items) loaded.intra; non_intra = option_map (λ w. w.items) loaded.non_intra }) result (Wholes reader.old) (λ _. Wholes reader.new) reader.old reader.new }
    ensures intra { IfOk result (λ loaded. IfSome loaded.intra (λ w. length w.items ≡ BLOCK_PLACES)) }
    ensures non_intra { IfOk result (λ loaded. IfSome loaded.non_intra (λ w. length w.items ≡ BLOCK_PLACES)) }
{
    let number = read_identifier(reader, part)?;
    if is_quant_matrix(number) {
        let loaded = read_quant_matrix_extension(reader)?;
        let _zeros = read_zero_bits(reader)?;
        return Ok(loaded);
    }
    read_unread(reader)?;
    Ok(LoadedWeights {
        intra: None,
        non_intra: None,
    })
}

/// Whether an identifier is that of a quant matrix extension.
fn is_quant_matrix(identifier: u32) -> bool
    ensures { result ≡ (identifier == QUANT_MATRIX) }
{
    identifier == u32::from(QUANT_MATRIX)
}
