//! macroblock_modes() (6.2.5.1), and the pattern.
ghost use Rattle.std.specs.Prelude.{◌≡◌, []};
ghost use Rattle.prefix_codes.specs.declared.table_name.TableName.TheVariants.{Pattern};
ghost use Rattle.picture_grammar.specs.Refusal.Refusal.{BadPattern};
ghost use Rattle.picture_grammar.specs.Grammar.{when};
ghost use Rattle.picture_grammar.specs.Element.{vlclbf};
ghost use Rattle.picture_grammar.specs.Macroblock.{macroblock_type, motion_type, has_forward as forward_stands, usual_motion_type as usual_type};
ghost use Rattle.macroblock_reader.specs.Private.Answers.{Answers};
ghost use Rattle.macroblock_reader.specs.Private.Parts.{kind_by};

use crate::elements::{read_not_zero, read_symbol};
use crate::fault::SliceFault;
use crate::why::Why;
use bit_cursor::BitReader;
use picture_grammar::stands::{has_concealment, has_motion_type, is_frame, type_table};
use prefix_codes::TableName;
use prefix_codes::symbol::{BACKWARD, FORWARD, INTRA, PATTERN, QUANT};
use shelf_io::Source;
use syntax_types::{
    FIELD_BASED, FRAME_BASED, FRAME_PICTURE, I_PICTURE, Kind, P_PICTURE, PicCoding,
};

/// The greatest symbol of Tables B-2 to B-4.
const TYPE_MOST: u16 = 31;

/// The greatest symbol of Table B-9.
const PATTERN_MOST: u16 = 63;

/// Bits of frame_motion_type and field_motion_type.
const MOTION_TYPE_BITS: u32 = 2;

/// macroblock_type.
#[inline]
pub fn read_kind<S: Source>(
    from: &mut BitReader<'_, S>,
    coding: &PicCoding,
) -> Result<Kind, SliceFault>
    ensures { Answers ⊥ (macroblock_type coding.now) result from.old from.new }
{
    let symbol = read_symbol(from, type_table(coding), TYPE_MOST, Why::BadType)?;
    Ok(kind_of(symbol))
}

/// The flags of a symbol of these tables.
#[inline]
fn kind_of(symbol: u16) -> Kind
    ensures { result ≡ kind_by symbol }
{
    Kind {
        quant: symbol / QUANT % 2 == 1,
        forward: symbol / FORWARD % 2 == 1,
        backward: symbol / BACKWARD % 2 == 1,
        pattern: symbol / PATTERN % 2 == 1,
        intra: symbol / INTRA % 2 == 1,
    }
}

/// frame_motion_type or field_motion_type, or what counts where none stands.
#[inline]
pub fn read_motion_type<S: Source>(
    from: &mut BitReader<'_, S>,
    coding: &PicCoding,
    kind: Kind,
) -> Result<u8, SliceFault>
    ensures { Answers ⊥ (motion_type coding.now kind) result from.old from.new }
{
    if has_motion_type(coding, kind) {
        read_not_zero(from, MOTION_TYPE_BITS)
    } else {
        Ok(usual_motion_type(coding))
    }
}

/// coded_block_pattern, where it stands, and 0 elsewhere.
#[inline]
pub fn read_pattern_where<S: Source>(
    from: &mut BitReader<'_, S>,
    stands: bool,
) -> Result<u8, SliceFault>
    ensures { Answers ⊥ (when stands (vlclbf Pattern BadPattern []) 0) result from.old from.new }
{
    if stands { read_pattern(from) } else { Ok(0) }
}

#[inline(always)]
fn read_pattern<S: Source>(from: &mut BitReader<'_, S>) -> Result<u8, SliceFault>
    ensures { Answers ⊥ (vlclbf Pattern BadPattern []) result from.old from.new }
{
    let symbol = read_symbol(from, TableName::Pattern, PATTERN_MOST, Why::BadPattern)?;
    Ok(symbol as u8)
}

// ---- what stands

fn usual_motion_type(coding: &PicCoding) -> u8
    ensures { result ≡ usual_type coding.now }
{
    if is_frame(coding) {
        FRAME_BASED
    } else {
        FIELD_BASED
    }
}

pub fn has_forward(coding: &PicCoding, kind: Kind) -> bool
    ensures { result ≡ forward_stands coding.now kind }
{
    kind.forward || has_concealment(coding, kind)
}
