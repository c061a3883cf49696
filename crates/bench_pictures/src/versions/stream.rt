ghost use Rattle.std.specs.Prelude.{◌≤◌, length, IfOk};
ghost use Rattle.std.specs.Option.{option_copied};
ghost use Rattle.picture_grammar.specs.Picture.{IsState, MayPrecede};

use crate::versions::made::{RATIOS_MOST, Task, made_of};
use crate::versions::totals::Totals;
use arrayvec::ArrayVec;
use es_units::{UnitFault, split_units};
use picture_reader::PictureFault;
use std::alloc::Global;
use syntax_types::SeqState;
use unit_states::state_behind;
use version_maker::{Ladder, UNIT_BYTES_MOST};

/// What was made of a stream.
#[derive(Drop)]
pub struct StreamMade {
    pub taken: u64,
    /// Why the next unit wasn't taken.
    pub refused: Option<PictureFault>,
    /// How many units have sizes that aren't those of their versions, or another tree once they are written.
    pub different: u64,
    /// The number of the first of these.
    pub first_different: Option<u64>,
    pub totals: Totals,
    pub bytes: Vec<u8>,
}

/// Does what is to be done with each unit of a stream, up to the first one that is refused.
pub fn stream_of(
    alloc: Global,
    task: Task,
    stream: &[u8],
    ratios: &ArrayVec<u16, RATIOS_MOST>,
) -> Result<StreamMade, UnitFault> {
    let units = split_units(alloc, stream)?;
    let mut made = StreamMade {
        taken: 0,
        refused: None,
        different: 0,
        first_different: None,
        totals: Totals::new(),
        bytes: Vec::new(alloc),
    };
    let mut ladder = Ladder::new();
    let mut before: Option<SeqState> = None;
    'units: for (begin, end) in units.cuts.as_slice() {
        let unit = unit_at(stream, *begin as usize, *end as usize);
        match one_more(
            alloc,
            task,
            unit,
            before.as_ref(),
            ratios,
            &mut ladder,
            &mut made,
        ) {
            Ok(behind) => before = Some(behind),
            Err(fault) => {
                made.refused = Some(fault);
                return Ok(made);
            }
        }
    }
    Ok(made)
}

/// The bytes between two places, as many as a unit may have.
fn unit_at(stream: &[u8], begin: usize, end: usize) -> &[u8]
    ensures { length result.now ≤ UNIT_BYTES_MOST }
{
    let unit = stream.get(begin..end).unwrap_or(&[]);
    let few = unit.len().min(UNIT_BYTES_MOST);
    &unit[..few]
}

/// Does it with one more unit, and gives the state behind it.
fn one_more(
    alloc: Global,
    task: Task,
    unit: &[u8],
    before: Option<&SeqState>,
    ratios: &ArrayVec<u16, RATIOS_MOST>,
    ladder: &mut Ladder,
    made: &mut StreamMade,
) -> Result<SeqState, PictureFault>
    requires unit { length unit.now ≤ UNIT_BYTES_MOST }
    requires before { MayPrecede (option_copied before) }
    ensures { IfOk result IsState }
{
    let behind = state_behind(alloc, unit, before)?;
    let one = made_of(alloc, task, unit, before, ratios, ladder)?;
    if made.bytes.extend_from_slice(one.bytes.as_slice()).is_err() {
        return Err(PictureFault::OutOfMemory);
    }
    made.totals.add(one.sizes.as_slice());
    if one.differs {
        made.different = made.different.wrapping_add(1);
        made.first_different = Some(made.first_different.unwrap_or(made.taken));
    }
    made.taken = made.taken.wrapping_add(1);
    Ok(behind)
}
