//! The versions of a program's pictures, made one picture behind the other with every version kept.
ghost use Rattle.std.specs.Prelude.{◌≤◌, length};

use job_report::limits::COARSER_DEFAULT;
use program_reader::{Program, UnitSource};
use std::alloc::Global;
use std::test::Fail;
use syntax_types::SeqState;
use unit_states::state_behind;
use version_maker::{UNIT_BYTES_MOST, UnitVersion, versions_of};

/// The bytes of a unit among those of its video.
fn unit_of<'a>(video: &'a [u8], unit: &UnitSource) -> &'a [u8]
    ensures { length result.now ≤ UNIT_BYTES_MOST }
{
    let bytes = video
        .get(unit.begin as usize..unit.end as usize)
        .unwrap_or(&[]);
    let few = bytes.len().min(UNIT_BYTES_MOST);
    &bytes[..few]
}

/// Whether the version with this number has these bytes.
fn has_bytes(versions: &[UnitVersion], number: u8, bytes: &[u8]) -> bool {
    match versions.get(usize::from(number)) {
        Some(version) => version.bytes.as_slice() == bytes,
        None => false,
    }
}

/// Whether each unit of a stream is the version with this number of the program's unit.
pub fn is_of_versions(
    alloc: Global,
    program: &Program,
    stream: &Program,
    choice: &[u8],
) -> Result<bool, Fail> {
    let mut before: Option<SeqState> = None;
    'units: for (at, unit) in program.units.as_slice().iter().enumerate() {
        let source = unit_of(program.video.as_slice(), unit);
        let versions = versions_of(alloc, source, before.as_ref(), &COARSER_DEFAULT)?;
        let (Some(sent), Some(number)) = (stream.units.as_slice().get(at), choice.get(at)) else {
            return Ok(false);
        };
        if !has_bytes(
            versions.as_slice(),
            *number,
            unit_of(stream.video.as_slice(), sent),
        ) {
            return Ok(false);
        }
        before = Some(state_behind(alloc, source, before.as_ref())?);
    }
    Ok(true)
}
