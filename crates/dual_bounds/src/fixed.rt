ghost use Rattle.std.specs.Prelude.{◌≡◌, ◌++◌, map, None, IfOk, OnOk};
ghost use Rattle.version_table.specs.Table.{units_of};
ghost use Rattle.dual_bounds.specs.Fixed.{FixesNone, FixesVersions};

use list_types::{ListOf, OutOfMemory};
use std::alloc::Global;
use version_table::{Table, Unit};

/// For each unit, over all programs in order, the number of the one version that may be chosen, or none where each may.
pub type Fixed = ListOf<Option<u8>>;

/// Nothing for each unit of a table. Fails only for want of memory.
pub fn nothing_fixed(alloc: Global, table: &Table) -> Result<Fixed, OutOfMemory>
    ensures value { IfOk result (λ fixed. fixed ≡ map (λ unit. None) (units_of table.now)) }
    ensures valid { IfOk result (FixesVersions table.now) }
    ensures none { IfOk result FixesNone }
{
    let mut fixed = ListOf::new(alloc);
    for program in table.programs.as_slice() {
        add_nothing(&mut fixed, program.units.as_slice())?;
    }
    Ok(fixed)
}

/// Adds nothing for each of these units.
fn add_nothing(fixed: &mut Fixed, units: &[Unit]) -> Result<(), OutOfMemory>
    ensures { OnOk result (fixed.new ≡ fixed.old ++ map (λ unit. None) units.now) }
{
    for _unit in units {
        fixed.push(None)?;
    }
    Ok(())
}
