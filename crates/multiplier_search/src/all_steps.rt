ghost use Rattle.std.specs.Prelude.{All, IfOk, OnOk};
ghost use Rattle.std.specs.List.{AllZip};
ghost use Rattle.version_table.specs.Table.{IsValidTable, IsValidUnit};
ghost use Rattle.dual_bounds.specs.Fixed.{FixesVersions, NamesVersion};
ghost use Rattle.multiplier_search.specs.Private.UnitSteps.{AddSteps, AddUnit, AreSortedOf, AreStepsOf, LeaveRoom};

use cost_steps::add_steps_above;
use cost_sweep::{CostStep, SortedSteps};
use dual_bounds::{Fixed, Window, price};
use list_types::OutOfMemory;
use std::alloc::Global;
use version_table::{Table, Unit};

/// The steps of all units' least costs beside some windows, in order, for all sweeps of a search. Fails only for want of
/// memory.
pub fn sorted_steps(
    alloc: Global,
    table: &Table,
    fixed: &Fixed,
    windows: &[Window],
) -> Result<SortedSteps, OutOfMemory>
    requires valid { IsValidTable table.now }
    requires fixed { FixesVersions table.now fixed.now }
    requires room { LeaveRoom windows.now }
    ensures { IfOk result (AreSortedOf table.now fixed.now windows.now) }
{
    let steps = steps_of(alloc, table, fixed, windows)?;
    let sorted = SortedSteps::new(alloc, steps)?;
    Ok(sorted)
}

/// The steps of all units' least costs beside some windows. Fails only for want of memory.
fn steps_of(
    alloc: Global,
    table: &Table,
    fixed: &Fixed,
    windows: &[Window],
) -> Result<Vec<CostStep>, OutOfMemory>
    requires valid { IsValidTable table.now }
    requires fixed { FixesVersions table.now fixed.now }
    requires room { LeaveRoom windows.now }
    ensures { IfOk result (λ steps. AreStepsOf table.now fixed.now windows.now steps.items) }
{
    let mut steps = Vec::new(alloc);
    let mut rest = fixed.as_slice();
    for program in table.programs.as_slice() {
        let (entries, after) = rest.split_at(program.units.len());
        add_units(
            &mut steps,
            program.units.as_slice(),
            entries,
            windows,
            table.slot,
        )?;
        rest = after;
    }
    Ok(steps)
}

/// Adds the steps of these units.
fn add_units(
    steps: &mut Vec<CostStep>,
    units: &[Unit],
    fixed: &[Option<u8>],
    windows: &[Window],
    slot: u32,
) -> Result<(), OutOfMemory>
    requires valid { All (IsValidUnit slot) units.now }
    requires names { AllZip NamesVersion units.now fixed.now }
    requires room { LeaveRoom windows.now }
    ensures { OnOk result (AddSteps windows.now units.now fixed.now steps.old.items steps.new.items) }
{
    for (i, unit) in units.iter().enumerate() {
        add_unit(steps, unit, fixed[i], windows, slot)?;
    }
    Ok(())
}

/// Adds the steps of a unit.
fn add_unit(
    steps: &mut Vec<CostStep>,
    unit: &Unit,
    fixed: Option<u8>,
    windows: &[Window],
    slot: u32,
) -> Result<(), OutOfMemory>
    requires valid { IsValidUnit slot unit.now }
    requires names { NamesVersion unit.now fixed }
    requires room { LeaveRoom windows.now }
    ensures { OnOk result (AddUnit windows.now unit.now fixed steps.old.items steps.new.items) }
{
    let base = price(windows, unit.due);
    match fixed {
        Some(k) => add_steps_above(steps, unit.due, base, &[unit.versions[usize::from(k)]]),
        None => add_steps_above(steps, unit.due, base, unit.versions.as_slice()),
    }
}
