ghost use Rattle.std.specs.Prelude.{◌≤◌, IfOk, ◌≤ℤ◌};
ghost use Rattle.version_table.specs.Table.{IsValidTable};
ghost use Rattle.dual_bounds.specs.Fixed.{FixesVersions};
ghost use Rattle.dual_bounds.specs.Values.{value_of_windows};
ghost use Rattle.multiplier_search.specs.Windows.{AreSearched};

pub(crate) mod greedy;
pub(crate) mod hull;
pub(crate) mod slack;
mod slack_tree;

use crate::changes::of_greater_value;
use dual_bounds::{Fixed, Windows, copied};
use hull::MixedTable;
use list_types::OutOfMemory;
use slack::Slack;
pub use slack_tree::{SlackPlace, SlackTree};
use std::alloc::Global;
use version_table::Table;

/// The linear relaxation of a table, in which versions may be mixed: what of it is the same whichever versions are fixed.
#[derive(Drop)]
pub struct LinearRelaxation {
    /// Its units and the steps along their lower hulls.
    mixed: MixedTable,
    /// The slack beside the smallest versions.
    smallest: Slack,
}

impl LinearRelaxation {
    /// The relaxation of a table. Fails only for want of memory.
    pub fn new(alloc: Global, table: &Table) -> Result<LinearRelaxation, OutOfMemory>
        requires valid { IsValidTable table.now }
    {
        let mixed = MixedTable::new(alloc, table)?;
        let smallest = Slack::new(alloc, table, mixed.units.as_slice())?;
        Ok(LinearRelaxation { mixed, smallest })
    }

    /// Windows whose value is at least that of those at the start: those of the relaxation where these versions are fixed, read off
    /// its greedy solution; or the start, where that has the greater value. Fails only for want of memory.
    ///
    /// That the windows are the relaxation's own is measured and not proved, and it has to be that of this table.
    pub fn windows(
        &self,
        alloc: Global,
        table: &Table,
        fixed: &Fixed,
        start: &Windows,
    ) -> Result<Windows, OutOfMemory>
        requires valid { IsValidTable table.now }
        requires fixed { FixesVersions table.now fixed.now }
        requires searched { AreSearched start.now.items }
        ensures searched { IfOk result (λ found. AreSearched found.items) }
        ensures start { IfOk result (λ found. value_of_windows table.now fixed.now start.now.items ≤ℤ value_of_windows table.now fixed.now found.items) }
    {
        let found = greedy::windows(alloc, &self.mixed, &self.smallest, fixed)?;
        Ok(of_greater_value(table, fixed, copied(start.as_slice()), found))
    }
}

/// Windows whose value is at least that of those at the start: those of the linear relaxation where these versions are fixed; or the
/// start, where that has the greater value. Fails only for want of memory.
///
/// That the windows are the relaxation's own is measured and not proved.
pub fn relaxation(
    alloc: Global,
    table: &Table,
    fixed: &Fixed,
    start: &Windows,
) -> Result<Windows, OutOfMemory>
    requires valid { IsValidTable table.now }
    requires fixed { FixesVersions table.now fixed.now }
    requires searched { AreSearched start.now.items }
    ensures searched { IfOk result (λ found. AreSearched found.items) }
    ensures start { IfOk result (λ found. value_of_windows table.now fixed.now start.now.items ≤ℤ value_of_windows table.now fixed.now found.items) }
{
    let relaxation = LinearRelaxation::new(alloc, table)?;
    relaxation.windows(alloc, table, fixed, start)
}
