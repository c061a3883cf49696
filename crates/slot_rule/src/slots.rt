ghost use Rattle.std.specs.Prelude.{◌≤◌};
ghost use Rattle.version_table.specs.declared.limits.TheConstants.{TIME_SLOTS_MOST};
ghost use Rattle.version_table.specs.Table.{IsValidTable};
ghost use Rattle.version_table.specs.Choice.{Fits};
ghost use Rattle.slot_rule.specs.Private.Runs.{Reached, TellsRun};

use crate::after::After;
use crate::idle::idle_until;
use crate::row::Row;
use crate::run_state::RunState;
use crate::slot::run_slot;
use crate::timetable::Timetable;
use version_table::Table;

/// Runs the slots from `first` up to `end`, until a packet misses or all is sent; `run` is what is kept before and after
/// them. Slots in which nothing can happen are passed at once.
pub fn run_slots(table: &Table, choice: &[u8], run: &mut RunState, first: u32, end: u32) -> After
    requires valid { IsValidTable table.now }
    requires fits { Fits table.now choice.now }
    requires order { first ≤ end }
    requires end { end ≤ TIME_SLOTS_MOST }
    requires reached { Reached table.now choice.now first run.old }
    ensures { TellsRun table.now choice.now first end run.old result run.new }
{
    let mut n = first;
    while n < end {
        let row = run_slot(table, choice, run, n);
        match run.after(row, table.slot, n) {
            After::Missed(miss) => return After::Missed(miss),
            After::AllSent => return After::AllSent,
            After::Waiting => {}
        }
        n = match row {
            Row::Empty => {
                let free = Timetable::of(table).free_until(n);
                idle_until(run, table.slot, n + 1, free.min(end))
            }
            _ => n + 1,
        };
    }
    After::Waiting
}
