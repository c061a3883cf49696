ghost use Rattle.std.specs.Prelude.{◌≡◌, ◌+◌, ◌<◌, ◌≤◌, [], length, vec_capacity};
ghost use Rattle.version_table.specs.Table.{units_of};
ghost use Rattle.certificate_checker.specs.Private.Order.{IsDueOrder, IsFilled, IsPlaced, unit_of, units_behind};

use version_table::{Table, Unit};

/// Where a unit stands in a table, and when it is due.
#[derive(Clone, Copy)]
pub(crate) struct DueUnit {
    /// When it is due, in ticks.
    pub due: u64,
    /// Its number over all programs in order.
    pub unit: usize,
    /// The number of its program.
    pub program: usize,
    /// Its number in the program.
    pub place: usize,
}

/// Lists the units of a table in the order of their due times, in a list that has room for them.
pub(crate) fn put_in_order(table: &Table, order: &mut Vec<DueUnit>)
    requires room { length (units_of table.now) ≤ vec_capacity order.old }
    ensures order { IsDueOrder table.now order.new.items }
    ensures room { vec_capacity order.new ≡ vec_capacity order.old }
{
    list_units(table, order);
    order.as_mut_slice().sort_unstable_by_key(|at| at.due);
}

/// Lists the units of a table, program after program.
fn list_units(table: &Table, order: &mut Vec<DueUnit>)
    requires room { length (units_of table.now) ≤ vec_capacity order.old }
    ensures filled { IsFilled table.now [] order.new.items }
    ensures room { vec_capacity order.new ≡ vec_capacity order.old }
{
    order.clear();
    for program in 0..table.programs.len() {
        list_program(table, program, order);
    }
}

/// Adds the units of a program to those of the programs before it.
fn list_program(table: &Table, program: usize, order: &mut Vec<DueUnit>)
    requires program { program < length table.now.programs }
    requires room { length (units_of table.now) ≤ vec_capacity order.old }
    requires filled { IsFilled table.now (units_behind table.now program) order.old.items }
    ensures filled { IsFilled table.now (units_behind table.now (program + 1)) order.new.items }
    ensures room { vec_capacity order.new ≡ vec_capacity order.old }
{
    let units = table.programs.as_slice()[program].units.as_slice();
    for (place, unit) in units.iter().enumerate() {
        let number = order.len();
        order.push_reserved(DueUnit {
            due: unit.due,
            unit: number,
            program,
            place,
        });
    }
}

/// A unit of a table.
pub(crate) fn unit_at(table: &Table, at: DueUnit) -> &Unit
    requires { IsPlaced table.now at }
    ensures { result.now ≡ unit_of table.now at.unit }
{
    &table.programs.as_slice()[at.program].units.as_slice()[at.place]
}
