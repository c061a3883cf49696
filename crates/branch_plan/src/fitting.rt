ghost use Rattle.std.specs.Prelude.{◌≡◌, ◌*◌, ◌<◌, ◌≤◌, nat_le, length, true, false};
ghost use Rattle.std.specs.List.{list_all};
ghost use Rattle.version_table.specs.Table.{IsValidTable, units_of};
ghost use Rattle.version_table.specs.declared.limits.TheConstants.{PROGRAMS_MOST};
ghost use Rattle.branch_plan.specs.Bound.{owned_at, unit_fits};
ghost use Rattle.branch_plan.specs.Private.Changes.{unit_at};

use stream_constants::decoder::EB_UNIT_BYTES;
use version_table::{Table, Version};

/// What stands for each unit of a program.
#[derive(Clone, Copy)]
pub(crate) struct Owner {
    /// Ticks of a slot.
    pub slot: u32,
    /// The program's number in the table.
    pub number: usize,
    /// The size of its elementary buffer in units of 2,048 bytes.
    pub vbv: u8,
}

/// What stands for a unit, by its program. Units are numbered over all programs in order.
pub(crate) fn owner_of(table: &Table, unit: usize) -> Owner
    requires valid { IsValidTable table.now }
    requires unit { unit < length (units_of table.now) }
    ensures slot { result.slot ≡ table.now.slot }
    ensures few { result.number < PROGRAMS_MOST }
    ensures owned { owned_at table.now unit ≡ record { program = result.number; vbv = result.vbv; unit = unit_at table.now unit } }
{
    let mut rest = unit;
    for (number, program) in table.programs.as_slice().iter().enumerate() {
        let units = program.units.as_slice();
        if rest < units.len() {
            return Owner {
                slot: table.slot,
                number,
                vbv: program.vbv,
            };
        }
        rest -= units.len();
    }
    unreachable!()
}

/// Whether each version of a unit fits its program's elementary buffer. Units are numbered over all programs in order.
pub(crate) fn each_fits(table: &Table, unit: usize) -> bool
    requires { unit < length (units_of table.now) }
    ensures { result ≡ unit_fits table.now unit }
{
    let mut rest = unit;
    for program in table.programs.as_slice() {
        let units = program.units.as_slice();
        if rest < units.len() {
            return all_fit(units[rest].versions.as_slice(), program.vbv);
        }
        rest -= units.len();
    }
    unreachable!()
}

/// Whether each of these versions fits an elementary buffer of so many units of 2,048 bytes.
fn all_fit(versions: &[Version], vbv: u8) -> bool
    ensures { result ≡ list_all (λ version. nat_le version.bytes (EB_UNIT_BYTES * vbv)) versions.now }
{
    for version in versions {
        if u64::from(version.bytes) > EB_UNIT_BYTES * u64::from(vbv) {
            return false;
        }
    }
    true
}

/// The bound that a branch's children keep to: the tree's own where each version of the unit fits its buffer, and else that of
/// windows of time.
pub(crate) fn kept_bound(table: &Table, unit: usize, root: u64, time: u64) -> u64
    requires unit { unit < length (units_of table.now) }
    requires time { time ≤ root }
    ensures fits { unit_fits table.now unit ≡ true → result ≡ root }
    ensures least { time ≤ result }
    ensures most { result ≤ root }
    ensures other { unit_fits table.now unit ≡ false → result ≡ time }
{
    if each_fits(table, unit) { root } else { time }
}
