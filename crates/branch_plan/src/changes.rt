ghost use Rattle.std.specs.Prelude.{◌≡◌, ◌+◌, ◌<◌, ◌≤◌, length, slice_index_or, slice_set, Some};
ghost use Rattle.version_table.specs.Choice.{version_at};
ghost use Rattle.version_table.specs.Table.{IsValidTable, units_of};
ghost use Rattle.certificate_checker.specs.Shown.{versions_of};
ghost use Rattle.branch_plan.specs.Changes.{EndsBestAlone};
ghost use Rattle.branch_plan.specs.Private.Changes.{GainsOver, IsChangeOf, IsLesserAt, IsTriedFrom, unit_at};
ghost use Rattle.branch_plan.specs.Private.Known.{IsKnown};

use crate::known::Known;
use list_types::ListOf;
use slot_rule::SlotRun;
use version_table::{Choice, Table, Unit, distortion_of};

/// What trying single changes of a known choice came to.
#[derive(Drop)]
pub(crate) enum Tried {
    /// One helps: the choice with it, the unit that it changed, and the runs that are left.
    Better {
        known: Known,
        place: usize,
        left: u32,
    },
    /// None helps: the choice as it was, and the runs that are left.
    Nothing {
        known: Known,
        left: u32,
    },
    /// The runs were spent before: the choice as it was.
    Spent {
        known: Known,
    },
}

/// What one change came to.
#[derive(Drop)]
enum Change {
    /// The choice with it is scheduled.
    Helps(Known),
    /// The choice as it was.
    Fails(Known),
}

/// A known choice after single changes, each of one unit to a version of less distortion, as long as one is scheduled and
/// runs of the slot rule are left. Behind a change the units are tried from the changed one on.
pub(crate) fn after_changes(
    table: &Table,
    run: &mut SlotRun<'_>,
    known: Known,
    evaluations: u32,
) -> Known
    requires valid { IsValidTable table.now }
    requires run { run.old.table ≡ table.now }
    requires known { IsKnown table.now known }
    ensures known { IsKnown table.now result }
    ensures kept { result.distortion ≤ known.distortion }
    ensures alone { EndsBestAlone table.now evaluations result.choice }
    ensures rounds { GainsOver table.now evaluations result.choice result.distortion known.distortion }
{
    let mut best = known;
    let mut left = evaluations;
    let mut from = 0;
    while left > 0 {
        match round(table, run, best, left, from) {
            Tried::Better {
                known,
                place,
                left: rest,
            } => {
                best = known;
                from = place;
                left = rest;
            }
            Tried::Nothing { known, left: _ } => return known,
            Tried::Spent { known } => return known,
        }
    }
    best
}

/// Tries the units from one on, and then those before it.
pub(crate) fn round(
    table: &Table,
    run: &mut SlotRun<'_>,
    known: Known,
    left: u32,
    from: usize,
) -> Tried
    requires valid { IsValidTable table.now }
    requires run { run.old.table ≡ table.now }
    requires known { IsKnown table.now known }
    requires from { from ≤ length (units_of table.now) }
    ensures run { run.new.table ≡ table.now }
    ensures tried { IsTriedFrom table.now known left 0 (length (units_of table.now)) result }
{
    let units = known.choice.len();
    match first_help(table, run, known, left, from, units) {
        Tried::Nothing { known, left } => first_help(table, run, known, left, 0, from),
        found => found,
    }
}

/// Tries these units in order.
fn first_help(
    table: &Table,
    run: &mut SlotRun<'_>,
    known: Known,
    left: u32,
    low: usize,
    high: usize,
) -> Tried
    requires valid { IsValidTable table.now }
    requires run { run.old.table ≡ table.now }
    requires known { IsKnown table.now known }
    requires low { low ≤ high }
    requires high { high ≤ length (units_of table.now) }
    ensures run { run.new.table ≡ table.now }
    ensures tried { IsTriedFrom table.now known left low high result }
{
    let mut same = known;
    let mut rest = left;
    for place in low..high {
        match change_unit(table, run, same, rest, place) {
            Tried::Nothing { known, left } => {
                same = known;
                rest = left;
            }
            found => return found,
        }
    }
    Tried::Nothing {
        known: same,
        left: rest,
    }
}

/// Tries the versions of a unit of less distortion, in order.
fn change_unit(table: &Table, run: &mut SlotRun<'_>, known: Known, left: u32, place: usize) -> Tried
    requires valid { IsValidTable table.now }
    requires run { run.old.table ≡ table.now }
    requires known { IsKnown table.now known }
    requires place { place < length (units_of table.now) }
    ensures run { run.new.table ≡ table.now }
    ensures tried { IsTriedFrom table.now known left place (place + 1) result }
{
    let unit = unit_at(table, place);
    let chosen = known.choice.as_slice()[place] as usize;
    let most = distortion_at(unit, chosen);
    let mut same = known;
    let mut rest = left;
    for k in 0..unit.versions.len() {
        if distortion_at(unit, k) < most {
            if rest == 0 {
                return Tried::Spent { known: same };
            }
            rest -= 1;
            match try_change(table, run, same, place, k as u8) {
                Change::Helps(better) => {
                    return Tried::Better {
                        known: better,
                        place,
                        left: rest,
                    };
                }
                Change::Fails(kept) => same = kept,
            }
        }
    }
    Tried::Nothing {
        known: same,
        left: rest,
    }
}

/// The distortion of a version.
fn distortion_at(unit: &Unit, k: usize) -> u64
    requires { k < length unit.now.versions.items }
    ensures { result ≡ (version_at unit.now k).distortion }
{
    unit.versions[k].distortion
}

/// Tries one change, to a version of less distortion.
fn try_change(table: &Table, run: &mut SlotRun<'_>, known: Known, place: usize, k: u8) -> Change
    requires valid { IsValidTable table.now }
    requires run { run.old.table ≡ table.now }
    requires known { IsKnown table.now known }
    requires place { place < length (units_of table.now) }
    requires version { k < versions_of table.now place }
    requires less { IsLesserAt table.now known.choice place k }
    ensures run { run.new.table ≡ table.now }
    ensures change { IsChangeOf table.now known place k result }
{
    let Known { choice, distortion } = known;
    let old = choice.as_slice()[place];
    let changed = put(choice, place, k);
    if run.run(&changed).is_none() {
        let other = distortion_of(table, &changed);
        Change::Helps(Known {
            choice: changed,
            distortion: other,
        })
    } else {
        Change::Fails(Known {
            choice: put(changed, place, old),
            distortion,
        })
    }
}

/// A choice with another version of one unit.
pub(crate) fn put(choice: Choice, place: usize, k: u8) -> Choice
    requires { place < length choice }
    ensures { result ≡ slice_set choice place k }
{
    let mut versions = choice.into_vec();
    versions[place] = k;
    ListOf::from_vec(versions)
}

/// A unit by its number over all programs in order.
pub(crate) fn unit_at(table: &Table, place: usize) -> &Unit
    requires { place < length (units_of table.now) }
    ensures { result.now ≡ unit_at table.now place }
{
    let mut rest = place;
    for program in table.programs.as_slice() {
        let units = program.units.as_slice();
        if rest < units.len() {
            return &units[rest];
        }
        rest -= units.len();
    }
    unreachable!()
}
