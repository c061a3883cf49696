ghost use Rattle.std.specs.Prelude.{IfOk};
ghost use Rattle.multiplier_search.specs.Windows.{AreSearched, IsSound};

use super::hull::{HullStep, MixedTable, MixedUnit};
use super::slack::{Interval, Slack, due_at};
use crate::lists::{inserted, is_taken, place_of};
use dual_bounds::constants::{DISTORTION_PARTS, LAMBDA_MOST, WINDOWS_MOST};
use dual_bounds::{Fixed, Window, Windows};
use list_types::OutOfMemory;
use std::alloc::Global;

/// The windows of the relaxation where these versions are fixed, from the slack beside the smallest ones: in the order of what they
/// save for a packet, steps are taken as far as there is room. Where none is left, the units round the step's fill their room, and
/// a packet of it is worth what the step saves.
pub fn windows(
    alloc: Global,
    mixed: &MixedTable,
    smallest: &Slack,
    fixed: &Fixed,
) -> Result<Windows, OutOfMemory>
    ensures { IfOk result (λ found. AreSearched found.items) }
{
    let mut slack = smallest.copied(alloc)?;
    let intervals = intervals_of(alloc, mixed, &mut slack, fixed)?;
    Ok(windows_of_intervals(&slack, mixed.units.as_slice(), intervals.as_slice()))
}

/// The intervals of the relaxation that are filled where these versions are fixed, with their prices beside those round them, from
/// the slack beside the smallest versions.
pub fn intervals_of(
    alloc: Global,
    mixed: &MixedTable,
    slack: &mut Slack,
    fixed: &Fixed,
) -> Result<Vec<Interval>, OutOfMemory> {
    let units = mixed.units.len();
    let mut free = vec![in alloc; true; units]?;
    fix(slack, free.as_mut_slice(), mixed, fixed.as_slice());
    match overfull(slack, units) {
        Some(interval) => Ok(vec![in alloc; interval; 1]?),
        None => priced(alloc, slack, free.as_mut_slice(), mixed.steps.as_slice()),
    }
}

/// Gives the units of which a version is fixed the packets of that version, and no steps.
fn fix(slack: &mut Slack, free: &mut [bool], mixed: &MixedTable, fixed: &[Option<u8>]) {
    for (place, unit) in mixed.units.iter().enumerate() {
        if let Some(Some(k)) = fixed.get(unit.number) {
            slack.take(place, mixed.packets_more(*unit, *k));
            close(free, place);
        }
    }
}

/// The first interval whose room is too small for the smallest versions.
fn overfull(slack: &Slack, units: usize) -> Option<Interval> {
    for unit in 0..units {
        if slack.of(unit) < 0 {
            return Some(slack.interval(unit, LAMBDA_MOST));
        }
    }
    None
}

/// The intervals that are filled by taking these steps, with their prices beside those round them. Only units that are free take
/// steps: no version of theirs is fixed, and they aren't in a filled interval.
fn priced(
    alloc: Global,
    slack: &mut Slack,
    free: &mut [bool],
    steps: &[HullStep],
) -> Result<Vec<Interval>, OutOfMemory> {
    let mut filled = Vec::new(alloc);
    let mut priced = Vec::new(alloc);
    for step in steps {
        if is_free(free, step.unit) && take(slack, *step) {
            let own = slack.interval(step.unit, price_of(*step));
            for unit in own.first..=own.last {
                close(free, unit);
            }
            let grown = grown(filled.as_slice(), own);
            filled = fill(alloc, filled.as_slice(), grown, &mut priced)?;
        }
    }
    for interval in filled.as_slice() {
        priced.push(*interval)?;
    }
    Ok(priced)
}

/// Whether a unit takes steps.
fn is_free(free: &[bool], unit: usize) -> bool {
    unit < free.len() && free[unit]
}

/// Gives a unit no steps from now on.
fn close(free: &mut [bool], unit: usize) {
    if unit < free.len() {
        free[unit] = false;
    }
}

/// Takes a step as far as there is room, and says whether it fills it.
fn take(slack: &mut Slack, step: HullStep) -> bool {
    let room = slack.of(step.unit).max(0);
    let packets = room.min(i64::from(step.packets));
    slack.take(step.unit, packets);
    packets == room
}

/// What a packet of a step saves, to the nearest 1/256 of a distortion.
fn price_of(step: HullStep) -> u64 {
    let packets = u64::from(step.packets.max(1));
    step.saved
        .saturating_mul(DISTORTION_PARTS)
        .saturating_add(packets / 2)
        / packets
}

/// An interval with those that it meets.
fn grown(filled: &[Interval], own: Interval) -> Interval {
    let mut grown = own;
    for other in filled {
        if other.first <= grown.last && grown.first <= other.last {
            grown.first = grown.first.min(other.first);
            grown.last = grown.last.max(other.last);
        }
    }
    grown
}

/// The filled intervals with one more in the place of those within it, which are priced.
fn fill(
    alloc: Global,
    filled: &[Interval],
    own: Interval,
    priced: &mut Vec<Interval>,
) -> Result<Vec<Interval>, OutOfMemory> {
    let mut kept = Vec::new(alloc);
    for other in filled {
        if other.first < own.first || own.last < other.last {
            kept.push(*other)?;
        } else {
            priced.push(Interval {
                price: other.price.saturating_sub(own.price),
                ..*other
            })?;
        }
    }
    kept.push(own)?;
    Ok(kept)
}

/// The windows of some intervals, where they aren't too many.
fn windows_of_intervals(slack: &Slack, units: &[MixedUnit], intervals: &[Interval]) -> Windows
    ensures { AreSearched result.items }
{
    let mut windows = Windows::new();
    for interval in intervals {
        windows = with_window(windows, window_of(slack, units, *interval));
    }
    windows
}

/// The window of an interval.
fn window_of(slack: &Slack, units: &[MixedUnit], interval: Interval) -> Window
    ensures { IsSound result }
{
    let due = due_at(units, interval.last);
    Window {
        from: slack.start_of(interval, units).min(due),
        due,
        lambda: interval.price.min(LAMBDA_MOST),
    }
}

/// The windows and one more, where it has a price, there is room for it, and none is from the same time to the same.
fn with_window(windows: Windows, window: Window) -> Windows
    requires searched { AreSearched windows.items }
    requires sound { IsSound window }
    ensures { AreSearched result.items }
{
    if window.lambda == 0 || windows.len() == WINDOWS_MOST {
        return windows;
    }
    let place = place_of(windows.as_slice(), window);
    let taken = is_taken(windows.as_slice(), place, window);
    if taken {
        return windows;
    }
    inserted(windows.as_slice(), place, window)
}
