use super::FilledUnit;
use super::rooms::packets_of;
use crate::corners::Corner;
use list_types::OutOfMemory;
use std::alloc::Global;

/// Above every number of packets.
const FAR: i64 = i64::MAX / 4;
/// Ticks of the units that are closed together: eight seconds.
const STRETCH_TICKS: u64 = 216_000_000;
/// Ticks of those behind them that stay open: two seconds.
const HORIZON_TICKS: u64 = 54_000_000;

/// Units that follow each other in the order of due times, which are filled while those before and behind them stay as they are.
#[derive(Clone, Copy)]
pub(crate) struct Stretch {
    /// The first of them.
    pub first: usize,
    /// The unit behind the last of them that are closed together.
    pub closed: usize,
    /// The unit behind the last of them.
    pub until: usize,
    /// The packets of the units before them.
    pub sent: i64,
    /// The slots that these leave unused.
    pub unused: i64,
    /// How many packets all units up to the last of them may have, with those behind them as they are.
    pub beyond: i64,
}

/// All units of so many.
pub(super) fn whole_stretch(units: usize) -> Stretch {
    Stretch {
        first: 0,
        closed: units,
        until: units,
        sent: 0,
        unused: 0,
        beyond: FAR,
    }
}

/// The first stretch.
pub(super) fn first_stretch(units: &[FilledUnit], ahead: &[i64]) -> Stretch {
    stretch_from(units, ahead, 0, 0, 0)
}

/// The stretch behind another one; none where nothing is behind it.
pub(super) fn next_stretch(
    units: &[FilledUnit],
    corners: &[Corner],
    ahead: &[i64],
    open: Stretch,
) -> Option<Stretch> {
    if open.until >= units.len() {
        return None;
    }
    let mut sent = open.sent;
    let mut unused = open.unused;
    for place in open.first..open.closed {
        if place < units.len() {
            unused = unused.max(units[place].below.saturating_sub(sent));
            sent = sent.saturating_add(packets_of(corners, units[place]));
        }
    }
    Some(stretch_from(units, ahead, open.closed, sent, unused))
}

/// The stretch that begins with a unit.
fn stretch_from(
    units: &[FilledUnit],
    ahead: &[i64],
    first: usize,
    sent: i64,
    unused: i64,
) -> Stretch {
    let due = match units.get(first) {
        Some(unit) => unit.due,
        None => 0,
    };
    let end = due.saturating_add(STRETCH_TICKS);
    let until = count_by(units, end.saturating_add(HORIZON_TICKS));
    let closed = if until < units.len() {
        count_by(units, end)
    } else {
        until
    };
    let beyond = match ahead.get(until) {
        Some(most) => *most,
        None => FAR,
    };
    Stretch {
        first,
        closed,
        until,
        sent,
        unused,
        beyond,
    }
}

/// Of each unit how many packets all units before it may have, with it and those behind it as they are.
pub(super) fn ahead_of(
    alloc: Global,
    units: &[FilledUnit],
    corners: &[Corner],
) -> Result<Vec<i64>, OutOfMemory> {
    let mut ahead = vec![in alloc; FAR; units.len()]?;
    let mut most = FAR;
    for place in (0..units.len()).rev() {
        most = most
            .min(units[place].above)
            .saturating_sub(packets_of(corners, units[place]));
        put_ahead(ahead.as_mut_slice(), place, most);
    }
    Ok(ahead)
}

/// Puts a number at a place.
fn put_ahead(ahead: &mut [i64], place: usize, most: i64) {
    if place < ahead.len() {
        ahead[place] = most;
    }
}

/// How many units are due by a time.
pub(super) fn count_by(units: &[FilledUnit], due: u64) -> usize {
    units.partition_point(|unit| unit.due <= due)
}

/// The units of a stretch.
pub(super) fn units_of(units: &[FilledUnit], open: Stretch) -> &[FilledUnit] {
    let until = open.until.min(units.len());
    let first = open.first.min(until);
    &units[first..until]
}
