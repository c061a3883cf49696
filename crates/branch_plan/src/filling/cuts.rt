use super::stretches::{Stretch, count_by};
use super::{FilledUnit, put_at};
use crate::corners::{Corner, corner_at, ratio};

/// How far before a miss packets are taken off, in ticks: half a second.
const REACH_TICKS: u64 = 13_500_000;

/// A step down of one unit.
#[derive(Clone, Copy)]
struct Cut {
    /// Which unit, in the order of due times.
    unit: usize,
    /// The corner that it leads to.
    corner: usize,
    /// Packets less.
    packets: u32,
    /// Distortion more for a packet that is wanted.
    ratio: u128,
}

/// Takes so many packets off the units that are due shortly before a time, by the steps down that cost least for a packet;
/// off earlier ones where none is left there. Tells how many packets units before the open ones lost.
pub(super) fn cut_before(
    units: &mut [FilledUnit],
    corners: &[Corner],
    open: Stretch,
    due: u64,
    packets: u32,
) -> i64 {
    let until = count_by(units, due).min(open.until);
    let mut start = due.saturating_sub(REACH_TICKS);
    let mut first = count_by(units, start);
    let mut left = packets;
    let mut before: i64 = 0;
    for _step in 0..packets {
        if left > 0 {
            match cheapest(units, corners, first, until, left) {
                Some(cut) => {
                    put_at(units, cut.unit, cut.corner);
                    left = left.saturating_sub(cut.packets);
                    if cut.unit < open.first {
                        before = before.saturating_add(i64::from(cut.packets));
                    }
                }
                None => {
                    start = start.saturating_sub(REACH_TICKS);
                    first = count_by(units, start);
                }
            }
        }
    }
    before
}

/// Of these units the step down that costs least for a packet of those that are wanted.
fn cheapest(
    units: &[FilledUnit],
    corners: &[Corner],
    first: usize,
    until: usize,
    wanted: u32,
) -> Option<Cut> {
    let mut best = None;
    let mut least = u128::MAX;
    for place in first..until {
        if place < units.len() {
            if let Some(cut) = cheapest_of(units[place], corners, place, wanted) {
                if cut.ratio < least {
                    least = cut.ratio;
                    best = Some(cut);
                }
            }
        }
    }
    best
}

/// The step down of a unit that costs least for a packet of those that are wanted.
fn cheapest_of(unit: FilledUnit, corners: &[Corner], number: usize, wanted: u32) -> Option<Cut> {
    let from = corner_at(corners, unit.at);
    let mut best = None;
    let mut least = u128::MAX;
    for place in unit.first..unit.at {
        let to = corner_at(corners, place);
        let packets = from.packets.saturating_sub(to.packets);
        let own = ratio(
            to.distortion.saturating_sub(from.distortion),
            packets.min(wanted),
        );
        if packets > 0 && own < least {
            least = own;
            best = Some(Cut {
                unit: number,
                corner: place,
                packets,
                ratio: own,
            });
        }
    }
    best
}
