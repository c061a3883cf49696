//! What levels become in several versions, kept for those that come again.
ghost use Rattle.std.specs.Prelude.{◌≡◌, ◌<◌, ◌≤◌, ◌+◌, ◌/◌, ◌%◌, ◌+ℤ◌, pos, slice_index_or, IsTrue};
ghost use Rattle.requantiser.specs.Private.Rungs.{AreRescaled, AreRescaledBy, AreRows, IsGoneFrom, way_number};

use crate::codes::Target;
use crate::lengths::{Lengths, row_of};
use crate::level::{Coefficient, Rescaling, change_level};
use crate::tally::VERSIONS_AT_ONCE;
use crate::targets::{KeptTargets, Targets};

/// Levels that are kept at once.
const RUNGS: usize = 1024;

/// What a coefficient of the source becomes in each version.
#[derive(Clone, Copy)]
pub struct Rung {
    /// Its level, and its weight, its scale and whether its block is intra, as one number.
    key: u32,
    level: i16,
    /// From this version on it becomes 0.
    pub living: u16,
    /// The quantiser_scales of the versions.
    scales: [u8; VERSIONS_AT_ONCE],
    /// The sizes of the levels that it becomes.
    pub sizes: [u16; VERSIONS_AT_ONCE],
    /// Where the lengths of these sizes stand in a table.
    pub rows: [u16; VERSIONS_AT_ONCE],
    /// The squares of the differences of the coefficients.
    pub squares: [u32; VERSIONS_AT_ONCE],
    ghost right: { AreRescaledBy level (key % 65536) scales sizes squares },
    ghost keyed: { pos (key / 65536) ≡ level +ℤ pos 2048 },
    ghost few: { living ≤ 8 },
    ghost gone: { IsGoneFrom living sizes },
    ghost placed: { AreRows rows sizes },
}

/// What a coefficient becomes.
#[derive(Clone, Copy)]
pub struct Rescaled {
    pub sizes: [u16; VERSIONS_AT_ONCE],
    pub squares: [u32; VERSIONS_AT_ONCE],
    pub living: u16,
}

impl Rung {
    /// What a coefficient becomes in each version.
    #[cold]
    fn new(coefficient: Coefficient, rescaling: Rescaling, targets: &Targets) -> Rung
        ensures level { result.level ≡ coefficient.level }
        ensures number { result.key % 65536 ≡ way_number coefficient.weight rescaling.from rescaling.intra }
        ensures scales { result.scales ≡ targets.now.scales }
    {
        let Rescaled {
            sizes,
            squares,
            living,
        } = rescale(coefficient, rescaling, targets);
        Rung {
            key: key_of(coefficient, rescaling),
            level: coefficient.level,
            living,
            scales: targets.scales,
            sizes,
            rows: rows_of(&sizes),
            squares,
        }
    }

    /// Whether it is the one of a coefficient.
    #[inline]
    fn is_of(&self, coefficient: Coefficient, rescaling: Rescaling, targets: &Targets) -> bool
        ensures level { IsTrue result → self.now.level ≡ coefficient.level }
        ensures number { IsTrue result → self.now.key % 65536 ≡ way_number coefficient.weight rescaling.from rescaling.intra }
        ensures scales { IsTrue result → self.now.scales ≡ targets.now.scales }
    {
        self.key == key_of(coefficient, rescaling) && self.scales == targets.scales
    }
}

/// A coefficient's level, and its weight, its scale and whether its block is intra, as one number.
#[inline]
fn key_of(coefficient: Coefficient, rescaling: Rescaling) -> u32
    ensures way { result % 65536 ≡ way_number coefficient.weight rescaling.from rescaling.intra }
    ensures level { pos (result / 65536) ≡ coefficient.level +ℤ pos 2048 }
{
    let way = u32::from(coefficient.weight)
        + 256 * u32::from(rescaling.from)
        + 32_768 * u32::from(rescaling.intra);
    65_536 * (coefficient.level + 2048) as u32 + way
}

/// What a coefficient becomes in each version.
fn rescale(coefficient: Coefficient, rescaling: Rescaling, targets: &Targets) -> Rescaled
    ensures each { AreRescaled coefficient.level coefficient.weight rescaling.from rescaling.intra targets.now.scales result.sizes result.squares }
    ensures few { result.living ≤ 8 }
    ensures gone { IsGoneFrom result.living result.sizes }
{
    let mut sizes = [0; VERSIONS_AT_ONCE];
    let mut squares = [0; VERSIONS_AT_ONCE];
    let mut living = 0;
    for k in 0..VERSIONS_AT_ONCE {
        let to = rescaling.with_scale(u16::from(targets.scales[k]));
        let change = change_level(coefficient.level, coefficient.weight, to);
        let size = change.level.unsigned_abs();
        sizes[k] = size;
        squares[k] = change.squared;
        living = living_behind(living, k as u16, size);
    }
    Rescaled {
        sizes,
        squares,
        living,
    }
}

/// Where the lengths of these sizes stand in a table.
fn rows_of(sizes: &[u16; VERSIONS_AT_ONCE]) -> [u16; VERSIONS_AT_ONCE]
    ensures { AreRows result sizes.now }
{
    let mut rows = [0; VERSIONS_AT_ONCE];
    for k in 0..VERSIONS_AT_ONCE {
        rows[k] = row_of(sizes[k]);
    }
    rows
}

/// From which version on a level becomes 0, among those up to one in which it has this size.
#[inline]
fn living_behind(living: u16, k: u16, size: u16) -> u16
    requires living { living ≤ k }
    requires few { k < 8 }
    ensures most { result ≤ k + 1 }
    ensures no_less { living ≤ result }
    ensures gone { result ≤ k → size ≡ 0 }
{
    if size == 0 { living } else { k + 1 }
}

/// What levels become in the versions of a picture, how long their codes are, and what the versions quantise by, as far as they
/// were asked for.
#[derive(Drop)]
pub struct Ladder {
    pub(crate) rungs: Rungs,
    pub(crate) lengths: Lengths,
    pub(crate) targets: KeptTargets,
}

impl Ladder {
    /// Nothing but a level of 0.
    pub fn new() -> Ladder {
        Ladder {
            rungs: Rungs::new(),
            lengths: Lengths::new(),
            targets: KeptTargets::new(),
        }
    }
}

/// What levels become, each at a place that follows from it.
#[derive(Drop)]
pub struct Rungs {
    rungs: [Rung; RUNGS],
}

impl Rungs {
    ghost use Rattle.requantiser.specs.declared.ladder.Rung.{Rung as RungOf};

    /// Nothing but a level of 0.
    fn new() -> Rungs {
        let none = Coefficient {
            level: 0,
            weight: 1,
            at: 0,
        };
        let whole = Rescaling {
            alternate: false,
            intra: false,
            from: 1,
            to: 1,
        };
        let targets = Targets::of(Target { code: 1, scale: 1 });
        Rungs {
            rungs: [Rung::new(none, whole, &targets); RUNGS],
        }
    }

    /// The rung of a coefficient, which is made where another one stands at its place.
    #[inline]
    pub fn rung_of(
        &mut self,
        coefficient: Coefficient,
        rescaling: &Rescaling,
        targets: &Targets,
    ) -> &Rung
        ensures level { result.now.level ≡ coefficient.level }
        ensures number { result.now.key % 65536 ≡ way_number coefficient.weight rescaling.now.from rescaling.now.intra }
        ensures scales { result.now.scales ≡ targets.now.scales }
    {
        let place = place_of(coefficient, *rescaling);
        if !self.rungs[place].is_of(coefficient, *rescaling, targets) {
            self.make(place, coefficient, rescaling, targets);
        }
        &self.rungs[place]
    }

    /// Makes the rung of a coefficient at its place.
    #[cold]
    #[inline(never)]
    fn make(
        &mut self,
        place: usize,
        coefficient: Coefficient,
        rescaling: &Rescaling,
        targets: &Targets,
    )
        requires { place < RUNGS }
        ensures { (d : RungOf) → let rung : RungOf = slice_index_or self.new.rungs place d in
            (rung.level ≡ coefficient.level) × (rung.key % 65536 ≡ way_number coefficient.weight rescaling.now.from rescaling.now.intra) × (rung.scales ≡ targets.now.scales) }
    {
        self.rungs[place] = Rung::new(coefficient, *rescaling, targets);
    }
}

/// Where the rung of a coefficient stands.
#[inline]
fn place_of(coefficient: Coefficient, rescaling: Rescaling) -> usize
    ensures { result < RUNGS }
{
    (key_of(coefficient, rescaling).wrapping_mul(0x9E37_79B1) >> 22) as usize % RUNGS
}
