//! What levels become in one version, kept for those that come again.
ghost use Rattle.std.specs.Prelude.{◌≡◌, ◌<◌, IsTrue};
ghost use Rattle.quant_math.specs.Levels.{coarser_level};
ghost use Rattle.requantiser.specs.Private.KeptChanges.{BecomesBy, change_number};

use crate::level::{Coefficient, Rescaling, change_level};

/// Levels that are kept at once.
const LEVELS: usize = 512;

/// What a level becomes.
#[derive(Clone, Copy)]
pub struct KeptLevel {
    /// The weight of its place, both scales and whether its block is intra, as one number.
    number: u32,
    level: i16,
    made: i16,
    ghost right: { BecomesBy level number made },
}

impl KeptLevel {
    /// What a coefficient's level becomes.
    #[cold]
    fn new(coefficient: Coefficient, rescaling: Rescaling) -> KeptLevel
        ensures level { result.level ≡ coefficient.level }
        ensures number { result.number ≡ change_number coefficient.weight rescaling.from rescaling.to rescaling.intra }
    {
        let change = change_level(coefficient.level, coefficient.weight, rescaling);
        KeptLevel {
            number: number_of(coefficient, rescaling),
            level: coefficient.level,
            made: change.level,
        }
    }

    /// Whether it is the one of a coefficient.
    #[inline]
    fn is_of(&self, coefficient: Coefficient, rescaling: Rescaling) -> bool
        ensures level { IsTrue result → self.now.level ≡ coefficient.level }
        ensures number { IsTrue result → self.now.number ≡ change_number coefficient.weight rescaling.from rescaling.to rescaling.intra }
    {
        self.level == coefficient.level && self.number == number_of(coefficient, rescaling)
    }
}

/// A coefficient's weight, both scales and whether its block is intra, as one number.
#[inline]
fn number_of(coefficient: Coefficient, rescaling: Rescaling) -> u32
    ensures { result ≡ change_number coefficient.weight rescaling.from rescaling.to rescaling.intra }
{
    u32::from(coefficient.weight)
        + 256 * u32::from(rescaling.from)
        + 32_768 * u32::from(rescaling.to)
        + 4_194_304 * u32::from(rescaling.intra)
}

/// What levels become in a version, as far as they were asked for, each at a place that follows from it.
#[derive(Drop)]
pub struct KeptLevels {
    levels: [KeptLevel; LEVELS],
}

impl KeptLevels {
    /// Nothing but a level of 0.
    pub fn new() -> KeptLevels {
        let none = Coefficient {
            level: 0,
            weight: 1,
            at: 0,
        };
        let whole = Rescaling {
            alternate: false,
            intra: false,
            from: 1,
            to: 1,
        };
        KeptLevels {
            levels: [KeptLevel::new(none, whole); LEVELS],
        }
    }

    /// What the level of a coefficient becomes.
    #[inline]
    pub(crate) fn coarser(&mut self, coefficient: Coefficient, rescaling: Rescaling) -> i16
        ensures { result ≡ coarser_level coefficient.level coefficient.weight rescaling.from rescaling.to rescaling.intra }
    {
        let kept = self.kept_of(coefficient, rescaling);
        kept.made
    }

    /// The one of a coefficient, which is made where another one stands at its place.
    #[inline]
    fn kept_of(&mut self, coefficient: Coefficient, rescaling: Rescaling) -> &KeptLevel
        ensures level { result.now.level ≡ coefficient.level }
        ensures number { result.now.number ≡ change_number coefficient.weight rescaling.from rescaling.to rescaling.intra }
    {
        let place = place_of(coefficient);
        if !self.levels[place].is_of(coefficient, rescaling) {
            self.levels[place] = KeptLevel::new(coefficient, rescaling);
        }
        &self.levels[place]
    }
}

/// Where what a coefficient's level becomes stands.
#[inline]
fn place_of(coefficient: Coefficient) -> usize
    ensures { result < LEVELS }
{
    let level = (coefficient.level + 2048) as u32;
    (16 * u32::from(coefficient.weight) + level) as usize % LEVELS
}
