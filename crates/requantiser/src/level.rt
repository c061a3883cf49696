//! A level under another scale, and how far its coefficient moves. Sizes are counted without their signs.
ghost use Rattle.std.specs.Prelude.{◌≡◌, ◌<◌, ◌≤◌, ◌-◌, ◌*◌, ◌/◌, ◌^◌, ◌*ℤ◌, pos, unsigned_abs};
ghost use Rattle.std.specs.Int.{int_signum};
ghost use Rattle.quant_math.specs.Levels.{coarser_level};
ghost use Rattle.picture_grammar.specs.declared.escape.TheConstants.{LEVEL_BITS};
ghost use Rattle.requantiser.specs.Private.Changes.{level_change};
ghost use Rattle.requantiser.specs.Private.Sizes.{half_of, limit_of as limit_of_sign, rounding_of as rounding_of_step, size_of};

use quant_math::{COEFFICIENT_PARTS, LEVEL_PARTS};

/// The greatest size of a coefficient that isn't negative (ISO/IEC 13818-2, 7.4.3).
const MOST_ABOVE: u32 = 2047;

/// The greatest size of a negative coefficient (ISO/IEC 13818-2, 7.4.3).
const MOST_BELOW: u32 = 2048;

/// What the levels of a block depend on besides their places, in the source and in the version.
#[derive(Clone, Copy)]
pub struct Rescaling {
    /// alternate_scan.
    pub alternate: bool,
    /// The block is intra.
    pub intra: bool,
    /// quantiser_scale in the source.
    pub from: u16,
    /// quantiser_scale in the version.
    pub to: u16,
    ghost from_range: { from ≤ 112 },
    ghost to_range: { (1 ≤ to) × (to ≤ 112) },
}

impl Rescaling {
    /// The same to another scale.
    #[inline]
    pub fn with_scale(self, to: u16) -> Rescaling
        requires { (1 ≤ to) × (to ≤ 112) }
        ensures alternate { result.alternate ≡ self.alternate }
        ensures intra { result.intra ≡ self.intra }
        ensures from { result.from ≡ self.from }
        ensures to { result.to ≡ to }
    {
        Rescaling {
            alternate: self.alternate,
            intra: self.intra,
            from: self.from,
            to,
        }
    }
}

/// A coefficient of the source.
#[derive(Clone, Copy)]
pub struct Coefficient {
    pub level: i16,
    pub weight: u8,
    /// Its place of the scan.
    pub at: u8,
    ghost weighted: { 0 < weight },
    ghost small: { unsigned_abs level < 2 ^ (LEVEL_BITS - 1) },
    ghost within: { at < 64 },
}

/// What a level becomes.
#[derive(Clone, Copy)]
pub struct Change {
    pub level: i16,
    /// The square of the difference of both coefficients.
    pub squared: u32,
}

/// What a level becomes at a place of this weight.
#[inline]
pub fn change_level(level: i16, weight: u8, rescaling: Rescaling) -> Change
    requires weighted { 0 < weight }
    requires small { unsigned_abs level < 2 ^ (LEVEL_BITS - 1) }
    ensures level { result.level ≡ coarser_level level weight rescaling.from rescaling.to rescaling.intra }
    ensures squared { result.squared ≡ level_change level weight rescaling.from rescaling.to rescaling.intra }
    ensures bound { result.squared ≤ 2 ^ 22 }
{
    let size = u32::from(level.unsigned_abs());
    if size == 0 {
        return Change {
            level: 0,
            squared: 0,
        };
    }
    let half = half(rescaling.intra);
    let coefficient = coefficient_size(level, size, weight, rescaling.from, half);
    let step = u32::from(weight) * u32::from(rescaling.to);
    let parts = LEVEL_PARTS * coefficient + rounding(rescaling.intra, step);
    if parts < step {
        return Change {
            level: 0,
            squared: square(coefficient),
        };
    }
    let kept = quotient(parts, step).min(size);
    let other = coefficient_size(level, kept, weight, rescaling.to, half);
    Change {
        level: with_sign(level, kept),
        squared: square(coefficient.abs_diff(other)),
    }
}

/// What the reconstruction adds to twice the size of a level that isn't 0 (ISO/IEC 13818-2, 7.4.2.3).
fn half(intra: bool) -> u32
    ensures value { result ≡ half_of intra }
    ensures bound { result ≤ 1 }
{
    if intra { 0 } else { 1 }
}

/// The size of the coefficient that a level of this size, which isn't 0, has with the sign of another one (ISO/IEC 13818-2,
/// 7.4.2.3 and 7.4.3).
fn coefficient_size(level: i16, size: u32, weight: u8, scale: u16, half: u32) -> u32
    requires size { size < 2 ^ (LEVEL_BITS - 1) }
    requires scale { scale ≤ 112 }
    requires half { half ≤ 1 }
    ensures value { result ≡ size_of size weight scale half (limit_of_sign level) }
    ensures bound { result ≤ MOST_BELOW }
{
    let parts = (2 * size + half) * u32::from(weight) * u32::from(scale);
    let whole = parts / COEFFICIENT_PARTS as u32;
    if whole <= MOST_ABOVE {
        whole
    } else {
        limit(level)
    }
}

/// The greatest size of a coefficient with the sign of a level.
#[cold]
fn limit(level: i16) -> u32
    ensures value { result ≡ limit_of_sign level }
    ensures bound { result ≤ MOST_BELOW }
{
    if level < 0 { MOST_BELOW } else { MOST_ABOVE }
}

/// What is added before the division by a step.
fn rounding(intra: bool, step: u32) -> u32
    ensures value { result ≡ rounding_of_step intra step }
    ensures bound { result ≤ step }
{
    if intra { step / 2 } else { 0 }
}

/// A quotient that is mostly 1.
fn quotient(parts: u32, step: u32) -> u32
    requires some { 0 < step }
    requires least { step ≤ parts }
    ensures { result ≡ parts / step }
{
    if parts - step < step { 1 } else { parts / step }
}

/// A size with the sign of a level.
fn with_sign(level: i16, size: u32) -> i16
    requires size { size ≤ unsigned_abs level }
    requires small { unsigned_abs level < 2 ^ (LEVEL_BITS - 1) }
    ensures { result ≡ int_signum level *ℤ pos size }
{
    let size = size as i16;
    if level < 0 { -size } else { size }
}

fn square(number: u32) -> u32
    requires { number ≤ MOST_BELOW }
    ensures value { result ≡ number * number }
    ensures bound { result ≤ 2 ^ 22 }
{
    number * number
}
