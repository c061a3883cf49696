ghost use Rattle.std.specs.Prelude.{◌≡◌, ◌<◌, ◌≤◌, ◌≤ℤ◌, pos, neg_ℤ, unsigned_abs};
ghost use Rattle.quant_math.specs.Levels.{coarser_level, coarser_size, coefficient_of, sign_term};

/// The least coefficient after saturation (ISO/IEC 13818-2, 7.4.3).
pub const LEAST_COEFFICIENT: i64 = -2048;

/// The greatest coefficient after saturation (ISO/IEC 13818-2, 7.4.3).
pub const GREATEST_COEFFICIENT: i64 = 2047;

/// The products of inverse quantisation count thirty-seconds of a coefficient (ISO/IEC 13818-2, 7.4.2.3).
pub const COEFFICIENT_PARTS: i64 = 32;

/// A level's coefficient counts sixteenths of its weight times its scale.
pub const LEVEL_PARTS: u32 = 16;

/// The coefficient of a level, but of the DC of an intra block: inverse quantisation by a matrix entry and a
/// quantiser_scale, truncated towards zero and held within -2048 to 2047 (ISO/IEC 13818-2, 7.4.2.3 and 7.4.3).
pub fn inverse(level: i16, weight: u8, scale: u16, intra: bool) -> i16
    ensures value { result ≡ coefficient_of level weight scale intra }
    ensures lower_bound { LEAST_COEFFICIENT ≤ℤ result }
    ensures upper_bound { result ≤ℤ GREATEST_COEFFICIENT }
{
    let level = i64::from(level);
    let product = (2 * level + sign_term(level, intra)) * i64::from(weight) * i64::from(scale);
    (product / COEFFICIENT_PARTS).clamp(LEAST_COEFFICIENT, GREATEST_COEFFICIENT) as i16
}

/// The level at the scale `scale_to` that stands for the coefficient of a level at the scale `scale_from`, for any
/// level but the DC of an intra block: the nearest for intra blocks, the next towards zero for others, never a greater
/// one. The matrix entry and the new scale aren't 0.
pub fn coarser_level(level: i16, weight: u8, scale_from: u16, scale_to: u16, intra: bool) -> i16
    requires weighted { 0 < weight }
    requires scaled { 0 < scale_to }
    ensures value { result ≡ coarser_level level weight scale_from scale_to intra }
    ensures no_greater { unsigned_abs result ≤ unsigned_abs level }
{
    let size = i32::from(coarser_size(level, weight, scale_from, scale_to, intra));
    if level < 0 { -size as i16 } else { size as i16 }
}

/// The size of the level at the scale `scale_to`.
fn coarser_size(level: i16, weight: u8, scale_from: u16, scale_to: u16, intra: bool) -> u16
    requires weighted { 0 < weight }
    requires scaled { 0 < scale_to }
    ensures value { result ≡ coarser_size level weight scale_from scale_to intra }
    ensures no_greater { result ≤ unsigned_abs level }
{
    let coefficient = u32::from(inverse(level, weight, scale_from, intra).unsigned_abs());
    let step = u32::from(weight) * u32::from(scale_to);
    let rounding = if intra { step / 2 } else { 0 };
    let size = (LEVEL_PARTS * coefficient + rounding) / step;
    size.min(u32::from(level.unsigned_abs())) as u16
}

/// What the reconstruction formula adds to twice the level.
fn sign_term(level: i64, intra: bool) -> i64
    ensures value { result ≡ sign_term level intra }
    ensures lower_bound { neg_ℤ (pos 1) ≤ℤ result }
    ensures upper_bound { result ≤ℤ pos 1 }
{
    if intra { 0 } else { level.signum() }
}
