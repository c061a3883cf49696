ghost use Rattle.std.specs.Prelude.{◌^◌, ◌<◌, pos, neg_ℤ, ◌≤ℤ◌};
ghost use Rattle.pes_units.specs.TimeAxis.{IsUnwrapped};

/// The times that a field of 33 bits can tell apart.
const CYCLE: i64 = 1 << 33;

/// The longest step forward.
const LONGEST_STEP: i64 = 1 << 32;

/// The time on the axis of the time before it, in units of 1/90,000 s: the one that is congruent to the value modulo
/// 2^33 and differs by -2^32 + 1 to 2^32 (ISO/IEC 13818-1, 2.4.3.7). The time before is within -2^54 to 2^54, and the
/// value below 2^33.
pub fn unwrap_time(before: i64, value: u64) -> i64
    requires low { neg_ℤ (pos (2 ^ 54)) ≤ℤ before }
    requires high { before ≤ℤ pos (2 ^ 54) }
    requires in_range { value < 2 ^ 33 }
    ensures { IsUnwrapped before value result }
{
    let ahead = (value as i64 - before).rem_euclid(CYCLE);
    if ahead > LONGEST_STEP {
        before + ahead - CYCLE
    } else {
        before + ahead
    }
}
