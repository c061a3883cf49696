//! Where the search for a lambda looks next.

ghost use Rattle.std.specs.Prelude.{◌<◌, ◌≤◌};

/// Above all values: the line through the value at the greatest lambda isn't known yet.
const FAR_ABOVE: i128 = 1 << 120;
/// Every so many tries the middle is taken.
const TRIES_BEFORE_MIDDLE: u32 = 4;
/// How far from the lambda that is tried first the third try is.
const FIRST_STRIDE: u64 = 64;
/// How much farther each later one is, until values rise on one side of the peak and fall on the other.
const STRIDES: u64 = 8;

/// Two lines that values are below: one through the value at the least lambda that is left, one through the value at the greatest.
#[derive(Clone, Copy)]
pub struct Lines {
    /// The value at the least lambda.
    lower: i128,
    /// How much values rise from there on for each lambda, at most; 0 where it isn't known yet.
    rise: i128,
    /// The value at the greatest lambda.
    upper: i128,
    /// How much values rise from there down for each lambda, at most.
    fall: i128,
    /// How often was looked.
    tries: u32,
    /// The lambda that is tried first.
    near: u64,
    /// How far from an end is looked while the other isn't known yet.
    stride: u64,
}

impl Lines {
    /// Before the first look: this lambda is tried first, then the one beside it, and then farther and farther ones.
    pub fn near(near: u64) -> Lines {
        Lines {
            lower: 0,
            rise: 0,
            upper: FAR_ABOVE,
            fall: 0,
            tries: 0,
            near,
            stride: FIRST_STRIDE,
        }
    }

    /// Where values rise from one lambda to the next, which is the least that is left.
    pub fn behind_rise(self, value: i128, next: i128) -> Lines {
        Lines {
            lower: next,
            rise: next.wrapping_sub(value),
            ..self.once_more()
        }
    }

    /// Where values don't rise from a lambda, the greatest that is left, to the next.
    pub fn before_fall(self, value: i128, next: i128) -> Lines {
        Lines {
            upper: value,
            fall: value.wrapping_sub(next),
            ..self.once_more()
        }
    }

    /// One look more.
    fn once_more(self) -> Lines {
        let stride = if self.tries < 2 { 1 } else { STRIDES };
        Lines {
            tries: self.tries.wrapping_add(1),
            stride: self.stride.saturating_mul(stride),
            ..self
        }
    }

    /// The lambda to be tried, from the least on and below the greatest. The search ends whichever it is.
    pub fn next_try(self, least: u64, greatest: u64) -> u64
        requires { least < greatest }
        ensures least { least ≤ result }
        ensures greatest { result < greatest }
    {
        let last = greatest - 1;
        if self.tries == 0 {
            return self.near.clamp(least, last);
        }
        if self.rise == 0 {
            return last.saturating_sub(self.behind_last()).max(least);
        }
        if self.upper == FAR_ABOVE {
            return least.saturating_add(self.behind_last()).min(last);
        }
        let width = greatest - least;
        if self.tries % TRIES_BEFORE_MIDDLE == TRIES_BEFORE_MIDDLE - 1 {
            return least + width / 2;
        }
        least + self.meeting(width).min(width - 1)
    }

    /// How far from an end is looked while the other isn't known: beside it first.
    fn behind_last(self) -> u64 {
        if self.tries == 1 { 0 } else { self.stride }
    }

    /// How far behind the least lambda the lines meet.
    fn meeting(self, width: u64) -> u64 {
        let above = self
            .upper
            .wrapping_sub(self.lower)
            .wrapping_add(self.fall.wrapping_mul(i128::from(width)));
        let steepness = self.rise.wrapping_add(self.fall).max(1);
        within(above / steepness, width)
    }
}

/// A place, but at least 0 and at most the width.
fn within(place: i128, width: u64) -> u64 {
    u64::try_from(place.clamp(0, i128::from(width))).unwrap_or(0)
}
