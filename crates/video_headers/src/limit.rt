ghost use Rattle.std.specs.Prelude.{◌≡◌};
ghost use Rattle.video_headers.specs.Private.Limits.{first_broken};

use crate::why::Why;

/// The least and the greatest number that may stand in a field, and the kind of refusal of the others.
#[derive(Clone, Copy)]
pub struct Limit {
    pub least: u32,
    pub most: u32,
    pub otherwise: Why,
}

/// Why no number from a least to a greatest one keeps all limits, by the first limit at which none is left.
pub fn first_broken(least: u32, most: u32, limits: &[Limit]) -> Option<Why>
    ensures { result ≡ first_broken least most limits.now }
{
    let mut low = least;
    let mut high = most;
    for limit in limits {
        low = low.max(limit.least);
        high = high.min(limit.most);
        if high < low {
            return Some(limit.otherwise);
        }
    }
    None
}
