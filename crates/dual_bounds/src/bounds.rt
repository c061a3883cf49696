ghost use Rattle.std.specs.Prelude.{◌≡◌};
ghost use Rattle.dual_bounds.specs.Bounds.{bound_of_value};

use crate::constants::DISTORTION_PARTS;

/// The bound that a value gives, as a distortion: the value over its 256 parts, rounded up, and 0 where it is negative.
pub fn bound_of(value: i128) -> u128
    ensures { result ≡ bound_of_value value }
{
    if value < 0 {
        0
    } else {
        (value as u128).div_ceil(u128::from(DISTORTION_PARTS))
    }
}
