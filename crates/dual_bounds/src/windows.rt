ghost use Rattle.std.specs.Prelude.{◌≡◌, ◌≤◌, length};
ghost use Rattle.dual_bounds.specs.declared.constants.TheConstants.{WINDOWS_MOST};

use crate::constants::WINDOWS_MOST;
use arrayvec::ArrayVec;

/// A price on each packet that is due by a time: a window from time 0 on.
#[derive(Clone, Copy, Debug, Default, PartialEq)]
pub struct Multiplier {
    /// The time, in ticks.
    pub due: u64,
    /// The price of a packet, in 1/256 of a distortion.
    pub lambda: u64,
}

/// A price on each packet that is due in a window of time.
#[derive(Clone, Copy, Debug, Default, PartialEq)]
pub struct Window {
    /// The first due time in the window, in ticks.
    pub from: u64,
    /// The last due time in the window, in ticks.
    pub due: u64,
    /// The price of a packet, in 1/256 of a distortion.
    pub lambda: u64,
}

/// The multipliers of one bound.
pub type Multipliers = ArrayVec<Multiplier, WINDOWS_MOST>;

/// The windows of one bound.
pub type Windows = ArrayVec<Window, WINDOWS_MOST>;

/// The same windows.
pub fn copied(windows: &[Window]) -> Windows
    requires { length windows.now ≤ WINDOWS_MOST }
    ensures { result.items ≡ windows.now }
{
    let mut copy = Windows::new();
    for window in windows {
        copy.push(*window);
    }
    copy
}
