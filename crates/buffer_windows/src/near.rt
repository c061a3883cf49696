ghost use Rattle.std.specs.Prelude.{◌≡◌, ℕ, ◌≤◌, true, false};
ghost use Rattle.buffer_windows.specs.Charges.{charged_bytes as charge};
ghost use Rattle.buffer_windows.specs.Private.Near.{IsNear};
ghost use Rattle.buffer_windows.specs.Windows.{ArePriced};

use crate::constants::{NEAR_TICKS, NEAR_WINDOWS_MOST};
use crate::rooms::{beginning, latest};
use crate::windows::BufferWindow;
use arrayvec::ArrayVec;

/// Those of some windows that can charge for what is due in a stretch of time, where they are few: over hours there are hundreds,
/// of which a unit meets some three.
#[derive(Drop)]
pub(crate) struct Near {
    /// The stretch's first due time, in ticks: behind its last where it has none.
    from: u64,
    /// The stretch's last due time, in ticks.
    upto: u64,
    /// The windows.
    windows: ArrayVec<BufferWindow, NEAR_WINDOWS_MOST>,
}

impl Near {
    /// The windows of a stretch without due times.
    pub(crate) fn nowhere(slot: u32, windows: &[BufferWindow]) -> Near
        ensures { IsNear slot windows.now result }
    {
        Near {
            from: 1,
            upto: 0,
            windows: ArrayVec::new(),
        }
    }

    /// Whether the stretch has this due time.
    pub(crate) fn serves(&self, due: u64) -> bool
        ensures from { result ≡ true → self.now.from ≤ due }
        ensures upto { result ≡ true → due ≤ self.now.upto }
    {
        self.from <= due && due <= self.upto
    }

    /// The windows.
    pub(crate) fn as_slice(&self) -> &[BufferWindow]
        ensures { result.now ≡ self.now.windows.items }
    {
        self.windows.as_slice()
    }

    /// Goes on to a stretch that begins with this due time, where this one doesn't have it.
    pub(crate) fn go_to(&mut self, slot: u32, windows: &[BufferWindow], due: u64)
        requires priced { ArePriced windows.now }
        requires near { IsNear slot windows.now self.old }
        ensures { IsNear slot windows.now self.new }
    {
        if !self.serves(due) {
            *self = Near::around(slot, windows, due);
        }
    }

    /// The windows of the stretch that begins with this due time; of none where they are too many.
    fn around(slot: u32, windows: &[BufferWindow], due: u64) -> Near
        requires { ArePriced windows.now }
        ensures { IsNear slot windows.now result }
    {
        let upto = due.saturating_add(NEAR_TICKS);
        let mut near = ArrayVec::new();
        for window in windows {
            if touches(slot, window, due, upto) {
                let Ok(()) = near.try_push(*window) else {
                    return Near::nowhere(slot, windows);
                };
            }
        }
        Near {
            from: due,
            upto,
            windows: near,
        }
    }
}

/// Whether a window can charge for what is due in a stretch of time.
fn touches(slot: u32, window: &BufferWindow, from: u64, upto: u64) -> bool
    ensures { result ≡ false → (program due bytes : ℕ) → from ≤ due → due ≤ upto → charge slot window.now program due bytes ≡ 0 }
{
    if window.due < from {
        false
    } else {
        window.first == 0 || beginning(slot, window).min(latest(slot, window)) < upto
    }
}
