ghost use Rattle.std.specs.Prelude.{◌≡◌, ◌+◌, ◌*◌, ◌≤◌, ◌<◌, ◌^◌, ℕ, length};
ghost use Rattle.buffer_windows.specs.Charges.{charged_bytes as charge};
ghost use Rattle.buffer_windows.specs.Charged.{charged_for, in_packets};
ghost use Rattle.buffer_windows.specs.Private.Near.{IsNear};
ghost use Rattle.buffer_windows.specs.Private.Prices.{charged_by};
ghost use Rattle.buffer_windows.specs.declared.constants.TheConstants.{BUFFER_WINDOWS_MOST};
ghost use Rattle.buffer_windows.specs.Windows.{ArePriced, stop};
ghost use Rattle.dual_bounds.specs.declared.constants.TheConstants.{LAMBDA_MOST};

use crate::buffers::counts_buffer;
use crate::near::Near;
use crate::rooms::{beginning, latest, stop};
use crate::windows::BufferWindow;

/// How a window charges for a unit.
#[derive(Clone, Copy, Debug, PartialEq)]
pub enum Charged {
    /// Not at all.
    Nothing,
    /// For its bytes.
    Bytes,
    /// For the bytes of whole packets.
    Packets,
}

/// What the bytes of a unit are charged by some windows, in 1/47,104 of a distortion.
#[derive(Clone, Copy, Debug, Default, PartialEq)]
pub struct Prices {
    /// The price of a byte.
    pub bytes: u64,
    /// The price of a byte of whole packets.
    pub packets: u64,
}

/// What some windows charge for the bytes of a unit of the program of this number that is due then, where these of them are near.
pub(crate) fn near_prices(
    slot: u32,
    windows: &[BufferWindow],
    near: &Near,
    program: usize,
    due: u64,
) -> Prices
    requires slot { 1 ≤ slot }
    requires program { program < 8 }
    requires priced { ArePriced windows.now }
    requires near { IsNear slot windows.now near.now }
    ensures value { (bytes : ℕ) → charged_by slot windows.now program due bytes ≡ result.bytes * bytes + result.packets * in_packets bytes }
    ensures bytes { result.bytes ≤ BUFFER_WINDOWS_MOST * LAMBDA_MOST }
    ensures packets { result.packets ≤ BUFFER_WINDOWS_MOST * LAMBDA_MOST }
{
    if near.serves(due) {
        prices_of(slot, near.as_slice(), program, due)
    } else {
        prices_of(slot, windows, program, due)
    }
}

/// What some windows charge for the bytes of a unit of the program of this number that is due then.
fn prices_of(slot: u32, windows: &[BufferWindow], program: usize, due: u64) -> Prices
    requires slot { 1 ≤ slot }
    requires program { program < 8 }
    requires priced { ArePriced windows.now }
    ensures value { (bytes : ℕ) → charged_by slot windows.now program due bytes ≡ result.bytes * bytes + result.packets * in_packets bytes }
    ensures bytes { result.bytes ≤ length windows.now * LAMBDA_MOST }
    ensures packets { result.packets ≤ length windows.now * LAMBDA_MOST }
{
    let stops = stop(slot, due);
    let mut total = Prices {
        bytes: 0,
        packets: 0,
    };
    for window in windows {
        total = with_charge(
            total,
            window.lambda,
            charge_of(slot, window, program, due, stops),
        );
    }
    total
}

/// The prices with one more, for what is charged in this way.
fn with_charge(prices: Prices, lambda: u64, charged: Charged) -> Prices
    requires bytes { prices.bytes + lambda < 2 ^ 64 }
    requires packets { prices.packets + lambda < 2 ^ 64 }
    ensures value { (bytes : ℕ) → result.bytes * bytes + result.packets * in_packets bytes
        ≡ (prices.bytes * bytes + prices.packets * in_packets bytes) + lambda * charged_for charged bytes }
    ensures bytes { result.bytes ≤ prices.bytes + lambda }
    ensures packets { result.packets ≤ prices.packets + lambda }
{
    match charged {
        Charged::Nothing => prices,
        Charged::Bytes => Prices {
            bytes: prices.bytes + lambda,
            ..prices
        },
        Charged::Packets => Prices {
            packets: prices.packets + lambda,
            ..prices
        },
    }
}

/// How a window charges for a unit of the program of this number that is due then, where so many slots end in time for it.
pub fn charge_of(slot: u32, window: &BufferWindow, program: usize, due: u64, stops: u64) -> Charged
    requires program { program < 8 }
    requires stops { stops ≡ stop slot due }
    ensures { (bytes : ℕ) → charged_for result bytes ≡ charge slot window.now program due bytes }
{
    if window.due < due {
        Charged::Nothing
    } else if window.first == 0 || latest(slot, window) < due {
        if stops <= u64::from(window.tail) {
            Charged::Packets
        } else {
            Charged::Bytes
        }
    } else if counts_buffer(window, program) && beginning(slot, window) < due {
        Charged::Bytes
    } else {
        Charged::Nothing
    }
}
