ghost use Rattle.std.specs.Prelude.{◌≡◌, ◌↔◌, IsTrue};
ghost use Rattle.tstd_model.specs.Private.Walks.{NotAfter, IsEarliest, earlier};

use crate::fault::TstdFault;
use crate::removed_bytes::RemovedByte;

/// Whether an instant is at most another one, where that is there.
fn not_after(at: u64, other: Option<u64>) -> bool
    ensures { IsTrue result ↔ NotAfter at other }
{
    match other {
        Some(other) => at <= other,
        None => true,
    }
}

/// The smaller of two instants that may be there.
pub fn earlier(first: Option<u64>, second: Option<u64>) -> Option<u64>
    ensures { result ≡ earlier first second }
{
    match (first, second) {
        (Some(first), Some(second)) => Some(first.min(second)),
        (Some(first), None) => Some(first),
        (None, second) => second,
    }
}

/// What is said first of a byte that isn't found, an instant of excess and an instant past the limit.
pub fn earliest(late: Option<RemovedByte>, over: Option<u64>, old: Option<u64>) -> Option<TstdFault>
    ensures { IsEarliest late over old result }
{
    if let Some(byte) = late {
        if not_after(byte.at, over) && not_after(byte.at, old) {
            return Some(TstdFault::Late {
                removal: byte.removal,
            });
        }
    }
    if let Some(at) = over {
        if not_after(at, old) {
            return Some(TstdFault::Overflow { at });
        }
    }
    match old {
        Some(at) => Some(TstdFault::Old { at }),
        None => None,
    }
}
