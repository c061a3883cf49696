ghost use Rattle.std.specs.Prelude.{◌≡◌, ◌≤◌, length, IfOk};
ghost use Rattle.dual_bounds.specs.declared.constants.TheConstants.{WINDOWS_MOST};

use dual_bounds::Window;
use list_types::{ListOf, OutOfMemory};
use std::alloc::Global;
use std::marker::Model;

/// The multipliers or the windows of one node, up to `WINDOWS_MOST`, on the heap, so that a node itself is small. Contracts see
/// them as those of one bound.
#[derive(Drop)]
pub struct Priced<T> {
    items: ListOf<T>,
}

impl<T> Model for Priced<T> {
    ghost use Rattle.std.specs.Prelude.{length, ◌≤◌};
    ghost use Rattle.arrayvec.specs.ArrayVec.{ArrayVec};
    ghost use Rattle.dual_bounds.specs.declared.constants.TheConstants.{WINDOWS_MOST};

    ghost Value = { ArrayVec T };

    ghost view = { λ a. record { items = a.items } };

    ghost invariant = { λ a. length a.items ≤ WINDOWS_MOST };
}

impl<T> Priced<T> {
    /// The items of a list, in order, without taking memory.
    pub fn from_list(items: ListOf<T>) -> Self
        requires { length items ≤ WINDOWS_MOST }
        ensures { result ≡ record { items = items } }
    {
        Priced { items }
    }

    /// The items in order.
    pub fn as_slice(&self) -> &[T]
        ensures value { result.now ≡ self.now.items }
        ensures few { length result.now ≤ WINDOWS_MOST }
    {
        self.items.as_slice()
    }
}

/// These windows in a list of their own, which has no room for more. Fails only for want of memory.
pub fn priced_windows(alloc: Global, windows: &[Window]) -> Result<Priced<Window>, OutOfMemory>
    requires { length windows.now ≤ WINDOWS_MOST }
    ensures { IfOk result (λ priced. priced ≡ record { items = windows.now }) }
{
    let copy = windows.to_vec(alloc)?;
    Ok(Priced::from_list(ListOf::from_vec(copy)))
}
