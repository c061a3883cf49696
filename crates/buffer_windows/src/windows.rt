ghost use Rattle.std.specs.Prelude.{◌≡◌, ◌<◌, ◌≤◌, [], ◌∷◌, ◌++◌, length, IfOk, OnOk, OnErr};
ghost use Rattle.buffer_windows.specs.declared.constants.TheConstants.{BUFFER_WINDOWS_MOST};

use list_types::{ListOf, OutOfMemory};
use std::alloc::Global;
use std::marker::Model;

/// A price on each byte that is due by a time and must go from a slot on or be held by the decoder's buffers.
#[derive(Clone, Copy, Debug, Default, PartialEq)]
pub struct BufferWindow {
    /// The first slot of the window.
    pub first: u32,
    /// The last due time in the window, in ticks.
    pub due: u64,
    /// The programs whose elementary buffers are counted: bit k, of which 0 is the lowest, for program k of the table.
    pub programs: u8,
    /// The slot up to which packets are charged for slots, and behind which bytes are charged for what MB can still give.
    pub tail: u32,
    /// The price of a byte, in 1/47,104 of a distortion.
    pub lambda: u64,
}

/// The windows of one bound, up to `BUFFER_WINDOWS_MOST`, on the heap. Contracts see them as a list.
#[derive(Drop)]
pub struct BufferWindows {
    items: ListOf<BufferWindow>,
}

impl Model for BufferWindows {
    ghost use Rattle.std.specs.Prelude.{List, length, ◌≤◌};
    ghost use Rattle.buffer_windows.specs.declared.constants.TheConstants.{BUFFER_WINDOWS_MOST};
    ghost use Rattle.buffer_windows.specs.declared.windows.BufferWindow.{BufferWindow};

    ghost Value = { List BufferWindow };

    ghost view = { λ a. a.items };

    ghost invariant = { λ a. length a.items ≤ BUFFER_WINDOWS_MOST };
}

impl BufferWindows {
    /// No windows. It takes no memory until the first `push`.
    pub fn new(alloc: Global) -> Self
        ensures { result ≡ [] }
    {
        BufferWindows {
            items: ListOf::new(alloc),
        }
    }

    /// The windows in order.
    pub fn as_slice(&self) -> &[BufferWindow]
        ensures value { result.now ≡ self.now }
        ensures few { length result.now ≤ BUFFER_WINDOWS_MOST }
    {
        self.items.as_slice()
    }

    /// These windows in a list of their own, which has room for no more. Fails only for want of memory.
    pub fn copied(alloc: Global, windows: &[BufferWindow]) -> Result<BufferWindows, OutOfMemory>
        requires { length windows.now ≤ BUFFER_WINDOWS_MOST }
        ensures { IfOk result (λ copy. copy ≡ windows.now) }
    {
        let mut items = Vec::with_capacity(alloc, windows.len())?;
        items.extend_from_slice(windows)?;
        Ok(BufferWindows {
            items: ListOf::from_vec(items),
        })
    }

    /// Adds a window at the end, for which there is a place. A refused push leaves the windows as they were.
    pub fn push(&mut self, window: BufferWindow) -> Result<(), OutOfMemory>
        requires { length self.old < BUFFER_WINDOWS_MOST }
        ensures ok { OnOk result (self.new ≡ self.old ++ window ∷ []) }
        ensures err { OnErr result (self.new ≡ self.old) }
    {
        self.items.push(window)
    }
}
