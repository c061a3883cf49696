use crate::priced::Priced;
use buffer_windows::BufferWindows;
use dual_bounds::{Multiplier, Window};
use list_types::ListOf;
use version_table::Choice;

/// A node of the tree that shows a bound.
#[derive(Drop)]
pub enum Node {
    /// A coded picture, numbered from 0 over all programs in order. In each of its children, one for each of its versions in
    /// order, it is fixed to that version.
    Branch { unit: u32 },
    /// The bound of these multipliers.
    Dual { with: Priced<Multiplier> },
    /// All pictures that have a choice are fixed, and the slot rule schedules that choice or doesn't.
    Run { scheduled: bool },
    /// The bound without multipliers.
    Open,
    /// The bound of these windows.
    Window { with: Priced<Window> },
    /// The bound of these windows that see the buffers.
    BufferWindow { with: BufferWindows },
}

/// A plan and the tree that bounds the distortion of every other one.
#[derive(Drop)]
pub struct Cert {
    /// The version of the format, 1 to 3: multipliers stand in 1 alone, windows in 2 and 3, those that see the buffers in 3 alone.
    pub version: u8,
    /// No choice that the slot rule schedules has less distortion.
    pub bound: u64,
    /// The distortion of the choice.
    pub distortion: u64,
    /// The version that is sent of each coded picture.
    pub choice: Choice,
    /// The nodes of the tree, each before its children.
    pub nodes: ListOf<Node>,
}
