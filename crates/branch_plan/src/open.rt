ghost use Rattle.std.specs.Prelude.{◌≡◌, ◌≤◌, [], ◌∷◌, IfOk, OnOk, IfSome, IfNone, IsPermutation};
ghost use Rattle.std.specs.List.{AllByRecursion};
ghost use Rattle.std.specs.BinaryHeap.{heap_items};
ghost use Rattle.branch_plan.specs.Private.Growth.{IsOrdered};

use list_types::OutOfMemory;
use std::alloc::Global;
use std::cmp::Reverse;
use std::collections::BinaryHeap;

/// Leaves that may be branched, by bound and number, the least bound on top.
pub(crate) type OpenLeaves = BinaryHeap<Reverse<(u64, u32)>>;

/// No leaves.
pub(crate) fn no_leaves(alloc: Global) -> OpenLeaves
    ensures order { IsOrdered (heap_items result) }
    ensures none { heap_items result ≡ [] }
{
    BinaryHeap::new(alloc)
}

/// Adds a leaf.
pub(crate) fn add_leaf(leaves: &mut OpenLeaves, bound: u64, number: u32) -> Result<(), OutOfMemory>
    requires order { IsOrdered (heap_items leaves.old) }
    ensures order { OnOk result (IsOrdered (heap_items leaves.new)) }
    ensures more { OnOk result (IsPermutation (record { 0 = (bound, number) } ∷ heap_items leaves.old) (heap_items leaves.new)) }
{
    leaves.push(Reverse((bound, number)))?;
    Ok(())
}

/// Takes a leaf of least bound.
pub(crate) fn take_least(leaves: &mut OpenLeaves) -> Option<Reverse<(u64, u32)>>
    requires order { IsOrdered (heap_items leaves.old) }
    ensures order { IsOrdered (heap_items leaves.new) }
    ensures taken { IfSome result (λ top. IsPermutation (heap_items leaves.old) (top ∷ heap_items leaves.new)) }
    ensures least { IfSome result (λ top. AllByRecursion (λ other. top.0.0 ≤ other.0.0) (heap_items leaves.new)) }
    ensures none { IfNone result (heap_items leaves.old ≡ []) }
{
    leaves.pop()
}
