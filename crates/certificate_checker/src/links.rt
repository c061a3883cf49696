ghost use Rattle.std.specs.Prelude.{◌≡◌, ℕ, ◌+◌, ◌-◌, ◌<◌, ◌≤◌, length, slice_index, slice_set, IfOk, vec_capacity};
ghost use Rattle.certificate_checker.specs.Private.Neighbours.{HasLinkRoom, IsRow, KeepsLinkRoom};

use list_types::OutOfMemory;
use std::alloc::Global;

/// Places in a row, of which some are taken out. They count from 1, between two ends that are never taken out.
#[derive(Drop)]
pub(crate) struct Links {
    /// The next place that isn't taken out, behind each of these.
    pub next: Vec<usize>,
    /// The last one before each of these.
    pub previous: Vec<usize>,
}

impl Links {
    /// Room for so many places. Fails only for want of memory.
    pub(crate) fn new(alloc: Global, most: usize) -> Result<Links, OutOfMemory>
        ensures { IfOk result (HasLinkRoom most) }
    {
        let Some(with_ends) = most.checked_add(2) else {
            return Err(OutOfMemory);
        };
        Ok(Links {
            next: Vec::with_capacity(alloc, with_ends)?,
            previous: Vec::with_capacity(alloc, with_ends)?,
        })
    }

    /// So many places, of which none is taken out.
    pub(crate) fn clear(&mut self, count: usize)
        requires { HasLinkRoom count self.old }
        ensures row { IsRow (count + 2) self.new }
        ensures room { KeepsLinkRoom self.old self.new }
    {
        self.next.clear();
        self.previous.clear();
        for at in 0..count + 2 {
            self.next.push_reserved(at + 1);
            self.previous.push_reserved(at.saturating_sub(1));
        }
    }

    /// Takes a place out from between its neighbours.
    pub(crate) fn take_out(&mut self, at: usize)
        requires next { at < length self.old.next.items }
        requires previous { at < length self.old.previous.items }
        requires before { slice_index self.old.previous.items at < length self.old.next.items }
        requires behind { slice_index self.old.next.items at < length self.old.previous.items }
        ensures next { self.new.next.items ≡ slice_set self.old.next.items (slice_index self.old.previous.items at) (slice_index self.old.next.items at) }
        ensures previous { self.new.previous.items ≡ slice_set self.old.previous.items (slice_index self.old.next.items at) (slice_index self.old.previous.items at) }
        ensures room { KeepsLinkRoom self.old self.new }
    {
        let before = self.previous[at];
        let behind = self.next[at];
        self.next[before] = behind;
        self.previous[behind] = before;
    }

    /// Puts a place back between the neighbours that it had.
    pub(crate) fn put_back(&mut self, at: usize)
        requires next { at < length self.old.next.items }
        requires previous { at < length self.old.previous.items }
        requires before { slice_index self.old.previous.items at < length self.old.next.items }
        requires behind { slice_index self.old.next.items at < length self.old.previous.items }
        ensures next { self.new.next.items ≡ slice_set self.old.next.items (slice_index self.old.previous.items at) at }
        ensures previous { self.new.previous.items ≡ slice_set self.old.previous.items (slice_index self.old.next.items at) at }
        ensures room { KeepsLinkRoom self.old self.new }
    {
        let before = self.previous[at];
        let behind = self.next[at];
        self.next[before] = at;
        self.previous[behind] = at;
    }
}
