ghost use Rattle.std.specs.Prelude.{◌≡◌, ◌↔◌, IsTrue, Contains};
ghost use Rattle.shelf_io.specs.Counts.{one_more};

/// Calls that are numbered from 1, of which some are to fail.
#[derive(Drop)]
pub struct NumberedCalls {
    pub count: u64,
    pub failing: Vec<u64>,
}

impl NumberedCalls {
    /// Counts a call, and says whether it is one of those that fail.
    pub fn next_fails(&mut self) -> bool
        ensures fails { IsTrue result ↔ Contains self.old.failing.items (one_more self.old.count) }
        ensures counted { self.new.count ≡ one_more self.old.count }
        ensures kept { self.new.failing.items ≡ self.old.failing.items }
    {
        self.count = self.count.saturating_add(1);
        self.failing.contains(&self.count)
    }
}
