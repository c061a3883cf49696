ghost use Rattle.std.specs.Prelude.{◌≡◌, ◌+◌, ◌<◌, ◌≤◌, ◌^◌, ℕ, IfNone, IfSome, IsTrue, List, replicate, ◌++◌};
ghost use Rattle.tstd_model.specs.Private.Keeps.{EachAtLeast, GivesRun, Passes};
ghost use Rattle.tstd_model.specs.Private.Server.{EachAtMost};

/// So many bytes whose instants are this one, in subticks.
#[derive(Clone, Copy, Default)]
pub struct Run {
    pub count: u64,
    pub at: u64,
}

impl Run {
    /// This run, where it has a byte.
    pub fn some(self) -> Option<Run>
        ensures some { IfSome result (λ run. (run ≡ self) × (0 < self.count)) }
        ensures none { IfNone result (self.count ≡ 0) }
    {
        if self.count > 0 { Some(self) } else { None }
    }
}

/// Instants of bytes, given run by run.
pub trait Runs: Drop {
    ghost left: { Self → List ℕ };

    /// The next run, of a byte at least, or none where none is left.
    fn next_run(&mut self) -> Option<Run>
        ensures { GivesRun result (left self.old) (left self.new) };
}

/// Bytes that were passed: how many, and two instants of which none of theirs is before the first or behind the last.
#[derive(Clone, Copy)]
pub struct Passed {
    pub count: u64,
    pub first: u64,
    pub last: u64,
}

impl Passed {
    /// No byte.
    fn none() -> Self
        ensures { result.count ≡ 0 }
    {
        Passed {
            count: 0,
            first: u64::MAX,
            last: 0,
        }
    }

    /// Whether there is none.
    pub fn is_none(self) -> bool
        ensures { IsTrue result → self.count ≡ 0 }
    {
        self.count == 0
    }

    /// Whether they are so many, and none is behind an instant.
    pub fn are_by(self, count: u64, most: u64) -> bool
        ensures { IsTrue result → (self.count ≡ count) × (self.last ≤ most) }
    {
        self.count == count && self.last <= most
    }

    /// Whether each is behind an instant, where that is told.
    pub fn are_behind(self, most: Option<u64>) -> bool
        ensures told { IsTrue result → IfNone most ⊥ }
        ensures behind { IsTrue result → IfSome most (λ at. 0 < self.count → at < self.first) }
    {
        match most {
            Some(at) => self.count == 0 || at < self.first,
            None => false,
        }
    }

    /// These and so many more, of one instant.
    fn and(self, count: u64, at: u64) -> Self
        requires { self.count + count < 2 ^ 64 }
        ensures count { result.count ≡ self.count + count }
        ensures first { (taken : List ℕ) → EachAtLeast self.first taken → EachAtLeast result.first (taken ++ replicate count at) }
        ensures last { (taken : List ℕ) → EachAtMost self.last taken → EachAtMost result.last (taken ++ replicate count at) }
    {
        if count == 0 {
            return self;
        }
        Passed {
            count: self.count + count,
            first: self.first.min(at),
            last: self.last.max(at),
        }
    }
}

/// Passes the next so many bytes of a run and those behind it, or all of them where they are fewer.
pub fn pass<R: Runs>(run: &mut Run, runs: &mut R, count: u64) -> Passed
    ensures { Passes count result (replicate run.old.count run.old.at ++ R.left runs.old) (replicate run.new.count run.new.at ++ R.left runs.new) }
{
    let mut passed = Passed::none();
    'runs: loop {
        let wanted = count - passed.count;
        if wanted <= run.count {
            run.count -= wanted;
            return passed.and(wanted, run.at);
        }
        passed = passed.and(run.count, run.at);
        run.count = 0;
        let Some(next) = runs.next_run() else {
            return passed;
        };
        *run = next;
    }
}
