ghost use Rattle.std.specs.Prelude.{◌≡◌, ◌++◌, replicate};
ghost use Rattle.tstd_model.specs.Private.Keeps.{Passes};

use crate::removal_runs::RemovalRuns;
use crate::runs::{Passed, Run, pass};
use std::marker::Model;

/// Instants that are there at first, and behind them those at which removals take bytes.
#[derive(Drop)]
pub struct Taken<'a> {
    run: Run,
    later: RemovalRuns<'a>,
}

impl<'a> Model for Taken<'a> {
    ghost use Rattle.std.specs.Prelude.{List, ℕ, ◌++◌, replicate};

    ghost Value = { List ℕ };

    ghost view = { λ t. replicate t.run.count t.run.at ++ t.later };
}

impl<'a> Taken<'a> {
    /// So many bytes at once, and those that are removed.
    pub fn new(free: u64, removals: RemovalRuns<'a>) -> Self
        ensures { result ≡ replicate free 0 ++ removals.entry }
    {
        Taken {
            run: Run { count: free, at: 0 },
            later: removals,
        }
    }

    /// Passes the next so many.
    pub fn take(&mut self, count: u64) -> Passed
        ensures { Passes count result self.old self.new }
    {
        pass(&mut self.run, &mut self.later, count)
    }
}
