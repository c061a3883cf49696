ghost use Rattle.std.specs.Prelude.{◌≡◌, ◌^◌, ◌≤◌};
ghost use Rattle.std.specs.List.{All};
ghost use Rattle.tstd_model.specs.Decoder.{removed};

use crate::decoder_input::Removal;
use crate::runs::{Run, Runs};
use std::marker::Model;
use stream_constants::clock::SUBTICKS_PER_TICK;

/// The instants at which removals take bytes, removal by removal.
#[derive(Drop)]
pub struct RemovalRuns<'a> {
    later: &'a [Removal],
}

impl<'a> Model for RemovalRuns<'a> {
    ghost use Rattle.std.specs.Prelude.{List, ℕ, ◌^◌, ◌≤◌};
    ghost use Rattle.std.specs.List.{All};
    ghost use Rattle.tstd_model.specs.Decoder.{removed};

    ghost Value = { List ℕ };

    ghost view = { λ r. removed r.later.now };

    ghost invariant = { λ r. All (λ removal. removal.due ≤ 2 ^ 53) r.later.now };
}

impl<'a> RemovalRuns<'a> {
    /// The bytes that these removals take.
    pub fn new(removals: &'a [Removal]) -> Self
        requires { All (λ removal. removal.due ≤ 2 ^ 53) removals.now }
        ensures { result ≡ removed removals.now }
    {
        RemovalRuns { later: removals }
    }
}

impl<'a> Runs for RemovalRuns<'a> {
    ghost left = { λ instants. instants };

    fn next_run(&mut self) -> Option<Run> {
        'removals: loop {
            let Some((removal, later)) = self.later.split_first() else {
                return None;
            };
            self.later = later;
            if removal.bytes > 0 {
                return Some(Run {
                    count: u64::from(removal.bytes),
                    at: SUBTICKS_PER_TICK * removal.due,
                });
            }
        }
    }
}
