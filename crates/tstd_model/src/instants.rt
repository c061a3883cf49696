ghost use Rattle.std.specs.Prelude.{ℕ, List};
ghost use Rattle.tstd_model.specs.Private.Cursors.{Gives};

/// Instants that are made one after the other, in subticks.
pub trait Instants: Drop {
    ghost left: { Self → List ℕ };

    /// The next instant.
    fn next(&mut self) -> Option<u64>
        ensures { Gives result (left self.old) (left self.new) };
}
