ghost use Rattle.std.specs.Prelude.{◌≡◌, ◌<◌};
ghost use Rattle.program_maker.specs.Draws.{state_after, pick};

/// The multiplier of Knuth's MMIX.
const MULTIPLIER: u64 = 6_364_136_223_846_793_005;

/// The increment of Knuth's MMIX.
const INCREMENT: u64 = 1_442_695_040_888_963_407;

/// The draws behind a state: a linear congruential generator of 64 bits, of which each draw gives the upper 32.
#[derive(Clone, Copy)]
pub struct Draws {
    state: u64,
}

impl Draws {
    /// The draws behind a seed.
    pub fn new(seed: u64) -> Self
        ensures { result.state ≡ seed }
    {
        Draws { state: seed }
    }

    /// A number below n, by one draw.
    #[inline]
    #[tactic(auto, unfolding(crate::specs::Draws::pick))]
    pub fn pick(&mut self, n: u32) -> u32
        requires { 0 < n }
        ensures number { result ≡ (pick n self.old.state).0 }
        ensures state { self.new.state ≡ (pick n self.old.state).1 }
        ensures below { result < n }
    {
        self.state = next_state(self.state);
        (self.state >> 32) as u32 % n
    }
}

/// The state that a draw leaves.
#[inline]
#[tactic(auto, unfolding(crate::specs::Draws::state_after))]
fn next_state(state: u64) -> u64
    ensures { result ≡ state_after state }
{
    state.wrapping_mul(MULTIPLIER).wrapping_add(INCREMENT)
}
