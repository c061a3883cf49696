ghost use Rattle.std.specs.Prelude.{◌≡◌, ◌<◌, ◌≤◌, ◌-◌, ◌%◌, ◌^◌};
ghost use Rattle.prefix_codes.specs.declared.lookup.TheConstants.{WINDOW_BITS};

/// What is seen of the bits that are left: the first ones, at the top of a number of `WINDOW_BITS` bits.
#[derive(Clone, Copy)]
pub struct BitWindow {
    pub bits: u32,
    /// How many bits are seen: fewer than `WINDOW_BITS` only where no more are left.
    pub known: u32,
    ghost within: { known ≤ WINDOW_BITS },
    ghost below: { bits < 2 ^ WINDOW_BITS },
    /// Past the known bits stand zeros.
    ghost filled: { bits % 2 ^ (WINDOW_BITS - known) ≡ 0 },
}
