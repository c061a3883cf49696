ghost use Rattle.std.specs.Prelude.{◌≤◌};
ghost use Rattle.quant_math.specs.Scales.{IsCode};

/// The quantiser_scale_codes of a macroblock: the one in force in the source, and the one that it is mapped to.
#[derive(Clone, Copy)]
pub struct Codes {
    pub in_force: u8,
    pub mapped: u8,
    ghost source: { IsCode in_force },
    ghost coarser: { IsCode mapped },
}

/// What a version quantises by.
#[derive(Clone, Copy)]
pub struct Target {
    /// The quantiser_scale_code that the one in force is mapped to.
    pub code: u8,
    /// Its quantiser_scale, at most 112.
    pub scale: u8,
    ghost is_code: { IsCode code },
    ghost range: { (1 ≤ scale) × (scale ≤ 112) },
}
