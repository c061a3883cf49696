//! Laws of the definitions, each the contract of a function that does nothing.

ghost use Rattle.std.specs.Prelude.{◌≡◌, ◌<◌, ◌==◌, ℕ, Bool, count_by};
ghost use Rattle.quant_math.specs.Scales.{IsMappedCode};
ghost use Rattle.quant_math.specs.Scans.{scan_order};

/// Each scan comes to each raster index once.
pub fn scans_are_permutations()
    ensures { (alternate : Bool) (index : ℕ) → index < 64 → count_by (λ x. x == index) (scan_order alternate) ≡ 1 }
{}

/// A code is mapped to one code.
pub fn one_mapped_code()
    ensures { (q_scale_type : Bool) (code m a b : ℕ) → IsMappedCode q_scale_type code m a → IsMappedCode q_scale_type code m b → a ≡ b }
{}
