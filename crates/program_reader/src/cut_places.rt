//! Where the units of a video stand.
ghost use Rattle.std.specs.Prelude.{◌≡◌, ◌≤◌, ◌+◌, ℕ, List, length, Some};
ghost use Rattle.es_units.specs.declared.units.Units.{Units};
ghost use Rattle.es_units.specs.Units.{cut_units};
ghost use Rattle.program_reader.specs.Private.KeptUnits.{Fits};

/// The units of a video stand one behind the other within it, and there is at most one for each byte and one more.
pub fn cut_places()
    ensures fit { (es : List ℕ) (units : Units) → cut_units es ≡ Some units → Fits (length es) 0 units.cuts }
    ensures few { (es : List ℕ) (units : Units) → cut_units es ≡ Some units → length units.cuts ≤ length es + 1 }
{}
