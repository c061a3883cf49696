//! Units of a video stream, joined and cut again.

ghost use Rattle.std.specs.Prelude.{◌≡◌, ℕ, List, map, All, Some, slice_range};
ghost use Rattle.std.specs.List.{concat};
ghost use Rattle.es_units.specs.Units.{cut_units};
ghost use Rattle.layer_laws.specs.WholeUnits.{IsLedBySequence, IsWholeUnit, placed_units};

/// Units that are joined are cut into these units again, from the first byte on, and none is dropped: the first one begins
/// with a sequence header, and each is whole by its own bytes.
pub fn units_cut_again()
    ensures cut { (units : List (List ℕ)) → IsLedBySequence units → All IsWholeUnit units →
        cut_units (concat units) ≡ Some (record { dropped = 0; cuts = placed_units 0 units }) }
    // The bytes at these places are the units.
    ensures bytes { (units : List (List ℕ)) → map (λ place. slice_range (concat units) place.0 place.1) (placed_units 0 units) ≡ units }
{}
