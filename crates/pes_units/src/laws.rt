//! Laws of the definitions, each the contract of a function that does nothing.

ghost use Rattle.std.specs.Prelude.{◌≡◌, ℕ, ℤ, List};
ghost use Rattle.std.specs.List.{flat_map};
ghost use Rattle.bit_lists.specs.Payload.{CarriedPayload};
ghost use Rattle.pes_units.specs.PesPackets.{Gathered, gathered, AreCuts};
ghost use Rattle.pes_units.specs.TimeAxis.{IsUnwrapped};

/// A value has one place on the axis.
pub fn one_unwrapped_time()
    ensures { (before : ℤ) (value : ℕ) (a b : ℤ) → IsUnwrapped before value a → IsUnwrapped before value b → a ≡ b }
{}

/// PES packets that are cut into payloads in any way, each with the start flag on its first one, are gathered again.
pub fn gathered_again()
    ensures { (packets : List Gathered) (cuts : List (List CarriedPayload)) → AreCuts packets cuts → gathered (flat_map (λ pieces. pieces) cuts) ≡ packets }
{}
