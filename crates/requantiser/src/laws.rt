//! What holds of all versions.
ghost use Rattle.std.specs.Prelude.{◌≡◌, ◌+◌, ◌==◌, ◌&&◌, ℕ, not, Option, List, [], ◌∷◌, ◌++◌, length};
ghost use Rattle.std.specs.List.{sum_by};
ghost use Rattle.syntax_types.specs.declared.picture.PicCoding.{PicCoding};
ghost use Rattle.syntax_types.specs.declared.picture.Picture.{Picture};
ghost use Rattle.syntax_types.specs.declared.picture.SeqState.{SeqState};
ghost use Rattle.syntax_types.specs.declared.slice.Slice.{Slice};
ghost use Rattle.picture_grammar.specs.Picture.{IsCovered, IsLawful, MayPrecede, SpellsPicture};
ghost use Rattle.requantiser.specs.declared.version_state.VersionState.{VersionState};
ghost use Rattle.requantiser.specs.Distortion.{distortion_between};
ghost use Rattle.requantiser.specs.Slices.{IsCoarserSlice};
ghost use Rattle.requantiser.specs.Steps.{AreSteps, IsStep, MakeSlice, MakeSlices, Step, distortion_of, state_behind};
ghost use Rattle.requantiser.specs.Version.{IsLawfulBehind, IsVersion};

/// Each lawful picture has a version at each ratio.
pub fn some_version()
    ensures { (m : ℕ) (from : Picture) → IsLawful from → (to : Picture) × IsVersion m from to }
{}

/// A picture has no two versions at the same ratio.
pub fn one_version()
    ensures { (m : ℕ) (from a b : Picture) → IsVersion m from a → IsVersion m from b → a ≡ b }
{}

/// The version of a lawful picture is lawful.
pub fn version_is_lawful()
    ensures { (m : ℕ) (from to : Picture) → IsLawful from → IsVersion m from to → IsLawful to }
{}

/// The version of a picture is lawful behind each state that the picture is lawful behind, so a stream of versions is read
/// unit by unit as its source is.
pub fn version_is_lawful_behind()
    ensures { (m : ℕ) (before : Option SeqState) (from to : Picture) (bytes : List ℕ) → MayPrecede before → SpellsPicture before from bytes → IsCovered from
        → IsVersion m from to → IsLawfulBehind before to }
{}

/// A step from the state behind others is one more of them: so a loop that calls `coarsen_macroblock` for one macroblock after
/// another takes steps in order.
pub fn one_more_step()
    ensures { (seq : SeqState) (coding : PicCoding) (count : ℕ) (before : VersionState) (steps : List Step) (step : Step) → AreSteps seq coding count 0 before steps
        → IsStep seq coding (not (length steps == 0) && not (length steps + 1 == count)) (state_behind before steps) step
        → AreSteps seq coding count 0 before (steps ++ step ∷ []) }
{}

/// Steps over all macroblocks of a slice in order make the slice of the version.
pub fn steps_make_the_slice()
    ensures { (seq : SeqState) (coding : PicCoding) (m : ℕ) (from to : Slice) (steps : List Step) → MakeSlice seq coding m from to steps → IsCoarserSlice seq coding m from to }
{}

/// The distortions of the steps over all slices of a lawful picture add up to the distortion of its version.
pub fn steps_add_up()
    ensures { (m : ℕ) (from to : Picture) (steps : List (List Step)) → IsLawful from → IsVersion m from to
        → MakeSlices from.seq from.coding m from.slices to.slices steps → sum_by distortion_of steps ≡ distortion_between from to }
{}
