//! What becomes of a macroblock in a version in which its coefficients were counted, told by its head there.
ghost use Rattle.std.specs.Prelude.{◌≡◌, ◌<◌, ◌≤◌, ◌+◌, ◌^◌, ◌==◌, ◌&&◌, Bool, Option, true, false, if◌then◌else◌, unwrap_or};
ghost use Rattle.requantiser.specs.Macroblocks.{is_coded_without_motion as stands_without_motion};
ghost use Rattle.requantiser.specs.Levels.{HasWeights};
ghost use Rattle.syntax_types.specs.declared.macroblock.Macroblock.{Macroblock as MacroblockOf};
ghost use Rattle.syntax_types.specs.declared.picture.PicCoding.{PicCoding as CodingOf};
ghost use Rattle.syntax_types.specs.declared.picture.SeqState.{SeqState as SeqOf};
ghost use Rattle.requantiser.specs.declared.outline.Outline.TheVariants.{Coded};
ghost use Rattle.requantiser.specs.Tallies.{IsOutlined, IsTallyOf, has_stayed, told_by};
ghost use Rattle.requantiser.specs.declared.version_state.VersionState.{VersionState as StateOf};
ghost use Rattle.requantiser.specs.VersionState.{IsSpelledMacroblock, made_of};

use crate::head::Head;
use crate::macroblock::{is_coded_without_motion, written_pattern};
use crate::step::{coarsen_macroblock, code_in_force};
use crate::tally::Tally;
use crate::version_room::VersionRoom;
use crate::version_state::VersionState;
use syntax_types::{Kind, Macroblock, PictureParameters};

/// What becomes of a macroblock in a version in which its coefficients were counted.
#[derive(Clone, Copy)]
pub enum Outline {
    /// It is coded, with this head and the coefficients that were counted.
    Coded(Head),
    /// It is coded with one coefficient, which is kept, and was written whole.
    Kept,
    /// It is skipped.
    Skipped,
}

/// A macroblock in a version, and what was counted of it.
#[derive(Clone, Copy)]
pub struct Outlined {
    /// What it becomes.
    pub outline: Outline,
    /// The bits in which it is written beyond its outline.
    pub bits: u32,
    /// The sum of the squares of the differences of its coefficients.
    pub distortion: u64,
}

/// Says what becomes of a macroblock that some bits spell, where its coefficients were counted in the version. The state
/// goes on as with `coarsen_macroblock`. Only in the one case where a coefficient is kept, which takes as long as that,
/// the macroblock is written, into room that is lent.
pub fn outline_macroblock(
    picture: PictureParameters<'_>,
    inner: bool,
    tally: Tally,
    state: &mut VersionState,
    from: &Macroblock,
    to: &mut VersionRoom,
) -> Outlined
    requires weights { HasWeights picture.seq.now }
    requires spelled { IsSpelledMacroblock picture.coding.now from.now }
    requires room { state.old.skipped + from.now.skipped_before < u16.MAX }
    requires tally { IsTallyOf picture.seq.now picture.coding.now (unwrap_or from.now.code state.old.source_code) state.old.m from.now tally }
    ensures outlined { IsOutlined picture.entry.seq.now picture.entry.coding.now inner from.now state.old state.new result to.new.macroblock }
    ensures few { result.bits ≤ 2 ^ 15 }
    ensures small { result.distortion ≤ 2 ^ 41 }
{
    if is_emptied(from.kind, tally) {
        if inner {
            state.source_code = code_in_force(from.code, state.source_code);
            state.skipped = state.skipped + from.skipped_before + 1;
            return Outlined {
                outline: Outline::Skipped,
                bits: 0,
                distortion: tally.distortion,
            };
        }
        let made = coarsen_macroblock(picture, inner, state, from, to);
        return Outlined {
            outline: whole(made.coded),
            bits: 0,
            distortion: made.distortion,
        };
    }
    Outlined {
        outline: Outline::Coded(coded_head(tally, state, from)),
        bits: tally.bits,
        distortion: tally.distortion,
    }
}

/// The head of a macroblock that some bits spell in a version in which its coefficients were counted and it isn't emptied.
/// The state goes on as with `outline_macroblock`.
#[inline]
pub fn coded_head(tally: Tally, state: &mut VersionState, from: &Macroblock) -> Head
    requires spelled { (coding : CodingOf) × IsSpelledMacroblock coding from.now }
    requires room { state.old.skipped + from.now.skipped_before < u16.MAX }
    requires stays { (stands_without_motion from.now.kind && (tally.pattern == 0)) ≡ false }
    ensures { (seq : SeqOf) (coding : CodingOf) (inner : Bool) (lent : MacroblockOf) → IsSpelledMacroblock coding from.now
        → IsTallyOf seq coding (unwrap_or from.now.code state.old.source_code) state.old.m from.now tally
        → IsOutlined seq coding inner from.now state.old state.new (record { outline = Coded result; bits = tally.bits; distortion = tally.distortion }) lent }
{
    let skipped = state.skipped + from.skipped_before;
    let pattern = written_pattern(from.kind.intra, tally.pattern);
    let mapped = tally.target.code;
    let head = Head::new(
        from.kind.intra,
        mapped,
        state.version_code,
        skipped,
        pattern,
    );
    state.source_code = code_in_force(from.code, state.source_code);
    state.version_code = code_in_force(head.code, state.version_code);
    state.skipped = 0;
    head
}

/// A macroblock stays as it is in a version but for its coefficients: it has no code, none is skipped before it there, the code
/// in force there is the one that it quantises by, and it has coefficients left or motion.
#[inline]
pub fn stays(tally: &Tally, state: &VersionState, from: &Macroblock) -> bool
    ensures { result ≡ has_stayed tally.now state.now from.now }
{
    from.code.is_none()
        && state.skipped == 0
        && state.version_code == tally.target.code
        && !(is_coded_without_motion(from.kind) && tally.pattern == 0)
}

/// The head of a macroblock that some bits spell in a version in which its coefficients were counted and it stays as it is.
/// The state stays too.
#[inline]
pub fn stayed_head(tally: &Tally, from: &Macroblock) -> Head
    ensures value { result ≡ record { skipped_before = from.now.skipped_before; code = Option.None; pattern = (if from.now.kind.intra then 0 else tally.now.pattern) } }
    ensures outlined { (seq : SeqOf) (coding : CodingOf) (inner : Bool) (state : StateOf) (lent : MacroblockOf) → has_stayed tally.now state from.now ≡ true
        → IsSpelledMacroblock coding from.now → IsTallyOf seq coding (unwrap_or from.now.code state.source_code) state.m from.now tally.now
        → IsOutlined seq coding inner from.now state state (record { outline = Coded result; bits = tally.now.bits; distortion = tally.now.distortion }) lent }
{
    Head {
        skipped_before: from.skipped_before,
        code: None,
        pattern: written_pattern(from.kind.intra, tally.pattern),
    }
}

/// A macroblock of this type without motion has no coefficients left in a version in which they were counted.
#[inline]
pub fn is_emptied(kind: Kind, tally: Tally) -> bool
    ensures { result ≡ (stands_without_motion kind && (tally.pattern == 0)) }
{
    is_coded_without_motion(kind) && tally.pattern == 0
}

/// What became of a macroblock that was coarsened, if it is coded.
fn whole(coded: bool) -> Outline
    ensures { (coding : CodingOf) (from lent : MacroblockOf) → told_by coding from lent result ≡ made_of coded lent }
{
    if coded {
        Outline::Kept
    } else {
        Outline::Skipped
    }
}
