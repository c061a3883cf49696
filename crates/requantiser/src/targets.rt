//! What the versions of a macroblock quantise by.
ghost use Rattle.std.specs.Prelude.{◌≡◌, ◌<◌, ◌≤◌, ℕ, IsTrue, length, slice_index};
ghost use Rattle.quant_math.specs.Scales.{IsCode, quantiser_scale};
ghost use Rattle.requantiser.specs.Private.Walk.{mapped_code};

use crate::codes::Target;
use crate::step::mapped;
use crate::tally::VERSIONS_AT_ONCE;
use quant_math::{LAST_CODE, scale};

/// What each version quantises by where one code is in force in the source.
#[derive(Clone, Copy)]
pub struct Targets {
    /// The quantiser_scale_codes that it is mapped to.
    pub codes: [u8; VERSIONS_AT_ONCE],
    /// Their quantiser_scales.
    pub scales: [u8; VERSIONS_AT_ONCE],
    ghost are_codes: { (k : ℕ) → k < 8 → IsCode (slice_index codes k) },
    ghost range: { (k : ℕ) → k < 8 → (1 ≤ slice_index scales k) × (slice_index scales k ≤ 112) },
}

impl Targets {
    /// One code and scale for all.
    pub fn of(target: Target) -> Targets {
        Targets {
            codes: [target.code; VERSIONS_AT_ONCE],
            scales: [target.scale; VERSIONS_AT_ONCE],
        }
    }
}

/// The targets of the code that was asked for last, with what they follow from.
#[derive(Clone, Copy)]
pub struct KeptTargets {
    q_scale_type: bool,
    code: u8,
    /// How many ratios there are.
    count: usize,
    ratios: [u16; VERSIONS_AT_ONCE],
    targets: Targets,
    ghost codes: { (k : ℕ) → k < count → slice_index targets.codes k ≡ mapped_code q_scale_type (slice_index ratios k) code },
    ghost scales: { (k : ℕ) → k < 8 → slice_index targets.scales k ≡ quantiser_scale q_scale_type (slice_index targets.codes k) },
}

impl KeptTargets {
    /// Those of no ratio.
    pub fn new() -> KeptTargets {
        KeptTargets::made(false, 1, &[])
    }

    /// What the version at each of these ratios quantises by where this code is in force, and the coarsest code for the others.
    #[inline]
    pub fn of(&mut self, q_scale_type: bool, code: u8, ratios: &[u16]) -> Targets
        requires code { IsCode code }
        requires few { length ratios.now ≤ VERSIONS_AT_ONCE }
        ensures codes { (k : ℕ) → k < length ratios.now → slice_index result.codes k ≡ mapped_code q_scale_type (slice_index ratios.now k) code }
        ensures scales { (k : ℕ) → k < 8 → slice_index result.scales k ≡ quantiser_scale q_scale_type (slice_index result.codes k) }
    {
        if self.is_of(q_scale_type, code, ratios) {
            return self.targets;
        }
        self.keep(q_scale_type, code, ratios)
    }

    /// The same of another code or other ratios, which are kept from now on.
    #[cold]
    fn keep(&mut self, q_scale_type: bool, code: u8, ratios: &[u16]) -> Targets
        requires code { IsCode code }
        requires few { length ratios.now ≤ VERSIONS_AT_ONCE }
        ensures codes { (k : ℕ) → k < length ratios.now → slice_index result.codes k ≡ mapped_code q_scale_type (slice_index ratios.now k) code }
        ensures scales { (k : ℕ) → k < 8 → slice_index result.scales k ≡ quantiser_scale q_scale_type (slice_index result.codes k) }
    {
        let made = KeptTargets::made(q_scale_type, code, ratios);
        *self = made;
        made.targets
    }

    /// The targets, with what they follow from.
    fn made(q_scale_type: bool, code: u8, ratios: &[u16]) -> KeptTargets
        requires code { IsCode code }
        requires few { length ratios.now ≤ VERSIONS_AT_ONCE }
        ensures q_scale_type { result.q_scale_type ≡ q_scale_type }
        ensures code { result.code ≡ code }
        ensures count { result.count ≡ length ratios.now }
        ensures ratios { (k : ℕ) → k < length ratios.now → slice_index result.ratios k ≡ slice_index ratios.now k }
    {
        KeptTargets {
            q_scale_type,
            code,
            count: ratios.len(),
            ratios: copied(ratios),
            targets: targets_of(q_scale_type, code, ratios),
        }
    }

    /// Whether they are those of this code and these ratios.
    #[inline]
    fn is_of(&self, q_scale_type: bool, code: u8, ratios: &[u16]) -> bool
        requires few { length ratios.now ≤ VERSIONS_AT_ONCE }
        ensures q_scale_type { IsTrue result → self.now.q_scale_type ≡ q_scale_type }
        ensures code { IsTrue result → self.now.code ≡ code }
        ensures count { IsTrue result → self.now.count ≡ length ratios.now }
        ensures ratios { IsTrue result → (k : ℕ) → k < length ratios.now → slice_index self.now.ratios k ≡ slice_index ratios.now k }
    {
        self.q_scale_type == q_scale_type
            && self.code == code
            && self.count == ratios.len()
            && begin_with(&self.ratios, ratios)
    }
}

/// Whether the first of some ratios are these.
#[inline]
fn begin_with(kept: &[u16; VERSIONS_AT_ONCE], ratios: &[u16]) -> bool
    requires { length ratios.now ≤ VERSIONS_AT_ONCE }
    ensures { IsTrue result → (k : ℕ) → k < length ratios.now → slice_index kept.now k ≡ slice_index ratios.now k }
{
    for k in 0..ratios.len() {
        if kept[k] != ratios[k] {
            return false;
        }
    }
    true
}

/// These ratios, and 0 behind them.
fn copied(ratios: &[u16]) -> [u16; VERSIONS_AT_ONCE]
    requires { length ratios.now ≤ VERSIONS_AT_ONCE }
    ensures { (k : ℕ) → k < length ratios.now → slice_index result k ≡ slice_index ratios.now k }
{
    let mut kept = [0; VERSIONS_AT_ONCE];
    for k in 0..ratios.len() {
        kept[k] = ratios[k];
    }
    kept
}

/// What the version at each of these ratios quantises by where this code is in force, and the coarsest code for the others.
fn targets_of(q_scale_type: bool, code: u8, ratios: &[u16]) -> Targets
    requires code { IsCode code }
    requires few { length ratios.now ≤ VERSIONS_AT_ONCE }
    ensures codes { (k : ℕ) → k < length ratios.now → slice_index result.codes k ≡ mapped_code q_scale_type (slice_index ratios.now k) code }
    ensures scales { (k : ℕ) → k < 8 → slice_index result.scales k ≡ quantiser_scale q_scale_type (slice_index result.codes k) }
{
    let coarsest = target_of(q_scale_type, LAST_CODE);
    let mut codes = [coarsest.code; VERSIONS_AT_ONCE];
    let mut scales = [coarsest.scale; VERSIONS_AT_ONCE];
    for k in 0..ratios.len() {
        let target = target_of(q_scale_type, mapped(q_scale_type, ratios[k], code));
        codes[k] = target.code;
        scales[k] = target.scale;
    }
    Targets { codes, scales }
}

/// A code and its scale.
#[inline]
fn target_of(q_scale_type: bool, code: u8) -> Target
    requires { IsCode code }
    ensures code { result.code ≡ code }
    ensures scale { result.scale ≡ quantiser_scale q_scale_type code }
{
    Target {
        code,
        scale: scale(q_scale_type, code) as u8,
    }
}
