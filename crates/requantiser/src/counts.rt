//! The counts of a macroblock in several versions at once, kept by what they count.
ghost use Rattle.std.specs.Prelude.{◌≡◌, ◌≢◌, ◌<◌, ◌≤◌, ◌+◌, ◌*◌, ◌^◌, ℕ, slice_index, if◌then◌else◌};
ghost use Rattle.syntax_types.specs.declared.block.BlockWay.{BlockWay as WayOf};
ghost use Rattle.requantiser.specs.Private.Counts.{IsEndedBy, IsSized, IsTheTally};
ghost use Rattle.requantiser.specs.Private.Lengths.{IsRow, table_number as number_of};

use crate::block_ends::{add_blocks, add_ends, coded_in};
use crate::code_lengths::TABLES;
use crate::codes::Target;
use crate::ladder::Rung;
use crate::lengths::Lengths;
use crate::tally::{Tally, VERSIONS_AT_ONCE};
use crate::targets::Targets;
use syntax_types::{BLOCK_PLACES, BlockWay};

/// What was counted of the coefficients of a macroblock in each version: the fields of its tally.
#[derive(Clone, Copy)]
pub struct Counts {
    pub next: [u32; VERSIONS_AT_ONCE],
    pub patterns: [u32; VERSIONS_AT_ONCE],
    pub bits: [u32; VERSIONS_AT_ONCE],
    /// The squares of the differences of a macroblock's coefficients fit 32 bits.
    pub squares: [u32; VERSIONS_AT_ONCE],
}

impl Counts {
    /// Nothing is counted.
    pub fn new(intra: bool) -> Counts
        ensures next { (k : ℕ) → k < 8 → slice_index result.next k ≡ (if intra then 1 else 0) }
        ensures patterns { (k : ℕ) → k < 8 → slice_index result.patterns k ≡ 0 }
        ensures bits { (k : ℕ) → k < 8 → slice_index result.bits k ≡ 0 }
        ensures squares { (k : ℕ) → k < 8 → slice_index result.squares k ≡ 0 }
    {
        Counts {
            next: [u32::from(intra); VERSIONS_AT_ONCE],
            patterns: [0; VERSIONS_AT_ONCE],
            bits: [0; VERSIONS_AT_ONCE],
            squares: [0; VERSIONS_AT_ONCE],
        }
    }

    /// The tally of a version.
    pub fn tally(&self, targets: &Targets, number: usize) -> Tally
        requires number { number < VERSIONS_AT_ONCE }
        requires next { slice_index self.now.next number ≤ 64 }
        requires pattern { slice_index self.now.patterns number < 2 ^ 6 }
        ensures { IsTheTally targets.now self.now number result }
    {
        Tally {
            target: Target {
                code: targets.codes[number],
                scale: targets.scales[number],
            },
            next: self.next[number] as u8,
            pattern: self.patterns[number] as u8,
            bits: self.bits[number],
            distortion: u64::from(self.squares[number]),
        }
    }

    /// Adds the bits of a coefficient in each version in which it isn't 0, by the table with this number, the one of its place.
    #[inline]
    pub fn add_sizes(&mut self, table: usize, at: u32, rung: &Rung, lengths: &mut Lengths)
        requires table { table < TABLES }
        requires at { at < BLOCK_PLACES }
        requires next { (k : ℕ) → k < 8 → slice_index self.old.next k ≤ at }
        requires room { (k : ℕ) → k < 8 → slice_index self.old.bits k ≤ 2 ^ 20 }
        ensures each { (way : WayOf) (k : ℕ) → table ≡ number_of way at → k < 8
            → IsSized way at (slice_index rung.now.sizes k) (slice_index self.old.next k) (slice_index self.old.bits k) (slice_index self.new.next k) (slice_index self.new.bits k) }
        ensures patterns { self.new.patterns ≡ self.old.patterns }
        ensures squares { self.new.squares ≡ self.old.squares }
    {
        for k in 0..usize::from(rung.living) {
            self.add_size(k, table, at, rung.sizes[k], rung.rows[k], lengths);
        }
    }

    /// The same in one version, by its size and the row of that.
    #[inline]
    fn add_size(
        &mut self,
        k: usize,
        table: usize,
        at: u32,
        size: u16,
        row: u16,
        lengths: &mut Lengths,
    )
        requires k { k < VERSIONS_AT_ONCE }
        requires row { IsRow row size }
        requires table { table < TABLES }
        requires at { at < BLOCK_PLACES }
        requires next { slice_index self.old.next k ≤ at }
        requires room { slice_index self.old.bits k ≤ 2 ^ 20 }
        ensures here { (way : WayOf) → table ≡ number_of way at → IsSized way at size (slice_index self.old.next k) (slice_index self.old.bits k) (slice_index self.new.next k) (slice_index self.new.bits k) }
        ensures others { (j : ℕ) → j ≢ k → (slice_index self.new.next j ≡ slice_index self.old.next j) × (slice_index self.new.bits j ≡ slice_index self.old.bits j) }
        ensures patterns { self.new.patterns ≡ self.old.patterns }
        ensures squares { self.new.squares ≡ self.old.squares }
    {
        let next = self.next[k];
        let known = lengths.known(table, at - next, row);
        if known == 0 {
            self.add_rare_size(k, table, at, size, lengths);
            return;
        }
        self.bits[k] += known;
        self.next[k] = at + 1;
    }

    /// The same of one that is 0, or whose bits aren't known.
    #[cold]
    #[inline(never)]
    fn add_rare_size(&mut self, k: usize, table: usize, at: u32, size: u16, lengths: &mut Lengths)
        requires k { k < VERSIONS_AT_ONCE }
        requires table { table < TABLES }
        requires at { at < BLOCK_PLACES }
        requires next { slice_index self.old.next k ≤ at }
        requires room { slice_index self.old.bits k ≤ 2 ^ 20 }
        ensures here { (way : WayOf) → table ≡ number_of way at → IsSized way at size (slice_index self.old.next k) (slice_index self.old.bits k) (slice_index self.new.next k) (slice_index self.new.bits k) }
        ensures others { (j : ℕ) → j ≢ k → (slice_index self.new.next j ≡ slice_index self.old.next j) × (slice_index self.new.bits j ≡ slice_index self.old.bits j) }
        ensures patterns { self.new.patterns ≡ self.old.patterns }
        ensures squares { self.new.squares ≡ self.old.squares }
    {
        if size == 0 {
            return;
        }
        let next = self.next[k];
        self.bits[k] += lengths.ask(table, at - next, size);
        self.next[k] = at + 1;
    }

    /// Ends a block in all versions.
    #[inline]
    pub fn end_block(&mut self, way: BlockWay)
        requires patterns { (k : ℕ) → k < 8 → slice_index self.old.patterns k < 2 ^ 6 }
        requires room { (k : ℕ) → k < 8 → slice_index self.old.bits k ≤ 2 ^ 20 }
        ensures each { (k : ℕ) → k < 8 → IsEndedBy way (slice_index self.old.next k) (slice_index self.old.patterns k) (slice_index self.old.bits k)
            (slice_index self.new.next k) (slice_index self.new.patterns k) (slice_index self.new.bits k) }
        ensures squares { self.new.squares ≡ self.old.squares }
    {
        let first = u32::from(way.intra);
        let coded = coded_in(&self.next, first);
        add_ends(&mut self.bits, &coded, way.intra);
        add_blocks(&mut self.patterns, &coded);
        self.next = [first; VERSIONS_AT_ONCE];
    }

    /// Ends a block without coefficients in all versions.
    #[inline]
    pub fn end_empty_block(&mut self)
        requires { (k : ℕ) → k < 8 → slice_index self.old.patterns k < 2 ^ 6 }
        ensures patterns { (k : ℕ) → k < 8 → slice_index self.new.patterns k ≡ 2 * slice_index self.old.patterns k }
        ensures next { self.new.next ≡ self.old.next }
        ensures bits { self.new.bits ≡ self.old.bits }
        ensures squares { self.new.squares ≡ self.old.squares }
    {
        add_blocks(&mut self.patterns, &[0; VERSIONS_AT_ONCE]);
    }
}

/// Adds the squares of the differences of a coefficient.
#[inline]
pub fn add_squares(squares: &mut [u32; VERSIONS_AT_ONCE], more: &[u32; VERSIONS_AT_ONCE])
    requires room { (k : ℕ) → k < 8 → slice_index squares.old k ≤ 2 ^ 31 + 2 ^ 29 }
    requires small { (k : ℕ) → k < 8 → slice_index more.now k ≤ 2 ^ 22 }
    ensures { (k : ℕ) → k < 8 → slice_index squares.new k ≡ slice_index squares.old k + slice_index more.now k }
{
    for k in 0..VERSIONS_AT_ONCE {
        squares[k] += more[k];
    }
}
