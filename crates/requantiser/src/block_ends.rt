//! The ends of blocks in several versions at once.
ghost use Rattle.std.specs.Prelude.{◌≡◌, ◌<◌, ◌≤◌, ◌+◌, ◌*◌, ◌^◌, ◌==◌, ℕ, not, length, slice_index, if◌then◌else◌};
ghost use Rattle.bit_lists.specs.Fields.{flag};
ghost use Rattle.prefix_codes.specs.declared.symbol.TheConstants.{END_OF_BLOCK};
ghost use Rattle.prefix_codes.specs.declared.table_name.TableName.TheVariants.{CoeffZero};
ghost use Rattle.prefix_codes.specs.TableName.{code_for};

use crate::code_lengths::end_bits;
use crate::tally::VERSIONS_AT_ONCE;

/// In which versions a block is coded, 1 where it is: where a place behind its first one comes next.
#[inline]
pub fn coded_in(next: &[u32; VERSIONS_AT_ONCE], first: u32) -> [u32; VERSIONS_AT_ONCE]
    ensures { (k : ℕ) → k < 8 → slice_index result k ≡ flag (not (slice_index next.now k == first)) }
{
    let mut coded = [0; VERSIONS_AT_ONCE];
    for k in 0..VERSIONS_AT_ONCE {
        coded[k] = u32::from(next[k] != first);
    }
    coded
}

/// Adds the bits of the end of a block where it is coded, but none in an intra block, where it stands in each.
#[inline]
pub fn add_ends(bits: &mut [u32; VERSIONS_AT_ONCE], coded: &[u32; VERSIONS_AT_ONCE], intra: bool)
    requires flags { (k : ℕ) → k < 8 → slice_index coded.now k ≤ 1 }
    requires room { (k : ℕ) → k < 8 → slice_index bits.old k ≤ 2 ^ 20 }
    ensures each { (k : ℕ) → k < 8 → slice_index bits.new k ≡ slice_index bits.old k + (if intra then 0 else length (code_for CoeffZero END_OF_BLOCK)) * slice_index coded.now k }
    ensures few { (k : ℕ) → k < 8 → slice_index bits.new k ≤ slice_index bits.old k + 24 }
{
    if intra {
        return;
    }
    add_to_coded(bits, coded, end_bits(false));
}

/// Adds so many bits where a block is coded.
#[inline]
fn add_to_coded(bits: &mut [u32; VERSIONS_AT_ONCE], coded: &[u32; VERSIONS_AT_ONCE], end: u32)
    requires few { end ≤ 24 }
    requires flags { (k : ℕ) → k < 8 → slice_index coded.now k ≤ 1 }
    requires room { (k : ℕ) → k < 8 → slice_index bits.old k ≤ 2 ^ 20 }
    ensures { (k : ℕ) → k < 8 → slice_index bits.new k ≡ slice_index bits.old k + end * slice_index coded.now k }
{
    for k in 0..VERSIONS_AT_ONCE {
        bits[k] += end_at(coded, k, end);
    }
}

/// The bits of the end of a block in a version.
#[inline]
fn end_at(coded: &[u32; VERSIONS_AT_ONCE], k: usize, end: u32) -> u32
    requires k { k < VERSIONS_AT_ONCE }
    requires few { end ≤ 24 }
    requires flag { slice_index coded.now k ≤ 1 }
    ensures value { result ≡ end * slice_index coded.now k }
    ensures few { result ≤ 24 }
{
    end * coded[k]
}

/// Puts a block, coded or not, behind those of each pattern.
#[inline]
pub fn add_blocks(patterns: &mut [u32; VERSIONS_AT_ONCE], coded: &[u32; VERSIONS_AT_ONCE])
    requires flags { (k : ℕ) → k < 8 → slice_index coded.now k ≤ 1 }
    requires room { (k : ℕ) → k < 8 → slice_index patterns.old k < 2 ^ 6 }
    ensures { (k : ℕ) → k < 8 → slice_index patterns.new k ≡ 2 * slice_index patterns.old k + slice_index coded.now k }
{
    for k in 0..VERSIONS_AT_ONCE {
        patterns[k] = 2 * patterns[k] + coded[k];
    }
}
