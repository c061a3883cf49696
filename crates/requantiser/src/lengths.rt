//! How many bits the codes of coefficients have, kept for those that come again.
ghost use Rattle.std.specs.Prelude.{◌≡◌, ◌<◌, ◌≤◌, ◌+◌, ◌*◌, ℕ};
ghost use Rattle.requantiser.specs.Private.Lengths.{AreLengths, IsRow, length_by, table_numbered};

use crate::code_lengths::{TABLES, coefficient_bits, numbered};

/// Runs and sizes that are kept, of each table.
const RUNS: usize = 64;

const SIZES: usize = 16;

/// The lengths of coefficients as far as they were asked for.
#[derive(Drop)]
pub struct Lengths {
    /// By table, size and run; 0 where none was asked for.
    bits: [u8; TABLES * RUNS * SIZES],
    ghost right: { AreLengths bits },
}

/// Where the lengths of a size stand in a table, 0 where it has no place.
#[inline]
pub fn row_of(size: u16) -> u16
    ensures { IsRow result size }
{
    if usize::from(size) < SIZES {
        RUNS as u16 * size
    } else {
        0
    }
}

impl Lengths {
    /// None is known.
    pub fn new() -> Lengths {
        Lengths {
            bits: [0; TABLES * RUNS * SIZES],
        }
    }

    /// The bits of a coefficient by the table with this number, where they are known, else 0, by the row of its size.
    #[inline]
    pub fn known(&self, number: usize, run: u32, row: u16) -> u32
        requires number { number < TABLES }
        requires run { run < RUNS }
        requires row { (size : ℕ) × IsRow row size }
        ensures value { (size : ℕ) → IsRow row size → 0 < result → (result ≡ length_by (table_numbered number) run size) × (0 < size) }
        ensures few { result ≤ 42 }
    {
        let place = RUNS * SIZES * number + usize::from(row) + run as usize;
        u32::from(self.bits[place])
    }

    /// The bits of a coefficient by the table with this number, which are kept from now on.
    pub fn ask(&mut self, number: usize, run: u32, size: u16) -> u32
        requires number { number < TABLES }
        requires run { run < RUNS }
        requires some { 0 < size }
        ensures value { result ≡ length_by (table_numbered number) run size }
        ensures few { result ≤ 42 }
    {
        if usize::from(size) >= SIZES {
            return coefficient_bits(numbered(number), run as u8, size);
        }
        self.keep(number, run, size)
    }

    /// The same of one that has room.
    fn keep(&mut self, number: usize, run: u32, size: u16) -> u32
        requires number { number < TABLES }
        requires run { run < RUNS }
        requires size { size < SIZES }
        requires some { 0 < size }
        ensures value { result ≡ length_by (table_numbered number) run size }
        ensures few { result ≤ 42 }
    {
        let bits = coefficient_bits(numbered(number), run as u8, size);
        let place = RUNS * SIZES * number + RUNS * usize::from(size) + run as usize;
        self.bits[place] = bits as u8;
        bits
    }
}
