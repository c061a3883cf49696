ghost use Rattle.std.specs.Prelude.{◌≡◌, ℕ, ◌-◌, ◌<◌, ◌≤◌, ◌^◌, List, [], ◌++◌, length, replicate, MatchOption};
ghost use Rattle.bit_lists.specs.Bits.{bits_of};
ghost use Rattle.bit_lists.specs.Fields.{AreBytes, bit_list};
ghost use Rattle.bit_cursor.specs.Private.WaitingBits.{IsWord};

use std::marker::Model;

/// Fewer than 32 bits in a word, the last one its lowest.
#[derive(Drop)]
pub struct WaitingBits {
    word: u64,
    count: u32,
}

impl Model for WaitingBits {
    ghost Value = { List ℕ };

    ghost view = { λ a. bits_of a.count a.word };

    ghost invariant = { λ a. IsWord a.word a.count };
}

impl WaitingBits {
    pub fn new() -> Self
        ensures { result ≡ [] }
    {
        WaitingBits { word: 0, count: 0 }
    }

    pub fn count(&self) -> u32
        ensures count { result ≡ length self.now }
        ensures few { result < 32 }
    {
        self.count
    }

    /// Adds the lowest `n` bits of a number, and gives the first four bytes once they are there.
    #[inline]
    pub fn push(&mut self, value: u32, n: u32) -> Option<[u8; 4]>
        requires number { value < 2 ^ n }
        requires width { n ≤ 32 }
        ensures { MatchOption result (self.new ≡ self.old ++ bits_of n value) (λ bytes. AreBytes bytes × (bit_list bytes ++ self.new ≡ self.old ++ bits_of n value)) }
    {
        let word = (self.word << n) + u64::from(value);
        let count = self.count + n;
        if count < 32 {
            self.word = word;
            self.count = count;
            return None;
        }
        let rest = count - 32;
        let front = word >> rest;
        self.word = word - (front << rest);
        self.count = rest;
        Some((front as u32).to_be_bytes())
    }

    /// The bits, and zero bits behind them.
    pub fn filled_up(&self) -> [u8; 4]
        ensures bytes { AreBytes result }
        ensures bits { bit_list result ≡ self.now ++ replicate (32 - length self.now) 0 }
    {
        ((self.word << (32 - self.count)) as u32).to_be_bytes()
    }
}
