ghost use Rattle.std.specs.Prelude.{◌≡◌, ◌+◌, ◌-◌, ◌*◌, ◌%◌, ◌^◌, ◌<◌, ◌≤◌, ◌↔◌, length, min, IfOk, OnErr, IfSome, IsErrOf, IsTrue};
ghost use Rattle.shelf_io.specs.Counts.{Rose};
ghost use Rattle.bit_cursor.specs.Shown.{IsFirstNumber, IsWindow, bytes_beyond, byte_aligned};

use crate::fault::BitFault;
use shelf_io::{Fault, Source};

/// The most bits that are asked for at once.
pub const AHEAD_BITS: u32 = 32;

/// The bits of a source in order, most significant bit of each byte first. It borrows the source, and takes no byte of
/// it before a bit of that byte is asked for.
#[derive(Drop)]
pub struct BitReader<'a, S: Source> {
    source: &'a mut S,
    // the lowest `held` bits are those that were taken and not yet given
    word: u64,
    held: u32,
    // bytes taken from the source
    taken: u64,
    ghost few_held: { held < 40 },
    ghost held_taken: { held ≤ 8 * taken },
    ghost source_ends: { taken + S.most source.now ≤ 2 ^ 60 },
}

impl<'a, S: Source> BitReader<'a, S> {
    ghost use Rattle.std.specs.Option.{option_map};
    ghost use Rattle.bit_lists.specs.Fields.{bit_list};
    ghost use Rattle.bit_cursor.specs.BitReader.{source_of, bits_held, bits_left, place, faults_of, absences_of, TakesBytes, Fetches, KeepsSource};
    ghost use Rattle.shelf_io.specs.Source.{without_front};

    /// A reader at the source's first bit.
    pub fn new(source: &'a mut S) -> Self
        ensures same_source { (source_of result).ghost_name ≡ source.entry.ghost_name }
        ensures source { (source_of result).now ≡ source.old }
        ensures left { bits_left result ≡ option_map bit_list (S.left source.old) }
        ensures place { place result ≡ 0 }
        ensures held { bits_held result ≡ 0 }
    {
        BitReader {
            source,
            word: 0,
            held: 0,
            taken: 0,
        }
    }

    /// The next n bits as a number, n at most 32. The answer is End where fewer are left, and Outside where the source
    /// failed; then no bit is given and the place stays.
    #[inline]
    pub fn bits(&mut self, n: u32) -> Result<u32, BitFault>
        requires { n ≤ 32 }
        ensures value { IfOk result (λ value. IfSome (bits_left self.old) (λ bits. IsFirstNumber n bits value)) }
        ensures below { IfOk result (λ value. value < 2 ^ n) }
        ensures left { IfOk result (λ _. bits_left self.new ≡ without_front (bits_left self.old) n) }
        ensures place { IfOk result (λ _. place self.new ≡ place self.old + n) }
        ensures held { IfOk result (λ _. bits_held self.new + n ≡ bits_held self.old + 8 * bytes_beyond (bits_held self.old) n) }
        ensures taken { IfOk result (λ _. TakesBytes self.old self.new (bytes_beyond (bits_held self.old) n)) }

        ensures end { IsErrOf result BitFault.End → IfSome (bits_left self.old) (λ bits. length bits < n) }
        ensures kept { OnErr result (bits_left self.new ≡ bits_left self.old) }
        ensures kept_place { OnErr result (place self.new ≡ place self.old) }
        ensures fetched { OnErr result (Fetches n self.old self.new) }

        ensures failed { IsErrOf result (BitFault.Outside Fault.Failed) → Rose (faults_of self.old) (faults_of self.new) }
        ensures missing { IsErrOf result (BitFault.Outside Fault.Missing) → Rose (absences_of self.old) (absences_of self.new) }
        ensures keeps { KeepsSource self.old self.new }
    {
        if !self.hold(n)? {
            return Err(BitFault::End);
        }
        let value = self.held_front(n);
        self.skip(n);
        Ok(value)
    }

    /// The next n bits as a window, n at most 24, and how many of them are known. Where fewer are left the window's bits
    /// behind them are 0. The reader stays where it is, also where the source failed.
    #[inline]
    pub fn peek(&mut self, n: u32) -> Result<(u32, u32), Fault>
        requires { n ≤ 24 }
        ensures window { IfOk result (λ seen. IfSome (bits_left self.old) (λ bits. IsWindow n bits seen.0 seen.1)) }
        ensures known { IfOk result (λ seen. seen.1 ≤ n) }
        ensures held { IfOk result (λ seen. seen.1 ≤ bits_held self.new) }
        ensures below { IfOk result (λ seen. seen.0 < 2 ^ n) }
        ensures unknown { IfOk result (λ seen. seen.0 % 2 ^ (n - seen.1) ≡ 0) }

        ensures left { bits_left self.new ≡ bits_left self.old }
        ensures place { place self.new ≡ place self.old }
        ensures fetched { Fetches n self.old self.new }

        ensures failed { IsErrOf result Fault.Failed → Rose (faults_of self.old) (faults_of self.new) }
        ensures missing { IsErrOf result Fault.Missing → Rose (absences_of self.old) (absences_of self.new) }
        ensures keeps { KeepsSource self.old self.new }
    {
        self.hold(n)?;
        Ok(self.held_window(n))
    }

    /// Whether n bits are held, n at most 32, behind whole bytes that this call takes of the source where they aren't: no
    /// only where fewer are left. The reader stays where it is, also where the source failed.
    #[inline]
    pub fn hold(&mut self, n: u32) -> Result<bool, Fault>
        requires { n ≤ 32 }
        ensures enough { IfOk result (λ enough. IsTrue enough ↔ (n ≤ bits_held self.new)) }
        ensures few { IfOk result (λ _. bits_held self.new < n → IfSome (bits_left self.old) (λ bits. length bits ≡ bits_held self.new)) }

        ensures left { bits_left self.new ≡ bits_left self.old }
        ensures place { place self.new ≡ place self.old }
        ensures fetched { Fetches n self.old self.new }

        ensures failed { IsErrOf result Fault.Failed → Rose (faults_of self.old) (faults_of self.new) }
        ensures missing { IsErrOf result Fault.Missing → Rose (absences_of self.old) (absences_of self.new) }
        ensures keeps { KeepsSource self.old self.new }
    {
        if self.held < n {
            return self.fetch(n);
        }
        Ok(true)
    }

    /// Whether n bits are held, n at most `AHEAD_BITS`: no only where fewer are left. Where they aren't held yet, `AHEAD_BITS` bits
    /// are asked for, so that later calls find theirs held, and a source that fails at a byte behind the n bits fails the call
    /// too. The reader stays where it is.
    #[inline]
    pub fn hold_ahead(&mut self, n: u32) -> Result<bool, Fault>
        requires { n ≤ AHEAD_BITS }
        ensures enough { IfOk result (λ enough. IsTrue enough ↔ (n ≤ bits_held self.new)) }
        ensures few { IfOk result (λ _. bits_held self.new < n → IfSome (bits_left self.old) (λ bits. length bits ≡ bits_held self.new)) }

        ensures left { bits_left self.new ≡ bits_left self.old }
        ensures place { place self.new ≡ place self.old }
        ensures fetched { Fetches AHEAD_BITS self.old self.new }
        ensures stays { n ≤ bits_held self.old → Fetches 0 self.old self.new }

        ensures failed { IsErrOf result Fault.Failed → Rose (faults_of self.old) (faults_of self.new) }
        ensures missing { IsErrOf result Fault.Missing → Rose (absences_of self.old) (absences_of self.new) }
        ensures keeps { KeepsSource self.old self.new }
    {
        if self.held < n {
            let all = self.fetch(AHEAD_BITS)?;
            return Ok(all || self.held >= n);
        }
        Ok(true)
    }

    /// The next n bits as a number, which are held, n at most 32. The reader stays where it is.
    #[inline]
    pub fn held_front(&self, n: u32) -> u32
        requires width { n ≤ 32 }
        requires held { n ≤ bits_held self.now }
        ensures value { IfSome (bits_left self.now) (λ bits. IsFirstNumber n bits result) }
        ensures below { result < 2 ^ n }
    {
        lowest(self.word >> (self.held - n), n)
    }

    /// The next n bits as a window, n at most 24, and how many of them are known: those that are held. Where fewer are the
    /// window's bits behind them are 0. The reader stays where it is.
    #[inline]
    pub fn held_window(&self, n: u32) -> (u32, u32)
        requires { n ≤ 24 }
        ensures window { IfSome (bits_left self.now) (λ bits. (bits_held self.now < n → length bits ≡ bits_held self.now) → IsWindow n bits result.0 result.1) }
        ensures known { result.1 ≡ min n (bits_held self.now) }
        ensures below { result.0 < 2 ^ n }
        ensures unknown { result.0 % 2 ^ (n - result.1) ≡ 0 }
    {
        if self.held < n {
            return self.short_window(n);
        }
        (self.held_front(n), n)
    }

    /// Moves past the next n bits, which are held. It takes no byte of the source.
    #[inline]
    pub fn skip(&mut self, n: u32)
        requires { n ≤ bits_held self.old }
        ensures left { bits_left self.new ≡ without_front (bits_left self.old) n }
        ensures place { place self.new ≡ place self.old + n }
        ensures held { bits_held self.new + n ≡ bits_held self.old }
        ensures same_source { (source_of self.new).ghost_name ≡ (source_of self.old).ghost_name }
        ensures source { (source_of self.new).now ≡ (source_of self.old).now }
    {
        self.held -= n;
    }

    /// Moves to the next byte, or stays at a whole byte. It takes no byte of the source.
    #[inline]
    pub fn align(&mut self)
        ensures place { place self.new ≡ byte_aligned (place self.old) }
        ensures left { bits_left self.new ≡ without_front (bits_left self.old) (place self.new - place self.old) }
        ensures held { bits_held self.new + (place self.new - place self.old) ≡ bits_held self.old }
        ensures same_source { (source_of self.new).ghost_name ≡ (source_of self.old).ghost_name }
        ensures source { (source_of self.new).now ≡ (source_of self.old).now }
    {
        self.held -= self.held % 8;
    }

    /// The place of the next bit, in bits from the source's first.
    #[inline]
    pub fn place(&self) -> u64
        ensures { result ≡ place self.now }
    {
        8 * self.taken - u64::from(self.held)
    }

    // The held bits as a window that they don't fill.
    #[cold]
    #[inline(never)]
    fn short_window(&self, n: u32) -> (u32, u32)
        requires short { bits_held self.now < n }
        requires width { n ≤ 24 }
        ensures window { IfSome (bits_left self.now) (λ bits. length bits ≡ bits_held self.now → IsWindow n bits result.0 result.1) }
        ensures known { result.1 ≡ bits_held self.now }
        ensures below { result.0 < 2 ^ n }
        ensures unknown { result.0 % 2 ^ (n - result.1) ≡ 0 }
    {
        let window = lowest(self.word, self.held) << (n - self.held);
        (window, self.held)
    }

    // Takes bytes until n bits are held or the source ends, and answers whether they are: all at once where the source
    // gives so many.
    #[inline]
    fn fetch(&mut self, n: u32) -> Result<bool, Fault>
        requires width { n ≤ AHEAD_BITS }
        requires short { bits_held self.old < n }
        ensures enough { IfOk result (λ enough. IsTrue enough ↔ (n ≤ bits_held self.new)) }
        ensures few { IfOk result (λ _. bits_held self.new < n → IfSome (bits_left self.old) (λ bits. length bits ≡ bits_held self.new)) }
        ensures left { bits_left self.new ≡ bits_left self.old }
        ensures place { place self.new ≡ place self.old }
        ensures fetched { Fetches n self.old self.new }

        ensures failed { IsErrOf result Fault.Failed → Rose (faults_of self.old) (faults_of self.new) }
        ensures missing { IsErrOf result Fault.Missing → Rose (absences_of self.old) (absences_of self.new) }
        ensures keeps { KeepsSource self.old self.new }
    {
        let bytes = (n - self.held + 7) / 8;
        match self.source.take_number(bytes) {
            Ok(Some(number)) => {
                self.word = self.word << (8 * bytes) | u64::from(number);
                self.held += 8 * bytes;
                self.taken += u64::from(bytes);
                Ok(true)
            }
            Ok(None) => {
                self.fetch_bytes(n)?;
                Ok(self.held >= n)
            }
            Err(fault) => Err(fault),
        }
    }

    // The same byte by byte.
    #[cold]
    #[inline(never)]
    fn fetch_bytes(&mut self, n: u32) -> Result<(), Fault>
        requires { n ≤ AHEAD_BITS }
        ensures enough { IfOk result (λ _. bits_held self.new < n → IfSome (bits_left self.old) (λ bits. length bits ≡ bits_held self.new)) }
        ensures left { bits_left self.new ≡ bits_left self.old }
        ensures place { place self.new ≡ place self.old }
        ensures fetched { Fetches n self.old self.new }

        ensures failed { IsErrOf result Fault.Failed → Rose (faults_of self.old) (faults_of self.new) }
        ensures missing { IsErrOf result Fault.Missing → Rose (absences_of self.old) (absences_of self.new) }
        ensures keeps { KeepsSource self.old self.new }
    {
        let mut word = self.word;
        let mut held = self.held;
        let mut taken = self.taken;
        while held < n {
            let byte = match self.source.take_byte() {
                Ok(Some(byte)) => byte,
                Ok(None) => break,
                Err(fault) => {
                    self.word = word;
                    self.taken = taken;
                    self.held = held;
                    return Err(fault);
                }
            };
            word = word << 8 | u64::from(byte);
            held += 8;
            taken += 1;
        }
        self.word = word;
        self.taken = taken;
        self.held = held;
        Ok(())
    }
}

// The number in the lowest n bits of a word, n at most 32.
#[inline]
fn lowest(word: u64, n: u32) -> u32
    requires { n ≤ 32 }
    ensures { result ≡ word % 2 ^ n }
{
    (word & ((1 << n) - 1)) as u32
}
