ghost use Rattle.std.specs.Prelude.{◌≡◌, ℕ, ◌+◌, ◌-◌, ◌<◌, ◌≤◌, ◌^◌, ◌++◌, [], length, take, drop, min, IfNone, IfSome, OnOk, OnErr};
ghost use Rattle.es_window.specs.EsWindow.{window_end, window_from, window_bytes, LacksPart};

use list_types::OutOfMemory;
use std::alloc::Global;
use std::marker::Model;

/// The bytes of an elementary stream that have come, from a place on. Contracts see that place and the bytes.
#[derive(Drop)]
pub struct EsWindow {
    /// The place in the stream of the first byte that is held.
    from: u64,
    bytes: Vec<u8>,
    /// The bytes in front of here aren't held any more.
    passed: usize,
}

impl Model for EsWindow {
    ghost use Rattle.std.specs.Prelude.{ℕ, ◌≤◌, ◌<◌, ◌+◌, ◌^◌, List, length, drop};

    ghost Value = { ℕ × List ℕ };

    ghost view = { λ a. (a.from, drop a.passed a.bytes.items) };

    ghost invariant = { λ a. (a.passed ≤ length a.bytes.items) × (a.from + length (drop a.passed a.bytes.items) < 2 ^ 64) };
}

impl EsWindow {
    /// Before the first byte of a stream.
    pub fn new(alloc: Global) -> Self
        ensures { result ≡ (0, []) }
    {
        EsWindow {
            from: 0,
            bytes: Vec::new(alloc),
            passed: 0,
        }
    }

    /// The place in the stream of the first byte that is held.
    pub fn from(&self) -> u64
        ensures { result ≡ window_from self.now }
    {
        self.from
    }

    /// The place in the stream behind the last byte that is held.
    pub fn end(&self) -> u64
        ensures { result ≡ window_end self.now }
    {
        self.from + self.held() as u64
    }

    /// Holds the next bytes of the stream too. An error leaves all as it was.
    pub fn add(&mut self, bytes: &[u8]) -> Result<(), OutOfMemory>
        requires { window_end self.old + length bytes.now < 2 ^ 64 }
        ensures ok { OnOk result (self.new ≡ (window_from self.old, window_bytes self.old ++ bytes.now)) }
        ensures err { OnErr result (self.new ≡ self.old) }
    {
        self.move_to_front();
        self.bytes.extend_from_slice(bytes)?;
        Ok(())
    }

    /// Lets go of the bytes that stand before a place, as far as bytes are held.
    pub fn pass(&mut self, to: u64)
        ensures { self.new ≡ (window_from self.old + min (to - window_from self.old) (length (window_bytes self.old)), drop (to - window_from self.old) (window_bytes self.old)) }
    {
        if to <= self.from {
            return;
        }
        let count = (to - self.from).min(self.held() as u64);
        self.from += count;
        self.passed += count as usize;
    }

    /// The bytes of the stream from a place up to another, where they are held.
    pub fn part(&self, from: u64, to: u64) -> Option<&[u8]>
        ensures some { IfSome result (λ part. (window_from self.now ≤ from) × (from ≤ to) × (to ≤ window_end self.now)
            × (part.now ≡ take (to - from) (drop (from - window_from self.now) (window_bytes self.now)))) }
        ensures none { IfNone result (LacksPart self.now from to) }
    {
        if from < self.from || to < from || self.end() < to {
            return None;
        }
        let first = self.passed + (from - self.from) as usize;
        let count = (to - from) as usize;
        Some(&self.bytes[first..first + count])
    }

    /// How many bytes are held.
    fn held(&self) -> usize
        ensures { result ≡ length (window_bytes self.now) }
    {
        self.bytes.len() - self.passed
    }

    /// Moves what is held to the front of its room.
    fn move_to_front(&mut self)
        ensures { self.new ≡ self.old }
    {
        if self.passed == 0 {
            return;
        }
        let held = self.held();
        self.bytes.as_mut_slice().copy_within(self.passed.., 0);
        self.bytes.truncate(held);
        self.passed = 0;
    }
}
