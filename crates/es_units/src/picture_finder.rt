ghost use Rattle.std.specs.Prelude.{◌≡◌, ℕ, ◌+◌, ◌-◌, ◌^◌, ◌<◌, ◌≤◌, ◌==◌, ◌&&◌, List, [], ◌++◌, length, take, drop, not, Some, None, if◌then◌else◌};
ghost use Rattle.std.specs.Option.{option_to_list};
ghost use Rattle.es_units.specs.Private.Groups.{group_reaches};

use crate::joint_code::{NO_BYTE, TAIL_BYTES, find_code, last_bytes};
use stream_constants::start_codes::{GROUP, GROUP_HEADER_BYTES, PICTURE, START_CODE_BYTES};

/// Finds where coded pictures begin in a video stream while its bytes come in pieces. It takes no memory.
#[derive(Clone, Copy)]
pub struct PictureFinder {
    /// How many bytes were pushed.
    pushed: u64,
    /// The last bytes of the stream; before its first one FF.
    tail: [u8; TAIL_BYTES],
    /// Where the last group of pictures header begins.
    group: Option<u64>,
    /// Where the picture begins whose start code ends with the last byte pushed, where one does.
    found: Option<u64>,
}

impl PictureFinder {
    ghost use Rattle.stream_constants.specs.declared.start_codes.TheConstants.{GROUP as group_code, PICTURE as picture_code};
    ghost use Rattle.es_units.specs.PictureFinder.{HasFound, bytes_passed, found_of};

    /// A finder before the first byte of a stream.
    pub fn new() -> PictureFinder
        ensures { HasFound [] [] result }
    {
        PictureFinder {
            pushed: 0,
            tail: [NO_BYTE; TAIL_BYTES],
            group: None,
            found: None,
        }
    }

    /// Takes the next bytes of the stream, up to the end of the first start code among them with which a picture begins, or all,
    /// and answers how many.
    pub fn push(&mut self, piece: &[u8]) -> usize
        requires fits { bytes_passed self.old + length piece.now < 2 ^ 64 }
        ensures found { (pushed found : List ℕ) → HasFound pushed found self.old → HasFound (pushed ++ take result piece.now) (found ++ found_of self.new) self.new }
        ensures within { result ≤ length piece.now }
        ensures some { 0 < length piece.now → 0 < result }
        ensures all { found_of self.new ≡ [] → result ≡ length piece.now }
        ensures count { bytes_passed self.new ≡ bytes_passed self.old + result }
    {
        self.found = None;
        let mut count = 0;
        while count < piece.len() && self.found.is_none() {
            count += self.step(&piece[count..]);
        }
        count
    }

    /// Where the picture begins whose start code ends with the last byte pushed, where one does.
    pub fn found(&self) -> Option<u64>
        ensures { option_to_list result ≡ found_of self.now }
    {
        self.found
    }

    /// Takes bytes up to the first start code's last one, or all, and answers how many.
    fn step(&mut self, piece: &[u8]) -> usize
        requires none { self.old.found ≡ None }
        requires some { 0 < length piece.now }
        requires fits { self.old.pushed + length piece.now < 2 ^ 64 }
        ensures found { (pushed found : List ℕ) → HasFound pushed found self.old → HasFound (pushed ++ take result piece.now) (found ++ found_of self.new) self.new }
        ensures within { (0 < result) × (result ≤ length piece.now) }
        ensures pushed { self.new.pushed ≡ self.old.pushed + result }
    {
        let Some(code) = find_code(self.tail, piece) else {
            self.take_bytes(piece);
            return piece.len();
        };
        let count = code.at + 1;
        self.take_bytes(&piece[..count]);
        self.pass(code.value);
        count
    }

    /// Takes bytes, whatever start codes are among them.
    fn take_bytes(&mut self, bytes: &[u8])
        requires fits { self.old.pushed + length bytes.now < 2 ^ 64 }
        ensures tail { self.new.tail ≡ drop (length bytes.now) (self.old.tail ++ bytes.now) }
        ensures pushed { self.new.pushed ≡ self.old.pushed + length bytes.now }
        ensures group { self.new.group ≡ self.old.group }
        ensures found { self.new.found ≡ self.old.found }
    {
        self.tail = last_bytes(self.tail, bytes);
        self.pushed += bytes.len() as u64;
    }

    /// Passes a start code whose last byte is the last one that was taken.
    fn pass(&mut self, value: u8)
        ensures group { self.new.group ≡ (if value == group_code then Some (self.old.pushed - 4) else self.old.group) }
        ensures found { self.new.found ≡ (if (value == picture_code) && not (group_reaches self.old.group (self.old.pushed - 4)) then Some (self.old.pushed - 4) else None) }
        ensures tail { self.new.tail ≡ self.old.tail }
        ensures pushed { self.new.pushed ≡ self.old.pushed }
    {
        let at = self.pushed.saturating_sub(START_CODE_BYTES as u64);
        self.found = if value == PICTURE && !is_reached(self.group, at) {
            Some(at)
        } else {
            None
        };
        if value == GROUP {
            self.group = Some(at);
        }
    }
}

/// True where the last group of pictures header reaches over a place behind it.
fn is_reached(group: Option<u64>, at: u64) -> bool
    ensures { result ≡ group_reaches group at }
{
    match group {
        Some(last) => at.saturating_sub(last) < GROUP_HEADER_BYTES as u64,
        None => false,
    }
}
