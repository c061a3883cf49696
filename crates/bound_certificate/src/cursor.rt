ghost use Rattle.std.specs.Prelude.{◌≡◌, ◌+◌, ◌≤◌, ◌++◌, ◌∷◌, length, take, drop, IfOk, IfErr};
ghost use Rattle.std.specs.Int.{w64, to_be_bytes};
ghost use Rattle.bound_certificate.specs.Private.Texts.{IsBlock, IsByte, IsStop};

use crate::fault::Stop;
use std::marker::Model;

/// The bytes of a certificate that are still to be read. Contracts see them as a list.
#[derive(Drop)]
pub(crate) struct Cursor<'a> {
    rest: &'a [u8],
}

impl<'a> Model for Cursor<'a> {
    ghost use Rattle.std.specs.Prelude.{List, ℕ};

    ghost Value = { List ℕ };

    ghost view = { λ a. a.rest.now };
}

impl<'a> Cursor<'a> {
    /// All bytes are still to be read.
    pub(crate) fn new(bytes: &'a [u8]) -> Self
        ensures { result ≡ bytes.now }
    {
        Cursor { rest: bytes }
    }

    /// How many bytes are left.
    pub(crate) fn left(&self) -> usize
        ensures { result ≡ length self.now }
    {
        self.rest.len()
    }

    /// The next byte, from one number to another.
    pub(crate) fn byte(&mut self, least: u8, most: u8) -> Result<u8, Stop>
        requires { least ≤ most }
        ensures next { IfOk result (λ byte. self.old ≡ byte ∷ self.new) }
        ensures least { IfOk result (λ byte. least ≤ byte) }
        ensures most { IfOk result (λ byte. byte ≤ most) }
        ensures stop { IfErr result (IsStop (IsByte least most) self.old) }
    {
        let Some((byte, behind)) = self.rest.split_first() else {
            return Err(Stop::At { left: 0 });
        };
        let byte = *byte;
        if byte < least || most < byte {
            return Err(Stop::At {
                left: self.rest.len(),
            });
        }
        self.rest = behind;
        Ok(byte)
    }

    /// The next so many bytes.
    pub(crate) fn block(&mut self, count: usize) -> Result<&'a [u8], Stop>
        ensures next { IfOk result (λ block. self.old ≡ block.now ++ self.new) }
        ensures size { IfOk result (λ block. length block.now ≡ count) }
        ensures stop { IfErr result (IsStop (IsBlock count) self.old) }
    {
        if self.rest.len() < count {
            return Err(Stop::At { left: 0 });
        }
        let (block, behind) = self.rest.split_at(count);
        self.rest = behind;
        Ok(block)
    }
}

/// The number in 8 bytes from a place on.
pub(crate) fn number_at(bytes: &[u8], place: usize) -> u64
    requires { place + 8 ≤ length bytes.now }
    ensures { to_be_bytes w64 result ≡ take 8 (drop place bytes.now) }
{
    let mut number = [0; 8];
    number.copy_from_slice(&bytes[place..place + 8]);
    u64::from_be_bytes(number)
}
