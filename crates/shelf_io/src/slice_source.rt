ghost use Rattle.std.specs.Prelude.{◌≡◌, ◌*◌, ◌<◌, ◌≤◌, ◌^◌, ◌↔◌, length, take, drop, min, slice_get, is_some, if◌then◌else◌, IsSome, IfSome, IsOkAnd};
ghost use Rattle.std.specs.Int.{bytes_high_first};
ghost use Rattle.shelf_io.specs.Buffer.{CopiesFront};

use crate::buffer::copy_front;
use crate::fault::Fault;
use crate::source::Source;
use std::marker::Model;

/// A source over bytes in memory, which never fails. Contracts see the bytes that are left.
#[derive(Drop)]
pub struct SliceSource<'a> {
    rest: &'a [u8],
}

impl<'a> Model for SliceSource<'a> {
    ghost use Rattle.std.specs.Prelude.{ℕ, List, length, ◌≤◌, ◌^◌};

    ghost Value = { List ℕ };

    ghost view = { λ a. a.rest.now };

    ghost invariant = { λ a. length a.rest.now ≤ 2 ^ 60 };
}

impl<'a> SliceSource<'a> {
    /// A source that gives these bytes.
    pub fn new(bytes: &'a [u8]) -> Self
        requires { length bytes.now ≤ 2 ^ 60 }
        ensures { result ≡ bytes.now }
    {
        SliceSource { rest: bytes }
    }
}

impl<'a> Source for SliceSource<'a> {
    ghost use Rattle.std.specs.Prelude.{Some};
    ghost use Rattle.std.proofs.Common.{rules, arith};

    ghost left = { λ bytes. Some bytes };

    ghost most = { λ bytes. min (length bytes) (2 ^ 60) };

    ghost faults = { λ _. 0 };

    ghost absences = { λ _. 0 };

    ghost keeps = { λ _ _. Unit {0} };

    ghost most_fits = { λ bytes. Prim.omega arith };

    ghost keeps_itself = { Prim.search rules };

    ghost keeps_on = { Prim.search rules };

    fn take(&mut self, buf: &mut [u8]) -> Result<usize, Fault>
        ensures count { IsOkAnd result (λ n. n ≤ length buf.old) }
        ensures fills { IsOkAnd result (CopiesFront self.old buf.old buf.new) }
        ensures taken { IsOkAnd result (λ n. self.new ≡ drop n self.old) }
        ensures bounded { length self.old ≤ 2 ^ 60 }
    {
        let count = copy_front(self.rest, buf);
        self.rest = &self.rest[count..];
        Ok(count)
    }

    fn take_byte(&mut self) -> Result<Option<u8>, Fault>
        ensures first { IsOkAnd result (λ byte. byte ≡ slice_get self.old 0) }
        ensures taken { self.new ≡ drop 1 self.old }
        ensures bounded { length self.old ≤ 2 ^ 60 }
    {
        let Some((first, rest)) = self.rest.split_first() else {
            return Ok(None);
        };
        self.rest = rest;
        Ok(Some(*first))
    }

    fn take_number(&mut self, count: u32) -> Result<Option<u32>, Fault>
        requires some { 1 ≤ count }
        requires few { count ≤ 4 }
        ensures enough { IsOkAnd result (λ taken. IsSome taken ↔ (4 ≤ length self.old)) }
        ensures front { IsOkAnd result (λ taken. IfSome taken (λ number. bytes_high_first count number ≡ take count self.old)) }
        ensures below { IsOkAnd result (λ taken. IfSome taken (λ number. number < 2 ^ (8 * count))) }
        ensures taken { IsOkAnd result (λ taken. self.new ≡ drop (if is_some taken then count else 0) self.old) }
        ensures bounded { length self.old ≤ 2 ^ 60 }
    {
        if self.rest.len() < 4 {
            return Ok(None);
        }
        let number = front_number(self.rest, count);
        self.rest = &self.rest[count as usize..];
        Ok(Some(number))
    }
}

/// The number in the first `count` of four bytes or more, 1 to 4, the first the most significant.
fn front_number(bytes: &[u8], count: u32) -> u32
    requires long { 4 ≤ length bytes.now }
    requires some { 1 ≤ count }
    requires few { count ≤ 4 }
    ensures front { bytes_high_first count result ≡ take count bytes.now }
    ensures below { result < 2 ^ (8 * count) }
{
    let word = u32::from_be_bytes([bytes[0], bytes[1], bytes[2], bytes[3]]);
    word >> (32 - 8 * count)
}
