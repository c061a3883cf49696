ghost use Rattle.std.specs.Prelude.{◌≡◌, ◌<◌, ◌≤◌, ◌^◌, [], length, drop, min, slice_get, IsOkAnd};
ghost use Rattle.shelf_io.specs.Buffer.{CopiesFront};
ghost use Rattle.ts_packets.specs.Carried.{joined_payload};
ghost use Rattle.ts_demux.specs.Payloads.{payload_behind};
ghost use Rattle.ts_demux.specs.Private.PayloadWalk.{IsRefilled};

use crate::payload_walk::{Added, PayloadWalk};
use shelf_io::{Fault, Source, copy_front};
use std::marker::Model;

/// A source over the joined payload of one PID, which never fails. A packet that is sent twice is taken once, and what
/// is refused as a packet is passed over. Contracts see the bytes that are left.
#[derive(Drop)]
pub struct Payloads<'a> {
    walk: PayloadWalk<'a>,
    /// What is left of the last packet's payload.
    payload: &'a [u8],
}

impl<'a> Model for Payloads<'a> {
    ghost use Rattle.std.specs.Prelude.{ℕ, List, length, ◌≤◌, ◌^◌, ◌++◌};
    ghost use Rattle.ts_demux.specs.Payloads.{payload_behind};

    ghost Value = { List ℕ };

    ghost view = { λ source. source.payload.now ++ payload_behind source.walk.file.now source.walk.pid source.walk.next source.walk.last };

    ghost invariant = { λ source. length (source.payload.now ++ payload_behind source.walk.file.now source.walk.pid source.walk.next source.walk.last) ≤ 2 ^ 60 };
}

impl<'a> Payloads<'a> {
    /// A source of what a PID carries in a file.
    pub fn new(file: &'a [u8], pid: u16) -> Self
        requires { length file.now ≤ 2 ^ 60 }
        ensures { result ≡ joined_payload file.now pid }
    {
        let walk = PayloadWalk {
            file,
            pid,
            next: 0,
            last: None,
        };
        Payloads { walk, payload: &[] }
    }
}

/// Goes on to the next payload, if this one is used up, and answers it: empty only at the end.
fn refilled<'a>(walk: &mut PayloadWalk<'a>, current: &'a [u8]) -> &'a [u8]
    ensures { IsRefilled current.now walk.old result.now walk.new }
{
    let mut payload = current;
    while payload.is_empty() {
        match walk.step() {
            Added::Payload(added) => payload = added,
            Added::Nothing => {}
            Added::End => return payload,
        }
    }
    payload
}

impl<'a> Source for Payloads<'a> {
    ghost use Rattle.std.specs.Prelude.{Some};
    ghost use Rattle.std.proofs.Common.{rules, arith};

    ghost left = { λ bytes. Some bytes };

    ghost most = { λ bytes. min (length bytes) (2 ^ 60) };

    ghost faults = { λ _. 0 };

    ghost absences = { λ _. 0 };

    ghost keeps = { λ _ _. Unit {0} };

    ghost most_fits = { λ bytes. Prim.omega arith };

    ghost keeps_itself = { Prim.search rules };

    ghost keeps_on = { Prim.search rules };

    fn take(&mut self, buf: &mut [u8]) -> Result<usize, Fault>
        ensures count { IsOkAnd result (λ n. n ≤ length buf.old) }
        ensures fills { IsOkAnd result (CopiesFront self.old buf.old buf.new) }
        ensures taken { IsOkAnd result (λ n. self.new ≡ drop n self.old) }
        ensures bounded { length self.old ≤ 2 ^ 60 }
    {
        let payload = refilled(&mut self.walk, self.payload);
        let count = copy_front(payload, buf);
        self.payload = &payload[count..];
        Ok(count)
    }

    fn take_byte(&mut self) -> Result<Option<u8>, Fault>
        ensures first { IsOkAnd result (λ byte. byte ≡ slice_get self.old 0) }
        ensures taken { self.new ≡ drop 1 self.old }
        ensures bounded { length self.old ≤ 2 ^ 60 }
    {
        let payload = refilled(&mut self.walk, self.payload);
        let Some((first, rest)) = payload.split_first() else {
            self.payload = payload;
            return Ok(None);
        };
        self.payload = rest;
        Ok(Some(*first))
    }
}
