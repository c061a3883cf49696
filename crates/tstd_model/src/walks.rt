ghost use Rattle.std.specs.Prelude.{◌≡◌, ◌^◌, ◌≤◌, drop, map};
ghost use Rattle.std.specs.Option.{option_to_list};
ghost use Rattle.tstd_model.specs.Faults.{hold_subticks};
ghost use Rattle.tstd_model.specs.Private.Cursors.{is_wanted, bytes_with, instants_of};
ghost use Rattle.tstd_model.specs.Private.Scans.{first_over, first_late, first_old, is_held};
ghost use Rattle.tstd_model.specs.Private.Server.{EachAtMost};

use crate::decoder_input::PacketPart;
use crate::instants::Instants;
use crate::packet_bytes::{PacketByte, PacketBytes};
use crate::passing::Wanted;
use crate::removed_bytes::{RemovedByte, RemovedBytes};
use stream_constants::clock::SUBTICKS_PER_TICK;
use stream_constants::decoder::HOLD_TICKS;

/// The instants behind the first ones.
fn without_first<I: Instants>(mut instants: I, count: u64) -> I
    ensures { I.left result ≡ drop count (I.left instants) }
{
    for _past in 0..count {
        let Some(_instant) = instants.next() else {
            break;
        };
    }
    instants
}

/// The first instant at which a buffer of this size is over it, by those at which bytes come and leave.
#[tactic(auto, unfolding(crate::specs::Private::Scans::first_over))]
pub fn first_over<I: Instants, O: Instants>(size: u64, ins: I, mut outs: O) -> Option<u64>
    ensures { result ≡ first_over (drop size (I.left ins)) (O.left outs) }
{
    let mut later = without_first(ins, size);
    'bytes: loop {
        let Some(comes) = later.next() else {
            return None;
        };
        match outs.next() {
            Some(leaves) => {
                if leaves > comes {
                    return Some(comes);
                }
            }
            None => return Some(comes),
        }
    }
}

/// The first byte that is taken before it has come.
#[tactic(auto, unfolding(crate::specs::Private::Scans::first_late))]
pub fn first_late<C: Instants>(mut completes: C, mut removed: RemovedBytes) -> Option<RemovedByte>
    ensures { result ≡ first_late (C.left completes) removed.entry }
{
    'bytes: loop {
        let Some(byte) = removed.next_byte() else {
            return None;
        };
        match completes.next() {
            Some(instant) => {
                if instant >= byte.at {
                    return Some(byte);
                }
            }
            None => return Some(byte),
        }
    }
}

/// Subticks that a byte may be held.
pub const HOLD_SUBTICKS: u64 = SUBTICKS_PER_TICK * HOLD_TICKS;

/// Whether a byte is data, and isn't taken within the limit, of those bytes that removals take.
#[tactic(auto, unfolding(crate::specs::Private::Scans::is_held))]
fn is_held(byte: PacketByte, taken: Option<RemovedByte>) -> bool
    requires { byte.at ≤ 2 ^ 62 }
    ensures { result ≡ is_held hold_subticks byte.part byte.at (map (λ b. b.at) (option_to_list taken)) }
{
    match byte.part {
        PacketPart::Overhead => false,
        PacketPart::PesHeader => false,
        PacketPart::Data => match taken {
            Some(taken) => byte.at + HOLD_SUBTICKS < taken.at,
            None => true,
        },
    }
}

/// The first instant past the limit at which a byte of data is held, of the wanted bytes, which removals take.
pub fn first_old(mut bytes: PacketBytes, wanted: Wanted, mut removed: RemovedBytes) -> Option<u64>
    requires { EachAtMost (2 ^ 62) (instants_of bytes) }
    ensures { result ≡ first_old hold_subticks (map (λ b. b.part) (bytes_with (is_wanted wanted) bytes.entry)) (instants_of (bytes_with (is_wanted wanted) bytes.entry)) (map (λ b. b.at) removed.entry) }
{
    'bytes: loop {
        let Some(byte) = bytes.next_byte() else {
            return None;
        };
        if wanted.takes(byte.part) {
            let taken = removed.next_byte();
            if is_held(byte, taken) {
                return Some(byte.at + HOLD_SUBTICKS + 1);
            }
        }
    }
}
