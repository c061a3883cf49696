ghost use Rattle.std.specs.Prelude.{◌≡◌, ◌+◌, ◌<◌, ◌++◌, ℕ, List, length, IfOk};
ghost use Rattle.bit_lists.specs.Bits.{bits_of};
ghost use Rattle.bit_lists.specs.Fields.{AreBytes, bit_list};
ghost use Rattle.picture_heads.specs.Heads.{HasDelay, IsHeadWithoutDelay};
ghost use Rattle.picture_heads.specs.Private.Walk.{with_ones};

use crate::place::behind_picture_code;
use list_types::{ListOf, OutOfMemory};
use std::alloc::Global;

/// The last bits of a byte, in which vbv_delay begins behind temporal_reference and picture_coding_type.
const FIRST_BITS: u8 = 0b0000_0111;

/// The first bits of a byte, in which vbv_delay ends.
const LAST_BITS: u8 = 0b1111_1000;

/// The same head with a vbv_delay that says nothing.
pub fn without_delay(alloc: Global, head: &[u8]) -> Result<ListOf<u8>, OutOfMemory>
    requires { (front : List ℕ) × (delay : List ℕ) × (back : List ℕ) × HasDelay head.now front delay back }
    ensures { IfOk result (λ made. IsHeadWithoutDelay head.now made) }
{
    let mut bytes = head.to_vec(alloc)?;
    match behind_picture_code(head) {
        Some(at) => set_delay(&mut bytes, at),
        None => unreachable!(),
    }
    Ok(ListOf::from_vec(bytes))
}

/// Sets the bits of vbv_delay behind the picture's start code.
fn set_delay(bytes: &mut [u8], at: usize)
    requires { at + 3 < length bytes.old }
    ensures { bytes.new ≡ with_ones bytes.old at }
{
    bytes[at + 1] |= FIRST_BITS;
    bytes[at + 2] = u8::MAX;
    bytes[at + 3] |= LAST_BITS;
}
