//! The bytes of an audio stream's PES packets.
ghost use Rattle.std.specs.Prelude.{◌≡◌, ◌≤◌, length, take, IfOk};
ghost use Rattle.std.specs.List.{flat_map};

use elementary_streams::bytes_of;
use list_types::{ListOf, OutOfMemory};
use std::alloc::Global;
use ts_demux::PesUnit;

/// The bytes of the first so many PES packets, one packet behind the other.
pub fn packet_bytes(
    alloc: Global,
    packets: &[PesUnit],
    count: usize,
) -> Result<ListOf<u8>, OutOfMemory>
    requires { count ≤ length packets.now }
    ensures { IfOk result (λ bytes. bytes ≡ flat_map (λ packet. packet.bytes) (take count packets.now)) }
{
    let mut bytes = Vec::with_capacity(alloc, bytes_of(packets))?;
    for packet in &packets[..count] {
        bytes.extend_from_slice(packet.bytes.as_slice())?;
    }
    Ok(ListOf::from_vec(bytes))
}
