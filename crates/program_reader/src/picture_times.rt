//! Which times of PES headers belong to which picture (ISO/IEC 13818-1, 2.4.3.7).
ghost use Rattle.std.specs.Prelude.{◌≡◌, ◌≤◌, length, All, IfOk};
ghost use Rattle.program_reader.specs.Private.StampedPictures.{stamps_of};

use elementary_streams::PlacedPacket;
use es_units::find_picture;
use pes_units::Times;
use std::alloc::{AllocError, Global};

/// The first picture that begins in a PES packet: where it begins, and the packet's times.
#[derive(Clone, Copy)]
pub struct StampedPicture {
    pub at: u64,
    pub times: Times,
}

/// The first picture of each PES packet in which one begins.
pub fn stamped_pictures(
    alloc: Global,
    es: &[u8],
    packets: &[PlacedPacket],
) -> Result<Vec<StampedPicture>, AllocError>
    requires { All (λ packet. packet.end ≤ length es.now) packets.now }
    ensures { IfOk result (λ stamps. stamps.items ≡ stamps_of es.now packets.now) }
{
    let mut stamps = Vec::new(alloc);
    for packet in packets {
        if let Some(at) = find_picture(es, packet.from as usize, packet.end as usize) {
            stamps.push(StampedPicture {
                at: at as u64,
                times: packet.header.times,
            })?;
        }
    }
    Ok(stamps)
}
