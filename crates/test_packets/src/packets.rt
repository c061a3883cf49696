//! Packets, and files of them.

use std::alloc::{AllocError, Global};
use stream_constants::packets::{PACKET_BYTES, SYNC_BYTE};

/// The PIDs of the files' tables: that of the PAT, and that of the map of program 1.
pub const PAT_PID: u16 = 0;

pub const MAP_PID: u16 = 256;

/// What fills a packet behind what is said of it.
pub const FILL: u8 = 0xFF;

/// A packet of these parts, filled.
pub fn packet(header: [u8; 4], front: &[u8], behind: &[u8]) -> [u8; PACKET_BYTES] {
    let mut bytes = [FILL; PACKET_BYTES];
    let parts = header.iter().chain(front).chain(behind);
    for (to, from) in bytes.iter_mut().zip(parts) {
        *to = *from;
    }
    bytes
}

/// A packet of a PID, with a section in its payload behind a pointer of 0.
pub fn table(pid: u16, counter: u8, section: &[u8]) -> [u8; PACKET_BYTES] {
    let [high, low] = pid.to_be_bytes();
    packet([SYNC_BYTE, 0x40 | high, low, 0x10 | counter], &[0], section)
}

/// A packet of a PID, which begins a PES packet or goes on with one; each byte of its payload is this one.
pub fn alike(pid: u16, start: bool, counter: u8, byte: u8) -> [u8; PACKET_BYTES] {
    let [high, low] = pid.to_be_bytes();
    let flag = if start { 0x40 } else { 0 };
    let mut bytes = [byte; PACKET_BYTES];
    bytes[0] = SYNC_BYTE;
    bytes[1] = flag | high;
    bytes[2] = low;
    bytes[3] = 0x10 | counter;
    bytes
}

/// The bytes of a file of these packets.
pub fn file_of(alloc: Global, packets: &[[u8; PACKET_BYTES]]) -> Result<Vec<u8>, AllocError> {
    let mut file = Vec::new(alloc);
    for packet in packets {
        file.extend_from_slice(packet)?;
    }
    Ok(file)
}
