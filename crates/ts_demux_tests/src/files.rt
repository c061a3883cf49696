//! Packets and files of them, for tests.

use crate::sections::{PAT, PMT};
use std::alloc::{AllocError, Global};
use stream_constants::packets::{PACKET_BYTES, SYNC_BYTE};
use test_packets::{MAP_PID, PAT_PID, file_of, packet, table};
use ts_demux::{DemuxFault, PesUnit, demux};

/// A packet that begins a section or PES packet: its PID, its counter, and what its payload begins with.
pub fn begins(pid: u16, counter: u8, payload: &[u8]) -> [u8; PACKET_BYTES] {
    let [high, low] = pid.to_be_bytes();
    packet([SYNC_BYTE, 0x40 | high, low, 0x10 | counter], &[], payload)
}

/// One that begins none.
pub fn goes_on(pid: u16, counter: u8, payload: &[u8]) -> [u8; PACKET_BYTES] {
    let [high, low] = pid.to_be_bytes();
    packet([SYNC_BYTE, high, low, 0x10 | counter], &[], payload)
}

/// One that begins none, with an adaptation field: the field with its length byte, and what the payload begins with.
pub fn with_field(pid: u16, counter: u8, field: &[u8], payload: &[u8]) -> [u8; PACKET_BYTES] {
    let [high, low] = pid.to_be_bytes();
    packet([SYNC_BYTE, high, low, 0x30 | counter], field, payload)
}

/// One without payload: the flags of its adaptation field.
pub fn without_payload(pid: u16, counter: u8, flags: u8) -> [u8; PACKET_BYTES] {
    let [high, low] = pid.to_be_bytes();
    packet([SYNC_BYTE, high, low, 0x20 | counter], &[183, flags], &[])
}

/// The packet of program 1's PAT.
pub fn pat() -> [u8; PACKET_BYTES] {
    table(PAT_PID, 0, &PAT)
}

/// That of its PMT.
pub fn pmt() -> [u8; PACKET_BYTES] {
    table(MAP_PID, 0, &PMT)
}

/// The packets of a file behind others, and what `demux` refuses program 1 there for, with no stream dropped.
pub type Case<'a> = (&'a [[u8; PACKET_BYTES]], Option<DemuxFault>);

/// The first of some cases that isn't so, each behind these packets.
pub fn first_wrong(
    alloc: Global,
    front: &[[u8; PACKET_BYTES]],
    cases: &[Case],
) -> Result<Option<usize>, AllocError> {
    for (at, (packets, fault)) in cases.iter().enumerate() {
        let mut file = file_of(alloc, front)?;
        for packet in *packets {
            file.extend_from_slice(packet)?;
        }
        if demux(alloc, file.as_slice(), 1, &[]).err() != *fault {
            return Ok(Some(at));
        }
    }
    Ok(None)
}

/// True where these are PES packets at these places, of these many bytes.
pub fn are_units(units: &[PesUnit], said: &[(u64, usize)]) -> bool {
    let same = units.iter().zip(said).all(|(unit, (at, len))| unit.at == *at
        && unit.bytes.len() == *len);
    same && units.len() == said.len()
}
