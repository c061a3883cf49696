//! Packets and files of them, and their audit, for tests.

ghost use Rattle.std.specs.Prelude.{IfOk};
ghost use Rattle.stream_audit.specs.Audit.{AreAuditable};

use crate::sections::{PAT, PMT};
use list_types::ListOf;
use std::alloc::{AllocError, Global};
use stream_audit::{AuditStop, FaultName, Finding, KeptUnits, audit};
use stream_constants::packets::{PACKET_BYTES, SYNC_BYTE};
use test_packets::{MAP_PID, PAT_PID, file_of, packet, table};
use ts_demux::PesUnit;
use tstd_model::Removal;

/// The bytes of the video that the files have, from the sequence header on.
pub const VIDEO_BYTES: u32 = 162;

/// A PES header of video with a PTS of 0, and what a sequence header begins with.
const PES_AND_SEQUENCE: [u8; 18] = [
    0x00, 0x00, 0x01, 0xE0, 0x00, 0x00, 0x80, 0x80, 0x05, 0x21, 0x00, 0x01, 0x00, 0x01, 0x00, 0x00,
    0x01, 0xB3,
];

/// The packet of the PAT, and that of the PMT.
pub fn pat() -> [u8; PACKET_BYTES] {
    table(PAT_PID, 0, &PAT)
}

pub fn pmt() -> [u8; PACKET_BYTES] {
    table(MAP_PID, 0, &PMT)
}

/// An adaptation field of so many bytes behind its first one, with a clock reference (2.4.3.5).
fn reference(length: u8, pcr: u64) -> [u8; 8] {
    let base = pcr / 300;
    let [_, _, _, _, first, second, third, fourth] = (base / 2).to_be_bytes();
    let [high, low] = ((pcr % 300) as u16).to_be_bytes();
    let odd = ((base % 2) as u8) << 7;
    [
        length,
        0x10,
        first,
        second,
        third,
        fourth,
        odd | 0x7E | high,
        low,
    ]
}

/// The video's first packet, with a clock reference: a PES packet of no stated length, and in it `VIDEO_BYTES` bytes.
pub fn video(pcr: u64) -> [u8; PACKET_BYTES] {
    packet(
        [SYNC_BYTE, 0x41, 0x01, 0x30],
        &reference(7, pcr),
        &PES_AND_SEQUENCE,
    )
}

/// The same without a clock reference, whose payload begins with these bytes.
pub fn video_of_bytes(payload: &[u8]) -> [u8; PACKET_BYTES] {
    packet([SYNC_BYTE, 0x41, 0x01, 0x10], &[], payload)
}

/// A packet of the video's PID with a clock reference and no payload.
pub fn clock(pcr: u64) -> [u8; PACKET_BYTES] {
    packet([SYNC_BYTE, 0x01, 0x01, 0x20], &reference(183, pcr), &[])
}

/// One of the video's PID with 184 bytes that go on, and this counter.
pub fn more_video(counter: u8) -> [u8; PACKET_BYTES] {
    packet([SYNC_BYTE, 0x01, 0x01, 0x10 | counter], &[], &[])
}

/// One of PID 0 without payload.
pub fn without_payload() -> [u8; PACKET_BYTES] {
    packet([SYNC_BYTE, 0x00, 0x00, 0x20], &[183, 0], &[])
}

/// The PES packet of the video's first packet.
pub fn pes_packet(alloc: Global) -> Result<PesUnit, AllocError> {
    let packet = video(0);
    let mut bytes = Vec::new(alloc);
    bytes.extend_from_slice(&packet[12..])?;
    Ok(PesUnit {
        at: 376,
        bytes: ListOf::from_vec(bytes),
    })
}

/// One unit, of so many bytes and due so many ticks behind a program's base, which is 0.
pub fn one_unit(alloc: Global, due: u32, bytes: u32) -> Result<KeptUnits, AllocError>
    ensures { IfOk result AreAuditable }
{
    let mut units = Vec::new(alloc);
    units.push(Removal {
        due: u64::from(due),
        bytes,
    })?;
    Ok(KeptUnits {
        base: 0,
        vbv: 1,
        units: ListOf::from_vec(units),
    })
}

/// What an audit answers.
pub type Answer = Result<Option<Finding>, AuditStop>;

/// What the audit of program 1 in a file finds, where one unit of so many bytes is due so many ticks behind the first byte.
pub fn audited(
    alloc: Global,
    packets: &[[u8; PACKET_BYTES]],
    slot: u16,
    due: u32,
    bytes: u32,
) -> Answer {
    let file = file_of(alloc, packets)?;
    let kept = one_unit(alloc, due, bytes)?;
    audit(alloc, file.as_slice(), 1, u32::from(slot), &kept)
}

/// A finding on a PID.
pub fn found(pid: u16, fault: FaultName, at: u64) -> Answer {
    Ok(Some(Finding { pid, fault, at }))
}

/// A file in slots of so many ticks, its one unit, and what its audit answers.
#[derive(Drop)]
pub struct Case<'a> {
    pub packets: &'a [[u8; PACKET_BYTES]],
    pub slot: u16,
    pub due: u32,
    pub bytes: u32,
    pub answer: Answer,
}

/// A file whose unit has `VIDEO_BYTES` bytes.
pub fn whole_unit<'a>(
    packets: &'a [[u8; PACKET_BYTES]],
    slot: u16,
    due: u32,
    answer: Answer,
) -> Case<'a> {
    Case {
        packets,
        slot,
        due,
        bytes: VIDEO_BYTES,
        answer,
    }
}

/// One in slots of 40,000 ticks, which ends before its unit is due.
pub fn slow<'a>(packets: &'a [[u8; PACKET_BYTES]], answer: Answer) -> Case<'a> {
    whole_unit(packets, 40_000, 200_000, answer)
}

/// The first of some cases that isn't so.
pub fn first_wrong(alloc: Global, cases: &[Case]) -> Option<usize> {
    for (at, case) in cases.iter().enumerate() {
        if audited(alloc, case.packets, case.slot, case.due, case.bytes) != case.answer {
            return Some(at);
        }
    }
    None
}
