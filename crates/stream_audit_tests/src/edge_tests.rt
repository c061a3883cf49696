//! Each fault at its edge, beside its neighbour.

use crate::files::{
    VIDEO_BYTES, clock, first_wrong, found, more_video, pat, pmt, slow, video, whole_unit,
    without_payload,
};
use std::alloc::{AllocError, Global};
use std::test::Fail;
use stream_audit::FaultName;
use stream_constants::packets::PACKET_BYTES;
use test_packets::{PAT_PID, VIDEO_PID};

// A slot of 40,000 ticks: the reference's byte in the packet of number 2 comes 2 * 40,000 + 10 * 40,000 / 188 = 82,127 ticks behind the file's first byte.
#[test]
fn a_unit_that_is_there_and_one_with_a_byte_more(rt: HostRuntime) {
    let packets = [pat(), pmt(), video(82_127)];
    let mut larger = slow(&packets, found(VIDEO_PID, FaultName::Late, 0));
    larger.bytes = VIDEO_BYTES + 1;
    let cases = [slow(&packets, Ok(None)), larger];
    assert_eq!(rt; first_wrong(rt.alloc(), &cases), None);
}

// The reference of the packet of number 3 should say 122,127.
#[test]
fn references_that_are_off_by_13_and_14_ticks(rt: HostRuntime) {
    let video = video(82_127);
    let off = found(VIDEO_PID, FaultName::Pcr, 564);
    let wrong = first_wrong(
        rt.alloc(),
        &[
            slow(&[pat(), pmt(), video, clock(122_140)], Ok(None)),
            slow(&[pat(), pmt(), video, clock(122_141)], off),
            slow(&[pat(), pmt(), video, clock(122_114)], Ok(None)),
            slow(&[pat(), pmt(), video, clock(122_113)], off),
        ],
    );
    assert_eq!(rt; wrong, None);
}

/// Three packets of video, the first of which has a clock reference and comes in the slot of number 2.
fn three_packets(pcr: u64) -> [[u8; PACKET_BYTES]; 5] {
    [pat(), pmt(), video(pcr), more_video(1), more_video(2)]
}

// The last of 564 bytes comes 563 * 5 * slot subticks behind the first one. In slots of 209 ticks these are 588,335, in which 52 bytes have left, each in
// 11,280, and 512 are there; in slots of 208 ticks they are 585,520, in which 51 have, and 513 are there. The first one came at 2 * 188 * 5 * 208 = 391,040.
#[test]
fn a_transport_buffer_with_512_and_513_bytes(rt: HostRuntime) {
    let full = three_packets(429);
    let over = three_packets(427);
    let overflow = found(VIDEO_PID, FaultName::Overflow, 976_560);
    let cases = [
        whole_unit(&full, 209, 30_000, Ok(None)),
        whole_unit(&over, 208, 30_000, overflow),
    ];
    assert_eq!(rt; first_wrong(rt.alloc(), &cases), None);
}

// In slots of 94 ticks the first byte of the unit, the 27th of its packet, comes (2 * 188 + 26) * 5 * 94 = 188,940 subticks behind the file's first byte,
// which are 201 ticks.
#[test]
fn a_byte_that_is_held_for_a_second_and_one_for_longer(rt: HostRuntime) {
    let packets = [pat(), pmt(), video(193)];
    let old = found(VIDEO_PID, FaultName::Old, 25_380_188_941);
    let cases = [
        whole_unit(&packets, 94, 27_000_201, Ok(None)),
        whole_unit(&packets, 94, 27_000_202, old),
    ];
    assert_eq!(rt; first_wrong(rt.alloc(), &cases), None);
}

/// The packets of a file whose sections' transport buffer gets those of PAT and PMT and so many more behind each other, from the slot of number 1 on.
fn busy(alloc: Global, more: usize) -> Result<Vec<[u8; PACKET_BYTES]>, AllocError> {
    let mut packets = Vec::new(alloc);
    packets.push(video(2_160))?;
    packets.push(pat())?;
    packets.push(pmt())?;
    for _ in 0..more {
        packets.push(without_payload())?;
    }
    Ok(packets)
}

// In slots of 40,608 ticks each byte comes 5 * 40,608 = 203,040 subticks behind the one before, which leaves just then. A second is 25,380,000,000 subticks, in
// which 125,000 bytes leave: 664 packets have 124,832, 665 have 125,020. The first byte comes 188 * 203,040 = 38,171,520 subticks behind the file's first one.
#[test]
fn a_transport_buffer_that_is_busy_for_less_than_a_second_and_for_one(
    rt: HostRuntime,
) -> Result<(), Fail> {
    let less = busy(rt.alloc(), 662)?;
    let whole = busy(rt.alloc(), 663)?;
    let full = found(PAT_PID, FaultName::Full, 25_418_171_520);
    let cases = [
        whole_unit(less.as_slice(), 40_608, 100_000, Ok(None)),
        whole_unit(whole.as_slice(), 40_608, 100_000, full),
    ];
    assert_eq!(rt; first_wrong(rt.alloc(), &cases), None);
    Ok(())
}
