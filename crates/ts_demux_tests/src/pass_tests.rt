//! Packets of sources that give their bytes in pieces, and that fail.

use crate::files::*;
use crate::sections::*;
use shelf_io::{Fault, Reading};
use shelf_kinds::{CalmShelf, MemShelf, ShortShelf};
use std::alloc::{AllocError, Global};
use std::test::Fail;
use stream_constants::packets::PACKET_BYTES;
use test_packets::{VIDEO_PID, file_of};
use ts_demux::{PacketBuffer, demux, read_map};

/// How many bytes a call gives at most: parts of a packet, one, and all.
const GIVEN: [u32; 5] = [1, 187, 188, 189, 65_536];

/// The bytes of a room: a packet's, one more, less than two packets', and those in use.
const ROOMS: [usize; 4] = [188, 189, 375, 65_536];

/// PAT and PMT, six packets of PID 17 that differ, and three bytes.
fn numbered_file(alloc: Global) -> Result<Vec<u8>, AllocError> {
    let mut file = file_of(alloc, &[pat(), pmt()])?;
    for number in 0..6u8 {
        file.extend_from_slice(&begins(17, number, &[number; 184]))?;
    }
    file.extend_from_slice(&[0x47, 0x01, 0x02])?;
    Ok(file)
}

/// A shelf that holds a file under the name `a` and gives so many bytes a call.
fn short_shelf(rt: &HostRuntime, file: &[u8], given: u32) -> Result<ShortShelf, Fault> {
    let mut inner = CalmShelf::new(rt.alloc());
    inner.put_file("a", file)?;
    Ok(ShortShelf::new(inner, given.max(1)))
}

#[test]
fn each_packet_comes_once_whatever_a_call_gives(rt: HostRuntime) -> Result<(), Fail> {
    let file = numbered_file(rt.alloc())?;
    for given in GIVEN {
        for room in ROOMS {
            let mut shelf = short_shelf(&rt, file.as_slice(), given)?;
            let mut source = Reading::new(&mut shelf, "a");
            let mut buffer = PacketBuffer::new(vec![in rt.alloc(); 0u8; room.max(PACKET_BYTES)]?);
            let mut packets = 0u32;
            for expected in file.as_slice().chunks(PACKET_BYTES) {
                buffer.fill(&mut source)?;
                let Some(packet) = buffer.first() else {
                    assert_eq!(rt; expected, [0x47u8, 0x01, 0x02].as_slice());
                    assert_eq!(rt; buffer.rest(), [0x47u8, 0x01, 0x02].as_slice());
                    break;
                };
                assert_eq!(rt; packet.as_slice(), expected);
                buffer.pass();
                packets = packets.wrapping_add(1);
            }
            assert_eq!(rt; packets, 8);
        }
    }
    Ok(())
}

#[test]
fn tables_across_the_pieces_of_a_source(rt: HostRuntime) -> Result<(), Fail> {
    let file = numbered_file(rt.alloc())?;
    for given in GIVEN {
        for room in ROOMS {
            let mut shelf = short_shelf(&rt, file.as_slice(), given)?;
            let mut source = Reading::new(&mut shelf, "a");
            let mut buffer = PacketBuffer::new(vec![in rt.alloc(); 0u8; room.max(PACKET_BYTES)]?);
            let map = read_map(&mut buffer, &mut source, 1)?;
            assert_eq!(rt; map.number, 1);
            assert_eq!(rt; map.streams.len(), 2);
        }
    }
    Ok(())
}

#[test]
fn a_read_that_fails_loses_no_byte(rt: HostRuntime) -> Result<(), Fail> {
    let file = numbered_file(rt.alloc())?;
    let mut shelf = MemShelf::new(rt.alloc(), vec![in rt.alloc(); 1, 4, 5]?);
    shelf.put_file("a", file.as_slice())?;
    let mut source = Reading::new(&mut shelf, "a");
    let mut buffer = PacketBuffer::new(vec![in rt.alloc(); 0u8; 189]?);
    let mut faults = 0u32;
    for expected in file.as_slice().chunks(PACKET_BYTES) {
        for _ in 0..3 {
            if buffer.fill(&mut source).is_ok() {
                break;
            }
            faults = faults.wrapping_add(1);
        }
        let Some(packet) = buffer.first() else {
            break;
        };
        assert_eq!(rt; packet.as_slice(), expected);
        buffer.pass();
    }
    assert_eq!(rt; faults, 3);
    assert_eq!(rt; buffer.rest(), [0x47u8, 0x01, 0x02].as_slice());
    Ok(())
}

#[test]
fn a_program_longer_than_a_room(rt: HostRuntime) -> Result<(), Fail> {
    let mut file = file_of(rt.alloc(), &[pat(), pmt()])?;
    file.extend_from_slice(&begins(VIDEO_PID, 0, &[0; 184]))?;
    let mut number = 0u8;
    for _ in 1..400 {
        number = number.wrapping_add(1);
        file.extend_from_slice(&goes_on(VIDEO_PID, number % 16, &[number; 184]))?;
    }
    let demuxed = demux(rt.alloc(), file.as_slice(), 1, &[])?;
    assert!(rt; are_units(demuxed.video.as_slice(), &[(376, 73_600)]));
    let Some(unit) = demuxed.video.as_slice().first() else {
        return Ok(());
    };
    let mut number = 0u8;
    for payload in unit.bytes.as_slice().chunks(184) {
        assert_eq!(rt; payload, [number; 184].as_slice());
        number = number.wrapping_add(1);
    }
    Ok(())
}
