//! Which streams are carried, and their packets.

use crate::element_tests::{PACK, file_of};
use program_stream::{SplitFault, split};
use std::alloc::{AllocError, Global};
use std::test::Fail;
use ts_demux::PesUnit;

/// A packet of one byte, of a stream of an id.
pub fn packet(id: u8, byte: u8) -> [u8; 7] {
    [0, 0, 1, id, 0, 1, byte]
}

/// Two video streams, two audio streams, a private stream, padding, and stuffing in a pack header.
pub fn several(alloc: Global) -> Result<Vec<u8>, AllocError> {
    let mut stuffed = PACK;
    stuffed[13] = 0xFA;
    file_of(
        alloc,
        &[
            &stuffed,
            &[0xFF, 0xFF],
            &packet(0xE1, 1),
            &packet(0xC1, 2),
            &packet(0xE0, 3),
            &packet(0xBD, 4),
            &PACK,
            &packet(0xBE, 5),
            &packet(0xC0, 6),
            &packet(0xE1, 7),
            &packet(0xC1, 8),
        ],
    )
}

/// True where the packets stand at these places and end with these bytes.
fn are_packets(units: &[PesUnit], wanted: &[(u64, u8)]) -> bool {
    units.len() == wanted.len()
        && units.iter().zip(wanted).all(|(unit, (at, byte))| {
            unit.at == *at && unit.bytes.len() == 7 && unit.bytes.as_slice().last() == Some(byte)
        })
}

#[test]
fn the_first_video_and_all_audio(rt: HostRuntime) -> Result<(), Fail> {
    let file = several(rt.alloc())?;
    let (demuxed, cut) = split(rt.alloc(), file.as_slice(), &[])?;
    assert_eq!(rt; cut, 0);
    assert_eq!(rt; demuxed.rest, 0);
    assert_eq!(rt; demuxed.map.number, 1);
    assert_eq!(rt; demuxed.map.pcr_pid, 8191);
    assert!(rt; are_packets(demuxed.video.as_slice(), &[(16, 1), (72, 7)]));
    assert_eq!(rt; demuxed.audios.len(), 2);
    if let Some(audio) = demuxed.audios.as_slice().first() {
        assert_eq!(rt; audio.pid, 0xC1);
        assert!(rt; are_packets(audio.units.as_slice(), &[(23, 2), (79, 8)]));
    }
    assert_eq!(rt; demuxed.not_carried.as_slice(), [0xE0, 0xBD].as_slice());
    Ok(())
}

#[test]
fn a_stream_that_is_dropped_is_listed(rt: HostRuntime) -> Result<(), Fail> {
    let file = several(rt.alloc())?;
    let (demuxed, _cut) = split(rt.alloc(), file.as_slice(), &[0xC1, 0xE1])?;
    assert_eq!(rt; demuxed.video.len(), 2);
    assert_eq!(rt; demuxed.audios.len(), 1);
    assert_eq!(rt;
        demuxed.not_carried.as_slice(),
        [0xC1, 0xE0, 0xBD].as_slice()
    );
    Ok(())
}

#[test]
fn nine_audio_streams(rt: HostRuntime) -> Result<(), Fail> {
    let mut file = file_of(rt.alloc(), &[&PACK, &packet(0xE0, 1)])?;
    for id in 0xC0..0xC8u8 {
        file.extend_from_slice(&packet(id, 2))?;
    }
    let (demuxed, _cut) = split(rt.alloc(), file.as_slice(), &[])?;
    assert_eq!(rt; demuxed.audios.len(), 8);
    file.extend_from_slice(&packet(0xDF, 2))?;
    let refused = match split(rt.alloc(), file.as_slice(), &[]) {
        Ok(_) => None,
        Err(fault) => Some(fault),
    };
    assert_eq!(rt; refused, Some(SplitFault::ProgramLimit { at: 0 }));
    let (eight, _cut) = split(rt.alloc(), file.as_slice(), &[0xDF])?;
    assert_eq!(rt; eight.audios.len(), 8);
    Ok(())
}
