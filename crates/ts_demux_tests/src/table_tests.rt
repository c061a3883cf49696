//! Which PAT and PMT sections are taken, and what is refused of them.

use crate::files::*;
use crate::sections::*;
use std::test::Fail;
use stream_constants::packets::PACKET_BYTES;
use test_packets::{AUDIO_PID, MAP_PID, PAT_PID, VIDEO_PID, file_of, table};
use ts_demux::{DemuxFault, demux};

/// The PMT of 184 bytes but its last one.
fn long_pmt_front() -> [u8; 183] {
    let mut bytes = [0; 183];
    bytes[..19].copy_from_slice(&LONG_PMT_FRONT);
    bytes[175..].copy_from_slice(&LONG_PMT_END[..8]);
    bytes
}

/// A packet of the PAT's PID whose payload ends with the first three bytes of the section.
fn first_third() -> [u8; PACKET_BYTES] {
    let mut bytes = begins(PAT_PID, 4, &[180]);
    bytes[185..].copy_from_slice(&PAT[..3]);
    bytes
}

/// One whose payload is the next four bytes, behind stuffing.
fn second_third() -> [u8; PACKET_BYTES] {
    let mut bytes = with_field(PAT_PID, 5, &[179, 0], &[]);
    bytes[184..].copy_from_slice(&PAT[3..7]);
    bytes
}

#[test]
fn programs_that_are_missing(rt: HostRuntime) -> Result<(), Fail> {
    let short = [0x47; PACKET_BYTES - 1];
    let on_pat_pid = table(PAT_PID, 0, &PAT_OF_PID_0);
    assert_eq!(rt;
        demux(rt.alloc(), &short, 1, &[]).err(),
        Some(DemuxFault::ShortFile { at: 0 })
    );
    assert_eq!(rt;
        demux(rt.alloc(), &pat(), 2, &[]).err(),
        Some(DemuxFault::NoProgram { at: 0 })
    );
    assert_eq!(rt;
        demux(rt.alloc(), &on_pat_pid, 0, &[]).err(),
        Some(DemuxFault::NoProgram { at: 0 })
    );
    Ok(())
}

/// A PMT over two packets.
fn long_map() -> ([u8; PACKET_BYTES], [u8; PACKET_BYTES]) {
    let first = table(MAP_PID, 0, &long_pmt_front());
    let end = goes_on(MAP_PID, 1, &LONG_PMT_END[8..]);
    (first, end)
}

#[test]
fn pat_and_pmt_over_several_packets(rt: HostRuntime) -> Result<(), Fail> {
    let first = first_third();
    let second = second_third();
    let third = goes_on(PAT_PID, 6, &PAT[7..]);
    let mut bad_third = third;
    bad_third[5] = 1;
    let (map, map_end) = long_map();
    let mut bad_end = map_end;
    bad_end[4] ^= 1;
    let cases: [Case; 5] = [
        (&[first, second], Some(DemuxFault::NoPat { at: 0 })),
        (
            &[first, second, bad_third],
            Some(DemuxFault::BadCrc { at: 376 }),
        ),
        (
            &[first, second, third, map],
            Some(DemuxFault::NoPmt { at: 0 }),
        ),
        (
            &[first, second, third, map, bad_end],
            Some(DemuxFault::BadCrc { at: 752 }),
        ),
        (
            &[first, second, third, map, map_end],
            Some(DemuxFault::PmtTooLong { at: 0 }),
        ),
    ];
    assert_eq!(rt; first_wrong(rt.alloc(), &[], &cases)?, None);

    let file = file_of(rt.alloc(), &[pat(), map, map_end])?;
    let demuxed = demux(rt.alloc(), file.as_slice(), 1, &[AUDIO_PID])?;
    assert_eq!(rt; demuxed.map.streams.len(), 1);
    Ok(())
}

#[test]
fn which_sections_are_read(rt: HostRuntime) -> Result<(), Fail> {
    let null = goes_on(8191, 0, &[]);
    let short_length = [
        0x00, 0xB0, 0x08, 0x00, 0x01, 0xC1, 0x00, 0x00, 0x00, 0x00, 0x00,
    ];
    let far_pointer = begins(PAT_PID, 0, &[183]);
    let short_pat = table(PAT_PID, 0, &short_length);
    let half_pat = table(PAT_PID, 0, &PAT_WITH_HALF_A_PROGRAM);
    let half_next = table(PAT_PID, 1, &PAT_WITH_HALF_A_PROGRAM);
    let short_map = table(MAP_PID, 15, &short_length);
    let cut_map = table(MAP_PID, 15, &PMT_WITH_A_CUT_STREAM);
    let old_map = table(MAP_PID, 15, &PMT_NOT_CURRENT);
    let other_map = table(MAP_PID, 15, &PMT_OF_PROGRAM_2);
    let cases: [Case; 12] = [
        (&[null], Some(DemuxFault::NoPat { at: 0 })),
        (&[pat()], Some(DemuxFault::NoPmt { at: 0 })),
        (&[far_pointer], Some(DemuxFault::BadSection { at: 0 })),
        (&[short_pat], Some(DemuxFault::BadSection { at: 0 })),
        (&[half_pat], Some(DemuxFault::BadSection { at: 0 })),
        (
            &[pat(), half_next, pmt()],
            Some(DemuxFault::BadSection { at: 188 }),
        ),
        (
            &[pat(), short_map, pmt()],
            Some(DemuxFault::BadSection { at: 188 }),
        ),
        (
            &[pat(), cut_map, pmt()],
            Some(DemuxFault::BadSection { at: 188 }),
        ),
        (&[pat(), old_map, pmt()], None),
        (&[pat(), other_map, pmt()], None),
        (&[pat(), other_map], Some(DemuxFault::NoPmt { at: 0 })),
        (&[pat(), pmt(), half_next, cut_map], None),
    ];
    assert_eq!(rt; first_wrong(rt.alloc(), &[], &cases)?, None);
    Ok(())
}

#[test]
fn which_map_is_taken(rt: HostRuntime) -> Result<(), Fail> {
    let mut early = table(MAP_PID, 5, &PMT_OF_PID_301);
    let only_early: [Case; 1] = [(&[early, pat()], Some(DemuxFault::NoPmt { at: 0 }))];
    assert_eq!(rt; first_wrong(rt.alloc(), &[], &only_early)?, None);
    early[1] |= 0x80;
    let other_program = table(PAT_PID, 15, &PAT_OF_PROGRAM_2);
    let other_pid = table(PAT_PID, 1, &PAT_OF_PID_300);
    let other_map = table(300, 0, &PMT_OF_PID_301);
    let packets = [early, other_program, pat(), other_pid, other_map, pmt()];
    let file = file_of(rt.alloc(), &packets)?;
    let demuxed = demux(rt.alloc(), file.as_slice(), 1, &[])?;
    assert_eq!(rt; demuxed.map.pcr_pid, VIDEO_PID);
    Ok(())
}

#[test]
fn a_map_on_the_pid_of_the_pat(rt: HostRuntime) -> Result<(), Fail> {
    let early = table(PAT_PID, 0, &PMT_OF_PID_301);
    let pat = table(PAT_PID, 1, &PAT_OF_PID_0);
    let mut both = pat;
    both[25..51].copy_from_slice(&PMT);
    let late = table(PAT_PID, 2, &PMT);
    let lost = table(PAT_PID, 3, &PMT);
    let cases: [Case; 4] = [
        (&[early, pat], Some(DemuxFault::NoPmt { at: 0 })),
        (&[early, pat, late], None),
        (&[early, both], None),
        (&[early, pat, lost], Some(DemuxFault::Gap { at: 376 })),
    ];
    assert_eq!(rt; first_wrong(rt.alloc(), &[], &cases)?, None);
    let file = file_of(rt.alloc(), &[early, pat, late])?;
    let demuxed = demux(rt.alloc(), file.as_slice(), 1, &[])?;
    assert_eq!(rt; demuxed.map.pcr_pid, VIDEO_PID);
    Ok(())
}
