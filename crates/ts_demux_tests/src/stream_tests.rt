//! Which streams are carried, and their PES packets.

use crate::files::*;
use crate::sections::*;
use std::alloc::{AllocError, Global};
use std::test::Fail;
use stream_constants::packets::PACKET_BYTES;
use test_packets::{AUDIO_PID, MAP_PID, VIDEO_PID, file_of, table};
use ts_demux::{DemuxFault, Demuxed, demux};

/// PAT, PMT, a video packet that begins a PES packet, the same again, an audio packet, a video packet, and three bytes.
fn small_file(alloc: Global) -> Result<Vec<u8>, AllocError> {
    let video = begins(VIDEO_PID, 0, &[0xAA; 184]);
    let audio = begins(AUDIO_PID, 7, &[0xCC; 184]);
    let end = goes_on(VIDEO_PID, 1, &[0xBB; 184]);
    let mut file = file_of(alloc, &[pat(), pmt(), video, video, audio, end])?;
    file.extend_from_slice(&[0x47, 0x01, 0x01])?;
    Ok(file)
}

/// The PIDs of the carried streams.
fn carried_pids(alloc: Global, demuxed: &Demuxed) -> Result<Vec<u16>, AllocError> {
    let mut pids = Vec::new(alloc);
    for stream in demuxed.map.streams.iter() {
        pids.push(stream.pid)?;
    }
    Ok(pids)
}

#[test]
fn a_packet_that_is_sent_twice_is_taken_once(rt: HostRuntime) -> Result<(), Fail> {
    let file = small_file(rt.alloc())?;
    let demuxed = demux(rt.alloc(), file.as_slice(), 1, &[])?;
    assert_eq!(rt; demuxed.rest, 3);
    assert_eq!(rt; demuxed.not_carried.len(), 0);
    let video = demuxed.video.as_slice();
    assert!(rt; are_units(video, &[(376, 368)]));
    if let Some(unit) = video.first() {
        assert_eq!(rt; unit.bytes.as_slice().first(), Some(&0xAA));
        assert_eq!(rt; unit.bytes.as_slice().last(), Some(&0xBB));
    }
    assert_eq!(rt; demuxed.audios.len(), 1);
    if let Some(audio) = demuxed.audios.as_slice().first() {
        assert_eq!(rt; audio.pid, AUDIO_PID);
        assert!(rt; are_units(audio.units.as_slice(), &[(752, 184)]));
    }
    Ok(())
}

#[test]
fn a_stream_that_is_dropped_is_listed(rt: HostRuntime) -> Result<(), Fail> {
    let file = small_file(rt.alloc())?;
    let demuxed = demux(rt.alloc(), file.as_slice(), 1, &[AUDIO_PID, VIDEO_PID])?;
    assert_eq!(rt; demuxed.video.len(), 1);
    assert_eq!(rt; demuxed.audios.len(), 0);
    assert_eq!(rt; demuxed.not_carried.as_slice(), [AUDIO_PID].as_slice());
    Ok(())
}

#[test]
fn maps_that_are_refused(rt: HostRuntime) -> Result<(), Fail> {
    let no_video = table(MAP_PID, 0, &PMT_WITHOUT_VIDEO);
    let nine = table(MAP_PID, 0, &PMT_OF_NINE_AUDIOS);
    let cases: [Case; 2] = [
        (&[no_video], Some(DemuxFault::NoVideo { at: 0 })),
        (&[nine], Some(DemuxFault::ProgramLimit { at: 0 })),
    ];
    assert_eq!(rt; first_wrong(rt.alloc(), &[pat()], &cases)?, None);
    let file = file_of(rt.alloc(), &[pat(), nine])?;
    let demuxed = demux(rt.alloc(), file.as_slice(), 1, &[260])?;
    assert_eq!(rt;
        carried_pids(rt.alloc(), &demuxed)?.as_slice(),
        [257, 258, 259, 261, 262, 263, 264, 265, 266].as_slice()
    );
    assert_eq!(rt; demuxed.audios.len(), 8);
    assert_eq!(rt; demuxed.not_carried.as_slice(), [260].as_slice());
    Ok(())
}

#[test]
fn the_first_of_streams_that_share_a_pid_is_carried(rt: HostRuntime) -> Result<(), Fail> {
    let file = file_of(rt.alloc(), &[pat(), table(MAP_PID, 0, &PMT_OF_SHARED_PIDS)])?;
    let demuxed = demux(rt.alloc(), file.as_slice(), 1, &[])?;
    assert_eq!(rt;
        carried_pids(rt.alloc(), &demuxed)?.as_slice(),
        [257, 258, 261].as_slice()
    );
    assert_eq!(rt;
        demuxed.not_carried.as_slice(),
        [259, 257, 258, 260].as_slice()
    );
    assert!(rt;
        demuxed
            .map
            .streams
            .iter()
            .all(|stream| stream.pid != 258 || stream.kind == 3)
    );
    Ok(())
}

#[test]
fn pes_packets_begin_at_start_flags_on_payload(rt: HostRuntime) -> Result<(), Fail> {
    let full = [0xAA; 184];
    let mut empty_start = without_payload(VIDEO_PID, 0, 0);
    empty_start[1] |= 0x40;
    let packets: [[u8; PACKET_BYTES]; 8] = [
        goes_on(VIDEO_PID, 15, &full),
        begins(VIDEO_PID, 0, &full),
        empty_start,
        goes_on(VIDEO_PID, 1, &full),
        pat(),
        pmt(),
        with_field(VIDEO_PID, 2, &[181, 0], &[]),
        begins(VIDEO_PID, 3, &full),
    ];
    let file = file_of(rt.alloc(), &packets)?;
    let demuxed = demux(rt.alloc(), file.as_slice(), 1, &[])?;
    assert!(rt; are_units(demuxed.video.as_slice(), &[(188, 370), (1316, 184)]));
    if let Some(audio) = demuxed.audios.as_slice().first() {
        assert_eq!(rt; audio.units.len(), 0);
    }
    Ok(())
}
