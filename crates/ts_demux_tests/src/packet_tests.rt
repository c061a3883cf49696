//! What packets are refused for, each with its place.

use crate::files::*;
use std::test::Fail;
use test_packets::{AUDIO_PID, PAT_PID, VIDEO_PID};
use ts_demux::DemuxFault;

#[test]
fn each_fault_of_a_packet(rt: HostRuntime) -> Result<(), Fail> {
    let good = goes_on(VIDEO_PID, 2, &[]);
    let mut no_sync = good;
    no_sync[0] = 0x46;
    let mut error_flag = good;
    error_flag[1] = 0x81;
    let mut both = error_flag;
    both[0] = 0x46;
    let mut scrambled = good;
    scrambled[3] = 0x92;
    let mut control_00 = good;
    control_00[3] = 0x02;
    let mut short_field = without_payload(VIDEO_PID, 2, 0);
    short_field[4] = 182;
    let long_field = with_field(VIDEO_PID, 2, &[183, 0], &[]);
    let short_clock = with_field(VIDEO_PID, 2, &[6, 0x10], &[]);
    let at = 564;
    let cases: [Case; 9] = [
        (&[good], None),
        (&[no_sync], Some(DemuxFault::Sync { at })),
        (&[error_flag], Some(DemuxFault::ErrorFlag { at })),
        (&[both], Some(DemuxFault::Sync { at })),
        (&[scrambled], Some(DemuxFault::Scrambled { at })),
        (&[control_00], Some(DemuxFault::BadField { at })),
        (&[short_field], Some(DemuxFault::BadField { at })),
        (&[long_field], Some(DemuxFault::BadField { at })),
        (&[short_clock], Some(DemuxFault::BadField { at })),
    ];
    let front = [pat(), pmt(), begins(VIDEO_PID, 1, &[])];
    assert_eq!(rt; first_wrong(rt.alloc(), &front, &cases)?, None);
    Ok(())
}

#[test]
fn which_packets_are_tested(rt: HostRuntime) -> Result<(), Fail> {
    let mut other = goes_on(400, 0, &[]);
    other[1] |= 0x80;
    let mut no_sync = goes_on(400, 0, &[]);
    no_sync[0] = 0;
    let mut bad_pat = pat();
    bad_pat[1] |= 0x80;
    let mut bad_pmt = pmt();
    bad_pmt[3] |= 0x40;
    let late_pat = goes_on(PAT_PID, 2, &[]);
    let cases: [Case; 7] = [
        (&[other, pat(), other, pmt(), other], None),
        (&[pat(), no_sync, pmt()], Some(DemuxFault::Sync { at: 188 })),
        (&[pat(), pmt(), no_sync], Some(DemuxFault::Sync { at: 376 })),
        (&[bad_pat, pmt()], Some(DemuxFault::ErrorFlag { at: 0 })),
        (&[pat(), bad_pmt], Some(DemuxFault::Scrambled { at: 188 })),
        (&[pat(), late_pat, pmt()], Some(DemuxFault::Gap { at: 188 })),
        (&[pat(), pmt(), bad_pat, bad_pmt], None),
    ];
    assert_eq!(rt; first_wrong(rt.alloc(), &[], &cases)?, None);
    Ok(())
}

#[test]
fn the_first_packet_of_a_pid_alone_may_be_discontinuous(rt: HostRuntime) -> Result<(), Fail> {
    let first = with_field(VIDEO_PID, 9, &[1, 0x80], &[]);
    let empty = without_payload(VIDEO_PID, 3, 0x80);
    let next = goes_on(VIDEO_PID, 9, &[]);
    let later = with_field(VIDEO_PID, 10, &[1, 0x80], &[]);
    let later_with_gap = with_field(VIDEO_PID, 12, &[1, 0x80], &[]);
    let fault = Some(DemuxFault::Discontinuity { at: 564 });
    let cases: [Case; 6] = [
        (&[first], None),
        (&[empty, next], None),
        (&[first, later], fault),
        (&[first, empty], fault),
        (&[empty, first], fault),
        (&[first, later_with_gap], fault),
    ];
    assert_eq!(rt; first_wrong(rt.alloc(), &[pat(), pmt()], &cases)?, None);
    Ok(())
}

#[test]
fn the_counter_goes_on_at_each_packet_with_payload(rt: HostRuntime) -> Result<(), Fail> {
    let first = begins(VIDEO_PID, 15, &[]);
    let next = goes_on(VIDEO_PID, 0, &[]);
    let one_lost = goes_on(VIDEO_PID, 1, &[]);
    let other = goes_on(VIDEO_PID, 15, &[1]);
    let empty = without_payload(VIDEO_PID, 7, 0);
    let cases: [Case; 5] = [
        (&[first, empty, next], None),
        (&[first, empty, first, first, next], None),
        (&[first, one_lost], Some(DemuxFault::Gap { at: 564 })),
        (&[first, other], Some(DemuxFault::Gap { at: 564 })),
        (&[first, next, first], Some(DemuxFault::Gap { at: 752 })),
    ];
    assert_eq!(rt; first_wrong(rt.alloc(), &[pat(), pmt()], &cases)?, None);
    Ok(())
}

#[test]
fn the_first_packet_that_is_refused(rt: HostRuntime) -> Result<(), Fail> {
    let mut audio = begins(AUDIO_PID, 0, &[]);
    audio[1] |= 0x80;
    let gap = goes_on(VIDEO_PID, 3, &[]);
    let cases: [Case; 4] = [
        (
            &[pat(), pmt(), audio, gap],
            Some(DemuxFault::ErrorFlag { at: 564 }),
        ),
        (
            &[pat(), pmt(), gap, audio],
            Some(DemuxFault::Gap { at: 564 }),
        ),
        (&[gap, pat(), pmt()], Some(DemuxFault::Gap { at: 188 })),
        (&[gap, pat()], Some(DemuxFault::NoPmt { at: 0 })),
    ];
    assert_eq!(rt;
        first_wrong(rt.alloc(), &[begins(VIDEO_PID, 1, &[])], &cases)?,
        None
    );
    Ok(())
}
