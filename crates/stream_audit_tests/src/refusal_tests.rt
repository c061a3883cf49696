//! Why a program isn't audited, in the order of reading.

use crate::files::{clock, first_wrong, pat, pmt, slow, video, video_of_bytes};
use crate::sections::{PAT, PMT_WITHOUT_CLOCK};
use pes_units::PesFault;
use stream_audit::AuditStop;
use test_packets::{MAP_PID, PAT_PID, table};
use ts_demux::DemuxFault;

// Behind the map nothing else looks at the packets of PID 0.
#[test]
fn packets_and_clock(rt: HostRuntime) {
    let no_map = AuditStop::Demux(DemuxFault::NoPmt { at: 0 });
    let gap = AuditStop::Demux(DemuxFault::Gap { at: 564 });
    let video = video(82_127);
    let late_pat = table(PAT_PID, 5, &PAT);
    let no_clock = table(MAP_PID, 0, &PMT_WITHOUT_CLOCK);
    let no_start = video_of_bytes(&[0, 0, 2]);
    let wrong = first_wrong(
        rt.alloc(),
        &[
            slow(&[pat()], Err(no_map)),
            slow(&[pat(), pmt(), video, late_pat], Err(gap)),
            slow(&[pat(), no_clock, video, late_pat], Err(gap)),
            slow(&[pat(), no_clock, video], Err(AuditStop::NoPcr)),
            slow(&[pat(), pmt(), no_start], Err(AuditStop::NoPcr)),
        ],
    );
    assert_eq!(rt; wrong, None);
}

#[test]
fn pes_packets_and_no_sequence(rt: HostRuntime) {
    let fault = PesFault::BadPrefix;
    let no_start = video_of_bytes(&[0, 0, 2]);
    let header = video_of_bytes(&[0, 0, 1, 0xE0, 0, 0, 0x80, 0, 0]);
    let clock = clock(122_127);
    let wrong = first_wrong(
        rt.alloc(),
        &[
            slow(
                &[pat(), pmt(), no_start, clock],
                Err(AuditStop::Pes { at: 376, fault }),
            ),
            slow(&[pat(), pmt(), header, clock], Err(AuditStop::NoSequence)),
        ],
    );
    assert_eq!(rt; wrong, None);
}
