use pes_units::{MOST_HEADER_BYTES, PesFault, PesHeader, Times, unwrap_time, write_video_header};

#[test]
fn a_pts_alone_takes_fourteen_bytes(rt: HostRuntime) {
    let times = Times {
        pts: Some(90_000),
        dts: Some(90_000),
    };
    let mut header = [0xFF; MOST_HEADER_BYTES];
    assert_eq!(rt; write_video_header(&times, &mut header), 14);
    let written = [
        0x00, 0x00, 0x01, 0xE0, 0x00, 0x00, 0x80, 0x80, 0x05, 0x21, 0x00, 0x05, 0xBF, 0x21, 0xFF,
    ];
    assert_eq!(rt; &header[..15], written.as_slice());
}

#[test]
fn both_times_are_read(rt: HostRuntime) {
    let bytes = [
        0x00, 0x00, 0x01, 0xE3, 0x12, 0x34, 0x84, 0xC0, 0x0B, 0x31, 0x00, 0x05, 0xBF, 0x21, 0x1F,
        0xFF, 0xFF, 0xFF, 0xFF, 0xFF, 0x00,
    ];
    let header = PesHeader {
        stream_id: 0xE3,
        stated: 0x1234,
        times: Times {
            pts: Some(90_000),
            dts: Some((1 << 33) - 1),
        },
        len: 20,
    };
    let read = [
        PesHeader::read(&bytes, true),
        PesHeader::read(&bytes, false),
        PesHeader::read(&bytes[..20], true),
    ];
    let expected = [Ok(header), Err(PesFault::BadPrefix), Err(PesFault::Short)];
    assert_eq!(rt; read, expected);
}

#[test]
fn the_first_fault_is_answered(rt: HostRuntime) {
    let mut bytes = [0x00, 0x00, 0x01, 0xC0, 0x00, 0x00, 0x30, 0x40, 0x00, 0x00];
    let scrambled = [
        PesHeader::read(&bytes[..2], false),
        PesHeader::read(&bytes[..9], false),
        PesHeader::read(&bytes, false),
    ];
    let faults = [
        Err(PesFault::Short),
        Err(PesFault::Short),
        Err(PesFault::Scrambled),
    ];
    assert_eq!(rt; scrambled, faults);
    bytes[6] = 0x80;
    assert_eq!(rt; PesHeader::read(&bytes, false), Err(PesFault::BadMarker));
    bytes[1] = 0x01;
    let front = PesHeader::read(&bytes[..2], false);
    assert_eq!(rt; front, Err(PesFault::BadPrefix));
}

#[test]
fn a_cut_last_packet_is_taken_in_video_alone(rt: HostRuntime) {
    let mut bytes = [
        0x00, 0x00, 0x01, 0xE0, 0x00, 0x00, 0x80, 0x80, 0x05, 0x21, 0x00, 0x05, 0xBF, 0x21,
    ];
    let header = PesHeader {
        stream_id: 0xE0,
        stated: 0,
        times: Times {
            pts: Some(90_000),
            dts: None,
        },
        len: 14,
    };
    assert_eq!(rt; PesHeader::read(&bytes, true), Err(PesFault::Short));
    let last = [
        PesHeader::read_last(&bytes, true),
        PesHeader::read_last(&bytes[..13], true),
    ];
    assert_eq!(rt; last, [Ok(Some(header)), Ok(None)]);
    bytes[3] = 0xC0;
    bytes[5] = 0xFF;
    assert_eq!(rt; PesHeader::read_last(&bytes, false), Ok(None));
    bytes[5] = 8;
    let audio = PesHeader::read_last(&bytes, false);
    assert_eq!(rt; audio, Err(PesFault::Short));
}

#[test]
fn a_cut_last_packet_is_refused_by_its_first_fault(rt: HostRuntime) {
    let unmarked = [0x00, 0x00, 0x01, 0xE0, 0x00, 0xFF, 0x00, 0x00, 0x00];
    let scrambled = [0x00, 0x00, 0x01, 0xE0, 0x00, 0xFF, 0x30, 0x00, 0x00];
    let unprefixed = [0x00, 0x00, 0x02, 0xE0, 0x00, 0xFF, 0x30, 0x00, 0x00];
    let read = [
        PesHeader::read_last(&unmarked, true),
        PesHeader::read_last(&scrambled, true),
        PesHeader::read_last(&unprefixed, true),
    ];
    let faults = [
        Err(PesFault::BadMarker),
        Err(PesFault::Scrambled),
        Err(PesFault::BadPrefix),
    ];
    assert_eq!(rt; read, faults);
}

#[test]
fn times_go_on_past_their_cycle(rt: HostRuntime) {
    let times = [
        unwrap_time(8_589_930_992, 0),
        unwrap_time(0, (1 << 33) - 1),
        unwrap_time(0, 1 << 32),
    ];
    assert_eq!(rt; times, [8_589_934_592, -1, 1 << 32]);
}
