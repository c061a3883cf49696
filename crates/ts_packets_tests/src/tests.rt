use stream_constants::packets::PACKET_BYTES;
use ts_packets::{AdaptationField, Packet, PacketFault, pid_of};

fn null_packet() -> [u8; PACKET_BYTES] {
    let mut bytes = [0xFF; PACKET_BYTES];
    bytes[0] = 0x47;
    bytes[1] = 0x1F;
    bytes[3] = 0x10;
    bytes
}

fn pcr_packet() -> [u8; PACKET_BYTES] {
    let mut bytes = [0xFF; PACKET_BYTES];
    bytes[..12].copy_from_slice(&[
        0x47, 0x01, 0x01, 0x2F, 0xB7, 0x10, 0x00, 0x00, 0x00, 0x03, 0xFE, 0x75,
    ]);
    bytes
}

/// The null packet with another front.
fn with_front(front: [u8; 4]) -> [u8; PACKET_BYTES] {
    let mut bytes = null_packet();
    bytes[..4].copy_from_slice(&front);
    bytes
}

/// The fault of the null packet with another front.
fn fault_of(front: [u8; 4]) -> Option<PacketFault> {
    Packet::read(&with_front(front)).err()
}

const NULL: Packet<'static> = Packet {
    pid: 8191,
    start: false,
    counter: 0,
    field: None,
    payload: &[0xFF; 184],
};

const PCR: Packet<'static> = Packet {
    pid: 257,
    start: false,
    counter: 15,
    field: Some(AdaptationField {
        discontinuity: false,
        pcr: Some(2217),
    }),
    payload: &[],
};

#[test]
fn a_null_packet_has_payload_alone(rt: HostRuntime) {
    assert_eq!(rt; Packet::read(&null_packet()), Ok(NULL));
}

#[test]
fn a_pcr_packet_has_a_field_alone(rt: HostRuntime) {
    assert_eq!(rt; Packet::read(&pcr_packet()), Ok(PCR));
}

#[test]
fn the_first_fault_is_answered(rt: HostRuntime) {
    let faults = [
        fault_of([0x47, 0x1F, 0xFF, 0x0F]),
        fault_of([0x47, 0x1F, 0xFF, 0xC0]),
        fault_of([0x47, 0x80, 0xFF, 0xC0]),
        fault_of([0x46, 0x80, 0xFF, 0xC0]),
    ];
    let first = [
        Some(PacketFault::BadField),
        Some(PacketFault::Scrambled),
        Some(PacketFault::ErrorFlag),
        Some(PacketFault::Sync),
    ];
    assert_eq!(rt; faults, first);
    let pids = [
        pid_of(&with_front([0x47, 0x80, 0xFF, 0xC0])),
        pid_of(&with_front([0x46, 0x80, 0xFF, 0xC0])),
    ];
    assert_eq!(rt; pids, [Ok(255), Err(PacketFault::Sync)]);
}

#[test]
fn packets_are_written_byte_for_byte(rt: HostRuntime) {
    let mut bytes = [0; PACKET_BYTES];
    NULL.write(&mut bytes);
    assert_eq!(rt; bytes, null_packet());
    PCR.write(&mut bytes);
    assert_eq!(rt; bytes, pcr_packet());
}

#[test]
fn a_short_payload_is_stuffed(rt: HostRuntime) {
    let mut bytes = [0; PACKET_BYTES];
    let packet = Packet {
        pid: 0x100,
        start: true,
        counter: 3,
        field: Some(AdaptationField {
            discontinuity: true,
            pcr: None,
        }),
        payload: &[1; 180],
    };
    packet.write(&mut bytes);
    let front = [0x47, 0x41, 0x00, 0x33, 0x03, 0x80, 0xFF, 0xFF];
    assert_eq!(rt; &bytes[..8], front.as_slice());
    assert_eq!(rt; Packet::read(&bytes), Ok(packet));
}
