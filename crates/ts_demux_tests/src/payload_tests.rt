use shelf_io::{Source, take_full};
use std::test::Fail;
use stream_constants::packets::PACKET_BYTES;
use ts_demux::Payloads;

/// A packet of PID 256 with payload alone: its fourth byte, and the byte that fills the payload.
fn packet(fourth: u8, byte: u8) -> [u8; PACKET_BYTES] {
    let mut bytes = [byte; PACKET_BYTES];
    bytes[..4].copy_from_slice(&[0x47, 0x01, 0x00, fourth]);
    bytes
}

#[test]
fn repeats_and_refused_packets_are_left_out(rt: HostRuntime) -> Result<(), Fail> {
    let mut file = [0u8; 4 * PACKET_BYTES + 3];
    let (first, behind) = file.split_at_mut(PACKET_BYTES);
    let (second, behind) = behind.split_at_mut(PACKET_BYTES);
    let (third, fourth) = behind.split_at_mut(PACKET_BYTES);
    first.copy_from_slice(&packet(0x13, 0xAA));
    second.copy_from_slice(&packet(0x94, 0xCC));
    third.copy_from_slice(&packet(0x13, 0xAA));
    fourth[..PACKET_BYTES].copy_from_slice(&packet(0x14, 0xBB));
    let mut source = Payloads::new(&file, 256);
    assert_eq!(rt; source.take_byte()?, Some(0xAA));
    let mut payload = [0u8; 183];
    assert_eq!(rt; take_full(&mut source, &mut payload)?, 183);
    assert_eq!(rt; payload, [0xAA; 183]);
    let mut payload = [0u8; 184];
    assert_eq!(rt; take_full(&mut source, &mut payload)?, 184);
    assert_eq!(rt; payload, [0xBB; 184]);
    assert_eq!(rt; source.take_byte()?, None);
    Ok(())
}
