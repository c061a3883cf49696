use program_maker::make_program;
use psi_tables::crc32;
use std::test::Fail;

/// How many of the packets are of this PID.
fn packets_of(program: &[u8], pid: u16) -> u32 {
    let mut count = 0u32;
    for packet in program.chunks(188) {
        if let [_, high, low, ..] = packet {
            if u16::from_be_bytes([*high & 0x1F, *low]) == pid {
                count = count.wrapping_add(1);
            }
        }
    }
    count
}

#[test]
fn twelve_pictures_have_twenty_frames(rt: HostRuntime) -> Result<(), Fail> {
    let program = make_program(rt.alloc(), 1, 12)?;
    assert_eq!(rt; program.len(), 112_612);
    assert_eq!(rt; crc32(program.as_slice()), 0x7b63_6a63);
    // a frame's PES packet of 590 bytes has four packets
    assert_eq!(rt; packets_of(program.as_slice(), 0x102), 80);
    Ok(())
}

#[test]
fn one_picture_has_one_frame(rt: HostRuntime) -> Result<(), Fail> {
    let program = make_program(rt.alloc(), 0, 1)?;
    assert_eq!(rt; program.len(), 14_664);
    assert_eq!(rt; crc32(program.as_slice()), 0x7e8f_d67d);
    assert_eq!(rt; packets_of(program.as_slice(), 0x102), 4);
    Ok(())
}
