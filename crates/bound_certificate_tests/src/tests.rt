use bound_certificate::{Cert, CertFormat, Node, read_cert, write_cert};
use buffer_windows::BufferWindow;
use dual_bounds::{Multiplier, Multipliers, Window, Windows};
use list_types::OutOfMemory;
use std::alloc::Global;
use std::test::Fail;

/// One unit, sent as its version 1, with one multiplier of a due time of 27,200 ticks and a lambda of 2,560.
const WITH_A_MULTIPLIER: [u8; 49] = [
    0x52, 0x4D, 0x58, 0x43, 1, 0, 0, 0, 0, 0, 0, 0, 10, 0, 0, 0, 0, 0, 0, 0, 10, 0, 0, 0, 1, 1, 0,
    0, 0, 1, 2, 0, 1, 0, 0, 0, 0, 0, 0, 0x6A, 0x40, 0, 0, 0, 0, 0, 0, 0x0A, 0,
];

fn fault_of(alloc: Global, bytes: &[u8]) -> Option<CertFormat> {
    match read_cert(alloc, bytes) {
        Ok(_) => None,
        Err(fault) => Some(fault),
    }
}

fn fault_with(alloc: Global, place: usize, byte: u8) -> Option<CertFormat> {
    let mut bytes = WITH_A_MULTIPLIER;
    if place < bytes.len() {
        bytes[place] = byte;
    }
    fault_of(alloc, &bytes)
}

#[test]
fn a_multiplier_is_read_and_written(rt: HostRuntime) -> Result<(), Fail> {
    let cert = read_cert(rt.alloc(), &WITH_A_MULTIPLIER)?;
    assert_eq!(rt; cert.version, 1);
    assert_eq!(rt; cert.bound, 10);
    assert_eq!(rt; cert.distortion, 10);
    assert_eq!(rt; cert.choice.as_slice(), [1].as_slice());
    assert_eq!(rt; cert.nodes.len(), 1);
    let written = write_cert(rt.alloc(), &cert)?;
    assert_eq!(rt; written.as_slice(), WITH_A_MULTIPLIER.as_slice());
    Ok(())
}

#[test]
fn the_first_byte_that_no_certificate_has_is_named(rt: HostRuntime) -> Result<(), Fail> {
    let alloc = rt.alloc();
    assert_eq!(rt; fault_with(alloc, 4, 0), Some(CertFormat::CertSyntax(4)));
    assert_eq!(rt; fault_with(alloc, 29, 0), Some(CertFormat::CertSyntax(29)));
    assert_eq!(rt; fault_with(alloc, 30, 6), Some(CertFormat::CertSyntax(30)));
    assert_eq!(rt; fault_with(alloc, 29, 2), Some(CertFormat::CertSyntax(49)));
    assert_eq!(rt; fault_with(alloc, 4, 2), Some(CertFormat::CertSyntax(30)));
    assert_eq!(rt; fault_with(alloc, 26, 1), Some(CertFormat::CertSyntax(26)));
    assert_eq!(rt; fault_with(alloc, 27, 17), Some(CertFormat::CertSyntax(27)));
    assert_eq!(rt; fault_with(alloc, 27, 16), Some(CertFormat::CertSyntax(29)));
    assert_eq!(rt; fault_with(alloc, 32, 65), Some(CertFormat::CertSyntax(32)));
    assert_eq!(rt; fault_of(alloc, &[]), Some(CertFormat::CertSyntax(0)));
    assert_eq!(rt;
        fault_of(alloc, &WITH_A_MULTIPLIER[..48]),
        Some(CertFormat::CertSyntax(48))
    );
    Ok(())
}

/// The same unit in version 3, with one window that sees the buffers: from slot 10, due by 27,200 ticks, of the buffers of programs
/// 0 and 2, with its tail at slot 20 and a lambda of 2,560.
const WITH_A_BUFFER_WINDOW: [u8; 58] = [
    0x52, 0x4D, 0x58, 0x43, 3, 0, 0, 0, 0, 0, 0, 0, 10, 0, 0, 0, 0, 0, 0, 0, 10, 0, 0, 0, 1, 1, 0,
    0, 0, 1, 6, 0, 1, 0, 0, 0, 10, 0, 0, 0, 0, 0, 0, 0x6A, 0x40, 5, 0, 0, 0, 20, 0, 0, 0, 0, 0, 0,
    0x0A, 0,
];

fn buffers_fault_with(alloc: Global, place: usize, byte: u8) -> Option<CertFormat> {
    let mut bytes = WITH_A_BUFFER_WINDOW;
    if place < bytes.len() {
        bytes[place] = byte;
    }
    fault_of(alloc, &bytes)
}

#[test]
fn a_window_that_sees_the_buffers_is_read_and_written(rt: HostRuntime) -> Result<(), Fail> {
    let cert = read_cert(rt.alloc(), &WITH_A_BUFFER_WINDOW)?;
    assert_eq!(rt; cert.version, 3);
    let Node::BufferWindow { with } = &cert.nodes.as_slice()[0] else {
        return Err(Fail::from("no window that sees the buffers"));
    };
    let window = BufferWindow {
        first: 10,
        due: 27_200,
        programs: 5,
        tail: 20,
        lambda: 2_560,
    };
    assert_eq!(rt; with.as_slice(), [window].as_slice());
    let written = write_cert(rt.alloc(), &cert)?;
    assert_eq!(rt; written.as_slice(), WITH_A_BUFFER_WINDOW.as_slice());
    Ok(())
}

#[test]
fn its_first_byte_that_no_certificate_has_is_named(rt: HostRuntime) -> Result<(), Fail> {
    let alloc = rt.alloc();
    assert_eq!(rt;
        buffers_fault_with(alloc, 4, 2),
        Some(CertFormat::CertSyntax(30))
    );
    assert_eq!(rt;
        buffers_fault_with(alloc, 4, 4),
        Some(CertFormat::CertSyntax(4))
    );
    assert_eq!(rt;
        buffers_fault_with(alloc, 30, 2),
        Some(CertFormat::CertSyntax(30))
    );
    assert_eq!(rt;
        buffers_fault_with(alloc, 30, 7),
        Some(CertFormat::CertSyntax(30))
    );
    assert_eq!(rt;
        buffers_fault_with(alloc, 31, 17),
        Some(CertFormat::CertSyntax(31))
    );
    assert_eq!(rt;
        buffers_fault_with(alloc, 31, 16),
        Some(CertFormat::CertSyntax(32))
    );
    assert_eq!(rt;
        buffers_fault_with(alloc, 32, 2),
        Some(CertFormat::CertSyntax(58))
    );
    assert_eq!(rt;
        buffers_fault_with(alloc, 32, 0),
        Some(CertFormat::CertSyntax(33))
    );
    assert_eq!(rt; buffers_fault_with(alloc, 45, 0xFF), None);
    Ok(())
}

/// The bytes of the same certificate up to its node's count, then these two bytes and so many of 0.
fn with_zeros(alloc: Global, count: [u8; 2], zeros: usize) -> Result<Vec<u8>, OutOfMemory> {
    let mut bytes = Vec::new(alloc);
    bytes.extend_from_slice(&WITH_A_BUFFER_WINDOW[..31])?;
    bytes.extend_from_slice(&count)?;
    for _zero in 0..zeros {
        bytes.push(0)?;
    }
    Ok(bytes)
}

#[test]
fn up_to_4096_of_them_are_read(rt: HostRuntime) -> Result<(), Fail> {
    let alloc = rt.alloc();
    let most = with_zeros(alloc, [16, 0], 25 * 4_096)?;
    let cert = read_cert(alloc, most.as_slice())?;
    let Node::BufferWindow { with } = &cert.nodes.as_slice()[0] else {
        return Err(Fail::from("no window that sees the buffers"));
    };
    assert_eq!(rt; with.as_slice().len(), 4_096);
    let written = write_cert(alloc, &cert)?;
    assert_eq!(rt; written.as_slice(), most.as_slice());
    let more = with_zeros(alloc, [16, 1], 25 * 4_097)?;
    assert_eq!(rt;
        fault_of(alloc, more.as_slice()),
        Some(CertFormat::CertSyntax(32))
    );
    Ok(())
}
