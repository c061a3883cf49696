//! Jobs whose program is refused, and files that can't be written.

use crate::shelves::{ROOMY, code_over, failing_shelf, is_between, run_over};
use program_maker::make_program;
use std::alloc::Global;
use std::test::Fail;

/// Bytes of a transport packet.
const PACKET: usize = 188;

/// Bytes of the 64 packets that each append has.
const GATHERED: usize = 64 * PACKET;

/// The last byte of the CRC of the PAT in a file's first packet: four bytes of packet header, a pointer, and a section of 16.
const PAT_CRC_END: usize = 20;

/// Calls of the shelf before any that writes: two reads of the job's text and three of a file of 112,612 bytes, each with the one
/// that finds the end.
const READS: u64 = 5;

#[test]
fn a_wrong_crc_in_the_first_packet_is_refused_there(rt: HostRuntime) -> Result<(), Fail> {
    let mut file = make_program(rt.alloc(), 1, 12)?.into_vec();
    if let Some(byte) = file.as_mut_slice().get_mut(PAT_CRC_END) {
        *byte = byte.wrapping_add(1);
    }
    let ran = run_over(rt.alloc(), ROOMY, file.as_slice())?;
    assert_eq!(rt; ran.code, 4);
    assert!(rt;
        ran.line.as_slice()
            == b"{\"at\":0,\"kind\":\"BadCrc\",\"program\":0,\"reason\":\"source\",\"status\":4}\n".as_slice()
    );
    assert!(rt; ran.stream.is_empty() && ran.certificate.is_empty());
    Ok(())
}

#[test]
fn a_file_of_187_bytes_is_short(rt: HostRuntime) -> Result<(), Fail> {
    let file = make_program(rt.alloc(), 1, 12)?;
    let front = file.as_slice().get(..187).unwrap_or(&[]);
    let ran = run_over(rt.alloc(), ROOMY, front)?;
    assert_eq!(rt; ran.code, 4);
    assert!(rt;
        ran.line.as_slice()
            == b"{\"at\":0,\"kind\":\"ShortFile\",\"program\":0,\"reason\":\"source\",\"status\":4}\n".as_slice()
    );
    Ok(())
}

#[test]
fn bytes_behind_the_last_packet_are_counted(rt: HostRuntime) -> Result<(), Fail> {
    let mut file = make_program(rt.alloc(), 1, 12)?.into_vec();
    for _ in 0..100 {
        file.push(0)?;
    }
    let ran = run_over(rt.alloc(), ROOMY, file.as_slice())?;
    assert_eq!(rt; ran.code, 0);
    assert!(rt; contains(ran.line.as_slice(), b"\"rest\":100,"));
    Ok(())
}

/// Whether these bytes stand among others.
fn contains(bytes: &[u8], wanted: &[u8]) -> bool {
    for place in 0..bytes.len() {
        if bytes[place..].starts_with(wanted) {
            return true;
        }
    }
    false
}

/// Whether a run whose call of this number fails ends with this exit status, leaves as many bytes of the whole stream, and no
/// certificate.
fn leaves_a_front(
    alloc: Global,
    whole: &[u8],
    call: u64,
    code: u8,
    length: Option<usize>,
) -> Result<bool, Fail> {
    let mut shelf = failing_shelf(alloc, ROOMY, call)?;
    let ended = code_over(alloc, &mut shelf)?;
    let stream = shelf.file("out.ts");
    Ok(
        ended == code
            && stream.map(|bytes| bytes.len()) == length
            && whole.starts_with(stream.unwrap_or(&[]))
            && shelf.file("run.cert").is_none(),
    )
}

/// The last call that reads fails, then the one that starts OUT, its first append and its third one.
#[test]
fn a_write_that_fails_leaves_a_front_and_no_certificate(rt: HostRuntime) -> Result<(), Fail> {
    let file = make_program(rt.alloc(), 1, 12)?;
    let whole = run_over(rt.alloc(), ROOMY, file.as_slice())?;
    assert_eq!(rt; whole.code, 0);
    for (call, code, length) in [
        (READS, 6, None),
        (READS + 1, 7, None),
        (READS + 2, 7, Some(0)),
        (READS + 4, 7, Some(2 * GATHERED)),
    ] {
        let so = leaves_a_front(rt.alloc(), whole.stream.as_slice(), call, code, length)?;
        assert!(rt; so, "{call}");
    }
    Ok(())
}

/// With no failing call: the distortion is 0 and nothing is better.
#[test]
fn a_program_with_room_is_sent_as_it_is(rt: HostRuntime) -> Result<(), Fail> {
    let file = make_program(rt.alloc(), 1, 12)?;
    let ran = run_over(rt.alloc(), ROOMY, file.as_slice())?;
    assert_eq!(rt; ran.code, 0);
    // 20 audio frames, each in a PES packet of 590 bytes
    let begin =
        "{\"bound\":0,\"distortion\":0,\"nodes\":1,\"programs\":[{\"audio_bytes\":[11800],\"choice\":[0,0,0,0,0,0,0,0,0,0,0,0],";
    assert!(rt; is_between(ran.line.as_slice(), begin, "}\n"));
    assert!(rt; contains(ran.line.as_slice(), b"\"search\":\"optimal\","));
    assert_eq!(rt; ran.stream.len() % PACKET, 0);
    Ok(())
}
