//! Where files of elements are refused, and where they end.

use program_stream::{SplitFault, split};
use std::alloc::{AllocError, Global};
use std::test::Fail;

/// A pack header without stuffing.
pub const PACK: [u8; 14] = [
    0, 0, 1, 0xBA, 0x44, 0x00, 0x04, 0x00, 0x04, 0x01, 0x00, 0x00, 0x07, 0xF8,
];

/// A video packet of one byte.
pub const VIDEO: [u8; 7] = [0, 0, 1, 0xE0, 0, 1, 0xAA];

/// An end code.
pub const END: [u8; 4] = [0, 0, 1, 0xB9];

/// Some parts one behind the other.
pub fn file_of(alloc: Global, parts: &[&[u8]]) -> Result<Vec<u8>, AllocError> {
    let mut file = Vec::new(alloc);
    for part in parts {
        file.extend_from_slice(*part)?;
    }
    Ok(file)
}

/// The refusal of a file, or how many last elements of it are cut.
fn answer(alloc: Global, file: &[u8]) -> Result<u32, SplitFault> {
    match split(alloc, file, &[]) {
        Ok((_demuxed, cut)) => Ok(cut),
        Err(fault) => Err(fault),
    }
}

/// What becomes of a pack header, a video packet and these bytes.
fn behind(alloc: Global, bytes: &[u8]) -> Result<u32, SplitFault> {
    let file = file_of(alloc, &[&PACK, &VIDEO, bytes])?;
    answer(alloc, file.as_slice())
}

#[test]
fn a_pack_header_and_an_end_code(rt: HostRuntime) -> Result<(), Fail> {
    let mut file = [
        0, 0, 1, 0xBA, 0x44, 0x00, 0x04, 0x00, 0x04, 0x01, 0x00, 0x00, 0x07, 0xF8, 0, 0, 1, 0xB9,
    ];
    assert_eq!(rt;
        answer(rt.alloc(), &file),
        Err(SplitFault::NoVideo { at: 0 })
    );
    assert_eq!(rt;
        answer(rt.alloc(), &file[..13]),
        Err(SplitFault::ShortFile { at: 0 })
    );
    file[14] = 1;
    assert_eq!(rt;
        answer(rt.alloc(), &file),
        Err(SplitFault::BadStart { at: 14 })
    );
    file[4] = 0x21;
    assert_eq!(rt;
        answer(rt.alloc(), &file),
        Err(SplitFault::BadPack { at: 0 })
    );
    Ok(())
}

#[test]
fn what_may_stand_at_the_end(rt: HostRuntime) -> Result<(), Fail> {
    assert_eq!(rt; behind(rt.alloc(), &[]), Ok(0));
    assert_eq!(rt; behind(rt.alloc(), &[0, 0, 0, 0]), Ok(0));
    assert_eq!(rt; behind(rt.alloc(), &[0, 0, 0, 1]), Ok(1));
    assert_eq!(rt; behind(rt.alloc(), &[0, 0, 1, 0xE0, 0, 2, 7]), Ok(1));
    assert_eq!(rt; behind(rt.alloc(), &[0, 0, 1, 0xBA, 0x21]), Ok(1));
    assert_eq!(rt; behind(rt.alloc(), &END), Ok(0));
    assert_eq!(rt; behind(rt.alloc(), &[0, 0, 1, 0xBE, 0, 0]), Ok(0));
    Ok(())
}

#[test]
fn what_is_refused_behind_zero_bytes(rt: HostRuntime) -> Result<(), Fail> {
    assert_eq!(rt;
        behind(rt.alloc(), &[0, 1, 0xB9]),
        Err(SplitFault::BadStart { at: 21 })
    );
    assert_eq!(rt;
        behind(rt.alloc(), &[0, 0, 0, 1, 0xB8]),
        Err(SplitFault::BadStart { at: 22 })
    );
    assert_eq!(rt;
        behind(rt.alloc(), &[0, 0, 0, 1, 0xC0, 0, 0]),
        Err(SplitFault::BadLength { at: 22 })
    );
    assert_eq!(rt;
        behind(rt.alloc(), &[0, 0, 0, 1, 0xEF, 0, 0]),
        Err(SplitFault::BadLength { at: 22 })
    );
    let mut bad = PACK;
    bad[12] = 0x06;
    let file = file_of(rt.alloc(), &[&PACK, &VIDEO, &[0, 0], &bad])?;
    assert_eq!(rt;
        answer(rt.alloc(), file.as_slice()),
        Err(SplitFault::BadPack { at: 23 })
    );
    Ok(())
}
