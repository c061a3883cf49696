//! Files that come out of sources in pieces, and sources that fail.

use crate::element_tests::{END, PACK, VIDEO, file_of};
use program_stream::{ElementFault, SplitFault, split_source};
use shelf_io::{Fault, Reading};
use shelf_kinds::{CalmShelf, MemShelf, ShortShelf};
use std::alloc::Global;
use std::test::Fail;

/// How many bytes a call gives at most: one, parts of an element, and all.
const GIVEN: [u32; 4] = [1, 5, 23, 65_536];

/// More zero bytes than are held.
const MANY_ZEROS: usize = 200_000;

/// How many last elements of a file are cut, out of a source that gives so many bytes a call.
fn answer(alloc: Global, file: &[u8], given: u32) -> Result<Result<u32, ElementFault>, Fail> {
    let mut inner = CalmShelf::new(alloc);
    inner.put_file("a", file)?;
    let mut shelf = ShortShelf::new(inner, given.max(1));
    let mut source = Reading::new(&mut shelf, "a");
    Ok(match split_source(alloc, &mut source, &[]) {
        Ok((_demuxed, cut)) => Ok(cut),
        Err(fault) => Err(fault),
    })
}

/// The same of a pack header, a video packet and these bytes.
fn behind(alloc: Global, bytes: &[u8], given: u32) -> Result<Result<u32, ElementFault>, Fail> {
    let file = file_of(alloc, &[&PACK, &VIDEO, bytes])?;
    answer(alloc, file.as_slice(), given)
}

#[test]
fn ends_in_pieces(rt: HostRuntime) -> Result<(), Fail> {
    for given in GIVEN {
        assert_eq!(rt; behind(rt.alloc(), &[], given)?, Ok(0));
        assert_eq!(rt; behind(rt.alloc(), &[0, 0, 0, 0], given)?, Ok(0));
        assert_eq!(rt; behind(rt.alloc(), &[0, 0, 0, 1], given)?, Ok(1));
        assert_eq!(rt;
            behind(rt.alloc(), &[0, 0, 1, 0xE0, 0, 2, 7], given)?,
            Ok(1)
        );
        assert_eq!(rt; behind(rt.alloc(), &END, given)?, Ok(0));
    }
    Ok(())
}

#[test]
fn refusals_in_pieces(rt: HostRuntime) -> Result<(), Fail> {
    for given in GIVEN {
        assert_eq!(rt;
            answer(rt.alloc(), &PACK[..13], given)?,
            Err(ElementFault::Refused(SplitFault::ShortFile { at: 0 }))
        );
        assert_eq!(rt;
            answer(rt.alloc(), &PACK, given)?,
            Err(ElementFault::Refused(SplitFault::NoVideo { at: 0 }))
        );
        assert_eq!(rt;
            behind(rt.alloc(), &[0, 0, 0, 2, 0xB9], given)?,
            Err(ElementFault::Refused(SplitFault::BadStart { at: 21 }))
        );
        assert_eq!(rt;
            behind(rt.alloc(), &[0, 0, 0, 1, 0xB8], given)?,
            Err(ElementFault::Refused(SplitFault::BadStart { at: 22 }))
        );
        assert_eq!(rt;
            behind(rt.alloc(), &[0, 0, 0, 1, 0xC0, 0, 0], given)?,
            Err(ElementFault::Refused(SplitFault::BadLength { at: 22 }))
        );
    }
    Ok(())
}

#[test]
fn many_zero_bytes(rt: HostRuntime) -> Result<(), Fail> {
    let mut bytes = vec![in rt.alloc(); 0u8; MANY_ZEROS]?;
    assert_eq!(rt; behind(rt.alloc(), bytes.as_slice(), 65_536)?, Ok(0));
    bytes.extend_from_slice(&[1, 0xEF, 0, 0])?;
    assert_eq!(rt;
        behind(rt.alloc(), bytes.as_slice(), 65_536)?,
        Err(ElementFault::Refused(SplitFault::BadLength { at: 200_019 }))
    );
    bytes.push(7)?;
    bytes[MANY_ZEROS] = 2;
    assert_eq!(rt;
        behind(rt.alloc(), bytes.as_slice(), 65_536)?,
        Err(ElementFault::Refused(SplitFault::BadStart { at: 21 }))
    );
    Ok(())
}

#[test]
fn the_longest_element(rt: HostRuntime) -> Result<(), Fail> {
    let mut bytes = file_of(rt.alloc(), &[&[0, 0, 1, 0xE0, 0xFF, 0xFF]])?;
    bytes.resize(65_541, 7)?;
    for given in [1000, 65_536] {
        assert_eq!(rt; behind(rt.alloc(), bytes.as_slice(), given)?, Ok(0));
    }
    bytes.truncate(65_540);
    for given in [1000, 65_536] {
        assert_eq!(rt; behind(rt.alloc(), bytes.as_slice(), given)?, Ok(1));
    }
    Ok(())
}

#[test]
fn a_source_that_fails(rt: HostRuntime) -> Result<(), Fail> {
    let file = file_of(rt.alloc(), &[&PACK, &VIDEO])?;
    for call in 1..4u64 {
        let mut shelf = MemShelf::new(rt.alloc(), vec![in rt.alloc(); call]?);
        shelf.put_file("a", file.as_slice())?;
        let mut source = Reading::new(&mut shelf, "a");
        let cut = match split_source(rt.alloc(), &mut source, &[]) {
            Ok((_demuxed, cut)) => Ok(cut),
            Err(fault) => Err(fault),
        };
        let wanted = if call < 3 {
            Err(ElementFault::Outside(Fault::Failed))
        } else {
            Ok(0)
        };
        assert_eq!(rt; cut, wanted);
    }
    Ok(())
}
