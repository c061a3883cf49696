//! The streams of files that come out of sources in pieces, without their packets, and the elements of such files.

use crate::element_tests::{PACK, VIDEO, file_of};
use crate::stream_tests::{packet, several};
use program_stream::{ElementFault, SplitFault, find_source_elements, read_streams};
use psi_tables::Stream;
use shelf_io::{Fault, Reading};
use shelf_kinds::{CalmShelf, MemShelf, ShortShelf};
use std::alloc::Global;
use std::test::Fail;
use ts_demux::CarriedStreams;

/// How many bytes a call gives at most: one, parts of an element, and all.
const GIVEN: [u32; 4] = [1, 5, 187, 65_536];

/// A shelf with a file, of which a call gives so many bytes at most.
fn shelf_of(alloc: Global, file: &[u8], given: u32) -> Result<ShortShelf, Fail> {
    let mut inner = CalmShelf::new(alloc);
    inner.put_file("a", file)?;
    Ok(ShortShelf::new(inner, given.max(1)))
}

/// The streams of a file, out of a source that gives so many bytes a call.
fn streams_of(
    alloc: Global,
    file: &[u8],
    given: u32,
    drop: &[u16],
) -> Result<Result<(CarriedStreams, u32), ElementFault>, Fail> {
    let mut shelf = shelf_of(alloc, file, given)?;
    let mut source = Reading::new(&mut shelf, "a");
    Ok(read_streams(alloc, &mut source, drop))
}

/// What refuses the streams of a file, and what refuses its elements, whatever a call gives; None where that differs.
fn refusals(
    alloc: Global,
    file: &[u8],
) -> Result<Option<(Option<SplitFault>, Option<SplitFault>)>, Fail> {
    let mut first = None;
    for given in GIVEN {
        let streams = refusal(streams_of(alloc, file, given, &[])?.err());
        let mut shelf = shelf_of(alloc, file, given)?;
        let mut source = Reading::new(&mut shelf, "a");
        let elements = refusal(find_source_elements(alloc, &mut source).err());
        let both = (streams, elements);
        if *first.get_or_insert(both) != both {
            return Ok(None);
        }
    }
    Ok(first)
}

/// The refusal of a file, where it is one.
fn refusal(fault: Option<ElementFault>) -> Option<SplitFault> {
    match fault {
        Some(ElementFault::Refused(fault)) => Some(fault),
        _ => None,
    }
}

/// True where the streams have these types and ids.
fn are_streams(streams: &[Stream], wanted: &[(u8, u16)]) -> bool {
    streams.len() == wanted.len()
        && streams.iter().zip(wanted).all(|(stream, (kind, id))| {
            stream.kind == *kind && stream.pid == *id && stream.descriptors.is_empty()
        })
}

#[test]
fn the_streams_of_a_file(rt: HostRuntime) -> Result<(), Fail> {
    let mut file = several(rt.alloc())?;
    file.extend_from_slice(&[0, 0, 1, 0xC5, 0, 9])?;
    for given in GIVEN {
        let (carried, cut) = streams_of(rt.alloc(), file.as_slice(), given, &[])??;
        assert_eq!(rt; cut, 1);
        assert_eq!(rt; carried.map.number, 1);
        assert_eq!(rt; carried.map.pcr_pid, 8191);
        assert!(rt;
            are_streams(
                carried.map.streams.as_slice(),
                &[(2, 0xE1), (3, 0xC1), (3, 0xC0)]
            )
        );
        assert_eq!(rt; carried.others.as_slice(), [0xE0, 0xBD].as_slice());
    }
    Ok(())
}

#[test]
fn a_stream_that_is_dropped_is_listed(rt: HostRuntime) -> Result<(), Fail> {
    let file = several(rt.alloc())?;
    let (carried, cut) = streams_of(rt.alloc(), file.as_slice(), 187, &[0xC1, 0xE1])??;
    assert_eq!(rt; cut, 0);
    assert!(rt; are_streams(carried.map.streams.as_slice(), &[(2, 0xE1), (3, 0xC0)]));
    assert_eq!(rt; carried.others.as_slice(), [0xC1, 0xE0, 0xBD].as_slice());
    Ok(())
}

#[test]
fn refusals_at_their_places(rt: HostRuntime) -> Result<(), Fail> {
    let short = SplitFault::ShortFile { at: 0 };
    assert_eq!(rt;
        refusals(rt.alloc(), &PACK[..13])?,
        Some((Some(short), Some(short)))
    );
    let file = file_of(rt.alloc(), &[&PACK, &packet(0xC0, 1)])?;
    assert_eq!(rt;
        refusals(rt.alloc(), file.as_slice())?,
        Some((Some(SplitFault::NoVideo { at: 0 }), None))
    );
    let file = file_of(rt.alloc(), &[&PACK, &VIDEO, &[0, 0, 0, 1, 0xB8]])?;
    let start = SplitFault::BadStart { at: 22 };
    assert_eq!(rt;
        refusals(rt.alloc(), file.as_slice())?,
        Some((Some(start), Some(start)))
    );
    let file = file_of(rt.alloc(), &[&PACK, &VIDEO, &[0, 0, 1, 0xC0, 0, 0]])?;
    let length = SplitFault::BadLength { at: 21 };
    assert_eq!(rt;
        refusals(rt.alloc(), file.as_slice())?,
        Some((Some(length), Some(length)))
    );
    Ok(())
}

#[test]
fn nine_audio_streams(rt: HostRuntime) -> Result<(), Fail> {
    let mut file = file_of(rt.alloc(), &[&PACK, &VIDEO])?;
    for id in 0xC0..0xC9u8 {
        file.extend_from_slice(&packet(id, 2))?;
    }
    assert_eq!(rt;
        refusals(rt.alloc(), file.as_slice())?,
        Some((Some(SplitFault::ProgramLimit { at: 0 }), None))
    );
    let (eight, _cut) = streams_of(rt.alloc(), file.as_slice(), 5, &[0xC4])??;
    assert_eq!(rt; eight.map.streams.len(), 9);
    assert_eq!(rt; eight.others.as_slice(), [0xC4].as_slice());
    Ok(())
}

#[test]
fn a_source_that_fails(rt: HostRuntime) -> Result<(), Fail> {
    let file = file_of(rt.alloc(), &[&PACK, &VIDEO])?;
    for call in 1..4u64 {
        let mut shelf = MemShelf::new(rt.alloc(), vec![in rt.alloc(); call]?);
        shelf.put_file("a", file.as_slice())?;
        let mut source = Reading::new(&mut shelf, "a");
        let failed = match read_streams(rt.alloc(), &mut source, &[]) {
            Ok(_) => None,
            Err(fault) => Some(fault),
        };
        let wanted = if call < 3 {
            Some(ElementFault::Outside(Fault::Failed))
        } else {
            None
        };
        assert_eq!(rt; failed, wanted);
    }
    Ok(())
}
