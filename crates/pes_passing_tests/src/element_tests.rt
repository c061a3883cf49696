//! PES packets of streams of a program stream, out of sources that give the file in pieces.
use list_types::OutOfMemory;
use pes_passing::ElementPackets;
use program_stream::{ElementFault, SplitFault};
use shelf_io::{Fault, Reading, Source};
use shelf_kinds::{CalmShelf, MemShelf, ShortShelf};
use std::alloc::{AllocError, Global};
use std::test::Fail;
use ts_demux::PesUnit;

/// How many bytes a call gives at most: one, parts of an element, and all.
const GIVEN: [u32; 4] = [1, 3, 7, 65_536];

/// A pack header without stuffing.
const PACK: [u8; 14] = [
    0, 0, 1, 0xBA, 0x44, 0x00, 0x04, 0x00, 0x04, 0x01, 0x00, 0x00, 0x07, 0xF8,
];

/// Two packets of one stream and one of another, which stands between them.
const FIRST: [u8; 8] = [0, 0, 1, 0xE0, 0, 2, 0xA1, 0xA2];

const OTHER: [u8; 7] = [0, 0, 1, 0xC0, 0, 1, 0xC7];

const SECOND: [u8; 7] = [0, 0, 1, 0xE0, 0, 1, 0xB1];

/// A file of these parts, one behind the other.
fn file_of(alloc: Global, parts: &[&[u8]]) -> Result<Vec<u8>, AllocError> {
    let mut file = Vec::new(alloc);
    for part in parts {
        file.extend_from_slice(*part)?;
    }
    Ok(file)
}

/// The places and lengths of PES packets, and how many bytes were taken from their source then.
type Places = (Vec<(u64, usize)>, u64);

/// Those of an id out of a source: what a caller owes is shown by the clauses alone.
fn all_places<S: Source>(alloc: Global, source: &mut S, id: u16) -> Result<Places, ElementFault> {
    let mut packets = match ElementPackets::open(alloc, source, id) {
        Ok(packets) => packets,
        Err(fault) => return Err(fault),
    };
    let mut places = Vec::new(alloc);
    loop {
        let more = match packets.next(source) {
            Ok(more) => more,
            Err(fault) => return Err(fault),
        };
        match push_place(&mut places, packets.packet()) {
            Ok(()) => {}
            Err(_) => return Err(ElementFault::Outside(Fault::OutOfMemory)),
        }
        if !more {
            return Ok((places, packets.taken()));
        }
    }
}

/// The same out of a source that gives so many bytes a call.
fn places_of(
    alloc: Global,
    file: &[u8],
    given: u32,
    id: u16,
) -> Result<Result<Places, ElementFault>, Fail> {
    let mut inner = CalmShelf::new(alloc);
    inner.put_file("a", file)?;
    let mut shelf = ShortShelf::new(inner, given.max(1));
    let mut source = Reading::new(&mut shelf, "a");
    Ok(all_places(alloc, &mut source, id))
}

/// Puts the place and the length of a PES packet behind others.
fn push_place(places: &mut Vec<(u64, usize)>, packet: Option<&PesUnit>) -> Result<(), OutOfMemory> {
    if let Some(packet) = packet {
        places.push((packet.at, packet.bytes.len()))?;
    }
    Ok(())
}

#[test]
fn the_packets_of_an_id(rt: HostRuntime) -> Result<(), Fail> {
    let file = file_of(
        rt.alloc(),
        &[&PACK, &FIRST, &OTHER, &[0, 0], &SECOND, &[0, 0, 1, 0xE0, 0]],
    )?;
    for given in GIVEN {
        let (video, taken) = places_of(rt.alloc(), file.as_slice(), given, 0xE0)??;
        assert_eq!(rt; video.as_slice(), [(14u64, 8usize), (31, 7)].as_slice());
        assert_eq!(rt; taken, 43);
        let (audio, _) = places_of(rt.alloc(), file.as_slice(), given, 0xC0)??;
        assert_eq!(rt; audio.as_slice(), [(22u64, 7usize)].as_slice());
        let (none, _) = places_of(rt.alloc(), file.as_slice(), given, 0xE1)??;
        assert!(rt; none.is_empty());
    }
    Ok(())
}

/// An element of another stream that is refused refuses the file.
#[test]
fn refusals_at_their_places(rt: HostRuntime) -> Result<(), Fail> {
    let file = file_of(rt.alloc(), &[&PACK, &FIRST, &[0, 0, 1, 0xC0, 0, 0]])?;
    for given in GIVEN {
        assert_eq!(rt;
            places_of(rt.alloc(), file.as_slice(), given, 0xE0)?.err(),
            Some(ElementFault::Refused(SplitFault::BadLength { at: 22 }))
        );
        assert_eq!(rt;
            places_of(rt.alloc(), &PACK[..13], given, 0xE0)?.err(),
            Some(ElementFault::Refused(SplitFault::ShortFile { at: 0 }))
        );
    }
    Ok(())
}

#[test]
fn a_source_that_fails(rt: HostRuntime) -> Result<(), Fail> {
    let file = file_of(rt.alloc(), &[&PACK, &FIRST])?;
    let mut shelf = MemShelf::new(rt.alloc(), vec![in rt.alloc(); 2u64]?);
    shelf.put_file("a", file.as_slice())?;
    let mut source = Reading::new(&mut shelf, "a");
    assert_eq!(rt;
        all_places(rt.alloc(), &mut source, 0xE0).err(),
        Some(ElementFault::Outside(Fault::Failed))
    );
    Ok(())
}
