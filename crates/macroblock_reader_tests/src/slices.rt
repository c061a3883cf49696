//! Slices from behind their start code to the end of their last macroblock (ISO/IEC 13818-2, 6.2.4). Bits are printed by
//! header and macroblocks, each in the order of the elements.

use crate::fixtures::{Coded, bit_count, bytes_of, coding, seq, slice_of};
use bit_cursor::BitReader;
use macroblock_reader::{SliceFault, read_slice, read_slice_head};
use shelf_io::{Fault, Reading, SliceSource};
use shelf_kinds::MemShelf;
use std::test::Fail;
use syntax_types::{Macroblock, PictureParameters, Slice};

/// The macroblocks skipped before, the quantiser code, the pattern, and the first pair of block 0.
type Told = (u16, Option<u8>, u8, Option<(u8, i16)>);

fn told(macroblock: &Macroblock) -> Told {
    let first = macroblock.blocks[0].pairs.first();
    (
        macroblock.skipped_before,
        macroblock.code,
        macroblock.pattern,
        first.map(|pair| (pair.run, pair.level)),
    )
}

fn are_macroblocks(slice: &Slice, want: &[Told]) -> bool {
    slice.macroblocks.len() == want.len()
        && slice
            .macroblocks
            .as_slice()
            .iter()
            .zip(want)
            .all(|(found, m)| told(found) == *m)
}

#[test]
fn slices_have_the_macroblocks_that_are_spelled(rt: HostRuntime) -> Result<(), Fail> {
    let moved = (0, None, 0, None);
    for (columns, code, printed, want) in [
        // One moved, one with the pair (0, 1), one moved; the same without the last.
        (
            3,
            1,
            "00001 0 1 001 1 1 1 01 1010 1 0 10 1 001 1 1",
            &[moved, (0, None, 32, Some((0, 1))), moved][..],
        ),
        (
            2,
            2,
            "00010 0 1 001 1 1 1 01 1010 1 0 10",
            &[moved, (0, None, 32, Some((0, 1)))],
        ),
        // The one between is skipped.
        (
            3,
            2,
            "00010 0 1 001 1 1 011 001 1 1",
            &[moved, (1, None, 0, None)],
        ),
        // A quantiser code of its own, and the level 9; then the same requantised: one skipped, code 8, level 4.
        (
            4,
            1,
            "00001 0 1 001 1 1 1 00001 00100 1010 1 0 10 1 01 1010 000000011000 0 10 1 001 1 1",
            &[
                moved,
                (0, Some(4), 32, Some((0, 1))),
                (0, None, 32, Some((0, 9))),
                moved,
            ],
        ),
        (
            4,
            2,
            "00010 0 1 001 1 1 011 00001 01000 1010 0000110 0 10 1 001 1 1",
            &[moved, (1, Some(8), 32, Some((0, 4))), moved],
        ),
    ] {
        let count = bit_count(printed);
        let (slice, bits) = slice_of(rt.alloc(), Coded::PFrame, columns, printed, count)?;
        assert_eq!(rt;
            (slice.code, slice.row, bits),
            (code, 0, count),
            "{printed}"
        );
        assert!(rt; slice.info.is_none(), "{printed}");
        assert!(rt; are_macroblocks(&slice, want), "{printed}");
    }
    Ok(())
}

#[test]
fn a_slice_is_closed_by_23_zero_bits(rt: HostRuntime) {
    for (printed, want) in [
        // Behind a macroblock of 12 bits: 23 zero bits, 22, and fewer up to the end.
        ("00001 0 1 001 1 1 00000000000000000000000 1", Ok(1)),
        (
            "00001 0 1 001 1 1 0000000000000000000000 1",
            Err(SliceFault::BadAddress { at: 12 }),
        ),
        ("00001 0 1 001 1 1 0000000000", Ok(1)),
        // Not before the first one.
        (
            "00001 0 00000000000000000000000 1",
            Err(SliceFault::BadAddress { at: 6 }),
        ),
        // The row of two is full.
        (
            "00001 0 1 001 1 1 1 001 1 1 1 001 1 1",
            Err(SliceFault::BadAddress { at: 18 }),
        ),
        (
            "00001 0 1 001 1 1 010 001 1 1",
            Err(SliceFault::BadAddress { at: 12 }),
        ),
        ("00000 0 1 001 1 1", Err(SliceFault::BadType { at: 0 })),
    ] {
        let slice = slice_of(rt.alloc(), Coded::PFrame, 2, printed, bit_count(printed));
        let found = slice.map(|(slice, _bits)| slice.macroblocks.len());
        assert_eq!(rt; found, want, "{printed}");
    }
}

#[test]
fn a_slice_may_have_information(rt: HostRuntime) -> Result<(), Fail> {
    // intra_slice 1, the reserved bits 5, the bytes 202 and 1, each behind a bit 1.
    let bytes = bytes_of("00111 1 1 0000101 1 11001010 1 00000001 0 1", 34);
    let mut source = SliceSource::new(bytes.as_slice());
    let mut reader = BitReader::new(&mut source);
    let _ = reader.bits(6);
    let head = read_slice_head(&mut reader, rt.alloc())?;
    assert_eq!(rt; head.code, 7);
    let Some(info) = head.info else {
        return Err(Fail::from("no information"));
    };
    assert_eq!(rt; (info.intra_slice, info.reserved), (true, 5));
    assert_eq!(rt; info.bytes.as_slice(), [202, 1].as_slice());
    assert_eq!(rt; reader.place(), 39);
    Ok(())
}

#[test]
fn a_read_that_fails_is_told(rt: HostRuntime) -> Result<(), Fail> {
    let alloc = rt.alloc();
    // Call 3 is the second read, in mid-slice.
    let mut shelf = MemShelf::new(alloc, vec![in alloc; 3]?);
    let printed = "00001 0 1 001 1 1 1 01 1010 1 0 10 1 001 1 1 0";
    shelf.put_file("a", bytes_of(printed, 32).as_slice())?;
    let mut file = Reading::new(&mut shelf, "a");
    let mut reader = BitReader::new(&mut file);
    let seq = seq(3);
    let coding = coding(Coded::PFrame);
    let picture = PictureParameters {
        seq: &seq,
        coding: &coding,
    };
    let found = read_slice(&mut reader, picture, 0, alloc).err();
    assert_eq!(rt; found, Some(SliceFault::Outside(Fault::Failed)));
    Ok(())
}
