use arrayvec::ArrayVec;
use bit_cursor::BitReader;
use block_coeffs::{BlockFault, read_block};
use shelf_io::{Fault, Reading, SliceSource};
use shelf_kinds::MemShelf;
use std::test::Fail;
use syntax_types::{Block, BlockWay, Dc};

const NON_INTRA: BlockWay = BlockWay {
    intra: false,
    luma: true,
    vlc_one: false,
};

const LUMA: BlockWay = BlockWay {
    intra: true,
    luma: true,
    vlc_one: false,
};

const CHROMA: BlockWay = BlockWay {
    intra: true,
    luma: false,
    vlc_one: false,
};

const LUMA_ONE: BlockWay = BlockWay {
    intra: true,
    luma: true,
    vlc_one: true,
};

/// The bytes of bits that are printed in groups. The last byte is filled up with zero bits.
fn bytes_of(printed: &str) -> ArrayVec<u8, 16> {
    let mut bytes = ArrayVec::new();
    let mut byte = 0u8;
    let mut count = 0u32;
    for c in printed.bytes() {
        if c != b' ' {
            byte = byte.wrapping_mul(2).wrapping_add(u8::from(c == b'1'));
            count = count.wrapping_add(1) % 8;
            if count == 0 {
                let _ = bytes.try_push(byte);
            }
        }
    }
    if count != 0 {
        let _ = bytes.try_push(byte.wrapping_shl(8u32.saturating_sub(count)));
    }
    bytes
}

/// How many bits are printed.
fn bit_count(printed: &str) -> u64 {
    let mut count = 0u64;
    for c in printed.bytes() {
        count = count.wrapping_add(u64::from(c != b' '));
    }
    count
}

fn are_pairs(block: &Block, pairs: &[(u8, i16)]) -> bool {
    block.pairs.len() == pairs.len()
        && block
            .pairs
            .iter()
            .zip(pairs)
            .all(|(found, pair)| (found.run, found.level) == *pair)
}

/// Whether the bits are those of a block with these coefficients, no more and no fewer.
fn spell(printed: &str, way: BlockWay, dc: Option<Dc>, pairs: &[(u8, i16)]) -> bool {
    let bytes = bytes_of(printed);
    let mut source = SliceSource::new(bytes.as_slice());
    let mut reader = BitReader::new(&mut source);
    match read_block(&mut reader, way) {
        Ok(block) => block.dc == dc
            && are_pairs(&block, pairs)
            && reader.place() == bit_count(printed),
        Err(_) => false,
    }
}

/// Whether the bits, a whole number of bytes, are refused in this way.
fn refused(printed: &str, way: BlockWay, fault: BlockFault) -> bool {
    let bytes = bytes_of(printed);
    let mut source = SliceSource::new(bytes.as_slice());
    let mut reader = BitReader::new(&mut source);
    bit_count(printed) % 8 == 0 && read_block(&mut reader, way).err() == Some(fault)
}

#[test]
fn a_non_intra_block_is_read_by_the_first_table_and_then_by_the_other(rt: HostRuntime) {
    assert!(rt; spell("1 0 11 1 10", NON_INTRA, None, &[(0, 1), (0, -1)]));
    assert!(rt; spell("011 0 011 1 10", NON_INTRA, None, &[(1, 1), (1, -1)]));
    assert!(rt; spell("0000000000011011 1 10", NON_INTRA, None, &[(31, -1)]));
    assert!(rt;
        spell(
            "1 1 0000000000011011 0 10",
            NON_INTRA,
            None,
            &[(0, -1), (31, 1)]
        )
    );
}

#[test]
fn an_escape_gives_each_run_and_level_but_two(rt: HostRuntime) {
    assert!(rt;
        spell(
            "000001 000000 011111111111 10",
            NON_INTRA,
            None,
            &[(0, 2047)]
        )
    );
    assert!(rt;
        spell(
            "000001 000000 100000000001 10",
            NON_INTRA,
            None,
            &[(0, -2047)]
        )
    );
    assert!(rt;
        spell(
            "000001 111111 111111111111 10",
            NON_INTRA,
            None,
            &[(63, -1)]
        )
    );
    assert!(rt;
        spell(
            "1 0 000001 000000 000000000001 10",
            NON_INTRA,
            None,
            &[(0, 1), (0, 1)]
        )
    );
    let bad = BlockFault::BadEscape { at: 0 };
    assert!(rt; refused("000001 000000 100000000000 10 000000", NON_INTRA, bad));
    assert!(rt; refused("000001 000000 000000000000 10 000000", NON_INTRA, bad));
}

#[test]
fn an_intra_block_begins_with_its_dc_coefficient(rt: HostRuntime) {
    let none = Some(Dc { size: 0, bits: 0 });
    let most = Some(Dc {
        size: 11,
        bits: 0b101_0101_0101,
    });
    assert!(rt; spell("100 10", LUMA, none, &[]));
    assert!(rt; spell("00 10", CHROMA, none, &[]));
    assert!(rt; spell("00 1 10", LUMA, Some(Dc { size: 1, bits: 1 }), &[]));
    assert!(rt; spell("111111111 10101010101 10", LUMA, most, &[]));
    assert!(rt; spell("1111111111 10101010101 10", CHROMA, most, &[]));
    assert!(rt; spell("100 11 0 10", LUMA, none, &[(0, 1)]));
}

#[test]
fn the_other_table_of_intra_blocks_has_its_own_codes(rt: HostRuntime) {
    let none = Some(Dc { size: 0, bits: 0 });
    assert!(rt; spell("100 0110", LUMA_ONE, none, &[]));
    assert!(rt;
        spell(
            "100 10 1 11111111 0 0110",
            LUMA_ONE,
            none,
            &[(0, -1), (0, 15)]
        )
    );
    assert!(rt; spell("100 0000000000011011 0 0110", LUMA_ONE, none, &[(31, 1)]));
    assert!(rt;
        spell(
            "100 000001 000010 000000000111 0110",
            LUMA_ONE,
            none,
            &[(2, 7)]
        )
    );
}

#[test]
fn no_coefficient_stands_past_the_last_place(rt: HostRuntime) {
    assert!(rt; spell("000001 111111 000000000001 10", NON_INTRA, None, &[(63, 1)]));
    let behind = BlockFault::TooMany { at: 24 };
    assert!(rt; refused("000001 111111 000000000001 11 000000", NON_INTRA, behind));
    let escape = BlockFault::TooMany { at: 3 };
    assert!(rt; refused("100 000001 111111 000000000000 00000", LUMA, escape));
}

#[test]
fn no_code_stands_at_zeros(rt: HostRuntime) {
    let first = BlockFault::NoCode { at: 0 };
    assert!(rt; refused("00000000 00000000 00000000", NON_INTRA, first));
    let second = BlockFault::NoCode { at: 2 };
    assert!(rt; refused("10 000000 00000000 00000000 00000000", NON_INTRA, second));
}

#[test]
fn bits_end_within_the_element_that_begins_there(rt: HostRuntime) {
    assert!(rt; refused("", NON_INTRA, BlockFault::End { at: 0 }));
    assert!(rt; refused("10 110 110", NON_INTRA, BlockFault::End { at: 8 }));
    assert!(rt; refused("10 110 011", NON_INTRA, BlockFault::End { at: 8 }));
    assert!(rt; refused("10 000001", NON_INTRA, BlockFault::End { at: 2 }));
    assert!(rt; refused("000001 000000 0000", NON_INTRA, BlockFault::End { at: 0 }));
    assert!(rt; refused("11111111", LUMA, BlockFault::End { at: 0 }));
    assert!(rt; refused("1110 1010", LUMA, BlockFault::End { at: 4 }));
}

#[test]
fn a_cut_coefficient_that_can_only_pass_the_last_place_is_one_too_many(rt: HostRuntime) {
    let escape = BlockFault::TooMany { at: 2 };
    assert!(rt; refused("10 000001 111111 00", NON_INTRA, escape));
    let long = BlockFault::TooMany { at: 26 };
    assert!(rt;
        refused(
            "10 000001 100011 000000000001 00000000000111",
            NON_INTRA,
            long
        )
    );
    let open = BlockFault::End { at: 26 };
    assert!(rt;
        refused(
            "10 000001 100010 000000000001 00000000000111",
            NON_INTRA,
            open
        )
    );
}

#[test]
fn a_source_that_fails_once_is_read_again(rt: HostRuntime) -> Result<(), Fail> {
    let alloc = rt.alloc();
    let mut shelf = MemShelf::new(alloc, vec![in alloc; 2]?);
    shelf.put_file("a", bytes_of("1 0 10").as_slice())?;
    let mut file = Reading::new(&mut shelf, "a");
    let mut reader = BitReader::new(&mut file);
    let failed = Some(BlockFault::Outside(Fault::Failed));
    assert_eq!(rt; read_block(&mut reader, NON_INTRA).err(), failed);
    assert_eq!(rt; reader.place(), 0);
    let block = read_block(&mut reader, NON_INTRA)?;
    assert!(rt; are_pairs(&block, &[(0, 1)]));
    assert_eq!(rt; reader.place(), 4);
    Ok(())
}

#[test]
fn a_file_that_is_not_held_is_missing(rt: HostRuntime) {
    let alloc = rt.alloc();
    let mut shelf = MemShelf::new(alloc, Vec::new(alloc));
    let mut file = Reading::new(&mut shelf, "a");
    let mut reader = BitReader::new(&mut file);
    let missing = Some(BlockFault::Outside(Fault::Missing));
    assert_eq!(rt; read_block(&mut reader, LUMA).err(), missing);
}
