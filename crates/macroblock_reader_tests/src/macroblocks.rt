//! Macroblocks of each kind (ISO/IEC 13818-2, 6.2.5). Bits are printed in the order of the elements: address, type, motion
//! type, dct_type, quantiser code, vectors, marker, pattern, blocks.

use crate::fixtures::{Coded, bytes_of, coding, filling, macroblock_of, whole};
use bit_cursor::BitReader;
use macroblock_reader::read_macroblock_into;
use shelf_io::SliceSource;
use std::test::Fail;
use syntax_types::{
    Block, DUAL_PRIME, Dc, FIELD_BASED, FRAME_BASED, Kind, Macroblock, SIXTEEN_BY_EIGHT, Vector,
};

/// The macroblock that these bits spell, no more and no fewer.
fn read(coded: Coded, printed: &str) -> Result<Macroblock, Fail> {
    match whole(coded, printed)? {
        Some(macroblock) => Ok(macroblock),
        None => Err(Fail::from("bits are left")),
    }
}

/// Quant, forward, backward, pattern, intra.
fn flags(kind: Kind) -> [bool; 5] {
    [
        kind.quant,
        kind.forward,
        kind.backward,
        kind.pattern,
        kind.intra,
    ]
}

/// The field select, the codes, the residuals and the dmvectors.
type Parts = (Option<bool>, [i8; 2], [u16; 2], Option<[i8; 2]>);

fn are_vectors(found: &[Vector], want: &[Parts]) -> bool {
    found.len() == want.len()
        && found.iter().zip(want).all(|(v, parts)| (v.select, v.code, v.residual, v.dual) == *parts)
}

fn are_pairs(block: &Block, want: &[(u8, i16)]) -> bool {
    block.pairs.len() == want.len()
        && block
            .pairs
            .iter()
            .zip(want)
            .all(|(found, pair)| (found.run, found.level) == *pair)
}

/// A vector of codes 0 that selects a field.
fn still(select: bool) -> Parts {
    (Some(select), [0, 0], [0, 0], None)
}

/// Which blocks are coded, block 0 being 32 and block 5 being 1.
fn coded_blocks(macroblock: &Macroblock) -> u8 {
    let mut coded = 0u8;
    for block in &macroblock.blocks {
        let stands = block.dc.is_some() || !block.pairs.is_empty();
        coded = coded.wrapping_mul(2).wrapping_add(u8::from(stands));
    }
    coded
}

#[test]
fn vectors_have_residuals_by_their_f_codes(rt: HostRuntime) -> Result<(), Fail> {
    // -1 with the residual 2 of 2 bits; 3 with the residual 1 of 1 bit.
    let both = read(Coded::PFrame, "1 001 01 1 10 0001 0 1")?;
    assert_eq!(rt; flags(both.kind), [false, true, false, false, false]);
    assert_eq!(rt; both.motion_type, FRAME_BASED);
    assert!(rt; are_vectors(both.forward.as_slice(), &[(None, [-1, 3], [2, 1], None)]));
    assert!(rt; both.backward.is_empty());
    assert_eq!(rt; coded_blocks(&both), 0);
    // The code 0 has neither sign nor residual.
    let still = read(Coded::PFrame, "1 001 1 1")?;
    assert!(rt; are_vectors(still.forward.as_slice(), &[(None, [0, 0], [0, 0], None)]));
    // The greatest codes: -16 with the residual 3, 16 with the residual 0.
    let far = read(Coded::PFrame, "1 001 0000001100 1 11 0000001100 0 0")?;
    assert!(rt; are_vectors(far.forward.as_slice(), &[(None, [-16, 16], [3, 0], None)]));
    Ok(())
}

#[test]
fn vectors_of_a_frame_stand_by_the_motion_type(rt: HostRuntime) -> Result<(), Fail> {
    // Field-based: two vectors, each behind its select. (0: 1 with the residual 1, 0), (1: 0, -2 with the residual 0).
    let fields = read(Coded::PInterlaced, "1 001 01 0 01 0 01 1 1 1 001 1 0")?;
    assert_eq!(rt; fields.motion_type, FIELD_BASED);
    let want = [
        (Some(false), [1, 0], [1, 0], None),
        (Some(true), [0, -2], [0, 0], None),
    ];
    assert!(rt; are_vectors(fields.forward.as_slice(), &want));
    // Frame-based: one, without a select.
    let frame = read(Coded::PInterlaced, "1 001 10 1 01 0 1")?;
    assert_eq!(rt; frame.motion_type, FRAME_BASED);
    assert!(rt; are_vectors(frame.forward.as_slice(), &[(None, [0, 1], [0, 1], None)]));
    // Dual prime: one, with the dmvector 1 behind the residual 3, and -1 behind the code 0.
    let dual = read(Coded::PInterlaced, "1 001 11 01 0 11 10 1 11")?;
    assert_eq!(rt; dual.motion_type, DUAL_PRIME);
    assert!(rt;
        are_vectors(
            dual.forward.as_slice(),
            &[(None, [1, 0], [3, 0], Some([1, -1]))]
        )
    );
    Ok(())
}

#[test]
fn vectors_of_a_field_stand_by_the_motion_type(rt: HostRuntime) -> Result<(), Fail> {
    let field = read(Coded::PField, "1 001 01 1 1 01 1 0")?;
    assert_eq!(rt; field.motion_type, FIELD_BASED);
    assert!(rt;
        are_vectors(
            field.forward.as_slice(),
            &[(Some(true), [0, -1], [0, 0], None)]
        )
    );
    // 16x8: for the upper half (0: 0, 0), for the lower half (1: 0, 0).
    let halves = read(Coded::PField, "1 001 10 0 1 1 1 1 1")?;
    assert_eq!(rt; halves.motion_type, SIXTEEN_BY_EIGHT);
    assert!(rt; are_vectors(halves.forward.as_slice(), &[still(false), still(true)]));
    let dual = read(Coded::PField, "1 001 11 1 0 1 10")?;
    assert_eq!(rt; dual.motion_type, DUAL_PRIME);
    assert!(rt;
        are_vectors(
            dual.forward.as_slice(),
            &[(None, [0, 0], [0, 0], Some([0, 1]))]
        )
    );
    // Without motion no motion type stands, and field-based counts. Pattern 32, and the pair (0, 1) in block 0.
    let unmoved = read(Coded::PField, "1 01 1010 1 0 10")?;
    assert_eq!(rt; unmoved.motion_type, FIELD_BASED);
    assert!(rt; unmoved.forward.is_empty());
    assert!(rt; are_pairs(&unmoved.blocks[0], &[(0, 1)]));
    Ok(())
}

#[test]
fn both_directions_have_their_own_f_codes(rt: HostRuntime) -> Result<(), Fail> {
    // Frame-based, dct_type 1. Forward 1 with the residual 2, and 0; backward -1 without one, and 2 with the residual 5 of
    // 3 bits. Pattern 16: (0, -1) by the code of a first coefficient, then (1, 1).
    let both = read(
        Coded::BInterlaced,
        "1 11 10 1 01 0 10 1 01 1 001 0 101 1011 1 1 011 0 10",
    )?;
    assert_eq!(rt; flags(both.kind), [false, true, true, true, false]);
    assert!(rt; both.field_dct);
    assert!(rt; are_vectors(both.forward.as_slice(), &[(None, [1, 0], [2, 0], None)]));
    assert!(rt; are_vectors(both.backward.as_slice(), &[(None, [-1, 2], [0, 5], None)]));
    assert_eq!(rt; both.pattern, 16);
    assert_eq!(rt; coded_blocks(&both), 16);
    assert!(rt; are_pairs(&both.blocks[1], &[(0, -1), (1, 1)]));
    // Field-based: two vectors forward, then two backward.
    let fields = read(Coded::BInterlaced, "1 10 01 0 1 1 1 1 1 1 1 1 0 1 1")?;
    assert!(rt; are_vectors(fields.forward.as_slice(), &[still(false), still(true)]));
    assert!(rt; are_vectors(fields.backward.as_slice(), &[still(true), still(false)]));
    // Backward alone.
    let backward = read(Coded::BInterlaced, "1 010 10 1 1")?;
    assert!(rt; backward.forward.is_empty());
    assert!(rt;
        are_vectors(
            backward.backward.as_slice(),
            &[(None, [0, 0], [0, 0], None)]
        )
    );
    Ok(())
}

/// Quant, dct_type 0, code 6, the concealment vector (0, -1), its marker, then blocks by Tables B-12, B-13 and B-15:
/// block 0 of size 3 and bits 6 with (0, -1), block 4 of size 1 and bit 1, the others of size 0.
pub const CONCEALED: &str =
    "1 01 0 00110 1 01 1 0 1 101 110 10 1 0110 100 0110 100 0110 100 0110 01 1 0110 00 0110";

#[test]
fn intra_macroblocks_have_six_blocks(rt: HostRuntime) -> Result<(), Fail> {
    let concealed = read(Coded::IConcealed, CONCEALED)?;
    assert_eq!(rt; flags(concealed.kind), [true, false, false, false, true]);
    assert_eq!(rt; (concealed.code, concealed.pattern), (Some(6), 0));
    assert!(rt; !concealed.field_dct);
    assert!(rt;
        are_vectors(
            concealed.forward.as_slice(),
            &[(None, [0, -1], [0, 0], None)]
        )
    );
    assert_eq!(rt; coded_blocks(&concealed), 63);
    assert_eq!(rt; concealed.blocks[0].dc, Some(Dc { size: 3, bits: 6 }));
    assert!(rt; are_pairs(&concealed.blocks[0], &[(0, -1)]));
    assert_eq!(rt; concealed.blocks[3].dc, Some(Dc { size: 0, bits: 0 }));
    assert_eq!(rt; concealed.blocks[4].dc, Some(Dc { size: 1, bits: 1 }));
    // In a P-picture, without concealment, by Table B-14: block 0 of size 4 and bits 11 with (0, -1) and (1, 1).
    let plain = read(
        Coded::PFrame,
        "1 00011 110 1011 11 1 011 0 10 100 10 100 10 100 10 00 10 00 10",
    )?;
    assert_eq!(rt; flags(plain.kind), [false, false, false, false, true]);
    assert!(rt; plain.forward.is_empty());
    assert_eq!(rt; plain.blocks[0].dc, Some(Dc { size: 4, bits: 11 }));
    assert!(rt; are_pairs(&plain.blocks[0], &[(0, -1), (1, 1)]));
    Ok(())
}

#[test]
fn each_bit_of_the_pattern_stands_for_its_block(rt: HostRuntime) -> Result<(), Fail> {
    // Pattern 63: the levels 1, -1, 2, -2, 3, -3.
    let all = read(
        Coded::PFrame,
        "1 01 001100 1 0 10 1 1 10 0100 0 10 0100 1 10 00101 0 10 00101 1 10",
    )?;
    assert_eq!(rt; (all.pattern, coded_blocks(&all)), (63, 63));
    for (block, level) in all.blocks.iter().zip([1, -1, 2, -2, 3, -3]) {
        assert!(rt; are_pairs(block, &[(0, level)]), "{level}");
    }
    // Pattern 1: block 5. The pair (0, 2047) by an escape.
    let last = read(Coded::PFrame, "1 01 01011 000001 000000 011111111111 10")?;
    assert_eq!(rt; (last.pattern, coded_blocks(&last)), (1, 1));
    assert!(rt; are_pairs(&last.blocks[5], &[(0, 2047)]));
    Ok(())
}

#[test]
fn an_escape_of_the_address_counts_33(rt: HostRuntime) -> Result<(), Fail> {
    let printed = "00000001000 011 001 1 1";
    let (macroblock, bits) = macroblock_of(Coded::PFrame, true, 35, printed, 19)?;
    assert_eq!(rt; (macroblock.skipped_before, bits), (34, 19));
    Ok(())
}

#[test]
fn a_lent_macroblock_keeps_nothing_of_what_it_held(rt: HostRuntime) -> Result<(), Fail> {
    // Two vectors with pattern 63, of 41 bits; then pattern 1 without motion, of 13 bits.
    let printed =
        "1 1 01 0 0 1 1 1 1 1 001100 1 0 10 1 0 10 1 0 10 1 0 10 1 0 10 1 0 10 1 01 0 01011 1 1 10";
    let bytes = bytes_of(printed, 54);
    let mut source = SliceSource::new(bytes.as_slice());
    let mut reader = BitReader::new(&mut source);
    let _ = reader.bits(filling(54));
    let skipped = reader.place();
    let coding = coding(Coded::PInterlaced);
    let mut lent = Macroblock::empty();
    read_macroblock_into(&mut reader, &coding, true, 3, &mut lent)?;
    assert_eq!(rt; (lent.forward.len(), coded_blocks(&lent)), (2, 63));
    assert_eq!(rt; reader.place().saturating_sub(skipped), 41);
    read_macroblock_into(&mut reader, &coding, false, 2, &mut lent)?;
    assert_eq!(rt; (lent.forward.len(), coded_blocks(&lent)), (0, 1));
    assert!(rt; are_pairs(&lent.blocks[5], &[(0, -1)]));
    assert_eq!(rt; reader.place().saturating_sub(skipped), 54);
    Ok(())
}
