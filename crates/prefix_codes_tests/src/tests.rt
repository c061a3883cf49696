use prefix_codes::symbol::{
    ADDRESS_ESCAPE, BACKWARD, END_OF_BLOCK, ESCAPE, FORWARD, INTRA, LEVELS_PER_RUN, PATTERN, QUANT,
};
use prefix_codes::{Code, TableName, WINDOW_BITS, code_of, find, find_whole};

#[test]
fn a_code_is_found_where_all_its_bits_are_known(rt: HostRuntime) {
    let table = TableName::CoeffZero;
    let found = [
        find(table, 0xC0_0000, 2),
        find(table, 0xC0_0000, 1),
        find(table, 0x80_0000, 2),
        find(table, 0xFF_FFFF, 0),
        find(table, 0, 24),
    ];
    assert_eq!(rt; found, [Some((1, 2)), None, Some((4000, 2)), None, None]);
}

#[test]
fn a_code_is_found_in_a_whole_window(rt: HostRuntime) {
    let table = TableName::CoeffZero;
    let found = [
        find_whole(table, 0xC0_0000),
        find_whole(table, 0x9F_FFFF),
        find_whole(table, 0x04_1001),
        find_whole(TableName::Address, 0x05_FFFF),
        find_whole(table, 0),
    ];
    let whole = [
        Some((1, 2)),
        Some((END_OF_BLOCK, 2)),
        Some((ESCAPE, 6)),
        Some((16, 10)),
        None,
    ];
    assert_eq!(rt; found, whole);
}

#[test]
fn the_first_coefficient_has_a_code_of_one_bit_and_no_end_of_block(rt: HostRuntime) {
    let table = TableName::CoeffFirst;
    assert_eq!(rt; find(table, 0x80_0000, 24), Some((1, 1)));
    let codes = [code_of(table, END_OF_BLOCK), code_of(table, ESCAPE)];
    assert_eq!(rt; codes, [None, Some(Code { bits: 1, len: 6 })]);
}

/// The bits of a code as Annex B prints them, at the front of a window.
fn is_printed(table: TableName, symbol: u16, printed: &str) -> bool {
    let mut bits = 0u32;
    let mut len = 0u8;
    for c in printed.bytes() {
        if c != b' ' {
            bits = bits.wrapping_mul(2).wrapping_add(u32::from(c == b'1'));
            len = len.wrapping_add(1);
        }
    }
    let window = bits.wrapping_shl(WINDOW_BITS.saturating_sub(u32::from(len)));
    code_of(table, symbol) == Some(Code { bits, len })
        && find(table, window, u32::from(len)) == Some((symbol, len))
}

/// Codes of each table, as Annex B prints them.
const PRINTED: [(TableName, u16, &str); 30] = [
    (TableName::Address, 1, "1"),
    (TableName::Address, 16, "0000 0101 11"),
    (TableName::Address, 33, "0000 0011 000"),
    (TableName::Address, ADDRESS_ESCAPE, "0000 0001 000"),
    (TableName::TypeI, INTRA, "1"),
    (TableName::TypeI, INTRA + QUANT, "01"),
    (TableName::TypeP, FORWARD + PATTERN, "1"),
    (TableName::TypeP, FORWARD + PATTERN + QUANT, "0001 0"),
    (TableName::TypeP, INTRA + QUANT, "0000 01"),
    (TableName::TypeB, FORWARD + BACKWARD, "10"),
    (TableName::TypeB, BACKWARD + PATTERN, "011"),
    (TableName::TypeB, INTRA + QUANT, "0000 01"),
    (TableName::Pattern, 60, "111"),
    (TableName::Pattern, 43, "0001 0000"),
    (TableName::Pattern, 39, "0000 0001 0"),
    (TableName::Motion, 0, "1"),
    (TableName::Motion, 5, "0000 101"),
    (TableName::Motion, 16, "0000 0011 00"),
    (TableName::DcLuma, 0, "100"),
    (TableName::DcLuma, 11, "1111 1111 1"),
    (TableName::DcChroma, 0, "00"),
    (TableName::DcChroma, 11, "1111 1111 11"),
    (TableName::CoeffZero, LEVELS_PER_RUN + 1, "011"),
    (
        TableName::CoeffZero,
        17 * LEVELS_PER_RUN + 1,
        "0000 0001 1111",
    ),
    (TableName::CoeffZero, 40, "0000 0000 0010 000"),
    (
        TableName::CoeffZero,
        31 * LEVELS_PER_RUN + 1,
        "0000 0000 0001 1011",
    ),
    (TableName::CoeffOne, END_OF_BLOCK, "0110"),
    (TableName::CoeffOne, 15, "1111 1111"),
    (TableName::CoeffOne, 16, "0000 0000 0111 11"),
    (TableName::CoeffOne, 16 * LEVELS_PER_RUN + 1, "0000 0011 01"),
];

#[test]
fn the_tables_are_those_of_annex_b(rt: HostRuntime) {
    for &(table, symbol, printed) in &PRINTED {
        assert!(rt; is_printed(table, symbol, printed), "{printed}");
    }
}
