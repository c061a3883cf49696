ghost use Rattle.std.specs.Prelude.{◌≡◌, IfOk, length};
ghost use Rattle.version_table.specs.Table.{units_of};

use bound_certificate::read_cert;
use certificate_checker::{CertFault, CheckRoom, Why, check};
use dual_bounds::nothing_fixed;
use list_types::OutOfMemory;
use std::alloc::Global;
use std::process::Abort;
use std::test::Fail;
use version_table::{Table, read_table};

/// One unit, of which three packets without distortion or two with a distortion of 10 are due; two slots end in time.
const TABLE: &[u8] =
    b"remux table 1\nslot 4000\nnodes 1\nevaluations 0\nprogram 112\nunit 27200 552:0 368:10\n";

/// Its version 1, with one multiplier of a due time of 27,200 ticks and a lambda of 2,560.
const WITH_A_MULTIPLIER: [u8; 49] = [
    0x52, 0x4D, 0x58, 0x43, 1, 0, 0, 0, 0, 0, 0, 0, 10, 0, 0, 0, 0, 0, 0, 0, 10, 0, 0, 0, 1, 1, 0,
    0, 0, 1, 2, 0, 1, 0, 0, 0, 0, 0, 0, 0x6A, 0x40, 0, 0, 0, 0, 0, 0, 0x0A, 0,
];

/// One unit, of which 625 or 500 packets are due at 54,000,000 ticks; of its slots 599 begin a second before that or later.
const LATE: &[u8] =
    b"remux table 1\nslot 40000\nnodes 1\nevaluations 0\nprogram 112\nunit 54000000 115000:0 92000:10\n";

/// Its version 1, with one window at the due time and a lambda of 20.
const WITH_A_WINDOW: [u8; 57] = [
    0x52, 0x4D, 0x58, 0x43, 2, 0, 0, 0, 0, 0, 0, 0, 3, 0, 0, 0, 0, 0, 0, 0, 10, 0, 0, 0, 1, 1, 0,
    0, 0, 1, 5, 0, 1, 0, 0, 0, 0, 3, 0x37, 0xF9, 0x80, 0, 0, 0, 0, 3, 0x37, 0xF9, 0x80, 0, 0, 0, 0,
    0, 0, 0, 20,
];

/// Asserts how a certificate of a table's text is answered.
fn assert_answer(
    rt: &impl Abort,
    alloc: Global,
    text: &[u8],
    bytes: &[u8],
    wanted: Result<u64, CertFault>,
) -> Result<(), Fail> {
    let table = read_table(alloc, text)?;
    let cert = read_cert(alloc, bytes)?;
    let mut room = CheckRoom::new(alloc, &table)?;
    assert_eq!(rt; check(&table, &cert, &mut room), wanted);
    Ok(())
}

/// The same with one byte changed.
fn assert_changed(
    rt: &impl Abort,
    alloc: Global,
    place: usize,
    byte: u8,
    why: Why,
) -> Result<(), Fail> {
    let mut bytes = WITH_A_MULTIPLIER;
    if place < bytes.len() {
        bytes[place] = byte;
    }
    assert_answer(rt, alloc, TABLE, &bytes, Err(CertFault { node: 0, why }))
}

/// The same with other nodes.
fn assert_nodes(
    rt: &impl Abort,
    alloc: Global,
    count: u8,
    nodes: &[u8],
    wanted: Result<u64, CertFault>,
) -> Result<(), Fail> {
    let mut bytes = Vec::new(alloc);
    bytes.extend_from_slice(&WITH_A_MULTIPLIER[..29])?;
    bytes.push(count)?;
    bytes.extend_from_slice(nodes)?;
    assert_answer(rt, alloc, TABLE, bytes.as_slice(), wanted)
}

/// A fault of a node.
fn fault(node: u32, why: Why) -> Result<u64, CertFault> {
    Err(CertFault { node, why })
}

#[test]
fn a_bound_that_a_multiplier_shows_is_accepted(rt: HostRuntime) -> Result<(), Fail> {
    assert_answer(&rt, rt.alloc(), TABLE, &WITH_A_MULTIPLIER, Ok(10))
}

#[test]
fn each_change_of_the_head_has_its_fault(rt: HostRuntime) -> Result<(), Fail> {
    let alloc = rt.alloc();
    assert_changed(&rt, alloc, 25, 2, Why::ChoiceVersion)?;
    assert_changed(&rt, alloc, 25, 0, Why::ChoiceMissed)?;
    assert_changed(&rt, alloc, 20, 11, Why::WrongDistortion)?;
    assert_changed(&rt, alloc, 41, 1, Why::LambdaLimit)?;
    assert_changed(&rt, alloc, 12, 11, Why::BoundHigh)
}

#[test]
fn each_tree_is_walked_to_its_first_fault(rt: HostRuntime) -> Result<(), Fail> {
    let alloc = rt.alloc();
    assert_nodes(&rt, alloc, 1, &[4], fault(0, Why::BoundHigh))?;
    assert_nodes(&rt, alloc, 1, &[3, 1], fault(0, Why::RunOpen))?;
    assert_nodes(&rt, alloc, 1, &[1, 0, 0, 0, 1], fault(0, Why::UnitRange))?;
    assert_nodes(&rt, alloc, 3, &[1, 0, 0, 0, 0, 3, 0, 3, 1], Ok(10))?;
    assert_nodes(
        &rt,
        alloc,
        3,
        &[1, 0, 0, 0, 0, 3, 1, 3, 1],
        fault(1, Why::RunWrong),
    )?;
    assert_nodes(&rt, alloc, 2, &[1, 0, 0, 0, 0, 3, 0], fault(2, Why::NoNode))?;
    assert_nodes(
        &rt,
        alloc,
        4,
        &[1, 0, 0, 0, 0, 3, 0, 3, 1, 4],
        fault(3, Why::ExtraNode),
    )?;
    assert_nodes(
        &rt,
        alloc,
        2,
        &[1, 0, 0, 0, 0, 1, 0, 0, 0, 0],
        fault(1, Why::UnitFixed),
    )
}

#[test]
fn a_window_bounds_by_the_room_from_where_it_begins(rt: HostRuntime) -> Result<(), Fail> {
    let alloc = rt.alloc();
    assert_answer(&rt, alloc, LATE, &WITH_A_WINDOW, Ok(3))?;
    let mut from_the_start = WITH_A_WINDOW;
    from_the_start[37] = 0;
    assert_answer(&rt, alloc, LATE, &from_the_start, fault(0, Why::BoundHigh))?;
    let mut empty = WITH_A_WINDOW;
    empty[40] = 0x81;
    assert_answer(&rt, alloc, LATE, &empty, fault(0, Why::WindowEmpty))
}

/// Two units of a program whose buffer has 2,048 bytes: the first fills it, of the second 368 bytes have room in two slots.
const FULL: &[u8] =
    b"remux table 1\nslot 40000\nnodes 1\nevaluations 0\nprogram 1\nunit 1200000 2049:0 2048:2\nunit 1287200 369:0 368:5\n";

/// Their versions 1, with one window that sees the buffer: slots 27 to 31, due by 1,287,200, and a lambda of five distortions a byte.
const WITH_A_BUFFER_WINDOW: [u8; 59] = [
    0x52, 0x4D, 0x58, 0x43, 3, 0, 0, 0, 0, 0, 0, 0, 7, 0, 0, 0, 0, 0, 0, 0, 7, 0, 0, 0, 2, 1, 1, 0,
    0, 0, 1, 6, 0, 1, 0, 0, 0, 27, 0, 0, 0, 0, 0, 0x13, 0xA4, 0x20, 1, 0, 0, 0, 32, 0, 0, 0, 0, 0,
    3, 0x98, 0,
];

/// Asserts how that certificate is answered with one byte changed.
fn assert_buffers(
    rt: &impl Abort,
    alloc: Global,
    place: usize,
    byte: u8,
    wanted: Result<u64, CertFault>,
) -> Result<(), Fail> {
    let mut bytes = WITH_A_BUFFER_WINDOW;
    if place < bytes.len() {
        bytes[place] = byte;
    }
    assert_answer(rt, alloc, FULL, &bytes, wanted)
}

#[test]
fn a_window_that_sees_the_buffers_bounds_by_what_they_hold(rt: HostRuntime) -> Result<(), Fail> {
    let alloc = rt.alloc();
    assert_buffers(&rt, alloc, 58, 0, Ok(7))?;
    assert_buffers(&rt, alloc, 12, 8, fault(0, Why::BoundHigh))?;
    assert_buffers(&rt, alloc, 46, 0, fault(0, Why::BoundHigh))
}

#[test]
fn its_faults_are_said_in_their_order(rt: HostRuntime) -> Result<(), Fail> {
    let alloc = rt.alloc();
    assert_buffers(&rt, alloc, 50, 33, fault(0, Why::WindowEmpty))?;
    assert_buffers(&rt, alloc, 50, 26, fault(0, Why::WindowEmpty))?;
    assert_buffers(&rt, alloc, 46, 2, fault(0, Why::ProgramRange))?;
    assert_buffers(&rt, alloc, 52, 1, fault(0, Why::LambdaLimit))?;
    let mut two = WITH_A_BUFFER_WINDOW;
    two[50] = 33;
    two[46] = 2;
    assert_answer(&rt, alloc, FULL, &two, fault(0, Why::WindowEmpty))?;
    two[50] = 32;
    two[51] = 1;
    assert_answer(&rt, alloc, FULL, &two, fault(0, Why::ProgramRange))
}

/// Two multipliers of one due time, the first of which has a weight of 2^40 and 1.
const HEAVY_THEN_UNORDERED: [u8; 35] = [
    2, 0, 2, 0, 0, 0, 0, 0, 0, 0x6A, 0x40, 0, 0, 1, 0, 0, 0, 0, 1, 0, 0, 0, 0, 0, 0, 0x6A, 0x40, 0,
    0, 0, 0, 0, 0, 0, 1,
];

#[test]
fn of_two_faults_in_a_node_the_first_in_their_order_is_said(rt: HostRuntime) -> Result<(), Fail> {
    let alloc = rt.alloc();
    let mut multipliers = HEAVY_THEN_UNORDERED;
    assert_nodes(&rt, alloc, 1, &multipliers, fault(0, Why::DueOrder))?;
    multipliers[26] = 0x41;
    assert_nodes(&rt, alloc, 1, &multipliers, fault(0, Why::LambdaLimit))?;
    let mut window = WITH_A_WINDOW;
    window[40] = 0x81;
    window[51] = 1;
    assert_answer(&rt, alloc, LATE, &window, fault(0, Why::WindowEmpty))?;
    window[40] = 0x80;
    assert_answer(&rt, alloc, LATE, &window, fault(0, Why::LambdaLimit))
}

/// The unit of `TABLE`, and one of three packets that is due later.
const TWO_UNITS: &[u8] =
    b"remux table 1\nslot 4000\nnodes 1\nevaluations 0\nprogram 112\nunit 27200 552:0 368:10\nunit 43200 552:0\n";

/// The versions 1 and 0, with the same multiplier.
const OF_TWO_UNITS: [u8; 50] = [
    0x52, 0x4D, 0x58, 0x43, 1, 0, 0, 0, 0, 0, 0, 0, 10, 0, 0, 0, 0, 0, 0, 0, 10, 0, 0, 0, 2, 1, 0,
    0, 0, 0, 1, 2, 0, 1, 0, 0, 0, 0, 0, 0, 0x6A, 0x40, 0, 0, 0, 0, 0, 0, 0x0A, 0,
];

/// How many units a table has.
fn units(alloc: Global, table: &Table) -> Result<usize, OutOfMemory>
    ensures { IfOk result (λ units. units ≡ length (units_of table.now)) }
{
    Ok(nothing_fixed(alloc, table)?.len())
}

#[test]
fn a_room_for_two_units_serves_a_table_of_one(rt: HostRuntime) -> Result<(), Fail> {
    let alloc = rt.alloc();
    let two = read_table(alloc, TWO_UNITS)?;
    let of_two = read_cert(alloc, &OF_TWO_UNITS)?;
    let one = read_table(alloc, TABLE)?;
    let of_one = read_cert(alloc, &WITH_A_MULTIPLIER)?;
    let of_first = units(alloc, &one)?;
    let of_both = units(alloc, &two)?;
    assert!(rt; of_first <= of_both);
    let mut room = CheckRoom::new(alloc, &two)?;
    assert_eq!(rt; check(&one, &of_one, &mut room), Ok(10));
    assert_eq!(rt; check(&two, &of_two, &mut room), Ok(10));
    assert_eq!(rt;
        check(&one, &of_two, &mut room),
        fault(0, Why::ChoiceLength)
    );
    Ok(())
}

/// Units of a chain of branches.
const CHAIN: u32 = 3_000;

/// So many units, of which version 0 has more packets than there are slots.
fn chain_table(alloc: Global) -> Result<Vec<u8>, Fail> {
    let mut text = Vec::new(alloc);
    text.extend_from_slice(b"remux table 1\nslot 4000\nnodes 1\nevaluations 0\nprogram 112\n")?;
    for unit in 0..CHAIN {
        let due = 40_000 * (u64::from(unit) + 1);
        text.extend_from_slice(format!(in alloc; "unit {due} 4194304:0 184:10\n")?.as_bytes())?;
    }
    Ok(text)
}

/// Its versions 1, with a branch on each unit in the version 0 of the one before. At the end of the chain stand 64
/// multipliers of the greatest lambda, and in each version 1 nothing.
fn chain_cert(alloc: Global) -> Result<Vec<u8>, Fail> {
    let mut bytes = Vec::new(alloc);
    bytes.extend_from_slice(b"RMXC\x01\0\0\0\0\0\0\0\x0A")?;
    bytes.extend_from_slice(&(10 * u64::from(CHAIN)).to_be_bytes())?;
    bytes.extend_from_slice(&CHAIN.to_be_bytes())?;
    for _unit in 0..CHAIN {
        bytes.push(1)?;
    }
    bytes.extend_from_slice(&(2 * CHAIN + 1).to_be_bytes())?;
    for unit in 0..CHAIN {
        bytes.push(1)?;
        bytes.extend_from_slice(&unit.to_be_bytes())?;
    }
    bytes.extend_from_slice(&[2, 0, 64])?;
    for unit in 0..64u64 {
        bytes.extend_from_slice(&(40_000 * (unit + 1)).to_be_bytes())?;
        bytes.extend_from_slice(&[0, 0, 1, 0, 0, 0, 0, 0])?;
    }
    for _unit in 0..CHAIN {
        bytes.push(4)?;
    }
    Ok(bytes)
}

#[test]
fn a_chain_of_3000_branches_shows_a_bound_of_10(rt: HostRuntime) -> Result<(), Fail> {
    let alloc = rt.alloc();
    let text = chain_table(alloc)?;
    let table = read_table(alloc, text.as_slice())?;
    let cert = read_cert(alloc, chain_cert(alloc)?.as_slice())?;
    let mut room = CheckRoom::new(alloc, &table)?;
    assert_eq!(rt; check(&table, &cert, &mut room), Ok(10));
    Ok(())
}
