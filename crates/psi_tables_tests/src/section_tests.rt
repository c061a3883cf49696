//! Sections from payloads, with expected values by hand and by a bitwise CRC in another language.

ghost use Rattle.std.specs.Prelude.{◌≡◌, ℕ, ◌<◌, ◌≤◌, Bool, List, [], length, map, All, IfOk, OnOk};
ghost use Rattle.bit_lists.specs.Payload.{Payload};
ghost use Rattle.psi_tables.specs.Sections.{sections_of, GivesInTurn};
ghost use Rattle.std.specs.Borrow.{Bor};
ghost use Rattle.psi_tables.specs.SectionBuilder.{found_of};

use psi_tables::{Section, SectionBuilder, SectionFault};
use std::alloc::{AllocError, Global};
use std::test::Fail;

/// The PAT section of stream 1 with program 1 on PID 0x100.
const PAT: [u8; 16] = [
    0x00, 0xB0, 0x0D, 0x00, 0x01, 0xC1, 0x00, 0x00, 0x00, 0x01, 0xE1, 0x00, 0xE8, 0xF9, 0x5E, 0x7D,
];

/// The shortest section of table 2.
const SHORTEST: [u8; 12] = [
    0x02, 0xB0, 0x09, 0x00, 0x01, 0xC1, 0x00, 0x00, 0x58, 0x61, 0xDB, 0x83,
];

/// A section of 1,024 bytes: byte i of those behind its length is 7 i + 3.
fn longest() -> [u8; 1024] {
    let mut bytes = [0; 1024];
    bytes[..3].copy_from_slice(&[0x02, 0xB3, 0xFD]);
    for i in 0..1017 {
        bytes[3 + i] = ((7 * i + 3) % 256) as u8;
    }
    bytes[1020..].copy_from_slice(&[0x13, 0x75, 0xF3, 0xC1]);
    bytes
}

type Found = Result<Section, SectionFault>;

fn is_section(found: &Found, bytes: &[u8]) -> bool {
    match found {
        Ok(section) => section.as_slice() == bytes,
        Err(_) => false,
    }
}

/// Pulls until nothing waits, behind what was found before.
fn pull_all(builder: &mut SectionBuilder, found: &mut Vec<Found>) -> Result<(), AllocError>
    ensures nothing_waits { OnOk result (sections_of builder.new ≡ []) }
    ensures turn { OnOk result ((fed : List Payload) →
        GivesInTurn fed (map found_of found.old.items) builder.old →
        GivesInTurn fed (map found_of found.new.items) builder.new) }
{
    while let Some(next) = builder.pull() {
        found.push(next)?;
    }
    Ok(())
}

/// The sections of payloads, with their start flags: the clauses of a builder's calls are enough to say that these are
/// they.
fn read_all(alloc: Global, payloads: &[(bool, &[u8])]) -> Result<Vec<Found>, AllocError>
    requires { All (λ fed. length fed.1.now ≤ 184) payloads.now }
    ensures { IfOk result (λ found. map found_of found.items ≡ sections_of (map
        (λ (fed : Bool × Bor (List ℕ)). record { start = fed.0; bytes = fed.1.now }) payloads.now)) }
{
    let mut builder = SectionBuilder::new();
    let mut found = Vec::new(alloc);
    for fed in payloads {
        builder.feed(fed.0, fed.1);
        pull_all(&mut builder, &mut found)?;
    }
    Ok(found)
}

/// Feeds bytes in payloads of at most so many, the first with the pointer 0.
fn feed_in_pieces(
    builder: &mut SectionBuilder,
    bytes: &[u8],
    most: usize,
    found: &mut Vec<Found>,
) -> Result<(), AllocError>
    requires waits { sections_of builder.old ≡ [] }
    requires least { 1 < most }
    requires most { most ≤ 184 }
    ensures { OnOk result (sections_of builder.new ≡ []) }
{
    let mut payload = [0; 184];
    let first = bytes.len().min(most - 1);
    payload[1..1 + first].copy_from_slice(&bytes[..first]);
    builder.feed(true, &payload[..1 + first]);
    pull_all(builder, found)?;
    let mut at = first;
    while at < bytes.len() {
        let end = bytes.len().min(at + most);
        builder.feed(false, &bytes[at..end]);
        pull_all(builder, found)?;
        at = end;
    }
    Ok(())
}

#[test]
fn any_cutting_gives_the_same(rt: HostRuntime) -> Result<(), Fail> {
    let mut builder = SectionBuilder::new();
    let mut found = Vec::new(rt.alloc());
    feed_in_pieces(&mut builder, &longest(), 184, &mut found)?;
    feed_in_pieces(&mut builder, &longest(), 7, &mut found)?;
    feed_in_pieces(&mut builder, &PAT, 2, &mut found)?;
    feed_in_pieces(&mut builder, &SHORTEST, 184, &mut found)?;
    assert_eq!(rt; found.len(), 4);
    assert!(rt; is_section(&found[0], &longest()));
    assert!(rt; is_section(&found[1], &longest()));
    assert!(rt; is_section(&found[2], &PAT));
    assert!(rt; is_section(&found[3], &SHORTEST));
    Ok(())
}

#[test]
fn sections_in_turn(rt: HostRuntime) -> Result<(), Fail> {
    let none: [u8; 0] = [];
    let mut first = [0xFF; 184];
    first[0] = 0;
    first[1..17].copy_from_slice(&PAT);
    first[17..29].copy_from_slice(&SHORTEST);
    let mut second = [0; 17];
    second[0] = 12;
    second[1..13].copy_from_slice(&PAT[4..]);
    second[13..].copy_from_slice(&SHORTEST[..4]);
    let payloads = [
        (true, first.as_slice()),
        (true, &[0, 0x00, 0xB0, 0x0D, 0x00]),
        (true, none.as_slice()),
        (true, second.as_slice()),
        (false, &SHORTEST[4..]),
        (false, PAT.as_slice()),
    ];
    let found = read_all(rt.alloc(), &payloads)?;
    assert_eq!(rt; found.len(), 4);
    assert!(rt; is_section(&found[0], &PAT));
    assert!(rt; is_section(&found[1], &SHORTEST));
    assert!(rt; is_section(&found[2], &PAT));
    assert!(rt; is_section(&found[3], &SHORTEST));
    Ok(())
}

#[test]
fn a_bad_crc_then_a_good_section(rt: HostRuntime) -> Result<(), Fail> {
    let mut payload = [0; 33];
    payload[1..17].copy_from_slice(&PAT);
    payload[16] ^= 1;
    payload[17..].copy_from_slice(&PAT);
    let mut good = [0; 17];
    good[1..].copy_from_slice(&PAT);
    let payloads = [
        (true, payload.as_slice()),
        (false, PAT.as_slice()),
        (true, &good[..1]),
        (true, good.as_slice()),
    ];
    let found = read_all(rt.alloc(), &payloads)?;
    assert_eq!(rt; found.len(), 3);
    assert!(rt; matches!(&found[0], Err(SectionFault::BadCrc)));
    assert!(rt; matches!(&found[1], Err(SectionFault::BadSection)));
    assert!(rt; is_section(&found[2], &PAT));
    Ok(())
}
