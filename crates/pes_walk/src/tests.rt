ghost use Rattle.std.specs.Prelude.{◌≡◌, [], ◌∷◌, true, false, IfOk};
ghost use Rattle.pes_units.specs.PesPackets.{gathered};
ghost use Rattle.pes_walk.specs.Walk.{carried_as, all_data};

use super::*;
use list_types::OutOfMemory;
use pes_units::{PesFault, PesHeader};
use std::alloc::Global;
use std::test::Fail;

/// Some bytes before the first start flag; a video packet with a header of ten bytes, cut within it; a packet of four bytes.
#[test]
fn a_packet_over_several_payloads(rt: HostRuntime) -> Result<(), Fail> {
    let mut walk = PesWalk::new(rt.alloc(), true);
    assert_eq!(rt; walk.add(0, false, &[0, 0, 1, 0xE0])?, [].as_slice());
    assert!(rt; walk.place().is_none());
    assert_eq!(rt;
        walk.add(188, true, &[0, 0, 1, 0xE0, 0, 0, 0x80])?,
        [].as_slice()
    );
    assert_eq!(rt; walk.add(376, false, &[0, 1, 0xFF])?, [].as_slice());
    assert!(rt; walk.header().is_none());
    assert_eq!(rt; walk.add(752, false, &[5, 6])?, [5, 6].as_slice());
    assert_eq!(rt; walk.add(940, true, &[])?, [].as_slice());
    assert_eq!(rt; walk.add(1128, false, &[7])?, [7].as_slice());
    assert_eq!(rt; walk.kept_data(), [5, 6, 7].as_slice());
    assert_eq!(rt; walk.place(), Some(188));
    assert_eq!(rt; length_of(walk.whole()), Ok(Some(10)));
    assert_eq!(rt; walk.add(1316, true, &[0, 0, 1, 0xE0])?, [].as_slice());
    assert_eq!(rt; walk.place(), Some(1316));
    assert_eq!(rt; length_of(walk.whole()), Err(PesFault::Short));
    assert_eq!(rt; length_of(walk.last()), Ok(None));
    Ok(())
}

/// An audio packet that states 65,535 bytes: one too few, as many, and one more; then as many again.
#[test]
fn the_longest_packet_and_one_byte_more(rt: HostRuntime) -> Result<(), Fail> {
    let mut walk = PesWalk::new(rt.alloc(), false);
    walk.add(0, true, &[0, 0, 1, 0xC0, 0xFF, 0xFF, 0x80, 0, 0])?;
    add_bytes(&mut walk, 65_531)?;
    assert_eq!(rt; walk.kept_data().len(), 65_531);
    assert_eq!(rt; length_of(walk.whole()), Err(PesFault::BadLength));
    assert_eq!(rt; length_of(walk.last()), Ok(None));
    add_bytes(&mut walk, 1)?;
    assert_eq!(rt; length_of(walk.whole()), Ok(Some(9)));
    assert_eq!(rt; length_of(walk.last()), Ok(Some(9)));
    add_bytes(&mut walk, 1)?;
    assert_eq!(rt; length_of(walk.whole()), Err(PesFault::BadLength));
    add_bytes(&mut walk, 65_532)?;
    assert_eq!(rt; walk.kept_data().len(), FRONT_BYTES - 9);
    assert_eq!(rt; length_of(walk.last()), Err(PesFault::BadLength));
    Ok(())
}

/// Adds so many bytes, one a payload.
fn add_bytes(walk: &mut PesWalk, count: u32) -> Result<(), OutOfMemory> {
    for _ in 0..count {
        walk.add(188, false, &[0xFF])?;
    }
    Ok(())
}

/// The length of a header that is answered.
fn length_of(answer: Result<Option<PesHeader>, PesFault>) -> Result<Option<u16>, PesFault> {
    match answer {
        Ok(Some(header)) => Ok(Some(header.len)),
        Ok(None) => Ok(None),
        Err(fault) => Err(fault),
    }
}

/// The bytes behind the header of a packet in two payloads.
fn behind_header(alloc: Global, first: &[u8], second: &[u8]) -> Result<Vec<u8>, OutOfMemory>
    ensures { IfOk result (λ bytes. bytes.items ≡ all_data (gathered (carried_as 0 true first.now ∷ carried_as 188 false second.now ∷ []))) }
{
    let mut walk = PesWalk::new(alloc, true);
    let mut bytes = walk.add(0, true, first)?.to_vec(alloc)?;
    bytes.extend_from_slice(walk.add(188, false, second)?)?;
    Ok(bytes)
}

/// A packet with a header of eleven bytes, cut at every place.
#[test]
fn a_packet_cut_anywhere(rt: HostRuntime) -> Result<(), Fail> {
    let packet = [0, 0, 1, 0xE0, 0, 0, 0x80, 0, 2, 0xFF, 0xFF, 5, 6, 7];
    for at in 1..14 {
        let bytes = behind_header(rt.alloc(), &packet[..at], &packet[at..])?;
        assert_eq!(rt; bytes.as_slice(), [5, 6, 7].as_slice());
    }
    Ok(())
}
