ghost use Rattle.std.specs.Prelude.{◌≡◌, ◌+◌, ◌<◌, ◌^◌, ◌++◌, [], length, map, IfOk, OnOk, MatchOption};
ghost use Rattle.std.specs.Option.{option_to_list};
ghost use Rattle.es_units.specs.UnitCutter.{place_of};
ghost use Rattle.es_units.specs.Units.{cut_units};

use super::*;
use list_types::OutOfMemory;
use std::alloc::Global;
use std::test::Fail;

/// The units of a stream of these start codes, each followed by one byte FF.
#[test]
fn a_slice_cuts_before_the_next_header(rt: HostRuntime) -> Result<(), Fail> {
    let es: [u8; 30] = [
        0, 0, 1, 0xB3, 0xFF, // sequence header
        0, 0, 1, 0x00, 0xFF, // picture
        0, 0, 1, 0x01, 0xFF, // slice
        0, 0, 1, 0x00, 0xFF, // picture
        0, 0, 1, 0xAF, 0xFF, // slice
        0, 0, 1, 0xB7, 0xFF, // sequence end
    ];
    let units = split_units(rt.alloc(), &es)?;
    assert_eq!(rt; units.dropped, 0);
    assert_eq!(rt; units.cuts.as_slice(), [(0, 15), (15, 30)].as_slice());
    Ok(())
}

#[test]
fn without_a_sequence_header_there_are_none(rt: HostRuntime) -> Result<(), Fail> {
    assert!(rt;
        matches!(
            split_units(rt.alloc(), &[0, 0, 1, 0, 0, 0, 1]),
            Err(UnitFault::NoSequence { at: 0 })
        )
    );
    Ok(())
}

/// The units of a stream whose bytes come in pieces, each but the last one of so many bytes.
fn cut_in_pieces(alloc: Global, es: &[u8], size: usize) -> Result<Vec<(u64, u64)>, OutOfMemory>
    requires some { 0 < size }
    requires few { length es.now + size < 2 ^ 64 }
    ensures { IfOk result (λ units. MatchOption (cut_units es.now) (units.items ≡ []) (λ cut. cut.cuts ≡ units.items)) }
{
    let mut cutter = UnitCutter::new(alloc, 1 << 20);
    let mut units = Vec::new(alloc);
    let mut at = 0;
    while at < es.len() {
        let end = es.len().min(at - at % size + size);
        at += cutter.push(&es[at..end])?;
        add_unit(&mut units, cutter.ended())?;
    }
    add_unit(&mut units, cutter.last())?;
    Ok(units)
}

/// Adds the place of a unit, where there is one.
fn add_unit(units: &mut Vec<(u64, u64)>, unit: Option<CutUnit<'_>>) -> Result<(), OutOfMemory>
    ensures { OnOk result (units.new.items ≡ units.old.items ++ map place_of (option_to_list unit.entry)) }
{
    if let Some(unit) = unit {
        units.push((unit.begin, unit.end))?;
    }
    Ok(())
}

/// A stream of 190 bytes behind two of FF: a sequence header, a picture, and a slice; up to byte 186 more of the slice; then a
/// picture and a slice.
#[test]
fn a_start_code_may_stand_across_pieces(rt: HostRuntime) -> Result<(), Fail> {
    let mut es = [0xFF; 198];
    es[2..17].copy_from_slice(&[
        0, 0, 1, 0xB3, 0xFF, 0, 0, 1, 0x00, 0xFF, 0, 0, 1, 0x01, 0xFF,
    ]);
    es[186..196].copy_from_slice(&[0, 0, 1, 0x00, 0xFF, 0, 0, 1, 0xAF, 0xFF]);
    for size in [1, 2, 3, 4, 5, 16, 187, 188, 189, 190, 198] {
        let units = cut_in_pieces(rt.alloc(), &es, size)?;
        assert_eq!(rt; units.as_slice(), [(2, 186), (186, 198)].as_slice());
    }
    Ok(())
}

/// Of a unit of fifteen bytes the first eight are kept, and of the next one, which is open, its start code at once.
#[test]
fn a_long_units_first_bytes_are_kept(rt: HostRuntime) -> Result<(), Fail> {
    let es: [u8; 21] = [
        0, 0, 1, 0xB3, 0xFF, 0, 0, 1, 0x00, 0xFF, 0, 0, 1, 0x01, 0xFF, 0, 0, 1, 0x00, 0xFE, 0xFD,
    ];
    let mut cutter = UnitCutter::new(rt.alloc(), 8);
    assert_eq!(rt; cutter.push(&es)?, 19);
    let Some(unit) = cutter.ended() else {
        return Err(Fail::from("no unit"));
    };
    assert_eq!(rt; (unit.begin, unit.end), (0, 15));
    assert_eq!(rt; unit.bytes, [0, 0, 1, 0xB3, 0xFF, 0, 0, 1].as_slice());
    let Some(open) = cutter.last() else {
        return Err(Fail::from("no unit is open"));
    };
    assert_eq!(rt; open.bytes, [0, 0, 1, 0].as_slice());
    assert_eq!(rt; cutter.push(&es[19..])?, 2);
    assert!(rt; cutter.ended().is_none());
    let Some(open) = cutter.last() else {
        return Err(Fail::from("no unit is open"));
    };
    assert_eq!(rt; (open.begin, open.end), (15, 21));
    assert_eq!(rt; open.bytes, [0, 0, 1, 0, 0xFE, 0xFD].as_slice());
    assert_eq!(rt; cutter.dropped(), 0);
    Ok(())
}
