//! Certificates of plans, checked against tables.
use crate::calls::ends_so;
use shelf_kinds::CalmShelf;
use std::alloc::Global;
use std::test::Fail;

/// A table whose unit is sent in version 1, so that each certificate of it has the distortion 10.
const TABLE: &str =
    "remux table 1\nslot 4000\nnodes 1\nevaluations 0\nprogram 112\nunit 27200 552:0 368:10\n";

/// A table of no unit.
const OTHER: &str = "remux table 1\nslot 4000\nnodes 1\nevaluations 0\nprogram 112\n";

/// A text whose second line has a needless zero.
const REFUSED: &str = "remux table 1\nslot 04000\nnodes 1\nevaluations 0\n";

/// The words of each check here.
const CHECK: [&str; 3] = ["check-plan", "t", "c"];

/// A shelf that holds the table, and the certificate of its plan in `c`.
fn planned(alloc: Global) -> Result<CalmShelf, Fail> {
    let mut shelf = CalmShelf::new(alloc);
    shelf.put_file("t", TABLE.as_bytes())?;
    let line =
        "{\"bound\":10,\"choice\":[1],\"distortion\":10,\"nodes\":1,\"search\":\"optimal\"}\n";
    let _ = ends_so(alloc, &["plan", "t", "c"], &mut shelf, 0, line)?;
    Ok(shelf)
}

#[test]
fn a_table_and_its_plan(rt: HostRuntime) -> Result<(), Fail> {
    let mut shelf = planned(rt.alloc())?;
    let line = "{\"bound\":10,\"verdict\":\"yes\"}\n";
    assert!(rt; ends_so(rt.alloc(), &CHECK, &mut shelf, 0, line)?);
    assert!(rt; shelf.file("t") == Some(TABLE.as_bytes()));
    Ok(())
}

/// Whether the certificate is refused so where this byte of it is another one.
fn is_refused_so(alloc: Global, place: usize, byte: u8, line: &str) -> Result<bool, Fail> {
    let mut shelf = planned(alloc)?;
    let mut bytes = Vec::new(alloc);
    for &old in shelf.file("c").unwrap_or(&[]) {
        bytes.push(old)?;
    }
    match bytes.get_mut(place) {
        Some(old) => *old = byte,
        None => return Ok(false),
    }
    shelf.put_file("c", bytes.as_slice())?;
    Ok(ends_so(alloc, &CHECK, &mut shelf, 8, line)?)
}

/// The mark; the last byte of the bound, at 12, and of the distortion, at 20; the version that is sent, at 25.
#[test]
fn a_certificate_with_another_byte(rt: HostRuntime) -> Result<(), Fail> {
    for &(place, byte, line) in &[
        (
            0usize,
            0u8,
            "{\"byte\":0,\"reason\":\"certificate\",\"status\":8}\n",
        ),
        (
            20,
            11,
            "{\"node\":0,\"reason\":\"certificate\",\"status\":8,\"why\":\"WrongDistortion\"}\n",
        ),
        (
            25,
            0,
            "{\"node\":0,\"reason\":\"certificate\",\"status\":8,\"why\":\"ChoiceMissed\"}\n",
        ),
        (
            25,
            2,
            "{\"node\":0,\"reason\":\"certificate\",\"status\":8,\"why\":\"ChoiceVersion\"}\n",
        ),
    ] {
        assert!(rt; is_refused_so(rt.alloc(), place, byte, line)?, "{place}");
    }
    Ok(())
}

#[test]
fn a_certificate_of_another_table(rt: HostRuntime) -> Result<(), Fail> {
    let mut shelf = planned(rt.alloc())?;
    shelf.put_file("t", OTHER.as_bytes())?;
    let line = "{\"node\":0,\"reason\":\"certificate\",\"status\":8,\"why\":\"ChoiceLength\"}\n";
    assert!(rt; ends_so(rt.alloc(), &CHECK, &mut shelf, 8, line)?);
    Ok(())
}

/// The table's refusal comes before what is wrong with the certificate.
#[test]
fn a_refused_table(rt: HostRuntime) -> Result<(), Fail> {
    let mut shelf = CalmShelf::new(rt.alloc());
    shelf.put_file("t", REFUSED.as_bytes())?;
    let line = "{\"line\":2,\"reason\":\"table syntax\",\"status\":3}\n";
    assert!(rt; ends_so(rt.alloc(), &CHECK, &mut shelf, 3, line)?);
    shelf.put_file("c", b"none")?;
    assert!(rt; ends_so(rt.alloc(), &CHECK, &mut shelf, 3, line)?);
    Ok(())
}

/// TABLE is asked for before CERT.
#[test]
fn a_missing_file(rt: HostRuntime) -> Result<(), Fail> {
    let mut shelf = CalmShelf::new(rt.alloc());
    let line = "{\"name\":\"t\",\"reason\":\"missing\",\"status\":9}\n";
    assert!(rt; ends_so(rt.alloc(), &CHECK, &mut shelf, 9, line)?);
    shelf.put_file("t", TABLE.as_bytes())?;
    let line = "{\"name\":\"c\",\"reason\":\"missing\",\"status\":9}\n";
    assert!(rt; ends_so(rt.alloc(), &CHECK, &mut shelf, 9, line)?);
    Ok(())
}
