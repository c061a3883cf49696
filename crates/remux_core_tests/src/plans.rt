use crate::calls::{ends_so, ends_unreported, words_of};
use remux_core::run;
use shelf_kinds::{CalmShelf, MemShelf, MemSink};
use std::alloc::Global;
use std::test::Fail;

/// A table whose unit is sent in version 1.
const SENT_COARSER: (&str, u8, &str) = (
    "remux table 1\nslot 4000\nnodes 1\nevaluations 0\nprogram 112\nunit 27200 552:0 368:10\n",
    0,
    "{\"bound\":10,\"choice\":[1],\"distortion\":10,\"nodes\":1,\"search\":\"optimal\"}\n",
);

/// A table text, the exit status of `plan`, and the line that it prints.
const EXAMPLES: [(&str, u8, &str); 11] = [
    (
        "remux table 1\nslot 1080\nnodes 4\nevaluations 0\nprogram 112\nunit 36936 1840:0\n",
        0,
        "{\"bound\":0,\"choice\":[0],\"distortion\":0,\"nodes\":1,\"search\":\"optimal\"}\n",
    ),
    (
        "remux table 1\nslot 1080\nnodes 4\nevaluations 0\nprogram 112\nunit 36935 1840:0\n",
        5,
        "{\"due\":36935,\"reason\":\"unschedulable\",\"slot\":22,\"status\":5,\"stream\":0,\"unit\":0}\n",
    ),
    (
        "remux table 1\nslot 1080\nnodes 4\nevaluations 0\nprogram 112\n",
        0,
        "{\"bound\":0,\"choice\":[],\"distortion\":0,\"nodes\":1,\"search\":\"optimal\"}\n",
    ),
    (
        "remux table 1\nslot 1080\nnodes 4\nevaluations 0\nprogram 112\nunit 36936 1840:9 1840:4\n",
        0,
        "{\"bound\":4,\"choice\":[1],\"distortion\":4,\"nodes\":1,\"search\":\"optimal\"}\n",
    ),
    (
        "remux table 1\nslot 1080\nnodes 1\nevaluations 0\nprogram 112\nunit 36936 2024:0 1840:9 920:40\n",
        0,
        "{\"bound\":0,\"choice\":[1],\"distortion\":9,\"nodes\":1,\"search\":\"budget\"}\n",
    ),
    (
        "remux table 1\nslot 1080\nnodes 4\nevaluations 0\nprogram 112\nunit 60000 184:0\nprogram 112\nunit 60000 184:0\n",
        0,
        "{\"bound\":0,\"choice\":[0,0],\"distortion\":0,\"nodes\":1,\"search\":\"optimal\"}\n",
    ),
    SENT_COARSER,
    (
        "remux table 1\nslot 40000\nnodes 1\nevaluations 0\nprogram 112\nunit 54000000 115000:0 92000:10\n",
        0,
        "{\"bound\":3,\"choice\":[1],\"distortion\":10,\"nodes\":1,\"search\":\"budget\"}\n",
    ),
    (
        "remux table 1\nslot 4000\nnodes 1\nevaluations 2\nprogram 112\nunit 27200 552:0 368:10\nunit 2000000 552:0 368:10\n",
        0,
        "{\"bound\":10,\"choice\":[1,0],\"distortion\":10,\"nodes\":1,\"search\":\"optimal\"}\n",
    ),
    (
        "remux table 1\nslot 1015\nnodes 1\nevaluations 0\n",
        3,
        "{\"name\":\"slot\",\"reason\":\"table limit\",\"status\":3}\n",
    ),
    (
        "remux table 1\nslot 01080\nnodes 1\nevaluations 0\n",
        3,
        "{\"line\":2,\"reason\":\"table syntax\",\"status\":3}\n",
    ),
];

/// The front of a certificate: its mark, version 3, bound 10, distortion 10, one unit in version 1, and one node of windows.
const CERTIFICATE_FRONT: [u8; 31] = [
    0x52, 0x4D, 0x58, 0x43, 3, 0, 0, 0, 0, 0, 0, 0, 10, 0, 0, 0, 0, 0, 0, 0, 10, 0, 0, 0, 1, 1, 0,
    0, 0, 1, 5,
];

/// The words of each plan here.
const PLAN: [&str; 3] = ["plan", "t", "c"];

/// A shelf that holds a table.
fn shelf_of(alloc: Global, text: &str) -> Result<CalmShelf, Fail> {
    let mut shelf = CalmShelf::new(alloc);
    shelf.put_file("t", text.as_bytes())?;
    Ok(shelf)
}

/// Whether a table is planned with this exit status and line, and has a certificate exactly where the status is 0.
fn is_planned_so(alloc: Global, text: &str, code: u8, line: &str) -> Result<bool, Fail> {
    let mut shelf = shelf_of(alloc, text)?;
    let so = ends_so(alloc, &PLAN, &mut shelf, code, line)?;
    Ok(so && shelf.file("c").is_some() == (code == 0))
}

#[test]
fn each_example_has_its_status_and_line(rt: HostRuntime) -> Result<(), Fail> {
    for &(text, code, line) in &EXAMPLES {
        assert!(rt; is_planned_so(rt.alloc(), text, code, line)?, "{text}");
    }
    Ok(())
}

#[test]
fn a_certificate_has_its_numbers(rt: HostRuntime) -> Result<(), Fail> {
    let (text, code, line) = SENT_COARSER;
    let mut shelf = shelf_of(rt.alloc(), text)?;
    let so = ends_so(rt.alloc(), &PLAN, &mut shelf, code, line)?;
    let certificate = shelf.file("c").unwrap_or(&[]);
    assert!(rt; so && certificate.starts_with(&CERTIFICATE_FRONT));
    Ok(())
}

/// Whether a plan ends with this exit status where the call of this number fails, and leaves a certificate so: none, an empty
/// one, or one with bytes.
fn fails_so(
    alloc: Global,
    text: &str,
    call: u64,
    code: u8,
    left: Option<bool>,
) -> Result<bool, Fail> {
    let mut shelf = MemShelf::new(alloc, vec![in alloc; call]?);
    shelf.put_file("t", text.as_bytes())?;
    let words = words_of(alloc, &PLAN)?;
    let mut out = MemSink::new(alloc, Vec::new(alloc));
    let status = run(alloc, words.as_slice(), &mut shelf, &mut out);
    let found = shelf.file("c").map(|bytes| bytes.is_empty());
    Ok(status.code() == code && found == left)
}

/// How a plan that ends with this exit status ends where the call of the shelf of this number fails: two reads of the table, then,
/// where there is a plan, the start and one append of the certificate.
fn ending_of(code: u8, call: u64) -> (u8, Option<bool>) {
    match (call, code) {
        (1..=2, _) => (6, None),
        (3, 0) => (7, None),
        (4, 0) => (7, Some(true)),
        (_, 0) => (0, Some(false)),
        _ => (code, None),
    }
}

#[test]
fn each_failing_call_has_its_status(rt: HostRuntime) -> Result<(), Fail> {
    for &(text, code, _line) in &EXAMPLES {
        for call in 1..=5 {
            let (wanted, left) = ending_of(code, call);
            assert!(rt;
                fails_so(rt.alloc(), text, call, wanted, left)?,
                "{text} {call}"
            );
        }
    }
    Ok(())
}

#[test]
fn a_report_that_fails_is_a_write_fault(rt: HostRuntime) -> Result<(), Fail> {
    for &(text, _code, _line) in &EXAMPLES {
        let mut shelf = shelf_of(rt.alloc(), text)?;
        assert!(rt; ends_unreported(rt.alloc(), &PLAN, &mut shelf)?, "{text}");
    }
    Ok(())
}

#[test]
fn a_missing_table_is_missing(rt: HostRuntime) -> Result<(), Fail> {
    let so = ends_so(
        rt.alloc(),
        &["plan", "b.txt", "c"],
        &mut CalmShelf::new(rt.alloc()),
        9,
        "{\"name\":\"b.txt\",\"reason\":\"missing\",\"status\":9}\n",
    )?;
    assert!(rt; so);
    Ok(())
}
