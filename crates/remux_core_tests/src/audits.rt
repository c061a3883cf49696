//! The stream of a run over the generated program, audited: in the slots of its rate nothing is found, in others its second clock reference is off.
use crate::calls::{ends_so, words_of};
use program_maker::make_program;
use remux_core::run;
use shelf_io::VecSink;
use shelf_kinds::CalmShelf;
use std::alloc::Global;
use std::test::Fail;

const JOB: &str = "slot = 4000\n[[program]]\nfile = \"a.ts\"\nprogram = 1\nnumber = 1\n";

/// The program that is asked for, the slot, the exit status, and the line that is printed.
const AUDITS: [(&str, &str, u8, &str); 3] = [
    ("1", "4000", 0, "{\"audit\":\"clean\"}\n"),
    (
        "1",
        "1016",
        11,
        "{\"at\":51136,\"fault\":\"pcr\",\"pid\":257,\"reason\":\"audit\",\"status\":11}\n",
    ),
    (
        "2",
        "4000",
        4,
        "{\"at\":0,\"kind\":\"NoProgram\",\"program\":0,\"reason\":\"source\",\"status\":4}\n",
    ),
];

/// A shelf that holds the stream of the generated program in slots of 4,000 ticks.
fn shelf_of(alloc: Global) -> Result<CalmShelf, Fail> {
    let mut shelf = CalmShelf::new(alloc);
    shelf.put_file("j", JOB.as_bytes())?;
    let program = make_program(alloc, 1, 12)?;
    shelf.put_file("a.ts", program.as_slice())?;
    let words = words_of(alloc, &["run", "j", "o.ts", "c"])?;
    let mut out = VecSink::new(alloc);
    let _ = run(alloc, words.as_slice(), &mut shelf, &mut out);
    Ok(shelf)
}

#[test]
fn each_audit_has_its_status_and_line(rt: HostRuntime) -> Result<(), Fail> {
    let mut shelf = shelf_of(rt.alloc())?;
    for &(number, slot, code, line) in &AUDITS {
        let so = ends_so(
            rt.alloc(),
            &["audit", "o.ts", number, slot],
            &mut shelf,
            code,
            line,
        )?;
        assert!(rt; so, "{number} {slot}");
    }
    Ok(())
}

#[test]
fn a_stream_that_is_not_there_is_missing(rt: HostRuntime) -> Result<(), Fail> {
    let so = ends_so(
        rt.alloc(),
        &["audit", "o.ts", "1", "4000"],
        &mut CalmShelf::new(rt.alloc()),
        9,
        "{\"name\":\"o.ts\",\"reason\":\"missing\",\"status\":9}\n",
    )?;
    assert!(rt; so);
    Ok(())
}
