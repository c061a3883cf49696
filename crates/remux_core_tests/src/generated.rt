use crate::calls::{ends_unreported, words_of};
use psi_tables::crc32;
use remux_core::run;
use shelf_kinds::{CalmShelf, MemShelf, MemSink};
use std::alloc::Global;
use std::test::Fail;

/// Whether `gen` ends with this exit status, line and bytes of its file where the call of the shelf of this number fails.
fn fails_so(
    alloc: Global,
    call: u64,
    code: u8,
    line: &str,
    left: Option<usize>,
) -> Result<bool, Fail> {
    let words = words_of(alloc, &["gen", "1", "12", "a.ts"])?;
    let mut shelf = MemShelf::new(alloc, vec![in alloc; call]?);
    let mut out = MemSink::new(alloc, Vec::new(alloc));
    let status = run(alloc, words.as_slice(), &mut shelf, &mut out);
    let program = shelf.file("a.ts");
    Ok(
        status.code() == code
            && out.bytes() == line.as_bytes()
            && program.map(|bytes| bytes.len()) == left
            && (code != 0 || crc32(program.unwrap_or(&[])) == 0x7b63_6a63),
    )
}

/// Calls of the shelf: the start and one append of the program, whose length and CRC are those of another program.
#[test]
fn gen_writes_its_program_or_a_front_of_it(rt: HostRuntime) -> Result<(), Fail> {
    let failed = "{\"name\":\"a.ts\",\"reason\":\"write\",\"status\":7}\n";
    let made = "{\"bytes\":112612,\"pictures\":12}\n";
    for (call, code, line, left) in [
        (1, 7, failed, None),
        (2, 7, failed, Some(0)),
        (3, 0, made, Some(112_612)),
    ] {
        assert!(rt; fails_so(rt.alloc(), call, code, line, left)?, "{call}");
    }
    Ok(())
}

#[test]
fn a_report_of_gen_that_fails_is_a_write_fault(rt: HostRuntime) -> Result<(), Fail> {
    let mut shelf = CalmShelf::new(rt.alloc());
    let so = ends_unreported(rt.alloc(), &["gen", "0", "1", "a.ts"], &mut shelf)?;
    assert!(rt; so);
    assert_eq!(rt; crc32(shelf.file("a.ts").unwrap_or(&[])), 0x7e8f_d67d);
    Ok(())
}
