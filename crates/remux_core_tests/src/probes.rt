use crate::calls::ends_so;
use program_maker::make_program;
use shelf_kinds::CalmShelf;
use std::alloc::Global;
use std::test::Fail;

/// Bytes of the generated program's file that are there, its program that is probed, the exit status, and the line that is printed.
const PROBES: [(usize, &str, u8, &str); 9] = [
    (112_612, "1", 0, "{\"audio_packets\":[80],\"units\":12}\n"),
    (
        112_612,
        "2",
        4,
        "{\"at\":0,\"kind\":\"NoProgram\",\"program\":0,\"reason\":\"source\",\"status\":4}\n",
    ),
    (
        112_612,
        "65535",
        4,
        "{\"at\":0,\"kind\":\"NoProgram\",\"program\":0,\"reason\":\"source\",\"status\":4}\n",
    ),
    (
        0,
        "1",
        4,
        "{\"at\":0,\"kind\":\"ShortFile\",\"program\":0,\"reason\":\"source\",\"status\":4}\n",
    ),
    (
        187,
        "1",
        4,
        "{\"at\":0,\"kind\":\"ShortFile\",\"program\":0,\"reason\":\"source\",\"status\":4}\n",
    ),
    (
        188,
        "1",
        4,
        "{\"at\":0,\"kind\":\"NoPmt\",\"program\":0,\"reason\":\"source\",\"status\":4}\n",
    ),
    (
        376,
        "1",
        4,
        "{\"at\":0,\"kind\":\"NoSequence\",\"program\":0,\"reason\":\"source\",\"status\":4}\n",
    ),
    (
        564,
        "1",
        4,
        "{\"at\":0,\"kind\":\"NoSequence\",\"program\":0,\"reason\":\"source\",\"status\":4}\n",
    ),
    (
        752,
        "1",
        4,
        "{\"at\":0,\"kind\":\"NoSequence\",\"program\":0,\"reason\":\"source\",\"status\":4}\n",
    ),
];

/// The first lines of the table of the generated program, whose video has a buffer of 112 units.
const TABLE_FRONT: &str =
    "remux table 1\nslot 4000\nnodes 1000\nevaluations 1000\nprogram 112\nunit ";

/// Whether the front of this length of the generated program is probed with this exit status and line, and has a table exactly
/// where the status is 0.
fn is_probed_so(
    alloc: Global,
    front: &[u8],
    number: &str,
    code: u8,
    line: &str,
) -> Result<bool, Fail> {
    let mut shelf = CalmShelf::new(alloc);
    shelf.put_file("a.ts", front)?;
    let so = ends_so(
        alloc,
        &["probe", "a.ts", number, "t"],
        &mut shelf,
        code,
        line,
    )?;
    Ok(so && shelf.file("t").is_some() == (code == 0))
}

#[test]
fn each_probed_file_has_its_status_and_line(rt: HostRuntime) -> Result<(), Fail> {
    let program = make_program(rt.alloc(), 1, 12)?;
    for &(length, number, code, line) in &PROBES {
        let front = program.as_slice().get(..length).unwrap_or(&[]);
        let so = is_probed_so(rt.alloc(), front, number, code, line)?;
        assert!(rt; so, "{length} {number}");
    }
    Ok(())
}

/// 12 units in six versions, and 80 audio packets, in as many lines; each picture goes out as it is.
#[test]
fn a_probed_table_is_planned(rt: HostRuntime) -> Result<(), Fail> {
    let program = make_program(rt.alloc(), 1, 12)?;
    let mut shelf = CalmShelf::new(rt.alloc());
    shelf.put_file("a.ts", program.as_slice())?;
    let is_probed = ends_so(
        rt.alloc(),
        &["probe", "a.ts", "1", "t"],
        &mut shelf,
        0,
        "{\"audio_packets\":[80],\"units\":12}\n",
    )?;
    let table = shelf.file("t").unwrap_or(&[]);
    let begins = table.starts_with(TABLE_FRONT.as_bytes());
    let counts = (count_of(table, b'\n'), count_of(table, b':'));
    let is_planned = ends_so(
        rt.alloc(),
        &["plan", "t", "c"],
        &mut shelf,
        0,
        "{\"bound\":0,\"choice\":[0,0,0,0,0,0,0,0,0,0,0,0],\"distortion\":0,\"nodes\":1,\"search\":\"optimal\"}\n",
    )?;
    assert!(rt; is_probed && begins && is_planned && shelf.file("c").is_some());
    assert_eq!(rt; counts, (98, 72));
    Ok(())
}

/// How often a byte stands in a text.
fn count_of(text: &[u8], byte: u8) -> usize {
    text.iter().filter(|found| **found == byte).count()
}

#[test]
fn a_file_that_is_not_there_is_missing(rt: HostRuntime) -> Result<(), Fail> {
    let so = ends_so(
        rt.alloc(),
        &["probe", "a.ts", "1", "t"],
        &mut CalmShelf::new(rt.alloc()),
        9,
        "{\"name\":\"a.ts\",\"reason\":\"missing\",\"status\":9}\n",
    )?;
    assert!(rt; so);
    Ok(())
}
