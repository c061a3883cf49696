//! Each call of the shelf and of the sink fails in turn, for each command.
use crate::calls::{ends_so, ends_unreported, words_of};
use program_maker::make_program;
use remux_core::run;
use shelf_kinds::{MemShelf, MemSink};
use std::alloc::Global;
use std::test::Fail;

/// How a command ends where a call of the shelf fails whose number is at most `last`, and greater than that of the ending before.
#[derive(Clone, Copy)]
struct Ending<'a> {
    last: u64,
    code: u8,
    line: &'a str,
    /// Bytes of the file that it writes, which held four before; not asked where there are none.
    left: Option<usize>,
}

const JOB: &str = "slot = 4000\n[[program]]\nfile = \"a.ts\"\nprogram = 1\nnumber = 1\n";

const TABLE: &str =
    "remux table 1\nslot 1080\nnodes 4\nevaluations 0\nprogram 112\nunit 36936 1840:0\n";

const UNREAD_JOB: &str = "{\"name\":\"j\",\"reason\":\"read\",\"status\":6}\n";

const UNREAD_LIST: &str = "{\"name\":\"l\",\"reason\":\"read\",\"status\":6}\n";

const UNREAD_PROGRAM: &str = "{\"name\":\"a.ts\",\"reason\":\"read\",\"status\":6}\n";

const UNREAD_TABLE: &str = "{\"name\":\"t\",\"reason\":\"read\",\"status\":6}\n";

const UNREAD_CERTIFICATE: &str = "{\"name\":\"c\",\"reason\":\"read\",\"status\":6}\n";

const UNWRITTEN: &str = "{\"name\":\"o\",\"reason\":\"write\",\"status\":7}\n";

const UNWRITTEN_CERTIFICATE: &str = "{\"name\":\"c\",\"reason\":\"write\",\"status\":7}\n";

/// An ending whose file is as it was, or isn't asked for.
fn ended<'a>(last: u64, code: u8, line: &'a str, left: Option<usize>) -> Ending<'a> {
    Ending {
        last,
        code,
        line,
        left,
    }
}

/// A shelf that holds a job, a program, a table and what OUT held before, and fails in the call of this number.
fn shelf_of(alloc: Global, failing: u64) -> Result<MemShelf, Fail> {
    let mut shelf = MemShelf::new(alloc, vec![in alloc; failing]?);
    shelf.put_file("j", JOB.as_bytes())?;
    shelf.put_file("t", TABLE.as_bytes())?;
    shelf.put_file("l", b"4000\n")?;
    let program = make_program(alloc, 1, 12)?;
    shelf.put_file("a.ts", program.as_slice())?;
    shelf.put_file("o", b"kept")?;
    Ok(shelf)
}

/// Whether a command ends so over this shelf.
fn ends_as(
    alloc: Global,
    words: &[&str],
    shelf: &mut MemShelf,
    wanted: &Ending<'_>,
) -> Result<bool, Fail> {
    let so = ends_so(alloc, words, shelf, wanted.code, wanted.line)?;
    let left = shelf.file("o").map(|bytes| bytes.len());
    Ok(so && (wanted.left.is_none() || left == wanted.left))
}

/// The ending of the call of this number; the last one where no call fails.
fn ending_of<'a, 'b>(endings: &'b [Ending<'a>], call: u64, done: &'b Ending<'a>) -> &'b Ending<'a> {
    for row in endings {
        if call <= row.last {
            return row;
        }
    }
    done
}

/// The first call that ends a command otherwise than wanted, among those up to the one behind `last`, which isn't made.
fn first_wrong(
    alloc: Global,
    words: &[&str],
    last: u64,
    endings: &[Ending<'_>],
    done: &Ending<'_>,
) -> Result<Option<u64>, Fail> {
    for call in 1..=last {
        let mut shelf = shelf_of(alloc, call)?;
        if !ends_as(alloc, words, &mut shelf, ending_of(endings, call, done))? {
            return Ok(Some(call));
        }
    }
    Ok(None)
}

/// Two reads of the table, the start and one append of the certificate.
#[test]
fn calls_of_plan(rt: HostRuntime) -> Result<(), Fail> {
    let line = "{\"bound\":0,\"choice\":[0],\"distortion\":0,\"nodes\":1,\"search\":\"optimal\"}\n";
    let wrong = first_wrong(
        rt.alloc(),
        &["plan", "t", "o"],
        5,
        &[
            ended(2, 6, UNREAD_TABLE, Some(4)),
            ended(3, 7, UNWRITTEN, Some(4)),
            ended(4, 7, UNWRITTEN, Some(0)),
        ],
        &ended(0, 0, line, None),
    )?;
    assert_eq!(rt; wrong, None);
    Ok(())
}

/// The start and one append of the program.
#[test]
fn calls_of_gen(rt: HostRuntime) -> Result<(), Fail> {
    let wrong = first_wrong(
        rt.alloc(),
        &["gen", "1", "12", "o"],
        3,
        &[
            ended(1, 7, UNWRITTEN, Some(4)),
            ended(2, 7, UNWRITTEN, Some(0)),
        ],
        &ended(0, 0, "{\"bytes\":112612,\"pictures\":12}\n", Some(112_612)),
    )?;
    assert_eq!(rt; wrong, None);
    Ok(())
}

/// Eight reads of the program, the start and one append of the table. Before all one byte is asked for behind the most that a file may have. Of the
/// 112,612 bytes 65,536 are asked for at once: the map's pass ends with those, that of the video and that of the audio stream read three times, at last none.
#[test]
fn calls_of_probe(rt: HostRuntime) -> Result<(), Fail> {
    let wrong = first_wrong(
        rt.alloc(),
        &["probe", "a.ts", "1", "o"],
        11,
        &[
            ended(8, 6, UNREAD_PROGRAM, Some(4)),
            ended(9, 7, UNWRITTEN, Some(4)),
            ended(10, 7, UNWRITTEN, Some(0)),
        ],
        &ended(0, 0, "{\"audio_packets\":[80],\"units\":12}\n", None),
    )?;
    assert_eq!(rt; wrong, None);
    Ok(())
}

/// Bytes of the stream that are written before the append of this number, of which call 7 is the first: 64 packets each.
fn bytes_before(call: u64) -> usize {
    call.saturating_sub(7).saturating_mul(12_032) as usize
}

/// The first of these calls that ends `run` otherwise than wanted: two reads of the job, three of the program, the start of the stream,
/// and 89 appends of its 5,670 packets, 64 each and at last 38.
fn first_wrong_of_run(alloc: Global, first: u64, last: u64) -> Result<Option<u64>, Fail> {
    for call in first..=last {
        let wanted = match call {
            0..=2 => ended(2, 6, UNREAD_JOB, Some(4)),
            3..=5 => ended(5, 6, UNREAD_PROGRAM, Some(4)),
            6 => ended(6, 7, UNWRITTEN, Some(4)),
            _ => ended(95, 7, UNWRITTEN, Some(bytes_before(call))),
        };
        let mut shelf = shelf_of(alloc, call)?;
        let so = ends_as(alloc, &["run", "j", "o", "c"], &mut shelf, &wanted)?;
        if !so || shelf.file("c").is_some() {
            return Ok(Some(call));
        }
    }
    Ok(None)
}

#[test]
fn reads_of_run(rt: HostRuntime) -> Result<(), Fail> {
    assert_eq!(rt; first_wrong_of_run(rt.alloc(), 1, 6)?, None);
    Ok(())
}

#[test]
fn first_appends_of_run(rt: HostRuntime) -> Result<(), Fail> {
    assert_eq!(rt; first_wrong_of_run(rt.alloc(), 7, 18)?, None);
    Ok(())
}

#[test]
fn further_appends_of_run(rt: HostRuntime) -> Result<(), Fail> {
    assert_eq!(rt; first_wrong_of_run(rt.alloc(), 19, 32)?, None);
    Ok(())
}

#[test]
fn appends_of_run_behind_them(rt: HostRuntime) -> Result<(), Fail> {
    assert_eq!(rt; first_wrong_of_run(rt.alloc(), 33, 46)?, None);
    Ok(())
}

#[test]
fn last_of_sixty_calls_of_run(rt: HostRuntime) -> Result<(), Fail> {
    assert_eq!(rt; first_wrong_of_run(rt.alloc(), 47, 60)?, None);
    Ok(())
}

#[test]
fn last_appends_of_run(rt: HostRuntime) -> Result<(), Fail> {
    assert_eq!(rt; first_wrong_of_run(rt.alloc(), 93, 95)?, None);
    Ok(())
}

/// Whether `run` over a shelf whose call of this number fails ends with this exit status and a line that begins so, its stream
/// whole, and leaves a certificate so: none, an empty one, or one with bytes.
fn ends_behind_the_stream(
    alloc: Global,
    call: u64,
    code: u8,
    line: &str,
    certificate: Option<bool>,
) -> Result<bool, Fail> {
    let words = words_of(alloc, &["run", "j", "o", "c"])?;
    let mut shelf = shelf_of(alloc, call)?;
    let mut out = MemSink::new(alloc, Vec::new(alloc));
    let status = run(alloc, words.as_slice(), &mut shelf, &mut out);
    let stream = shelf.file("o").map(|bytes| bytes.len());
    let left = shelf.file("c").map(|bytes| bytes.is_empty());
    Ok(
        status.code() == code
            && out.bytes().starts_with(line.as_bytes())
            && stream == Some(1_065_960)
            && left == certificate,
    )
}

/// Behind the last append: the start and one append of the certificate, and no other call.
#[test]
fn calls_behind_the_stream_of_run(rt: HostRuntime) -> Result<(), Fail> {
    for (call, code, line, certificate) in [
        (96, 7, UNWRITTEN_CERTIFICATE, None),
        (97, 7, UNWRITTEN_CERTIFICATE, Some(true)),
        (98, 0, "{\"bound\":0,", Some(false)),
    ] {
        let so = ends_behind_the_stream(rt.alloc(), call, code, line, certificate)?;
        assert!(rt; so, "{call}");
    }
    Ok(())
}

/// Whether `check` of a certificate ends so where the call of this number fails, and leaves the certificate.
fn checks_so(
    alloc: Global,
    certificate: &[u8],
    call: u64,
    code: u8,
    line: &str,
) -> Result<bool, Fail> {
    let mut shelf = shelf_of(alloc, call)?;
    shelf.put_file("c", certificate)?;
    let wanted = ended(call, code, line, Some(4));
    let so = ends_as(alloc, &["check", "j", "c"], &mut shelf, &wanted)?;
    Ok(so && shelf.file("c") == Some(certificate))
}

/// The exit status of a run of the job where no call fails, and its shelf, which holds the certificate then.
fn run_job(alloc: Global) -> Result<(u8, MemShelf), Fail> {
    let words = words_of(alloc, &["run", "j", "s", "c"])?;
    let mut shelf = shelf_of(alloc, 0)?;
    let mut out = MemSink::new(alloc, Vec::new(alloc));
    let status = run(alloc, words.as_slice(), &mut shelf, &mut out);
    Ok((status.code(), shelf))
}

/// Two reads of the job, eight of the program as for `probe`, two of the certificate.
#[test]
fn calls_of_check(rt: HostRuntime) -> Result<(), Fail> {
    let (code, shelf) = run_job(rt.alloc())?;
    assert_eq!(rt; code, 0);
    let certificate = shelf.file("c").unwrap_or(&[]);
    for call in 1..=13u64 {
        let (code, line) = match call {
            0..=2 => (6, UNREAD_JOB),
            3..=10 => (6, UNREAD_PROGRAM),
            11..=12 => (6, UNREAD_CERTIFICATE),
            _ => (0, "{\"bound\":0,\"verdict\":\"yes\"}\n"),
        };
        let so = checks_so(rt.alloc(), certificate, call, code, line)?;
        assert!(rt; so, "{call}");
    }
    Ok(())
}

/// Two reads of the job, two of the list, and eight of the program as for `probe`.
#[test]
fn calls_of_fit(rt: HostRuntime) -> Result<(), Fail> {
    let wrong = first_wrong(
        rt.alloc(),
        &["fit", "j", "l"],
        13,
        &[
            ended(2, 6, UNREAD_JOB, None),
            ended(4, 6, UNREAD_LIST, None),
            ended(12, 6, UNREAD_PROGRAM, None),
        ],
        &ended(
            0,
            0,
            "{\"fit\":4000,\"slots\":[{\"slot\":4000,\"verdict\":\"scheduled\"}]}\n",
            Some(4),
        ),
    )?;
    assert_eq!(rt; wrong, None);
    Ok(())
}

/// The first call of the sink, which takes the whole line: files are written by then.
#[test]
fn a_report_that_fails_is_a_write_fault(rt: HostRuntime) -> Result<(), Fail> {
    for (words, written) in [
        (["plan", "t", "o"].as_slice(), true),
        (["gen", "1", "12", "o"].as_slice(), true),
        (["probe", "a.ts", "1", "o"].as_slice(), true),
        (["run", "j", "o", "c"].as_slice(), true),
        (["check", "j", "o"].as_slice(), false),
        (["check-plan", "t", "o"].as_slice(), false),
        (["impossible", "t"].as_slice(), false),
        (["fit", "j", "l"].as_slice(), false),
        (["audit", "a.ts", "1", "4000"].as_slice(), false),
        (["none"].as_slice(), false),
    ] {
        let mut shelf = shelf_of(rt.alloc(), 0)?;
        let so = ends_unreported(rt.alloc(), words, &mut shelf)?;
        let kept = shelf.file("o") == Some(b"kept".as_slice());
        assert!(rt; so && kept != written);
    }
    Ok(())
}
