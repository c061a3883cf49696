use crate::calls::ends_so;
use shelf_kinds::CalmShelf;
use std::alloc::Global;
use std::test::Fail;

/// A job text, the exit status of `run` where no other file is there, and the line that it prints.
const JOBS: [(&str, u8, &str); 5] = [
    (
        "",
        3,
        "{\"name\":\"slot\",\"reason\":\"job field\",\"status\":3}\n",
    ),
    (
        "slot = 4000\n",
        3,
        "{\"name\":\"program\",\"reason\":\"job field\",\"status\":3}\n",
    ),
    (
        "slot = 1015\n[[program]]\nfile = \"b.ts\"\nprogram = 1\nnumber = 1\n",
        3,
        "{\"name\":\"slot\",\"reason\":\"job limit\",\"status\":3}\n",
    ),
    ("slot", 3, "{\"reason\":\"job syntax\",\"status\":3}\n"),
    (
        "slot = 4000\n[[program]]\nfile = \"b.ts\"\nprogram = 1\nnumber = 1\n",
        9,
        "{\"name\":\"b.ts\",\"reason\":\"missing\",\"status\":9}\n",
    ),
];

/// Whether a command whose first file is a job ends so, and writes neither of the other files.
fn job_ends_so(
    alloc: Global,
    words: &[&str],
    text: &str,
    code: u8,
    line: &str,
) -> Result<bool, Fail> {
    let mut shelf = CalmShelf::new(alloc);
    shelf.put_file("j", text.as_bytes())?;
    let so = ends_so(alloc, words, &mut shelf, code, line)?;
    Ok(so && shelf.file("o").is_none() && shelf.file("c").is_none())
}

#[test]
fn each_job_without_a_table_has_its_status_and_line(rt: HostRuntime) -> Result<(), Fail> {
    for words in [["run", "j", "o", "c"].as_slice(), &["check", "j", "c"]] {
        for &(text, code, line) in &JOBS {
            let so = job_ends_so(rt.alloc(), words, text, code, line)?;
            assert!(rt; so, "{text}");
        }
    }
    Ok(())
}

#[test]
fn a_missing_job_is_missing(rt: HostRuntime) -> Result<(), Fail> {
    let so = ends_so(
        rt.alloc(),
        &["run", "j.toml", "o", "c"],
        &mut CalmShelf::new(rt.alloc()),
        9,
        "{\"name\":\"j.toml\",\"reason\":\"missing\",\"status\":9}\n",
    )?;
    assert!(rt; so);
    Ok(())
}
