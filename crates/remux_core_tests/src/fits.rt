//! In which slots the generated program of twelve pictures fits, and lists that are none.
use crate::calls::ends_so;
use program_maker::make_program;
use shelf_kinds::CalmShelf;
use std::alloc::Global;
use std::test::Fail;

const JOB: &str = "slot = 1080\n[[program]]\nfile = \"a.ts\"\nprogram = 1\nnumber = 1\n";

/// Whether `fit` of the job and this list ends so, and leaves the list.
fn fits_so(alloc: Global, list: &str, code: u8, line: &str) -> Result<bool, Fail> {
    let mut shelf = CalmShelf::new(alloc);
    shelf.put_file("j", JOB.as_bytes())?;
    shelf.put_file("l", list.as_bytes())?;
    let program = make_program(alloc, 1, 12)?;
    shelf.put_file("a.ts", program.as_slice())?;
    let so = ends_so(alloc, &["fit", "j", "l"], &mut shelf, code, line)?;
    Ok(so && shelf.file("l") == Some(list.as_bytes()))
}

/// Whether a list is refused at this line.
fn is_refused_at(alloc: Global, list: &str, line: u64) -> Result<bool, Fail> {
    let refused = format!(in alloc; "{{\"line\":{line},\"reason\":\"list\",\"status\":3}}\n")?;
    fits_so(alloc, list, 3, refused.as_str())
}

/// The list of the slots from 2,000 on, up to the one before `end`: five bytes each.
fn list_to(alloc: Global, end: u32) -> Result<String, Fail> {
    let mut list = String::new(alloc);
    for slot in 2_000..end {
        list.push_str(format!(in alloc; "{slot}\n")?.as_str())?;
    }
    Ok(list)
}

/// The list decides, and not the job's own slot.
#[test]
fn a_slot_in_which_it_fits(rt: HostRuntime) -> Result<(), Fail> {
    let line = "{\"fit\":4000,\"slots\":[{\"slot\":4000,\"verdict\":\"scheduled\"}]}\n";
    assert!(rt; fits_so(rt.alloc(), "4000\n", 0, line)?);
    Ok(())
}

/// The first line that no list has there.
#[test]
fn lists_that_are_none(rt: HostRuntime) -> Result<(), Fail> {
    for (list, line) in [
        // no line, one without its end, none before its end
        ("", 1),
        ("4000", 1),
        ("\n", 1),
        ("3999\n4000", 2),
        ("4000\n\n", 2),
        // not rising
        ("4000\n4000\n", 2),
        ("4000\n3999\n5000\n", 2),
        // too short and too long, and none of the numbers that are written so
        ("1015\n", 1),
        ("1016\n40001\n", 2),
        ("04000\n", 1),
        ("+4000\n", 1),
        ("4000 \n", 1),
        ("4000\r\n", 1),
    ] {
        assert!(rt; is_refused_at(rt.alloc(), list, line)?, "{list}");
    }
    Ok(())
}

/// A list has 64 lines at most, and 1,024 bytes.
#[test]
fn lists_that_are_too_long(rt: HostRuntime) -> Result<(), Fail> {
    for (end, line) in [(2_065, 65), (2_204, 65), (2_205, 0)] {
        let list = list_to(rt.alloc(), end)?;
        assert!(rt; is_refused_at(rt.alloc(), list.as_str(), line)?, "{end}");
    }
    Ok(())
}
