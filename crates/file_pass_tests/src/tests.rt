use file_pass::FilePass;
use shelf_io::{Fault, Shelf, Source};
use shelf_kinds::MemShelf;
use std::test::Fail;

#[test]
fn a_file_is_given_up_to_its_limit(rt: HostRuntime) -> Result<(), Fail> {
    let alloc = rt.alloc();
    let mut shelf = MemShelf::new(alloc, Vec::new(alloc));
    shelf.put_file("a", b"abcde")?;
    let mut buf = [b'.'; 2];
    let mut pass = FilePass::new(&mut shelf, "a", 3);
    let taken = [
        pass.take(&mut buf),
        pass.take(&mut buf),
        pass.take(&mut buf),
    ];
    assert_eq!(rt; (taken, buf), ([Ok(2), Ok(1), Ok(0)], *b"cb"));
    assert_eq!(rt; (pass.place(), pass.stop()), (3, None));
    Ok(())
}

#[test]
fn a_read_that_failed_is_the_last_and_is_remembered(rt: HostRuntime) -> Result<(), Fail> {
    let alloc = rt.alloc();
    let mut shelf = MemShelf::new(alloc, vec![in alloc; 2]?);
    shelf.put_file("a", b"abcde")?;
    let mut buf = [0u8; 2];
    let mut pass = FilePass::new(&mut shelf, "a", 5);
    let taken = [
        pass.take(&mut buf),
        pass.take(&mut buf),
        pass.take(&mut buf),
    ];
    assert_eq!(rt; taken, [Ok(2), Err(Fault::Failed), Err(Fault::OutOfMemory)]);
    assert_eq!(rt; (pass.place(), pass.stop()), (2, Some(Fault::Failed)));
    let later = shelf.read("a", 0, &mut buf);
    assert_eq!(rt; later, Ok(2));
    Ok(())
}

#[test]
fn a_file_that_is_not_there(rt: HostRuntime) -> Result<(), Fail> {
    let alloc = rt.alloc();
    let mut shelf = MemShelf::new(alloc, Vec::new(alloc));
    let mut buf = [0u8; 2];
    let mut pass = FilePass::new(&mut shelf, "a", 5);
    let taken = pass.take(&mut buf);
    assert_eq!(rt;
        (taken, pass.stop()),
        (Err(Fault::Missing), Some(Fault::Missing))
    );
    Ok(())
}
