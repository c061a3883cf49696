use remux_core::run;
use shelf_io::{Shelf, VecSink};
use shelf_kinds::MemSink;
use std::alloc::{AllocError, Global};

/// The words of a command.
pub fn words_of(alloc: Global, words: &[&str]) -> Result<Vec<String>, AllocError> {
    let mut all = Vec::new(alloc);
    for word in words {
        all.push(String::from_str(alloc, word)?)?;
    }
    Ok(all)
}

/// Whether a command over a shelf ends with this exit status and prints this line alone.
pub fn ends_so<K: Shelf>(
    alloc: Global,
    words: &[&str],
    shelf: &mut K,
    code: u8,
    line: &str,
) -> Result<bool, AllocError> {
    let words = words_of(alloc, words)?;
    let mut out = VecSink::new(alloc);
    let status = run(alloc, words.as_slice(), shelf, &mut out);
    Ok(status.code() == code && out.bytes() == line.as_bytes())
}

/// Whether a command over a shelf, whose line can't be written, ends as a write fault and prints nothing.
pub fn ends_unreported<K: Shelf>(
    alloc: Global,
    words: &[&str],
    shelf: &mut K,
) -> Result<bool, AllocError> {
    let words = words_of(alloc, words)?;
    let mut out = MemSink::new(alloc, vec![in alloc; 1]?);
    let status = run(alloc, words.as_slice(), shelf, &mut out);
    Ok(status.code() == 7 && out.bytes().is_empty())
}
