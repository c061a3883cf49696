use std::fs;
use std::rt::Files;

/// Whether two of the file names of a command are those of one existing file. `gen` names one file alone, `probe` two, and
/// between them the number of a program.
pub fn share_one_file<R: Files + AllocGlobal>(rt: &R, words: &[String]) -> bool {
    match words {
        [verb, file, _, table] if verb.as_str() == "probe" => {
            name_one_file(rt, file.as_str(), table.as_str())
        }
        [verb, ..] if verb.as_str() == "gen" => false,
        [_, first, second] => name_one_file(rt, first.as_str(), second.as_str()),
        [_, first, second, third] => {
            name_one_file(rt, first.as_str(), second.as_str())
                || name_one_file(rt, first.as_str(), third.as_str())
                || name_one_file(rt, second.as_str(), third.as_str())
        }
        _ => false,
    }
}

/// Whether two names are those of one existing file, as far as the machine tells: by `./`, doubled slashes and links.
fn name_one_file<R: Files + AllocGlobal>(rt: &R, first: &str, second: &str) -> bool {
    match (fs::canonicalize(rt, first), fs::canonicalize(rt, second)) {
        (Ok(first), Ok(second)) => first == second,
        _ => false,
    }
}
