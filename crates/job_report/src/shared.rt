//! Files of programs that a command names itself.

ghost use Rattle.std.specs.Prelude.{◌≡◌, ◌≤◌, length, map, option_map};
ghost use Rattle.job_report.specs.Refusal.{OfField, first_refusal};
ghost use Rattle.job_report.specs.SharedFile.{refusals_of_files};

use crate::job::Job;
use crate::limits::NAME_MOST;
use crate::names::is_among;
use crate::place::{Place, full_name};
use arrayvec::ArrayString;
use version_table::limits::PROGRAMS_MOST;

/// The `file` field of the first program whose file is one of these names, as `JobField` names it.
///
/// A command asks this of a job that was read, with the words that name its own files. So a text is refused for a file
/// only where nothing else is wrong with it.
pub fn shared_file(job: &Job, names: &[&str]) -> Option<ArrayString<NAME_MOST>>
    requires { length job.now.programs ≤ PROGRAMS_MOST }
    ensures { option_map (λ name. OfField name.bytes) result ≡ first_refusal (refusals_of_files (map (λ name. name.now) names.now) 0 job.now.programs) }
{
    let mut number = 0;
    for program in job.programs.as_slice() {
        if is_among(program.file.as_str(), names) {
            return Some(full_name(Place::Program(number), "file"));
        }
        number += 1;
    }
    None
}
