//! What is reported of a generated program, as `job_report` prints it.

ghost use Rattle.std.specs.Prelude.{◌≡◌};
ghost use Rattle.gen_command.specs.Report as spec;

use job_report::Report;

/// A generated program.
pub fn gen_report(program: &[u8], pictures: u32) -> Report
    ensures { result ≡ spec.gen_report program.now pictures }
{
    Report::Gen {
        bytes: program.len() as u64,
        pictures,
    }
}
