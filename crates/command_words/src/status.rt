ghost use Rattle.std.specs.Prelude.{◌≡◌};
ghost use Rattle.command_words.specs.Status.{code_of};

use arrayvec::ArrayString;
use certificate_checker::CertFault;
use job_programs::SourceFault;
use slot_rule::Miss;
use stream_audit::Finding;

/// Why the text of a table, a job or a list of slots is refused.
#[derive(Clone, Copy)]
pub enum JobRefusal {
    /// The first line, from 1, that no table text has there.
    TableSyntax(u64),
    /// The name of the first number of a table text that breaks a limit.
    TableLimit(ArrayString<32>),
    /// The job text is no TOML document.
    JobSyntax,
    /// The name of the first field of a job text that is missing, of another type, unknown, or names a file of the command's own.
    JobField(ArrayString<32>),
    /// The name of the first field of a job text that breaks a limit.
    JobLimit(ArrayString<32>),
    /// The first line, from 1, that no list of slots has there; 0 where its text is too long.
    ListSyntax(u64),
}

/// Why a certificate is refused.
#[derive(Clone, Copy)]
pub enum CertRefusal {
    /// The first byte, from 0, that no certificate has there.
    Syntax(u64),
    /// Its first fault.
    Fault(CertFault),
}

/// How a command ended.
#[derive(Clone, Copy)]
pub enum Status {
    /// The work was done.
    Ok,
    /// The words are no command.
    Usage,
    /// The text of the table, the job or the list is refused.
    JobRefused(JobRefusal),
    /// A program is refused, and none before it.
    SourceRefused(SourceFault),
    /// The smallest choice has this first miss.
    Unschedulable(Miss),
    /// A file could not be read.
    ReadFault,
    /// A file or the report could not be written.
    WriteFault,
    /// The certificate is refused.
    CertRefused(CertRefusal),
    /// A file that the command reads is not there.
    Missing,
    /// Memory was wanted and not there.
    OutOfMemory,
    /// A stream breaks the decoder's model, and this is where it does first.
    AuditFault(Finding),
    /// The job fits in none of the slots of the list.
    NoFit,
}

impl Status {
    /// The exit status of the program.
    pub fn code(&self) -> u8
        ensures { result ≡ code_of self.now }
    {
        match self {
            Status::Ok => 0,
            Status::Usage => 2,
            Status::JobRefused(_) => 3,
            Status::SourceRefused(_) => 4,
            Status::Unschedulable(_) => 5,
            Status::ReadFault => 6,
            Status::WriteFault => 7,
            Status::CertRefused(_) => 8,
            Status::Missing => 9,
            Status::OutOfMemory => 10,
            Status::AuditFault(_) => 11,
            Status::NoFit => 12,
        }
    }
}
