ghost use Rattle.std.specs.Prelude.{◌≡◌, ◌↔◌, true, IsErrOf, OnOk, Ok, Some};
ghost use Rattle.shelf_io.specs.declared.fault.Fault.{Fault};
ghost use Rattle.ts_demux.specs.declared.demux_fault.DemuxFault.TheVariants.{OutOfMemory};
ghost use Rattle.file_pieces.specs.Private.Calls.{IsMisfit};

use shelf_io::Fault;
use thiserror::Error;
use ts_demux::{DemuxFault, PassFault};

/// Why bytes of a file aren't read again.
#[derive(Clone, Copy, Debug, PartialEq, Eq, Error)]
pub enum AgainFault {
    /// A read of the file failed.
    #[error("a read failed")]
    Failed,
    /// The file isn't there any more.
    #[error("no such file")]
    Missing,
    /// What the file holds now can't be what it held: never where files are told.
    #[error("the file has changed")]
    Changed,
    /// Memory was wanted and not there.
    #[error("out of memory")]
    OutOfMemory,
}

/// What comes of reading on: how the file's reads were stopped comes first.
pub fn answer_of(stop: Option<Fault>, read: Result<bool, PassFault>) -> Result<(), AgainFault>
    ensures ok { OnOk result (read ≡ Ok true) }
    ensures failed { IsErrOf result AgainFault.Failed ↔ (stop ≡ Some Fault.Failed) }
    ensures missing { IsErrOf result AgainFault.Missing ↔ (stop ≡ Some Fault.Missing) }
    ensures changed { IsErrOf result AgainFault.Changed → IsMisfit read }
{
    match stop {
        Some(fault) => Err(of_stop(fault)),
        None => of_read(read),
    }
}

/// What comes of reads that were stopped.
fn of_stop(fault: Fault) -> AgainFault
    ensures failed { (result ≡ AgainFault.Failed) ↔ (fault ≡ Fault.Failed) }
    ensures missing { (result ≡ AgainFault.Missing) ↔ (fault ≡ Fault.Missing) }
    ensures changed { ¬ (result ≡ AgainFault.Changed) }
{
    match fault {
        Fault::Failed => AgainFault::Failed,
        Fault::Missing => AgainFault::Missing,
        Fault::OutOfMemory => AgainFault::OutOfMemory,
    }
}

/// What comes of reading on, where no read was stopped.
fn of_read(read: Result<bool, PassFault>) -> Result<(), AgainFault>
    ensures ok { OnOk result (read ≡ Ok true) }
    ensures failed { ¬ IsErrOf result AgainFault.Failed }
    ensures missing { ¬ IsErrOf result AgainFault.Missing }
    ensures changed { IsErrOf result AgainFault.Changed → IsMisfit read }
{
    match read {
        Ok(come) => {
            if come {
                return Ok(());
            }
            Err(AgainFault::Changed)
        }
        Err(fault) => Err(of_pass(fault)),
    }
}

/// What comes of a file's refusal.
fn of_pass(fault: PassFault) -> AgainFault
    ensures failed { ¬ (result ≡ AgainFault.Failed) }
    ensures missing { ¬ (result ≡ AgainFault.Missing) }
    ensures changed { result ≡ AgainFault.Changed → IsMisfit (Err fault) }
{
    match fault {
        PassFault::Outside(_) => AgainFault::OutOfMemory,
        PassFault::Refused(refusal) => of_refusal(refusal),
    }
}

/// What comes of a refused packet.
fn of_refusal(refusal: DemuxFault) -> AgainFault
    ensures failed { ¬ (result ≡ AgainFault.Failed) }
    ensures missing { ¬ (result ≡ AgainFault.Missing) }
    ensures changed { result ≡ AgainFault.Changed → ¬ (refusal ≡ OutOfMemory) }
{
    match refusal {
        DemuxFault::OutOfMemory => AgainFault::OutOfMemory,
        _ => AgainFault::Changed,
    }
}
