use list_types::ListOf;
use tstd_model::{Arrival, BufferKind, Removal};

/// A stream of a program: the PID that it is named by, its buffers, what comes into them and what is removed from them.
#[derive(Drop)]
pub struct AuditedStream {
    pub pid: u16,
    pub kind: BufferKind,
    pub arrivals: ListOf<Arrival>,
    pub removals: ListOf<Removal>,
}
