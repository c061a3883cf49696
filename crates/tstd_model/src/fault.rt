/// A fault of the decoder; instants are in subticks.
#[derive(Clone, Copy, Debug, PartialEq, Eq)]
pub enum TstdFault {
    /// A buffer is over its size at this instant.
    Overflow { at: u64 },
    /// Not all bytes that this removal takes, counted from 0, are there when it comes.
    Late { removal: u32 },
    /// A byte of an elementary stream is held longer than a second at this instant.
    Old { at: u64 },
}
