/// How a program of a stream breaks the model of the decoder (ISO/IEC 13818-1, 2.4.2).
#[derive(Clone, Copy, Debug, PartialEq, Eq)]
pub enum FaultName {
    /// A program clock reference is off by more than 500 ns.
    Pcr,
    /// A buffer is over its size.
    Overflow,
    /// A byte of an elementary stream is held longer than a second.
    Old,
    /// A unit or frame isn't there when it is removed.
    Late,
    /// A transport buffer isn't empty once in a second.
    Full,
}

/// Where it breaks it first.
#[derive(Clone, Copy, Debug, PartialEq, Eq)]
pub struct Finding {
    /// The PID of the stream; 0 for the sections of PID 0 and of the program's map.
    pub pid: u16,
    pub fault: FaultName,
    /// Of `Pcr` the byte of the file where the packet begins; of `Late` the number of the unit or frame, from 0; else the
    /// instant, in subticks (1/940 of a tick of 1/27,000,000 s) from the file's first byte on.
    pub at: u64,
}
