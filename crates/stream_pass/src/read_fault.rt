/// Why a stream isn't read out of a source. `P` is why the file doesn't pass, `F` what the stream's PES packets are refused for.
#[derive(Debug, PartialEq, Eq, Drop)]
pub enum ReadFault<P, F> {
    /// The source answered a fault, or the first refusal of what carries the file's streams.
    Passing(P),
    /// The file is longer, or the stream has more PES packets, than a program may have.
    Limit,
    /// Its PES packets are refused for this.
    Refused(F),
    /// Memory was wanted and not there.
    OutOfMemory,
}
