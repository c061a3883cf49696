use crate::passed_fault::PassedFault;

/// Why a pass doesn't read a stream. `F` is what the stream is refused for.
#[derive(Debug, PartialEq, Eq, Drop)]
pub(crate) enum StreamStop<F> {
    /// The program isn't read for this, whatever the streams behind have.
    Ended(PassedFault),
    /// The stream is refused for this, unless a stream behind has too many PES packets.
    Refused(F),
}
