use es_window::HeldPart;
use psi_tables::Stream;

/// Which stream of a file is read again.
#[derive(Clone, Copy)]
pub struct StreamPlace<'a> {
    /// The name of the file.
    pub name: &'a str,
    /// The streams that are carried of the program in it, the video first.
    pub streams: &'a [Stream],
    /// The number of the stream among these.
    pub index: usize,
    /// What of its PES packets is wanted.
    pub part: HeldPart,
}
