use file_pieces::PiecesStop;

/// What stopped the writing of a stream that is made of files.
#[derive(Clone, Copy)]
pub enum LanesStop {
    /// The file of a stream couldn't be read, or isn't what it was.
    Unread(PiecesStop),
    /// The file that the stream is added to couldn't be written.
    Unwritten,
    /// Memory was wanted and not there.
    OutOfMemory,
}
