use ts_demux::PassFault;

/// The packets of a file at most, whose numbers have 32 bits.
pub const PACKETS_MOST: usize = 4_294_967_296;

/// Why the packets of a PID don't pass to the end of their file.
#[derive(Debug, PartialEq, Eq, Drop)]
pub enum PlacesFault {
    /// The source doesn't give them, or one is refused for the PID.
    Passing(PassFault),
    /// The file has more than `PACKETS_MOST` packets.
    TooMany,
}
