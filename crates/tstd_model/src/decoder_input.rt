/// Which buffers of the decoder data goes through (ISO/IEC 13818-1, 2.4.2.3).
#[derive(Clone, Copy, Debug, PartialEq, Eq)]
pub enum BufferKind {
    /// A transport buffer TB, a multiplexing buffer MB and an elementary buffer EB of `vbv` times 16,384 bits.
    Video { vbv: u8 },
    /// TB and a main buffer B.
    Audio,
    /// The system TB and the system main buffer, from which nothing is removed: it leaks.
    System,
}

/// A transport packet that comes in a slot. Its last `payload` bytes go on from the transport buffer, and the first
/// `header` of these are of a PES header.
#[derive(Clone, Copy, Debug, PartialEq, Eq)]
pub struct Arrival {
    pub slot_no: u32,
    pub header: u8,
    pub payload: u8,
}

/// The next so many bytes are removed from the elementary buffer or audio's main buffer, all at once, `due` in ticks.
#[derive(Clone, Copy, Debug, PartialEq, Eq)]
pub struct Removal {
    pub due: u64,
    pub bytes: u32,
}

/// What a byte of a transport packet belongs to.
#[derive(Clone, Copy, Debug, PartialEq, Eq)]
pub enum PacketPart {
    /// The packet's header and adaptation field, which leave the decoder behind the transport buffer.
    Overhead,
    /// A PES header.
    PesHeader,
    /// The payload behind PES headers: an elementary stream, or sections.
    Data,
}
