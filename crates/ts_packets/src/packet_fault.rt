use thiserror::Error;

/// Why 188 bytes aren't read as a packet: the first of these that they have (ISO/IEC 13818-1, 2.4.3.3).
#[derive(Clone, Copy, Debug, PartialEq, Eq, Error)]
pub enum PacketFault {
    /// The sync byte isn't 0x47.
    #[error("no sync byte")]
    Sync,
    /// `transport_error_indicator` is set.
    #[error("transport error")]
    ErrorFlag,
    /// `transport_scrambling_control` isn't 00.
    #[error("scrambled")]
    Scrambled,
    /// `adaptation_field_control` is 00, the adaptation field's length isn't one that it allows, or the field is too
    /// short for its PCR.
    #[error("bad adaptation field")]
    BadField,
}
