//! Transport packets (13818-1, 2.4.3.2).

/// Bytes of a transport packet.
pub const PACKET_BYTES: usize = 188;

/// The byte that each packet begins with (sync_byte, 2.4.3.3).
pub const SYNC_BYTE: u8 = 0x47;

const _: () = prove!(SYNC_BYTE == 0b0100_0111);

/// Bytes of a transport packet's header.
pub const HEADER_BYTES: usize = 4;

// sync_byte, three flags, PID, transport_scrambling_control, adaptation_field_control and continuity_counter
const _: () = prove!(8 * HEADER_BYTES == 8 + 3 + 13 + 2 + 2 + 4);

/// Payload bytes of a transport packet without an adaptation field.
pub const PAYLOAD_BYTES: usize = PACKET_BYTES - HEADER_BYTES;
