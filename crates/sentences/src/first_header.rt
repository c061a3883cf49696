use job_report::Form;
use shelf_io::Shelf;
use shelf_kinds::FileShelf;
use std::rt::Files;
use stream_constants::packets::PACKET_BYTES;
use stream_constants::start_codes::SEQUENCE_HEADER;

/// How many bytes are read at once: whole packets.
const PIECE_BYTES: usize = 348 * PACKET_BYTES;

/// How many pieces of a file are looked through for a sequence header.
const PIECES_MOST: u64 = 16;

/// What a sequence header says (13818-2, 6.2.2.1).
#[derive(Clone, Copy)]
pub(crate) struct Header {
    /// frame_rate_code.
    pub(crate) rate: u8,
    /// vbv_buffer_size, in units of 2,048 bytes.
    pub(crate) buffer: u16,
}

/// The first sequence header of a file of a form; none where its front has no whole one in a packet.
pub(crate) fn first_header<R: Files>(rt: &R, name: &str, form: Form) -> Option<Header> {
    let mut shelf = FileShelf::new(rt);
    let mut room = [0u8; PIECE_BYTES];
    let mut from = 0u64;
    for _ in 0..PIECES_MOST {
        let Ok(count) = shelf.read(name, from, &mut room) else {
            return None;
        };
        if let Some(header) = header_in(&room[..count], form) {
            return Some(header);
        }
        let whole = count - count % PACKET_BYTES;
        if whole == 0 {
            return None;
        }
        from = from.saturating_add(whole as u64);
    }
    None
}

/// The first sequence header of a piece: in a transport stream it stands in one packet, in a program stream packets are longer than pieces.
fn header_in(piece: &[u8], form: Form) -> Option<Header> {
    if let Form::Ps = form {
        return header_among(piece);
    }
    for packet in piece.chunks_exact(PACKET_BYTES) {
        if let Some(header) = header_among(packet) {
            return Some(header);
        }
    }
    None
}

/// The first sequence header among some bytes.
fn header_among(bytes: &[u8]) -> Option<Header> {
    for at in 0..bytes.len() {
        if let Some(header) = header_at(&bytes[at..]) {
            return Some(header);
        }
    }
    None
}

/// The sequence header that begins with these bytes.
fn header_at(bytes: &[u8]) -> Option<Header> {
    match bytes {
        [0, 0, 1, code, _, _, _, rate, _, _, high, low, ..] if *code == SEQUENCE_HEADER => {
            Some(Header {
                rate: rate & 0x0f,
                buffer: u16::from(high & 0x1f) << 5 | u16::from(low >> 3),
            })
        }
        _ => None,
    }
}
