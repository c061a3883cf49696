//! What the items of streams send, by the versions that are kept.
ghost use Rattle.std.specs.Prelude.{◌≡◌, ℕ, true, ◌+◌, ◌*◌, ◌<◌, [], All, length, slice_index_or, IfSome};
ghost use Rattle.version_source.specs.Pieces.{HasPiece, audio_items, stream_items, video_items};
ghost use Rattle.version_source.specs.Sendable.{IsSendable};

use list_types::ListOf;
use mux_writer::Filled;
use pes_units::{MOST_HEADER_BYTES, write_video_header};
use program_reader::{AudioSource, Program};
use stream_constants::packets::PAYLOAD_BYTES;
use version_maker::UnitVersion;

/// What an item of a stream sends: the PES packet of a picture, or an audio packet.
#[derive(Drop)]
pub struct Item<'a> {
    /// The header of a PES packet, in the front.
    header: [u8; MOST_HEADER_BYTES],
    header_bytes: u8,
    /// What stands behind the header.
    rest: &'a [u8],
    /// Whether a PES packet begins with it.
    start: bool,
}

impl Item<'_> {
    /// How many packets it is cut into.
    pub fn pieces(&self) -> usize {
        self.rest
            .len()
            .saturating_add(usize::from(self.header_bytes))
            .div_ceil(PAYLOAD_BYTES)
    }

    /// Whether there is a piece of this number.
    pub fn has_piece(&self, piece: u32) -> bool
        ensures { result ≡ true → 184 * piece < self.now.header_bytes + length self.now.rest.now }
    {
        PAYLOAD_BYTES * (piece as usize) < usize::from(self.header_bytes) + self.rest.len()
    }

    /// The byte at a place, where one is.
    fn byte_at(&self, place: usize) -> Option<u8> {
        let header_bytes = usize::from(self.header_bytes);
        if place < header_bytes {
            return self.header.get(place).copied();
        }
        self.rest.get(place - header_bytes).copied()
    }

    /// Whether a buffer holds the piece of this number in its front.
    pub fn is_held(&self, piece: u32, filled: Filled, buffer: &[u8; PAYLOAD_BYTES]) -> bool {
        let from = PAYLOAD_BYTES.saturating_mul(piece as usize);
        let held = usize::from(filled.bytes);
        for k in 0..PAYLOAD_BYTES {
            let place = from.saturating_add(k);
            let found = if k < held {
                buffer.get(k).copied()
            } else {
                None
            };
            if found != self.byte_at(place) {
                return false;
            }
        }
        held <= PAYLOAD_BYTES && filled.start == (self.start && piece == 0)
    }
}

/// The item of this number of a stream of programs, in the versions that are chosen; none where there is none.
pub fn item_of<'a>(
    programs: &'a [Program],
    versions: &'a [ListOf<ListOf<UnitVersion>>],
    choice: &[u8],
    stream: usize,
    item: usize,
) -> Option<Item<'a>>
    requires { All IsSendable programs.now }
    ensures { IfSome result (λ it. (piece : ℕ) → 184 * piece < it.header_bytes + length it.rest.now
        → HasPiece (stream_items programs.now versions.now choice.now) stream item piece) }
{
    let Some((program, later)) = programs.split_first() else {
        return None;
    };
    let Some((own, more)) = versions.split_first() else {
        return None;
    };
    if stream == 0 {
        return picture_of(program, own.as_slice(), choice, item);
    }
    let audios = program.audios.as_slice();
    if stream <= audios.len() {
        let place = stream - 1;
        return packet_of(&audios[place], item);
    }
    let units = program.units.len();
    if units > choice.len() {
        return None;
    }
    let (_, behind) = choice.split_at(units);
    item_of(later, more, behind, stream - 1 - audios.len(), item)
}

/// The PES packet of a picture of a program in the version that is chosen.
fn picture_of<'a>(
    program: &'a Program,
    versions: &'a [ListOf<UnitVersion>],
    choice: &[u8],
    item: usize,
) -> Option<Item<'a>>
    requires { IsSendable program.now }
    ensures { IfSome result (λ it. (piece : ℕ) → 184 * piece < it.header_bytes + length it.rest.now
        → piece < length (slice_index_or (video_items program.now.units versions.now choice.now) item [])) }
{
    let units = program.units.as_slice();
    if item >= units.len() {
        return None;
    }
    if item >= versions.len() {
        return None;
    }
    if item >= choice.len() {
        return None;
    }
    let own = versions[item].as_slice();
    let index = usize::from(choice[item]);
    if index >= own.len() {
        return None;
    }
    let mut header = [0; MOST_HEADER_BYTES];
    let header_bytes = write_video_header(&units[item].times, &mut header);
    Some(Item {
        header,
        header_bytes,
        rest: own[index].bytes.as_slice(),
        start: true,
    })
}

/// A packet of an audio stream: the bytes of the stream at its place.
fn packet_of<'a>(audio: &'a AudioSource, item: usize) -> Option<Item<'a>>
    ensures { IfSome result (λ it. (piece : ℕ) → 184 * piece < it.header_bytes + length it.rest.now
        → piece < length (slice_index_or (audio_items audio.now) item [])) }
{
    let pieces = audio.pieces.as_slice();
    if item >= pieces.len() {
        return None;
    }
    let piece = pieces[item];
    let bytes = audio.bytes.as_slice();
    let from = piece.at as usize;
    if from > bytes.len() {
        return None;
    }
    let size = usize::from(piece.packet.bytes);
    let rest = &bytes[from..];
    if size > rest.len() || size > PAYLOAD_BYTES {
        return None;
    }
    Some(Item {
        header: [0; MOST_HEADER_BYTES],
        header_bytes: 0,
        rest: &rest[..size],
        start: piece.start,
    })
}
