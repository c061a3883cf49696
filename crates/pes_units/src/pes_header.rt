ghost use Rattle.std.specs.Prelude.{◌≡◌, ◌≤◌, [], ◌∷◌, length, true, IfOk, IsTrue, if◌then◌else◌};
ghost use Rattle.std.specs.List.{find};
ghost use Rattle.std.specs.Result.{result_err, result_ok};
ghost use Rattle.pes_units.specs.PesHeader.{IsPesHeader, pes_fields_of, has_pes_fault, has_prefix, header_length, header_of, is_header_whole, is_stream_id, pes_packet_length, pes_refusal};
ghost use Rattle.pes_units.specs.PesPackets.{is_cut, is_dropped, is_length_sound, packet_refusal, last_refusal};

use crate::pes_fault::PesFault;
use crate::times::Times;

/// What a PES packet begins with.
const START_CODE_PREFIX: [u8; 3] = [0x00, 0x00, 0x01];

/// The bytes of a header before its times.
pub(crate) const FIRST_BYTES: usize = 9;

/// The bytes up to and with `PES_packet_length`.
const STATING_BYTES: usize = 6;

/// The first two bits of byte 6, which are 10.
const FIXED_MASK: u8 = 0b11 << 6;

const FIXED_BITS: u8 = 0b10 << 6;

/// `PES_scrambling_control` in byte 6.
const SCRAMBLING_CONTROL: u8 = 0b11 << 4;

/// What is kept of the header of a PES packet (ISO/IEC 13818-1, 2.4.3.6).
#[derive(Clone, Copy, Debug, PartialEq, Eq)]
pub struct PesHeader {
    /// `stream_id`.
    pub stream_id: u8,
    /// `PES_packet_length`: the number of bytes behind its own two, or 0 where it isn't stated.
    pub stated: u16,
    /// The times.
    pub times: Times,
    /// The header's length in bytes: 9 and `PES_header_data_length`.
    pub len: u16,
}

impl PesHeader {
    /// The header that a PES packet of a video stream, or else of an audio stream, begins with. An error is the first
    /// fault that the packet has, in the order of `PesFault`.
    #[tactic(auto, using(crate::proofs::Elements::elements))]
    pub fn read(bytes: &[u8], video: bool) -> Result<PesHeader, PesFault>
        // What is read is the packet's header, and the packet's header is read.
        ensures header { IfOk result (λ header. IsPesHeader video header bytes.now) }
        ensures only { (header : PesHeader) → IsPesHeader video header bytes.now → result ≡ Ok header }
        // What is answered is the first fault, and where there is none the header.
        ensures fault { result_err result ≡ pes_refusal video bytes.now }
        ensures exact { result_ok result ≡ header_of video bytes.now }
    {
        if !has_prefix(bytes, video) {
            return Err(PesFault::BadPrefix);
        }
        if !is_header_whole(bytes) || bytes.len() == header_length(bytes) {
            return Err(PesFault::Short);
        }
        Self::read_whole(bytes)
    }

    /// The header of a whole PES packet, as each but the last of a PID is. An error is the first fault that the packet
    /// has, in the order of `PesFault`.
    #[tactic(auto, using(crate::proofs::Elements::elements))]
    pub fn read_packet(bytes: &[u8], video: bool) -> Result<PesHeader, PesFault>
        ensures fault { result_err result ≡ packet_refusal video bytes.now }
        ensures header { IfOk result (λ header. header ≡ pes_fields_of bytes.now) }
        ensures is_header { IfOk result (λ header. IsPesHeader video header bytes.now) }
    {
        let header = Self::read(bytes, video)?;
        if !is_length_sound(bytes, video) {
            return Err(PesFault::BadLength);
        }
        Ok(header)
    }

    /// The header of the last packet of a PID, which the end of the stream may cut. None is answered where it is cut and
    /// is dropped: in audio, and where its header isn't whole. An error is the first fault that the packet has, in the
    /// order of `PesFault`, but that a cut packet is short is no fault.
    #[tactic(auto, using(crate::proofs::Elements::elements))]
    pub fn read_last(bytes: &[u8], video: bool) -> Result<Option<PesHeader>, PesFault>
        ensures fault { result_err result ≡ last_refusal video bytes.now }
        ensures header { IfOk result (λ header. header ≡ (if is_dropped video bytes.now then None else Some (pes_fields_of bytes.now))) }
    {
        if !is_cut(bytes, video) {
            return Ok(Some(Self::read_packet(bytes, video)?));
        }
        if !has_prefix(bytes, video) {
            return Err(PesFault::BadPrefix);
        }
        if !is_header_whole(bytes) {
            return Ok(None);
        }
        let header = Self::read_whole(bytes)?;
        Ok(if video { Some(header) } else { None })
    }

    /// The header that the bytes begin with, whatever the prefix is and whether or not anything follows.
    #[tactic(auto, using(crate::proofs::Elements::elements))]
    fn read_whole(bytes: &[u8]) -> Result<PesHeader, PesFault>
        requires { IsTrue (is_header_whole bytes.now) }
        ensures fault { result_err result ≡ find (has_pes_fault true bytes.now) (PesFault.Scrambled ∷ PesFault.BadMarker ∷ []) }
        ensures header { IfOk result (λ header. header ≡ pes_fields_of bytes.now) }
    {
        if bytes[6] & SCRAMBLING_CONTROL != 0 {
            return Err(PesFault::Scrambled);
        }
        if bytes[6] & FIXED_MASK != FIXED_BITS {
            return Err(PesFault::BadMarker);
        }
        let times = Times::read(bytes)?;
        Ok(PesHeader {
            stream_id: bytes[3],
            stated: stated_length(bytes),
            times,
            len: header_length(bytes) as u16,
        })
    }
}

/// Whether those of the first four bytes that stand are a start code prefix and a stream id of the kind.
#[tactic(auto, using(crate::proofs::Elements::elements))]
fn has_prefix(bytes: &[u8], video: bool) -> bool
    ensures { result ≡ has_prefix video bytes.now }
{
    let standing = bytes.len().min(START_CODE_PREFIX.len());
    START_CODE_PREFIX.starts_with(&bytes[..standing])
        && match bytes.get(START_CODE_PREFIX.len()) {
            Some(id) => is_stream_id(video, *id),
            None => true,
        }
}

fn is_stream_id(video: bool, id: u8) -> bool
    ensures { result ≡ is_stream_id video id }
{
    match id {
        0xE0..=0xEF => video,
        0xC0..=0xDF => !video,
        _ => false,
    }
}

/// Whether the header ends within the bytes.
#[tactic(auto, using(crate::proofs::Elements::elements))]
fn is_header_whole(bytes: &[u8]) -> bool
    ensures { result ≡ is_header_whole bytes.now }
{
    bytes.len() >= FIRST_BYTES && bytes.len() >= header_length(bytes)
}

#[tactic(auto, using(crate::proofs::Elements::elements))]
fn header_length(bytes: &[u8]) -> usize
    requires { 9 ≤ length bytes.now }
    ensures { result ≡ header_length bytes.now }
{
    FIRST_BYTES + bytes[FIRST_BYTES - 1] as usize
}

/// Whether a last packet is cut: it has fewer bytes than it states, or too few to state it, or it is video and states
/// nothing.
#[tactic(auto, using(crate::proofs::Elements::elements))]
fn is_cut(bytes: &[u8], video: bool) -> bool
    ensures { result ≡ is_cut video bytes.now }
{
    bytes.len() < STATING_BYTES
        || video && stated_length(bytes) == 0
        || bytes.len() < STATING_BYTES + stated_length(bytes) as usize
}

#[tactic(auto, using(crate::proofs::Elements::elements))]
fn stated_length(bytes: &[u8]) -> u16
    requires { 6 ≤ length bytes.now }
    ensures { result ≡ pes_packet_length bytes.now }
{
    u16::from_be_bytes([bytes[4], bytes[5]])
}

/// True where a packet is as long as it states, or is a video packet that states no length.
#[tactic(auto, using(crate::proofs::Elements::elements))]
fn is_length_sound(bytes: &[u8], video: bool) -> bool
    requires { 6 ≤ length bytes.now }
    ensures { result ≡ is_length_sound video bytes.now }
{
    let stated = stated_length(bytes) as usize;
    if stated == 0 {
        video
    } else {
        bytes.len() == STATING_BYTES + stated
    }
}
