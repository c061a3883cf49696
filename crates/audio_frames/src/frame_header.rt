ghost use Rattle.std.specs.Prelude.{◌≡◌, ◌+◌, ◌-◌, ◌*◌, ◌/◌, ◌<◌, ◌≤◌, ◌==◌, ◌&&◌, length, drop, true, slice_index, Some, IfSome};
ghost use Rattle.audio_frames.specs.Frames.{has_header};
ghost use Rattle.audio_frames.specs.FrameHeader.{syncword, kilobits, hertz};
ghost use Rattle.audio_frames.specs.Format.{header_of};
ghost use Rattle.audio_frames.specs.Private.Format.{has_format};

/// Bytes of a header.
pub const HEADER_BYTES: usize = 4;

/// The first eight of the twelve ones, and the other four in the second byte's high bits.
const SYNC_BYTE: u8 = 0xFF;

const SYNC_BITS: u8 = 0xF;

/// Layer II in the two bits behind the ID.
const LAYER_II: u8 = 2;

/// The greatest bit rate index with a bit rate; 0 is free format, which isn't allowed.
const LAST_BIT_RATE_INDEX: u8 = 14;

/// The greatest sampling index with a sampling rate.
const LAST_SAMPLING_INDEX: u8 = 2;

/// Bytes of a frame of 1,152 samples, times its samples per second, for each bit per second.
const BYTES_BY_BIT_RATE: u32 = 144;

/// Bits per second in thousands, for the bit rate indices 1 to 14 (ISO/IEC 11172-3, 2.4.2.3).
static KILOBITS: [u32; 14] = [
    32, 48, 56, 64, 80, 96, 112, 128, 160, 192, 224, 256, 320, 384,
];

/// The same at low sampling rates (ISO/IEC 13818-3, 2.4.2.3).
static LOW_KILOBITS: [u32; 14] = [8, 16, 24, 32, 40, 48, 56, 64, 80, 96, 112, 128, 144, 160];

/// Samples per second, for the sampling indices 0 to 2.
static HERTZ: [u32; 3] = [44_100, 48_000, 32_000];

/// The same for the low sampling rates.
static LOW_HERTZ: [u32; 3] = [22_050, 24_000, 16_000];

/// What is kept of the header of an audio frame of Layer II.
#[derive(Clone, Copy)]
pub struct FrameHeader {
    /// 1 for sampling rates from 32,000 Hz on, 0 for the low ones.
    pub id: u8,
    pub sampling_index: u8,
    /// Bytes of the frame.
    pub len: u32,
}

impl FrameHeader {
    /// The header that the bytes begin with.
    #[tactic(auto, using(crate::proofs::Elements::elements))]
    pub fn read(bytes: &[u8]) -> Option<FrameHeader>
        ensures header { result ≡ header_of bytes.now }
        ensures range { IfSome result (λ header. (24 ≤ header.len) × (header.len ≤ 3457) × (header.sampling_index < 3)) }
    {
        if bytes.len() < HEADER_BYTES || !has_sync(bytes) || (bytes[1] >> 1) & 3 != LAYER_II {
            return None;
        }
        let bit_rate_index = bytes[2] >> 4;
        let sampling_index = (bytes[2] >> 2) & 3;
        if bit_rate_index == 0
            || bit_rate_index > LAST_BIT_RATE_INDEX
            || sampling_index > LAST_SAMPLING_INDEX
        {
            return None;
        }
        let id = (bytes[1] >> 3) & 1;
        let padding = (bytes[2] >> 1) & 1;
        let len = frame_bytes(id, bit_rate_index, sampling_index) + u32::from(padding);
        Some(FrameHeader {
            id,
            sampling_index,
            len,
        })
    }

    /// True where the bytes begin with a header of this ID and sampling rate.
    pub fn goes_on(self, bytes: &[u8]) -> bool
        ensures { result ≡ has_format self bytes.now }
    {
        match FrameHeader::read(bytes) {
            Some(next) => self.is_like(next),
            None => false,
        }
    }

    /// True where two headers have the same ID and sampling rate.
    pub fn is_like(self, next: FrameHeader) -> bool
        ensures { result ≡ ((self.id == next.id) && (self.sampling_index == next.sampling_index)) }
    {
        self.id == next.id && self.sampling_index == next.sampling_index
    }

    /// Samples per second; those of the last index for one that no header has.
    pub fn hertz(self) -> u32
        ensures value { self.sampling_index < 3 → result ≡ slice_index (hertz self.id) self.sampling_index }
        ensures range { (16000 ≤ result) × (result ≤ 48000) }
    {
        hertz_of(self.id, self.sampling_index.min(LAST_SAMPLING_INDEX))
    }
}

/// The header at a place of a payload where one stands.
pub fn header_at(payload: &[u8], at: usize) -> FrameHeader
    requires { has_header payload.now at ≡ true }
    ensures header { header_of (drop at payload.now) ≡ Some result }
    ensures within { at + 4 ≤ length payload.now }
    ensures index { result.sampling_index < 3 }
{
    match FrameHeader::read(&payload[at..]) {
        Some(header) => header,
        None => unreachable!(),
    }
}

/// True where the bytes begin with twelve ones.
#[tactic(auto, using(crate::proofs::Elements::elements))]
pub fn has_sync(bytes: &[u8]) -> bool
    requires { 2 ≤ length bytes.now }
    ensures { result ≡ (syncword bytes.now == 0xFFF) }
{
    bytes[0] == SYNC_BYTE && bytes[1] >> 4 == SYNC_BITS
}

/// Bits per second, in thousands.
fn kilobits_of(id: u8, bit_rate_index: u8) -> u32
    requires first { 1 ≤ bit_rate_index }
    requires last { bit_rate_index ≤ 14 }
    ensures value { result ≡ slice_index (kilobits id) (bit_rate_index - 1) }
    ensures range { (8 ≤ result) × (result ≤ 384) }
{
    let row = bit_rate_index as usize - 1;
    if id == 1 {
        KILOBITS[row]
    } else {
        LOW_KILOBITS[row]
    }
}

/// Samples per second.
fn hertz_of(id: u8, sampling_index: u8) -> u32
    requires { sampling_index ≤ 2 }
    ensures value { result ≡ slice_index (hertz id) sampling_index }
    ensures range { (16000 ≤ result) × (result ≤ 48000) }
{
    let row = sampling_index as usize;
    if id == 1 { HERTZ[row] } else { LOW_HERTZ[row] }
}

/// Bytes of a frame without padding.
fn frame_bytes(id: u8, bit_rate_index: u8, sampling_index: u8) -> u32
    requires first { 1 ≤ bit_rate_index }
    requires last { bit_rate_index ≤ 14 }
    requires sampling { sampling_index ≤ 2 }
    ensures value { result ≡ 144 * (1000 * slice_index (kilobits id) (bit_rate_index - 1)) / slice_index (hertz id) sampling_index }
    ensures range { (24 ≤ result) × (result ≤ 3456) }
{
    BYTES_BY_BIT_RATE * (1_000 * kilobits_of(id, bit_rate_index)) / hertz_of(id, sampling_index)
}
