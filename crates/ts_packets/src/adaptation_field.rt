ghost use Rattle.std.specs.Prelude.{◌≡◌, ◌*◌, ◌^◌, ◌-◌, ◌<◌, ◌≤◌, length, if◌then◌else◌};
ghost use Rattle.ts_packets.specs.AdaptationField.{field_of, is_too_short, ticks_of, written_flags, written_pcr, written_field, IsPcrInRange, least_length};

use stream_constants::clock::TICKS_PER_TIME_UNIT;

/// `discontinuity_indicator` in the flags.
const DISCONTINUITY_INDICATOR: u8 = 1 << 7;

/// `PCR_flag` in the flags.
const PCR_FLAG: u8 = 1 << 4;

/// Length of the flags and a PCR in bytes.
const FLAGS_AND_PCR_BYTES: usize = 7;

/// How far `program_clock_reference_base` stands above the end of a PCR's 48 bits.
const BASE_SHIFT: u32 = 15;

/// The reserved bits of a PCR, between base and extension.
const RESERVED: u64 = 0x3F << 9;

/// `program_clock_reference_extension` in a PCR.
const EXTENSION: u64 = 0x1FF;

const STUFFING_BYTE: u8 = 0xFF;

/// What is kept of an adaptation field (ISO/IEC 13818-1, 2.4.3.4). Its other flags and parts are passed over.
#[derive(Clone, Copy, Debug, PartialEq, Eq)]
pub struct AdaptationField {
    /// `discontinuity_indicator`.
    pub discontinuity: bool,
    /// The program clock reference in ticks of 1/27,000,000 s: 300 times its base, and its extension.
    pub pcr: Option<u64>,
}

impl AdaptationField {
    /// The field of these bytes behind its length byte. None where its PCR has no room in them.
    #[tactic(auto, using(crate::proofs::Elements::elements))]
    pub(crate) fn read(bytes: &[u8]) -> Option<AdaptationField>
        ensures { result ≡ (if is_too_short bytes.now then None else Some (field_of bytes.now)) }
    {
        let Some(flags) = bytes.first() else {
            return Some(AdaptationField {
                discontinuity: false,
                pcr: None,
            });
        };
        let discontinuity = flags & DISCONTINUITY_INDICATOR != 0;
        let pcr = if flags & PCR_FLAG == 0 {
            None
        } else if bytes.len() < FLAGS_AND_PCR_BYTES {
            return None;
        } else {
            Some(read_pcr(bytes))
        };
        Some(AdaptationField { discontinuity, pcr })
    }

    /// Fills the room between header and payload: the length byte, flags, PCR and stuffing.
    pub(crate) fn write(&self, into: &mut [u8])
        requires pcr { IsPcrInRange self.now }
        requires room { least_length self.now < length into.old }
        requires size { length into.old ≤ 184 }
        ensures { into.new ≡ written_field (Some self.now) (length into.old - 1) }
    {
        let length = into.len() - 1;
        into.fill(STUFFING_BYTE);
        into[0] = length as u8;
        if length > 0 {
            into[1] = self.flags();
        }
        if let Some(ticks) = self.pcr {
            into[2..1 + FLAGS_AND_PCR_BYTES].copy_from_slice(&pcr_bytes(ticks));
        }
    }

    fn flags(&self) -> u8
        ensures { result ≡ written_flags self.now }
    {
        let discontinuity = if self.discontinuity {
            DISCONTINUITY_INDICATOR
        } else {
            0
        };
        let pcr = if self.pcr.is_some() { PCR_FLAG } else { 0 };
        discontinuity | pcr
    }
}

#[tactic(auto, using(crate::proofs::Elements::elements))]
fn read_pcr(bytes: &[u8]) -> u64
    requires { 7 ≤ length bytes.now }
    ensures { result ≡ ticks_of bytes.now }
{
    let word = u64::from_be_bytes([
        0, 0, bytes[1], bytes[2], bytes[3], bytes[4], bytes[5], bytes[6],
    ]);
    (word >> BASE_SHIFT) * TICKS_PER_TIME_UNIT + (word & EXTENSION)
}

fn pcr_bytes(ticks: u64) -> [u8; 6]
    requires { ticks < TICKS_PER_TIME_UNIT * 2 ^ 33 }
    ensures { result ≡ written_pcr (Some ticks) }
{
    let word = (ticks / TICKS_PER_TIME_UNIT) << BASE_SHIFT | RESERVED | ticks % TICKS_PER_TIME_UNIT;
    let [_, _, a, b, c, d, e, f] = word.to_be_bytes();
    [a, b, c, d, e, f]
}
