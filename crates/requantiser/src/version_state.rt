ghost use Rattle.quant_math.specs.Scales.{IsCode};

use quant_math::map_code;
use syntax_types::PicCoding;

/// Where the version at `m` sixteenths stands in a slice, between two macroblocks.
#[derive(Clone, Copy)]
pub struct VersionState {
    /// The ratio of the version's scales to the source's, in sixteenths.
    pub m: u16,
    /// quantiser_scale_code in force in the source.
    pub source_code: u8,
    /// quantiser_scale_code in force in the version.
    pub version_code: u8,
    /// Macroblocks that are skipped in the version since its last one, or since the start of the row.
    pub skipped: u16,
    ghost source_is_code: { IsCode source_code },
    ghost version_is_code: { IsCode version_code },
}

impl VersionState {
    ghost use Rattle.std.specs.Prelude.{◌≡◌};
    ghost use Rattle.quant_math.specs.Scales.{IsMappedCode};

    /// The state at the start of a slice with this code.
    pub fn new(coding: &PicCoding, m: u16, code: u8) -> Self
        requires { IsCode code }
        ensures ratio { result.m ≡ m }
        ensures source_code { result.source_code ≡ code }
        ensures version_code { IsMappedCode coding.now.q_scale_type code m result.version_code }
        ensures skipped { result.skipped ≡ 0 }
    {
        VersionState {
            m,
            source_code: code,
            version_code: map_code(code, m, coding.q_scale_type),
            skipped: 0,
        }
    }
}
