//! The head of a macroblock in a version: what it says there that depends on its coefficients.
ghost use Rattle.std.specs.Prelude.{◌≡◌, ℕ, Option};
ghost use Rattle.quant_math.specs.Scales.{IsCode};
ghost use Rattle.requantiser.specs.Tallies.{kind_under};
ghost use Rattle.requantiser.specs.Private.Walk.{head_with};

use syntax_types::Kind;

/// What a macroblock says in a version that depends on coefficients there, its own or those before it, besides
/// macroblock_type and dct_type, which follow (ISO/IEC 13818-2, 6.2.5).
#[derive(Clone, Copy)]
pub struct Head {
    /// The skipped macroblocks before it in its slice; for the first macroblock of a slice, its column.
    pub skipped_before: u16,
    /// quantiser_scale_code, where it stands.
    pub code: Option<u8>,
    /// coded_block_pattern, 0 where none stands.
    pub pattern: u8,
}

impl Head {
    /// The head with this pattern behind so many skipped macroblocks, of an intra macroblock or another one, where the code
    /// before it is `before` and its own would be `mapped`.
    #[inline]
    pub(crate) fn new(intra: bool, mapped: u8, before: u8, skipped_before: u16, pattern: u8) -> Head
        requires { IsCode mapped }
        ensures value { result ≡ head_with intra mapped before skipped_before pattern }
        ensures code { (code : ℕ) → result.code ≡ Option.Some code → IsCode code }
    {
        let has_coefficients = intra || pattern != 0;
        let code = if has_coefficients && mapped != before {
            Some(mapped)
        } else {
            None
        };
        Head {
            skipped_before,
            code,
            pattern,
        }
    }

    /// macroblock_type of the macroblock, which has this one in the source.
    #[inline]
    pub fn kind(self, source: Kind) -> Kind
        ensures { result ≡ kind_under source self }
    {
        Kind {
            quant: self.code.is_some(),
            pattern: self.pattern != 0,
            ..source
        }
    }
}
