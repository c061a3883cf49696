ghost use Rattle.std.specs.Prelude.{◌≡◌, ◌≤◌};
ghost use Rattle.quant_math.specs.Scales.{IsCode, IsMappedCode, quantiser_scale};

/// The last quantiser_scale_code, which has 5 bits (ISO/IEC 13818-2, 6.3.16).
pub const LAST_CODE: u8 = 31;

/// A ratio of scales of 1: ratios are counted in sixteenths.
pub const WHOLE_RATIO: u32 = 16;

/// quantiser_scale of the codes 1 to 31 where q_scale_type is 1.
static NONLINEAR_SCALES: [u16; 31] = [
    1, 2, 3, 4, 5, 6, 7, 8, 10, 12, 14, 16, 18, 20, 22, 24, 28, 32, 36, 40, 44, 48, 52, 56, 64, 72,
    80, 88, 96, 104, 112,
];

/// The quantiser_scale of a code from 1 to 31, by q_scale_type (ISO/IEC 13818-2, 7.4.2.2, Table 7-6).
pub fn scale(q_scale_type: bool, code: u8) -> u16
    requires { IsCode code }
    ensures value { result ≡ quantiser_scale q_scale_type code }
    ensures range { (1 ≤ result) × (result ≤ 112) }
{
    if q_scale_type {
        NONLINEAR_SCALES[code as usize - 1]
    } else {
        2 * u16::from(code)
    }
}

/// The least code whose scale is at least `m` sixteenths of that of a code from 1 to 31, or 31 where there is none by q_scale_type.
pub fn map_code(code: u8, m: u16, q_scale_type: bool) -> u8
    requires { IsCode code }
    ensures { IsMappedCode q_scale_type code m result }
{
    let least = u32::from(scale(q_scale_type, code)) * u32::from(m);
    for candidate in 1..LAST_CODE {
        if u32::from(scale(q_scale_type, candidate)) * WHOLE_RATIO >= least {
            return candidate;
        }
    }
    LAST_CODE
}
