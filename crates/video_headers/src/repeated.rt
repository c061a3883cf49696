ghost use Rattle.bit_lists.specs.Fields.{flag};
ghost use Rattle.std.specs.Option.{option_copied};
ghost use Rattle.std.specs.Prelude.{◌≡◌};
ghost use Rattle.video_headers.specs.Private.Limits.{limit, IsRepeated};

use crate::limit::Limit;
use crate::why::Why;
use syntax_types::SeqState;

/// What a later sequence header repeats of the state before it, as limits of its fields.
#[derive(Clone, Copy)]
pub struct Repeated {
    pub width: Limit,
    pub height: Limit,
    pub rate_code: Limit,
    pub vbv: Limit,
    pub progressive: Limit,
}

/// The limits behind this state, or behind none.
pub fn limits_behind(before: Option<&SeqState>) -> Repeated
    ensures width { IsRepeated (option_copied before.entry) (λ seq. seq.width) result.width }
    ensures height { IsRepeated (option_copied before.entry) (λ seq. seq.height) result.height }
    ensures rate_code { IsRepeated (option_copied before.entry) (λ seq. seq.rate_code) result.rate_code }
    ensures vbv { IsRepeated (option_copied before.entry) (λ seq. seq.vbv) result.vbv }
    ensures progressive { IsRepeated (option_copied before.entry) (λ seq. flag seq.progressive) result.progressive }
{
    match before {
        None => Repeated {
            width: ANY,
            height: ANY,
            rate_code: ANY,
            vbv: ANY,
            progressive: ANY,
        },
        Some(seq) => Repeated {
            width: only(u32::from(seq.width)),
            height: only(u32::from(seq.height)),
            rate_code: only(u32::from(seq.rate_code)),
            vbv: only(u32::from(seq.vbv)),
            progressive: only(u32::from(seq.progressive)),
        },
    }
}

/// Every number.
const ANY: Limit = Limit {
    least: 0,
    most: u32::MAX,
    otherwise: Why::BadHeader,
};

/// One number alone.
fn only(number: u32) -> Limit
    ensures { result ≡ limit number number Why.BadHeader }
{
    Limit {
        least: number,
        most: number,
        otherwise: Why::BadHeader,
    }
}
