//! Extensions and user data behind a header, any number of them in any order (6.2.2.2).
ghost use Rattle.std.specs.Prelude.{◌≡◌, [], true, length, IfOk, IfSome};
ghost use Rattle.syntax_types.specs.declared.block.TheConstants.{BLOCK_PLACES};
ghost use Rattle.picture_grammar.specs.Headers.{with_loaded};
ghost use Rattle.picture_grammar.specs.Grammar.Next.{more};
ghost use Rattle.video_headers.specs.Private.Extensions.{item, items, loaded_of};
ghost use Rattle.video_headers.specs.Private.NextCode.{NextRests, is_one};
ghost use Rattle.video_headers.specs.Private.Part.{codes_of};
ghost use Rattle.video_headers.specs.Private.Reading.{Answers};
ghost use Rattle.video_headers.specs.Private.Wholes.{Wholes};

use crate::code::{NextCode, read_next_code};
use crate::extension::read_extension;
use crate::fault::HeadFault;
use crate::matrix::{LoadedWeights, matrix_or};
use crate::part::Part;
use crate::unread::read_unread;
use bit_cursor::BitReader;
use shelf_io::Source;
use stream_constants::start_codes::EXTENSION;
use syntax_types::SeqState;

/// The state that headers leave, and what comes behind them.
#[derive(Clone, Copy)]
pub struct Behind {
    pub seq: SeqState,
    pub next: NextCode,
}

/// Extensions and user data behind this header, as far as they go, with the matrices that they load.
pub fn read_extensions<S: Source>(
    reader: &mut BitReader<'_, S>,
    part: Part,
    seq: SeqState,
) -> Result<Behind, HeadFault>
    ensures { Answers (items part seq) (λ behind. behind.seq) result (Wholes reader.old) (λ behind. NextRests behind.next reader.new) reader.old reader.new }
{
    let mut state = seq;
    'parts: loop {
        let next = read_next_code(reader)?;
        if !part.comes(&next) {
            return Ok(Behind { seq: state, next });
        }
        let loaded = read_extension_or_user_data(reader, part, next)?;
        state = with_loaded(state, &loaded);
    }
}

/// The extension or the user data that comes.
fn read_extension_or_user_data<S: Source>(
    reader: &mut BitReader<'_, S>,
    part: Part,
    next: NextCode,
) -> Result<LoadedWeights, HeadFault>
    requires { is_one (codes_of part) next.comes ≡ true }
    ensures answers { Answers (item part []) (λ loaded. more (loaded_of loaded)) result (NextRests next reader.old) (λ _. Wholes reader.new) reader.old reader.new }
    ensures intra { IfOk result (λ loaded. IfSome loaded.intra (λ w. length w.items ≡ BLOCK_PLACES)) }
    ensures non_intra { IfOk result (λ loaded. IfSome loaded.non_intra (λ w. length w.items ≡ BLOCK_PLACES)) }
{
    if next.is(EXTENSION) {
        let loaded = read_extension(reader, part)?;
        return Ok(loaded);
    }
    read_unread(reader)?;
    Ok(LoadedWeights {
        intra: None,
        non_intra: None,
    })
}

/// The state with the matrices that were loaded (6.3.11).
fn with_loaded(seq: SeqState, loaded: &LoadedWeights) -> SeqState
    requires intra { IfSome loaded.now.intra (λ w. length w.items ≡ BLOCK_PLACES) }
    requires non_intra { IfSome loaded.now.non_intra (λ w. length w.items ≡ BLOCK_PLACES) }
    ensures { result ≡ with_loaded seq (loaded_of loaded.now) }
{
    let intra = matrix_or(&loaded.intra, seq.intra);
    let non_intra = matrix_or(&loaded.non_intra, seq.non_intra);
    SeqState {
        width: seq.width,
        height: seq.height,
        rate_code: seq.rate_code,
        vbv: seq.vbv,
        progressive: seq.progressive,
        intra,
        non_intra,
    }
}
