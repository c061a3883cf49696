//! A walk over the PES packets of a stream that pass, as long as they are no more than a program may have.
ghost use Rattle.std.specs.Prelude.{◌≡◌, ◌+◌, ◌<◌, ◌≤◌, ◌^◌, true, false, List, [], ◌∷◌, ◌++◌, length, None, IfOk, MatchResult};
ghost use Rattle.std.specs.Option.{option_copied, option_to_list};
ghost use Rattle.ts_demux.specs.declared.demuxed.PesUnit.{PesUnit};
ghost use Rattle.stream_pass.specs.declared.limits.TheConstants.{FILE_BYTES_MOST, PES_PACKETS_MOST};
ghost use Rattle.stream_pass.specs.StreamWalk.{AreFew, IsRefusal};
ghost use Rattle.stream_pass.specs.Private.Passed.{all_of, AreReadTo, AreTaken, IsEndRefused, IsLast, IsNext, IsOfPackets};

use crate::limits::{FILE_BYTES_MOST, PES_PACKETS_MOST};
use crate::read_fault::ReadFault;
use crate::stream_walk::{StreamWalk, WalkFault};
use list_types::OutOfMemory;
use ts_demux::PesUnit;

/// A stream, as far as its PES packets have passed.
#[derive(Drop)]
pub struct Passed<W, F> {
    state: State<W, F>,
    /// How many have passed.
    count: u64,
    /// How many bytes they have.
    bytes: u64,
}

/// What is read of them.
#[derive(Drop)]
enum State<W, F> {
    /// The walk has taken them.
    Taken(W),
    /// The first one with a fault is refused for it. None is taken behind it.
    Refused(F),
}

/// A stream of which nothing has passed.
pub fn begin<W: StreamWalk>(walk: W) -> Passed<W, W::Fault>
    requires { W.has_read walk [] walk }
    ensures { AreTaken (W.has_read walk) (W.refuses walk) [] result }
{
    Passed {
        state: State::Taken(walk),
        count: 0,
        bytes: 0,
    }
}

/// The stream behind the PES packet that has ended, which is taken as long as there are no more than a program may have.
pub fn take_packet<W: StreamWalk>(
    passed: Passed<W, W::Fault>,
    packet: Option<&PesUnit>,
) -> Result<Passed<W, W::Fault>, OutOfMemory>
    requires { (start : W) × (ended : List PesUnit) × (next : PesUnit) × IsNext ended next (option_copied packet) × AreTaken (W.has_read start) (W.refuses start) ended passed }
    ensures { (start : W) (ended : List PesUnit) (next : PesUnit) → IsNext ended next (option_copied packet.entry) → AreTaken (W.has_read start) (W.refuses start) ended passed →
        IfOk result (AreTaken (W.has_read start) (W.refuses start) (ended ++ next ∷ [])) }
{
    let Some(packet) = packet else {
        return Ok(passed);
    };
    let Passed {
        state,
        count,
        bytes,
    } = passed;
    let count = count + 1;
    let bytes = bytes + packet.bytes.len() as u64;
    if !are_few(count, bytes) {
        return Ok(Passed {
            state,
            count,
            bytes,
        });
    }
    match take_state(state, packet) {
        Ok(state) => Ok(Passed {
            state,
            count,
            bytes,
        }),
        Err(_) => Err(OutOfMemory),
    }
}

/// What is read of a stream at the end of a file of so many bytes, whose last PES packet is this one.
pub fn end_stream<W: StreamWalk, P: Drop>(
    passed: Passed<W, W::Fault>,
    last: Option<&PesUnit>,
    bytes: u64,
) -> Result<W::Read, ReadFault<P, W::Fault>>
    requires { (start : W) × (ended : List PesUnit) × IsLast ended (option_copied last) bytes × AreTaken (W.has_read start) (W.refuses start) ended passed }
    ensures { (start : W) (ended : List PesUnit) → IsLast ended (option_copied last.entry) bytes → AreTaken (W.has_read start) (W.refuses start) ended passed →
        MatchResult result (IsOfPackets bytes (all_of ended (option_copied last.entry)) (W.reads start)) (IsEndRefused bytes (all_of ended (option_copied last.entry)) (W.refuses start)) }
{
    let Passed {
        state,
        count,
        bytes: _,
    } = passed;
    if bytes > FILE_BYTES_MOST {
        return Err(ReadFault::Limit);
    }
    if all_count(count, last) > PES_PACKETS_MOST {
        return Err(ReadFault::Limit);
    }
    match end_state(state, last) {
        Ok(read) => Ok(read),
        Err(fault) => match fault {
            WalkFault::Refused(fault) => Err(ReadFault::Refused(fault)),
            WalkFault::OutOfMemory => Err(ReadFault::OutOfMemory),
        },
    }
}

/// What is read of a stream whose last PES packet is this one.
fn end_state<W: StreamWalk>(
    state: State<W, W::Fault>,
    last: Option<&PesUnit>,
) -> Result<W::Read, WalkFault<W::Fault>>
    requires { (start : W) × (ended : List PesUnit) × AreFew (all_of ended (option_copied last)) × (option_copied last ≡ None → ended ≡ [])
        × AreReadTo (W.has_read start) (W.refuses start) ended state }
    ensures { (start : W) (ended : List PesUnit) → AreFew (all_of ended (option_copied last.entry)) → (option_copied last.entry ≡ None → ended ≡ []) →
        AreReadTo (W.has_read start) (W.refuses start) ended state →
        MatchResult result (W.reads start (all_of ended (option_copied last.entry))) (IsRefusal (W.refuses start (all_of ended (option_copied last.entry)))) }
{
    match state {
        State::Taken(walk) => walk.end(last),
        State::Refused(fault) => Err(WalkFault::Refused(fault)),
    }
}

/// What is read behind one PES packet more, which another one follows.
fn take_state<W: StreamWalk>(
    state: State<W, W::Fault>,
    packet: &PesUnit,
) -> Result<State<W, W::Fault>, OutOfMemory>
    requires { (start : W) × (ended : List PesUnit) × AreFew (ended ++ packet.now ∷ []) × AreReadTo (W.has_read start) (W.refuses start) ended state }
    ensures { (start : W) (ended : List PesUnit) → AreFew (ended ++ packet.now ∷ []) → AreReadTo (W.has_read start) (W.refuses start) ended state →
        IfOk result (AreReadTo (W.has_read start) (W.refuses start) (ended ++ packet.now ∷ [])) }
{
    match state {
        State::Taken(walk) => match walk.take(packet) {
            Ok(walk) => Ok(State::Taken(walk)),
            Err(fault) => match fault {
                WalkFault::Refused(fault) => Ok(State::Refused(fault)),
                WalkFault::OutOfMemory => Err(OutOfMemory),
            },
        },
        State::Refused(fault) => Ok(State::Refused(fault)),
    }
}

/// Whether so many PES packets of so many bytes are no more than a program may have.
fn are_few(count: u64, bytes: u64) -> bool
    ensures yes { result ≡ true → (count ≤ PES_PACKETS_MOST) × (bytes ≤ FILE_BYTES_MOST) }
    ensures no { result ≡ false → count ≤ PES_PACKETS_MOST → bytes ≤ FILE_BYTES_MOST → ⊥ }
{
    if count > PES_PACKETS_MOST {
        return false;
    }
    bytes <= FILE_BYTES_MOST
}

/// How many PES packets there are with the last one.
fn all_count(ended: u64, last: Option<&PesUnit>) -> u64
    requires { ended + 1 < 2 ^ 64 }
    ensures { result ≡ ended + length (option_to_list (option_copied last.entry)) }
{
    match last {
        Some(_) => ended + 1,
        None => ended,
    }
}
