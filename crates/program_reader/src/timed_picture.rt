//! A coded picture with its time behind the one before.
ghost use Rattle.std.specs.Prelude.{◌≡◌, ◌≤◌, ◌<◌, ◌^◌, ℕ, List, Bool, true, false, IfSome, MatchOption, MatchResult, Some, None};
ghost use Rattle.std.specs.Option.{option_copied};
ghost use Rattle.pes_units.specs.Times.{decoding_time};
ghost use Rattle.picture_grammar.specs.Macroblock.{is_frame};
ghost use Rattle.elementary_streams.specs.declared.pes_packets.PlacedPacket.{PlacedPacket};
ghost use Rattle.program_reader.specs.PictureTimes.{times_of_unit};
ghost use Rattle.program_reader.specs.Intervals.{begins_reference, frame_period, frame_shown, is_b, nearest, shown_as, shown_meanwhile};
ghost use Rattle.program_reader.specs.Units.{ticks_behind, role_behind, role_of, IsUnpaired, IsTimed, HasNoTime, IsLater, IsCoded, IsNext, IsUnitRefused};
ghost use Rattle.program_reader.specs.Private.TimedPictures.{IsPossible, IsShown, LastTells, reference_before, reference_behind};

use crate::limits::UNIT_BYTES_MOST;
use crate::program_fault::{ProgramFault, SourceKind};
use elementary_streams::decoding_time;
use pes_units::{Times, unwrap_time};
use stream_constants::clock::TICKS_PER_TIME_UNIT;
use syntax_types::{B_PICTURE, FRAME_PICTURE, PicCoding, SeqState};

/// What a coded picture is among those before it (ISO/IEC 13818-2, 6.1.1.4.1).
#[derive(Clone, Copy, Debug, PartialEq, Eq)]
pub enum Role {
    /// A frame picture.
    Frame,
    /// A field picture whose frame the next one completes.
    FirstField,
    /// A field picture that completes a frame.
    SecondField,
}

/// A coded picture with its time.
#[derive(Clone, Copy)]
pub struct TimedPicture {
    /// The state in force for it.
    pub seq: SeqState,
    /// How it is coded.
    pub coding: PicCoding,
    pub role: Role,
    /// What the last coded I or P frame before its own frame is shown for, in ticks, where there is one.
    pub reference_before: Option<u32>,
    /// What the last coded I or P frame up to its own one is shown for, in ticks, where there is one.
    pub reference_behind: Option<u32>,
    /// The times of its PES header, where it has any.
    pub times: Times,
    /// The last decoding time that was stated up to it, on the program's axis, in units of 1/90,000 s.
    pub stated: i64,
    /// Its own decoding time, in ticks of 1/27,000,000 s.
    pub ticks: i64,
}

/// The time of a picture: the last one that was stated up to it, in units of 1/90,000 s, and its own, in ticks.
#[derive(Clone, Copy)]
pub struct PictureTime {
    pub stated: i64,
    pub ticks: i64,
}

/// Ticks of a frame period by frame_rate_code from 1 on (13818-2, Table 6-4): 24,000/1,001, 24, 25, 30,000/1,001 and 30
/// frames a second.
static FRAME_PERIODS: [u32; 5] = [1_126_125, 1_125_000, 1_080_000, 900_900, 900_000];

/// A picture so coded in a unit from a place of the video up to another, with its times, behind the one before. The error is
/// FieldPair, ProgramLimit, NoTime or TimeOrder, in this order.
pub fn timed_picture(
    seq: &SeqState,
    coding: &PicCoding,
    begin: u64,
    end: u64,
    times: Times,
    before: Option<&TimedPicture>,
) -> Result<TimedPicture, ProgramFault>
    requires rate { (1 ≤ seq.now.rate_code) × (seq.now.rate_code ≤ 5) }
    requires order { begin ≤ end }
    requires times { IfSome (decoding_time times) (λ time. time < 2 ^ 33) }
    requires before { IfSome (option_copied before) IsPossible }
    ensures { (es : List ℕ) (packets : List PlacedPacket) (earlier : List TimedPicture) → nearest earlier ≡ option_copied before.entry → LastTells earlier →
        IsCoded es (option_copied before.entry) (begin, end) seq.now coding.now → times ≡ times_of_unit es packets (begin, end) →
        MatchResult result (IsNext es packets earlier (begin, end))
        (λ fault. (last : Bool) → IsUnitRefused es packets (option_copied before.entry) (begin, end) last fault) }
{
    if is_unpaired(before, coding) {
        return Err(ProgramFault::Refused {
            kind: SourceKind::FieldPair,
            at: begin,
        });
    }
    if end - begin > UNIT_BYTES_MOST {
        return Err(ProgramFault::Refused {
            kind: SourceKind::ProgramLimit,
            at: 0,
        });
    }
    let Some(time) = time_of(before, times) else {
        return Err(ProgramFault::Refused {
            kind: SourceKind::NoTime,
            at: begin,
        });
    };
    if !is_later(before, &time) {
        return Err(ProgramFault::Refused {
            kind: SourceKind::TimeOrder,
            at: begin,
        });
    }
    let role = role_of(before, coding);
    Ok(TimedPicture {
        seq: *seq,
        coding: *coding,
        role,
        reference_before: reference_before(before, role),
        reference_behind: reference_behind(before, role, seq, coding),
        times,
        stated: time.stated,
        ticks: time.ticks,
    })
}

/// True where a first field isn't completed: behind it stands a frame, or a field of the same parity.
fn is_unpaired(before: Option<&TimedPicture>, coding: &PicCoding) -> bool
    ensures yes { result ≡ true → IsUnpaired (option_copied before.entry) coding.now }
    ensures no { result ≡ false → IsUnpaired (option_copied before.entry) coding.now → ⊥ }
{
    match before {
        Some(before) => {
            before.role == Role::FirstField
                && (is_frame(coding) || coding.structure == before.coding.structure)
        }
        None => false,
    }
}

/// True for a frame picture.
fn is_frame(coding: &PicCoding) -> bool
    ensures { result ≡ is_frame coding.now }
{
    coding.structure == FRAME_PICTURE
}

/// What a picture so coded is behind the one before.
fn role_of(before: Option<&TimedPicture>, coding: &PicCoding) -> Role
    ensures { result ≡ role_of (option_copied before.entry) coding.now }
{
    if is_frame(coding) {
        return Role::Frame;
    }
    match before {
        Some(before) => field_behind(before.role),
        None => Role::FirstField,
    }
}

/// What a field picture is behind another picture.
fn field_behind(before: Role) -> Role
    ensures { result ≡ role_behind false (Some before) }
{
    match before {
        Role::FirstField => Role::SecondField,
        Role::SecondField => Role::FirstField,
        Role::Frame => Role::FirstField,
    }
}

/// The time of a picture with these times behind the one before, if it has one.
fn time_of(before: Option<&TimedPicture>, times: Times) -> Option<PictureTime>
    requires times { IfSome (decoding_time times) (λ time. time < 2 ^ 33) }
    requires before { IfSome (option_copied before) IsPossible }
    ensures { MatchOption result (HasNoTime (option_copied before.entry) (decoding_time times)) (λ time. IsTimed (option_copied before.entry) (decoding_time times) time.stated time.ticks) }
{
    match before {
        Some(before) => time_behind(before, decoding_time(times)),
        None => first_time(decoding_time(times)),
    }
}

/// The time of the first picture.
fn first_time(decoding: Option<u64>) -> Option<PictureTime>
    requires { IfSome decoding (λ time. time < 2 ^ 33) }
    ensures { MatchOption result (HasNoTime None decoding) (λ time. IsTimed None decoding time.stated time.ticks) }
{
    let value = decoding?;
    let stated = value as i64;
    Some(PictureTime {
        stated,
        ticks: TICKS_PER_TIME_UNIT as i64 * stated,
    })
}

/// The time of a picture behind another one.
fn time_behind(before: &TimedPicture, decoding: Option<u64>) -> Option<PictureTime>
    requires times { IfSome decoding (λ time. time < 2 ^ 33) }
    requires before { IsPossible before.now }
    ensures { MatchOption result (HasNoTime (Some before.now) decoding) (λ time. IsTimed (Some before.now) decoding time.stated time.ticks) }
{
    let Some(value) = decoding else {
        return Some(time_untold(before));
    };
    let stated = unwrap_time(before.stated, value);
    Some(PictureTime {
        stated,
        ticks: TICKS_PER_TIME_UNIT as i64 * stated,
    })
}

/// The time of a picture that states none.
fn time_untold(before: &TimedPicture) -> PictureTime
    requires { IsPossible before.now }
    ensures { IsTimed (Some before.now) None result.stated result.ticks }
{
    PictureTime {
        stated: before.stated,
        ticks: before.ticks + i64::from(ticks_behind(before)),
    }
}

/// What the last coded I or P frame before a picture's own frame is shown for, in ticks, behind the picture before.
fn reference_before(before: Option<&TimedPicture>, role: Role) -> Option<u32>
    ensures { result ≡ reference_before role (option_copied before.entry) }
{
    match (before, role) {
        (Some(before), Role::SecondField) => before.reference_before,
        (Some(before), _) => before.reference_behind,
        (None, _) => None,
    }
}

/// What the last coded I or P frame up to a picture's own one is shown for, in ticks, behind the picture before.
fn reference_behind(
    before: Option<&TimedPicture>,
    role: Role,
    seq: &SeqState,
    coding: &PicCoding,
) -> Option<u32>
    requires { (1 ≤ seq.now.rate_code) × (seq.now.rate_code ≤ 5) }
    ensures { result ≡ reference_behind role seq.now coding.now (option_copied before.entry) }
{
    if begins_reference(role, coding) {
        return Some(shown_as(role, seq, coding));
    }
    match before {
        Some(before) => before.reference_behind,
        None => None,
    }
}

/// True where a coded I or P frame begins.
fn begins_reference(role: Role, coding: &PicCoding) -> bool
    ensures { result ≡ begins_reference role coding.now }
{
    match role {
        Role::Frame => !is_b(coding),
        Role::FirstField => !is_b(coding),
        Role::SecondField => false,
    }
}

/// True for a B-picture.
fn is_b(coding: &PicCoding) -> bool
    ensures { result ≡ is_b coding.now }
{
    coding.kind == B_PICTURE
}

/// Ticks that a coded frame is shown for, by its only or first picture (13818-2, 6.3.10).
fn shown_as(role: Role, seq: &SeqState, coding: &PicCoding) -> u32
    requires { (1 ≤ seq.now.rate_code) × (seq.now.rate_code ≤ 5) }
    ensures value { result ≡ shown_as role seq.now coding.now }
    ensures shown { IsShown result }
{
    match role {
        Role::Frame => frame_shown(seq, coding),
        Role::FirstField => frame_period(seq.rate_code),
        Role::SecondField => frame_period(seq.rate_code),
    }
}

/// Ticks that a frame picture is shown for.
fn frame_shown(seq: &SeqState, coding: &PicCoding) -> u32
    requires { (1 ≤ seq.now.rate_code) × (seq.now.rate_code ≤ 5) }
    ensures value { result ≡ frame_shown coding.now.repeat_first_field seq.now.progressive coding.now.top_field_first seq.now.rate_code }
    ensures shown { IsShown result }
{
    let period = frame_period(seq.rate_code);
    if !coding.repeat_first_field {
        return period;
    }
    if !seq.progressive {
        return period + period / 2;
    }
    if coding.top_field_first {
        3 * period
    } else {
        2 * period
    }
}

/// Ticks up to the next picture where that states no time (13818-2, annex C).
fn ticks_behind(before: &TimedPicture) -> u32
    requires rate { (1 ≤ before.now.seq.rate_code) × (before.now.seq.rate_code ≤ 5) }
    requires reference { IfSome before.now.reference_before IsShown }
    ensures value { result ≡ ticks_behind before.now }
    ensures most { result ≤ 3378375 }
{
    let shown = shown_meanwhile(before);
    match before.role {
        Role::Frame => shown,
        Role::FirstField => frame_period(before.seq.rate_code) / 2,
        Role::SecondField => shown - frame_period(before.seq.rate_code) / 2,
    }
}

/// Ticks of what is shown while the frame of a picture is decoded.
fn shown_meanwhile(picture: &TimedPicture) -> u32
    requires rate { (1 ≤ picture.now.seq.rate_code) × (picture.now.seq.rate_code ≤ 5) }
    requires reference { IfSome picture.now.reference_before IsShown }
    ensures value { result ≡ shown_meanwhile (is_b picture.now.coding) (shown_as picture.now.role picture.now.seq picture.now.coding) picture.now.reference_before picture.now.seq.rate_code }
    ensures shown { IsShown result }
{
    if is_b(&picture.coding) {
        return shown_as(picture.role, &picture.seq, &picture.coding);
    }
    match picture.reference_before {
        Some(shown) => shown,
        None => frame_period(picture.seq.rate_code),
    }
}

/// Ticks of a frame period.
fn frame_period(rate_code: u8) -> u32
    requires { (1 ≤ rate_code) × (rate_code ≤ 5) }
    ensures value { result ≡ frame_period rate_code }
    ensures least { 900000 ≤ result }
    ensures most { result ≤ 1126125 }
{
    FRAME_PERIODS[rate_code as usize - 1]
}

/// True where a time is later than that of the picture before.
fn is_later(before: Option<&TimedPicture>, time: &PictureTime) -> bool
    ensures yes { result ≡ true → IsLater (option_copied before.entry) time.now.ticks }
    ensures no { result ≡ false → IsLater (option_copied before.entry) time.now.ticks → ⊥ }
{
    match before {
        Some(before) => time.ticks > before.ticks,
        None => true,
    }
}
