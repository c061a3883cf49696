//! The lines of a table text, one at a time.

ghost use Rattle.std.specs.Option.{option_copied};
ghost use Rattle.std.specs.Net.Reader.{read_number};
ghost use Rattle.std.specs.Prelude.{◌≡◌, ◌≤◌, length, IfSome};
ghost use Rattle.version_table.specs.Private.Reading.{after, number_at, number_line, version_at, versions_at, unit_at, packet_at, program_at, stream_at, line_at, seen, seen_versions};

use crate::limits::VERSIONS_MOST;
use crate::line::{Line, Stage, StatedVersion};
use arrayvec::ArrayVec;

/// The next line of a text, where one comes that may stand there, and what follows it.
#[tactic(auto, unfolding(crate::specs::Private::Reading::line_at))]
pub fn line_at(stage: Stage, text: &[u8]) -> Option<(Line, &[u8])>
    ensures { seen result ≡ line_at stage text.now }
{
    match stage {
        Stage::Title => {
            let rest = after(text, b"remux table 1\n")?;
            Some((Line::Title, rest))
        }
        Stage::Slot => {
            let (ticks, rest) = number_line(text, b"slot ")?;
            Some((Line::Slot(ticks), rest))
        }
        Stage::Nodes => {
            let (n, rest) = number_line(text, b"nodes ")?;
            Some((Line::Nodes(n), rest))
        }
        Stage::Evaluations => {
            let (n, rest) = number_line(text, b"evaluations ")?;
            Some((Line::Evaluations(n), rest))
        }
        Stage::Programs => program_at(text),
        Stage::Units => match unit_at(text) {
            Some(found) => Some(found),
            None => stream_at(text),
        },
        Stage::Packets => match packet_at(text) {
            Some(found) => Some(found),
            None => stream_at(text),
        },
    }
}

/// The line of an audio stream or of a program.
#[tactic(auto, unfolding(crate::specs::Private::Reading::stream_at))]
fn stream_at(text: &[u8]) -> Option<(Line, &[u8])>
    ensures { seen result ≡ stream_at text.now }
{
    match after(text, b"audio\n") {
        Some(rest) => Some((Line::Audio, rest)),
        None => program_at(text),
    }
}

#[tactic(auto, unfolding(crate::specs::Private::Reading::program_at))]
fn program_at(text: &[u8]) -> Option<(Line, &[u8])>
    ensures { seen result ≡ program_at text.now }
{
    let (vbv, rest) = number_line(text, b"program ")?;
    Some((Line::Program(vbv), rest))
}

#[tactic(auto, unfolding(crate::specs::Private::Reading::unit_at))]
fn unit_at(text: &[u8]) -> Option<(Line, &[u8])>
    ensures { seen result ≡ unit_at text.now }
{
    let rest = after(text, b"unit ")?;
    let (due, rest) = number_at(rest)?;
    let (versions, rest) = versions_at(rest)?;
    if versions.is_empty() {
        return None;
    }
    let rest = after(rest, b"\n")?;
    Some((Line::Unit { due, versions }, rest))
}

#[tactic(auto, unfolding(crate::specs::Private::Reading::packet_at))]
fn packet_at(text: &[u8]) -> Option<(Line, &[u8])>
    ensures { seen result ≡ packet_at text.now }
{
    let rest = after(text, b"packet ")?;
    let (due, rest) = number_at(rest)?;
    let (gone, rest) = number_at(after(rest, b" ")?)?;
    let (bytes, rest) = number_at(after(rest, b" ")?)?;
    let rest = after(rest, b"\n")?;
    Some((Line::Packet { due, gone, bytes }, rest))
}

/// The versions of a unit, each behind a space, as many as there are.
fn versions_at(text: &[u8]) -> Option<(ArrayVec<StatedVersion, VERSIONS_MOST>, &[u8])>
    ensures { seen_versions result ≡ versions_at VERSIONS_MOST text.now }
{
    let mut versions = ArrayVec::new();
    let mut rest = text;
    while let Some(front) = after(rest, b" ") {
        if versions.is_full() {
            return None;
        }
        let (version, behind) = version_at(front)?;
        versions.push(version);
        rest = behind;
    }
    Some((versions, rest))
}

#[tactic(auto, unfolding(crate::specs::Private::Reading::version_at))]
fn version_at(text: &[u8]) -> Option<(StatedVersion, &[u8])>
    ensures { seen result ≡ version_at text.now }
{
    let (bytes, rest) = number_at(text)?;
    let (distortion, rest) = number_at(after(rest, b":")?)?;
    Some((StatedVersion { bytes, distortion }, rest))
}

/// A line of a word with its space, and one number.
#[tactic(auto, unfolding(crate::specs::Private::Reading::number_line))]
fn number_line<'a>(text: &'a [u8], word: &[u8]) -> Option<(u64, &'a [u8])>
    ensures { seen result ≡ number_line word.now text.now }
{
    let (n, rest) = number_at(after(text, word)?)?;
    let rest = after(rest, b"\n")?;
    Some((n, rest))
}

/// The decimal number below 2^64 at the front, without a needless leading zero.
#[tactic(auto, unfolding(crate::specs::Private::Reading::number_at))]
fn number_at(text: &[u8]) -> Option<(u64, &[u8])>
    ensures { seen result ≡ number_at text.now }
{
    let (value, len) = digits_at(text)?;
    if len > 1 && text[0] == b'0' {
        return None;
    }
    Some((value, &text[len..]))
}

/// The value of the digits at the front, and how many they are.
fn digits_at(text: &[u8]) -> Option<(u64, usize)>
    ensures value { result ≡ read_number 10 u64.MAX text.now }
    ensures within { IfSome result (λ n. (1 ≤ n.1) × (n.1 ≤ length text.now)) }
{
    let mut value: u64 = 0;
    let mut len = 0;
    while len < text.len() && text[len].is_ascii_digit() {
        value = value
            .checked_mul(10)?
            .checked_add(u64::from(text[len] - b'0'))?;
        len += 1;
    }
    if len == 0 {
        return None;
    }
    Some((value, len))
}

/// What follows these bytes at the front.
fn after<'a>(text: &'a [u8], word: &[u8]) -> Option<&'a [u8]>
    ensures { option_copied result ≡ after word.now text.now }
{
    text.strip_prefix(word)
}
