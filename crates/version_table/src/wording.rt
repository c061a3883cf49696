//! What is allowed where a table text breaks a limit, for people. No contract rests on these words.

use crate::limits::{
    AUDIOS_MOST, DISTORTION_LIMIT, DISTORTIONS_LIMIT, EVALUATIONS_MOST, NODES_MOST, PROGRAMS_MOST,
    SLOT_LEAST, SLOT_MOST, TABLE_TEXT_MOST, TEXT_AUDIO_PACKETS_MOST, TIME_SLOTS_MOST, UNITS_MOST,
    VERSION_BYTES_MOST,
};
use arrayvec::ArrayString;
use std::fmt;
use stream_constants::main_level::VBV_MOST;
use stream_constants::packets::PAYLOAD_BYTES;

/// What the limit of this name allows, as refusals print it.
#[derive(Clone, Copy)]
pub(crate) struct Allowed<'a> {
    name: &'a str,
}

impl<'a> Allowed<'a> {
    /// What the limit of this name allows.
    pub(crate) fn of(name: &'a ArrayString<32>) -> Allowed<'a> {
        Allowed {
            name: name.as_str(),
        }
    }
}

impl fmt::Display for Allowed<'_> {
    fn fmt<W: fmt::Write>(&self, f: &mut fmt::Formatter<W>) -> fmt::Result {
        match self.name {
            "slot" => write_range(f, SLOT_LEAST, SLOT_MOST, " ticks"),
            "nodes" => write_range(f, 1, NODES_MOST, ""),
            "evaluations" => write_range(f, 0, EVALUATIONS_MOST, ""),
            "vbv" => write_range(f, 1, VBV_MOST as u32, " units of 2048 bytes"),
            "bytes" => write!(
                f,
                "1 to {VERSION_BYTES_MOST} in a version, 1 to {PAYLOAD_BYTES} in a packet, and at most {TABLE_TEXT_MOST} in the text"
            ),
            "distortion" => write!(f, "below {DISTORTION_LIMIT}"),
            "distortions" => write!(
                f,
                "below {DISTORTIONS_LIMIT} in the sum of the greatest distortion of each unit"
            ),
            "due" | "gone" => write_time(f, self.name),
            _ => write_count(f, self.name),
        }
    }
}

/// What is allowed of a number between two limits.
fn write_range<W: fmt::Write>(
    f: &mut fmt::Formatter<W>,
    least: u32,
    most: u32,
    unit: &str,
) -> fmt::Result {
    write!(f, "{least} to {most}{unit}")
}

/// What is allowed of a time.
fn write_time<W: fmt::Write>(f: &mut fmt::Formatter<W>, name: &str) -> fmt::Result {
    let bound = match name {
        "due" => "above that of the unit before it",
        _ => "not below its due time",
    };
    write!(
        f,
        "at most {TIME_SLOTS_MOST} slots, {bound}, and not below that of the packet before it"
    )
}

/// How many of a kind a table may have.
fn write_count<W: fmt::Write>(f: &mut fmt::Formatter<W>, name: &str) -> fmt::Result {
    let (most, kind) = match name {
        "programs" => (PROGRAMS_MOST, "programs"),
        "audios" => (AUDIOS_MOST, "audio streams in a program"),
        "units" => (UNITS_MOST, "units in all"),
        _ => (TEXT_AUDIO_PACKETS_MOST, "audio packets in all"),
    };
    write!(f, "at most {most} {kind}")
}
