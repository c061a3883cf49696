//! What is said of a stream that breaks the model of the decoder: which buffer of which stream, where in the file, by how much where the
//! file tells it, and what usually causes it.

use crate::amounts::{Rate, Seconds};
use crate::clock::span_to;
use crate::crowd::TransportBuffer;
use crate::line::{End, number, text};
use crate::named_program::NamedProgram;
use serde_json::Value;
use std::alloc::{AllocError, Global};
use std::rt::Files;
use stream_constants::clock::{SUBTICKS_PER_SECOND, SUBTICKS_PER_TICK};
use stream_constants::decoder::{
    AUDIO_BYTES, AUDIO_TB_SUBTICKS, SYSTEM_BYTES, SYSTEM_TB_SUBTICKS, TB_BYTES, VIDEO_TB_SUBTICKS,
};
use stream_constants::packets::PACKET_BYTES;

/// What a PID carries of the program.
#[derive(Clone, Copy, PartialEq, Eq)]
enum Carried {
    Video,
    Audio,
    /// The sections of PID 0 and of the program's map.
    Sections,
}

/// What an audit found, as its line has it, and the words that it was asked with.
#[derive(Clone, Copy)]
struct Found<'a> {
    program: Option<NamedProgram<'a>>,
    file: &'a str,
    slot: u64,
    pid: u64,
    at: u64,
    carried: Carried,
}

/// What breaks the model first, where, and what usually causes it.
pub(crate) fn broken<R: Files + AllocGlobal>(
    rt: &R,
    end: &End<'_>,
    line: &Value,
) -> Result<String, AllocError> {
    let found = found_of(rt, end, line);
    let what = match text(line, "fault") {
        "pcr" => clock_off(rt, &found)?,
        "overflow" => overflow(rt, &found)?,
        "old" => held_long(rt.alloc(), &found)?,
        "late" => not_there(rt.alloc(), &found)?,
        _ => never_empty(rt.alloc(), &found)?,
    };
    format!(in rt.alloc();
        "program {program} of {file}, in slots of {slot} ticks, {rate} Mbit/s: {what} (docs/REFUSALS.md)",
        program = end.word(2),
        file = found.file,
        slot = found.slot,
        rate = Rate { slot: found.slot }
    )
}

/// What was found, with what the file says of the PID.
fn found_of<'a, R: Files + AllocGlobal>(rt: &R, end: &End<'a>, line: &Value) -> Found<'a> {
    let program = NamedProgram::of_audit(end);
    let pid = number(line, "pid");
    Found {
        program,
        file: end.word(1),
        slot: match program {
            Some(program) => program.slot,
            None => 0,
        },
        pid,
        at: number(line, "at"),
        carried: carried_on(rt, program, pid),
    }
}

/// What a PID carries: the video where that can't be read again.
fn carried_on<R: Files + AllocGlobal>(
    rt: &R,
    program: Option<NamedProgram<'_>>,
    pid: u64,
) -> Carried {
    if pid == 0 {
        return Carried::Sections;
    }
    let Some(streams) = program.and_then(|program| program.streams(rt)) else {
        return Carried::Video;
    };
    for stream in streams.as_slice() {
        if u64::from(stream.pid) == pid && !stream.is_video {
            return Carried::Audio;
        }
    }
    Carried::Video
}

/// A clock reference that is off: by how much, and what the references up to there say of the rate.
fn clock_off<R: Files + AllocGlobal>(rt: &R, found: &Found<'_>) -> Result<String, AllocError> {
    let alloc = rt.alloc();
    let packet = found.at / PACKET_BYTES as u64;
    let time = Seconds {
        ticks: packet.saturating_mul(found.slot),
    };
    let measured = match span_to(rt, found.file, found.pid, found.at) {
        Some(span) if span.packets > 0 => {
            let wanted = span.packets.saturating_mul(found.slot);
            format!(in alloc;
                ": it shows {shown} ticks more than the first one, {packets} packets before, where {wanted} are right; by these two a packet lasts {whole}.{parts} ticks",
                shown = span.ticks,
                packets = span.packets,
                whole = span.ticks / span.packets,
                parts = (span.ticks % span.packets).saturating_mul(10) / span.packets
            )?
        }
        _ => String::new(alloc),
    };
    format!(in alloc;
        "the clock reference in packet {packet} from 0 (byte {byte}, PID {pid}), {time} s behind the file's first byte, is off by more than 500 ns{measured}; \
         SLOT is another rate than the stream's, or the stream has none that is constant: packets were taken out or moved behind the multiplexer, or its \
         references aren't made anew",
        byte = found.at,
        pid = found.pid
    )
}

/// A buffer that is over its size: the transport buffer, where it holds more than its bytes then, else what stands behind it.
fn overflow<R: Files + AllocGlobal>(rt: &R, found: &Found<'_>) -> Result<String, AllocError> {
    let alloc = rt.alloc();
    let stream = stream_in_words(alloc, found)?;
    let place = place_in_words(alloc, found)?;
    match transport_buffer(rt, found).held_at(rt, found.at) {
        Some(bytes) if bytes > TB_BYTES => format!(in alloc;
            "the transport buffer of {stream} overflows {place}: it holds {bytes} bytes, and {TB_BYTES} fit; its packets stand too close together: \
             {rate} leave it a second, so the multiplexer has to space them, or pad less and the program needs a slower rate",
            rate = leaving_in_words(found.carried)
        ),
        _ => format!(in alloc;
            "the {buffer} of {stream} overflows {place}: its bytes come too early for the times at which they are taken out; the multiplexer runs too far \
             ahead, or the coder's buffer is larger than it states",
            buffer = main_buffer(found.carried)
        ),
    }
}

/// The transport buffer of what was found; into that of the sections packets of the program's map come beside those of PID 0.
fn transport_buffer<'a, R: Files + AllocGlobal>(rt: &R, found: &Found<'a>) -> TransportBuffer<'a> {
    let map = match found.carried {
        Carried::Sections => found.program.and_then(|program| program.map_pid(rt)),
        Carried::Video | Carried::Audio => None,
    };
    TransportBuffer {
        file: found.file,
        slot: found.slot,
        pids: [found.pid, map.map_or(found.pid, u64::from)],
        leaving: leaving(found.carried),
    }
}

/// A byte that is held too long.
fn held_long(alloc: Global, found: &Found<'_>) -> Result<String, AllocError> {
    let came = Found {
        at: found.at.saturating_sub(SUBTICKS_PER_SECOND + 1),
        ..*found
    };
    format!(in alloc;
        "a byte of {stream} that comes {place} is still held a second later, which is as long as it may stay; the decoding times lie too far behind \
         the bytes, or jump, or the byte belongs to no unit or frame that is taken out",
        stream = stream_in_words(alloc, found)?,
        place = place_in_words(alloc, &came)?
    )
}

/// A unit or frame that isn't there in time.
fn not_there(alloc: Global, found: &Found<'_>) -> Result<String, AllocError> {
    let unit = match found.carried {
        Carried::Video => "unit",
        _ => "frame",
    };
    format!(in alloc;
        "{unit} {number} from 0 of {stream} isn't there whole when it is taken out: its bytes come too late for its decoding time; the rate is too low \
         for its pictures, the multiplexer's delay is too short, or its packets stand behind others",
        number = found.at,
        stream = stream_in_words(alloc, found)?
    )
}

/// A transport buffer that isn't empty once in a second.
fn never_empty(alloc: Global, found: &Found<'_>) -> Result<String, AllocError> {
    format!(in alloc;
        "the transport buffer of {stream} isn't empty once in the second that ends {place}, as each must be; its packets come at nearly the {rate} \
         at which it empties, without a pause",
        stream = stream_in_words(alloc, found)?,
        place = place_in_words(alloc, found)?,
        rate = leaving_in_words(found.carried)
    )
}

/// A stream of the program, with its PID.
fn stream_in_words(alloc: Global, found: &Found<'_>) -> Result<String, AllocError> {
    match found.carried {
        Carried::Video => format!(in alloc; "the video (PID {})", found.pid),
        Carried::Audio => format!(in alloc; "the audio stream on PID {}", found.pid),
        Carried::Sections => String::from_str(
            alloc,
            "the sections (PID 0 and that of the program's map)",
        ),
    }
}

/// When an instant is, and in which packet of the file.
fn place_in_words(alloc: Global, found: &Found<'_>) -> Result<String, AllocError> {
    let packet = found.at / SUBTICKS_PER_TICK.saturating_mul(found.slot).max(1);
    format!(in alloc;
        "{time} s behind the file's first byte, in packet {packet} from 0 (byte {byte})",
        time = Seconds {
            ticks: found.at / SUBTICKS_PER_TICK
        },
        byte = packet.saturating_mul(PACKET_BYTES as u64)
    )
}

/// Subticks that a byte takes to leave the transport buffer.
fn leaving(carried: Carried) -> u64 {
    match carried {
        Carried::Video => VIDEO_TB_SUBTICKS,
        Carried::Audio => AUDIO_TB_SUBTICKS,
        Carried::Sections => SYSTEM_TB_SUBTICKS,
    }
}

/// The same as a rate.
fn leaving_in_words(carried: Carried) -> &'static str {
    match carried {
        Carried::Video => "18 Mbit/s",
        Carried::Audio => "2 Mbit/s",
        Carried::Sections => "1 Mbit/s",
    }
}

/// What stands behind the transport buffer, with its size where that is one.
fn main_buffer(carried: Carried) -> &'static str {
    match carried {
        Carried::Video => "multiplexing or elementary buffer",
        Carried::Audio => "main buffer of 3,584 bytes",
        Carried::Sections => "main buffer of 1,536 bytes",
    }
}

const _: () = prove!(AUDIO_BYTES == 3_584);

const _: () = prove!(SYSTEM_BYTES == 1_536);
