//! What is said of a program that is refused.

use crate::amounts::Seconds;
use crate::audio_again::refused_audio;
use crate::carrier::{StreamPid, carrier_of};
use crate::clock::ticks_before;
use crate::elements::element_of;
use crate::job_again::job_table;
use crate::kinds::{Help, Place, kind_of};
use crate::limits::limits_in_words;
use crate::line::{End, number, text};
use crate::named_program::NamedProgram;
use job_report::Form;
use serde_json::Value;
use std::alloc::{AllocError, Global};
use std::rt::Files;
use stream_constants::packets::PACKET_BYTES;

/// The commands of ffmpeg that code video and audio anew.
pub(crate) const CODE: &str =
    "-c:v mpeg2video -b:v R -maxrate R -bufsize 1835008 -c:a mp2 -f mpegts NEW";

/// Which program of which file is refused, for what, where, and what helps.
pub(crate) fn refused_source<R: Files + AllocGlobal>(
    rt: &R,
    end: &End<'_>,
    line: &Value,
) -> Result<String, AllocError> {
    match end.word(0) {
        "probe" => return refused_alone(rt, end, NamedProgram::of_probe(end), line),
        "audit" => return refused_alone(rt, end, NamedProgram::of_audit(end), line),
        _ => {}
    }
    match job_table(rt, end.word(1)) {
        Some(table) => {
            let program = NamedProgram::of_job(&table, number(line, "program"));
            refused_of_job(rt, end, program, line)
        }
        None => refused_of_job(rt, end, None, line),
    }
}

/// That the program which the words name is refused.
fn refused_alone<R: Files + AllocGlobal>(
    rt: &R,
    end: &End<'_>,
    program: Option<NamedProgram<'_>>,
    line: &Value,
) -> Result<String, AllocError> {
    let of = format!(in rt.alloc(); "program {} of {}", end.word(2), end.word(1))?;
    refused_in(rt, of.as_str(), program, line)
}

/// Which program of a job is refused.
fn refused_of_job<R: Files + AllocGlobal>(
    rt: &R,
    end: &End<'_>,
    program: Option<NamedProgram<'_>>,
    line: &Value,
) -> Result<String, AllocError> {
    let of = format!(in rt.alloc();
        "{file}, program {number} (from 0) of {job},",
        file = named_file(program),
        number = number(line, "program"),
        job = end.word(1)
    )?;
    refused_in(rt, of.as_str(), program, line)
}

/// The file of a program.
fn named_file<'a>(program: Option<NamedProgram<'a>>) -> &'a str {
    match program {
        Some(program) => program.file,
        None => "FILE",
    }
}

/// The form of that file.
fn named_form(program: Option<NamedProgram<'_>>) -> Form {
    match program {
        Some(program) => program.form,
        None => Form::Ts,
    }
}

/// What is wrong with a program, where, and what helps.
fn refused_in<R: Files + AllocGlobal>(
    rt: &R,
    of: &str,
    program: Option<NamedProgram<'_>>,
    line: &Value,
) -> Result<String, AllocError> {
    let alloc = rt.alloc();
    let name = text(line, "kind");
    let at = number(line, "at");
    let form = named_form(program);
    match kind_of(name, form) {
        None => { format!(in alloc; "{of} is refused: {name} at byte {at} (docs/REFUSALS.md)") }
        Some(kind) => {
            let place = place(rt, kind.place, program, at)?;
            let help = match kind.help {
                Help::Shorter => limits_in_words(rt, program)?,
                other => help(alloc, other, named_file(program), form, at)?,
            };
            format!(in alloc;
                "{of} is refused: {what} ({name}{place}); {help}",
                what = kind.what
            )
        }
    }
}

/// Where it is wrong: the byte, and in a transport stream also the packet and how long after the file's first clock it comes. Of a byte
/// of its video or audio it is the packet that carries it, where it can be told which stream that is.
fn place<R: Files + AllocGlobal>(
    rt: &R,
    place: Place,
    program: Option<NamedProgram<'_>>,
    at: u64,
) -> Result<String, AllocError> {
    let alloc = rt.alloc();
    match place {
        Place::Nowhere => Ok(String::new(alloc)),
        Place::Video => place_in_video(rt, program, at),
        Place::Audio => place_in_audio(rt, program, at),
        Place::Stream => format!(in alloc; " at byte {at} of its video or an audio stream"),
        Place::File => match named_form(program) {
            Form::Ps => format!(in alloc; " at byte {at}"),
            Form::Ts => {
                let packet = packet_in_words(rt, named_file(program), at)?;
                format!(in alloc; " at byte {at}, {packet}")
            }
        },
    }
}

/// Where a byte of the video stands.
fn place_in_video<R: Files + AllocGlobal>(
    rt: &R,
    program: Option<NamedProgram<'_>>,
    at: u64,
) -> Result<String, AllocError> {
    let Some(program) = program else {
        return format!(in rt.alloc(); " at byte {at} of its video");
    };
    if let Form::Ps = program.form {
        return place_in_elements(rt, "its video", &program, true, at);
    }
    place_in_stream(rt, "its video", &program, program.video(rt), at)
}

/// Where a byte of an audio stream stands: of the one that reading again shows to be refused there, or of the only one.
fn place_in_audio<R: Files + AllocGlobal>(
    rt: &R,
    program: Option<NamedProgram<'_>>,
    at: u64,
) -> Result<String, AllocError> {
    let Some(program) = program else {
        return format!(in rt.alloc(); " at byte {at} of an audio stream");
    };
    if let Form::Ps = program.form {
        return place_in_elements(rt, "an audio stream", &program, false, at);
    }
    let Some(stream) = refused_audio(rt, &program, at) else {
        return place_in_stream(rt, "an audio stream", &program, program.only_audio(rt), at);
    };
    let name = format!(in rt.alloc(); "its audio stream on PID {}", stream.pid)?;
    place_in_stream(rt, name.as_str(), &program, Some(stream), at)
}

/// Where a byte of a stream stands: in which PES packet of the stream, and which packet of the file, where the file tells.
fn place_in_stream<R: Files + AllocGlobal>(
    rt: &R,
    name: &str,
    program: &NamedProgram<'_>,
    stream: Option<StreamPid>,
    at: u64,
) -> Result<String, AllocError> {
    let alloc = rt.alloc();
    let plain = format!(in alloc; " at byte {at} of {name}")?;
    let Some(stream) = stream else {
        return Ok(plain);
    };
    let Some(carrier) = carrier_of(rt, program.file, stream, at) else {
        return Ok(plain);
    };
    let packet = packet_in_words(rt, program.file, carrier.at)?;
    format!(in alloc;
        "{plain}, PES packet {pes} from 0; in the file byte {byte}, {packet}",
        pes = carrier.pes,
        byte = carrier.at
    )
}

/// The same in a program stream, of the video or of the only audio stream.
fn place_in_elements<R: Files + AllocGlobal>(
    rt: &R,
    name: &str,
    program: &NamedProgram<'_>,
    is_video: bool,
    at: u64,
) -> Result<String, AllocError> {
    match element_of(rt, program, is_video, at) {
        Some(carrier) => format!(in rt.alloc();
            " at byte {at} of {name}, PES packet {pes} from 0; in the file byte {byte}",
            pes = carrier.pes,
            byte = carrier.at
        ),
        None => format!(in rt.alloc(); " at byte {at} of {name}"),
    }
}

/// The packet of a file that begins at a byte, and how long after the file's first clock it comes, where that is told.
fn packet_in_words<R: Files + AllocGlobal>(
    rt: &R,
    file: &str,
    at: u64,
) -> Result<String, AllocError> {
    let alloc = rt.alloc();
    let packet = at / PACKET_BYTES as u64;
    match ticks_before(rt, file, at) {
        Some(ticks) => format!(in alloc;
            "packet {packet} from 0, {time} s behind the file's first clock",
            time = Seconds { ticks }
        ),
        None => format!(in alloc; "packet {packet} from 0"),
    }
}

/// What helps, with the command where there is one.
fn help(alloc: Global, help: Help, file: &str, form: Form, at: u64) -> Result<String, AllocError> {
    match help {
        Help::Packets => format!(in alloc;
            "is it a program stream of MPEG-2? A transport stream wants no `form`, and `ffmpeg -i {file} -map 0 -c copy -f mpegts NEW` makes one of it"
        ),
        Help::OtherForm => format!(in alloc;
            "if it is a program stream, a job reads it with `form = \"ps\"`; else write it anew as packets of 188 bytes: \
             `ffmpeg -i {file} -map 0 -c copy -f mpegts NEW`"
        ),
        Help::Rewrite => format!(in alloc;
            "write it anew as packets of 188 bytes: `ffmpeg -i {file} -map 0 -c copy -f mpegts NEW`"
        ),
        Help::Splice => cut(alloc, file, at, at),
        Help::Cut => cut_loss(alloc, file, at, at),
        Help::CutOut => cut_loss(alloc, file, at, at.saturating_add(PACKET_BYTES as u64)),
        Help::Number => format!(in alloc;
            "`program` of a job and PROGRAM of `probe` and `audit` are the program_number in the file: `ffprobe {file}` shows each as \"Program\""
        ),
        Help::Recode => format!(in alloc; "code it anew: `ffmpeg -i {file} {CODE}`"),
        Help::RecodeAudio => format!(in alloc;
            "name its {pid} in `drop` of the job, or code it anew: `ffmpeg -i {file} -map 0 -c:v copy -c:a mp2 -af aresample=async=1 -f mpegts NEW`",
            pid = stream_number(form)
        ),
        Help::Times => format!(in alloc;
            "let its times be made anew: `ffmpeg -fflags +genpts -i {file} -map 0 -c copy -f mpegts NEW`, and for audio \
             `-c:a mp2 -af aresample=async=1`"
        ),
        _ => String::from_str(alloc, advice(help)),
    }
}

/// By what a job names a stream of a file.
fn stream_number(form: Form) -> &'static str {
    match form {
        Form::Ts => "PID",
        Form::Ps => "stream id",
    }
}

/// What helps without a command.
fn advice(help: Help) -> &'static str {
    match help {
        Help::OtherFile => "is it the right file, and a transport stream?",
        Help::NumberOne => "name `program = 1`",
        Help::Descramble => "descramble it first",
        Help::Drop => "name audio streams in `drop` of the job",
        Help::Broken =>
            "the recording is broken there, or cut: take another, or cut it before the place",
        Help::CutFrame => "cut it at a whole frame",
        _ => "docs/REFUSALS.md tells what helps",
    }
}

/// How to cut a file where packets are lost or wrong: what is gone can't be copied.
fn cut_loss(alloc: Global, file: &str, at: u64, behind: u64) -> Result<String, AllocError> {
    let cut = cut(alloc, file, at, behind)?;
    format!(in alloc; "copying doesn't help: {cut}")
}

/// How to cut a file before a place and behind it.
fn cut(alloc: Global, file: &str, at: u64, behind: u64) -> Result<String, AllocError> {
    let first = behind.saturating_add(1);
    format!(in alloc;
        "cut there, `head -c {at} {file} > FRONT` is what stands before it, `tail -c +{first} {file} > REST` what comes behind"
    )
}
