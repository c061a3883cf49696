//! The stream types of the audio streams of a program stream (ISO/IEC 13818-1, Table 2-34).
ghost use Rattle.std.specs.Prelude.{◌≡◌, ◌≤◌, length, map};
ghost use Rattle.elementary_streams.specs.Audio.{audio_type};
ghost use Rattle.program_reader.specs.AudioTypes.{with_audio_types, map_by_form};

use elementary_streams::ReadStream;
use job_report::Form;
use program_stream::map_stream;
use psi_tables::ProgramMap;
use stream_constants::limits::AUDIOS_MOST;
use ts_demux::AudioStream;

/// The map of streams that stand in a file of a form and are read: in that of a program stream each audio stream has the type of its first
/// frame.
pub fn map_by_form(
    form: Form,
    program_map: ProgramMap,
    audios: &[AudioStream],
    read: &[ReadStream],
) -> ProgramMap
    requires few { length audios.now ≤ AUDIOS_MOST }
    requires types { map (λ one. one.kind) read.now ≡ map audio_type audios.now }
    ensures { result ≡ map_by_form form program_map audios.now }
{
    match form {
        Form::Ts => program_map,
        Form::Ps => with_audio_types(program_map, audios, read),
    }
}

/// A map in which audio streams stand behind the video, each with its type.
fn with_audio_types(
    program_map: ProgramMap,
    audios: &[AudioStream],
    read: &[ReadStream],
) -> ProgramMap
    requires few { length audios.now ≤ AUDIOS_MOST }
    requires types { map (λ one. one.kind) read.now ≡ map audio_type audios.now }
    ensures { result ≡ with_audio_types program_map audios.now }
{
    let ProgramMap {
        number,
        pcr_pid,
        streams: mut streams,
        dropped,
    } = program_map;
    streams.truncate(1);
    for at in 0..audios.len() {
        streams.push(map_stream(read[at].kind, audios[at].pid));
    }
    ProgramMap {
        number,
        pcr_pid,
        streams,
        dropped,
    }
}
