//! The programs that a command names, and the streams that their files have for them.

use crate::carrier::{StreamPid, packet_buffer};
use crate::job_again::{form_of, integer};
use crate::line::End;
use arrayvec::ArrayVec;
use job_report::Form;
use job_report::limits::{PROBE_SLOT, START_DEFAULT};
use psi_tables::{STREAMS_MOST, Stream};
use shelf_io::{Reading, read_file};
use shelf_kinds::FileShelf;
use std::alloc::Global;
use std::rt::Files;
use stream_audit::AUDITED_BYTES_MOST;
use toml::{Table, Value};
use ts_demux::{find_map, read_map};

/// `stream_type` of the video that is carried (ISO/IEC 13818-2).
const VIDEO: u8 = 0x02;

/// The values of `stream_type` of the audio that is carried (ISO/IEC 11172-3 and 13818-3).
const AUDIO: [u8; 2] = [0x03, 0x04];

/// A program of a file, as a job or the words of `probe` or `audit` name it.
#[derive(Clone, Copy)]
pub(crate) struct NamedProgram<'a> {
    pub(crate) file: &'a str,
    /// The form of that file.
    pub(crate) form: Form,
    /// Its program_number in the file.
    number: u16,
    /// The PIDs of audio streams that aren't carried.
    drop: &'a [Value],
    /// Ticks of a slot, and of the time before the first picture is due.
    pub(crate) slot: u64,
    pub(crate) start: u64,
}

impl<'a> NamedProgram<'a> {
    /// The program that the words of `probe` name.
    pub(crate) fn of_probe(end: &End<'a>) -> Option<NamedProgram<'a>> {
        let number = end.word(2).parse::<u16>().ok()?;
        Some(NamedProgram {
            file: end.word(1),
            form: Form::Ts,
            number,
            drop: &[],
            slot: u64::from(PROBE_SLOT),
            start: START_DEFAULT,
        })
    }

    /// The program that the words of `audit` name, in their slots.
    pub(crate) fn of_audit(end: &End<'a>) -> Option<NamedProgram<'a>> {
        let slot = end.word(3).parse::<u64>().ok()?;
        let program = NamedProgram::of_probe(end)?;
        Some(NamedProgram { slot, ..program })
    }

    /// A program of a job, counted from 0.
    pub(crate) fn of_job(table: &'a Table, program: u64) -> Option<NamedProgram<'a>> {
        let form = form_of(table, program);
        let programs = table.get("program").and_then(Value::as_array)?;
        let program = programs.get(program as usize)?;
        let number = program.get("program").and_then(Value::as_integer)?;
        let drop = match program.get("drop").and_then(Value::as_array) {
            Some(drop) => drop.as_slice(),
            None => &[],
        };
        Some(NamedProgram {
            file: program.get("file").and_then(Value::as_str)?,
            form,
            number: u16::try_from(number).ok()?,
            drop,
            slot: integer(table, "slot", 0),
            start: integer(table, "start", START_DEFAULT),
        })
    }

    /// The streams of the program that are carried, the video first; none where its file is no transport stream that tells them.
    pub(crate) fn streams<R: Files + AllocGlobal>(
        &self,
        rt: &R,
    ) -> Option<ArrayVec<StreamPid, STREAMS_MOST>> {
        if let Form::Ps = self.form {
            return None;
        }
        let mut shelf = FileShelf::new(rt);
        let mut source = Reading::new(&mut shelf, self.file);
        let mut packets = packet_buffer(rt.alloc())?;
        let map = read_map(&mut packets, &mut source, self.number).ok()?;
        let mut pids = ArrayVec::new();
        let video = map
            .streams
            .as_slice()
            .iter()
            .find(|stream| stream.kind == VIDEO)?;
        add_pid(&mut pids, video.pid, true);
        for stream in map.streams.as_slice() {
            if self.carries(stream) {
                add_pid(&mut pids, stream.pid, false);
            }
        }
        Some(pids)
    }

    /// The PID of its map; none where its file can't be read or tells none.
    pub(crate) fn map_pid<R: Files + AllocGlobal>(&self, rt: &R) -> Option<u16> {
        let mut shelf = FileShelf::new(rt);
        let most = AUDITED_BYTES_MOST as u64;
        let file = read_file(rt.alloc(), &mut shelf, self.file, most).ok()?;
        Some(find_map(file.as_slice(), self.number).ok()?.pid)
    }

    /// The stream ids of a program stream's audio streams that aren't carried; none where memory is wanting.
    pub(crate) fn dropped_ids(&self, alloc: Global) -> Option<Vec<u16>> {
        let mut ids = Vec::new(alloc);
        for id in self.drop {
            ids.push(u16::try_from(id.as_integer()?).ok()?).ok()?;
        }
        Some(ids)
    }

    /// Its video.
    pub(crate) fn video<R: Files + AllocGlobal>(&self, rt: &R) -> Option<StreamPid> {
        self.streams(rt)?.as_slice().first().copied()
    }

    /// Its audio stream, where it has one alone.
    pub(crate) fn only_audio<R: Files + AllocGlobal>(&self, rt: &R) -> Option<StreamPid> {
        match self.streams(rt)?.as_slice() {
            [_, audio] => Some(*audio),
            _ => None,
        }
    }

    /// Whether an audio stream of the program is carried.
    fn carries(&self, stream: &Stream) -> bool {
        for pid in self.drop {
            if pid.as_integer() == Some(i64::from(stream.pid)) {
                return false;
            }
        }
        AUDIO.contains(&stream.kind)
    }
}

/// Adds a stream, where its PID isn't there yet and there is room.
fn add_pid(pids: &mut ArrayVec<StreamPid, STREAMS_MOST>, pid: u16, is_video: bool) {
    for other in pids.as_slice() {
        if other.pid == pid {
            return;
        }
    }
    if !pids.is_full() {
        pids.push(StreamPid { pid, is_video });
    }
}
