ghost use Rattle.std.specs.Prelude.{◌≡◌, ◌≤◌, All, length};
ghost use Rattle.version_table.specs.declared.limits.TheConstants.{PROGRAMS_MOST};
ghost use Rattle.mux_writer.specs.Layout.{IsLayout};
ghost use Rattle.job_stream.specs.Private.Outgoing.{CanGoOut};
ghost use Rattle.job_stream.specs.Stream.{layout_of};

use arrayvec::ArrayVec;
use job_report::Job;
use mux_writer::Layout;
use program_reader::Program;
use psi_tables::{ProgramMap, Stream};
use version_table::limits::PROGRAMS_MOST;

/// What the programs of a job's stream are.
pub(crate) fn layout_of(job: &Job, programs: &[Program]) -> Layout
    requires as_many { length job.now.programs ≡ length programs.now }
    requires few { length programs.now ≤ PROGRAMS_MOST }
    requires out { All CanGoOut programs.now }
    ensures layout { IsLayout result }
    ensures value { result ≡ layout_of job.now programs.now }
{
    let mut layout = Layout::new(job.stream_id);
    let jobs = job.programs.as_slice();
    for i in 0..programs.len() {
        let program = &programs[i];
        let number = jobs[i].number;
        layout.push(number, copied_map(&program.map), program.base);
    }
    layout
}

/// A map of its own that says the same.
fn copied_map(map: &ProgramMap) -> ProgramMap
    ensures { result ≡ map.now }
{
    let mut streams = ArrayVec::new();
    let kept = map.streams.as_slice();
    for stream in kept {
        streams.push(copied_stream(stream));
    }
    ProgramMap {
        number: map.number,
        pcr_pid: map.pcr_pid,
        streams,
        dropped: map.dropped,
    }
}

/// A stream of its own that says the same.
fn copied_stream(stream: &Stream) -> Stream
    ensures { result ≡ stream.now }
{
    let mut descriptors = ArrayVec::new();
    let kept = stream.descriptors.as_slice();
    for byte in kept {
        descriptors.push(*byte);
    }
    Stream {
        kind: stream.kind,
        pid: stream.pid,
        descriptors,
    }
}
