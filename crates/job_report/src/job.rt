ghost use Rattle.std.specs.Prelude.{◌≡◌, ◌≤◌, [], length};
ghost use Rattle.job_report.specs.declared.job.Form.TheVariants.{Ts};
ghost use Rattle.job_report.specs.ValidJob.{IsValidProgramJob};

use crate::fields::copied;
use crate::limits::{
    COARSER_DEFAULT, COARSER_MOST, DRIFT_DEFAULT, DROP_MOST, EVALUATIONS_DEFAULT, NODES_DEFAULT,
    START_DEFAULT, STREAM_ID_DEFAULT, WEIGHT_DEFAULT,
};
use arrayvec::ArrayVec;
use list_types::{ListOf, Text};

/// The form of a file that holds a program (ISO/IEC 13818-1).
#[derive(Clone, Copy, Debug, PartialEq, Eq)]
pub enum Form {
    /// A transport stream (2.4).
    Ts,
    /// A program stream (2.5).
    Ps,
}

/// One program of a job.
#[derive(Drop)]
pub struct ProgramJob {
    /// The name of the file that holds it.
    pub file: Text,
    /// Its program_number in that file.
    pub program: u16,
    /// Its program_number in the output.
    pub number: u16,
    /// What its distortions count.
    pub weight: u8,
    /// How coarse its versions are, in sixteenths of the source's quantiser scale.
    pub coarser: ArrayVec<u16, COARSER_MOST>,
    /// How much more the distortions of a picture count for each coded frame with a P picture that is predicted from it; 0 where
    /// all count alike.
    pub drift: u8,
    /// Audio streams that aren't carried: their PIDs in a transport stream, their stream ids in a program stream.
    pub drop: ArrayVec<u16, DROP_MOST>,
    /// The form of its file.
    pub form: Form,
}

impl ProgramJob {
    /// A program with the default in each field that a text may leave out.
    pub fn new(file: Text, program: u16, number: u16) -> ProgramJob
        ensures file { result.file ≡ file }
        ensures program { result.program ≡ program }
        ensures number { result.number ≡ number }
        ensures weight { result.weight ≡ WEIGHT_DEFAULT }
        ensures coarser { result.coarser.items ≡ COARSER_DEFAULT }
        ensures drift { result.drift ≡ DRIFT_DEFAULT }
        ensures drop { result.drop.items ≡ [] }
        ensures form { result.form ≡ Ts }

        // The defaults are within the limits.
        ensures valid { 1 ≤ length file → 1 ≤ program → 1 ≤ number → IsValidProgramJob result }
    {
        ProgramJob {
            file,
            program,
            number,
            weight: WEIGHT_DEFAULT,
            coarser: copied(&COARSER_DEFAULT),
            drift: DRIFT_DEFAULT,
            drop: ArrayVec::new(),
            form: Form::Ts,
        }
    }
}

/// What a run is to do.
#[derive(Drop)]
pub struct Job {
    /// Ticks of a packet slot.
    pub slot: u32,
    /// When the earliest time of each program is due, in ticks.
    pub start: u64,
    /// The transport_stream_id of the output.
    pub stream_id: u16,
    /// Nodes that the search may use.
    pub nodes: u32,
    /// Runs of the slot rule that the search may spend on single changes.
    pub evaluations: u32,
    /// The programs in order.
    pub programs: ListOf<ProgramJob>,
}

impl Job {
    /// A job with the default in each field that a text may leave out.
    pub fn new(slot: u32, programs: ListOf<ProgramJob>) -> Job
        ensures slot { result.slot ≡ slot }
        ensures start { result.start ≡ START_DEFAULT }
        ensures stream_id { result.stream_id ≡ STREAM_ID_DEFAULT }
        ensures nodes { result.nodes ≡ NODES_DEFAULT }
        ensures evaluations { result.evaluations ≡ EVALUATIONS_DEFAULT }
        ensures programs { result.programs ≡ programs }
    {
        Job {
            slot,
            start: START_DEFAULT,
            stream_id: STREAM_ID_DEFAULT,
            nodes: NODES_DEFAULT,
            evaluations: EVALUATIONS_DEFAULT,
            programs,
        }
    }
}
