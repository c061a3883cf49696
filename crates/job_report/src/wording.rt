//! What is wrong with a job, and what is allowed there, for people. No contract rests on these words.

use crate::limits::{
    COARSENESS_LEAST, COARSENESS_MOST, COARSER_DEFAULT, COARSER_MOST, DRIFT_DEFAULT, DRIFT_MOST,
    DROP_MOST, EVALUATIONS_DEFAULT, JOB_TEXT_MOST, NAME_MOST, NODES_DEFAULT, NUMBER_MOST, PID_MOST,
    START_DEFAULT, START_MOST, STREAM_ID_DEFAULT, STREAM_ID_MOST, WEIGHT_DEFAULT, WEIGHT_MOST,
};
use arrayvec::ArrayString;
use std::fmt;
use version_table::limits::{EVALUATIONS_MOST, NODES_MOST, PROGRAMS_MOST, SLOT_LEAST, SLOT_MOST};

/// What is wrong with the field that a `JobField` names.
pub(crate) fn field_trouble(name: &ArrayString<NAME_MOST>) -> &'static str {
    if name.as_str().ends_with("unknown") {
        "is no field"
    } else {
        "is missing or of another type"
    }
}

/// What is allowed in the field of this name, as refusals print it.
#[derive(Clone, Copy)]
pub(crate) struct Allowed<'a> {
    name: &'a str,
}

impl<'a> Allowed<'a> {
    /// What is allowed in the field of this name.
    pub(crate) fn of(name: &'a ArrayString<NAME_MOST>) -> Allowed<'a> {
        Allowed {
            name: name.as_str(),
        }
    }
}

impl fmt::Display for Allowed<'_> {
    fn fmt<W: fmt::Write>(&self, f: &mut fmt::Formatter<W>) -> fmt::Result {
        match self.name.split_once("].") {
            Some((_program, field)) => write_program_field(f, field),
            None => write_job_field(f, self.name),
        }
    }
}

/// What is allowed in a job's own field.
fn write_job_field<W: fmt::Write>(f: &mut fmt::Formatter<W>, field: &str) -> fmt::Result {
    match field {
        "slot" => write!(
            f,
            "a whole number of ticks from {SLOT_LEAST} to {SLOT_MOST}, required"
        ),
        "start" => write!(
            f,
            "a whole number of ticks from 0 to {START_MOST}, by default {START_DEFAULT}"
        ),
        "stream_id" => write!(
            f,
            "a whole number from 0 to {STREAM_ID_MOST}, by default {STREAM_ID_DEFAULT}"
        ),
        "nodes" => write!(
            f,
            "a whole number from 1 to {NODES_MOST}, by default {NODES_DEFAULT}"
        ),
        "evaluations" => write!(
            f,
            "a whole number from 0 to {EVALUATIONS_MOST}, by default {EVALUATIONS_DEFAULT}"
        ),
        "program" => write!(f, "1 to {PROGRAMS_MOST} tables [[program]], required"),
        "bytes" => write!(f, "at most {JOB_TEXT_MOST} bytes of text"),
        _ => f.write_str("slot, start, stream_id, nodes, evaluations and program"),
    }
}

/// What is allowed in a program's field.
fn write_program_field<W: fmt::Write>(f: &mut fmt::Formatter<W>, field: &str) -> fmt::Result {
    match field {
        "file" => f.write_str(
            "a text that isn't empty and is no other file of the command, required",
        ),
        "program" => write!(f, "a whole number from 1 to {NUMBER_MOST}, required"),
        "number" => write!(
            f,
            "a whole number from 1 to {NUMBER_MOST} that no program before has, required"
        ),
        "weight" => write!(
            f,
            "a whole number from 1 to {WEIGHT_MOST}, by default {WEIGHT_DEFAULT}"
        ),
        "coarser" => write!(
            f,
            "at most {COARSER_MOST} whole numbers from {COARSENESS_LEAST} to {COARSENESS_MOST} that rise, by default {COARSER_DEFAULT:?}"
        ),
        "drift" => write!(
            f,
            "a whole number from 0 to {DRIFT_MOST}, by default {DRIFT_DEFAULT}"
        ),
        "drop" => write!(
            f,
            "at most {DROP_MOST} PIDs, of a program stream stream ids, from 0 to {PID_MOST}, by default none"
        ),
        "form" => f.write_str(
            "\"ts\" for a transport stream or \"ps\" for a program stream, by default \"ts\"",
        ),
        _ => f.write_str("file, program, number, weight, coarser, drift, drop and form"),
    }
}
