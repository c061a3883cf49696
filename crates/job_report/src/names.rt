//! The names in a table.

ghost use Rattle.std.specs.Prelude.{◌≡◌, List, ℕ, [], OnOk, IfErr};
ghost use Rattle.std.specs.List.{list_any, list_all};
ghost use Rattle.std.specs.Str.{bytes_eq};
ghost use Rattle.toml.specs.View.{table_view};
ghost use Rattle.job_report.specs.Field.{job_fields, program_fields};
ghost use Rattle.job_report.specs.Refusal.{names_in, refusals_of_names};
ghost use Rattle.job_report.specs.Private.Fault.{TellsFirst};
ghost use Rattle.job_report.specs.Private.Place.{place_text};

use crate::fault::JobFault;
use crate::place::{Place, field_fault};
use toml::Table;

/// The names of a job's own fields.
const JOB_NAMES: [&str; 6] = [
    "slot",
    "start",
    "stream_id",
    "nodes",
    "evaluations",
    "program",
];

/// The names of a program's fields.
const PROGRAM_NAMES: [&str; 8] = [
    "file", "program", "number", "weight", "coarser", "drift", "drop", "form",
];

/// What a refusal names where a table has a name that is none of these.
const UNKNOWN: &str = "unknown";

/// Whether a name is one of these.
pub(crate) fn is_among(name: &str, names: &[&str]) -> bool
    ensures { result ≡ list_any (λ other. bytes_eq name.now other.now) names.now }
{
    names.iter().any(|other| name == *other)
}

/// Whether each name in a table is one of these.
fn has_only(table: &Table, names: &[&str]) -> bool
    ensures { result ≡ list_all (λ name. list_any (λ other. bytes_eq name other.now) names.now) (names_in (table_view table.now)) }
{
    for name in table.keys() {
        if !is_among(name.as_str(), names) {
            return false;
        }
    }
    true
}

/// Refuses a job's own name that is none of its fields'.
#[tactic(auto, unfolding(crate::specs::Refusal::refusals_of_names))]
pub(crate) fn check_job_names(table: &Table) -> Result<(), JobFault>
    ensures right { OnOk result (refusals_of_names [] (table_view table.now) job_fields ≡ []) }
    ensures wrong { IfErr result (TellsFirst (refusals_of_names [] (table_view table.now) job_fields)) }
{
    if has_only(table, &JOB_NAMES) {
        Ok(())
    } else {
        Err(field_fault(Place::Job, UNKNOWN))
    }
}

/// Refuses a program's name that is none of its fields'.
#[tactic(auto, unfolding(crate::specs::Refusal::refusals_of_names))]
pub(crate) fn check_program_names(table: &Table, place: Place) -> Result<(), JobFault>
    ensures right { OnOk result ((taken : List ℕ) → refusals_of_names (place_text place) (table_view table.now) (program_fields taken) ≡ []) }
    ensures wrong { IfErr result (λ fault. (taken : List ℕ) → TellsFirst (refusals_of_names (place_text place) (table_view table.now) (program_fields taken)) fault) }
{
    if has_only(table, &PROGRAM_NAMES) {
        Ok(())
    } else {
        Err(field_fault(place, UNKNOWN))
    }
}
