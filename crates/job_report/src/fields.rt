//! The fields of a table: each with what is wrong with it, or its value.
#![tactic(auto, using(crate::proofs::FieldLaws::not_there))]

ghost use Rattle.std.specs.Prelude.{◌≡◌, ◌≤◌, Some, IfOk, IfErr, [], length, map, codes, option_map};
ghost use Rattle.toml.specs.Data.{string, get_member};
ghost use Rattle.toml.specs.View.{view, table_view};
ghost use Rattle.job_report.specs.Field.{required, optional_field, is_integer, is_between, is_text, is_some_text, is_table, is_array_of, are_numbers, are_coarser, has_between, is_new_number, form_text, is_form};
ghost use Rattle.job_report.specs.Refusal.{refusals_of_field, stated_tables, tables_among};
ghost use Rattle.job_report.specs.declared.job.Form.TheVariants.{Ts};
ghost use Rattle.job_report.specs.Job.{integer_of, array_of, stated_or};
ghost use Rattle.job_report.specs.Private.Fault.{TellsFirst};
ghost use Rattle.job_report.specs.Private.Place.{place_text};

use crate::fault::JobFault;
use crate::job::{Form, ProgramJob};
use crate::limits::{COARSER_DEFAULT, COARSER_MOST, FIELD_NAME_MOST};
use crate::place::{Place, field_fault, wrong_fault};
use crate::values::{
    coarser_in, form_in, new_number_in, number_in, numbers_in, tables_in, text_in,
};
use arrayvec::ArrayVec;
use toml::{Table, Value};

/// What stands under a name.
fn stated<'a>(table: &'a Table, name: &str) -> Option<&'a Value>
    ensures { option_map (λ value. view value.now) result ≡ get_member name.now (table_view table.now) }
{
    table.get(name)
}

/// A number that must be there, from `least` to `most`.
pub(crate) fn required_number(
    table: &Table,
    place: Place,
    name: &str,
    least: u64,
    most: u64,
) -> Result<u64, JobFault>
    requires { length name.now ≤ FIELD_NAME_MOST }
    ensures right { IfOk result (λ n. refusals_of_field (place_text place) (table_view table.now) (required name.now is_integer (is_between least most)) ≡ []) }
    ensures number { IfOk result (λ n. get_member name.now (table_view table.now) ≡ Some (integer_of n)) }
    ensures within { IfOk result (λ n. (least ≤ n) × (n ≤ most)) }
    ensures wrong { IfErr result (TellsFirst (refusals_of_field (place_text place) (table_view table.now) (required name.now is_integer (is_between least most)))) }
{
    match stated(table, name) {
        None => Err(field_fault(place, name)),
        Some(value) => match number_in(value, least, most) {
            Ok(number) => Ok(number),
            Err(wrong) => Err(wrong_fault(place, name, wrong)),
        },
    }
}

/// A number that may be left out, from `least` to `most`.
pub(crate) fn optional_number(
    table: &Table,
    place: Place,
    name: &str,
    default: u64,
    least: u64,
    most: u64,
) -> Result<u64, JobFault>
    requires short { length name.now ≤ FIELD_NAME_MOST }
    requires default_least { least ≤ default }
    requires default_most { default ≤ most }
    ensures right { IfOk result (λ n. refusals_of_field (place_text place) (table_view table.now) (optional_field name.now is_integer (is_between least most)) ≡ []) }
    ensures number { IfOk result (λ n. stated_or (integer_of default) name.now (table_view table.now) ≡ integer_of n) }
    ensures within { IfOk result (λ n. (least ≤ n) × (n ≤ most)) }
    ensures wrong { IfErr result (TellsFirst (refusals_of_field (place_text place) (table_view table.now) (optional_field name.now is_integer (is_between least most)))) }
{
    match stated(table, name) {
        None => Ok(default),
        Some(value) => match number_in(value, least, most) {
            Ok(number) => Ok(number),
            Err(wrong) => Err(wrong_fault(place, name, wrong)),
        },
    }
}

/// A text that must be there and isn't empty.
pub(crate) fn required_text<'a>(
    table: &'a Table,
    place: Place,
    name: &str,
) -> Result<&'a str, JobFault>
    requires { length name.now ≤ FIELD_NAME_MOST }
    ensures right { IfOk result (λ text. refusals_of_field (place_text place) (table_view table.now) (required name.now is_text is_some_text) ≡ []) }
    ensures text { IfOk result (λ text. get_member name.now (table_view table.now) ≡ Some (string text.now)) }
    ensures wrong { IfErr result (TellsFirst (refusals_of_field (place_text place) (table_view table.now) (required name.now is_text is_some_text))) }
{
    match stated(table, name) {
        None => Err(field_fault(place, name)),
        Some(value) => match text_in(value) {
            Ok(text) => Ok(text),
            Err(wrong) => Err(wrong_fault(place, name, wrong)),
        },
    }
}

/// Tables that must be there, `least` to `most` of them.
pub(crate) fn required_tables<'a>(
    table: &'a Table,
    place: Place,
    name: &str,
    least: usize,
    most: usize,
) -> Result<&'a [Value], JobFault>
    requires { length name.now ≤ FIELD_NAME_MOST }
    ensures right { IfOk result (λ tables. refusals_of_field (place_text place) (table_view table.now) (required name.now (is_array_of is_table) (has_between least most)) ≡ []) }
    ensures tables { IfOk result (λ tables. stated_tables (get_member name.now (table_view table.now)) ≡ tables_among (map view tables.now)) }
    ensures few { IfOk result (λ tables. length tables.now ≤ most) }
    ensures wrong { IfErr result (TellsFirst (refusals_of_field (place_text place) (table_view table.now) (required name.now (is_array_of is_table) (has_between least most)))) }
{
    match stated(table, name) {
        None => Err(field_fault(place, name)),
        Some(value) => match tables_in(value, least, most) {
            Ok(tables) => Ok(tables),
            Err(wrong) => Err(wrong_fault(place, name, wrong)),
        },
    }
}

/// Numbers that may be left out, at most `COUNT`, each from `least` to `most`.
pub(crate) fn optional_numbers<const COUNT: usize>(
    table: &Table,
    place: Place,
    name: &str,
    default: &[u16],
    least: u16,
    most: u16,
) -> Result<ArrayVec<u16, COUNT>, JobFault>
    requires short { length name.now ≤ FIELD_NAME_MOST }
    requires default_few { length default.now ≤ COUNT }
    ensures right { IfOk result (λ numbers. refusals_of_field (place_text place) (table_view table.now) (optional_field name.now (is_array_of is_integer) (are_numbers COUNT least most)) ≡ []) }
    ensures numbers { IfOk result (λ numbers. stated_or (array_of default.now) name.now (table_view table.now) ≡ array_of numbers.items) }
    ensures wrong { IfErr result (TellsFirst (refusals_of_field (place_text place) (table_view table.now) (optional_field name.now (is_array_of is_integer) (are_numbers COUNT least most)))) }
{
    match stated(table, name) {
        None => Ok(copied(default)),
        Some(value) => match numbers_in(value, least, most) {
            Ok(numbers) => Ok(numbers),
            Err(wrong) => Err(wrong_fault(place, name, wrong)),
        },
    }
}

/// How coarse a program's versions are, which may be left out.
pub(crate) fn optional_coarser(
    table: &Table,
    place: Place,
) -> Result<ArrayVec<u16, COARSER_MOST>, JobFault>
    ensures right { IfOk result (λ numbers. refusals_of_field (place_text place) (table_view table.now) (optional_field (codes "coarser") (is_array_of is_integer) are_coarser) ≡ []) }
    ensures numbers { IfOk result (λ numbers. stated_or (array_of COARSER_DEFAULT) (codes "coarser") (table_view table.now) ≡ array_of numbers.items) }
    ensures wrong { IfErr result (TellsFirst (refusals_of_field (place_text place) (table_view table.now) (optional_field (codes "coarser") (is_array_of is_integer) are_coarser))) }
{
    match stated(table, "coarser") {
        None => Ok(copied(&COARSER_DEFAULT)),
        Some(value) => match coarser_in(value) {
            Ok(numbers) => Ok(numbers),
            Err(wrong) => Err(wrong_fault(place, "coarser", wrong)),
        },
    }
}

/// The form of a program's file, which may be left out.
pub(crate) fn optional_form(table: &Table, place: Place) -> Result<Form, JobFault>
    ensures right { IfOk result (λ form. refusals_of_field (place_text place) (table_view table.now) (optional_field (codes "form") is_text is_form) ≡ []) }
    ensures form { IfOk result (λ form. stated_or (string (form_text Ts)) (codes "form") (table_view table.now) ≡ string (form_text form)) }
    ensures wrong { IfErr result (TellsFirst (refusals_of_field (place_text place) (table_view table.now) (optional_field (codes "form") is_text is_form))) }
{
    match stated(table, "form") {
        None => Ok(Form::Ts),
        Some(value) => match form_in(value) {
            Ok(form) => Ok(form),
            Err(wrong) => Err(wrong_fault(place, "form", wrong)),
        },
    }
}

/// The number of a program in the output, which none of the programs before has.
pub(crate) fn required_new_number(
    table: &Table,
    place: Place,
    before: &[ProgramJob],
) -> Result<u16, JobFault>
    ensures right { IfOk result (λ n. refusals_of_field (place_text place) (table_view table.now) (required (codes "number") is_integer (is_new_number (map (λ program. program.number) before.now))) ≡ []) }
    ensures number { IfOk result (λ n. get_member (codes "number") (table_view table.now) ≡ Some (integer_of n)) }
    ensures wrong { IfErr result (TellsFirst (refusals_of_field (place_text place) (table_view table.now) (required (codes "number") is_integer (is_new_number (map (λ program. program.number) before.now))))) }
{
    match stated(table, "number") {
        None => Err(field_fault(place, "number")),
        Some(value) => match new_number_in(value, before) {
            Ok(number) => Ok(number),
            Err(wrong) => Err(wrong_fault(place, "number", wrong)),
        },
    }
}

/// Numbers in a list of their own.
pub(crate) fn copied<const COUNT: usize>(numbers: &[u16]) -> ArrayVec<u16, COUNT>
    requires { length numbers.now ≤ COUNT }
    ensures { result.items ≡ numbers.now }
{
    let mut copy = ArrayVec::new();
    for number in numbers {
        copy.push(*number);
    }
    copy
}
