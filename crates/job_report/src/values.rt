//! The values that stand in fields: which type they have, and whether they are in range.

ghost use Rattle.std.specs.Prelude.{◌≡◌, ◌≤◌, ◌==◌, ◌&&◌, Bool, nat_le, true, false, map, length, IfOk, IfErr, IfSome, IfNone};
ghost use Rattle.std.specs.List.{list_all, list_any};
ghost use Rattle.toml.specs.Data.{Data, string, array};
ghost use Rattle.toml.specs.View.{view, items_view};
ghost use Rattle.job_report.specs.Field.{is_integer, is_between, is_text, is_some_text, is_table, is_array_of, are_numbers, are_coarser, has_between, is_new_number, rises, values_in, form_text, is_form};
ghost use Rattle.job_report.specs.Job.{integer_of, array_of};
ghost use Rattle.job_report.specs.Private.Value.{IsRight, IsWrong};

use crate::job::{Form, ProgramJob};
use crate::limits::{COARSENESS_LEAST, COARSENESS_MOST, COARSER_MOST, NUMBER_MOST};
use arrayvec::ArrayVec;
use toml::Value;

/// What is wrong with a value.
#[derive(Clone, Copy)]
pub(crate) enum Wrong {
    /// It has another type.
    OtherType,
    /// It has the type and is out of range.
    OutOfRange,
}

/// The number of a value, from `least` to `most`.
pub(crate) fn number_in(value: &Value, least: u64, most: u64) -> Result<u64, Wrong>
    ensures number { IfOk result (λ n. view value.now ≡ integer_of n) }
    ensures within { IfOk result (λ n. (least ≤ n) × (n ≤ most)) }
    ensures right { IfOk result (λ n. IsRight is_integer (is_between least most) (view value.now)) }
    ensures wrong { IfErr result (IsWrong is_integer (is_between least most) (view value.now)) }
{
    let Some(stated) = value.as_integer() else {
        return Err(Wrong::OtherType);
    };
    if stated < 0 {
        return Err(Wrong::OutOfRange);
    }
    let number = stated as u64;
    if number < least || most < number {
        return Err(Wrong::OutOfRange);
    }
    Ok(number)
}

/// The text of a value, which is not empty.
pub(crate) fn text_in(value: &Value) -> Result<&str, Wrong>
    ensures text { IfOk result (λ text. view value.now ≡ string text.now) }
    ensures right { IfOk result (λ text. IsRight is_text is_some_text (view value.now)) }
    ensures wrong { IfErr result (IsWrong is_text is_some_text (view value.now)) }
{
    let Some(text) = value.as_str() else {
        return Err(Wrong::OtherType);
    };
    if text.is_empty() {
        return Err(Wrong::OutOfRange);
    }
    Ok(text)
}

/// The values in an array.
fn values_of(value: &Value) -> Option<&[Value]>
    ensures values { IfSome result (λ values. values_in (view value.now) ≡ map view values.now) }
    ensures types { IfSome result (λ values. (has_type : Data → Bool) → is_array_of has_type (view value.now) ≡ list_all (λ value. has_type (view value)) values.now) }
    ensures is_array { IfSome result (λ values. view value.now ≡ array (items_view values.now)) }
    ensures none { IfNone result ((has_type : Data → Bool) → is_array_of has_type (view value.now) ≡ false) }
{
    match value.as_array() {
        Some(values) => Some(values.as_slice()),
        None => None,
    }
}

/// The numbers of a value, at most `COUNT`, each from `least` to `most`.
pub(crate) fn numbers_in<const COUNT: usize>(
    value: &Value,
    least: u16,
    most: u16,
) -> Result<ArrayVec<u16, COUNT>, Wrong>
    ensures numbers { IfOk result (λ numbers. view value.now ≡ array_of numbers.items) }
    ensures right { IfOk result (λ numbers. IsRight (is_array_of is_integer) (are_numbers COUNT least most) (view value.now)) }
    ensures wrong { IfErr result (IsWrong (is_array_of is_integer) (are_numbers COUNT least most) (view value.now)) }
{
    let Some(values) = values_of(value) else {
        return Err(Wrong::OtherType);
    };
    if !are_integers(values) {
        return Err(Wrong::OtherType);
    }
    match numbers_between(values, least, most) {
        Some(numbers) => Ok(numbers),
        None => Err(Wrong::OutOfRange),
    }
}

/// Whether all values are whole numbers.
fn are_integers(values: &[Value]) -> bool
    ensures { result ≡ list_all (λ value. is_integer (view value)) values.now }
{
    values.iter().all(|value| value.is_integer())
}

/// The numbers of values, if there are at most `COUNT`, each from `least` to `most`.
fn numbers_between<const COUNT: usize>(
    values: &[Value],
    least: u16,
    most: u16,
) -> Option<ArrayVec<u16, COUNT>>
    ensures numbers { IfSome result (λ numbers. map view values.now ≡ map integer_of numbers.items) }
    ensures few { IfSome result (λ numbers. length values.now ≤ COUNT) }
    ensures within { IfSome result (λ numbers. list_all (is_between least most) (map view values.now) ≡ true) }
    ensures none { IfNone result ((nat_le (length values.now) COUNT && list_all (is_between least most) (map view values.now)) ≡ false) }
{
    let mut numbers = ArrayVec::new();
    for value in values {
        if numbers.is_full() {
            return None;
        }
        match number_between(value, least, most) {
            Some(number) => numbers.push(number),
            None => return None,
        }
    }
    Some(numbers)
}

/// The number of a value, if it is one from `least` to `most`.
fn number_between(value: &Value, least: u16, most: u16) -> Option<u16>
    ensures number { IfSome result (λ n. view value.now ≡ integer_of n) }
    ensures within { IfSome result (λ n. is_between least most (view value.now) ≡ true) }
    ensures none { IfNone result (is_between least most (view value.now) ≡ false) }
{
    match number_in(value, least as u64, most as u64) {
        Ok(number) => Some(number as u16),
        Err(_wrong) => None,
    }
}

/// The values of an array that has tables alone, `least` to `most` of them.
pub(crate) fn tables_in(value: &Value, least: usize, most: usize) -> Result<&[Value], Wrong>
    ensures tables { IfOk result (λ tables. values_in (view value.now) ≡ map view tables.now) }
    ensures right { IfOk result (λ tables. IsRight (is_array_of is_table) (has_between least most) (view value.now)) }
    ensures few { IfOk result (λ tables. length tables.now ≤ most) }
    ensures wrong { IfErr result (IsWrong (is_array_of is_table) (has_between least most) (view value.now)) }
{
    let Some(values) = values_of(value) else {
        return Err(Wrong::OtherType);
    };
    if !are_tables(values) {
        return Err(Wrong::OtherType);
    }
    if values.len() < least || most < values.len() {
        return Err(Wrong::OutOfRange);
    }
    Ok(values)
}

/// Whether all values are tables.
fn are_tables(values: &[Value]) -> bool
    ensures { result ≡ list_all (λ value. is_table (view value)) values.now }
{
    values.iter().all(|value| value.is_table())
}

/// How coarse versions are: numbers that rise.
pub(crate) fn coarser_in(value: &Value) -> Result<ArrayVec<u16, COARSER_MOST>, Wrong>
    ensures numbers { IfOk result (λ numbers. view value.now ≡ array_of numbers.items) }
    ensures right { IfOk result (λ numbers. IsRight (is_array_of is_integer) are_coarser (view value.now)) }
    ensures wrong { IfErr result (IsWrong (is_array_of is_integer) are_coarser (view value.now)) }
{
    match numbers_in(value, COARSENESS_LEAST, COARSENESS_MOST) {
        Ok(numbers) => {
            if rise(numbers.as_slice()) {
                Ok(numbers)
            } else {
                Err(Wrong::OutOfRange)
            }
        }
        Err(wrong) => Err(wrong),
    }
}

/// The form of this text, if there is one.
fn form_of(text: &str) -> Option<Form>
    ensures form { IfSome result (λ form. text.now ≡ form_text form) }
    ensures none { IfNone result (is_form (string text.now) ≡ false) }
{
    if text == "ts" {
        Some(Form::Ts)
    } else if text == "ps" {
        Some(Form::Ps)
    } else {
        None
    }
}

/// The form of a value, which is its text.
pub(crate) fn form_in(value: &Value) -> Result<Form, Wrong>
    ensures form { IfOk result (λ form. view value.now ≡ string (form_text form)) }
    ensures right { IfOk result (λ form. IsRight is_text is_form (view value.now)) }
    ensures wrong { IfErr result (IsWrong is_text is_form (view value.now)) }
{
    let Some(text) = value.as_str() else {
        return Err(Wrong::OtherType);
    };
    match form_of(text) {
        Some(form) => Ok(form),
        None => Err(Wrong::OutOfRange),
    }
}

/// Whether each number is greater than the one before.
fn rise(numbers: &[u16]) -> bool
    ensures { result ≡ rises numbers.now }
{
    let mut rest = numbers;
    while let [first, second, ..] = rest {
        if first >= second {
            return false;
        }
        rest = &rest[1..];
    }
    true
}

/// The number of a program, which none of the programs before has.
pub(crate) fn new_number_in(value: &Value, before: &[ProgramJob]) -> Result<u16, Wrong>
    ensures number { IfOk result (λ n. view value.now ≡ integer_of n) }
    ensures right { IfOk result (λ n. IsRight is_integer (is_new_number (map (λ program. program.number) before.now)) (view value.now)) }
    ensures wrong { IfErr result (IsWrong is_integer (is_new_number (map (λ program. program.number) before.now)) (view value.now)) }
{
    match number_in(value, 1, NUMBER_MOST as u64) {
        Ok(stated) => {
            let number = stated as u16;
            if is_taken(number, before) {
                Err(Wrong::OutOfRange)
            } else {
                Ok(number)
            }
        }
        Err(wrong) => Err(wrong),
    }
}

/// Whether a program has this number.
fn is_taken(number: u16, programs: &[ProgramJob]) -> bool
    ensures { result ≡ list_any (λ program. program.number == number) programs.now }
{
    programs.iter().any(|program| program.number == number)
}
