//! Lists as JSON arrays. Each call fails only for want of memory.

ghost use Rattle.std.specs.Prelude.{◌≡◌, IfOk, map};
ghost use Rattle.serde_json.specs.Data.{array};
ghost use Rattle.serde_json.specs.View.{view, items_of};
ghost use Rattle.job_report.specs.Report as spec;
ghost use Rattle.job_report.specs.Report.{json_numbers};

use crate::objects::program_object;
use crate::report::ProgramReport;
use serde_json::Value;
use std::alloc::{AllocError, Global};

/// Version numbers.
pub(crate) fn versions(alloc: Global, numbers: &[u8]) -> Result<Value, AllocError>
    ensures { IfOk result (λ value. view value ≡ json_numbers numbers.now) }
{
    let mut items = Vec::with_capacity(alloc, numbers.len())?;
    for number in numbers {
        items.push(Value::from(*number))?;
    }
    Ok(Value::Array(items))
}

/// PIDs.
pub(crate) fn pids(alloc: Global, numbers: &[u16]) -> Result<Value, AllocError>
    ensures { IfOk result (λ value. view value ≡ json_numbers numbers.now) }
{
    let mut items = Vec::with_capacity(alloc, numbers.len())?;
    for number in numbers {
        items.push(Value::from(*number))?;
    }
    Ok(Value::Array(items))
}

/// Counts.
pub(crate) fn counts(alloc: Global, numbers: &[u32]) -> Result<Value, AllocError>
    ensures { IfOk result (λ value. view value ≡ json_numbers numbers.now) }
{
    let mut items = Vec::with_capacity(alloc, numbers.len())?;
    for number in numbers {
        items.push(Value::from(*number))?;
    }
    Ok(Value::Array(items))
}

/// Sizes.
pub(crate) fn sizes(alloc: Global, numbers: &[u64]) -> Result<Value, AllocError>
    ensures { IfOk result (λ value. view value ≡ json_numbers numbers.now) }
{
    let mut items = Vec::with_capacity(alloc, numbers.len())?;
    for number in numbers {
        items.push(Value::from(*number))?;
    }
    Ok(Value::Array(items))
}

/// What is reported of the programs of a run.
pub(crate) fn programs(alloc: Global, programs: &[ProgramReport]) -> Result<Value, AllocError>
    ensures { IfOk result (λ value. view value ≡ array (items_of (map spec.program_object programs.now))) }
{
    let mut items = Vec::with_capacity(alloc, programs.len())?;
    for program in programs {
        items.push(program_object(alloc, program)?)?;
    }
    Ok(Value::Array(items))
}
