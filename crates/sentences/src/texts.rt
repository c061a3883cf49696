//! What is said of the text of a table, a job or a list of slots that is refused.

use crate::fitted::refused_list;
use crate::job_again::{job_bytes, job_table, syntax_fault, unknown_names};
use crate::line::{End, number, text};
use arrayvec::ArrayString;
use job_report::JobFault;
use serde_json::Value;
use std::alloc::AllocError;
use std::rt::Files;
use version_table::TableFault;

/// What is wrong with a text, and what is allowed there.
pub(crate) fn refused_text<R: Files + AllocGlobal>(
    rt: &R,
    end: &End<'_>,
    line: &Value,
) -> Result<String, AllocError> {
    let file = end.word(1);
    let name = match ArrayString::try_from(text(line, "name")) {
        Ok(name) => name,
        Err(_) => ArrayString::new(),
    };
    match text(line, "reason") {
        "table syntax" => format!(in rt.alloc();
            "{file}: {}",
            TableFault::TableSyntax(number(line, "line"))
        ),
        "table limit" => format!(in rt.alloc(); "{file}: {}", TableFault::TableLimit(name)),
        "job field" => refused_field(rt, file, name),
        "list" => refused_list(rt.alloc(), end, line),
        "job limit" => format!(in rt.alloc(); "{file}: {}", JobFault::JobLimit(name)),
        _ => no_document(rt, file),
    }
}

/// A field that is missing, of another type, or none: then the names that stand there too.
fn refused_field<R: Files + AllocGlobal>(
    rt: &R,
    file: &str,
    name: ArrayString<32>,
) -> Result<String, AllocError> {
    let refused = name.as_str();
    let names = match job_table(rt, file) {
        Some(table) if refused.ends_with("unknown") => unknown_names(rt.alloc(), &table, refused)?,
        _ => String::new(rt.alloc()),
    };
    if names.is_empty() {
        return format!(in rt.alloc(); "{file}: {}", JobFault::JobField(name));
    }
    format!(in rt.alloc();
        "{file}: no field is called {names}: {}",
        JobFault::JobField(name)
    )
}

/// A text that is no TOML document: from which line on.
fn no_document<R: Files + AllocGlobal>(rt: &R, file: &str) -> Result<String, AllocError> {
    let fault = match job_bytes(rt, file) {
        Some(bytes) => syntax_fault(rt.alloc(), bytes.as_slice()),
        None => None,
    };
    match fault {
        Some((place, fault)) => format!(in rt.alloc();
            "{file}: {}: line {place}: {} (docs/JOB.md)",
            JobFault::JobSyntax,
            fault.message()
        ),
        None => format!(in rt.alloc(); "{file}: {} (docs/JOB.md)", JobFault::JobSyntax),
    }
}
