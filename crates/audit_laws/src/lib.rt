//! What is written, audited: a job's stream, judged program by program by the model of the decoder, has no finding but a transport buffer that isn't
//! empty for a second (ISO/IEC 13818-1, 2.4.2).
//!
//! Laws only, as functions that do nothing. Stands on `stream_audit`, which says what an audit finds, and on `time_laws` and `clean_laws`, by which a job's
//! stream is clean at the times that it carries.
#![tactic(auto)]

pub mod laws;
pub mod written;
