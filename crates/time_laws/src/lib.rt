//! The times at which a job's stream is decoded are those that the stream itself carries: its PCRs say the clock of each program, its PES headers when
//! pictures and frames are wanted (ISO/IEC 13818-1, 2.4.2.2, 2.4.3.5 and 2.4.3.7).
//!
//! Laws only, as functions that do nothing. Stands on `job_laws`, which says what is read of a job's stream, `job_stream`, which says what its bytes are, and
//! `clean_laws`, by whose definition a stream is clean for the times of a table.
#![tactic(auto)]

pub mod laws;
