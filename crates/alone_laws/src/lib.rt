//! Each program of a job's stream, read by itself and audited: nothing refuses it, and nothing is found but a transport buffer that isn't empty for a second
//! (ISO/IEC 13818-1, 2.4.2).
//!
//! Laws only, as functions that do nothing. Stands on `audit_laws`, by which a stream's own units are clean in an audit, and shows that `audit` reads these
//! units: the stream's PES packets hold the source's pictures, at the source's times.
#![tactic(auto)]

pub mod laws;
