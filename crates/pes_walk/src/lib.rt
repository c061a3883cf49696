//! The PES packets of one stream, while the payloads that carry them pass (ISO/IEC 13818-1, 2.4.3.3).
//!
//! `PesWalk` takes one payload after the other. Of the PES packet that is open it keeps the first bytes alone, which decide what
//! refuses it and what its header says; the bytes behind headers are lent as they come. Stands on `pes_units`, whose definition of
//! the PES packets of payloads it meets.
#![tactic(auto)]

mod walk;

pub use walk::{FRONT_BYTES, PesWalk, header_bytes};

#[cfg(test)]
mod tests;
