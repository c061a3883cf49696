//! Laws of reading a stream's layers, each the contract of a function that does nothing: where what was written layer by
//! layer is read back as itself (ISO/IEC 13818-1, 2.4; ISO/IEC 13818-2, 6.2.1).
//!
//! `units`: video units that are joined are cut into these units again. Stands on the definitions of `es_units`.
#![tactic(auto)]

pub mod packets;
pub mod pes;
pub mod units;
