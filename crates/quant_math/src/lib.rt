//! Arithmetic of quantisation: quantiser scales, inverse scans, inverse quantisation, and levels at a coarser scale
//! (ISO/IEC 13818-2, 7.3 and 7.4).
//!
//! Each call gives exactly its definition over the integers: tables are those of the standard, division truncates
//! towards zero, and coefficients are saturated. No call takes memory. Stands on the standard library alone.
#![tactic(auto)]

pub mod laws;
mod levels;
mod matrices;
mod scales;
mod scans;

pub use levels::{
    COEFFICIENT_PARTS, GREATEST_COEFFICIENT, LEAST_COEFFICIENT, LEVEL_PARTS, coarser_level, inverse,
};
pub use matrices::default_matrix;
pub use scales::{LAST_CODE, WHOLE_RATIO, map_code, scale};
pub use scans::scan;

#[cfg(test)]
mod tests;
