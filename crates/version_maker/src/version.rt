use list_types::ListOf;

/// A version of a unit.
#[derive(Drop)]
pub struct UnitVersion {
    /// Its bytes, a unit again.
    pub bytes: ListOf<u8>,
    /// The sum of the squares of the differences of all coefficients to the source's, as inverse quantisation gives them
    /// (ISO/IEC 13818-2, 7.4), but the DC coefficients of intra blocks.
    pub distortion: u64,
}

/// How long a version of a unit is, and its distortion.
#[derive(Clone, Copy, Debug, Default, PartialEq, Eq)]
pub struct VersionSize {
    /// Its bytes.
    pub bytes: u64,
    /// The sum of squares that `UnitVersion` says.
    pub distortion: u64,
}
