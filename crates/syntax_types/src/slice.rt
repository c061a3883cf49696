use crate::macroblock::Macroblock;
use list_types::ListOf;

/// What a slice header holds behind slice_extension_flag (6.2.4).
#[derive(Drop)]
pub struct SliceInfo {
    /// intra_slice.
    pub intra_slice: bool,
    /// The seven bits that are reserved.
    pub reserved: u8,
    /// extra_information_slice.
    pub bytes: ListOf<u8>,
}

/// Macroblocks of one row, in order (6.2.4).
#[derive(Drop)]
pub struct Slice {
    /// The macroblock row, from 0.
    pub row: u8,
    /// quantiser_scale_code.
    pub code: u8,
    /// What stands behind the extension flag, if that is set.
    pub info: Option<SliceInfo>,
    /// The macroblocks that aren't skipped.
    pub macroblocks: ListOf<Macroblock>,
}
