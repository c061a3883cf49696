use crate::slice::Slice;
use list_types::ListOf;

/// picture_coding_type of an I-picture (Table 6-12).
pub const I_PICTURE: u8 = 1;

/// picture_coding_type of a P-picture.
pub const P_PICTURE: u8 = 2;

/// picture_coding_type of a B-picture.
pub const B_PICTURE: u8 = 3;

/// picture_structure of a field picture of the top field (Table 6-14).
pub const TOP_FIELD: u8 = 1;

/// picture_structure of a field picture of the bottom field.
pub const BOTTOM_FIELD: u8 = 2;

/// picture_structure of a frame picture.
pub const FRAME_PICTURE: u8 = 3;

/// What the picture header and the picture coding extension say (6.2.3, 6.2.3.1), as far as it is used.
#[derive(Clone, Copy)]
pub struct PicCoding {
    /// picture_coding_type: `I_PICTURE`, `P_PICTURE` or `B_PICTURE`.
    pub kind: u8,
    /// vbv_delay, in units of 1/90,000 s.
    pub vbv_delay: u16,
    /// f_code: forward and backward, each horizontal and vertical.
    pub f_code: [[u8; 2]; 2],
    /// intra_dc_precision.
    pub dc_precision: u8,
    /// picture_structure: `TOP_FIELD`, `BOTTOM_FIELD` or `FRAME_PICTURE`.
    pub structure: u8,
    /// top_field_first.
    pub top_field_first: bool,
    /// frame_pred_frame_dct.
    pub frame_pred_frame_dct: bool,
    /// concealment_motion_vectors.
    pub concealment: bool,
    /// q_scale_type.
    pub q_scale_type: bool,
    /// intra_vlc_format.
    pub intra_vlc_format: bool,
    /// alternate_scan.
    pub alternate_scan: bool,
    /// repeat_first_field.
    pub repeat_first_field: bool,
    /// progressive_frame.
    pub progressive_frame: bool,
}

/// What the headers so far leave in force for the pictures that follow (6.2.2.1, 6.2.2.3, 6.2.3.2).
#[derive(Clone, Copy)]
pub struct SeqState {
    /// horizontal_size, in samples.
    pub width: u16,
    /// vertical_size, in samples.
    pub height: u16,
    /// frame_rate_code (Table 6-4).
    pub rate_code: u8,
    /// vbv_buffer_size, in units of 16,384 bits.
    pub vbv: u8,
    /// progressive_sequence.
    pub progressive: bool,
    /// The matrix of intra blocks, in raster order.
    pub intra: [u8; 64],
    /// The matrix of non-intra blocks, in raster order.
    pub non_intra: [u8; 64],
}

/// What the headers leave in force for the macroblocks of a picture (6.2.2, 6.2.3): the state of the sequence, and how the
/// picture is coded.
#[derive(Clone, Copy)]
pub struct PictureParameters<'a> {
    pub seq: &'a SeqState,
    pub coding: &'a PicCoding,
}

/// A coded picture with the headers before it, a frame or a field (6.2.2, 6.2.3).
#[derive(Drop)]
pub struct Picture {
    /// What is in force for this picture.
    pub seq: SeqState,
    /// How this picture is coded.
    pub coding: PicCoding,
    /// The bytes from the first one to the end of the last header, extension or user data before the first slice.
    pub head: ListOf<u8>,
    /// The slices in order.
    pub slices: ListOf<Slice>,
    /// A sequence end code stands behind the last slice.
    pub sequence_end: bool,
}
