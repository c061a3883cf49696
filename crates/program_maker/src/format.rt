//! The numbers of the generated program.
use stream_constants::main_level::VBV_MOST;

/// horizontal_size, in samples.
pub const WIDTH: u16 = 352;

/// vertical_size, in samples.
pub const HEIGHT: u16 = 288;

/// Macroblock columns of a picture.
pub const COLUMNS: usize = 22;

/// Macroblock rows of a picture, each of which is one slice.
pub const ROWS: u8 = 18;

/// frame_rate_code: 25 pictures in a second (ISO/IEC 13818-2, Table 6-4).
pub const RATE_CODE: u8 = 3;

/// vbv_buffer_size, in units of 16,384 bits.
pub const VBV: u8 = VBV_MOST;

/// Pictures from one I-picture to the next.
pub const GROUP_PICTURES: u32 = 12;

/// quantiser_scale_code of each slice.
pub const SLICE_CODE: u8 = 4;

/// Bytes of an audio frame behind its header: 192 kbit/s at 48,000 Hz are 576 bytes a frame (ISO/IEC 11172-3, 2.4.3.1).
pub const FRAME_DATA_BYTES: usize = 572;

/// DTS of the first picture and PTS of the first audio frame, in units of 1/90,000 s.
pub const FIRST_TIME: u64 = 90_000;

/// From one picture to the next, in units of 1/90,000 s.
pub const PICTURE_TIME: u64 = 3_600;

/// From one audio frame of 1,152 samples to the next, in units of 1/90,000 s.
pub const FRAME_TIME: u64 = 2_160;

/// How much later than the PCR before it a picture is decoded, in units of 1/90,000 s.
pub const PCR_LEAD: u64 = 45_000;

/// transport_stream_id.
pub const STREAM_ID: u16 = 1;

/// program_number.
pub const PROGRAM: u16 = 1;

/// PID of the program association table (ISO/IEC 13818-1, Table 2-3).
pub const PAT_PID: u16 = 0;

/// PID of the program map table.
pub const PMT_PID: u16 = 0x100;

/// PID of the video and of the clock.
pub const VIDEO_PID: u16 = 0x101;

/// PID of the audio.
pub const AUDIO_PID: u16 = 0x102;

/// stream_type of MPEG-2 video (ISO/IEC 13818-1, Table 2-29).
pub const VIDEO_TYPE: u8 = 2;

/// stream_type of MPEG-1 audio.
pub const AUDIO_TYPE: u8 = 3;

/// The most pictures of a generated program.
pub const PICTURES_MOST: u32 = 4_096;

/// A number above that of all audio frames, 5/3 of that of the pictures.
pub const FRAMES_MOST: u32 = 2 * PICTURES_MOST;
