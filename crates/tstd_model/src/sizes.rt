ghost use Rattle.std.specs.Prelude.{◌≡◌, ◌≤◌, ◌^◌};
ghost use Rattle.tstd_model.specs.Decoder.{tb_subticks, eb_bytes};
ghost use Rattle.tstd_model.specs.Private.Rooms.{room_bytes, mb_bytes};

use crate::decoder_input::BufferKind;
use stream_constants::decoder::{
    AUDIO_BYTES, AUDIO_TB_SUBTICKS, EB_UNIT_BYTES, SYSTEM_TB_SUBTICKS, VIDEO_BYTES,
    VIDEO_TB_SUBTICKS,
};

/// Subticks that a byte takes to leave TB.
pub fn tb_subticks(kind: BufferKind) -> u64
    ensures value { result ≡ tb_subticks kind }
    ensures most { result ≤ 2 ^ 20 }
{
    match kind {
        BufferKind::Video { vbv: _ } => VIDEO_TB_SUBTICKS,
        BufferKind::Audio => AUDIO_TB_SUBTICKS,
        BufferKind::System => SYSTEM_TB_SUBTICKS,
    }
}

/// Bytes of EB.
pub fn eb_bytes(vbv: u8) -> u64
    ensures { result ≡ eb_bytes vbv }
{
    EB_UNIT_BYTES * u64::from(vbv)
}

/// Bytes for which the buffer that removals make room in has room at once: EB of video, B of audio.
pub fn room_bytes(kind: BufferKind) -> u64
    ensures { result ≡ room_bytes kind }
{
    match kind {
        BufferKind::Video { vbv } => eb_bytes(vbv),
        BufferKind::Audio => AUDIO_BYTES,
        BufferKind::System => 0,
    }
}

/// Bytes of MB, which video alone has.
pub fn mb_bytes(kind: BufferKind) -> u64
    ensures { result ≡ mb_bytes kind }
{
    match kind {
        BufferKind::Video { vbv } => VIDEO_BYTES.saturating_sub(eb_bytes(vbv)),
        BufferKind::Audio | BufferKind::System => 0,
    }
}
