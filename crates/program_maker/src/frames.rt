//! The PES packets of pictures and audio frames (ISO/IEC 13818-1, 2.4.3.6; 11172-3, 2.4).
ghost use Rattle.std.specs.Prelude.{◌≡◌, ◌<◌, ◌++◌, OnOk};
ghost use Rattle.program_maker.specs.Streams.{drawn_bytes, drawn_frame, frame_header as header_of_frame, frame_pes, picture_pes};

use crate::draws::Draws;
use crate::format::{
    FIRST_TIME, FRAME_DATA_BYTES, FRAME_TIME, FRAMES_MOST, PICTURE_TIME, PICTURES_MOST,
};
use list_types::OutOfMemory;
use pes_units::{MOST_HEADER_BYTES, Times, write_video_header};

/// Bytes of a frame's PES header: nine, and five of its PTS.
const FRAME_PES_HEADER_BYTES: usize = 14;

/// The header of each audio frame.
const FRAME_HEADER: [u8; 4] = [0xFF, 0xFD, 0xA4, 0x00];

/// Makes the PES packet of picture k in a vector that is lent, whatever it holds.
pub fn make_picture_pes(pes: &mut Vec<u8>, k: u32, bytes: &[u8]) -> Result<(), OutOfMemory>
    requires { k < PICTURES_MOST }
    ensures { OnOk result (pes.new.items ≡ picture_pes k bytes.now) }
{
    let dts = FIRST_TIME + PICTURE_TIME * u64::from(k);
    let times = Times {
        pts: Some(dts + PICTURE_TIME),
        dts: Some(dts),
    };
    let mut header = [0; MOST_HEADER_BYTES];
    let size = write_video_header(&times, &mut header);
    pes.clear();
    pes.extend_from_slice(&header[..usize::from(size)])?;
    pes.extend_from_slice(bytes)?;
    Ok(())
}

/// Draws frame j and makes its PES packet in a vector that is lent, whatever it holds.
#[tactic(auto, unfolding(crate::specs::Streams::drawn_frame))]
pub fn make_frame_pes(pes: &mut Vec<u8>, draws: &mut Draws, j: u32) -> Result<(), OutOfMemory>
    requires { j < FRAMES_MOST }
    ensures made { OnOk result (pes.new.items ≡ frame_pes j (drawn_frame draws.old.state).0) }
    ensures state { OnOk result (draws.new.state ≡ (drawn_frame draws.old.state).1) }
{
    pes.clear();
    pes.extend_from_slice(&frame_header(j))?;
    pes.extend_from_slice(&FRAME_HEADER)?;
    put_drawn_bytes(pes, draws)
}

// The bytes of a frame behind its header.
fn put_drawn_bytes(pes: &mut Vec<u8>, draws: &mut Draws) -> Result<(), OutOfMemory>
    ensures made { OnOk result (pes.new.items ≡ pes.old.items ++ (drawn_bytes draws.old.state).0) }
    ensures state { OnOk result (draws.new.state ≡ (drawn_bytes draws.old.state).1) }
{
    for _i in 0..FRAME_DATA_BYTES {
        pes.push(draws.pick(255) as u8)?;
    }
    Ok(())
}

// The PES header of frame j, with its PTS where a video packet's header has one.
fn frame_header(j: u32) -> [u8; FRAME_PES_HEADER_BYTES]
    requires { j < FRAMES_MOST }
    ensures { result ≡ header_of_frame j }
{
    let times = Times {
        pts: Some(FIRST_TIME + FRAME_TIME * u64::from(j)),
        dts: None,
    };
    let mut header = [0; MOST_HEADER_BYTES];
    write_video_header(&times, &mut header);
    [
        0x00, 0x00, 0x01, 0xC0, 0x02, 0x48, 0x80, 0x80, 0x05, header[9], header[10], header[11],
        header[12], header[13],
    ]
}
