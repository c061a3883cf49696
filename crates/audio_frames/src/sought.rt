ghost use Rattle.audio_frames.specs.Private.Sought.{IsCandidate, IsSought};

use crate::frame_header::{FrameHeader, HEADER_BYTES};

/// What bytes say of a first frame at the first one, whatever follows them.
#[derive(Clone, Copy)]
pub enum Candidate {
    /// More of them are wanted.
    Open,
    /// One begins there, with this header.
    First(FrameHeader),
    /// None does.
    Other,
}

/// Whether a first frame begins at the first of some bytes, whatever follows them.
fn judge_candidate(bytes: &[u8]) -> Candidate
    ensures { IsCandidate bytes.now result }
{
    if bytes.len() < HEADER_BYTES {
        return Candidate::Open;
    }
    let Some(header) = FrameHeader::read(bytes) else {
        return Candidate::Other;
    };
    let end = header.len as usize;
    if bytes.len() < end + HEADER_BYTES {
        return Candidate::Open;
    }
    if header.goes_on(&bytes[end..]) {
        Candidate::First(header)
    } else {
        Candidate::Other
    }
}

/// How far some bytes are searched for a first frame.
#[derive(Clone, Copy)]
pub struct Sought {
    /// Before this place none begins, whatever follows the bytes.
    pub at: usize,
    /// The header of the one that begins there, where that is certain.
    pub first: Option<FrameHeader>,
}

/// Searches bytes for the place of a first frame that is certain, whatever follows them.
pub fn seek(bytes: &[u8]) -> Sought
    ensures { IsSought bytes.now result }
{
    for at in 0..bytes.len() {
        match judge_candidate(&bytes[at..]) {
            Candidate::Open => return Sought { at, first: None },
            Candidate::First(header) => {
                return Sought {
                    at,
                    first: Some(header),
                };
            }
            Candidate::Other => {}
        }
    }
    Sought {
        at: bytes.len(),
        first: None,
    }
}
