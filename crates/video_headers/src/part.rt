//! The headers behind which extensions and user data stand (6.2.2.2).
ghost use Rattle.std.specs.Prelude.{◌≡◌};
ghost use Rattle.picture_grammar.specs.Head.{is_scalable};
ghost use Rattle.video_headers.specs.Private.NextCode.{is_one};
ghost use Rattle.video_headers.specs.Private.Part.{codes_of, identifiers_of};

use crate::code::{Comes, NextCode};
use stream_constants::start_codes::{
    COPYRIGHT, EXTENSION, PICTURE_DISPLAY, QUANT_MATRIX, SEQUENCE_DISPLAY, SEQUENCE_SCALABLE,
    SPATIAL_SCALABLE, TEMPORAL_SCALABLE, USER_DATA,
};

/// A header behind which extensions or user data may stand.
#[derive(Clone, Copy)]
pub enum Part {
    Sequence,
    Group,
    Picture,
}

impl Part {
    /// Whether one of them comes.
    pub fn comes(self, next: &NextCode) -> bool
        ensures { result ≡ is_one (codes_of self) next.now.comes }
    {
        match next.comes {
            Comes::Code { byte } => self.has_code(byte),
            Comes::NoCode => false,
            Comes::Nothing => false,
        }
    }

    /// Whether one of them has this start code.
    fn has_code(self, byte: u8) -> bool
        ensures { result ≡ codes_of self byte }
    {
        match self {
            Part::Sequence => byte == EXTENSION || byte == USER_DATA,
            Part::Group => byte == USER_DATA,
            Part::Picture => byte == EXTENSION || byte == USER_DATA,
        }
    }

    /// Whether an extension with this identifier may stand there.
    pub fn allows(self, identifier: u32) -> bool
        ensures { result ≡ identifiers_of self identifier }
    {
        match self {
            Part::Sequence => identifier == u32::from(SEQUENCE_DISPLAY),
            Part::Group => false,
            Part::Picture => {
                identifier == u32::from(QUANT_MATRIX)
                    || identifier == u32::from(COPYRIGHT)
                    || identifier == u32::from(PICTURE_DISPLAY)
            }
        }
    }
}

/// Whether an identifier is of a scalable extension, which other profiles have.
pub fn is_scalable(identifier: u32) -> bool
    ensures { result ≡ is_scalable identifier }
{
    identifier == u32::from(SEQUENCE_SCALABLE)
        || identifier == u32::from(SPATIAL_SCALABLE)
        || identifier == u32::from(TEMPORAL_SCALABLE)
}
