//! The times of units, looked up one behind the other.
ghost use Rattle.std.specs.Prelude.{◌≡◌, ◌≤◌, ◌+◌, List, length};
ghost use Rattle.elementary_streams.specs.declared.pes_packets.PlacedPacket.{PlacedPacket};
ghost use Rattle.program_reader.specs.PictureTimes.{times_of_unit};
ghost use Rattle.program_reader.specs.Private.StampedPictures.{times_of_stamp, AreRising, Leaves, TellTimes, IsCounted};

use crate::picture_times::StampedPicture;
use es_units::find_picture;
use pes_units::Times;

/// The times of a unit or picture, and the stamped pictures that are left behind it.
#[derive(Clone, Copy)]
pub struct FoundTimes<'a> {
    pub times: Times,
    pub left: &'a [StampedPicture],
}

/// No times.
pub const NO_TIMES: Times = Times {
    pts: None,
    dts: None,
};

/// The times of a unit from a place of the video up to another: those of the picture that begins in it.
pub fn unit_times<'a>(
    es: &[u8],
    stamps: &'a [StampedPicture],
    begin: u64,
    end: u64,
) -> FoundTimes<'a>
    requires within { end ≤ length es.now }
    requires rising { AreRising 0 stamps.now }
    ensures times { (packets : List PlacedPacket) → TellTimes es.now packets begin stamps.now → result.times ≡ times_of_unit es.now packets (begin, end) }
    ensures left { (packets : List PlacedPacket) → begin ≤ end → TellTimes es.now packets begin stamps.now → TellTimes es.now packets end result.left.now }
    ensures rising { AreRising 0 result.left.now }
    ensures counted { IsCounted stamps.now result.left.now result.times }
{
    match find_picture(es, begin as usize, end as usize) {
        Some(at) => picture_times(stamps, at as u64),
        None => FoundTimes {
            times: NO_TIMES,
            left: stamps,
        },
    }
}

/// The times of a picture that begins at a place.
fn picture_times<'a>(stamps: &'a [StampedPicture], at: u64) -> FoundTimes<'a>
    requires rising { AreRising 0 stamps.now }
    ensures times { result.times ≡ times_of_stamp stamps.now at }
    ensures leaves { Leaves (at + 1) stamps.now result.left.now }
    ensures counted { IsCounted stamps.now result.left.now result.times }
{
    let left = stamps_from(stamps, at);
    match left.split_first() {
        Some((first, behind)) => {
            if first.at == at {
                return FoundTimes {
                    times: first.times,
                    left: behind,
                };
            }
            FoundTimes {
                times: NO_TIMES,
                left,
            }
        }
        None => FoundTimes {
            times: NO_TIMES,
            left,
        },
    }
}

/// The stamped pictures from a place on.
fn stamps_from<'a>(stamps: &'a [StampedPicture], at: u64) -> &'a [StampedPicture]
    requires rising { AreRising 0 stamps.now }
    ensures { Leaves at stamps.now result.now }
{
    let mut left = stamps;
    while let Some((first, behind)) = left.split_first() {
        if first.at >= at {
            return left;
        }
        left = behind;
    }
    left
}
