//! How late the times of a job may be, and what one of its programs takes of their table, at most: an eighth of what a table may have, where
//! that isn't counted over all programs.

use program_reader::limits::UNITS_MOST;
use version_table::limits::{
    AUDIO_PACKETS_LIMIT, DISTORTION_LIMIT, DISTORTIONS_LIMIT, PROGRAMS_MOST, TABLE_TEXT_MOST,
    TEXT_AUDIO_PACKETS_MOST,
};

/// Due and gone times of a job, in ticks, are below this: a round of the 33 bits of a time, 26 hours and a half.
pub const TIMES_LIMIT: u64 = 2_576_980_377_600;

const _: () = prove!(TIMES_LIMIT == 300 << 33);

/// Audio packets of a program, at most.
pub const AUDIO_PACKETS_MOST: usize = 536_870_911;

const _: () = prove!(PROGRAMS_MOST as u64 * (AUDIO_PACKETS_MOST as u64) < AUDIO_PACKETS_LIMIT);

/// The greatest distortions of a program's units, each times what the unit weighs, are together below this.
pub const PROGRAM_DISTORTIONS_LIMIT: u64 = 1_152_921_504_606_846_976;

const _: () = prove!(PROGRAMS_MOST as u64 * (PROGRAM_DISTORTIONS_LIMIT - 1) < DISTORTIONS_LIMIT);

/// So many units are together below it, whatever the distortions of their versions are.
pub const UNITS_OF_ANY_DISTORTION: usize = 4_096;

const _: () = prove!(
    UNITS_OF_ANY_DISTORTION as u64 * (DISTORTION_LIMIT - 1) < PROGRAM_DISTORTIONS_LIMIT
);

/// Audio packets of a program that is probed, at most: the text of its table has room for so many beside all units of a job.
pub const PROBED_AUDIO_PACKETS_MOST: usize = 4_194_304;

const _: () = prove!(PROBED_AUDIO_PACKETS_MOST <= TEXT_AUDIO_PACKETS_MOST);

/// Bytes of the line of a unit in a table's text, at most, of that of an audio packet, and of all others together.
const UNIT_LINE_BYTES: usize = 212;

const PACKET_LINE_BYTES: usize = 41;

const OTHER_LINES_BYTES: usize = 600;

const _: () = prove!(
    OTHER_LINES_BYTES + UNIT_LINE_BYTES * UNITS_MOST + PACKET_LINE_BYTES * PROBED_AUDIO_PACKETS_MOST
        <= TABLE_TEXT_MOST
);
