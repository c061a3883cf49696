//! What the fields of a job may be, and what they are where the text doesn't say. Ticks are 1/27,000,000 s.
//! The limits of slots, nodes, evaluations and programs are those of tables: `version_table::limits`.
use version_table::limits::VERSIONS_MOST;

/// Bytes of a job text, at most.
pub const JOB_TEXT_MOST: usize = 1_048_576;

/// Ticks of a packet slot where a single program is probed, which has no job text.
pub const PROBE_SLOT: u32 = 4_000;

/// When the earliest time of each program is due, in ticks: at most this.
pub const START_MOST: u64 = 54_000_000;
/// The same where the text doesn't say: half a second.
pub const START_DEFAULT: u64 = 13_500_000;

/// The transport_stream_id of the output, at most (16 bits, 13818-1, 2.4.4.5).
pub const STREAM_ID_MOST: u16 = 65_535;
/// The same where the text doesn't say.
pub const STREAM_ID_DEFAULT: u16 = 1;

/// Nodes of the search where the text doesn't say.
pub const NODES_DEFAULT: u32 = 1_000;
/// Evaluations of the search where the text doesn't say.
pub const EVALUATIONS_DEFAULT: u32 = 1_000;

/// A program_number, at most (16 bits, 13818-1, 2.4.4.5); at least one, since 0 names the network PID.
pub const NUMBER_MOST: u16 = 65_535;

/// What the distortions of a program count, at most; at least one.
pub const WEIGHT_MOST: u8 = 100;
/// The same where the text doesn't say.
pub const WEIGHT_DEFAULT: u8 = 1;

/// Coarser versions of a picture, at most: beside them stands the source itself.
pub const COARSER_MOST: usize = VERSIONS_MOST - 1;
/// How coarse a version is, in sixteenths of the source's quantiser scale: at least this.
pub const COARSENESS_LEAST: u16 = 17;
/// How coarse a version is, in sixteenths of the source's quantiser scale: at most this.
pub const COARSENESS_MOST: u16 = 1_792;
/// How coarse the versions are where the text doesn't say.
pub const COARSER_DEFAULT: [u16; 5] = [24, 32, 48, 80, 128];

/// How much more the distortions of a picture count for each coded frame with a P picture behind it, at most.
pub const DRIFT_MOST: u8 = 16;
/// The same where the text doesn't say: distortions stay as they are.
pub const DRIFT_DEFAULT: u8 = 0;

/// PIDs that a job may drop of a program, at most.
pub const DROP_MOST: usize = 64;
/// A PID, at most (13 bits, 13818-1, 2.4.3.3).
pub const PID_MOST: u16 = 8_191;

/// Bytes of a name in a refusal or a report, at most.
pub const NAME_MOST: usize = 32;
/// Bytes of a field's name in its table, at most.
pub(crate) const FIELD_NAME_MOST: usize = 16;
