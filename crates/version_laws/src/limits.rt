use pes_units::MOST_HEADER_BYTES;
use version_table::limits;

/// Bytes of a version, at most, 4,194,285: those of a table's longest PES packet without the longest header before them.
pub const UNIT_VERSION_BYTES_MOST: usize = limits::VERSION_BYTES_MOST as usize - MOST_HEADER_BYTES;

/// The greatest distortion of a version, 2,609,192,632,320: no coefficient lies farther than 2^11 from its source, and a
/// picture of Main level has at most 45 times 36 macroblocks, each of 6 blocks of 64 coefficients.
pub const UNIT_VERSION_DISTORTION_MOST: u64 = 45 * 36 * 6 * 64 * (1 << 22);

// a program's distortions count a hundred times at most
const _: () = prove!(100 * UNIT_VERSION_DISTORTION_MOST < limits::DISTORTION_LIMIT);
