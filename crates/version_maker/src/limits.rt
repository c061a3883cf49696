/// Bytes of a unit that has versions, at most: a megabyte.
pub const UNIT_BYTES_MOST: usize = 1_048_576;

const _: () = prove!(UNIT_BYTES_MOST == 1_024 * 1_024);
