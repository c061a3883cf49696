/// Where the payload of a PES packet begins in the joined payload of its stream.
#[derive(Clone, Copy, Debug, PartialEq, Eq)]
pub struct PesStart {
    /// The place of its first byte.
    pub at: u64,
    /// The time of the packet, unwrapped, in units of 1/90,000 s, if it has one.
    pub time: Option<i64>,
}
