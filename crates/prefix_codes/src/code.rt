/// A code of a table: the value of its bits, the first one the most significant, and their number.
#[derive(Clone, Copy, Debug, PartialEq, Eq)]
pub struct Code {
    pub bits: u32,
    pub len: u8,
}
