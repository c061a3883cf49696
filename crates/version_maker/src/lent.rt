use requantiser::{Tally, VERSIONS_AT_ONCE, VersionRoom};
use syntax_types::Macroblock;

/// What is lent from one macroblock to the next.
#[derive(Drop)]
pub struct Lent {
    /// A macroblock of the source.
    pub from: Macroblock,
    /// What is counted of it in each version.
    pub tallies: [Tally; VERSIONS_AT_ONCE],
    /// What becomes of it.
    pub made: VersionRoom,
}

impl Lent {
    pub fn new() -> Lent {
        Lent {
            from: Macroblock::empty(),
            tallies: [Tally::empty(); VERSIONS_AT_ONCE],
            made: VersionRoom::new(),
        }
    }
}
