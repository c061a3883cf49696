use crate::kept_levels::KeptLevels;
use syntax_types::Macroblock;

/// Room for what becomes of a macroblock in a version, lent from one macroblock to the next. What is made is the same in any.
#[derive(Drop)]
pub struct VersionRoom {
    /// What the macroblock became that was last written. Where one is skipped, it says nothing.
    pub macroblock: Macroblock,
    /// What levels become, as far as it was asked for.
    pub levels: KeptLevels,
}

impl VersionRoom {
    /// An empty macroblock, and no levels but one of 0.
    pub fn new() -> VersionRoom {
        VersionRoom {
            macroblock: Macroblock::empty(),
            levels: KeptLevels::new(),
        }
    }
}
