//! Coarser pictures: the version of a coded picture whose coefficients are quantised more coarsely.
#![tactic(auto)]

mod block;
mod block_ends;
mod code_lengths;
mod codes;
mod comparison;
mod counts;
mod cursor;
mod difference;
mod head;
mod kept_levels;
mod ladder;
pub mod laws;
mod lengths;
mod level;
mod macroblock;
mod macroblock_tally;
mod outline;
mod picture;
mod slice;
mod step;
mod tally;
mod targets;
mod version_room;
mod version_state;

pub use codes::Target;
pub use comparison::distortion;
pub use head::Head;
pub use kept_levels::KeptLevels;
pub use ladder::Ladder;
pub use macroblock_tally::tally_macroblock;
pub use outline::{
    Outline, Outlined, coded_head, is_emptied, outline_macroblock, stayed_head, stays,
};
pub use picture::coarsen;
pub use step::{Coarsened, coarsen_macroblock, requantise_macroblock};
pub use tally::{Tally, VERSIONS_AT_ONCE};
pub use version_room::VersionRoom;
pub use version_state::VersionState;
