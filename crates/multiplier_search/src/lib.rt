//! The search for multipliers that bound the distortion of scheduled choices from below.
//!
//! Stands on `dual_bounds`, and on `cost_steps` and `cost_sweep` for its speed.
#![tactic(auto)]

mod additions;
mod all_steps;
mod at_due;
mod buffered;
mod changes;
pub mod constants;
mod lambda;
mod lists;
mod meeting;
mod relaxed;
mod single;
mod turns;
mod window;

pub use buffered::buffered_windows;
pub use relaxed::{LinearRelaxation, SlackPlace, SlackTree, relaxation};
pub use single::best_single;
pub use turns::{improve, improve_windows};
pub use window::best_window;
