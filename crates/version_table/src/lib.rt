//! Tables of pictures: what the planner is given, as text and as values.
//!
//! A table holds, for each program, its coded pictures with the sizes and distortions of their versions, and the
//! packets of its audio streams, each with the times at which a decoder wants them. Here stand the types, what a
//! valid table is, the choices over it, and the table text, read and written by one spelling.
//! Stands on `list_types`.
#![tactic(auto)]

mod choice_laws;
mod choices;
mod draft;
mod fault;
mod first_limit;
pub mod limits;
mod line;
mod read;
mod reading;
mod table;
mod text_laws;
mod wording;
mod write;

pub use choice_laws::{
    few_units_cost_little, least_distortions_bound, level_choices_end, level_choices_fit,
    smallest_choice_fits, smallest_choice_is_one,
};
pub use choices::{distortion_of, least_total, level, smallest};
pub use fault::{Limit, TableFault};
pub use line::{Line, StatedVersion};
pub use list_types::{ListOf, OutOfMemory};
pub use read::read_table;
pub use table::{AudioPacket, Choice, ProgramRow, Table, Unit, Version};
pub use text_laws::{one_reading, some_reading, spelling_is_read, spelling_is_short};
pub use write::write_table;
