//! The slot rule: which packet goes in each slot of the output, and which table cannot be met.
//!
//! One transport packet goes in each slot. A timetable reserves slots for the program tables and the PCRs; in each
//! other slot goes the permitted packet that is due first, where the gates of the decoder's buffers permit one
//! (ISO/IEC 13818-1, 2.4.2, taken at slots). A packet that would come too late is a miss.
//! Stands on `version_table` and `list_types`.
#![tactic(auto)]

mod after;
mod checkpoints;
pub mod constants;
mod distance;
mod fronts;
mod heads;
mod idle;
pub mod laws;
mod misses;
mod queue_items;
mod queue_kind;
mod queue_state;
mod queued_packet;
mod row;
mod run_state;
mod schedules;
mod sent;
mod slot;
mod slot_list;
mod slot_run;
mod slots;
mod states;
mod timetable;
mod turns;

pub use laws::{first_miss_is_one, no_miss_where_scheduled};
pub use misses::{first_miss, first_miss_of};
pub use queue_kind::QueueKind;
pub use queued_packet::QueuedPacket;
pub use row::Row;
pub use schedules::{ScheduleFault, schedule};
pub use sent::{Miss, Sent};
pub use slot_list::SlotList;
pub use slot_run::SlotRun;
pub use timetable::Timetable;
