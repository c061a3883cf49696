//! The first bytes of one file of a shelf, as a source that remembers how it was stopped.
//!
//! What reads a source says of its faults that each has its cause, and no more. A `FilePass` calls the shelf no more once a read has failed, and holds what that
//! read answered: so whoever made it can say of the shelf what a call has to say that reads a file (`StopsAs`), whatever was made of the bytes. Stands on `shelf_io`.
#![tactic(auto)]

mod file_pass;

pub use file_pass::FilePass;
