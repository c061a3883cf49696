use crate::passed_program::PassedProgram;
use list_types::ListOf;
use program_reader::UnitSizes;

/// A program that was read of a file without the bytes of its streams.
#[derive(Drop)]
pub struct SizedPassed {
    pub program: PassedProgram,
    /// Of each of its units, where they are wanted.
    pub sizes: ListOf<UnitSizes>,
    /// The bytes of the file.
    pub size: u64,
}
