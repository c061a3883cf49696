use list_types::ListOf;
use tstd_model::Removal;

/// The units of a program's video that are kept, and the clock by which they are due.
#[derive(Drop)]
pub struct KeptUnits {
    /// What the program's clock shows, in ticks of 1/27,000,000 s, when a unit that is due at 0 is removed.
    pub base: u64,
    /// Its `vbv_buffer_size`, in units of 16,384 bits.
    pub vbv: u8,
    /// The units from the first sequence header on: due times in ticks, and lengths in bytes.
    pub units: ListOf<Removal>,
}
