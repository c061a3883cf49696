/// What changes in the least cost of a unit from a price of a packet on.
#[derive(Clone, Copy, Debug, Default, PartialEq)]
pub struct CostStep {
    /// When the unit is due, in ticks.
    pub due: u64,
    /// The least price from which on the step counts, in 1/256 of a distortion.
    pub from: u64,
    /// What is added, in 1/256 of a distortion.
    pub rise: u64,
    /// Packets that are paid at each price.
    pub packets: u32,
    /// Packets fewer.
    pub fewer: u32,
}
