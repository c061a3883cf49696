/// What is wrong with a certificate, in the order in which faults of one node are looked for.
#[derive(Clone, Copy, Debug, PartialEq, Eq)]
pub enum Why {
    /// The choice has not one version for each unit.
    ChoiceLength,
    /// A unit has no version of the number that the choice has for it.
    ChoiceVersion,
    /// The choice isn't scheduled.
    ChoiceMissed,
    /// The stated distortion isn't the choice's.
    WrongDistortion,
    /// The tree needs a node behind the last one.
    NoNode,
    /// A branch on a unit that there isn't.
    UnitRange,
    /// A branch on a unit that is fixed on its path.
    UnitFixed,
    /// Multipliers or windows don't rise by due time, and windows of one due time by where they begin, or by first slot, tail slot and
    /// programs.
    DueOrder,
    /// A window begins behind its due time, or has its tail before its first slot or behind the last that ends in time.
    WindowEmpty,
    /// A window counts the buffer of a program that there isn't.
    ProgramRange,
    /// A lambda is greater than 2^40.
    LambdaLimit,
    /// A unit with two or more versions isn't fixed where one choice is to be tried.
    RunOpen,
    /// Whether the one choice is scheduled isn't what is stated.
    RunWrong,
    /// A node stands behind the tree.
    ExtraNode,
    /// The stated bound is above the one that the tree shows.
    BoundHigh,
}

/// The first fault of a certificate.
#[derive(Clone, Copy, Debug, PartialEq, Eq)]
pub struct CertFault {
    /// The node, counted from 0; 0 for faults that are none of a node.
    pub node: u32,
    /// What is wrong there.
    pub why: Why,
}
