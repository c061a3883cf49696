use slot_rule::Miss;

/// What is said of a table in its slots.
#[derive(Clone, Copy, Debug, PartialEq)]
pub enum Verdict {
    /// The smallest choice is scheduled.
    Scheduled,
    /// The smallest choice misses, first here.
    Missed(Miss),
    /// A unit or an audio packet is due or gone behind the last slot that a stream may have.
    Limit,
}
