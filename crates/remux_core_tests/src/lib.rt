//! Tests of the top call over shelves in memory: its worked examples, and each failing call of the outside in turn.
//!
//! They stand in a crate of their own, so that a change here proves nothing below again. Stands on `remux_core`.
#![tactic(auto)]

#[cfg(test)]
mod audits;
#[cfg(test)]
mod calls;
#[cfg(test)]
mod failing_calls;
#[cfg(test)]
mod fits;
#[cfg(test)]
mod generated;
#[cfg(test)]
mod jobs;
#[cfg(test)]
mod plan_checks;
#[cfg(test)]
mod plans;
#[cfg(test)]
mod probes;
#[cfg(test)]
mod short_calls;
#[cfg(test)]
mod verdicts;
#[cfg(test)]
mod words;
