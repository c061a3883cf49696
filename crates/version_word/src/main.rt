//! Prints the version as the program does, for the gate: no clause tells what is printed, nor which of its two exit statuses
//! `told` gives.
#![tactic(auto)]

use help_text::{VERSION, told};
use std::process::ExitCode;

fn main(rt: HostRuntime) -> ExitCode {
    ExitCode::from(told(&rt, VERSION))
}
