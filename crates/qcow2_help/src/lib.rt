//! The texts of `qmeta`: its commands, its version, and the meaning of each fault. All of them are constants.
#![tactic(auto)]

mod commands;
mod faults;

pub use commands::{command_help, commands_help, version};
pub use faults::fault_help;
