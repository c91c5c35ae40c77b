//! A line at a terminal that shows how far a command is. It is wiped before anything else is printed there.
#![tactic(auto)]

mod file;
mod output;
mod progress;
mod tables;

pub use file::WatchedFile;
pub use output::WatchedOutput;
pub use progress::Progress;
pub use tables::{WatchedTable, l2_tables};
