//! The place of a fault in an image: what `explain` prints about a file.
#![tactic(auto)]

mod clusters;
mod extensions;
mod fields;
mod files;
mod lines;
mod locks;
mod past_end;
mod places;
mod refusals;
mod searches;
mod tables;

pub use lines::{fault_lines, locate_fault};
