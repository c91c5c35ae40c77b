//! Repairs: make the refcounts and the copied flags of an image right.
#![tactic(auto)]

mod counters;
mod flag_windows;
mod flags;
mod kept_tally;
pub mod laws;
mod refusals;
mod repair;

pub use qcow2_check::refuse_tables_past_end;
pub use refusals::refuse_unrepairable;
pub use repair::repair_image;
