//! Lists of edits of an L2 table and of steps of a refcount block, and refcounts that follow edits.
#![tactic(auto)]

mod edits;
pub mod laws;
mod settled;
mod steps;

pub use edits::{Change, Edit, Outcome, edit_table, edits_fit};
pub use settled::{edit_settled, settle};
pub use steps::{Step, StepReply, step_block};
