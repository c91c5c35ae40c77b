//! The commands of `qmeta`. Re-exports what a tool on qcow2 images needs besides the metadata itself:
//! findings and repairs, lists of edits, lookups and extents.
#![tactic(auto)]

pub mod commands;
pub mod laws;
mod lines;

pub use commands::{
    ApplyForm, Arguments, CheckForm, ClusterBits, Command, DiskEdit, FileName, HelpText, Question,
    Request, Verdict, report_fault, run, run_on_file, run_request, run_words,
};
pub use qcow2_apply::{ChangedClusters, GuestEdit, KeptCluster, Plan, apply_edits};
pub use qcow2_check::{Counters, Finding, Findings, FlagPlace, Flags, WrongFlag};
use qcow2_check::{load_l1_table, load_l2_table, named_cluster};
pub use qcow2_edits::{
    Change, Edit, Outcome, Step, StepReply, edit_settled, edit_table, edits_fit, settle, step_block,
};
pub use qcow2_image::{Content, Extent, Extents, edit_image, lookup, lookup_image, step_image};
use qcow2_image::{BlankTables, L2Tables, lookup_with_header};
pub use qcow2_repair::{refuse_tables_past_end, refuse_unrepairable, repair_image};
pub use qcow2_summary::is_consistent;
