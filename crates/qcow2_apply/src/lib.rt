//! Edits of guest ranges of an image: what they require, how they change clusters and refcounts, how they are
//! made, and laws on what they preserve.
#![tactic(auto)]

mod apply;
mod blocks;
mod changed_clusters;
mod changes;
mod counter_tables;
mod edits_by_table;
mod guest_edits;
pub mod laws;
mod mapped_clusters;
mod needed_tables;
mod plan;
mod planned_changes;
mod planned_tables;
mod tables;

pub use apply::apply_edits;
pub use blocks::follow_changes;
pub use changed_clusters::{ChangedClusters, KeptCluster};
pub use changes::Changes;
pub use counter_tables::CounterTables;
pub use edits_by_table::EditsByTable;
pub use guest_edits::{GuestEdit, edits_in, first_unfit, refuse_uneditable};
pub use plan::Plan;
pub use tables::edit_tables;
