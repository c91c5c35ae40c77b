//! What refers to the clusters of an image, how many references each has, and whether refcounts and copied
//! flags agree.
#![tactic(auto)]

mod counters;
mod counting;
mod file_end;
mod findings;
mod flags;
mod groups;
mod image_tables;
mod l1_length;
mod named_tables;
mod repeats;
mod soles;
mod tally;
mod totals;
mod use_sink;
mod uses;
mod verdict;
mod walk;
mod windows;

pub use counters::{Counters, counted_end, zero_groups};
pub use counting::{cluster_bounds, refers};
pub use file_end::{FileEnd, refuse_tables_past_end};
pub use findings::{Finding, Findings, Sought};
pub use flags::{FlagPlace, Flags, WrongFlag, flagged_cluster};
pub use groups::{entry_at, row_at};
pub use image_tables::{ImageTables, OpenTables, open_tables};
pub use l1_length::{is_l1_short, needed_l1_entries, refuse_short_l1};
pub use named_tables::{load_l1_table, load_l2_table, load_reftable, named_block, named_cluster};
pub use repeats::Repeats;
pub use tally::{Tally, count_of};
pub use totals::Totals;
pub use use_sink::UseSink;
pub use uses::{Use, UseKind};
pub use verdict::Verdict;
pub use walk::{
    walk_blocks, walk_guest, walk_guest_once, walk_header, walk_l2_tables, walk_tables, walk_uses,
};
pub use windows::Windows;
