//! Whole images: mappings of guest offsets, extents of the disk, and edits of its tables and blocks.
#![tactic(auto)]

mod blank_tables;
mod extents;
mod images;
mod kept_table;
mod l2_tables;
pub mod laws;
mod lookups;

pub use blank_tables::BlankTables;
pub use extents::{Content, Extent, Extents};
pub use images::{edit_image, step_image};
pub use l2_tables::L2Tables;
pub use lookups::{lookup, lookup_image, lookup_with_header};
