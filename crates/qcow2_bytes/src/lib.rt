//! The meaning of an image's bytes: calls without a storage, for programs that read an image by their own
//! means.
#![tactic(auto)]

mod entries;
mod header;
mod images;
mod refcounts;
mod tables;

pub use entries::{BadEntry, EntryMapping, L2Pointer, first_bad_l2_entry, l1_entry, l2_entry};
pub use header::{HeaderFields, NameRange, header_bytes, read_header};
pub use images::{
    CheckTotals, CutShort, ExtentFields, FindingFields, image_check, image_extents, image_lookup,
};
pub use refcounts::{HostClusters, read_refcounts, settle_refcounts};
pub use tables::{EditCounts, EditFields, EditRefusal, edit_l2_table, l2_extents};
