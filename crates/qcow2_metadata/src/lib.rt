//! The metadata of a qcow2 image: its header, its tables and their entries, its refcount blocks, its snapshot
//! table.
#![tactic(auto)]

mod entries;
mod header;
pub mod laws;
mod pieces;
mod placed;
mod range;
mod read_ahead;
mod refblock;
mod snapshot_table;
mod table;

pub use entries::{
    AtomicL2Entry, ClustersToFreeEntry, L1Entry, L2Entry, L2Mapping, PendingClusters,
    RefTableEntry, Refused, TableEntry,
};
pub use header::{
    AcceptedFeatures, AutoclearFeatures, CompatibleFeatures, FeatureType, Header, HeaderExtension,
    HeaderExtensionType, IncompatibleFeatures, UnknownValue,
};
pub use qcow2_base::{MAX_FILE_LENGTH, MAX_OFFSET};
pub use refblock::{RefBlock, RefBlockWriteGuard};
pub use snapshot_table::SnapshotTable;
pub use table::{
    CompressedClusterReadGuard, EntryTable, L1Table, L2Table, L2TableWriteGuard, RefTable, Table,
    TableKind, Turns, least_spare,
};
