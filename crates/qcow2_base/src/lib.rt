//! The base of all qcow2 crates: faults, storages, offsets and clusters.
#![tactic(auto)]

mod bits;
mod fault;
mod format;
mod on_disk_struct;
mod storage;
mod types;

pub use bits::field;
pub use fault::{Fault, FaultKind, Field, UncountedPart};
pub use format::{
    EXTERNAL_DATA_FILE_BIT, MAGIC, MAX_BACKING_FILENAME, MAX_FILE_LENGTH, MAX_L1_ENTRIES,
    MAX_OFFSET, MAX_REFTABLE_ENTRIES, MAX_SNAPSHOTS,
};
pub use on_disk_struct::{
    HeaderExtensionHeader, OnDiskSize, OnDiskStruct, SnapshotHeader, V2Header, V3HeaderBase,
    read_be, read_le, write_be, write_le,
};
pub use storage::{
    Device, FileStorage, ImageFile, ImageFiles, MemStorage, SliceStorage, Storage, StorageFault,
};
pub use types::{ClusterCount, GuestCluster, GuestOffset, HostCluster, HostOffset};
