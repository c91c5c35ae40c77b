//! The snapshot table: how many internal snapshots an image has, and where their L1 tables lie.

ghost use Rattle.std.specs.Prelude.{◌≡◌, ◌≤◌, IfOk};
ghost use Rattle.qcow2_base.specs.Format.{max_file_length};
ghost use Rattle.qcow2_metadata.specs.Results.{Reads};
ghost use Rattle.qcow2_metadata.specs.SnapshotTable.{entry_at, entry_end, has_table, no_snapshots};

use crate::Header;
use crate::range::read_range;
use qcow2_base::{
    Fault, HostOffset, MAX_FILE_LENGTH, MAX_SNAPSHOTS, OnDiskStruct, SnapshotHeader, Storage,
    UncountedPart, read_be,
};
use std::alloc::Global;
use std::marker::Model;

// The most bytes of extra data of an entry.
const MOST_EXTRA_BYTES: u32 = 1024;

// The most bytes of a snapshot table.
const MOST_TABLE_BYTES: u64 = 1 << 26;

// A snapshot table that can't be followed.
const NO_SNAPSHOTS: Fault = Fault::Uncounted(UncountedPart::Snapshots);

/// The snapshot table of an image. It has an entry for each internal snapshot, which says where the
/// snapshot's L1 table lies. Ids, names and extra data stay in the image. In contracts it is its
/// `SnapshotTableState`.
#[derive(Debug, Drop)]
pub struct SnapshotTable {
    snapshots: Vec<SnapshotHeader>,
    byte_count: u64,
}

impl Model for SnapshotTable {
    ghost use Rattle.qcow2_metadata.specs.SnapshotTable.{SnapshotTableState};

    ghost Value = { SnapshotTableState };

    ghost view = { λ t. record { snapshots = t.snapshots.items; byte_count = t.byte_count } };
}

impl SnapshotTable {
    ghost use Rattle.qcow2_metadata.specs.SnapshotTable.{loaded_snapshots};

    /// Loads the snapshot table of an image with this header: no entry if it has no snapshots.
    ///
    /// The entries follow each other from the table's offset on, each at a multiple of 8 bytes. Fault 37
    /// refuses more than 65536 of them, a table that doesn't begin with a cluster, is longer than 64 MiB or
    /// ends past 2^56, and an entry with more than 1024 bytes of extra data. Takes memory only for entries
    /// that it has read. Doesn't look at the L1 tables. Changes no byte.
    pub fn load<S: Storage>(
        alloc: Global,
        image: &mut S,
        header: &Header,
    ) -> Result<SnapshotTable, Fault>
        ensures { Reads (λ table. table) result (loaded_snapshots header.now)
            (λ fault. fault ≡ no_snapshots) (S.state image.old) (S.state image.new) }
    {
        let (count, start) = (header.snapshot_count(), header.snapshots_offset().0);
        if count != 0 && !has_table(header) {
            return Err(NO_SNAPSHOTS);
        }
        let limit = start.saturating_add(MOST_TABLE_BYTES).min(MAX_FILE_LENGTH);
        let mut snapshots = Vec::new(alloc);
        let mut end = start;
        for _ in 0..count {
            let offset = end.next_multiple_of(8);
            let entry = read_entry(image, offset, limit)?;
            end = entry_end(offset, &entry);
            snapshots.push(entry)?;
        }
        Ok(SnapshotTable {
            snapshots,
            byte_count: end - start,
        })
    }

    /// Returns the entries in their order, without ids, names and extra data.
    #[inline]
    pub fn snapshots(&self) -> &[SnapshotHeader]
        ensures { result.now ≡ self.now.snapshots }
    {
        self.snapshots.as_slice()
    }

    /// Returns the number of bytes up to the last entry's end, without that entry's padding.
    #[inline]
    pub fn byte_count(&self) -> u64
        ensures { result ≡ self.now.byte_count }
    {
        self.byte_count
    }
}

// Whether an image with this header can have a snapshot table as it says.
fn has_table(header: &Header) -> bool
    ensures { result ≡ has_table header.now }
{
    let offset = header.snapshots_offset().0;
    offset % header.cluster_size() as u64 == 0
        && offset <= MAX_FILE_LENGTH
        && header.snapshot_count() <= MAX_SNAPSHOTS
}

// Reads the part of fixed length of the entry at an offset. Refuses an entry that has too much extra data, or
// ends past a limit.
fn read_entry<S: Storage>(image: &mut S, offset: u64, limit: u64) -> Result<SnapshotHeader, Fault>
    requires offset { offset ≤ max_file_length }
    requires limit { limit ≤ max_file_length }
    ensures reads { Reads (λ entry. entry) result (λ bytes. entry_at limit bytes offset)
        (λ fault. fault ≡ no_snapshots) (S.state image.old) (S.state image.new) }
    ensures end { IfOk result (λ entry. entry_end offset entry ≤ limit) }
{
    if offset + SnapshotHeader::ON_DISK_SIZE as u64 > limit {
        return Err(NO_SNAPSHOTS);
    }
    let mut bytes = [0u8; SnapshotHeader::ON_DISK_SIZE];
    read_range(image, HostOffset(offset), &mut bytes)?;
    let entry: SnapshotHeader = read_be(&bytes, 0);
    if entry.extra_data_size > MOST_EXTRA_BYTES || entry_end(offset, &entry) > limit {
        return Err(NO_SNAPSHOTS);
    }
    Ok(entry)
}

// Returns where the entry at an offset ends.
fn entry_end(offset: u64, entry: &SnapshotHeader) -> u64
    requires { offset ≤ max_file_length }
    ensures { result ≡ entry_end offset entry.now }
{
    offset
        + SnapshotHeader::ON_DISK_SIZE as u64
        + u64::from(entry.extra_data_size)
        + u64::from(entry.id_str_size)
        + u64::from(entry.name_size)
}
