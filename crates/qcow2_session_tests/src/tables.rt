//! L2 tables for edits, and comparisons of the results.

use qcow2_base::{Fault, HostCluster, MemStorage};
use qcow2_calls::{header_of, load_table};
use qcow2_metadata::{ClustersToFreeEntry, L2Table, Table, TableEntry};
use qcow2_session::{Edit, Outcome};
use qcow2_testing::same;
use std::alloc::{AllocError, Global};
use std::fmt::Debug;
use std::test::Fail;

/// The index of the first of some consecutive entries of a table, and the entries. All others are 0.
pub(crate) type Entries<'a> = (usize, &'a [u64]);

/// The effect of edits on references: the clusters that gained one, and those that lost one.
pub(crate) type References<'a> = (&'a [HostCluster], &'a [ClustersToFreeEntry]);

// The cluster of each table.
const CLUSTER: HostCluster = HostCluster(0);

/// The entry of data in cluster 5 of 512 bytes.
pub(crate) const DATA_5: u64 = 0x8000_0000_0000_0a00;

// Makes references from numbers: clusters that gained one, and ranges that an edit handed back, each by its
// first cluster and its length.
macro_rules! outcome {
    ([$($gained:expr),*], [$(($first:expr, $count:expr)),*]) => {
        (
            &[$(qcow2_base::HostCluster($gained)),*],
            &[$(qcow2_metadata::ClustersToFreeEntry {
                first: qcow2_base::HostCluster($first),
                count: qcow2_base::ClusterCount($count),
            }),*],
        )
    };
}

// Makes an edit that maps the entry at an index to a cluster.
macro_rules! map {
    ($index:expr, $cluster:expr) => {
        qcow2_session::Edit::Map {
            index: $index,
            host_cluster: qcow2_base::HostCluster($cluster),
        }
    };
}

pub(crate) use map;
pub(crate) use outcome;

// Edits of the entry at index 3.
pub(crate) const TO_0: Edit = map!(3, 0);

pub(crate) const TO_1: Edit = map!(3, 1);

pub(crate) const TO_2: Edit = map!(3, 2);

pub(crate) const TO_5: Edit = map!(3, 5);

pub(crate) const TO_6: Edit = map!(3, 6);

pub(crate) const KEEP: Edit = Edit::Zero {
    index: 3,
    keep_allocation: true,
};

pub(crate) const ZERO: Edit = Edit::Zero {
    index: 3,
    keep_allocation: false,
};

pub(crate) const GONE: Edit = Edit::Discard { index: 3 };

// An edit past the end of a table of 64 entries.
pub(crate) const PAST: Edit = map!(64, 5);

/// Returns the bytes of a table up to the last of these entries.
pub(crate) fn table_of(alloc: Global, entries: Entries<'_>) -> Result<Vec<u8>, AllocError> {
    let (start, numbers) = entries;
    let mut bytes = vec![in alloc; 0; start.saturating_mul(8)]?;
    for number in numbers {
        bytes.extend_from_slice(&number.to_be_bytes())?;
    }
    Ok(bytes)
}

/// Returns a table with these entries, of an image with these cluster bits, and maybe an external data file.
pub(crate) fn table_with(
    alloc: Global,
    (bits, external): (u32, bool),
    entries: Entries<'_>,
    modified: bool,
) -> Result<L2Table, Fault> {
    let header = header_of(alloc, bits, 4, external)?;
    let mut image = MemStorage::new(table_of(alloc, entries)?);
    let mut table: L2Table = load_table(alloc, &mut image, &header, CLUSTER, header.l2_entries())?;
    if modified {
        table.set_modified();
    }
    Ok(table)
}

/// Fails unless the table has these entries, its cluster and this modified flag.
pub(crate) fn check_table<R: Debug + Copy + Drop>(
    table: &L2Table,
    entries: Entries<'_>,
    modified: bool,
    row: R,
) -> Result<(), Fail> {
    for index in 0..table.entries() {
        let found = table.get(index).to_plain();
        same(found, number_at(entries, index), (row, index))?;
    }
    let found = (table.get_cluster(), table.is_modified());
    same(found, (Some(CLUSTER), modified), row)
}

fn number_at(entries: Entries<'_>, index: usize) -> u64 {
    let (start, numbers) = entries;
    if index >= start
        && let Some(number) = numbers.get(index - start)
    {
        return *number;
    }
    0
}

/// Fails unless edits returned this effect on references, or this fault.
pub(crate) fn check_outcome<R: Debug + Drop>(
    answer: Result<Outcome, Fault>,
    expected: Result<References<'_>, Fault>,
    row: R,
) -> Result<(), Fail> {
    let found = match &answer {
        Ok(outcome) => Ok((outcome.gained.as_slice(), outcome.freed.as_slice())),
        Err(fault) => Err(*fault),
    };
    same(found, expected, row)
}
