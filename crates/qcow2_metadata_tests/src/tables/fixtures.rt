//! Fixtures of tables.

ghost use Rattle.std.specs.Prelude.{◌^◌, ◌≤◌, IsTrue};

use qcow2_base::{Fault, HostCluster, HostOffset, MemStorage, Storage};
use qcow2_calls::{LoadedTable, header_of, load_table, new_l2_table, set_cluster, write_table};
use qcow2_metadata::{EntryTable, Header, L1Table, L2Table, Table, TableEntry, TableKind};
use qcow2_testing::{all_same, image_with, same, same_image};
use std::alloc::Global;
use std::fmt::Debug;
use std::test::Fail;

/// Returns a header with these cluster bits, and otherwise like that of most images.
pub(crate) fn header_with(alloc: Global, cluster_bits: u32) -> Result<Header, Fault> {
    header_of(alloc, cluster_bits, 4, false)
}

/// The properties of an image that table entries depend on: cluster bits, and whether it has an external data
/// file.
#[derive(Clone, Copy, Debug)]
pub(crate) struct Disk {
    pub(crate) cluster_bits: u32,
    pub(crate) external: bool,
}

/// The disk of most tests.
pub(crate) const DISK: Disk = Disk {
    cluster_bits: 9,
    external: false,
};

/// The same, with an external data file.
pub(crate) const EXTERNAL: Disk = Disk {
    cluster_bits: 9,
    external: true,
};

/// Returns a disk without an external data file.
pub(crate) fn disk_of(cluster_bits: u32) -> Disk {
    Disk {
        cluster_bits,
        ..DISK
    }
}

/// Loads a table of `entries` entries at a cluster, of an image with such a disk.
pub(crate) fn load<T: LoadedTable, S: Storage>(
    alloc: Global,
    image: &mut S,
    disk: Disk,
    cluster: u64,
    entries: usize,
) -> Result<T, Fault> {
    let header = header_of(alloc, disk.cluster_bits, 4, disk.external)?;
    load_table(alloc, image, &header, HostCluster(cluster), entries)
}

/// Writes the table, and fails unless the image is as expected afterwards.
pub(crate) fn check_written_as<T: Table>(
    table: &mut T,
    image: &mut MemStorage,
    expected: Result<MemStorage, Fault>,
) -> Result<(), Fail> {
    same(write_table(table, image), Ok(()), "write")?;
    same_image(image, expected, "written")
}

/// For each cluster size an L1 entry and a standard L2 entry with the copied flag, and a refcount table
/// entry.
pub(crate) const NUMBER: u64 = 0x8000_0000_0020_0000;

/// The copied flag, bit 63 of an L1 or L2 entry: its cluster has exactly one reference.
pub(crate) const COPIED: u64 = 0x8000_0000_0000_0000;

/// A table whose entries are 0, except `number` at `index`.
#[derive(Clone, Copy, Debug)]
pub(crate) struct State {
    pub(crate) entries: usize,
    pub(crate) index: usize,
    pub(crate) number: u64,
    pub(crate) cluster: Option<u64>,
    pub(crate) modified: bool,
}

/// Returns the state of a table that is loaded from cluster 2.
pub(crate) fn loaded(entries: usize, index: usize, number: u64) -> State {
    State {
        entries,
        index,
        number,
        cluster: Some(2),
        modified: false,
    }
}

/// Returns the state of a new table, whose entries are 0.
pub(crate) fn cleared(entries: usize) -> State {
    loaded(entries, 0, 0).placed(None, true)
}

impl State {
    /// Returns the same with another cluster or none, and with this modified flag.
    pub(crate) fn placed(self, cluster: Option<u64>, modified: bool) -> State {
        State {
            cluster,
            modified,
            ..self
        }
    }
}

/// Fails unless the table has this state.
pub(crate) fn check_table<T: Table, R: Debug + Drop>(
    table: &T,
    state: State,
    row: R,
) -> Result<(), Fail> {
    let size = 1 << table.cluster_bits();
    let offset = state
        .cluster
        .map(|cluster| HostOffset(cluster.wrapping_mul(size)));
    all_same! {
        row,
        table.entries() => state.entries, other_entry(table, state) => None,
        table.get_cluster() => state.cluster.map(HostCluster), table.is_modified() => state.modified,
        table.get_offset() => offset,
    }
}

// Returns the first entry that differs, with its index.
fn other_entry<T: Table>(table: &T, state: State) -> Option<(usize, u64)> {
    let (place, number) = (state.index, state.number);
    for index in 0..state.entries {
        let found = table.get(index).to_plain();
        if found != if index == place { number } else { 0 } {
            return Some((index, found));
        }
    }
    None
}

/// Returns a table with this state, of an image with such a disk.
pub(crate) fn table_with<T: LoadedTable>(
    alloc: Global,
    disk: Disk,
    state: State,
) -> Result<T, Fault> {
    let start = l2_entries(disk.cluster_bits).saturating_mul(16);
    let offset = (start as u64).saturating_add((state.index as u64).saturating_mul(8));
    let mut image = image_with(alloc, start, &[(offset, state.number)])?;
    let mut table = load(alloc, &mut image, disk, 2, state.entries)?;
    place(&mut table, state.cluster, state.modified)?;
    Ok(table)
}

/// Returns the number of entries of an L2 table.
pub(crate) fn l2_entries(cluster_bits: u32) -> usize {
    if cluster_bits < 64 {
        (1 << cluster_bits) / 8
    } else {
        0
    }
}

// Sets or unsets the table's cluster, and sets or clears its modified flag. Fails if the cluster's offset
// doesn't fit 64 bits.
fn place<T: Table>(table: &mut T, cluster: Option<u64>, modified: bool) -> Result<(), Fault> {
    match cluster {
        Some(cluster) => set_cluster(table, HostCluster(cluster))?,
        None => table.unset_cluster(),
    }
    if modified {
        table.set_modified();
    } else {
        table.clear_modified();
    }
    Ok(())
}

// Returns a table of `entries` entries, all 0.
fn cleared_table<E: TableKind>(
    alloc: Global,
    header: &Header,
    entries: usize,
) -> Result<EntryTable<E>, Fault>
    requires count { IsTrue (E.has_valid_count header.now.v2.cluster_bits entries) }
    requires bound { entries ≤ 2 ^ 48 }
{
    let mut list = Vec::new(alloc);
    list.resize(entries, E::cleared())?;
    Ok(EntryTable::from_data(list, header))
}

/// Returns an L1 table of at most 4194305 entries, all 0, of an image of 512-byte clusters.
pub(crate) fn cleared_l1_table(
    alloc: Global,
    entries: usize,
    cluster: Option<u64>,
    modified: bool,
) -> Result<L1Table, Fault> {
    if entries > 4194305 {
        return Err(Fault::WrongLength);
    }
    let mut table = cleared_table(alloc, &header_with(alloc, 9)?, entries)?;
    place(&mut table, cluster, modified)?;
    Ok(table)
}

/// Returns a new L2 table.
pub(crate) fn cleared_l2_table(alloc: Global, cluster_bits: u32) -> Result<L2Table, Fault> {
    new_l2_table(alloc, &header_with(alloc, cluster_bits)?)
}

/// Fails unless the table grew to `entries` entries, or couldn't grow if that is `None`.
pub(crate) fn check_grown<T: Table + Drop, R: Debug + Drop>(
    answer: Result<T, Fault>,
    entries: Option<usize>,
    source: State,
    row: R,
) -> Result<(), Fail> {
    let grown = source.placed(None, true);
    match (answer, entries) {
        (Ok(table), Some(entries)) => check_table(&table, State { entries, ..grown }, row),
        (answer, _) => same(
            (answer.err(), entries),
            (Some(Fault::CannotGrow), None),
            row,
        ),
    }
}
