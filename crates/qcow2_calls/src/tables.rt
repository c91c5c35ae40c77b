//! Calls of tables.

ghost use Rattle.std.specs.Prelude.{◌≡◌, ◌*◌, ◌^◌, ◌≤◌, IfSome, IsTrue};
ghost use Rattle.qcow2_base.specs.Format.{max_offset};
ghost use Rattle.qcow2_base.specs.Types.{IsClusterBits};
ghost use Rattle.qcow2_metadata.specs.Table.{IsReferable};

use crate::{NOT_MADE, Refusal, given_up};
use qcow2_base::{ClusterCount, Fault, HostCluster, Storage};
use qcow2_metadata::{
    ClustersToFreeEntry, Header, L1Table, L2Table, MAX_OFFSET, PendingClusters, RefBlock, RefTable,
    SnapshotTable, Table, Turns,
};
use qcow2_testing::fits;
use std::alloc::Global;

/// A kind of table that can be loaded.
pub trait LoadedTable: Table + Drop {
    /// Whether a table of an image with this header may have this many entries.
    fn may_have(header: &Header, entries: usize) -> bool
        ensures { IsTrue result → IsTrue (Self.kind.has_valid_count header.now.v2.cluster_bits entries) };
}

impl LoadedTable for L1Table {
    fn may_have(_header: &Header, _entries: usize) -> bool {
        true
    }
}

impl LoadedTable for RefTable {
    fn may_have(_header: &Header, _entries: usize) -> bool {
        true
    }
}

impl LoadedTable for L2Table {
    fn may_have(header: &Header, entries: usize) -> bool {
        entries == header.l2_entries()
    }
}

/// `Table::load`.
pub fn load_table<T: LoadedTable, S: Storage>(
    alloc: Global,
    image: &mut S,
    header: &Header,
    cluster: HostCluster,
    entries: usize,
) -> Result<T, Fault> {
    if !T::may_have(header, entries) {
        return Err(NOT_MADE);
    }
    T::load(alloc, image, header, cluster, entries)
}

/// `SnapshotTable::load`.
pub fn load_snapshots<S: Storage>(
    alloc: Global,
    image: &mut S,
    header: &Header,
) -> Result<SnapshotTable, Fault> {
    SnapshotTable::load(alloc, image, header)
}

/// `L2Table::reload`.
pub fn reload_l2_table<S: Storage>(
    table: &mut L2Table,
    image: &mut S,
    header: &Header,
    cluster: HostCluster,
) -> Result<(), Fault> {
    let disk = (header.cluster_bits(), header.external_data_file());
    if (table.cluster_bits(), table.external_data_file()) != disk {
        return Err(NOT_MADE);
    }
    table.reload(image, header, cluster)
}

/// `L2Table::new_cleared`.
pub fn new_l2_table(alloc: Global, header: &Header) -> Result<L2Table, Fault> {
    L2Table::new_cleared(alloc, header)
}

/// `L2Table::try_clone`.
pub fn copy_l2_table(table: &L2Table) -> Result<L2Table, Fault> {
    table.try_clone()
}

/// `L1Table::clone_and_grow`.
pub fn grow_l1_table(table: &L1Table, index: usize, header: &Header) -> Result<L1Table, Fault> {
    if header.cluster_bits() != table.cluster_bits() {
        return Err(NOT_MADE);
    }
    table.clone_and_grow(index, header)
}

/// `RefTable::clone_and_grow`.
pub fn grow_reftable(table: &RefTable, header: &Header, index: usize) -> Result<RefTable, Fault> {
    if header.cluster_bits() != table.cluster_bits() {
        return Err(NOT_MADE);
    }
    table.clone_and_grow(header, index)
}

/// `least_spare`, with the number of turns that it took.
pub fn least_spare(len: usize, index: usize, header: &Header) -> (Option<usize>, usize) {
    if index >= RefTable::MAX_ENTRIES {
        return (None, 0);
    }
    let mut turns = Turns::new();
    let spare = qcow2_metadata::least_spare(len, index, header, &mut turns);
    (spare, turns.count())
}

/// `Table::write`.
pub fn write_table<T: Table, S: Storage>(table: &mut T, image: &mut S) -> Result<(), Fault> {
    table.write(image)
}

/// `Table::write_entry`.
pub fn write_entry<T: Table, S: Storage>(
    table: &mut T,
    image: &mut S,
    index: usize,
) -> Result<(), Fault> {
    if index >= table.entries() {
        return Err(NOT_MADE);
    }
    table.write_entry(image, index)
}

/// `L2Table::write_if_modified`.
pub fn write_l2_table_if_modified<S: Storage>(
    table: &mut L2Table,
    image: &mut S,
    cluster: HostCluster,
) -> Result<(), Fault> {
    if table.is_modified() && table.get_cluster() != Some(cluster) {
        return Err(NOT_MADE);
    }
    table.write_if_modified(image, cluster)
}

/// `Table::set_cluster`.
pub fn set_cluster<T: Table>(table: &mut T, cluster: HostCluster) -> Result<(), Fault> {
    if !fits(cluster.0, 0, table.cluster_bits()) {
        return Err(NOT_MADE);
    }
    table.set_cluster(cluster);
    Ok(())
}

// ---- Entering tables and blocks in other tables and in headers

/// `Header::set_l1_table`, with these pending clusters.
pub fn set_l1_table(
    header: &mut Header,
    table: &L1Table,
    pending: Option<ClustersToFreeEntry>,
) -> Result<(), Refusal> {
    if header.cluster_bits() != table.cluster_bits()
        || !may_be_spent(pending, table.get_cluster(), table.cluster_count())
    {
        return Err((NOT_MADE, pending));
    }
    given_up(header.set_l1_table(table, pending.map(to_pending)))
}

/// `Header::set_reftable`.
pub fn set_reftable(header: &mut Header, table: &RefTable) -> Result<(), Fault> {
    if header.cluster_bits() != table.cluster_bits() {
        return Err(NOT_MADE);
    }
    header.set_reftable(table)
}

/// `L1Table::enter_l2_table`, with these pending clusters.
pub fn enter_l2_table(
    table: &mut L1Table,
    index: usize,
    l2_table: &L2Table,
    pending: Option<ClustersToFreeEntry>,
) -> Result<(), Refusal> {
    let (bits, cluster) = (table.cluster_bits(), l2_table.get_cluster());
    if !table.in_bounds(index)
        || l2_table.cluster_bits() != bits
        || !is_referable(cluster, bits)
        || !may_be_spent(pending, cluster, ClusterCount(1))
    {
        return Err((NOT_MADE, pending));
    }
    given_up(table.enter_l2_table(index, l2_table, pending.map(to_pending)))
}

/// `RefTable::enter_refblock`, with these pending clusters.
pub fn enter_refblock(
    table: &mut RefTable,
    index: usize,
    block: &RefBlock,
    pending: Option<ClustersToFreeEntry>,
) -> Result<(), Refusal> {
    let (bits, cluster) = (table.cluster_bits(), block.get_cluster());
    if !table.in_bounds(index)
        || block.cluster_bits() != bits
        || !is_referable(cluster, bits)
        || !may_be_spent(pending, cluster, ClusterCount(1))
    {
        return Err((NOT_MADE, pending));
    }
    given_up(table.enter_refblock(index, block, pending.map(to_pending)))
}

// ---- Edits of one entry

/// `L2TableWriteGuard::map_cluster`, with these pending clusters.
pub fn map_cluster(
    table: &mut L2Table,
    index: usize,
    host_cluster: HostCluster,
    pending: Option<ClustersToFreeEntry>,
) -> Result<Option<ClustersToFreeEntry>, Fault> {
    let bits = table.cluster_bits();
    let is_cluster_0 = host_cluster == HostCluster(0) && !table.external_data_file();
    if !table.in_bounds(index)
        || is_cluster_0
        || !has_offset(host_cluster, bits)
        || !may_be_spent(pending, Some(host_cluster), ClusterCount(1))
    {
        return Err(NOT_MADE);
    }
    let pending = pending.map(to_pending);
    Ok(table.lock_write().map_cluster(index, host_cluster, pending))
}

/// `L2TableWriteGuard::zero_cluster`.
pub fn zero_cluster(
    table: &mut L2Table,
    index: usize,
    keep_allocation: bool,
) -> Result<Option<ClustersToFreeEntry>, Fault> {
    if !table.in_bounds(index) {
        return Err(NOT_MADE);
    }
    table.lock_write().zero_cluster(index, keep_allocation)
}

/// `L2TableWriteGuard::discard_cluster`.
pub fn discard_cluster(
    table: &mut L2Table,
    index: usize,
) -> Result<Option<ClustersToFreeEntry>, Fault> {
    if !table.in_bounds(index) {
        return Err(NOT_MADE);
    }
    Ok(table.lock_write().discard_cluster(index))
}

/// `L2TableWriteGuard::set_copied`.
pub fn set_l2_copied(table: &mut L2Table, index: usize, is_copied: bool) -> Result<(), Fault> {
    if !table.in_bounds(index) || is_copied && table.get(index).is_compressed() {
        return Err(NOT_MADE);
    }
    table.lock_write().set_copied(index, is_copied);
    Ok(())
}

/// `L1Table::set_copied`.
pub fn set_l1_copied(table: &mut L1Table, index: usize, is_copied: bool) -> Result<(), Fault> {
    if !table.in_bounds(index) {
        return Err(NOT_MADE);
    }
    table.set_copied(index, is_copied);
    Ok(())
}

// ---- Conditions of these calls

fn to_pending(clusters: ClustersToFreeEntry) -> PendingClusters
    ensures { result ≡ clusters }
{
    PendingClusters::new(clusters.first, clusters.count)
}

// Whether pending clusters, if there are any, may be handed in for a table of `count` clusters that begins
// at this cluster: they are those clusters, or the table has no cluster.
fn may_be_spent(
    pending: Option<ClustersToFreeEntry>,
    cluster: Option<HostCluster>,
    count: ClusterCount,
) -> bool
    ensures { IsTrue result → IfSome cluster (λ first. IfSome pending (λ pending.
        (pending.first ≡ first) × (pending.count.0 ≡ count.0))) }
{
    match (pending, cluster) {
        (Some(pending), Some(first)) => pending.first == first && pending.count == count,
        _ => true,
    }
}

// Whether an entry can hold the cluster's offset.
fn has_offset(cluster: HostCluster, cluster_bits: u32) -> bool
    requires { IsClusterBits cluster_bits }
    ensures { IsTrue result → cluster.0 * 2 ^ cluster_bits ≤ max_offset }
{
    fits(cluster.0, 0, cluster_bits) && cluster.offset(cluster_bits) <= MAX_OFFSET
}

// Whether an entry may refer to the cluster, if there is one.
fn is_referable(cluster: Option<HostCluster>, cluster_bits: u32) -> bool
    requires { IsClusterBits cluster_bits }
    ensures { IsTrue result → IfSome cluster (IsReferable cluster_bits) }
{
    match cluster {
        Some(cluster) => cluster != HostCluster(0) && has_offset(cluster, cluster_bits),
        None => true,
    }
}
