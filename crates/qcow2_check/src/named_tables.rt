//! The tables and refcount blocks that an image names.

ghost use Rattle.std.specs.Prelude.{◌≡◌, ◌≤◌, IfErr, IfOk, IfSome, length, slice_index};
ghost use Rattle.qcow2_base.specs.Format.{most_l1_entries, most_reftable_entries};
ghost use Rattle.qcow2_metadata.specs.Header.{geometry_of};
ghost use Rattle.qcow2_metadata.specs.Placed.{IsLoaded, RefusesPlace};
ghost use Rattle.qcow2_metadata.specs.Results.{Reads};
ghost use Rattle.qcow2_metadata.specs.Table.{IsContentFault, IsTableFault, l2_layout, loaded_l2_table};
ghost use Rattle.qcow2_check.specs.NamedTables.{IsInImage, l1_cluster, l1_layout, loaded_l1_table, loaded_reftable, named_block, named_cluster, reftable_cluster, reftable_layout};

use qcow2_base::{Fault, HostCluster, Storage};
use qcow2_metadata::{Header, L1Table, L2Table, RefTable, Table};
use std::alloc::Global;

/// Loads the L1 table that a header names, by `L1Table::load`.
#[tactic(auto, using(crate::proofs::NamedTablesLemmas::few_entries))]
pub fn load_l1_table<S: Storage>(
    alloc: Global,
    image: &mut S,
    header: &Header,
) -> Result<L1Table, Fault>
    ensures refused { RefusesPlace (l1_layout header.now) (l1_cluster header.now) result }
    ensures reads { Reads (λ table. table.numbers) result (loaded_l1_table header.now)
        (IsTableFault (l1_layout header.now) (l1_cluster header.now))
        (S.state image.old) (S.state image.new) }
    ensures loaded { IfOk result (IsLoaded (l1_layout header.now) (geometry_of header.now)
        (l1_cluster header.now) (S.state image.old)) }
    ensures entries { IfOk result (λ table. length table.numbers ≤ most_l1_entries) }
{
    let cluster = header.l1_table_offset().cluster(header.cluster_bits());
    L1Table::load(alloc, image, header, cluster, header.l1_table_entries())
}

/// Loads the refcount table that a header names, by `RefTable::load`.
#[tactic(auto, using(crate::proofs::NamedTablesLemmas::few_blocks))]
pub fn load_reftable<S: Storage>(
    alloc: Global,
    image: &mut S,
    header: &Header,
) -> Result<RefTable, Fault>
    ensures refused { RefusesPlace (reftable_layout header.now) (reftable_cluster header.now) result }
    ensures reads { Reads (λ table. table.numbers) result (loaded_reftable header.now)
        (IsTableFault (reftable_layout header.now) (reftable_cluster header.now))
        (S.state image.old) (S.state image.new) }
    ensures loaded { IfOk result (IsLoaded (reftable_layout header.now) (geometry_of header.now)
        (reftable_cluster header.now) (S.state image.old)) }
    ensures entries { IfOk result (λ table. length table.numbers ≤ most_reftable_entries) }
{
    let cluster = header.reftable_offset().cluster(header.cluster_bits());
    RefTable::load(alloc, image, header, cluster, header.reftable_entries())
}

/// Loads the L2 table at a cluster, by `L2Table::load`.
pub fn load_l2_table<S: Storage>(
    alloc: Global,
    image: &mut S,
    header: &Header,
    cluster: HostCluster,
) -> Result<L2Table, Fault>
    ensures refused { RefusesPlace (l2_layout (geometry_of header.now)) cluster result }
    ensures reads { Reads (λ table. table.numbers) result (loaded_l2_table (geometry_of header.now) cluster)
        (IsTableFault (l2_layout (geometry_of header.now)) cluster)
        (S.state image.old) (S.state image.new) }
    ensures loaded { let g = geometry_of header.now in
        IfOk result (IsLoaded (l2_layout g) g cluster (S.state image.old)) }
    ensures in_image { IsInImage header.now.v2.cluster_bits cluster →
        IfErr result IsContentFault }
{
    L2Table::load(alloc, image, header, cluster, header.l2_entries())
}

/// The cluster of the L2 table that the L1 entry at an index names, if it names one. It ends by 2^56. `None`
/// past the L1 table's end.
#[tactic(auto, using(crate::proofs::NamedTablesLemmas::l2_cluster_ends))]
pub fn named_cluster(l1_table: &L1Table, index: usize) -> Option<HostCluster>
    ensures value { let cb = l1_table.now.geometry.cluster_bits in
        result ≡ named_cluster cb (slice_index l1_table.now.numbers index) }
    ensures end { IfSome result (IsInImage l1_table.now.geometry.cluster_bits) }
{
    let offset = l1_table.get(index).l2_offset()?;
    Some(offset.cluster(l1_table.cluster_bits()))
}

/// The cluster of the refcount block that the refcount table entry at an index names, if it names one. `None`
/// past the refcount table's end.
#[inline]
pub fn named_block(reftable: &RefTable, index: usize) -> Option<HostCluster>
    ensures { let cb = reftable.now.geometry.cluster_bits in
        result ≡ named_block cb (slice_index reftable.now.numbers index) }
{
    let offset = reftable.get(index).refblock_offset()?;
    Some(offset.cluster(reftable.cluster_bits()))
}
