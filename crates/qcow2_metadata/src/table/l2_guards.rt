//! Guards of L2 tables: one changes mappings, the other protects compressed data while it is read.

ghost use Rattle.std.specs.Prelude.{◌≡◌, ◌*◌, ◌^◌, ◌<◌, IfOk, IfSome, IsOkAnd, length, option_map, slice_index, true, false};
ghost use Rattle.qcow2_metadata.specs.Table.L2Guards.{MakesEdit, is_mappable, to_data, to_zeros};
ghost use Rattle.qcow2_metadata.specs.Entries.{with_copied};
ghost use Rattle.qcow2_metadata.specs.Entries.L2Entry.{IsAllocation, is_compressed};
ghost use Rattle.qcow2_metadata.specs.Entries.PendingClusters.{IsOneCluster};
ghost use Rattle.qcow2_metadata.specs.Entries.L2Mapping.{IsPlaced, meaning};
ghost use Rattle.qcow2_metadata.specs.Placed.{with_number};
ghost use Rattle.qcow2_metadata.specs.Table.{mapping_at};

use super::{L2Table, Table, TableKind};
use crate::{AtomicL2Entry, ClustersToFreeEntry, L2Entry, L2Mapping, PendingClusters};
use qcow2_base::{ClusterCount, Fault, GuestCluster, HostCluster, HostOffset};
use std::num::NonZero;

/// A guard for changes of an L2 table's mappings. Nobody else can access the table while it exists.
#[derive(Debug, Drop)]
pub struct L2TableWriteGuard<'a> {
    pub(super) table: &'a mut L2Table,
}

impl L2TableWriteGuard<'_> {
    ghost use Rattle.qcow2_metadata.specs.Table.L2Guards.{IsSameTable, guarded_range, guarded_table};
    ghost use Rattle.qcow2_metadata.specs.Table.L2Table.{compressed_range};

    /// Returns the mapping of a guest cluster, as `L2Table::get_mapping` does.
    pub fn get_mapping(&self, guest_cluster: GuestCluster) -> Result<L2Mapping, Fault>
        requires { guest_cluster.0 * 2 ^ (guarded_table self.now).geometry.cluster_bits < 2 ^ 64 }
        ensures mapping { IsOkAnd result (λ found.
            meaning found ≡ mapping_at (guarded_table self.now) guest_cluster.0) }
        ensures placed { IfOk result (IsPlaced (guarded_table self.now).geometry.cluster_bits) }
    {
        self.table.get_mapping(guest_cluster)
    }

    /// Returns the place of a guest cluster's compressed data, as `L2Table::lock_compressed_read` does. The
    /// mappings can't change while the result exists.
    pub fn compressed_read_guard(
        &self,
        guest_cluster: GuestCluster,
    ) -> Result<Option<CompressedClusterReadGuard<'_>>, Fault>
        requires { guest_cluster.0 * 2 ^ (guarded_table self.now).geometry.cluster_bits < 2 ^ 64 }
        ensures { IsOkAnd result (λ guard.
            option_map guarded_range guard
            ≡ compressed_range (mapping_at (guarded_table self.now) guest_cluster.0)) }
    {
        self.table.lock_compressed_read(guest_cluster)
    }

    /// Maps the guest cluster at an index to data in a host cluster without another reference, and sets the
    /// copied flag. Returns all host clusters that the entry referred to, or `None` if that was this one
    /// alone, which stays referenced. The table then counts as modified.
    ///
    /// The host cluster's offset must be at most `MAX_OFFSET`, and it must not be cluster 0, unless guest
    /// data lies in an external data file. Pending clusters must be that cluster alone, and are spent.
    #[must_use]
    pub fn map_cluster(
        &mut self,
        index: usize,
        host_cluster: HostCluster,
        new_allocation: Option<PendingClusters>,
    ) -> Option<ClustersToFreeEntry>
        requires index { index < length (guarded_table self.old).numbers }
        requires cluster { is_mappable (guarded_table self.old).geometry host_cluster.0 ≡ true }
        requires pending { IfSome new_allocation (λ pending. IsOneCluster pending host_cluster) }
        ensures same_table { IsSameTable self.old self.new }
        ensures edit { MakesEdit (to_data host_cluster.0) index result
            (guarded_table self.old) (guarded_table self.new) }
    {
        if let Some(new_allocation) = new_allocation {
            new_allocation.make_persistent();
        }
        let mapping = L2Mapping::DataFile {
            host_cluster,
            copied: true,
        };
        let entry = L2Entry::from_mapping(mapping, self.table.cluster_bits());
        let before = self.table.replace_entry(index, AtomicL2Entry::new(entry));
        let freed = self.allocation_of(before.get())?;
        if freed.first == host_cluster && freed.count == ClusterCount(1) {
            return None;
        }
        Some(freed)
    }

    /// Maps the guest cluster at an index to zeros. With `keep_allocation` an entry with a host cluster,
    /// unless compressed, keeps it with its copied flag. Returns all host clusters that the entry no longer
    /// refers to. The table then counts as modified. Always returns `Ok`.
    #[must_use]
    pub fn zero_cluster(
        &mut self,
        index: usize,
        keep_allocation: bool,
    ) -> Result<Option<ClustersToFreeEntry>, Fault>
        requires { index < length (guarded_table self.old).numbers }
        ensures same_table { IsSameTable self.old self.new }
        ensures edit { IsOkAnd result (λ freed.
            MakesEdit (to_zeros keep_allocation) index freed
            (guarded_table self.old) (guarded_table self.new)) }
    {
        let before = self.table.entry_within(index);
        if keep_allocation && before.has_host_cluster(self.table.external_data_file()) {
            let zeros = AtomicL2Entry::new(before.with_zero_flag());
            self.table.replace_entry(index, zeros);
            return Ok(None);
        }
        let zeros = AtomicL2Entry::new(L2Entry::ZERO);
        self.table.replace_entry(index, zeros);
        Ok(self.allocation_of(before))
    }

    /// Removes the mapping at an index. Returns all host clusters that the entry referred to, or `None` if it
    /// referred to none. The table then counts as modified.
    #[must_use]
    pub fn discard_cluster(&mut self, index: usize) -> Option<ClustersToFreeEntry>
        requires { index < length (guarded_table self.old).numbers }
        ensures same_table { IsSameTable self.old self.new }
        ensures edit { guarded_table self.new ≡ with_number (guarded_table self.old) index 0 }
        ensures freed { let table = guarded_table self.old in
            IsAllocation table.geometry (slice_index table.numbers index) result }
    {
        let before = self.table.replace_entry(index, AtomicL2Entry::cleared());
        self.allocation_of(before.get())
    }

    /// Sets or clears the copied flag, bit 63, of the entry at an index: whether its host cluster has exactly
    /// one reference. All else of the entry stays. The table then counts as modified. The flag must not be
    /// set in a compressed entry. In an external data file offset 0 is cluster 0 only with the flag.
    pub fn set_copied(&mut self, index: usize, is_copied: bool)
        requires index { index < length (guarded_table self.old).numbers }
        requires standard { is_copied ≡ true →
            is_compressed (slice_index (guarded_table self.old).numbers index) ≡ false }
        ensures same_table { IsSameTable self.old self.new }
        ensures edit { let table = guarded_table self.old in guarded_table self.new
            ≡ with_number table index (with_copied is_copied (slice_index table.numbers index)) }
    {
        let entry = self.table.entry_within(index).with_copied(is_copied);
        self.table.replace_entry(index, AtomicL2Entry::new(entry));
    }

    fn allocation_of(&self, entry: L2Entry) -> Option<ClustersToFreeEntry>
        ensures { IsAllocation (guarded_table self.now).geometry entry result }
    {
        let external_data_file = self.table.external_data_file();
        let (first, count) = entry.allocation(self.table.cluster_bits(), external_data_file)?;
        Some(ClustersToFreeEntry { first, count })
    }
}

/// The place of a guest cluster's compressed data. The table can't change while this exists, so the data
/// keeps its reference.
#[derive(Debug, Drop)]
pub struct CompressedClusterReadGuard<'a> {
    pub(super) table: &'a L2Table,
    pub(super) offset: HostOffset,
    pub(super) length: NonZero<u64>,
}

impl CompressedClusterReadGuard<'_> {
    ghost use Rattle.std.specs.Int.NonZero.{non_zero_u64_get};
    ghost use Rattle.qcow2_metadata.specs.Table.L2Guards.{guarded_range};

    /// Returns the offset of the data in the image.
    #[inline]
    pub fn offset(&self) -> HostOffset
        ensures { result.0 ≡ (guarded_range self.now).0 }
    {
        self.offset
    }

    /// Returns an upper bound of the data's length, in bytes.
    #[inline]
    pub fn length(&self) -> NonZero<u64>
        ensures { non_zero_u64_get result ≡ (guarded_range self.now).1 }
    {
        self.length
    }
}
