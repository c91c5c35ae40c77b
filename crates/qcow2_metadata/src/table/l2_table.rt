//! L2 tables: the mappings of the guest clusters of a part of the disk.

ghost use Rattle.std.specs.Prelude.{◌≡◌, ℕ, None, ◌-◌, ◌*◌, ◌^◌, ◌==◌, ◌<◌, ◌≢◌, IfErr, IfOk, IsOkAnd, IsOkUnless, OnOk, length, map, replicate, true};
ghost use Rattle.std.proofs.Common.{lit≤};
ghost use Rattle.qcow2_base.specs.Format.{most_l2_entries};
ghost use Rattle.qcow2_base.specs.declared.fault.Fault.TheVariants.{NoMemory};
ghost use Rattle.qcow2_metadata.specs.Entries.L2Mapping.{IsPlaced, meaning};
ghost use Rattle.qcow2_metadata.specs.Entries.L2Entry.{entry_in_copy};
ghost use Rattle.qcow2_metadata.specs.Header.{geometry_of};
ghost use Rattle.qcow2_metadata.specs.Placed.{IsLoaded, LeavesReloaded, RefusesPlace, WritesIfModified, new_placed};
ghost use Rattle.qcow2_metadata.specs.Table.{IsTableFault, l2_entries, l2_kind, l2_layout, layout_of_table, loaded_l2_table, mapping_at};
ghost use Rattle.qcow2_metadata.specs.Results.{Reads};

use super::pieces::TableBytes;
use super::{
    CompressedClusterReadGuard, EntryTable, L2TableWriteGuard, Table, TableKind, table_offset,
};
use crate::entries::RunPattern;
use crate::pieces::Pieces;
use crate::{AtomicL2Entry, Header, L2Entry, L2Mapping};
use qcow2_base::{ClusterCount, Fault, GuestCluster, HostCluster, Storage};
use std::alloc::{AllocError, Global};

/// A table of L2 entries, one for each guest cluster of its part of the disk. It fills one cluster.
pub type L2Table = EntryTable<AtomicL2Entry>;

impl TableKind for AtomicL2Entry {
    type Entry = L2Entry;

    const NAME: &'static str = "L2 table";

    const MAX_ENTRIES: usize = 262144;

    ghost MAX_ENTRIES = { most_l2_entries };

    ghost has_valid_count = { λ cb n. n == l2_entries cb };

    fn cleared() -> Self {
        AtomicL2Entry::new(L2Entry::UNALLOCATED)
    }

    fn entry(self) -> L2Entry {
        self.get()
    }

    ghost few_entries = { lit≤ tt };
}

// Returns the entries for a second table that has them too.
fn shared_entries(
    alloc: Global,
    entries: &[AtomicL2Entry],
    external_data_file: bool,
) -> Result<Vec<AtomicL2Entry>, AllocError>
    ensures { IfOk result (λ list. list.items ≡ map (entry_in_copy external_data_file) entries.now) }
{
    let mut list = Vec::with_capacity(alloc, entries.len())?;
    list.extend(
        entries.iter().map(
            |entry: &AtomicL2Entry| -> AtomicL2Entry
                ensures { result ≡ entry_in_copy external_data_file entry.now }
            { AtomicL2Entry::new(entry.get().shared(external_data_file)) },
        ),
    )?;
    Ok(list)
}

impl EntryTable<AtomicL2Entry> {
    ghost use Rattle.std.specs.Prelude.{option_map};
    ghost use Rattle.qcow2_metadata.specs.Table.L2Guards.{IsTableGuard, guarded_range, references};
    ghost use Rattle.qcow2_metadata.specs.Table.L2Table.{IsMappedRun, compressed_range};

    /// Returns an empty table for an image with this header, which maps nothing. It has no cluster, and
    /// counts as modified. Fails only if memory runs out.
    #[tactic(auto, using(crate::proofs::TableLemmas::no_fault_in_copies))]
    pub fn new_cleared(alloc: Global, header: &Header) -> Result<L2Table, Fault>
        ensures fault { IsOkUnless result Fault.NoMemory }
        ensures table { IfOk result (λ table.
            table ≡ new_placed (replicate (l2_entries header.now.v2.cluster_bits) 0)
            (geometry_of header.now)) }
    {
        let entries = vec![in alloc; AtomicL2Entry::cleared(); header.l2_entries()]?;
        Ok(L2Table::from_data(entries, header))
    }

    /// Whether guest data lies in an external data file, by the header of the table's creation or load.
    #[inline]
    pub fn external_data_file(&self) -> bool
        ensures { result ≡ self.now.geometry.external_data_file }
    {
        self.external_data_file
    }

    /// Returns the mapping of a guest cluster by its entry in this table. The cluster's offset must fit 64
    /// bits. Always returns `Ok`.
    #[inline]
    pub fn get_mapping(&self, guest_cluster: GuestCluster) -> Result<L2Mapping, Fault>
        requires { guest_cluster.0 * 2 ^ self.now.geometry.cluster_bits < 2 ^ 64 }
        ensures mapping { IsOkAnd result (λ found. meaning found ≡ mapping_at self.now guest_cluster.0) }
        ensures placed { IfOk result (IsPlaced self.now.geometry.cluster_bits) }
    {
        let cluster_bits = self.cluster_bits();
        let entry = self.get(guest_cluster.l2_index(cluster_bits));
        entry.into_mapping(guest_cluster, cluster_bits, self.external_data_file())
    }

    /// Returns the number of guest clusters, from this one on, that form one run by their entries in this
    /// table, up to its end: data in consecutive host clusters, zeros in consecutive ones, zeros without host
    /// clusters, compressed data, or the backing file's data. Copied flags make no difference.
    pub fn run_length(&self, guest_cluster: GuestCluster) -> ClusterCount
        ensures { IsMappedRun self.now guest_cluster.0 result.0 }
    {
        let cluster_bits = self.cluster_bits();
        let index = guest_cluster.l2_index(cluster_bits);
        let pattern = RunPattern::of(self.get(index), cluster_bits, self.external_data_file());
        let (entries, end) = (self.as_slice(), self.entries());
        ClusterCount(1 + pattern.count(&entries[index + 1..end]) as u64)
    }

    /// Reads the L2 table at a cluster of the image over this one, as `load` does, but allocates nothing. The
    /// table then has that cluster and doesn't count as modified. The header must be of the image that the
    /// table was made or loaded for.
    ///
    /// Refuses an end past 2^56 (21), then the first entry with a reserved bit (18) or an unaligned offset
    /// (19), and reads nothing after the piece of that entry. Fault 21 leaves the table unchanged. Any other
    /// fault may leave any valid entries; the table then has no cluster, and counts as modified. Never
    /// changes a byte.
    pub fn reload<S: Storage>(
        &mut self,
        image: &mut S,
        header: &Header,
        cluster: HostCluster,
    ) -> Result<(), Fault>
        requires geometry { self.old.geometry ≡ geometry_of header.now }
        ensures refused { RefusesPlace (l2_layout self.old.geometry) cluster result }
        ensures reads { Reads (λ done. self.new.numbers) result (loaded_l2_table self.old.geometry cluster)
            (IsTableFault (l2_layout self.old.geometry) cluster) (S.state image.old) (S.state image.new) }
        ensures loaded { OnOk result (IsLoaded (l2_layout self.old.geometry) self.old.geometry cluster
            (S.state image.old) self.new) }
        ensures memory { IfErr result (λ fault. fault ≢ NoMemory) }
        ensures left { LeavesReloaded result self.old self.new }
    {
        let (cluster_bits, entries) = (self.cluster_bits(), self.entries());
        let offset = table_offset(cluster, cluster_bits, entries, Self::MAX_ENTRIES)?;
        self.read_over(image, header, offset)?;
        self.set_cluster(cluster);
        self.clear_modified();
        Ok(())
    }

    /// Writes the table to the image, as `write` does, if it counts as modified. Its cluster must then be the
    /// given one. Else changes neither table nor image.
    pub fn write_if_modified<S: Storage>(
        &mut self,
        image: &mut S,
        cluster: HostCluster,
    ) -> Result<(), Fault>
        requires { self.old.modified ≡ true → self.old.cluster ≡ Some cluster }
        ensures { WritesIfModified S.state (layout_of_table l2_kind self.old) result self.old self.new
            image.old image.new }
    {
        // Only the contract uses the cluster.
        let _ = cluster;
        let mut placement = self.placement;
        let written = placement.write_if_modified(
            &TableBytes { table: &*self },
            Pieces::All,
            image,
        );
        self.placement = placement;
        written
    }

    /// Returns the place of a guest cluster's compressed data, or `None` if the data isn't compressed. The
    /// cluster's offset must fit 64 bits. The table can't change while the result exists. Always returns
    /// `Ok`.
    pub fn lock_compressed_read(
        &self,
        guest_cluster: GuestCluster,
    ) -> Result<Option<CompressedClusterReadGuard<'_>>, Fault>
        requires { guest_cluster.0 * 2 ^ self.now.geometry.cluster_bits < 2 ^ 64 }
        ensures { IsOkAnd result (λ guard.
            option_map guarded_range guard ≡ compressed_range (mapping_at self.now guest_cluster.0)) }
    {
        match self.get_mapping(guest_cluster)? {
            L2Mapping::Compressed {
                host_offset,
                length,
            } => Ok(Some(CompressedClusterReadGuard {
                table: self,
                offset: host_offset,
                length,
            })),
            _ => Ok(None),
        }
    }

    /// Returns a table with the same mappings and the same modified flag for another place, without a
    /// cluster. The host clusters of its entries then have one more reference, so it has no copied flags,
    /// except for cluster 0 of an external data file, where the flag alone shows that there is a cluster.
    /// This table stays. Fails only if memory runs out.
    #[tactic(auto, using(crate::proofs::L2TableLemmas::clones))]
    pub fn try_clone(&self) -> Result<L2Table, Fault>
        ensures fault { IsOkUnless result Fault.NoMemory }
        ensures table { let copied = entry_in_copy self.now.geometry.external_data_file in IfOk result
            (λ table. table ≡ record self.now { numbers = map copied self.now.numbers; cluster = None }) }
        ensures references { IfOk result (λ table. (cluster : ℕ) →
            references table.geometry table.numbers cluster
            ≡ references self.now.geometry self.now.numbers cluster) }
    {
        let alloc = self.allocator();
        let entries = shared_entries(alloc, self.as_slice(), self.external_data_file())?;
        Ok(self.with_entries(entries))
    }

    /// Returns a guard for changes of the table's mappings.
    pub fn lock_write(&mut self) -> L2TableWriteGuard<'_>
        ensures table { IsTableGuard self.entry result }
    {
        L2TableWriteGuard { table: self }
    }
}
