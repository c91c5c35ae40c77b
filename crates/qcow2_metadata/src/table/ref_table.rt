//! Refcount tables: the places of the refcount blocks.

ghost use Rattle.std.specs.Prelude.{◌≡◌, true, IfSome, MatchOption, Err, Ok};
ghost use Rattle.std.proofs.Common.{lit≤};
ghost use Rattle.qcow2_base.specs.Format.{most_reftable_entries};

use super::growth::entries_with;
use super::{EntryTable, Table, TableKind, Turns, least_spare};
use crate::entries::refuse;
use crate::{Header, PendingClusters, RefBlock, RefTableEntry, Refused};
use qcow2_base::{Fault, MAX_REFTABLE_ENTRIES};

/// A table of refcount table entries, one for each refcount block of the image.
pub type RefTable = EntryTable<RefTableEntry>;

impl TableKind for RefTableEntry {
    type Entry = RefTableEntry;

    const NAME: &'static str = "Refcount table";

    const MAX_ENTRIES: usize = MAX_REFTABLE_ENTRIES;

    ghost MAX_ENTRIES = { most_reftable_entries };

    ghost has_valid_count = { λ _ _. true };

    fn cleared() -> Self {
        RefTableEntry::NONE
    }

    fn entry(self) -> RefTableEntry {
        self
    }

    ghost few_entries = { lit≤ tt };
}

impl EntryTable<RefTableEntry> {
    ghost use Rattle.std.specs.Prelude.{◌≡◌, ◌*◌, ◌^◌, ◌<◌, length};
    ghost use Rattle.qcow2_base.specs.declared.fault.Fault.TheVariants.{NotPlaced};
    ghost use Rattle.qcow2_metadata.specs.Entries.PendingClusters.{IsOneCluster};
    ghost use Rattle.qcow2_metadata.specs.Placed.{with_number};
    ghost use Rattle.qcow2_metadata.specs.Table.{IsReferable};
    ghost use Rattle.qcow2_metadata.specs.Table.Growth.{GrowsTo, grown_reftable_count, growth_of};

    /// Returns a longer copy of the table that holds an index and has spare entries for the blocks that its
    /// own growth needs: the same entries, and then zeros. It has the fewest whole clusters that hold the
    /// same entries, the index, and the `least_spare` entries after it. The copy has no cluster, and counts
    /// as modified.
    ///
    /// Refuses to grow past the greatest number of entries of a refcount table (fault 28). The table itself
    /// stays.
    pub fn clone_and_grow(&self, header: &Header, at_least_index: usize) -> Result<RefTable, Fault>
        requires { header.now.v2.cluster_bits ≡ self.now.geometry.cluster_bits }
        ensures { let growth = growth_of header.now (length self.now.numbers) at_least_index in
            GrowsTo (grown_reftable_count growth) most_reftable_entries self.now.numbers header.now result }
    {
        if at_least_index >= RefTableEntry::MAX_ENTRIES {
            return Err(Fault::CannotGrow);
        }
        let len = self.entries();
        let Some(spare) = least_spare(len, at_least_index, header, &mut Turns::new()) else {
            return Err(Fault::CannotGrow);
        };
        let entries = entries_with(len, at_least_index, spare, header.l2_entries());
        self.grown(entries, header)
    }

    /// Makes the entry at an index refer to a refcount block, and spends the pending value of its cluster, if
    /// there is one. The table then counts as modified.
    ///
    /// Refuses a block without a cluster (fault 23): hands the pending value back, and changes nothing.
    pub fn enter_refblock(
        &mut self,
        index: usize,
        refblock: &RefBlock,
        new_allocation: Option<PendingClusters>,
    ) -> Result<(), Refused>
        requires index { index < length self.old.numbers }
        requires cluster_bits { refblock.now.geometry.cluster_bits ≡ self.old.geometry.cluster_bits }
        requires cluster { IfSome refblock.now.cluster (IsReferable self.old.geometry.cluster_bits) }
        requires pending { IfSome refblock.now.cluster (λ cluster.
            IfSome new_allocation (λ pending. IsOneCluster pending cluster)) }
        ensures answer { MatchOption refblock.now.cluster
            (result ≡ Err (record { fault = NotPlaced; pending = new_allocation }))
            (λ _. result ≡ Ok tt) }
        ensures edit { MatchOption refblock.now.cluster
            (self.new ≡ self.old)
            (λ cluster. self.new
            ≡ with_number self.old index (cluster.0 * 2 ^ self.old.geometry.cluster_bits)) }
    {
        let Some(cluster) = refblock.get_cluster() else {
            return refuse(Fault::NotPlaced, new_allocation);
        };
        let entry = RefTableEntry::for_refblock(cluster, self.cluster_bits());
        self.replace_entry(index, entry);
        if let Some(pending) = new_allocation {
            pending.make_persistent();
        }
        Ok(())
    }
}
