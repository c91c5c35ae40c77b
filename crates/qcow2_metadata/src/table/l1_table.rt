//! L1 tables: the places of the L2 tables.

ghost use Rattle.std.specs.Prelude.{◌≡◌, ◌+◌, ◌*◌, ◌^◌, ◌<◌, length, true, Ok, Err, IfSome, MatchOption, slice_index};
ghost use Rattle.std.proofs.Common.{lit≤};
ghost use Rattle.qcow2_base.specs.Format.{most_l1_entries};
ghost use Rattle.qcow2_base.specs.declared.fault.Fault.TheVariants.{NotPlaced};
ghost use Rattle.qcow2_metadata.specs.Entries.{with_copied};
ghost use Rattle.qcow2_metadata.specs.Entries.PendingClusters.{IsOneCluster};
ghost use Rattle.qcow2_metadata.specs.Placed.{with_number};
ghost use Rattle.qcow2_metadata.specs.Table.{IsReferable};
ghost use Rattle.qcow2_metadata.specs.Table.Growth.{GrowsTo, grown_count};

use super::{EntryTable, L2Table, Table, TableKind};
use crate::entries::refuse;
use crate::{Header, L1Entry, PendingClusters, Refused};
use qcow2_base::{Fault, MAX_L1_ENTRIES};

/// A table of L1 entries, one for each L2 table of the guest's disk.
pub type L1Table = EntryTable<L1Entry>;

impl TableKind for L1Entry {
    type Entry = L1Entry;

    const NAME: &'static str = "L1 table";

    const MAX_ENTRIES: usize = MAX_L1_ENTRIES;

    ghost MAX_ENTRIES = { most_l1_entries };

    ghost has_valid_count = { λ _ _. true };

    fn cleared() -> Self {
        L1Entry::NONE
    }

    fn entry(self) -> L1Entry {
        self
    }

    ghost few_entries = { lit≤ tt };
}

impl EntryTable<L1Entry> {
    /// Returns a longer copy of the table that holds an index: the same entries, and then zeros, in the
    /// fewest whole clusters. It has no cluster, and counts as modified.
    ///
    /// Refuses to grow past the greatest number of entries of an L1 table (fault 28). The table itself stays.
    pub fn clone_and_grow(&self, at_least_index: usize, header: &Header) -> Result<L1Table, Fault>
        requires { header.now.v2.cluster_bits ≡ self.now.geometry.cluster_bits }
        ensures { GrowsTo (grown_count self.now at_least_index) most_l1_entries self.now.numbers header.now
            result }
    {
        if at_least_index >= L1Entry::MAX_ENTRIES {
            return Err(Fault::CannotGrow);
        }
        let least = (at_least_index + 1).max(self.entries());
        let entries = least.next_multiple_of(header.l2_entries());
        if entries > L1Entry::MAX_ENTRIES {
            return Err(Fault::CannotGrow);
        }
        self.grown(entries, header)
    }

    /// Sets or clears the copied flag, bit 63, of the entry at an index: whether its L2 table has exactly one
    /// reference. All else of the entry stays, even if it names no table. The table then counts as modified.
    pub fn set_copied(&mut self, index: usize, is_copied: bool)
        requires { index < length self.old.numbers }
        ensures { self.new ≡ with_number self.old index
            (with_copied is_copied (slice_index self.old.numbers index)) }
    {
        let entry = self.entry_within(index).with_copied(is_copied);
        self.replace_entry(index, entry);
    }

    /// Makes the entry at an index refer to an L2 table, as its only reference, with the copied flag, and
    /// spends the pending value of its cluster, if there is one. The table then counts as modified.
    ///
    /// Refuses an L2 table without a cluster (fault 23): hands the pending value back, and changes nothing.
    pub fn enter_l2_table(
        &mut self,
        index: usize,
        l2_table: &L2Table,
        new_allocation: Option<PendingClusters>,
    ) -> Result<(), Refused>
        requires index { index < length self.old.numbers }
        requires cluster_bits { l2_table.now.geometry.cluster_bits ≡ self.old.geometry.cluster_bits }
        requires cluster { IfSome l2_table.now.cluster (IsReferable self.old.geometry.cluster_bits) }
        requires pending { IfSome l2_table.now.cluster (λ cluster.
            IfSome new_allocation (λ pending. IsOneCluster pending cluster)) }
        ensures answer { MatchOption l2_table.now.cluster
            (result ≡ Err (record { fault = NotPlaced; pending = new_allocation }))
            (λ _. result ≡ Ok tt) }
        ensures edit { MatchOption l2_table.now.cluster
            (self.new ≡ self.old)
            (λ cluster. self.new
            ≡ with_number self.old index
            (2 ^ 63 + cluster.0 * 2 ^ self.old.geometry.cluster_bits)) }
    {
        let Some(cluster) = l2_table.get_cluster() else {
            return refuse(Fault::NotPlaced, new_allocation);
        };
        let entry = L1Entry::for_l2_table(cluster, self.cluster_bits());
        self.replace_entry(index, entry);
        if let Some(pending) = new_allocation {
            pending.make_persistent();
        }
        Ok(())
    }
}
