//! An L2 table that a reader keeps for the next L1 entry that names it.

ghost use Rattle.std.specs.Prelude.{◌≡◌};
ghost use Rattle.qcow2_metadata.specs.Table.L2Table.{IsMappedRun};

use qcow2_base::{ClusterCount, GuestCluster};
use qcow2_metadata::{L2Table, Table};
use std::marker::Model;

/// An L2 table, and the longest of its runs that a caller asked for. L1 entries that name one table again and
/// again then don't each read that run's entries. In contracts it is the table.
#[derive(Drop)]
pub(crate) struct KeptTable {
    table: L2Table,
    // The index of the longest run's first entry, and its length, 0 if there is none.
    first: usize,
    length: ClusterCount,
}

impl Model for KeptTable {
    ghost use Rattle.qcow2_metadata.specs.Table.{TableState};
    ghost use Rattle.qcow2_image.specs.KeptTable.{IsKnownRun};

    ghost Value = { TableState };

    ghost view = { λ k. k.table };

    ghost invariant = { λ k. IsKnownRun k.table k.first k.length.0 };
}

impl KeptTable {
    /// Keeps a table, none of whose runs is known.
    pub(crate) fn new(table: L2Table) -> KeptTable
        ensures { result ≡ table }
    {
        KeptTable {
            table,
            first: 0,
            length: ClusterCount(0),
        }
    }

    pub(crate) fn table(&self) -> &L2Table
        ensures { result.now ≡ self.now }
    {
        &self.table
    }

    /// Returns the length of the run that begins with a guest cluster, as `L2Table::run_length` does.
    #[inline]
    #[tactic(auto, using(crate::proofs::KeptTableLemmas::run_again))]
    pub(crate) fn run_length(&mut self, guest_cluster: GuestCluster) -> ClusterCount
        ensures run { IsMappedRun self.old guest_cluster.0 result.0 }
        ensures table { self.new ≡ self.old }
    {
        let index = guest_cluster.l2_index(self.table.cluster_bits());
        if index == self.first && self.length.0 > 0 {
            return self.length;
        }
        let length = self.table.run_length(guest_cluster);
        if length.0 > self.length.0 {
            self.first = index;
            self.length = length;
        }
        length
    }
}
