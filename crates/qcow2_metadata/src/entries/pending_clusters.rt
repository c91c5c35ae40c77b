//! Allocated host clusters that nothing refers to yet.

ghost use Rattle.std.specs.Prelude.{◌≡◌};

use crate::ClustersToFreeEntry;
use qcow2_base::{ClusterCount, Fault, HostCluster};
use std::marker::Model;

/// Allocated host clusters that nothing refers to yet.
///
/// The value must be spent: by `make_persistent` once something refers to the clusters, by `give_up` to free
/// them, or by passing it on. It can't be dropped, so a program that forgets the clusters doesn't compile.
#[derive(Debug, PartialEq, Eq)]
pub struct PendingClusters {
    first: HostCluster,
    count: ClusterCount,
}

impl Model for PendingClusters {
    ghost use Rattle.qcow2_metadata.specs.declared.entries.ClustersToFreeEntry.{ClustersToFreeEntry};

    ghost Value = { ClustersToFreeEntry };

    ghost view = { λ pending. record { first = pending.first; count = pending.count } };

    ghost inverse = { λ clusters. record { first = clusters.first; count = clusters.count } };
}

impl PendingClusters {
    /// Returns `count` clusters from `first` on, which the caller has allocated.
    pub fn new(first: HostCluster, count: ClusterCount) -> PendingClusters
        ensures { result ≡ record { first = first; count = count } }
    {
        PendingClusters { first, count }
    }

    /// Returns the first of the clusters.
    pub fn cluster(&self) -> HostCluster
        ensures { result ≡ self.now.first }
    {
        self.first
    }

    /// Spends the value, since something now refers to the clusters.
    pub fn make_persistent(self) {
        let PendingClusters { first: _, count: _ } = self;
    }

    /// Spends the value, and returns the clusters to be freed, since nothing will refer to them.
    #[must_use]
    pub fn give_up(self) -> ClustersToFreeEntry
        ensures { result ≡ self }
    {
        let PendingClusters { first, count } = self;
        ClustersToFreeEntry { first, count }
    }
}

/// A refusal of a call that got pending clusters, and hands them back. It can't be dropped: take it apart,
/// and give the clusters up or use them elsewhere.
#[derive(Debug, PartialEq, Eq)]
pub struct Refused {
    /// The fault of the refusal.
    pub fault: Fault,
    /// The pending clusters that the call got.
    pub pending: Option<PendingClusters>,
}

pub(crate) fn refuse(fault: Fault, pending: Option<PendingClusters>) -> Result<(), Refused>
    ensures { result ≡ Err (record { fault = fault; pending = pending }) }
{
    Err(Refused { fault, pending })
}
