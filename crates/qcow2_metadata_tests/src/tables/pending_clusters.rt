//! Pending clusters, and clusters that a refusal hands back.

use super::fixtures::{check_table, loaded};
use qcow2_base::{ClusterCount, Fault, HostCluster};
use qcow2_calls::Refusal;
use qcow2_metadata::{ClustersToFreeEntry, PendingClusters, Table};
use qcow2_testing::same;
use std::test::Fail;

/// Returns clusters, given by the first and their number.
pub(crate) fn clusters(first: u64, count: u64) -> ClustersToFreeEntry {
    ClustersToFreeEntry {
        first: HostCluster(first),
        count: ClusterCount(count),
    }
}

/// A table or block that replaces entry 3 of another table: its cluster, if any; whether it comes with
/// pending clusters; and the entry afterwards.
#[derive(Clone, Copy, Debug)]
pub(crate) struct Entered {
    pub(crate) cluster: Option<u64>,
    pub(crate) is_pending: bool,
    pub(crate) number: u64,
}

/// Returns the pending cluster of a row: that of the entered table or block, or cluster 7 if it has none.
pub(crate) fn pending_of(row: Entered) -> Option<ClustersToFreeEntry> {
    row.is_pending
        .then_some(clusters(row.cluster.unwrap_or(7), 1))
}

/// Fails unless the table has the entry, or the refusal handed the pending cluster back.
pub(crate) fn check_entered<T: Table>(
    table: &T,
    found: Result<(), Refusal>,
    row: Entered,
) -> Result<(), Fail> {
    let refusal = (Fault::NotPlaced, pending_of(row));
    let expected = if row.cluster.is_some() {
        Ok(())
    } else {
        Err(refusal)
    };
    same(found, expected, row)?;
    let state = loaded(64, 3, row.number);
    check_table(table, state.placed(Some(2), row.cluster.is_some()), row)
}

#[test]
fn pending_clusters_are_given_up_or_spent() -> Result<(), Fail> {
    let clusters = clusters(7, u64::MAX);
    let pending = PendingClusters::new(clusters.first, clusters.count);
    same(pending.give_up(), clusters, "given up")?;
    let pending = PendingClusters::new(clusters.first, clusters.count);
    let first = pending.cluster();
    pending.make_persistent();
    same(first, HostCluster(7), "spent")
}
