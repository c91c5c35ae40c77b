//! The effect of edits on the clusters that gain or lose references.

ghost use Rattle.std.specs.Prelude.{◌≡◌, ◌⊎◌, ℕ, ◌+◌, ◌*◌, ◌/◌, ◌^◌, ◌≤◌, ◌<◌, IfErr, IfOk, IsOkUnless, IsTrue, None, OnOk, false, length, slice_index};
ghost use Rattle.qcow2_base.specs.Storage.{OnImage, OnlyReads};
ghost use Rattle.qcow2_metadata.specs.Header.{uses_external_data};
ghost use Rattle.qcow2_base.specs.Format.{max_file_length};
ghost use Rattle.qcow2_check.specs.Counters.{counters_each};
ghost use Rattle.qcow2_metadata.specs.Results.{IsFromOutside};
ghost use Rattle.qcow2_apply.specs.PlannedChanges.{AreSorted, CannotCount, CanCount};
ghost use Rattle.qcow2_apply.specs.CounterTables.{IsBlockOf, NamesBlock, block_numbers};
ghost use Rattle.qcow2_base.specs.declared.fault.Fault.TheVariants.{CounterRange, NoMemory};
ghost use Rattle.qcow2_apply.specs.ChangedClusters.{HaveSameCount, ListsBlock, ListsChanges, ListsCounter, ListsCounters, ListsFreed, StayInOrder, listed_blocks};

use crate::changes::{Changes, push_clusters};
use crate::counter_tables::{CounterTables, load_followed, load_left};
use qcow2_base::{ClusterCount, Fault, HostCluster, MAX_FILE_LENGTH, Storage};
use qcow2_check::named_block;
use qcow2_metadata::{ClustersToFreeEntry, Header, RefBlock, Table};
use std::alloc::Global;

// The number of clusters that are listed as one group.
const TOGETHER: usize = 64;

/// A cluster that loses a reference and still has others, and its refcount after that.
#[derive(Clone, Copy, Debug, PartialEq, Eq)]
pub struct KeptCluster {
    pub cluster: HostCluster,
    pub counter: u64,
}

/// The clusters that edits free, leave with fewer references, or give one. Each list is in the order of
/// clusters.
#[derive(Debug, Drop)]
pub struct ChangedClusters {
    /// Clusters that lose references and have none after that, in as few ranges as possible.
    pub freed: Vec<ClustersToFreeEntry>,
    /// Clusters that lose references and still have others.
    pub kept: Vec<KeptCluster>,
    /// Clusters that gain references.
    pub gained: Vec<HostCluster>,
}

// Adds a cluster to the lists, by its refcount `before` the edits, after its gains (`risen`) and after its
// losses (`after`).
fn list_cluster(
    clusters: &mut ChangedClusters,
    cluster: HostCluster,
    before: u64,
    risen: u64,
    after: u64,
) -> Result<(), Fault>
    requires fits { cluster.0 + 1 < 2 ^ 64 }
    ensures listed { OnOk result (ListsCounter cluster.0 before risen after clusters.old clusters.new) }
    ensures order { OnOk result (StayInOrder cluster.0 (cluster.0 + 1) clusters.old clusters.new) }
    ensures fault { IsOkUnless result NoMemory }
{
    if risen != before {
        clusters.gained.push(cluster)?;
    }
    if after == risen {
        return Ok(());
    }
    if after != 0 {
        clusters.kept.push(KeptCluster {
            cluster,
            counter: after,
        })?;
        return Ok(());
    }
    push_clusters(
        &mut clusters.freed,
        ClustersToFreeEntry {
            first: cluster,
            count: ClusterCount(1),
        },
    )
}

// `TOGETHER` refcounts of a block, from an index on.
fn counters_from(block: &RefBlock, index: usize) -> [u64; TOGETHER]
    requires { index + 64 ≤ length block.now.numbers }
    ensures { (k : ℕ) → k < 64 → slice_index result k ≡ slice_index block.now.numbers (index + k) }
{
    prove!(index < block.entries());
    let mut counters = [0; TOGETHER];
    for k in 0..TOGETHER {
        counters[k] = block.get(index + k);
    }
    counters
}

// Whether two groups have the same refcounts. Tests each, so that the compiler can compare several at once.
fn are_same(before: &[u64; TOGETHER], after: &[u64; TOGETHER]) -> bool
    ensures { IsTrue result → (k : ℕ) → k < 64 → slice_index after.now k ≡ slice_index before.now k }
{
    let mut same = true;
    for k in 0..TOGETHER {
        same &= after[k] == before[k];
    }
    same
}

// Whether all refcounts of a group were lowered to 0. Tests each, as `are_same` does.
fn are_freed(risen: &[u64; TOGETHER], after: &[u64; TOGETHER]) -> bool
    ensures { IsTrue result → (k : ℕ) → k < 64 →
        (0 < slice_index risen.now k) × (slice_index after.now k ≡ 0) }
{
    let mut freed = true;
    for k in 0..TOGETHER {
        freed &= (risen[k] > 0) & (after[k] == 0);
    }
    freed
}

// Adds the clusters of a group to the lists, one by one. `first` is the first of them.
fn list_each(
    clusters: &mut ChangedClusters,
    first: u64,
    before: &[u64; TOGETHER],
    risen: &[u64; TOGETHER],
    after: &[u64; TOGETHER],
) -> Result<(), Fault>
    requires fits { first + 64 < 2 ^ 64 }
    ensures listed { OnOk result
        (ListsCounters first 64 before.now risen.now after.now clusters.old clusters.new) }
    ensures order { OnOk result (StayInOrder first (first + 64) clusters.old clusters.new) }
    ensures fault { IsOkUnless result NoMemory }
{
    for k in 0..TOGETHER {
        let cluster = HostCluster(first + k as u64);
        list_cluster(clusters, cluster, before[k], risen[k], after[k])?;
    }
    Ok(())
}

// Adds `TOGETHER` clusters that are freed to the lists. `first` is the first of them.
fn push_freed(clusters: &mut ChangedClusters, first: u64) -> Result<(), Fault>
    requires fits { first + 64 < 2 ^ 64 }
    ensures listed { OnOk result (ListsFreed first (first + 64) clusters.old clusters.new) }
    ensures order { OnOk result (StayInOrder first (first + 64) clusters.old clusters.new) }
    ensures fault { IsOkUnless result NoMemory }
{
    push_clusters(
        &mut clusters.freed,
        ClustersToFreeEntry {
            first: HostCluster(first),
            count: ClusterCount(TOGETHER as u64),
        },
    )
}

// Adds the clusters of a group to the lists as `list_each` does, but at once if all stay or all are freed.
fn list_group(
    clusters: &mut ChangedClusters,
    first: u64,
    before: &[u64; TOGETHER],
    risen: &[u64; TOGETHER],
    after: &[u64; TOGETHER],
) -> Result<(), Fault>
    requires fits { first + 64 < 2 ^ 64 }
    ensures listed { OnOk result
        (ListsCounters first 64 before.now risen.now after.now clusters.old clusters.new) }
    ensures order { OnOk result (StayInOrder first (first + 64) clusters.old clusters.new) }
    ensures fault { IsOkUnless result NoMemory }
{
    if !are_same(before, risen) {
        return list_each(clusters, first, before, risen, after);
    }
    if are_same(risen, after) {
        return Ok(());
    }
    if are_freed(risen, after) {
        return push_freed(clusters, first);
    }
    list_each(clusters, first, before, risen, after)
}

// Adds the clusters of a block to the lists, by their refcounts. `first` is the block's first cluster.
fn list_block(
    clusters: &mut ChangedClusters,
    first: u64,
    before: &RefBlock,
    risen: &RefBlock,
    after: &RefBlock,
) -> Result<(), Fault>
    requires count { HaveSameCount before.now.numbers risen.now.numbers after.now.numbers }
    requires fits { first + length before.now.numbers < 2 ^ 64 }
    ensures listed { OnOk result (ListsCounters first (length before.now.numbers)
        before.now.numbers risen.now.numbers after.now.numbers clusters.old clusters.new) }
    ensures order { OnOk result
        (StayInOrder first (first + length before.now.numbers) clusters.old clusters.new) }
    ensures fault { IsOkUnless result NoMemory }
{
    prove!(before.cluster_bits() >= 9);
    prove!(before.refcount_order() <= 6);
    // A block has whole groups.
    for group in 0..before.entries() / TOGETHER {
        let index = TOGETHER * group;
        list_group(
            clusters,
            first + index as u64,
            &counters_from(before, index),
            &counters_from(risen, index),
            &counters_from(after, index),
        )?;
    }
    Ok(())
}

// Adds the clusters of the refcount block at an index of the refcount table to the lists. `before` is the
// block as it is.
fn list_named<S: Storage>(
    image: &mut S,
    tables: &CounterTables<'_>,
    gains: &Changes,
    losses: &Changes,
    index: usize,
    place: HostCluster,
    before: &RefBlock,
    clusters: &mut ChangedClusters,
) -> Result<(), Fault>
    requires data { uses_external_data tables.now.header ≡ false }
    requires sorted { AreSorted (counters_each tables.now.header) gains.now losses.now }
    requires index { (index + 1) * counters_each tables.now.header ≤ max_file_length }
    requires place { NamesBlock tables.now index place }
    requires before { IsBlockOf tables.now before.now × OnImage (S.state image.old) (λ bytes.
        before.now.numbers ≡ block_numbers tables.now place bytes) }
    ensures listed { OnOk result (OnImage (S.state image.old) (λ bytes.
        ListsBlock tables.now gains.now losses.now index bytes clusters.old clusters.new)) }
    ensures order { let each = counters_each tables.now.header in
        OnOk result (StayInOrder (index * each) ((index + 1) * each) clusters.old clusters.new) }
    ensures counts { OnOk result (OnImage (S.state image.old) (λ bytes. (c : ℕ) →
        c / counters_each tables.now.header ≡ index →
        CannotCount tables.now gains.now losses.now bytes c → ⊥)) }
    ensures fault { IfErr result (λ fault. IsFromOutside fault ⊎ ((fault ≡ CounterRange)
        × OnImage (S.state image.old) (λ bytes.
        (c : ℕ) × CannotCount tables.now gains.now losses.now bytes c))) }
    ensures storage { OnlyReads result (S.state image.old) (S.state image.new) }
{
    prove!(tables.header.refcount_order() <= 6);
    let alloc = tables.reftable.allocator();
    let first = index as u64 * tables.header.rb_entries() as u64;
    let after = load_left(alloc, image, tables, place, index, gains, losses)?;
    if gains.outcome_of(index).is_none() {
        return list_block(clusters, first, before, before, &after);
    }
    let risen = load_followed(alloc, image, tables, place, index, gains)?;
    list_block(clusters, first, before, &risen, &after)
}

// The same for the block at an index. Does nothing if the index names no block, or none of its clusters
// gained or lost references.
fn list_at<S: Storage>(
    alloc: Global,
    image: &mut S,
    tables: &CounterTables<'_>,
    gains: &Changes,
    losses: &Changes,
    index: usize,
    clusters: &mut ChangedClusters,
) -> Result<(), Fault>
    requires data { uses_external_data tables.now.header ≡ false }
    requires sorted { AreSorted (counters_each tables.now.header) gains.now losses.now }
    requires index { (index + 1) * counters_each tables.now.header ≤ max_file_length }
    ensures listed { OnOk result (OnImage (S.state image.old) (λ bytes.
        ListsBlock tables.now gains.now losses.now index bytes clusters.old clusters.new)) }
    ensures order { let each = counters_each tables.now.header in
        OnOk result (StayInOrder (index * each) ((index + 1) * each) clusters.old clusters.new) }
    ensures counts { OnOk result (OnImage (S.state image.old) (λ bytes. (c : ℕ) →
        c / counters_each tables.now.header ≡ index →
        CannotCount tables.now gains.now losses.now bytes c → ⊥)) }
    ensures fault { IfErr result (λ fault. IsFromOutside fault ⊎ ((fault ≡ CounterRange)
        × OnImage (S.state image.old) (λ bytes.
        (c : ℕ) × CannotCount tables.now gains.now losses.now bytes c))) }
    ensures storage { OnlyReads result (S.state image.old) (S.state image.new) }
{
    if gains.outcome_of(index).is_none() && losses.outcome_of(index).is_none() {
        return Ok(());
    }
    let Some(place) = named_block(tables.reftable, index) else {
        return Ok(());
    };
    let before = RefBlock::load(alloc, image, tables.header, place)?;
    list_named(
        image, tables, gains, losses, index, place, &before, clusters,
    )
}

/// The number of refcount table entries whose clusters lie below 2^56.
pub(crate) fn listed_blocks(tables: &CounterTables<'_>) -> usize
    ensures value { result ≡ listed_blocks tables.now }
    ensures fits { (index : ℕ) → index < result →
        (index + 1) * counters_each tables.now.header ≤ max_file_length }
{
    prove!(tables.header.cluster_bits() <= 21);
    let blocks = MAX_FILE_LENGTH / tables.header.rb_entries() as u64;
    tables.reftable.entries().min(blocks as usize)
}

/// Lists the clusters whose refcounts change. Returns 30 if a refcount of a cluster below 2^56 can't follow.
pub(crate) fn list_changed<S: Storage>(
    alloc: Global,
    image: &mut S,
    tables: &CounterTables<'_>,
    gains: &Changes,
    losses: &Changes,
) -> Result<ChangedClusters, Fault>
    requires data { uses_external_data tables.now.header ≡ false }
    requires sorted { AreSorted (counters_each tables.now.header) gains.now losses.now }
    ensures listed { IfOk result (λ clusters. OnImage (S.state image.old) (λ bytes.
        ListsChanges tables.now gains.now losses.now bytes clusters)) }
    ensures counts { OnOk result (OnImage (S.state image.old)
        (CanCount tables.now gains.now losses.now 0 (listed_blocks tables.now))) }
    ensures fault { IfErr result (λ fault. IsFromOutside fault ⊎ ((fault ≡ CounterRange)
        × OnImage (S.state image.old) (λ bytes.
        (c : ℕ) × CannotCount tables.now gains.now losses.now bytes c))) }
    ensures storage { OnlyReads result (S.state image.old) (S.state image.new) }
{
    let mut clusters = ChangedClusters {
        freed: Vec::new(alloc),
        kept: Vec::new(alloc),
        gained: Vec::new(alloc),
    };
    prove!(tables.header.cluster_bits() <= 21);
    for index in 0..listed_blocks(tables) {
        list_at(alloc, image, tables, gains, losses, index, &mut clusters)?;
    }
    Ok(clusters)
}
