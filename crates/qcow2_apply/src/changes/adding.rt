//! Adding and looking up changes of refcounts, by refcount block.

ghost use Rattle.std.specs.Prelude.{◌≡◌, ℕ, ◌+◌, ◌*◌, ◌/◌, ◌^◌, ◌<◌, ◌≤◌, ◌==◌, IfOk, IfSome, IsOkUnless, MatchOption, OnOk, length, slice_index, take};
ghost use Rattle.std.specs.List.{sum_by};
ghost use Rattle.qcow2_base.specs.Types.{IsRefblockBits};
ghost use Rattle.qcow2_base.specs.declared.fault.Fault.TheVariants.{NoMemory};
ghost use Rattle.qcow2_edits.specs.Edits.{cluster_numbers};
ghost use Rattle.qcow2_metadata.specs.Entries.{is_among};
ghost use Rattle.qcow2_metadata.specs.Table.L2Guards.{handed_back, one_if, times_gained};
ghost use Rattle.qcow2_edits.specs.Settled.{is_between};
ghost use Rattle.qcow2_apply.specs.ChangedClusters.{AppendsInOrder};
ghost use Rattle.qcow2_apply.specs.Changes.{AddsChanges, EndsLate, HasNone, IsOutcomeOf, PutsOutcome, SomeEndsLate, TakesOutcome};

use super::Changes;
use qcow2_base::{ClusterCount, Fault, HostCluster};
use qcow2_edits::Outcome;
use qcow2_metadata::{ClustersToFreeEntry, Header};
use std::alloc::{AllocError, Global};
use std::collections::BTreeMap;

/// Appends clusters that lost a reference to a list. They extend its last range if they follow it.
pub(crate) fn push_clusters(
    list: &mut Vec<ClustersToFreeEntry>,
    clusters: ClustersToFreeEntry,
) -> Result<(), Fault>
    ensures pushed { OnOk result ((c : ℕ) → handed_back list.new.items c
        ≡ handed_back list.old.items c + one_if (is_among clusters c)) }
    ensures order { OnOk result (AppendsInOrder clusters list.old.items list.new.items) }
    ensures fault { IsOkUnless result NoMemory }
{
    if let Some(last) = list.last_mut() {
        if last.first.0.checked_add(last.count.0) == Some(clusters.first.0) {
            if let Some(count) = last.count.0.checked_add(clusters.count.0) {
                last.count = ClusterCount(count);
                return Ok(());
            }
        }
    }
    list.push(clusters)?;
    Ok(())
}

// The same clusters in fewer ranges: a range that follows the one before it joins it.
fn joined_ranges(
    alloc: Global,
    list: &[ClustersToFreeEntry],
) -> Result<Vec<ClustersToFreeEntry>, Fault>
    ensures freed { IfOk result (λ joined. (c : ℕ) → handed_back joined.items c ≡ handed_back list.now c) }
    ensures fault { IsOkUnless result NoMemory }
{
    let mut joined = Vec::new(alloc);
    for clusters in list {
        push_clusters(&mut joined, *clusters)?;
    }
    Ok(joined)
}

/// The same outcome with the freed clusters in fewer ranges.
pub(crate) fn joined(alloc: Global, outcome: Outcome) -> Result<Outcome, Fault>
    ensures gained { IfOk result (λ joined. joined.gained.items ≡ outcome.gained.items) }
    ensures freed { IfOk result (λ joined.
        (c : ℕ) → handed_back joined.freed.items c ≡ handed_back outcome.freed.items c) }
    ensures fault { IsOkUnless result NoMemory }
{
    let freed = joined_ranges(alloc, outcome.freed.as_slice())?;
    Ok(Outcome {
        gained: outcome.gained,
        freed,
    })
}

// Appends a cluster that gained a reference to a list.
fn push_gained(list: &mut Vec<HostCluster>, cluster: HostCluster) -> Result<(), Fault>
    ensures pushed { OnOk result ((c : ℕ) → times_gained (cluster_numbers list.new.items) c
        ≡ times_gained (cluster_numbers list.old.items) c + one_if (cluster.0 == c)) }
    ensures fault { IsOkUnless result NoMemory }
{
    list.push(cluster)?;
    Ok(())
}

impl Changes {
    ghost use Rattle.std.specs.Prelude.{◌≡◌, ℕ, ◌+◌, ◌==◌, ◌/◌, ◌^◌, ◌⊎◌, Option, Some, None, IfErr, IfSome, IsOkUnless, OnOk};
    ghost use Rattle.qcow2_base.specs.declared.fault.Fault.TheVariants.{CounterRange, NoMemory};
    ghost use Rattle.qcow2_check.specs.Counters.{counters_each};

    /// No changes, for an image with this header.
    pub fn new(alloc: Global, header: &Header) -> Changes
        ensures bits { 2 ^ result.rb_bits ≡ counters_each header.now }
        ensures none { HasNone result }
    {
        Changes {
            rb_bits: header.rb_bits(),
            blocks: BTreeMap::new(alloc),
        }
    }

    /// The changes of the block at an index of the refcount table, if it has any.
    pub fn outcome_of(&self, index: usize) -> Option<&Outcome>
        ensures { MatchOption result (IsOutcomeOf self.now index None)
            (λ outcome. IsOutcomeOf self.now index (Some outcome.now)) }
    {
        self.blocks.get(&index)
    }

    // Removes and returns the changes of the block at an index. Without any, returns an empty outcome.
    fn take_outcome(&mut self, alloc: Global, index: usize) -> Outcome
        ensures taken { TakesOutcome index result self.old self.new }
    {
        match self.blocks.remove(&index) {
            Some(outcome) => outcome,
            None => Outcome {
                gained: Vec::new(alloc),
                freed: Vec::new(alloc),
            },
        }
    }

    // Inserts the changes of a block that has none.
    fn put_outcome(&mut self, index: usize, outcome: Outcome) -> Result<(), Fault>
        ensures put { OnOk result (PutsOutcome index outcome self.old self.new) }
        ensures fault { IsOkUnless result NoMemory }
    {
        self.blocks.insert(index, outcome)?;
        Ok(())
    }

    // Adds a reference that a cluster gained. A fault loses the changes of its block.
    fn add_gained(&mut self, alloc: Global, cluster: HostCluster) -> Result<(), Fault>
        ensures added { OnOk result
            (AddsChanges (λ c. one_if (cluster.0 == c)) (λ c. 0) self.old self.new) }
        ensures fault { IsOkUnless result NoMemory }
    {
        let index = cluster.rt_index(self.rb_bits);
        let mut outcome = self.take_outcome(alloc, index);
        push_gained(&mut outcome.gained, cluster)?;
        self.put_outcome(index, outcome)
    }

    // Adds a lost reference for each cluster from `first` to before `end`, up to the end of the first
    // cluster's block. Returns the cluster after the last one added. A fault loses the changes of the block.
    fn add_part(&mut self, alloc: Global, first: u64, end: u64) -> Result<u64, Fault>
        requires { first < end }
        ensures further { IfOk result (λ next. (first < next) × (next ≤ end)) }
        ensures added { IfOk result (λ next.
            AddsChanges (λ c. 0) (λ c. one_if (is_between first next c)) self.old self.new) }
        ensures fault { IsOkUnless result NoMemory }
    {
        let (index, rb_index) = HostCluster(first).rt_rb_indices(self.rb_bits);
        let count = (end - first).min((1 << self.rb_bits) - rb_index as u64);
        let mut outcome = self.take_outcome(alloc, index);
        push_clusters(
            &mut outcome.freed,
            ClustersToFreeEntry {
                first: HostCluster(first),
                count: ClusterCount(count),
            },
        )?;
        self.put_outcome(index, outcome)?;
        Ok(first + count)
    }

    // Adds a lost reference for each of these clusters.
    fn add_lost(&mut self, alloc: Global, clusters: ClustersToFreeEntry) -> Result<(), Fault>
        ensures added { OnOk result
            (AddsChanges (λ c. 0) (λ c. one_if (is_among clusters c)) self.old self.new) }
        ensures fault { IfErr result (λ fault. (fault ≡ NoMemory)
            ⊎ ((fault ≡ CounterRange) × EndsLate clusters)) }
    {
        // No refcount table counts such a cluster.
        let Some(end) = clusters.first.0.checked_add(clusters.count.0) else {
            return Err(Fault::CounterRange);
        };
        let mut first = clusters.first.0;
        while first < end {
            first = self.add_part(alloc, first, end)?;
        }
        Ok(())
    }

    /// Adds a gained reference for each of these clusters. Fails if memory runs out. After a fault the
    /// changes are incomplete.
    pub fn add_all_gained(&mut self, alloc: Global, clusters: &[HostCluster]) -> Result<(), Fault>
        ensures added { OnOk result
            (AddsChanges (times_gained (cluster_numbers clusters.now)) (λ c. 0) self.old self.new) }
        ensures fault { IsOkUnless result NoMemory }
    {
        for cluster in clusters {
            self.add_gained(alloc, *cluster)?;
        }
        Ok(())
    }

    /// Adds a lost reference for each cluster of these ranges. Fails if memory runs out, and with fault 30
    /// for a range that ends past 2^64, since no refcount table counts it. After a fault the changes are
    /// incomplete.
    pub fn add_all_lost(&mut self, alloc: Global, list: &[ClustersToFreeEntry]) -> Result<(), Fault>
        ensures added { OnOk result (AddsChanges (λ c. 0) (handed_back list.now) self.old self.new) }
        ensures fault { IfErr result (λ fault. (fault ≡ NoMemory)
            ⊎ ((fault ≡ CounterRange) × SomeEndsLate list.now)) }
    {
        for clusters in list {
            self.add_lost(alloc, *clusters)?;
        }
        Ok(())
    }
}
