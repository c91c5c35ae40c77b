//! The planned changes of refcounts, before anything is written.

ghost use Rattle.std.specs.Prelude.{◌≡◌, ◌⊎◌, ℕ, ◌/◌, ◌<◌, false, true, IfErr, IfOk, IsOkUnless, OnOk, length};
ghost use Rattle.std.specs.List.{All};
ghost use Rattle.qcow2_base.specs.Storage.{OnImage, OnlyReads};
ghost use Rattle.qcow2_base.specs.declared.fault.Fault.TheVariants.{CounterRange, NoMemory};
ghost use Rattle.qcow2_metadata.specs.Entries.{is_among};
ghost use Rattle.qcow2_metadata.specs.Header.{uses_external_data};
ghost use Rattle.qcow2_metadata.specs.Results.{IsFromOutside};
ghost use Rattle.qcow2_metadata.specs.Table.L2Guards.{handed_back};
ghost use Rattle.qcow2_check.specs.Counters.{counters_each};
ghost use Rattle.qcow2_apply.specs.Changes.{HasNone};
ghost use Rattle.qcow2_apply.specs.ChangedClusters.{ListsChanges};
ghost use Rattle.qcow2_apply.specs.PlannedChanges.{IsUncounted, HaveCounters, AreSorted, StaySorted, AddsOutcome, CannotCount, CanCount};

use crate::changed_clusters::{ChangedClusters, list_changed, listed_blocks};
use crate::changes::Changes;
use crate::counter_tables::{CounterTables, load_left};
use qcow2_base::{Fault, HostCluster, Storage};
use qcow2_check::{Counters, named_block};
use qcow2_edits::Outcome;
use qcow2_metadata::{ClustersToFreeEntry, Header, RefBlock, Table};
use std::alloc::Global;

// Whether refcount blocks count all of these clusters. Looks at each block once, from the last one on.
fn are_counted(counters: &Counters<'_>, clusters: ClustersToFreeEntry) -> bool
    ensures counted { result ≡ true → HaveCounters counters.now.header counters.now.reftable clusters }
    ensures uncounted { result ≡ false →
        (c : ℕ) × (is_among clusters c ≡ true) × IsUncounted counters.now.header counters.now.reftable c }
{
    let Some(limit) = clusters.first.0.checked_add(clusters.count.0) else {
        return false;
    };
    let mut end = limit;
    while end > clusters.first.0 {
        let last = HostCluster(end - 1);
        if !counters.has_block(last) {
            return false;
        }
        end = counters.block_start(last);
    }
    true
}

// Whether refcount blocks count all clusters of a list.
fn are_all_counted(counters: &Counters<'_>, list: &[ClustersToFreeEntry]) -> bool
    ensures counted { result ≡ true → All (HaveCounters counters.now.header counters.now.reftable) list.now }
    ensures uncounted { result ≡ false →
        (c : ℕ) × (0 < handed_back list.now c) × IsUncounted counters.now.header counters.now.reftable c }
{
    for clusters in list {
        if !are_counted(counters, *clusters) {
            return false;
        }
    }
    true
}

/// The references that clusters gain and lose by edits of some tables. Once a cluster that no refcount block
/// counts loses a reference, `are_counted` is false and nothing more is added.
#[derive(Drop)]
pub(crate) struct PlannedChanges {
    pub gains: Changes,
    pub losses: Changes,
    pub are_counted: bool,
}

impl PlannedChanges {
    /// No changes, for an image with this header.
    pub(crate) fn new(alloc: Global, header: &Header) -> PlannedChanges
        ensures sorted { AreSorted (counters_each header.now) result.gains result.losses }
        ensures none { HasNone result.gains × HasNone result.losses }
        ensures counted { result.are_counted ≡ true }
    {
        PlannedChanges {
            gains: Changes::new(alloc, header),
            losses: Changes::new(alloc, header),
            are_counted: true,
        }
    }

    /// Adds the effect of the edits of a table.
    pub(crate) fn add(
        &mut self,
        alloc: Global,
        counters: &Counters<'_>,
        outcome: &Outcome,
    ) -> Result<(), Fault>
        ensures added { OnOk result (AddsOutcome counters.now.header counters.now.reftable outcome.now
            self.old self.new) }
        ensures sorted { OnOk result (StaySorted self.old self.new) }
        ensures fault { IsOkUnless result NoMemory }
    {
        if !self.are_counted || !are_all_counted(counters, outcome.freed.as_slice()) {
            self.are_counted = false;
            return Ok(());
        }
        self.gains.add_all_gained(alloc, outcome.gained.as_slice())?;
        self.losses.add_all_lost(alloc, outcome.freed.as_slice())
    }
}

// Refuses changes that the refcounts of the block at an index of the refcount table can't follow.
fn check_block<S: Storage>(
    alloc: Global,
    image: &mut S,
    tables: &CounterTables<'_>,
    index: usize,
    gains: &Changes,
    losses: &Changes,
) -> Result<(), Fault>
    requires data { uses_external_data tables.now.header ≡ false }
    requires sorted { AreSorted (counters_each tables.now.header) gains.now losses.now }
    ensures counts { OnOk result (OnImage (S.state image.old) (λ bytes. (c : ℕ) →
        c / counters_each tables.now.header ≡ index →
        CannotCount tables.now gains.now losses.now bytes c → ⊥)) }
    ensures fault { IfErr result (λ fault. IsFromOutside fault ⊎ ((fault ≡ CounterRange)
        × OnImage (S.state image.old) (λ bytes.
        (c : ℕ) × CannotCount tables.now gains.now losses.now bytes c))) }
    ensures storage { OnlyReads result (S.state image.old) (S.state image.new) }
{
    if gains.outcome_of(index).is_none() && losses.outcome_of(index).is_none() {
        return Ok(());
    }
    let Some(place) = named_block(tables.reftable, index) else {
        return Ok(());
    };
    load_left(alloc, image, tables, place, index, gains, losses)?;
    Ok(())
}

// Refuses changes that a refcount of the blocks from an index on can't follow.
fn check_blocks_from<S: Storage>(
    alloc: Global,
    image: &mut S,
    tables: &CounterTables<'_>,
    gains: &Changes,
    losses: &Changes,
    from: usize,
) -> Result<(), Fault>
    requires data { uses_external_data tables.now.header ≡ false }
    requires sorted { AreSorted (counters_each tables.now.header) gains.now losses.now }
    ensures counts { OnOk result (OnImage (S.state image.old)
        (CanCount tables.now gains.now losses.now from (length tables.now.reftable))) }
    ensures fault { IfErr result (λ fault. IsFromOutside fault ⊎ ((fault ≡ CounterRange)
        × OnImage (S.state image.old) (λ bytes.
        (c : ℕ) × CannotCount tables.now gains.now losses.now bytes c))) }
    ensures storage { OnlyReads result (S.state image.old) (S.state image.new) }
{
    for index in from..tables.reftable.entries() {
        check_block(alloc, image, tables, index, gains, losses)?;
    }
    Ok(())
}

impl PlannedChanges {
    /// Lists the clusters whose refcounts change. Returns 30 if a refcount can't follow, or if a cluster that
    /// no refcount block counts loses a reference.
    pub(crate) fn changed_clusters<S: Storage>(
        &self,
        alloc: Global,
        image: &mut S,
        tables: &CounterTables<'_>,
    ) -> Result<ChangedClusters, Fault>
        requires data { uses_external_data tables.now.header ≡ false }
        requires sorted { AreSorted (counters_each tables.now.header) self.now.gains self.now.losses }
        ensures counts { OnOk result ((self.now.are_counted ≡ true) × OnImage (S.state image.old) (λ bytes.
            (c : ℕ) → CannotCount tables.now self.now.gains self.now.losses bytes c → ⊥)) }
        ensures listed { IfOk result (λ clusters. OnImage (S.state image.old) (λ bytes.
            ListsChanges tables.now self.now.gains self.now.losses bytes clusters)) }
        ensures fault { IfErr result (λ fault. IsFromOutside fault ⊎ ((fault ≡ CounterRange)
            × ((self.now.are_counted ≡ false) ⊎ ((self.now.are_counted ≡ true)
            × OnImage (S.state image.old) (λ bytes.
            (c : ℕ) × CannotCount tables.now self.now.gains self.now.losses bytes c))))) }
        ensures storage { OnlyReads result (S.state image.old) (S.state image.new) }
    {
        if !self.are_counted {
            return Err(Fault::CounterRange);
        }
        let (gains, losses) = (&self.gains, &self.losses);
        let clusters = list_changed(alloc, image, tables, gains, losses)?;
        check_blocks_from(alloc, image, tables, gains, losses, listed_blocks(tables))?;
        Ok(clusters)
    }
}
