//! Lists of edits of an L2 table: the call makes all of them, or none.

ghost use Rattle.std.specs.Prelude.{◌≡◌, ℕ, ◌+◌, ◌-◌, ◌<◌, ◌≤◌, ◌/◌, ◌^◌, [], ◌++◌, if◌then◌else◌, Err, IfErr, IfOk, IfSome, MatchResult, None, Some, length, map, not, option_map, option_to_list, slice_index, true};
ghost use Rattle.std.specs.Vec.{vec_capacity};
ghost use Rattle.qcow2_base.specs.Format.{max_offset};
ghost use Rattle.qcow2_base.specs.Types.{IsClusterBits};
ghost use Rattle.qcow2_base.specs.declared.fault.Fault.TheVariants.{BadEdit};
ghost use Rattle.qcow2_base.specs.declared.types.HostCluster.{HostCluster as Cluster};
ghost use Rattle.qcow2_edits.specs.Edits.{Balances, HasRoom, Makes, edits_left, first_unfit_edit, edit_fits, table_left, edits_or_refusal, table_edit};
ghost use Rattle.qcow2_metadata.specs.Results.{Computes};
ghost use Rattle.qcow2_metadata.specs.Entries.L2Entry.{allocation};
ghost use Rattle.qcow2_metadata.specs.Placed.{with_number};
ghost use Rattle.qcow2_metadata.specs.Entries.L2Mapping.{data_file, entry_of};
ghost use Rattle.qcow2_metadata.specs.Table.L2Guards.{IsSameTable, guarded_table, is_just, is_mappable, run_of};

use qcow2_base::{ClusterCount, Fault, HostCluster};
use qcow2_metadata::{ClustersToFreeEntry, L2Table, L2TableWriteGuard, MAX_OFFSET, Table};
use std::alloc::{AllocError, Global};

/// A change of the mapping of one guest cluster. The index is that of its entry in the L2 table.
#[derive(Clone, Copy, Debug, PartialEq, Eq)]
pub enum Edit {
    /// Maps to data in a host cluster without another reference, as `L2TableWriteGuard::map_cluster` does.
    Map {
        index: usize,
        host_cluster: HostCluster,
    },
    /// Maps to zeros, as `L2TableWriteGuard::zero_cluster` does: with `keep_allocation` the entry keeps its
    /// host cluster, but compressed data is freed all the same.
    Zero {
        index: usize,
        keep_allocation: bool,
    },
    /// Removes the mapping, as `L2TableWriteGuard::discard_cluster` does.
    Discard {
        index: usize,
    },
}

/// The changes of references by edits of a table. Each list is in the order of the edits, but a cluster may
/// gain and lose references in turn, so its refcount changes by its gains minus its losses.
///
/// With an external data file, data clusters are clusters of that file, which has no refcounts; clusters of
/// compressed data are the image's.
#[derive(Debug, Drop)]
pub struct Outcome {
    /// The host clusters that gained a reference, once for each reference.
    pub gained: Vec<HostCluster>,
    /// The host clusters that lost a reference.
    pub freed: Vec<ClustersToFreeEntry>,
}

/// The changes of references by one edit.
#[derive(Clone, Copy, Debug, PartialEq, Eq)]
pub struct Change {
    /// The host cluster that gained a reference.
    pub gained: Option<HostCluster>,
    /// The host clusters that each lost a reference.
    pub freed: Option<ClustersToFreeEntry>,
}

impl Edit {
    // Whether the edit fits the table, whose entries can refer to host clusters up to `greatest`.
    fn fits(&self, table: &L2Table, greatest: HostCluster) -> bool
        requires { greatest.0 ≡ max_offset / 2 ^ table.now.geometry.cluster_bits }
        ensures { result ≡ edit_fits table.now self.now }
    {
        match *self {
            Edit::Map {
                index,
                host_cluster,
            } => table.in_bounds(index) && is_mappable(table, greatest, host_cluster),
            Edit::Zero { index, .. } | Edit::Discard { index } => table.in_bounds(index),
        }
    }

    /// Makes the edit, which must fit the table, and returns its changes of references. Allocates nothing.
    /// The table then counts as modified.
    pub fn make(&self, table: &mut L2Table) -> Change
        requires { edit_fits table.old self.now ≡ true }
        ensures { Makes (table_edit self.now) result table.old table.new }
    {
        let mut guard = table.lock_write();
        match *self {
            Edit::Map {
                index,
                host_cluster,
            } => Change::of_mapping(host_cluster, map_anew(&mut guard, index, host_cluster)),
            Edit::Zero {
                index,
                keep_allocation,
            } => {
                let freed = guard.zero_cluster(index, keep_allocation);
                Change::of_dropping(freed.unwrap())
            }
            Edit::Discard { index } => Change::of_dropping(guard.discard_cluster(index)),
        }
    }
}

// Maps the guest cluster at an index to a host cluster, and returns all clusters that its entry referred to
// before. Discards the mapping first: `map_cluster` returns `None` both for an entry without a cluster and
// for one that keeps this cluster.
#[tactic(auto, using(crate::proofs::EditsLemmas::edited_twice))]
fn map_anew(
    guard: &mut L2TableWriteGuard<'_>,
    index: usize,
    host_cluster: HostCluster,
) -> Option<ClustersToFreeEntry>
    requires index { index < length (guarded_table guard.old).numbers }
    requires cluster { is_mappable (guarded_table guard.old).geometry host_cluster.0 ≡ true }
    ensures same_table { IsSameTable guard.old guard.new }
    ensures table { let table = guarded_table guard.old in
        guarded_table guard.new
        ≡ with_number table index (entry_of table.geometry.cluster_bits (data_file host_cluster.0 true)) }
    ensures before { let table = guarded_table guard.old in
        result ≡ allocation table.geometry (slice_index table.numbers index) }
{
    let before = guard.discard_cluster(index);
    let _ = guard.map_cluster(index, host_cluster, None);
    before
}

// Whether an entry of the table, which can refer to host clusters up to `greatest`, can refer to this one.
#[tactic(auto, using(crate::proofs::EditsLemmas::mappable_by_greatest))]
fn is_mappable(table: &L2Table, greatest: HostCluster, host_cluster: HostCluster) -> bool
    requires { greatest.0 ≡ max_offset / 2 ^ table.now.geometry.cluster_bits }
    ensures { result ≡ is_mappable table.now.geometry host_cluster.0 }
{
    host_cluster.0 <= greatest.0 && (table.external_data_file() || host_cluster.0 != 0)
}

impl Change {
    // Returns the change by a mapping to a host cluster, if the entry referred to `before`.
    fn of_mapping(host_cluster: HostCluster, before: Option<ClustersToFreeEntry>) -> Change
        ensures gained { option_map (λ (cluster : Cluster). cluster.0) result.gained
            ≡ if is_just host_cluster.0 before then None else Some host_cluster.0 }
        ensures freed { result.freed ≡ if is_just host_cluster.0 before then None else before }
    {
        let just = ClustersToFreeEntry {
            first: host_cluster,
            count: ClusterCount(1),
        };
        if before == Some(just) {
            return Change::of_dropping(None);
        }
        Change {
            gained: Some(host_cluster),
            freed: before,
        }
    }

    // Returns the change by an edit without a gained cluster.
    fn of_dropping(freed: Option<ClustersToFreeEntry>) -> Change
        ensures { result ≡ record { gained = None; freed = freed } }
    {
        Change {
            gained: None,
            freed,
        }
    }
}

// Appends a value, if there is one, to a list with room for it.
fn push_some<T: Drop>(list: &mut Vec<T>, value: Option<T>)
    requires { length list.old.items < vec_capacity list.old }
    ensures items { list.new.items ≡ list.old.items ++ option_to_list value }
    ensures capacity { vec_capacity list.old ≤ vec_capacity list.new }
{
    if let Some(value) = value {
        list.push(value).unwrap();
    }
}

impl Outcome {
    // Returns the outcome of no edits, with room for that of `edits` edits.
    fn with_capacity(alloc: Global, edits: usize) -> Result<Outcome, AllocError>
        ensures gained { IfOk result (λ outcome. outcome.gained.items ≡ []) }
        ensures freed { IfOk result (λ outcome. outcome.freed.items ≡ []) }
        ensures room { IfOk result (HasRoom edits) }
    {
        Ok(Outcome {
            gained: Vec::with_capacity(alloc, edits)?,
            freed: Vec::with_capacity(alloc, edits)?,
        })
    }

    // Appends the change by one edit. The lists must have room for it.
    fn push(&mut self, change: Change)
        requires { HasRoom 1 self.old }
        ensures gained { self.new.gained.items ≡ self.old.gained.items ++ option_to_list change.gained }
        ensures freed { self.new.freed.items ≡ self.old.freed.items ++ option_to_list change.freed }
        ensures room { (more : ℕ) → HasRoom (more + 1) self.old → HasRoom more self.new }
    {
        push_some(&mut self.gained, change.gained);
        push_some(&mut self.freed, change.freed);
    }
}

// Returns the position of the first edit that doesn't fit the table.
#[tactic(auto, using(crate::proofs::EditsLemmas::unfit_position))]
fn first_unfit(table: &L2Table, edits: &[Edit]) -> Option<usize>
    ensures position { result ≡ first_unfit_edit table.now edits.now }
    ensures bits { IsClusterBits table.now.geometry.cluster_bits }
{
    // A cluster's offset may not fit 64 bits, so compare with the greatest cluster instead.
    let greatest = MAX_OFFSET.cluster(table.cluster_bits());
    edits.iter().position(
        |edit: &Edit| -> bool
            requires { greatest.0 ≡ max_offset / 2 ^ table.now.geometry.cluster_bits }
            ensures { result ≡ not (edit_fits table.entry.now edit.now) }
        { !edit.fits(table, greatest) },
    )
}

/// Checks that all edits fit the table, or returns the position of the first that doesn't: its index is past
/// the table's end, or it maps to a host cluster that `L2TableWriteGuard::map_cluster` doesn't take. Doesn't
/// check whether another entry refers to that cluster, or the table itself lies there.
pub fn edits_fit(table: &L2Table, edits: &[Edit]) -> Result<(), usize>
    ensures { MatchResult result
        (λ fit. first_unfit_edit table.now edits.now ≡ None)
        (λ at. first_unfit_edit table.now edits.now ≡ Some at) }
{
    match first_unfit(table, edits) {
        None => Ok(()),
        Some(position) => Err(position),
    }
}

// Makes the edits, which must all fit the table, in order. The outcome must have room for their changes.
#[tactic(auto, using(crate::proofs::EditsLemmas::part_way_fits))]
fn make_edits(table: &mut L2Table, edits: &[Edit], outcome: &mut Outcome)
    requires fit { first_unfit_edit table.old edits.now ≡ None }
    requires gained { outcome.old.gained.items ≡ [] }
    requires freed { outcome.old.freed.items ≡ [] }
    requires room { HasRoom (length edits.now) outcome.old }
    ensures run { edits_left table.new outcome.new
        ≡ run_of table.old.geometry (map table_edit edits.now) table.old.numbers }
    ensures table { table.new ≡ table_left edits.now table.old table.new.numbers }
{
    for edit in edits {
        outcome.push(edit.make(table));
    }
}

/// Makes all edits of an L2 table in order, and returns their changes of references. For each host cluster,
/// the table's references afterwards plus those freed are its references before plus those gained. The table
/// then counts as modified, unless there are no edits.
///
/// Refuses edits that don't all fit (fault 32), with the position of the first, as `edits_fit` returns it.
/// Allocates the outcome before the first edit. A refusal leaves the table unchanged. Its cluster stays.
#[tactic(auto, using(crate::proofs::EditsLemmas::run_balances))]
pub fn edit_table(alloc: Global, table: &mut L2Table, edits: &[Edit]) -> Result<Outcome, Fault>
    ensures unfit { IfSome (first_unfit_edit table.old edits.now) (λ at. result ≡ Err (BadEdit at)) }
    ensures exact { Computes (edits_left table.new) result (edits_or_refusal table.old edits.now) }
    ensures unchanged { IfErr result (λ fault. table.new ≡ table.old) }
    ensures table { IfOk result (λ outcome. table.new ≡ table_left edits.now table.old table.new.numbers) }
    ensures balance { IfOk result (λ outcome. Balances outcome table.old table.new) }
{
    if let Some(position) = first_unfit(table, edits) {
        return Err(Fault::BadEdit(position));
    }
    let mut outcome = Outcome::with_capacity(alloc, edits.len())?;
    make_edits(table, edits, &mut outcome);
    Ok(outcome)
}
