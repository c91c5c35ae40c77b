//! Refcounts of a block that follow the edits of a table.

ghost use Rattle.std.specs.Prelude.{◌≡◌, ◌≢◌, ℕ, ◌+◌, ◌<◌, ◌≤◌, if◌then◌else◌, Err, IfErr, IfOk, IfSome, None, OnOk, length, nat_lt, slice_index, take};
ghost use Rattle.qcow2_base.specs.declared.fault.Fault.TheVariants.{CounterRange, ExternalData};
ghost use Rattle.qcow2_edits.specs.Edits.{Balances, cluster_numbers, edits_left};
ghost use Rattle.qcow2_edits.specs.Settled.{ChangesBlock, ChangesCounters, IsSameButFlag, SomeLeavesRange, block_or_refusal, change_in, settled_edits_or_refusal, first_counted, first_refusal, is_between, range_of_one, times_counted};
ghost use Rattle.qcow2_metadata.specs.Results.{Computes, result_map};
ghost use Rattle.qcow2_metadata.specs.Table.L2Guards.{one_if};
ghost use Rattle.qcow2_metadata.specs.Entries.{is_among};
ghost use Rattle.qcow2_metadata.specs.Header.{geometry_of, uses_external_data};
ghost use Rattle.qcow2_metadata.specs.Refblock.Counters.{AreCounters};
ghost use Rattle.qcow2_metadata.specs.Refblock.Guard.{Steps, counter_after};
ghost use Rattle.qcow2_metadata.specs.declared.entries.ClustersToFreeEntry.{ClustersToFreeEntry as Clusters};

use crate::{Edit, Outcome, edit_table, edits_fit};
use qcow2_base::{ClusterCount, Fault, HostCluster};
use qcow2_metadata::{AtomicL2Entry, ClustersToFreeEntry, Header, L2Table, RefBlock, Table};
use std::alloc::{AllocError, Global};

// Whether refcounts are raised or lowered.
#[derive(Clone, Copy)]
enum Direction {
    Up,
    Down,
}

impl Direction {
    // Returns the other direction, which undoes this one.
    fn back(self) -> Direction
        ensures { change_in result ≢ change_in self }
    {
        match self {
            Direction::Up => Direction::Down,
            Direction::Down => Direction::Up,
        }
    }

    // Raises or lowers the refcount at an index by 1, if it stays in range.
    fn step(self, block: &mut RefBlock, index: usize) -> Result<u64, Fault>
        requires { index < length block.old.numbers }
        ensures { Steps (change_in self) index result block.old block.new }
    {
        let mut guard = block.lock_write();
        match self {
            Direction::Up => guard.increment(index),
            Direction::Down => guard.decrement(index),
        }
    }
}

// Changes the refcounts from index `start` to before `end`. Stops at the first that would leave its range,
// and returns its index.
fn step_range(
    block: &mut RefBlock,
    start: usize,
    end: usize,
    direction: Direction,
) -> Result<(), usize>
    requires { end ≤ length block.old.numbers }
    ensures changed { OnOk result (ChangesBlock (change_in direction)
        (λ i. one_if (is_between start end i)) block.old block.new) }
    ensures stopped { IfErr result (λ at. (start ≤ at) × (at < end)
        × ChangesCounters (change_in direction)
        (λ i. one_if (is_between start at i)) block.old block.new) }
    ensures out_of_range { IfErr result (λ at.
        counter_after block.old.geometry.refcount_order (change_in direction)
        (slice_index block.old.numbers at) ≡ None) }
{
    for index in start..end {
        if let Err(_) = direction.step(block, index) {
            return Err(index);
        }
    }
    Ok(())
}

// Returns the number of refcounts before that of a cluster, in a block of `entries` refcounts whose first one
// is of cluster `first`.
fn counters_before(first: u128, entries: usize, cluster: u128) -> usize
    ensures within { result ≤ entries }
    ensures each { (index : ℕ) → index < entries → nat_lt index result ≡ nat_lt (first + index) cluster }
{
    if cluster <= first {
        return 0;
    }
    let before = cluster - first;
    if before < entries as u128 {
        return before as usize;
    }
    entries
}

// Changes the refcount of each of these clusters by 1, or none of them if one would leave its range.
fn count_clusters(
    block: &mut RefBlock,
    first: u128,
    clusters: ClustersToFreeEntry,
    direction: Direction,
) -> Result<(), Fault>
    ensures changed { OnOk result (ChangesBlock (change_in direction)
        (λ i. one_if (is_among clusters (first + i))) block.old block.new) }
    ensures back { IfErr result (λ fault. (fault ≡ CounterRange) × IsSameButFlag block.old block.new) }
    ensures out_of_range { IfErr result (λ fault.
        SomeLeavesRange (change_in direction) (λ i. one_if (is_among clusters (first + i))) block.old) }
{
    let entries = block.entries();
    let begin = clusters.first.0 as u128;
    let start = counters_before(first, entries, begin);
    let end = counters_before(first, entries, begin + clusters.count.0 as u128);
    let Err(stopped) = step_range(block, start, end, direction) else {
        return Ok(());
    };
    step_range(block, start, stopped, direction.back()).unwrap();
    Err(Fault::CounterRange)
}

// An item of an outcome: clusters that each gained or lost a reference.
trait Counted {
    ghost clusters: { Self → Clusters };

    // Returns the consecutive clusters of the item.
    fn clusters(&self) -> ClustersToFreeEntry
        ensures { result ≡ clusters self.now };
}

impl Counted for HostCluster {
    ghost clusters = { range_of_one };

    fn clusters(&self) -> ClustersToFreeEntry {
        let count = ClusterCount(1);
        ClustersToFreeEntry {
            first: *self,
            count,
        }
    }
}

impl Counted for ClustersToFreeEntry {
    ghost clusters = { λ clusters. clusters };

    fn clusters(&self) -> ClustersToFreeEntry {
        *self
    }
}

// Changes the refcounts of the clusters of each item, in order. Stops before an item with a refcount that
// would leave its range, and returns the number of items before it.
fn count_list<C: Counted>(
    block: &mut RefBlock,
    first: u128,
    list: &[C],
    direction: Direction,
) -> Result<(), usize>
    ensures fit { AreCounters block.old.geometry.refcount_order block.old.numbers }
    ensures changed { OnOk result (ChangesBlock (change_in direction)
        (times_counted C.clusters list.now first) block.old block.new) }
    ensures stopped { IfErr result (λ at. (at < length list.now) × ChangesCounters (change_in direction)
        (times_counted C.clusters (take at list.now) first) block.old block.new) }
    ensures out_of_range { IfErr result (λ at.
        SomeLeavesRange (change_in direction) (times_counted C.clusters list.now first) block.old) }
{
    // Called for its contract alone: each refcount fits its width.
    let _ = block.entries();
    for at in 0..list.len() {
        if let Err(_) = count_clusters(block, first, list[at].clusters(), direction) {
            return Err(at);
        }
    }
    Ok(())
}

// Changes the refcounts of the clusters of each item, or none if one would leave its range.
fn count_all<C: Counted>(
    block: &mut RefBlock,
    first: u128,
    list: &[C],
    direction: Direction,
) -> Result<(), Fault>
    ensures fit { AreCounters block.old.geometry.refcount_order block.old.numbers }
    ensures changed { OnOk result (ChangesBlock (change_in direction)
        (times_counted C.clusters list.now first) block.old block.new) }
    ensures back { IfErr result (λ fault. (fault ≡ CounterRange) × IsSameButFlag block.old block.new) }
    ensures out_of_range { IfErr result (λ fault.
        SomeLeavesRange (change_in direction) (times_counted C.clusters list.now first) block.old) }
{
    let Err(stopped) = count_list(block, first, list, direction) else {
        return Ok(());
    };
    count_list(block, first, &list[..stopped], direction.back()).unwrap();
    Err(Fault::CounterRange)
}

// Counts all references that clusters gained by the outcome, then all that they lost, or none of them. A
// refusal may change the modified flag alone.
fn count_outcome(block: &mut RefBlock, first: u128, outcome: &Outcome) -> Result<(), Fault>
    ensures exact { result_map (λ done. block.new) result ≡ block_or_refusal block.old first
        outcome.now.freed.items (cluster_numbers outcome.now.gained.items) }
    ensures back { IfErr result (λ fault. IsSameButFlag block.old block.new) }
{
    let gained = outcome.gained.as_slice();
    if let Err(fault) = count_all(block, first, gained, Direction::Up) {
        return Err(fault);
    }
    let Err(fault) = count_all(block, first, outcome.freed.as_slice(), Direction::Down) else {
        return Ok(());
    };
    count_list(block, first, gained, Direction::Down).unwrap();
    Err(fault)
}

/// Applies the outcome of edits to a refcount block. Raises the refcount of each cluster in the block by 1
/// for each reference that the cluster gained, and lowers it by 1 for each that it lost. The block counts as
/// many clusters as it has entries, from `rt_index`, its index in the refcount table, times that number on;
/// the call ignores all others. The block then counts as modified if one of its clusters gained or lost a
/// reference, else its flag stays. Its place in the image stays. The header must have the block's cluster
/// bits and refcount order. Allocates nothing.
///
/// Refuses an image with an external data file (fault 36), whose data clusters have no refcounts. Then
/// refuses with fault 30 if a refcount would pass the greatest number of its width once all gains and no
/// losses are counted, or if a cluster loses more than its refcount and its gains. A refusal leaves the block
/// unchanged.
pub fn settle(
    block: &mut RefBlock,
    header: &Header,
    rt_index: usize,
    outcome: &Outcome,
) -> Result<(), Fault>
    requires cluster_bits { header.now.v2.cluster_bits ≡ block.old.geometry.cluster_bits }
    requires refcount_order { header.now.base.refcount_order ≡ block.old.geometry.refcount_order }
    ensures exact { result_map (λ done. block.new) result
        ≡ if uses_external_data header.now then Err ExternalData
        else block_or_refusal block.old (first_counted block.old rt_index)
        outcome.now.freed.items (cluster_numbers outcome.now.gained.items) }
    ensures unchanged { IfErr result (λ fault. block.new ≡ block.old) }
{
    if header.external_data_file() {
        return Err(Fault::ExternalData);
    }
    let was_modified = block.is_modified();
    // The product, and its sum with an index, fit 128 bits even if they don't fit 64.
    let first = rt_index as u128 * block.entries() as u128;
    let Err(fault) = count_outcome(block, first, outcome) else {
        return Ok(());
    };
    if was_modified {
        block.set_modified();
    } else {
        block.clear_modified();
    }
    Err(fault)
}

// Returns the table's `count` entries in order.
fn entries_of(
    alloc: Global,
    table: &L2Table,
    count: usize,
) -> Result<Vec<AtomicL2Entry>, AllocError>
    requires { count ≡ length table.now.numbers }
    ensures { IfOk result (λ entries. entries.items ≡ table.now.numbers) }
{
    (0..count)
        .map(
            |index: usize| -> AtomicL2Entry
                ensures { result ≡ slice_index table.entry.now.numbers index }
            { AtomicL2Entry::new(table.get(index)) },
        )
        .collect(alloc)
}

// Returns an equal table.
fn copy_of(table: &L2Table, header: &Header) -> Result<L2Table, AllocError>
    requires { geometry_of header.now ≡ table.now.geometry }
    ensures { IfOk result (λ copy. copy ≡ table.now) }
{
    let entries = entries_of(table.allocator(), table, table.entries())?;
    let mut copy = L2Table::from_data(entries, header);
    if let Some(cluster) = table.get_cluster() {
        copy.set_cluster(cluster);
    }
    if !table.is_modified() {
        copy.clear_modified();
    }
    Ok(copy)
}

/// Makes all edits of an L2 table, as `edit_table` does, and applies the outcome to a refcount block, as
/// `settle` does. For each cluster of the block, the refcount afterwards plus the table's references before
/// is the refcount before plus the table's references afterwards. So a refcount that was at least the number
/// of references remains so. The caller counts the outcome for other clusters: settle it with each other
/// block by `settle`; if that refuses, the edits stay made. The header must have the table's geometry, and
/// the block's cluster bits and refcount order.
///
/// Refuses an image with an external data file (fault 36), and then edits that don't all fit (fault 32), with
/// the position of the first, as `edits_fit` returns it. Allocates all memory before the first change. Then
/// refuses what `settle` refuses: if each refcount was at least the number of references, only gains that
/// raise a refcount past the greatest number. A refusal leaves table and block unchanged.
pub fn edit_settled(
    alloc: Global,
    table: &mut L2Table,
    block: &mut RefBlock,
    header: &Header,
    rt_index: usize,
    edits: &[Edit],
) -> Result<Outcome, Fault>
    requires geometry { geometry_of header.now ≡ table.old.geometry }
    requires cluster_bits { header.now.v2.cluster_bits ≡ block.old.geometry.cluster_bits }
    requires refcount_order { header.now.base.refcount_order ≡ block.old.geometry.refcount_order }
    ensures refused { IfSome (first_refusal header.now table.old edits.now) (λ fault. result ≡ Err fault) }
    ensures exact { Computes
        (λ outcome. let end = edits_left table.new outcome in (table.new, block.new, end.freed, end.gained))
        result (settled_edits_or_refusal header.now table.old block.old rt_index edits.now) }
    ensures unchanged { IfErr result (λ fault. (table.new ≡ table.old) × (block.new ≡ block.old)) }
    ensures balance { IfOk result (λ outcome. Balances outcome table.old table.new) }
{
    if header.external_data_file() {
        return Err(Fault::ExternalData);
    }
    if let Err(position) = edits_fit(table, edits) {
        return Err(Fault::BadEdit(position));
    }
    let mut edited = copy_of(table, header)?;
    let outcome = edit_table(alloc, &mut edited, edits)?;
    settle(block, header, rt_index, &outcome)?;
    *table = edited;
    Ok(outcome)
}
