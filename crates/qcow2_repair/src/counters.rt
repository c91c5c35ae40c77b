//! A repair's passes over refcounts: one raises those that are lower than the number of references, another
//! lowers those that are higher.

ghost use Rattle.std.specs.Prelude.{◌≡◌, ℕ, ◌⊎◌, ◌+◌, ◌/◌, ◌^◌, ◌<◌, ◌≤◌, IfErr, IfOk, IfSome, IsTrue, MatchResult, None, OnOk, Some, length, slice_index, slice_set, true};
ghost use Rattle.qcow2_base.specs.Format.{max_file_length};
ghost use Rattle.qcow2_base.specs.Storage.{OnImage, OnImages, OnlyWrites};
ghost use Rattle.qcow2_base.specs.declared.fault.Fault.TheVariants.{CounterRange};
ghost use Rattle.qcow2_metadata.specs.Placed.{offset_of, place_fault};
ghost use Rattle.qcow2_metadata.specs.Refblock.{block_entries, block_geometry_of, block_layout, greatest_counter};
ghost use Rattle.qcow2_metadata.specs.Results.{IsFromOutside};
ghost use Rattle.qcow2_check.specs.Counters.{blocks_fault};
ghost use Rattle.qcow2_check.specs.Findings.{CountsAll};
ghost use Rattle.qcow2_check.specs.Tally.{cell_at, dense_end};
ghost use Rattle.qcow2_repair.specs.Repair.{IsRepairFault, IsRepairable};
ghost use Rattle.qcow2_check.specs.Failures.{ReportsFailures};
ghost use Rattle.qcow2_repair.specs.Counters.{BreaksOff, IsPastCounters, PassesBetween, PassesBlock, PassesCounters, block_counters, counter_towards};

use crate::kept_tally::KeptTally;
use qcow2_base::{Device, Fault, HostCluster, MAX_FILE_LENGTH, Storage};
use qcow2_check::{ImageTables, Tally, count_of, counted_end, named_block, zero_groups};
use qcow2_metadata::{RefBlock, Table};

// The number of refcounts that are compared as one group.
const TOGETHER: usize = 64;

/// The refcounts that a pass changes.
#[derive(Clone, Copy)]
pub(crate) enum CounterPass {
    /// Raises those that are lower than the number of references.
    Rise,
    /// Lowers those that are higher.
    Fall,
}

impl CounterPass {
    // The refcount that the pass leaves, where `uses` is the number of references.
    #[inline]
    fn counter(self, uses: u64, counter: u64) -> u64
        ensures { result ≡ counter_towards self uses counter }
    {
        match self {
            CounterPass::Rise => counter.max(uses),
            CounterPass::Fall => counter.min(uses),
        }
    }
}

/// The refcounts of a block from index `from` to before `to`. The block's first refcount is that of cluster
/// `first`.
#[derive(Clone, Copy)]
struct BlockPart {
    first: u64,
    from: usize,
    to: usize,
}

// Raises or lowers one refcount of a block to the number of references. Refuses a number that the refcount
// can't hold (fault 30), and then changes nothing.
fn pass_counter(
    block: &mut RefBlock,
    index: usize,
    uses: u64,
    pass: CounterPass,
) -> Result<(), Fault>
    requires { index < length block.old.numbers }
    ensures fault { IfErr result (λ fault. (fault ≡ CounterRange)
        × (greatest_counter block.old.geometry.refcount_order < uses)) }
    ensures numbers { OnOk result (block.new.numbers ≡ slice_set block.old.numbers index
        (counter_towards pass uses (slice_index block.old.numbers index))) }
    ensures same { block.new
        ≡ record block.old { numbers = block.new.numbers; modified = block.new.modified } }
    ensures modified { (block.new ≡ block.old) ⊎ (block.new.modified ≡ true) }
{
    let before = block.get(index);
    let after = pass.counter(uses, before);
    if after != before {
        block.lock_write().set(index, after)?;
    }
    Ok(())
}

// The number of references to a cluster, for clusters in ascending order. Keeps in `unused_end` an end before
// which no cluster from this one on has a reference, and looks no further than `limit` for it: clusters that
// lie apart cost a search for each of them, not for each cluster between them.
#[inline]
fn uses_in_order(tally: &Tally, cluster: u64, limit: u64, unused_end: &mut u64) -> u64
    requires tally { tally.now.first ≤ cluster }
    requires limit { cluster ≤ limit }
    requires unused { (c : ℕ) → cluster ≤ c → c < unused_end.old → cell_at tally.now c ≡ 0 }
    ensures uses { result ≡ cell_at tally.now cluster / 8 }
    ensures unused { (c : ℕ) → cluster ≤ c → c < unused_end.new → cell_at tally.now c ≡ 0 }
{
    if cluster >= *unused_end && !tally.is_dense(cluster) {
        *unused_end = tally.next_used(cluster, limit);
    }
    if cluster < *unused_end {
        return 0;
    }
    count_of(tally.cell(cluster))
}

// Raises or lowers refcounts of a block to the numbers of references that a tally has counted, one by one.
// Refuses a number that a refcount can't hold (fault 30).
fn pass_each(
    block: &mut RefBlock,
    tally: &Tally,
    part: BlockPart,
    pass: CounterPass,
) -> Result<(), Fault>
    requires tally { tally.now.first ≤ part.first + part.from }
    requires within { (part.from ≤ part.to) × (part.to ≤ length block.old.numbers) }
    requires fits { part.first + part.to < 2 ^ 64 }
    ensures fault { IfErr result (IsPastCounters block.old.geometry.refcount_order
        (λ k. cell_at tally.now (part.first + k) / 8) part.from part.to) }
    ensures counters { OnOk result (PassesBlock pass (λ k. cell_at tally.now (part.first + k) / 8)
        part.from part.to block.old.numbers block.new.numbers) }
    ensures same { block.new
        ≡ record block.old { numbers = block.new.numbers; modified = block.new.modified } }
    ensures modified { (block.new ≡ block.old) ⊎ (block.new.modified ≡ true) }
{
    let limit = part.first + part.to as u64;
    let mut unused_end = part.first;
    for index in part.from..part.to {
        let uses = uses_in_order(tally, part.first + index as u64, limit, &mut unused_end);
        pass_counter(block, index, uses, pass)?;
    }
    Ok(())
}

// The cells of `TOGETHER` clusters from one on, which are consecutive cells.
fn cells_from(tally: &Tally, first: u64) -> [u64; TOGETHER]
    requires first { tally.now.first ≤ first }
    requires dense { first + 64 ≤ dense_end tally.now }
    requires fits { first + 64 < 2 ^ 64 }
    ensures { (k : ℕ) → k < 64 → slice_index result k ≡ cell_at tally.now (first + k) }
{
    let mut cells = [0; TOGETHER];
    for k in 0..TOGETHER {
        cells[k] = tally.dense_cell(first + k as u64);
    }
    cells
}

// Whether `TOGETHER` refcounts of a block from an index on are the numbers of references that these cells
// count. Tests each, so that the compiler can compare several at once.
fn are_counted(block: &RefBlock, index: usize, cells: &[u64; TOGETHER]) -> bool
    requires { index + 64 ≤ length block.now.numbers }
    ensures { IsTrue result → (k : ℕ) → k < 64 →
        slice_index block.now.numbers (index + k) ≡ slice_index cells.now k / 8 }
{
    prove!(index < block.entries());
    let mut counted = true;
    for k in 0..TOGETHER {
        counted &= block.get(index + k) == count_of(cells[k]);
    }
    counted
}

// Returns a number of refcounts of a block from an index on, at most `count`, that are the numbers of
// references to the clusters from `first` on. Tests whole groups, so more may be.
fn counted_groups(block: &RefBlock, tally: &Tally, first: u64, index: usize, count: usize) -> usize
    requires first { tally.now.first ≤ first }
    requires fits { first + count < 2 ^ 64 }
    requires index { index + count ≤ length block.now.numbers }
    ensures within { result ≤ count }
    ensures counted { (k : ℕ) → k < result →
        slice_index block.now.numbers (index + k) ≡ cell_at tally.now (first + k) / 8 }
{
    prove!(count <= block.entries());
    for group in 0..count / TOGETHER {
        let start = TOGETHER * group;
        let cluster = first + start as u64;
        if !tally.is_dense(cluster + 63)
            || !are_counted(block, index + start, &cells_from(tally, cluster))
        {
            return start;
        }
    }
    count / TOGETHER * TOGETHER
}

// Whether no cluster of a part has a reference.
fn is_unused(tally: &Tally, part: BlockPart) -> bool
    requires tally { tally.now.first ≤ part.first + part.from }
    requires within { part.from ≤ part.to }
    requires fits { part.first + part.to < 2 ^ 64 }
    ensures { IsTrue result → (k : ℕ) → part.from ≤ k → k < part.to →
        cell_at tally.now (part.first + k) ≡ 0 }
{
    let end = part.first + part.to as u64;
    tally.next_used(part.first + part.from as u64, end) == end
}

// Returns the index of a refcount before which the pass changes none of these. Compares whole groups, so that
// refcount and those after it may stay too.
#[tactic(auto, using(crate::proofs::CountersLemmas::unused_stays))]
fn unchanged_end(block: &RefBlock, tally: &Tally, part: BlockPart, pass: CounterPass) -> usize
    requires tally { tally.now.first ≤ part.first + part.from }
    requires within { (part.from ≤ part.to) × (part.to ≤ length block.now.numbers) }
    requires fits { part.first + part.to < 2 ^ 64 }
    ensures within { (part.from ≤ result) × (result ≤ part.to) }
    ensures unchanged { PassesBlock pass (λ k. cell_at tally.now (part.first + k) / 8)
        part.from result block.now.numbers block.now.numbers }
{
    let cluster = part.first + part.from as u64;
    let count = part.to - part.from;
    if tally.is_dense(cluster) {
        return part.from + counted_groups(block, tally, cluster, part.from, count);
    }
    let unused = (tally.next_used(cluster, cluster + count as u64) - cluster) as usize;
    match pass {
        CounterPass::Rise => part.from + unused,
        CounterPass::Fall => part.from + zero_groups(block, part.from, unused),
    }
}

// Raises or lowers refcounts of a block as `pass_each` does, but passes over groups that stay.
fn pass_counters(
    block: &mut RefBlock,
    tally: &Tally,
    part: BlockPart,
    pass: CounterPass,
) -> Result<(), Fault>
    requires tally { tally.now.first ≤ part.first + part.from }
    requires within { (part.from ≤ part.to) × (part.to ≤ length block.old.numbers) }
    requires fits { part.first + part.to < 2 ^ 64 }
    ensures fault { IfErr result (IsPastCounters block.old.geometry.refcount_order
        (λ k. cell_at tally.now (part.first + k) / 8) part.from part.to) }
    ensures counters { OnOk result (PassesBlock pass (λ k. cell_at tally.now (part.first + k) / 8)
        part.from part.to block.old.numbers block.new.numbers) }
    ensures same { block.new
        ≡ record block.old { numbers = block.new.numbers; modified = block.new.modified } }
    ensures modified { (block.new ≡ block.old) ⊎ (block.new.modified ≡ true) }
{
    let mut index = part.from;
    while index < part.to {
        let rest = BlockPart {
            from: index,
            ..part
        };
        let from = unchanged_end(block, tally, rest, pass);
        let to = from + TOGETHER.min(part.to - from);
        pass_each(block, tally, BlockPart { from, to, ..part }, pass)?;
        index = to;
    }
    Ok(())
}

// Loads the refcount block at a cluster, raises or lowers some of its refcounts, and writes what has changed.
// Doesn't load it for a rise where no cluster has a reference.
#[tactic(auto, using(crate::proofs::CountersLemmas::unused_part))]
fn pass_block<S: Storage>(
    image: &mut S,
    tables: &ImageTables<'_>,
    cluster: HostCluster,
    tally: &Tally,
    part: BlockPart,
    pass: CounterPass,
) -> Result<(), Fault>
    requires place { place_fault (block_layout (block_geometry_of tables.now.header)) cluster ≡ None }
    requires tally { tally.now.first ≤ part.first + part.from }
    requires within { let header = tables.now.header in (part.from ≤ part.to)
        × (part.to ≤ block_entries header.v2.cluster_bits header.base.refcount_order) }
    requires fits { part.first + part.to < 2 ^ 64 }
    ensures counters { OnOk result (OnImages (S.state image.old) (S.state image.new) (λ before after.
        PassesBlock pass (λ k. cell_at tally.now (part.first + k) / 8) part.from part.to
        (block_counters tables.now cluster before) (block_counters tables.now cluster after))) }
    ensures fault { IfErr result (λ fault. IsFromOutside fault
        ⊎ IsPastCounters tables.now.header.base.refcount_order
        (λ k. cell_at tally.now (part.first + k) / 8) part.from part.to fault) }
    ensures storage { let layout = block_layout (block_geometry_of tables.now.header) in
        OnlyWrites result (Some (offset_of layout cluster)) layout.byte_count
        (S.state image.old) (S.state image.new) }
{
    if matches!(pass, CounterPass::Rise) && is_unused(tally, part) {
        return Ok(());
    }
    let mut block = RefBlock::load(tables.l1_table.allocator(), image, tables.header, cluster)?;
    pass_counters(&mut block, tally, part, pass)?;
    block.write_changes(image, cluster)
}

// Raises or lowers the refcounts from a cluster on that are in its block and whose references one window
// counts. Returns the cluster after the last of them. If the cluster has no block, skips the range that the
// block would count.
#[tactic(auto, using(crate::proofs::CountersLemmas::place_of_named))]
fn pass_from<S: Storage>(
    image: &mut S,
    tables: &ImageTables<'_>,
    kept: &mut KeptTally,
    cluster: u64,
    pass: CounterPass,
) -> Result<u64, Fault>
    requires cluster { cluster < max_file_length }
    requires placed { blocks_fault tables.now.header tables.now.reftable ≡ None }
    requires repairable { OnImage (S.state image.old) (IsRepairable tables.now) }
    requires kept { OnImage (S.state image.old) (λ bytes.
        IfSome kept.old.tally (CountsAll tables.now bytes)) }
    ensures passed { OnImages (S.state image.old) (S.state image.new) (λ before after.
        MatchResult result
        (λ end. PassesBetween tables.now pass cluster end before after)
        (λ fault. BreaksOff tables.now pass fault before after)) }
    ensures further { IfOk result (λ end. (cluster < end) × (end ≤ max_file_length)) }
    ensures kept { OnImages (S.state image.old) (S.state image.new) (λ _ after.
        OnOk result (IfSome kept.new.tally (CountsAll tables.now after))) }
    ensures fault { IfErr result (IsRepairFault (S.state image.old)) }
    ensures storage { ReportsFailures result (S.state image.old) (S.state image.new) }
{
    let (table_index, index) = HostCluster(cluster).rt_rb_indices(tables.header.rb_bits());
    let first = cluster - index as u64;
    let block_end = first + tables.header.rb_entries() as u64;
    let Some(place) = named_block(tables.reftable, table_index) else {
        return Ok(block_end.min(MAX_FILE_LENGTH));
    };
    kept.keep(image, tables, cluster)?;
    let tally = kept.tally.as_ref().unwrap();
    let end = tally.end().min(block_end);
    let part = BlockPart {
        first,
        from: index,
        to: (end - first) as usize,
    };
    pass_block(image, tables, place, tally, part, pass)?;
    Ok(end)
}

/// Raises or lowers all refcounts of an image with these tables, and syncs them to the device.
pub(crate) fn pass_all_counters<S: Device>(
    image: &mut S,
    tables: &ImageTables<'_>,
    kept: &mut KeptTally,
    pass: CounterPass,
) -> Result<(), Fault>
    requires placed { blocks_fault tables.now.header tables.now.reftable ≡ None }
    requires repairable { OnImage (S.state image.old) (IsRepairable tables.now) }
    requires kept { OnImage (S.state image.old) (λ bytes.
        IfSome kept.old.tally (CountsAll tables.now bytes)) }
    ensures passed { OnImages (S.state image.old) (S.state image.new) (λ before after.
        MatchResult result
        (λ _. PassesCounters tables.now pass before after)
        (λ fault. BreaksOff tables.now pass fault before after)) }
    ensures kept { OnImages (S.state image.old) (S.state image.new) (λ _ after.
        OnOk result (IfSome kept.new.tally (CountsAll tables.now after))) }
    ensures fault { IfErr result (IsRepairFault (S.state image.old)) }
    ensures storage { ReportsFailures result (S.state image.old) (S.state image.new) }
{
    let end = counted_end(tables.header, tables.reftable);
    let mut cluster = 0;
    while cluster < end {
        cluster = pass_from(image, tables, kept, cluster, pass)?;
    }
    image.sync()?;
    Ok(())
}
