//! The refcounts that an image stores.

ghost use Rattle.std.specs.Prelude.{◌≡◌, ◌↔◌, ℕ, ◌+◌, ◌<◌, ◌≤◌, Ok, Some, None, IfOk, IfSome, IsOkUnless, IsSomeAnd, IsTrue, MatchResult, OnOk, length, slice_index};
ghost use Rattle.qcow2_base.specs.Storage.{OnImage};
ghost use Rattle.qcow2_base.specs.declared.fault.Fault.TheVariants.{TablePlace};
ghost use Rattle.qcow2_metadata.specs.Header.{geometry_of};
ghost use Rattle.qcow2_metadata.specs.Placed.{RefusesPlace, numbers_at, place_fault};
ghost use Rattle.qcow2_metadata.specs.Refblock.{block_geometry_of, block_layout};
ghost use Rattle.qcow2_metadata.specs.Results.{Reads};
ghost use Rattle.qcow2_check.specs.Counters.{IsCountedEnd, IsKeptBlockOf, IsReftableFault, IsSameButBlock, block_of_cluster, block_place_fault, blocks_fault, numbers_of_kept};
ghost use Rattle.qcow2_check.specs.NamedTables.{reftable_cluster, reftable_layout};

use crate::named_tables::{load_reftable, named_block};
use crate::repeats::Repeats;
use qcow2_base::{Fault, HostCluster, MAX_FILE_LENGTH, Storage};
use qcow2_metadata::{Header, RefBlock, RefTable, Table};
use std::alloc::Global;
use std::marker::Model;

// The bytes of a block whose load costs about as much as reading one refcount alone. A block is cached once
// the refcounts that were read alone cost as much as it.
const BYTES_EACH: usize = 4096;

// The most refcount table entries that are passed at once: those after a used cluster are passed again after
// the next one.
const RANGES: usize = 64;

// The number of refcounts that are tested as one group.
const TOGETHER: usize = 64;

/// A reader of an image's refcounts. It holds the refcount table and caches at most one refcount block.
/// Contracts see the header, the table's entries and the cached block.
#[derive(Drop)]
pub struct Counters<'a> {
    header: &'a Header,
    reftable: RefTable,
    // How often each block counts at the entries of the refcount table.
    repeats: Repeats,
    block: Option<RefBlock>,
    // The index of the refcount table entry that names the cached block.
    kept_index: usize,
    // The number of refcounts that were read alone since a block was cached.
    alone: usize,
}

impl<'a> Model for Counters<'a> {
    ghost use Rattle.std.specs.Prelude.{◌≡◌, ◌≤◌, None, Some, IfSome, IsSomeAnd, length, slice_index};
    ghost use Rattle.qcow2_base.specs.Format.{most_reftable_entries};
    ghost use Rattle.qcow2_metadata.specs.Header.{geometry_of};
    ghost use Rattle.qcow2_metadata.specs.Refblock.{block_geometry_of};
    ghost use Rattle.qcow2_check.specs.Counters.{CountersState, blocks_fault};
    ghost use Rattle.qcow2_check.specs.NamedTables.{named_block};
    ghost use Rattle.qcow2_check.specs.Repeats.{AreTimesOf};

    ghost Value = { CountersState };

    ghost view = { λ c. record {
      header = c.header.now;
      reftable = c.reftable.numbers;
      block = c.block;
    } };

    ghost invariant = { λ c. (c.reftable.geometry ≡ geometry_of c.header.now)
        × (length c.reftable.numbers ≤ most_reftable_entries)
        × (blocks_fault c.header.now c.reftable.numbers ≡ None)
        × AreTimesOf c.reftable.numbers c.repeats
        × IfSome c.block (λ block. (block.geometry ≡ block_geometry_of c.header.now)
        × IsSomeAnd block.cluster (λ place. named_block c.header.now.v2.cluster_bits
        (slice_index c.reftable.numbers c.kept_index) ≡ Some place)) };
}

// Refuses the block that a refcount table entry names if it would end past 2^56 (fault 21).
#[tactic(auto, using(crate::proofs::CountersLemmas::refused, crate::proofs::CountersLemmas::accepted))]
fn check_place(header: &Header, reftable: &RefTable, index: usize) -> Result<(), Fault>
    requires { reftable.now.geometry ≡ geometry_of header.now }
    ensures fault { IsOkUnless result TablePlace }
    ensures place { let fault = block_place_fault header.now (slice_index reftable.now.numbers index) in
        MatchResult result (λ done. fault ≡ None) (λ refusal. fault ≡ Some refusal) }
{
    let Some(block) = named_block(reftable, index) else {
        return Ok(());
    };
    if block.0 >= MAX_FILE_LENGTH >> header.cluster_bits() {
        return Err(Fault::TablePlace);
    }
    Ok(())
}

// Refuses a refcount table that names a block which would end past 2^56 (fault 21).
#[tactic(auto, using(crate::proofs::CountersLemmas::places_more))]
fn check_places(header: &Header, reftable: &RefTable) -> Result<(), Fault>
    requires { reftable.now.geometry ≡ geometry_of header.now }
    ensures fault { IsOkUnless result TablePlace }
    ensures place { let fault = blocks_fault header.now reftable.now.numbers in
        MatchResult result (λ done. fault ≡ None) (λ refusal. fault ≡ Some refusal) }
{
    for index in 0..reftable.entries() {
        check_place(header, reftable, index)?;
    }
    Ok(())
}

// Reads the refcount block at a cluster into the cached one, or loads it if none is cached. After a fault the
// cached block may be none of the image's.
fn read_block<S: Storage>(
    kept: &mut Option<RefBlock>,
    image: &mut S,
    header: &Header,
    alloc: Global,
    cluster: HostCluster,
) -> Result<(), Fault>
    requires geometry { IfSome kept.old (λ block. block.geometry ≡ block_geometry_of header.now) }
    requires place { place_fault (block_layout (block_geometry_of header.now)) cluster ≡ None }
    ensures kept { OnOk result (IsSomeAnd kept.new (λ block. (block.cluster ≡ Some cluster)
        × (block.geometry ≡ block_geometry_of header.now))) }
    ensures reads { Reads (λ done. numbers_of_kept kept.new) result
        (λ bytes. Ok (numbers_at (block_layout (block_geometry_of header.now)) cluster bytes))
        (λ _. ⊥) (S.state image.old) (S.state image.new) }
{
    match kept {
        Some(block) => block.reload(image, header, cluster),
        None => {
            *kept = Some(RefBlock::load(alloc, image, header, cluster)?);
            Ok(())
        }
    }
}

// Caches the refcount block at a cluster, and reads it with `read_block` unless it is the cached one. After a
// fault no block is cached.
fn keep_block<S: Storage>(
    kept: &mut Option<RefBlock>,
    image: &mut S,
    header: &Header,
    alloc: Global,
    cluster: HostCluster,
) -> Result<(), Fault>
    requires kept { OnImage (S.state image.old) (λ bytes. IsKeptBlockOf header.now bytes kept.old) }
    requires geometry { IfSome kept.old (λ block. block.geometry ≡ block_geometry_of header.now) }
    requires place { place_fault (block_layout (block_geometry_of header.now)) cluster ≡ None }
    ensures kept { MatchResult result
        (λ done. IsSomeAnd kept.new (λ block. (block.cluster ≡ Some cluster)
        × (block.geometry ≡ block_geometry_of header.now)))
        (λ fault. kept.new ≡ None) }
    ensures reads { Reads (λ done. numbers_of_kept kept.new) result
        (λ bytes. Ok (numbers_at (block_layout (block_geometry_of header.now)) cluster bytes))
        (λ _. ⊥) (S.state image.old) (S.state image.new) }
{
    let is_kept = match kept {
        Some(block) => block.get_cluster() == Some(cluster),
        None => false,
    };
    if is_kept {
        return Ok(());
    }
    match read_block(kept, image, header, alloc, cluster) {
        Ok(()) => Ok(()),
        Err(fault) => {
            *kept = None;
            Err(fault)
        }
    }
}

/// Whether 64 refcounts of a block from an index on are 0. Tests each, so that the compiler can compare
/// several at once.
pub(crate) fn are_zero(block: &RefBlock, first: usize) -> bool
    requires { first + 64 ≤ length block.now.numbers }
    ensures { IsTrue result → (k : ℕ) → k < 64 → slice_index block.now.numbers (first + k) ≡ 0 }
{
    prove!(first < block.entries());
    let mut zero = true;
    for k in 0..TOGETHER {
        zero &= block.is_zero(first + k);
    }
    zero
}

/// Returns a number of refcounts of a block from an index on, at most `count`, that are 0. Tests whole groups
/// of 64, so more may be 0.
pub fn zero_groups(block: &RefBlock, first: usize, count: usize) -> usize
    requires { first + count ≤ length block.now.numbers }
    ensures within { result ≤ count }
    ensures zero { (k : ℕ) → k < result → slice_index block.now.numbers (first + k) ≡ 0 }
{
    prove!(count <= block.entries());
    for group in 0..count / TOGETHER {
        if !are_zero(block, first + TOGETHER * group) {
            return TOGETHER * group;
        }
    }
    count / TOGETHER * TOGETHER
}

// The same, and then up to one more group, one by one. More may be 0.
fn zero_counters(block: &RefBlock, first: usize, count: usize) -> usize
    requires { first + count ≤ length block.now.numbers }
    ensures within { result ≤ count }
    ensures zero { (k : ℕ) → k < result → slice_index block.now.numbers (first + k) ≡ 0 }
{
    prove!(count <= block.entries());
    let groups = zero_groups(block, first, count);
    let end = count.min(groups + TOGETHER);
    for k in groups..end {
        if !block.is_zero(first + k) {
            return k;
        }
    }
    end
}

// Returns a number of refcounts just before an index of a block that are 0. Tests whole groups, so more may
// be 0.
fn zeros_before(block: &RefBlock, end: usize) -> usize
    requires { end ≤ length block.now.numbers }
    ensures within { result ≤ end }
    ensures zero { (k : ℕ) → end ≤ k + result → k < end → slice_index block.now.numbers k ≡ 0 }
{
    for group in 0..end / TOGETHER {
        if !are_zero(block, end - TOGETHER * (group + 1)) {
            return TOGETHER * group;
        }
    }
    end / TOGETHER * TOGETHER
}

/// Returns the first cluster after all those that the named refcount blocks count, or 0 if the refcount table
/// names no block.
#[tactic(auto, using(crate::proofs::CountersLemmas::ends_of_blocks))]
pub fn counted_end(header: &Header, reftable: &RefTable) -> u64
    requires { reftable.now.geometry ≡ geometry_of header.now }
    ensures { IsCountedEnd header.now reftable.now.numbers result }
{
    let blocks = MAX_FILE_LENGTH >> header.rb_bits();
    let mut end = 0;
    for index in 0..reftable.entries().min(blocks as usize) {
        if named_block(reftable, index).is_some() {
            end = (index as u64 + 1) << header.rb_bits();
        }
    }
    end
}

impl<'a> Counters<'a> {
    ghost use Rattle.std.specs.Prelude.{◌≡◌, ℕ, ◌+◌, ◌-◌, ◌/◌, ◌%◌, ◌<◌, ◌≤◌, false, true, None, Some, IfOk, IfSome, IsSomeAnd, IsTrue, is_some, length, slice_index};
    ghost use Rattle.qcow2_base.specs.Format.{max_file_length, most_reftable_entries};
    ghost use Rattle.qcow2_base.specs.Storage.{Image};
    ghost use Rattle.qcow2_check.specs.Counters.{AreFree, IsCountedEnd, ReportNone, block_of_cluster, blocks_fault, counter_of, counters_each, is_counted_again, placed_reftable, unused_counter};

    /// Reads the refcount table of an image with this header. Returns the table's fault if it is refused,
    /// else 21 if a block that it names would end past 2^56. Changes no byte.
    pub fn new<S: Storage>(
        alloc: Global,
        image: &mut S,
        header: &'a Header,
    ) -> Result<Counters<'a>, Fault>
        ensures refused { RefusesPlace (reftable_layout header.now) (reftable_cluster header.now) result }
        ensures reads { Reads (λ counters. counters.reftable) result (placed_reftable header.now)
            (IsReftableFault header.now) (S.state image.old) (S.state image.new) }
        ensures begun { IfOk result (λ counters. counters ≡ record {
          header = header.now;
          reftable = counters.reftable;
          block = None;
        }) }
    {
        let reftable = load_reftable(alloc, image, header)?;
        check_places(header, &reftable)?;
        let repeats = Repeats::new(alloc, &reftable)?;
        Ok(Counters {
            header,
            reftable,
            repeats,
            block: None,
            kept_index: 0,
            alone: 0,
        })
    }

    // The cluster of the refcount block that counts a cluster, if the refcount table names one.
    #[inline]
    #[tactic(auto, using(crate::proofs::CountersLemmas::place_of_block))]
    fn block_of(&self, cluster: HostCluster) -> Option<HostCluster>
        ensures block { result ≡ block_of_cluster self.now.header self.now.reftable cluster.0 }
        ensures place { IfSome result (λ block.
            place_fault (block_layout (block_geometry_of self.now.header)) block ≡ None) }
    {
        named_block(&self.reftable, cluster.rt_index(self.header.rb_bits()))
    }

    /// The cached block, if it counts this cluster.
    #[inline]
    pub(crate) fn kept_for(&self, cluster: HostCluster) -> Option<&RefBlock>
        ensures kept { IfSome result (λ block. self.now.block ≡ Some block.now) }
        ensures place { IfSome result (λ block. IsSomeAnd block.now.cluster (λ place.
            block_of_cluster self.now.header self.now.reftable cluster.0 ≡ Some place)) }
        ensures geometry { IfSome result (λ block.
            block.now.geometry ≡ block_geometry_of self.now.header) }
    {
        let block = self.block.as_ref()?;
        (cluster.rt_index(self.header.rb_bits()) == self.kept_index).then_some(block)
    }

    // The refcount of a cluster, if its block is cached.
    #[inline]
    #[tactic(auto, using(crate::proofs::CountersLemmas::kept_counter))]
    fn cached(&self, cluster: HostCluster) -> Option<u64>
        ensures { IfSome result (λ counter. (image : Image) →
            IsKeptBlockOf self.now.header image self.now.block →
            counter_of self.now.header self.now.reftable image cluster.0 ≡ counter) }
    {
        let block = self.kept_for(cluster)?;
        let index = cluster.rb_index(self.header.rb_bits());
        prove!(index < block.entries());
        Some(block.get(index))
    }

    /// Whether the refcount table names a block for a cluster.
    pub fn has_block(&self, cluster: HostCluster) -> bool
        ensures { result ≡ is_some (block_of_cluster self.now.header self.now.reftable cluster.0) }
    {
        self.block_of(cluster).is_some()
    }

    /// For a cluster without a refcount block, returns a bound before which all clusters after it have none
    /// either: the end of the range that its block would count, or `u64::MAX` if the refcount table ends
    /// before it.
    #[tactic(auto, using(crate::proofs::CountersLemmas::same_block, crate::proofs::CountersLemmas::ends))]
    pub fn block_end(&self, cluster: HostCluster) -> u64
        requires fits { cluster.0 < max_file_length }
        requires none { block_of_cluster self.now.header self.now.reftable cluster.0 ≡ None }
        ensures after { cluster.0 < result }
        ensures whole { let each = counters_each self.now.header in
            cluster.0 - cluster.0 % each + each ≤ result }
        ensures none { (c : ℕ) → cluster.0 ≤ c → c < result →
            block_of_cluster self.now.header self.now.reftable c ≡ None }
    {
        if cluster.rt_index(self.header.rb_bits()) >= self.reftable.entries() {
            return u64::MAX;
        }
        self.range_end(cluster)
    }

    // The end of the clusters that the refcount table entry of this cluster is for.
    fn range_end(&self, cluster: HostCluster) -> u64
        requires { cluster.0 < max_file_length }
        ensures { let each = counters_each self.now.header in
            result ≡ cluster.0 - cluster.0 % each + each }
    {
        self.block_start(cluster) + self.header.rb_entries() as u64
    }

    /// Whether refcounts of unused clusters in the block of this cluster are reported as 0: an entry of the
    /// refcount table before the cluster's names the same block, and they are reported there.
    #[inline]
    #[tactic(auto, using(crate::proofs::CountersLemmas::reported, crate::proofs::CountersLemmas::some_again))]
    pub fn is_counted_again(&self, cluster: HostCluster) -> bool
        ensures again { result ≡ true →
            is_counted_again self.now.header self.now.reftable cluster.0 ≡ true }
        ensures counter { result ≡ false → (image : Image) →
            unused_counter self.now.header self.now.reftable image cluster.0
            ≡ counter_of self.now.header self.now.reftable image cluster.0 }
    {
        let index = cluster.rt_index(self.header.rb_bits());
        self.repeats.times(index) == 0 && self.has_block(cluster)
    }

    // The number of clusters from one on, at most `count`, whose refcounts are 0 by the cached block. Returns
    // 0 unless that block counts the first of them, and goes no further than it.
    fn cached_zeros(&self, from: HostCluster, count: u64) -> u64
        ensures within { result ≤ count }
        ensures zero { (image : Image) → IsKeptBlockOf self.now.header image self.now.block →
            AreFree self.now image from.0 (from.0 + result) }
    {
        let Some(block) = self.kept_for(from) else {
            return 0;
        };
        let index = from.rb_index(self.header.rb_bits());
        prove!(index < block.entries());
        let left = (block.entries() - index) as u64;
        zero_counters(block, index, count.min(left) as usize) as u64
    }

    // `free_end` as far as one entry of the refcount table shows it: the end of its range if it names no
    // block, or one that is counted again, or else `from`.
    #[tactic(auto, using(crate::proofs::CountersLemmas::no_block))]
    fn unreported_end(&self, from: HostCluster, limit: u64) -> u64
        requires some { from.0 ≤ limit }
        requires fits { from.0 < max_file_length }
        ensures from { from.0 ≤ result }
        ensures within { result ≤ limit }
        ensures none { (image : Image) → ReportNone self.now image from.0 result }
    {
        if !self.has_block(from) {
            return self.block_end(from).min(limit);
        }
        if self.is_counted_again(from) {
            return self.range_end(from).min(limit);
        }
        from.0
    }

    // `free_end` as far as the refcount table shows it, `RANGES` entries at most.
    #[tactic(auto, using(crate::proofs::CountersLemmas::reports_join))]
    fn reported_start(&self, from: HostCluster, limit: u64) -> u64
        requires some { from.0 ≤ limit }
        requires fits { from.0 < max_file_length }
        ensures from { from.0 ≤ result }
        ensures within { result ≤ limit }
        ensures none { (image : Image) → ReportNone self.now image from.0 result }
    {
        let mut passed = from.0;
        let mut start = self.unreported_end(from, limit);
        let mut left = RANGES;
        while passed < start && start < MAX_FILE_LENGTH && left > 0 {
            left -= 1;
            passed = start;
            start = self.unreported_end(HostCluster(passed), limit);
        }
        start
    }

    /// A cluster before which, from `from` on, refcounts of unused clusters are reported as 0, as far as the
    /// refcount table and the cached block show it. At most `limit`. Its own may be reported as 0 too.
    #[tactic(auto, using(crate::proofs::CountersLemmas::joined_reports))]
    pub fn free_end(&self, from: HostCluster, limit: u64) -> u64
        requires some { from.0 ≤ limit }
        requires fits { from.0 < max_file_length }
        ensures from { from.0 ≤ result }
        ensures within { result ≤ limit }
        ensures free { (image : Image) → IsKeptBlockOf self.now.header image self.now.block →
            ReportNone self.now image from.0 result }
    {
        let start = self.reported_start(from, limit);
        start + self.cached_zeros(HostCluster(start), limit - start)
    }

    /// A cluster from which on, to before `end`, all refcounts are 0, as far as the cached block shows it.
    /// The refcount of the cluster before it may be 0 too. Returns `end` unless that block counts it.
    pub fn free_start(&self, end: HostCluster) -> u64
        ensures within { result ≤ end.0 }
        ensures free { (image : Image) → IsKeptBlockOf self.now.header image self.now.block →
            AreFree self.now image result end.0 }
    {
        let Some(block) = self.kept_for(end) else {
            return end.0;
        };
        let index = end.rb_index(self.header.rb_bits());
        prove!(index < block.entries());
        end.0 - zeros_before(block, index) as u64
    }

    /// The first cluster that the block of this cluster counts, or would count if there were one.
    #[tactic(auto, using(crate::proofs::CountersLemmas::block_before))]
    pub fn block_start(&self, cluster: HostCluster) -> u64
        ensures start { result + cluster.0 % counters_each self.now.header ≡ cluster.0 }
        ensures before { result ≤ cluster.0 }
        ensures same { (c : ℕ) → result ≤ c → c ≤ cluster.0 →
            block_of_cluster self.now.header self.now.reftable c
            ≡ block_of_cluster self.now.header self.now.reftable cluster.0 }
    {
        cluster.0 - cluster.rb_index(self.header.rb_bits()) as u64
    }

    /// The header of the image.
    #[inline]
    pub fn header(&self) -> &'a Header
        ensures { result.now ≡ self.now.header }
    {
        self.header
    }

    /// The first cluster after all those that refcount blocks count, or 0 without any block.
    pub fn counted(&self) -> u64
        ensures { IsCountedEnd self.now.header self.now.reftable result }
    {
        counted_end(self.header, &self.reftable)
    }

    /// The refcount table.
    #[inline]
    pub fn reftable(&self) -> &RefTable
        ensures numbers { result.now.numbers ≡ self.now.reftable }
        ensures geometry { result.now.geometry ≡ geometry_of self.now.header }
        ensures entries { length self.now.reftable ≤ most_reftable_entries }
        ensures placed { blocks_fault self.now.header self.now.reftable ≡ None }
    {
        &self.reftable
    }

    /// How many bytes of memory it keeps beside the refcount table and the cached block.
    pub fn bytes(&self) -> usize {
        self.repeats.bytes()
    }

    /// The refcount table. Frees the memory of the cached block.
    pub fn into_reftable(self) -> RefTable
        ensures numbers { result.numbers ≡ self.entry.reftable }
        ensures geometry { result.geometry ≡ geometry_of self.entry.header }
        ensures entries { length self.entry.reftable ≤ most_reftable_entries }
        ensures placed { blocks_fault self.entry.header self.entry.reftable ≡ None }
    {
        self.reftable
    }

    /// Returns the refcount of a cluster: 0 if the refcount table names no block for it or ends before it.
    /// For clusters in any order: unless the block is cached, it reads this refcount alone, and caches a
    /// block only after many such reads.
    ///
    /// Fails if the storage fails or memory runs out, and can be called again then. The image must be the one
    /// that the reader was made for, unchanged since. Changes no byte.
    #[inline]
    pub fn get<S: Storage>(&mut self, image: &mut S, cluster: HostCluster) -> Result<u64, Fault>
        requires { OnImage (S.state image.old) (λ bytes. IsKeptBlockOf self.old.header bytes self.old.block) }
        ensures reads { Reads (λ counter. counter) result
            (λ bytes. Ok (counter_of self.old.header self.old.reftable bytes cluster.0))
            (λ _. ⊥) (S.state image.old) (S.state image.new) }
        ensures reader { IsSameButBlock (S.state image.old) self.old self.new }
    {
        match self.cached(cluster) {
            Some(counter) => Ok(counter),
            None => self.get_uncached(image, cluster),
        }
    }

    /// Returns the refcount of a cluster as `get` does, for clusters in ascending order: caches the block of
    /// each.
    #[inline]
    pub fn get_in_order<S: Storage>(
        &mut self,
        image: &mut S,
        cluster: HostCluster,
    ) -> Result<u64, Fault>
        requires { OnImage (S.state image.old) (λ bytes. IsKeptBlockOf self.old.header bytes self.old.block) }
        ensures reads { Reads (λ counter. counter) result
            (λ bytes. Ok (counter_of self.old.header self.old.reftable bytes cluster.0))
            (λ _. ⊥) (S.state image.old) (S.state image.new) }
        ensures reader { IsSameButBlock (S.state image.old) self.old self.new }
    {
        match self.cached(cluster) {
            Some(counter) => Ok(counter),
            None => self.load(image, cluster),
        }
    }

    /// Returns the refcount of an unused cluster as it is reported, for clusters in ascending order: 0 if an
    /// entry of the refcount table before the cluster's names the same block, or else as `get_in_order`.
    #[inline]
    pub fn get_unused<S: Storage>(
        &mut self,
        image: &mut S,
        cluster: HostCluster,
    ) -> Result<u64, Fault>
        requires { OnImage (S.state image.old) (λ bytes. IsKeptBlockOf self.old.header bytes self.old.block) }
        ensures reads { Reads (λ counter. counter) result
            (λ bytes. Ok (unused_counter self.old.header self.old.reftable bytes cluster.0))
            (λ _. ⊥) (S.state image.old) (S.state image.new) }
        ensures reader { IsSameButBlock (S.state image.old) self.old self.new }
    {
        if self.is_counted_again(cluster) {
            return Ok(0);
        }
        self.get_in_order(image, cluster)
    }

    // `get` for a cluster whose block isn't cached.
    fn get_uncached<S: Storage>(
        &mut self,
        image: &mut S,
        cluster: HostCluster,
    ) -> Result<u64, Fault>
        requires { OnImage (S.state image.old) (λ bytes. IsKeptBlockOf self.old.header bytes self.old.block) }
        ensures reads { Reads (λ counter. counter) result
            (λ bytes. Ok (counter_of self.old.header self.old.reftable bytes cluster.0))
            (λ _. ⊥) (S.state image.old) (S.state image.new) }
        ensures reader { IsSameButBlock (S.state image.old) self.old self.new }
    {
        let Some(place) = self.block_of(cluster) else {
            return Ok(0);
        };
        if self.alone >= self.header.cluster_size() / BYTES_EACH {
            return self.load(image, cluster);
        }
        self.alone += 1;
        let index = cluster.rb_index(self.header.rb_bits());
        RefBlock::load_counter(image, self.header, place, index)
    }

    // Returns the refcount of a cluster whose block isn't cached, and caches the block.
    fn load<S: Storage>(&mut self, image: &mut S, cluster: HostCluster) -> Result<u64, Fault>
        requires { OnImage (S.state image.old) (λ bytes. IsKeptBlockOf self.old.header bytes self.old.block) }
        ensures reads { Reads (λ counter. counter) result
            (λ bytes. Ok (counter_of self.old.header self.old.reftable bytes cluster.0))
            (λ _. ⊥) (S.state image.old) (S.state image.new) }
        ensures reader { IsSameButBlock (S.state image.old) self.old self.new }
    {
        let Some(place) = self.block_of(cluster) else {
            return Ok(0);
        };
        let alloc = self.reftable.allocator();
        keep_block(&mut self.block, image, self.header, alloc, place)?;
        let (table_index, index) = cluster.rt_rb_indices(self.header.rb_bits());
        self.kept_index = table_index;
        self.alone = 0;
        let block = self.block.as_ref().unwrap();
        prove!(index < block.entries());
        Ok(block.get(index))
    }
}
