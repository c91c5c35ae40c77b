//! Marks of the clusters whose refcount is 1, so that copied flags can be tested in any order of clusters.

ghost use Rattle.std.specs.Prelude.{◌≡◌, ℕ, ◌+◌, ◌^◌, ◌<◌, ◌≤◌, IsTrue, length, slice_index};
ghost use Rattle.qcow2_check.specs.Soles.{MarksOnes};

use crate::counters::{Counters, are_zero};
use qcow2_base::{Fault, HostCluster, Storage};
use qcow2_metadata::{RefBlock, Table};
use std::alloc::Global;
use std::marker::Model;

// The number of clusters that a word marks. The number of refcounts in a block is a multiple of it.
const EACH: usize = 64;

// The most clusters that are marked: those of 4 TiB in clusters of 64 KiB, whose marks take 8 MiB.
const MOST_MARKS: u64 = 1 << 26;

/// The most bytes that the marks of an image's clusters take, given how many its refcount blocks count.
pub(crate) fn most_mark_bytes(counted: u64) -> usize
    ensures { result ≤ 2 ^ 23 }
{
    (counted.min(MOST_MARKS).div_ceil(EACH as u64) * 8) as usize
}

/// Marks of an image's first clusters, a bit for each: 1 if its refcount is known to be 1. Contracts see the
/// words that hold them.
#[derive(Drop)]
pub(crate) struct Soles {
    words: Vec<u64>,
}

impl Model for Soles {
    ghost use Rattle.std.specs.Prelude.{List, ℕ};

    ghost Value = { List ℕ };

    ghost view = { λ s. s.words.items };
}

// Whether the `EACH` refcounts of a block from an index on are all 1. Tests each, so that the compiler can
// compare several at once.
fn are_one(block: &RefBlock, first: usize) -> bool
    requires { first + 64 ≤ length block.now.numbers }
    ensures { IsTrue result → (k : ℕ) → k < 64 → slice_index block.now.numbers (first + k) ≡ 1 }
{
    prove!(first < block.entries());
    let mut are_one = true;
    for k in 0..EACH {
        are_one &= block.get(first + k) == 1;
    }
    are_one
}

// The word that marks the clusters of the `EACH` refcounts of a block from an index on.
fn ones(block: &RefBlock, first: usize) -> u64
    requires { first + 64 ≤ length block.now.numbers }
    ensures { MarksOnes result (λ k. slice_index block.now.numbers (first + k)) }
{
    if are_one(block, first) {
        return u64::MAX;
    }
    if are_zero(block, first) {
        return 0;
    }
    prove!(first < block.entries());
    let mut word = 0;
    for k in 0..EACH {
        if block.get(first + k) == 1 {
            word |= 1 << k;
        }
    }
    word
}

impl Soles {
    ghost use Rattle.std.specs.Prelude.{◌≡◌, ℕ, [], ◌+◌, ◌*◌, ◌/◌, ◌%◌, ◌^◌, ◌<◌, ◌≤◌, IfErr, IfOk, IsTrue, length, slice_index};
    ghost use Rattle.qcow2_base.specs.Storage.{OnImage, OnlyReads};
    ghost use Rattle.qcow2_metadata.specs.Results.{IsFromOutside};
    ghost use Rattle.qcow2_check.specs.Counters.{IsKeptBlockOf, IsSameButBlock, counter_of, counters_each};
    ghost use Rattle.qcow2_check.specs.Soles.{AreSoles, IsMarked};

    /// No marks. Takes no memory.
    pub(crate) fn none(alloc: Global) -> Soles
        ensures { result ≡ [] }
    {
        Soles {
            words: Vec::new(alloc),
        }
    }

    /// Marks the first clusters of an image, as many as may be marked, by its refcounts.
    ///
    /// Fails if the storage fails or memory runs out. Changes no byte.
    pub(crate) fn load<S: Storage>(
        alloc: Global,
        image: &mut S,
        counters: &mut Counters<'_>,
    ) -> Result<Soles, Fault>
        requires reader { OnImage (S.state image.old) (λ bytes.
            IsKeptBlockOf counters.old.header bytes counters.old.block) }
        ensures soles { IfOk result (λ soles. OnImage (S.state image.old) (λ bytes.
            AreSoles (counter_of counters.old.header counters.old.reftable bytes) soles)) }
        ensures reader { IsSameButBlock (S.state image.old) counters.old counters.new }
        ensures fault { IfErr result IsFromOutside }
        ensures storage { OnlyReads result (S.state image.old) (S.state image.new) }
    {
        let end = counters.counted().min(MOST_MARKS);
        let mut soles = Soles {
            words: vec![in alloc; 0; end.div_ceil(EACH as u64) as usize]?,
        };
        let each = counters.header().rb_entries() as u64;
        let mut first = 0;
        while first < end {
            soles.mark_block(image, counters, HostCluster(first))?;
            first = first.saturating_add(each);
        }
        Ok(soles)
    }

    // Marks the clusters that the refcount block of this cluster counts, if it has one that no entry before
    // names. It must be the first of them.
    fn mark_block<S: Storage>(
        &mut self,
        image: &mut S,
        counters: &mut Counters<'_>,
        first: HostCluster,
    ) -> Result<(), Fault>
        requires word { first.0 / 64 < length self.old }
        requires first { first.0 % counters_each counters.old.header ≡ 0 }
        requires reader { OnImage (S.state image.old) (λ bytes.
            IsKeptBlockOf counters.old.header bytes counters.old.block) }
        ensures soles { OnImage (S.state image.old) (λ bytes.
            let counter = counter_of counters.old.header counters.old.reftable bytes in
            AreSoles counter self.old → AreSoles counter self.new) }
        ensures len { length self.new ≡ length self.old }
        ensures reader { IsSameButBlock (S.state image.old) counters.old counters.new }
        ensures fault { IfErr result IsFromOutside }
        ensures storage { OnlyReads result (S.state image.old) (S.state image.new) }
    {
        if counters.is_counted_again(first) {
            return Ok(());
        }
        counters.get_in_order(image, first)?;
        if let Some(block) = counters.kept_for(first) {
            prove!(counters.header().rb_entries() >= EACH);
            prove!(block.entries() > 0);
            self.mark((first.0 / EACH as u64) as usize, block);
        }
        Ok(())
    }

    // Marks the clusters from the first one of a word on, by the refcounts of their block.
    fn mark(&mut self, first_word: usize, block: &RefBlock)
        requires { first_word < length self.old }
        ensures soles { (counter : ℕ → ℕ) → ((k : ℕ) → k < length block.now.numbers →
            counter (64 * first_word + k) ≡ slice_index block.now.numbers k) →
            AreSoles counter self.old → AreSoles counter self.new }
        ensures len { length self.new ≡ length self.old }
    {
        let count = (block.entries() / EACH).min(self.words.len() - first_word);
        for k in 0..count {
            self.words[first_word + k] = ones(block, EACH * k);
        }
    }

    // The word at an index, or 0 past the last.
    #[inline(always)]
    fn word(&self, index: u64) -> u64
        ensures { result ≡ slice_index self.now index }
    {
        self.words.get(index as usize).copied().unwrap_or(0)
    }

    /// Whether a cluster is marked.
    #[inline(always)]
    pub(crate) fn has(&self, cluster: HostCluster) -> bool
        ensures { IsTrue result → IsMarked self.now cluster.0 }
    {
        self.word(cluster.0 / EACH as u64) >> (cluster.0 % EACH as u64) & 1 == 1
    }

    /// Whether all clusters are marked of the words that have the marks of 16 clusters from `first` on.
    #[inline(always)]
    #[tactic(auto, using(crate::proofs::SolesLemmas::whole_words))]
    pub(crate) fn has_whole(&self, first: HostCluster) -> bool
        requires { first.0 + 16 < 2 ^ 64 }
        ensures { IsTrue result → (k : ℕ) → k < 16 → IsMarked self.now (first.0 + k) }
    {
        self.word(first.0 / EACH as u64) == u64::MAX
            && self.word((first.0 + 15) / EACH as u64) == u64::MAX
    }
}
