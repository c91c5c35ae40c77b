//! References to clusters, counted in bounded memory.

ghost use Rattle.std.specs.Prelude.{◌≡◌, ℕ, ◌+◌, ◌-◌, ◌/◌, ◌^◌, ◌<◌, ◌≤◌, [], ◌∷◌, IfOk, IfSome, IsOkUnless, IsTrue, None, OnOk, false, length, replicate, slice_index};
ghost use Rattle.qcow2_base.specs.Format.{max_file_length};
ghost use Rattle.qcow2_base.specs.declared.fault.Fault.TheVariants.{NoMemory};
ghost use Rattle.qcow2_check.specs.Tally.{CountsMore, CountsTimes, IsPlain, cell_at, is_shared_cell, mark_of, used_clusters, with_use, with_uses};
ghost use Rattle.qcow2_check.specs.declared.tally.TallyKind.TheVariants.{Guest};

mod cells;

use cells::Cells;
use qcow2_base::{Fault, MAX_FILE_LENGTH};
use std::alloc::Global;
use std::collections::BTreeMap;
use std::marker::Model;

/// What refers to a cluster.
#[derive(Clone, Copy, Debug, PartialEq, Eq)]
pub enum TallyKind {
    /// The header, the L1 table, the refcount table, or an entry of the refcount table.
    Fixed,
    /// An entry of the L1 table.
    L2Table,
    /// An entry of an L2 table.
    Guest,
}

impl TallyKind {
    // The number that marks the kind in a cell.
    #[inline]
    fn mark(self) -> u64
        ensures { result ≡ mark_of self }
    {
        match self {
            TallyKind::Fixed => 1,
            TallyKind::L2Table => 2,
            TallyKind::Guest => 4,
        }
    }
}

// The cell with `times` more references, if the count fits.
#[tactic(auto, using(crate::proofs::TallyLemmas::uses_added))]
fn with_uses(cell: u64, kind: TallyKind, times: u32) -> Option<u64>
    ensures { IfSome result (λ more. more ≡ with_uses kind times cell) }
{
    if times == 0 {
        return Some(cell);
    }
    let mark = kind.mark();
    let new = if cell / mark % 2 == 1 { 0 } else { mark };
    cell.checked_add(8 * u64::from(times) + new)
}

// The cell with one more reference if `is_used`, else unchanged. `None` if the count doesn't fit. Has no
// branch.
#[inline(always)]
fn with_use_if(cell: u64, kind: TallyKind, is_used: bool) -> Option<u64>
    ensures used { IfSome result (λ more. IsTrue is_used → more ≡ with_use kind cell) }
    ensures unused { IfSome result (λ more. is_used ≡ false → more ≡ cell) }
{
    let mark = kind.mark();
    let more = if cell / mark % 2 == 1 { 8 } else { 8 + mark };
    cell.checked_add(if is_used { more } else { 0 })
}

/// The number of references to each cluster in a part of an image. Contracts see cells, which count the
/// references of a cluster and mark their kinds.
#[derive(Drop)]
pub struct Tally {
    first: u64,
    end: u64,
    dense: Cells,
    sparse: BTreeMap<u64, u64>,
    most: usize,
}

impl Model for Tally {
    ghost use Rattle.qcow2_check.specs.Tally.{IsTally, TallyState};
    ghost use Rattle.qcow2_check.specs.Tally.Cells.{kept_cells};

    ghost Value = { TallyState };

    ghost view = { λ t. record {
      first = t.first;
      end = t.end;
      dense = kept_cells t.dense;
      sparse = t.sparse.entries;
      most = t.most;
    } };

    ghost invariant = { λ t. IsTally (record {
      first = t.first;
      end = t.end;
      dense = kept_cells t.dense;
      sparse = t.sparse.entries;
      most = t.most;
    }) };
}

impl Tally {
    ghost use Rattle.std.specs.Prelude.{◌≡◌, ◌↔◌, ◌+◌, ◌-◌, ◌^◌, ◌<◌, ◌≤◌, [], ◌∷◌, IsTrue, length, replicate};
    ghost use Rattle.qcow2_check.specs.Tally.{IsTally, cell_at, dense_end};

    /// A tally from a cluster on, in which no cluster has a reference. The next `dense` clusters have
    /// consecutive cells, of 64 bits if `is_wide`, else of 32, and up to `most` clusters after them have
    /// cells in a map. Fails only if memory runs out.
    pub(crate) fn new(
        alloc: Global,
        first: u64,
        dense: usize,
        most: usize,
        is_wide: bool,
    ) -> Result<Tally, Fault>
        requires some { 0 < dense }
        requires fits { first + dense ≤ max_file_length }
        ensures fault { IsOkUnless result NoMemory }
        ensures begun { IfOk result (λ tally. (tally.first ≡ first) × (tally.end ≡ max_file_length)
            × (tally.dense ≡ replicate dense 0) × ((c : ℕ) → cell_at tally c ≡ 0)) }
    {
        Ok(Tally {
            first,
            end: MAX_FILE_LENGTH,
            dense: Cells::zeros(alloc, dense, is_wide)?,
            sparse: BTreeMap::new(alloc),
            most,
        })
    }

    /// The first cluster that it counts.
    #[inline]
    pub fn first(&self) -> u64
        ensures { result ≡ self.now.first }
    {
        self.first
    }

    /// The first cluster after those that it counts.
    #[inline]
    pub fn end(&self) -> u64
        ensures value { result ≡ self.now.end }
        ensures some { self.now.first < result }
        ensures fits { result ≤ max_file_length }
    {
        self.end
    }

    /// The number of clusters with a reference. May include some at or after `end`.
    pub(crate) fn used(&self) -> usize {
        self.dense.used().saturating_add(self.sparse.len())
    }

    /// Whether a cluster has one of the consecutive cells. Those of all later ones are in the map.
    #[inline]
    pub fn is_dense(&self, cluster: u64) -> bool
        requires { self.now.first ≤ cluster }
        ensures { IsTrue result ↔ (cluster < dense_end self.now) }
    {
        cluster - self.first < self.dense.len() as u64
    }

    /// The cell of a cluster.
    #[inline]
    pub fn cell(&self, cluster: u64) -> u64
        requires { self.now.first ≤ cluster }
        ensures { result ≡ cell_at self.now cluster }
    {
        let index = (cluster - self.first) as usize;
        if index < self.dense.len() {
            return self.dense.get(index);
        }
        self.sparse.get(&cluster).copied().unwrap_or(0)
    }

    /// The cell of a cluster that has one of the consecutive cells.
    #[inline(always)]
    pub fn dense_cell(&self, cluster: u64) -> u64
        requires first { self.now.first ≤ cluster }
        requires dense { cluster < dense_end self.now }
        ensures { result ≡ cell_at self.now cluster }
    {
        self.dense.get((cluster - self.first) as usize)
    }

    /// Whether the clusters from `first` on are known to be right, with these refcounts and with guest data
    /// as their only references. Returns false if one of them has no dense cell.
    #[inline]
    #[tactic(auto, using(crate::proofs::TallyLemmas::plain_dense))]
    pub fn are_plain(&self, first: u64, counters: &[u64]) -> bool
        requires { self.now.first ≤ first }
        ensures { IsTrue result → (k : ℕ) → k < length counters.now →
            IsPlain (cell_at self.now (first + k)) (slice_index counters.now k) }
    {
        let index = (first - self.first) as usize;
        let len = self.dense.len();
        if index > len || counters.len() > len - index {
            return false;
        }
        self.dense.are_plain(index, counters)
    }

    /// The first cluster from `from` on that has a reference, or `limit` if none before it has.
    pub fn next_used(&self, from: u64, limit: u64) -> u64
        requires from { self.now.first ≤ from }
        requires some { from ≤ limit }
        ensures from { from ≤ result }
        ensures within { result ≤ limit }
        ensures none { (c : ℕ) → from ≤ c → c < result → cell_at self.now c ≡ 0 }
    {
        let dense_end = self.first + self.dense.len() as u64;
        for cluster in from..limit.min(dense_end) {
            if self.dense.get((cluster - self.first) as usize) != 0 {
                return cluster;
            }
        }
        match self.sparse.range(from.max(dense_end)..).next() {
            Some((cluster, _)) => (*cluster).min(limit),
            None => limit,
        }
    }

    /// Counts a reference to a cluster as `add` does if `is_used`. Returns false and changes nothing if the
    /// cluster is in the tally but has no dense cell, or if its count doesn't fit. Doesn't branch on
    /// `is_used`.
    #[inline(always)]
    pub(crate) fn try_add_if(&mut self, cluster: u64, kind: TallyKind, is_used: bool) -> bool
        ensures counted { IsTrue result → IsTrue is_used → CountsMore
            (used_clusters kind (record { 0 = cluster }) 1 ∷ []) self.old self.new }
        ensures unused { is_used ≡ false → self.new ≡ self.old }
        ensures same { result ≡ false → self.new ≡ self.old }
        ensures within { result ≡ false → (self.old.first ≤ cluster) × (cluster < self.old.end) }
    {
        let index = cluster.wrapping_sub(self.first) as usize;
        self.dense.add_if(index, kind, is_used)
            || !is_used
            || cluster < self.first
            || cluster >= self.end
    }

    /// Counts a reference by guest data to each of `TOGETHER` clusters from `first` on. Returns false and
    /// changes nothing if one of them has no narrow dense cell, or its count may not fit.
    #[inline]
    pub(crate) fn add_group(&mut self, first: u64) -> bool
        ensures counted { IsTrue result → CountsMore
            (used_clusters Guest (record { 0 = first }) 16 ∷ []) self.old self.new }
        ensures same { result ≡ false → self.new ≡ self.old }
    {
        first >= self.first && self.dense.add_group((first - self.first) as usize)
    }

    /// Counts `times` references to a cluster, unless the cluster lies outside the tally. If the map then has
    /// too many cells, the tally drops the last of them and ends before its cluster. Fails if memory runs out
    /// or the count doesn't fit (fault 35).
    pub(crate) fn add(&mut self, cluster: u64, kind: TallyKind, times: u32) -> Result<(), Fault>
        ensures fault { IsOkUnless result NoMemory }
        ensures counted { OnOk result (CountsTimes times
            (used_clusters kind (record { 0 = cluster }) 1) self.old self.new) }
    {
        if cluster < self.first || cluster >= self.end {
            return Ok(());
        }
        let index = (cluster - self.first) as usize;
        if index >= self.dense.len() {
            return self.add_sparse(cluster, kind, times);
        }
        if !self.dense.add(index, kind, times) {
            return Err(Fault::NoMemory);
        }
        Ok(())
    }

    // `add` for a cluster after the dense cells.
    #[inline(never)]
    fn add_sparse(&mut self, cluster: u64, kind: TallyKind, times: u32) -> Result<(), Fault>
        requires after { dense_end self.old ≤ cluster }
        requires before { cluster < self.old.end }
        ensures fault { IsOkUnless result NoMemory }
        ensures counted { OnOk result (CountsTimes times
            (used_clusters kind (record { 0 = cluster }) 1) self.old self.new) }
    {
        let cell = self.sparse.get(&cluster).copied().unwrap_or(0);
        let more = with_uses(cell, kind, times).ok_or(Fault::NoMemory)?;
        self.sparse.insert(cluster, more)?;
        if self.sparse.len() > self.most {
            if let Some((last, _)) = self.sparse.pop_last() {
                self.end = self.end.min(last);
            }
        }
        Ok(())
    }
}

/// Whether a cell counts references that exclude each other.
#[inline]
pub(crate) fn is_shared(cell: u64) -> bool
    ensures { result ≡ is_shared_cell cell }
{
    let is_fixed = cell % 2 == 1;
    let is_table = cell / 2 % 2 == 1;
    let is_guest = cell / 4 % 2 == 1;
    (is_fixed && cell / 8 > 1) || (is_table && (is_fixed || is_guest))
}

/// The number of references that a cell counts.
#[inline]
pub fn count_of(cell: u64) -> u64
    ensures { result ≡ cell / 8 }
{
    cell / 8
}
