//! The parts of some of an image's clusters by their references, in bounded memory.

ghost use Rattle.std.specs.Prelude.{◌≡◌, ℕ, ◌+◌, ◌-◌, ◌^◌, ◌<◌, ◌≤◌, [], ◌∷◌, false, if◌then◌else◌, IfOk, IsOkUnless, IsTrue, OnOk, length, replicate};
ghost use Rattle.qcow2_base.specs.Format.{max_file_length};
ghost use Rattle.qcow2_base.specs.declared.fault.Fault.TheVariants.{NoMemory};
ghost use Rattle.qcow2_check.specs.Tally.{cell_at, dense_end};
ghost use Rattle.qcow2_check.specs.Walk.{most_guest_clusters, most_owners, one_use, row_list};
ghost use Rattle.qcow2_check.specs.declared.uses.UseKind.TheVariants.{Compressed, Data};
ghost use Rattle.qcow2_layout.specs.Window.{PlacesMore, cell_further};

mod cells;

use crate::parts::{COMPRESSED_CODE, DATA_CODE, code_of};
use cells::Cells;
pub(crate) use cells::TOGETHER;
use qcow2_base::{Fault, MAX_FILE_LENGTH};
use qcow2_check::UseKind;
use std::alloc::Global;
use std::collections::BTreeMap;
use std::marker::Model;

/// The parts of clusters from a first one on, by their references: a cell for each, which holds the code of
/// its first reference, or 0 without one. Contracts see cells.
#[derive(Drop)]
pub(crate) struct Window {
    first: u64,
    end: u64,
    dense: Cells,
    sparse: BTreeMap<u64, u64>,
    most: usize,
}

impl Model for Window {
    ghost use Rattle.qcow2_check.specs.Tally.{IsTally, TallyState};
    ghost use Rattle.qcow2_layout.specs.Window.Cells.{window_cells};

    ghost Value = { TallyState };

    ghost view = { λ w. record {
      first = w.first;
      end = w.end;
      dense = window_cells w.dense;
      sparse = w.sparse.entries;
      most = w.most;
    } };

    ghost invariant = { λ w. IsTally (record {
      first = w.first;
      end = w.end;
      dense = window_cells w.dense;
      sparse = w.sparse.entries;
      most = w.most;
    }) };
}

impl Window {
    ghost use Rattle.std.specs.Prelude.{◌≡◌, ◌≢◌, ◌↔◌, ◌+◌, ◌<◌, ◌≤◌, IsTrue, length, replicate};
    ghost use Rattle.qcow2_check.specs.Tally.{cell_at, dense_end};

    /// A window from cluster `first` on, without references. The next `dense` clusters have consecutive
    /// cells, of 64 bits if `is_wide`, else of 32, and up to `most` clusters after them have cells in a map.
    /// Fails only if memory runs out.
    pub(crate) fn new(
        alloc: Global,
        first: u64,
        dense: usize,
        most: usize,
        is_wide: bool,
    ) -> Result<Window, Fault>
        requires some { 0 < dense }
        requires fits { first + dense ≤ max_file_length }
        ensures fault { IsOkUnless result NoMemory }
        ensures begun { IfOk result (λ window. (window.first ≡ first) × (window.end ≡ max_file_length)
            × (window.dense ≡ replicate dense 0) × ((c : ℕ) → cell_at window c ≡ 0)) }
    {
        Ok(Window {
            first,
            end: MAX_FILE_LENGTH,
            dense: Cells::zeros(alloc, dense, is_wide)?,
            sparse: BTreeMap::new(alloc),
            most,
        })
    }

    /// The first cluster that it holds.
    #[inline]
    pub(crate) fn first(&self) -> u64
        ensures { result ≡ self.now.first }
    {
        self.first
    }

    /// The first cluster after those that it holds.
    #[inline]
    pub(crate) fn end(&self) -> u64
        ensures value { result ≡ self.now.end }
        ensures some { self.now.first < result }
        ensures fits { result ≤ max_file_length }
    {
        self.end
    }

    /// The number of clusters with a reference. May include some at or after `end`.
    pub(crate) fn used(&self) -> usize {
        self.dense.used().saturating_add(self.sparse.len())
    }

    /// Whether a cluster has one of the consecutive cells. Those of all later ones are in the map.
    #[inline]
    pub(crate) fn is_dense(&self, cluster: u64) -> bool
        requires { self.now.first ≤ cluster }
        ensures dense { IsTrue result ↔ (cluster < dense_end self.now) }
        ensures held { IsTrue result → cluster < self.now.end }
    {
        cluster - self.first < self.dense.len() as u64
    }

    /// The cell of a cluster.
    #[inline]
    pub(crate) fn cell(&self, cluster: u64) -> u64
        requires { self.now.first ≤ cluster }
        ensures { result ≡ cell_at self.now cluster }
    {
        let index = (cluster - self.first) as usize;
        if index < self.dense.len() {
            return self.dense.get(index);
        }
        self.sparse.get(&cluster).copied().unwrap_or(0)
    }

    /// The first cluster from `from` on that has a reference, or `limit` if none before it has.
    pub(crate) fn next_used(&self, from: u64, limit: u64) -> u64
        requires from { self.now.first ≤ from }
        requires some { from ≤ limit }
        ensures from { from ≤ result }
        ensures within { result ≤ limit }
        ensures none { (c : ℕ) → from ≤ c → c < result → cell_at self.now c ≡ 0 }
    {
        let dense_end = self.first + self.dense.len() as u64;
        for cluster in from..limit.min(dense_end) {
            if self.dense.get((cluster - self.first) as usize) != 0 {
                return cluster;
            }
        }
        match self.sparse.range(from.max(dense_end)..).next() {
            Some((cluster, _)) => (*cluster).min(limit),
            None => limit,
        }
    }

    /// The end of clusters from one on whose cells are one run: those of guest data are codes of consecutive
    /// guest clusters, others are equal. It is before all clusters with cells in the map, unless `from` has
    /// one. The run ends there if that is a cluster with a consecutive cell.
    #[inline(always)]
    #[tactic(auto, using(crate::proofs::WindowLemmas::run_cells, crate::proofs::WindowLemmas::run_ends))]
    pub(crate) fn run_end(&self, from: u64) -> u64
        requires first { self.now.first ≤ from }
        requires end { from < self.now.end }
        ensures within { (from < result) × (result ≤ self.now.end) }
        ensures one { (k : ℕ) → from + k < result →
            cell_at self.now (from + k) ≡ cell_further (cell_at self.now from) k }
        ensures ends { result < dense_end self.now →
            cell_at self.now result ≢ cell_further (cell_at self.now from) (result - from) }
    {
        let index = (from - self.first) as usize;
        if index >= self.dense.len() {
            return from + 1;
        }
        self.first + self.dense.run_end(index) as u64
    }

    /// Gives a cluster the code of a reference, if the window holds the cluster and it has none yet. If the
    /// map then has too many cells, the window drops the last of them and ends before its cluster. Fails if
    /// memory runs out or a narrow cell can't hold the code (fault 35).
    #[inline]
    pub(crate) fn put(&mut self, cluster: u64, kind: UseKind, owner: u64) -> Result<(), Fault>
        requires { owner < most_owners kind }
        ensures fault { IsOkUnless result NoMemory }
        ensures placed { OnOk result (PlacesMore (one_use kind (record { 0 = cluster }) 1 owner ∷ [])
            self.old self.new) }
    {
        if cluster < self.first || cluster >= self.end {
            return Ok(());
        }
        let index = (cluster - self.first) as usize;
        if index >= self.dense.len() {
            return self.put_sparse(cluster, kind, owner);
        }
        if !self.dense.put_if(index, code_of(kind, owner), true) {
            return Err(Fault::NoMemory);
        }
        Ok(())
    }

    /// Gives a cluster the code of a reference by guest data, which may be compressed, as `put` does if
    /// `is_used`. Returns false and changes nothing if the cluster is in the window but has no dense cell, or
    /// a narrow one can't hold the code. Branches on neither `is_used` nor `is_compressed`.
    #[inline(always)]
    pub(crate) fn put_guest_if(
        &mut self,
        cluster: u64,
        is_compressed: bool,
        guest: u64,
        is_used: bool,
    ) -> bool
        requires { guest < most_guest_clusters }
        ensures placed { IsTrue result → IsTrue is_used → PlacesMore (one_use
            (if is_compressed then Compressed else Data) (record { 0 = cluster }) 1 guest ∷ [])
            self.old self.new }
        ensures unused { is_used ≡ false → self.new ≡ self.old }
        ensures same { result ≡ false → self.new ≡ self.old }
    {
        let code = if is_compressed {
            COMPRESSED_CODE
        } else {
            DATA_CODE + guest
        };
        // Without a reference this may be any cell, which stays as it is.
        let index = cluster.wrapping_sub(self.first);
        self.dense.put_if(index as usize, code, is_used)
            || !is_used
            || cluster < self.first
            || cluster >= self.end
    }

    /// Gives `TOGETHER` clusters from `first` on the codes of guest data, from guest cluster `guest` on, as
    /// `put` does. Returns false and changes nothing if one of them has no narrow dense cell.
    #[inline]
    pub(crate) fn put_row(&mut self, first: u64, guest: u64) -> bool
        requires { guest + 16 ≤ most_guest_clusters }
        ensures placed { IsTrue result → PlacesMore (row_list first guest 16) self.old self.new }
        ensures same { result ≡ false → self.new ≡ self.old }
    {
        first >= self.first
            && self
                .dense
                .put_group((first - self.first) as usize, DATA_CODE + guest)
    }

    // `put` for a cluster after the dense cells.
    #[inline(never)]
    fn put_sparse(&mut self, cluster: u64, kind: UseKind, owner: u64) -> Result<(), Fault>
        requires owner { owner < most_owners kind }
        requires after { dense_end self.old ≤ cluster }
        requires before { cluster < self.old.end }
        ensures fault { IsOkUnless result NoMemory }
        ensures placed { OnOk result (PlacesMore (one_use kind (record { 0 = cluster }) 1 owner ∷ [])
            self.old self.new) }
    {
        if self.sparse.get(&cluster).copied().unwrap_or(0) != 0 {
            return Ok(());
        }
        self.sparse.insert(cluster, code_of(kind, owner))?;
        if self.sparse.len() > self.most {
            if let Some((last, _)) = self.sparse.pop_last() {
                self.end = self.end.min(last);
            }
        }
        Ok(())
    }
}
