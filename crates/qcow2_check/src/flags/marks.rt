//! What the count of references finds out about copied flags, so that a later test reads only tables that may
//! have a wrong one.

ghost use Rattle.std.specs.Prelude.{◌≡◌, ℕ, [], ◌+◌, ◌<◌, ◌≤◌, false, IsTrue, length, slice_index};
ghost use Rattle.qcow2_base.specs.Types.{IsClusterBits};
ghost use Rattle.qcow2_metadata.specs.Header.{geometry};
ghost use Rattle.qcow2_check.specs.Flags.{HasNoFlag, l2_flags_from};
ghost use Rattle.qcow2_check.specs.Soles.{AreSoles};

use crate::groups::{TOGETHER, cluster_at, entry_at, row_at, starts_group, starts_unallocated};
use crate::named_tables::named_cluster;
use crate::soles::Soles;
use qcow2_base::{HostCluster, field};
use qcow2_metadata::{L1Table, L2Entry, L2Table, Table, TableEntry};
use std::alloc::Global;
use std::marker::Model;

/// Marks of the clusters whose refcount is 1, and a number of L1 entries: the first ones, as far as neither
/// they nor the entries of their L2 tables have a wrong copied flag. There may be more of these.
#[derive(Drop)]
pub(crate) struct Marks {
    soles: Soles,
    clean: usize,
}

impl Model for Marks {
    ghost use Rattle.qcow2_check.specs.Flags.{MarksState};

    ghost Value = { MarksState };

    ghost view = { λ m. record { soles = m.soles; clean = m.clean } };
}

// Whether an entry is compressed or names no cluster, or its copied flag is set and its cluster's refcount is
// known to be 1.
#[inline(always)]
#[tactic(auto, using(crate::proofs::FlagsLemmas::sole_is_right, crate::proofs::FlagsLemmas::other_is_right))]
fn is_right(soles: &Soles, entry: L2Entry, cluster_bits: u32) -> bool
    requires { IsClusterBits cluster_bits }
    ensures { IsTrue result → HasNoFlag (geometry cluster_bits false) soles.now entry }
{
    let has_none = entry.is_compressed() | (field(entry.to_plain(), 9, 47) == 0);
    let is_sole = soles.has(cluster_at(entry, cluster_bits));
    has_none | (entry.is_copied() & is_sole)
}

// Whether `is_right` holds for the `TOGETHER` entries from an index on. Tests all of them, since the
// processor couldn't predict a branch.
#[inline(always)]
fn are_right(soles: &Soles, table: &L2Table, first: usize) -> bool
    requires group { first + 16 ≤ length table.now.numbers }
    ensures { IsTrue result → table.now.geometry.external_data_file ≡ false → (k : ℕ) → k < 16 →
        HasNoFlag table.now.geometry soles.now (slice_index table.now.numbers (first + k)) }
{
    prove!(first < table.entries());
    let cluster_bits = table.cluster_bits();
    let mut right = true;
    for k in 0..TOGETHER {
        right &= is_right(soles, entry_at(table, first + k), cluster_bits);
    }
    right
}

// Whether the `TOGETHER` entries from an index on are a row whose clusters are all marked.
#[inline(always)]
#[tactic(auto, using(crate::proofs::FlagsLemmas::sole_is_right))]
fn is_right_row(soles: &Soles, table: &L2Table, first: usize) -> bool
    requires group { first + 16 ≤ length table.now.numbers }
    ensures { IsTrue result → table.now.geometry.external_data_file ≡ false → (k : ℕ) → k < 16 →
        HasNoFlag table.now.geometry soles.now (slice_index table.now.numbers (first + k)) }
{
    match row_at(table, first) {
        Some(start) => soles.has_whole(start),
        None => false,
    }
}

/// Whether the entry at an index begins a group of `TOGETHER` entries whose copied flags are all right.
/// May return false for right ones, as when their refcounts aren't marked.
#[inline]
#[tactic(auto, using(crate::proofs::FlagsLemmas::nothing_has_no_flag))]
pub(super) fn starts_right(soles: &Soles, table: &L2Table, index: usize) -> bool
    requires index { index < length table.now.numbers }
    ensures { IsTrue result → (index + 16 ≤ length table.now.numbers)
        × ((k : ℕ) → k < 16 →
        HasNoFlag table.now.geometry soles.now (slice_index table.now.numbers (index + k))) }
{
    if starts_unallocated(table, index) {
        return true;
    }
    starts_group(table, index)
        && !table.external_data_file()
        && (is_right_row(soles, table, index) || are_right(soles, table, index))
}

// Whether the copied flags of all entries of an L2 table are known to be right.
fn has_right_flags(soles: &Soles, table: &L2Table) -> bool
    ensures { IsTrue result → (counter : ℕ → ℕ) (l1_index : ℕ) → AreSoles counter soles.now →
        l2_flags_from table.now.geometry counter l1_index table.now.numbers 0 ≡ [] }
{
    let mut index = 0;
    while index < table.entries() {
        if !starts_right(soles, table, index) {
            return false;
        }
        index += TOGETHER;
    }
    true
}

impl Marks {
    ghost use Rattle.std.specs.Prelude.{◌≡◌, ◌<◌, [], None, Some, slice_index};
    ghost use Rattle.qcow2_base.specs.Format.{most_l1_entries};
    ghost use Rattle.qcow2_base.specs.Storage.{Image};
    ghost use Rattle.qcow2_metadata.specs.Header.{geometry_of};
    ghost use Rattle.qcow2_metadata.specs.Placed.{numbers_at};
    ghost use Rattle.qcow2_metadata.specs.Table.{l2_layout};
    ghost use Rattle.qcow2_check.specs.Flags.{AreMarksOf};
    ghost use Rattle.qcow2_check.specs.NamedTables.{named_cluster};
    ghost use Rattle.qcow2_check.specs.Uses.{ImageTables as AnyTables};

    /// Marks of no cluster. Takes no memory.
    pub(crate) fn none(alloc: Global) -> Marks
        ensures { result ≡ record { soles = []; clean = 0 } }
    {
        Marks::new(Soles::none(alloc))
    }

    /// These marks, before the first L1 entry.
    pub(crate) fn new(soles: Soles) -> Marks
        ensures { result ≡ record { soles = soles; clean = 0 } }
    {
        Marks { soles, clean: 0 }
    }

    /// The marks of clusters.
    #[inline]
    pub(crate) fn soles(&self) -> &Soles
        ensures { result.now ≡ self.now.soles }
    {
        &self.soles
    }

    /// The number of L1 entries, the first ones, without a wrong flag.
    #[inline]
    pub(crate) fn clean(&self) -> usize
        ensures { result ≡ self.now.clean }
    {
        self.clean
    }

    /// Notes the L1 entry at an index, which names no L2 table.
    pub(crate) fn pass_unnamed(&mut self, index: usize)
        requires { index < most_l1_entries }
        ensures { (tables : AnyTables) (image : Image) →
            named_cluster tables.header.v2.cluster_bits (slice_index tables.l1 index) ≡ None →
            AreMarksOf tables image self.old → AreMarksOf tables image self.new }
    {
        if index == self.clean {
            self.clean += 1;
        }
    }

    /// Notes the L1 entry at an index, which names this L2 table, at this cluster.
    pub(crate) fn pass_table(
        &mut self,
        l1_table: &L1Table,
        index: usize,
        cluster: HostCluster,
        table: &L2Table,
    )
        requires { index < most_l1_entries }
        ensures { (tables : AnyTables) (image : Image) → let g = geometry_of tables.header in
            l1_table.now.numbers ≡ tables.l1 → table.now.geometry ≡ g →
            named_cluster tables.header.v2.cluster_bits (slice_index tables.l1 index) ≡ Some cluster →
            table.now.numbers ≡ numbers_at (l2_layout g) cluster image →
            AreMarksOf tables image self.old → AreMarksOf tables image self.new }
    {
        if index == self.clean
            && l1_table.get(index).is_copied()
            && self.soles.has(cluster)
            && has_right_flags(&self.soles, table)
        {
            self.clean += 1;
        }
    }
}
