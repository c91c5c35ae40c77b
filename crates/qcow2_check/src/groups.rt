//! Groups of entries of an L2 table that are tested at once.

ghost use Rattle.std.specs.Prelude.{◌≡◌, ℕ, ◌+◌, ◌/◌, ◌^◌, ◌<◌, ◌≤◌, IfSome, IsTrue, None, false, length, slice_index};
ghost use Rattle.qcow2_base.specs.Types.{IsClusterBits};
ghost use Rattle.qcow2_metadata.specs.Entries.{offset_field};
ghost use Rattle.qcow2_metadata.specs.Entries.L2Entry.{l2_fault};
ghost use Rattle.qcow2_check.specs.Groups.{IsInRow, IsRow};

use qcow2_base::{HostCluster, HostOffset, field};
use qcow2_metadata::{L2Entry, L2Table, Table, TableEntry};

/// The number of L2 entries that are tested as one group.
pub(crate) const TOGETHER: usize = 16;

/// The entry at an index within the table, without a bounds check in the built program.
#[inline(always)]
pub fn entry_at(table: &L2Table, index: usize) -> L2Entry
    requires { index < length table.now.numbers }
    ensures number { result ≡ slice_index table.now.numbers index }
    ensures valid { l2_fault table.now.geometry.cluster_bits result ≡ None }
{
    table.get_ref(index).unwrap().get()
}

/// Whether the `TOGETHER` entries from an index on are all 0.
#[inline(always)]
pub(crate) fn are_unallocated(table: &L2Table, first: usize) -> bool
    requires { first + 16 ≤ length table.now.numbers }
    ensures { IsTrue result → (k : ℕ) → k < 16 → slice_index table.now.numbers (first + k) ≡ 0 }
{
    prove!(first < table.entries());
    let mut unallocated = true;
    for k in 0..TOGETHER {
        unallocated &= entry_at(table, first + k).to_plain() == 0;
    }
    unallocated
}

/// The cluster at the offset of a standard entry.
#[inline(always)]
pub(crate) fn cluster_at(entry: L2Entry, cluster_bits: u32) -> HostCluster
    requires { IsClusterBits cluster_bits }
    ensures cluster { result.0 ≡ offset_field entry / 2 ^ cluster_bits }
    ensures fits { result.0 < 2 ^ 56 }
{
    HostOffset(field(entry.to_plain(), 9, 47) * 512).cluster(cluster_bits)
}

// Whether an entry has the copied flag and names this cluster.
#[inline(always)]
fn is_copied_at(entry: L2Entry, cluster_bits: u32, cluster: u64) -> bool
    requires bits { IsClusterBits cluster_bits }
    requires valid { l2_fault cluster_bits entry ≡ None }
    ensures { IsTrue result → IsInRow cluster_bits entry cluster }
{
    let is_there = cluster_at(entry, cluster_bits).0 == cluster;
    is_there & entry.is_copied() & !entry.is_compressed()
}

// Whether the `TOGETHER` entries from an index on all have the copied flag and name consecutive clusters,
// from this one on.
#[inline(always)]
fn are_copied_from(table: &L2Table, first: usize, start: HostCluster) -> bool
    requires group { first + 16 ≤ length table.now.numbers }
    requires start { start.0 < 2 ^ 56 }
    ensures { IsTrue result → (k : ℕ) → k < 16 →
        IsInRow table.now.geometry.cluster_bits (slice_index table.now.numbers (first + k)) (start.0 + k) }
{
    prove!(first < table.entries());
    let cluster_bits = table.cluster_bits();
    let mut are_copied = true;
    for k in 0..TOGETHER {
        are_copied &= is_copied_at(entry_at(table, first + k), cluster_bits, start.0 + k as u64);
    }
    are_copied
}

/// The cluster of the first of 16 entries from an index on, if they are a row: all have the copied flag, and
/// they name consecutive clusters.
#[inline(always)]
pub fn row_at(table: &L2Table, first: usize) -> Option<HostCluster>
    requires group { first + 16 ≤ length table.now.numbers }
    ensures row { IfSome result (λ start.
        IsRow table.now.geometry.cluster_bits table.now.numbers first start.0) }
    ensures fits { IfSome result (λ start. start.0 < 2 ^ 56) }
{
    prove!(first < table.entries());
    let cluster_bits = table.cluster_bits();
    let start = cluster_at(entry_at(table, first), cluster_bits);
    let last = cluster_at(entry_at(table, first + 15), cluster_bits);
    // Usually the last entry alone shows whether they are consecutive.
    let is_row = start.0 > 0 && last.0 == start.0 + 15 && are_copied_from(table, first, start);
    is_row.then_some(start)
}

/// Whether a group of `TOGETHER` entries begins at an index.
#[inline(always)]
pub(crate) fn starts_group(table: &L2Table, index: usize) -> bool
    requires { index < length table.now.numbers }
    ensures { IsTrue result → index + 16 ≤ length table.now.numbers }
{
    index % TOGETHER == 0 && table.entries() - index >= TOGETHER
}

/// Whether the entry at an index begins a group of `TOGETHER` entries that are all 0.
#[inline(always)]
pub(crate) fn starts_unallocated(table: &L2Table, index: usize) -> bool
    requires { index < length table.now.numbers }
    ensures { IsTrue result → (index + 16 ≤ length table.now.numbers)
        × ((k : ℕ) → k < 16 → slice_index table.now.numbers (index + k) ≡ 0) }
{
    starts_group(table, index) && are_unallocated(table, index)
}

/// The cluster of the entry at an index, if it begins a group of `TOGETHER` entries that are a row, and guest
/// data lies in the image.
#[inline(always)]
pub(crate) fn starts_row(table: &L2Table, index: usize) -> Option<HostCluster>
    requires { index < length table.now.numbers }
    ensures row { IfSome result (λ start. (index + 16 ≤ length table.now.numbers)
        × (table.now.geometry.external_data_file ≡ false)
        × IsRow table.now.geometry.cluster_bits table.now.numbers index start.0) }
    ensures fits { IfSome result (λ start. start.0 < 2 ^ 56) }
{
    if table.external_data_file() || !starts_group(table, index) {
        return None;
    }
    row_at(table, index)
}
