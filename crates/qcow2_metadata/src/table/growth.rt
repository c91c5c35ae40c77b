//! Growth of refcount tables. A table that moves to more clusters needs refcounts for these, so it grows with
//! spare entries for new refcount blocks, which need refcounts too.

ghost use Rattle.std.specs.Prelude.{◌≡◌, ◌+◌, ◌-◌, ◌^◌, ◌<◌, ◌≤◌, IfSome, max};
ghost use Rattle.std.specs.Int.{next_multiple_of};
ghost use Rattle.qcow2_base.specs.Format.{most_reftable_entries};
ghost use Rattle.qcow2_metadata.specs.Table.Growth.{growth_of, least_spare as least, possible_spare};

use super::TableKind;
use crate::{Header, RefTableEntry};

/// The count of the numbers of spare blocks that `least_spare` tries.
#[derive(Debug, Drop)]
pub struct Turns {
    count: usize,
}

impl Turns {
    /// Returns a count of 0.
    pub fn new() -> Turns
        ensures { result.count ≡ 0 }
    {
        Turns { count: 0 }
    }

    /// Returns how many numbers were tried.
    pub fn count(&self) -> usize
        ensures { result ≡ self.now.count }
    {
        self.count
    }

    fn step(&mut self)
        requires { self.old.count < 2 ^ 63 }
        ensures { self.new.count ≡ self.old.count + 1 }
    {
        self.count += 1;
    }
}

// Returns the number of entries of a table of `len` entries that grows to hold `index` and spare entries
// after it, rounded up to whole clusters.
pub(super) fn entries_with(len: usize, index: usize, spare: usize, cluster_entries: usize) -> usize
    requires len { len < 2 ^ 60 }
    requires index { index < 2 ^ 60 }
    requires spare { spare < 2 ^ 60 }
    requires some { 0 < cluster_entries }
    requires few { cluster_entries ≤ 2 ^ 18 }
    ensures { result ≡ next_multiple_of (max (index + 1 + spare) len) cluster_entries }
{
    (index + 1 + spare)
        .max(len)
        .next_multiple_of(cluster_entries)
}

/// Returns the least number of spare entries with which a refcount table of `len` entries must grow to hold
/// `index`: that many new refcount blocks count all clusters of the grown table and their own. Returns `None`
/// if the table would have too many entries. The index must be one that a table can have, and `turns` new.
///
/// Tries at most as many numbers as that least one, even if the table would have too many entries, and
/// allocates nothing.
#[tactic(auto, using(crate::proofs::GrowthLemmas::IsRoomy_of))]
pub fn least_spare(len: usize, index: usize, header: &Header, turns: &mut Turns) -> Option<usize>
    requires index { index < most_reftable_entries }
    requires fresh { turns.old.count ≡ 0 }
    ensures spare { result ≡ possible_spare (growth_of header.now len index) }
    ensures turns { turns.new.count ≤ least (growth_of header.now len index) }
    ensures tried { IfSome result (λ spare. 1 ≤ turns.new.count) }
{
    if len > RefTableEntry::MAX_ENTRIES {
        return None;
    }
    let (cluster_entries, block_counters) = (header.l2_entries(), header.rb_entries());
    let mut spare = 1;
    loop {
        turns.step();
        let entries = entries_with(len, index, spare, cluster_entries);
        if entries > RefTableEntry::MAX_ENTRIES {
            return None;
        }
        let clusters = entries / cluster_entries + spare;
        let needed = clusters.div_ceil(block_counters);
        if needed <= spare {
            return Some(spare);
        }
        spare = needed;
    }
}
