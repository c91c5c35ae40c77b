//! Runs of L2 entries: the pattern of the entries that continue a first one.

ghost use Rattle.std.specs.Prelude.{◌≡◌, ℕ, ◌+◌, ◌*◌, ◌^◌, ◌<◌, ◌≤◌, ◌↔◌, IsTrue, None, false, true, length, slice_index};
ghost use Rattle.qcow2_base.specs.Format.{most_l2_entries};
ghost use Rattle.qcow2_base.specs.Types.{IsClusterBits};
ghost use Rattle.qcow2_metadata.specs.Header.{geometry};
ghost use Rattle.qcow2_metadata.specs.Entries.L2Entry.{l2_fault};
ghost use Rattle.qcow2_metadata.specs.Entries.Runs.{FollowJust, IsPatternOf, follows};

use super::{AtomicL2Entry, L2Entry, TableEntry};

// The number of entries that one test takes together.
const BLOCK: usize = 16;

/// The pattern of a run's entries: their bits in the mask are a value that grows by a step from each entry to
/// the next.
#[derive(Clone, Copy)]
pub(crate) struct RunPattern {
    mask: u64,
    value: u64,
    step: u64,
}

impl RunPattern {
    /// Returns the pattern of the entries that continue this one, which must be valid.
    ///
    /// Compressed entries have bit 62. Entries with a host cluster have the next cluster's offset each time,
    /// and the same zero flag; those without have no offset. The copied flag makes no difference, except
    /// where it alone distinguishes cluster 0 of an external data file from no cluster.
    #[inline]
    #[tactic(auto, using(crate::proofs::RunsLemmas::patterns))]
    pub(crate) fn of(entry: L2Entry, cluster_bits: u32, external_data_file: bool) -> RunPattern
        requires cluster_bits { IsClusterBits cluster_bits }
        requires lawful { l2_fault cluster_bits entry ≡ None }
        ensures exact { IsPatternOf (geometry cluster_bits external_data_file) entry result }
        ensures fits { result.value + most_l2_entries * result.step < 2 ^ 64 }
    {
        if entry.is_compressed() {
            return RunPattern {
                mask: 1 << 62,
                value: 1 << 62,
                step: 0,
            };
        }
        let value = entry.without_copied().to_plain();
        let (mask, step) = if entry.cluster_offset(external_data_file).is_some() {
            ((1 << 63) - 1, 1 << cluster_bits)
        } else if external_data_file {
            (u64::MAX, 0)
        } else {
            ((1 << 63) - 1, 0)
        };
        RunPattern { mask, value, step }
    }

    /// Returns how many of these entries, which come after the pattern's first, follow it.
    #[inline]
    pub(crate) fn count(&self, entries: &[AtomicL2Entry]) -> usize
        requires { self.now.value + length entries.now * self.now.step < 2 ^ 64 }
        ensures { FollowJust self.now entries.now result }
    {
        // On a fragmented disk most runs end at once.
        if !self.is_followed_by_first(entries) {
            return 0;
        }
        let mut done = 0;
        while done + BLOCK <= entries.len() {
            if !self.all_follow(entries, done, done + BLOCK) {
                break;
            }
            done += BLOCK;
        }
        self.count_from(entries, done)
    }

    #[inline]
    fn is_followed_by_first(&self, entries: &[AtomicL2Entry]) -> bool
        requires { self.now.value + length entries.now * self.now.step < 2 ^ 64 }
        ensures { 0 < length entries.now → result ≡ follows self.now 1 (slice_index entries.now 0) }
    {
        match entries.first() {
            Some(first) => first.to_plain() & self.mask == self.value + self.step,
            None => false,
        }
    }

    // Whether the entries from index `first` to before `end` follow the pattern. Has no early exit, so that
    // the compiler can test several at once.
    fn all_follow(&self, entries: &[AtomicL2Entry], first: usize, end: usize) -> bool
        requires fits { self.now.value + length entries.now * self.now.step < 2 ^ 64 }
        requires order { first ≤ end }
        requires within { end ≤ length entries.now }
        ensures { IsTrue result ↔ ((k : ℕ) → first ≤ k → k < end →
            follows self.now (k + 1) (slice_index entries.now k) ≡ true) }
    {
        let mut expected = self.value + first as u64 * self.step;
        let mut all = true;
        for index in first..end {
            expected += self.step;
            all &= entries[index].to_plain() & self.mask == expected;
        }
        all
    }

    // Returns how many entries follow the pattern, if those before `first` do.
    fn count_from(&self, entries: &[AtomicL2Entry], first: usize) -> usize
        requires fits { self.now.value + length entries.now * self.now.step < 2 ^ 64 }
        requires within { first ≤ length entries.now }
        requires before { (k : ℕ) → k < first → follows self.now (k + 1) (slice_index entries.now k) ≡ true }
        ensures { FollowJust self.now entries.now result }
    {
        let mut expected = self.value + first as u64 * self.step;
        for index in first..entries.len() {
            expected += self.step;
            if entries[index].to_plain() & self.mask != expected {
                return index;
            }
        }
        entries.len()
    }
}
