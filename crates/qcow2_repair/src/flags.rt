//! A repair's pass over copied flags: it clears those that are wrongly set, or sets those that are wrongly
//! clear, by the references to the clusters that entries name.

ghost use Rattle.std.specs.Prelude.{◌≡◌, ℕ, ◌⊎◌, ◌+◌, ◌<◌, ◌≤◌, IfErr, IsTrue, IfSome, MatchResult, None, Ok, OnOk, Some, false, length, map, slice_index, slice_set, true};
ghost use Rattle.qcow2_base.specs.Storage.{OnImage, OnImages, OnlyWrites};
ghost use Rattle.qcow2_metadata.specs.Header.{geometry_of};
ghost use Rattle.qcow2_metadata.specs.Placed.{offset_of};
ghost use Rattle.qcow2_metadata.specs.Table.{l2_layout, loaded_l2_table};
ghost use Rattle.qcow2_check.specs.Findings.{IsLaterFault};
ghost use Rattle.qcow2_check.specs.NamedTables.{IsInImage, named_cluster};
ghost use Rattle.qcow2_check.specs.Uses.{all_load};
ghost use Rattle.qcow2_check.specs.Failures.{ReportsFailures};
ghost use Rattle.qcow2_check.specs.Repeats.{AreTimesOf, table_names, times_at};
ghost use Rattle.qcow2_repair.specs.Flags.{BreaksOffL2, PassesL2, due_flag, l1_due, l2_due, l2_in, pass_by, passed_l1, passed_l2};

use qcow2_base::{Fault, HostCluster, Storage};
use qcow2_check::{
    Repeats, Tally, count_of, flagged_cluster, load_l2_table, named_block, named_cluster, row_at,
};
use qcow2_metadata::{Header, L1Table, L2Entry, L2Table, RefTable, Table, TableEntry};
use std::alloc::Global;
use std::marker::Model;

// The number of L2 entries that are tested as one group.
const TOGETHER: usize = 16;

/// A pass that gives its `flag` to the entries that need it, by the clusters that refcount blocks count and
/// the references that a tally has counted.
#[derive(Drop)]
pub(crate) struct FlagPass<'a> {
    pub(crate) header: &'a Header,
    pub(crate) reftable: &'a RefTable,
    pub(crate) tally: &'a Tally,
    pub(crate) flag: bool,
}

impl<'a> Model for FlagPass<'a> {
    ghost use Rattle.std.specs.Prelude.{◌≡◌};
    ghost use Rattle.qcow2_metadata.specs.Header.{geometry_of};
    ghost use Rattle.qcow2_repair.specs.Flags.{TallyPass};

    ghost Value = { TallyPass };

    ghost view = { λ p. record {
      header = p.header.now;
      reftable = p.reftable.now.numbers;
      tally = p.tally.now;
      flag = p.flag;
    } };

    ghost invariant = { λ p. p.reftable.now.geometry ≡ geometry_of p.header.now };
}

// The cluster of the L2 table that an L1 entry names, unless an entry before it names that table too.
fn first_named(l1_table: &L1Table, repeats: &Repeats, index: usize) -> Option<HostCluster>
    ensures named { IfSome result (λ cluster. let cb = l1_table.now.geometry.cluster_bits in
        named_cluster cb (slice_index l1_table.now.numbers index) ≡ Some cluster) }
    ensures none { result ≡ None → let cb = l1_table.now.geometry.cluster_bits in
        (named_cluster cb (slice_index l1_table.now.numbers index) ≡ None)
        ⊎ (times_at repeats.now index ≡ 0) }
    ensures end { IfSome result (IsInImage l1_table.now.geometry.cluster_bits) }
{
    if repeats.times(index) == 0 {
        return None;
    }
    named_cluster(l1_table, index)
}

impl FlagPass<'_> {
    // The right copied flag of an entry that names this cluster. `None` if no refcount block counts the
    // cluster or the tally doesn't.
    fn due_flag(&self, cluster: HostCluster) -> Option<bool>
        ensures { result ≡ due_flag (pass_by self.now) cluster }
    {
        named_block(self.reftable, cluster.rt_index(self.header.rb_bits()))?;
        if cluster.0 < self.tally.first() || cluster.0 >= self.tally.end() {
            return None;
        }
        Some(count_of(self.tally.cell(cluster.0)) == 1)
    }

    // The right copied flag of the L1 entry at an index, if the pass knows it.
    fn l1_due(&self, l1_table: &L1Table, index: usize) -> Option<bool>
        requires { l1_table.now.geometry ≡ geometry_of self.now.header }
        ensures { result ≡ l1_due (pass_by self.now) (slice_index l1_table.now.numbers index) }
    {
        self.due_flag(named_cluster(l1_table, index)?)
    }

    // The right copied flag of an L2 entry, if the pass knows it. In an external data file it is always set.
    fn l2_due(&self, entry: L2Entry) -> Option<bool>
        ensures { result ≡ l2_due (pass_by self.now) entry }
    {
        let external = self.header.external_data_file();
        let cluster = flagged_cluster(entry, self.header.cluster_bits(), external)?;
        if external {
            return Some(true);
        }
        self.due_flag(cluster)
    }

    // Gives the L1 entry at an index the pass's flag if it needs it.
    #[tactic(auto, using(crate::proofs::FlagsLemmas::one_entry))]
    fn pass_l1_entry(&self, l1_table: &mut L1Table, index: usize)
        requires geometry { l1_table.old.geometry ≡ geometry_of self.now.header }
        requires index { index < length l1_table.old.numbers }
        ensures numbers { l1_table.new.numbers ≡ slice_set l1_table.old.numbers index
            (passed_l1 (pass_by self.now) (slice_index l1_table.old.numbers index)) }
        ensures same { l1_table.new
            ≡ record l1_table.old { numbers = l1_table.new.numbers; modified = l1_table.new.modified } }
        ensures modified { (l1_table.new ≡ l1_table.old) ⊎ (l1_table.new.modified ≡ true) }
    {
        let entry = l1_table.get(index);
        // Reading the entry as a number shows that it fits 64 bits.
        let _ = entry.to_plain();
        if entry.is_copied() != self.flag && self.l1_due(l1_table, index) == Some(self.flag) {
            l1_table.set_copied(index, self.flag);
        }
    }

    // Gives the entries of an L1 table the pass's flag if they need it.
    #[tactic(auto, using(crate::proofs::FlagsLemmas::all_entries))]
    pub(crate) fn pass_l1(&self, l1_table: &mut L1Table)
        requires { l1_table.old.geometry ≡ geometry_of self.now.header }
        ensures numbers { l1_table.new.numbers ≡ map (passed_l1 (pass_by self.now)) l1_table.old.numbers }
        ensures same { l1_table.new
            ≡ record l1_table.old { numbers = l1_table.new.numbers; modified = l1_table.new.modified } }
        ensures modified { (l1_table.new ≡ l1_table.old) ⊎ (l1_table.new.modified ≡ true) }
    {
        for index in 0..l1_table.entries() {
            self.pass_l1_entry(l1_table, index);
        }
    }

    // Whether an L2 entry has the pass's flag.
    #[inline]
    #[tactic(auto, using(crate::proofs::FlagsLemmas::has_flag))]
    fn is_passed(&self, entry: L2Entry) -> bool
        ensures { IsTrue result → passed_l2 (pass_by self.now) entry ≡ entry }
    {
        // Reading the entry as a number shows that it fits 64 bits.
        let _ = entry.to_plain();
        entry.is_copied() == self.flag
    }

    // Whether the `TOGETHER` entries from an index on all have the pass's flag. Tests each, so that the
    // compiler can compare several at once.
    fn are_passed(&self, table: &L2Table, first: usize) -> bool
        requires { first + 16 ≤ length table.now.numbers }
        ensures { IsTrue result → (k : ℕ) → k < 16 → let v = slice_index table.now.numbers (first + k) in
            passed_l2 (pass_by self.now) v ≡ v }
    {
        prove!(first < table.entries());
        let mut passed = true;
        for k in 0..TOGETHER {
            passed &= self.is_passed(table.get(first + k));
        }
        passed
    }

    // Whether the `TOGETHER` entries from an index on name consecutive clusters that have no other reference.
    fn are_soles(&self, table: &L2Table, first: usize) -> bool
        requires geometry { table.now.geometry ≡ geometry_of self.now.header }
        requires group { first + 16 ≤ length table.now.numbers }
        ensures { IsTrue result → self.now.flag ≡ false → (k : ℕ) → k < 16 →
            let v = slice_index table.now.numbers (first + k) in passed_l2 (pass_by self.now) v ≡ v }
    {
        match row_at(table, first) {
            Some(start) => {
                self.tally.first() <= start.0 && self.tally.are_plain(start.0, &[1; TOGETHER])
            }
            None => false,
        }
    }

    // Whether the entry at an index begins a group of `TOGETHER` entries that the pass leaves. May return
    // false for such a group.
    #[inline]
    fn starts_unchanged(&self, table: &L2Table, index: usize) -> bool
        requires geometry { table.now.geometry ≡ geometry_of self.now.header }
        requires index { index < length table.now.numbers }
        ensures { IsTrue result → (index + 16 ≤ length table.now.numbers) × ((k : ℕ) → k < 16 →
            let v = slice_index table.now.numbers (index + k) in passed_l2 (pass_by self.now) v ≡ v) }
    {
        if index % TOGETHER != 0 || table.entries() - index < TOGETHER {
            return false;
        }
        self.are_passed(table, index) || (!self.flag && self.are_soles(table, index))
    }

    // Gives the L2 entry at an index the pass's flag if it needs it.
    #[tactic(auto, using(crate::proofs::FlagsLemmas::one_entry))]
    fn pass_l2_entry(&self, table: &mut L2Table, index: usize)
        requires geometry { table.old.geometry ≡ geometry_of self.now.header }
        requires index { index < length table.old.numbers }
        ensures numbers { table.new.numbers ≡ slice_set table.old.numbers index
            (passed_l2 (pass_by self.now) (slice_index table.old.numbers index)) }
        ensures same { table.new
            ≡ record table.old { numbers = table.new.numbers; modified = table.new.modified } }
        ensures modified { (table.new ≡ table.old) ⊎ (table.new.modified ≡ true) }
    {
        let entry = table.get(index);
        if entry.is_copied() != self.flag && self.l2_due(entry) == Some(self.flag) {
            table.lock_write().set_copied(index, self.flag);
        }
    }

    // Gives the entries of an L2 table the pass's flag if they need it.
    #[tactic(auto, using(crate::proofs::FlagsLemmas::all_entries))]
    fn pass_l2(&self, table: &mut L2Table)
        requires { table.old.geometry ≡ geometry_of self.now.header }
        ensures numbers { table.new.numbers ≡ map (passed_l2 (pass_by self.now)) table.old.numbers }
        ensures same { table.new
            ≡ record table.old { numbers = table.new.numbers; modified = table.new.modified } }
        ensures modified { (table.new ≡ table.old) ⊎ (table.new.modified ≡ true) }
    {
        let mut index = 0;
        while index < table.entries() {
            if self.starts_unchanged(table, index) {
                index += TOGETHER;
            } else {
                self.pass_l2_entry(table, index);
                index += 1;
            }
        }
    }

    // Loads the L2 table at a cluster, gives its entries the pass's flag if they need it, and writes it if
    // one has changed.
    fn pass_table<S: Storage>(
        &self,
        image: &mut S,
        alloc: Global,
        cluster: HostCluster,
    ) -> Result<(), Fault>
        requires place { IsInImage self.now.header.v2.cluster_bits cluster }
        requires loads { OnImage (S.state image.old) (λ bytes.
            loaded_l2_table (geometry_of self.now.header) cluster bytes
            ≡ Ok (l2_in self.now.header cluster bytes)) }
        ensures numbers { OnOk result (OnImages (S.state image.old) (S.state image.new) (λ before after.
            l2_in self.now.header cluster after
            ≡ map (passed_l2 (pass_by self.now)) (l2_in self.now.header cluster before))) }
        ensures fault { IfErr result (IsLaterFault (S.state image.old)) }
        ensures storage { let layout = l2_layout (geometry_of self.now.header) in OnlyWrites result
            (Some (offset_of layout cluster)) layout.byte_count (S.state image.old) (S.state image.new) }
    {
        let mut table = load_l2_table(alloc, image, self.header, cluster)?;
        self.pass_l2(&mut table);
        table.write_if_modified(image, cluster)
    }

    /// Gives the entries of all L2 tables that an L1 table with these repeats names the pass's flag if they
    /// need it. Loads each table once.
    pub(crate) fn pass_tables<S: Storage>(
        &self,
        image: &mut S,
        l1_table: &L1Table,
        repeats: &Repeats,
    ) -> Result<(), Fault>
        requires geometry { l1_table.now.geometry ≡ geometry_of self.now.header }
        requires repeats { AreTimesOf (table_names l1_table.now.numbers) repeats.now }
        requires loads { OnImage (S.state image.old) (λ bytes.
            all_load (geometry_of self.now.header) l1_table.now.numbers bytes ≡ Ok tt) }
        ensures passed { OnImages (S.state image.old) (S.state image.new) (λ before after. MatchResult result
            (λ _. PassesL2 (pass_by self.now) l1_table.now.numbers before after)
            (λ fault. BreaksOffL2 (pass_by self.now) l1_table.now.numbers fault before after)) }
        ensures fault { IfErr result (IsLaterFault (S.state image.old)) }
        ensures storage { ReportsFailures result (S.state image.old) (S.state image.new) }
    {
        for index in 0..l1_table.entries() {
            if let Some(cluster) = first_named(l1_table, repeats, index) {
                self.pass_table(image, l1_table.allocator(), cluster)?;
            }
        }
        Ok(())
    }
}
