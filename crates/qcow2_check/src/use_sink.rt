//! The trait of sinks, which the walk hands an image's references one after another.

ghost use Rattle.std.specs.Prelude.{◌+◌, ◌^◌, ◌<◌, ◌≤◌, List, [], ◌∷◌, ◌++◌, IfOk, IsOkUnless, OnOk, length};
ghost use Rattle.qcow2_base.specs.Format.{most_l1_entries};
ghost use Rattle.qcow2_base.specs.declared.fault.Fault.TheVariants.{NoMemory};
ghost use Rattle.qcow2_check.specs.Walk.{IsOwned, TakesEntries, entries_list, most_guest_clusters, row_list};
ghost use Rattle.qcow2_check.specs.declared.uses.Use.{Use as AnyUse};

use crate::groups::{TOGETHER, starts_row, starts_unallocated};
use crate::uses::{Use, UseKind, entry_use};
use qcow2_base::{Fault, HostCluster};
use qcow2_metadata::{L2Table, Table};

/// A receiver of an image's references, in the order of the walk.
///
/// An implementor defines by `takes` how a list of references changes it. It proves that an empty list
/// changes nothing, and that two lists in a row change it as their concatenation does.
pub trait UseSink {
    /// Taking these references, in this order, turns the first sink into the second.
    ghost takes: { List AnyUse → Self → Self → Type 0 };

    /// Takes one reference. Fails only if memory runs out.
    fn take(&mut self, used: Use) -> Result<(), Fault>
        requires { IsOwned used }
        ensures fault { IsOkUnless result NoMemory }
        ensures taken { OnOk result (takes (used ∷ []) self.old self.new) };

    /// Takes 16 references by guest data: to the clusters from `first` on, of the guest clusters from `guest`
    /// on. Override it for a faster way over such rows.
    #[inline(always)]
    fn take_row(&mut self, first: HostCluster, guest: u64) -> Result<(), Fault>
        requires first { first.0 < 2 ^ 56 }
        requires guest { guest + 16 ≤ most_guest_clusters }
        ensures fault { IsOkUnless result NoMemory }
        ensures taken { OnOk result (takes (row_list first.0 guest 16) self.old self.new) }
    {
        for k in 0..TOGETHER as u64 {
            let cluster = HostCluster(first.0 + k);
            self.take(Use::new(UseKind::Data, cluster, 1, guest + k))?;
        }
        Ok(())
    }

    /// Takes the reference of the entry at an index of an L2 table, or those of the 16 entries from it on if
    /// these are all 0 or a row. Returns the number of entries.
    #[inline(always)]
    fn take_some(&mut self, table: &L2Table, l1_index: usize, index: usize) -> Result<usize, Fault>
        requires l1_index { l1_index < most_l1_entries }
        requires index { index < length table.now.numbers }
        ensures fault { IsOkUnless result NoMemory }
        ensures count { IfOk result (λ count. (0 < count) × (index + count ≤ length table.now.numbers)) }
        ensures taken { IfOk result (λ count. TakesEntries takes table.now.geometry l1_index
            table.now.numbers index (index + count) self.old self.new) }
    {
        let entries = table.entries();
        prove!(index < entries);
        if starts_unallocated(table, index) {
            return Ok(TOGETHER);
        }
        if let Some(first) = starts_row(table, index) {
            let guest = l1_index * entries + index;
            self.take_row(first, guest as u64)?;
            return Ok(TOGETHER);
        }
        if let Some(used) = entry_use(table, l1_index, index) {
            self.take(used)?;
        }
        Ok(1)
    }

    /// Takes the references of all entries of an L2 table, in order. `l1_index` is the index of the L1 entry
    /// that names the table. Override it for a faster way over whole tables.
    fn take_table(&mut self, table: &L2Table, l1_index: usize) -> Result<(), Fault>
        requires { l1_index < most_l1_entries }
        ensures fault { IsOkUnless result NoMemory }
        ensures taken { OnOk result (takes (entries_list table.now.geometry l1_index table.now.numbers)
            self.old self.new) }
    {
        let mut index = 0;
        while index < table.entries() {
            index += self.take_some(table, l1_index, index)?;
        }
        Ok(())
    }

    ghost takes_none: { (s : Self) → takes [] s s };

    ghost takes_both: { (first second : List AnyUse) (a b c : Self) → takes first a b → takes second b c
        → takes (first ++ second) a c };
}
