//! The parts of clusters, placed into a window by the walk over an image's references.

ghost use Rattle.std.specs.Prelude.{◌≡◌, ◌+◌, ◌^◌, ◌<◌, ◌≤◌, [], ◌∷◌, false, IfOk, IsOkUnless, IsTrue, OnOk, length};
ghost use Rattle.std.proofs.Common.{arith};
ghost use Rattle.std.proofs.lemmas.Grind.{fold-append};
ghost use Rattle.std.proofs.lemmas.List.Elements.{All-append};
ghost use Rattle.qcow2_base.specs.Format.{most_l1_entries};
ghost use Rattle.qcow2_base.specs.Storage.{OnImage};
ghost use Rattle.qcow2_base.specs.declared.fault.Fault.TheVariants.{NoMemory};
ghost use Rattle.qcow2_metadata.specs.Header.{geometry_of};
ghost use Rattle.qcow2_metadata.specs.Results.{Reads};
ghost use Rattle.qcow2_metadata.specs.Table.{IsEntryFault};
ghost use Rattle.qcow2_check.specs.Repeats.{AreTimesOf, table_names};
ghost use Rattle.qcow2_check.specs.Uses.{all_load};
ghost use Rattle.qcow2_check.specs.Walk.{IsOwned, TakesEntries, most_guest_clusters, row_list, use_list};
ghost use Rattle.qcow2_layout.specs.Window.{PlacesMore};

use crate::window::{TOGETHER, Window};
use qcow2_base::{Fault, GuestCluster, HostCluster, MAX_L1_ENTRIES, Storage};
use qcow2_check::{
    ImageTables, Repeats, Use, UseKind, UseSink, cluster_bounds, entry_at, refers, walk_guest_once,
    walk_tables,
};
use qcow2_metadata::{L2Table, Table, TableEntry};

// Gives the clusters of a reference its code, except those that have one already.
#[inline(always)]
#[tactic(auto, using(crate::proofs::WindowLemmas::places_next))]
fn place_clusters(window: &mut Window, used: Use) -> Result<(), Fault>
    requires { IsOwned used }
    ensures fault { IsOkUnless result NoMemory }
    ensures placed { OnOk result (PlacesMore (used ∷ []) window.old window.new) }
{
    let (first, count) = (used.clusters.first.0, used.clusters.count.0);
    let start = first.max(window.first());
    let end = first.saturating_add(count).min(window.end());
    for cluster in start..end.max(start) {
        window.put(cluster, used.kind, used.owner)?;
    }
    Ok(())
}

// Gives each of 16 clusters from `first` on the code of guest data, from guest cluster `guest` on, unless it
// has a code already.
fn place_each(window: &mut Window, first: u64, guest: u64) -> Result<(), Fault>
    requires first { first < 2 ^ 56 }
    requires guest { guest + 16 ≤ most_guest_clusters }
    ensures fault { IsOkUnless result NoMemory }
    ensures placed { OnOk result (PlacesMore (row_list first guest 16) window.old window.new) }
{
    for k in 0..TOGETHER as u64 {
        window.put(first + k, UseKind::Data, guest + k)?;
    }
    Ok(())
}

// Places the reference of the entry at an index of an L2 table. Returns false and changes nothing if a group
// begins with it, if it refers to several clusters, or if `Window::put_guest_if` can't place it.
#[inline(always)]
fn place_single(
    window: &mut Window,
    table: &L2Table,
    cluster_bits: u32,
    l1_index: usize,
    index: usize,
) -> bool
    requires cluster_bits { cluster_bits ≡ table.now.geometry.cluster_bits }
    requires l1_index { l1_index < most_l1_entries }
    requires index { index < length table.now.numbers }
    ensures taken { IsTrue result → TakesEntries PlacesMore table.now.geometry l1_index
        table.now.numbers index (index + 1) window.old window.new }
    ensures same { result ≡ false → window.new ≡ window.old }
{
    if index % TOGETHER == 0 || table.external_data_file() {
        return false;
    }
    prove!(index < table.entries());
    let entry = entry_at(table, index);
    let (first, last) = cluster_bounds(entry, cluster_bits);
    if first != last {
        return false;
    }
    let guest = GuestCluster::from_l1_l2_indices(l1_index, index, cluster_bits);
    window.put_guest_if(first, entry.is_compressed(), guest.0, refers(entry))
}

// A cluster keeps the code of its first reference.
impl UseSink for Window {
    ghost takes = { PlacesMore };

    // Several places of the walk call this, so the compiler inlines it only if told to. A call for each entry
    // would add half to the time of all the rest.
    #[inline(always)]
    fn take(&mut self, used: Use) -> Result<(), Fault> {
        place_clusters(self, used)
    }

    #[inline(always)]
    fn take_row(&mut self, first: HostCluster, guest: u64) -> Result<(), Fault> {
        if self.put_row(first.0, guest) {
            return Ok(());
        }
        place_each(self, first.0, guest)
    }

    fn take_table(&mut self, table: &L2Table, l1_index: usize) -> Result<(), Fault> {
        // Each is read once, since the compiler can't know that a cell's change leaves it.
        let (cluster_bits, entries) = (table.cluster_bits(), table.entries());
        let mut index = 0;
        while index < entries {
            if place_single(self, table, cluster_bits, l1_index, index) {
                index += 1;
            } else {
                index += self.take_some(table, l1_index, index)?;
            }
        }
        Ok(())
    }

    ghost takes_none = { λ s. Prim.grind arith };

    ghost takes_both = { λ first second a b c one other. record {
      owned = All-append IsOwned first second one.owned other.owned;
      first = Prim.grind (arith, one, other);
      end = Prim.grind (arith, one, other);
      cells = Prim.grind (arith, one, other, fold-append);
    } };
}

/// Places the clusters of all references of an image into a window. Reads each L2 table once: where a later
/// L1 entry names it too, all its clusters have a code already. `repeats` must be those of the L1 table.
///
/// Fails with the fault of an L2 table that doesn't load, or if memory runs out. Changes no byte.
pub(crate) fn place_image<S: Storage>(
    window: Window,
    image: &mut S,
    tables: &ImageTables<'_>,
    repeats: &Repeats,
) -> Result<Window, Fault>
    requires { AreTimesOf (table_names tables.now.l1) repeats.now }
    ensures reads { Reads (λ _. tt) result (all_load (geometry_of tables.now.header) tables.now.l1)
        IsEntryFault (S.state image.old) (S.state image.new) }
    ensures placed { IfOk result (λ placed. OnImage (S.state image.old) (λ bytes.
        PlacesMore (use_list tables.now bytes) window placed)) }
    ensures first { IfOk result (λ placed. placed.first ≡ window.first) }
{
    prove!(tables.header.cluster_bits() <= 21);
    prove!(tables.l1_table.entries() <= MAX_L1_ENTRIES);
    let mut placed = window;
    walk_tables(tables, &mut placed)?;
    walk_guest_once(tables, repeats, image, &mut placed)?;
    Ok(placed)
}
