//! The struct of all tables: a list of entries of one kind.

ghost use Rattle.std.specs.Prelude.{◌≡◌, ℕ, Bool, true, false, ◌≢◌, ◌+◌, ◌*◌, ◌^◌, ◌<◌, ◌≤◌, ◌↔◌, IfErr, IfOk, IsOkUnless, IsTrue, OnOk, length, map, slice_index, Some, None};
ghost use Rattle.std.proofs.Common.{refl};
ghost use Rattle.std.specs.List.{All};
ghost use Rattle.qcow2_base.specs.Format.{max_file_length, most_entries_in_memory};
ghost use Rattle.qcow2_base.specs.Storage.{OnImage};
ghost use Rattle.qcow2_base.specs.Types.{IsClusterBits};
ghost use Rattle.qcow2_base.specs.declared.fault.Fault.TheVariants.{NoMemory};
ghost use Rattle.qcow2_metadata.specs.Header.{geometry_of};
ghost use Rattle.qcow2_metadata.specs.Placed.{new_placed, with_number};
ghost use Rattle.qcow2_metadata.specs.Table.{IsEntryFault, first_fault, table_numbers, valid_numbers};
ghost use Rattle.qcow2_metadata.specs.Results.{Reads};
ghost use Rattle.qcow2_metadata.specs.Table.Growth.{grown_numbers};

use super::Table;
use super::reread::read_over;
use crate::placed::Placement;
use crate::{Header, TableEntry};
use qcow2_base::{Fault, HostCluster, HostOffset, Storage};
use std::alloc::{AllocError, Global};
use std::marker::Model;

/// The properties of one kind of table.
pub trait TableKind: TableEntry + Copy {
    /// The type of the entries for callers.
    type Entry: TableEntry + Copy;

    /// The name of this kind of table, for people.
    const NAME: &'static str;

    /// The greatest number of entries.
    const MAX_ENTRIES: usize;

    ghost MAX_ENTRIES: { ℕ };

    /// By cluster_bits: whether a table may have that many entries in memory.
    ghost has_valid_count: { ℕ → ℕ → Bool };

    /// Returns the entry 0, which is valid under each cluster size.
    fn cleared() -> Self
        ensures number { Self.plain result ≡ 0 }
        ensures lawful { (cb : ℕ) → Self.fault_of cb 0 ≡ None };

    /// Returns the entry in the type for callers.
    fn entry(self) -> Self::Entry
        ensures { Self.Entry.plain result ≡ Self.plain self };

    ghost few_entries: { MAX_ENTRIES ≤ most_entries_in_memory };
}

/// A table of entries of one kind. In contracts it is its `TableState`.
#[derive(Debug, Drop)]
pub struct EntryTable<E: TableKind> {
    entries: Vec<E>,
    pub(super) placement: Placement,
    cluster_bits: u32,
    pub(super) external_data_file: bool,
}

impl<E: TableKind> Model for EntryTable<E> {
    ghost use Rattle.std.specs.Prelude.{◌<◌, map};
    ghost use Rattle.qcow2_metadata.specs.Header.{geometry};
    ghost use Rattle.qcow2_metadata.specs.Table.{IsValidTable, TableState};

    ghost Value = { TableState };

    ghost view = { λ t. record {
      numbers = map E.plain t.entries.items;
      cluster = t.placement.cluster;
      modified = t.placement.modified;
      geometry = geometry t.cluster_bits t.external_data_file;
    } };

    ghost invariant = { λ t. IsValidTable
        (record { most = E.MAX_ENTRIES; has_valid_count = E.has_valid_count; fault_of = E.fault_of })
        t.cluster_bits t.placement.cluster (map E.plain t.entries.items) };
}

// Returns the entries, padded with entries 0 to `count`.
#[tactic(auto, using(crate::proofs::TableLemmas::paddings))]
fn padded<E: TableKind>(alloc: Global, entries: &[E], count: usize) -> Result<Vec<E>, AllocError>
    requires { length entries.now ≤ count }
    ensures numbers { IfOk result (λ list.
        map E.plain list.items ≡ grown_numbers (map E.plain entries.now) count) }
    ensures count { IfOk result (λ list. length list.items ≡ count) }
    ensures lawful { IfOk result (λ list. (cb : ℕ) →
        first_fault (E.fault_of cb) (map E.plain entries.now) ≡ None →
        first_fault (E.fault_of cb) (map E.plain list.items) ≡ None) }
{
    let mut list = Vec::with_capacity(alloc, count)?;
    list.extend_from_slice(entries)?;
    list.resize(count, E::cleared())?;
    Ok(list)
}

// Proves that each number fits 64 bits, since `to_plain` returns it as a `u64`. The compiler drops the loop,
// as it uses no result.
#[inline]
fn numbers_fit<E: TableEntry>(entries: &[E])
    ensures { All (λ v. v < 2 ^ 64) (map E.plain entries.now) }
{
    for entry in entries {
        let _ = entry.to_plain();
    }
}

impl<E: TableKind> EntryTable<E> {
    /// Whether the table has an entry at the index.
    #[inline]
    pub fn in_bounds(&self, index: usize) -> bool
        ensures { IsTrue result ↔ (index < length self.now.numbers) }
    {
        index < self.entries()
    }

    // Returns a table of `entries` entries, these and then zeros, for an image with this header.
    pub(super) fn grown(&self, entries: usize, header: &Header) -> Result<Self, Fault>
        requires cluster_bits { header.now.v2.cluster_bits ≡ self.now.geometry.cluster_bits }
        requires longer { length self.now.numbers ≤ entries }
        requires bound { entries ≤ most_entries_in_memory }
        requires count { IsTrue (E.has_valid_count header.now.v2.cluster_bits entries) }
        ensures fault { IsOkUnless result Fault.NoMemory }
        ensures table { IfOk result (λ table.
            table ≡ new_placed (grown_numbers self.now.numbers entries) (geometry_of header.now)) }
    {
        let alloc = *self.entries.allocator();
        let list = padded(alloc, self.entries.as_slice(), entries)?;
        Ok(Self::from_data(list, header))
    }

    // Returns the entries in order; all are valid.
    #[inline]
    pub(super) fn as_slice(&self) -> &[E]
        ensures numbers { map E.plain result.now ≡ self.now.numbers }
        ensures valid { first_fault (E.fault_of self.now.geometry.cluster_bits) self.now.numbers ≡ None }
        ensures bits { IsClusterBits self.now.geometry.cluster_bits }
    {
        self.entries.as_slice()
    }

    // Returns a table with these entries instead of its own, the same modified flag, and no cluster.
    pub(super) fn with_entries(&self, entries: Vec<E>) -> Self
        requires count { length entries.items ≡ length self.now.numbers }
        requires valid { first_fault (E.fault_of self.now.geometry.cluster_bits)
            (map E.plain entries.items) ≡ None }
        ensures { result ≡ record self.now { numbers = map E.plain entries.items; cluster = None } }
    {
        numbers_fit(&entries);
        let placement = Placement {
            cluster: None,
            modified: self.placement.modified,
        };
        EntryTable {
            entries,
            placement,
            cluster_bits: self.cluster_bits,
            external_data_file: self.external_data_file,
        }
    }

    // Replaces all entries by those of the image from an offset on. The table then has no cluster, and counts
    // as modified.
    pub(super) fn read_over<S: Storage>(
        &mut self,
        image: &mut S,
        header: &Header,
        offset: HostOffset,
    ) -> Result<(), Fault>
        requires end { offset.0 + 8 * length self.old.numbers ≤ max_file_length }
        requires cluster_bits { header.now.v2.cluster_bits ≡ self.old.geometry.cluster_bits }
        ensures reads { Reads (λ done. self.new.numbers) result
            (λ bytes. valid_numbers (E.fault_of header.now.v2.cluster_bits)
            (table_numbers bytes offset.0 (length self.old.numbers)))
            IsEntryFault (S.state image.old) (S.state image.new) }
        ensures numbers { OnOk result (OnImage (S.state image.old) (λ bytes.
            self.new.numbers ≡ table_numbers bytes offset.0 (length self.old.numbers))) }
        ensures memory { IfErr result (λ fault. fault ≢ NoMemory) }
        ensures table { self.new
            ≡ record self.old { numbers = self.new.numbers; cluster = None; modified = true } }
        ensures count { length self.new.numbers ≡ length self.old.numbers }
    {
        self.placement = Placement {
            cluster: None,
            modified: true,
        };
        let read = read_over(self.entries.as_mut_slice(), image, header, offset);
        numbers_fit(&self.entries);
        read
    }

    // Returns the entry at an index in the type for callers. The index must be in bounds.
    #[inline]
    #[tactic(auto, using(crate::proofs::TableLemmas::items))]
    pub(super) fn entry_within(&self, index: usize) -> E::Entry
        requires { index < length self.now.numbers }
        ensures number { E.Entry.plain result ≡ slice_index self.now.numbers index }
        ensures lawful { E.fault_of self.now.geometry.cluster_bits (E.Entry.plain result) ≡ None }
    {
        self.entries[index].entry()
    }

    // Replaces the entry at an index by a valid one, and returns the old one.
    pub(super) fn replace_entry(&mut self, index: usize, entry: E) -> E
        requires index { index < length self.old.numbers }
        requires valid { E.fault_of self.old.geometry.cluster_bits (E.plain entry) ≡ None }
        ensures before { E.plain result ≡ slice_index self.old.numbers index }
        ensures edit { self.new ≡ with_number self.old index (E.plain entry) }
    {
        // Proves that its number fits 64 bits.
        let _ = entry.to_plain();
        self.placement.modified = true;
        std::mem::replace(&mut self.entries[index], entry)
    }
}

impl<E: TableKind> Table for EntryTable<E> {
    type InternalEntry = E;

    type Entry = E::Entry;

    const NAME: &'static str = E::NAME;

    const MAX_ENTRIES: usize = E::MAX_ENTRIES;

    ghost MAX_ENTRIES = { E.MAX_ENTRIES };

    ghost state = { λ t. t };

    ghost kind = { record {
      most = E.MAX_ENTRIES;
      has_valid_count = E.has_valid_count;
      fault_of = E.fault_of;
    } };

    fn from_data(list: Vec<E>, header: &Header) -> Self
        requires valid { first_fault (E.fault_of header.now.v2.cluster_bits) (map E.plain list.items) ≡ None }
        requires count { IsTrue (E.has_valid_count header.now.v2.cluster_bits (length list.items)) }
        requires bound { length list.items ≤ most_entries_in_memory }
        ensures { result ≡ new_placed (map E.plain list.items) (geometry_of header.now) }
    {
        numbers_fit(&list);
        EntryTable {
            entries: list,
            placement: Placement {
                cluster: None,
                modified: true,
            },
            cluster_bits: header.cluster_bits(),
            external_data_file: header.external_data_file(),
        }
    }

    fn entries(&self) -> usize {
        self.entries.len()
    }

    fn get_ref(&self, index: usize) -> Option<&E> {
        self.entries.get(index)
    }

    fn get(&self, index: usize) -> E::Entry {
        match self.get_ref(index) {
            Some(entry) => entry.entry(),
            None => E::cleared().entry(),
        }
    }

    fn get_cluster(&self) -> Option<HostCluster> {
        self.placement.cluster
    }

    fn get_offset(&self) -> Option<HostOffset> {
        Some(self.placement.cluster?.offset(self.cluster_bits))
    }

    fn set_cluster(&mut self, cluster: HostCluster) {
        self.placement.cluster = Some(cluster);
        self.placement.modified = true;
    }

    fn unset_cluster(&mut self) {
        self.placement.cluster = None;
    }

    fn cluster_bits(&self) -> u32 {
        self.cluster_bits
    }

    fn is_modified(&self) -> bool {
        self.placement.modified
    }

    fn clear_modified(&mut self) {
        self.placement.modified = false;
    }

    fn set_modified(&mut self) {
        self.placement.modified = true;
    }

    fn allocator(&self) -> Global {
        *self.entries.allocator()
    }

    ghost few_entries = { E.few_entries };

    ghost most_are = { refl };

    ghost faults_are = { refl };
}
