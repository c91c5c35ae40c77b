//! Tables of entries. L1 tables, L2 tables and refcount tables differ only in their entries and the number of
//! these, so one trait loads and writes them all, and is proved once.

ghost use Rattle.std.specs.Prelude.{◌≡◌, ℕ, false, true, ◌+◌, ◌*◌, ◌^◌, ◌<◌, ◌≤◌, IsTrue, length, map, slice_index, slice_get, Option, Some, None, option_map, IfSome, IfOk, OnOk, MatchResult};
ghost use Rattle.std.specs.Int.{div_ceil};
ghost use Rattle.qcow2_base.specs.Format.{max_file_length, most_entries_in_memory};
ghost use Rattle.qcow2_base.specs.Types.{IsClusterBits};
ghost use Rattle.qcow2_base.specs.declared.types.HostOffset.{HostOffset as Offset};
ghost use Rattle.qcow2_metadata.specs.Header.{geometry_of};
ghost use Rattle.qcow2_metadata.specs.Placed.{FollowsWrite, IsLoaded, RefusesPlace, Writes, loaded_numbers, new_placed, offset_of};
ghost use Rattle.qcow2_metadata.specs.Results.{Reads};
ghost use Rattle.qcow2_metadata.specs.Table.{IsTableFault, IsValidTable, Kind, TableState, entries_fault, first_fault, layout_of_table, table_layout};
ghost use Rattle.qcow2_metadata.specs.Table.OneEntry.{WritesEntry};

use crate::pieces::Pieces;
use crate::placed::Placement;
use crate::range::range_offset;
use crate::{Header, TableEntry};
use qcow2_base::{ClusterCount, Fault, HostCluster, HostOffset, Storage};
use std::alloc::Global;

mod entry_table;
mod growth;
mod l1_table;
mod l2_guards;
mod l2_table;
mod one_entry;
mod pieces;
mod ref_table;
mod reread;

pub use entry_table::{EntryTable, TableKind};
pub use growth::{Turns, least_spare};
pub use l1_table::L1Table;
pub use l2_guards::{CompressedClusterReadGuard, L2TableWriteGuard};
pub use l2_table::L2Table;
use one_entry::{entries_at_once, write_entries};
use pieces::{TableBytes, read_entries};
pub use ref_table::RefTable;

/// A table in memory. Its entries are valid under the image's cluster size. It may have a place in the image,
/// given by its first cluster, and it knows whether it was changed since it was last read or written.
pub trait Table: Sized {
    /// The type of the entries in memory.
    type InternalEntry: TableEntry + Drop;
    /// The type of the entries for callers.
    type Entry: TableEntry + Copy;

    /// The name of this kind of table, for people.
    const NAME: &'static str;

    /// The greatest number of entries.
    const MAX_ENTRIES: usize;

    ghost MAX_ENTRIES: { ℕ };

    /// The table's state, as contracts see it.
    ghost state: { Self → TableState };

    /// The properties of this kind: the numbers of entries that it allows, and the numbers that are no valid
    /// entry.
    ghost kind: { Kind };

    /// Returns a table of these entries, without a cluster, which counts as modified. The entries must be
    /// valid under the header's cluster size, and their number one that the kind allows, 2^48 at most.
    fn from_data(list: Vec<Self::InternalEntry>, header: &Header) -> Self
        requires valid { first_fault (kind.fault_of header.now.v2.cluster_bits)
            (map Self.InternalEntry.plain list.items) ≡ None }
        requires count { IsTrue (kind.has_valid_count header.now.v2.cluster_bits (length list.items)) }
        requires bound { length list.items ≤ most_entries_in_memory }
        ensures { state result ≡ new_placed (map Self.InternalEntry.plain list.items)
            (geometry_of header.now) };

    /// Returns the number of entries.
    fn entries(&self) -> usize
        ensures count { result ≡ length (state self.now).numbers }
        ensures valid { let table = state self.now in
            IsValidTable kind table.geometry.cluster_bits table.cluster table.numbers };

    /// Returns the entry at an index, or `None` past the end.
    fn get_ref(&self, index: usize) -> Option<&Self::InternalEntry>
        ensures number { option_map (λ entry. Self.InternalEntry.plain entry.now) result
            ≡ slice_get (state self.now).numbers index }
        ensures lawful { IfSome result (λ entry.
            kind.fault_of (state self.now).geometry.cluster_bits
            (Self.InternalEntry.plain entry.now) ≡ None) };

    /// Returns the entry at an index, or the entry 0 past the end.
    fn get(&self, index: usize) -> Self::Entry
        ensures number { Self.Entry.plain result ≡ slice_index (state self.now).numbers index }
        ensures lawful { kind.fault_of (state self.now).geometry.cluster_bits
            (Self.Entry.plain result) ≡ None };

    /// Returns the table's first cluster in the image, or `None` if it has no place.
    fn get_cluster(&self) -> Option<HostCluster>
        ensures { result ≡ (state self.now).cluster };

    /// Returns the table's offset in the image, or `None` if it has no place.
    fn get_offset(&self) -> Option<HostOffset>
        ensures { option_map (λ (offset : Offset). offset.0) result
            ≡ option_map (offset_of (layout_of_table kind (state self.now))) (state self.now).cluster };

    /// Places the table at a cluster of the image, whose offset must fit 64 bits. The table then counts as
    /// modified.
    fn set_cluster(&mut self, cluster: HostCluster)
        requires { offset_of (layout_of_table kind (state self.old)) cluster < 2 ^ 64 }
        ensures { state self.new ≡ record (state self.old) { cluster = Some cluster; modified = true } };

    /// Removes the table's cluster. The modified flag stays.
    fn unset_cluster(&mut self)
        ensures { state self.new ≡ record (state self.old) { cluster = None } };

    /// Returns the logarithm of the cluster size in bytes, from 9 to 21.
    fn cluster_bits(&self) -> u32
        ensures value { result ≡ (state self.now).geometry.cluster_bits }
        ensures range { IsClusterBits result };

    /// Whether the table was changed since it was last read or written.
    fn is_modified(&self) -> bool
        ensures { result ≡ (state self.now).modified };

    /// Marks the table as equal to the image's.
    fn clear_modified(&mut self)
        ensures { state self.new ≡ record (state self.old) { modified = false } };

    /// Marks the table as different from the image's.
    fn set_modified(&mut self)
        ensures { state self.new ≡ record (state self.old) { modified = true } };

    /// Returns the allocator of the table's entries.
    fn allocator(&self) -> Global;

    /// Returns the table's length in the image, in bytes: eight for each entry.
    final fn byte_size(&self) -> usize
        ensures { result ≡ 8 * length (state self.now).numbers }
    {
        8 * self.entries()
    }

    /// Returns the number of clusters that the table takes in the image, rounded up.
    final fn cluster_count(&self) -> ClusterCount
        ensures { let table = state self.now in
            result.0 ≡ div_ceil (8 * length table.numbers) (2 ^ table.geometry.cluster_bits) }
    {
        ClusterCount::from_byte_size(self.byte_size() as u64, self.cluster_bits())
    }

    /// Loads the table of `entries` entries that begins with a cluster of the image, in pieces of 4096 bytes.
    /// It then has that cluster and doesn't count as modified. An L2 table has the header's `l2_entries()`.
    ///
    /// Refuses more entries than the kind allows (20), then an end past 2^56 (21), then the first entry with
    /// a reserved bit (18) or an unaligned offset (19), and reads nothing after the piece of that entry.
    /// Never changes a byte.
    final fn load<S: Storage>(
        alloc: Global,
        image: &mut S,
        header: &Header,
        cluster: HostCluster,
        entries: usize,
    ) -> Result<Self, Fault>
        requires { IsTrue (kind.has_valid_count header.now.v2.cluster_bits entries) }
        ensures refused { RefusesPlace (table_layout kind header.now.v2.cluster_bits entries) cluster result }
        ensures reads { let layout = table_layout kind header.now.v2.cluster_bits entries in
            Reads (λ table. (state table).numbers) result (loaded_numbers layout cluster)
            (IsTableFault layout cluster) (S.state image.old) (S.state image.new) }
        ensures loaded { IfOk result (λ table.
            IsLoaded (table_layout kind header.now.v2.cluster_bits entries) (geometry_of header.now) cluster
            (S.state image.old) (state table)) }
    {
        let offset = table_offset(cluster, header.cluster_bits(), entries, Self::MAX_ENTRIES)?;
        let list = read_entries(alloc, image, header, offset, entries)?;
        let mut table = Self::from_data(list, header);
        table.set_cluster(cluster);
        table.clear_modified();
        Ok(table)
    }

    /// Writes the table to the image, from its cluster on, in pieces of 4096 bytes.
    ///
    /// Refuses a table without a cluster (22), then more entries than the kind allows (20), then an end past
    /// 2^56 (21). After `Ok` the table doesn't count as modified. After a storage fault (34) it does, some
    /// pieces are written, the next one may have any bytes, and those after it are unchanged. Any other
    /// refusal changes nothing. Entries and cluster always stay, and no byte outside the table's place
    /// changes.
    final fn write<S: Storage>(&mut self, image: &mut S) -> Result<(), Fault>
        ensures written { let table = state self.old in
            Writes (layout_of_table kind table) table.numbers table.cluster result
            (S.state image.old) (S.state image.new) }
        ensures flag { FollowsWrite result (state self.old) (state self.new) }
    {
        let mut placement = Placement {
            cluster: self.get_cluster(),
            modified: self.is_modified(),
        };
        let written = placement.write(&TableBytes { table: self }, Pieces::All, image);
        if placement.modified {
            self.set_modified();
        } else {
            self.clear_modified();
        }
        written
    }

    /// Writes one entry of the table to the image, by one call of the storage. Writes the aligned bytes
    /// around it, counted from the table's start, with the table's entries and with zeros past its end. Their
    /// number is the greater of the storage's alignments, but at least 8, or 8 if that is more than a
    /// cluster. So no byte of another cluster than the entry's changes, whatever the alignments, which
    /// callers may not know. Allocates a buffer if it writes more than 4096 bytes. The index must be in
    /// bounds.
    ///
    /// Refuses what `write` refuses, then returns `NoMemory` (35) if memory runs out; neither changes
    /// anything. The table and its modified flag always stay.
    final fn write_entry<S: Storage>(&mut self, image: &mut S, index: usize) -> Result<(), Fault>
        requires { index < length (state self.old).numbers }
        ensures written { let table = state self.old in
            WritesEntry (layout_of_table kind table) index table.numbers table.cluster result
            (S.state image.old) (S.state image.new) }
        ensures table { state self.new ≡ state self.old }
    {
        let Some(cluster) = self.get_cluster() else {
            return Err(Fault::NoOffset);
        };
        let (cluster_bits, entries) = (self.cluster_bits(), self.entries());
        let offset = table_offset(cluster, cluster_bits, entries, Self::MAX_ENTRIES)?;
        let count = entries_at_once(image, cluster_bits);
        let first = index / count * count;
        let place = HostOffset(offset.0 + 8 * first as u64);
        write_entries(self, image, place, first, count)
    }

    ghost few_entries: { MAX_ENTRIES ≤ most_entries_in_memory };

    ghost most_are: { kind.most ≡ MAX_ENTRIES };

    ghost faults_are: { kind.fault_of ≡ Self.InternalEntry.fault_of };
}

// Returns the offset of a table with this number of entries. Refuses more than `most` (20), then an end past
// 2^56 (21).
fn table_offset(
    cluster: HostCluster,
    cluster_bits: u32,
    entries: usize,
    most: usize,
) -> Result<HostOffset, Fault>
    requires cluster_bits { IsClusterBits cluster_bits }
    requires most { most ≤ most_entries_in_memory }
    ensures place { MatchResult result
        (λ offset. entries_fault most (cluster.0 * 2 ^ cluster_bits) entries ≡ None)
        (λ fault. entries_fault most (cluster.0 * 2 ^ cluster_bits) entries ≡ Some fault) }
    ensures offset { IfOk result (λ offset. offset.0 ≡ cluster.0 * 2 ^ cluster_bits) }
    ensures fits { IfOk result (λ offset. offset.0 + 8 * entries ≤ max_file_length) }
    ensures count { OnOk result (entries ≤ most) }
{
    if entries > most {
        return Err(Fault::TableTooBig);
    }
    range_offset(cluster, cluster_bits, 8 * entries as u64)
}
