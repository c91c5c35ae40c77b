//! Writes one entry of a table with its neighbours, as many as the storage's alignment asks for, so that no
//! aligned storage has to read before it writes. All of them lie in the entry's cluster.

ghost use Rattle.std.specs.Prelude.{◌≡◌, ◌+◌, ◌*◌, ◌/◌, ◌^◌, ◌≤◌, length, IsOkUnless, OnOk, Some};
ghost use Rattle.qcow2_base.specs.Format.{max_file_length, most_entries_in_memory};
ghost use Rattle.qcow2_base.specs.Storage.{OnImages, OnlyWrites};
ghost use Rattle.qcow2_base.specs.Types.{IsClusterBits};
ghost use Rattle.qcow2_metadata.specs.Table.{table_numbers};
ghost use Rattle.qcow2_metadata.specs.Table.OneEntry.{EntryRange, IsPartOfCluster, WritesEntries, entry_alignment, numbers_in};

use super::Table;
use super::pieces::{PIECE_ENTRIES, encode};
use crate::pieces::PIECE_BYTES;
use qcow2_base::{Fault, HostOffset, Storage};

/// The size of an entry in bytes.
const ENTRY_BYTES: usize = 8;

// Returns the number of entries that a write of one entry takes along, itself included.
pub(super) fn entries_at_once<S: Storage>(image: &S, cluster_bits: u32) -> usize
    requires { IsClusterBits cluster_bits }
    ensures count { result ≡ entry_alignment cluster_bits (S.state image.now) / 8 }
    ensures part { IsPartOfCluster cluster_bits result }
{
    let alignment = image.mem_align().max(image.req_align()).max(ENTRY_BYTES);
    if alignment > 1 << cluster_bits {
        return 1;
    }
    alignment / ENTRY_BYTES
}

// Writes `count` entries from index `first` on to the image at an offset, and zeros past the table's end, by
// one call of the storage. Allocates a buffer if these are more than 4096 bytes.
pub(super) fn write_entries<T: Table, S: Storage>(
    table: &T,
    image: &mut S,
    offset: HostOffset,
    first: usize,
    count: usize,
) -> Result<(), Fault>
    requires first { first ≤ most_entries_in_memory }
    requires count { count ≤ 2 ^ 18 }
    requires fits { offset.0 + 8 * count ≤ max_file_length }
    ensures { WritesEntries result offset.0 (record { first = first; count = count })
        (T.state table.now).numbers (S.state image.old) (S.state image.new) }
{
    let len = ENTRY_BYTES * count;
    if count <= PIECE_ENTRIES {
        let mut array = [0u8; PIECE_BYTES];
        return write_through(table, image, offset, first, &mut array[..len]);
    }
    let mut buffer = vec![in table.allocator(); 0u8; len]?;
    write_through(table, image, offset, first, buffer.as_mut_slice())
}

// Writes the entries from index `first` on through a buffer of their length.
fn write_through<T: Table, S: Storage>(
    table: &T,
    image: &mut S,
    offset: HostOffset,
    first: usize,
    buffer: &mut [u8],
) -> Result<(), Fault>
    requires first { first ≤ most_entries_in_memory }
    requires fits { offset.0 + length buffer.old ≤ max_file_length }
    ensures fault { IsOkUnless result Fault.Storage }
    ensures written { OnOk result (OnImages (S.state image.old) (S.state image.new) (λ _ after.
        let range : EntryRange = record { first = first; count = length buffer.old / 8 } in
        table_numbers after offset.0 range.count ≡ numbers_in range (T.state table.now).numbers)) }
    ensures storage { OnlyWrites result (Some offset.0) (length buffer.old)
        (S.state image.old) (S.state image.new) }
{
    encode(table, first, buffer);
    image.write(buffer, offset.0)?;
    Ok(())
}
