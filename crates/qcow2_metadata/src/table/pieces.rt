//! Reads and writes tables in pieces of 4096 bytes, through one array.

ghost use Rattle.std.specs.Prelude.{◌≡◌, ℕ, ◌⊎◌, ◌+◌, ◌++◌, ◌*◌, ◌/◌, ◌<◌, ◌≤◌, ◌↔◌, IsTrue, length, map, slice_index, None, Some, IfOk, IfErr, OnOk};
ghost use Rattle.qcow2_base.specs.Format.{max_file_length};
ghost use Rattle.qcow2_base.specs.Storage.{OnImage, be, image_of};
ghost use Rattle.qcow2_base.specs.declared.fault.Fault.TheVariants.{NoMemory};
ghost use Rattle.qcow2_metadata.specs.Results.{Reads};
ghost use Rattle.qcow2_metadata.specs.Table.{IsEntryFault, chunk_numbers, valid_numbers, first_fault, table_numbers};

use super::{Table, table_offset};
use crate::pieces::{PIECE_BYTES, Packed};
use crate::range::read_range;
use crate::{Header, TableEntry};
use qcow2_base::{Fault, HostCluster, HostOffset, Storage, write_be};
use std::alloc::{AllocError, Global};

/// The greatest number of entries of a table that one call reads or writes.
pub(super) const PIECE_ENTRIES: usize = PIECE_BYTES / 8;

// Returns the entries of the image from an offset on, or the fault of the first invalid one. Reads in pieces
// of 4096 bytes, and nothing after the piece of an invalid entry.
pub(super) fn read_entries<E: TableEntry + Drop, S: Storage>(
    alloc: Global,
    image: &mut S,
    header: &Header,
    offset: HostOffset,
    entries: usize,
) -> Result<Vec<E>, Fault>
    requires { offset.0 + 8 * entries ≤ max_file_length }
    ensures reads { Reads (λ list. map E.plain list.items) result
        (λ bytes. valid_numbers (E.fault_of header.now.v2.cluster_bits)
        (table_numbers bytes offset.0 entries))
        IsEntryFault (S.state image.old) (S.state image.new) }
    ensures numbers { OnImage (S.state image.old) (λ bytes.
        IfOk result (λ list. map E.plain list.items ≡ table_numbers bytes offset.0 entries)) }
    ensures lawful { IfOk result (λ list. (length list.items ≡ entries)
        × (first_fault (E.fault_of header.now.v2.cluster_bits) (map E.plain list.items) ≡ None)) }
{
    let mut list = Vec::with_capacity(alloc, entries)?;
    let mut buffer = [0u8; PIECE_BYTES];
    for piece in 0..entries.div_ceil(PIECE_ENTRIES) {
        let first = PIECE_ENTRIES * piece;
        let count = (entries - first).min(PIECE_ENTRIES);
        let bytes = &mut buffer[..8 * count];
        read_range(image, HostOffset(offset.0 + 8 * first as u64), bytes)?;
        decode(&mut list, bytes, header)?;
    }
    Ok(list)
}

// Appends the entries with the numbers in the bytes to the list, or returns the fault of the first invalid
// number.
fn decode<E: TableEntry + Drop>(
    list: &mut Vec<E>,
    bytes: &[u8],
    header: &Header,
) -> Result<(), Fault>
    ensures numbers { OnOk result (map E.plain list.new.items
        ≡ map E.plain list.old.items ++ table_numbers (image_of bytes.now) 0 (length bytes.now / 8)) }
    ensures valid { OnOk result (first_fault (E.fault_of header.now.v2.cluster_bits)
        (table_numbers (image_of bytes.now) 0 (length bytes.now / 8)) ≡ None) }
    ensures refused { IfErr result (λ fault. (fault ≡ NoMemory)
        ⊎ (first_fault (E.fault_of header.now.v2.cluster_bits)
        (table_numbers (image_of bytes.now) 0 (length bytes.now / 8)) ≡ Some fault)) }
    ensures faults { IfErr result (λ fault. IsEntryFault fault ⊎ (fault ≡ NoMemory)) }
{
    let (chunks, _) = bytes.as_chunks::<8>();
    check::<E>(chunks, header)?;
    append(list, chunks, header)?;
    Ok(())
}

#[inline]
#[tactic(auto, unfolding(qcow2_base::specs::Storage::be))]
pub(super) fn number_of(chunk: &[u8; 8]) -> u64
    ensures { result ≡ be (image_of chunk.now) 0 8 }
{
    u64::from_be_bytes(*chunk)
}

// Refuses numbers that aren't all valid, with the fault of the first invalid one.
pub(super) fn check<E: TableEntry + Drop>(chunks: &[[u8; 8]], header: &Header) -> Result<(), Fault>
    ensures valid { OnOk result
        (first_fault (E.fault_of header.now.v2.cluster_bits) (chunk_numbers chunks.now) ≡ None) }
    ensures refused { IfErr result (λ fault.
        first_fault (E.fault_of header.now.v2.cluster_bits) (chunk_numbers chunks.now) ≡ Some fault) }
    ensures faults { IfErr result IsEntryFault }
{
    if are_lawful::<E>(chunks, header) {
        return Ok(());
    }
    for chunk in chunks {
        E::try_from_plain(number_of(chunk), header)?;
    }
    Ok(())
}

// Whether all numbers are valid. Has no early exit, so that the compiler can test several at once.
fn are_lawful<E: TableEntry>(chunks: &[[u8; 8]], header: &Header) -> bool
    ensures { IsTrue result
        ↔ (first_fault (E.fault_of header.now.v2.cluster_bits) (chunk_numbers chunks.now) ≡ None) }
{
    let mut lawful = true;
    for chunk in chunks {
        lawful &= E::is_lawful(number_of(chunk), header);
    }
    lawful
}

// Appends the entries with these numbers, which must all be valid, to the list.
fn append<E: TableEntry + Drop>(
    list: &mut Vec<E>,
    chunks: &[[u8; 8]],
    header: &Header,
) -> Result<(), AllocError>
    requires { first_fault (E.fault_of header.now.v2.cluster_bits) (chunk_numbers chunks.now) ≡ None }
    ensures { OnOk result
        (map E.plain list.new.items ≡ map E.plain list.old.items ++ chunk_numbers chunks.now) }
{
    list.extend(
        chunks.iter().map(
            |chunk: &[u8; 8]| -> E
                requires { E.fault_of header.now.v2.cluster_bits (be (image_of chunk.now) 0 8) ≡ None }
                ensures { E.plain result ≡ be (image_of chunk.now) 0 8 }
            { E::from_lawful(number_of(chunk), header) },
        ),
    )
}

/// A table as its bytes in an image.
#[derive(Drop)]
pub(super) struct TableBytes<'a, T: Table> {
    pub(super) table: &'a T,
}

impl<'a, T: Table> Packed for TableBytes<'a, T> {
    ghost use Rattle.qcow2_metadata.specs.Table.{layout_of_table};

    ghost layout = { λ t. layout_of_table T.kind (T.state t.table.now) };

    ghost numbers = { λ t. (T.state t.table.now).numbers };

    fn byte_count(&self) -> usize {
        self.table.byte_size()
    }

    fn offset_at(&self, cluster: HostCluster) -> Result<HostOffset, Fault> {
        let entries = self.table.entries();
        table_offset(cluster, self.table.cluster_bits(), entries, T::MAX_ENTRIES)
    }

    fn pack(&self, piece: usize, buffer: &mut [u8]) {
        encode(self.table, PIECE_ENTRIES * piece, buffer);
    }
}

// Stores the numbers of the table's entries from index `first` on in the bytes, as many as fit, and zeros
// past the table's end.
pub(super) fn encode<T: Table>(table: &T, first: usize, bytes: &mut [u8])
    requires { first ≤ max_file_length }
    ensures written { (i : ℕ) → 8 * i + 8 ≤ length bytes.new →
        be (image_of bytes.new) (8 * i) 8 ≡ slice_index (T.state table.now).numbers (first + i) }
    ensures len { length bytes.new ≡ length bytes.old }
{
    let held = table.entries().saturating_sub(first).min(bytes.len() / 8);
    let (inside, outside) = bytes.split_at_mut(8 * held);
    encode_held(table, first, inside);
    outside.fill(0);
}

// Stores the numbers of entries in the bytes; all must be in the table.
fn encode_held<T: Table>(table: &T, first: usize, bytes: &mut [u8])
    requires within { (i : ℕ) → 8 * i + 8 ≤ length bytes.old →
        first + i < length (T.state table.now).numbers }
    requires bound { first ≤ max_file_length }
    ensures written { (i : ℕ) → 8 * i + 8 ≤ length bytes.new →
        be (image_of bytes.new) (8 * i) 8 ≡ slice_index (T.state table.now).numbers (first + i) }
    ensures len { length bytes.new ≡ length bytes.old }
{
    for index in 0..bytes.len() / 8 {
        let entry = table.get_ref(first + index).unwrap();
        write_be(bytes, 8 * index, &entry.to_plain());
    }
}
