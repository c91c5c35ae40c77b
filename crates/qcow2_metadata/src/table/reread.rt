//! Reads entries over those of an existing table, and allocates nothing.

ghost use Rattle.std.specs.Prelude.{◌≡◌, ◌≢◌, ◌+◌, ◌++◌, ◌*◌, ◌/◌, ◌≤◌, length, map, take, None, Ok, Some, IfErr, OnErr, OnOk};
ghost use Rattle.qcow2_base.specs.Format.{max_file_length};
ghost use Rattle.qcow2_base.specs.Storage.{OnImage, image_of};
ghost use Rattle.qcow2_base.specs.declared.fault.Fault.TheVariants.{NoMemory};
ghost use Rattle.qcow2_metadata.specs.Results.{Reads};
ghost use Rattle.qcow2_metadata.specs.Table.{IsEntryFault, chunk_numbers, first_fault, table_numbers, valid_numbers};

use super::pieces::{PIECE_ENTRIES, check, number_of};
use crate::pieces::PIECE_BYTES;
use crate::range::read_range;
use crate::{Header, TableEntry};
use qcow2_base::{Fault, HostOffset, Storage};

/// Replaces valid entries by those of the image from an offset on, in pieces of 4096 bytes. Returns the fault
/// of the first invalid one, and reads nothing after its piece. The entries are valid afterwards in any case.
pub(super) fn read_over<E: TableEntry + Copy + Drop, S: Storage>(
    entries: &mut [E],
    image: &mut S,
    header: &Header,
    offset: HostOffset,
) -> Result<(), Fault>
    requires end { offset.0 + 8 * length entries.old ≤ max_file_length }
    requires valid { first_fault (E.fault_of header.now.v2.cluster_bits) (map E.plain entries.old) ≡ None }
    ensures reads { Reads (λ done. map E.plain entries.new) result
        (λ bytes. valid_numbers (E.fault_of header.now.v2.cluster_bits)
        (table_numbers bytes offset.0 (length entries.old)))
        IsEntryFault (S.state image.old) (S.state image.new) }
    ensures numbers { OnOk result (OnImage (S.state image.old) (λ bytes.
        map E.plain entries.new ≡ table_numbers bytes offset.0 (length entries.old))) }
    ensures memory { IfErr result (λ fault. fault ≢ NoMemory) }
    ensures valid { first_fault (E.fault_of header.now.v2.cluster_bits) (map E.plain entries.new) ≡ None }
    ensures count { length entries.new ≡ length entries.old }
{
    let count = entries.len();
    let mut buffer = [0u8; PIECE_BYTES];
    for piece in 0..count.div_ceil(PIECE_ENTRIES) {
        let first = PIECE_ENTRIES * piece;
        let bytes = &mut buffer[..8 * (count - first).min(PIECE_ENTRIES)];
        read_range(image, HostOffset(offset.0 + 8 * first as u64), bytes)?;
        decode_over(entries, first, bytes, header)?;
    }
    Ok(())
}

// Replaces the entries from index `first` on by those with the numbers in the bytes, or returns the fault of
// the first invalid number and replaces none.
fn decode_over<E: TableEntry + Copy + Drop>(
    entries: &mut [E],
    first: usize,
    bytes: &[u8],
    header: &Header,
) -> Result<(), Fault>
    requires room { 8 * first + length bytes.now ≤ 8 * length entries.old }
    requires whole { 8 * (length bytes.now / 8) ≡ length bytes.now }
    ensures numbers { OnOk result (take (first + length bytes.now / 8) (map E.plain entries.new)
        ≡ take first (map E.plain entries.old)
        ++ table_numbers (image_of bytes.now) 0 (length bytes.now / 8)) }
    ensures same { OnErr result (entries.new ≡ entries.old) }
    ensures valid { let fault = E.fault_of header.now.v2.cluster_bits in
        first_fault fault (map E.plain entries.old) ≡ None →
        first_fault fault (map E.plain entries.new) ≡ None }
    ensures refused { IfErr result (λ fault. IsEntryFault fault
        × (first_fault (E.fault_of header.now.v2.cluster_bits)
        (table_numbers (image_of bytes.now) 0 (length bytes.now / 8)) ≡ Some fault)) }
    ensures count { length entries.new ≡ length entries.old }
{
    let (chunks, _) = bytes.as_chunks::<8>();
    check::<E>(chunks, header)?;
    overwrite(entries, first, chunks, header);
    Ok(())
}

// Replaces the entries from index `first` on by those with these numbers, which must all be valid.
fn overwrite<E: TableEntry + Copy + Drop>(
    entries: &mut [E],
    first: usize,
    chunks: &[[u8; 8]],
    header: &Header,
)
    requires room { first + length chunks.now ≤ length entries.old }
    requires valid { first_fault (E.fault_of header.now.v2.cluster_bits) (chunk_numbers chunks.now) ≡ None }
    ensures numbers { take (first + length chunks.now) (map E.plain entries.new)
        ≡ take first (map E.plain entries.old) ++ chunk_numbers chunks.now }
    ensures valid { let fault = E.fault_of header.now.v2.cluster_bits in
        first_fault fault (map E.plain entries.old) ≡ None →
        first_fault fault (map E.plain entries.new) ≡ None }
    ensures count { length entries.new ≡ length entries.old }
{
    for index in 0..chunks.len() {
        entries[first + index] = E::from_lawful(number_of(&chunks[index]), header);
    }
}
