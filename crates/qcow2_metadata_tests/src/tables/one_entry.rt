//! Writes of one entry: their storage calls, and the bytes of the image that change.

use super::fixtures::{check_table, disk_of, loaded, table_with};
use qcow2_base::{Fault, MemStorage};
use qcow2_calls::write_entry;
use qcow2_metadata::{L1Table, Table};
use qcow2_testing::{
    FailingStorage, StorageCall, each, filled_image, put, put_bytes, recorded, rows, same,
    same_image,
};
use std::alloc::Global;
use std::test::Fail;

const NUMBER: u64 = 0x8000_0000_0001_0000;

// A table at a cluster, its only entry other than 0, and that entry's offset in the image; the alignment of
// the storage, in bits; and the offset and length of the written bytes.
#[derive(Clone, Copy, Debug)]
struct Written {
    cluster_bits: u32,
    cluster: u64,
    entries: usize,
    index: usize,
    place: u64,
    align_bits: u32,
    offset: u64,
    len: usize,
}

const AT_6496: Written = Written {
    cluster_bits: 9,
    cluster: 8,
    entries: 320,
    index: 300,
    place: 6496,
    align_bits: 0,
    offset: 6496,
    len: 8,
};

const WRITTEN: &[Written] = rows! { Written:
    { align_bits: 0, offset: 6496, len: 8, ..AT_6496 },
    { align_bits: 4, offset: 6496, len: 16, ..AT_6496 },
    { align_bits: 8, offset: 6400, len: 256, ..AT_6496 },
    { align_bits: 9, offset: 6144, len: 512, ..AT_6496 },
    // an alignment of more than a cluster
    { align_bits: 12, offset: 6496, len: 8, ..AT_6496 },
    { align_bits: 30, offset: 6496, len: 8, ..AT_6496 },
    // the written bytes past the table's end are zeros
    { cluster_bits: 9, cluster: 1, entries: 1, index: 0, place: 512, align_bits: 9, offset: 512, len: 512 },
    { cluster_bits: 12, cluster: 1, entries: 700, index: 699, place: 9688,
        align_bits: 12, offset: 8192, len: 4096 },
    // more bytes than a piece of a table
    { cluster_bits: 13, cluster: 1, entries: 1024, index: 1023, place: 16376,
        align_bits: 13, offset: 8192, len: 8192 },
};

// Returns an image of bytes 0xa5 with this alignment.
fn aligned_image(alloc: Global, bits: u32) -> Result<FailingStorage<MemStorage>, Fault> {
    let image = filled_image(alloc, 16384)?;
    Ok(recorded(alloc, image.with_align(1 << bits.min(30))))
}

// Returns the image after the write: bytes 0xa5, zeros in the written range, and the number at its offset.
fn image_after(alloc: Global, row: Written) -> Result<MemStorage, Fault> {
    let mut image = filled_image(alloc, 16384)?;
    put_bytes(
        &mut image,
        row.offset,
        vec![in alloc; 0; row.len]?.as_slice(),
    )?;
    put(&mut image, row.place, NUMBER)?;
    Ok(image)
}

// Writes the entry, and fails unless that takes one storage call.
fn check_write(table: &mut L1Table, row: Written) -> Result<(), Fail> {
    let mut image = aligned_image(table.allocator(), row.align_bits)?;
    let answer = write_entry(table, &mut image, row.index);
    let (offset, len) = (row.offset, row.len);
    let calls = [StorageCall::Write { offset, len }];
    let found = (answer, image.calls.as_slice());
    same(found, (Ok(()), calls.as_slice()), row)?;
    let expected = image_after(table.allocator(), row);
    same_image(&image.inner, expected, row)
}

// Checks a row. The modified flag is set for odd alignment bits.
fn check_written(alloc: Global, row: Written) -> Result<(), Fail> {
    let state = loaded(row.entries, row.index, NUMBER);
    let state = state.placed(Some(row.cluster), row.align_bits % 2 == 1);
    let mut table: L1Table = table_with(alloc, disk_of(row.cluster_bits), state)?;
    check_write(&mut table, row)?;
    check_table(&table, state, row)
}

#[test]
fn one_entry_is_written_with_its_aligned_bytes(rt: HostRuntime) -> Result<(), Fail> {
    each(rt.alloc(), WRITTEN, check_written)
}
