//! Loads and writes of tables in pieces of 4096 bytes, counted from the table's start.

use super::fixtures::{COPIED, DISK, disk_of, load};
use qcow2_base::{Fault, MemStorage};
use qcow2_calls::write_table;
use qcow2_metadata::{L1Table, Table};
use qcow2_testing::{
    FailingStorage, StorageCall, each, filled_image, part_of, put, put_bytes, recorded, rows, same,
    same_bytes, same_image,
};
use std::alloc::Global;
use std::test::Fail;

/// The offset and the length of each piece of a table.
pub(crate) type Pieces = &'static [(u64, usize)];

// A table, given by its cluster and that cluster's offset, and its pieces.
#[derive(Clone, Copy, Debug)]
struct InPieces {
    cluster_bits: u32,
    cluster: u64,
    offset: u64,
    entries: usize,
    pieces: Pieces,
}

const TABLES: &[InPieces] = rows! { InPieces:
    { cluster_bits: 9, cluster: 8, offset: 4096, entries: 0, pieces: &[] },
    { cluster_bits: 9, cluster: 8, offset: 4096, entries: 1, pieces: &[(4096, 8)] },
    { cluster_bits: 9, cluster: 2, offset: 1024, entries: 64, pieces: &[(1024, 512)] },
    { cluster_bits: 9, cluster: 8, offset: 4096, entries: 511, pieces: &[(4096, 4088)] },
    { cluster_bits: 9, cluster: 8, offset: 4096, entries: 512, pieces: &[(4096, 4096)] },
    { cluster_bits: 9, cluster: 8, offset: 4096, entries: 1025, pieces: THREE_PIECES },
    // pieces at offsets that aren't multiples of 4096
    { cluster_bits: 9, cluster: 1, offset: 512, entries: 513, pieces: &[(512, 4096), (4608, 8)] },
    { cluster_bits: 9, cluster: 7, offset: 3584, entries: 1025,
        pieces: &[(3584, 4096), (7680, 4096), (11776, 8)] },
    { cluster_bits: 13, cluster: 1, offset: 8192, entries: 1024, pieces: &[(8192, 4096), (12288, 4096)] },
};

const THREE_PIECES: Pieces = &[(4096, 4096), (8192, 4096), (12288, 8)];

// Returns an image of bytes 0xa5 with `entries` entries from an offset on; any 4096 in a row differ from each
// other.
fn image_with_entries(alloc: Global, start: u64, entries: usize) -> Result<MemStorage, Fault> {
    let mut image = filled_image(alloc, 20000)?;
    for index in 0..entries {
        let place = start.wrapping_add((index as u64).wrapping_mul(8));
        let number = COPIED + 0x20_0000 * (1 + index as u64 % 4096);
        put(&mut image, place, number)?;
    }
    Ok(image)
}

/// Fails unless the calls read, or wrote, these pieces.
pub(crate) fn check_calls(
    alloc: Global,
    calls: &[StorageCall],
    pieces: Pieces,
    is_read: bool,
) -> Result<(), Fail> {
    let mut want = Vec::new(alloc);
    for piece in pieces {
        let (offset, len) = *piece;
        let (read, write) = (
            StorageCall::Read { offset, len },
            StorageCall::Write { offset, len },
        );
        want.push(if is_read { read } else { write })?;
    }
    same(calls, want.as_slice(), pieces)
}

// Writes the table to an image of other bytes, and fails unless the image then has the expected ones.
fn check_written(table: &mut L1Table, expected: &[u8], row: InPieces) -> Result<(), Fail> {
    let alloc = table.allocator();
    let mut image = recorded(alloc, filled_image(alloc, 20000)?);
    let answer = write_table(table, &mut image);
    same((answer, table.is_modified()), (Ok(()), false), row)?;
    check_calls(alloc, &image.calls, row.pieces, false)?;
    same_bytes(image.inner.bytes(), expected, row)
}

fn check_pieces(alloc: Global, row: InPieces) -> Result<(), Fail> {
    let entries = row.entries;
    let mut image = recorded(alloc, image_with_entries(alloc, row.offset, entries)?);
    let disk = disk_of(row.cluster_bits);
    let mut table: L1Table = load(alloc, &mut image, disk, row.cluster, entries)?;
    check_calls(alloc, &image.calls, row.pieces, true)?;
    check_written(&mut table, image.inner.bytes(), row)
}

#[test]
fn a_table_is_read_and_written_in_its_pieces(rt: HostRuntime) -> Result<(), Fail> {
    each(rt.alloc(), TABLES, check_pieces)
}

// The offset of a byte 1 that makes its entry invalid, and the number of pieces that a load reads.
const BAD: &[(u64, usize)] = &[(4103, 1), (8191, 1), (8199, 2), (12287, 2), (12295, 3)];

// Loads a table of 1025 entries from byte 4096 on, and checks its reads.
fn check_reads(alloc: Global, row: (u64, usize)) -> Result<(), Fail> {
    let (at, count) = row;
    let mut image = image_with_entries(alloc, 4096, 1025)?;
    put_bytes(&mut image, at, &[1])?;
    let mut image = recorded(alloc, image);
    image.plan = Some(count as u64);
    let answer: Result<L1Table, Fault> = load(alloc, &mut image, DISK, 8, 1025);
    same(answer.err(), Some(Fault::EntryReserved), at)?;
    check_calls(alloc, &image.calls, part_of(THREE_PIECES, 0, count)?, true)
}

#[test]
fn a_load_reads_no_piece_after_that_of_a_bad_entry(rt: HostRuntime) -> Result<(), Fail> {
    each(rt.alloc(), BAD, check_reads)
}

// Writes a table while the storage fails the write of its third piece, and then once more.
fn check_torn(table: &mut L1Table, image: &mut FailingStorage<MemStorage>) -> Result<(), Fail> {
    let alloc = table.allocator();
    image.plan = Some(2);
    let answer = write_table(table, image);
    let refused = (Err(Fault::Storage), true);
    same((answer, table.is_modified()), refused, "refused")?;
    let torn = image_with_entries(alloc, 4096, 1024);
    same_image(&image.inner, torn, "refused")?;
    let answer = write_table(table, image);
    same((answer, table.is_modified()), (Ok(()), false), "again")?;
    let whole = image_with_entries(alloc, 4096, 1025);
    same_image(&image.inner, whole, "again")
}

#[test]
fn a_write_torn_at_its_third_piece_is_made_whole_by_the_next(rt: HostRuntime) -> Result<(), Fail> {
    let mut image = image_with_entries(rt.alloc(), 4096, 1025)?;
    let mut table: L1Table = load(rt.alloc(), &mut image, DISK, 8, 1025)?;
    let mut other = recorded(rt.alloc(), filled_image(rt.alloc(), 20000)?);
    check_torn(&mut table, &mut other)
}
