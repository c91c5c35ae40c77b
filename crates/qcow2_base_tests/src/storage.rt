//! Storages in memory, and helpers for tests of all storages.

mod buffered;
mod files;
mod known_files;
mod large_files;
mod real_files;
mod slices;

use qcow2_base::{Device, MemStorage, Storage, StorageFault};
use qcow2_testing::{FailingStorage, each, holds, printed, rows, same, same_bytes};
use std::alloc::Global;
use std::fmt::Debug;
use std::test::Fail;

// The largest end offset of a read or a write.
pub(crate) const LIMIT: u64 = 1 << 56;

// The bytes of a mebibyte.
pub(crate) const MIB: usize = 1 << 20;

fn memory(alloc: Global, bytes: &[u8]) -> Result<MemStorage, Fail> {
    Ok(MemStorage::new(Vec::from_slice(alloc, bytes)?))
}

// Checks that `failures` calls have failed, which no call reports, but `Debug` prints.
pub(crate) fn check_failures<S: Debug>(
    alloc: Global,
    storage: &S,
    failures: u32,
) -> Result<(), Fail> {
    let shown = printed(alloc, storage)?;
    let count = format!(in alloc; "failures: {failures} ")?;
    let found = shown.as_str().contains(count.as_str());
    holds(found, (failures, shown))
}

// Reads, and fails if the range ends past `LIMIT`.
fn read<S: Storage>(storage: &mut S, bytes: &mut [u8], offset: u64) -> Result<(), StorageFault> {
    if offset > LIMIT || bytes.len() as u64 > LIMIT - offset {
        return Err(StorageFault);
    }
    storage.read(bytes, offset)
}

// Writes, and fails if the range ends past `LIMIT`.
pub(crate) fn write<S: Storage>(
    storage: &mut S,
    bytes: &[u8],
    offset: u64,
) -> Result<(), StorageFault> {
    if offset > LIMIT || bytes.len() as u64 > LIMIT - offset {
        return Err(StorageFault);
    }
    storage.write(bytes, offset)
}

// Checks that a read returns these bytes, and that one into an empty buffer succeeds.
pub(crate) fn check_bytes<S: Storage>(
    alloc: Global,
    storage: &mut S,
    offset: u64,
    bytes: &[u8],
) -> Result<(), Fail> {
    let mut found = vec![in alloc; 0xa5; bytes.len()]?;
    read(storage, found.as_mut_slice(), offset)?;
    read(storage, &mut [], offset)?;
    same_bytes(&found, bytes, offset)
}

// Checks that a read of four bytes fails, as failure number `failures`.
pub(crate) fn check_failed_read<S: Storage + Debug>(
    alloc: Global,
    storage: &mut S,
    failures: u32,
) -> Result<(), Fail> {
    same(read(storage, &mut [0; 4], 1), Err(StorageFault), failures)?;
    check_failures(alloc, storage, failures)
}

// Checks that a write of these bytes fails, as failure number `failures`.
pub(crate) fn check_failed_write<S: Storage + Debug>(
    alloc: Global,
    storage: &mut S,
    bytes: &[u8],
    offset: u64,
    failures: u32,
) -> Result<(), Fail> {
    same(write(storage, bytes, offset), Err(StorageFault), failures)?;
    check_failures(alloc, storage, failures)
}

// An offset, and the four bytes there.
const READS: &[(u64, [u8; 4])] = rows! {
    (2, [3, 4, 5, 0]), (0, [1, 2, 3, 4]), (LIMIT - 4, [0; 4]), (1, [2, 3, 4, 5]), (4, [5, 0, 0, 0]),
    (900, [0; 4]), (5, [0; 4]), (0, [1, 2, 3, 4]),
};

// Checks that the storage reads as the bytes 1 to 5, with zeros past the end, and needs no alignment.
pub(crate) fn check_read<S: Storage + Debug>(alloc: Global, storage: &mut S) -> Result<(), Fail> {
    same((storage.mem_align(), storage.req_align()), (1, 1), "new")?;
    for (offset, bytes) in READS {
        check_bytes(alloc, storage, *offset, bytes)?;
    }
    check_failures(alloc, storage, 0)
}

#[test]
fn a_read_gives_the_bytes_and_zeros_past_the_end(rt: HostRuntime) -> Result<(), Fail> {
    let mut storage = memory(rt.alloc(), &[1, 2, 3, 4, 5])?;
    check_read(rt.alloc(), &mut storage)?;
    same_bytes(storage.bytes(), &[1, 2, 3, 4, 5], "after all reads")
}

// An offset, and the bytes after a write of 7 and 8 there.
pub(crate) type Written = (u64, &'static [u8]);

pub(crate) const WRITES: &[Written] = &[
    (0, &[7, 8, 3]),
    (1, &[1, 7, 8]),
    (2, &[1, 2, 7, 8]),
    (3, &[1, 2, 3, 7, 8]),
    (4, &[1, 2, 3, 0, 7, 8]),
    (7, &[1, 2, 3, 0, 0, 0, 0, 7, 8]),
];

fn check_written(alloc: Global, row: Written) -> Result<(), Fail> {
    let (offset, bytes) = row;
    let mut storage = memory(alloc, &[1, 2, 3])?;
    write(&mut storage, &[7, 8], offset)?;
    same_bytes(storage.bytes(), bytes, row)?;
    check_bytes(alloc, &mut storage, offset, &[7, 8])
}

#[test]
fn a_write_replaces_its_range_and_lengthens_with_zeros(rt: HostRuntime) -> Result<(), Fail> {
    each(rt.alloc(), WRITES, check_written)
}

// A storage in memory, below one that forwards calls to it and fails the second.
#[test]
fn a_sync_changes_nothing_and_a_failed_one_is_counted(rt: HostRuntime) -> Result<(), Fail> {
    let mut storage = FailingStorage::new(rt.alloc(), memory(rt.alloc(), &[1, 2, 3])?);
    storage.plan = Some(1);
    let answers = (storage.sync(), storage.sync(), storage.sync());
    same(answers, (Ok(()), Err(StorageFault), Ok(())), "three calls")?;
    same(storage.failures, 1, "failures")?;
    same(storage.inner.sync(), Ok(()), "in memory")?;
    same_bytes(storage.inner.bytes(), &[1, 2, 3], "after all")?;
    check_failures(rt.alloc(), &storage.inner, 0)
}

// The length of a storage over three bytes before, at and after a call that is planned to fail, and after a
// write of two more bytes.
#[test]
fn a_length_is_asked_for_and_a_failed_question_is_counted(rt: HostRuntime) -> Result<(), Fail> {
    let mut storage = FailingStorage::new(rt.alloc(), memory(rt.alloc(), &[1, 2, 3])?);
    storage.plan = Some(1);
    let answers = (storage.len(), storage.len(), storage.len());
    same(
        answers,
        (Ok(Some(3)), Err(StorageFault), Ok(Some(3))),
        "three calls",
    )?;
    same(storage.failures, 1, "failures")?;
    write(&mut storage, &[7, 8], 3)?;
    same(storage.len(), Ok(Some(5)), "after a write")?;
    check_failures(rt.alloc(), &storage.inner, 0)
}

// Checks a write up to 2^56, which is refused: no memory has room for such an image.
fn check_refused(alloc: Global, storage: &mut MemStorage, failures: u32) -> Result<(), Fail> {
    check_failed_write(alloc, storage, &[7, 8], LIMIT - 2, failures)?;
    same_bytes(storage.bytes(), &[1, 2, 3], failures)
}

fn check_refusals(alloc: Global, storage: &mut MemStorage) -> Result<(), Fail> {
    check_refused(alloc, storage, 1)?;
    check_refused(alloc, storage, 2)?;
    check_refused(alloc, storage, 3)?;
    let answers = (write(storage, &[], LIMIT), write(storage, &[7, 8], 1));
    same(answers, (Ok(()), Ok(())), "written")?;
    same_bytes(storage.bytes(), &[1, 7, 8], "written")?;
    check_failures(alloc, storage, 3)
}

#[test]
fn a_refused_growth_is_counted_and_changes_nothing(rt: HostRuntime) -> Result<(), Fail> {
    check_refusals(rt.alloc(), &mut memory(rt.alloc(), &[1, 2, 3])?)
}
