//! Storages over real files, and over failing ones.

use super::{
    LIMIT, WRITES, Written, check_bytes, check_failed_read, check_failed_write, check_failures,
    check_read, read, write,
};
use qcow2_base::{Device, Fault, FileStorage, Storage, StorageFault};
use qcow2_testing::{
    FaultyFile, FaultyFiles, file_holds, holds, rows, same, temporary_file, temporary_path,
};
use std::fs;
use std::fs::File;
use std::test::Fail;

pub(crate) fn open(
    rt: &HostRuntime,
    path: &str,
    writable: bool,
) -> Result<FileStorage<File>, Fault> {
    FileStorage::open(rt, path, writable)
}

fn check_refused(rt: &HostRuntime, path: &str) -> Result<(), Fail> {
    let found = (open(rt, path, false).err(), open(rt, path, true).err());
    same(found, (Some(Fault::Storage), Some(Fault::Storage)), path)
}

fn check_missing(rt: &HostRuntime, name: &str) -> Result<(), Fail> {
    let path = temporary_path(rt, name)?;
    check_refused(rt, path.as_str())?;
    holds(fs::metadata(rt, path.as_str()).is_err(), path)
}

#[test]
fn only_a_file_that_is_there_is_opened(rt: HostRuntime) -> Result<(), Fail> {
    check_missing(&rt, "missing")?;
    check_missing(&rt, "missing/file")?;
    check_refused(&rt, ".")?;
    check_refused(&rt, "")
}

#[test]
fn a_file_is_read_by_offset_with_zeros_past_its_end(rt: HostRuntime) -> Result<(), Fail> {
    let file = temporary_file(&rt, "read", &[1, 2, 3, 4, 5])?;
    check_read(rt.alloc(), &mut open(&rt, file.path.as_str(), false)?)
}

fn check_written(rt: &HostRuntime, path: &str, row: Written) -> Result<(), Fail> {
    let (offset, bytes) = row;
    fs::write(rt, path, &[1, 2, 3])?;
    let mut storage = open(rt, path, true)?;
    check_bytes(rt.alloc(), &mut storage, 1, &[2, 3])?;
    write(&mut storage, &[7, 8], offset)?;
    file_holds(rt, path, bytes, row)?;
    check_bytes(rt.alloc(), &mut storage, offset, &[7, 8])
}

#[test]
fn a_write_to_a_file_stands_at_its_offset(rt: HostRuntime) -> Result<(), Fail> {
    let file = temporary_file(&rt, "write", &[])?;
    for row in WRITES {
        check_written(&rt, file.path.as_str(), *row)?;
    }
    Ok(())
}

fn check_refused_writes(rt: &HostRuntime, path: &str) -> Result<(), Fail> {
    let mut storage = open(rt, path, false)?;
    check_failed_write(rt.alloc(), &mut storage, &[9; 4], 1, 1)?;
    check_failed_write(rt.alloc(), &mut storage, &[9; 4], 1, 2)?;
    same(write(&mut storage, &[], 900), Ok(()), "no bytes")?;
    check_bytes(rt.alloc(), &mut storage, 0, &[1, 2, 3, 0])?;
    check_failures(rt.alloc(), &storage, 2)
}

#[test]
fn a_file_opened_for_reading_refuses_a_write_that_has_bytes(rt: HostRuntime) -> Result<(), Fail> {
    let file = temporary_file(&rt, "read-only", &[1, 2, 3])?;
    check_refused_writes(&rt, file.path.as_str())
}

// Writes at the last offset, and returns whether that failed.
fn fails_at_the_end(rt: &HostRuntime, path: &str) -> Result<bool, Fail> {
    let mut storage = open(rt, path, true)?;
    let (failures, last) = match write(&mut storage, &[9], LIMIT - 1) {
        Ok(()) => (0, 9),
        Err(StorageFault) => (1, 0),
    };
    check_failures(rt.alloc(), &storage, failures)?;
    check_bytes(rt.alloc(), &mut storage, LIMIT - 4, &[0, 0, 0, last])?;
    Ok(failures > 0)
}

// Some file systems hold a file of 2^56 bytes with a hole in it, others refuse the offset.
#[test]
fn a_write_at_the_last_offset_stands_or_is_the_storage_fault(rt: HostRuntime) -> Result<(), Fail> {
    let file = temporary_file(&rt, "last-offset", &[1, 2, 3])?;
    let failed = fails_at_the_end(&rt, file.path.as_str())?;
    let len = fs::metadata(&rt, file.path.as_str())?.len();
    same(len, if failed { 3 } else { LIMIT }, failed)
}

// The number of calls of a file before one fails, if any; the number of bytes that it reads and writes at a
// time; and its end for reads.
type Plan = (Option<u64>, usize, u64);

fn faulty(
    rt: &HostRuntime,
    path: &str,
    plan: Plan,
) -> Result<FileStorage<FaultyFile<File>>, Fault> {
    let mut files = FaultyFiles::new(rt);
    (files.plan, files.step, files.end) = plan;
    FileStorage::open(&files, path, true)
}

fn check_short(rt: &HostRuntime, path: &str, step: usize) -> Result<(), Fail> {
    fs::write(rt, path, &[1, 2, 3, 4, 5])?;
    let mut storage = faulty(rt, path, (None, step, u64::MAX))?;
    check_bytes(rt.alloc(), &mut storage, 2, &[3, 4, 5, 0])?;
    same(write(&mut storage, &[6, 7, 8, 9], 2), Ok(()), "a write")?;
    file_holds(rt, path, &[1, 2, 6, 7, 8, 9], "written")
}

#[test]
fn short_reads_and_writes_are_gone_on_with(rt: HostRuntime) -> Result<(), Fail> {
    let file = temporary_file(&rt, "short", &[])?;
    for step in 1..6 {
        check_short(&rt, file.path.as_str(), step)?;
    }
    Ok(())
}

// A read of four bytes from a file that returns two at a time.
struct Asked {
    // The offset of the read, and the bytes there.
    offset: u64,
    bytes: [u8; 4],
    // The calls of the file that make the read fail. It seeks and reads twice, and asks for the length if the
    // second read returned no bytes. A seek to the end may fail.
    needs: &'static [u64],
}

const CALLS: &[Asked] = rows! { Asked:
    { offset: 1, bytes: [2, 3, 4, 5], needs: &[0, 1, 2, 3] },
    { offset: 3, bytes: [4, 5, 0, 0], needs: &[0, 1, 3, 4] },
};

fn check_failing_reads(rt: &HostRuntime, path: &str, row: &Asked) -> Result<(), Fail> {
    for passes in row.needs {
        let mut storage = faulty(rt, path, (Some(passes.saturating_add(1)), 2, u64::MAX))?;
        let answer = read(&mut storage, &mut [0; 4], row.offset);
        same(answer, Err(StorageFault), (row.offset, *passes))?;
        check_failures(rt.alloc(), &storage, 1)?;
        check_bytes(rt.alloc(), &mut storage, row.offset, &row.bytes)?;
    }
    Ok(())
}

// Opening a file asks for its metadata.
#[test]
fn an_open_or_a_read_fails_where_one_call_of_the_file_does(rt: HostRuntime) -> Result<(), Fail> {
    let file = temporary_file(&rt, "failed-read", &[1, 2, 3, 4, 5])?;
    let answer = faulty(&rt, file.path.as_str(), (Some(0), 2, u64::MAX));
    same(answer.err(), Some(Fault::Storage), "at its metadata")?;
    for row in CALLS {
        check_failing_reads(&rt, file.path.as_str(), row)?;
    }
    Ok(())
}

// Fails unless the write fails at this call of the file and leaves the bytes around its range, and a second
// write completes it, whatever the first one wrote.
fn check_failing_write(rt: &HostRuntime, path: &str, passes: u64) -> Result<(), Fail> {
    fs::write(rt, path, &[1, 2, 3, 4, 5, 6])?;
    let mut storage = faulty(rt, path, (Some(passes), 2, u64::MAX))?;
    check_failed_write(rt.alloc(), &mut storage, &[9; 4], 1, 1)?;
    same(ends_of(rt, path)?, (6, Some(1), Some(6)), "failed")?;
    same(write(&mut storage, &[9; 4], 1), Ok(()), "again")?;
    file_holds(rt, path, &[1, 9, 9, 9, 9, 6], "again")
}

// Returns the length of a file in bytes, its first byte, and its last.
fn ends_of(rt: &HostRuntime, path: &str) -> Result<(usize, Option<u8>, Option<u8>), Fail> {
    let bytes = fs::read(rt, path)?;
    Ok((bytes.len(), bytes.first().copied(), bytes.last().copied()))
}

// A write of four bytes, two at a time, makes six calls of a file: a seek, a write and a flush, twice.
#[test]
fn a_write_fails_where_one_call_of_the_file_does(rt: HostRuntime) -> Result<(), Fail> {
    let file = temporary_file(&rt, "failed-write", &[])?;
    for passes in 1..7 {
        check_failing_write(&rt, file.path.as_str(), passes)?;
    }
    Ok(())
}

#[test]
fn a_file_that_ends_before_its_length_is_no_zeros(rt: HostRuntime) -> Result<(), Fail> {
    let file = temporary_file(&rt, "early-end", &[1, 2, 3, 4, 5])?;
    for end in 0..5 {
        let mut storage = faulty(&rt, file.path.as_str(), (None, 2, end))?;
        check_failed_read(rt.alloc(), &mut storage, 1)?;
    }
    Ok(())
}

// Opening a file asks for its metadata; then a sync asks it to pass its bytes on to the device.
#[test]
fn a_sync_fails_where_that_of_the_file_does(rt: HostRuntime) -> Result<(), Fail> {
    let file = temporary_file(&rt, "sync", &[1, 2, 3])?;
    let mut storage = faulty(&rt, file.path.as_str(), (Some(1), 2, u64::MAX))?;
    same(storage.sync(), Err(StorageFault), "planned to fail")?;
    check_failures(rt.alloc(), &storage, 1)?;
    same(storage.sync(), Ok(()), "again")?;
    check_failures(rt.alloc(), &storage, 1)?;
    file_holds(&rt, file.path.as_str(), &[1, 2, 3], "after both")
}

// Opening a file asks for its metadata; then its length asks it to seek its end.
#[test]
fn a_length_fails_where_a_seek_of_the_file_does(rt: HostRuntime) -> Result<(), Fail> {
    let file = temporary_file(&rt, "length", &[1, 2, 3])?;
    let mut storage = faulty(&rt, file.path.as_str(), (Some(1), 2, u64::MAX))?;
    same(storage.len(), Err(StorageFault), "planned to fail")?;
    check_failures(rt.alloc(), &storage, 1)?;
    same(storage.len(), Ok(Some(3)), "again")?;
    check_failures(rt.alloc(), &storage, 1)
}
