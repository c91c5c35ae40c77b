//! Tests that the operating system's files behave as the proofs assume, as far as tests can show.

use super::files::open;
use super::{check_bytes, check_failed_read, check_failed_write, check_failures, write};
use qcow2_base::{Device, FileStorage};
use qcow2_testing::{file_holds, holds, same, temporary_file};
use std::fs;
use std::fs::OpenOptions;
use std::io::Write;
use std::test::Fail;

// A file system without room for such a length refuses the write, which counts as a failure.
#[test]
fn a_hole_reads_as_zeros_and_what_lies_past_it_as_written(rt: HostRuntime) -> Result<(), Fail> {
    let far: u64 = 3 << 40;
    let file = temporary_file(&rt, "hole", &[1, 2, 3])?;
    let mut storage = open(&rt, file.path.as_str(), true)?;
    if write(&mut storage, &[7, 8], far).is_err() {
        check_failures(rt.alloc(), &storage, 1)?;
        return file_holds(&rt, file.path.as_str(), &[1, 2, 3], "refused");
    }
    check_bytes(rt.alloc(), &mut storage, 1, &[2, 3, 0, 0])?;
    check_bytes(rt.alloc(), &mut storage, far / 2, &[0; 4])?;
    check_bytes(rt.alloc(), &mut storage, far - 2, &[0, 0, 7, 8, 0, 0])?;
    same(
        fs::metadata(&rt, file.path.as_str())?.len(),
        far + 2,
        "its length",
    )
}

#[test]
fn a_file_that_grows_meanwhile_reads_as_it_is_then(rt: HostRuntime) -> Result<(), Fail> {
    let file = temporary_file(&rt, "grows", &[1, 2, 3])?;
    let mut storage = open(&rt, file.path.as_str(), false)?;
    check_bytes(rt.alloc(), &mut storage, 1, &[2, 3, 0, 0])?;
    let mut other = OpenOptions::new()
        .append(true)
        .open(&rt, file.path.as_str())?;
    other.write_all(&[4, 5])?;
    check_bytes(rt.alloc(), &mut storage, 1, &[2, 3, 4, 5, 0])?;
    check_failures(rt.alloc(), &storage, 0)
}

// A file opened to append replaces no byte, so `FileStorage::open` opens none that way.
#[test]
fn a_file_opened_to_append_takes_writes_at_its_end_alone(rt: HostRuntime) -> Result<(), Fail> {
    let file = temporary_file(&rt, "append", &[1, 2, 3])?;
    let appended = OpenOptions::new()
        .read(true)
        .append(true)
        .open(&rt, file.path.as_str())?;
    same(
        write(&mut FileStorage::new(appended), &[9], 0),
        Ok(()),
        "appended",
    )?;
    file_holds(&rt, file.path.as_str(), &[1, 2, 3, 9], "appended")?;
    same(
        write(&mut open(&rt, file.path.as_str(), true)?, &[9], 0),
        Ok(()),
        "opened",
    )?;
    file_holds(&rt, file.path.as_str(), &[9, 2, 3, 9], "opened")
}

// ENOSPC. The device reads as zeros.
#[test]
fn a_device_without_room_fails_a_write(rt: HostRuntime) -> Result<(), Fail> {
    let mut storage = open(&rt, "/dev/full", true)?;
    check_failed_write(rt.alloc(), &mut storage, &[9; 4], 1, 1)?;
    check_bytes(rt.alloc(), &mut storage, 1, &[0; 4])?;
    check_failures(rt.alloc(), &storage, 1)
}

// EIO. No process has memory at the address 1.
#[test]
fn a_read_that_the_system_fails_is_counted(rt: HostRuntime) -> Result<(), Fail> {
    let mut storage = open(&rt, "/proc/self/mem", false)?;
    check_failed_read(rt.alloc(), &mut storage, 1)?;
    check_failed_read(rt.alloc(), &mut storage, 2)
}

#[test]
fn a_file_whose_folder_entry_goes_stays_until_it_is_closed(rt: HostRuntime) -> Result<(), Fail> {
    let file = temporary_file(&rt, "goes", &[1, 2, 3])?;
    let mut storage = open(&rt, file.path.as_str(), true)?;
    fs::remove_file(&rt, file.path.as_str())?;
    same(write(&mut storage, &[9], 1), Ok(()), "a write")?;
    same(storage.sync(), Ok(()), "a sync")?;
    same(storage.len(), Ok(Some(3)), "its length")?;
    check_bytes(rt.alloc(), &mut storage, 0, &[1, 9, 3, 0])?;
    holds(fs::metadata(&rt, file.path.as_str()).is_err(), "its name")
}
