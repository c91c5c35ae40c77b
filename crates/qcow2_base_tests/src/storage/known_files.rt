//! Storages over files in memory, whose bytes are known.

use super::{
    LIMIT, MIB, WRITES, Written, check_bytes, check_failed_write, check_failures, check_read, write,
};
use qcow2_base::{Device, FileStorage, ImageFiles, Storage};
use qcow2_testing::{KnownFile, KnownFiles, same};
use std::alloc::Global;
use std::test::Fail;

// The number of bytes that a file reads or writes at a time.
const STEPS: &[usize] = &[0, 1, 2, 3, 512, usize::MAX];

fn storage(alloc: Global, bytes: &[u8], step: usize) -> Result<FileStorage<KnownFile>, Fail> {
    Ok(FileStorage::new(KnownFile::new(Vec::from_slice(alloc, bytes)?, step)))
}

#[test]
fn short_reads_that_are_interrupted_give_all_bytes(rt: HostRuntime) -> Result<(), Fail> {
    for step in STEPS {
        check_read(
            rt.alloc(),
            &mut storage(rt.alloc(), &[1, 2, 3, 4, 5], *step)?,
        )?;
    }
    Ok(())
}

fn check_written(alloc: Global, step: usize, row: Written) -> Result<(), Fail> {
    let (offset, bytes) = row;
    let mut storage = storage(alloc, &[1, 2, 3], step)?;
    write(&mut storage, &[7, 8], offset)?;
    check_bytes(alloc, &mut storage, 0, bytes)?;
    check_bytes(alloc, &mut storage, bytes.len() as u64, &[0; 4])?;
    check_failures(alloc, &storage, 0)
}

#[test]
fn short_writes_that_are_interrupted_place_all_bytes(rt: HostRuntime) -> Result<(), Fail> {
    for row in WRITES {
        for step in STEPS {
            check_written(rt.alloc(), *step, *row)?;
        }
    }
    Ok(())
}

#[test]
fn two_mebibytes_are_written_and_read(rt: HostRuntime) -> Result<(), Fail> {
    let mut storage = storage(rt.alloc(), &[1; 1000], 65_537)?;
    let bytes = vec![in rt.alloc(); 7; 2 * MIB]?;
    write(&mut storage, &bytes, 999)?;
    check_bytes(rt.alloc(), &mut storage, 997, &[1, 1, 7, 7])?;
    check_bytes(rt.alloc(), &mut storage, 999, &bytes)?;
    check_bytes(
        rt.alloc(),
        &mut storage,
        997 + 2 * MIB as u64,
        &[7, 7, 0, 0],
    )
}

#[test]
fn a_write_that_a_file_has_no_room_for_is_counted(rt: HostRuntime) -> Result<(), Fail> {
    let mut storage = storage(rt.alloc(), &[1, 2, 3], 2)?;
    check_failed_write(rt.alloc(), &mut storage, &[9; 2], LIMIT - 2, 1)?;
    check_bytes(rt.alloc(), &mut storage, 0, &[1, 2, 3, 0])?;
    same(storage.sync(), Ok(()), "a sync")?;
    same(storage.len(), Ok(Some(3)), "its length")?;
    same(storage.failures(), 1, "failed calls")
}

#[test]
fn files_that_are_known_are_opened_by_path(rt: HostRuntime) -> Result<(), Fail> {
    let bytes = Vec::from_slice(rt.alloc(), &[1, 2, 3, 4, 5])?;
    let mut files = KnownFiles::new(rt.alloc(), bytes, 2);
    let mut image = files.open_image("any", false)?;
    check_read(rt.alloc(), &mut image)?;
    same(image.len(), Ok(Some(5)), "length")?;
    write(&mut image, &[7, 8], 4)?;
    same(image.len(), Ok(Some(6)), "length after a write")?;
    same(files.bytes(), &[1, 2, 3, 4, 5], "while the file is open")?;
    files.close_image("any", image);
    same(files.bytes(), &[1, 2, 3, 4, 7, 8], "once it is closed")
}
