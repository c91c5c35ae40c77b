//! Storages that read in pages, and the calls that reach the storage below.

use super::{LIMIT, READS as SMALL_READS, check_bytes, memory, read, write};
use qcow2_base::{Device, MemStorage, Storage, StorageFault};
use qcow2_buffered::BufferedStorage;
use qcow2_testing::{FailingStorage, StorageCall, each, filled_image, rows, same};
use std::alloc::{AllocError, Global};
use std::test::Fail;

type Buffered = BufferedStorage<FailingStorage<MemStorage>>;

// Returns an image of bytes 0xa5 that is read in pages for this cluster size. The storage below records its
// calls, and fails the planned one.
fn buffered(alloc: Global, cluster_size: usize, plan: Option<u64>) -> Result<Buffered, Fail> {
    let mut inner = FailingStorage::new(alloc, filled_image(alloc, 20000)?);
    inner.plan = plan;
    Ok(BufferedStorage::new(alloc, inner, cluster_size).map_err(|_| AllocError)?)
}

// The offset and the length of a read.
type Part = (u64, usize);

// Checks that just these reads reached the storage below.
fn check_reads(alloc: Global, storage: &Buffered, reads: &[Part]) -> Result<(), Fail> {
    let mut calls = Vec::new(alloc);
    for read in reads {
        let (offset, len) = *read;
        calls.push(StorageCall::Read { offset, len })?;
    }
    same(storage.inner().calls.as_slice(), calls.as_slice(), "calls")
}

// A cluster size, reads, and the reads that reach the storage below.
#[derive(Clone, Copy, Debug)]
struct InPages {
    cluster_size: usize,
    reads: &'static [Part],
    below: &'static [Part],
}

const READS: &[InPages] = rows! { InPages:
    // small clusters in one page
    { cluster_size: 512, reads: &[(512, 512), (1024, 512), (4096, 8)], below: &[(0, 4096), (4096, 4096)] },
    // parts of a table, in clusters of 64 KiB and in larger ones
    { cluster_size: 65536, reads: &[(65536, 4096), (69632, 4096), (73728, 8)], below: &[(65536, 65536)] },
    { cluster_size: 2097152, reads: &[(0, 4096), (4096, 4096)], below: &[(0, 65536)] },
    // a read that crosses pages, or is longer than one
    { cluster_size: 512, reads: &[(4090, 16), (4090, 6)], below: &[(4090, 16), (0, 4096)] },
    { cluster_size: 512, reads: &[(4096, 4097)], below: &[(4096, 4097)] },
    // the last possible page
    { cluster_size: 65536, reads: &[(LIMIT - 8, 8), (LIMIT - 4096, 4096)], below: &[(LIMIT - 65536, 65536)] },
    // a fifth page replaces the least recently read one
    { cluster_size: 4096,
        reads: &[(0, 8), (4096, 8), (8192, 8), (12288, 8), (8, 8), (20480, 8), (16, 8), (4104, 8)],
        below: &[(0, 4096), (4096, 4096), (8192, 4096), (12288, 4096), (20480, 4096), (4096, 4096)] },
};

fn check_in_pages(alloc: Global, row: InPages) -> Result<(), Fail> {
    let mut storage = buffered(alloc, row.cluster_size, None)?;
    for part in row.reads {
        let (offset, len) = *part;
        let mut found = vec![in alloc; 1; len]?;
        same(
            read(&mut storage, found.as_mut_slice(), offset),
            Ok(()),
            row,
        )?;
    }
    check_reads(alloc, &storage, row.below)
}

#[test]
fn pages_are_read_once_while_they_are_kept(rt: HostRuntime) -> Result<(), Fail> {
    each(rt.alloc(), READS, check_in_pages)
}

#[test]
fn a_read_through_pages_gives_the_bytes(rt: HostRuntime) -> Result<(), Fail> {
    let inner = memory(rt.alloc(), &[1, 2, 3, 4, 5])?;
    let mut storage = BufferedStorage::new(rt.alloc(), inner, 512).map_err(|_| AllocError)?;
    same((storage.mem_align(), storage.req_align()), (1, 1), "new")?;
    for (offset, bytes) in SMALL_READS {
        check_bytes(rt.alloc(), &mut storage, *offset, bytes)?;
    }
    write(&mut storage, &[9], 1)?;
    same(storage.into_inner().bytes(), &[1, 9, 3, 4, 5], "below")
}

#[test]
fn a_page_that_cannot_be_read_fails_the_read_and_is_not_kept(rt: HostRuntime) -> Result<(), Fail> {
    let mut storage = buffered(rt.alloc(), 512, Some(0))?;
    same(
        read(&mut storage, &mut [0; 4], 8),
        Err(StorageFault),
        "failed",
    )?;
    check_bytes(rt.alloc(), &mut storage, 8, &[0xa5; 4])?;
    check_reads(rt.alloc(), &storage, &[(0, 4096), (0, 4096)])
}

#[test]
fn no_page_is_kept_after_a_write(rt: HostRuntime) -> Result<(), Fail> {
    let mut storage = buffered(rt.alloc(), 512, Some(2))?;
    check_bytes(rt.alloc(), &mut storage, 0, &[0xa5; 4])?;
    same(write(&mut storage, &[7, 8], 1), Ok(()), "written")?;
    same(write(&mut storage, &[9], 2), Err(StorageFault), "failed")?;
    check_bytes(rt.alloc(), &mut storage, 0, &[0xa5, 7, 8, 0xa5])
}

#[test]
fn a_sync_through_pages_is_passed_on(rt: HostRuntime) -> Result<(), Fail> {
    let mut storage = buffered(rt.alloc(), 512, Some(1))?;
    let answers = (storage.sync(), storage.sync(), storage.sync());
    same(answers, (Ok(()), Err(StorageFault), Ok(())), "three calls")
}

#[test]
fn a_length_is_asked_of_the_storage_below_the_pages(rt: HostRuntime) -> Result<(), Fail> {
    let mut storage = buffered(rt.alloc(), 512, Some(1))?;
    let len = storage.inner().inner.bytes().len() as u64;
    let answers = (storage.len(), storage.len(), storage.len());
    same(
        answers,
        (Ok(Some(len)), Err(StorageFault), Ok(Some(len))),
        "three calls",
    )
}
