//! Storages over bytes of the caller's.

use super::{LIMIT, check_bytes, check_failed_write, check_failures, check_read, read};
use qcow2_base::{SliceStorage, Storage};
use qcow2_testing::{each, rows, same, same_bytes};
use std::alloc::Global;
use std::test::Fail;

#[test]
fn a_slice_reads_as_the_image_of_its_bytes(rt: HostRuntime) -> Result<(), Fail> {
    check_read(rt.alloc(), &mut SliceStorage::new(&[1, 2, 3, 4, 5], 0))
}

// The offset of the bytes 1 to 4, the offset of a read, and the six bytes there.
const PLACED: &[(u64, u64, [u8; 6])] = rows! {
    (3, 0, [0, 0, 0, 1, 2, 3]), (3, 3, [1, 2, 3, 4, 0, 0]), (3, 5, [3, 4, 0, 0, 0, 0]),
    (3, 7, [0; 6]), (1, 0, [0, 1, 2, 3, 4, 0]), (6, 0, [0; 6]), (5, 0, [0, 0, 0, 0, 0, 1]),
    (1 << 40, (1 << 40) - 2, [0, 0, 1, 2, 3, 4]), (LIMIT - 2, LIMIT - 6, [0, 0, 0, 0, 1, 2]),
    (u64::MAX, 0, [0; 6]), (u64::MAX, LIMIT - 6, [0; 6]), (0, LIMIT - 6, [0; 6]),
};

fn check_placed(alloc: Global, row: (u64, u64, [u8; 6])) -> Result<(), Fail> {
    let (start, offset, bytes) = row;
    let mut storage = SliceStorage::new(&[1, 2, 3, 4], start);
    check_bytes(alloc, &mut storage, offset, &bytes)?;
    check_failures(alloc, &storage, 0)
}

#[test]
fn bytes_before_and_after_a_slice_are_zero(rt: HostRuntime) -> Result<(), Fail> {
    each(rt.alloc(), PLACED, check_placed)
}

// A slice as long as the largest cluster, read whole, and one byte past both ends.
#[test]
fn a_large_slice_is_read_whole(rt: HostRuntime) -> Result<(), Fail> {
    let alloc = rt.alloc();
    let bytes = vec![in alloc; 0x5a; 1 << 21]?;
    let mut storage = SliceStorage::new(bytes.as_slice(), 1 << 30);
    let mut found = vec![in alloc; 0xa5; (1 << 21) + 2]?;
    read(&mut storage, found.as_mut_slice(), (1 << 30) - 1)?;
    let last = found.len() - 1;
    same((found[0], found[last]), (0, 0), "beside the slice")?;
    same_bytes(&found[1..last], bytes.as_slice(), "the slice")
}

#[test]
fn each_write_to_a_slice_fails_and_changes_nothing(rt: HostRuntime) -> Result<(), Fail> {
    let alloc = rt.alloc();
    let mut storage = SliceStorage::new(&[1, 2, 3], 0);
    check_failed_write(alloc, &mut storage, &[7, 8], 0, 1)?;
    check_failed_write(alloc, &mut storage, &[], 1, 2)?;
    check_failed_write(alloc, &mut storage, &[7], LIMIT - 1, 3)?;
    check_bytes(alloc, &mut storage, 0, &[1, 2, 3, 0])?;
    check_failures(alloc, &storage, 3)
}
