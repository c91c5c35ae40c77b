//! Checks over a storage that fails one call, and repairs, which make no call after a failed one.

use crate::readers::{findings_of, flags_of, repaired};
use crate::sample_image::sample_image;
use qcow2_base::Fault;
use qcow2_testing::sample_image::{BLOCK, L1_TABLE, L2_TABLE, REFTABLE};
use qcow2_testing::{COPIED, Numbers, StorageCall, recorded, same, same_bytes};
use std::alloc::{AllocError, Global};
use std::test::Fail;

// More storage calls than a check or a repair of the sample image makes.
const MOST_CALLS: u64 = 64;

// A second L2 table and a second block, and entries with wrong flags, whose clusters belong to both blocks.
const TWO_TABLES: Numbers<'static> = &[
    (L1_TABLE + 8, 3072),
    (3072 + 504, L2_TABLE),
    (REFTABLE + 8, 3584),
    (3584, 0),
    (L2_TABLE + 32, COPIED | 300 << 9),
];

#[test]
fn each_refused_read_is_the_storage_fault_and_changes_nothing(rt: HostRuntime) -> Result<(), Fail> {
    let alloc = rt.alloc();
    let whole = sample_image(alloc, &[])?;
    let mut image = recorded(alloc, sample_image(alloc, &[])?);
    for refused in 0..MOST_CALLS {
        image.plan = Some(refused);
        let found = findings_of(alloc, &mut image);
        if image.plan.is_some() {
            return same(refused > 5 && found.is_ok(), true, refused);
        }
        same(found.err(), Some(Fault::Storage), refused)?;
        same_bytes(image.inner.bytes(), whole.bytes(), refused)?;
    }
    Err(Fail::new("a check makes ever more calls"))
}

#[test]
fn a_reader_of_flags_goes_on_after_a_refused_read(rt: HostRuntime) -> Result<(), Fail> {
    let alloc = rt.alloc();
    let all = flags_of(alloc, &mut sample_image(alloc, TWO_TABLES)?)?;
    let mut image = recorded(alloc, sample_image(alloc, TWO_TABLES)?);
    // whether an earlier iteration made a reader
    let mut is_made = false;
    for refused in 0..MOST_CALLS {
        image.plan = Some(refused);
        let found = flags_of(alloc, &mut image);
        if image.plan.is_some() {
            return same(is_made, true, refused);
        }
        match found {
            Ok(found) => {
                is_made = true;
                same(found.as_slice(), all.as_slice(), refused)?;
            }
            Err(fault) => same((fault, is_made), (Fault::Storage, false), refused)?,
        }
    }
    Err(Fail::new("a reader of flags makes ever more calls"))
}

// Work for each step of a repair: an autoclear feature and both marks; two entries with false flags that name
// cluster 5, whose refcount is too low; a leaked cluster; and late flags of the L2 table and of cluster 7.
const TO_REPAIR: Numbers<'static> = &[
    (72, 3),
    (88, 1),
    (L1_TABLE, L2_TABLE),
    (L2_TABLE + 32, COPIED | 5 << 9),
    (L2_TABLE + 40, 7 << 9),
    (BLOCK + 8, 0x0001_0001_0001_0001),
];

macro_rules! written {
    ($place:expr, $len:expr) => {
        StorageCall::Write { offset: $place, len: $len }
    };
}

// The writes and syncs of its repair: the header with its end, then cleared flags, raised refcounts, lowered
// refcounts, set flags, and cleared marks.
const REPAIRS: &[StorageCall] = &[
    written!(0, 112),
    StorageCall::Sync,
    written!(L2_TABLE, 512),
    StorageCall::Sync,
    written!(BLOCK, 512),
    StorageCall::Sync,
    written!(BLOCK, 512),
    StorageCall::Sync,
    written!(L1_TABLE, 16),
    written!(L2_TABLE, 512),
    StorageCall::Sync,
    written!(72, 8),
    StorageCall::Sync,
];

// Returns the writes and syncs among these calls.
fn writes_of(alloc: Global, calls: &[StorageCall]) -> Result<Vec<StorageCall>, AllocError> {
    let mut writes = Vec::new(alloc);
    for call in calls {
        if !matches!(*call, StorageCall::Read { .. } | StorageCall::Len) {
            writes.push(*call)?;
        }
    }
    Ok(writes)
}

#[test]
fn a_repair_waits_after_each_step(rt: HostRuntime) -> Result<(), Fail> {
    let alloc = rt.alloc();
    let mut image = recorded(alloc, sample_image(alloc, TO_REPAIR)?);
    same(repaired(alloc, &mut image), Ok(()), "repaired")?;
    let found = writes_of(alloc, image.calls.as_slice())?;
    same(found.as_slice(), REPAIRS, "writes")
}

#[test]
fn no_call_of_a_repair_follows_a_refused_one(rt: HostRuntime) -> Result<(), Fail> {
    let alloc = rt.alloc();
    for refused in 0..MOST_CALLS {
        let mut image = recorded(alloc, sample_image(alloc, TO_REPAIR)?);
        image.plan = Some(refused);
        let found = repaired(alloc, &mut image);
        if image.plan.is_some() {
            return same(
                (found, image.calls.len() as u64),
                (Ok(()), refused),
                refused,
            );
        }
        same(found, Err(Fault::Storage), refused)?;
        same(image.calls.len() as u64, refused + 1, refused)?;
    }
    Err(Fail::new("a repair makes ever more calls"))
}
