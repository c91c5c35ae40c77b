//! The order of storage calls in edits of a disk, the image after a failed call, and the header, of which
//! only autoclear features change.

use crate::small_image::{
    OTHER_BLOCK, OTHER_TABLE, apply, discard, header_of, kept, map, small_image, zeros,
};
use qcow2_apply::GuestEdit;
use qcow2_base::{Fault, GuestOffset, HostCluster, MemStorage, Storage};
use qcow2_check::{Finding, Findings};
use qcow2_metadata::Header;
use qcow2_testing::sample_image::{BLOCK, L2_TABLE};
use qcow2_testing::{
    COPIED, Numbers, StorageCall, VERSION_2, each, printed, put_all, recorded, rows, same,
    same_image,
};
use std::alloc::{AllocError, Global};
use std::test::Fail;

// More storage calls than edits of the image make.
const MOST_CALLS: u64 = 64;

// Edits of a consistent image with these changes, and the writes and syncs that they make, without a sync
// before the first write or right after another.
#[derive(Clone, Copy)]
struct Ordered<'a> {
    name: &'a str,
    before: Numbers<'a>,
    edits: &'a [GuestEdit],
    calls: &'a [StorageCall],
}

// Changes that make the image consistent: data of both tables, in a cluster of each block.
const CONSISTENT: Numbers<'static> = &[(OTHER_TABLE, COPIED | 256 << 9), (OTHER_BLOCK, 1 << 48)];

const AUTOCLEAR: (u64, u64) = (88, 1);

// Compressed data of both tables in cluster 9, which has three references.
const COMPRESSED: Numbers<'static> = &[
    AUTOCLEAR,
    (L2_TABLE + 16, 1 << 62 | 9 << 9),
    (OTHER_TABLE + 8, 1 << 62 | 9 << 9),
    (OTHER_TABLE + 504, 1 << 62 | 9 << 9 | 16),
    (BLOCK + 16, 0x0000_0003_0000_0000),
];

// Writes: of the autoclear features, and of a whole table or block.
const CLEARED: StorageCall = StorageCall::Write { offset: 88, len: 8 };

macro_rules! written {
    ($place:expr) => {
        StorageCall::Write { offset: $place, len: 512 }
    };
}

const ORDERED: &[Ordered<'static>] = rows! { Ordered:
    { name: "no edits", before: &[], edits: &[], calls: &[] },
    { name: "no edits but features", before: &[AUTOCLEAR], edits: &[], calls: &[CLEARED, StorageCall::Sync] },
    { name: "maps and losses of both tables and blocks", before: &[AUTOCLEAR],
        edits: &[discard!(64, 1), map!(0 to 300), zeros!(3, 1), map!(127 to 8)],
        calls: &[CLEARED, StorageCall::Sync,
            written!(BLOCK), written!(OTHER_BLOCK), StorageCall::Sync,
            written!(L2_TABLE), written!(OTHER_TABLE), StorageCall::Sync,
            written!(BLOCK), written!(OTHER_BLOCK), StorageCall::Sync] },
    { name: "maps in the place of data", before: &[], edits: &[map!(64 to 8), map!(3 to 300)],
        calls: &[written!(BLOCK), written!(OTHER_BLOCK), StorageCall::Sync,
            written!(L2_TABLE), written!(OTHER_TABLE), StorageCall::Sync,
            written!(BLOCK), written!(OTHER_BLOCK), StorageCall::Sync] },
    { name: "losses alone", before: &[], edits: &[discard!(3, 1)],
        calls: &[written!(L2_TABLE), StorageCall::Sync, written!(BLOCK), StorageCall::Sync] },
    { name: "gains alone", before: &[], edits: &[map!(127 to 8)],
        calls: &[written!(BLOCK), StorageCall::Sync, written!(OTHER_TABLE), StorageCall::Sync] },
    { name: "entries alone", before: &[], edits: &[kept!(3, 1)],
        calls: &[written!(L2_TABLE), StorageCall::Sync] },
    { name: "a cluster that both tables lose", before: COMPRESSED, edits: &[discard!(0, 128)],
        calls: &[CLEARED, StorageCall::Sync,
            written!(L2_TABLE), written!(OTHER_TABLE), StorageCall::Sync,
            written!(BLOCK), written!(OTHER_BLOCK), StorageCall::Sync] },
    { name: "a map that is given up again", before: COMPRESSED,
        edits: &[map!(2 to 10), discard!(2, 1), map!(65 to 300)],
        calls: &[CLEARED, StorageCall::Sync,
            written!(BLOCK), written!(OTHER_BLOCK), StorageCall::Sync,
            written!(L2_TABLE), written!(OTHER_TABLE), StorageCall::Sync,
            written!(BLOCK), StorageCall::Sync] },
};

fn image_of(alloc: Global, before: Numbers<'_>) -> Result<MemStorage, Fault> {
    let mut image = small_image(alloc, CONSISTENT)?;
    put_all(&mut image, before)?;
    Ok(image)
}

// Returns the writes and syncs, without a sync before the first write or right after another.
fn writes_of(alloc: Global, calls: &[StorageCall]) -> Result<Vec<StorageCall>, AllocError> {
    let mut writes = Vec::new(alloc);
    let mut is_waited = true;
    for call in calls {
        let is_wait = *call == StorageCall::Sync;
        if !matches!(*call, StorageCall::Read { .. } | StorageCall::Len)
            && !(is_wait && is_waited)
        {
            writes.push(*call)?;
            is_waited = is_wait;
        }
    }
    Ok(writes)
}

fn check_ordered(alloc: Global, row: Ordered<'_>) -> Result<(), Fail> {
    let mut image = recorded(alloc, image_of(alloc, row.before)?);
    let mut header = header_of(alloc, &mut image.inner)?;
    same(
        apply(alloc, &mut image, &mut header, row.edits),
        Ok(()),
        row.name,
    )?;
    let found = writes_of(alloc, image.calls.as_slice())?;
    same(found.as_slice(), row.calls, row.name)
}

#[test]
fn gains_come_before_tables_and_losses_after_them(rt: HostRuntime) -> Result<(), Fail> {
    each(rt.alloc(), ORDERED, check_ordered)
}

// Returns the first cluster of an image with more references than its refcount says, if any.
fn first_undercounted<S: Storage>(alloc: Global, image: &mut S) -> Result<Option<Finding>, Fault> {
    let header = header_of(alloc, image)?;
    let mut findings = Findings::new(alloc, image, &header)?;
    for _ in 0..100 {
        let Some(finding) = findings.next(image)? else {
            return Ok(None);
        };
        if finding.counter < finding.uses {
            return Ok(Some(finding));
        }
    }
    Ok(None)
}

// Fails unless the header is that of the image.
fn check_header(
    alloc: Global,
    image: &mut MemStorage,
    header: &Header,
    name: &str,
) -> Result<(), Fail> {
    let found = printed(alloc, header)?;
    let expected = printed(alloc, &header_of(alloc, image)?)?;
    same(found.as_str(), expected.as_str(), name)
}

// Makes edits while the storage fails the call after the first `passes`, and returns whether there was one.
// No call may follow it: after a failed sync a write may reach the device before what the sync was for.
fn is_refused(alloc: Global, row: Ordered<'_>, passes: u64) -> Result<bool, Fail> {
    let mut image = recorded(alloc, image_of(alloc, row.before)?);
    let mut header = header_of(alloc, &mut image.inner)?;
    image.plan = Some(passes);
    let found = apply(alloc, &mut image, &mut header, row.edits);
    let is_refused = image.plan.is_none();
    let expected = if is_refused {
        Err(Fault::Storage)
    } else {
        Ok(())
    };
    same(found, expected, (row.name, passes))?;
    if is_refused {
        same(
            image.calls.len() as u64,
            passes.saturating_add(1),
            (row.name, passes),
        )?;
    }
    same(
        first_undercounted(alloc, &mut image.inner)?,
        None,
        (row.name, passes),
    )?;
    check_header(alloc, &mut image.inner, &header, row.name)?;
    Ok(is_refused)
}

fn check_refusals(alloc: Global, row: Ordered<'_>) -> Result<(), Fail> {
    for passes in 0..MOST_CALLS {
        if !is_refused(alloc, row, passes)? {
            return Ok(());
        }
    }
    Err(Fail::new("edits make ever more calls"))
}

#[test]
fn a_refused_call_is_the_last_and_leaves_no_counter_below_its_uses(
    rt: HostRuntime,
) -> Result<(), Fail> {
    each(rt.alloc(), ORDERED, check_refusals)
}

// Changes of the image's header.
#[derive(Clone, Copy)]
struct Featured<'a> {
    name: &'a str,
    header: Numbers<'a>,
}

const FEATURED: &[Featured<'static>] = rows! { Featured:
    { name: "no features", header: &[] },
    { name: "one", header: &[(88, 1)] },
    { name: "all", header: &[(88, u64::MAX)] },
    { name: "compatible ones, and an extension that is not known",
        header: &[(80, u64::MAX), (88, u64::MAX), (104, 7 << 32 | 8), (112, 7)] },
    { name: "what lies after the last extension", header: &[(88, 3), (112, 7), (504, u64::MAX)] },
    { name: "version 2", header: &[(0, VERSION_2), (88, 3)] },
};

fn check_featured(alloc: Global, row: Featured<'_>) -> Result<(), Fail> {
    let mut image = small_image(alloc, row.header)?;
    let mut header = header_of(alloc, &mut image)?;
    let found = apply(alloc, &mut image, &mut header, &[discard!(3, 1)]);
    same(found, Ok(()), row.name)?;
    let mut expected = small_image(alloc, row.header)?;
    put_all(
        &mut expected,
        &[(L2_TABLE + 24, 0), (BLOCK + 8, 0x0001_0000_0001_0001)],
    )?;
    if header.version() == 3 {
        put_all(&mut expected, &[(88, 0)])?;
    }
    check_header(alloc, &mut expected, &header, row.name)?;
    same_image(&image, Ok(expected), row.name)
}

#[test]
fn of_the_header_autoclear_features_are_cleared_alone(rt: HostRuntime) -> Result<(), Fail> {
    each(rt.alloc(), FEATURED, check_featured)
}
