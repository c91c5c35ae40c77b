//! Refused edits of a disk: the fault, also if several apply, and an unchanged image.

use crate::small_image::{OTHER_TABLE, apply, discard, header_of, kept, map, small_image, zeros};
use qcow2_apply::{GuestEdit, Plan};
use qcow2_base::{Fault, GuestOffset, HostCluster, MemStorage};
use qcow2_metadata::Header;
use qcow2_testing::sample_image::{BLOCK, L1_TABLE, L2_TABLE, REFTABLE, TABLE_TWICE};
use qcow2_testing::{COPIED, Numbers, VERSION_2, each, printed, put_all, rows, same, same_image};
use std::alloc::Global;
use std::test::Fail;

// Changes of the image, edits of its disk, and the fault, if any.
#[derive(Clone, Copy)]
struct Refused<'a> {
    name: &'a str,
    before: Numbers<'a>,
    edits: &'a [GuestEdit],
    fault: Option<Fault>,
}

// An autoclear feature, which a refusal doesn't clear.
const AUTOCLEAR: Numbers<'static> = &[(88, 2)];

// Version 2, and an external data file.
const OLD: (u64, u64) = (0, VERSION_2);

const EXTERNAL: (u64, u64) = (72, 4);

// A bad L1 entry; an L1 table, a refcount table and a block past the end; and a bad refcount table entry.
const BAD_L1_ENTRY: (u64, u64) = (L1_TABLE + 8, 1);

const FAR_L1_TABLE: (u64, u64) = (40, 1 << 56);

const FAR_REFTABLE: (u64, u64) = (48, 1 << 56);

const FAR_BLOCK: (u64, u64) = (REFTABLE + 8, 1 << 56);

const BAD_REFTABLE_ENTRY: (u64, u64) = (REFTABLE + 8, 256);

// Missing tables, tables whose L1 entry isn't their only reference, and tables that don't load.
const NO_TABLE: (u64, u64) = (L1_TABLE, 0);

const NO_OTHER_TABLE: (u64, u64) = (L1_TABLE + 8, 0);

const NOT_COPIED: (u64, u64) = (L1_TABLE, L2_TABLE);

const OTHER_NOT_COPIED: (u64, u64) = (L1_TABLE + 8, OTHER_TABLE);

const BAD_ENTRY: (u64, u64) = (L2_TABLE, 2);

const BAD_OTHER_ENTRY: (u64, u64) = (OTHER_TABLE + 504, 2);

// The refcounts of clusters 0 to 3, with refcount 0 for the table in cluster 2.
const NO_REFERENCE: (u64, u64) = (BLOCK, 0x0001_0001_0000_0001);

// A disk of 256 clusters, of which the L1 table covers the first 128.
const LONG_DISK: (u64, u64) = (24, 131072);

// Data in a cluster that no block counts, data in one with refcount 0, and compressed data there.
const UNCOUNTED: (u64, u64) = (L2_TABLE, COPIED | 600 << 9);

const FREE: (u64, u64) = (L2_TABLE, COPIED | 9 << 9);

const COMPRESSED: (u64, u64) = (L2_TABLE, 1 << 62 | 9 << 9);

const OTHER_COMPRESSED: (u64, u64) = (OTHER_TABLE, 1 << 62 | 9 << 9);

// Refcount 1 of cluster 9, and refcount 2.
const ONCE: (u64, u64) = (BLOCK + 16, 0x0000_0001_0000_0000);

const TWICE: (u64, u64) = (BLOCK + 16, 0x0000_0002_0000_0000);

const BY_HEADER: &[Refused<'static>] = rows! { Refused:
    { name: "no edits", before: &[], edits: &[], fault: None },
    { name: "a disk past the L1 table", before: &[LONG_DISK], edits: &[discard!(3, 1)],
        fault: Some(Fault::L1Short) },
    { name: "one past it by a byte", before: &[(24, 65537)], edits: &[discard!(3, 1)],
        fault: Some(Fault::L1Short) },
    { name: "one up to its end", before: &[(24, 65536)], edits: &[discard!(3, 1)], fault: None },
    { name: "one past it, and no edits", before: &[LONG_DISK], edits: &[], fault: Some(Fault::L1Short) },
    { name: "one past it, before an external data file", before: &[LONG_DISK, EXTERNAL],
        edits: &[discard!(3, 1)], fault: Some(Fault::L1Short) },
    { name: "one past it, before an edit that doesn't fit", before: &[LONG_DISK], edits: &[map!(0 to 0)],
        fault: Some(Fault::L1Short) },
    { name: "one past it, before a bad L1 entry", before: &[LONG_DISK, BAD_L1_ENTRY], edits: &[],
        fault: Some(Fault::L1Short) },
    { name: "a dirty image", before: &[(72, 1)], edits: &[discard!(3, 1)], fault: Some(Fault::Marked) },
    { name: "a corrupt one, and no edits", before: &[(72, 2)], edits: &[], fault: Some(Fault::Marked) },
    { name: "marks before a disk past the L1 table", before: &[LONG_DISK, (72, 3)],
        edits: &[map!(0 to 0)], fault: Some(Fault::Marked) },
    { name: "marks before an external data file", before: &[(72, 5)], edits: &[discard!(3, 126)],
        fault: Some(Fault::Marked) },
    { name: "an external data file", before: &[EXTERNAL], edits: &[discard!(3, 1)],
        fault: Some(Fault::ExternalData) },
    { name: "one, and no edits", before: &[EXTERNAL], edits: &[], fault: Some(Fault::ExternalData) },
    { name: "one before a range past the disk", before: &[EXTERNAL], edits: &[discard!(3, 126)],
        fault: Some(Fault::ExternalData) },
    { name: "a range past the disk", before: &[], edits: &[discard!(3, 1), discard!(3, 126)],
        fault: Some(Fault::BadEdit(1)) },
    { name: "the first of two that don't fit", before: &[], edits: &[map!(128 to 9), map!(0 to 0)],
        fault: Some(Fault::BadEdit(0)) },
    { name: "one before zeros in version 2", before: &[OLD], edits: &[zeros!(3, 1), map!(0 to 0)],
        fault: Some(Fault::BadEdit(1)) },
    { name: "zeros in version 2", before: &[OLD], edits: &[discard!(3, 1), zeros!(3, 1)],
        fault: Some(Fault::VersionNeeded) },
    { name: "kept ones", before: &[OLD], edits: &[kept!(3, 1)], fault: Some(Fault::VersionNeeded) },
    { name: "zeros in version 2 before a bad L1 entry", before: &[OLD, BAD_L1_ENTRY],
        edits: &[zeros!(3, 1)], fault: Some(Fault::VersionNeeded) },
    { name: "other edits in version 2", before: &[OLD], edits: &[discard!(3, 1), map!(0 to 9)],
        fault: None },
    { name: "a bad L1 entry", before: &[BAD_L1_ENTRY], edits: &[], fault: Some(Fault::EntryReserved) },
    { name: "one before a refcount table past the end", before: &[BAD_L1_ENTRY, FAR_REFTABLE],
        edits: &[discard!(3, 1)], fault: Some(Fault::EntryReserved) },
    { name: "an L1 table past the end before a bad refcount table entry",
        before: &[FAR_L1_TABLE, BAD_REFTABLE_ENTRY], edits: &[discard!(3, 1)],
        fault: Some(Fault::TablePlace) },
    { name: "a bad refcount table entry", before: &[BAD_REFTABLE_ENTRY], edits: &[],
        fault: Some(Fault::EntryReserved) },
    { name: "one before a table that isn't there", before: &[BAD_REFTABLE_ENTRY, NO_TABLE],
        edits: &[map!(0 to 9)], fault: Some(Fault::EntryReserved) },
    { name: "a block past the end before a table that has another reference",
        before: &[FAR_BLOCK, NOT_COPIED], edits: &[discard!(3, 1)], fault: Some(Fault::TablePlace) },
};

const BY_TABLE: &[Refused<'static>] = rows! { Refused:
    { name: "a map without a table", before: &[NO_TABLE], edits: &[map!(0 to 9)],
        fault: Some(Fault::NotPlaced) },
    { name: "zeros without a table", before: &[NO_TABLE], edits: &[discard!(0, 64), zeros!(63, 1)],
        fault: Some(Fault::NotPlaced) },
    { name: "a discard without a table", before: &[NO_TABLE], edits: &[discard!(0, 64)], fault: None },
    { name: "a table that has another reference, by its L1 entry", before: &[NOT_COPIED],
        edits: &[discard!(3, 1)], fault: Some(Fault::Shared(0)) },
    { name: "so by its counter", before: &[TABLE_TWICE], edits: &[discard!(64, 1), discard!(3, 1)],
        fault: Some(Fault::Shared(1)) },
    { name: "a table whose counter is 0", before: &[NO_REFERENCE], edits: &[discard!(3, 1)],
        fault: Some(Fault::Shared(0)) },
    { name: "one that isn't edited", before: &[NOT_COPIED, NO_REFERENCE], edits: &[discard!(64, 64)],
        fault: None },
    { name: "the first edit over the border", before: &[OTHER_NOT_COPIED],
        edits: &[discard!(3, 1), zeros!(63, 2), discard!(64, 1)], fault: Some(Fault::Shared(1)) },
    { name: "another reference before a bad entry", before: &[NOT_COPIED, BAD_ENTRY],
        edits: &[discard!(3, 1)], fault: Some(Fault::Shared(0)) },
    { name: "a bad entry", before: &[BAD_ENTRY], edits: &[discard!(3, 1)],
        fault: Some(Fault::EntryReserved) },
    { name: "one before a map of a cluster without a counter", before: &[BAD_ENTRY],
        edits: &[map!(0 to 512)], fault: Some(Fault::EntryReserved) },
    { name: "the first table without a table before the second's other reference",
        before: &[NO_TABLE, OTHER_NOT_COPIED], edits: &[discard!(64, 1), map!(0 to 9)],
        fault: Some(Fault::NotPlaced) },
    { name: "the first one's other reference before no second table", before: &[NOT_COPIED, NO_OTHER_TABLE],
        edits: &[map!(64 to 9), discard!(3, 1)], fault: Some(Fault::Shared(1)) },
    { name: "the first one's bad entry before the second's other reference",
        before: &[BAD_ENTRY, OTHER_NOT_COPIED], edits: &[discard!(64, 1), discard!(3, 1)],
        fault: Some(Fault::EntryReserved) },
    { name: "the first one's map before the second's bad entry", before: &[BAD_OTHER_ENTRY],
        edits: &[discard!(64, 1), map!(0 to 5)], fault: Some(Fault::BadEdit(1)) },
};

const BY_CLUSTER: &[Refused<'static>] = rows! { Refused:
    { name: "a map to the last cluster that has a counter", before: &[], edits: &[map!(0 to 511)],
        fault: None },
    { name: "one to the cluster after it", before: &[], edits: &[map!(0 to 512)],
        fault: Some(Fault::NotPlaced) },
    { name: "one to a cluster whose block isn't there", before: &[(REFTABLE + 8, 0)],
        edits: &[map!(0 to 300)], fault: Some(Fault::NotPlaced) },
    { name: "one to a cluster that is used", before: &[], edits: &[discard!(3, 1), map!(64 to 5)],
        fault: Some(Fault::BadEdit(1)) },
    { name: "one to the cluster that it has", before: &[], edits: &[map!(3 to 5)],
        fault: Some(Fault::BadEdit(0)) },
    { name: "one to a cluster that an edit before gave up", before: &[],
        edits: &[discard!(3, 1), map!(3 to 5)], fault: Some(Fault::BadEdit(1)) },
    { name: "two to one cluster", before: &[], edits: &[map!(0 to 9), map!(1 to 9)],
        fault: Some(Fault::BadEdit(0)) },
    { name: "two of one guest cluster", before: &[], edits: &[map!(0 to 9), map!(0 to 9)],
        fault: Some(Fault::BadEdit(0)) },
    { name: "two in two tables", before: &[], edits: &[map!(64 to 9), discard!(3, 1), map!(0 to 9)],
        fault: Some(Fault::BadEdit(2)) },
    { name: "two to one cluster without a counter", before: &[], edits: &[map!(0 to 512), map!(64 to 512)],
        fault: Some(Fault::NotPlaced) },
    { name: "the first of two that can't be", before: &[], edits: &[map!(0 to 5), map!(1 to 512)],
        fault: Some(Fault::BadEdit(0)) },
    { name: "the other one first", before: &[], edits: &[map!(1 to 512), map!(0 to 5)],
        fault: Some(Fault::NotPlaced) },
    { name: "zeros up to the last L1 entry", before: &[], edits: &[zeros!(64, 64)], fault: None },
};

const BY_COUNTER: &[Refused<'static>] = rows! { Refused:
    { name: "a lost cluster without a counter", before: &[UNCOUNTED], edits: &[discard!(0, 1)],
        fault: Some(Fault::CounterRange) },
    { name: "one whose block isn't there", before: &[(REFTABLE + 8, 0)], edits: &[zeros!(64, 1)],
        fault: Some(Fault::CounterRange) },
    { name: "one whose counter is 0", before: &[FREE], edits: &[zeros!(0, 1)],
        fault: Some(Fault::CounterRange) },
    { name: "one that keeps its reference", before: &[FREE, (L2_TABLE + 8, COPIED | 600 << 9)],
        edits: &[kept!(0, 2)], fault: None },
    { name: "compressed data that keeps none", before: &[COMPRESSED], edits: &[kept!(0, 1)],
        fault: Some(Fault::CounterRange) },
    { name: "a cluster that two tables lose, and one counts", before: &[COMPRESSED, OTHER_COMPRESSED, ONCE],
        edits: &[discard!(0, 128)], fault: Some(Fault::CounterRange) },
    { name: "that one reference of two", before: &[COMPRESSED, OTHER_COMPRESSED, ONCE],
        edits: &[discard!(0, 64)], fault: None },
    { name: "both, which are counted", before: &[COMPRESSED, OTHER_COMPRESSED, TWICE],
        edits: &[discard!(0, 128)], fault: None },
    { name: "a lost cluster that an edit maps", before: &[FREE], edits: &[discard!(0, 1), map!(64 to 9)],
        fault: None },
    { name: "another reference of the second table before it", before: &[UNCOUNTED, OTHER_NOT_COPIED],
        edits: &[discard!(0, 128)], fault: Some(Fault::Shared(0)) },
    { name: "a used cluster of the second table before it", before: &[FREE],
        edits: &[discard!(0, 1), map!(64 to 5)], fault: Some(Fault::BadEdit(1)) },
};

// Returns the image with these changes, and an autoclear feature.
fn image_of(alloc: Global, before: Numbers<'_>) -> Result<MemStorage, Fault> {
    let mut image = small_image(alloc, before)?;
    put_all(&mut image, AUTOCLEAR)?;
    Ok(image)
}

// Returns the fault of a plan, if it is refused.
fn plan_fault(
    alloc: Global,
    image: &mut MemStorage,
    header: &Header,
    edits: &[GuestEdit],
) -> Option<Fault> {
    Plan::new(alloc, image, header, edits).err()
}

// Fails if a plan, or refused edits, change a byte of the image or the header.
fn check_refused(alloc: Global, row: Refused<'_>) -> Result<(), Fail> {
    let mut image = image_of(alloc, row.before)?;
    let mut header = header_of(alloc, &mut image)?;
    let before = printed(alloc, &header)?;
    same(
        plan_fault(alloc, &mut image, &header, row.edits),
        row.fault,
        row.name,
    )?;
    same_image(&image, image_of(alloc, row.before), row.name)?;
    let found = apply(alloc, &mut image, &mut header, row.edits);
    same(found.err(), row.fault, row.name)?;
    if row.fault.is_none() {
        return Ok(());
    }
    same_image(&image, image_of(alloc, row.before), row.name)?;
    let after = printed(alloc, &header)?;
    same(after.as_str(), before.as_str(), row.name)
}

#[test]
fn edits_are_refused_by_the_header_and_its_tables(rt: HostRuntime) -> Result<(), Fail> {
    each(rt.alloc(), BY_HEADER, check_refused)
}

#[test]
fn then_by_the_tables_that_they_are_made_in(rt: HostRuntime) -> Result<(), Fail> {
    each(rt.alloc(), BY_TABLE, check_refused)
}

#[test]
fn then_by_the_clusters_that_they_map(rt: HostRuntime) -> Result<(), Fail> {
    each(rt.alloc(), BY_CLUSTER, check_refused)
}

#[test]
fn then_by_counters_that_cannot_follow(rt: HostRuntime) -> Result<(), Fail> {
    each(rt.alloc(), BY_COUNTER, check_refused)
}
