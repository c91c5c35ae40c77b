//! L2 tables that several L1 entries name, whose references count for each entry and which are read once, and
//! refcount blocks that several entries of the refcount table name.

use crate::layout::runs_of;
use crate::readers::{findings_of, flags_of};
use qcow2_base::{Fault, GuestOffset, HostCluster, MemStorage};
use qcow2_layout::{Part, Run};
use qcow2_testing::damages::{FoundCluster, FoundFlag, FoundPlace};
use qcow2_testing::{
    COPIED, FailingStorage, Numbers, VERSION_3, each, image_with, put_all, recorded, rows, same,
};
use std::alloc::Global;
use std::test::Fail;

const COMPRESSED: u64 = 1 << 62;

// The offsets of the L1 table, of the refcount table, of the only refcount block and of two L2 tables, in
// clusters of 64 KiB, and one in each L2 table that only a read of the whole table reaches.
const L1_TABLE: u64 = 0x1_0000;

const REFCOUNT_TABLE: u64 = 0x2_0000;

const BLOCK: u64 = 0x3_0000;

const TABLES: [u64; 2] = [0x5_0000, 0x6_0000];

const INNER: [u64; 2] = [0x5_2000, 0x6_2000];

// An image without findings. Its L1 entries 0, 3 and 5 name the second table, 1 and 4 the first one, and 2
// none. Guest data lies in clusters 7 and 10, compressed data in cluster 8.
const SAMPLE: Numbers<'static> = &[
    (0, VERSION_3),
    (16, 16),
    (24, 6 << 29),
    (32, 6),
    (40, L1_TABLE),
    (48, REFCOUNT_TABLE),
    (56, 1 << 32),
    (96, 0x0000_0004_0000_0068),
    (L1_TABLE, TABLES[1]),
    (L1_TABLE + 8, TABLES[0]),
    (L1_TABLE + 24, TABLES[1]),
    (L1_TABLE + 32, TABLES[0]),
    (L1_TABLE + 40, TABLES[1]),
    (REFCOUNT_TABLE, BLOCK),
    (BLOCK, 0x0001_0001_0001_0001),
    (BLOCK + 8, 0x0000_0002_0003_0003),
    (BLOCK + 16, 0x0003_0000_0002_0000),
    (TABLES[1], 7 << 16),
    (TABLES[1] + 8, COMPRESSED | 8 << 16 | 100),
    (TABLES[0] + 16, 10 << 16),
];

fn sample(alloc: Global, changes: Numbers<'_>) -> Result<FailingStorage<MemStorage>, Fault> {
    let mut image = image_with(alloc, 0x7_0000, SAMPLE)?;
    put_all(&mut image, changes)?;
    Ok(recorded(alloc, image))
}

fn reads_of_tables(image: &FailingStorage<MemStorage>) -> [usize; 2] {
    [image.reads_of(INNER[0]), image.reads_of(INNER[1])]
}

#[derive(Clone, Copy)]
struct Found<'a> {
    name: &'a str,
    changes: Numbers<'a>,
    clusters: &'a [FoundCluster],
}

macro_rules! cluster {
    ($cluster:expr, $counter:expr, $uses:expr, $shared:expr) => {
        FoundCluster {
            cluster: $cluster,
            counter: $counter,
            uses: $uses,
            shared: $shared,
        }
    };
}

const FOUND: &[Found<'static>] = rows! { Found:
    { name: "right refcounts", changes: &[], clusters: &[] },
    { name: "refcounts as if each table counted once",
        changes: &[(BLOCK + 8, 0x0000_0001_0001_0001), (BLOCK + 16, 0x0001_0000_0001_0000)],
        clusters: &[cluster!(5, 1, 2, false), cluster!(6, 1, 3, false), cluster!(7, 1, 3, false),
            cluster!(8, 1, 3, false), cluster!(10, 1, 2, false)] },
    { name: "both tables name a cluster",
        changes: &[(TABLES[0] + 24, 7 << 16), (TABLES[0] + 32, COMPRESSED | 7 << 16)],
        clusters: &[cluster!(7, 3, 7, false)] },
    { name: "a table names itself", changes: &[(TABLES[0] + 24, TABLES[0])],
        clusters: &[cluster!(5, 2, 4, true)] },
    { name: "clusters that no block counts", changes: &[(TABLES[1] + 16, 1 << 40)],
        clusters: &[cluster!(1 << 24, 0, 3, false)] },
    { name: "a block that the refcount table names again", changes: &[(REFCOUNT_TABLE + 16, BLOCK)],
        clusters: &[cluster!(3, 1, 2, true)] },
    { name: "a leak in such a block", changes: &[(REFCOUNT_TABLE + 16, BLOCK), (BLOCK + 24, 1 << 32)],
        clusters: &[cluster!(3, 1, 2, true), cluster!(13, 1, 0, false)] },
    { name: "used clusters in the later range of such a block",
        changes: &[(REFCOUNT_TABLE + 16, BLOCK), (TABLES[0] + 24, 0x1_0005_0000),
            (TABLES[0] + 32, 0x1_0006_0000), (TABLES[1] + 16, 0x1_0009_0000)],
        clusters: &[cluster!(3, 1, 2, true), cluster!(0x1_0006, 3, 2, false),
            cluster!(0x1_0009, 0, 3, false)] },
};

fn check_found(alloc: Global, row: Found<'_>) -> Result<(), Fail> {
    let mut image = sample(alloc, row.changes)?;
    let found = findings_of(alloc, &mut image)?;
    same(found.as_slice(), row.clusters, row.name)
}

#[test]
fn references_of_a_table_count_for_each_l1_entry_that_names_it(
    rt: HostRuntime,
) -> Result<(), Fail> {
    each(rt.alloc(), FOUND, check_found)
}

#[test]
fn a_check_counts_a_table_in_one_read(rt: HostRuntime) -> Result<(), Fail> {
    let mut image = sample(rt.alloc(), &[])?;
    findings_of(rt.alloc(), &mut image)?;
    same(reads_of_tables(&image), [1, 1], "reads of the tables")
}

#[derive(Clone, Copy)]
struct Flagged<'a> {
    name: &'a str,
    changes: Numbers<'a>,
    flags: &'a [FoundFlag],
}

macro_rules! false_flag {
    ($place:expr, $cluster:expr, $counter:expr) => {
        FoundFlag {
            place: $place,
            cluster: $cluster,
            counter: Some($counter),
            is_set: true,
        }
    };
}

const FLAGGED: &[Flagged<'static>] = rows! { Flagged:
    { name: "right flags", changes: &[], flags: &[] },
    { name: "false flags of L1 entries",
        changes: &[(L1_TABLE, COPIED | TABLES[1]), (L1_TABLE + 40, COPIED | TABLES[1])],
        flags: &[false_flag!(FoundPlace::L1Index(0), 6, 3), false_flag!(FoundPlace::L1Index(5), 6, 3)] },
    { name: "false flags of L2 entries, listed once",
        changes: &[(TABLES[1], COPIED | 7 << 16), (TABLES[0] + 16, COPIED | 10 << 16)],
        flags: &[false_flag!(FoundPlace::Offset(0), 7, 3),
            false_flag!(FoundPlace::Offset((1 << 29) + (2 << 16)), 10, 2)] },
};

fn check_flagged(alloc: Global, row: Flagged<'_>) -> Result<(), Fail> {
    let mut image = sample(alloc, row.changes)?;
    let found = flags_of(alloc, &mut image)?;
    same(found.as_slice(), row.flags, row.name)?;
    same(reads_of_tables(&image), [2, 2], row.name)
}

#[test]
fn a_wrong_flag_is_listed_once_and_its_table_read_twice(rt: HostRuntime) -> Result<(), Fail> {
    each(rt.alloc(), FLAGGED, check_flagged)
}

#[derive(Clone, Copy)]
struct Laid<'a> {
    name: &'a str,
    changes: Numbers<'a>,
    runs: &'a [Run],
    // How often each table is read: once for each window of clusters.
    reads: usize,
}

// Makes the runs of an image: those of its header and tables, with a free cluster between them, and then
// these, each from its first cluster, its number of clusters and its part.
macro_rules! runs {
    ($($first:literal + $count:literal $part:expr),* $(,)?) => {
        &[
            Run { first: HostCluster(0), count: 1, part: Part::Header },
            Run { first: HostCluster(1), count: 1, part: Part::L1Table },
            Run { first: HostCluster(2), count: 1, part: Part::RefcountTable },
            Run { first: HostCluster(3), count: 1, part: Part::RefcountBlock },
            Run { first: HostCluster(4), count: 1, part: Part::Free },
            Run { first: HostCluster(5), count: 2, part: Part::L2Table },
            $(Run { first: HostCluster($first), count: $count, part: $part }),*
        ]
    };
}

// Guest data of the first entry of the second table, which L1 entry 0 names, and of the third entry of the
// first table, which L1 entry 1 names.
const FIRST: Part = Part::Data(GuestOffset(0));

const THIRD: Part = Part::Data(GuestOffset((1 << 29) + (2 << 16)));

// The same, as L1 entries 3 and 4 name the tables.
const LATER_FIRST: Part = Part::Data(GuestOffset(3 << 29));

const LATER_THIRD: Part = Part::Data(GuestOffset((4 << 29) + (2 << 16)));

const LAID: &[Laid<'static>] = rows! { Laid:
    { name: "both tables named again", changes: &[], reads: 1,
        runs: runs! { 7 + 1 FIRST, 8 + 1 Part::Compressed, 9 + 1 Part::Free, 10 + 1 THIRD } },
    { name: "tables that later L1 entries alone name",
        changes: &[(L1_TABLE, 0), (L1_TABLE + 8, 0)], reads: 1,
        runs: runs! { 7 + 1 LATER_FIRST, 8 + 1 Part::Compressed, 9 + 1 Part::Free, 10 + 1 LATER_THIRD } },
    { name: "a cluster that both tables name",
        changes: &[(TABLES[0] + 16, 7 << 16), (TABLES[0] + 24, COMPRESSED | 7 << 16)], reads: 1,
        runs: runs! { 7 + 1 FIRST, 8 + 1 Part::Compressed, 9 + 1 Part::Free, 10 + 1 Part::Leaked } },
    { name: "a table that names itself and the other one",
        changes: &[(TABLES[0] + 24, TABLES[0]), (TABLES[0] + 32, TABLES[1])], reads: 1,
        runs: runs! { 7 + 1 FIRST, 8 + 1 Part::Compressed, 9 + 1 Part::Free, 10 + 1 THIRD } },
    { name: "a cluster of the second window", changes: &[(TABLES[1] + 16, 1 << 40)], reads: 2,
        runs: runs! { 7 + 1 FIRST, 8 + 1 Part::Compressed, 9 + 1 Part::Free, 10 + 1 THIRD,
            11 + 16777205 Part::Free, 16777216 + 1 Part::Data(GuestOffset(2 << 16)) } },
};

fn check_laid(alloc: Global, row: Laid<'_>) -> Result<(), Fail> {
    let mut image = sample(alloc, row.changes)?;
    let found = runs_of(alloc, &mut image)?;
    same(found.as_slice(), row.runs, row.name)?;
    same(reads_of_tables(&image), [row.reads; 2], row.name)
}

#[test]
fn a_layout_goes_by_the_first_l1_entry_and_reads_a_table_once(rt: HostRuntime) -> Result<(), Fail> {
    each(rt.alloc(), LAID, check_laid)
}

#[derive(Clone, Copy)]
struct Refused<'a> {
    name: &'a str,
    changes: Numbers<'a>,
    fault: Fault,
}

const REFUSED: &[Refused<'static>] = rows! { Refused:
    { name: "reserved bits in the table of L1 entry 1",
        changes: &[(TABLES[0] + 8, 1 << 57)], fault: Fault::EntryReserved },
    { name: "both tables, that of L1 entry 0 first",
        changes: &[(TABLES[0] + 8, 1 << 57), (TABLES[1] + 8, 512)], fault: Fault::EntryUnaligned },
};

fn check_refused(alloc: Global, row: Refused<'_>) -> Result<(), Fail> {
    let mut image = sample(alloc, row.changes)?;
    let found = findings_of(alloc, &mut image);
    same(found.err(), Some(row.fault), row.name)?;
    let laid = runs_of(alloc, &mut image);
    same(laid.err(), Some(row.fault), row.name)
}

#[test]
fn the_fault_is_that_of_the_first_l1_entry(rt: HostRuntime) -> Result<(), Fail> {
    each(rt.alloc(), REFUSED, check_refused)
}
