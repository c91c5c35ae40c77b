//! The refcounts in an image's own refcount blocks, and how often the blocks are read.

use crate::readers::{counters_of, flags_of, free_end_of};
use crate::sample_image::sample_image;
use qcow2_base::{Fault, MemStorage};
use qcow2_testing::damages::{FoundFlag, FoundPlace};
use qcow2_testing::sample_image::{BLOCK, REFTABLE};
use qcow2_testing::{FailingStorage, Numbers, each, image_with, put_all, recorded, rows, same};
use std::alloc::Global;
use std::test::Fail;

#[derive(Clone, Copy)]
struct Counted<'a> {
    name: &'a str,
    changes: Numbers<'a>,
    clusters: &'a [u64],
    counters: &'a [u64],
}

const COUNTED: &[Counted<'static>] = rows! { Counted:
    { name: "the first block", changes: &[(BLOCK + 504, 0x0002_0003_0004_ffff)],
        clusters: &[0, 5, 6, 252, 253, 254, 255], counters: &[1, 1, 0, 2, 3, 4, 65535] },
    { name: "clusters without a block", changes: &[],
        clusters: &[256, 1 << 14, 1 << 47, u64::MAX], counters: &[0, 0, 0, 0] },
    // the second block lies past the image's end and reads as zeros; the third is the first one again
    { name: "one block after another",
        changes: &[(REFTABLE + 8, 1 << 20), (REFTABLE + 16, BLOCK), (BLOCK + 8, 9 << 32)],
        clusters: &[5, 261, 517, 5, 261, 773], counters: &[9, 0, 9, 9, 0, 0] },
    { name: "counters of one bit", changes: &[(96, 0x68), (BLOCK, 0x8100_0000_0000_0000)],
        clusters: &[0, 1, 6, 7, 8, 55, 103, 4095, 4096], counters: &[1, 0, 0, 1, 0, 0, 0, 0, 0] },
    { name: "counters of 64 bits", changes: &[(96, 0x0000_0006_0000_0068), (BLOCK + 504, u64::MAX)],
        clusters: &[0, 63, 64], counters: &[0x0001_0001_0001_0001, u64::MAX, 0] },
};

fn check_counted(alloc: Global, row: Counted<'_>) -> Result<(), Fail> {
    let found = counters_of(alloc, &mut sample_image(alloc, row.changes)?, row.clusters)?;
    same(found.as_slice(), row.counters, row.name)
}

#[test]
fn a_counter_is_that_of_its_block_or_0(rt: HostRuntime) -> Result<(), Fail> {
    each(rt.alloc(), COUNTED, check_counted)
}

#[derive(Clone, Copy)]
struct Unreported<'a> {
    name: &'a str,
    changes: Numbers<'a>,
    from: u64,
    end: u64,
}

// The limit of clusters that are passed.
const LIMIT: u64 = 1 << 40;

// A block counts 256 clusters, and the refcount table has 64 entries.
const UNREPORTED: &[Unreported<'static>] = rows! { Unreported:
    { name: "the first block", changes: &[], from: 5, end: 5 },
    { name: "all after the first block", changes: &[], from: 256, end: LIMIT },
    { name: "up to a later block", changes: &[(REFTABLE + 24, 1 << 20)], from: 300, end: 768 },
    { name: "past a block named again", changes: &[(REFTABLE + 24, BLOCK)], from: 300, end: LIMIT },
    { name: "from within a block named again", changes: &[(REFTABLE + 8, BLOCK), (REFTABLE + 32, 1 << 20)],
        from: 400, end: 1024 },
    { name: "from the last cluster before the limit", changes: &[], from: LIMIT - 1, end: LIMIT },
    { name: "from the limit", changes: &[], from: LIMIT, end: LIMIT },
};

fn check_unreported(alloc: Global, row: Unreported<'_>) -> Result<(), Fail> {
    let mut image = sample_image(alloc, row.changes)?;
    same(
        free_end_of(alloc, &mut image, row.from, LIMIT)?,
        row.end,
        row.name,
    )
}

#[test]
fn ranges_of_which_nothing_is_reported_are_passed_at_once(rt: HostRuntime) -> Result<(), Fail> {
    each(rt.alloc(), UNREPORTED, check_unreported)
}

// The offsets of two refcount blocks in clusters of 64 KiB, and one in each that only a read of the whole
// block reaches.
const BLOCKS: [u64; 2] = [0x3_0000, 0x4_0000];

const INNER: [u64; 2] = [0x3_2000, 0x4_2000];

const COPIED: u64 = 1 << 63;

// An image with these blocks, whose eight L2 entries name clusters of both in turn. All refcounts are 1.
const IN_TURN: Numbers<'static> = &[
    (0, 0x5146_49fb_0000_0003),
    (16, 16),
    (24, 8 << 16),
    (32, 1),
    (40, 0x1_0000),
    (48, 0x2_0000),
    (56, 1 << 32),
    (96, 0x0000_0004_0000_0068),
    (0x1_0000, COPIED | 0x5_0000),
    (0x2_0000, BLOCKS[0]),
    (0x2_0008, BLOCKS[1]),
    (BLOCKS[0], 0x0001_0001_0001_0001),
    (BLOCKS[0] + 8, 0x0001_0001_0001_0001),
    (BLOCKS[0] + 16, 0x0001_0001_0000_0000),
    (BLOCKS[1], 0x0001_0001_0001_0001),
    (0x5_0000, COPIED | 6 << 16),
    (0x5_0008, COPIED | 32768 << 16),
    (0x5_0010, COPIED | 7 << 16),
    (0x5_0018, COPIED | 32769 << 16),
    (0x5_0020, COPIED | 8 << 16),
    (0x5_0028, COPIED | 32770 << 16),
    (0x5_0030, COPIED | 9 << 16),
    (0x5_0038, COPIED | 32771 << 16),
];

fn image_in_turn(alloc: Global, changes: Numbers<'_>) -> Result<FailingStorage<MemStorage>, Fault> {
    let mut image = image_with(alloc, 0x6_0000, IN_TURN)?;
    put_all(&mut image, changes)?;
    Ok(recorded(alloc, image))
}

fn reads_of_blocks(image: &FailingStorage<MemStorage>) -> [usize; 2] {
    [image.reads_of(INNER[0]), image.reads_of(INNER[1])]
}

#[test]
fn refcounts_of_blocks_in_turn_are_read_alone(rt: HostRuntime) -> Result<(), Fail> {
    let changes = [
        (BLOCKS[0], 0x0001_0002_0003_0004),
        (BLOCKS[1], 0x0005_0006_0007_0008),
    ];
    let mut image = image_in_turn(rt.alloc(), &changes)?;
    let clusters = [0, 32768, 1, 32769, 2, 32770, 3, 32771];
    let found = counters_of(rt.alloc(), &mut image, &clusters)?;
    same(found.as_slice(), &[1, 5, 2, 6, 3, 7, 4, 8], "in turn")?;
    same(reads_of_blocks(&image), [0, 0], "whole blocks")
}

#[test]
fn many_refcounts_of_a_block_read_it_once(rt: HostRuntime) -> Result<(), Fail> {
    let mut image = image_in_turn(rt.alloc(), &[])?;
    let found = counters_of(rt.alloc(), &mut image, &[6; 40])?;
    same(found.as_slice(), &[1; 40], "one cluster")?;
    same(reads_of_blocks(&image), [1, 0], "whole blocks")
}

#[test]
fn copied_flags_of_blocks_in_turn_read_each_block_once(rt: HostRuntime) -> Result<(), Fail> {
    let mut image = image_in_turn(rt.alloc(), &[(0x5_0018, 32769 << 16)])?;
    let found = flags_of(rt.alloc(), &mut image)?;
    let late = FoundFlag {
        place: FoundPlace::Offset(3 << 16),
        cluster: 32769,
        counter: Some(1),
        is_set: false,
    };
    same(found.as_slice(), &[late], "flags")?;
    same(reads_of_blocks(&image), [1, 1], "whole blocks")
}

// An offset in the L2 table that only a read of the whole table reaches.
const TABLE_INNER: u64 = 0x5_2000;

#[derive(Clone, Copy)]
struct TableReads {
    name: &'static str,
    changes: Numbers<'static>,
    flags: usize,
    reads: usize,
}

const TABLE_READS: &[TableReads] = &[
    TableReads {
        name: "no wrong flag",
        changes: &[],
        flags: 0,
        reads: 1,
    },
    TableReads {
        name: "a late flag of the last entry",
        changes: &[(0x5_0038, 32771 << 16)],
        flags: 1,
        reads: 2,
    },
    TableReads {
        name: "a false flag of the L1 entry",
        changes: &[(BLOCKS[0] + 8, 0x0001_0002_0001_0001)],
        flags: 1,
        reads: 2,
    },
];

fn check_table_reads(alloc: Global, row: TableReads) -> Result<(), Fail> {
    let mut image = image_in_turn(alloc, row.changes)?;
    let found = flags_of(alloc, &mut image)?;
    same(found.len(), row.flags, row.name)?;
    same(image.reads_of(TABLE_INNER), row.reads, row.name)
}

#[test]
fn a_table_is_read_again_only_for_a_wrong_flag(rt: HostRuntime) -> Result<(), Fail> {
    each(rt.alloc(), TABLE_READS, check_table_reads)
}
