//! The runs of a layout.

use super::calls::runs_of;
use crate::sample_image::sample_image;
use qcow2_base::{GuestOffset, HostCluster};
use qcow2_layout::{Part, Run};
use qcow2_testing::sample_image::{
    BLOCK, KEYS, KEYS_LENGTH, KEYS_OFFSET, L1_TABLE, L2_TABLE, LAST, LUKS, NEXT_ENTRY, REFTABLE,
};
use qcow2_testing::{COPIED, Numbers, VERSION_3, each, image_with, rows, same};
use std::alloc::Global;
use std::test::Fail;

#[derive(Clone, Copy)]
struct Laid<'a> {
    name: &'a str,
    changes: Numbers<'a>,
    // The runs that follow the five clusters of header and tables.
    runs: &'a [Run],
}

// Makes runs, each from its first cluster, its number of clusters and its part.
macro_rules! runs {
    ($($first:literal + $count:literal $part:expr),* $(,)?) => {
        &[$(Run { first: HostCluster($first), count: $count, part: $part }),*]
    };
}

// Data of guest cluster 3, and of the guest cluster of the next entry.
const FIRST: Part = Part::Data(GuestOffset(1536));

const NEXT: Part = Part::Data(GuestOffset(2048));

// The clusters of the sample image before its data.
const TABLES: &[Run] = runs! { 0 + 1 Part::Header, 1 + 1 Part::L1Table, 2 + 1 Part::L2Table,
    3 + 1 Part::RefcountTable, 4 + 1 Part::RefcountBlock };

const GUEST: &[Laid<'static>] = rows! { Laid:
    { name: "a cluster of data", changes: &[], runs: runs! { 5 + 1 FIRST } },
    { name: "data in a row", changes: &[(NEXT_ENTRY, 3072), (NEXT_ENTRY + 8, 3584)],
        runs: runs! { 5 + 3 FIRST } },
    { name: "data against the guest's order", changes: &[(NEXT_ENTRY, 2560), (L2_TABLE + 24, 3072)],
        runs: runs! { 5 + 1 NEXT, 6 + 1 FIRST } },
    { name: "data with a gap in the guest's disk", changes: &[(NEXT_ENTRY + 8, 3072)],
        runs: runs! { 5 + 1 FIRST, 6 + 1 Part::Data(GuestOffset(2560)) } },
    { name: "data that a lower entry names too", changes: &[(L2_TABLE, 2560)],
        runs: runs! { 5 + 1 Part::Data(GuestOffset(0)) } },
    { name: "data that a higher entry names too", changes: &[(NEXT_ENTRY, 2560)],
        runs: runs! { 5 + 1 FIRST } },
    { name: "data that the second L2 table names too",
        changes: &[(L1_TABLE + 8, 3072), (3072, 2560), (3080, 3584)],
        runs: runs! { 5 + 1 FIRST, 6 + 1 Part::L2Table, 7 + 1 Part::Data(GuestOffset(33280)) } },
    { name: "a kept cluster of zeros", changes: &[(NEXT_ENTRY, 3073)], runs: runs! { 5 + 2 FIRST } },
    { name: "data in another file", changes: &[(72, 4)], runs: runs! { 5 + 1 Part::Leaked } },
};

const COMPRESSED: &[Laid<'static>] = rows! { Laid:
    // compressed data of one sector, and of two from the second byte of cluster 6 on
    { name: "compressed data", changes: &[(NEXT_ENTRY, 1 << 62 | 3072)],
        runs: runs! { 5 + 1 FIRST, 6 + 1 Part::Compressed } },
    { name: "compressed data over a border", changes: &[(NEXT_ENTRY, 3 << 61 | 3073)],
        runs: runs! { 5 + 1 FIRST, 6 + 2 Part::Compressed } },
    { name: "compressed data of two entries",
        changes: &[(NEXT_ENTRY, 1 << 62 | 3072), (NEXT_ENTRY + 8, 1 << 62 | 3584)],
        runs: runs! { 5 + 1 FIRST, 6 + 2 Part::Compressed } },
    { name: "compressed data of a lower entry in data", changes: &[(L2_TABLE, 1 << 62 | 2560)],
        runs: runs! { 5 + 1 Part::Compressed } },
    { name: "compressed data of a higher entry in data", changes: &[(NEXT_ENTRY, 3 << 61 | 2561)],
        runs: runs! { 5 + 1 FIRST, 6 + 1 Part::Compressed } },
};

const UNUSED: &[Laid<'static>] = rows! { Laid:
    { name: "a leaked cluster", changes: &[(BLOCK + 12, 7 << 48)],
        runs: runs! { 5 + 1 FIRST, 6 + 1 Part::Leaked } },
    { name: "leaked clusters after free ones", changes: &[(BLOCK + 16, 0x0000_0001_0002_0000)],
        runs: runs! { 5 + 1 FIRST, 6 + 3 Part::Free, 9 + 2 Part::Leaked } },
    { name: "data after free clusters", changes: &[(NEXT_ENTRY, 4096)],
        runs: runs! { 5 + 1 FIRST, 6 + 2 Part::Free, 8 + 1 NEXT } },
    { name: "data without a counter", changes: &[(BLOCK + 8, 0x0001_0000_0000_0000)],
        runs: runs! { 5 + 1 FIRST } },
    // the second block covers clusters 256 to 511; the third entry of the refcount table names none
    { name: "free clusters with a block and without",
        changes: &[(REFTABLE + 8, 3072), (3072 + 504, 0), (NEXT_ENTRY, 1000 << 9)],
        runs: runs! { 5 + 1 FIRST, 6 + 1 Part::RefcountBlock, 7 + 993 Part::Free, 1000 + 1 NEXT } },
    { name: "a leaked cluster of the second block",
        changes: &[(REFTABLE + 8, 3072), (3072 + 504, 1), (NEXT_ENTRY, 1000 << 9)],
        runs: runs! { 5 + 1 FIRST, 6 + 1 Part::RefcountBlock, 7 + 504 Part::Free, 511 + 1 Part::Leaked,
            512 + 488 Part::Free, 1000 + 1 NEXT } },
    // the same block is for clusters 512 to 767 too, whose refcounts are reported for clusters 0 to 255
    { name: "a leaked cluster of a block that is named again",
        changes: &[(REFTABLE + 16, BLOCK), (BLOCK + 12, 7 << 48)],
        runs: runs! { 5 + 1 FIRST, 6 + 1 Part::Leaked } },
    { name: "data in the later range of such a block",
        changes: &[(REFTABLE + 16, BLOCK), (NEXT_ENTRY, 518 << 9)],
        runs: runs! { 5 + 1 FIRST, 6 + 512 Part::Free, 518 + 1 NEXT } },
};

const FAR: &[Laid<'static>] = rows! { Laid:
    // a window has 4096 consecutive clusters, so this data spans two windows
    { name: "data in a row over the end of a window",
        changes: &[(NEXT_ENTRY, 4095 << 9), (NEXT_ENTRY + 8, 4096 << 9), (NEXT_ENTRY + 16, 4097 << 9)],
        runs: runs! { 5 + 1 FIRST, 6 + 4089 Part::Free, 4095 + 3 NEXT } },
    { name: "clusters far apart",
        changes: &[(NEXT_ENTRY, 4096 << 9), (NEXT_ENTRY + 8, LAST), (NEXT_ENTRY + 16, 1 << 40)],
        runs: runs! { 5 + 1 FIRST, 6 + 4090 Part::Free, 4096 + 1 NEXT, 4097 + 2147479551 Part::Free,
            2147483648 + 1 Part::Data(GuestOffset(3072)),
            2147483649 + 140735340871678 Part::Free,
            140737488355327 + 1 Part::Data(GuestOffset(2560)) } },
    // the second sector of compressed data would end past 2^56
    { name: "compressed data past the end", changes: &[(NEXT_ENTRY, 3 << 61 | LAST + 1)],
        runs: runs! { 5 + 1 FIRST, 6 + 140737488355321 Part::Free, 140737488355327 + 1 Part::Compressed } },
};

fn check_laid(alloc: Global, row: Laid<'_>) -> Result<(), Fail> {
    let found = runs_of(alloc, &mut sample_image(alloc, row.changes)?)?;
    same(found.get(..5), Some(TABLES), row.name)?;
    same(found.get(5..), Some(row.runs), row.name)
}

#[test]
fn data_is_of_the_lowest_offset_in_the_order_of_the_disk(rt: HostRuntime) -> Result<(), Fail> {
    each(rt.alloc(), GUEST, check_laid)
}

#[test]
fn all_clusters_are_compressed_that_compressed_data_touches(rt: HostRuntime) -> Result<(), Fail> {
    each(rt.alloc(), COMPRESSED, check_laid)
}

#[test]
fn an_unused_cluster_is_leaked_or_free_by_its_counter(rt: HostRuntime) -> Result<(), Fail> {
    each(rt.alloc(), UNUSED, check_laid)
}

#[test]
fn runs_go_on_from_window_to_window(rt: HostRuntime) -> Result<(), Fail> {
    each(rt.alloc(), FAR, check_laid)
}

const TABLES_FIRST: &[Laid<'static>] = rows! { Laid:
    // all runs
    { name: "data in each table", changes: &[(NEXT_ENTRY, 512), (NEXT_ENTRY + 8, REFTABLE),
        (NEXT_ENTRY + 16, BLOCK), (L2_TABLE, L2_TABLE), (L2_TABLE + 8, 1 << 62 | 100)],
        runs: runs! { 0 + 1 Part::Header, 1 + 1 Part::L1Table, 2 + 1 Part::L2Table,
            3 + 1 Part::RefcountTable, 4 + 1 Part::RefcountBlock, 5 + 1 FIRST } },
    // the refcounts of clusters 0 to 3 are the bytes of the L1 entry, and the last of them isn't 0
    { name: "an L2 table in the refcount table, and a block in the L1 table",
        changes: &[(L1_TABLE, REFTABLE), (REFTABLE, 512)],
        runs: runs! { 0 + 1 Part::Header, 1 + 1 Part::L1Table, 2 + 1 Part::Free,
            3 + 1 Part::RefcountTable } },
    { name: "an encryption header, and data in its second cluster",
        changes: &[LUKS, KEYS, KEYS_OFFSET, KEYS_LENGTH, (NEXT_ENTRY, 0xe00), (NEXT_ENTRY + 8, 0x1000)],
        runs: runs! { 0 + 1 Part::Header, 1 + 1 Part::L1Table, 2 + 1 Part::L2Table,
            3 + 1 Part::RefcountTable, 4 + 1 Part::RefcountBlock, 5 + 1 FIRST,
            6 + 2 Part::EncryptionHeader, 8 + 1 Part::Data(GuestOffset(2560)) } },
    { name: "a refcount block and an L2 table in an encryption header",
        changes: &[LUKS, KEYS, (112, 0x400), (120, 0x600)],
        runs: runs! { 0 + 1 Part::Header, 1 + 1 Part::L1Table, 2 + 1 Part::EncryptionHeader,
            3 + 1 Part::RefcountTable, 4 + 1 Part::EncryptionHeader, 5 + 1 FIRST } },
    { name: "no block", changes: &[(REFTABLE, 0)],
        runs: runs! { 0 + 1 Part::Header, 1 + 1 Part::L1Table, 2 + 1 Part::L2Table,
            3 + 1 Part::RefcountTable, 4 + 1 Part::Free, 5 + 1 FIRST } },
    // the L2 table lies in cluster 6
    { name: "an L1 table of two clusters",
        changes: &[(32, 65), (L1_TABLE, 3072), (L2_TABLE + 24, 0), (3072 + 24, 2560)],
        runs: runs! { 0 + 1 Part::Header, 1 + 2 Part::L1Table, 3 + 1 Part::RefcountTable,
            4 + 1 Part::RefcountBlock, 5 + 1 FIRST, 6 + 1 Part::L2Table } },
};

fn check_all_laid(alloc: Global, row: Laid<'_>) -> Result<(), Fail> {
    let found = runs_of(alloc, &mut sample_image(alloc, row.changes)?)?;
    same(found.as_slice(), row.runs, row.name)
}

#[test]
fn tables_win_over_what_else_uses_their_clusters(rt: HostRuntime) -> Result<(), Fail> {
    each(rt.alloc(), TABLES_FIRST, check_all_laid)
}

// A disk of 2^32 guest clusters of 2 MiB. Its last two are the data in host clusters 5 and 6.
const MANY_CLUSTERS: Numbers<'static> = &[
    (0, VERSION_3),
    (16, 21),
    (24, 1 << 53),
    (32, 1 << 14),
    (40, 1 << 21),
    (48, 2 << 21),
    (56, 1 << 32),
    (96, 0x0000_0004_0000_0068),
    ((1 << 21) + 8 * 16383, COPIED | 4 << 21),
    (2 << 21, 3 << 21),
    (3 << 21, 0x0001_0001_0001_0001),
    ((3 << 21) + 8, 0x0001_0001_0001_0000),
    ((4 << 21) + 8 * 262142, COPIED | 5 << 21),
    ((4 << 21) + 8 * 262143, COPIED | 6 << 21),
];

#[test]
fn a_disk_of_2_to_the_32_clusters_has_a_layout(rt: HostRuntime) -> Result<(), Fail> {
    let mut image = image_with(rt.alloc(), 7 << 21, MANY_CLUSTERS)?;
    let found = runs_of(rt.alloc(), &mut image)?;
    let expected = runs! { 0 + 1 Part::Header, 1 + 1 Part::L1Table, 2 + 1 Part::RefcountTable,
        3 + 1 Part::RefcountBlock, 4 + 1 Part::L2Table,
        5 + 2 Part::Data(GuestOffset((1 << 53) - (2 << 21))) };
    same(found.as_slice(), expected, "the last guest clusters")
}
