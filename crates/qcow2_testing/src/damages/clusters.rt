//! Clusters with wrong refcounts or references that exclude each other, and clusters with references of all
//! kinds.

use super::{
    DAMAGE, Damage, FoundCluster, FoundFlag, FoundPlace, LARGE_COUNTERS, SIZES, Sizes, found,
    place, wrong,
};
use crate::sample_image::{
    BLOCK, COUNTERS, COUNTERS_4, COUNTERS_8, DATA, DATA_ENTRY, KEYS, KEYS_LENGTH, KEYS_OFFSET,
    L1_TABLE, L2_TABLE, LARGER, LAST, LUKS, NEXT_ENTRY, NEXT_TABLE, NO_DATA, REFTABLE, TABLE,
    TABLE_ENTRY, TABLE_TWICE, THIRD_ENTRY, TO_6, TO_7, TWICE, TWO_TABLES,
};
use crate::{COMPRESSED, COPIED, Numbers, counted, rows};

// Clusters whose refcounts differ from their references.
const COUNTERS_OF_CLUSTERS: &[Damage] = rows! {
    Damage { name: "a consistent image", ..DAMAGE },
    // refcounts that are too great
    Damage { name: "a leaked cluster", changes: counted! { (COUNTERS_8, 0x0000_0007_0000_0000) },
        clusters: found! { 9 counter 7 uses 0 shared false },
        lines: "leaked 9 1 7 0\nleaked 1 missing 0 shared 0 false 0 late 0\n",
        sizes: Sizes { end: 5120, ..SIZES }, ..DAMAGE },
    Damage { name: "a leaked cluster past free ones", changes: counted! { (COUNTERS_8, 1) },
        clusters: found! { 11 counter 1 uses 0 shared false },
        lines: "leaked 11 1 1 0\nleaked 1 missing 0 shared 0 false 0 late 0\n",
        sizes: Sizes { end: 6144, ..SIZES }, ..DAMAGE },
    Damage { name: "leaked clusters with equal counters",
        changes: counted! { (COUNTERS_8, 0x0001_0001_0001_0000) },
        clusters: found! {
            8 counter 1 uses 0 shared false, 9 counter 1 uses 0 shared false,
            10 counter 1 uses 0 shared false
        },
        lines: "leaked 8 3 1 0\nleaked 3 missing 0 shared 0 false 0 late 0\n",
        sizes: Sizes { end: 5632, ..SIZES }, ..DAMAGE },
    Damage { name: "leaked neighbours with other counters",
        changes: counted! { (COUNTERS_8, 0x0001_0002_0000_0000) },
        clusters: found! { 8 counter 1 uses 0 shared false, 9 counter 2 uses 0 shared false },
        lines: "leaked 8 1 1 0\nleaked 9 1 2 0\nleaked 2 missing 0 shared 0 false 0 late 0\n",
        sizes: Sizes { end: 5120, ..SIZES }, ..DAMAGE },
    Damage { name: "leaked neighbours with other uses",
        changes: counted! { DATA, (COUNTERS_4, 0x0001_0002_0002_0000) },
        clusters: found! { 5 counter 2 uses 1 shared false, 6 counter 2 uses 0 shared false },
        lines: "leaked 5 1 2 1\nleaked 6 1 2 0\nleaked 2 missing 0 shared 0 false 0 late 0\n",
        sizes: Sizes { end: 3584, ..SIZES }, ..DAMAGE },
    Damage { name: "leaked clusters that are no neighbours",
        changes: counted! { (COUNTERS_8, 0x0001_0000_0001_0000) },
        clusters: found! { 8 counter 1 uses 0 shared false, 10 counter 1 uses 0 shared false },
        lines: "leaked 8 1 1 0\nleaked 10 1 1 0\nleaked 2 missing 0 shared 0 false 0 late 0\n",
        sizes: Sizes { end: 5632, ..SIZES }, ..DAMAGE },
    Damage { name: "the greatest counter", changes: LARGE_COUNTERS,
        clusters: found! { 6 counter 18446744073709551615 uses 0 shared false },
        lines: "leaked 6 1 18446744073709551615 0\nleaked 1 missing 0 shared 0 false 0 late 0\n",
        sizes: Sizes { end: 3584, ..SIZES }, ..DAMAGE },
    Damage { name: "data with a reference too many", changes: counted! { TWICE },
        clusters: found! { 5 counter 2 uses 1 shared false },
        flags: wrong! { offset 0x600 cluster 5 set true counter Some(2) },
        lines: "leaked 5 1 2 1\nfalse 0x600 5 2\nleaked 1 missing 0 shared 0 false 1 late 0\n", ..DAMAGE },
    // refcounts that are too small
    Damage { name: "missing data", changes: counted! { DATA, NO_DATA },
        clusters: found! { 5 counter 0 uses 1 shared false },
        lines: "missing 5 1 0 1\nleaked 0 missing 1 shared 0 false 0 late 0\n", ..DAMAGE },
    Damage { name: "missing data with the flag", changes: counted! { NO_DATA },
        clusters: found! { 5 counter 0 uses 1 shared false },
        flags: wrong! { offset 0x600 cluster 5 set true counter Some(0) },
        lines: "missing 5 1 0 1\nfalse 0x600 5 0\nleaked 0 missing 1 shared 0 false 1 late 0\n", ..DAMAGE },
    Damage { name: "a missing cluster that is the last", changes: counted! { (NEXT_ENTRY, 0xc00) },
        clusters: found! { 6 counter 0 uses 1 shared false },
        lines: "missing 6 1 0 1\nleaked 0 missing 1 shared 0 false 0 late 0\n",
        sizes: Sizes { end: 3584, allocated: 2, ..SIZES }, ..DAMAGE },
    Damage { name: "data that two entries name", changes: counted! { (NEXT_ENTRY, 0xa00) },
        clusters: found! { 5 counter 1 uses 2 shared false },
        flags: wrong! { offset 0x800 cluster 5 set false counter Some(1) },
        lines: "missing 5 1 1 2\nlate 0x800 5 1\nleaked 0 missing 1 shared 0 false 0 late 1\n",
        sizes: Sizes { allocated: 2, fragmented: 1, ..SIZES }, ..DAMAGE },
    Damage { name: "no block", changes: counted! { (REFTABLE, 0) },
        clusters: found! {
            0 counter 0 uses 1 shared false, 1 counter 0 uses 1 shared false,
            2 counter 0 uses 1 shared false, 3 counter 0 uses 1 shared false,
            5 counter 0 uses 1 shared false
        },
        flags: wrong! {
            l1 0 cluster 2 set true counter Some(0), offset 0x600 cluster 5 set true counter Some(0)
        },
        lines: "missing 0 4 0 1\nmissing 5 1 0 1\nfalse l1 0 2 0\nfalse 0x600 5 0\n\
            leaked 0 missing 5 shared 0 false 2 late 0\n", ..DAMAGE },
    Damage { name: "no block, and no flags", changes: counted! { TABLE, DATA, (REFTABLE, 0) },
        clusters: found! {
            0 counter 0 uses 1 shared false, 1 counter 0 uses 1 shared false,
            2 counter 0 uses 1 shared false, 3 counter 0 uses 1 shared false,
            5 counter 0 uses 1 shared false
        },
        lines: "missing 0 4 0 1\nmissing 5 1 0 1\nleaked 0 missing 5 shared 0 false 0 late 0\n", ..DAMAGE },
    Damage { name: "a header alone", changes: HEADER_ALONE,
        clusters: found! { 0 counter 0 uses 1 shared false },
        lines: "missing 0 1 0 1\nleaked 0 missing 1 shared 0 false 0 late 0\n",
        sizes: Sizes { end: 512, clusters: 0, allocated: 0, ..SIZES }, ..DAMAGE },
};

// No tables and no refcounts.
const HEADER_ALONE: Numbers<'static> = &[(24, 0), (32, 0), (40, 0)];

// Clusters with references from all kinds of entries.
const USES: &[Damage] = rows! {
    Damage { name: "compressed data", changes: counted! { (NEXT_ENTRY, COMPRESSED + 0xc00) },
        clusters: found! { 6 counter 0 uses 1 shared false },
        lines: "missing 6 1 0 1\nleaked 0 missing 1 shared 0 false 0 late 0\n",
        sizes: Sizes { end: 3584, allocated: 2, compressed: 1, fragmented: 1, ..SIZES }, ..DAMAGE },
    Damage { name: "compressed data over a border", changes: counted! { (NEXT_ENTRY, 3 << 61 | 0xc01) },
        clusters: found! { 6 counter 0 uses 1 shared false, 7 counter 0 uses 1 shared false },
        lines: "missing 6 2 0 1\nleaked 0 missing 2 shared 0 false 0 late 0\n",
        sizes: Sizes { end: 4096, allocated: 2, compressed: 1, fragmented: 1, ..SIZES }, ..DAMAGE },
    Damage { name: "compressed data in the last cluster and past it",
        changes: counted! { (NEXT_ENTRY, 3 << 61 | LAST) },
        clusters: found! {
            140737488355327 counter 0 uses 1 shared false, 140737488355328 counter 0 uses 1 shared false
        },
        past: found! {
            140737488355327 counter 0 uses 1 shared false, 140737488355328 counter 0 uses 1 shared false
        },
        lines: "missing 140737488355327 2 0 1\npast 140737488355327 2 0 1\n\
            leaked 0 missing 2 shared 0 false 0 late 0 past 2\n",
        sizes: Sizes { end: 72057594037927936, allocated: 2, compressed: 1, fragmented: 1, ..SIZES },
        ..DAMAGE },
    Damage { name: "compressed data between data in a row",
        changes: counted! { (NEXT_ENTRY, COMPRESSED + 0xe00), (THIRD_ENTRY, COPIED + 0xc00), TO_7 },
        sizes: Sizes { end: 4096, allocated: 3, compressed: 1, fragmented: 1, ..SIZES }, ..DAMAGE },
    Damage { name: "zeros with a cluster and without",
        changes: counted! { (NEXT_ENTRY, 1), (THIRD_ENTRY, 0xc01) },
        clusters: found! { 6 counter 0 uses 1 shared false },
        lines: "missing 6 1 0 1\nleaked 0 missing 1 shared 0 false 0 late 0\n",
        sizes: Sizes { end: 3584, allocated: 2, ..SIZES }, ..DAMAGE },
    Damage { name: "the last cluster", changes: counted! { (NEXT_ENTRY, LAST) },
        clusters: found! { 140737488355327 counter 0 uses 1 shared false },
        past: found! { 140737488355327 counter 0 uses 1 shared false },
        lines: "missing 140737488355327 1 0 1\npast 140737488355327 1 0 1\n\
            leaked 0 missing 1 shared 0 false 0 late 0 past 1\n",
        sizes: Sizes { end: 72057594037927936, allocated: 2, fragmented: 1, ..SIZES }, ..DAMAGE },
    Damage { name: "the last cluster with the flag", changes: counted! { (NEXT_ENTRY, COPIED + LAST) },
        clusters: found! { 140737488355327 counter 0 uses 1 shared false },
        past: found! { 140737488355327 counter 0 uses 1 shared false },
        flags: wrong! { offset 0x800 cluster 140737488355327 set true counter Some(0) },
        lines: "missing 140737488355327 1 0 1\npast 140737488355327 1 0 1\n\
            false 0x800 140737488355327 0\nleaked 0 missing 1 shared 0 false 1 late 0 past 1\n",
        sizes: Sizes { end: 72057594037927936, allocated: 2, fragmented: 1, ..SIZES }, ..DAMAGE },
    Damage { name: "the last cluster in place of data", changes: counted! { (DATA_ENTRY, LAST) },
        clusters: found! {
            5 counter 1 uses 0 shared false, 140737488355327 counter 0 uses 1 shared false
        },
        past: found! { 140737488355327 counter 0 uses 1 shared false },
        lines: "leaked 5 1 1 0\nmissing 140737488355327 1 0 1\npast 140737488355327 1 0 1\n\
            leaked 1 missing 1 shared 0 false 0 late 0 past 1\n",
        sizes: Sizes { end: 72057594037927936, ..SIZES }, ..DAMAGE },
    Damage { name: "clusters far apart", changes: FAR_APART,
        clusters: found! {
            256 counter 0 uses 1 shared false, 4095 counter 0 uses 1 shared false,
            4096 counter 0 uses 1 shared false, 8192 counter 0 uses 1 shared false,
            2147483648 counter 0 uses 1 shared false, 140737488355327 counter 0 uses 2 shared false
        },
        past: found! {
            256 counter 0 uses 1 shared false, 4095 counter 0 uses 1 shared false,
            4096 counter 0 uses 1 shared false, 8192 counter 0 uses 1 shared false,
            2147483648 counter 0 uses 1 shared false, 140737488355327 counter 0 uses 2 shared false
        },
        lines: "missing 256 1 0 1\nmissing 4095 2 0 1\nmissing 8192 1 0 1\n\
            missing 2147483648 1 0 1\nmissing 140737488355327 1 0 2\n\
            past 256 1 0 1\npast 4095 2 0 1\npast 8192 1 0 1\n\
            past 2147483648 1 0 1\npast 140737488355327 1 0 2\n\
            leaked 0 missing 6 shared 0 false 0 late 0 past 6\n",
        sizes: Sizes { end: 72057594037927936, allocated: 8, fragmented: 6, ..SIZES }, ..DAMAGE },
    // at the end of the file, after cluster 9
    Damage { name: "data in the file's last cluster",
        changes: counted! { (NEXT_ENTRY, COPIED + 0x1200), (COUNTERS_8, 0x0000_0001_0000_0000) },
        sizes: Sizes { end: 5120, allocated: 2, fragmented: 1, ..SIZES }, ..DAMAGE },
    Damage { name: "data past the file",
        changes: counted! { (NEXT_ENTRY, COPIED + 0x1400), (COUNTERS_8, 0x0001_0000) },
        past: found! { 10 counter 1 uses 1 shared false },
        lines: "past 10 1 1 1\nleaked 0 missing 0 shared 0 false 0 late 0 past 1\n",
        sizes: Sizes { end: 5632, allocated: 2, fragmented: 1, ..SIZES }, ..DAMAGE },
    Damage { name: "data in a row past the file",
        changes: counted! {
            (NEXT_ENTRY, COPIED + 0x1400), (THIRD_ENTRY, COPIED + 0x1600), (COUNTERS_8, 0x0001_0001)
        },
        past: found! { 10 counter 1 uses 1 shared false, 11 counter 1 uses 1 shared false },
        lines: "past 10 2 1 1\nleaked 0 missing 0 shared 0 false 0 late 0 past 2\n",
        sizes: Sizes { end: 6144, allocated: 3, fragmented: 1, ..SIZES }, ..DAMAGE },
    Damage { name: "the refcount of an unused cluster past the file",
        changes: counted! { (COUNTERS_8, 0x0001_0000) },
        clusters: found! { 10 counter 1 uses 0 shared false },
        lines: "leaked 10 1 1 0\nleaked 1 missing 0 shared 0 false 0 late 0\n",
        sizes: Sizes { end: 5632, ..SIZES }, ..DAMAGE },
    Damage { name: "data in a row", changes: counted! { (NEXT_ENTRY, COPIED + 0xc00), TO_6 },
        sizes: Sizes { end: 3584, allocated: 2, ..SIZES }, ..DAMAGE },
    Damage { name: "data in a row after a gap", changes: counted! { (THIRD_ENTRY, COPIED + 0xc00), TO_6 },
        sizes: Sizes { end: 3584, allocated: 2, ..SIZES }, ..DAMAGE },
    Damage { name: "data further on",
        changes: counted! { (NEXT_ENTRY, COPIED + 0xe00), (COUNTERS_4, 0x0001_0001_0000_0001) },
        sizes: Sizes { end: 4096, allocated: 2, fragmented: 1, ..SIZES }, ..DAMAGE },
    Damage { name: "an L2 table that two entries name",
        changes: counted! { LARGER, TWO_TABLES, (NEXT_TABLE, L2_TABLE) },
        clusters: found! { 2 counter 1 uses 2 shared false, 5 counter 1 uses 2 shared false },
        flags: wrong! { l1 1 cluster 2 set false counter Some(1) },
        lines: "missing 2 1 1 2\nmissing 5 1 1 2\nlate l1 1 2 1\n\
            leaked 0 missing 2 shared 0 false 0 late 1\n",
        sizes: Sizes { clusters: 128, allocated: 2, ..SIZES }, ..DAMAGE },
    Damage { name: "one that is counted so",
        changes: counted! { LARGER, TWO_TABLES, TABLE, (NEXT_TABLE, L2_TABLE), DATA, TABLE_TWICE, TWICE },
        sizes: Sizes { clusters: 128, allocated: 2, ..SIZES }, ..DAMAGE },
    Damage { name: "an L1 table of two clusters", changes: LONG_TABLE,
        sizes: Sizes { end: 3584, ..SIZES }, ..DAMAGE },
};

// Clusters of an encryption header, and of bitmaps that are stale.
const PARTS: &[Damage] = rows! {
    Damage { name: "an encryption header", changes: counted! { LUKS, KEYS, KEYS_OFFSET, KEYS_LENGTH, TO_7 },
        sizes: Sizes { end: 4096, ..SIZES }, ..DAMAGE },
    Damage { name: "an encryption header of no byte",
        changes: counted! { LUKS, KEYS, KEYS_OFFSET, (120, 0) }, ..DAMAGE },
    Damage { name: "an encryption header after another extension",
        changes: counted! {
            LUKS, (104, 7 << 32), (112, 0x0537_be77_0000_0010), (120, 0xc00), (128, 0x400), TO_7
        },
        sizes: Sizes { end: 4096, ..SIZES }, ..DAMAGE },
    Damage { name: "a missing encryption header",
        changes: counted! { LUKS, KEYS, KEYS_OFFSET, KEYS_LENGTH },
        clusters: found! { 6 counter 0 uses 1 shared false, 7 counter 0 uses 1 shared false },
        lines: "missing 6 2 0 1\nleaked 0 missing 2 shared 0 false 0 late 0\n",
        sizes: Sizes { end: 4096, ..SIZES }, ..DAMAGE },
    Damage { name: "data in an encryption header",
        changes: counted! { LUKS, KEYS, KEYS_OFFSET, KEYS_LENGTH, (NEXT_ENTRY, 0xc00),
            (COUNTERS_4, 0x0001_0001_0002_0001) },
        clusters: found! { 6 counter 2 uses 2 shared true },
        lines: "shared 6 1 2 2\nleaked 0 missing 0 shared 1 false 0 late 0\n",
        sizes: Sizes { end: 4096, allocated: 2, ..SIZES }, ..DAMAGE },
    Damage { name: "an encryption header past the file",
        changes: counted! { LUKS, KEYS, (112, 0x1400), KEYS_LENGTH, (COUNTERS_8, 0x0001_0001) },
        past: found! { 10 counter 1 uses 1 shared false, 11 counter 1 uses 1 shared false },
        lines: "past 10 2 1 1\nleaked 0 missing 0 shared 0 false 0 late 0 past 2\n",
        sizes: Sizes { end: 6144, ..SIZES }, ..DAMAGE },
    Damage { name: "the directory of stale bitmaps",
        changes: counted! { (104, 0x2385_2875_0000_0018), (112, 1 << 32), (120, 24), (128, 0xc00), TO_6 },
        clusters: found! { 6 counter 1 uses 0 shared false },
        lines: "leaked 6 1 1 0\nleaked 1 missing 0 shared 0 false 0 late 0\n",
        sizes: Sizes { end: 3584, ..SIZES }, ..DAMAGE },
};

// Data past all refcounts, in clusters that aren't all in one window of a check.
pub(super) const FAR_APART: Numbers<'static> = counted! {
    (NEXT_ENTRY, 256 << 9), (NEXT_ENTRY + 8, 4095 << 9), (NEXT_ENTRY + 16, 4096 << 9),
    (NEXT_ENTRY + 24, 8192 << 9), (NEXT_ENTRY + 32, LAST), (NEXT_ENTRY + 40, 1 << 40),
    (NEXT_ENTRY + 48, LAST)
};

// An L1 table in clusters 1 and 2, and the L2 table in cluster 6.
const LONG_TABLE: Numbers<'static> =
    counted! { (32, 65), (TABLE_ENTRY, COPIED + 0xc00), (DATA_ENTRY, 0), (0xc00 + 24, COPIED + 0xa00), TO_6 };

// Clusters whose references exclude each other, whatever their refcounts.
const SHARED: &[Damage] = rows! {
    Damage { name: "data in the L1 table",
        changes: counted! { (NEXT_ENTRY, L1_TABLE), (COUNTERS, 0x0001_0002_0001_0001) },
        clusters: found! { 1 counter 2 uses 2 shared true },
        lines: "shared 1 1 2 2\nleaked 0 missing 0 shared 1 false 0 late 0\n",
        sizes: Sizes { allocated: 2, fragmented: 1, ..SIZES }, ..DAMAGE },
    Damage { name: "data in the refcount table", changes: counted! { (NEXT_ENTRY, REFTABLE) },
        clusters: found! { 3 counter 1 uses 2 shared true },
        flags: wrong! { offset 0x800 cluster 3 set false counter Some(1) },
        lines: "missing 3 1 1 2\nshared 3 1 1 2\nlate 0x800 3 1\n\
            leaked 0 missing 1 shared 1 false 0 late 1\n",
        sizes: Sizes { allocated: 2, fragmented: 1, ..SIZES }, ..DAMAGE },
    Damage { name: "data in a block", changes: counted! { (NEXT_ENTRY, BLOCK) },
        clusters: found! { 4 counter 1 uses 2 shared true },
        flags: wrong! { offset 0x800 cluster 4 set false counter Some(1) },
        lines: "missing 4 1 1 2\nshared 4 1 1 2\nlate 0x800 4 1\n\
            leaked 0 missing 1 shared 1 false 0 late 1\n",
        sizes: Sizes { allocated: 2, fragmented: 1, ..SIZES }, ..DAMAGE },
    Damage { name: "data in an L2 table", changes: counted! { (NEXT_ENTRY, L2_TABLE) },
        clusters: found! { 2 counter 1 uses 2 shared true },
        flags: wrong! { offset 0x800 cluster 2 set false counter Some(1) },
        lines: "missing 2 1 1 2\nshared 2 1 1 2\nlate 0x800 2 1\n\
            leaked 0 missing 1 shared 1 false 0 late 1\n",
        sizes: Sizes { allocated: 2, fragmented: 1, ..SIZES }, ..DAMAGE },
    Damage { name: "data in an L2 table that is counted so",
        changes: counted! { TABLE, (NEXT_ENTRY, L2_TABLE), TABLE_TWICE },
        clusters: found! { 2 counter 2 uses 2 shared true },
        lines: "shared 2 1 2 2\nleaked 0 missing 0 shared 1 false 0 late 0\n",
        sizes: Sizes { allocated: 2, fragmented: 1, ..SIZES }, ..DAMAGE },
    Damage { name: "compressed data in the header", changes: counted! { (NEXT_ENTRY, COMPRESSED + 100) },
        clusters: found! { 0 counter 1 uses 2 shared true },
        lines: "missing 0 1 1 2\nshared 0 1 1 2\nleaked 0 missing 1 shared 1 false 0 late 0\n",
        sizes: Sizes { allocated: 2, compressed: 1, fragmented: 1, ..SIZES }, ..DAMAGE },
    Damage { name: "an L2 table in the refcount table",
        changes: counted! { LARGER, TWO_TABLES, (NEXT_TABLE, REFTABLE) },
        clusters: found! { 3 counter 1 uses 2 shared true, 4 counter 1 uses 2 shared true },
        flags: wrong! {
            l1 1 cluster 3 set false counter Some(1), offset 0x8000 cluster 4 set false counter Some(1)
        },
        lines: "missing 3 2 1 2\nshared 3 2 1 2\nlate l1 1 3 1\nlate 0x8000 4 1\n\
            leaked 0 missing 2 shared 2 false 0 late 2\n",
        sizes: Sizes { clusters: 128, allocated: 2, ..SIZES }, ..DAMAGE },
    Damage { name: "a block that two entries name", changes: counted! { (REFTABLE + 8, BLOCK) },
        clusters: found! { 4 counter 1 uses 2 shared true },
        lines: "missing 4 1 1 2\nshared 4 1 1 2\nleaked 0 missing 1 shared 1 false 0 late 0\n",
        sizes: Sizes { end: 134144, ..SIZES }, ..DAMAGE },
    Damage { name: "the only data in the L1 table", changes: counted! { (DATA_ENTRY, COPIED + L1_TABLE) },
        clusters: found! { 1 counter 1 uses 2 shared true, 5 counter 1 uses 0 shared false },
        lines: "missing 1 1 1 2\nshared 1 1 1 2\nleaked 5 1 1 0\n\
            leaked 1 missing 1 shared 1 false 0 late 0\n", ..DAMAGE },
    Damage { name: "the same, counted so",
        changes: counted! { (DATA_ENTRY, COPIED + L1_TABLE), (COUNTERS, 0x0001_0002_0001_0001) },
        clusters: found! { 1 counter 2 uses 2 shared true, 5 counter 1 uses 0 shared false },
        flags: wrong! { offset 0x600 cluster 1 set true counter Some(2) },
        lines: "shared 1 1 2 2\nleaked 5 1 1 0\nfalse 0x600 1 2\n\
            leaked 1 missing 0 shared 1 false 1 late 0\n", ..DAMAGE },
    Damage { name: "the only data in the refcount table, counted so",
        changes: counted! {
            (DATA_ENTRY, REFTABLE), (COUNTERS, 0x0001_0001_0001_0002), (COUNTERS_4, 1 << 48)
        },
        clusters: found! { 3 counter 2 uses 2 shared true },
        lines: "shared 3 1 2 2\nleaked 0 missing 0 shared 1 false 0 late 0\n",
        sizes: Sizes { end: 2560, ..SIZES }, ..DAMAGE },
    Damage { name: "missing clusters that are shared",
        changes: counted! { (NEXT_ENTRY, COPIED + REFTABLE), (THIRD_ENTRY, COPIED + BLOCK) },
        clusters: found! { 3 counter 1 uses 2 shared true, 4 counter 1 uses 2 shared true },
        lines: "missing 3 2 1 2\nshared 3 2 1 2\nleaked 0 missing 2 shared 2 false 0 late 0\n",
        sizes: Sizes { allocated: 3, fragmented: 1, ..SIZES }, ..DAMAGE },
    Damage { name: "missing neighbours of which one is shared",
        changes: counted! { (NEXT_ENTRY, COPIED + BLOCK), (THIRD_ENTRY, COPIED + 0xa00) },
        clusters: found! { 4 counter 1 uses 2 shared true, 5 counter 1 uses 2 shared false },
        lines: "missing 4 1 1 2\nshared 4 1 1 2\nmissing 5 1 1 2\n\
            leaked 0 missing 2 shared 1 false 0 late 0\n",
        sizes: Sizes { allocated: 3, fragmented: 1, ..SIZES }, ..DAMAGE },
    Damage { name: "a leaked cluster that is shared",
        changes: counted! { (NEXT_ENTRY, L1_TABLE), (COUNTERS, 0x0001_0003_0001_0001) },
        clusters: found! { 1 counter 3 uses 2 shared true },
        lines: "leaked 1 1 3 2\nshared 1 1 3 2\nleaked 1 missing 0 shared 1 false 0 late 0\n",
        sizes: Sizes { allocated: 2, fragmented: 1, ..SIZES }, ..DAMAGE },
};

/// Clusters whose refcounts differ from their references.
pub(super) fn wrong_counters() -> &'static [Damage] {
    COUNTERS_OF_CLUSTERS
}

/// Clusters with references from all kinds of entries.
pub(super) fn uses() -> &'static [Damage] {
    USES
}

/// Clusters of an encryption header, and of bitmaps that are stale.
pub(super) fn parts() -> &'static [Damage] {
    PARTS
}

/// Clusters whose references exclude each other, whatever their refcounts.
pub(super) fn shared_clusters() -> &'static [Damage] {
    SHARED
}
