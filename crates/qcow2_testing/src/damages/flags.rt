//! Wrong copied flags, images of several kinds, and L1 tables that are too short.

use super::{
    ALL_KINDS, ALL_LINES, DAMAGE, Damage, FoundCluster, FoundFlag, FoundPlace, LATE_LINES,
    LATE_TABLES, SIZES, Sizes, found, place, wrong,
};
use crate::sample_image::{
    COUNTERS, COUNTERS_8, DATA, DATA_ENTRY, EXTERNAL, L2_TABLE, LARGER, LAST_ENTRY, NEXT_ENTRY,
    NEXT_TABLE, NO_DATA, TABLE, TABLE_ENTRY, TABLE_TWICE, TO_6, TO_7, TWICE, TWO_TABLES,
};
use crate::{COMPRESSED, COPIED, Numbers, counted, rows};

// Wrong copied flags, and some right ones.
const FLAGS: &[Damage] = rows! {
    // of the L1 entry
    Damage { name: "the late flag of a table", changes: counted! { TABLE },
        flags: wrong! { l1 0 cluster 2 set false counter Some(1) },
        lines: "late l1 0 2 1\nleaked 0 missing 0 shared 0 false 0 late 1\n", ..DAMAGE },
    Damage { name: "the false flag of a table of two references", changes: counted! { TABLE_TWICE },
        clusters: found! { 2 counter 2 uses 1 shared false },
        flags: wrong! { l1 0 cluster 2 set true counter Some(2) },
        lines: "leaked 2 1 2 1\nfalse l1 0 2 2\nleaked 1 missing 0 shared 0 false 1 late 0\n", ..DAMAGE },
    Damage { name: "the false flag of a table of none",
        changes: counted! { (COUNTERS, 0x0001_0001_0000_0001) },
        clusters: found! { 2 counter 0 uses 1 shared false },
        flags: wrong! { l1 0 cluster 2 set true counter Some(0) },
        lines: "missing 2 1 0 1\nfalse l1 0 2 0\nleaked 0 missing 1 shared 0 false 1 late 0\n", ..DAMAGE },
    Damage { name: "a table of two references", changes: counted! { TABLE, TABLE_TWICE },
        clusters: found! { 2 counter 2 uses 1 shared false },
        lines: "leaked 2 1 2 1\nleaked 1 missing 0 shared 0 false 0 late 0\n", ..DAMAGE },
    Damage { name: "no table, with the flag",
        changes: counted! { LARGER, TWO_TABLES, (NEXT_TABLE, COPIED) },
        sizes: Sizes { clusters: 128, ..SIZES }, ..DAMAGE },
    // of an L2 entry
    Damage { name: "the late flag of data", changes: counted! { DATA },
        flags: wrong! { offset 0x600 cluster 5 set false counter Some(1) },
        lines: "late 0x600 5 1\nleaked 0 missing 0 shared 0 false 0 late 1\n", ..DAMAGE },
    Damage { name: "the false flag of data that two entries name",
        changes: counted! { (NEXT_ENTRY, 0xa00), TWICE },
        flags: wrong! { offset 0x600 cluster 5 set true counter Some(2) },
        lines: "false 0x600 5 2\nleaked 0 missing 0 shared 0 false 1 late 0\n",
        sizes: Sizes { allocated: 2, fragmented: 1, ..SIZES }, ..DAMAGE },
    Damage { name: "data of two entries, as their flags say",
        changes: counted! { DATA, (NEXT_ENTRY, 0xa00), TWICE },
        sizes: Sizes { allocated: 2, fragmented: 1, ..SIZES }, ..DAMAGE },
    Damage { name: "data of two references", changes: counted! { DATA, TWICE },
        clusters: found! { 5 counter 2 uses 1 shared false },
        lines: "leaked 5 1 2 1\nleaked 1 missing 0 shared 0 false 0 late 0\n", ..DAMAGE },
    Damage { name: "the flag of data past all counters",
        changes: counted! { (NEXT_ENTRY, COPIED + (256 << 9)) },
        clusters: found! { 256 counter 0 uses 1 shared false },
        past: found! { 256 counter 0 uses 1 shared false },
        flags: wrong! { offset 0x800 cluster 256 set true counter Some(0) },
        lines: "missing 256 1 0 1\npast 256 1 0 1\nfalse 0x800 256 0\n\
            leaked 0 missing 1 shared 0 false 1 late 0 past 1\n",
        sizes: Sizes { end: 131584, allocated: 2, fragmented: 1, ..SIZES }, ..DAMAGE },
    Damage { name: "data past all counters", changes: counted! { (NEXT_ENTRY, 256 << 9) },
        clusters: found! { 256 counter 0 uses 1 shared false },
        past: found! { 256 counter 0 uses 1 shared false },
        lines: "missing 256 1 0 1\npast 256 1 0 1\nleaked 0 missing 1 shared 0 false 0 late 0 past 1\n",
        sizes: Sizes { end: 131584, allocated: 2, fragmented: 1, ..SIZES }, ..DAMAGE },
    Damage { name: "the flag of the last entry", changes: counted! { (LAST_ENTRY, COPIED + 0xc00) },
        clusters: found! { 6 counter 0 uses 1 shared false },
        flags: wrong! { offset 0x7e00 cluster 6 set true counter Some(0) },
        lines: "missing 6 1 0 1\nfalse 0x7e00 6 0\nleaked 0 missing 1 shared 0 false 1 late 0\n",
        sizes: Sizes { end: 3584, allocated: 2, ..SIZES }, ..DAMAGE },
    Damage { name: "no data, with the flag", changes: counted! { (NEXT_ENTRY, COPIED) }, ..DAMAGE },
    Damage { name: "the false flag of zeros", changes: counted! { (NEXT_ENTRY, COPIED + 0xc01) },
        clusters: found! { 6 counter 0 uses 1 shared false },
        flags: wrong! { offset 0x800 cluster 6 set true counter Some(0) },
        lines: "missing 6 1 0 1\nfalse 0x800 6 0\nleaked 0 missing 1 shared 0 false 1 late 0\n",
        sizes: Sizes { end: 3584, allocated: 2, ..SIZES }, ..DAMAGE },
    Damage { name: "the late flag of zeros", changes: counted! { (NEXT_ENTRY, 0xc01), TO_6 },
        flags: wrong! { offset 0x800 cluster 6 set false counter Some(1) },
        lines: "late 0x800 6 1\nleaked 0 missing 0 shared 0 false 0 late 1\n",
        sizes: Sizes { end: 3584, allocated: 2, ..SIZES }, ..DAMAGE },
    Damage { name: "zeros with a cluster and the flag",
        changes: counted! { (NEXT_ENTRY, COPIED + 0xc01), TO_6 },
        sizes: Sizes { end: 3584, allocated: 2, ..SIZES }, ..DAMAGE },
    Damage { name: "zeros without a cluster, with the flag", changes: counted! { (NEXT_ENTRY, COPIED + 1) },
        ..DAMAGE },
    Damage { name: "compressed data of one reference",
        changes: counted! { (NEXT_ENTRY, COMPRESSED + 0xc00), TO_6 },
        sizes: Sizes { end: 3584, allocated: 2, compressed: 1, fragmented: 1, ..SIZES }, ..DAMAGE },
};

// Images with an external data file, and with several tables.
const OTHERS: &[Damage] = rows! {
    // an external data file, in which each cluster of data has one reference, also the one at offset 0
    Damage { name: "data in another file", changes: counted! { EXTERNAL, NO_DATA },
        sizes: Sizes { end: 2560, ..SIZES }, ..DAMAGE },
    Damage { name: "data in another file that is counted here", changes: counted! { EXTERNAL },
        clusters: found! { 5 counter 1 uses 0 shared false },
        lines: "leaked 5 1 1 0\nleaked 1 missing 0 shared 0 false 0 late 0\n", ..DAMAGE },
    Damage { name: "the late flag of data in another file", changes: counted! { EXTERNAL, DATA, NO_DATA },
        flags: wrong! { offset 0x600 cluster 5 set false counter None },
        lines: "late 0x600 5 none\nleaked 0 missing 0 shared 0 false 0 late 1\n",
        sizes: Sizes { end: 2560, ..SIZES }, ..DAMAGE },
    Damage { name: "the late flag of zeros in another file",
        changes: counted! { EXTERNAL, (DATA_ENTRY, 0xa01) },
        clusters: found! { 5 counter 1 uses 0 shared false },
        flags: wrong! { offset 0x600 cluster 5 set false counter None },
        lines: "leaked 5 1 1 0\nlate 0x600 5 none\nleaked 1 missing 0 shared 0 false 0 late 1\n",
        ..DAMAGE },
    Damage { name: "data at offset 0 of another file", changes: counted! { EXTERNAL, (NEXT_ENTRY, COPIED) },
        clusters: found! { 5 counter 1 uses 0 shared false },
        lines: "leaked 5 1 1 0\nleaked 1 missing 0 shared 0 false 0 late 0\n",
        sizes: Sizes { allocated: 2, fragmented: 1, ..SIZES }, ..DAMAGE },
    Damage { name: "the false flag of a table beside another file",
        changes: counted! { EXTERNAL, TABLE_TWICE },
        clusters: found! { 2 counter 2 uses 1 shared false, 5 counter 1 uses 0 shared false },
        flags: wrong! { l1 0 cluster 2 set true counter Some(2) },
        lines: "leaked 2 1 2 1\nleaked 5 1 1 0\nfalse l1 0 2 2\n\
            leaked 2 missing 0 shared 0 false 1 late 0\n", ..DAMAGE },
    // several tables, in their order
    Damage { name: "the false flag of a table that two entries name", changes: FALSE_TABLE,
        flags: wrong! { l1 0 cluster 2 set true counter Some(2) },
        lines: "false l1 0 2 2\nleaked 0 missing 0 shared 0 false 1 late 0\n",
        sizes: Sizes { clusters: 128, allocated: 2, ..SIZES }, ..DAMAGE },
    Damage { name: "late flags of a table that two entries name",
        changes: counted! { LARGER, TWO_TABLES, (NEXT_TABLE, L2_TABLE), DATA },
        clusters: found! { 2 counter 1 uses 2 shared false, 5 counter 1 uses 2 shared false },
        flags: wrong! {
            offset 0x600 cluster 5 set false counter Some(1), l1 1 cluster 2 set false counter Some(1)
        },
        lines: "missing 2 1 1 2\nmissing 5 1 1 2\nlate 0x600 5 1\nlate l1 1 2 1\n\
            leaked 0 missing 2 shared 0 false 0 late 2\n",
        sizes: Sizes { clusters: 128, allocated: 2, ..SIZES }, ..DAMAGE },
    Damage { name: "a table after an entry that names none",
        changes: counted! { LARGER, TWO_TABLES, (TABLE_ENTRY, 0), (NEXT_TABLE, COPIED + L2_TABLE), DATA },
        flags: wrong! { offset 0x8600 cluster 5 set false counter Some(1) },
        lines: "late 0x8600 5 1\nleaked 0 missing 0 shared 0 false 0 late 1\n",
        sizes: Sizes { clusters: 128, ..SIZES }, ..DAMAGE },
    Damage { name: "late flags of two tables", changes: LATE_TABLES,
        flags: wrong! {
            l1 0 cluster 2 set false counter Some(1), offset 0x600 cluster 5 set false counter Some(1),
            l1 1 cluster 6 set false counter Some(1), offset 0xfe00 cluster 7 set false counter Some(1)
        },
        lines: LATE_LINES,
        sizes: Sizes { end: 4096, clusters: 128, allocated: 2, ..SIZES }, ..DAMAGE },
    Damage { name: "wrong flags of two tables", changes: WRONG_TABLES,
        clusters: found! {
            5 counter 1 uses 2 shared false, 6 counter 0 uses 1 shared false,
            7 counter 0 uses 2 shared false, 8 counter 0 uses 1 shared false
        },
        flags: wrong! {
            l1 0 cluster 2 set false counter Some(1), offset 0x0 cluster 7 set true counter Some(0),
            offset 0x600 cluster 5 set false counter Some(1),
            offset 0x7e00 cluster 8 set true counter Some(0), l1 1 cluster 6 set true counter Some(0),
            offset 0x8000 cluster 5 set false counter Some(1),
            offset 0xfe00 cluster 7 set true counter Some(0)
        },
        lines: "missing 5 1 1 2\nmissing 6 1 0 1\nmissing 7 1 0 2\nmissing 8 1 0 1\nlate l1 0 2 1\n\
            false 0x0 7 0\nlate 0x600 5 1\nfalse 0x7e00 8 0\nfalse l1 1 6 0\nlate 0x8000 5 1\n\
            false 0xfe00 7 0\nleaked 0 missing 4 shared 0 false 4 late 3\n",
        sizes: Sizes { end: 4608, clusters: 128, allocated: 5, fragmented: 3, ..SIZES }, ..DAMAGE },
    // several kinds
    Damage { name: "a leak and a late flag", changes: counted! { TABLE, (COUNTERS_8, 1) },
        clusters: found! { 11 counter 1 uses 0 shared false },
        flags: wrong! { l1 0 cluster 2 set false counter Some(1) },
        lines: "leaked 11 1 1 0\nlate l1 0 2 1\nleaked 1 missing 0 shared 0 false 0 late 1\n",
        sizes: Sizes { end: 6144, ..SIZES }, ..DAMAGE },
    Damage { name: "all kinds", changes: ALL_KINDS,
        clusters: found! {
            1 counter 3 uses 2 shared true, 5 counter 0 uses 1 shared false,
            8 counter 5 uses 0 shared false, 9 counter 5 uses 0 shared false
        },
        flags: wrong! {
            l1 0 cluster 2 set false counter Some(1), offset 0x600 cluster 5 set true counter Some(0)
        },
        lines: ALL_LINES,
        sizes: Sizes { end: 5120, allocated: 2, fragmented: 1, ..SIZES }, ..DAMAGE },
    Damage { name: "AES, which keeps no keys in clusters", changes: counted! { (32, 1 << 32 | 1) },
        ..DAMAGE },
};

// An L2 table that two L1 entries name, the first with the copied flag.
const FALSE_TABLE: Numbers<'static> =
    counted! { LARGER, TWO_TABLES, (NEXT_TABLE, L2_TABLE), DATA, TABLE_TWICE, TWICE };

// A second L2 table, in cluster 6, whose refcount is 0.
const WRONG_TABLES: Numbers<'static> = counted! {
    LARGER, TWO_TABLES, TABLE, (L2_TABLE, COPIED + 0xe00), DATA, (LAST_ENTRY, COPIED + 0x1000),
    (NEXT_TABLE, COPIED + 0xc00), (0xc00, 0xa00), (0xc00 + 504, COPIED + 0xe00)
};

// Disks whose L1 tables are too short or too long.
const DISKS: &[Damage] = rows! {
    Damage { name: "a table longer than needed", changes: counted! { TWO_TABLES }, ..DAMAGE },
    Damage { name: "a disk of 65 clusters", changes: counted! { (24, 32769), TWO_TABLES },
        sizes: Sizes { clusters: 65, ..SIZES }, ..DAMAGE },
    Damage { name: "a disk of size 0", changes: counted! { (24, 0) },
        sizes: Sizes { clusters: 0, ..SIZES }, ..DAMAGE },
    Damage { name: "a cluster past the table", changes: counted! { (24, 32769) },
        lines: "short-l1 1 2\nleaked 0 missing 0 shared 0 false 0 late 0\n", is_short: true,
        sizes: Sizes { clusters: 65, ..SIZES }, ..DAMAGE },
    Damage { name: "a table that no entry names any more",
        changes: counted! { LARGER, TABLE, DATA, (0xc00 + 504, 0xe00), TO_7 },
        clusters: found! { 6 counter 1 uses 0 shared false, 7 counter 1 uses 0 shared false },
        flags: wrong! {
            l1 0 cluster 2 set false counter Some(1), offset 0x600 cluster 5 set false counter Some(1)
        },
        lines: "leaked 6 2 1 0\nlate l1 0 2 1\nlate 0x600 5 1\nshort-l1 1 2\n\
            leaked 2 missing 0 shared 0 false 0 late 2\n", is_short: true,
        sizes: Sizes { end: 4096, clusters: 128, ..SIZES }, ..DAMAGE },
    Damage { name: "no table", changes: counted! { (32, 0), (COUNTERS, 0x0001_0000_0000_0001), NO_DATA },
        lines: "short-l1 0 1\nleaked 0 missing 0 shared 0 false 0 late 0\n", is_short: true,
        sizes: Sizes { end: 2560, allocated: 0, ..SIZES }, ..DAMAGE },
    Damage { name: "the largest disk", changes: counted! { (24, u64::MAX) },
        lines: "short-l1 1 562949953421312\nleaked 0 missing 0 shared 0 false 0 late 0\n", is_short: true,
        sizes: Sizes { clusters: 36028797018963968, ..SIZES }, ..DAMAGE },
};

/// Wrong copied flags, and some right ones.
pub(super) fn flags() -> &'static [Damage] {
    FLAGS
}

/// Images with an external data file, and with several tables.
pub(super) fn other_images() -> &'static [Damage] {
    OTHERS
}

/// Disks whose L1 tables are too short or too long.
pub(super) fn disks() -> &'static [Damage] {
    DISKS
}
