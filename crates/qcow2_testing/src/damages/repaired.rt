//! Images that can be repaired, and images that can't.

use super::clusters::FAR_APART;
use super::{LARGE_COUNTERS, LATE_TABLES, Loaded, Repair, Unrepairable};
use crate::sample_image::{
    AUTOCLEAR, COUNTERS, COUNTERS_4, COUNTERS_8, DATA, DATA_ENTRY, EXTERNAL, KEYS, KEYS_LENGTH,
    KEYS_OFFSET, L1_TABLE, L2_TABLE, LARGER, LUKS, NEXT_ENTRY, NEXT_TABLE, NO_DATA, REFTABLE,
    TABLE, TABLE_ENTRY, TABLE_TWICE, THIRD_ENTRY, TO_6, TO_7, TWICE, TWO_TABLES,
};
use crate::{COPIED, Numbers, counted, rows};
use qcow2_base::{Fault, UncountedPart};

const CONSISTENT: Repair = Repair {
    name: "",
    changes: counted! {},
    left: counted! {},
    lines: "consistent\n",
};

// The data of two entries, with refcount 2 and without copied flags.
const SHARED_DATA: Numbers<'static> = counted! { DATA, (NEXT_ENTRY, 0xa00), TWICE };

const COUNTS: &[Repair] = rows! {
    Repair { name: "an image in order", ..CONSISTENT },
    Repair { name: "an autoclear feature", changes: counted! { AUTOCLEAR }, ..CONSISTENT },
    Repair { name: "a leaked cluster", changes: counted! { (COUNTERS_8, 0x0000_0007_0000_0000) },
        ..CONSISTENT },
    Repair { name: "a leaked reference of data", changes: counted! { TWICE }, ..CONSISTENT },
    Repair { name: "the greatest counter", changes: LARGE_COUNTERS,
        left: counted! {
            (96, 0x0000_0006_0000_0068), (COUNTERS, 1), (COUNTERS + 8, 1), (COUNTERS + 16, 1),
            (COUNTERS + 24, 1), (COUNTERS + 32, 1), (COUNTERS + 40, 1)
        }, ..CONSISTENT },
    Repair { name: "missing data with the flag", changes: counted! { NO_DATA },
        ..CONSISTENT },
    Repair { name: "missing data, and a late flag", changes: counted! { DATA, NO_DATA },
        ..CONSISTENT },
    Repair { name: "missing clusters of compressed data", changes: counted! { (NEXT_ENTRY, 3 << 61 | 0xc01) },
        left: counted! { (NEXT_ENTRY, 3 << 61 | 0xc01), TO_7 }, ..CONSISTENT },
    Repair { name: "a missing encryption header", changes: counted! { LUKS, KEYS, KEYS_OFFSET, KEYS_LENGTH },
        left: counted! { LUKS, KEYS, KEYS_OFFSET, KEYS_LENGTH, TO_7 }, ..CONSISTENT },
    Repair { name: "the directory of stale bitmaps",
        changes: counted! { (104, 0x2385_2875_0000_0018), (112, 1 << 32), (120, 24), (128, 0xc00), TO_6 },
        left: counted! { (104, 0x2385_2875_0000_0018), (112, 1 << 32), (120, 24), (128, 0xc00) },
        ..CONSISTENT },
    Repair { name: "all counters missing", changes: counted! { (COUNTERS, 0), (COUNTERS_4, 0) },
        ..CONSISTENT },
    // an empty table may lie anywhere
    Repair { name: "an empty L1 table past the file's end",
        changes: counted! { (24, 0), (32, 0), (40, 0x1_0000) },
        left: counted! {
            (24, 0), (32, 0), (40, 0x1_0000), (COUNTERS, 0x0001_0000_0000_0001), NO_DATA
        }, ..CONSISTENT },
    // clusters that no block counts stay wrong
    Repair { name: "no block", changes: counted! { TABLE, (REFTABLE, 0) },
        left: counted! { TABLE, (REFTABLE, 0) },
        lines: "missing 0 4 0 1\nmissing 5 1 0 1\nfalse 0x600 5 0\n\
            leaked 0 missing 5 shared 0 false 1 late 0\n", ..CONSISTENT },
    Repair { name: "data past the last counter and a leaked cluster",
        changes: counted! { (NEXT_ENTRY, 0x2_0000), (COUNTERS_8, 1) },
        left: counted! { (NEXT_ENTRY, 0x2_0000) },
        lines: "missing 256 1 0 1\npast 256 1 0 1\nleaked 0 missing 1 shared 0 false 0 late 0 past 1\n",
        ..CONSISTENT },
    // a check counts these in several windows, and the last doesn't begin with cluster 0
    Repair { name: "data far apart, past the last counter", changes: FAR_APART, left: FAR_APART,
        lines: "missing 256 1 0 1\nmissing 4095 2 0 1\nmissing 8192 1 0 1\n\
            missing 2147483648 1 0 1\nmissing 140737488355327 1 0 2\n\
            past 256 1 0 1\npast 4095 2 0 1\npast 8192 1 0 1\n\
            past 2147483648 1 0 1\npast 140737488355327 1 0 2\n\
            leaked 0 missing 6 shared 0 false 0 late 0 past 6\n", ..CONSISTENT },
    Repair { name: "data past the last counter with the flag",
        changes: counted! { (NEXT_ENTRY, COPIED + (300 << 9)) },
        left: counted! { (NEXT_ENTRY, COPIED + (300 << 9)) },
        lines: "missing 300 1 0 1\npast 300 1 0 1\nfalse 0x800 300 0\n\
            leaked 0 missing 1 shared 0 false 1 late 0 past 1\n",
        ..CONSISTENT },
};

const FLAGS: &[Repair] = rows! {
    Repair { name: "the late flag of data", changes: counted! { DATA }, ..CONSISTENT },
    Repair { name: "the late flag of a table", changes: counted! { TABLE }, ..CONSISTENT },
    Repair { name: "data of two entries, whose flags are false",
        changes: counted! { (NEXT_ENTRY, COPIED + 0xa00), TWICE },
        left: counted! { DATA, (NEXT_ENTRY, 0xa00), TWICE }, ..CONSISTENT },
    Repair { name: "data of two entries that one counts", changes: counted! { (NEXT_ENTRY, COPIED + 0xa00) },
        left: SHARED_DATA, ..CONSISTENT },
    Repair { name: "data of two entries that are counted three times",
        changes: counted! { DATA, (NEXT_ENTRY, 0xa00), (COUNTERS_4, 0x0001_0003_0000_0000) },
        left: SHARED_DATA, ..CONSISTENT },
    Repair { name: "the false flag of a table that two entries name",
        changes: counted! { LARGER, TWO_TABLES, (NEXT_TABLE, L2_TABLE) },
        left: counted! {
            LARGER, TWO_TABLES, TABLE, (NEXT_TABLE, L2_TABLE), DATA, TABLE_TWICE, TWICE
        }, ..CONSISTENT },
    Repair { name: "late flags of two tables", changes: LATE_TABLES,
        left: counted! {
            LARGER, TWO_TABLES, (NEXT_TABLE, COPIED + 0xc00), (0xc00 + 504, COPIED + 0xe00), TO_7
        }, ..CONSISTENT },
    Repair { name: "the late flag of data in another file", changes: counted! { EXTERNAL, DATA },
        left: counted! { EXTERNAL, NO_DATA }, ..CONSISTENT },
    // a table in the last cluster of a file that ends within it
    Repair { name: "an L2 table that the file's end cuts",
        changes: counted! { LARGER, TWO_TABLES, (NEXT_TABLE, COPIED + 0xc00), (0xc00, 0) },
        left: counted! { LARGER, TWO_TABLES, (NEXT_TABLE, COPIED + 0xc00), (0xc00, 0), TO_6 },
        ..CONSISTENT },
};

const LOADED: &[Loaded] = rows! { Loaded:
    { name: "an image in order", changes: counted! {}, l2_tables: &[L2_TABLE], checked_loads: 4 },
    { name: "a leaked cluster", changes: counted! { TO_6 }, l2_tables: &[L2_TABLE], checked_loads: 4 },
    { name: "false flags", changes: counted! { (NEXT_ENTRY, COPIED + 0xa00), TWICE },
        l2_tables: &[L2_TABLE], checked_loads: 5 },
    { name: "late flags of two tables", changes: LATE_TABLES, l2_tables: &[L2_TABLE, 0xc00],
        checked_loads: 4 },
    { name: "missing data", changes: counted! { NO_DATA }, l2_tables: &[L2_TABLE], checked_loads: 4 },
    { name: "all of that in two tables",
        changes: counted! {
            LARGER, TWO_TABLES, DATA, (NEXT_TABLE, COPIED + 0xc00), (0xc00, COPIED + 0xa00),
            (0xc00 + 504, 0xe00), (COUNTERS_8, 1)
        }, l2_tables: &[L2_TABLE, 0xc00], checked_loads: 5 },
};

// The marks of a dirty and of a corrupt image, and another compression. Their field comes before the others.
const DIRTY: (u64, u64) = (72, 1);

const CORRUPT: (u64, u64) = (72, 2);

const ALL_BITS: Numbers<'static> = counted! {
    (72, 11), (96, 0x0000_0004_0000_0070), (104, 1 << 56), TO_6
};

const ALL_BITS_LEFT: Numbers<'static> = counted! {
    (72, 8), (96, 0x0000_0004_0000_0070), (104, 1 << 56)
};

const MARKED: &[Repair] = rows! {
    Repair { name: "a dirty image in order", changes: counted! { DIRTY }, ..CONSISTENT },
    Repair { name: "a corrupt image in order", changes: counted! { CORRUPT }, ..CONSISTENT },
    Repair { name: "marks, and an autoclear feature", changes: counted! { (72, 3), AUTOCLEAR },
        ..CONSISTENT },
    Repair { name: "a dirty image with missing data", changes: counted! { DIRTY, NO_DATA },
        ..CONSISTENT },
    Repair { name: "a corrupt image with a false flag",
        changes: counted! { CORRUPT, DATA, (NEXT_ENTRY, COPIED + 0xa00), TWICE },
        left: counted! { DATA, (NEXT_ENTRY, 0xa00), TWICE }, ..CONSISTENT },
    Repair { name: "marks of an image with an external data file",
        changes: counted! { (72, 7), DATA },
        left: counted! { EXTERNAL, NO_DATA }, ..CONSISTENT },
    Repair { name: "marks of an image of another compression, with a leak", changes: ALL_BITS,
        left: ALL_BITS_LEFT, ..CONSISTENT },
    // they stay where something stays wrong
    Repair { name: "a dirty image with data past the last counter",
        changes: counted! { DIRTY, (NEXT_ENTRY, 0x2_0000), (COUNTERS_8, 1) },
        left: counted! { DIRTY, (NEXT_ENTRY, 0x2_0000) },
        lines: "missing 256 1 0 1\npast 256 1 0 1\ndirty\n\
            leaked 0 missing 1 shared 0 false 0 late 0 past 1\n", ..CONSISTENT },
    Repair { name: "a corrupt image without a block", changes: counted! { CORRUPT, TABLE, (REFTABLE, 0) },
        left: counted! { CORRUPT, TABLE, (REFTABLE, 0) },
        lines: "missing 0 4 0 1\nmissing 5 1 0 1\nfalse 0x600 5 0\ncorrupt\n\
            leaked 0 missing 5 shared 0 false 1 late 0\n", ..CONSISTENT },
    Repair { name: "a corrupt image with data past the file, whose refcount is right",
        changes: counted! { CORRUPT, (NEXT_ENTRY, COPIED + 0x1400), (COUNTERS_8, 0x0001_0000) },
        left: counted! { CORRUPT, (NEXT_ENTRY, COPIED + 0x1400), (COUNTERS_8, 0x0001_0000) },
        lines: "past 10 1 1 1\ncorrupt\nleaked 0 missing 0 shared 0 false 0 late 0 past 1\n",
        ..CONSISTENT },
    Repair { name: "a dirty image with data past the file, and a leaked cluster",
        changes: counted! { DIRTY, TO_6, (NEXT_ENTRY, COPIED + 0x1400), (COUNTERS_8, 0x0001_0000) },
        left: counted! { DIRTY, (NEXT_ENTRY, COPIED + 0x1400), (COUNTERS_8, 0x0001_0000) },
        lines: "past 10 1 1 1\ndirty\nleaked 0 missing 0 shared 0 false 0 late 0 past 1\n",
        ..CONSISTENT },
    Repair { name: "a dirty image with data in the file's last cluster",
        changes: counted! { DIRTY, (NEXT_ENTRY, COPIED + 0x1200), (COUNTERS_8, 0x0000_0001_0000_0000) },
        left: counted! { (NEXT_ENTRY, COPIED + 0x1200), (COUNTERS_8, 0x0000_0001_0000_0000) },
        ..CONSISTENT },
};

// Refcounts of one bit, the first six of them 1.
const NARROW: (u64, u64) = (96, 0x0000_0000_0000_0068);

const NARROW_COUNTERS: (u64, u64) = (COUNTERS, 0x3f00_0000_0000_0000);

// 400 unknown bytes in the header, and the backing file FI, whose name is bytes 1 and 2 of the image. The
// autoclear bit makes a load for writing place the text anew, and it doesn't fit.
const NO_ROOM: Numbers<'static> = counted! {
    (8, 1), (16, 0x0000_0002_0000_0009), AUTOCLEAR, (96, 0x0000_0004_0000_01f8)
};

const SNAPSHOTS: Fault = Fault::Uncounted(UncountedPart::Snapshots);

const UNREPAIRABLE: &[Unrepairable] = rows! { Unrepairable:
    { name: "snapshots", changes: counted! { (60, 1 << 32) }, fault: SNAPSHOTS },
    { name: "a bad refcount table entry", changes: counted! { (REFTABLE + 8, 1) },
        fault: Fault::EntryReserved },
    { name: "data in the L1 table", changes: counted! { AUTOCLEAR, (NEXT_ENTRY, L1_TABLE) },
        fault: Fault::Overlap },
    { name: "data in an L2 table", changes: counted! { (NEXT_ENTRY, L2_TABLE), (COUNTERS_8, 1) },
        fault: Fault::Overlap },
    { name: "data in the refcount table", changes: counted! { AUTOCLEAR, (DATA_ENTRY, REFTABLE) },
        fault: Fault::Overlap },
    { name: "data in the refcount table, counted so",
        changes: counted! {
            (DATA_ENTRY, REFTABLE), (COUNTERS, 0x0001_0001_0001_0002), (COUNTERS_4, 1 << 48)
        }, fault: Fault::Overlap },
    { name: "a block that two entries name", changes: counted! { (REFTABLE + 8, 0x800) },
        fault: Fault::Overlap },
    { name: "two uses that a counter of one bit can't hold",
        changes: counted! { AUTOCLEAR, NARROW, NARROW_COUNTERS, (COUNTERS_4, 0), (NEXT_ENTRY, 0xa00) },
        fault: Fault::CounterRange },
    { name: "the cluster that comes first decides",
        changes: counted! {
            NARROW, NARROW_COUNTERS, (COUNTERS_4, 0), (NEXT_ENTRY, REFTABLE), (THIRD_ENTRY, 0xa00)
        }, fault: Fault::Overlap },
    { name: "a header without room", changes: NO_ROOM, fault: Fault::HeaderTooLong },
    { name: "data in the L1 table of a marked image",
        changes: counted! { (72, 3), (NEXT_ENTRY, L1_TABLE) }, fault: Fault::Overlap },
    { name: "a short table of a dirty image", changes: counted! { (24, 32769), DIRTY },
        fault: Fault::L1Short },
    // L1 tables that are too short for their disks, also beside other reasons to refuse
    { name: "a cluster past the L1 table", changes: counted! { AUTOCLEAR, (24, 32769) },
        fault: Fault::L1Short },
    { name: "a table that no entry names any more",
        changes: counted! { LARGER, (0xc00 + 504, COPIED + 0xe00), TO_7 }, fault: Fault::L1Short },
    { name: "a short table, and snapshots", changes: counted! { (24, 32769), (60, 1 << 32) },
        fault: SNAPSHOTS },
    { name: "a short table, and a bad L1 entry", changes: counted! { (24, 32769), (TABLE_ENTRY, 1) },
        fault: Fault::L1Short },
    { name: "a short table, and an L2 table past the file's end",
        changes: counted! { (24, 32769), (TABLE_ENTRY, COPIED + 0x1_0000) }, fault: Fault::L1Short },
    { name: "a short table, and data in it", changes: counted! { (24, 32769), (NEXT_ENTRY, L1_TABLE) },
        fault: Fault::L1Short },
};

/// Refcounts that a repair corrects.
pub(super) fn counts() -> &'static [Repair] {
    COUNTS
}

/// Marks that a repair clears, and some that it leaves.
pub(super) fn marked() -> &'static [Repair] {
    MARKED
}

/// Copied flags that a repair corrects.
pub(super) fn flags() -> &'static [Repair] {
    FLAGS
}

/// Images that can't be repaired.
pub(super) fn unrepairable() -> &'static [Unrepairable] {
    UNREPAIRABLE
}

/// Images whose tables a repair loads.
pub(super) fn loaded() -> &'static [Loaded] {
    LOADED
}
