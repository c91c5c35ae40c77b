//! Tests that hold alike for L1 tables, L2 tables and refcount tables.

use super::fixtures::{check_table, cleared, cleared_l1_table, disk_of, load};
use qcow2_base::{ClusterCount, Fault};
use qcow2_calls::{write_entry, write_table};
use qcow2_metadata::{L1Table, L2Table, RefTable, Table, TableEntry};
use qcow2_testing::{
    all_same, each, filled_image, image_with, put, recorded, rows, same, same_image,
};
use std::alloc::Global;
use std::test::Fail;

const RESERVED: Option<Fault> = Some(Fault::EntryReserved);

const UNALIGNED: Option<Fault> = Some(Fault::EntryUnaligned);

/// A table past the largest end offset.
const PAST: Option<Fault> = Some(Fault::TablePlace);

/// More entries than an L1 table or a refcount table may have.
const TOO_BIG: Option<Fault> = Some(Fault::TableTooBig);

/// A table at a cluster, numbers among zeros, by their offsets in the image, and the fault of its load, if
/// any.
#[derive(Clone, Copy, Debug)]
struct Place {
    cluster_bits: u32,
    cluster: u64,
    entries: usize,
    numbers: &'static [(u64, u64)],
    fault: Option<Fault>,
}

const PLACES: &[Place] = rows! { Place:
    { cluster_bits: 9, cluster: (1 << 47) - 1, entries: 64, numbers: &[], fault: None },
    { cluster_bits: 9, cluster: (1 << 47) - 1, entries: 65, numbers: &[], fault: PAST },
    { cluster_bits: 9, cluster: 1 << 47, entries: 64, numbers: &[], fault: PAST },
    { cluster_bits: 9, cluster: u64::MAX, entries: 64, numbers: &[], fault: PAST },
    { cluster_bits: 9, cluster: 1 << 47, entries: 0, numbers: &[], fault: None },
    { cluster_bits: 9, cluster: (1 << 47) + 1, entries: 0, numbers: &[], fault: PAST },
    { cluster_bits: 9, cluster: (1 << 47) - 65535, entries: 4194304, numbers: &[], fault: PAST },
    { cluster_bits: 9, cluster: u64::MAX, entries: 4194305, numbers: &[], fault: TOO_BIG },
    { cluster_bits: 9, cluster: 0, entries: usize::MAX, numbers: &[], fault: TOO_BIG },
    { cluster_bits: 16, cluster: (1 << 40) - 1, entries: 8192, numbers: &[], fault: None },
    { cluster_bits: 16, cluster: 1 << 40, entries: 8192, numbers: &[], fault: PAST },
    { cluster_bits: 21, cluster: 1 << 63, entries: 262144, numbers: &[], fault: PAST },
    // invalid entries: the first decides, also in another piece of 512 entries
    { cluster_bits: 9, cluster: 2, entries: 64, numbers: &[(1528, 2)], fault: RESERVED },
    { cluster_bits: 16, cluster: 2, entries: 8192,
        numbers: &[(131112, 0x200), (131120, 2)], fault: UNALIGNED },
    { cluster_bits: 16, cluster: 2, entries: 8192,
        numbers: &[(131112, 2), (131120, 0x200)], fault: RESERVED },
    { cluster_bits: 16, cluster: 2, entries: 8192,
        numbers: &[(135160, 0x200), (135168, 2)], fault: UNALIGNED },
    { cluster_bits: 16, cluster: 2, entries: 8192,
        numbers: &[(135168, 0x202), (135176, 0x200)], fault: RESERVED },
};

// Loads the table of a row. If the load may make no storage call, the first one fails.
fn load_of(alloc: Global, row: Place) -> Result<L1Table, Fault> {
    let mut image = image_with(alloc, 64, row.numbers)?;
    put(&mut image, 0, u64::MAX)?;
    let mut image = recorded(alloc, image);
    if row.entries == 0 || row.fault == PAST || row.fault == TOO_BIG {
        image.plan = Some(0);
    }
    let disk = disk_of(row.cluster_bits);
    load(alloc, &mut image, disk, row.cluster, row.entries)
}

// Checks that a table is loaded if its place is valid, and that otherwise no byte is read. All bytes past the
// image's end are zero. A load without entries makes no storage call.
fn check_load(alloc: Global, row: Place) -> Result<(), Fail> {
    match load_of(alloc, row) {
        Ok(table) => {
            same(None, row.fault, row)?;
            let state = cleared(row.entries).placed(Some(row.cluster), false);
            check_table(&table, state, row)
        }
        Err(found) => same(Some(found), row.fault, row),
    }
}

#[test]
fn a_table_is_loaded_from_where_it_may_be(rt: HostRuntime) -> Result<(), Fail> {
    each(rt.alloc(), PLACES, check_load)
}

// A table, and the fault that refuses a write of it and of an entry.
#[derive(Clone, Copy, Debug)]
struct Refusal {
    entries: usize,
    cluster: Option<u64>,
    modified: bool,
    fault: Fault,
}

const REFUSALS: &[Refusal] = rows! { Refusal:
    { entries: 64, cluster: None, modified: true, fault: Fault::NoOffset },
    { entries: 64, cluster: Some(1 << 47), modified: true, fault: Fault::TablePlace },
    { entries: 65, cluster: Some((1 << 47) - 1), modified: false, fault: Fault::TablePlace },
    { entries: 64, cluster: Some((1 << 55) - 1), modified: false, fault: Fault::TablePlace },
    { entries: 4194305, cluster: None, modified: false, fault: Fault::NoOffset },
    { entries: 4194305, cluster: Some(1), modified: false, fault: Fault::TableTooBig },
    { entries: 4194305, cluster: Some(1 << 47), modified: true, fault: Fault::TableTooBig },
};

fn check_refusal(table: &mut L1Table, row: Refusal) -> Result<(), Fail> {
    let mut image = filled_image(table.allocator(), 512)?;
    let answer = write_table(table, &mut image);
    let found = (answer, write_entry(table, &mut image, 0));
    same(found, (Err(row.fault), Err(row.fault)), row)?;
    same_image(&image, filled_image(table.allocator(), 512), row)?;
    check_table(
        table,
        cleared(row.entries).placed(row.cluster, row.modified),
        row,
    )
}

fn check_not_written(alloc: Global, row: Refusal) -> Result<(), Fail> {
    let mut table = cleared_l1_table(alloc, row.entries, row.cluster, row.modified)?;
    check_refusal(&mut table, row)
}

#[test]
fn a_table_without_a_lawful_place_is_not_written(rt: HostRuntime) -> Result<(), Fail> {
    each(rt.alloc(), REFUSALS, check_not_written)
}

// A table of 65 entries fills its second cluster only in part.
#[test]
fn an_entry_past_the_end_is_the_entry_0(rt: HostRuntime) -> Result<(), Fail> {
    let table = cleared_l1_table(rt.alloc(), 65, None, true)?;
    all_same! {
        "64 and 65",
        table.byte_size() => 520, table.cluster_count() => ClusterCount(2),
        table.in_bounds(64) => true, table.get_ref(64).map(|entry| entry.to_plain()) => Some(0),
        table.in_bounds(65) => false, table.get_ref(65).is_none() => true, table.get(65).to_plain() => 0,
        table.get(usize::MAX).to_plain() => 0,
    }
}

#[test]
fn each_kind_of_table_has_its_name_and_its_most_entries() -> Result<(), Fail> {
    all_same! {
        "tables",
        (L1Table::NAME, L1Table::MAX_ENTRIES) => ("L1 table", 4194304),
        (L2Table::NAME, L2Table::MAX_ENTRIES) => ("L2 table", 262144),
        (RefTable::NAME, RefTable::MAX_ENTRIES) => ("Refcount table", 4194304),
    }
}
