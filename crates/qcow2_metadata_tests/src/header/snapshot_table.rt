//! Snapshot tables: their entries, and those that can't be followed.

use super::fixtures::{Changes, least_with, load_with};
use qcow2_base::{Fault, MemStorage, OnDiskStruct, SnapshotHeader, UncountedPart};
use qcow2_calls::{load_header, load_snapshots};
use qcow2_metadata::SnapshotTable;
use qcow2_testing::{FailingStorage, each, put_bytes, rows, same};
use std::alloc::Global;
use std::test::Fail;

// Changes of the minimal header, the entries of the snapshot table, and the table's bytes.
#[derive(Clone, Copy)]
struct Row {
    changes: Changes,
    entries: &'static [SnapshotHeader],
    byte_count: u64,
}

// An entry of zeros.
const ZEROS: SnapshotHeader = SnapshotHeader {
    l1_table_offset: 0,
    l1_size: 0,
    id_str_size: 0,
    name_size: 0,
    date_sec: 0,
    date_nsec: 0,
    vm_clock_nsec: 0,
    vm_state_size: 0,
    extra_data_size: 0,
};

const ROWS: &[Row] = rows! { Row:
    // without snapshots the offset says nothing
    { changes: "", entries: &[], byte_count: 0 },
    { changes: "snapshots_offset=0x201", entries: &[], byte_count: 0 },
    { changes: "snapshots_offset=0xffffffffffffffff", entries: &[], byte_count: 0 },
    { changes: "nb_snapshots=1, snapshots_offset=0x200", entries: &[ZEROS], byte_count: 40 },
    { changes: "nb_snapshots=3, snapshots_offset=0x200", entries: &[ZEROS; 3], byte_count: 120 },
    // two snapshots as qemu-img takes them
    { changes: "cluster_bits=16, nb_snapshots=2, snapshots_offset=0xd0000, \
        851968=0000000000070000 00000001 0001 0005 6b0ec68e 2a791f88 00*12 00000018 \
        00*8 0000000004000000 00*8 :1first, \
        852040=00000000000c0000 00000001 0001 000e 6b0ec68e 2b972a18 00*12 00000018 \
        00*8 0000000004000000 00*8 3274686520736563 6f6e64206f6e65",
        entries: &[FIRST, SECOND], byte_count: 151 },
    // each size and number alone; a name of one byte is padded to eight
    { changes: "nb_snapshots=2, snapshots_offset=0x200, 526=0001",
        entries: &[SnapshotHeader { name_size: 1, ..ZEROS }, ZEROS], byte_count: 88 },
    { changes: "nb_snapshots=2, snapshots_offset=0x200, 524=0008",
        entries: &[SnapshotHeader { id_str_size: 8, ..ZEROS }, ZEROS], byte_count: 88 },
    { changes: "nb_snapshots=1, snapshots_offset=0x200, 536=0102030405060708 090a0b0c",
        entries: &[SnapshotHeader {
            vm_clock_nsec: 0x0102_0304_0506_0708, vm_state_size: 0x090a_0b0c, ..ZEROS
        }], byte_count: 40 },
    { changes: "nb_snapshots=1, snapshots_offset=0x200, 524=ffff ffff, 548=00000400",
        entries: &[SnapshotHeader {
            id_str_size: 65535, name_size: 65535, extra_data_size: 1024, ..ZEROS
        }], byte_count: 132134 },
    // the last 512 bytes up to 2^56
    { changes: "nb_snapshots=12, snapshots_offset=0x00fffffffffffe00", entries: &[ZEROS; 12],
        byte_count: 480 },
};

const FIRST: SnapshotHeader = SnapshotHeader {
    l1_table_offset: 458752,
    l1_size: 1,
    id_str_size: 1,
    name_size: 5,
    date_sec: 1796130446,
    date_nsec: 712581000,
    extra_data_size: 24,
    ..ZEROS
};

const SECOND: SnapshotHeader = SnapshotHeader {
    l1_table_offset: 786432,
    name_size: 14,
    date_nsec: 731327000,
    ..FIRST
};

// Changes of the minimal header by which the snapshot table can't be followed.
const REFUSED: &[Changes] = rows! {
    "nb_snapshots=1, snapshots_offset=0x201", "nb_snapshots=1, snapshots_offset=0x100",
    "cluster_bits=10, nb_snapshots=1, snapshots_offset=0x200",
    // an entry more than up to 2^56, and a table past it
    "nb_snapshots=13, snapshots_offset=0x00fffffffffffe00",
    "nb_snapshots=1, snapshots_offset=0x0100000000000000",
    "nb_snapshots=1, snapshots_offset=0xfffffffffffffe00",
    "nb_snapshots=65537, snapshots_offset=0x200", "nb_snapshots=0xffffffff, snapshots_offset=0x200",
    // too much extra data, in the first entry and in the second
    "nb_snapshots=1, snapshots_offset=0x200, 548=00000401",
    "nb_snapshots=1, snapshots_offset=0x200, 548=ffffffff",
    "nb_snapshots=2, snapshots_offset=0x200, 588=00000401",
};

const NO_SNAPSHOTS: Fault = Fault::Uncounted(UncountedPart::Snapshots);

// The snapshot table of an image.
fn loaded(alloc: Global, image: &mut MemStorage) -> Result<SnapshotTable, Fault> {
    let header = load_header(alloc, image, false)?;
    load_snapshots(alloc, image, &header)
}

// The number of entries of a table that was loaded, and its bytes.
fn sizes(table: Result<SnapshotTable, Fault>) -> Result<(usize, u64), Fault> {
    let table = table?;
    Ok((table.snapshots().len(), table.byte_count()))
}

fn check_row(alloc: Global, row: Row) -> Result<(), Fail> {
    let table = loaded(alloc, &mut least_with(alloc, row.changes, "")?)?;
    same(table.snapshots(), row.entries, row.changes)?;
    same(table.byte_count(), row.byte_count, row.changes)
}

fn check_refused(alloc: Global, changes: Changes) -> Result<(), Fail> {
    let table = loaded(alloc, &mut least_with(alloc, changes, "")?);
    same(sizes(table), Err(NO_SNAPSHOTS), changes)
}

#[test]
fn a_snapshot_table_has_its_entries(rt: HostRuntime) -> Result<(), Fail> {
    each(rt.alloc(), ROWS, check_row)
}

#[test]
fn a_snapshot_table_that_cannot_be_followed_is_refused(rt: HostRuntime) -> Result<(), Fail> {
    each(rt.alloc(), REFUSED, check_refused)
}

#[test]
fn a_snapshot_table_has_65536_entries_at_most(rt: HostRuntime) -> Result<(), Fail> {
    let changes = "nb_snapshots=65536, snapshots_offset=0x200";
    let table = loaded(rt.alloc(), &mut least_with(rt.alloc(), changes, "")?);
    same(sizes(table), Ok((65536, 2621440)), changes)
}

// An image of 64 MiB and more, whose snapshot table from byte 512 on has `count` entries of 132134 bytes.
fn long_table(alloc: Global, count: u32) -> Result<MemStorage, Fail> {
    let mut image = MemStorage::new(vec![in alloc; 0; 0x0410_0000]?);
    let least = least_with(alloc, "snapshots_offset=0x200", "")?;
    put_bytes(&mut image, 0, least.bytes())?;
    put_bytes(&mut image, 60, &count.to_be_bytes())?;
    let entry = SnapshotHeader {
        id_str_size: 65535,
        name_size: 65535,
        extra_data_size: 1024,
        ..ZEROS
    };
    let mut bytes = [0; 40];
    entry.store_to_be(&mut bytes)?;
    for index in 0..u64::from(count) {
        put_bytes(
            &mut image,
            index.wrapping_mul(132136).wrapping_add(512),
            &bytes,
        )?;
    }
    Ok(image)
}

#[test]
fn a_snapshot_table_has_64_mib_at_most(rt: HostRuntime) -> Result<(), Fail> {
    // 506 entries and the padding of each, and one more
    let table = loaded(rt.alloc(), &mut long_table(rt.alloc(), 507)?);
    same(sizes(table), Ok((507, 66992950)), "507 entries")?;
    let table = loaded(rt.alloc(), &mut long_table(rt.alloc(), 508)?);
    same(sizes(table), Err(NO_SNAPSHOTS), "508 entries")
}

#[test]
fn a_snapshot_table_over_a_failing_storage_is_the_storage_fault(
    rt: HostRuntime,
) -> Result<(), Fail> {
    let alloc = rt.alloc();
    let changes = "nb_snapshots=3, snapshots_offset=0x200";
    let header = load_with(alloc, changes, "")?;
    for passes in 0..3 {
        let mut image = FailingStorage::new(alloc, least_with(alloc, changes, "")?);
        image.plan = Some(passes);
        let table = load_snapshots(alloc, &mut image, &header);
        same(sizes(table), Err(Fault::Storage), passes)?;
        let table = load_snapshots(alloc, &mut image, &header);
        same(sizes(table), Ok((3, 120)), passes)?;
    }
    Ok(())
}
