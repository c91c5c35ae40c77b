//! L2 tables: new ones, copies for another cluster, and writes of modified ones.

use super::fixtures::{
    COPIED, DISK, Disk, EXTERNAL, NUMBER, check_table, check_written_as, cleared, cleared_l2_table,
    l2_entries, load, loaded, table_with,
};
use super::l2_edits::mapping;
use super::l2_mapping::Reads::{Backing, Data};
use super::l2_mapping::mapping_of;
use super::pending_clusters::clusters;
use qcow2_base::{Fault, HostCluster, MemStorage};
use qcow2_calls::{copy_l2_table, discard_cluster, write_l2_table_if_modified};
use qcow2_metadata::{L2Table, Table};
use qcow2_testing::{each, image_with, recorded, rows, same, same_image};
use std::alloc::Global;
use std::test::Fail;

#[test]
fn a_new_table_fills_a_cluster_with_entries_0(rt: HostRuntime) -> Result<(), Fail> {
    for (bits, entries) in [(9, 64), (16, 8192), (21, 262144)] {
        let table = cleared_l2_table(rt.alloc(), bits)?;
        check_table(&table, cleared(entries), bits)?;
    }
    Ok(())
}

// An entry, and the same entry in a copy of its table. The modified flag is set if guest data is external.
#[derive(Clone, Copy, Debug)]
struct Copied {
    disk: Disk,
    number: u64,
    copy: u64,
}

const COPIES: &[Copied] = rows! { Copied:
    { disk: DISK, number: 0, copy: 0 }, { disk: EXTERNAL, number: 1, copy: 1 },
    { disk: DISK, number: 0xa00, copy: 0xa00 }, { disk: DISK, number: COPIED + 0xa00, copy: 0xa00 },
    { disk: EXTERNAL, number: COPIED + 0xa01, copy: 0xa01 }, { disk: DISK, number: COPIED, copy: 0 },
    { disk: DISK, number: COPIED + 1, copy: 1 }, { disk: EXTERNAL, number: COPIED, copy: COPIED },
    { disk: EXTERNAL, number: COPIED + 1, copy: COPIED + 1 },
    { disk: Disk { cluster_bits: 16, external: true },
        number: 0x4040_0000_0001_0010, copy: 0x4040_0000_0001_0010 },
    { disk: Disk { cluster_bits: 21, external: false },
        number: 0x80ff_ffff_ffe0_0001, copy: 0x00ff_ffff_ffe0_0001 },
};

fn check_copy(copy: Result<L2Table, Fault>, row: Copied) -> Result<(), Fail> {
    let (copy, disk) = (copy?, row.disk);
    let found = (copy.external_data_file(), copy.cluster_bits());
    same(found, (disk.external, disk.cluster_bits), row)?;
    let state = loaded(l2_entries(disk.cluster_bits), 63, row.copy);
    check_table(&copy, state.placed(None, disk.external), row)
}

// Copies a table, and checks that the table stays.
fn check_copied(alloc: Global, row: Copied) -> Result<(), Fail> {
    let state = loaded(l2_entries(row.disk.cluster_bits), 63, row.number);
    let state = state.placed(Some(2), row.disk.external);
    let table: L2Table = table_with(alloc, row.disk, state)?;
    check_copy(copy_l2_table(&table), row)?;
    check_table(&table, state, row)
}

#[test]
fn a_copy_has_the_same_mappings_and_no_copied_entry(rt: HostRuntime) -> Result<(), Fail> {
    each(rt.alloc(), COPIES, check_copied)
}

// A table's cluster and modified flag, the result of a write, and its number of storage calls.
#[derive(Clone, Copy, Debug)]
struct Written {
    cluster: Option<u64>,
    modified: bool,
    answer: Result<(), Fault>,
    calls: usize,
}

const WRITES: &[Written] = rows! { Written:
    { cluster: None, modified: false, answer: Ok(()), calls: 0 },
    { cluster: Some(2), modified: false, answer: Ok(()), calls: 0 },
    { cluster: Some(1 << 47), modified: false, answer: Ok(()), calls: 0 },
    { cluster: Some(1 << 47), modified: true, answer: Err(Fault::TablePlace), calls: 0 },
    { cluster: Some(2), modified: true, answer: Ok(()), calls: 1 },
};

// Writes the table. If the write may make no storage call, the first one fails.
fn check_write(table: &mut L2Table, row: Written) -> Result<(), Fail> {
    let alloc = table.allocator();
    let mut image = recorded(alloc, image_with(alloc, 1536, &[(1024, 0x200)])?);
    if row.calls == 0 {
        image.plan = Some(0);
    }
    let cluster = table.get_cluster().unwrap_or(HostCluster(0));
    let answer = write_l2_table_if_modified(table, &mut image, cluster);
    let found = (answer, image.calls.len(), table.is_modified());
    same(found, (row.answer, row.calls, row.answer.is_err()), row)?;
    let number = if row.calls > 0 {
        (1048, NUMBER)
    } else {
        (1024, 0x200)
    };
    same_image(&image.inner, image_with(alloc, 1536, &[number]), row)
}

fn check_written(alloc: Global, row: Written) -> Result<(), Fail> {
    let state = loaded(64, 3, NUMBER).placed(row.cluster, row.modified);
    check_write(&mut table_with(alloc, DISK, state)?, row)
}

#[test]
fn write_if_modified_writes_a_modified_table_alone(rt: HostRuntime) -> Result<(), Fail> {
    each(rt.alloc(), WRITES, check_written)
}

// Returns an image whose cluster 2 is a table with one entry other than 0, which maps guest cluster 3 to
// cluster 5.
fn image_of_one_mapping(alloc: Global) -> Result<MemStorage, Fault> {
    image_with(alloc, 1536, &[(1048, COPIED + 0xa00)])
}

fn one_mapping(alloc: Global) -> Result<L2Table, Fault> {
    load(alloc, &mut image_of_one_mapping(alloc)?, DISK, 2, 64)
}

fn check_mapped(table: &mut L2Table, number: u64) -> Result<(), Fail> {
    let backing = Backing(number.wrapping_mul(512));
    let expected = mapping_of(if number == 3 { Data(5, true) } else { backing })?;
    same(mapping(table, number)?, expected, number)
}

#[test]
fn each_cluster_but_the_mapped_one_is_left_to_the_backing_file(
    rt: HostRuntime,
) -> Result<(), Fail> {
    let mut table = one_mapping(rt.alloc())?;
    for number in 0..64u64 {
        check_mapped(&mut table, number)?;
    }
    Ok(())
}

#[test]
fn a_mapping_is_written_as_read_and_gone_once_discarded(rt: HostRuntime) -> Result<(), Fail> {
    let mut table = one_mapping(rt.alloc())?;
    let mut image = image_with(rt.alloc(), 1536, &[])?;
    check_written_as(&mut table, &mut image, image_of_one_mapping(rt.alloc()))?;
    same(
        discard_cluster(&mut table, 3),
        Ok(Some(clusters(5, 1))),
        "discarded",
    )?;
    check_written_as(&mut table, &mut image, image_with(rt.alloc(), 1536, &[]))
}
