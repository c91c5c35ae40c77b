//! L2 tables that are loaded again, from another cluster: each equals the table there. A failed read, or an
//! invalid entry, leaves valid entries, no cluster, and the modified flag set.

use super::fixtures::{cleared_l2_table, disk_of, l2_entries, load};
use qcow2_base::{Fault, HostCluster, MemStorage, Storage};
use qcow2_calls::{header_of, reload_l2_table};
use qcow2_metadata::{L2Table, Table, TableEntry};
use qcow2_testing::{FailingStorage, image_with, recorded, rows, same};
use std::alloc::Global;
use std::test::Fail;

// Returns the entry at an index of the table at a cluster: data, each in another cluster, or zeros.
fn number(cluster: u64, index: usize, cluster_bits: u32) -> u64 {
    let place = (index as u64).wrapping_mul(5).wrapping_add(cluster) % 8191;
    if place == 0 {
        1
    } else {
        place << cluster_bits.min(21)
    }
}

// Returns an image with such tables at clusters 0 and 1.
fn two_tables(alloc: Global, cluster_bits: u32) -> Result<MemStorage, Fail> {
    let entries = l2_entries(cluster_bits);
    let mut bytes = Vec::new(alloc);
    for place in 0..entries.saturating_mul(2) {
        let cluster = u64::from(place >= entries);
        let index = if place >= entries {
            place - entries
        } else {
            place
        };
        bytes.extend_from_slice(&number(cluster, index, cluster_bits).to_be_bytes())?;
    }
    Ok(MemStorage::new(bytes))
}

// Loads the table again, from a cluster of an image with its cluster size.
fn reload<S: Storage>(table: &mut L2Table, image: &mut S, cluster: u64) -> Result<(), Fault> {
    let header = header_of(table.allocator(), table.cluster_bits(), 4, false)?;
    reload_l2_table(table, image, &header, HostCluster(cluster))
}

// Returns the first entry that differs from the table at a cluster, if any.
fn other_entry(table: &L2Table, cluster: u64) -> Option<(usize, u64)> {
    for index in 0..table.entries() {
        let found = table.get(index).to_plain();
        if found != number(cluster, index, table.cluster_bits()) {
            return Some((index, found));
        }
    }
    None
}

// Returns the table's cluster, and whether it is modified.
fn placed(table: &L2Table) -> (Option<HostCluster>, bool) {
    (table.get_cluster(), table.is_modified())
}

// Fails unless the table is that of cluster 1.
fn check_second(table: &L2Table, bits: u32) -> Result<(), Fail> {
    same(other_entry(table, 1), None, bits)?;
    same(placed(table), (Some(HostCluster(1)), false), bits)
}

fn check_reloaded(alloc: Global, bits: u32) -> Result<(), Fail> {
    let mut image = two_tables(alloc, bits)?;
    let mut table: L2Table = load(alloc, &mut image, disk_of(bits), 0, l2_entries(bits))?;
    same(other_entry(&table, 0), None, bits)?;
    table.set_modified();
    same(reload(&mut table, &mut image, 1), Ok(()), bits)?;
    check_second(&table, bits)?;
    let mut new = cleared_l2_table(alloc, bits)?;
    same(reload(&mut new, &mut image, 1), Ok(()), bits)?;
    check_second(&new, bits)
}

#[test]
fn a_table_that_is_read_again_has_the_entries_that_are_there(rt: HostRuntime) -> Result<(), Fail> {
    check_reloaded(rt.alloc(), 9)?;
    check_reloaded(rt.alloc(), 16)?;
    check_reloaded(rt.alloc(), 21)
}

// Fails unless the load is refused at the storage call after the first `passes`, and succeeds when repeated.
fn check_refused(
    image: &mut FailingStorage<MemStorage>,
    table: &mut L2Table,
    passes: u64,
) -> Result<(), Fail> {
    image.plan = Some(passes);
    let found = (reload(table, image, 1), placed(table));
    same(found, (Err(Fault::Storage), (None, true)), passes)?;
    same(reload(table, image, 1), Ok(()), passes)?;
    check_second(table, table.cluster_bits())
}

#[test]
fn a_refused_read_leaves_a_table_without_a_cluster(rt: HostRuntime) -> Result<(), Fail> {
    let alloc = rt.alloc();
    let mut image = recorded(alloc, two_tables(alloc, 16)?);
    let mut table: L2Table = load(alloc, &mut image, disk_of(16), 0, 8192)?;
    for passes in 0..16 {
        check_refused(&mut image, &mut table, passes)?;
    }
    Ok(())
}

// An entry in the table at cluster 1 of an image whose other bytes are zero, its index, and the fault.
#[derive(Clone, Copy, Debug)]
struct Damaged {
    index: u64,
    number: u64,
    fault: Fault,
}

const DAMAGED: &[Damaged] = rows! { Damaged:
    { index: 0, number: 2, fault: Fault::EntryReserved },
    { index: 511, number: 0x1_0200, fault: Fault::EntryUnaligned },
    { index: 512, number: 1 << 57, fault: Fault::EntryReserved },
    { index: 8191, number: 1 << 56 | 1, fault: Fault::EntryReserved },
};

fn check_damaged(alloc: Global, row: Damaged) -> Result<(), Fail> {
    let offset = row.index.wrapping_mul(8).wrapping_add(65536);
    let mut image = image_with(alloc, 131072, &[(offset, row.number)])?;
    let mut table = cleared_l2_table(alloc, 16)?;
    let found = (reload(&mut table, &mut image, 1), placed(&table));
    same(found, (Err(row.fault), (None, true)), row)?;
    same(table.entries(), 8192, row)?;
    same(reload(&mut table, &mut image, 0), Ok(()), row)
}

#[test]
fn an_entry_that_is_none_refuses_a_table(rt: HostRuntime) -> Result<(), Fail> {
    for row in DAMAGED {
        check_damaged(rt.alloc(), *row)?;
    }
    Ok(())
}

#[test]
fn a_table_is_read_again_from_where_it_may_be(rt: HostRuntime) -> Result<(), Fail> {
    let mut image = recorded(rt.alloc(), two_tables(rt.alloc(), 9)?);
    let mut table = cleared_l2_table(rt.alloc(), 9)?;
    let last = (1 << 47) - 1;
    let found = (reload(&mut table, &mut image, last), placed(&table));
    same(found, (Ok(()), (Some(HostCluster(last)), false)), "last")?;
    image.calls.clear();
    let found = (reload(&mut table, &mut image, 1 << 47), placed(&table));
    let kept = (Some(HostCluster(last)), false);
    same(found, (Err(Fault::TablePlace), kept), "past the last")?;
    same(image.calls.len(), 0, "past the last")
}
