//! Calls of tables and blocks, of their guards, of growth, and the calls of lists that allocate nothing.

use super::Checks;
use crate::calls::tables;
use crate::held::{Held, TABLES, hold_over};
use crate::runs::PlacedCall::{Load, Write, WriteEntry, WriteIfModified};
use crate::runs::{Kind, PlacedCall};
use qcow2_base::{ClusterCount, Fault, GuestCluster, HostCluster, HostOffset, MemStorage};
use qcow2_calls::{
    discard_cluster, enter_l2_table, enter_refblock, header_of, least_spare, map_cluster,
    set_block_cluster, set_cluster, set_l1_copied, set_l1_table, set_l2_copied, set_reftable,
    zero_cluster,
};
use qcow2_metadata::{
    ClustersToFreeEntry, Header, L1Table, L2Table, RefBlock, RefTable, Table, TableEntry,
};
use qcow2_session::{Edit, Outcome};
use qcow2_session_calls::{edits_fit, settle};
use qcow2_testing::{fits, image_with, rows};
use std::alloc::Global;

/// Tables and a block, an image to write them to, and an outcome of edits.
#[derive(Drop)]
pub(super) struct Tables {
    held: Held,
    image: MemStorage,
    outcome: Outcome,
}

/// Entry 3 of the L2 table: compressed data from byte 0x600 on. No turn changes it.
const COMPRESSED: u64 = 0x4000_0000_0000_0600;

pub(super) fn begin(alloc: Global) -> Result<Tables, Fault> {
    let outcome = begin_outcome(alloc)?;
    let mut image = image_with(alloc, 1536, &[(536, COMPRESSED)])?;
    let held = begin_held(alloc, &mut image)?;
    Ok(Tables {
        held,
        image,
        outcome,
    })
}

// Tables and a block without entries, except for the L2 table, which is loaded from the image.
fn begin_held(alloc: Global, image: &mut MemStorage) -> Result<Held, Fault> {
    let header = header_of(alloc, 9, 4, false)?;
    let mut held = hold_over(alloc, &mut MemStorage::new(Vec::new(alloc)), header)?;
    tables::make(Load, Kind::L2Table, &mut held, image)?;
    Ok(held)
}

fn begin_outcome(alloc: Global) -> Result<Outcome, Fault> {
    let gained = Vec::from_slice(alloc, &[HostCluster(5)])?;
    let freed = Vec::from_slice(alloc, &[only(HostCluster(5))])?;
    Ok(Outcome { gained, freed })
}

pub(super) fn make(turn: u64, tables: &mut Tables, checks: &mut Checks) {
    make_in_memory(&mut tables.held, (turn % 32 + 4) as usize, checks);
    let Held { header, block, .. } = &mut tables.held;
    checks.expect(settle(block, header, 0, &tables.outcome).is_ok());
    write(&mut tables.held, &mut tables.image, checks);
}

// Each turn sets the entry at the index anew, before it is looked at.
fn make_in_memory(held: &mut Held, index: usize, checks: &mut Checks) {
    enter_in_l1_table(&mut held.l1_table, &mut held.l2_table, index, checks);
    enter_in_reftable(&mut held.reftable, &mut held.block, index, checks);
    point(&mut held.header, &held.l1_table, &held.reftable, checks);
    look_up(&mut held.l2_table, checks);
    change(&mut held.l2_table, index, checks);
    look_at(&mut held.l1_table, index, 0x8000_0000_0000_0200, checks);
    look_at(&mut held.l2_table, index, 0, checks);
    look_at(&mut held.reftable, index, 0x200, checks);
    look_at_block(&mut held.block, checks);
    count(&mut held.block, index, checks);
    make_new(held.l1_table.allocator(), &held.header, index, checks);
}

// Checks a table of one cluster of 512 bytes, with this entry at the index.
fn look_at<T: Table>(table: &mut T, index: usize, entry: u64, checks: &mut Checks) {
    let (entries, bytes, clusters) = (table.entries(), table.byte_size(), table.cluster_count());
    checks.expect(entries == 64 && bytes == 512 && clusters == ClusterCount(1));
    checks.expect(table.get_ref(index).is_some() && table.get(index).to_plain() == entry);
    let (cluster, offset) = (table.get_cluster(), table.get_offset());
    checks.expect(cluster == Some(TABLES) && offset == Some(HostOffset(512)));
    table.unset_cluster();
    checks.expect(table.get_cluster().is_none() && table.cluster_bits() == 9);
    table.set_cluster(TABLES);
    table.clear_modified();
    checks.expect(!table.is_modified());
    table.set_modified();
    checks.expect(table.is_modified());
}

fn enter_in_l1_table(
    l1_table: &mut L1Table,
    l2_table: &mut L2Table,
    index: usize,
    checks: &mut Checks,
) {
    l2_table.unset_cluster();
    let answer = enter_l2_table(l1_table, index, l2_table, None);
    checks.expect(answer == Err((Fault::NotPlaced, None)));
    let placed = set_cluster(l2_table, TABLES).is_ok();
    let answer = enter_l2_table(l1_table, index, l2_table, Some(only(TABLES)));
    checks.expect(placed && answer.is_ok());
    checks.expect(set_l1_copied(l1_table, index, false).is_ok());
    checks.expect(set_l1_copied(l1_table, index, true).is_ok());
}

fn enter_in_reftable(
    reftable: &mut RefTable,
    block: &mut RefBlock,
    index: usize,
    checks: &mut Checks,
) {
    let placed = set_block_cluster(block, TABLES).is_ok();
    let answer = enter_refblock(reftable, index, block, Some(only(TABLES)));
    checks.expect(placed && answer.is_ok());
}

fn point(header: &mut Header, l1_table: &L1Table, reftable: &RefTable, checks: &mut Checks) {
    checks.expect(set_l1_table(header, l1_table, None).is_ok());
    checks.expect(set_reftable(header, reftable).is_ok());
}

// Looks up guest cluster 3, the compressed data.
fn look_up(table: &mut L2Table, checks: &mut Checks) {
    checks.expect(!table.external_data_file());
    let guest_cluster = GuestCluster(3);
    if !fits(3, 0, table.cluster_bits()) {
        return;
    }
    checks.expect(table.get_mapping(guest_cluster).is_ok());
    if let Ok(Some(guard)) = table.lock_compressed_read(guest_cluster) {
        checks.expect(guard.offset() == HostOffset(0x600) && guard.length().get() == 512);
    }
    let guard = table.lock_write();
    checks.expect(guard.get_mapping(guest_cluster).is_ok());
    checks.expect(matches!(guard.compressed_read_guard(guest_cluster), Ok(Some(_))));
}

// Maps an entry of 0, clears its copied flag, makes it zeros that keep the cluster, and discards it.
fn change(table: &mut L2Table, index: usize, checks: &mut Checks) {
    let cluster = HostCluster(8);
    checks.expect(edits_fit(table, &[Edit::Discard { index }]).is_ok());
    checks.expect(map_cluster(table, index, cluster, None) == Ok(None));
    checks.expect(set_l2_copied(table, index, false).is_ok());
    checks.expect(zero_cluster(table, index, true) == Ok(None));
    checks.expect(discard_cluster(table, index) == Ok(Some(only(cluster))));
}

// One cluster.
fn only(first: HostCluster) -> ClustersToFreeEntry {
    ClustersToFreeEntry {
        first,
        count: ClusterCount(1),
    }
}

// Checks a block in the cluster of the tables.
fn look_at_block(block: &mut RefBlock, checks: &mut Checks) {
    checks.expect(block.get_cluster() == Some(TABLES) && block.get_offset().is_some());
    block.clear_modified();
    checks.expect(!block.is_modified());
    block.set_modified();
    checks.expect(block.is_modified() && block.cluster_bits() == 9);
}

// Counts a refcount of 0 up and down, and sets it to 0.
fn count(block: &mut RefBlock, index: usize, checks: &mut Checks) {
    if index >= block.entries() {
        return;
    }
    checks.expect(block.get(index) == 0 && block.is_zero(index));
    let mut guard = block.lock_write();
    checks.expect(guard.increment(index).is_ok() && !guard.is_zero(index));
    checks.expect(guard.decrement(index).is_ok() && guard.is_zero(index));
    checks.expect(guard.set(index, 0) == Ok(0));
}

// The calls that write, and the tables that they write.
const WRITES: &[(PlacedCall, Kind)] = rows! {
    (Write, Kind::L1Table), (WriteEntry, Kind::L1Table),
    (Write, Kind::Reftable), (WriteEntry, Kind::Reftable),
    (WriteIfModified, Kind::L2Table), (Write, Kind::L2Table), (WriteEntry, Kind::L2Table),
    (WriteIfModified, Kind::Block), (Write, Kind::Block),
};

fn write(held: &mut Held, image: &mut MemStorage, checks: &mut Checks) {
    for (call, kind) in WRITES {
        checks.expect(tables::make(*call, *kind, held, image).is_ok());
    }
}

fn make_new(alloc: Global, header: &Header, index: usize, checks: &mut Checks) {
    let l1_table = L1Table::from_data(Vec::new(alloc), header);
    let reftable = RefTable::from_data(Vec::new(alloc), header);
    checks.expect(l1_table.entries() == 0 && reftable.entries() == 0);
    let (spare, turns) = least_spare(64, index, header);
    checks.expect(spare.is_some() && turns > 0);
}
