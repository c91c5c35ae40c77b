//! First programs with the libraries: that of the front page, and one that loads the tables itself.
#![tactic(auto)]

mod front_page;

pub use front_page::discard_range;
use qcow2_base::{Fault, FileStorage, GuestOffset};
use qcow2_metadata::{Header, L1Table, L2Mapping, L2Table, RefBlock, RefTable, Table};
use qcow2_session::{Edit, Outcome, edit_settled, lookup};
use std::alloc::AllocGlobal;
use std::rt::Files;

/// Discards the data of the cluster at a guest offset, in an image file, and lowers its refcount. Returns
/// nothing, and writes neither table nor block, if the offset isn't mapped to data.
pub fn discard<R: Files + AllocGlobal>(
    rt: &R,
    path: &str,
    offset: GuestOffset,
) -> Result<Option<Outcome>, Fault> {
    let alloc = rt.alloc();
    let mut image = FileStorage::open(rt, path, true)?;
    let header = Header::load(alloc, &mut image, true)?;
    let bits = header.cluster_bits();
    // The mapping of the offset, and the L2 table that has it.
    let cluster = header.l1_table_offset().cluster(bits);
    let entries = header.l1_table_entries();
    let l1_table = L1Table::load(alloc, &mut image, &header, cluster, entries)?;
    let found = lookup(alloc, &mut image, &header, &l1_table, offset)?;
    let L2Mapping::DataFile { host_cluster, .. } = found else {
        return Ok(None);
    };
    let l2_offset = l1_table.get(offset.l1_index(bits)).l2_offset();
    let cluster = l2_offset.ok_or(Fault::NotPlaced)?.cluster(bits);
    let mut table = L2Table::load(alloc, &mut image, &header, cluster, header.l2_entries())?;
    // The refcount block that counts the data's host cluster.
    let cluster = header.reftable_offset().cluster(bits);
    let entries = header.reftable_entries();
    let reftable = RefTable::load(alloc, &mut image, &header, cluster, entries)?;
    let rt_index = host_cluster.rt_index(header.rb_bits());
    let block_offset = reftable.get(rt_index).refblock_offset();
    let cluster = block_offset.ok_or(Fault::NotPlaced)?.cluster(bits);
    let mut block = RefBlock::load(alloc, &mut image, &header, cluster)?;
    // Changes both in memory, or neither.
    let index = offset.l2_index(bits);
    let edits = [Edit::Discard { index }];
    let outcome = edit_settled(alloc, &mut table, &mut block, &header, rt_index, &edits)?;
    // The table first: a crash in between leaks a cluster, and does nothing worse.
    table.write(&mut image)?;
    block.write(&mut image)?;
    Ok(Some(outcome))
}
