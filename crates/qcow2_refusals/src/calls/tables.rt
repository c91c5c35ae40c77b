//! Calls of tables and blocks that take an image.

use crate::held::{BLOCK, Held, TABLES};
use crate::runs::{Kind, PlacedCall};
use qcow2_base::{Fault, Storage};
use qcow2_calls::{
    LoadedTable, load_block, load_table, write_block, write_block_if_modified, write_entry,
    write_l2_table_if_modified, write_table,
};
use qcow2_metadata::{Header, L2Table, RefBlock, Table};
use std::alloc::Global;

/// Makes a call of a table of this kind, or of the block.
pub(crate) fn make<S: Storage>(
    call: PlacedCall,
    kind: Kind,
    held: &mut Held,
    image: &mut S,
) -> Result<(), Fault> {
    if call == PlacedCall::Load {
        return load(kind, held, image);
    }
    match kind {
        Kind::L1Table => make_write(call, &mut held.l1_table, image),
        Kind::L2Table => make_l2_table_write(call, &mut held.l2_table, image),
        Kind::Reftable => make_write(call, &mut held.reftable, image),
        Kind::Block => make_block_write(call, &mut held.block, image),
    }
}

fn load<S: Storage>(kind: Kind, held: &mut Held, image: &mut S) -> Result<(), Fault> {
    let (alloc, header) = (held.alloc, &held.header);
    match kind {
        Kind::L1Table => load_anew(alloc, &mut held.l1_table, image, header),
        Kind::L2Table => load_anew(alloc, &mut held.l2_table, image, header),
        Kind::Reftable => load_anew(alloc, &mut held.reftable, image, header),
        Kind::Block => load_block_anew(alloc, &mut held.block, image, header),
    }
}

fn load_anew<T: LoadedTable, S: Storage>(
    alloc: Global,
    table: &mut T,
    image: &mut S,
    header: &Header,
) -> Result<(), Fault> {
    *table = load_table(alloc, image, header, TABLES, header.l2_entries())?;
    Ok(())
}

fn load_block_anew<S: Storage>(
    alloc: Global,
    block: &mut RefBlock,
    image: &mut S,
    header: &Header,
) -> Result<(), Fault> {
    *block = load_block(alloc, image, header, BLOCK)?;
    Ok(())
}

fn make_write<T: Table, S: Storage>(
    call: PlacedCall,
    table: &mut T,
    image: &mut S,
) -> Result<(), Fault> {
    match (call, table.entries().checked_sub(1)) {
        (PlacedCall::Write, _) => write_table(table, image),
        (PlacedCall::WriteEntry, Some(last)) => write_entry(table, image, last),
        _ => Err(Fault::WrongLength),
    }
}

fn make_l2_table_write<S: Storage>(
    call: PlacedCall,
    table: &mut L2Table,
    image: &mut S,
) -> Result<(), Fault> {
    match (call, table.get_cluster()) {
        (PlacedCall::WriteIfModified, Some(cluster)) => write_l2_table_if_modified(
            table, image, cluster,
        ),
        _ => make_write(call, table, image),
    }
}

fn make_block_write<S: Storage>(
    call: PlacedCall,
    block: &mut RefBlock,
    image: &mut S,
) -> Result<(), Fault> {
    match (call, block.get_cluster()) {
        (PlacedCall::Write, _) => write_block(block, image),
        (PlacedCall::WriteIfModified, Some(cluster)) => write_block_if_modified(
            block, image, cluster,
        ),
        _ => Err(Fault::WrongLength),
    }
}
