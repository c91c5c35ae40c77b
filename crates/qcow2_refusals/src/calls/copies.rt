//! Calls that allocate memory and use no storage: they make, copy and grow tables, blocks and an extension.

use super::tell;
use crate::held::Held;
use qcow2_base::Fault;
use qcow2_calls::{copy_l2_table, grow_l1_table, grow_reftable, new_block, new_l2_table};
use qcow2_metadata::{HeaderExtension, Table, TableEntry};
use std::alloc::AllocError;

/// Reports the original extension too, even if its copy fails.
pub(super) fn clone_extension(held: &mut Held) -> Result<(), Fault> {
    let name = String::from_str(held.alloc, "qcow2")?;
    let extension = HeaderExtension::BackingFileFormat(name);
    tell(&mut held.out, &extension)?;
    tell(&mut held.out, &copy_of(&extension)?)
}

fn copy_of(extension: &HeaderExtension) -> Result<HeaderExtension, AllocError> {
    extension.clone()
}

pub(super) fn clear_table(held: &mut Held) -> Result<(), Fault> {
    let table = new_l2_table(held.alloc, &held.header)?;
    tell_table(&mut held.out, &table)
}

pub(super) fn clear_block(held: &mut Held) -> Result<(), Fault> {
    let block = new_block(held.alloc, &held.header)?;
    let told = (block.entries(), block.get_cluster(), block.is_modified());
    tell(&mut held.out, &told)
}

pub(super) fn clone_table(held: &mut Held) -> Result<(), Fault> {
    let table = copy_l2_table(&held.l2_table)?;
    tell_table(&mut held.out, &table)
}

pub(super) fn tell_grown_l1_table(held: &mut Held) -> Result<(), Fault> {
    let table = grow_l1_table(&held.l1_table, 128, &held.header)?;
    tell_table(&mut held.out, &table)
}

pub(super) fn tell_grown_reftable(held: &mut Held) -> Result<(), Fault> {
    let table = grow_reftable(&held.reftable, &held.header, 126)?;
    tell_table(&mut held.out, &table)
}

// Reports a table's number of entries, its entry at index 3, its cluster and its modified flag.
fn tell_table<T: Table>(out: &mut Vec<u8>, table: &T) -> Result<(), Fault> {
    let (entries, entry) = (table.entries(), table.get(3).to_plain());
    tell(
        out,
        &(entries, entry, table.get_cluster(), table.is_modified()),
    )
}
