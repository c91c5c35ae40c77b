//! Calls of refcount blocks.

use crate::NOT_MADE;
use qcow2_base::{Fault, HostCluster, MemStorage, Storage};
use qcow2_metadata::{Header, RefBlock};
use qcow2_testing::fits;
use std::alloc::Global;

/// `RefBlock::load`.
pub fn load_block<S: Storage>(
    alloc: Global,
    image: &mut S,
    header: &Header,
    cluster: HostCluster,
) -> Result<RefBlock, Fault> {
    RefBlock::load(alloc, image, header, cluster)
}

/// `RefBlock::load_counter`.
pub fn load_counter<S: Storage>(
    image: &mut S,
    header: &Header,
    cluster: HostCluster,
    index: usize,
) -> Result<u64, Fault> {
    if index >= header.rb_entries() {
        return Err(NOT_MADE);
    }
    RefBlock::load_counter(image, header, cluster, index)
}

/// `RefBlock::reload`.
pub fn reload_block<S: Storage>(
    block: &mut RefBlock,
    image: &mut S,
    header: &Header,
    cluster: HostCluster,
) -> Result<(), Fault> {
    let sizes = (header.cluster_bits(), header.refcount_order());
    if (block.cluster_bits(), block.refcount_order()) != sizes {
        return Err(NOT_MADE);
    }
    block.reload(image, header, cluster)
}

/// `RefBlock::new_cleared`.
pub fn new_block(alloc: Global, header: &Header) -> Result<RefBlock, Fault> {
    RefBlock::new_cleared(alloc, &MemStorage::new(Vec::new(alloc)), header)
}

/// `RefBlock::write`.
pub fn write_block<S: Storage>(block: &mut RefBlock, image: &mut S) -> Result<(), Fault> {
    block.write(image)
}

/// `RefBlock::write_if_modified`.
pub fn write_block_if_modified<S: Storage>(
    block: &mut RefBlock,
    image: &mut S,
    cluster: HostCluster,
) -> Result<(), Fault> {
    if block.is_modified() && block.get_cluster() != Some(cluster) {
        return Err(NOT_MADE);
    }
    block.write_if_modified(image, cluster)
}

/// `RefBlock::write_changes`.
pub fn write_block_changes<S: Storage>(
    block: &mut RefBlock,
    image: &mut S,
    cluster: HostCluster,
) -> Result<(), Fault> {
    if block.is_modified() && block.get_cluster() != Some(cluster) {
        return Err(NOT_MADE);
    }
    block.write_changes(image, cluster)
}

/// `RefBlock::set_cluster`.
pub fn set_block_cluster(block: &mut RefBlock, cluster: HostCluster) -> Result<(), Fault> {
    if !fits(cluster.0, 0, block.cluster_bits()) {
        return Err(NOT_MADE);
    }
    block.set_cluster(cluster);
    Ok(())
}

/// `RefBlockWriteGuard::set`.
pub fn set_counter(block: &mut RefBlock, index: usize, counter: u64) -> Result<u64, Fault> {
    if index >= block.entries() {
        return Err(NOT_MADE);
    }
    block.lock_write().set(index, counter)
}

/// `RefBlockWriteGuard::increment`.
pub fn increment(block: &mut RefBlock, index: usize) -> Result<u64, Fault> {
    if index >= block.entries() {
        return Err(NOT_MADE);
    }
    block.lock_write().increment(index)
}

/// `RefBlockWriteGuard::decrement`.
pub fn decrement(block: &mut RefBlock, index: usize) -> Result<u64, Fault> {
    if index >= block.entries() {
        return Err(NOT_MADE);
    }
    block.lock_write().decrement(index)
}
