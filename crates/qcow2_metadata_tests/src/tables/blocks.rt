//! Fixtures of refcount blocks.

use qcow2_base::{Fault, HostCluster, Storage};
use qcow2_calls::{header_of, load_block, new_block, set_block_cluster};
use qcow2_metadata::RefBlock;
use std::alloc::Global;

/// Loads a block, of an image with these cluster bits and this refcount order.
pub(crate) fn load<S: Storage>(
    alloc: Global,
    image: &mut S,
    size: (u32, u32),
    cluster: u64,
) -> Result<RefBlock, Fault> {
    let header = header_of(alloc, size.0, size.1, false)?;
    load_block(alloc, image, &header, HostCluster(cluster))
}

/// Returns a new block of 512 bytes, with refcount 0 for each cluster.
pub(crate) fn new_cleared(alloc: Global, order: u32) -> Result<RefBlock, Fault> {
    new_block(alloc, &header_of(alloc, 9, order, false)?)
}

/// Sets the block's cluster, and sets or clears its modified flag. Fails if the cluster's offset doesn't fit
/// 64 bits.
pub(crate) fn place(block: &mut RefBlock, cluster: u64, modified: bool) -> Result<(), Fault> {
    set_block_cluster(block, HostCluster(cluster))?;
    if !modified {
        block.clear_modified();
    }
    Ok(())
}

/// Returns a refcount, and whether it is 0.
pub(crate) fn counter(block: &RefBlock, index: usize) -> Option<(u64, bool)> {
    if index >= block.entries() {
        return None;
    }
    Some((block.get(index), block.is_zero(index)))
}

/// Returns a block's number of refcounts, its cluster, and whether it is modified.
pub(crate) fn told(block: &RefBlock) -> (usize, Option<HostCluster>, bool) {
    (block.entries(), block.get_cluster(), block.is_modified())
}
