//! Blocks that are loaded again, from another cluster: each equals a new load from there. A failed read
//! leaves the block without a cluster, and modified. A refused cluster leaves it unchanged.

use super::blocks::{load, told};
use super::refcount_blocks::pattern;
use qcow2_base::{Fault, HostCluster, MemStorage, Storage};
use qcow2_calls::{header_of, reload_block, write_block};
use qcow2_metadata::RefBlock;
use qcow2_testing::{
    FailingStorage, filled_image, part_of, printed, recorded, rows, same, same_bytes, same_image,
};
use std::alloc::Global;
use std::test::Fail;

// Blocks of this cluster size, with their length in bytes and the number of pieces in which they are read.
#[derive(Clone, Copy, Debug)]
struct Size {
    cluster_bits: u32,
    bytes: usize,
    pieces: u64,
}

const SIZES: &[Size] = rows! { Size:
    { cluster_bits: 9, bytes: 512, pieces: 1 },
    { cluster_bits: 13, bytes: 8192, pieces: 2 },
    { cluster_bits: 16, bytes: 65536, pieces: 16 },
};

const LARGEST: Size = Size {
    cluster_bits: 21,
    bytes: 2097152,
    pieces: 512,
};

// A size, and a refcount order.
type Row = (Size, u32);

// Loads the block again, from a cluster of an image with its sizes.
fn reload<S: Storage>(block: &mut RefBlock, image: &mut S, cluster: u64) -> Result<(), Fault> {
    let alloc = block.allocator();
    let header = header_of(alloc, block.cluster_bits(), block.refcount_order(), false)?;
    reload_block(block, image, &header, HostCluster(cluster))
}

// Returns the number of refcounts of a block, with its cluster and modified flag.
fn state(row: Row, cluster: Option<u64>, modified: bool) -> (usize, Option<HostCluster>, bool) {
    let counters = row.0.bytes.saturating_mul(8) >> row.1.min(6);
    (counters, cluster.map(HostCluster), modified)
}

// Fails unless the block is that of the image's cluster 1, and a write of it writes the same bytes.
fn check_block(block: &mut RefBlock, image: &MemStorage, row: Row) -> Result<(), Fail> {
    same(told(block), state(row, Some(1), false), row)?;
    let len = row.0.bytes;
    let end = len.saturating_mul(2);
    let mut other = filled_image(block.allocator(), end)?;
    same(write_block(block, &mut other), Ok(()), row)?;
    let found = part_of(other.bytes(), len, end)?;
    same_bytes(found, part_of(image.bytes(), len, end)?, row)
}

// Loads a block of cluster 0 again, from cluster 1.
fn check_reloaded(alloc: Global, image: &mut MemStorage, row: Row) -> Result<(), Fail> {
    let mut block = load(alloc, image, (row.0.cluster_bits, row.1), 0)?;
    block.set_modified();
    same(reload(&mut block, image, 1), Ok(()), row)?;
    check_block(&mut block, image, row)
}

fn check_orders(alloc: Global, image: &mut MemStorage, size: Size) -> Result<(), Fail> {
    for order in 0..7u32 {
        check_reloaded(alloc, image, (size, order))?;
    }
    Ok(())
}

#[test]
fn a_block_that_is_read_again_has_the_counters_that_are_there(rt: HostRuntime) -> Result<(), Fail> {
    let mut image = pattern(rt.alloc(), 131072)?;
    for size in SIZES {
        check_orders(rt.alloc(), &mut image, *size)?;
    }
    Ok(())
}

#[test]
fn the_largest_block_is_read_again_in_many_pieces(rt: HostRuntime) -> Result<(), Fail> {
    check_orders(rt.alloc(), &mut pattern(rt.alloc(), 4194304)?, LARGEST)
}

// Fails unless the block that is loaded again prints as a newly loaded one.
fn check_printed(alloc: Global, image: &mut MemStorage, order: u32) -> Result<(), Fail> {
    let expected = load(alloc, image, (9, order), 1)?;
    let mut block = load(alloc, image, (9, order), 0)?;
    let before = printed(alloc, &block)?;
    same(reload(&mut block, image, 1), Ok(()), order)?;
    let found = printed(alloc, &block)?;
    same(found.as_str() == before.as_str(), false, order)?;
    same(found.as_str(), printed(alloc, &expected)?.as_str(), order)
}

#[test]
fn a_block_that_is_read_again_is_the_one_that_is_loaded(rt: HostRuntime) -> Result<(), Fail> {
    let mut image = pattern(rt.alloc(), 1024)?;
    for order in 0..7u32 {
        check_printed(rt.alloc(), &mut image, order)?;
    }
    Ok(())
}

// Fails unless the load is refused at the storage call after the first `passes`, and succeeds when repeated.
fn check_refused(
    alloc: Global,
    image: &mut FailingStorage<MemStorage>,
    row: Row,
    passes: u64,
) -> Result<(), Fail> {
    let mut block = load(alloc, &mut image.inner, (row.0.cluster_bits, row.1), 0)?;
    image.plan = Some(passes);
    let found = (reload(&mut block, image, 1), told(&block));
    same(
        found,
        (Err(Fault::Storage), state(row, None, true)),
        (row, passes),
    )?;
    same(reload(&mut block, image, 1), Ok(()), (row, passes))?;
    check_block(&mut block, &image.inner, row)
}

// Fails each read in turn.
fn check_refusals(
    alloc: Global,
    image: &mut FailingStorage<MemStorage>,
    row: Row,
) -> Result<(), Fail> {
    for passes in 0..row.0.pieces {
        check_refused(alloc, image, row, passes)?;
    }
    Ok(())
}

fn check_sizes(
    alloc: Global,
    image: &mut FailingStorage<MemStorage>,
    order: u32,
) -> Result<(), Fail> {
    for size in SIZES {
        check_refusals(alloc, image, (*size, order))?;
    }
    Ok(())
}

#[test]
fn a_refused_read_leaves_a_block_without_a_cluster(rt: HostRuntime) -> Result<(), Fail> {
    let alloc = rt.alloc();
    let mut image = recorded(alloc, pattern(alloc, 131072)?);
    for order in 0..7u32 {
        check_sizes(alloc, &mut image, order)?;
    }
    same_image(&image.inner, pattern(alloc, 131072), "after reads")
}

#[test]
fn a_block_is_read_again_from_where_it_may_be(rt: HostRuntime) -> Result<(), Fail> {
    let mut image = recorded(rt.alloc(), pattern(rt.alloc(), 512)?);
    let mut block = load(rt.alloc(), &mut image, (9, 4), 0)?;
    let last = (1 << 47) - 1;
    let stays = (256, Some(HostCluster(last)), false);
    let found = (reload(&mut block, &mut image, last), told(&block));
    same(found, (Ok(()), stays), "last")?;
    image.calls.clear();
    let found = (reload(&mut block, &mut image, 1 << 47), told(&block));
    same(found, (Err(Fault::TablePlace), stays), "past the last")?;
    same(image.calls.len(), 0, "past the last")
}
