//! The refcounts of blocks in memory, in the smallest integers that hold them.

use super::blocks::{load, new_cleared};
use qcow2_base::{Fault, HostCluster, MemStorage};
use qcow2_metadata::RefBlock;
use qcow2_testing::{each, printed, rows, same};
use std::alloc::{AllocError, Global};
use std::test::Fail;

// The printed first refcounts, and their number.
type First = (&'static str, usize);

// A block's cluster, and whether the block is modified.
type Place = (Option<HostCluster>, bool);

// The number of refcounts in a block of 512 bytes, and the type of integers that hold them; the first bytes
// of a block, and its first refcounts.
#[derive(Clone, Copy, Debug)]
struct Kept {
    order: u32,
    counters: usize,
    integers: &'static str,
    bytes: &'static [u8],
    first: First,
}

const KEPT: &[Kept] = rows! { Kept:
    { order: 0, counters: 4096, integers: "U8", bytes: &[0x82], first: ("0, 1, 0, 0, 0, 0, 0, 1", 8) },
    { order: 1, counters: 2048, integers: "U8", bytes: &[0x0c], first: ("0, 3, 0, 0", 4) },
    { order: 2, counters: 1024, integers: "U8", bytes: &[0x10], first: ("0, 1", 2) },
    { order: 3, counters: 512, integers: "U8", bytes: &[0x07], first: ("7", 1) },
    { order: 4, counters: 256, integers: "U16", bytes: &[0, 0xff], first: ("255", 1) },
    { order: 5, counters: 128, integers: "U32", bytes: &[0, 0, 0xff, 0xff], first: ("65535", 1) },
    { order: 6, counters: 64, integers: "U64", bytes: &[0xff; 8], first: ("18446744073709551615", 1) },
};

// Returns the printed form of a block with these first refcounts, and 0 in all others; with its cluster, and
// whether it is modified.
fn shown(
    alloc: Global,
    row: Kept,
    first: First,
    (cluster, modified): Place,
) -> Result<String, AllocError> {
    let (order, integers) = (row.order, row.integers);
    let mut text = format!(in alloc; "RefBlock {{ counters: {integers}([{}", first.0)?;
    for _ in first.1..row.counters {
        text.push_str(", 0")?;
    }
    let rest = format!(in alloc;
        "]), placement: Placement {{ cluster: {cluster:?}, modified: {modified} }}, \
        cluster_bits: 9, refcount_order: {order} }}"
    )?;
    text.push_str(rest.as_str())?;
    Ok(text)
}

// Fails unless the block prints that way.
fn check_kept(block: &RefBlock, row: Kept, first: First, place: Place) -> Result<(), Fail> {
    let expected = shown(block.allocator(), row, first, place)?;
    let found = printed(block.allocator(), block)?;
    same(found.as_str(), expected.as_str(), row.order)
}

// Loads the block of an image of these bytes, and zeros after them.
fn loaded(alloc: Global, order: u32, bytes: &[u8]) -> Result<RefBlock, Fault> {
    let mut image = MemStorage::new(Vec::from_slice(alloc, bytes)?);
    load(alloc, &mut image, (9, order), 0)
}

fn check_both(alloc: Global, row: Kept) -> Result<(), Fail> {
    let cluster = Some(HostCluster(0));
    let block = loaded(alloc, row.order, row.bytes)?;
    check_kept(&block, row, row.first, (cluster, false))?;
    let block = new_cleared(alloc, row.order)?;
    check_kept(&block, row, ("0", 1), (None, true))
}

#[test]
fn a_block_keeps_one_number_for_each_counter(rt: HostRuntime) -> Result<(), Fail> {
    each(rt.alloc(), KEPT, check_both)
}
