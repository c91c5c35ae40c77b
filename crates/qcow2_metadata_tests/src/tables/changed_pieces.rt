//! Writes of only those pieces of a block that differ from the image.

use super::blocks::load;
use super::refcount_blocks::pattern;
use qcow2_base::{Fault, HostCluster, MemStorage};
use qcow2_calls::{set_counter, write_block_changes};
use qcow2_metadata::RefBlock;
use qcow2_testing::StorageCall::{self, Read, Write};
use qcow2_testing::{FailingStorage, each, recorded, rows, same, same_image};
use std::alloc::Global;
use std::test::Fail;

const PIECE: usize = 4096;

// A block of 64 KiB in cluster 1: its refcount order, the index of a refcount, a value that differs from the
// pattern, and the piece that has it.
#[derive(Clone, Copy, Debug)]
struct Changed {
    order: u32,
    index: usize,
    counter: u64,
    piece: usize,
}

const CHANGED: &[Changed] = rows! { Changed:
    { order: 3, index: 0, counter: 0xff, piece: 0 },
    { order: 3, index: 20479, counter: 0xff, piece: 4 },
    { order: 4, index: 32767, counter: 0xff, piece: 15 },
    { order: 6, index: 512, counter: 0xff, piece: 1 },
};

// Returns an image of two clusters of the pattern.
fn image(alloc: Global) -> Result<FailingStorage<MemStorage>, Fail> {
    Ok(recorded(alloc, pattern(alloc, 131072)?))
}

// Returns the block of cluster 1 with the refcount changed.
fn changed_block(alloc: Global, image: &mut MemStorage, row: Changed) -> Result<RefBlock, Fail> {
    let mut block = load(alloc, image, (16, row.order), 1)?;
    set_counter(&mut block, row.index, row.counter)?;
    Ok(block)
}

fn write(block: &mut RefBlock, image: &mut FailingStorage<MemStorage>) -> Result<(), Fault> {
    write_block_changes(block, image, HostCluster(1))
}

// Returns the storage call at a position: each piece is read, and only the changed one is written right after
// its read.
fn call_at(place: usize, row: Changed) -> StorageCall {
    let is_write = place.checked_sub(1) == Some(row.piece);
    let piece = if place > row.piece { place - 1 } else { place };
    let offset = (piece as u64).wrapping_mul(4096).wrapping_add(65536);
    let len = PIECE;
    if is_write {
        Write { offset, len }
    } else {
        Read { offset, len }
    }
}

fn check_calls(calls: &[StorageCall], row: Changed) -> Result<(), Fail> {
    same(calls.len(), 17, row)?;
    for place in 0..17 {
        same(
            calls.get(place).copied(),
            Some(call_at(place, row)),
            (row, place),
        )?;
    }
    Ok(())
}

fn check_changed(alloc: Global, row: Changed) -> Result<(), Fail> {
    let mut image = image(alloc)?;
    let mut block = changed_block(alloc, &mut image.inner, row)?;
    same(write(&mut block, &mut image), Ok(()), row)?;
    check_calls(&image.calls, row)?;
    same(block.is_modified(), false, row)?;
    let mut again = load(alloc, &mut image.inner, (16, row.order), 1)?;
    same(set_counter(&mut again, row.index, 0), Ok(row.counter), row)?;
    image.calls.clear();
    same(write(&mut block, &mut image), Ok(()), row)?;
    same(image.calls.len(), 0, row)
}

#[test]
fn only_a_changed_piece_is_written(rt: HostRuntime) -> Result<(), Fail> {
    each(rt.alloc(), CHANGED, check_changed)
}

// Fails unless the write is refused at the storage call after the first `passes`, with no byte changed before
// the piece is written, and succeeds when repeated.
fn check_refused(alloc: Global, row: Changed, passes: u64) -> Result<(), Fail> {
    let mut image = image(alloc)?;
    let mut block = changed_block(alloc, &mut image.inner, row)?;
    image.plan = Some(passes);
    let found = (write(&mut block, &mut image), block.is_modified());
    same(found, (Err(Fault::Storage), true), (row, passes))?;
    if passes.saturating_sub(1) <= row.piece as u64 {
        same_image(&image.inner, pattern(alloc, 131072), (row, passes))?;
    }
    same(write(&mut block, &mut image), Ok(()), (row, passes))?;
    same(block.is_modified(), false, (row, passes))
}

fn check_refusals(alloc: Global, row: Changed) -> Result<(), Fail> {
    for passes in 0..17 {
        check_refused(alloc, row, passes)?;
    }
    Ok(())
}

#[test]
fn a_refused_call_leaves_the_pieces_after_it(rt: HostRuntime) -> Result<(), Fail> {
    each(rt.alloc(), CHANGED, check_refusals)
}
