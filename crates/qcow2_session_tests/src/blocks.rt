//! Refcount blocks for steps and settling, and comparisons of the results.

use qcow2_base::{Fault, HostCluster, MemStorage};
use qcow2_calls::{header_of, load_block};
use qcow2_metadata::RefBlock;
use qcow2_session::{Step, StepReply};
use qcow2_session_calls::step_block;
use qcow2_testing::same;
use std::alloc::{AllocError, Global};
use std::fmt::Debug;
use std::test::Fail;

/// Runs of equal refcounts in a block: the index of the first, the length of the run, and the refcount. All
/// others are 0.
pub(crate) type Counters<'a> = &'a [(usize, usize, u64)];

// The cluster of each block.
const CLUSTER: HostCluster = HostCluster(0);

/// Returns a block that begins with these bytes and then has these refcounts counted up, of an image with
/// these cluster bits, this refcount order, and maybe an external data file.
pub(crate) fn block_of(
    alloc: Global,
    image: (u32, u32, bool),
    (bytes, counters): (&[u8], Counters<'_>),
    modified: bool,
) -> Result<RefBlock, Fault> {
    let mut block = loaded(alloc, image, bytes)?;
    count_up(&mut block, counters)?;
    flag(&mut block, modified);
    Ok(block)
}

fn loaded(
    alloc: Global,
    (bits, order, external): (u32, u32, bool),
    bytes: &[u8],
) -> Result<RefBlock, Fault> {
    let header = header_of(alloc, bits, order, external)?;
    let mut image = MemStorage::new(Vec::from_slice(alloc, bytes)?);
    load_block(alloc, &mut image, &header, CLUSTER)
}

// Sets or clears the modified flag.
fn flag(block: &mut RefBlock, modified: bool) {
    if modified {
        block.set_modified();
    } else {
        block.clear_modified();
    }
}

fn count_up(block: &mut RefBlock, counters: Counters<'_>) -> Result<(), Fault> {
    for run in counters {
        let steps = steps_up(block.allocator(), *run)?;
        step_block(block.allocator(), block, &steps)?;
    }
    Ok(())
}

// Returns the steps that raise a run of refcounts by a number.
fn steps_up(
    alloc: Global,
    (first, count, number): (usize, usize, u64),
) -> Result<Vec<Step>, AllocError> {
    let mut steps = Vec::new(alloc);
    for place in 0..count.saturating_mul(number as usize) {
        let index = first.saturating_add(place % count);
        steps.push(Step::Inc { index })?;
    }
    Ok(steps)
}

/// Fails unless the block has these refcounts, its cluster and this modified flag.
pub(crate) fn check_counters<R: Debug + Copy + Drop>(
    block: &RefBlock,
    counters: Counters<'_>,
    modified: bool,
    row: R,
) -> Result<(), Fail> {
    for index in 0..block.entries() {
        same(block.get(index), number_at(counters, index), (row, index))?;
    }
    let found = (block.get_cluster(), block.is_modified());
    same(found, (Some(CLUSTER), modified), row)
}

// Returns the expected refcount at an index.
fn number_at(counters: Counters<'_>, index: usize) -> u64 {
    for (first, count, number) in counters {
        if index >= *first && index - *first < *count {
            return *number;
        }
    }
    0
}

/// Fails unless steps returned these replies, or this fault. Returns whether any step was done.
pub(crate) fn check_replies<R: Debug + Drop>(
    answer: Result<Vec<StepReply>, Fault>,
    expected: Result<&[StepReply], Fault>,
    row: R,
) -> Result<bool, Fail> {
    let found = match &answer {
        Ok(replies) => Ok(replies.as_slice()),
        Err(fault) => Err(*fault),
    };
    same(found, expected, row)?;
    let is_done = |reply: &StepReply| *reply != StepReply::Refused;
    Ok(expected.is_ok_and(|replies| replies.iter().any(is_done)))
}
