//! Refcount blocks: refcounts of each width, steps, loads and writes.

use super::blocks::{counter, load, new_cleared, place, told};
use super::fixtures::{DISK, NUMBER, loaded, table_with};
use super::pending_clusters::{Entered, check_entered, pending_of};
use qcow2_base::{Fault, HostCluster, HostOffset, MemStorage};
use qcow2_calls::{
    decrement, enter_refblock, header_of, increment, load_counter, set_counter, write_block,
    write_block_if_modified,
};
use qcow2_metadata::{RefBlock, RefTable};
use qcow2_testing::{
    FailingStorage, StorageCall, each, filled_image, image_with as numbers_image, part_of,
    put_bytes, recorded, rows, same, same_bytes, same_image,
};
use std::alloc::Global;
use std::test::Fail;

// Returns three clusters of 512 bytes: 0xa5; zeros, except a number of `len` bytes at an offset; and 0xa5
// again.
fn image_with(alloc: Global, place: u64, len: usize, number: u64) -> Result<MemStorage, Fault> {
    let number = number.to_be_bytes();
    let Some(bytes) = number.get(8usize.saturating_sub(len)..) else {
        return Err(Fault::WrongLength);
    };
    let mut image = filled_image(alloc, 1536)?;
    put_bytes(&mut image, 512, &[0; 512])?;
    put_bytes(&mut image, place.saturating_add(512), bytes)?;
    Ok(image)
}

// A step of a refcount: a successful one with the old refcount that it returns, or a refused one.
#[derive(Clone, Copy, Debug)]
enum Tally {
    Up(u64),
    Full,
    Down(u64),
    Empty,
    // a new refcount, and the old one that it replaces
    Put(u64, u64),
    TooGreat(u64),
}

use Tally::{Down, Empty, Full, Put, TooGreat, Up};

// A refcount, given by its index; the offset and number of its bytes, their value, the steps, and the value
// afterwards.
#[derive(Clone, Copy, Debug)]
struct Stepped {
    order: u32,
    index: usize,
    place: u64,
    len: usize,
    before: u64,
    steps: &'static [Tally],
    after: u64,
}

const STEPPED: &[Stepped] = rows! { Stepped:
    { order: 0, index: 9, place: 1, len: 1, before: 0, steps: &[Up(0), Full], after: 2 },
    { order: 0, index: 0, place: 0, len: 1, before: 0xff, steps: &[Down(1), Empty], after: 0xfe },
    { order: 0, index: 4095, place: 511, len: 1, before: 0x7f, steps: &[Up(0)], after: 0xff },
    { order: 1, index: 1, place: 0, len: 1, before: 0, steps: &[Up(0)], after: 4 },
    { order: 1, index: 1, place: 0, len: 1, before: 0, steps: &[Up(0), Up(1), Up(2), Full], after: 0x0c },
    { order: 1, index: 2, place: 0, len: 1, before: 0xff, steps: &[Down(3)], after: 0xef },
    { order: 1, index: 2047, place: 511, len: 1, before: 0x80, steps: &[Up(2)], after: 0xc0 },
    { order: 2, index: 3, place: 1, len: 1, before: 0, steps: &[Up(0)], after: 0x10 },
    { order: 2, index: 3, place: 1, len: 1, before: 0xff, steps: &[Full, Down(15)], after: 0xef },
    { order: 2, index: 1023, place: 511, len: 1, before: 0x12, steps: &[Down(1)], after: 2 },
    { order: 3, index: 511, place: 511, len: 1, before: 0xfe, steps: &[Up(254), Full], after: 0xff },
    { order: 3, index: 0, place: 0, len: 2, before: 0x0107, steps: &[Down(1), Empty], after: 7 },
    { order: 4, index: 0, place: 0, len: 2, before: 0x00ff, steps: &[Up(255)], after: 0x0100 },
    { order: 4, index: 0, place: 0, len: 2, before: 0, steps: &[Empty], after: 0 },
    { order: 4, index: 255, place: 510, len: 2, before: 0x0100, steps: &[Down(256)], after: 0x00ff },
    { order: 5, index: 0, place: 0, len: 4, before: 0xffff, steps: &[Up(65535)], after: 0x0001_0000 },
    { order: 5, index: 0, place: 0, len: 4, before: 0xffff_ffff, steps: &[Full], after: 0xffff_ffff },
    { order: 5, index: 127, place: 508, len: 4, before: 0x0100_0000, steps: &[Down(1 << 24)],
        after: 0x00ff_ffff },
    { order: 6, index: 0, place: 0, len: 8, before: 0xffff_ffff, steps: &[Up(4294967295)], after: 1 << 32 },
    { order: 6, index: 63, place: 504, len: 8, before: LESS, steps: &[Up(LESS), Full, Down(u64::MAX)],
        after: LESS },
    { order: 6, index: 1, place: 8, len: 8, before: 0, steps: &[Empty, Up(0)], after: 1 },
    { order: 0, index: 9, place: 1, len: 1, before: 0, steps: &[TooGreat(2), Put(1, 0), TooGreat(u64::MAX)],
        after: 2 },
    { order: 1, index: 2, place: 0, len: 1, before: 0xff, steps: &[TooGreat(4), Put(0, 3)], after: 0xcf },
    { order: 2, index: 3, place: 1, len: 1, before: 0x21, steps: &[Put(15, 2), TooGreat(16)], after: 0xf1 },
    { order: 3, index: 511, place: 511, len: 1, before: 7, steps: &[TooGreat(256), Put(255, 7)], after: 255 },
    { order: 4, index: 255, place: 510, len: 2, before: 256, steps: &[Put(0, 256), Put(65535, 0)],
        after: 65535 },
    { order: 4, index: 0, place: 0, len: 2, before: 1, steps: &[TooGreat(65536)], after: 1 },
    { order: 4, index: 0, place: 0, len: 2, before: 1, steps: &[Put(1, 1)], after: 1 },
    { order: 5, index: 1, place: 4, len: 4, before: 0, steps: &[TooGreat(1 << 32), Put(0x0102_0304, 0)],
        after: 0x0102_0304 },
    { order: 6, index: 63, place: 504, len: 8, before: 1, steps: &[Put(u64::MAX, 1), Full], after: u64::MAX },
};

// One less than the largest refcount.
const LESS: u64 = u64::MAX - 1;

// Makes the step, which sets the modified flag unless it is refused.
fn check_answer(block: &mut RefBlock, index: usize, tally: Tally) -> Result<(), Fail> {
    let was_modified = block.is_modified();
    let (found, answer) = match tally {
        Up(before) => (increment(block, index), Ok(before)),
        Full => (increment(block, index), Err(Fault::CounterRange)),
        Down(before) => (decrement(block, index), Ok(before)),
        Empty => (decrement(block, index), Err(Fault::CounterRange)),
        Put(counter, before) => (set_counter(block, index, counter), Ok(before)),
        TooGreat(counter) => (set_counter(block, index, counter), Err(Fault::CounterRange)),
    };
    let modified = was_modified || answer.is_ok();
    same((found, block.is_modified()), (answer, modified), tally)
}

// Makes steps in a block, and writes it.
fn check_steps(block: &mut RefBlock, image: &mut MemStorage, row: Stepped) -> Result<(), Fail> {
    for tally in row.steps {
        check_answer(block, row.index, *tally)?;
    }
    let found = (block.get_cluster(), write_block(block, image));
    same(found, (Some(HostCluster(1)), Ok(())), row)?;
    let expected = image_with(block.allocator(), row.place, row.len, row.after);
    same_image(image, expected, row)
}

fn check_stepped(alloc: Global, row: Stepped) -> Result<(), Fail> {
    let mut image = image_with(alloc, row.place, row.len, row.before)?;
    let mut block = load(alloc, &mut image, (9, row.order), 1)?;
    check_steps(&mut block, &mut image, row)
}

#[test]
fn steps_change_one_counter_and_say_what_it_was(rt: HostRuntime) -> Result<(), Fail> {
    each(rt.alloc(), STEPPED, check_stepped)
}

// A step of the last refcount of a block of 2 MiB, and the last eight bytes before and after.
#[derive(Clone, Copy, Debug)]
struct Last {
    order: u32,
    index: usize,
    before: u64,
    step: Tally,
    after: u64,
}

const LAST: &[Last] = rows! { Last:
    { order: 0, index: 16777215, before: 0, step: Put(1, 0), after: 0x80 },
    { order: 4, index: 1048575, before: 0x1_0007, step: Put(65535, 7), after: 0x1_ffff },
    { order: 6, index: 262143, before: 1, step: Put(u64::MAX, 1), after: u64::MAX },
};

// Returns an image of 2 MiB whose bytes are zero, except the last eight.
fn image_of_last(alloc: Global, last: u64) -> Result<MemStorage, Fault> {
    numbers_image(alloc, 2097152, &[(2097144, last)])
}

fn check_last(alloc: Global, row: Last) -> Result<(), Fail> {
    let mut image = image_of_last(alloc, row.before)?;
    let mut block = load(alloc, &mut image, (21, row.order), 0)?;
    check_answer(&mut block, row.index, row.step)?;
    same(write_block(&mut block, &mut image), Ok(()), row)?;
    same_image(&image, image_of_last(alloc, row.after), row)
}

#[test]
fn the_last_counter_of_the_largest_block_is_put_in_its_place(rt: HostRuntime) -> Result<(), Fail> {
    each(rt.alloc(), LAST, check_last)
}

/// Returns an image of `len` bytes, whose byte i is `i mod 251`.
pub(crate) fn pattern(alloc: Global, len: usize) -> Result<MemStorage, Fault> {
    let mut bytes = Vec::new(alloc);
    for at in 0..len {
        bytes.push((at % 251) as u8)?;
    }
    Ok(MemStorage::new(bytes))
}

// The number of refcounts of a block, and the last one if its bytes are the pattern: the smallest block ends
// with the bytes 2 to 9, the largest with 0x27 to 0x2e.
#[derive(Clone, Copy, Debug)]
struct Whole {
    cluster_bits: u32,
    order: u32,
    counters: usize,
    last: u64,
}

const WHOLE: &[Whole] = rows! { Whole:
    { cluster_bits: 9, order: 0, counters: 4096, last: 0 },
    { cluster_bits: 9, order: 1, counters: 2048, last: 0 },
    { cluster_bits: 9, order: 2, counters: 1024, last: 0 },
    { cluster_bits: 9, order: 3, counters: 512, last: 9 },
    { cluster_bits: 9, order: 4, counters: 256, last: 0x0809 },
    { cluster_bits: 9, order: 5, counters: 128, last: 0x0607_0809 },
    { cluster_bits: 9, order: 6, counters: 64, last: 0x0203_0405_0607_0809 },
    { cluster_bits: 21, order: 0, counters: 16777216, last: 0 },
    { cluster_bits: 21, order: 1, counters: 8388608, last: 0 },
    { cluster_bits: 21, order: 2, counters: 4194304, last: 2 },
    { cluster_bits: 21, order: 3, counters: 2097152, last: 0x2e },
    { cluster_bits: 21, order: 4, counters: 1048576, last: 0x2d2e },
    { cluster_bits: 21, order: 5, counters: 524288, last: 0x2b2c_2d2e },
    { cluster_bits: 21, order: 6, counters: 262144, last: 0x2728_292a_2b2c_2d2e },
};

// Fails unless the block is that of these bytes, and writes them.
fn check_whole(block: &mut RefBlock, bytes: &[u8], row: Whole) -> Result<(), Fail> {
    let found = (told(block), counter(block, row.counters.saturating_sub(1)));
    let expected = (row.counters, Some(HostCluster(0)), false);
    same(found, (expected, Some((row.last, row.last == 0))), row)?;
    let mut other = filled_image(block.allocator(), bytes.len())?;
    same(write_block(block, &mut other), Ok(()), row)?;
    same_bytes(other.bytes(), bytes, row)
}

// Loads the block of the image, and writes it to another.
fn check_read_and_written(alloc: Global, image: &mut MemStorage, row: Whole) -> Result<(), Fail> {
    let mut block = load(alloc, image, (row.cluster_bits, row.order), 0)?;
    let len = if row.cluster_bits == 9 { 512 } else { 2097152 };
    check_whole(&mut block, part_of(image.bytes(), 0, len)?, row)
}

#[test]
fn the_least_and_the_largest_blocks_are_written_as_read(rt: HostRuntime) -> Result<(), Fail> {
    let mut image = pattern(rt.alloc(), 2097152)?;
    for row in WHOLE {
        check_read_and_written(rt.alloc(), &mut image, *row)?;
    }
    Ok(())
}

// The result of a write, and its number of storage calls.
type Answer = (Result<(), Fault>, usize);

// A block's cluster and modified flag, and the results of `write_if_modified` and then of a write.
#[derive(Clone, Copy, Debug)]
struct Written {
    cluster: u64,
    modified: bool,
    if_modified: Answer,
    then: Answer,
}

const WRITES: &[Written] = rows! { Written:
    { cluster: 1, modified: false, if_modified: (Ok(()), 0), then: (Ok(()), 1) },
    { cluster: 1, modified: true, if_modified: (Ok(()), 1), then: (Ok(()), 1) },
    { cluster: 1 << 47, modified: false, if_modified: (Ok(()), 0), then: PAST },
    { cluster: 1 << 47, modified: true, if_modified: PAST, then: PAST },
};

const PAST: Answer = (Err(Fault::TablePlace), 0);

fn answer_of(
    block: &mut RefBlock,
    image: &mut FailingStorage<MemStorage>,
    if_modified: bool,
) -> Answer {
    image.calls.clear();
    let answer = match (if_modified, block.get_cluster()) {
        (true, Some(cluster)) => write_block_if_modified(block, image, cluster),
        _ => write_block(block, image),
    };
    (answer, image.calls.len())
}

// Writes the block to an image of bytes 0xa5 if it is modified, and then in any case.
fn check_write(block: &mut RefBlock, row: Written) -> Result<(), Fail> {
    let alloc = block.allocator();
    let mut image = recorded(alloc, filled_image(alloc, 1536)?);
    let flag = row.modified && row.if_modified.0.is_err();
    let found = (answer_of(block, &mut image, true), told(block));
    let state = (256, Some(HostCluster(row.cluster)), flag);
    same(found, (row.if_modified, state), row)?;
    let is_refused = row.then.0.is_err();
    let found = (answer_of(block, &mut image, false), block.is_modified());
    same(found, (row.then, flag && is_refused), row)?;
    let expected = if is_refused {
        filled_image(alloc, 1536)
    } else {
        image_with(alloc, 0, 1, 7)
    };
    same_image(&image.inner, expected, row)
}

// Writes a block of an image to the same cluster or to another.
fn check_written(alloc: Global, row: Written) -> Result<(), Fail> {
    let mut block = load(alloc, &mut image_with(alloc, 0, 1, 7)?, (9, 4), 1)?;
    place(&mut block, row.cluster, row.modified)?;
    check_write(&mut block, row)
}

#[test]
fn a_block_is_written_where_it_may_be(rt: HostRuntime) -> Result<(), Fail> {
    each(rt.alloc(), WRITES, check_written)
}

// Returns the number of refcounts, the offset and the modified flag of a block that is loaded from a cluster.
fn loaded_from(alloc: Global, cluster: u64) -> Result<(usize, Option<HostOffset>, bool), Fault> {
    let block = load(alloc, &mut filled_image(alloc, 16)?, (9, 4), cluster)?;
    Ok((block.entries(), block.get_offset(), block.is_modified()))
}

#[test]
fn a_block_is_loaded_from_where_it_may_be(rt: HostRuntime) -> Result<(), Fail> {
    let last = (256, Some(HostOffset(0xff_ffff_ffff_fe00)), false);
    same(loaded_from(rt.alloc(), (1 << 47) - 1), Ok(last), "last")?;
    let answer = loaded_from(rt.alloc(), 1 << 47);
    same(answer, Err(Fault::TablePlace), "past the last")
}

fn check_cleared(block: &mut RefBlock) -> Result<(), Fail> {
    block.clear_modified();
    block.set_modified();
    let found = (told(block), counter(block, 255));
    same(found, ((256, None, true), Some((0, true))), "cleared")?;
    let answer = write_block(block, &mut filled_image(block.allocator(), 0)?);
    let refused = (Err(Fault::NoOffset), (256, None, true));
    same((answer, told(block)), refused, "written")
}

#[test]
fn a_cleared_block_has_no_reference_and_no_place(rt: HostRuntime) -> Result<(), Fail> {
    check_cleared(&mut new_cleared(rt.alloc(), 4)?)
}

const ENTERED: &[Entered] = rows! { Entered:
    { cluster: Some(3), is_pending: false, number: 0x600 },
    { cluster: Some((1 << 47) - 1), is_pending: true, number: 0xff_ffff_ffff_fe00 },
    { cluster: None, is_pending: false, number: NUMBER }, { cluster: None, is_pending: true, number: NUMBER },
};

fn check_entering(table: &mut RefTable, block: &mut RefBlock, row: Entered) -> Result<(), Fail> {
    if let Some(cluster) = row.cluster {
        place(block, cluster, true)?;
    }
    let found = enter_refblock(table, 3, block, pending_of(row));
    check_entered(table, found, row)
}

#[test]
fn a_block_is_entered_by_its_offset_alone(rt: HostRuntime) -> Result<(), Fail> {
    for row in ENTERED {
        let mut table = table_with(rt.alloc(), DISK, loaded(64, 3, NUMBER))?;
        check_entering(&mut table, &mut new_cleared(rt.alloc(), 4)?, *row)?;
    }
    Ok(())
}

// A refcount of the block at cluster 1, given by its index; the offset and number of its bytes in the block,
// their value, and the refcount.
#[derive(Clone, Copy, Debug)]
struct Alone {
    order: u32,
    index: usize,
    place: u64,
    len: usize,
    bytes: u64,
    counter: u64,
}

const ALONE: &[Alone] = rows! { Alone:
    { order: 0, index: 0, place: 0, len: 1, bytes: 0xfe, counter: 0 },
    { order: 0, index: 9, place: 1, len: 1, bytes: 2, counter: 1 },
    { order: 0, index: 4095, place: 511, len: 1, bytes: 0x80, counter: 1 },
    { order: 1, index: 2, place: 0, len: 1, bytes: 0xef, counter: 2 },
    { order: 1, index: 2047, place: 511, len: 1, bytes: 0x7f, counter: 1 },
    { order: 2, index: 3, place: 1, len: 1, bytes: 0x5a, counter: 5 },
    { order: 2, index: 1022, place: 511, len: 1, bytes: 0x5a, counter: 10 },
    { order: 3, index: 511, place: 511, len: 1, bytes: 0xfe, counter: 254 },
    { order: 4, index: 255, place: 510, len: 2, bytes: 0x0102, counter: 258 },
    { order: 5, index: 127, place: 508, len: 4, bytes: 0x0102_0304, counter: 0x0102_0304 },
    { order: 6, index: 63, place: 504, len: 8, bytes: LESS, counter: LESS },
    { order: 6, index: 1, place: 8, len: 8, bytes: 0, counter: 0 },
};

fn check_alone(alloc: Global, row: Alone) -> Result<(), Fail> {
    let mut image = recorded(alloc, image_with(alloc, row.place, row.len, row.bytes)?);
    let header = header_of(alloc, 9, row.order, false)?;
    let found = load_counter(&mut image, &header, HostCluster(1), row.index)?;
    same(found, row.counter, row)?;
    let read = StorageCall::Read {
        offset: row.place.saturating_add(512),
        len: row.len,
    };
    same(image.calls.as_slice(), &[read], row)
}

#[test]
fn a_refcount_alone_is_read_by_its_bytes(rt: HostRuntime) -> Result<(), Fail> {
    each(rt.alloc(), ALONE, check_alone)
}

#[test]
fn a_refcount_of_a_block_past_the_greatest_end_is_refused(rt: HostRuntime) -> Result<(), Fail> {
    let alloc = rt.alloc();
    let mut image = recorded(alloc, filled_image(alloc, 1536)?);
    let header = header_of(alloc, 9, 4, false)?;
    let found = load_counter(&mut image, &header, HostCluster(1 << 47), 0);
    same(
        (found, image.calls.len()),
        (Err(Fault::TablePlace), 0),
        "past 2^56",
    )?;
    image.plan = Some(0);
    let found = load_counter(&mut image, &header, HostCluster(1), 0);
    same(found, Err(Fault::Storage), "a failed read")
}
