//! Refcounts in the bytes of a refcount block, read, and settled after an edit.

use crate::calls::{read_refcounts, settle_refcounts};
use qcow2_base::{Fault, MemStorage};
use qcow2_bytes::HostClusters;
use qcow2_testing::{each, image_with, rows, same, same_bytes};
use std::alloc::Global;
use std::test::Fail;

// A block whose first and last eight bytes are 01 23 45 67 89 ab cd ef and whose others are 0: its size in
// bytes, its refcount order, an index, and the refcounts from there on.
#[derive(Clone, Copy, Debug)]
struct Counters {
    size: usize,
    order: u32,
    first: usize,
    counters: &'static [u64],
}

const EACH_ORDER: &[Counters] = rows! { Counters:
    { size: 512, order: 0, first: 0, counters: &[1, 0, 0, 0, 0, 0, 0, 0, 1, 1, 0, 0, 0, 1, 0, 0] },
    { size: 512, order: 0, first: 7, counters: &[0, 1, 1] },
    { size: 512, order: 1, first: 0, counters: &[1, 0, 0, 0, 3, 0, 2, 0, 1, 1, 0, 1] },
    { size: 512, order: 2, first: 0, counters: &[1, 0, 3, 2, 5, 4, 7, 6, 9, 8, 11, 10, 13, 12, 15, 14, 0] },
    { size: 512, order: 2, first: 1, counters: &[0] },
    { size: 512, order: 3, first: 0, counters: &[0x01, 0x23, 0x45, 0x67, 0x89, 0xab, 0xcd, 0xef, 0] },
    { size: 512, order: 4, first: 0, counters: &[0x0123, 0x4567, 0x89ab, 0xcdef, 0] },
    { size: 512, order: 5, first: 0, counters: &[0x0123_4567, 0x89ab_cdef, 0] },
    { size: 512, order: 6, first: 0, counters: &[0x0123_4567_89ab_cdef, 0] },
};

// The last refcounts of a block.
const LAST: &[Counters] = rows! { Counters:
    { size: 512, order: 6, first: 62, counters: &[0, 0x0123_4567_89ab_cdef] },
    { size: 1 << 16, order: 0, first: 524_280, counters: &[1, 1, 1, 1, 0, 1, 1, 1] },
    { size: 1 << 16, order: 4, first: 32764, counters: &[0x0123, 0x4567, 0x89ab, 0xcdef] },
    { size: 1 << 16, order: 4, first: 32768, counters: &[] },
    { size: 1 << 21, order: 0, first: 16_777_208, counters: &[1, 1, 1, 1, 0, 1, 1, 1] },
    { size: 1 << 21, order: 1, first: 8_388_604, counters: &[3, 3, 2, 3] },
    { size: 1 << 21, order: 2, first: 4_194_302, counters: &[15, 14] },
    { size: 1 << 21, order: 3, first: 2_097_150, counters: &[0xcd, 0xef] },
    { size: 1 << 21, order: 5, first: 524_287, counters: &[0x89ab_cdef] },
    { size: 1 << 21, order: 6, first: 262_143, counters: &[0x0123_4567_89ab_cdef] },
};

fn check_counters(alloc: Global, row: Counters) -> Result<(), Fail> {
    let last = (row.size as u64).saturating_sub(8);
    let number = 0x0123_4567_89ab_cdef;
    let image = image_with(alloc, row.size, &[(0, number), (last, number)])?;
    let mut found = vec![in alloc; 7; row.counters.len()]?;
    let read = read_refcounts(image.bytes(), row.order, row.first, found.as_mut_slice());
    same((read, found.as_slice()), (Ok(()), row.counters), row)
}

#[test]
fn counters_of_each_width_are_read(rt: HostRuntime) -> Result<(), Fail> {
    each(rt.alloc(), EACH_ORDER, check_counters)
}

#[test]
fn the_last_counters_of_a_block_are_read(rt: HostRuntime) -> Result<(), Fail> {
    each(rt.alloc(), LAST, check_counters)
}

// The length of a block in bytes, a refcount order, the first index and the number of the requested
// refcounts, and the fault.
#[derive(Clone, Copy, Debug)]
struct Refused {
    len: usize,
    order: u32,
    first: usize,
    count: usize,
    fault: Fault,
}

const REFUSED: &[Refused] = rows! { Refused:
    { len: 512, order: 7, first: 0, count: 1, fault: Fault::RefcountWidth },
    { len: 0, order: u32::MAX, first: usize::MAX, count: 4, fault: Fault::RefcountWidth },
    { len: 0, order: 4, first: 0, count: 0, fault: Fault::WrongLength },
    { len: 256, order: 4, first: 0, count: 1, fault: Fault::WrongLength },
    { len: 511, order: 4, first: 0, count: 1, fault: Fault::WrongLength },
    { len: 513, order: 4, first: 0, count: 1, fault: Fault::WrongLength },
    { len: 1536, order: 4, first: 0, count: 1, fault: Fault::WrongLength },
    { len: 1 << 22, order: 4, first: 0, count: 1, fault: Fault::WrongLength },
    // a block of 512 bytes has 256 refcounts of 16 bits
    { len: 512, order: 4, first: 255, count: 2, fault: Fault::BadStep(1) },
    { len: 512, order: 4, first: 256, count: 1, fault: Fault::BadStep(0) },
    { len: 512, order: 4, first: 257, count: 0, fault: Fault::BadStep(0) },
    { len: 512, order: 4, first: usize::MAX, count: 4, fault: Fault::BadStep(0) },
    { len: 1 << 16, order: 0, first: 524_287, count: 4, fault: Fault::BadStep(1) },
};

fn check_refused(alloc: Global, row: Refused) -> Result<(), Fail> {
    let image = image_with(alloc, row.len, &[])?;
    let mut counters = [7; 4];
    let places = &mut counters[..row.count.min(4)];
    let read = read_refcounts(image.bytes(), row.order, row.first, places);
    same((read, counters), (Err(row.fault), [7; 4]), row)
}

#[test]
fn what_is_no_part_of_a_block_is_refused(rt: HostRuntime) -> Result<(), Fail> {
    each(rt.alloc(), REFUSED, check_refused)
}

// A block's size in bytes, its refcount order and its index in the refcount table; its bytes, as numbers of
// eight bytes at offsets; a range of clusters that lose a reference (first cluster and length), and clusters
// that gain one; and the bytes afterwards.
#[derive(Clone, Copy, Debug)]
struct Settled {
    size: usize,
    order: u32,
    index: u64,
    before: &'static [(u64, u64)],
    freed: (u64, u64),
    gained: &'static [u64],
    after: &'static [(u64, u64)],
}

// In blocks of 512 bytes.
const EACH_WIDTH: &[Settled] = rows! { Settled:
    { size: 512, order: 0, index: 1, before: &[(0, 1 << 56)],
      freed: (0, 4097), gained: &[4097, 8191, 8192], after: &[(0, 2 << 56), (504, 0x80)] },
    { size: 512, order: 1, index: 0, before: &[(0, 0xe4 << 56)],
      freed: (1, 3), gained: &[0, 0], after: &[(0, 0x92 << 56)] },
    { size: 512, order: 2, index: 3, before: &[(0, 0x2143 << 48)],
      freed: (3073, 2), gained: &[3075], after: &[(0, 0x1152 << 48)] },
    { size: 512, order: 3, index: 2, before: &[(0, 0xff01 << 48)],
      freed: (1024, 2), gained: &[1535], after: &[(0, 0xfe00 << 48), (504, 1)] },
    { size: 512, order: 4, index: 0, before: &[(0, 0x0001_ffff_0000_0002)],
      freed: (0, 2), gained: &[2, 3, 3], after: &[(0, 0x0000_fffe_0001_0004)] },
    { size: 512, order: 5, index: 0, before: &[(0, 0xffff_ffff_0000_0001)],
      freed: (0, 1), gained: &[1], after: &[(0, 0xffff_fffe_0000_0002)] },
    { size: 512, order: 6, index: 0, before: &[(0, u64::MAX)],
      freed: (0, 1), gained: &[1, 63], after: &[(0, u64::MAX - 1), (8, 1), (504, 1)] },
    // gains are counted before losses
    { size: 512, order: 4, index: 0, before: &[], freed: (5, 1), gained: &[5], after: &[] },
};

// In blocks of other sizes.
const EACH_SIZE: &[Settled] = rows! { Settled:
    { size: 1 << 16, order: 4, index: 5, before: &[(65528, 1)],
      freed: (196_607, 1000), gained: &[163_840], after: &[(0, 1 << 48)] },
    { size: 1 << 16, order: 0, index: 0, before: &[(65528, 0x80)],
      freed: (524_287, u64::MAX), gained: &[], after: &[] },
    { size: 1 << 21, order: 6, index: 1, before: &[(8, 7)],
      freed: (262_145, 1), gained: &[524_287, 524_287], after: &[(8, 6), (2_097_144, 2)] },
    { size: 1 << 21, order: 0, index: u64::MAX, before: &[(0, 9)],
      freed: (0, u64::MAX), gained: &[u64::MAX], after: &[(0, 9)] },
};

// Settles a row in the bytes of an image, and returns the result and the bytes afterwards.
fn settle_in(
    alloc: Global,
    row: Settled,
    image: &MemStorage,
) -> Result<(Result<(), Fault>, Vec<u8>), Fail> {
    let mut bytes = Vec::with_capacity(alloc, image.bytes().len())?;
    bytes.extend_from_slice(image.bytes())?;
    let freed = [HostClusters {
        first: row.freed.0,
        count: row.freed.1,
    }];
    let settled = settle_refcounts(
        alloc,
        bytes.as_mut_slice(),
        row.order,
        row.index,
        &freed,
        row.gained,
    );
    Ok((settled, bytes))
}

fn check_settled(alloc: Global, row: Settled) -> Result<(), Fail> {
    let before = image_with(alloc, row.size, row.before)?;
    let (settled, bytes) = settle_in(alloc, row, &before)?;
    let after = image_with(alloc, row.size, row.after)?;
    same(settled, Ok(()), row)?;
    same_bytes(bytes.as_slice(), after.bytes(), row)
}

#[test]
fn counters_of_each_width_follow_an_edit(rt: HostRuntime) -> Result<(), Fail> {
    each(rt.alloc(), EACH_WIDTH, check_settled)
}

#[test]
fn counters_of_blocks_of_each_size_follow_an_edit(rt: HostRuntime) -> Result<(), Fail> {
    each(rt.alloc(), EACH_SIZE, check_settled)
}

// An edit that `settle_refcounts` refuses, with the fault.
#[derive(Clone, Copy, Debug)]
struct RefusedEdit {
    size: usize,
    order: u32,
    before: &'static [(u64, u64)],
    freed: (u64, u64),
    gained: &'static [u64],
    fault: Fault,
}

const REFUSED_EDITS: &[RefusedEdit] = rows! { RefusedEdit:
    { size: 512, order: 7, before: &[], freed: (0, 0), gained: &[], fault: Fault::RefcountWidth },
    { size: 1000, order: 4, before: &[], freed: (0, 0), gained: &[], fault: Fault::WrongLength },
    { size: 512, order: 4, before: &[], freed: (0, 1), gained: &[], fault: Fault::CounterRange },
    { size: 512, order: 4, before: &[(0, 0x0001_0001_0000_0001)],
      freed: (0, 4), gained: &[], fault: Fault::CounterRange },
    { size: 512, order: 0, before: &[(0, 1 << 56)], freed: (0, 1), gained: &[0], fault: Fault::CounterRange },
    { size: 512, order: 3, before: &[(504, 0xff)],
      freed: (0, 0), gained: &[0, 511], fault: Fault::CounterRange },
    { size: 512, order: 6, before: &[(0, u64::MAX)],
      freed: (9, 0), gained: &[0], fault: Fault::CounterRange },
    { size: 1 << 16, order: 4, before: &[(65528, 1)],
      freed: (32766, 2), gained: &[7], fault: Fault::CounterRange },
};

fn check_refused_edit(alloc: Global, row: RefusedEdit) -> Result<(), Fail> {
    let before = image_with(alloc, row.size, row.before)?;
    let edit = Settled {
        size: row.size,
        order: row.order,
        index: 0,
        before: row.before,
        freed: row.freed,
        gained: row.gained,
        after: row.before,
    };
    let (settled, bytes) = settle_in(alloc, edit, &before)?;
    same(settled, Err(row.fault), row)?;
    same_bytes(bytes.as_slice(), before.bytes(), row)
}

#[test]
fn an_edit_that_a_counter_cannot_hold_changes_no_byte(rt: HostRuntime) -> Result<(), Fail> {
    each(rt.alloc(), REFUSED_EDITS, check_refused_edit)
}
