//! Lists of steps of a refcount block: the replies, the refcounts afterwards, and refused lists.

use crate::blocks::{Counters, block_of, check_counters, check_replies};
use StepReply::{Done, Refused};
use qcow2_base::Fault;
use qcow2_session::{Step, StepReply};
use qcow2_session_calls::step_block;
use qcow2_testing::{each, rows};
use std::alloc::{AllocError, Global};
use std::test::Fail;

/// Steps of the first two refcounts of a block.
pub(crate) const INC_0: Step = Step::Inc { index: 0 };

pub(crate) const DEC_0: Step = Step::Dec { index: 0 };

pub(crate) const INC_1: Step = Step::Inc { index: 1 };

pub(crate) const DEC_1: Step = Step::Dec { index: 1 };

// Steps of three refcounts: the largest one, the next smaller one, and 0.
const AT_ENDS: &[Step] = rows! {
    INC_1, INC_1, DEC_1, INC_0, DEC_0, Step::Dec { index: 2 }, Step::Inc { index: 2 },
    Step::Dec { index: 2 }, Step::Dec { index: 2 },
};

// A list of steps of a block that begins with these bytes, the reply to each or the position of the first
// step that refuses the whole list, and the refcounts afterwards.
#[derive(Clone, Copy)]
struct Row<'a> {
    name: &'a str,
    refcount_order: u32,
    bytes: &'a [u8],
    steps: &'a [Step],
    expected: Result<&'a [StepReply], usize>,
    counters: Counters<'a>,
}

const ROW: Row<'static> = Row {
    name: "",
    refcount_order: 4,
    bytes: &[],
    steps: &[],
    expected: Ok(&[]),
    counters: &[],
};

const ROWS: &[Row<'static>] = rows! {
    Row { name: "no step", bytes: &[0, 7], counters: &[(0, 1, 7)], ..ROW },
    Row { name: "one at 0", steps: &[INC_0, INC_0, DEC_0, DEC_1], expected: Ok(UP_UP_DOWN),
        counters: &[(0, 1, 1)], ..ROW },
    Row { name: "one past the end", bytes: &[0, 7], steps: &[INC_0, Step::Inc { index: 256 }],
        expected: Err(1), counters: &[(0, 1, 7)], ..ROW },
    Row { name: "none", bytes: &[0xff, 0xff], steps: &[INC_0, DEC_1, INC_0], expected: Ok(&[Refused; 3]),
        counters: &[(0, 1, 65535)], ..ROW },
    Row { name: "those after a refused one are made", bytes: &[0, 1, 0, 9],
        steps: &[DEC_0, DEC_0, DEC_1, INC_0], expected: Ok(&[Done(1), Refused, Done(9), Done(0)]),
        counters: &[(0, 1, 1), (1, 1, 8)], ..ROW },
    // a refused increment isn't undone by the decrement after it
    Row { name: "one bit", refcount_order: 0, bytes: &[3], steps: &[INC_1, DEC_1],
        expected: Ok(&[Refused, Done(1)]), counters: &[(0, 1, 1)], ..ROW },
    Row { name: "two counters of a byte", refcount_order: 1, bytes: &[0x0c], steps: &[INC_1, INC_0, DEC_1],
        expected: Ok(&[Refused, Done(0), Done(3)]), counters: &[(0, 1, 1), (1, 1, 2)], ..ROW },
    Row { name: "the last index", bytes: &[0, 7],
        steps: &[Step::Inc { index: 255 }, INC_0, Step::Inc { index: 255 }],
        expected: Ok(&[Done(0), Done(7), Done(1)]), counters: &[(0, 1, 8), (255, 1, 2)], ..ROW },
    Row { name: "two past the end", bytes: &[0, 7, 0, 1],
        steps: &[INC_0, DEC_1, Step::Dec { index: 257 }, Step::Inc { index: 256 }], expected: Err(2),
        counters: &[(0, 1, 7), (1, 1, 1)], ..ROW },
    Row { name: "the greatest index", refcount_order: 0, bytes: &[1],
        steps: &[DEC_0, Step::Inc { index: 4095 }, Step::Dec { index: usize::MAX }], expected: Err(2),
        counters: &[(0, 1, 1)], ..ROW },
};

/// The replies to two increments and a decrement of a refcount of 0, and to a decrement of another one.
pub(crate) const UP_UP_DOWN: &[StepReply] = &[Done(0), Done(1), Done(2), Refused];

#[test]
fn steps_are_made_in_their_order_or_refused_together(rt: HostRuntime) -> Result<(), Fail> {
    for row in ROWS {
        check_steps(rt.alloc(), *row, false)?;
        check_steps(rt.alloc(), *row, true)?;
    }
    Ok(())
}

// Makes the steps of a row in a block with this modified flag.
fn check_steps(alloc: Global, row: Row<'_>, modified: bool) -> Result<(), Fail> {
    let image = (9, row.refcount_order, false);
    let mut block = block_of(alloc, image, (row.bytes, &[]), modified)?;
    let answer = step_block(alloc, &mut block, row.steps);
    let some_done = check_replies(answer, row.expected.map_err(Fault::BadStep), row.name)?;
    check_counters(&block, row.counters, modified || some_done, row.name)
}

// A refcount order, the first bytes of a block, which are the largest refcount, the next smaller one, and 0;
// and the largest refcount.
type Width = (u32, &'static [u8], u64);

const WIDTHS: &[Width] = rows! {
    (0, &[1], 1),
    (1, &[0x0b], 3),
    (2, &[0xef], 15),
    (3, &[0xff, 0xfe], 255),
    (4, &[0xff, 0xff, 0xff, 0xfe], 65535),
    (5, &[0xff, 0xff, 0xff, 0xff, 0xff, 0xff, 0xff, 0xfe], 0xffff_ffff),
    (6, ENDS_OF_64_BITS, u64::MAX),
};

const ENDS_OF_64_BITS: &[u8] = &[
    0xff, 0xff, 0xff, 0xff, 0xff, 0xff, 0xff, 0xff, 0xff, 0xff, 0xff, 0xff, 0xff, 0xff, 0xff, 0xfe,
];

fn check_width(alloc: Global, (order, bytes, greatest): Width) -> Result<(), Fail> {
    let (top, below) = (Done(greatest), Done(greatest.wrapping_sub(1)));
    let replies: &[StepReply] =
        rows! { below, Refused, top, Refused, top, Refused, Done(0), Done(1), Refused };
    let counters = [(0, 2, greatest.wrapping_sub(1))];
    check_made(alloc, (order, bytes), AT_ENDS, replies, &counters)
}

// Fails unless steps of a block that begins with these bytes get these replies and leave these refcounts.
fn check_made<'a>(
    alloc: Global,
    (refcount_order, bytes): (u32, &'a [u8]),
    steps: &'a [Step],
    replies: &'a [StepReply],
    counters: Counters<'a>,
) -> Result<(), Fail> {
    let expected: Result<&'a [StepReply], usize> = Ok(replies);
    let row = Row {
        name: "steps that are made",
        refcount_order,
        bytes,
        steps,
        expected,
        counters,
    };
    check_steps(alloc, row, false)
}

#[test]
fn no_counter_passes_the_ends_of_its_width(rt: HostRuntime) -> Result<(), Fail> {
    each(rt.alloc(), WIDTHS, check_width)
}

// Returns the first `count` steps, with their replies, of ten thousand increments that cycle through 256
// refcounts, followed by a decrement for each, in reverse order.
fn many_steps(alloc: Global, count: usize) -> Result<(Vec<Step>, Vec<StepReply>), AllocError> {
    let mut steps = Vec::new(alloc);
    let mut replies = Vec::new(alloc);
    for place in 0..count {
        if place < 10_000 {
            steps.push(Step::Inc { index: place % 256 })?;
            replies.push(Done((place / 256) as u64))?;
        } else {
            let back = 19_999usize.saturating_sub(place);
            steps.push(Step::Dec { index: back % 256 })?;
            replies.push(Done((back / 256) as u64 + 1))?;
        }
    }
    Ok((steps, replies))
}

fn check_many(alloc: Global, count: usize, counters: Counters<'_>) -> Result<(), Fail> {
    let (steps, replies) = many_steps(alloc, count)?;
    check_made(alloc, (4, &[]), &steps, &replies, counters)
}

// 10,000 is 39 times 256, plus 16.
#[test]
fn ten_thousand_steps_up_and_down_are_made_in_their_order(rt: HostRuntime) -> Result<(), Fail> {
    check_many(rt.alloc(), 10_000, &[(0, 16, 40), (16, 240, 39)])?;
    check_many(rt.alloc(), 20_000, &[])
}
