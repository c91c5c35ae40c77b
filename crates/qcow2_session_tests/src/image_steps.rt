//! Lists of steps of an image: the replies, the image's bytes afterwards, and refusals.

use crate::blocks::check_replies;
use crate::images::{Contents, check_image, recording_image};
use crate::steps::{DEC_0, DEC_1, INC_0, UP_UP_DOWN};
use StepReply::{Done, Refused};
use qcow2_base::{Fault, HostCluster};
use qcow2_calls::header_of;
use qcow2_session::{Step, StepReply};
use qcow2_session_calls::step_image;
use qcow2_testing::rows;
use std::alloc::Global;
use std::test::Fail;

// The bytes of an entry of the table in cluster 2, before the block.
const ENTRY: &[u8] = &[0x80, 0, 0, 0, 0, 0, 0x0a, 0];

// A list of steps of the block at a cluster of an image, the reply to each or the fault that refuses them,
// and the image afterwards.
#[derive(Clone, Copy)]
struct Row {
    name: &'static str,
    cluster_bits: u32,
    cluster: u64,
    refcount_order: u32,
    before: Contents<'static>,
    steps: &'static [Step],
    expected: Result<&'static [StepReply], Fault>,
    after: Contents<'static>,
}

const ROW: Row = Row {
    name: "",
    cluster_bits: 9,
    cluster: 3,
    refcount_order: 4,
    before: TABLE,
    steps: &[],
    expected: Ok(&[]),
    after: TABLE,
};

const ROWS: &[Row] = rows! {
    Row { name: "up, up, down, and one that is at 0", steps: &[INC_0, INC_0, DEC_0, DEC_1],
        expected: Ok(UP_UP_DOWN), after: (2048, &[(1048, ENTRY), (1536, &[0, 1])]), ..ROW },
    Row { name: "none is done", steps: &[DEC_0, DEC_1], expected: Ok(&[Refused, Refused]), ..ROW },
    Row { name: "no step at the last place", cluster: LAST, before: (700, &[]), after: (700, &[]), ..ROW },
    Row { name: "up and down", cluster: 1, before: SEVEN, steps: &[INC_0, DEC_0],
        expected: Ok(&[Done(7), Done(8)]), after: SEVEN, ..ROW },
    Row { name: "a hundred", cluster: 1, before: SEVEN, steps: &[Step::Dec { index: 1 }; 100],
        expected: Ok(&[Refused; 100]), after: SEVEN, ..ROW },
    Row { name: "both ends of a block of 64 KiB", cluster_bits: 16, cluster: 1, before: (196_608, &[]),
        steps: &[Step::Inc { index: 32_767 }, INC_0], expected: Ok(&[Done(0), Done(0)]),
        after: (196_608, &[(65_536, &[0, 1]), (131_070, &[0, 1])]), ..ROW },
    Row { name: "both ends of a block of 2 MiB", cluster_bits: 21, cluster: 1, refcount_order: 3,
        before: (4_194_400, &[(4_194_303, &[9])]), steps: &[Step::Dec { index: 2_097_151 }, INC_0],
        expected: Ok(&[Done(9), Done(0)]), after: (4_194_400, &[(2_097_152, &[1]), (4_194_303, &[8])]),
        ..ROW },
    // indices past the end, also after steps that could be made
    Row { name: "past the end", steps: &[INC_0, DEC_0, MAX], expected: Err(Fault::BadStep(2)), ..ROW },
    Row { name: "past it at the last place", cluster: LAST, steps: &[PAST], expected: Err(Fault::BadStep(0)),
        ..ROW },
    Row { name: "past 2^56", cluster: LAST + 1, steps: &[PAST], expected: Err(Fault::TablePlace), ..ROW },
    Row { name: "past 64 bits", cluster_bits: 21, cluster: u64::MAX, expected: Err(Fault::TablePlace),
        ..ROW },
};

const TABLE: Contents<'static> = (1536, &[(1048, ENTRY)]);

const SEVEN: Contents<'static> = (1300, &[(512, &[0, 7])]);

// The last cluster of 512 bytes, which ends at 2^56.
const LAST: u64 = 0x7fff_ffff_ffff;

const PAST: Step = Step::Inc { index: 256 };

const MAX: Step = Step::Dec { index: usize::MAX };

#[test]
fn steps_stand_in_the_image_or_leave_it(rt: HostRuntime) -> Result<(), Fail> {
    for row in ROWS {
        check_steps(rt.alloc(), *row, 0)?;
        check_steps(rt.alloc(), *row, 0xa5)?;
    }
    Ok(())
}

// Makes the steps of a row, with this byte around the block.
fn check_steps(alloc: Global, row: Row, around: u8) -> Result<(), Fail> {
    let place = (row.cluster_bits, row.cluster);
    let mut image = recording_image(alloc, place, around, row.before)?;
    let header = header_of(alloc, row.cluster_bits, row.refcount_order, false)?;
    let answer = step_image(
        alloc,
        &mut image,
        &header,
        HostCluster(row.cluster),
        row.steps,
    );
    let is_read = row.expected != Err(Fault::TablePlace);
    let is_written = check_replies(answer, row.expected, row.name)?;
    let calls = (is_read, is_written);
    check_image(&image, alloc, place, around, row.after, calls, row.name)
}
