//! The command `check` with a repair: the image afterwards, the findings left in it, and refusals.

use super::check::ended_by;
use super::run::Ended::Failed;
use super::whole_images::{RUN, Run, check_run};
use qcow2_base::{Fault, UncountedPart};
use qcow2_session::Verdict;
use qcow2_testing::damages::{Repair, Unrepairable, repairs, unrepairable_images};
use qcow2_testing::sample_image::{
    AUTOCLEAR, LARGER, NEXT_TABLE, REFTABLE, TABLE_ENTRY, TWO_TABLES,
};
use qcow2_testing::{COPIED, counted, rows};
use std::test::Fail;

#[test]
fn a_repair_prints_what_is_left(rt: HostRuntime) -> Result<(), Fail> {
    for rows in repairs() {
        check_all_repaired(&rt, rows)?;
    }
    Ok(())
}

fn check_all_repaired(rt: &HostRuntime, rows: &[Repair]) -> Result<(), Fail> {
    for row in rows {
        check_repaired(rt, row)?;
    }
    Ok(())
}

// Runs a repair. If the image isn't consistent afterwards, the verdict is `Harmful`.
fn check_repaired(rt: &HostRuntime, row: &Repair) -> Result<(), Fail> {
    let verdict = match row.is_consistent() {
        true => Verdict::Fine,
        false => Verdict::Harmful,
    };
    let run = Run {
        line: "check IMAGE repair",
        before: row.changes,
        ended: ended_by(verdict, row.lines),
        after: row.left,
        ..RUN
    };
    check_run(rt, row.name, &run)
}

#[test]
fn what_cannot_be_repaired_stays_as_it_is(rt: HostRuntime) -> Result<(), Fail> {
    for row in unrepairable_images() {
        check_refused(&rt, row)?;
    }
    Ok(())
}

fn check_refused(rt: &HostRuntime, row: &Unrepairable) -> Result<(), Fail> {
    let reported = format!(in rt.alloc(); "qmeta: fault {}\n", row.fault.number())?;
    let run = Run {
        line: "check IMAGE repair",
        before: row.changes,
        ended: Failed("", reported.as_str()),
        after: row.changes,
        ..RUN
    };
    check_run(rt, row.name, &run)
}

// Tables past the file's end. The file has ten clusters.
const PAST_END: &[Unrepairable] = rows! { Unrepairable:
    { name: "an L2 table", changes: counted! { AUTOCLEAR, (TABLE_ENTRY, COPIED + 0x1_0000) },
        fault: Fault::TablePlace },
    { name: "an L2 table right after the file",
        changes: counted! { LARGER, TWO_TABLES, (NEXT_TABLE, COPIED + 0x1400) },
        fault: Fault::TablePlace },
    { name: "a block", changes: counted! { (REFTABLE + 8, 0x1_0000) }, fault: Fault::TablePlace },
    { name: "the second cluster of the refcount table",
        changes: counted! { (48, 0x1200), (56, 2 << 32), (0x1200, 0x800) }, fault: Fault::TablePlace },
    { name: "the second cluster of the L1 table",
        changes: counted! { (32, 65), (40, 0x1200) }, fault: Fault::TablePlace },
    { name: "the L1 table", changes: counted! { (40, 0x1400) }, fault: Fault::TablePlace },
    // faults that a check finds first
    { name: "snapshots and an L2 table",
        changes: counted! { (56, 1 << 32 | 1), (TABLE_ENTRY, COPIED + 0x1_0000) }, fault: SNAPSHOTS },
    { name: "a bad L1 entry and an L2 table",
        changes: counted! { LARGER, TWO_TABLES, (TABLE_ENTRY, COPIED + 0x1_0000), (NEXT_TABLE, 1) },
        fault: Fault::EntryReserved },
};

const SNAPSHOTS: Fault = Fault::Uncounted(UncountedPart::Snapshots);

#[test]
fn a_table_past_the_end_of_the_file_is_refused(rt: HostRuntime) -> Result<(), Fail> {
    for row in PAST_END {
        check_refused(&rt, row)?;
    }
    Ok(())
}
