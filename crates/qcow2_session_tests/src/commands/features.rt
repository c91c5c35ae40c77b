//! The commands over images with incompatible features: marked dirty or corrupt, or of another compression.

use super::in_memory::run_command;
use super::run::Ended::{self, Done, Failed, Harmful, Harmless};
use super::whole_images::{RUN, Run, check_run, check_runs};
use crate::failing_output::{FailingOutput, Failure};
use qcow2_session::Verdict;
use qcow2_testing::sample_image::{EXTENTS, JSON, TABLE_LINES, TO_6, sample_image};
use qcow2_testing::{Numbers, counted, each, rows, same};
use std::alloc::Global;
use std::test::Fail;

const DIRTY: (u64, u64) = (72, 1);

const CORRUPT: (u64, u64) = (72, 2);

const BOTH: (u64, u64) = (72, 3);

// A disk of 65 clusters, for which an L1 entry is missing.
const LONGER: (u64, u64) = (24, 32769);

// Clusters compressed by zstd: the bit, a header of 112 bytes, and the type.
const ZSTD: (u64, u64) = (72, 8);

const LENGTH: (u64, u64) = (96, 0x0000_0004_0000_0070);

const TYPE: (u64, u64) = (104, 0x0100_0000_0000_0000);

const LAYOUT: &str =
    "0 1 header\n1 1 l1\n2 1 l2\n3 1 refcount-table\n4 1 refcount-block\n5 1 data 0x600\n";

const REFUSED: Ended<'static> = Failed("", "qmeta: fault 17\n");

const MARKED: Ended<'static> = Failed("", "qmeta: fault 42\n");

const MARKED_OBJECT: &str = "{\n    \"image-end-offset\": 3072,\n    \"total-clusters\": 64,\n    \
    \"check-errors\": 0,\n    \"dirty\": true,\n    \"corrupt\": true,\n    \
    \"allocated-clusters\": 1,\n    \"filename\": \"IMAGE\",\n    \"format\": \"qcow2\"\n}\n";

const DIRTY_OBJECT: &str = "{\n    \"image-end-offset\": 3584,\n    \"total-clusters\": 64,\n    \
    \"check-errors\": 0,\n    \"leaks\": 1,\n    \"dirty\": true,\n    \
    \"allocated-clusters\": 1,\n    \"filename\": \"IMAGE\",\n    \"format\": \"qcow2\"\n}\n";

// A line, changes of the sample image, and the end of the command. The image stays.
type Look = (&'static str, Numbers<'static>, Ended<'static>);

const CHECKS: &[Look] = rows! {
    // a mark has a line, and only damage changes the verdict
    ("check IMAGE", counted! { DIRTY }, Done("dirty\nconsistent\n")),
    ("check IMAGE", counted! { CORRUPT },
        Harmful("corrupt\nleaked 0 missing 0 shared 0 false 0 late 0\n")),
    ("check IMAGE", counted! { BOTH },
        Harmful("dirty\ncorrupt\nleaked 0 missing 0 shared 0 false 0 late 0\n")),
    ("check IMAGE", counted! { DIRTY, TO_6 },
        Harmless("leaked 6 1 1 0\ndirty\nleaked 1 missing 0 shared 0 false 0 late 0\n")),
    ("check IMAGE", counted! { CORRUPT, TO_6 },
        Harmful("leaked 6 1 1 0\ncorrupt\nleaked 1 missing 0 shared 0 false 0 late 0\n")),
    ("check IMAGE", counted! { BOTH, LONGER },
        Harmful("dirty\ncorrupt\nshort-l1 1 2\nleaked 0 missing 0 shared 0 false 0 late 0\n")),
    ("check IMAGE", counted! { ZSTD, LENGTH, TYPE }, Done("consistent\n")),
    // the type of a compression that isn't there
    ("check IMAGE", counted! { (72, 8) }, REFUSED),
};

const LOOKS: &[Look] = rows! {
    ("map IMAGE", counted! { BOTH }, Done(EXTENTS)),
    ("map IMAGE json", counted! { BOTH }, Done(JSON)),
    ("tables IMAGE", counted! { BOTH }, Done(TABLE_LINES)),
    ("layout IMAGE", counted! { BOTH }, Done(LAYOUT)),
    ("refcount IMAGE 5 6", counted! { BOTH }, Done("5 1\n6 0\n")),
    ("map IMAGE", counted! { ZSTD, LENGTH, TYPE }, Done(EXTENTS)),
    ("layout IMAGE", counted! { ZSTD, LENGTH, TYPE }, Done(LAYOUT)),
    // commands that know no feature
    ("info IMAGE", counted! { DIRTY }, REFUSED), ("list IMAGE", counted! { DIRTY }, REFUSED),
    ("at IMAGE 0", counted! { CORRUPT }, REFUSED),
    ("edit IMAGE 0 discard:3", counted! { DIRTY }, REFUSED),
    ("count IMAGE 4 inc:5", counted! { CORRUPT }, REFUSED),
    ("list IMAGE", counted! { ZSTD, LENGTH, TYPE }, REFUSED),
    // edits of a disk come after a repair
    ("apply IMAGE discard:0x600", counted! { BOTH }, MARKED),
    ("apply IMAGE plan discard:0x600", counted! { DIRTY }, MARKED),
    ("apply IMAGE discard:0x601", counted! { CORRUPT, LONGER }, MARKED),
};

#[test]
fn marked_images_can_be_checked(rt: HostRuntime) -> Result<(), Fail> {
    for (line, before, ended) in CHECKS {
        check_run(&rt, "checked marks", &run_of(*line, *before, *ended))?;
    }
    Ok(())
}

#[test]
fn marked_images_can_be_looked_into(rt: HostRuntime) -> Result<(), Fail> {
    for (line, before, ended) in LOOKS {
        check_run(&rt, "marks", &run_of(*line, *before, *ended))?;
    }
    Ok(())
}

// Returns a run of a line that leaves its image unchanged.
fn run_of<'a>(line: &'a str, before: Numbers<'a>, ended: Ended<'a>) -> Run<'a> {
    Run {
        line,
        before,
        ended,
        after: before,
        ..RUN
    }
}

// Changes of the sample image, and the verdict and the object of its check in JSON.
#[derive(Clone, Copy)]
struct Object {
    name: &'static str,
    changes: Numbers<'static>,
    verdict: Verdict,
    text: &'static str,
}

const OBJECTS: &[Object] = rows! {
    Object { name: "marks", changes: counted! { BOTH }, verdict: Verdict::Harmful, text: MARKED_OBJECT },
    Object { name: "a mark and a leak", changes: counted! { DIRTY, TO_6 }, verdict: Verdict::Harmless,
        text: DIRTY_OBJECT },
};

#[test]
fn a_check_in_json_has_a_member_for_each_mark(rt: HostRuntime) -> Result<(), Fail> {
    each(rt.alloc(), OBJECTS, check_object)
}

fn check_object(alloc: Global, row: Object) -> Result<(), Fail> {
    let mut image = sample_image(alloc, 9, row.changes)?;
    let mut out = FailingOutput::new(alloc, Failure::Never);
    let answer = run_command(alloc, &mut image, "check IMAGE json", &mut out)?;
    let found = (answer, std::str::from_utf8(out.bytes())?);
    same(found, (Some(Ok(row.verdict)), row.text), row.name)
}

// Cluster 256, which no block counts.
const PAST_BLOCKS: (u64, u64) = (0x420, 0x2_0000);

// A repair clears marks where nothing stays wrong. An image of another compression is repaired and edited.
const CHANGES: &[Run<'static>] = rows! {
    Run { line: "check IMAGE repair", before: counted! { DIRTY }, ended: Done("consistent\n"),
        after: counted! {}, ..RUN },
    Run { line: "check IMAGE repair", before: counted! { BOTH, TO_6 }, ended: Done("consistent\n"),
        after: counted! {}, ..RUN },
    Run { line: "check IMAGE repair", before: counted! { CORRUPT, PAST_BLOCKS },
        ended: Harmful(
            "missing 256 1 0 1\npast 256 1 0 1\ncorrupt\nleaked 0 missing 1 shared 0 false 0 late 0 past 1\n"
        ),
        after: counted! { CORRUPT, PAST_BLOCKS }, ..RUN },
    Run { line: "check IMAGE repair", before: counted! { ZSTD, LENGTH, TYPE, TO_6 },
        ended: Done("consistent\n"), after: counted! { ZSTD, LENGTH, TYPE }, ..RUN },
    Run { line: "apply IMAGE discard:0x600", before: counted! { ZSTD, LENGTH, TYPE },
        ended: Done("freed 5 1\n"),
        after: counted! { ZSTD, LENGTH, TYPE, (0x418, 0), (0x808, 0x0001_0000_0000_0000) },
        ..RUN },
};

#[test]
fn images_with_features_are_changed(rt: HostRuntime) -> Result<(), Fail> {
    check_runs(&rt, "features", CHANGES)
}
