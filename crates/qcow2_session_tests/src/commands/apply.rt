//! The command `apply`: its output, its effect on the image, and its refusals.

use super::run::Ended::{self, Done, Failed};
use super::whole_images::{RUN, Run, check_runs};
use crate::failing_output::Failure::{Flush, WriteAfter};
use qcow2_testing::{COPIED, Numbers, counted, rows};
use std::test::Fail;

// The sample image with refcounts. Clusters 6 to 9 are free.
const BOOKS: Numbers<'static> = counted! {};

// The same without data in guest cluster 3, and with cluster 5 free.
const DISCARDED: Numbers<'static> = counted! { (0x418, 0), (0x808, 0x0001_0000_0000_0000) };

const ZEROED: Numbers<'static> = counted! { (0x418, 1), (0x808, 0x0001_0000_0000_0000) };

const KEPT: Numbers<'static> = counted! { (0x418, COPIED + 0xa01) };

// Data of guest cluster 0 in cluster 6.
const MAPPED: Numbers<'static> = counted! {
    (0x400, COPIED + 0xc00), (0x808, 0x0001_0001_0001_0000)
};

const MAPPED_AND_DISCARDED: Numbers<'static> = counted! {
    (0x400, COPIED + 0xc00), (0x418, 0), (0x808, 0x0001_0000_0001_0000)
};

// Cluster 5 with refcount 2, and with refcount 1 after it lost a reference.
const TWICE: Numbers<'static> = counted! { (0x808, 0x0001_0002_0000_0000) };

const ONCE: Numbers<'static> = counted! { (0x418, 0) };

const UNCOUNTED: Numbers<'static> = counted! { (0x808, 0x0001_0000_0000_0000) };

const AUTOCLEAR: Numbers<'static> = counted! { (88, 1) };

const NOT_COPIED: Numbers<'static> = counted! { (0x200, 0x400) };

const NO_TABLE: Numbers<'static> = counted! { (0x200, 0) };

const BAD_ENTRY: Numbers<'static> = counted! { (0x5f8, 2) };

const EXTERNAL: Numbers<'static> = counted! { (72, 4) };

const FREED: &str = "freed 5 1\n";

const STORAGE: &str = "qmeta: fault 34\n";

const MADE: &[Run<'static>] = rows! {
    Run { line: "apply IMAGE discard:0x600", before: BOOKS, ended: Done(FREED), after: DISCARDED, ..RUN },
    Run { line: "apply IMAGE discard:1536:512", before: BOOKS, ended: Done(FREED), after: DISCARDED, ..RUN },
    Run { line: "apply IMAGE discard:0:0x8000", before: BOOKS, ended: Done(FREED), after: DISCARDED, ..RUN },
    Run { line: "apply IMAGE zero:0x600:0x200", before: BOOKS, ended: Done(FREED), after: ZEROED, ..RUN },
    Run { line: "apply IMAGE keep:1536:0x200", before: BOOKS, ended: Done(""), after: KEPT, ..RUN },
    Run { line: "apply IMAGE map:0:6", before: BOOKS, ended: Done("gained 6\n"), after: MAPPED, ..RUN },
    Run { line: "apply IMAGE map:0x0:0x6 discard:0x600", before: BOOKS, ended: Done("freed 5 1\ngained 6\n"),
        after: MAPPED_AND_DISCARDED, ..RUN },
};

// A kept cluster, an unmapped one, a cleared autoclear feature, and failing outputs.
const KEPT_AND_FAILED: &[Run<'static>] = rows! {
    Run { line: "apply IMAGE discard:0x600", before: TWICE, ended: Done("kept 5 1\n"), after: ONCE, ..RUN },
    Run { line: "apply IMAGE discard:0", before: BOOKS, ended: Done(""), after: BOOKS, ..RUN },
    Run { line: "apply IMAGE discard:0x0000000000000600", before: AUTOCLEAR, ended: Done(FREED),
        after: DISCARDED, ..RUN },
    Run { line: "apply IMAGE discard:0x600", before: BOOKS, out: WriteAfter(5),
        ended: Failed("freed", STORAGE), after: DISCARDED, ..RUN },
    Run { line: "apply IMAGE discard:0x600", before: BOOKS, out: Flush, ended: Failed("", STORAGE),
        after: DISCARDED, ..RUN },
};

const PLANNED: &[Run<'static>] = rows! {
    Run { line: "apply IMAGE plan discard:0x600", before: BOOKS, ended: Done(FREED), after: BOOKS, ..RUN },
    Run { line: "apply IMAGE plan map:0:6 discard:1536", before: AUTOCLEAR,
        ended: Done("freed 5 1\ngained 6\n"), after: AUTOCLEAR, ..RUN },
    Run { line: "apply IMAGE plan keep:0x600:512", before: BOOKS, ended: Done(""), after: BOOKS, ..RUN },
    Run { line: "apply IMAGE plan discard:0x600", before: BOOKS, out: WriteAfter(5),
        ended: Failed("freed", STORAGE), after: BOOKS, ..RUN },
    Run { line: "apply IMAGE plan zero:0:512", before: NO_TABLE, ended: NOT_PLACED, after: NO_TABLE, ..RUN },
};

// A bitmaps extension with three bitmaps. By the autoclear bit they agree with the disk.
const BITMAPS: Numbers<'static> = counted! {
    (88, 1), (104, 0x2385_2875_0000_0018), (112, 3 << 32), (120, 96), (128, 0x1000),
};

// The same without that autoclear bit, so that they don't agree. The next bit marks an external data file as
// raw.
const STALE: Numbers<'static> = counted! {
    (88, 2), (104, 0x2385_2875_0000_0018), (112, 3 << 32), (120, 96), (128, 0x1000),
};

// Another extension, and then a bitmaps extension with the largest number of bitmaps.
const SECOND: Numbers<'static> = counted! {
    (88, 3), (104, 0x2385_2876_0000_0004), (112, 1 << 32), (120, 0x2385_2875_0000_0004),
    (128, 0xffff_ffff_0000_0000),
};

// A bitmaps extension of three bytes, too short for a number.
const CUT: Numbers<'static> = counted! {
    (88, 1), (104, 0x2385_2875_0000_0003), (112, 0x0000_0300_0000_0000),
};

const BITMAPS_DISCARDED: Numbers<'static> = counted! {
    (0x418, 0), (0x808, 0x0001_0000_0000_0000), (104, 0x2385_2875_0000_0018), (112, 3 << 32),
    (120, 96), (128, 0x1000),
};

const WITH_BITMAPS: &[Run<'static>] = rows! {
    Run { line: "apply IMAGE plan discard:0x600", before: BITMAPS,
        ended: Done("freed 5 1\nstale-bitmaps 3\n"),
        after: BITMAPS, ..RUN },
    Run { line: "apply IMAGE plan keep:0x600:512", before: BITMAPS, ended: Done("stale-bitmaps 3\n"),
        after: BITMAPS, ..RUN },
    Run { line: "apply IMAGE plan discard:0", before: SECOND, ended: Done("stale-bitmaps 4294967295\n"),
        after: SECOND, ..RUN },
    Run { line: "apply IMAGE plan discard:0x600", before: STALE, ended: Done(FREED), after: STALE, ..RUN },
    Run { line: "apply IMAGE plan discard:0x600", before: CUT, ended: Done(FREED), after: CUT, ..RUN },
    Run { line: "apply IMAGE plan map:0:10", before: BITMAPS, ended: BAD_EDIT, after: BITMAPS, ..RUN },
    Run { line: "apply IMAGE plan discard:0x600", before: BITMAPS, out: WriteAfter(16),
        ended: Failed("freed 5 1\nstale-", STORAGE), after: BITMAPS, ..RUN },
    Run { line: "apply IMAGE discard:0x600", before: BITMAPS, ended: Done(FREED), after: BITMAPS_DISCARDED,
        ..RUN },
};

const BAD_EDIT: Ended<'static> = Failed("", "qmeta: fault 32\n");

const NOT_PLACED: Ended<'static> = Failed("", "qmeta: fault 23\n");

// Edits that don't fit, and clusters that aren't free, or are past the file's end.
const UNFIT: &[Run<'static>] = rows! {
    Run { line: "apply IMAGE discard:0:0", before: BOOKS, ended: BAD_EDIT, after: BOOKS, ..RUN },
    Run { line: "apply IMAGE discard:1:512", before: BOOKS, ended: BAD_EDIT, after: BOOKS, ..RUN },
    Run { line: "apply IMAGE discard:0:511", before: BOOKS, ended: BAD_EDIT, after: BOOKS, ..RUN },
    Run { line: "apply IMAGE discard:0x8000", before: BOOKS, ended: BAD_EDIT, after: BOOKS, ..RUN },
    Run { line: "apply IMAGE map:0:5", before: BOOKS, ended: BAD_EDIT, after: BOOKS, ..RUN },
    Run { line: "apply IMAGE map:0:10", before: BOOKS, ended: BAD_EDIT, after: BOOKS, ..RUN },
    Run { line: "apply IMAGE plan map:0:10", before: BOOKS, ended: BAD_EDIT, after: BOOKS, ..RUN },
};

const REFUSED: &[Run<'static>] = rows! {
    // a table that doesn't exist, belongs to a snapshot, too, or is damaged
    Run { line: "apply IMAGE zero:0:512", before: NO_TABLE, ended: NOT_PLACED, after: NO_TABLE, ..RUN },
    Run { line: "apply IMAGE discard:0", before: NO_TABLE, ended: Done(""), after: NO_TABLE, ..RUN },
    Run { line: "apply IMAGE discard:0x600", before: NOT_COPIED, ended: Failed("", "qmeta: fault 40\n"),
        after: NOT_COPIED, ..RUN },
    Run { line: "apply IMAGE discard:0x600", before: BAD_ENTRY, ended: Failed("", "qmeta: fault 18\n"),
        after: BAD_ENTRY, ..RUN },
    // a refcount that is too low already, an external data file, and no header
    Run { line: "apply IMAGE discard:0x600", before: UNCOUNTED, ended: Failed("", "qmeta: fault 30\n"),
        after: UNCOUNTED, ..RUN },
    Run { line: "apply IMAGE map:0:99", before: EXTERNAL, ended: Failed("", "qmeta: fault 36\n"),
        after: EXTERNAL, ..RUN },
    Run { line: "apply IMAGE discard:0", before: &[(0, 0)], ended: Failed("", "qmeta: fault 1\n"),
        after: &[(0, 0)], ..RUN },
};

// An L1 table that is too short for the disk, and tables past the file's end, also for edits of other tables.
// The file has ten clusters.
const BY_FILE: &[Run<'static>] = rows! {
    Run { line: "apply IMAGE discard:0x600", before: LONG_DISK, ended: SHORT, after: LONG_DISK, ..RUN },
    Run { line: "apply IMAGE plan discard:0x600", before: LONG_DISK, ended: SHORT, after: LONG_DISK, ..RUN },
    Run { line: "apply IMAGE map:0:99", before: LONG_DISK, ended: SHORT, after: LONG_DISK, ..RUN },
    Run { line: "apply IMAGE discard:0x600", before: FAR_TABLE, ended: PLACE, after: FAR_TABLE, ..RUN },
    Run { line: "apply IMAGE discard:0x8000", before: FAR_TABLE, ended: PLACE, after: FAR_TABLE, ..RUN },
    Run { line: "apply IMAGE plan discard:0x600", before: FAR_TABLE, ended: PLACE, after: FAR_TABLE, ..RUN },
    Run { line: "apply IMAGE map:0:99", before: FAR_TABLE, ended: BAD_EDIT, after: FAR_TABLE, ..RUN },
    Run { line: "apply IMAGE discard:0x600", before: FAR_BLOCK, ended: PLACE, after: FAR_BLOCK, ..RUN },
    Run { line: "apply IMAGE discard:0x600", before: FAR_AND_SNAPSHOTS, ended: PLACE,
        after: FAR_AND_SNAPSHOTS, ..RUN },
};

// A disk that is one byte longer than the L1 table covers.
const LONG_DISK: Numbers<'static> = counted! { (24, 32769) };

// A second L2 table right after the file's end.
const FAR_TABLE: Numbers<'static> = counted! { (24, 65536), (32, 2), (0x208, COPIED + 0x1400) };

const FAR_BLOCK: Numbers<'static> = counted! { (0x608, 0x1_0000) };

const FAR_AND_SNAPSHOTS: Numbers<'static> =
    counted! { (24, 65536), (32, 2), (60, 1 << 32), (0x208, COPIED + 0x1400) };

const SHORT: Ended<'static> = Failed("", "qmeta: fault 41\n");

const PLACE: Ended<'static> = Failed("", "qmeta: fault 21\n");

#[test]
fn edits_of_a_disk_that_the_file_does_not_have_change_nothing(rt: HostRuntime) -> Result<(), Fail> {
    check_runs(&rt, "not had", BY_FILE)
}

#[test]
fn edits_of_a_disk_change_tables_and_counters(rt: HostRuntime) -> Result<(), Fail> {
    check_runs(&rt, "applied", MADE)
}

#[test]
fn edits_of_a_disk_print_what_is_kept_and_stay_where_the_output_fails(
    rt: HostRuntime,
) -> Result<(), Fail> {
    check_runs(&rt, "kept", KEPT_AND_FAILED)
}

#[test]
fn planned_edits_of_a_disk_change_nothing(rt: HostRuntime) -> Result<(), Fail> {
    check_runs(&rt, "planned", PLANNED)
}

#[test]
fn planned_edits_of_a_disk_say_how_many_bitmaps_become_stale(rt: HostRuntime) -> Result<(), Fail> {
    check_runs(&rt, "bitmaps", WITH_BITMAPS)
}

#[test]
fn edits_of_a_disk_that_are_refused_change_nothing(rt: HostRuntime) -> Result<(), Fail> {
    check_runs(&rt, "refused", REFUSED)
}

#[test]
fn edits_of_a_disk_that_do_not_fit_change_nothing(rt: HostRuntime) -> Result<(), Fail> {
    check_runs(&rt, "unfit", UNFIT)
}
