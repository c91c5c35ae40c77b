//! The commands over whole images: their output, and the file afterwards.

use super::run::Ended::{self, Done, Failed, NoCommand};
use super::run::{NO_COMMAND, NO_FAILURES, check_line};
use crate::failing_output::Failure::{self, Flush, Interrupted, Never, Short, WriteAfter};
use qcow2_testing::damages::{ALL_KINDS, ALL_LINES};
use qcow2_testing::sample_image::{EXTENTS, INFO, JSON, check_sample, sample_image};
use qcow2_testing::{
    COPIED, FaultyFiles, Numbers, Opens, TemporaryFile, VERSION_2, VERSION_3, rows, same,
    temporary_file,
};
use std::alloc::{AllocError, Global};
use std::fs;
use std::test::Fail;

const LIST: &str = "0x600 data 0xa00 copied\n";

const ONE_LINE: &str = "3 data 0xa00 copied\n";

const DATA_LINE: &str = "data 0xa00 copied\n";

const BACKING: &str = "backing 0x0\n";

// The ends of runs that print nothing, the first without a fault.
const SILENT: Ended<'static> = Done("");

const BAD_ENTRY: Ended<'static> = Failed("", "qmeta: fault 18\n");

const NO_PLACE: Ended<'static> = Failed("", "qmeta: fault 21\n");

const BAD_EDIT: Ended<'static> = Failed("", "qmeta: fault 32\n");

const NO_FILE: Ended<'static> = Failed("", STORAGE);

const STORAGE: &str = "qmeta: fault 34\n";

const HEADER_ALONE: Numbers<'static> = &[(24, 0), (32, 0), (40, 0)];

// An external data file named `data.raw`, and a backing file `base.img` of the format `qcow2`.
const NAMES: Numbers<'static> = rows! {
    (8, 144), (16, 0x0000_0008_0000_0009), (72, 4), (104, 0xe279_2aca_0000_0005),
    (112, 0x7163_6f77_3200_0000), (120, 0x4441_5441_0000_0008), (128, 0x6461_7461_2e72_6177),
    (144, 0x6261_7365_2e69_6d67),
};

const NAMES_INFO: &str = "version 3\ncluster-bits 9\nsize 32768\nrefcount-order 4\nl1 0x200 1\n\
    refcount-table 0x0 0\nbacking 8 base.img\nformat 5 qcow2\nexternal yes\ndata-file 8 data.raw\n";

// Version 2 with a refcount table, and a backing file whose name has a character of two bytes.
const OLDER: Numbers<'static> = rows! {
    (0, VERSION_2), (8, 144), (16, 0x0000_0006_0000_0009), (48, 0x800), (56, 2 << 32),
    (144, 0xc3a4_2e69_6d67_0000)
};

const OLDER_INFO: &str = "version 2\ncluster-bits 9\nsize 32768\nrefcount-order 4\nl1 0x200 1\n\
    refcount-table 0x800 2\nbacking 6 \u{e4}.img\nformat none\nexternal no\ndata-file none\n";

const TABLE_TWICE: Numbers<'static> = &[(32, 2), (520, COPIED + 0x400)];

const TWO_LINES: &str = "0x600 data 0xa00 copied\n0x8600 data 0xa00 copied\n";

const SECOND_ALONE: Numbers<'static> = &[(32, 2), (512, 0), (520, 0x400)];

const FAR_L1_TABLE: Numbers<'static> = &[(32, 65), (40, (1 << 56) - 512)];

// A second L2 table at 1536, whose last entry is invalid.
const BAD_SECOND_TABLE: Numbers<'static> = rows! {
    (32, 2), (520, COPIED + 0x600), (1536, COPIED + 0xa00), (2040, 2)
};

// Changes that leave only zeros in the sample image, except in cluster 2.
const TABLE_ALONE: Numbers<'static> = rows! {
    (0, 0), (16, 0), (24, 0), (32, 0), (40, 0), (96, 0), (512, 0)
};

// An autoclear feature, 400 unknown bytes, and the backing file FI, whose name is bytes 1 and 2 of the image.
// A write would put the name after End, with which the first cluster ends.
const NO_ROOM: Numbers<'static> = rows! {
    (8, 1), (16, 0x0000_0002_0000_0009), (88, 1), (96, 0x0000_0004_0000_01f8),
};

// An autoclear feature, which `edit` and `count` clear.
const AUTOCLEAR: Numbers<'static> = &[(88, 1)];

// Commands that leave the sample image unchanged, and their ends.
const LOOKS: &[(&str, Ended<'static>)] = rows! {
    // tables, by their cluster bits and their cluster
    ("l2 IMAGE 9 2", Done(ONE_LINE)),
    ("l2 IMAGE 9 0", BAD_ENTRY),
    ("l2 IMAGE 10 1", Failed("", "qmeta: fault 19\n")),
    ("l2 IMAGE 21 1", SILENT),
    ("l2 IMAGE 9 140737488355327", SILENT),
    ("l2 IMAGE 9 140737488355328", NO_PLACE),
    ("l2 IMAGE 9 18446744073709551615", NO_PLACE),
    ("l2 IMAGE 9 00000000000000000002", Done(ONE_LINE)),
    ("l2 IMAGE 00000000000000000009 2", Done(ONE_LINE)),
    // no file
    ("l2 no-such-folder/image 9 2", NO_FILE),
    ("l2 / 9 2", NO_FILE),
    ("l2  9 140737488355328", NO_FILE),
    ("map no-such-folder/image", NO_FILE),
    ("map / json", NO_FILE),
    ("check no-such-folder/image", NO_FILE),
    ("check no-such-folder/image repair", NO_FILE),
    ("edit no-such-folder/image 0 zero:3", NO_FILE),
    ("apply no-such-folder/image discard:0", NO_FILE),
    ("apply no-such-folder/image plan discard:0", NO_FILE),
    // whole images
    ("info IMAGE", Done(INFO)),
    ("list IMAGE", Done(LIST)),
    ("map IMAGE", Done(EXTENTS)),
    ("map IMAGE json", Done(JSON)),
    ("at IMAGE 0", Done(BACKING)),
    ("at IMAGE 1543", Done(DATA_LINE)),
    ("at IMAGE 32768", Done("backing 0x8000\n")),
    ("at IMAGE 18446744073709551615", Done("backing 0xfffffffffffffe00\n")),
    ("edit IMAGE 0", SILENT),
    ("count IMAGE 3 dec:0", Done("refused\n")),
    ("edit IMAGE 0 discard:3 map:64:5", BAD_EDIT),
    ("edit IMAGE 0 map:0:0", BAD_EDIT),
    ("edit IMAGE 1 discard:0", Failed("", "qmeta: fault 23\n")),
    ("count IMAGE 3 inc:256", Failed("", "qmeta: fault 33\n")),
    ("count IMAGE 140737488355328 inc:0", NO_PLACE),
};

// A line, changes of the sample image, the failures of output and error output, the end of the run, and the
// changes of the sample image afterwards.
#[derive(Clone, Copy)]
pub(crate) struct Run<'a> {
    pub(crate) line: &'a str,
    pub(crate) before: Numbers<'a>,
    pub(crate) out: Failure,
    pub(crate) err: Failure,
    pub(crate) ended: Ended<'a>,
    pub(crate) after: Numbers<'a>,
}

pub(crate) const RUN: Run<'static> = Run {
    line: "",
    before: &[],
    out: Never,
    err: Never,
    ended: SILENT,
    after: &[],
};

const ROWS: &[Run<'static>] = rows! {
    // a table and no header
    Run { line: "l2 IMAGE 9 2", before: TABLE_ALONE, ended: Done(ONE_LINE), after: TABLE_ALONE, ..RUN },
    Run { line: "l2 IMAGE 9 0", before: TABLE_ALONE, ended: SILENT, after: TABLE_ALONE, ..RUN },
    // edits and steps, which change only their table or block, and may lengthen the image
    Run { line: "edit IMAGE 0 map:3:5 map:3:6 discard:3", ended: Done("freed 5 1\nfreed 6 1\ngained 6\n"),
        after: &[(1048, 0)], ..RUN },
    Run { line: "edit IMAGE 0 keep:3", ended: SILENT, after: &[(1048, COPIED + 0xa01)], ..RUN },
    Run { line: "count IMAGE 2 dec:15 inc:0", ended: Done("ok 2560\nok 0\n"),
        after: &[(1024, 1 << 48), (1048, COPIED + 0x9ff)], ..RUN },
    Run { line: "count IMAGE 3 inc:0 inc:0 dec:0 dec:1", ended: Done("ok 0\nok 1\nok 2\nrefused\n"),
        after: COUNTED, ..RUN },
    Run { line: "info IMAGE", before: AUTOCLEAR, ended: Done(INFO), after: AUTOCLEAR, ..RUN },
    Run { line: "list IMAGE", before: AUTOCLEAR, ended: Done(LIST), after: AUTOCLEAR, ..RUN },
    Run { line: "edit IMAGE 0", before: AUTOCLEAR, ended: SILENT, ..RUN },
    Run { line: "edit IMAGE 0 zero:64", before: AUTOCLEAR, ended: BAD_EDIT, ..RUN },
    Run { line: "count IMAGE 3", before: AUTOCLEAR, ended: SILENT, ..RUN },
};

const OTHERS: &[Run<'static>] = rows! {
    // a header alone, and one with names
    Run { line: "list IMAGE", before: HEADER_ALONE, ended: SILENT, after: HEADER_ALONE, ..RUN },
    Run { line: "at IMAGE 0", before: HEADER_ALONE, ended: Done(BACKING), after: HEADER_ALONE, ..RUN },
    Run { line: "info IMAGE", before: NAMES, ended: Done(NAMES_INFO), after: NAMES, ..RUN },
    Run { line: "info IMAGE", before: OLDER, ended: Done(OLDER_INFO), after: OLDER, ..RUN },
    // one L2 table named twice, one by the second L1 entry alone, and an L1 entry with the copied flag and no
    // table
    Run { line: "list IMAGE", before: TABLE_TWICE, ended: Done(TWO_LINES), after: TABLE_TWICE, ..RUN },
    Run { line: "list IMAGE", before: SECOND_ALONE, ended: Done("0x8600 data 0xa00 copied\n"),
        after: SECOND_ALONE, ..RUN },
    Run { line: "list IMAGE", before: &[(512, COPIED)], ended: SILENT, after: &[(512, COPIED)], ..RUN },
    Run { line: "edit IMAGE 0 zero:3", before: &[(512, COPIED)], ended: Failed("", "qmeta: fault 23\n"),
        after: &[(512, COPIED)], ..RUN },
};

const DAMAGED: &[Run<'static>] = rows! {
    // a damaged part causes a fault if a command reads it
    Run { line: "list IMAGE", before: &[(0, 0)], ended: Failed("", "qmeta: fault 1\n"), after: &[(0, 0)],
        ..RUN },
    Run { line: "list IMAGE", before: VERSION_4, ended: Failed("", "qmeta: fault 2\n"), after: VERSION_4,
        ..RUN },
    // an L1 table that ends 8 bytes past 2^56
    Run { line: "list IMAGE", before: FAR_L1_TABLE, ended: NO_PLACE, after: FAR_L1_TABLE, ..RUN },
    // a bad entry of the L1 table, one of the L2 table, and one of the second L2 table
    Run { line: "info IMAGE", before: &[(512, 1)], ended: Done(INFO), after: &[(512, 1)], ..RUN },
    Run { line: "list IMAGE", before: &[(512, 1)], ended: BAD_ENTRY, after: &[(512, 1)], ..RUN },
    Run { line: "at IMAGE 0", before: &[(1528, 2)], ended: BAD_ENTRY, after: &[(1528, 2)], ..RUN },
    Run { line: "edit IMAGE 0 discard:3", before: &[(1528, 2)], ended: BAD_ENTRY, after: &[(1528, 2)],
        ..RUN },
    Run { line: "list IMAGE", before: BAD_SECOND_TABLE, ended: Failed(LIST, "qmeta: fault 18\n"),
        after: BAD_SECOND_TABLE, ..RUN },
    Run { line: "map IMAGE", before: &[(1528, 2)], ended: BAD_ENTRY, after: &[(1528, 2)], ..RUN },
    Run { line: "map IMAGE json", before: &[(1528, 2)], ended: Failed("[", "qmeta: fault 18\n"),
        after: &[(1528, 2)], ..RUN },
    Run { line: "map IMAGE", before: &[(32, 0xffff_ffff)], ended: Failed("", "qmeta: fault 20\n"),
        after: &[(32, 0xffff_ffff)], ..RUN },
    // a header that loads, but is too long to be written
    Run { line: "at IMAGE 1543", before: NO_ROOM, ended: Done(DATA_LINE), after: NO_ROOM, ..RUN },
    Run { line: "edit IMAGE 0", before: NO_ROOM, ended: Failed("", "qmeta: fault 24\n"), after: NO_ROOM,
        ..RUN },
    Run { line: "count IMAGE 3 inc:0", before: NO_ROOM, ended: Failed("", "qmeta: fault 24\n"),
        after: NO_ROOM, ..RUN },
};

const VERSION_4: Numbers<'static> = &[(0, VERSION_3 + 1)];

#[test]
fn each_command_says_what_the_image_means(rt: HostRuntime) -> Result<(), Fail> {
    for (line, ended) in LOOKS {
        check_run(&rt, "looks", &run_of(*line, *ended))?;
    }
    Ok(())
}

#[test]
fn edits_and_steps_change_just_their_table_or_block(rt: HostRuntime) -> Result<(), Fail> {
    check_runs(&rt, "changes", ROWS)
}

#[test]
fn commands_go_by_the_header_and_the_tables_of_an_image(rt: HostRuntime) -> Result<(), Fail> {
    check_runs(&rt, "others", OTHERS)
}

#[test]
fn a_damaged_image_is_refused_and_stays_as_it_is(rt: HostRuntime) -> Result<(), Fail> {
    check_runs(&rt, "damaged", DAMAGED)
}

pub(crate) fn check_runs(rt: &HostRuntime, name: &str, runs: &[Run<'_>]) -> Result<(), Fail> {
    for run in runs {
        check_run(rt, name, run)?;
    }
    Ok(())
}

// Returns a run of a line that leaves the sample image unchanged.
fn run_of<'a>(line: &'a str, ended: Ended<'a>) -> Run<'a> {
    Run { line, ended, ..RUN }
}

// Runs a line over a file of the sample image with changes, and fails unless the run ends as expected, opens
// the file as its command should, and leaves the expected changes.
pub(crate) fn check_run(rt: &HostRuntime, name: &str, run: &Run<'_>) -> Result<(), Fail> {
    let Run { line, ended, .. } = *run;
    let file = sample_file(rt, name, run.before)?;
    let mut files = FaultyFiles::new(rt);
    check_line(
        &mut files,
        file.path.as_str(),
        line,
        (run.out, run.err),
        ended,
    )?;
    same(files.opens(), opens_of(line, ended), line)?;
    let found = fs::read(rt, file.path.as_str())?;
    check_sample(rt.alloc(), &found, (9, run.after), line)
}

// Returns a file with the sample image, with clusters of 512 bytes and these changes.
pub(crate) fn sample_file<'a>(
    rt: &'a HostRuntime,
    name: &str,
    changes: Numbers<'_>,
) -> Result<TemporaryFile<'a, HostRuntime>, Fail> {
    let image = sample_image(rt.alloc(), 9, changes)?;
    temporary_file(rt, name, image.bytes())
}

// Returns how a run with this end opens its image. A line that is no command doesn't.
fn opens_of(line: &str, ended: Ended<'_>) -> Opens {
    let changes = line.starts_with("edit ")
        || line.starts_with("count ")
        || line.ends_with(" repair")
        || line.starts_with("apply ") && !line.contains(" plan ");
    let is_opened = !matches!(ended, NoCommand(_));
    Opens {
        reading: u64::from(is_opened && !changes),
        other: u64::from(is_opened && changes),
    }
}

// Five entries, and the lines of those that don't map to the backing file.
const LINES_5: Numbers<'static> = rows! {
    (1024, COPIED + 0xa00), (1040, 1), (1048, 0x601), (1056, 0x4000_0000_0000_0600)
};

const LINES: &str = "0 data 0xa00 copied\n2 zero\n3 zero 0x600\n4 compressed 0x600 512\n";

const FAILING: &[Run<'static>] = rows! {
    Run { line: "l2 IMAGE 9 2", before: LINES_5, out: WriteAfter(30), ended: Failed(CUT_LINES, STORAGE),
        after: LINES_5, ..RUN },
    Run { line: "l2 IMAGE 9 2", before: LINES_5, out: WriteAfter(64), ended: Done(LINES), after: LINES_5,
        ..RUN },
    Run { line: "list IMAGE", out: WriteAfter(6), ended: Failed("0x600 ", STORAGE), ..RUN },
    Run { line: "edit IMAGE 0 map:3:6", out: WriteAfter(10), ended: Failed("freed 5 1\n", STORAGE),
        after: MAPPED_TO_6, ..RUN },
    Run { line: "count IMAGE 3 inc:0 dec:1", out: WriteAfter(4), ended: Failed("ok 0", STORAGE),
        after: COUNTED, ..RUN },
    Run { line: "map IMAGE", out: WriteAfter(20), ended: Failed("0x0 0x600 backing\n0x", STORAGE), ..RUN },
    Run { line: "map IMAGE json", out: WriteAfter(0), ended: NO_FILE, ..RUN },
    Run { line: "map IMAGE", out: Short, ended: Done(EXTENTS), ..RUN },
    Run { line: "map IMAGE", out: Interrupted, ended: Done(EXTENTS), ..RUN },
    Run { line: "check IMAGE", before: ALL_KINDS, out: WriteAfter(20), after: ALL_KINDS,
        ended: Failed("leaked 1 1 3 2\nshare", STORAGE), ..RUN },
    Run { line: "check IMAGE", before: ALL_KINDS, out: Short, ended: Ended::Harmful(ALL_LINES),
        after: ALL_KINDS, ..RUN },
    // a failed flush is reported if the run has no fault of its own, whatever its verdict
    Run { line: "l2 IMAGE 9 2", out: Flush, ended: NO_FILE, ..RUN },
    Run { line: "map IMAGE", out: Flush, ended: NO_FILE, ..RUN },
    Run { line: "check IMAGE", before: ALL_KINDS, out: Flush, ended: NO_FILE, after: ALL_KINDS, ..RUN },
    Run { line: "map IMAGE", before: &[(1528, 2)], out: Flush, ended: BAD_ENTRY, after: &[(1528, 2)], ..RUN },
    Run { line: "edit IMAGE 0 zero:3", out: Flush, ended: NO_FILE, after: &[(1048, 1)], ..RUN },
    Run { line: "l2 IMAGE 9 140737488355328", out: Flush, ended: NO_PLACE, ..RUN },
    // a failure of the error output doesn't change the status
    Run { line: "l2 IMAGE 9 2", err: WriteAfter(0), ended: Done(ONE_LINE), ..RUN },
    Run { line: "l2 IMAGE 9 140737488355328", err: WriteAfter(5), ended: Failed("", "qmeta"), ..RUN },
    Run { line: "l2 IMAGE 9 140737488355328", err: Flush, ended: Failed("", ""), ..RUN },
    Run { line: "l2 IMAGE 8 2", err: WriteAfter(9), ended: NoCommand("usage: qm"),
        ..RUN },
    // an error output that takes a part at a time, or is interrupted, gets the whole line in the end
    Run { line: "l2 IMAGE 9 140737488355328", err: Short, ended: NO_PLACE, ..RUN },
    Run { line: "l2 IMAGE 9 140737488355328", err: Interrupted, ended: NO_PLACE, ..RUN },
    Run { line: "l2 IMAGE 8 2", err: Short, ended: NO_COMMAND, ..RUN },
    Run { line: "l2 IMAGE 8 2", err: Interrupted, ended: NO_COMMAND, ..RUN },
};

const CUT_LINES: &str = "0 data 0xa00 copied\n2 zero\n3 z";

const MAPPED_TO_6: Numbers<'static> = &[(1048, COPIED + 0xc00)];

const COUNTED: Numbers<'static> = &[(1536, 1 << 48), (2040, 0)];

#[test]
fn failing_outputs_are_told_and_keep_what_they_took(rt: HostRuntime) -> Result<(), Fail> {
    check_runs(&rt, "failing", FAILING)
}

// Successive commands over a sample image whose second L1 entry names an L2 table past its end.
const MAPS: &[(&str, Ended<'static>)] = rows! {
    ("at IMAGE 32768", Done("backing 0x8000\n")),
    ("edit IMAGE 1 map:0:5", Done("gained 5\n")),
    ("at IMAGE 32768", Done(DATA_LINE)),
    ("at IMAGE 1543", Done(DATA_LINE)),
    ("list IMAGE", Done("0x600 data 0xa00 copied\n0x8000 data 0xa00 copied\n")),
    ("edit IMAGE 0 map:3:6", Done(MAPPED)),
    ("at IMAGE 1543", Done("data 0xc00 copied\n")),
    ("at IMAGE 0", Done(BACKING)),
};

const MAPPED: &str = "freed 5 1\ngained 6\n";

#[test]
fn what_an_edit_maps_is_what_the_offset_reads_as(rt: HostRuntime) -> Result<(), Fail> {
    let file = sample_file(&rt, "maps", &[(32, 2), (520, COPIED + 0x600)])?;
    let mut files = FaultyFiles::new(&rt);
    for (line, expected) in MAPS {
        check_line(&mut files, file.path.as_str(), line, NO_FAILURES, *expected)?;
    }
    Ok(())
}

// A command over the sample image, and its output.
struct Calls<'a> {
    line: &'a str,
    printed: &'a str,
    // The number of its calls of the file, if each takes at most 100 bytes.
    calls: u64,
    // The call whose failure is no fault.
    harmless: Option<u64>,
}

// Each command asks for the file's kind by one call, and reads the header's 512 bytes by 14: 104 bytes by two
// reads, and 408 by five. A read seeks before it reads bytes, and asks for the length if the file returns no
// more. A write seeks, writes and flushes. An L1 table of one entry takes two calls, a table of 512 bytes
// twelve, a block past the end three; a write of the table or block takes 18, and its sync one more. A seek
// to the end or past it may fail. After the header `list` and `map` read one page of 4096 bytes, of which the
// file has 1536: by 16 reads, one that returns nothing, and a call for the length.
const CALLS: &[Calls<'static>] = rows! { Calls:
    { line: "l2 IMAGE 9 2", printed: ONE_LINE, calls: 1 + 12, harmless: None },
    { line: "info IMAGE", printed: INFO, calls: 1 + 14, harmless: None },
    { line: "list IMAGE", printed: LIST, calls: 1 + 14 + 35, harmless: Some(1 + 14 + 32) },
    { line: "map IMAGE", printed: EXTENTS, calls: 1 + 14 + 35, harmless: Some(1 + 14 + 32) },
    { line: "at IMAGE 1543", printed: DATA_LINE, calls: 1 + 14 + 2 + 12, harmless: None },
    { line: "edit IMAGE 0 map:3:6", printed: MAPPED, calls: 1 + 14 + 2 + 12 + 18 + 1,
        harmless: None },
    { line: "count IMAGE 3 inc:0 dec:1", printed: "ok 0\nrefused\n", calls: 1 + 14 + 3 + 18 + 1,
        harmless: Some(1 + 14) },
};

#[test]
fn each_failed_call_of_the_file_is_the_storage_fault(rt: HostRuntime) -> Result<(), Fail> {
    for row in CALLS {
        check_failed_calls(&rt, row)?;
    }
    Ok(())
}

// Runs a line over a file whose calls take at most 100 bytes, and fails each call in turn. The line prints
// its output if no call fails, or just the harmless one.
fn check_failed_calls(rt: &HostRuntime, row: &Calls<'_>) -> Result<(), Fail> {
    for passes in 0..=row.calls {
        let file = sample_file(rt, "failed-calls", &[])?;
        let mut files = FaultyFiles::new(rt);
        files.plan = Some(passes);
        files.step = 100;
        let expected = if passes < row.calls && row.harmless != Some(passes) {
            NO_FILE
        } else {
            Done(row.printed)
        };
        check_line(
            &mut files,
            file.path.as_str(),
            row.line,
            NO_FAILURES,
            expected,
        )?;
    }
    Ok(())
}

// The file isn't opened for reading instead.
#[test]
fn a_file_that_may_not_be_written_is_not_edited(rt: HostRuntime) -> Result<(), Fail> {
    let file = sample_file(&rt, "read-only", &[])?;
    let mut files = FaultyFiles::new(&rt);
    files.read_only = true;
    let line = "edit IMAGE 0 zero:3";
    check_line(&mut files, file.path.as_str(), line, NO_FAILURES, NO_FILE)?;
    same(files.opens(), opens_of(line, NO_FILE), "opens")
}

// Names of images, each taken literally as the name of a file.
const PATHS: &[&str] = rows! {
    " image", "image ", "an  image", "\timage\n", "file:image", "nbd:image", "json:{}", "a:b", "-", "--help",
    "l2", "\u{e4}\u{20ac}\u{fffd}", "image%20", "\"image\"",
};

// Reads the file at a path by this name, and edits it.
fn check_name<'a>(rt: &'a HostRuntime, name: &'a str, path: &'a str) -> Result<(), Fail> {
    let mut files = FaultyFiles::new(rt);
    files.alias = Some((name, path));
    let (data, freed) = (Done(DATA_LINE), Done("freed 5 1\n"));
    check_line(&mut files, name, "at IMAGE 1543", NO_FAILURES, data)?;
    check_line(
        &mut files,
        name,
        "edit IMAGE 0 discard:3",
        NO_FAILURES,
        freed,
    )
}

#[test]
fn the_image_that_is_named_is_opened(rt: HostRuntime) -> Result<(), Fail> {
    for name in PATHS {
        let file = sample_file(&rt, "names", &[])?;
        check_name(&rt, *name, file.path.as_str())?;
    }
    Ok(())
}

// Returns a text, followed by another one fifty times.
fn with_fifty(alloc: Global, text: &str, other: &str) -> Result<String, AllocError> {
    let mut whole = String::from_str(alloc, text)?;
    whole.push_str(&other.repeat(alloc, 50)?)?;
    Ok(whole)
}

#[test]
fn a_hundred_edits_are_made_by_one_command(rt: HostRuntime) -> Result<(), Fail> {
    let line = with_fifty(rt.alloc(), "edit IMAGE 0", " map:3:6 map:3:5")?;
    let freed = with_fifty(rt.alloc(), "", "freed 5 1\nfreed 6 1\n")?;
    let printed = with_fifty(rt.alloc(), freed.as_str(), "gained 6\ngained 5\n")?;
    let run = run_of(line.as_str(), Done(printed.as_str()));
    check_run(&rt, "edits", &run)
}

#[test]
fn a_hundred_steps_are_made_by_one_command(rt: HostRuntime) -> Result<(), Fail> {
    let line = with_fifty(rt.alloc(), "count IMAGE 3", " inc:0 dec:0")?;
    let printed = with_fifty(rt.alloc(), "", "ok 0\nok 1\n")?;
    let after: Numbers<'_> = &[(2040, 0)];
    let run = Run {
        after,
        ..run_of(line.as_str(), Done(printed.as_str()))
    };
    check_run(&rt, "steps", &run)
}
