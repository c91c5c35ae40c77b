//! Commands over an image in memory, given by their lines.

use super::known_host::KnownHost;
use super::run::words_of;
use crate::failing_output::{FailingOutput, Failure};
use qcow2_base::{Device, Fault, FileStorage, Storage};
use qcow2_session::{Command, Verdict, run_words};
use qcow2_session_calls::{parse_command, run, run_on_file};
use qcow2_testing::damages::{Loaded, loaded_images};
use qcow2_testing::sample_image::{
    BLOCK, EXTENTS, INFO, JSON, KEYS, KEYS_LENGTH, KEYS_OFFSET, L2_TABLE, LARGER, LUKS, NEXT_TABLE,
    REFTABLE, TABLE_LINES, TO_7, TWO_TABLES, check_sample, sample_image,
};
use qcow2_testing::{
    COPIED, KnownFile, KnownFiles, Numbers, counted, each, picture, recorded, rows, same,
};
use std::alloc::Global;
use std::test::Fail;

// A line, changes of the sample image, the result and the output of the command, and the changes of the
// sample image afterwards.
#[derive(Clone, Copy)]
struct Row {
    line: &'static str,
    before: Numbers<'static>,
    answer: Answer,
    printed: &'static str,
    after: Numbers<'static>,
}

const ROW: Row = Row {
    line: "",
    before: &[],
    answer: DONE,
    printed: "",
    after: &[],
};

/// The result of a command, or `None` if the words are no command.
pub(crate) type Answer = Option<Result<Verdict, Fault>>;

const DONE: Answer = Some(Ok(Verdict::Fine));

const LAYOUT: &str =
    "0 1 header\n1 1 l1\n2 1 l2\n3 1 refcount-table\n4 1 refcount-block\n5 1 data 0x600\n";

// A second L1 entry for the L2 table, and a second refcount table entry for the block.
const NAMED_TWICE: Numbers<'static> =
    counted! { LARGER, TWO_TABLES, (NEXT_TABLE, L2_TABLE), (REFTABLE + 8, BLOCK) };

const LEAKY: &str = "0 1 header\n1 1 l1\n2 1 l2\n3 1 refcount-table\n4 1 refcount-block\n\
    5 1 data 0x600\n6 5 free\n11 1 leaked\n";

// Header, L1 table and L2 table; refcount table and block; data of the first eighth of the disk; free
// clusters; and a leaked one.
const PICTURE: &str = picture!(
    "\
<path class='s10' d='M0 0h3v1h-3z'/>
<path class='s11' d='M3 0h2v1h-2z'/>
<path class='s1' d='M5 0h1v1h-1z'/>
<path class='s0' d='M6 0h5v1h-5z'/>
<path class='s12' d='M11 0h1v1h-1z'/>
"
);

// Commands on a table, a block or the header.
const BY_TABLE: &[Row] = rows! {
    Row { line: "l2 IMAGE 9 2", before: &[(0, 0)], printed: "3 data 0xa00 copied\n", after: &[(0, 0)],
        ..ROW },
    Row { line: "info IMAGE", before: &[(88, 1)], printed: INFO, after: &[(88, 1)], ..ROW },
    Row { line: "edit IMAGE 0 map:3:6 keep:4", before: &[(88, 1)], printed: "freed 5 1\ngained 6\n",
        after: &[(1048, COPIED + 0xc00), (1056, 1)], ..ROW },
    Row { line: "edit IMAGE 0 discard:3 map:64:5", before: &[(88, 1)], answer: Some(Err(Fault::BadEdit(1))),
        ..ROW },
    Row { line: "edit IMAGE 0 map:0:0", answer: Some(Err(Fault::BadEdit(0))), ..ROW },
    Row { line: "count IMAGE 2 dec:15 dec:0", printed: "ok 2560\nrefused\n", after: &[(1048, COPIED + 0x9ff)],
        ..ROW },
    Row { line: "count IMAGE 3 inc:0 inc:256", answer: Some(Err(Fault::BadStep(1))), ..ROW },
    Row { line: "at IMAGE 0", before: &[(0, 0)], answer: Some(Err(Fault::NotQcow2)), after: &[(0, 0)],
        ..ROW },
};

// LUKS encryption, with keys in clusters 6 and 7.
const WITH_KEYS: Numbers<'static> = counted! { LUKS, KEYS, KEYS_OFFSET, KEYS_LENGTH, TO_7 };

// Commands that print the places of tables and clusters.
const PLACES: &[Row] = rows! {
    // a table of 64 entries maps 32 KiB, and a block of 256 refcounts counts from cluster 0 on
    Row { line: "tables IMAGE", before: counted!((88, 1)), printed: TABLE_LINES, after: counted!((88, 1)),
        ..ROW },
    // a table of 64 entries maps 32 KiB, and a block of 256 refcounts counts as many clusters
    Row { line: "tables IMAGE", before: NAMED_TWICE,
        printed: "header 0 1\nl1 1 1\nl2 0 2 0x0 0x8000 1\nl2 1 2 0x8000 0x8000 1\nrefcount-table 3 1\n\
            refcount-block 0 4 0\nrefcount-block 1 4 256\n", after: NAMED_TWICE, ..ROW },
    Row { line: "tables IMAGE", before: WITH_KEYS,
        printed: "header 0 1\nl1 1 1\nencryption-header 6 2\nl2 0 2 0x0 0x8000 1\nrefcount-table 3 1\n\
            refcount-block 0 4 0\n", after: WITH_KEYS, ..ROW },
    // the header names no refcount table
    Row { line: "tables IMAGE", printed: "header 0 1\nl1 1 1\nl2 0 2 0x0 0x8000 0\nrefcount-table 0 0\n",
        ..ROW },
    Row { line: "tables IMAGE", before: &[(512, 1)], answer: Some(Err(Fault::EntryReserved)),
        after: &[(512, 1)], ..ROW },
    Row { line: "tables IMAGE", before: counted!((0x608, 1 << 56)), answer: Some(Err(Fault::TablePlace)),
        after: counted!((0x608, 1 << 56)), ..ROW },
    Row { line: "tables IMAGE 0", answer: None, ..ROW },
    Row { line: "layout IMAGE", before: WITH_KEYS,
        printed: "0 1 header\n1 1 l1\n2 1 l2\n3 1 refcount-table\n4 1 refcount-block\n5 1 data 0x600\n\
            6 2 encryption-header\n", after: WITH_KEYS, ..ROW },
    Row { line: "layout IMAGE", before: counted!((88, 1)), printed: LAYOUT, after: counted!((88, 1)), ..ROW },
    // without a block no cluster is leaked
    Row { line: "layout IMAGE", printed: "0 1 header\n1 1 l1\n2 1 l2\n3 2 free\n5 1 data 0x600\n", ..ROW },
    // cluster 11 has refcount 1 and no reference
    Row { line: "layout IMAGE", before: counted!((0x810, 1)), printed: LEAKY, after: counted!((0x810, 1)),
        ..ROW },
    Row { line: "layout IMAGE", before: counted!((0x608, 1 << 56)), answer: Some(Err(Fault::TablePlace)),
        after: counted!((0x608, 1 << 56)), ..ROW },
    Row { line: "layout IMAGE 0", answer: None, ..ROW },
    Row { line: "layout IMAGE svg", before: counted!((0x810, 1)), printed: PICTURE,
        after: counted!((0x810, 1)), ..ROW },
    Row { line: "layout IMAGE svg", before: counted!((0x608, 1 << 56)), answer: Some(Err(Fault::TablePlace)),
        after: counted!((0x608, 1 << 56)), ..ROW },
    Row { line: "layout IMAGE svg svg", answer: None, ..ROW },
};

// Commands that print refcounts and extents, and lines that are no commands.
const OTHERS: &[Row] = rows! {
    // the last number is that of a cluster past the refcount table's end
    Row { line: "refcount IMAGE 5 0 5 6 18446744073709551615", before: counted!((88, 1)),
        printed: "5 1\n0 1\n5 1\n6 0\n18446744073709551615 0\n", after: counted!((88, 1)), ..ROW },
    Row { line: "refcount IMAGE 5 4", before: counted!((0x808, 0xfffe_ffff_0000_0000)),
        printed: "5 65535\n4 65534\n", after: counted!((0x808, 0xfffe_ffff_0000_0000)), ..ROW },
    Row { line: "refcount IMAGE 0", printed: "0 0\n", ..ROW },
    Row { line: "refcount IMAGE 0", before: counted!((0x600, 0x801)), answer: Some(Err(Fault::EntryReserved)),
        after: counted!((0x600, 0x801)), ..ROW },
    // a block that no argument needs ends past 2^56
    Row { line: "refcount IMAGE 0", before: counted!((0x608, 1 << 56)), answer: Some(Err(Fault::TablePlace)),
        after: counted!((0x608, 1 << 56)), ..ROW },
    Row { line: "refcount IMAGE", answer: None, ..ROW },
    Row { line: "refcount IMAGE 0 -1", answer: None, ..ROW },
    Row { line: "map IMAGE", printed: EXTENTS, ..ROW },
    Row { line: "map IMAGE json", printed: JSON, ..ROW },
    // a reserved bit in the last entry of the L2 table: `[` is printed, and no extent
    Row { line: "map IMAGE json", before: &[(1528, 2)], answer: Some(Err(Fault::EntryReserved)), printed: "[",
        after: &[(1528, 2)], ..ROW },
    Row { line: "map IMAGE yaml", answer: None, ..ROW },
    Row { line: "check IMAGE yaml", answer: None, ..ROW },
    Row { line: "check IMAGE json json", answer: None, ..ROW },
    Row { line: "edit IMAGE 0 map:3", answer: None, ..ROW },
};

// Returns the rows of all commands.
fn all_rows() -> [&'static [Row]; 3] {
    [BY_TABLE, PLACES, OTHERS]
}

#[test]
fn a_command_runs_over_an_image_in_memory(rt: HostRuntime) -> Result<(), Fail> {
    for rows in all_rows() {
        each(rt.alloc(), rows, check_row)?;
    }
    Ok(())
}

fn check_row(alloc: Global, row: Row) -> Result<(), Fail> {
    let mut image = sample_image(alloc, 9, row.before)?;
    let mut out = FailingOutput::new(alloc, Failure::Never);
    let answer = run_command(alloc, &mut image, row.line, &mut out)?;
    let found = (answer, std::str::from_utf8(out.bytes())?);
    same(found, (row.answer, row.printed), row.line)?;
    check_sample(alloc, image.bytes(), (9, row.after), row.line)
}

fn check_loads(alloc: Global, row: Loaded) -> Result<(), Fail> {
    let mut image = recorded(alloc, sample_image(alloc, 9, row.changes)?);
    let mut out = FailingOutput::new(alloc, Failure::Never);
    let answer = run_command(alloc, &mut image, "check IMAGE repair", &mut out)?;
    same(answer, DONE, row.name)?;
    for table in row.l2_tables {
        same(image.reads_of(*table), row.checked_loads, row.name)?;
    }
    Ok(())
}

#[test]
fn a_check_with_a_repair_loads_each_l2_table_four_or_five_times(
    rt: HostRuntime,
) -> Result<(), Fail> {
    each(rt.alloc(), loaded_images(), check_loads)
}

// The number of bytes that a file reads or writes at a time.
const STEP: usize = 100;

// More bytes than any row's image has.
const WHOLE: usize = 8192;

#[test]
fn a_command_runs_over_a_known_file_as_over_its_bytes(rt: HostRuntime) -> Result<(), Fail> {
    for rows in all_rows() {
        each(rt.alloc(), rows, check_over_file)?;
    }
    Ok(())
}

fn check_over_file(alloc: Global, row: Row) -> Result<(), Fail> {
    let bytes = sample_image(alloc, 9, row.before)?;
    let len = bytes.bytes().len().min(WHOLE);
    let file = KnownFile::new(Vec::from_slice(alloc, bytes.bytes())?, STEP);
    let mut image = FileStorage::new(file);
    let mut out = FailingOutput::new(alloc, Failure::Never);
    let answer = run_command(alloc, &mut image, row.line, &mut out)?;
    let found = (answer, std::str::from_utf8(out.bytes())?);
    same(found, (row.answer, row.printed), row.line)?;
    let mut left = [0; WHOLE];
    image.read(&mut left, 0)?;
    check_sample(alloc, &left[..len], (9, row.after), row.line)
}

#[test]
fn a_command_runs_over_the_known_file_of_a_path(rt: HostRuntime) -> Result<(), Fail> {
    for rows in all_rows() {
        each(rt.alloc(), rows, check_on_file)?;
    }
    Ok(())
}

fn check_on_file(alloc: Global, row: Row) -> Result<(), Fail> {
    let image = sample_image(alloc, 9, row.before)?;
    let mut files = KnownFiles::new(alloc, Vec::from_slice(alloc, image.bytes())?, STEP);
    let mut out = FailingOutput::new(alloc, Failure::Never);
    let answer = match command_of(alloc, row.line)? {
        Some(Ok(command)) => Some(run_on_file(alloc, &mut files, "IMAGE", &command, &mut out)),
        Some(Err(fault)) => Some(Err(fault)),
        None => None,
    };
    let found = (answer, std::str::from_utf8(out.flushed())?);
    same(found, (row.answer, row.printed), row.line)?;
    check_sample(alloc, files.bytes(), (9, row.after), row.line)
}

#[test]
fn a_line_does_to_the_known_file_of_a_path_what_it_says(rt: HostRuntime) -> Result<(), Fail> {
    for rows in all_rows() {
        each(rt.alloc(), rows, check_words)?;
    }
    Ok(())
}

fn check_words(alloc: Global, row: Row) -> Result<(), Fail> {
    let image = sample_image(alloc, 9, row.before)?;
    let mut host = KnownHost::new(alloc, Vec::from_slice(alloc, image.bytes())?, STEP);
    let words = words_of(alloc, row.line, "IMAGE")?;
    let mut out = FailingOutput::new(alloc, Failure::Never);
    let mut err = FailingOutput::new(alloc, Failure::Never);
    let status = run_words(&mut host, words.as_slice(), &mut out, &mut err);
    let told = reported(alloc, row.answer)?;
    let found = (
        status,
        std::str::from_utf8(out.flushed())?,
        std::str::from_utf8(err.flushed())?,
    );
    let expected = (status_of(row.answer), row.printed, told.as_str());
    same(found, expected, row.line)?;
    check_sample(alloc, host.images.bytes(), (9, row.after), row.line)
}

// Returns the status of a line by its result.
fn status_of(answer: Answer) -> u8 {
    match answer {
        Some(Ok(verdict)) => verdict.status(),
        Some(Err(_)) => 1,
        None => 2,
    }
}

// Returns the text on standard error for a result.
fn reported(alloc: Global, answer: Answer) -> Result<String, Fail> {
    Ok(match answer {
        Some(Ok(_)) => String::new(alloc),
        Some(Err(fault)) => format!(in alloc; "qmeta: fault {}\n", fault.number())?,
        None => String::from_str(alloc, "usage: qmeta COMMAND IMAGE ARGUMENTS\n")?,
    })
}

// Returns the command of a line, if it is one.
fn command_of(alloc: Global, line: &str) -> Result<Option<Result<Command, Fault>>, Fail> {
    let words = words_of(alloc, line, "IMAGE")?;
    let [name, path, arguments @ ..] = words.as_slice() else {
        return Ok(None);
    };
    let parsed = parse_command(alloc, name.as_str(), path.as_str(), arguments);
    Ok(parsed.map(|command| command.map_err(Fault::from)))
}

/// Runs the command of a line, if it is one, and returns its result.
pub(crate) fn run_command<S: Device>(
    alloc: Global,
    image: &mut S,
    line: &str,
    out: &mut FailingOutput,
) -> Result<Answer, Fail> {
    Ok(match command_of(alloc, line)? {
        Some(Ok(command)) => Some(run(alloc, image, &command, out)),
        Some(Err(fault)) => Some(Err(fault)),
        None => None,
    })
}
