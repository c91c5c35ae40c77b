//! Calls and commands over a storage that fails each call in turn, and commands over an output that is full
//! after each byte: their results, and the image afterwards.

use crate::commands::check_json::{ALL_OBJECT, LATE_OBJECT};
use crate::commands::in_memory::run_command;
use crate::failing_output::{FailingOutput, Failure};
use crate::tables::map;
use Call::{EditImage, Line, LoadHeader, Locate, LookUp, LookUpImage, StepImage};
use qcow2_base::{Device, Fault, GuestOffset, HostCluster, MemStorage, Storage};
use qcow2_calls::{header_of, load_header, load_table};
use qcow2_metadata::L1Table;
use qcow2_session::commands::locate_fault;
use qcow2_session::{Edit, Step};
use qcow2_session_calls::{edit_image, lookup, lookup_image, step_image};
use qcow2_testing::damages::{ALL_KINDS, ALL_LINES, LATE_LINES, LATE_TABLES};
use qcow2_testing::sample_image::{EXTENTS, INFO, JSON, sample_image};
use qcow2_testing::{
    COPIED, FailingStorage, Numbers, StorageCall, counted, each, part_of, put_bytes, row_error,
    rows, same, same_bytes,
};
use std::alloc::Global;
use std::io::Write;
use std::test::Fail;

// A call over an image: a load for writing; edits or steps of the table or block in cluster 2; a lookup of an
// offset by the L1 table in cluster 1 or by the whole image; a search for the place of a fault; or the
// command of a line.
#[derive(Clone, Copy, Debug)]
enum Call {
    LoadHeader,
    EditImage(&'static [Edit]),
    StepImage(&'static [Step]),
    LookUp(GuestOffset),
    LookUpImage(GuestOffset),
    Locate(Fault),
    Line(&'static str),
}

// A call over the sample image with changes: the number of its storage calls, the changes of the sample image
// afterwards, and its output. Then the output of a repetition after the image has changed, and the changes
// after that, if they differ.
#[derive(Clone, Copy)]
struct Row {
    call: Call,
    cluster_bits: u32,
    before: Numbers<'static>,
    calls: u64,
    after: Numbers<'static>,
    printed: &'static str,
    again: &'static str,
    twice: Option<Numbers<'static>>,
}

// The header is read by two calls, and a table of 512 bytes by one.
const ROW: Row = Row {
    call: Line(""),
    cluster_bits: 9,
    before: &[],
    calls: 2 + 1 + 1,
    after: &[],
    printed: "",
    again: "",
    twice: None,
};

const ROWS: &[Row] = rows! {
    // a table of 64 KiB, which is read and written in 16 pieces, and a block of 4096 bytes
    Row { call: EditImage(ENDS_OF_64_KIB), cluster_bits: 16, calls: 16 + 16, after: MAPPED_ENDS, ..ROW },
    Row { call: StepImage(STEPS), cluster_bits: 12, calls: 1 + 1, after: STEPPED, ..ROW },
    Row { call: LookUp(GuestOffset(1543)), calls: 1, ..ROW },
    Row { call: LookUpImage(GuestOffset(1543)), ..ROW },
    Row { call: Line("info IMAGE"), calls: 2, printed: INFO, ..ROW },
    Row { call: Line("list IMAGE"), printed: "0x600 data 0xa00 copied\n", ..ROW },
    Row { call: Line("list IMAGE"), before: TWO_TABLES, calls: 2 + 1 + 2, after: TWO_TABLES,
        printed: "0x600 data 0xa00 copied\n0x8600 data 0xc00\n", ..ROW },
    Row { call: Line("map IMAGE"), printed: EXTENTS, ..ROW },
    Row { call: Line("map IMAGE json"), printed: JSON, ..ROW },
    Row { call: Line("at IMAGE 1543"), printed: "data 0xa00 copied\n", ..ROW },
    // the L1 table and the refcount table, each L2 table for references, the block, the file's end, each L2
    // table again for flags
    Row { call: Line("check IMAGE"), before: ALL_KINDS, calls: 2 + 2 + 1 + 1 + 1 + 1, after: ALL_KINDS,
        printed: ALL_LINES, ..ROW },
    Row { call: Line("check IMAGE"), before: LATE_TABLES, calls: 2 + 2 + 2 + 1 + 1 + 2, after: LATE_TABLES,
        printed: LATE_LINES, ..ROW },
    // and then the L1 table and each L2 table for entries
    Row { call: Line("check IMAGE json"), before: ALL_KINDS, calls: 2 + 2 + 1 + 1 + 1 + 1 + 2,
        after: ALL_KINDS, printed: ALL_OBJECT, ..ROW },
    Row { call: Line("check IMAGE json"), before: LATE_TABLES, calls: 2 + 2 + 2 + 1 + 1 + 2 + 3,
        after: LATE_TABLES, printed: LATE_OBJECT, ..ROW },
    // the header; the tables and the image's end; the reads of a check before the flags, and a sync; four
    // passes, each with a read of the L2 table or the block, and with a sync: the third reads the block again
    // and writes what has changed, the fourth writes the L1 table and the L2 table; and a check
    Row { call: Line("check IMAGE repair"), before: TO_REPAIR, calls: 2 + 3 + 5 + 1 + 2 + 2 + 4 + 4 + 5,
        after: REPAIRED, printed: "consistent\n", again: "consistent\n", ..ROW },
    Row { call: Line("l2 IMAGE 9 2"), calls: 1, printed: "3 data 0xa00 copied\n", ..ROW },
    // an edit and a count end with a sync
    Row { call: Line("edit IMAGE 0 map:3:6 keep:4"), calls: 2 + 1 + 1 + 1 + 1, after: MAPPED_TO_6,
        printed: "freed 5 1\ngained 6\n", ..ROW },
    Row { call: Line("edit IMAGE 0 map:3:5 map:3:6 discard:3"), calls: 2 + 1 + 1 + 1 + 1,
        after: &[(1048, 0)], printed: "freed 5 1\nfreed 6 1\ngained 6\n",
        again: "freed 5 1\nfreed 6 1\ngained 5\ngained 6\n", ..ROW },
    Row { call: Line("edit IMAGE 0 map:0:5 zero:8191"), cluster_bits: 16, calls: 2 + 1 + 16 + 16 + 1,
        after: &[(0x2_0000, COPIED + 0x5_0000), (0x2_fff8, 1)], printed: "gained 5\n", ..ROW },
    Row { call: Line("count IMAGE 3 inc:0 inc:0 dec:0 dec:1"), calls: 2 + 1 + 1 + 1, after: COUNTED,
        printed: COUNTS, again: COUNTS_AGAIN, twice: COUNTED_TWICE, ..ROW },
    // an autoclear feature, which a load for writing clears by one write of the header
    Row { call: LoadHeader, before: AUTOCLEAR, calls: 2 + 1, ..ROW },
    Row { call: Line("edit IMAGE 0 map:3:6 keep:4"), before: AUTOCLEAR, calls: 2 + 1 + 1 + 1 + 1 + 1,
        after: MAPPED_TO_6, printed: "freed 5 1\ngained 6\n", ..ROW },
    Row { call: Line("count IMAGE 3 inc:0 inc:0 dec:0 dec:1"), before: AUTOCLEAR, calls: 2 + 1 + 1 + 1 + 1,
        after: COUNTED, printed: COUNTS, again: COUNTS_AGAIN, twice: COUNTED_TWICE, ..ROW },
};

// Searches for the place of a fault, which read the header first, and write no byte before they print the
// place.
const PLACES: &[Row] = rows! {
    // text that isn't UTF-8: three fields, two extensions by two reads each, and the data of the first
    Row { call: Locate(Fault::ExtensionText), before: NO_TEXT, calls: 2 + 3 + 2 * 2 + 1, after: NO_TEXT,
        printed: "in IMAGE: byte 104: extension 0xe2792aca of 1 bytes\n", ..ROW },
    // a header with a name before its fields takes three reads; then its cluster, and two fields
    Row { call: Locate(Fault::HeaderTooLong), before: NO_ROOM, calls: 3 + 1 + 2, after: NO_ROOM,
        printed: "in IMAGE: byte 88: autoclear_features is 0x1\n\
            in IMAGE: byte 16: backing_file_size is 2\n", ..ROW },
    // the L1 table and the L2 table, and two entries of the latter
    Row { call: Locate(Fault::EntryReserved), before: BAD_ENTRY, calls: 2 + 2 + 2, after: BAD_ENTRY,
        printed: "in IMAGE: guest offset 0x200, L2 entry at 0x408: 0000000000000002\n", ..ROW },
    // these tables and the refcount table, and two entries of that
    Row { call: Locate(Fault::EntryReserved), before: BAD_BLOCK, calls: 2 + 3 + 2, after: BAD_BLOCK,
        printed: "in IMAGE: refcount table entry 1, bytes at 0x608: 0000000000000801\n", ..ROW },
    // the three tables and the block
    Row { call: Locate(Fault::CounterRange), before: LOW_COUNTER, calls: 2 + 3 + 1, after: LOW_COUNTER,
        printed: "in IMAGE: cluster 5: its counter is 0, and it has 1 uses\n", ..ROW },
    // the L1 table, the refcount table and the block
    Row { call: Locate(Fault::Shared(0)), before: NOT_COPIED, calls: 2 + 3, after: NOT_COPIED,
        printed: "in IMAGE: L1 entry 0, bytes at 0x200: 0000000000000400, and its table's counter is 1\n",
        ..ROW },
};

const NO_TEXT: Numbers<'static> = &[(104, 0xe279_2aca_0000_0001), (112, 0xff << 56)];

const NO_ROOM: Numbers<'static> = &[
    (8, 1),
    (16, 0x0000_0002_0000_0009),
    (88, 1),
    (96, 0x0000_0004_0000_01f8),
];

const BAD_ENTRY: Numbers<'static> = &[(1032, 2)];

const BAD_BLOCK: Numbers<'static> = counted! { (0x608, 0x801) };

const LOW_COUNTER: Numbers<'static> = counted! { (0x808, 0x0001_0000_0000_0000) };

const NOT_COPIED: Numbers<'static> = counted! { (512, 0x400) };

const COUNTS: &str = "ok 0\nok 1\nok 2\nrefused\n";

const COUNTS_AGAIN: &str = "ok 1\nok 2\nok 3\nrefused\n";

const ENDS_OF_64_KIB: &[Edit] = rows! { map!(0, 5), map!(8191, 6) };

const MAPPED_ENDS: Numbers<'static> =
    rows! { (0x2_0000, COPIED + 0x5_0000), (0x2_fff8, COPIED + 0x6_0000) };

const STEPS: &[Step] =
    rows! { Step::Inc { index: 0 }, Step::Dec { index: 1 }, Step::Inc { index: 2047 } };

const STEPPED: Numbers<'static> = rows! { (0x2000, 1 << 48), (0x2ff8, 1) };

// A disk of two L2 tables, of which the second has data in cluster 6.
const TWO_TABLES: Numbers<'static> =
    rows! { (24, 65536), (32, 2), (520, COPIED + 0x600), (1560, 0xc00) };

// A leaked cluster, and late flags of the table and of its data.
const TO_REPAIR: Numbers<'static> = counted! { (512, 0x400), (1048, 0xa00), (2064, 1) };

const REPAIRED: Numbers<'static> = counted! { (2552, 0) };

const MAPPED_TO_6: Numbers<'static> = rows! { (1048, COPIED + 0xc00), (1056, 1) };

const COUNTED: Numbers<'static> = rows! { (1536, 1 << 48), (2040, 0) };

const COUNTED_TWICE: Option<Numbers<'static>> = Some(&[(1536, 2 << 48), (2040, 0)]);

const AUTOCLEAR: Numbers<'static> = &[(88, 1)];

// Makes the call of a row, and returns its result.
fn make(
    alloc: Global,
    row: Row,
    image: &mut FailingStorage<MemStorage>,
    out: &mut FailingOutput,
) -> Result<Result<(), Fault>, Fail> {
    let line = match row.call {
        Line(line) => line,
        Locate(fault) => return Ok(locate(alloc, image, fault, out)),
        _ => return Ok(make_call(alloc, row, image)),
    };
    match run_command(alloc, image, line, out)? {
        Some(answer) => Ok(answer.map(|_| ())),
        None => Err(row_error(line)),
    }
}

// Prints the place of a fault in an image.
fn locate<S: Device>(
    alloc: Global,
    image: &mut S,
    fault: Fault,
    out: &mut FailingOutput,
) -> Result<(), Fault> {
    let lines = locate_fault(alloc, image, fault, "IMAGE")?;
    match out.write_all(lines.as_bytes()) {
        Ok(()) => Ok(()),
        Err(_) => Err(Fault::Storage),
    }
}

// Does the same with a call that is no line.
fn make_call(alloc: Global, row: Row, image: &mut FailingStorage<MemStorage>) -> Result<(), Fault> {
    let header = header_of(alloc, row.cluster_bits, 4, false)?;
    let cluster = HostCluster(2);
    match row.call {
        LoadHeader => load_header(alloc, image, true).map(|_| ()),
        EditImage(edits) => edit_image(alloc, image, &header, cluster, edits).map(|_| ()),
        StepImage(steps) => step_image(alloc, image, &header, cluster, steps).map(|_| ()),
        LookUp(offset) => look_up(alloc, image, offset),
        LookUpImage(offset) => lookup_image(alloc, image, offset).map(|_| ()),
        Line(_) | Locate(_) => Err(Fault::WrongLength),
    }
}

// Looks an offset up by the header and the L1 table of the sample image.
fn look_up<S: Storage>(alloc: Global, image: &mut S, offset: GuestOffset) -> Result<(), Fault> {
    let mut sample = sample_image(alloc, 9, &[])?;
    let header = load_header(alloc, &mut sample, false)?;
    let l1_table: L1Table = load_table(alloc, &mut sample, &header, HostCluster(1), 1)?;
    lookup(alloc, image, &header, &l1_table, offset).map(|_| ())
}

// Returns the image of a row before its call. It records its storage calls.
fn image_before(alloc: Global, row: Row) -> Result<FailingStorage<MemStorage>, Fault> {
    Ok(FailingStorage::new(alloc, sample_image(alloc, row.cluster_bits, row.before)?))
}

// Returns the image of a row with only these of the call's writes.
fn image_with_writes(alloc: Global, row: Row, calls: &[StorageCall]) -> Result<MemStorage, Fail> {
    let mut image = sample_image(alloc, row.cluster_bits, row.before)?;
    let after = sample_image(alloc, row.cluster_bits, row.after)?;
    for call in calls {
        if let StorageCall::Write { offset, len } = call {
            let start = *offset as usize;
            let written = part_of(after.bytes(), start, start.saturating_add(*len))?;
            put_bytes(&mut image, *offset, written)?;
        }
    }
    Ok(image)
}

#[test]
fn a_refused_call_of_the_storage_leaves_what_was_written_before_it(
    rt: HostRuntime,
) -> Result<(), Fail> {
    each(rt.alloc(), all_rows(), check_calls)
}

#[test]
fn a_refused_read_ends_the_search_for_a_fault(rt: HostRuntime) -> Result<(), Fail> {
    each(rt.alloc(), PLACES, check_calls)
}

fn all_rows() -> &'static [Row] {
    ROWS
}

fn check_calls(alloc: Global, row: Row) -> Result<(), Fail> {
    let mut image = image_before(alloc, row)?;
    check_done(alloc, row, &mut image, row.calls)?;
    same(image.calls.len() as u64, row.calls, row.call)?;
    check_after(alloc, row, &image, row.calls)?;
    for passes in 0..row.calls {
        check_refused_call(alloc, row, passes)?;
    }
    Ok(())
}

// Makes the call of a row while the storage fails its call after the first `passes`, and then once more.
fn check_refused_call(alloc: Global, row: Row, passes: u64) -> Result<(), Fail> {
    let place = (row.call, passes);
    let mut image = image_before(alloc, row)?;
    image.plan = Some(passes);
    let mut out = FailingOutput::new(alloc, Failure::Never);
    let answer = make(alloc, row, &mut image, &mut out)?;
    let text = part_of(row.printed.as_bytes(), 0, out.bytes().len())?;
    same((answer, out.bytes()), (Err(Fault::Storage), text), place)?;
    same(image.calls.len() as u64, passes.saturating_add(1), place)?;
    let left = image_with_writes(alloc, row, part_of(&image.calls, 0, passes as usize)?)?;
    same_bytes(image.inner.bytes(), left.bytes(), place)?;
    let is_changed = is_changed(alloc, row, &image)?;
    check_done(alloc, row, &mut image, passes)?;
    let after = row.twice.filter(|_| is_changed).unwrap_or(row.after);
    check_after(alloc, Row { after, ..row }, &image, passes)
}

// Fails unless the call succeeds with the output for this image.
fn check_done(
    alloc: Global,
    row: Row,
    image: &mut FailingStorage<MemStorage>,
    passes: u64,
) -> Result<(), Fail> {
    let is_again = is_changed(alloc, row, image)?;
    let text = if is_again { row.again } else { row.printed };
    let mut out = FailingOutput::new(alloc, Failure::Never);
    let answer = make(alloc, row, image, &mut out)?;
    let found = (answer, std::str::from_utf8(out.bytes())?);
    same(found, (Ok(()), text), (row.call, passes))
}

// Returns whether a row's image has changed after its header's cluster.
fn is_changed(alloc: Global, row: Row, image: &FailingStorage<MemStorage>) -> Result<bool, Fail> {
    let before = sample_image(alloc, row.cluster_bits, row.before)?;
    let start = 1usize.wrapping_shl(row.cluster_bits);
    let found = part_of(image.inner.bytes(), start, image.inner.bytes().len())?;
    Ok(found != part_of(before.bytes(), start, before.bytes().len())?)
}

fn check_after(
    alloc: Global,
    row: Row,
    image: &FailingStorage<MemStorage>,
    passes: u64,
) -> Result<(), Fail> {
    let after = sample_image(alloc, row.cluster_bits, row.after)?;
    same_bytes(image.inner.bytes(), after.bytes(), (row.call, passes))
}

#[test]
fn a_refused_write_of_the_output_comes_after_a_beginning_of_the_text(
    rt: HostRuntime,
) -> Result<(), Fail> {
    each(rt.alloc(), all_rows(), check_writes)
}

fn check_writes(alloc: Global, row: Row) -> Result<(), Fail> {
    for room in 0..row.printed.len() {
        check_refused_write(alloc, row, room)?;
    }
    Ok(())
}

// Makes the call of a row over an output that takes `room` bytes, and then once more. The failed call has
// changed the image, too.
fn check_refused_write(alloc: Global, row: Row, room: usize) -> Result<(), Fail> {
    let mut image = image_before(alloc, row)?;
    let mut out = FailingOutput::new(alloc, Failure::WriteAfter(room));
    let answer = make(alloc, row, &mut image, &mut out)?;
    let text = part_of(row.printed.as_bytes(), 0, room)?;
    same(
        (answer, out.bytes()),
        (Err(Fault::Storage), text),
        (row.call, room),
    )?;
    check_after(alloc, row, &image, room as u64)?;
    check_done(alloc, row, &mut image, room as u64)
}
