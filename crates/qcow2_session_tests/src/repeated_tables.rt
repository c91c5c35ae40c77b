//! L2 tables that several L1 entries name: the lines of `list` and `map`, and how often each is read.

use qcow2_base::{Fault, GuestOffset, HostCluster};
use qcow2_calls::load_header;
use qcow2_image::L2Tables;
use qcow2_metadata::Table;
use qcow2_session::commands::{ExtentFormat, list_tables, print_extents};
use qcow2_session::{Content, Extent, Extents};
use qcow2_testing::sample_image::sample_image;
use qcow2_testing::{FailingStorage, Numbers, each, rows, same, same_bytes};
use std::alloc::Global;
use std::test::Fail;

// Changes of the sample image. What `list` and `map` print, each with the number of storage calls after those
// for the header: one reads the L1 table, and each further one an L2 table. The fault that ends both.
#[derive(Clone, Copy)]
struct Row {
    name: &'static str,
    changes: Numbers<'static>,
    listed: (&'static str, usize),
    mapped: (&'static str, usize),
    fault: Option<Fault>,
}

const ROW: Row = Row {
    name: "",
    changes: &[],
    listed: ("", 0),
    mapped: ("", 0),
    fault: None,
};

// A table maps 32 KiB. The one at 0x400 has data in its fourth entry, those at 0x600 and 0x800 are empty.
const ROWS: &[Row] = rows! {
    Row { name: "an empty table, four times",
        changes: &[(24, 0x2_0000), (32, 4), (512, 0x600), (520, 0x600), (528, 0x600), (536, 0x600)],
        listed: ("", 1 + 1), mapped: ("0x0 0x20000 backing\n", 1 + 1), ..ROW },
    Row { name: "two empty tables in turn",
        changes: &[(24, 0x2_0000), (32, 4), (512, 0x600), (520, 0x800), (528, 0x600), (536, 0x800)],
        listed: ("", 1 + 2), mapped: ("0x0 0x20000 backing\n", 1 + 4), ..ROW },
    Row { name: "a table with data, three times",
        changes: &[(24, 0x1_8000), (32, 3), (520, 0x400), (528, 0x400)],
        listed: (LISTED, 1 + 3), mapped: (MAPPED, 1 + 1), ..ROW },
    Row { name: "an empty table between tables with data",
        changes: &[(24, 0x2_0000), (32, 4), (512, 0x600), (520, 0x400), (528, 0x600), (536, 0x400)],
        listed: ("0x8600 data 0xa00 copied\n0x18600 data 0xa00 copied\n", 1 + 3),
        mapped: ("0x0 0x8600 backing\n0x8600 0x200 data 0xa00\n0x8800 0xfe00 backing\n\
            0x18600 0x200 data 0xa00\n0x18800 0x7800 backing\n", 1 + 4),
        ..ROW },
    // the table at 0x800 has a reserved bit in its last entry
    Row { name: "a bad table after an empty one, one with data, and the empty one",
        changes: &[(24, 0x2_0000), (32, 4), (512, 0x600), (520, 0x400), (528, 0x600), (536, 0x800),
        (2552, 2)],
        listed: ("0x8600 data 0xa00 copied\n", 1 + 3),
        mapped: ("0x0 0x8600 backing\n0x8600 0x200 data 0xa00\n", 1 + 4), fault: RESERVED, ..ROW },
    Row { name: "a bad table, twice",
        changes: &[(24, 0x1_0000), (32, 2), (512, 0x800), (520, 0x800), (2552, 2)],
        listed: ("", 1 + 1), mapped: ("", 1 + 1), fault: RESERVED, ..ROW },
};

const LISTED: &str =
    "0x600 data 0xa00 copied\n0x8600 data 0xa00 copied\n0x10600 data 0xa00 copied\n";

const MAPPED: &str = "0x0 0x600 backing\n0x600 0x200 data 0xa00\n0x800 0x7e00 backing\n\
    0x8600 0x200 data 0xa00\n0x8800 0x7e00 backing\n0x10600 0x200 data 0xa00\n0x10800 0x7800 backing\n";

const RESERVED: Option<Fault> = Some(Fault::EntryReserved);

#[test]
fn a_table_has_its_lines_at_each_entry_that_names_it(rt: HostRuntime) -> Result<(), Fail> {
    each(rt.alloc(), ROWS, check_row)
}

fn check_row(alloc: Global, row: Row) -> Result<(), Fail> {
    check_command(alloc, row, true, row.listed)?;
    check_command(alloc, row, false, row.mapped)
}

// Checks the output of `list` or of `map` for a row's image, and the number of storage calls.
fn check_command(
    alloc: Global,
    row: Row,
    is_list: bool,
    expected: (&str, usize),
) -> Result<(), Fail> {
    let mut image = FailingStorage::new(alloc, sample_image(alloc, 9, row.changes)?);
    let header = load_header(alloc, &mut image, false)?;
    let opened = image.calls.len();
    let mut out = Vec::new(alloc);
    let answer = if is_list {
        list_tables(alloc, &mut image, &header, &mut out)
    } else {
        print_extents(alloc, &mut image, &header, ExtentFormat::Lines, &mut out)
    };
    same(answer.err(), row.fault, row.name)?;
    same_bytes(&out, expected.0.as_bytes(), row.name)?;
    same(image.calls.len().wrapping_sub(opened), expected.1, row.name)
}

// Two L1 entries name the L2 table, whose last run begins with its fifth entry. Offsets in that entry or the
// next one, and the ends of their extents.
const TWICE: Numbers<'static> = &[(24, 0x1_0000), (32, 2), (520, 0x400)];

const INSIDE: &[(u64, u64)] = rows! { (0x807, 0x8600), (0x8807, 0x1_0000), (0x8a01, 0x1_0000) };

#[test]
fn an_extent_begins_inside_a_run_that_was_read_before(rt: HostRuntime) -> Result<(), Fail> {
    each(rt.alloc(), INSIDE, check_from)
}

// Checks the extent from an offset to an end, after the run was read.
fn check_from(alloc: Global, (offset, end): (u64, u64)) -> Result<(), Fail> {
    let mut image = sample_image(alloc, 9, TWICE)?;
    let header = load_header(alloc, &mut image, false)?;
    let mut extents = Extents::new(alloc, &mut image, &header)?;
    extents.seek(GuestOffset(0x800));
    extents.next(&mut image)?;
    extents.seek(GuestOffset(offset));
    let expected = Extent {
        start: GuestOffset(offset),
        length: end.wrapping_sub(offset),
        content: Content::Absent,
    };
    same(extents.next(&mut image)?, Some(expected), offset)
}

#[test]
fn a_walk_passes_tables_that_it_does_not_read(rt: HostRuntime) -> Result<(), Fail> {
    let alloc = rt.alloc();
    let three = sample_image(alloc, 9, &[(32, 4), (528, 0x600), (536, 0x400)])?;
    let mut image = FailingStorage::new(alloc, three);
    let header = load_header(alloc, &mut image, false)?;
    let mut walk = L2Tables::new(alloc, &mut image, &header)?;
    let opened = image.calls.len();
    same(walk.pass(), Some((0, HostCluster(2))), "the first")?;
    same(image.calls.len(), opened, "no call")?;
    let Some((index, table)) = walk.next(&mut image)? else {
        return Err(Fail::new("no second table"));
    };
    same(
        (index, table.get_cluster()),
        (2, Some(HostCluster(3))),
        "the second",
    )?;
    same(walk.pass(), Some((3, HostCluster(2))), "the third")?;
    same(walk.pass(), None, "the end")?;
    same(walk.next(&mut image)?.is_none(), true, "the end")
}
