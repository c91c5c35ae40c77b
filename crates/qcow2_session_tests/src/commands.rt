//! The command `l2`: the lines of a table, and its faults.

mod apply;
pub(crate) mod check;
pub(crate) mod check_json;
mod check_repair;
mod explain;
mod features;
pub(crate) mod in_memory;
mod known_host;
mod requests;
pub(crate) mod run;
pub(crate) mod whole_images;

use crate::failing_output::{FailingOutput, Failure};
use crate::tables::table_of;
use qcow2_base::{Fault, HostCluster, MemStorage};
use qcow2_session_calls::list_l2_table;
use qcow2_testing::{FailingStorage, each, rows, same, same_bytes};
use std::alloc::Global;
use std::test::Fail;

// An L2 entry, and its line, which is empty if the entry maps to the backing file.
type Case = (u64, &'static str);

const NINE_BITS: &[Case] = rows! {
    (0x8000_0000_0000_0a00, "0 data 0xa00 copied\n"),
    (0, ""),
    (0x0000_0000_0000_0200, "2 data 0x200\n"),
    (0x80ff_ffff_ffff_fe00, "3 data 0xfffffffffffe00 copied\n"),
    (0x00ff_ffff_ffff_fe00, "4 data 0xfffffffffffe00\n"),
    (0x8000_0000_0000_0000, ""),
    (0x0000_0000_0000_0001, "6 zero\n"),
    (0x8000_0000_0000_0001, "7 zero\n"),
    (0x0000_0000_0000_0a01, "8 zero 0xa00\n"),
    (0x8000_0000_0000_0a01, "9 zero 0xa00 copied\n"),
    (0x4000_0000_0000_0000, "10 compressed 0x0 512\n"),
    (0x4000_0000_0000_0600, "11 compressed 0x600 512\n"),
    (0x6000_0000_0000_0601, "12 compressed 0x601 1023\n"),
    (0x40ff_ffff_ffff_ffff, "13 compressed 0xffffffffffffff 1\n"),
    (0x60ff_ffff_ffff_ffff, "14 compressed 0xffffffffffffff 513\n"),
};

const SIXTEEN_BITS: &[Case] = rows! {
    (0x80ff_ffff_ffff_0000, "0 data 0xffffffffff0000 copied\n"),
    (0x4040_0000_0001_0010, "1 compressed 0x10010 1008\n"),
    (0x4040_0000_0001_fff0, "2 compressed 0x1fff0 528\n"),
    (0x7fff_ffff_ffff_ffff, "3 compressed 0x3fffffffffffff 130561\n"),
};

const TWENTY_ONE_BITS: &[Case] = rows! {
    (0x00ff_ffff_ffe0_0000, "0 data 0xffffffffe00000\n"),
    (0x8000_0000_0040_0001, "1 zero 0x400000 copied\n"),
    (0x4002_0000_0000_0000, "2 compressed 0x0 1024\n"),
    (0x7fff_ffff_ffff_ffff, "3 compressed 0x1ffffffffffff 4193793\n"),
};

const GOOD: u64 = 0x8000_0000_0020_0000;

const ALL: usize = usize::MAX;

const RESERVED: Result<(), Fault> = Err(Fault::EntryReserved);

const UNALIGNED: Result<(), Fault> = Err(Fault::EntryUnaligned);

const PAST: Result<(), Fault> = Err(Fault::TablePlace);

// A listed cluster of an image that begins with a table: the table's entries from `first` on, with their
// lines; the image's length in bytes, at most; and the fault.
#[derive(Clone, Copy)]
struct Row {
    name: &'static str,
    cluster_bits: u32,
    cluster: u64,
    first: usize,
    cases: &'static [Case],
    len: usize,
    expected: Result<(), Fault>,
}

const ROW: Row = Row {
    name: "",
    cluster_bits: 9,
    cluster: 0,
    first: 0,
    cases: &[(GOOD, "")],
    len: ALL,
    expected: Ok(()),
};

const ROWS: &[Row] = rows! {
    Row { name: "clusters of 512 bytes", cases: NINE_BITS, ..ROW },
    Row { name: "clusters of 64 KiB", cluster_bits: 16, cases: SIXTEEN_BITS, ..ROW },
    Row { name: "clusters of 2 MiB", cluster_bits: 21, cases: TWENTY_ONE_BITS, ..ROW },
    // the last entry, and one past it
    Row { name: "the last entry, and one past it", cluster_bits: 21, first: 262_143, cases: LAST_ENTRY,
        ..ROW },
    // images that end inside their table, which continues with zeros
    Row { name: "an image of 6 bytes", cases: &[(0x8000_0000_0000_0a00, "")], len: 6, ..ROW },
    Row { name: "an image of 13 bytes", cases: CUT_OFF, len: 13, ..ROW },
    // the last possible cluster of a table ends at 2^56
    Row { name: "the last cluster", cluster: (1 << 47) - 1, ..ROW },
    Row { name: "the last cluster of 2 MiB", cluster_bits: 21, cluster: (1 << 35) - 1, ..ROW },
    // the first bad entry decides the fault, and no line is printed
    Row { name: "a reserved bit", cases: &[(GOOD, ""), (2, ""), (GOOD, "")], expected: RESERVED, ..ROW },
    Row { name: "a compressed entry with the copied flag", cases: &[(GOOD, ""), (0xc000_0000_0000_0000, "")],
        expected: RESERVED, ..ROW },
    Row { name: "the first fault is no alignment", cluster_bits: 16,
        cases: &[(GOOD, ""), (0x200, ""), (2, "")], expected: UNALIGNED, ..ROW },
    Row { name: "the first fault is a reserved bit", cluster_bits: 16,
        cases: &[(GOOD, ""), (2, ""), (0x200, "")], expected: RESERVED, ..ROW },
    Row { name: "past the last cluster", cluster: 1 << 47, expected: PAST, ..ROW },
    Row { name: "the greatest number", cluster: u64::MAX, expected: PAST, ..ROW },
    Row { name: "past the last cluster of 2 MiB", cluster_bits: 21, cluster: 1 << 35, expected: PAST, ..ROW },
};

const LAST_ENTRY: &[Case] = &[(GOOD, "262143 data 0x200000 copied\n"), (GOOD, "")];

const CUT_OFF: &[Case] =
    rows! { (GOOD, "0 data 0x200000 copied\n"), (0x101_0200, "1 data 0x1000000\n") };

#[test]
fn a_table_is_listed_as_far_as_the_image_goes_or_refused(rt: HostRuntime) -> Result<(), Fail> {
    each(rt.alloc(), ROWS, check_list)
}

// Lists the table of a row. One past the largest end offset is refused before any read.
fn check_list(alloc: Global, row: Row) -> Result<(), Fail> {
    let (image, lines) = table_and_lines(alloc, row.first, row.cases, row.len)?;
    let mut image = FailingStorage::new(alloc, image);
    let mut out = FailingOutput::new(alloc, Failure::Never);
    let cluster = HostCluster(row.cluster);
    let answer = list_l2_table(alloc, &mut image, row.cluster_bits, cluster, &mut out);
    let found = (answer, image.calls.is_empty());
    same(found, (row.expected, row.expected == PAST), row.name)?;
    same_bytes(out.bytes(), lines.as_bytes(), row.name)
}

// Returns the first `len` bytes of an image that begins with a table, and all lines of the table.
fn table_and_lines(
    alloc: Global,
    first: usize,
    cases: &[Case],
    len: usize,
) -> Result<(MemStorage, String), Fail> {
    let mut numbers = Vec::new(alloc);
    let mut lines = String::new(alloc);
    for (number, line) in cases {
        numbers.push(*number)?;
        lines.push_str(line)?;
    }
    let mut image = table_of(alloc, (first, &numbers))?;
    image.truncate(len);
    Ok((MemStorage::new(image), lines))
}
