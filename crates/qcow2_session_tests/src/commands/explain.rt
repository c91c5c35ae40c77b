//! The lines of `explain` on the place of a fault in an image.

use super::run::Ended::{self, Done, Failed};
use super::run::{Failures, NO_FAILURES, check_line, run_line};
use super::whole_images::sample_file;
use crate::failing_output::Failure::{Flush, Never, Short, WriteAfter};
use qcow2_base::{Fault, UncountedPart};
use qcow2_session::commands::locate_fault;
use qcow2_testing::damages::{Refused, refused_images};
use qcow2_testing::sample_image::{EXTERNAL, check_sample, sample_image};
use qcow2_testing::{
    COPIED, FaultyFiles, Numbers, TemporaryFile, VERSION_2, VERSION_3, counted, each, part_of,
    rows, same, same_bytes, temporary_file,
};
use std::alloc::Global;
use std::fs;
use std::test::Fail;

// A fault, changes of the sample image, and the lines on the fault's place.
#[derive(Clone, Copy)]
struct Row {
    fault: Fault,
    before: Numbers<'static>,
    lines: &'static str,
}

const OF_COMMANDS: &[Row] = rows! { Row:
    { fault: Fault::VersionNeeded,
        before: &[(0, VERSION_2)], lines: "in IMAGE: byte 4: version is 2\n" },
    { fault: Fault::Incompatible(0),
        before: counted!((72, 1)), lines: "in IMAGE: byte 72: incompatible_features is 0x1\n" },
    { fault: Fault::Incompatible(0),
        before: counted!((72, 2)), lines: "in IMAGE: byte 72: incompatible_features is 0x2\n" },
    // zstd without its feature
    { fault: Fault::Incompatible(0), before: counted!((96, 0x0000_0004_0000_0070), (104, 1 << 56)),
        lines: "in IMAGE: byte 72: incompatible_features is 0x0\n" },
    // a command that accepts the mark finds the entry
    { fault: Fault::EntryReserved, before: counted!((72, 3), (1048, 0x2)),
        lines: "in IMAGE: guest offset 0x600, L2 entry at 0x418: 0000000000000002\n" },
    { fault: Fault::ExternalData,
        before: &[EXTERNAL], lines: "in IMAGE: byte 72: incompatible_features is 0x4\n" },
};

const COUNTERS: &[Row] = rows! { Row:
    // an autoclear feature, and a name that wouldn't fit after the unknown fields
    { fault: Fault::HeaderTooLong,
        before: &[(8, 1), (16, 0x0000_0002_0000_0009), (88, 1), (96, 0x0000_0004_0000_01f8)],
        lines: "in IMAGE: byte 88: autoclear_features is 0x1\nin IMAGE: byte 16: backing_file_size is 2\n" },
    { fault: Fault::CounterRange, before: counted!((0x808, 0x0001_0000_0000_0000)),
        lines: "in IMAGE: cluster 5: its counter is 0, and it has 1 uses\n" },
    // the L2 table in cluster 2 is data, too
    { fault: Fault::Overlap, before: counted!((1048, COPIED + 0x400)),
        lines: "in IMAGE: cluster 2: its counter is 1, and it has 2 uses\n" },
    { fault: Fault::Shared(0), before: counted!((512, 0x400)),
        lines: "in IMAGE: L1 entry 0, bytes at 0x200: 0000000000000400, and its table's counter is 1\n" },
    { fault: Fault::Shared(0), before: counted!((0x800, 0x0001_0001_0002_0001)),
        lines: "in IMAGE: L1 entry 0, bytes at 0x200: 8000000000000400, and its table's counter is 2\n" },
    { fault: Fault::Shared(0), before: counted! {}, lines: "in IMAGE: this image doesn't have this fault\n" },
    { fault: Fault::CounterRange, before: counted!((56, 0x0000_0001_0000_0001)),
        lines: "in IMAGE: another fault comes first, 37\nin IMAGE: byte 60: nb_snapshots is 1\n" },
};

const OTHERS: &[Row] = rows! { Row:
    { fault: Fault::EntryReserved, before: &[], lines: "in IMAGE: this image doesn't have this fault\n" },
    { fault: Fault::ClusterSize, before: &[], lines: "in IMAGE: this image doesn't have this fault\n" },
    { fault: Fault::Uncounted(UncountedPart::Snapshots),
        before: &[], lines: "in IMAGE: this image doesn't have this fault\n" },
    { fault: Fault::EntryReserved, before: &[(0, VERSION_3 + 1)],
        lines: "in IMAGE: another fault comes first, 2\nin IMAGE: byte 4: version is 4\n" },
    { fault: Fault::TablePlace, before: &[(512, COPIED + 0x401)],
        lines: "in IMAGE: another fault comes first, 18\n\
            in IMAGE: L1 entry 0, bytes at 0x200: 8000000000000401\n" },
    // the requested fault comes after another one
    { fault: Fault::TablePlace, before: counted!((0x608, 1 << 56), (1528, 2)),
        lines: "in IMAGE: refcount table entry 1, bytes at 0x608: 0100000000000000\n" },
};

// The cluster bits of larger clusters, changes of the sample image with these, and the lines on a bad entry 3
// of the second L2 table. It is the entry of guest cluster 2^(bits - 3) + 3, since a table fills a cluster.
const LARGER: &[(u32, Numbers<'static>, &str)] = rows! {
    (12, &[(32, 2), (0x1008, COPIED + 0x3000), (0x3018, 2)],
        "in IMAGE: guest offset 0x203000, L2 entry at 0x3018: 0000000000000002\n"),
    (16, &[(32, 2), (0x1_0008, COPIED + 0x3_0000), (0x3_0018, 2)],
        "in IMAGE: guest offset 0x20030000, L2 entry at 0x30018: 0000000000000002\n"),
    (21, &[(32, 2), (0x20_0008, COPIED + 0x60_0000), (0x60_0018, 2)],
        "in IMAGE: guest offset 0x8000600000, L2 entry at 0x600018: 0000000000000002\n"),
};

fn check_larger(
    alloc: Global,
    (cluster_bits, before, lines): (u32, Numbers<'static>, &str),
) -> Result<(), Fail> {
    let mut image = sample_image(alloc, cluster_bits, before)?;
    let found = locate_fault(alloc, &mut image, Fault::EntryReserved, "IMAGE")?;
    same(found.as_str(), lines, cluster_bits)
}

#[test]
fn an_entry_is_at_the_guest_offset_that_clusters_of_its_size_give(
    rt: HostRuntime,
) -> Result<(), Fail> {
    each(rt.alloc(), LARGER, check_larger)
}

#[test]
fn a_fault_of_an_image_is_where_that_has_it(rt: HostRuntime) -> Result<(), Fail> {
    for rows in refused_images() {
        each(rt.alloc(), rows, check_refused)?;
    }
    Ok(())
}

fn check_refused(alloc: Global, row: Refused) -> Result<(), Fail> {
    let Refused {
        fault,
        changes: before,
        place: lines,
        ..
    } = row;
    check_place(
        alloc,
        Row {
            fault,
            before,
            lines,
        },
    )
}

#[test]
fn a_fault_of_some_commands_is_at_a_field(rt: HostRuntime) -> Result<(), Fail> {
    each(rt.alloc(), OF_COMMANDS, check_place)
}

#[test]
fn a_fault_of_counters_is_at_its_cluster(rt: HostRuntime) -> Result<(), Fail> {
    each(rt.alloc(), COUNTERS, check_place)
}

#[test]
fn a_fault_that_is_not_there_is_told_so(rt: HostRuntime) -> Result<(), Fail> {
    each(rt.alloc(), OTHERS, check_place)
}

// Checks the lines on a fault, and that the image stays.
fn check_place(alloc: Global, row: Row) -> Result<(), Fail> {
    let mut image = sample_image(alloc, 9, row.before)?;
    let lines = locate_fault(alloc, &mut image, row.fault, "IMAGE")?;
    same(lines.as_str(), row.lines, row.fault)?;
    let before = sample_image(alloc, 9, row.before)?;
    same_bytes(image.bytes(), before.bytes(), row.lines)
}

// A fault, the path of the image, and the lines.
const MISSING: &[(u64, &str, &str)] = rows! {
    (34, "no-such-folder/image", "in IMAGE: No such file or directory (os error 2)\n"),
    (34, "/", "in IMAGE: is a directory\n"),
    (18, "/", "in IMAGE: another fault comes first, 34\nin IMAGE: is a directory\n"),
    (32, "/", "in IMAGE: this fault is of a command's words, and not of an image alone\n"),
    (31, "/", "in IMAGE: this fault is of a program's calls, and never of an image\n"),
    (35, "/", "in IMAGE: this fault is of the machine's memory, and not of an image\n"),
};

#[test]
fn a_file_that_is_no_image_is_told_by_the_system_s_word(rt: HostRuntime) -> Result<(), Fail> {
    let mut files = FaultyFiles::new(&rt);
    for (fault, path, lines) in MISSING {
        check_answer(&mut files, *path, *fault, *lines)?;
    }
    Ok(())
}

// The image's clusters would have 2^30 bytes. The file stays.
#[test]
fn the_text_of_a_fault_comes_before_its_place(rt: HostRuntime) -> Result<(), Fail> {
    let before: Numbers<'_> = &[(16, 30)];
    let file = sample_file(&rt, "explain", before)?;
    let mut files = FaultyFiles::new(&rt);
    let path = file.path.as_str();
    check_answer(
        &mut files,
        path,
        3,
        "in IMAGE: byte 20: cluster_bits is 30\n",
    )?;
    check_answer(
        &mut files,
        path,
        34,
        "in IMAGE: the file can be opened, and written to\n",
    )?;
    files.read_only = true;
    check_answer(
        &mut files,
        path,
        34,
        "in IMAGE: the file can't be written to: permission denied\n",
    )?;
    let found = fs::read(&rt, path)?;
    check_sample(rt.alloc(), &found, (9, before), "explain")
}

// Runs `explain` on a fault and the file at a path, and fails unless it prints the fault's text and then
// these lines.
fn check_answer(
    files: &mut FaultyFiles<'_, HostRuntime>,
    path: &str,
    fault: u64,
    lines: &str,
) -> Result<(), Fail> {
    let alloc = files.alloc();
    let line = format!(in alloc; "explain {fault}")?;
    let (_, text, _) = run_line(files, path, line.as_str(), NO_FAILURES)?;
    let text = std::str::from_utf8(text.flushed())?;
    let lines = lines.replace(alloc, "IMAGE", path)?;
    let expected = format!(in alloc; "{text}{lines}")?;
    let line = format!(in alloc; "explain {fault} IMAGE")?;
    check_line(
        files,
        path,
        line.as_str(),
        NO_FAILURES,
        Done(expected.as_str()),
    )
}

const STORAGE: &str = "qmeta: fault 34\n";

const FAILING: &[(Failures, Ended<'static>)] = rows! {
    ((WriteAfter(9), Never), Failed("fault 3, ", STORAGE)),
    ((WriteAfter(0), Never), Failed("", STORAGE)),
    ((Flush, Never), Failed("", STORAGE)),
    ((WriteAfter(0), Short), Failed("", STORAGE)),
};

#[test]
fn a_failing_output_keeps_a_beginning_of_the_text(rt: HostRuntime) -> Result<(), Fail> {
    let file = sample_file(&rt, "explain-failing", &[(16, 30)])?;
    let mut files = FaultyFiles::new(&rt);
    for (failures, ended) in FAILING {
        check_line(
            &mut files,
            file.path.as_str(),
            "explain 3 IMAGE",
            *failures,
            *ended,
        )?;
    }
    Ok(())
}

// A file with the first `len` bytes of the sample image with changes, and the lines on fault 21.
#[derive(Clone, Copy)]
struct Cut {
    before: Numbers<'static>,
    len: usize,
    lines: &'static str,
}

const PAST_END: &[Cut] = rows! { Cut:
    // an L1 table in two clusters
    { before: counted!((32, 65)), len: 0x400,
        lines: "in IMAGE: byte 36: l1_size is 65\nin IMAGE: byte 40: l1_table_offset is 0x200\n\
            in IMAGE: the file ends at 0x400\n" },
    // the L2 table lies past the end, too
    { before: counted! {}, len: 0x400,
        lines: "in IMAGE: byte 56: refcount_table_clusters is 1\n\
            in IMAGE: byte 48: refcount_table_offset is 0x600\nin IMAGE: the file ends at 0x400\n" },
    { before: counted! {}, len: 0x600,
        lines: "in IMAGE: byte 56: refcount_table_clusters is 1\n\
            in IMAGE: byte 48: refcount_table_offset is 0x600\nin IMAGE: the file ends at 0x600\n" },
    // a refcount table that is truncated after the entry of the block
    { before: counted! {}, len: 0x608,
        lines: "in IMAGE: refcount table entry 0, bytes at 0x600: 0000000000000800\n\
            in IMAGE: the file ends at 0x608\n" },
    { before: counted! {}, len: 0x800,
        lines: "in IMAGE: refcount table entry 0, bytes at 0x600: 0000000000000800\n\
            in IMAGE: the file ends at 0x800\n" },
    { before: counted! {}, len: 0x801, lines: "in IMAGE: this image doesn't have this fault\n" },
    { before: counted!((512, COPIED + 0x1_0000)), len: 0x810,
        lines: "in IMAGE: L1 entry 0, bytes at 0x200: 8000000000010000\n\
            in IMAGE: the file ends at 0x810\n" },
    { before: counted!((512, COPIED + 0x401)), len: 0x600,
        lines: "in IMAGE: another fault comes first, 18\n\
            in IMAGE: L1 entry 0, bytes at 0x200: 8000000000000401\n" },
};

#[test]
fn a_table_past_the_end_of_its_file_is_where_it_is_named(rt: HostRuntime) -> Result<(), Fail> {
    for row in PAST_END {
        check_cut(&rt, *row)?;
    }
    Ok(())
}

fn check_cut(rt: &HostRuntime, row: Cut) -> Result<(), Fail> {
    let file = cut_file(rt, row)?;
    let mut files = FaultyFiles::new(rt);
    check_answer(&mut files, file.path.as_str(), 21, row.lines)
}

// Returns the file of a row.
fn cut_file(rt: &HostRuntime, row: Cut) -> Result<TemporaryFile<'_, HostRuntime>, Fail> {
    let image = sample_image(rt.alloc(), 9, row.before)?;
    temporary_file(rt, "explain-cut", part_of(image.bytes(), 0, row.len)?)
}

// The file ends where the L1 table begins.
const ONE_CLUSTER: Cut = Cut {
    before: counted! {},
    len: 0x200,
    lines: "in IMAGE: byte 36: l1_size is 1\nin IMAGE: byte 40: l1_table_offset is 0x200\n\
        in IMAGE: the file ends at 0x200\n",
};

// The failing calls, by the number of calls before them. A file is opened twice, each time with one call for
// its kind, and each open counts anew. After the second, four calls read the header, one asks for the length,
// and five read the page with the tables: a read seeks before it reads bytes, and asks for the length once
// the file returns none. The seek to the end, after 8 calls, may fail.
const REFUSED: &[u64] = &[1, 2, 3, 4, 5, 6, 7, 9, 10];

#[test]
fn a_refused_call_of_a_file_ends_the_search_for_a_table_past_its_end(
    rt: HostRuntime,
) -> Result<(), Fail> {
    let file = cut_file(&rt, ONE_CLUSTER)?;
    let mut files = FaultyFiles::new(&rt);
    for passes in REFUSED {
        files.plan = Some(*passes);
        check_line(
            &mut files,
            file.path.as_str(),
            "explain 21 IMAGE",
            NO_FAILURES,
            Failed("", STORAGE),
        )?;
    }
    files.plan = Some(11);
    check_answer(&mut files, file.path.as_str(), 21, ONE_CLUSTER.lines)
}
