//! Lines of `/proc/locks`, the locks that bar writing, and held images.

mod listing;

use listing::Listing;
use qcow2_base::{Device, Fault, FileStorage, ImageFiles};
use qcow2_locks::{FileId, FileLock, GuardedFiles, HeldImage, LockKind, Unlisted, hold_alone};
use qcow2_testing::{each, file_holds, rows, same, temporary_file, temporary_path};
use std::alloc::Global;
use std::fs;
use std::test::Fail;

// A line, and the lock that it describes: its kind, both parts of its device, its inode, and its first and
// last byte.
#[derive(Clone, Copy, Debug)]
struct Listed {
    line: &'static str,
    kind: LockKind,
    device: (u64, u64),
    inode: u64,
    bytes: (u64, u64),
}

const LISTED: &[Listed] = rows! { Listed:
    // a reader's, by QEMU
    { line: "1: OFDLCK ADVISORY  READ -1 fe:00:10969592 100 101",
        kind: LockKind::Bytes, device: (254, 0), inode: 10969592, bytes: (100, 101) },
    // from the manual, proc(5)
    { line: "1: POSIX  ADVISORY  READ  5433 08:01:7864448 128 128",
        kind: LockKind::Bytes, device: (8, 1), inode: 7864448, bytes: (128, 128) },
    { line: "2: FLOCK  ADVISORY  WRITE 1568 00:2f:32388 0 EOF",
        kind: LockKind::Whole, device: (0, 47), inode: 32388, bytes: (0, u64::MAX) },
    // a lock that a process waits for
    { line: "17: -> POSIX  ADVISORY  WRITE 0 103:10203:5 203 EOF",
        kind: LockKind::Bytes, device: (259, 66051), inode: 5, bytes: (203, u64::MAX) },
    // in a descriptor's list it stands after a tab
    { line: "\t1: FLOCK  ADVISORY  WRITE 16309 00:27:257 0 EOF",
        kind: LockKind::Whole, device: (0, 39), inode: 257, bytes: (0, u64::MAX) },
    // the largest numbers
    { line: "1: OFDLCK ADVISORY  WRITE -1 fff:fffff:18446744073709551615 0 9223372036854775806",
        kind: LockKind::Bytes, device: (4095, 1048575), inode: u64::MAX, bytes: (0, 9223372036854775806) },
};

fn check_listed(_alloc: Global, row: Listed) -> Result<(), Fail> {
    let (major, minor) = row.device;
    let (first, last) = row.bytes;
    let inode = row.inode;
    let file = FileId {
        major,
        minor,
        inode,
    };
    let lock = FileLock {
        kind: row.kind,
        file,
        first,
        last,
    };
    same(FileLock::parse(row.line), Some(lock), row.line)
}

#[test]
fn a_line_of_a_list_is_its_lock(rt: HostRuntime) -> Result<(), Fail> {
    each(rt.alloc(), LISTED, check_listed)
}

const OTHERS: &[&'static str] = rows! {
    // locks of other kinds, or without a file
    "4: LEASE  ACTIVE    READ  5433 08:01:7864448 0 EOF",
    "5: ACCESS ADVISORY  WRITE 5433 08:01:7864448 101 101",
    "6: UNKNOWN UNKNOWN  WRITE 5433 08:01:7864448 0 EOF",
    "7: POSIX  *NOINODE* WRITE 5433 <none>:0 0 EOF",
    // truncated lines
    "", "1:", "1: ->", "1: POSIX", "1: POSIX  ADVISORY  READ 5433", "1: POSIX  ADVISORY  READ 5433 08:01:7",
    "1: POSIX  ADVISORY  READ 5433 08:01:7 101",
    // malformed numbers
    "1: POSIX  ADVISORY  READ 5433 08:01 101 101", "1: POSIX  ADVISORY  READ 5433 0g:01:7 101 101",
    "1: POSIX  ADVISORY  READ 5433 08:01:7a 101 101", "1: POSIX  ADVISORY  READ 5433 08:01:7 0x65 101",
    "1: POSIX  ADVISORY  READ 5433 08:01:7 EOF EOF", "1: POSIX  ADVISORY  READ 5433 08:01:7 101 END",
    "1: POSIX  ADVISORY  READ 5433 08:01:18446744073709551616 101 101",
};

#[test]
fn any_other_line_is_no_lock() -> Result<(), Fail> {
    for line in OTHERS {
        same(FileLock::parse(line), None, *line)?;
    }
    Ok(())
}

// The first and the last byte of a lock, and whether it bars writing.
const RANGES: &[(u64, u64, bool)] = rows! {
    (0, 100, false), (100, 101, true), (101, 101, true), (102, 102, false), (103, 103, true),
    (104, 200, false), (200, 200, false), (201, 201, true), (202, 202, false), (203, 203, true),
    (204, u64::MAX, false), (102, 202, true), (0, u64::MAX, true), (101, 100, false),
};

const FILE: FileId = FileId {
    major: 254,
    minor: 1,
    inode: 7,
};

fn bars(kind: LockKind, bytes: (u64, u64), file: FileId) -> bool {
    let (first, last) = bytes;
    FileLock {
        kind,
        file: FILE,
        first,
        last,
    }
    .bars_writing(&file)
}

#[test]
fn four_bytes_bar_writing() -> Result<(), Fail> {
    for row in RANGES {
        let (first, last, expected) = *row;
        same(bars(LockKind::Bytes, (first, last), FILE), expected, *row)?;
        same(bars(LockKind::Whole, (first, last), FILE), false, *row)?;
    }
    Ok(())
}

const OTHER_FILES: &[FileId] = rows! { FileId:
    { major: 255, minor: 1, inode: 7 }, { major: 254, minor: 0, inode: 7 },
    { major: 254, minor: 1, inode: 6 },
};

#[test]
fn a_lock_bars_writing_to_its_own_file() -> Result<(), Fail> {
    for file in OTHER_FILES {
        same(bars(LockKind::Bytes, (0, u64::MAX), *file), false, *file)?;
    }
    Ok(())
}

fn hold(rt: &HostRuntime, path: &str) -> Result<HeldImage, Fault> {
    hold_alone(rt, path, Unlisted::Allow)
}

fn check_held(rt: &HostRuntime, path: &str, other: &str) -> Result<(), Fail> {
    let _held = hold(rt, path)?;
    same(hold(rt, path).err(), Some(Fault::InUse), "held")?;
    same(hold(rt, other).err(), None, "another file")
}

#[test]
fn an_image_is_held_by_one_alone(rt: HostRuntime) -> Result<(), Fail> {
    let file = temporary_file(&rt, "held", &[1, 2, 3])?;
    let other = temporary_file(&rt, "not-held", &[])?;
    check_held(&rt, file.path.as_str(), other.path.as_str())?;
    same(hold(&rt, file.path.as_str()).err(), None, "given back")?;
    file_holds(&rt, file.path.as_str(), &[1, 2, 3], "as it was")
}

#[test]
fn only_a_file_that_is_there_is_held(rt: HostRuntime) -> Result<(), Fail> {
    let path = temporary_path(&rt, "not-there")?;
    for name in [path.as_str(), ".", ""] {
        same(hold(&rt, name).err(), Some(Fault::Storage), name)?;
    }
    same(fs::exists(&rt, path.as_str())?, false, path)
}

// The system's list for a descriptor with a locked file, and two lists of all locks that have this lock; the
// second also has one that bars writing.
const OWN: &str = "pos:\t0\nflags:\t02100002\nlock:\t1: FLOCK  ADVISORY  WRITE 9 fe:01:7 0 EOF\n";

const FREE: &str =
    "1: POSIX  ADVISORY  WRITE 5 fe:01:8 0 EOF\n2: FLOCK  ADVISORY  WRITE 9 fe:01:7 0 EOF\n";

const BARRED: &str =
    "1: OFDLCK ADVISORY  READ -1 fe:01:7 201 201\n2: FLOCK  ADVISORY  WRITE 9 fe:01:7 0 EOF\n";

// The system's lists for a descriptor and of all locks, and the fault of `hold_alone` with `Unlisted::Refuse`
// and with `Unlisted::Allow`.
#[derive(Clone, Copy, Debug)]
struct Lists {
    own: Option<&'static str>,
    all: Option<&'static str>,
    refused: Option<Fault>,
    allowed: Option<Fault>,
}

const LISTS: &[Lists] = rows! { Lists:
    { own: Some(OWN), all: Some(FREE), refused: None, allowed: None },
    { own: Some(OWN), all: Some(BARRED), refused: Some(Fault::InUse), allowed: Some(Fault::InUse) },
    // no list, an empty one, and ones without this process's lock
    { own: Some(OWN), all: None, refused: Some(Fault::InUse), allowed: None },
    { own: Some(OWN), all: Some(""), refused: Some(Fault::InUse), allowed: None },
    { own: Some(OWN), all: Some("1: FLOCK  ADVISORY  WRITE 9 fe:02:7 0 EOF\n"),
        refused: Some(Fault::InUse), allowed: None },
    { own: None, all: Some(FREE), refused: Some(Fault::InUse), allowed: None },
    { own: Some("pos:\t0\n"), all: Some(FREE), refused: Some(Fault::InUse), allowed: None },
    // a line without an end
    { own: Some(OWN), all: Some("2: FLOCK  ADVISORY  WRITE 9 fe:01:7 0 EOF"), refused: None, allowed: None },
};

fn check_lists(rt: &HostRuntime, row: Lists) -> Result<(), Fail> {
    let image = temporary_file(rt, "listed", &[])?;
    let lists = Listing::new(rt, row.own, row.all)?;
    let path = image.path.as_str();
    let refused = hold_alone(&lists, path, Unlisted::Refuse).err();
    same(refused, row.refused, row)?;
    same(
        hold_alone(&lists, path, Unlisted::Allow).err(),
        row.allowed,
        row,
    )
}

#[test]
fn an_image_of_which_nothing_is_listed_is_refused(rt: HostRuntime) -> Result<(), Fail> {
    for row in LISTS {
        check_lists(&rt, *row)?;
    }
    Ok(())
}

// Returns a list that takes several reads: this many lines, and then `end`.
fn long_list(alloc: Global, lines: usize, end: &str) -> Result<String, Fail> {
    let mut list = String::new(alloc);
    for number in 0..lines {
        writeln!(
            list,
            "{number}: POSIX  ADVISORY  WRITE 5 fe:01:{number}00 0 EOF"
        )?;
    }
    list.push_str(end)?;
    Ok(list)
}

fn check_long_list<'a>(
    rt: &'a HostRuntime,
    list: &'a str,
    expected: Option<Fault>,
) -> Result<(), Fail> {
    let image = temporary_file(rt, "long", &[])?;
    let lists = Listing::new(rt, Some(OWN), Some(list))?;
    let held = hold_alone(&lists, image.path.as_str(), Unlisted::Refuse);
    same(held.err(), expected, list)
}

#[test]
fn a_long_list_is_read_to_its_end(rt: HostRuntime) -> Result<(), Fail> {
    for lines in 80..100 {
        let list = long_list(rt.alloc(), lines, FREE)?;
        check_long_list(&rt, list.as_str(), None)?;
        let list = long_list(rt.alloc(), lines, BARRED)?;
        check_long_list(&rt, list.as_str(), Some(Fault::InUse))?;
    }
    let endless = long_list(rt.alloc(), 2, " ".repeat(rt.alloc(), 5000)?.as_str())?;
    check_long_list(&rt, endless.as_str(), Some(Fault::Storage))
}

// The system's list of locks, a call on a held image, and whether it succeeds.
type Step<'a> = (Option<&'a str>, Call, bool);

#[derive(Clone, Copy, Debug)]
enum Call {
    Write,
    Sync,
}

// Successive calls on an image, whether another program is seen, and the bytes written by then.
#[derive(Clone, Copy, Debug)]
struct Run {
    steps: &'static [Step<'static>],
    is_in_use: bool,
    written: &'static [u8],
}

const RUNS: &[Run] = rows! { Run:
    { steps: &[(Some(FREE), Call::Write, true), (Some(FREE), Call::Sync, true),
        (Some(FREE), Call::Write, true),
        (Some(FREE), Call::Sync, true)], is_in_use: false, written: &[1, 1] },
    // before the first write, and from then on
    { steps: &[(Some(BARRED), Call::Write, false), (Some(FREE), Call::Write, false),
        (Some(FREE), Call::Sync, false)], is_in_use: true, written: &[] },
    // before a sync has returned
    { steps: &[(Some(FREE), Call::Write, true), (Some(BARRED), Call::Sync, false),
        (Some(FREE), Call::Write, false)], is_in_use: true, written: &[1] },
    // between a sync and the write after it
    { steps: &[(Some(FREE), Call::Write, true), (Some(FREE), Call::Sync, true),
        (Some(BARRED), Call::Write, false)],
        is_in_use: true, written: &[1] },
    // only the first write of a step looks
    { steps: &[(Some(FREE), Call::Write, true), (Some(BARRED), Call::Write, true),
        (Some(BARRED), Call::Sync, false)],
        is_in_use: true, written: &[1, 1] },
    // a missing list
    { steps: &[(Some(FREE), Call::Write, true), (None, Call::Sync, false)], is_in_use: true, written: &[1] },
};

// Makes the calls of a run, each write with one byte more, and returns the number of bytes written.
fn make_calls<'a, S: Device>(
    image: &mut S,
    lists: &Listing<'a>,
    steps: &[Step<'a>],
) -> Result<usize, Fail> {
    let mut written = 0usize;
    for step in steps {
        let (listed, call, succeeds) = *step;
        lists.list(listed);
        let result = match call {
            Call::Write => image.write(&[1], written.min(99) as u64),
            Call::Sync => image.sync(),
        };
        same(result.is_ok(), succeeds, *step)?;
        if let (Call::Write, Ok(())) = (call, result) {
            written = written.saturating_add(1);
        }
    }
    Ok(written)
}

fn check_run(rt: &HostRuntime, row: Run) -> Result<(), Fail> {
    let file = temporary_file(rt, "guarded", &[])?;
    let path = file.path.as_str();
    let lists = Listing::new(rt, Some(OWN), Some(FREE))?;
    let held = hold_alone(&lists, path, Unlisted::Refuse)?;
    let mut files = GuardedFiles::new(&lists, Some(held.share_file()?), Some(&held));
    let mut image = files.open_image(path, true)?;
    let written = make_calls(&mut image, &lists, row.steps)?;
    same(written, row.written.len(), row)?;
    same(files.is_in_use(path), row.is_in_use, row)?;
    files.close_image(path, image);
    file_holds(rt, path, row.written, row)
}

#[test]
fn nothing_is_written_once_another_program_has_come(rt: HostRuntime) -> Result<(), Fail> {
    for row in RUNS {
        check_run(&rt, *row)?;
    }
    Ok(())
}

#[test]
fn a_file_that_is_not_held_is_passed_on(rt: HostRuntime) -> Result<(), Fail> {
    let file = temporary_file(&rt, "unguarded", &[])?;
    let path = file.path.as_str();
    let lists = Listing::new(&rt, None, None)?;
    let image = FileStorage::open(&rt, path, true)?.into_file();
    let mut files = GuardedFiles::new(&lists, Some(image), None);
    let mut image = files.open_image(path, true)?;
    let written = make_calls(
        &mut image,
        &lists,
        &[(None, Call::Write, true), (None, Call::Sync, true)],
    )?;
    same(files.is_in_use(path), false, written)?;
    files.close_image(path, image);
    file_holds(&rt, path, &[1], "passed on")
}
