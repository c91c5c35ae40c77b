//! File locks, as the system lists them.

ghost use Rattle.std.specs.Prelude.{◌≡◌, ◌↔◌, IsTrue};
ghost use Rattle.qcow2_locks.specs.FileLock.{BarsWriting, HasByte};

use qcow2_base::field;
use std::fs::Metadata;
use std::os::unix::fs::MetadataExt;

/// A file, as a list of locks names it: its device's major and minor number, and its inode number.
#[derive(Clone, Copy, Debug, PartialEq, Eq)]
pub struct FileId {
    pub major: u64,
    pub minor: u64,
    pub inode: u64,
}

impl FileId {
    /// Returns the file with this metadata. Each part of the device number is in two places there.
    pub fn of(metadata: &Metadata) -> FileId {
        let device = metadata.dev();
        FileId {
            major: field(device, 8, 12) + (field(device, 44, 20) << 12),
            minor: field(device, 0, 8) + (field(device, 20, 24) << 8),
            inode: metadata.ino(),
        }
    }

    // Parses `fe:00:1097734`: the device in hexadecimal, the inode in decimal.
    fn parse(text: &str) -> Option<FileId> {
        let (major, rest) = text.split_once(':')?;
        let (minor, inode) = rest.split_once(':')?;
        Some(FileId {
            major: u64::from_str_radix(major, 16).ok()?,
            minor: u64::from_str_radix(minor, 16).ok()?,
            inode: inode.parse().ok()?,
        })
    }
}

/// What a lock covers.
#[derive(Clone, Copy, Debug, PartialEq, Eq)]
pub enum LockKind {
    /// Bytes of a file: `OFDLCK` or `POSIX`.
    Bytes,
    /// A whole file: `FLOCK`.
    Whole,
}

impl LockKind {
    fn parse(word: &str) -> Option<LockKind> {
        match word {
            "OFDLCK" | "POSIX" => Some(LockKind::Bytes),
            "FLOCK" => Some(LockKind::Whole),
            _ => None,
        }
    }
}

/// A lock that a process has or waits for, with its first and last byte.
#[derive(Clone, Copy, Debug, PartialEq, Eq)]
pub struct FileLock {
    pub kind: LockKind,
    pub file: FileId,
    pub first: u64,
    pub last: u64,
}

impl FileLock {
    /// Parses a line of `/proc/locks`, as `1: OFDLCK ADVISORY  READ -1 fe:00:1097734 100 101`. A lock that a
    /// process waits for has `->` after the number. Returns `None` for a lock of another kind, such as a
    /// lease, and for any other text.
    pub fn parse(line: &str) -> Option<FileLock> {
        let mut words = line.split_whitespace().skip(1);
        let mut word = words.next()?;
        if word == "->" {
            word = words.next()?;
        }
        let kind = LockKind::parse(word)?;
        // then `ADVISORY`, `READ` or `WRITE`, and the process
        let mut words = words.skip(3);
        Some(FileLock {
            kind,
            file: FileId::parse(words.next()?)?,
            first: words.next()?.parse().ok()?,
            last: parse_last(words.next()?)?,
        })
    }

    /// Whether it is a byte lock on byte 101, 103, 201 or 203 of the file. By these QEMU's programs say that
    /// they write to the image, or let nobody else write to it.
    pub fn bars_writing(&self, file: &FileId) -> bool
        ensures { IsTrue result ↔ BarsWriting self.now file.now }
    {
        self.kind == LockKind::Bytes
            && self.file == *file
            && (self.has_byte(101)
                || self.has_byte(103)
                || self.has_byte(201)
                || self.has_byte(203))
    }

    // Whether the lock covers a byte.
    fn has_byte(&self, byte: u64) -> bool
        ensures { IsTrue result ↔ HasByte self.now byte }
    {
        self.first <= byte && byte <= self.last
    }
}

// Parses the last byte of a lock: the greatest number for a lock up to the end of the file.
fn parse_last(word: &str) -> Option<u64> {
    match word {
        "EOF" => Some(u64::MAX),
        _ => word.parse().ok(),
    }
}
