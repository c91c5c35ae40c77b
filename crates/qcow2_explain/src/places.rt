//! Places in an image, and their text in a line.

use super::extensions::Extension;
use super::fields::Field;
use std::fmt;

/// A place in an image, with its value.
#[derive(Clone, Copy)]
pub(super) enum Place {
    /// A field of the header and its value.
    Field(Field, u64),
    /// A header extension.
    Extension(Extension),
    /// An entry of an L1 table or refcount table, with its value.
    Entry {
        kind: &'static str,
        index: usize,
        offset: u64,
        number: u64,
    },
    /// An entry of an L2 table, with its value.
    GuestEntry {
        guest_offset: u64,
        offset: u64,
        number: u64,
    },
    /// An entry of the L1 table, with its value and the refcount of its L2 table.
    SharedTable {
        index: usize,
        offset: u64,
        number: u64,
        counter: u64,
    },
    /// A host cluster, with its refcount and its number of references.
    Cluster {
        cluster: u64,
        counter: u64,
        uses: u64,
    },
    /// The end of the image's file.
    FileEnd(u64),
    /// The number of L1 entries that the whole disk needs.
    NeededEntries(u64),
}

impl fmt::Display for Place {
    fn fmt<W: fmt::Write>(&self, f: &mut fmt::Formatter<W>) -> fmt::Result {
        match *self {
            Place::Field(field, value) => field.write_value(value, f),
            Place::Extension(extension) => write!(f, "{extension}"),
            Place::Entry {
                kind,
                index,
                offset,
                number,
            } => write!(
                f,
                "{kind} entry {index}, bytes at {offset:#x}: {number:016x}"
            ),
            Place::GuestEntry {
                guest_offset,
                offset,
                number,
            } => write!(
                f,
                "guest offset {guest_offset:#x}, L2 entry at {offset:#x}: {number:016x}"
            ),
            Place::SharedTable {
                index,
                offset,
                number,
                counter,
            } => write!(
                f,
                "L1 entry {index}, bytes at {offset:#x}: {number:016x}, and its table's counter is {counter}"
            ),
            Place::Cluster {
                cluster,
                counter,
                uses,
            } => write!(
                f,
                "cluster {cluster}: its counter is {counter}, and it has {uses} uses"
            ),
            Place::FileEnd(length) => write!(f, "the file ends at {length:#x}"),
            Place::NeededEntries(count) => write!(f, "the disk needs {count} L1 entries"),
        }
    }
}

/// The offset of an entry, in a table at offset `begin`. Saturates at the largest number.
pub(super) fn entry_offset(begin: u64, index: usize) -> u64 {
    begin.saturating_add((index as u64).saturating_mul(8))
}
