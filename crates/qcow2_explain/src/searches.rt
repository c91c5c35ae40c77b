//! The part of a file or an image to search for each fault.

use super::extensions::ExtensionTopic;
use super::fields::{
    AUTOCLEAR, BACKING_OFFSET, BACKING_SIZE, CLUSTER_BITS, Field, HEADER_LENGTH, INCOMPATIBLE,
    L1_OFFSET, L1_SIZE, MAGIC, REFCOUNT_ORDER, REFTABLE_OFFSET, SIZE, VERSION,
};
use qcow2_base::Fault;

const OF_CALLS: Search = Search::Elsewhere(
    "this fault is of a program's calls, and never of an image",
);

const OF_WORDS: Search = Search::Elsewhere(
    "this fault is of a command's words, and not of an image alone",
);

const OF_MEMORY: Search = Search::Elsewhere(
    "this fault is of the machine's memory, and not of an image",
);

/// The search for a fault. `Field`s are those to print.
#[derive(Clone, Copy)]
pub(super) enum Search {
    /// Fields of a header that can't be loaded.
    Fields(&'static [Field]),
    /// Extensions of a header that can't be loaded.
    Extensions(ExtensionTopic),
    /// The room that a header has for what a change writes into it.
    Room(&'static [Field]),
    /// The version, if it is 2.
    Version(&'static [Field]),
    /// The external data file, if the image has one.
    DataFile(&'static [Field]),
    /// An L1 table that is too short for the disk.
    L1Length(&'static [Field]),
    /// The marks of an image that must be repaired first.
    Marks(&'static [Field]),
    /// The parts of an image whose references aren't counted.
    UncountedParts,
    /// All tables and refcount blocks.
    Tables,
    /// The refcounts and the references of all clusters.
    Clusters,
    /// L2 tables that may have more than one reference.
    SharedTables,
    /// How the file can be opened.
    File,
    /// The locks of programs that have the file open.
    Locks,
    /// Nothing in the image, for this reason.
    Elsewhere(&'static str),
}

impl Search {
    /// The search for a fault.
    pub(super) fn of(fault: Fault) -> Search {
        match fault {
            Fault::NotQcow2 => Search::Fields(&[MAGIC]),
            Fault::Version => Search::Fields(&[VERSION]),
            Fault::ClusterSize => Search::Fields(&[CLUSTER_BITS]),
            Fault::HeaderShort => Search::Fields(&[HEADER_LENGTH]),
            Fault::HeaderBig => Search::Fields(&[HEADER_LENGTH, CLUSTER_BITS]),
            Fault::L1Unaligned => Search::Fields(&[L1_OFFSET, CLUSTER_BITS]),
            Fault::ReftableUnaligned => Search::Fields(&[REFTABLE_OFFSET, CLUSTER_BITS]),
            Fault::RefcountWidth => Search::Fields(&[REFCOUNT_ORDER]),
            Fault::BackingNameLong => Search::Fields(&[BACKING_SIZE]),
            Fault::BackingNamePlace => Search::Fields(&[
                BACKING_OFFSET,
                BACKING_SIZE,
                CLUSTER_BITS,
            ]),
            Fault::BackingNameText => Search::Fields(&[BACKING_OFFSET, BACKING_SIZE]),
            Fault::ExtensionsExceed => Search::Extensions(ExtensionTopic::PastEnd),
            Fault::ExtensionText => Search::Extensions(ExtensionTopic::NoText),
            Fault::FeatureNameCut => Search::Extensions(ExtensionTopic::CutName),
            Fault::FormatConflict => Search::Extensions(ExtensionTopic::BackingFormat),
            Fault::DataFileConflict => Search::Extensions(ExtensionTopic::DataFile),
            Fault::Incompatible(_) => Search::Fields(&[INCOMPATIBLE]),
            Fault::EntryReserved | Fault::EntryUnaligned => Search::Tables,
            Fault::TableTooBig | Fault::TablePlace => Search::Tables,
            Fault::HeaderTooLong => Search::Room(&[AUTOCLEAR, BACKING_SIZE]),
            Fault::VersionNeeded => Search::Version(&[VERSION]),
            Fault::CounterRange | Fault::Overlap => Search::Clusters,
            Fault::Storage => Search::File,
            Fault::ExternalData => Search::DataFile(&[INCOMPATIBLE]),
            Fault::Uncounted(_) => Search::UncountedParts,
            Fault::InUse => Search::Locks,
            Fault::Shared(_) => Search::SharedTables,
            Fault::L1Short => Search::L1Length(&[L1_SIZE, SIZE, CLUSTER_BITS]),
            Fault::Marked => Search::Marks(&[INCOMPATIBLE]),
            Fault::NoOffset | Fault::NameTooLong | Fault::FieldChanged(_) => OF_CALLS,
            Fault::CannotGrow | Fault::TooMany | Fault::WrongLength => OF_CALLS,
            Fault::NotPlaced | Fault::BadEdit(_) | Fault::BadStep(_) => OF_WORDS,
            Fault::NoMemory => OF_MEMORY,
        }
    }
}
