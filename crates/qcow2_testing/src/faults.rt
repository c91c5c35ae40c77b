//! The faults of the library, with the numbers and texts that they report.

use qcow2_base::{Fault, FaultKind, Field, UncountedPart};

/// A fault, and its report.
#[derive(Clone, Copy, Debug)]
pub struct ReportedFault {
    pub fault: Fault,
    pub number: u32,
    pub kind: FaultKind,
    /// What must hold, including the values that the fault carries.
    pub message: &'static str,
}

// Rows: a fault, its number, its kind and its message.
macro_rules! faults {
    ($($fault:expr => $number:literal $kind:ident $message:literal),* $(,)?) => {
        &[$(ReportedFault { fault: $fault, number: $number, kind: FaultKind::$kind, message: $message }),*]
    };
}

/// All faults, in the order of their numbers.
pub const FAULTS: &[ReportedFault] = faults! {
    Fault::NotQcow2 => 1 InvalidData "not a qcow2 image: the magic must be 0x514649fb",
    Fault::Version => 2 InvalidData "the version must be 2 or 3",
    Fault::ClusterSize => 3 InvalidData "cluster_bits must be from 9 to 21",
    Fault::HeaderShort => 4 InvalidData "header_length must be at least 104",
    Fault::HeaderBig => 5 InvalidData "the header must end within the first cluster",
    Fault::L1Unaligned => 6 InvalidData "l1_table_offset must be a multiple of the cluster size",
    Fault::ReftableUnaligned => 7 InvalidData "refcount_table_offset must be a multiple of the cluster size",
    Fault::RefcountWidth => 8 InvalidData "refcount_order must be at most 6",
    Fault::BackingNameLong => 9 InvalidData "backing_file_size must be at most 1023",
    Fault::BackingNamePlace => 10 InvalidData "the backing file name must end within the first cluster",
    Fault::BackingNameText => 11 InvalidData "the backing file name must be UTF-8",
    Fault::ExtensionsExceed => 12 InvalidData "the header extensions must end within the first cluster",
    Fault::ExtensionText => 13 InvalidData "a backing format or data file name in an extension must be UTF-8",
    Fault::FeatureNameCut => 14 InvalidData "a feature name entry must have at least its type and its bit",
    Fault::FormatConflict => 15 Other "all backing format extensions must hold the same name",
    Fault::DataFileConflict => 16 Other "all external data file extensions must hold the same name",
    Fault::Incompatible(0) => 17 InvalidData
        "all incompatible features but an external data file (bit 2) must be clear, found 0x0",
    Fault::Incompatible(0x8000_0000_0000_0019) => 17 InvalidData
        "all incompatible features but an external data file (bit 2) must be clear, found 0x8000000000000019",
    Fault::EntryReserved => 18 InvalidData "the reserved bits of a table entry must be 0",
    Fault::EntryUnaligned => 19 InvalidData
        "the offset in a table entry must be a multiple of the cluster size",
    Fault::TableTooBig => 20 InvalidData "the table must have at most as many entries as its kind allows",
    Fault::TablePlace => 21 InvalidData "a table or block must end at or below 2^56",
    Fault::NoOffset => 22 Other "a table or block must have a cluster to be written",
    Fault::NotPlaced => 23 InvalidInput "a table or block must have a cluster to be referred to",
    Fault::HeaderTooLong => 24 Other "the header with its names must fit the first cluster",
    Fault::NameTooLong => 25 InvalidInput "a backing file name must have at most 1023 bytes",
    Fault::FieldChanged(Field::ClusterBits) => 26 Other
        "an image that is in use must keep cluster_bits, found another value",
    Fault::VersionNeeded => 27 Unsupported "the image must have a later version for this",
    Fault::CannotGrow => 28 Other "a grown table must have at most as many entries as its kind allows",
    Fault::TooMany => 29 InvalidData
        "a count of entries or clusters must fit the 32 bits of its header field",
    Fault::CounterRange => 30 InvalidData "a refcount must stay from 0 to the largest value of its width",
    Fault::WrongLength => 31 InvalidData "the buffer must have the length of the structure in it",
    Fault::BadEdit(0) => 32 InvalidInput
        "each edit must name an entry of the table and a cluster that it can hold, edit 0 does not",
    Fault::BadEdit(4_000_000_007) => 32 InvalidInput
        "each edit must name an entry of the table and a cluster that it can hold, edit 4000000007 does not",
    Fault::BadStep(0) => 33 InvalidInput "each step must name a counter of the block, step 0 does not",
    Fault::BadStep(70_009) => 33 InvalidInput
        "each step must name a counter of the block, step 70009 does not",
    Fault::Storage => 34 Storage "the storage must answer each call, one failed",
    Fault::NoMemory => 35 NoMemory "memory must be left for the call, none was",
    Fault::ExternalData => 36 InvalidInput
        "refcounts of data clusters must stand in the image, it has an external data file",
    Fault::Uncounted(UncountedPart::Snapshots) => 37 Unsupported
        "all that refers to clusters must be read, the image has snapshots",
    Fault::Uncounted(UncountedPart::Bitmaps) => 37 Unsupported
        "all that refers to clusters must be read, the image has bitmaps",
    Fault::Uncounted(UncountedPart::Encryption) => 37 Unsupported
        "all that refers to clusters must be read, the image has an encryption header",
    Fault::Overlap => 38 InvalidData
        "the uses of a cluster must not exclude each other, nobody knows which of them to believe",
    Fault::InUse => 39 Storage "an image that is written must be used by nobody else, it is in use",
    Fault::Shared(0) => 40 Other
        "an L2 table that is edited must have no other reference, that of edit 0 may have one",
    Fault::Shared(5_000_000_003) => 40 Other
        "an L2 table that is edited must have no other reference, that of edit 5000000003 may have one",
    Fault::L1Short => 41 InvalidData
        "the L1 table must have an entry for each part of the disk, it has too few",
    Fault::Marked => 42 Other
        "an image that is changed must not be marked dirty or corrupt, it must be repaired first",
};
