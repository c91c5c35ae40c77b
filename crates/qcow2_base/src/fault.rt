//! Faults: one for each rule of the format or of a call, with a number and a kind.

ghost use Rattle.std.specs.Prelude.{◌≡◌, ◌<◌, Some, IfSome, IsSome};
ghost use Rattle.qcow2_base.specs.declared.fault.Fault.TheVariants.{NoMemory};

use std::alloc::{AllocError, AllocFailed};
use std::fmt;
use thiserror::Error;

/// A header field that must be the same in two headers of one image.
#[derive(Clone, Copy, Debug, PartialEq, Eq)]
pub enum Field {
    Magic,
    Version,
    BackingOffset,
    BackingSize,
    ClusterBits,
    CryptMethod,
    NbSnapshots,
    SnapshotsOffset,
    Incompatible,
    Compatible,
    Autoclear,
    RefcountOrder,
    UnknownFields,
    BackingName,
    Extensions,
    ExternalData,
}

/// The field's name in the qcow2 format.
impl fmt::Display for Field {
    ghost use Rattle.qcow2_base.specs.Fault.{field_name};

    ghost output = { λ field. Some (field_name field) };

    fn fmt<W: fmt::Write>(&self, f: &mut fmt::Formatter<W>) -> fmt::Result {
        f.write_str(match self {
            Field::Magic => "magic",
            Field::Version => "version",
            Field::BackingOffset => "backing_file_offset",
            Field::BackingSize => "backing_file_size",
            Field::ClusterBits => "cluster_bits",
            Field::CryptMethod => "crypt_method",
            Field::NbSnapshots => "nb_snapshots",
            Field::SnapshotsOffset => "snapshots_offset",
            Field::Incompatible => "incompatible_features",
            Field::Compatible => "compatible_features",
            Field::Autoclear => "autoclear_features",
            Field::RefcountOrder => "refcount_order",
            Field::UnknownFields => "the unknown header fields",
            Field::BackingName => "the backing file name",
            Field::Extensions => "the header extensions",
            Field::ExternalData => "the use of an external data file",
        })
    }
}

/// A part of an image that refers to clusters and that these crates don't read.
#[derive(Clone, Copy, Debug, PartialEq, Eq)]
pub enum UncountedPart {
    Snapshots,
    Bitmaps,
    Encryption,
}

/// The part's name.
impl fmt::Display for UncountedPart {
    ghost use Rattle.qcow2_base.specs.Fault.{part_name};

    ghost output = { λ part. Some (part_name part) };

    fn fmt<W: fmt::Write>(&self, f: &mut fmt::Formatter<W>) -> fmt::Result {
        f.write_str(match self {
            UncountedPart::Snapshots => "snapshots",
            UncountedPart::Bitmaps => "bitmaps",
            UncountedPart::Encryption => "an encryption header",
        })
    }
}

/// The reason for a refusal. Each fault belongs to one rule; the message says what the rule expects. A
/// fault's number is its position in this list, from 1 on.
///
/// Any call over a storage may return `Storage` (34), and any call that allocates `NoMemory` (35), even if
/// its documentation names neither.
#[derive(Clone, Copy, Debug, PartialEq, Eq, Error)]
pub enum Fault {
    #[error("not a qcow2 image: the magic must be 0x514649fb")]
    NotQcow2,
    #[error("the version must be 2 or 3")]
    Version,
    #[error("cluster_bits must be from 9 to 21")]
    ClusterSize,
    #[error("header_length must be at least 104")]
    HeaderShort,
    #[error("the header must end within the first cluster")]
    HeaderBig,
    #[error("l1_table_offset must be a multiple of the cluster size")]
    L1Unaligned,
    #[error("refcount_table_offset must be a multiple of the cluster size")]
    ReftableUnaligned,
    #[error("refcount_order must be at most 6")]
    RefcountWidth,
    #[error("backing_file_size must be at most 1023")]
    BackingNameLong,
    #[error("the backing file name must end within the first cluster")]
    BackingNamePlace,
    #[error("the backing file name must be UTF-8")]
    BackingNameText,
    #[error("the header extensions must end within the first cluster")]
    ExtensionsExceed,
    #[error("a backing format or data file name in an extension must be UTF-8")]
    ExtensionText,
    #[error("a feature name entry must have at least its type and its bit")]
    FeatureNameCut,
    #[error("all backing format extensions must hold the same name")]
    FormatConflict,
    #[error("all external data file extensions must hold the same name")]
    DataFileConflict,
    #[error("all incompatible features but an external data file (bit 2) must be clear, found {0:#x}")]
    Incompatible(u64),
    #[error("the reserved bits of a table entry must be 0")]
    EntryReserved,
    #[error("the offset in a table entry must be a multiple of the cluster size")]
    EntryUnaligned,
    #[error("the table must have at most as many entries as its kind allows")]
    TableTooBig,
    #[error("a table or block must end at or below 2^56")]
    TablePlace,
    #[error("a table or block must have a cluster to be written")]
    NoOffset,
    #[error("a table or block must have a cluster to be referred to")]
    NotPlaced,
    #[error("the header with its names must fit the first cluster")]
    HeaderTooLong,
    #[error("a backing file name must have at most 1023 bytes")]
    NameTooLong,
    #[error("an image that is in use must keep {0}, found another value")]
    FieldChanged(Field),
    #[error("the image must have a later version for this")]
    VersionNeeded,
    #[error("a grown table must have at most as many entries as its kind allows")]
    CannotGrow,
    #[error("a count of entries or clusters must fit the 32 bits of its header field")]
    TooMany,
    #[error("a refcount must stay from 0 to the largest value of its width")]
    CounterRange,
    #[error("the buffer must have the length of the structure in it")]
    WrongLength,
    #[error("each edit must name an entry of the table and a cluster that it can hold, edit {0} does not")]
    BadEdit(usize),
    #[error("each step must name a counter of the block, step {0} does not")]
    BadStep(usize),
    #[error("the storage must answer each call, one failed")]
    Storage,
    #[error("memory must be left for the call, none was")]
    NoMemory,
    #[error("refcounts of data clusters must stand in the image, it has an external data file")]
    ExternalData,
    #[error("all that refers to clusters must be read, the image has {0}")]
    Uncounted(UncountedPart),
    #[error("the uses of a cluster must not exclude each other, nobody knows which of them to believe")]
    Overlap,
    #[error("an image that is written must be used by nobody else, it is in use")]
    InUse,
    #[error("an L2 table that is edited must have no other reference, that of edit {0} may have one")]
    Shared(usize),
    #[error("the L1 table must have an entry for each part of the disk, it has too few")]
    L1Short,
    #[error("an image that is changed must not be marked dirty or corrupt, it must be repaired first")]
    Marked,
}

/// The kind of a fault, for callers that treat faults by kind.
#[derive(Clone, Copy, Debug, PartialEq, Eq)]
pub enum FaultKind {
    /// The image breaks a rule of the format, or an argument is out of bounds.
    InvalidData,
    /// The caller asked for something impossible.
    InvalidInput,
    /// The state of the image or of a value doesn't allow the call.
    Other,
    /// The image's version doesn't support the request, or the image has a part that these crates don't read.
    Unsupported,
    /// The storage failed, or another process has the image open.
    Storage,
    /// Memory ran out.
    NoMemory,
}

impl Fault {
    ghost use Rattle.qcow2_base.specs.Fault.{fault_kind, fault_number, fault_of};

    /// One fault of each number, in order. A fault with a value has 0, or the first value of its type.
    pub const ALL: [Fault; 42] = [
        Fault::NotQcow2,
        Fault::Version,
        Fault::ClusterSize,
        Fault::HeaderShort,
        Fault::HeaderBig,
        Fault::L1Unaligned,
        Fault::ReftableUnaligned,
        Fault::RefcountWidth,
        Fault::BackingNameLong,
        Fault::BackingNamePlace,
        Fault::BackingNameText,
        Fault::ExtensionsExceed,
        Fault::ExtensionText,
        Fault::FeatureNameCut,
        Fault::FormatConflict,
        Fault::DataFileConflict,
        Fault::Incompatible(0),
        Fault::EntryReserved,
        Fault::EntryUnaligned,
        Fault::TableTooBig,
        Fault::TablePlace,
        Fault::NoOffset,
        Fault::NotPlaced,
        Fault::HeaderTooLong,
        Fault::NameTooLong,
        Fault::FieldChanged(Field::Magic),
        Fault::VersionNeeded,
        Fault::CannotGrow,
        Fault::TooMany,
        Fault::CounterRange,
        Fault::WrongLength,
        Fault::BadEdit(0),
        Fault::BadStep(0),
        Fault::Storage,
        Fault::NoMemory,
        Fault::ExternalData,
        Fault::Uncounted(UncountedPart::Snapshots),
        Fault::Overlap,
        Fault::InUse,
        Fault::Shared(0),
        Fault::L1Short,
        Fault::Marked,
    ];

    /// Returns the fault of a number as `Fault::ALL` has it, or `None` for any other number.
    pub fn of_number(number: u64) -> Option<Fault>
        ensures listed { result ≡ fault_of number }
        ensures named { IfSome result (λ fault. fault_number fault ≡ number) }
        ensures each { (fault : Fault) → fault_number fault ≡ number → IsSome result }
    {
        if number == 0 {
            return None;
        }
        Fault::ALL.get(number as usize - 1).copied()
    }

    /// The fault's fixed number, from 1 to 42, which `qmeta` prints.
    pub fn number(&self) -> u32
        ensures { result ≡ fault_number self.now }
    {
        match self {
            Fault::NotQcow2 => 1,
            Fault::Version => 2,
            Fault::ClusterSize => 3,
            Fault::HeaderShort => 4,
            Fault::HeaderBig => 5,
            Fault::L1Unaligned => 6,
            Fault::ReftableUnaligned => 7,
            Fault::RefcountWidth => 8,
            Fault::BackingNameLong => 9,
            Fault::BackingNamePlace => 10,
            Fault::BackingNameText => 11,
            Fault::ExtensionsExceed => 12,
            Fault::ExtensionText => 13,
            Fault::FeatureNameCut => 14,
            Fault::FormatConflict => 15,
            Fault::DataFileConflict => 16,
            Fault::Incompatible(_) => 17,
            Fault::EntryReserved => 18,
            Fault::EntryUnaligned => 19,
            Fault::TableTooBig => 20,
            Fault::TablePlace => 21,
            Fault::NoOffset => 22,
            Fault::NotPlaced => 23,
            _ => self.later_number(),
        }
    }

    // The number of a fault from 24 on.
    fn later_number(&self) -> u32
        requires { 23 < fault_number self.now }
        ensures { result ≡ fault_number self.now }
    {
        match self {
            Fault::HeaderTooLong => 24,
            Fault::NameTooLong => 25,
            Fault::FieldChanged(_) => 26,
            Fault::VersionNeeded => 27,
            Fault::CannotGrow => 28,
            Fault::TooMany => 29,
            Fault::CounterRange => 30,
            Fault::WrongLength => 31,
            Fault::BadEdit(_) => 32,
            Fault::BadStep(_) => 33,
            Fault::Storage => 34,
            Fault::NoMemory => 35,
            Fault::ExternalData => 36,
            Fault::Uncounted(_) => 37,
            Fault::Overlap => 38,
            Fault::InUse => 39,
            Fault::Shared(_) => 40,
            Fault::L1Short => 41,
            Fault::Marked => 42,
            _ => 0,
        }
    }

    /// The fault's kind.
    pub fn kind(&self) -> FaultKind
        ensures { result ≡ fault_kind self.now }
    {
        match self {
            Fault::NotPlaced
            | Fault::NameTooLong
            | Fault::BadEdit(_)
            | Fault::BadStep(_)
            | Fault::ExternalData => FaultKind::InvalidInput,
            Fault::FormatConflict
            | Fault::DataFileConflict
            | Fault::NoOffset
            | Fault::HeaderTooLong
            | Fault::FieldChanged(_)
            | Fault::CannotGrow
            | Fault::Shared(_)
            | Fault::Marked => FaultKind::Other,
            Fault::VersionNeeded | Fault::Uncounted(_) => FaultKind::Unsupported,
            Fault::Storage | Fault::InUse => FaultKind::Storage,
            Fault::NoMemory => FaultKind::NoMemory,
            _ => FaultKind::InvalidData,
        }
    }
}

/// Converts a failed allocation, for `?`.
impl From<AllocError> for Fault {
    ghost from_gives = { λ _ fault. fault ≡ NoMemory };

    fn from(_error: AllocError) -> Fault {
        Fault::NoMemory
    }
}

/// Converts a failed allocation that returns the value it had no room for. Drops that value.
impl<T: Drop> From<AllocFailed<T>> for Fault {
    ghost from_gives = { λ _ fault. fault ≡ NoMemory };

    fn from(_failed: AllocFailed<T>) -> Fault {
        Fault::NoMemory
    }
}
