//! The commands, and the faults that each may return, as in docs/REFERENCE.md.

/// A command in one of its forms.
#[derive(Clone, Copy, PartialEq, Eq)]
pub(crate) enum Kind {
    Info,
    List,
    Map,
    At,
    Tables,
    Layout,
    Refcount,
    Check,
    Repair,
    Plan,
    Apply,
    Edit,
    Count,
    L2,
}

/// The greatest number of a header's fault.
pub(crate) const LAST_OF_HEADER: u32 = 17;

/// The number of the storage fault.
pub(crate) const STORAGE: u32 = 34;

/// The incompatible feature of a compression type other than zlib.
pub(crate) const COMPRESSION_TYPE: u64 = 1 << 3;

impl Kind {
    /// Whether the command may change its image.
    pub(crate) fn changes(self) -> bool {
        matches!(self, Kind::Repair | Kind::Apply | Kind::Edit | Kind::Count)
    }

    /// Whether the command reads the header.
    pub(crate) fn reads_header(self) -> bool {
        self != Kind::L2
    }

    /// The incompatible features that the command accepts besides an external data file.
    pub(crate) fn accepted_features(self) -> u64 {
        match self {
            Kind::Map | Kind::Tables | Kind::Layout | Kind::Refcount | Kind::Check => 0xb,
            Kind::Repair | Kind::Plan | Kind::Apply => 0xb,
            _ => 0,
        }
    }

    /// Whether the command may print lines before a fault that isn't of the storage.
    pub(crate) fn prints_before_faults(self) -> bool {
        matches!(self, Kind::List | Kind::Map)
    }

    // The faults other than those of the header and of the storage.
    fn own_faults(self) -> &'static [u32] {
        match self {
            Kind::Info => &[],
            Kind::List | Kind::Map | Kind::At | Kind::Tables | Kind::Refcount => &[18, 19, 20, 21],
            Kind::Layout | Kind::Check => &[18, 19, 20, 21, 37],
            Kind::Repair => &[18, 19, 20, 21, 24, 30, 37, 38, 41],
            Kind::Plan | Kind::Apply => &[18, 19, 20, 21, 23, 27, 30, 32, 36, 40, 41, 42],
            Kind::Edit => &[18, 19, 20, 21, 23, 24, 32],
            Kind::Count => &[21, 24, 33],
            Kind::L2 => &[18, 19, 21],
        }
    }

    /// Whether the command may return the fault of this number, if memory doesn't run out and only writes
    /// can fail.
    pub(crate) fn may_give(self, number: u32) -> bool {
        match number {
            1..=LAST_OF_HEADER => self.reads_header(),
            STORAGE => self.changes(),
            _ => self.own_faults().contains(&number),
        }
    }
}
