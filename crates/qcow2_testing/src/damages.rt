//! Damages of the sample image by name, and what each reader must find in them. Clusters have 512 bytes.

use crate::sample_image::{
    COUNTERS, COUNTERS_8, DATA, L1_TABLE, LARGER, NEXT_ENTRY, NEXT_TABLE, NO_DATA, TABLE, TO_7,
    TWO_TABLES,
};
use crate::{Numbers, counted};
use qcow2_base::Fault;

/// A cluster with a finding: its refcount, its number of references, and whether these exclude each other.
#[derive(Clone, Copy, Debug, PartialEq)]
pub struct FoundCluster {
    pub cluster: u64,
    pub counter: u64,
    pub uses: u64,
    pub shared: bool,
}

/// The place of a copied flag: an L1 entry, by its index, or an L2 entry, by its guest offset.
#[derive(Clone, Copy, Debug, PartialEq)]
pub enum FoundPlace {
    L1Index(usize),
    Offset(u64),
}

/// A wrong copied flag: the entry's cluster, its refcount, if it has one, and whether the flag is set.
#[derive(Clone, Copy, Debug, PartialEq)]
pub struct FoundFlag {
    pub place: FoundPlace,
    pub cluster: u64,
    pub counter: Option<u64>,
    pub is_set: bool,
}

/// The end of an image in bytes, the number of clusters of its disk, and the numbers of allocated,
/// compressed and fragmented L2 entries.
#[derive(Clone, Copy, Debug)]
pub struct Sizes {
    pub end: u64,
    pub clusters: u64,
    pub allocated: u64,
    pub compressed: u64,
    pub fragmented: u64,
}

/// An image that can be checked: changes of the sample image, and its findings in order.
#[derive(Clone, Copy, Debug)]
pub struct Damage {
    pub name: &'static str,
    pub changes: Numbers<'static>,
    pub clusters: &'static [FoundCluster],
    /// The clusters that have references though they begin past the image's end.
    pub past: &'static [FoundCluster],
    pub flags: &'static [FoundFlag],
    /// Whether the L1 table is too short for the disk.
    pub is_short: bool,
    /// The output of `check`.
    pub lines: &'static str,
    pub sizes: Sizes,
}

/// The number of clusters and flags of each kind of finding.
#[derive(Clone, Copy, Debug, PartialEq)]
pub struct FoundTotals {
    pub leaked: u64,
    pub missing: u64,
    pub shared: u64,
    pub past: u64,
    pub false_flags: u64,
    pub late_flags: u64,
}

impl Damage {
    /// Counts the clusters and flags of each kind of finding.
    pub fn totals(&self) -> FoundTotals {
        let (leaked, missing, shared) = self.cluster_totals();
        let (false_flags, late_flags) = self.flag_totals();
        FoundTotals {
            leaked,
            missing,
            shared,
            past: self.past.len() as u64,
            false_flags,
            late_flags,
        }
    }

    fn cluster_totals(&self) -> (u64, u64, u64) {
        let (mut leaked, mut missing, mut shared) = (0u64, 0u64, 0u64);
        for found in self.clusters {
            leaked = leaked.wrapping_add(u64::from(found.counter > found.uses));
            missing = missing.wrapping_add(u64::from(found.counter < found.uses));
            shared = shared.wrapping_add(u64::from(found.shared));
        }
        (leaked, missing, shared)
    }

    fn flag_totals(&self) -> (u64, u64) {
        let (mut false_flags, mut late_flags) = (0u64, 0u64);
        for found in self.flags {
            false_flags = false_flags.wrapping_add(u64::from(found.is_set));
            late_flags = late_flags.wrapping_add(u64::from(!found.is_set));
        }
        (false_flags, late_flags)
    }
}

/// An image that can't be checked: changes of the sample image, the fault, and the lines of `explain` on
/// the place of the fault.
#[derive(Clone, Copy, Debug)]
pub struct Refused {
    pub name: &'static str,
    pub changes: Numbers<'static>,
    pub fault: Fault,
    pub place: &'static str,
}

/// An image to repair: changes of the sample image, those that a repair leaves, and the output of `check`
/// afterwards.
#[derive(Clone, Copy, Debug)]
pub struct Repair {
    pub name: &'static str,
    pub changes: Numbers<'static>,
    pub left: Numbers<'static>,
    pub lines: &'static str,
}

impl Repair {
    /// Whether the repaired image is consistent.
    pub fn is_consistent(&self) -> bool {
        self.lines == "consistent\n"
    }

    /// Whether its refcounts, references and flags agree, wherever it ends.
    pub fn agrees(&self) -> bool {
        self.is_consistent() || self.lines.starts_with("past ")
    }
}

/// An image whose tables a repair loads: changes of the sample image, the offsets of its L2 tables, and the
/// loads of each by `check IMAGE repair`. To check what is left, it loads each table once, and once more from
/// the first one on that has a flag which is rightly not set.
#[derive(Clone, Copy, Debug)]
pub struct Loaded {
    pub name: &'static str,
    pub changes: Numbers<'static>,
    pub l2_tables: &'static [u64],
    pub checked_loads: usize,
}

/// The loads of each L2 table by a repair: to count references, to clear flags and to set flags.
pub const REPAIR_LOADS: usize = 3;

/// An image that can't be repaired: changes of the sample image, and the fault.
#[derive(Clone, Copy, Debug)]
pub struct Unrepairable {
    pub name: &'static str,
    pub changes: Numbers<'static>,
    pub fault: Fault,
}

// The sizes of the sample image with refcounts.
const SIZES: Sizes = Sizes {
    end: 3072,
    clusters: 64,
    allocated: 1,
    compressed: 0,
    fragmented: 0,
};

const DAMAGE: Damage = Damage {
    name: "",
    changes: counted! {},
    clusters: &[],
    past: &[],
    flags: &[],
    is_short: false,
    lines: "consistent\n",
    sizes: SIZES,
};

// Clusters with findings, as `9 counter 7 uses 0 shared false`.
macro_rules! found {
    ($($cluster:literal counter $counter:literal uses $uses:literal shared $shared:literal),* $(,)?) => {
        &[$(FoundCluster { cluster: $cluster, counter: $counter, uses: $uses, shared: $shared }),*]
    };
}

macro_rules! place {
    (l1 $index:literal) => {
        FoundPlace::L1Index($index)
    };
    (offset $offset:literal) => {
        FoundPlace::Offset($offset)
    };
}

// Wrong flags, as `l1 0 cluster 2 set true counter Some(2)`.
macro_rules! wrong {
    ($($at:ident $number:literal cluster $cluster:literal set $is_set:literal counter $counter:expr),*) => {
        &[$(FoundFlag {
            place: place!($at $number),
            cluster: $cluster,
            counter: $counter,
            is_set: $is_set,
        }),*]
    };
}

use found;
use place;
use wrong;

mod clusters;
mod flags;
mod repaired;
mod unchecked;

/// A second L2 table, in cluster 6, whose last entry names cluster 7. No entry has the copied flag.
pub const LATE_TABLES: Numbers<'static> = counted! {
    LARGER, TWO_TABLES, TABLE, DATA, (NEXT_TABLE, 0xc00), (0xc00 + 504, 0xe00), TO_7
};

/// The output of `check` for it.
pub const LATE_LINES: &str = "late l1 0 2 1\nlate 0x600 5 1\nlate l1 1 6 1\nlate 0xfe00 7 1\n\
    leaked 0 missing 0 shared 0 false 0 late 4\n";

/// An image with a finding of each kind.
pub const ALL_KINDS: Numbers<'static> = counted! {
    TABLE, (NEXT_ENTRY, L1_TABLE), (COUNTERS, 0x0001_0003_0001_0001), NO_DATA,
    (COUNTERS_8, 0x0005_0005_0000_0000)
};

/// The output of `check` for it.
pub const ALL_LINES: &str = "leaked 1 1 3 2\nshared 1 1 3 2\nmissing 5 1 0 1\nleaked 8 2 5 0\n\
    late l1 0 2 1\nfalse 0x600 5 0\nleaked 3 missing 1 shared 1 false 1 late 1\n";

/// Refcounts of 64 bits, one of them the greatest number.
pub const LARGE_COUNTERS: Numbers<'static> = counted! {
    (96, 0x0000_0006_0000_0068), (COUNTERS, 1), (COUNTERS + 8, 1), (COUNTERS + 16, 1), (COUNTERS + 24, 1),
    (COUNTERS + 32, 1), (COUNTERS + 40, 1), (COUNTERS + 48, u64::MAX)
};

/// All images that can be checked, in lists.
pub fn damages() -> [&'static [Damage]; 7] {
    [
        clusters::wrong_counters(),
        clusters::uses(),
        clusters::parts(),
        clusters::shared_clusters(),
        flags::flags(),
        flags::other_images(),
        flags::disks(),
    ]
}

/// All images that can't be checked, in lists.
pub fn refused_images() -> [&'static [Refused]; 4] {
    [
        unchecked::headers(),
        unchecked::extensions(),
        unchecked::uncounted(),
        unchecked::tables(),
    ]
}

/// All images to repair, in lists.
pub fn repairs() -> [&'static [Repair]; 3] {
    [repaired::counts(), repaired::flags(), repaired::marked()]
}

/// Images for each step of a repair, and one that needs none.
pub fn loaded_images() -> &'static [Loaded] {
    repaired::loaded()
}

/// All images that can't be repaired, whatever the length of their file.
pub fn unrepairable_images() -> &'static [Unrepairable] {
    repaired::unrepairable()
}
