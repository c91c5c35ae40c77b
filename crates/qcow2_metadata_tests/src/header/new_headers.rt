//! Sizes, tables, names and versions of new and loaded headers.

use super::fixtures::{Changes, OLDER, load_with};
use super::names::{NO_NAMES, Names, called, header_with_names, names_of};
use super::rich_header::RICH;
use qcow2_base::{ClusterCount, Fault, HostOffset};
use qcow2_metadata::FeatureType::{self, Autoclear, Compatible, Incompatible};
use qcow2_testing::{all_same, each, rows, same};
use std::alloc::Global;
use std::test::Fail;

// The sizes that a header implies.
#[derive(Clone, Copy, Debug)]
struct Sizes {
    cluster_bits: u32,
    refcount_order: u32,
    cluster_size: usize,
    l2_entries: usize,
    rb_entries: usize,
    rb_bits: u32,
}

const SIZES: &[Sizes] = rows! { Sizes:
    { cluster_bits: 9, refcount_order: 0, cluster_size: 512, l2_entries: 64, rb_entries: 4096, rb_bits: 12 },
    { cluster_bits: 9, refcount_order: 4, cluster_size: 512, l2_entries: 64, rb_entries: 256, rb_bits: 8 },
    { cluster_bits: 9, refcount_order: 6, cluster_size: 512, l2_entries: 64, rb_entries: 64, rb_bits: 6 },
    { cluster_bits: 10, refcount_order: 4, cluster_size: 1024, l2_entries: 128, rb_entries: 512, rb_bits: 9 },
    { cluster_bits: 16, refcount_order: 4, cluster_size: 65536, l2_entries: 8192,
        rb_entries: 32768, rb_bits: 15 },
    { cluster_bits: 21, refcount_order: 0, cluster_size: 2097152, l2_entries: 262144,
        rb_entries: 16777216, rb_bits: 24 },
};

// Checks that a new header has these sizes, no disk and no tables.
fn check_sizes(alloc: Global, row: Sizes) -> Result<(), Fail> {
    let header = header_with_names(alloc, row.cluster_bits, row.refcount_order, NO_NAMES)?;
    all_same! {
        row,
        header.cluster_bits() => row.cluster_bits, header.refcount_order() => row.refcount_order,
        header.cluster_size() => row.cluster_size, header.l2_entries() => row.l2_entries,
        header.rb_entries() => row.rb_entries, header.rb_bits() => row.rb_bits,
    }?;
    all_same! {
        row,
        header.size() => 0, header.l1_table_offset() => HostOffset(0), header.l1_table_entries() => 0,
        header.reftable_offset() => HostOffset(0), header.reftable_clusters() => ClusterCount(0),
        header.reftable_entries() => 0,
    }
}

#[test]
fn a_new_header_tells_its_sizes_and_has_no_disk_and_no_tables(rt: HostRuntime) -> Result<(), Fail> {
    each(rt.alloc(), SIZES, check_sizes)
}

#[test]
fn a_loaded_header_tells_its_names_and_its_numbers(rt: HostRuntime) -> Result<(), Fail> {
    let header = load_with(rt.alloc(), RICH, "")?;
    all_same! {
        "sizes",
        header.cluster_bits() => 9, header.refcount_order() => 5, header.cluster_size() => 512,
        header.l2_entries() => 64, header.rb_entries() => 128, header.rb_bits() => 7,
    }?;
    all_same! {
        "tables",
        header.size() => 0x0102_0304_0506_0708, header.l1_table_entries() => 0x2122_2324,
        header.l1_table_offset() => HostOffset(0x3132_3334_3536_3a00),
        header.reftable_offset() => HostOffset(0x4142_4344_4546_4800),
        header.reftable_clusters() => ClusterCount(0x5152_5354), header.reftable_entries() => 0x14_5494_d500,
    }?;
    same(names_of(&header), RICH_NAMES, "rich")
}

const RICH_NAMES: Names<'static> = Names {
    backing: Some("ä.img"),
    format: Some("qcow2"),
    data_file: Some("dät.raw"),
    external: true,
};

// Names that a new header is made with, and has. Data is external if a data file is named.
const NAMES: &[Names<'static>] = rows! {
    NO_NAMES,
    Names { backing: Some("base.img"), ..NO_NAMES },
    Names { backing: Some("base.img"), format: Some("qcow2"), ..NO_NAMES },
    Names { format: Some("raw"), ..NO_NAMES },
    Names { data_file: Some("data.raw"), external: true, ..NO_NAMES },
    Names { data_file: Some(""), external: true, ..NO_NAMES },
    Names { backing: Some("a"), format: Some("qcow2"), data_file: Some("b"), external: true },
};

fn check_names(alloc: Global, expected: Names<'_>) -> Result<(), Fail> {
    same(
        names_of(&header_with_names(alloc, 9, 4, expected)?),
        expected,
        "names",
    )
}

#[test]
fn a_new_header_has_the_names_that_it_is_made_with(rt: HostRuntime) -> Result<(), Fail> {
    each(rt.alloc(), NAMES, check_names)
}

// A feature's type and bit, and its name in a new header.
const FEATURES: &[(FeatureType, u32, Option<&'static str>)] = rows! {
    (Incompatible, 0, Some("dirty")), (Incompatible, 1, Some("corrupt")),
    (Incompatible, 2, Some("external data file")), (Incompatible, 3, Some("extended compression type")),
    (Incompatible, 4, Some("extended L2 entries")), (Incompatible, 5, None), (Incompatible, 256, None),
    (Compatible, 0, Some("lazy refcounts")), (Compatible, 1, None),
    (Autoclear, 0, Some("persistent dirty bitmaps")), (Autoclear, 1, Some("raw external data file")),
    (Autoclear, 2, None), (Autoclear, 257, None),
};

#[test]
fn a_new_header_has_the_names_of_eight_features(rt: HostRuntime) -> Result<(), Fail> {
    let header = header_with_names(rt.alloc(), 9, 4, NO_NAMES)?;
    for row in FEATURES {
        let (feature_type, bit, expected) = *row;
        same(called(&header, feature_type, bit), expected, *row)?;
    }
    Ok(())
}

// Changes of the minimal header, its version, and the result of requiring a version.
#[derive(Clone, Copy, Debug)]
struct Version {
    changes: Changes,
    version: u32,
    needed: u32,
    answer: Result<(), Fault>,
}

const VERSIONS: &[Version] = rows! { Version:
    { changes: "", version: 3, needed: 3, answer: Ok(()) },
    { changes: "", version: 3, needed: 4, answer: Err(Fault::VersionNeeded) },
    { changes: OLDER, version: 2, needed: 2, answer: Ok(()) },
    { changes: OLDER, version: 2, needed: 3, answer: Err(Fault::VersionNeeded) },
};

fn check_version(alloc: Global, row: Version) -> Result<(), Fail> {
    let header = load_with(alloc, row.changes, "")?;
    let found = (header.version(), header.require_version(row.needed));
    same(found, (row.version, row.answer), row)
}

#[test]
fn a_header_tells_its_version_and_refuses_a_later_one(rt: HostRuntime) -> Result<(), Fail> {
    each(rt.alloc(), VERSIONS, check_version)
}
