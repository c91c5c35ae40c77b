//! Loads of headers.

use super::fixtures::{Changes, least_with, load_with, refusal};
use super::names::{NO_NAMES, Names, called, loaded_names};
use qcow2_base::Fault;
use qcow2_calls::load_header;
use qcow2_metadata::FeatureType::{self, Autoclear, Compatible, Incompatible};
use qcow2_testing::{each, rows, same};
use std::alloc::Global;
use std::test::Fail;

// Changes of the minimal header, and the loaded names, or the fault.
type Loaded = (Changes, Result<Names<'static>, Fault>);

const LOADED: &[Loaded] = rows! {
    ("", Ok(NO_NAMES)),
    // versions, cluster sizes and refcount widths
    ("version=0", Err(Fault::Version)), ("version=1", Err(Fault::Version)), ("version=2", Ok(NO_NAMES)),
    ("version=0x1000003", Err(Fault::Version)), ("version=0x10003", Err(Fault::Version)),
    ("version=259", Err(Fault::Version)), ("magic=0x514749fb", Err(Fault::NotQcow2)),
    ("magic=0x514648fb", Err(Fault::NotQcow2)), ("cluster_bits=8", Err(Fault::ClusterSize)),
    ("cluster_bits=21", Ok(NO_NAMES)), ("cluster_bits=0x1000009", Err(Fault::ClusterSize)),
    ("cluster_bits=0x10009", Err(Fault::ClusterSize)), ("cluster_bits=265", Err(Fault::ClusterSize)),
    ("refcount_order=0", Ok(NO_NAMES)), ("refcount_order=6", Ok(NO_NAMES)),
    ("refcount_order=0x1000004", Err(Fault::RefcountWidth)),
    ("refcount_order=0x10004", Err(Fault::RefcountWidth)),
    ("refcount_order=260", Err(Fault::RefcountWidth)),
    // incompatible features other than an external data file are reported
    ("incompatible_features=1", Err(Fault::Incompatible(1))),
    ("incompatible_features=2", Err(Fault::Incompatible(2))),
    ("incompatible_features=6", Err(Fault::Incompatible(2))),
    ("incompatible_features=0x18", Err(Fault::Incompatible(24))),
    ("incompatible_features=0x8000000000000004", Err(Fault::Incompatible(0x8000_0000_0000_0000))),
    ("incompatible_features=0xffffffffffffffff", Err(Fault::Incompatible(0xffff_ffff_ffff_fffb))),
    // a bad magic, version or cluster size is found before bad fields after it
    ("0=ff*104", Err(Fault::NotQcow2)), ("4=ff*100", Err(Fault::Version)),
    ("8=ff*96", Err(Fault::ClusterSize)),
    // tables at the start of a cluster of 512 bytes, but not of one of 1024
    ("l1_table_offset=0x200, refcount_table_offset=0x200", Ok(NO_NAMES)),
    ("l1_table_offset=0x200, cluster_bits=10", Err(Fault::L1Unaligned)),
    ("refcount_table_offset=0x200, cluster_bits=10", Err(Fault::ReftableUnaligned)),
    ("l1_table_offset=0x200, cluster_bits=10, version=2", Err(Fault::L1Unaligned)),
    ("l1_table_offset=0x8000000000000000, refcount_table_offset=0x8000000000000000", Ok(NO_NAMES)),
    // header lengths, up to the cluster's end
    ("header_length=112", Ok(NO_NAMES)), ("header_length=504", Ok(NO_NAMES)),
    ("header_length=505", Err(Fault::ExtensionsExceed)),
    ("header_length=512", Err(Fault::ExtensionsExceed)), ("header_length=0x1000068", Err(Fault::HeaderBig)),
    ("cluster_bits=21, header_length=0x1ffff8", Ok(NO_NAMES)),
    ("cluster_bits=21, header_length=0x200000", Err(Fault::ExtensionsExceed)),
    ("cluster_bits=21, header_length=0x200001", Err(Fault::HeaderBig)),
    // an extension of another type, up to the cluster's end
    ("107=0700000188", Ok(NO_NAMES)), ("107=0700000189", Err(Fault::ExtensionsExceed)),
    ("107=0700000190", Err(Fault::ExtensionsExceed)), ("107=07ffffffff", Err(Fault::ExtensionsExceed)),
    // End has a length, too, and nothing after it is read
    ("110=0190", Ok(NO_NAMES)), ("110=0191", Err(Fault::ExtensionsExceed)),
    ("108=ffffffff", Err(Fault::ExtensionsExceed)),
    ("107=0700000180, 503=09", Err(Fault::ExtensionsExceed)), ("112=format 01 ff", Ok(NO_NAMES)),
    // data that ends within the cluster, with padding that doesn't
    ("header_length=105, 111=018f", Ok(NO_NAMES)),
    ("header_length=105, 105=e2792aca 0000018f ff", Err(Fault::ExtensionText)),
};

const OF_EXTENSIONS: &[Loaded] = rows! {
    // names in extensions
    ("104=format 05:qcow2", Ok(Names { format: Some("qcow2"), ..NO_NAMES })),
    ("104=data 08:data.raw, incompatible_features=4",
        Ok(Names { data_file: Some("data.raw"), external: true, ..NO_NAMES })),
    ("104=data 03 e282ac", Ok(Names { data_file: Some("\u{20ac}"), ..NO_NAMES })),
    ("104=data 02 e282ac", Err(Fault::ExtensionText)),
    ("104=data 03 eda080", Err(Fault::ExtensionText)), ("104=format 02 c080", Err(Fault::ExtensionText)),
    ("incompatible_features=4", Ok(Names { external: true, ..NO_NAMES })),
    ("104=format 00", Ok(Names { format: Some(""), ..NO_NAMES })),
    // the padding is relative to the extension, not to the image
    ("header_length=105, 105=format 03:raw, 121=data 01:a",
        Ok(Names { format: Some("raw"), data_file: Some("a"), ..NO_NAMES })),
    // the same format twice, and different ones
    ("104=format 01:a, 120=format 01:a", Ok(Names { format: Some("a"), ..NO_NAMES })),
    ("104=format 01:a, 120=format 01:b, 136=format 01:a", Err(Fault::FormatConflict)),
    ("104=format 01:a, 120=data 01:b", Ok(Names { format: Some("a"), data_file: Some("b"), ..NO_NAMES })),
    // checks: the extensions in their order, then formats, then data files
    ("104=names 01 00, 120=data 01 ff", Err(Fault::FeatureNameCut)),
    ("104=data 01 ff, 120=names 01 00, 139=0700000191", Err(Fault::ExtensionText)),
    ("104=format 01:a, 120=format 01:b, 139=0700000191", Err(Fault::ExtensionsExceed)),
    ("104=data 01:a, 120=data 01:b, 136=format 01:a, 152=format 01:b", Err(Fault::FormatConflict)),
    // a feature name table of one byte
    ("104=names 01 00", Err(Fault::FeatureNameCut)), ("104=names 01 01", Err(Fault::FeatureNameCut)),
    ("104=names 01 02", Err(Fault::FeatureNameCut)), ("104=names 31", Err(Fault::FeatureNameCut)),
    // as many extensions as the first cluster holds
    ("104=0000000700000000*50", Ok(NO_NAMES)), ("104=0000000700000000*51", Err(Fault::ExtensionsExceed)),
    ("cluster_bits=21, 104=0000000700000000*262000, 2096104=format 03:raw",
        Ok(Names { format: Some("raw"), ..NO_NAMES })),
};

const OF_BACKING_FILES: &[Loaded] = rows! {
    // a backing file's name anywhere in the first cluster
    ("backing_file_offset=504, backing_file_size=8",
        Ok(Names { backing: Some("\0\0\0\0\0\0\0\0"), ..NO_NAMES })),
    ("backing_file_offset=504, backing_file_size=9", Err(Fault::BackingNamePlace)),
    ("backing_file_offset=512", Ok(Names { backing: Some(""), ..NO_NAMES })),
    ("backing_file_offset=513", Err(Fault::BackingNamePlace)),
    ("backing_file_offset=1, backing_file_size=2", Ok(Names { backing: Some("FI"), ..NO_NAMES })),
    ("backing_file_offset=1, backing_file_size=2, autoclear_features=1, header_length=504",
        Ok(Names { backing: Some("FI"), ..NO_NAMES })),
    ("backing_file_offset=0xffffffffffffffff, backing_file_size=1", Err(Fault::BackingNamePlace)),
    ("backing_file_offset=0xffffffffffffffff", Err(Fault::BackingNamePlace)),
    ("backing_file_offset=0xffffffffffffffff, backing_file_size=1024", Err(Fault::BackingNameLong)),
    ("backing_file_size=0xffffffff", Ok(NO_NAMES)),
    // a name that is longer than the cluster
    ("backing_file_offset=1, backing_file_size=512", Err(Fault::BackingNamePlace)),
    ("backing_file_offset=1, backing_file_size=513", Err(Fault::BackingNamePlace)),
    ("backing_file_offset=1, backing_file_size=1023", Err(Fault::BackingNamePlace)),
    ("backing_file_offset=0xffffffffffffffff, backing_file_size=1023", Err(Fault::BackingNamePlace)),
    // a name of 1023 bytes, the last of which isn't text, and one of 1024
    ("cluster_bits=11, backing_file_offset=1024, backing_file_size=1023, 2046=ff",
        Err(Fault::BackingNameText)),
    ("cluster_bits=11, backing_file_offset=1024, backing_file_size=1024", Err(Fault::BackingNameLong)),
};

fn check_loaded(alloc: Global, (changes, expected): Loaded) -> Result<(), Fail> {
    let loaded = load_header(alloc, &mut least_with(alloc, changes, "")?, false);
    same(loaded_names(&loaded), expected, changes)
}

#[test]
fn a_load_returns_a_valid_header_or_a_fault(rt: HostRuntime) -> Result<(), Fail> {
    each(rt.alloc(), LOADED, check_loaded)
}

#[test]
fn a_load_returns_the_names_of_extensions_or_a_fault(rt: HostRuntime) -> Result<(), Fail> {
    each(rt.alloc(), OF_EXTENSIONS, check_loaded)
}

#[test]
fn a_load_returns_the_name_of_the_backing_file_or_a_fault(rt: HostRuntime) -> Result<(), Fail> {
    each(rt.alloc(), OF_BACKING_FILES, check_loaded)
}

// Changes of the minimal header that break one condition each, and the fault, in the order in which a load
// checks. The backing file's offset (bytes 8 to 15) and length (16 to 19) are changed in single bytes, so
// that these changes can be combined.
const BROKEN: &[(Changes, Fault)] = rows! {
    ("magic=0x504649fb", Fault::NotQcow2), ("version=4", Fault::Version),
    ("cluster_bits=22", Fault::ClusterSize), ("header_length=103", Fault::HeaderShort),
    ("header_length=513", Fault::HeaderBig), ("l1_table_offset=1", Fault::L1Unaligned),
    ("refcount_table_offset=1", Fault::ReftableUnaligned), ("refcount_order=7", Fault::RefcountWidth),
    ("15=01, 18=04", Fault::BackingNameLong), ("14=02, 19=01", Fault::BackingNamePlace),
    ("15=03, 19=01", Fault::BackingNameText), ("104=0000000700000191", Fault::ExtensionsExceed),
    ("104=format 01 ff", Fault::ExtensionText), ("104=names 01 00", Fault::FeatureNameCut),
    ("104=format 01:a, 120=format 01:b", Fault::FormatConflict),
    ("104=data 01:a, 120=data 01:b", Fault::DataFileConflict),
    ("incompatible_features=2", Fault::Incompatible(2)),
};

// Makes the change by itself and with each other one, and expects the fault with the smaller number. Returns
// the number of combinations.
fn check_with_each_other(alloc: Global, changes: Changes, fault: Fault) -> Result<u32, Fail> {
    let mut made = 0u32;
    for (others, other) in BROKEN {
        let expected = if other.number() < fault.number() {
            *other
        } else {
            fault
        };
        let is_made = check_both(alloc, (changes, others), expected)?;
        made = made.saturating_add(u32::from(is_made));
    }
    Ok(made)
}

// Checks two changes together, and returns whether that is possible: two changes that write different bytes
// to one offset can't be combined.
fn check_both(alloc: Global, changes: (Changes, Changes), expected: Fault) -> Result<bool, Fail> {
    let mut image = least_with(alloc, changes.0, changes.1)?;
    let turned = least_with(alloc, changes.1, changes.0)?;
    if image.bytes() != turned.bytes() {
        return Ok(false);
    }
    same(refusal(alloc, &mut image), Some(expected), changes)?;
    Ok(true)
}

#[test]
fn the_first_condition_that_fails_decides(rt: HostRuntime) -> Result<(), Fail> {
    let mut made = 0u32;
    for (changes, fault) in BROKEN {
        made = made.saturating_add(check_with_each_other(rt.alloc(), changes, *fault)?);
    }
    // 17 changes alone, and 124 pairs in both orders
    same(made, 265, "changes made together")
}

// The minimal header with an empty feature name table. The table's length ends with byte 111, and its chunks
// begin at bytes 112, 160 and 208.
const NO_CHUNKS: Changes = "104=names 00";

// Changes of it, a feature's type and bit, and the feature's name in the header.
type Named = (Changes, (FeatureType, u32), Option<&'static str>);

const NAMED: &[Named] = rows! {
    ("", DIRTY, None), ("111=020005", (Incompatible, 5), Some("")),
    ("111=050107:one", (Compatible, 7), Some("one")), ("111=040107:one", (Compatible, 7), Some("on")),
    // the last chunk of a key decides
    ("111=600000:a, 160=0000:b", DIRTY, Some("b")), ("111=600000:a, 160=0000:b", (Compatible, 0), None),
    ("111=600000:a, 160=0000:b", (Incompatible, 256), None),
    ("111=600000:a, 160=0000:b", (Incompatible, u32::MAX), None), ("111=320000:a", DIRTY, Some("")),
    // each feature type has keys of its own, up to bit 255
    (FIELDS, (Incompatible, 255), Some("i")), (FIELDS, (Compatible, 255), Some("c")),
    (FIELDS, (Autoclear, 255), Some("a")),
    // the first table that has the key decides
    (TABLES, DIRTY, Some("one")), (TABLES, (Autoclear, 1), Some("raw")), (TABLES, (Autoclear, 0), None),
    // a chunk of an unknown type is ignored
    ("111=330201:a, 160=0301:b", (Autoclear, 1), Some("a")), ("111=0103", DIRTY, None),
    ("111=31, 160=09", DIRTY, Some("")),
    // a name ends before its first zero byte, or with its chunk, even inside a character
    ("111=300000 6100 62", DIRTY, Some("a")), ("111=300000 00 61", DIRTY, Some("")),
    ("111=320000:0123456789abcdefghijklmnopqrstuvwxyzABCDEFGHIJ, 160=0300", DIRTY,
        Some("0123456789abcdefghijklmnopqrstuvwxyzABCDEFGHIJ")),
    ("111=320000:0123456789abcdefghijklmnopqrstuvwxyzABCDEFGHI, 159=c3a400", DIRTY,
        Some("0123456789abcdefghijklmnopqrstuvwxyzABCDEFGHI\u{fffd}")),
    // bytes that aren't UTF-8 are replaced
    ("111=040000 c3a4", DIRTY, Some("\u{e4}")),
    ("111=080000 f0908057c328", DIRTY, Some("\u{fffd}W\u{fffd}(")),
    ("111=080000 eda08078c0af", DIRTY, Some("\u{fffd}\u{fffd}\u{fffd}x\u{fffd}\u{fffd}")),
};

const DIRTY: (FeatureType, u32) = (Incompatible, 0);

const FIELDS: Changes = "111=6300ff:i, 160=01ff:c, 208=02ff:a";

const TABLES: Changes = "111=050000:one, 120=names 35 0000:two, 176=0201:raw";

fn check_called(alloc: Global, (changes, key, expected): Named) -> Result<(), Fail> {
    let header = load_with(alloc, NO_CHUNKS, changes)?;
    same(called(&header, key.0, key.1), expected, (changes, key))
}

#[test]
fn a_feature_is_called_by_the_last_chunk_of_the_first_table(rt: HostRuntime) -> Result<(), Fail> {
    each(rt.alloc(), NAMED, check_called)
}
