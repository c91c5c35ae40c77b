//! Images that can't be checked.

use super::Refused;
use crate::sample_image::{
    AUTOCLEAR, COUNTERS_8, DATA_ENTRY, KEYS, KEYS_LENGTH, KEYS_OFFSET, L2_TABLE, LARGER, LAST,
    LAST_ENTRY, LUKS, NEXT_TABLE, REFTABLE, TABLE_ENTRY, TWO_TABLES,
};
use crate::{COMPRESSED, COPIED, VERSION_2, counted, rows};
use qcow2_base::{Fault, UncountedPart};

const SNAPSHOTS: Fault = Fault::Uncounted(UncountedPart::Snapshots);

const BITMAPS: Fault = Fault::Uncounted(UncountedPart::Bitmaps);

const LOST_KEYS: Fault = Fault::Uncounted(UncountedPart::Encryption);

// Refused headers.
const HEADERS: &[Refused] = rows! {
    Refused { name: "no magic", changes: counted! { (0, 0) }, fault: Fault::NotQcow2,
        place: "in IMAGE: byte 0: magic is 0x0\n" },
    Refused { name: "another magic", changes: counted! { (0, 0x5146_49fc_0000_0003) },
        fault: Fault::NotQcow2,
        place: "in IMAGE: byte 0: magic is 0x514649fc\n" },
    Refused { name: "version 7", changes: counted! { (0, 0x5146_49fb_0000_0007) }, fault: Fault::Version,
        place: "in IMAGE: byte 4: version is 7\n" },
    Refused { name: "clusters of 2^30 bytes", changes: counted! { (16, 30) }, fault: Fault::ClusterSize,
        place: "in IMAGE: byte 20: cluster_bits is 30\n" },
    Refused { name: "a header of 103 bytes", changes: counted! { (96, 0x0000_0004_0000_0067) },
        fault: Fault::HeaderShort,
        place: "in IMAGE: byte 100: header_length is 103\n" },
    Refused { name: "a header of a byte more than its cluster",
        changes: counted! { (96, 0x0000_0004_0000_0201) }, fault: Fault::HeaderBig,
        place: "in IMAGE: byte 100: header_length is 513\nin IMAGE: byte 20: cluster_bits is 9\n" },
    Refused { name: "an L1 table within a cluster", changes: counted! { (40, 0x10_0001) },
        fault: Fault::L1Unaligned,
        place: "in IMAGE: byte 40: l1_table_offset is 0x100001\nin IMAGE: byte 20: cluster_bits is 9\n" },
    Refused { name: "a refcount table within a cluster", changes: counted! { (48, 0x700) },
        fault: Fault::ReftableUnaligned,
        place: "in IMAGE: byte 48: refcount_table_offset is 0x700\nin IMAGE: byte 20: cluster_bits is 9\n" },
    Refused { name: "counters of 128 bits", changes: counted! { (96, 0x0000_0007_0000_0068) },
        fault: Fault::RefcountWidth,
        place: "in IMAGE: byte 96: refcount_order is 7\n" },
    Refused { name: "a backing name of 1024 bytes",
        changes: counted! { (8, 8), (16, 0x0000_0400_0000_0009) }, fault: Fault::BackingNameLong,
        place: "in IMAGE: byte 16: backing_file_size is 1024\n" },
    Refused { name: "a backing name after the first cluster",
        changes: counted! { (8, 0x200), (16, 0x0000_0001_0000_0009) }, fault: Fault::BackingNamePlace,
        place: "in IMAGE: byte 8: backing_file_offset is 0x200\n\
            in IMAGE: byte 16: backing_file_size is 1\nin IMAGE: byte 20: cluster_bits is 9\n" },
    // the name is the byte fb of the magic
    Refused { name: "a backing name that is no text",
        changes: counted! { (8, 3), (16, 0x0000_0001_0000_0009) }, fault: Fault::BackingNameText,
        place: "in IMAGE: byte 8: backing_file_offset is 0x3\nin IMAGE: byte 16: backing_file_size is 1\n" },
    Refused { name: "entries of 16 bytes", changes: counted! { (72, 0x10) },
        fault: Fault::Incompatible(0x10),
        place: "in IMAGE: byte 72: incompatible_features is 0x10\n" },
    Refused { name: "a feature that nobody knows", changes: counted! { (72, 1 << 63) },
        fault: Fault::Incompatible(1 << 63),
        place: "in IMAGE: byte 72: incompatible_features is 0x8000000000000000\n" },
};

// Refused header extensions.
const EXTENSIONS: &[Refused] = rows! {
    Refused { name: "an extension of 401 bytes", changes: counted! { (104, 0x0000_0007_0000_0191) },
        fault: Fault::ExtensionsExceed,
        place: "in IMAGE: byte 104: extension 0x7 of 401 bytes\n" },
    // the first one ends 16 bytes before the first cluster does: eight are left for the data of the second
    Refused { name: "a second extension that is too long",
        changes: counted! { (104, 0x0000_0007_0000_0180), (496, 0x0000_0009_0000_0009) },
        fault: Fault::ExtensionsExceed,
        place: "in IMAGE: byte 496: extension 0x9 of 9 bytes\n" },
    Refused { name: "a backing format that is no text",
        changes: counted! { (104, 0xe279_2aca_0000_0001), (112, 0xff << 56) }, fault: Fault::ExtensionText,
        place: "in IMAGE: byte 104: extension 0xe2792aca of 1 bytes\n" },
    Refused { name: "a second data file's name that is no text",
        changes: counted! {
            (104, 0x4441_5441_0000_0001), (112, 0x61 << 56), (120, 0x4441_5441_0000_0001),
            (128, 0xff << 56)
        }, fault: Fault::ExtensionText,
        place: "in IMAGE: byte 120: extension 0x44415441 of 1 bytes\n" },
    Refused { name: "a feature name without its bit", changes: counted! { (104, 0x6803_f857_0000_0001) },
        fault: Fault::FeatureNameCut,
        place: "in IMAGE: byte 104: extension 0x6803f857 of 1 bytes\n" },
    Refused { name: "two backing formats",
        changes: counted! {
            (104, 0xe279_2aca_0000_0001), (112, 0x61 << 56), (120, 0xe279_2aca_0000_0002),
            (128, 0x6261 << 48)
        }, fault: Fault::FormatConflict,
        place: "in IMAGE: byte 104: extension 0xe2792aca of 1 bytes\n\
            in IMAGE: byte 120: extension 0xe2792aca of 2 bytes\n" },
    Refused { name: "two data files",
        changes: counted! {
            (104, 0x4441_5441_0000_0001), (112, 0x61 << 56), (120, 0x4441_5441_0000_0002),
            (128, 0x6261 << 48)
        }, fault: Fault::DataFileConflict,
        place: "in IMAGE: byte 104: extension 0x44415441 of 1 bytes\n\
            in IMAGE: byte 120: extension 0x44415441 of 2 bytes\n" },
};

// Parts that refer to clusters, which a check doesn't read.
const UNCOUNTED: &[Refused] = rows! {
    Refused { name: "snapshots", changes: counted! { (60, 1 << 32) }, fault: SNAPSHOTS,
        place: "in IMAGE: byte 60: nb_snapshots is 1\n" },
    Refused { name: "snapshots before a bad L1 entry",
        changes: counted! { (60, 3 << 32), (TABLE_ENTRY, 1) }, fault: SNAPSHOTS,
        place: "in IMAGE: byte 60: nb_snapshots is 3\n" },
    Refused { name: "bitmaps", changes: counted! { AUTOCLEAR, (104, 0x2385_2875_0000_0000) }, fault: BITMAPS,
        place: "in IMAGE: byte 104: extension 0x23852875 of 0 bytes\n" },
    Refused { name: "an encryption header",
        changes: counted! { (104, 0x0537_be77_0000_0000) }, fault: LOST_KEYS,
        place: "in IMAGE: byte 104: extension 0x537be77 of 0 bytes\n" },
    Refused { name: "an encryption header after an unknown extension",
        changes: counted! { (104, 7 << 32), (112, 0x0537_be77_0000_0000) }, fault: LOST_KEYS,
        place: "in IMAGE: byte 112: extension 0x537be77 of 0 bytes\n" },
    Refused { name: "LUKS with its header",
        changes: counted! { (32, 0x0000_0002_0000_0001), (104, 0x0537_be77_0000_0000) }, fault: LOST_KEYS,
        place: "in IMAGE: byte 104: extension 0x537be77 of 0 bytes\n" },
    // places that an encryption header can't have
    Refused { name: "LUKS with its header within a cluster",
        changes: counted! { LUKS, KEYS, (112, 0xc01), KEYS_LENGTH }, fault: LOST_KEYS,
        place: "in IMAGE: byte 104: extension 0x537be77 of 16 bytes\n" },
    Refused { name: "LUKS with a header of 32 MiB and a byte",
        changes: counted! { LUKS, KEYS, KEYS_OFFSET, (120, 0x0200_0001) }, fault: LOST_KEYS,
        place: "in IMAGE: byte 104: extension 0x537be77 of 16 bytes\n" },
    Refused { name: "LUKS with a header that ends past the end",
        changes: counted! { LUKS, KEYS, (112, LAST), KEYS_LENGTH }, fault: LOST_KEYS,
        place: "in IMAGE: byte 104: extension 0x537be77 of 16 bytes\n" },
    Refused { name: "LUKS with a header at the greatest offset",
        changes: counted! { LUKS, KEYS, (112, 0xffff_ffff_ffff_fe00), KEYS_LENGTH }, fault: LOST_KEYS,
        place: "in IMAGE: byte 104: extension 0x537be77 of 16 bytes\n" },
    Refused { name: "LUKS with an extension of 15 bytes",
        changes: counted! { LUKS, (104, 0x0537_be77_0000_000f), KEYS_OFFSET, KEYS_LENGTH }, fault: LOST_KEYS,
        place: "in IMAGE: byte 104: extension 0x537be77 of 15 bytes\n" },
    Refused { name: "LUKS with an extension of 17 bytes",
        changes: counted! { LUKS, (104, 0x0537_be77_0000_0011), KEYS_OFFSET, KEYS_LENGTH }, fault: LOST_KEYS,
        place: "in IMAGE: byte 104: extension 0x537be77 of 17 bytes\n" },
    Refused { name: "LUKS with two headers",
        changes: counted! {
            LUKS, KEYS, KEYS_OFFSET, KEYS_LENGTH, (128, 0x0537_be77_0000_0010), (136, 0xc00), (144, 0x201)
        }, fault: LOST_KEYS,
        place: "in IMAGE: byte 104: extension 0x537be77 of 16 bytes\n\
            in IMAGE: byte 128: extension 0x537be77 of 16 bytes\n" },
    Refused { name: "an encryption header without LUKS",
        changes: counted! { (32, 0x0000_0001_0000_0001), KEYS, KEYS_OFFSET, KEYS_LENGTH }, fault: LOST_KEYS,
        place: "in IMAGE: byte 104: extension 0x537be77 of 16 bytes\n" },
    // kinds of encryption that may keep keys in clusters, without an extension with their place
    Refused { name: "LUKS", changes: counted! { (32, 0x0000_0002_0000_0001) }, fault: LOST_KEYS,
        place: "in IMAGE: byte 32: crypt_method is 2\n" },
    Refused { name: "LUKS in version 2, whose extensions aren't read",
        changes: counted! { (0, VERSION_2), (32, 0x0000_0002_0000_0001), (72, 0x0537_be77_0000_0010) },
        fault: LOST_KEYS,
        place: "in IMAGE: byte 32: crypt_method is 2\n" },
    Refused { name: "an unknown kind of encryption", changes: counted! { (32, 0xffff_ffff_0000_0001) },
        fault: LOST_KEYS,
        place: "in IMAGE: byte 32: crypt_method is 4294967295\n" },
};

// Refused tables and entries.
const TABLES: &[Refused] = rows! {
    Refused { name: "an L1 table of one entry too many", changes: counted! { (32, 0x40_0001) },
        fault: Fault::TableTooBig,
        place: "in IMAGE: byte 36: l1_size is 4194305\nin IMAGE: byte 40: l1_table_offset is 0x200\n" },
    Refused { name: "an L1 table of the most entries", changes: counted! { (32, 0xffff_ffff) },
        fault: Fault::TableTooBig,
        place: "in IMAGE: byte 36: l1_size is 4294967295\nin IMAGE: byte 40: l1_table_offset is 0x200\n" },
    Refused { name: "an L1 table past the end", changes: counted! { (40, 1 << 56) },
        fault: Fault::TablePlace,
        place: "in IMAGE: byte 36: l1_size is 1\nin IMAGE: byte 40: l1_table_offset is 0x100000000000000\n" },
    Refused { name: "an L1 table that ends past the end", changes: counted! { (32, 65), (40, LAST) },
        fault: Fault::TablePlace,
        place: "in IMAGE: byte 36: l1_size is 65\nin IMAGE: byte 40: l1_table_offset is 0xfffffffffffe00\n" },
    Refused { name: "an L1 entry", changes: counted! { (TABLE_ENTRY, COPIED + 0x401) },
        fault: Fault::EntryReserved,
        place: "in IMAGE: L1 entry 0, bytes at 0x200: 8000000000000401\n" },
    Refused { name: "an L1 entry before the refcount table",
        changes: counted! { (TABLE_ENTRY, 1), (48, 1 << 56) }, fault: Fault::EntryReserved,
        place: "in IMAGE: L1 entry 0, bytes at 0x200: 0000000000000001\n" },
    Refused { name: "an L1 entry before a refcount table entry",
        changes: counted! { (TABLE_ENTRY, 1), (REFTABLE, 1) }, fault: Fault::EntryReserved,
        place: "in IMAGE: L1 entry 0, bytes at 0x200: 0000000000000001\n" },
    Refused { name: "an L1 entry before the place of a block",
        changes: counted! { LARGER, TWO_TABLES, (NEXT_TABLE, 1), (REFTABLE + 8, 1 << 56) },
        fault: Fault::EntryReserved,
        place: "in IMAGE: L1 entry 1, bytes at 0x208: 0000000000000001\n" },
    // clusters of 1024 bytes, an L1 table in the second one, and no refcount table
    Refused { name: "an L1 entry within a cluster",
        changes: &[(16, 10), (40, 0x400), (0x400, COPIED + 0x600)], fault: Fault::EntryUnaligned,
        place: "in IMAGE: L1 entry 0, bytes at 0x400: 8000000000000600\n" },
    Refused { name: "a refcount table past the end", changes: counted! { (48, 1 << 56) },
        fault: Fault::TablePlace,
        place: "in IMAGE: byte 56: refcount_table_clusters is 1\n\
            in IMAGE: byte 48: refcount_table_offset is 0x100000000000000\n" },
    Refused { name: "a refcount table of too many entries", changes: counted! { (56, 0xffff_ffff << 32) },
        fault: Fault::TableTooBig,
        place: "in IMAGE: byte 56: refcount_table_clusters is 4294967295\n\
            in IMAGE: byte 48: refcount_table_offset is 0x600\n" },
    Refused { name: "a refcount table entry", changes: counted! { (REFTABLE + 8, 0x801) },
        fault: Fault::EntryReserved,
        place: "in IMAGE: refcount table entry 1, bytes at 0x608: 0000000000000801\n" },
    Refused { name: "the last refcount table entry", changes: counted! { (REFTABLE + 504, 256) },
        fault: Fault::EntryReserved,
        place: "in IMAGE: refcount table entry 63, bytes at 0x7f8: 0000000000000100\n" },
    Refused { name: "a block past the end", changes: counted! { (REFTABLE + 8, 1 << 56) },
        fault: Fault::TablePlace,
        place: "in IMAGE: refcount table entry 1, bytes at 0x608: 0100000000000000\n" },
    Refused { name: "the block past the end", changes: counted! { (REFTABLE, 0xffff_ffff_ffff_fe00) },
        fault: Fault::TablePlace,
        place: "in IMAGE: refcount table entry 0, bytes at 0x600: fffffffffffffe00\n" },
    Refused { name: "a block past the end before an L2 entry",
        changes: counted! { (REFTABLE + 504, 1 << 56), (DATA_ENTRY, 2) }, fault: Fault::TablePlace,
        place: "in IMAGE: refcount table entry 63, bytes at 0x7f8: 0100000000000000\n" },
    Refused { name: "an L2 entry", changes: counted! { (L2_TABLE + 8, 2) }, fault: Fault::EntryReserved,
        place: "in IMAGE: guest offset 0x200, L2 entry at 0x408: 0000000000000002\n" },
    Refused { name: "the last L2 entry", changes: counted! { (LAST_ENTRY, 2) }, fault: Fault::EntryReserved,
        place: "in IMAGE: guest offset 0x7e00, L2 entry at 0x5f8: 0000000000000002\n" },
    Refused { name: "an entry of the second L2 table after a leaked cluster",
        changes: counted! { LARGER, TWO_TABLES, (NEXT_TABLE, 0xc00), (0xc00, 2), (COUNTERS_8, 1) },
        fault: Fault::EntryReserved,
        place: "in IMAGE: guest offset 0x8000, L2 entry at 0xc00: 0000000000000002\n" },
    Refused { name: "compressed data of the second L2 table with the flag",
        changes: counted! { LARGER, TWO_TABLES, (NEXT_TABLE, 0xc00), (0xc10, COPIED + COMPRESSED) },
        fault: Fault::EntryReserved,
        place: "in IMAGE: guest offset 0x8400, L2 entry at 0xc10: c000000000000000\n" },
};

/// Refused headers.
pub(super) fn headers() -> &'static [Refused] {
    HEADERS
}

/// Refused header extensions.
pub(super) fn extensions() -> &'static [Refused] {
    EXTENSIONS
}

/// Parts that refer to clusters, which a check doesn't read.
pub(super) fn uncounted() -> &'static [Refused] {
    UNCOUNTED
}

/// Refused tables and entries.
pub(super) fn tables() -> &'static [Refused] {
    TABLES
}
