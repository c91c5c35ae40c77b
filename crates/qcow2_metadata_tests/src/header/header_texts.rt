//! Headers, and the bytes that their writes place, as changes of the minimal header.

use super::fixtures::Changes;
use super::rich_header::RICH;
use qcow2_testing::rows;

/// A backing file's name: a text, and its number of repetitions.
pub(crate) type Repeated = (&'static str, usize);

/// A new header with a backing file, and the bytes that its write places: the names of features, if they fit,
/// and all other differences from the minimal header.
#[derive(Clone, Copy)]
pub(crate) struct NewHeader {
    pub(crate) name: &'static str,
    pub(crate) cluster_bits: u32,
    pub(crate) backing: Repeated,
    pub(crate) features: Changes,
    pub(crate) placed: Changes,
}

pub(crate) const NEW: &[NewHeader] = rows! { NewHeader:
    { name: "a name of 8 bytes just fits besides the names of features", cluster_bits: 9,
        backing: ("base.img", 1), features: KNOWN,
        placed: "backing_file_offset=504, backing_file_size=8, 504=:base.img" },
    { name: "one of 9 doesn't", cluster_bits: 9, backing: ("backing.1", 1), features: "",
        placed: "backing_file_offset=112, backing_file_size=9, 112=:backing.1" },
    { name: "the longest name in clusters of 512 bytes", cluster_bits: 9, backing: ("a", 400), features: "",
        placed: "backing_file_offset=112, backing_file_size=400, 112=61*400" },
    { name: "the longest of all", cluster_bits: 16, backing: ("a", 1023), features: KNOWN, placed: LONGEST },
    { name: "an empty name has a place too", cluster_bits: 9, backing: ("", 1), features: KNOWN,
        placed: "backing_file_offset=504, 503=00" },
};

const LONGEST: Changes =
    "backing_file_offset=504, backing_file_size=1023, cluster_bits=16, 504=61*1023";

/// The names of features in new headers.
pub(crate) const KNOWN: Changes = "104=6803f857 00000180, 112=0000:dirty, 160=0001:corrupt, \
    208=0002:external data file, 256=0003:extended compression type, 304=0004:extended L2 entries, \
    352=0100:lazy refcounts, 400=0200:persistent dirty bitmaps, 448=0201:raw external data file";

/// The bytes that a write places of a new header with clusters of 65536 bytes, the backing file base.img of
/// the format qcow2, and the data file data.raw.
pub(crate) const THREE_NAMES: Changes =
    "backing_file_offset=536, backing_file_size=8, cluster_bits=16, \
    incompatible_features=4, 496=format 05:qcow2, 512=data 08:data.raw, 536=:base.img";

/// The written bytes of the header with everything that a header can have: names of features in whole chunks,
/// and the backing file's name after End.
pub(crate) const RICH_WRITTEN: Changes = "backing_file_offset=304, backing_file_size=6, \
    size=0x102030405060708, crypt_method=0x11121314, l1_size=0x21222324, \
    l1_table_offset=0x3132333435363a00, refcount_table_offset=0x4142434445464800, \
    refcount_table_clusters=0x51525354, nb_snapshots=0x61626364, snapshots_offset=0x7172737475767778, \
    incompatible_features=4, compatible_features=0x8182838485868788, \
    autoclear_features=0x9192939495969798, refcount_order=5, header_length=112, 104=a1a2a3a4a5a6a7a8, \
    112=format 05:qcow2, 128=names 60 0000:new, 184=0100:lazy, 232=data 08:dät.raw, \
    248=0000000700000003:xyz, 264=format 05:qcow2, 280=data 08:dät.raw, 304=:ä.img";

/// The written bytes of a header of version 2, 85 in number.
pub(crate) const OLDER_WRITTEN: Changes = "version=2, backing_file_offset=80, backing_file_size=5, \
    cluster_bits=16, 80=:a.img";

/// A header that is loaded and written: the changes of the minimal header before and after, and then its name
/// of the first incompatible feature.
#[derive(Clone, Copy)]
pub(crate) struct Loaded {
    pub(crate) name: &'static str,
    pub(crate) loaded: Changes,
    pub(crate) written: Changes,
    pub(crate) called: Option<&'static str>,
}

pub(crate) const LOADED: &[Loaded] = rows! { Loaded:
    { name: "an empty name has a place", loaded: "backing_file_offset=512",
        written: "backing_file_offset=112, 111=00", called: None },
    { name: "no name has none", loaded: "backing_file_size=0xffffffff", written: "111=00", called: None },
    { name: "a name that lay within the magic", loaded: "backing_file_offset=1, backing_file_size=2",
        written: "backing_file_offset=112, backing_file_size=2, 112=:FI", called: None },
    { name: "an unknown field and its padding", loaded: "header_length=105, 104=ab",
        written: "header_length=112, 104=ab, 119=00", called: None },
    { name: "unknown fields without padding", loaded: "header_length=112",
        written: "header_length=112, 119=00", called: None },
    { name: "unknown fields up to End", loaded: "header_length=504, 104=ab",
        written: "header_length=504, 104=ab, 511=00", called: None },
    { name: "an empty name that ends with the cluster", loaded: "backing_file_offset=512, header_length=504",
        written: "backing_file_offset=512, header_length=504, 511=00", called: None },
    { name: "one in version 2", loaded: OLDER_FULL, written: OLDER_FULL, called: None },
    { name: "one after an empty table of names of features", loaded: EMPTY_TABLE, written: EMPTY_TABLE,
        called: None },
    { name: "the table goes where the name takes its last byte", loaded: EMPTY_TABLE_MORE,
        written: "backing_file_offset=112, backing_file_size=393, 112=61*393", called: None },
    { name: "all that a header can have", loaded: RICH, written: RICH_WRITTEN, called: Some("new") },
    { name: "End loses its data", loaded: "110=0190", written: "111=00", called: None },
    { name: "fifty empty extensions", loaded: "104=0000000700000000*50",
        written: "104=0000000700000000*50, 511=00", called: None },
    { name: "an unknown field, and an extension of 2 bytes",
        loaded: "header_length=105, 104=ab, 108=0700000002a1",
        written: "header_length=112, 104=ab, 115=0700000002a1, 135=00", called: None },
    { name: "one of 5 bytes at an odd place", loaded: "header_length=105, 108=0700000005:abcde",
        written: "header_length=112, 115=0700000005:abcde, 135=00", called: None },
    { name: "a header that fills a cluster of 2 MiB", loaded: "cluster_bits=21, header_length=0x1ffff8",
        written: "cluster_bits=21, header_length=0x1ffff8, 2097151=00", called: None },
    { name: "no names of features", loaded: "104=names 00", written: "104=names 00, 119=00", called: None },
    { name: "an empty one", loaded: "104=names 02", written: "104=names 30, 167=00", called: Some("") },
    { name: "many", loaded: MANY_NAMES, written: MANY_WRITTEN, called: Some("a") },
    { name: "two tables that just fit", loaded: TWO_TABLES, written: TWO_WRITTEN, called: Some("a") },
    { name: "two that don't fit, which both go", loaded: TWO_LONG_TABLES,
        written: "backing_file_offset=120, backing_file_size=281, 107=07, 400=00", called: None },
};

const OLDER_FULL: Changes = "version=2, backing_file_offset=80, backing_file_size=432, 80=61*432";

const EMPTY_TABLE: Changes =
    "104=names 00, backing_file_offset=120, backing_file_size=392, 120=61*392";

const EMPTY_TABLE_MORE: Changes =
    "104=names 00, backing_file_offset=119, backing_file_size=393, 119=61*393";

// Unordered names, one of them twice, one with an unknown type, and a truncated one.
const MANY_NAMES: Changes =
    "104=names c4 0201:c, 160=0009:old, 208=0300:none, 256=0009:b, 304=00006100";

const MANY_WRITTEN: Changes = "104=names 90 0000:a, 160=0009:b, 208=0201:c, 263=00";

const TWO_TABLES: Changes = "backing_file_offset=152, backing_file_size=280, 104=names 03 0000:a, \
    123=07, 128=names 03 0107:b";

const TWO_WRITTEN: Changes = "backing_file_offset=232, backing_file_size=280, 104=names 30 0000:a, \
    163=07, 168=names 30 0107:b, 511=00";

const TWO_LONG_TABLES: Changes =
    "backing_file_offset=152, backing_file_size=281, 104=names 03 0000:a, \
    123=07, 128=names 03 0107:b";

/// The number of `a` in a name, and of U+FFFD after them.
pub(crate) type Name = (usize, usize);

/// The bytes of a feature's name, the name once they are loaded, the bytes that are written then, and the
/// name after further loads. A feature name table has room for 46 bytes of a name.
#[derive(Clone, Copy, Debug)]
pub(crate) struct Cut {
    pub(crate) loaded: Changes,
    pub(crate) called: Name,
    pub(crate) written: Changes,
    pub(crate) called_then: Name,
}

/// Names that a write cuts.
pub(crate) const CUT: &[Cut] = rows! { Cut:
    // 138 bytes of text
    { loaded: "114=ff*46", called: (0, 46), written: "114=efbfbd*15 ef", called_then: (0, 16) },
    // 48, 47 and 46 bytes, of which 46 are written
    { loaded: "114=61*45 ff", called: (45, 1), written: "114=61*45 ef", called_then: (45, 1) },
    { loaded: "114=61*44 ff", called: (44, 1), written: "114=61*44 efbf", called_then: (44, 1) },
    { loaded: "114=61*43 ff", called: (43, 1), written: "114=61*43 efbfbd", called_then: (43, 1) },
    // a truncated character, and text of 46 bytes
    { loaded: "114=61*45 c3", called: (45, 1), written: "114=61*45 ef", called_then: (45, 1) },
    { loaded: "114=61*46", called: (46, 0), written: "114=61*46", called_then: (46, 0) },
    // bytes after a zero byte are dropped
    { loaded: "114=610062", called: (1, 0), written: "114=61", called_then: (1, 0) },
};
