//! A small image, and changes of it.

use crate::{COPIED, Numbers, VERSION_3, image_with, put_all, same_bytes};
use qcow2_base::{Fault, MemStorage};
use std::alloc::Global;
use std::test::Fail;

/// An image of three clusters with these changes, which may lengthen it: the header of a disk of 64
/// clusters, an L1 table of one entry, and the L2 table that it names. Guest cluster 3 is the data in host
/// cluster 5, and no other guest cluster has data. Both entries have the copied flag.
pub fn sample_image(
    alloc: Global,
    cluster_bits: u32,
    changes: Numbers<'_>,
) -> Result<MemStorage, Fault> {
    let size = 1u64.wrapping_shl(cluster_bits);
    let sample = [
        (0, VERSION_3),
        (16, cluster_bits as u64),
        (24, size << 6),
        (32, 1),
        (40, size),
        (96, 0x0000_0004_0000_0068),
        (size, COPIED | size << 1),
        (size << 1 | 24, COPIED | size << 2 | size),
    ];
    let mut image = image_with(alloc, (size << 1 | size) as usize, &sample)?;
    put_all(&mut image, changes)?;
    Ok(image)
}

/// Changes that give the sample image with clusters of 512 bytes the right refcounts, and then further
/// changes. The refcount table is cluster 3, and names one block, cluster 4. It has refcount 1 for clusters
/// 0 to 5, in 16 bits each. The image ends after cluster 9, whatever refers to clusters past its data.
#[macro_export]
macro_rules! counted {
    ($($change:expr),* $(,)?) => {
        &[
            (48, 0x600),
            (56, 1 << 32),
            (0x600, 0x800),
            (0x800, 0x0001_0001_0001_0001),
            (0x808, 0x0001_0001_0000_0000),
            (0x13f8, 0),
            $($change),*
        ]
    };
}

/// The offset of that image's L1 table.
pub const L1_TABLE: u64 = 512;

/// The offset of its L2 table.
pub const L2_TABLE: u64 = 1024;

/// The offset of its refcount table.
pub const REFTABLE: u64 = 1536;

/// The offset of its block.
pub const BLOCK: u64 = 2048;

/// The offset of its L1 entry.
pub const TABLE_ENTRY: u64 = L1_TABLE;

/// The offset of a second L1 entry, past the end of the L1 table.
pub const NEXT_TABLE: u64 = L1_TABLE + 8;

/// The offset of the L2 entry of its data, for guest offset 0x600.
pub const DATA_ENTRY: u64 = L2_TABLE + 24;

/// The offset of the entry after that.
pub const NEXT_ENTRY: u64 = L2_TABLE + 32;

/// The offset of the entry after both.
pub const THIRD_ENTRY: u64 = L2_TABLE + 40;

/// The offset of the last L2 entry.
pub const LAST_ENTRY: u64 = L2_TABLE + 504;

/// The offset of the refcounts of clusters 0 to 3.
pub const COUNTERS: u64 = BLOCK;

/// The offset of the refcounts of clusters 4 to 7.
pub const COUNTERS_4: u64 = BLOCK + 8;

/// The offset of the refcounts of clusters 8 to 11.
pub const COUNTERS_8: u64 = BLOCK + 16;

/// An L1 table of two entries.
pub const TWO_TABLES: (u64, u64) = (32, 2);

/// A disk that needs an L1 table of two entries.
pub const LARGER: (u64, u64) = (24, 65536);

/// An external data file.
pub const EXTERNAL: (u64, u64) = (72, 4);

/// An autoclear bit.
pub const AUTOCLEAR: (u64, u64) = (88, 1);

/// LUKS encryption.
pub const LUKS: (u64, u64) = (32, 0x0000_0002_0000_0001);

/// An extension with the place of the encryption header: its type, and the length of its data.
pub const KEYS: (u64, u64) = (104, 0x0537_be77_0000_0010);

/// Its offset there: cluster 6.
pub const KEYS_OFFSET: (u64, u64) = (112, 0xc00);

/// Its length: two clusters in part.
pub const KEYS_LENGTH: (u64, u64) = (120, 0x201);

/// The L1 entry without the copied flag.
pub const TABLE: (u64, u64) = (TABLE_ENTRY, L2_TABLE);

/// The entry of data without the copied flag.
pub const DATA: (u64, u64) = (DATA_ENTRY, 0xa00);

/// Refcount 1 for clusters 4 to 6.
pub const TO_6: (u64, u64) = (COUNTERS_4, 0x0001_0001_0001_0000);

/// Refcount 1 for clusters 4 to 7.
pub const TO_7: (u64, u64) = (COUNTERS_4, 0x0001_0001_0001_0001);

/// Refcount 2 for the L2 table.
pub const TABLE_TWICE: (u64, u64) = (COUNTERS, 0x0001_0001_0002_0001);

/// Refcount 0 for the data.
pub const NO_DATA: (u64, u64) = (COUNTERS_4, 0x0001_0000_0000_0000);

/// Refcount 2 for the data.
pub const TWICE: (u64, u64) = (COUNTERS_4, 0x0001_0002_0000_0000);

/// The greatest offset of a cluster of 512 bytes.
pub const LAST: u64 = (1 << 56) - 512;

/// The output of `info` for the sample image.
pub const INFO: &str = "version 3\ncluster-bits 9\nsize 32768\nrefcount-order 4\n\
    l1 0x200 1\nrefcount-table 0x0 0\nbacking none\nformat none\nexternal no\ndata-file none\n";

/// The output of `map` for it.
pub const EXTENTS: &str = "0x0 0x600 backing\n0x600 0x200 data 0xa00\n0x800 0x7800 backing\n";

/// The output of `map` in JSON for it.
pub const JSON: &str = "[{ \"start\": 0, \"length\": 1536, \"depth\": 0, \
    \"present\": false, \"zero\": true, \"data\": false},\n\
    { \"start\": 1536, \"length\": 512, \"depth\": 0, \
    \"present\": true, \"zero\": false, \"data\": true, \"offset\": 2560},\n\
    { \"start\": 2048, \"length\": 30720, \"depth\": 0, \
    \"present\": false, \"zero\": true, \"data\": false}]\n";

/// The output of `tables` for it with the right refcounts.
pub const TABLE_LINES: &str =
    "header 0 1\nl1 1 1\nl2 0 2 0x0 0x8000 1\nrefcount-table 3 1\nrefcount-block 0 4 0\n";

/// Fails unless these bytes are the sample image with these changes.
pub fn check_sample(
    alloc: Global,
    found: &[u8],
    (cluster_bits, changes): (u32, Numbers<'_>),
    row: &str,
) -> Result<(), Fail> {
    let image = sample_image(alloc, cluster_bits, changes)?;
    same_bytes(found, image.bytes(), row)
}
