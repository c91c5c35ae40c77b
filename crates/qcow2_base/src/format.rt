//! Limits and constants of the qcow2 format, each with its rule.

use crate::HostOffset;

/// The greatest end of a table, block or cluster, in bytes: offsets in tables have 56 bits.
pub const MAX_FILE_LENGTH: u64 = 1 << 56;

/// The greatest offset of a cluster: one of 512 bytes there ends at `MAX_FILE_LENGTH`.
pub const MAX_OFFSET: HostOffset = HostOffset(MAX_FILE_LENGTH - 512);

/// The first four bytes of an image: "QFI" and 0xfb.
pub const MAGIC: u32 = 0x514649fb;

/// The bit number of the incompatible feature "external data file": guest data lies in another file.
pub const EXTERNAL_DATA_FILE_BIT: u32 = 2;

/// The greatest length of the backing file's name, in bytes.
pub const MAX_BACKING_FILENAME: u32 = 1023;

/// The greatest number of entries of an L1 table: 32 MiB of them.
pub const MAX_L1_ENTRIES: usize = 4194304;

/// The greatest number of entries of a refcount table: 32 MiB of them.
pub const MAX_REFTABLE_ENTRIES: usize = 4194304;

/// The greatest number of snapshots of an image.
pub const MAX_SNAPSHOTS: u32 = 65536;
