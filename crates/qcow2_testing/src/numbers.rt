//! Numbers that images consist of.

/// Numbers of eight bytes, and their places in an image.
pub type Numbers<'a> = &'a [(u64, u64)];

/// The magic number and version 2, which an image begins with.
pub const VERSION_2: u64 = 0x5146_49fb_0000_0002;

/// The magic number and version 3.
pub const VERSION_3: u64 = 0x5146_49fb_0000_0003;

/// The copied flag of an entry: its cluster has one reference.
pub const COPIED: u64 = 1 << 63;

/// The bit of an L2 entry for compressed data.
pub const COMPRESSED: u64 = 1 << 62;
