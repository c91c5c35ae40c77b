//! Fields and entries of an image, read plainly from its bytes: to draw arguments, and to know which
//! promises hold.

use crate::numbers::{u32_at, u64_at};
use qcow2_base::Fault;
use std::alloc::Global;

/// Bit 63 of an entry.
pub(crate) const COPIED: u64 = 1 << 63;

/// The bits of an entry's offset.
pub(crate) const OFFSET: u64 = (1 << 56) - (1 << 9);

/// The largest number of L1 entries read.
const MOST_ENTRIES: u64 = 1 << 12;

/// The fields of a header. Invalid cluster bits count as 9.
#[derive(Clone, Copy)]
pub(crate) struct Fields {
    pub(crate) version: u64,
    pub(crate) cluster_bits: u32,
    pub(crate) size: u64,
    pub(crate) l1_entries: u64,
    pub(crate) l1_offset: u64,
    pub(crate) reftable_offset: u64,
    pub(crate) refcount_order: u32,
    pub(crate) has_autoclear: bool,
    pub(crate) is_external: bool,
    pub(crate) is_dirty: bool,
    pub(crate) is_corrupt: bool,
    /// Whether the compression type is 1 exactly if the features have bit 3, and else 0.
    pub(crate) agrees_on_compression: bool,
    /// The number of clusters in the file, the last of which may be partial.
    pub(crate) clusters: u64,
}

impl Fields {
    /// Reads the fields of an image.
    pub(crate) fn of(bytes: &[u8]) -> Fields {
        let version = u32_at(bytes, 4);
        let is_third = version == 3;
        let cluster_bits = match u32_at(bytes, 20) {
            bits @ 9..=21 => bits as u32,
            _ => 9,
        };
        let refcount_order = match u32_at(bytes, 96) {
            order @ 0..=6 if is_third => order as u32,
            _ => 4,
        };
        Fields {
            version,
            cluster_bits,
            size: u64_at(bytes, 24),
            l1_entries: u32_at(bytes, 36),
            l1_offset: u64_at(bytes, 40),
            reftable_offset: u64_at(bytes, 48),
            refcount_order,
            has_autoclear: is_third && u64_at(bytes, 88) != 0,
            is_external: is_third && u64_at(bytes, 72) & 4 != 0,
            is_dirty: is_third && u64_at(bytes, 72) & 1 != 0,
            is_corrupt: is_third && u64_at(bytes, 72) & 2 != 0,
            agrees_on_compression: !is_third
                || compression_type(bytes) == u64_at(bytes, 72) >> 3 & 1,
            clusters: (bytes.len() as u64).div_ceil(1 << cluster_bits.min(21)),
        }
    }

    /// Whether the image is marked dirty or corrupt.
    pub(crate) fn is_marked(&self) -> bool {
        self.is_dirty || self.is_corrupt
    }

    /// The size of a cluster in bytes.
    pub(crate) fn cluster_size(&self) -> u64 {
        1 << self.cluster_bits.min(21)
    }

    /// The cluster of an offset.
    pub(crate) fn cluster_of(&self, offset: u64) -> u64 {
        offset >> self.cluster_bits.min(21)
    }

    /// The distance of an offset from the start of its cluster.
    pub(crate) fn within_cluster(&self, offset: u64) -> u64 {
        offset % self.cluster_size().max(1)
    }

    /// The number of entries in an L2 table.
    pub(crate) fn table_entries(&self) -> u64 {
        self.cluster_size() / 8
    }

    /// Whether the L1 table has fewer entries than the disk needs.
    pub(crate) fn is_l1_short(&self) -> bool {
        let guest_clusters = self.size.div_ceil(self.cluster_size().max(1));
        self.l1_entries < guest_clusters.div_ceil(self.table_entries().max(1))
    }

    /// The number of refcounts in a refcount block.
    pub(crate) fn block_entries(&self) -> u64 {
        self.cluster_size().saturating_mul(8) >> self.refcount_order.min(6)
    }

    /// The guest offset that an entry of an L2 table maps.
    pub(crate) fn guest_offset(&self, l1_index: u64, index: u64) -> u64 {
        l1_index
            .wrapping_mul(self.table_entries())
            .wrapping_add(index)
            .wrapping_mul(self.cluster_size())
    }

    /// The offset of the L2 table that an L1 entry names, or 0 if it names none.
    pub(crate) fn l2_offset(&self, bytes: &[u8], l1_index: u64) -> u64 {
        if l1_index >= self.l1_entries {
            return 0;
        }
        u64_at(bytes, self.l1_offset.wrapping_add(l1_index.wrapping_mul(8))) & OFFSET
    }

    /// The indices of L1 entries that name an L2 table, among the first 4096.
    pub(crate) fn named_tables(&self, alloc: Global, bytes: &[u8]) -> Result<Vec<u64>, Fault> {
        let mut indices = Vec::new(alloc);
        for l1_index in 0..self.l1_entries.min(MOST_ENTRIES) {
            if self.l2_offset(bytes, l1_index) != 0 {
                indices.push(l1_index)?;
            }
        }
        Ok(indices)
    }

    /// Whether no two L1 entries name one L2 table. False if there are more than 4096 entries.
    pub(crate) fn has_distinct_tables(&self, alloc: Global, bytes: &[u8]) -> Result<bool, Fault> {
        if self.l1_entries > MOST_ENTRIES {
            return Ok(false);
        }
        let mut offsets = Vec::new(alloc);
        for l1_index in self.named_tables(alloc, bytes)? {
            offsets.push(self.l2_offset(bytes, l1_index))?;
        }
        offsets.sort()?;
        Ok(
            offsets
                .as_slice()
                .windows(2)
                .all(|pair| pair.first() != pair.last()),
        )
    }

    /// Whether the L2 table at an offset overlaps neither the header's cluster nor the L1 table.
    pub(crate) fn lies_apart(&self, l2_offset: u64) -> bool {
        let l1_end = self
            .l1_offset
            .saturating_add(self.l1_entries.saturating_mul(8));
        l2_offset >= self.cluster_size()
            && (l2_offset >= l1_end
                || l2_offset.saturating_add(self.cluster_size()) <= self.l1_offset)
    }
}

// The compression type of a header of version 3: zlib where the header ends before it.
fn compression_type(bytes: &[u8]) -> u64 {
    if u32_at(bytes, 100) > 104 {
        u64_at(bytes, 104) >> 56
    } else {
        0
    }
}
