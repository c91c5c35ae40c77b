//! Entries of L2 tables: the place of a guest cluster's data, or zeros.

ghost use Rattle.std.specs.Prelude.{◌≡◌, ℕ, ◌+◌, ◌*◌, ◌%◌, ◌^◌, ◌<◌, ◌≤◌, true, false, is_some, Some, None, option_map, IfSome, IfNone, IfOk, IsOkAnd};
ghost use Rattle.std.specs.Int.NonZero.{non_zero_u64_get};
ghost use Rattle.qcow2_base.specs.Format.{max_file_length};
ghost use Rattle.qcow2_base.specs.Types.{IsClusterBits};
ghost use Rattle.qcow2_base.specs.declared.types.HostCluster.{HostCluster as Cluster};
ghost use Rattle.qcow2_metadata.specs.Header.{geometry};

use super::{L2Mapping, TableEntry, copied_bit};
use crate::Header;
use qcow2_base::{
    ClusterCount, Fault, GuestCluster, HostCluster, HostOffset, MAX_FILE_LENGTH, field,
};
use std::marker::Model;
use std::num::NonZero;

/// An entry of an L2 table.
///
/// Standard (bit 62 is 0): bit 0 is the zero flag, bits 9 to 55 are the offset of a host cluster, bit 63 is
/// the copied flag. Bits 1 to 8 and 56 to 61 are reserved. Offset 0 means no cluster, except with the copied
/// flag in an external data file, where it is cluster 0.
///
/// Compressed (bit 62 is 1), with `x = 70 - cluster_bits`: bits 0 to x - 1 are the offset of the data, below
/// 2^56. Bits x to 61 are the number of sectors of 512 bytes after the first. Bit 63 is reserved.
#[derive(Clone, Copy, Debug, PartialEq, Eq)]
pub struct L2Entry {
    pub(super) value: u64,
}

impl Model for L2Entry {
    ghost use Rattle.std.specs.Prelude.{ℕ};

    ghost Value = { ℕ };

    ghost view = { λ entry. entry.value };

    ghost inverse = { λ number. record { value = number } };
}

impl L2Entry {
    ghost use Rattle.qcow2_metadata.specs.Entries.L2Entry.{IsAllocation, byte_range, compressed_length, compressed_offset, has_host_cluster, host_offset, is_compressed, is_zero, l2_fault, l2_reserved_bits, entry_in_copy, with_zero_flag};
    ghost use Rattle.qcow2_metadata.specs.Entries.L2Mapping.{IsPlaced, host_cluster, mapping, meaning};
    ghost use Rattle.qcow2_metadata.specs.Entries.{is_copied, with_copied};

    /// The entry 0: this image maps nothing.
    pub(crate) const UNALLOCATED: L2Entry = L2Entry { value: 0 };

    /// The entry 1: zeros without a host cluster.
    pub(crate) const ZERO: L2Entry = L2Entry { value: 1 };

    /// Returns the offset of the host cluster of a standard entry, or `None` without one.
    #[inline]
    pub fn cluster_offset(&self, external_data_file: bool) -> Option<HostOffset>
        requires { is_compressed self.now ≡ false }
        ensures { result ≡ host_offset external_data_file self.now }
    {
        let offset = field(self.value, 9, 47) * 512;
        (offset != 0 || external_data_file && self.is_copied()).then_some(HostOffset(offset))
    }

    /// Whether the entry is compressed: bit 62.
    #[inline]
    pub fn is_compressed(&self) -> bool
        ensures { result ≡ is_compressed self.now }
    {
        field(self.value, 62, 1) == 1
    }

    /// Returns bit 63, the copied flag of a standard entry: the refcount of its cluster is exactly one.
    #[inline]
    pub fn is_copied(&self) -> bool
        ensures { result ≡ is_copied self.now }
    {
        field(self.value, 63, 1) == 1
    }

    /// Returns the entry with bit 63 clear. A standard entry then no longer says that its cluster has exactly
    /// one reference; a valid compressed one stays the same.
    #[inline]
    #[must_use]
    #[tactic(auto, using(crate::proofs::CopiedLemmas::lawful_without_copied))]
    pub fn without_copied(self) -> L2Entry
        ensures number { result ≡ self % 2 ^ 63 }
        ensures lawful { (cluster_bits : ℕ) →
            l2_fault cluster_bits self ≡ None → l2_fault cluster_bits result ≡ None }
    {
        L2Entry {
            value: field(self.value, 0, 63),
        }
    }

    /// Returns the entry with bit 63 set or clear, and all else the same. It must not be set in a compressed
    /// entry.
    #[inline]
    #[must_use]
    #[tactic(auto, using(crate::proofs::CopiedLemmas::flags))]
    pub fn with_copied(self, is_copied: bool) -> L2Entry
        requires standard { is_copied ≡ true → is_compressed self ≡ false }
        ensures number { result ≡ with_copied is_copied self }
        ensures lawful { (cluster_bits : ℕ) →
            l2_fault cluster_bits self ≡ None → l2_fault cluster_bits result ≡ None }
    {
        L2Entry {
            value: self.without_copied().value + copied_bit(is_copied),
        }
    }

    // Returns the entry for a second table that has it too, whose clusters then have two references. Clears
    // the copied flag, unless it alone says that offset 0 is cluster 0 of an external data file.
    #[inline]
    pub(crate) fn shared(self, external_data_file: bool) -> L2Entry
        ensures number { result ≡ entry_in_copy external_data_file self }
        ensures lawful { (cluster_bits : ℕ) →
            l2_fault cluster_bits self ≡ None → l2_fault cluster_bits result ≡ None }
    {
        if external_data_file && !self.is_compressed() && self.cluster_offset(false).is_none() {
            return self;
        }
        self.without_copied()
    }

    /// Returns bit 0, the zero flag of a standard entry: the guest cluster reads as zeros.
    #[inline]
    pub fn is_zero(&self) -> bool
        ensures { result ≡ is_zero self.now }
    {
        field(self.value, 0, 1) == 1
    }

    #[inline]
    pub(crate) fn has_host_cluster(&self, external_data_file: bool) -> bool
        ensures { (cluster_bits : ℕ) →
            result ≡ has_host_cluster (geometry cluster_bits external_data_file) self.now }
    {
        !self.is_compressed() && self.cluster_offset(external_data_file).is_some()
    }

    // Returns the entry with the zero flag set: the guest cluster reads as zeros, and keeps its host cluster.
    #[inline]
    pub(crate) fn with_zero_flag(self) -> L2Entry
        ensures { result ≡ with_zero_flag self }
    {
        L2Entry {
            value: self.value - self.value % 2 + 1,
        }
    }

    /// Returns the bits that are set and reserved in an entry of this kind, in their positions.
    #[inline]
    pub fn reserved_bits(&self) -> u64
        ensures { result ≡ l2_reserved_bits self.now }
    {
        if self.is_compressed() {
            field(self.value, 63, 1) << 63
        } else {
            (field(self.value, 1, 8) << 1) + (field(self.value, 56, 6) << 56)
        }
    }

    /// Returns bits 0 to 61, which are the offset and number of sectors of a compressed entry.
    #[inline]
    pub fn compressed_descriptor(&self) -> u64
        ensures { result ≡ self.now % 2 ^ 62 }
    {
        field(self.value, 0, 62)
    }

    /// Returns the offset of a compressed entry's data, and the number of bytes from there to the end of its
    /// last sector, or `None` for a standard entry.
    #[tactic(auto, using(crate::proofs::EntriesLemmas::sectors_fill_two_clusters))]
    pub fn compressed_range(&self, cluster_bits: u32) -> Option<(HostOffset, NonZero<u64>)>
        requires { IsClusterBits cluster_bits }
        ensures compressed { is_some result ≡ is_compressed self.now }
        ensures offset { IfSome result (λ range. range.0.0 ≡ compressed_offset cluster_bits self.now) }
        ensures length { IfSome result (λ range.
            non_zero_u64_get range.1 ≡ compressed_length cluster_bits self.now) }
        ensures bound { IfSome result (λ range. non_zero_u64_get range.1 ≤ 2 * 2 ^ cluster_bits) }
    {
        if !self.is_compressed() {
            return None;
        }
        let offset_bits = 70 - cluster_bits;
        let offset = field(self.value, 0, offset_bits) % MAX_FILE_LENGTH;
        let sectors = field(self.value, offset_bits, cluster_bits - 8) + 1;
        let length = NonZero::<u64>::new(sectors * 512 - offset % 512)?;
        Some((HostOffset(offset), length))
    }

    /// Returns the first host cluster that the entry refers to and their number: one for a standard entry
    /// with a cluster, up to three for a compressed one.
    pub fn allocation(
        &self,
        cluster_bits: u32,
        external_data_file: bool,
    ) -> Option<(HostCluster, ClusterCount)>
        requires { IsClusterBits cluster_bits }
        ensures { IsAllocation (geometry cluster_bits external_data_file) self.now
            (option_map (λ pair. record { first = pair.0; count = pair.1 }) result) }
    {
        let (start, length) = self.byte_range(cluster_bits, external_data_file)?;
        let first = start.cluster(cluster_bits);
        let last = HostOffset(start.0 + (length - 1)).cluster(cluster_bits);
        Some((first, ClusterCount(last.0 - first.0 + 1)))
    }

    fn byte_range(&self, cluster_bits: u32, external_data_file: bool) -> Option<(HostOffset, u64)>
        requires { IsClusterBits cluster_bits }
        ensures none { IfNone result (byte_range (geometry cluster_bits external_data_file) self.now ≡ None) }
        ensures some { IfSome result (λ range. byte_range (geometry cluster_bits external_data_file) self.now
            ≡ Some (record { start = range.0.0; end = range.0.0 + range.1 })) }
        ensures length { IfSome result (λ range. (1 ≤ range.1) × (range.1 ≤ 2 * 2 ^ cluster_bits)) }
        ensures start { IfSome result (λ range. range.0.0 < max_file_length) }
    {
        if let Some((offset, length)) = self.compressed_range(cluster_bits) {
            return Some((offset, length.get()));
        }
        let offset = self.cluster_offset(external_data_file)?;
        Some((offset, 1 << cluster_bits))
    }

    #[inline]
    #[tactic(auto, using(crate::proofs::EntriesLemmas::cluster_begins_below))]
    fn host_cluster(&self, cluster_bits: u32, external_data_file: bool) -> Option<HostCluster>
        requires cluster_bits { IsClusterBits cluster_bits }
        requires standard { is_compressed self.now ≡ false }
        ensures value { option_map (λ (c : Cluster). c.0) result
            ≡ host_cluster (geometry cluster_bits external_data_file) self.now }
        ensures placed { IfSome result (λ (c : Cluster). c.0 * 2 ^ cluster_bits < max_file_length) }
    {
        let offset = self.cluster_offset(external_data_file)?;
        Some(offset.cluster(cluster_bits))
    }

    /// Returns the mapping of a guest cluster with this entry. Always returns `Ok`.
    pub fn into_mapping(
        self,
        guest_cluster: GuestCluster,
        cluster_bits: u32,
        external_data_file: bool,
    ) -> Result<L2Mapping, Fault>
        requires cluster_bits { IsClusterBits cluster_bits }
        requires valid { l2_fault cluster_bits self ≡ None }
        requires fits { guest_cluster.0 * 2 ^ cluster_bits < 2 ^ 64 }
        ensures mapping { IsOkAnd result (λ found.
            meaning found ≡ mapping (geometry cluster_bits external_data_file) guest_cluster.0 self) }
        ensures placed { IfOk result (IsPlaced cluster_bits) }
    {
        if let Some((host_offset, length)) = self.compressed_range(cluster_bits) {
            return Ok(L2Mapping::Compressed {
                host_offset,
                length,
            });
        }
        let copied = self.is_copied();
        let host_cluster = self.host_cluster(cluster_bits, external_data_file);
        Ok(match (self.is_zero(), host_cluster) {
            (true, _) => L2Mapping::Zero {
                host_cluster,
                copied: copied && host_cluster.is_some(),
            },
            (false, Some(host_cluster)) => L2Mapping::DataFile {
                host_cluster,
                copied,
            },
            (false, None) => L2Mapping::Backing {
                backing_offset: guest_cluster.offset(cluster_bits).0,
            },
        })
    }
}

impl TableEntry for L2Entry {
    ghost use Rattle.qcow2_metadata.specs.Entries.L2Entry.{l2_fault};

    ghost plain = { λ entry. entry };

    ghost fault_of = { l2_fault };

    fn try_from_plain(value: u64, header: &Header) -> Result<Self, Fault> {
        let cluster_bits = header.cluster_bits();
        let entry = L2Entry { value };
        if entry.reserved_bits() != 0 {
            return Err(Fault::EntryReserved);
        }
        if entry.is_compressed() {
            if field(value, 0, 70 - cluster_bits) >= MAX_FILE_LENGTH {
                return Err(Fault::EntryReserved);
            }
        } else if HostOffset(field(value, 9, 47) * 512).in_cluster_offset(cluster_bits) != 0 {
            return Err(Fault::EntryUnaligned);
        }
        Ok(entry)
    }

    #[inline]
    fn is_lawful(value: u64, header: &Header) -> bool {
        let cluster_bits = header.cluster_bits();
        let entry = L2Entry { value };
        // The bits of a compressed offset from 56 on, all 0 in a valid one.
        let compressed = (value >> 56 << 56) % (1 << (70 - cluster_bits)) == 0;
        let standard = HostOffset(field(value, 9, 47) * 512).in_cluster_offset(cluster_bits) == 0;
        let is_compressed = entry.is_compressed();
        let offset_is_lawful = (is_compressed & compressed) | (!is_compressed & standard);
        (entry.reserved_bits() == 0) & offset_is_lawful
    }

    #[inline]
    fn from_lawful(value: u64, _header: &Header) -> Self {
        L2Entry { value }
    }

    #[inline]
    fn to_plain(&self) -> u64 {
        self.value
    }
}

/// A cell of an L2 table, which has an entry.
#[derive(Clone, Copy, Debug, PartialEq, Eq)]
pub struct AtomicL2Entry {
    entry: L2Entry,
}

impl Model for AtomicL2Entry {
    ghost use Rattle.std.specs.Prelude.{ℕ};

    ghost Value = { ℕ };

    ghost view = { λ cell. cell.entry };

    ghost inverse = { λ number. record { entry = number } };
}

impl AtomicL2Entry {
    /// Returns a cell with the entry.
    #[inline]
    pub fn new(entry: L2Entry) -> AtomicL2Entry
        ensures { result ≡ entry }
    {
        AtomicL2Entry { entry }
    }

    /// Returns the entry in the cell.
    #[inline]
    pub fn get(&self) -> L2Entry
        ensures { result ≡ self.now }
    {
        self.entry
    }

    /// Replaces the entry in the cell, and returns the old one.
    #[inline]
    pub fn swap(&mut self, entry: L2Entry) -> L2Entry
        ensures before { result ≡ self.old }
        ensures after { self.new ≡ entry }
    {
        std::mem::replace(&mut self.entry, entry)
    }
}

impl TableEntry for AtomicL2Entry {
    ghost use Rattle.qcow2_metadata.specs.Entries.L2Entry.{l2_fault};

    ghost plain = { λ cell. cell };

    ghost fault_of = { l2_fault };

    fn try_from_plain(value: u64, header: &Header) -> Result<Self, Fault> {
        Ok(AtomicL2Entry::new(L2Entry::try_from_plain(value, header)?))
    }

    #[inline]
    fn is_lawful(value: u64, header: &Header) -> bool {
        L2Entry::is_lawful(value, header)
    }

    #[inline]
    fn from_lawful(value: u64, _header: &Header) -> Self {
        AtomicL2Entry::new(L2Entry { value })
    }

    #[inline]
    fn to_plain(&self) -> u64 {
        self.entry.value
    }
}
