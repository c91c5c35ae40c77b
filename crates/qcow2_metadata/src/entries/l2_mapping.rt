//! Mappings of guest clusters, and their L2 entries.

ghost use Rattle.std.specs.Prelude.{◌≡◌, ℕ, Bool, ◌-◌, ◌^◌, ◌<◌, None};
ghost use Rattle.qcow2_base.specs.Types.{IsClusterBits};
ghost use Rattle.qcow2_metadata.specs.Header.{geometry};
ghost use Rattle.qcow2_metadata.specs.Entries.L2Entry.{l2_fault};
ghost use Rattle.qcow2_metadata.specs.Entries.L2Mapping as spec;

use super::{L2Entry, copied_bit};
use qcow2_base::{HostCluster, HostOffset};
use std::num::NonZero;

/// The mapping of a guest cluster: what the guest reads.
#[derive(Clone, Copy, Debug, PartialEq, Eq)]
pub enum L2Mapping {
    /// Data in the data file: the image, or its external data file.
    DataFile {
        host_cluster: HostCluster,
        /// The copied flag: the cluster's refcount is exactly one, so it may be written in place.
        copied: bool,
    },
    /// The backing file's data from this offset in bytes, or zeros without a backing file.
    Backing {
        backing_offset: u64,
    },
    /// Zeros.
    Zero {
        /// The cluster of the data file that is allocated nevertheless.
        host_cluster: Option<HostCluster>,
        /// The copied flag: its refcount is exactly one.
        copied: bool,
    },
    /// Compressed data in the image.
    Compressed {
        host_offset: HostOffset,
        /// An upper bound of the compressed data's length, in bytes.
        length: NonZero<u64>,
    },
}

impl L2Mapping {
    /// Whether this mapping of a guest cluster continues `preceding`, that of the guest cluster before it, in
    /// an image with clusters of `2^cluster_bits` bytes.
    ///
    /// Data continues in the next host cluster with the same copied flag, and a backing file one cluster
    /// later. Nothing continues the last cluster number, or an offset that wouldn't fit 64 bits. Zeros
    /// continue zeros, whatever their clusters, and compressed data continues compressed data, since each of
    /// its clusters is read by itself anyway.
    #[inline]
    pub fn is_consecutive(&self, preceding: &L2Mapping, cluster_bits: u32) -> bool
        requires { IsClusterBits cluster_bits }
        ensures { result
            ≡ spec.is_consecutive cluster_bits (spec.meaning preceding.now) (spec.meaning self.now) }
    {
        match (*preceding, *self) {
            (
                L2Mapping::DataFile {
                    host_cluster: before,
                    copied: was_copied,
                },
                L2Mapping::DataFile {
                    host_cluster,
                    copied,
                },
            ) => before.0.checked_add(1) == Some(host_cluster.0) && was_copied == copied,
            (
                L2Mapping::Backing {
                    backing_offset: before,
                },
                L2Mapping::Backing { backing_offset },
            ) => before.checked_add(1 << cluster_bits) == Some(backing_offset),
            (L2Mapping::Zero { .. }, L2Mapping::Zero { .. }) => true,
            (L2Mapping::Compressed { .. }, L2Mapping::Compressed { .. }) => true,
            _ => false,
        }
    }
}

impl L2Entry {
    /// Returns the entry of a guest cluster with this mapping, in an image with clusters of `2^cluster_bits`
    /// bytes.
    ///
    /// Data has its cluster's offset, and bit 63 if it is copied. Backing is 0. Zeros have bit 0; with a
    /// cluster also its offset, and bit 63 if it is copied. Compressed data has bit 62, its offset in bits 0
    /// to x - 1, where `x = 70 - cluster_bits`, and the number of sectors of 512 bytes after the first in
    /// bits x to 61. So an entry doesn't keep the exact length: it reads as if the data reached the end of
    /// the last sector.
    ///
    /// Offsets of clusters must be at most `MAX_OFFSET`, and zeros may be `copied` only with a cluster.
    /// Compressed data must be shorter than a cluster, at an offset below 2^56 that fits x bits.
    ///
    /// Offset 0 means no cluster, except for a copied one of an external data file. Otherwise data in cluster
    /// 0 reads back as backing, and zeros with cluster 0 as zeros without.
    #[inline]
    pub fn from_mapping(mapping: L2Mapping, cluster_bits: u32) -> L2Entry
        requires placed { spec.IsPlaced cluster_bits mapping }
        requires fits { spec.FitsEntry cluster_bits mapping }
        ensures number { result ≡ spec.entry_of cluster_bits (spec.meaning mapping) }
        ensures lawful { l2_fault cluster_bits result ≡ None }
        ensures reads_back { (guest_cluster : ℕ) → (external : Bool) →
            spec.mapping (geometry cluster_bits external) guest_cluster result
            ≡ spec.stored_mapping (geometry cluster_bits external) guest_cluster (spec.meaning mapping) }
    {
        let value = match mapping {
            L2Mapping::DataFile {
                host_cluster,
                copied,
            } => copied_bit(copied) + host_cluster.offset(cluster_bits).0,
            L2Mapping::Backing { backing_offset: _ } => 0,
            L2Mapping::Zero {
                host_cluster: Some(host_cluster),
                copied,
            } => copied_bit(copied) + host_cluster.offset(cluster_bits).0 + 1,
            L2Mapping::Zero {
                host_cluster: None,
                copied: _,
            } => 1,
            L2Mapping::Compressed {
                host_offset,
                length,
            } => compressed_number(host_offset.0, length.get(), cluster_bits),
        };
        L2Entry { value }
    }
}

#[inline]
#[tactic(auto, using(crate::proofs::L2MappingLemmas::compressed_parts_fit))]
fn compressed_number(offset: u64, length: u64, cluster_bits: u32) -> u64
    requires cluster_bits { IsClusterBits cluster_bits }
    requires offset { offset < 2 ^ (70 - cluster_bits) }
    requires some { 0 < length }
    requires short { length < 2 ^ cluster_bits }
    ensures { result ≡ spec.entry_of cluster_bits (spec.compressed offset length) }
{
    let sectors_beyond = (length - 1 + offset % 512) / 512;
    (1 << 62) + (sectors_beyond << (70 - cluster_bits)) + offset
}
