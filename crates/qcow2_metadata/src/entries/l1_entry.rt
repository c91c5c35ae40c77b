//! Entries of L1 tables.

ghost use Rattle.std.specs.Prelude.{◌≡◌, ℕ, ◌+◌, ◌*◌, ◌^◌, ◌<◌, None};
ghost use Rattle.qcow2_base.specs.Format.{max_file_length};
ghost use Rattle.qcow2_base.specs.Types.{IsClusterBits};

use super::{TableEntry, copied_bit};
use crate::Header;
use qcow2_base::{Fault, HostCluster, HostOffset, field};
use std::marker::Model;

/// An entry of an L1 table: the place of the L2 table of a part of the disk, if there is one.
///
/// Bits 9 to 55 are the offset of the L2 table, 0 for none; bit 63 is the copied flag; bits 0 to 8 and 56 to
/// 62 are reserved.
#[derive(Clone, Copy, Debug, PartialEq, Eq)]
pub struct L1Entry {
    value: u64,
}

impl Model for L1Entry {
    ghost use Rattle.std.specs.Prelude.{ℕ};

    ghost Value = { ℕ };

    ghost view = { λ entry. entry.value };

    ghost inverse = { λ number. record { value = number } };
}

impl L1Entry {
    ghost use Rattle.qcow2_metadata.specs.Entries.{is_copied, offset_field, offset_unless_zero, with_copied};
    ghost use Rattle.qcow2_metadata.specs.Entries.L1Entry.{l1_fault, l1_reserved_bits};

    /// The entry 0, without an L2 table.
    pub(crate) const NONE: L1Entry = L1Entry { value: 0 };

    #[tactic(auto, using(crate::proofs::EntriesLemmas::l1_entry_is_lawful))]
    pub(crate) fn for_l2_table(cluster: HostCluster, cluster_bits: u32) -> L1Entry
        requires cluster_bits { IsClusterBits cluster_bits }
        requires place { cluster.0 * 2 ^ cluster_bits < max_file_length }
        ensures number { result ≡ 2 ^ 63 + cluster.0 * 2 ^ cluster_bits }
        ensures lawful { l1_fault cluster_bits result ≡ None }
    {
        L1Entry {
            value: (1 << 63) + cluster.offset(cluster_bits).0,
        }
    }

    /// Returns the offset of the L2 table, or `None` without one.
    #[inline]
    pub fn l2_offset(&self) -> Option<HostOffset>
        ensures { result ≡ offset_unless_zero (offset_field self.now) }
    {
        match field(self.value, 9, 47) * 512 {
            0 => None,
            offset => Some(HostOffset(offset)),
        }
    }

    /// Returns the copied flag, bit 63: the refcount of the L2 table's cluster is exactly one.
    #[inline]
    pub fn is_copied(&self) -> bool
        ensures { result ≡ is_copied self.now }
    {
        field(self.value, 63, 1) == 1
    }

    /// Returns the entry with the copied flag set or clear, and all else the same.
    #[inline]
    #[must_use]
    #[tactic(auto, using(crate::proofs::CopiedLemmas::flags))]
    pub fn with_copied(self, is_copied: bool) -> L1Entry
        ensures number { result ≡ with_copied is_copied self }
        ensures lawful { (cluster_bits : ℕ) →
            l1_fault cluster_bits self ≡ None → l1_fault cluster_bits result ≡ None }
    {
        L1Entry {
            value: field(self.value, 0, 63) + copied_bit(is_copied),
        }
    }

    /// Returns the reserved bits that are set, in their positions.
    #[inline]
    pub fn reserved_bits(&self) -> u64
        ensures { result ≡ l1_reserved_bits self.now }
    {
        field(self.value, 0, 9) + (field(self.value, 56, 7) << 56)
    }
}

impl TableEntry for L1Entry {
    ghost use Rattle.qcow2_metadata.specs.Entries.L1Entry.{l1_fault};

    ghost plain = { λ entry. entry };

    ghost fault_of = { l1_fault };

    fn try_from_plain(value: u64, header: &Header) -> Result<Self, Fault> {
        let entry = L1Entry { value };
        if entry.reserved_bits() != 0 {
            return Err(Fault::EntryReserved);
        }
        let offset = HostOffset(field(value, 9, 47) * 512);
        if offset.in_cluster_offset(header.cluster_bits()) != 0 {
            return Err(Fault::EntryUnaligned);
        }
        Ok(entry)
    }

    #[inline]
    fn is_lawful(value: u64, header: &Header) -> bool {
        let offset = HostOffset(field(value, 9, 47) * 512);
        let offset_is_lawful = offset.in_cluster_offset(header.cluster_bits()) == 0;
        (L1Entry { value }.reserved_bits() == 0) & offset_is_lawful
    }

    #[inline]
    fn from_lawful(value: u64, _header: &Header) -> Self {
        L1Entry { value }
    }

    #[inline]
    fn to_plain(&self) -> u64 {
        self.value
    }
}
