//! Entries of refcount tables.

ghost use Rattle.std.specs.Prelude.{◌≡◌, ◌*◌, ◌^◌, ◌<◌, None};
ghost use Rattle.qcow2_base.specs.Format.{max_file_length};
ghost use Rattle.qcow2_base.specs.Types.{IsClusterBits};

use super::TableEntry;
use crate::Header;
use qcow2_base::{Fault, HostCluster, HostOffset, field};
use std::marker::Model;

/// An entry of a refcount table: the place of a refcount block, if there is one.
///
/// Bits 9 to 63 are the offset of the block, 0 for none; bits 0 to 8 are reserved.
#[derive(Clone, Copy, Debug, PartialEq, Eq)]
pub struct RefTableEntry {
    value: u64,
}

impl Model for RefTableEntry {
    ghost use Rattle.std.specs.Prelude.{ℕ};

    ghost Value = { ℕ };

    ghost view = { λ entry. entry.value };

    ghost inverse = { λ number. record { value = number } };
}

impl RefTableEntry {
    ghost use Rattle.qcow2_metadata.specs.Entries.{offset_unless_zero};
    ghost use Rattle.qcow2_base.specs.Bits.{field};
    ghost use Rattle.qcow2_metadata.specs.Entries.RefTableEntry.{ref_fault};

    /// The entry 0, without a refcount block.
    pub(crate) const NONE: RefTableEntry = RefTableEntry { value: 0 };

    #[tactic(auto, using(crate::proofs::EntriesLemmas::ref_entry_is_lawful))]
    pub(crate) fn for_refblock(cluster: HostCluster, cluster_bits: u32) -> RefTableEntry
        requires cluster_bits { IsClusterBits cluster_bits }
        requires place { cluster.0 * 2 ^ cluster_bits < max_file_length }
        ensures number { result ≡ cluster.0 * 2 ^ cluster_bits }
        ensures lawful { ref_fault cluster_bits result ≡ None }
    {
        RefTableEntry {
            value: cluster.offset(cluster_bits).0,
        }
    }

    /// Returns the offset of the refcount block, or `None` without one.
    #[inline]
    pub fn refblock_offset(&self) -> Option<HostOffset>
        ensures { result ≡ offset_unless_zero (512 * field self.now 9 55) }
    {
        match field(self.value, 9, 55) * 512 {
            0 => None,
            offset => Some(HostOffset(offset)),
        }
    }

    /// Returns the reserved bits that are set.
    #[inline]
    pub fn reserved_bits(&self) -> u64
        ensures { result ≡ field self.now 0 9 }
    {
        field(self.value, 0, 9)
    }
}

impl TableEntry for RefTableEntry {
    ghost use Rattle.qcow2_metadata.specs.Entries.RefTableEntry.{ref_fault};

    ghost plain = { λ entry. entry };

    ghost fault_of = { ref_fault };

    fn try_from_plain(value: u64, header: &Header) -> Result<Self, Fault> {
        let entry = RefTableEntry { value };
        if entry.reserved_bits() != 0 {
            return Err(Fault::EntryReserved);
        }
        if HostOffset(value).in_cluster_offset(header.cluster_bits()) != 0 {
            return Err(Fault::EntryUnaligned);
        }
        Ok(entry)
    }

    #[inline]
    fn is_lawful(value: u64, header: &Header) -> bool {
        let offset_is_lawful = HostOffset(value).in_cluster_offset(header.cluster_bits()) == 0;
        (RefTableEntry { value }.reserved_bits() == 0) & offset_is_lawful
    }

    #[inline]
    fn from_lawful(value: u64, _header: &Header) -> Self {
        RefTableEntry { value }
    }

    #[inline]
    fn to_plain(&self) -> u64 {
        self.value
    }
}
