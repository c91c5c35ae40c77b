//! The part of fixed length of a snapshot's entry.

ghost use Rattle.std.specs.Prelude.{false, refl};
ghost use Rattle.std.proofs.Common.{rules};

use super::{OnDiskStruct, read_be, write_be};
use crate::Fault;

/// The first 40 bytes of a snapshot's entry in the snapshot table. Extra data, the id and the name follow.
#[derive(Clone, Copy, Debug, PartialEq, Eq)]
pub struct SnapshotHeader {
    /// The offset of its L1 table.
    pub l1_table_offset: u64,
    /// The number of entries of that table.
    pub l1_size: u32,
    /// The length of its id, in bytes.
    pub id_str_size: u16,
    /// The length of its name, in bytes.
    pub name_size: u16,
    /// When it was taken, in seconds since 1970.
    pub date_sec: u32,
    /// The nanoseconds after that second.
    pub date_nsec: u32,
    /// How long the guest had run, in nanoseconds.
    pub vm_clock_nsec: u64,
    /// The length of the guest's saved memory and devices, in bytes; 0 if only the disk was saved.
    pub vm_state_size: u32,
    /// The length of its extra data, in bytes.
    pub extra_data_size: u32,
}

impl OnDiskStruct for SnapshotHeader {
    ghost use Rattle.qcow2_base.specs.OnDiskStruct.{snapshot_header};

    const ON_DISK_SIZE: usize = 40;

    ghost ON_DISK_SIZE = { 40 };

    ghost exact = { false };

    ghost layout = { λ _ header. snapshot_header header };

    #[inline]
    fn load_from_le(bytes: &[u8]) -> Result<SnapshotHeader, Fault> {
        Self::load_from_be(bytes)
    }

    #[inline]
    fn load_from_be(bytes: &[u8]) -> Result<SnapshotHeader, Fault> {
        if bytes.len() < Self::ON_DISK_SIZE {
            return Err(Fault::WrongLength);
        }
        Ok(SnapshotHeader {
            l1_table_offset: read_be(bytes, 0),
            l1_size: read_be(bytes, 8),
            id_str_size: read_be(bytes, 12),
            name_size: read_be(bytes, 14),
            date_sec: read_be(bytes, 16),
            date_nsec: read_be(bytes, 20),
            vm_clock_nsec: read_be(bytes, 24),
            vm_state_size: read_be(bytes, 32),
            extra_data_size: read_be(bytes, 36),
        })
    }

    #[inline]
    fn store_to_le(&self, bytes: &mut [u8]) -> Result<(), Fault> {
        self.store_to_be(bytes)
    }

    #[inline]
    fn store_to_be(&self, bytes: &mut [u8]) -> Result<(), Fault> {
        if bytes.len() < Self::ON_DISK_SIZE {
            return Err(Fault::WrongLength);
        }
        write_be(bytes, 0, &self.l1_table_offset);
        write_be(bytes, 8, &self.l1_size);
        write_be(bytes, 12, &self.id_str_size);
        write_be(bytes, 14, &self.name_size);
        write_be(bytes, 16, &self.date_sec);
        write_be(bytes, 20, &self.date_nsec);
        write_be(bytes, 24, &self.vm_clock_nsec);
        write_be(bytes, 32, &self.vm_state_size);
        write_be(bytes, 36, &self.extra_data_size);
        Ok(())
    }

    ghost size_is_end = { λ order header. refl };

    ghost loads_back = { λ order image a b held_a held_b. Prim.search rules };
}
