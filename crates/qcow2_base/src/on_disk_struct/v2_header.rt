//! The part of the header that both versions have.

ghost use Rattle.std.specs.Prelude.{false, refl};
ghost use Rattle.std.proofs.Common.{rules};

use super::{OnDiskStruct, read_be, write_be};
use crate::Fault;

/// The first 72 bytes of an image: the part of the header that both versions have.
#[derive(Clone, Copy, Debug, PartialEq, Eq)]
pub struct V2Header {
    /// 0x514649fb.
    pub magic: u32,
    /// 2 or 3.
    pub version: u32,
    /// The offset of the backing file's name, or 0 for none.
    pub backing_file_offset: u64,
    /// The length of the backing file's name, in bytes.
    pub backing_file_size: u32,
    /// A cluster has `2^cluster_bits` bytes.
    pub cluster_bits: u32,
    /// The size of the guest's disk, in bytes.
    pub size: u64,
    /// The encryption method, 0 for none.
    pub crypt_method: u32,
    /// The number of entries of the L1 table.
    pub l1_size: u32,
    /// The offset of the L1 table.
    pub l1_table_offset: u64,
    /// The offset of the refcount table.
    pub refcount_table_offset: u64,
    /// The number of clusters of the refcount table.
    pub refcount_table_clusters: u32,
    /// The number of snapshots.
    pub nb_snapshots: u32,
    /// The offset of the snapshot table.
    pub snapshots_offset: u64,
}

impl OnDiskStruct for V2Header {
    ghost use Rattle.qcow2_base.specs.OnDiskStruct.{v2_header};

    const ON_DISK_SIZE: usize = 72;

    ghost ON_DISK_SIZE = { 72 };

    ghost exact = { false };

    ghost layout = { λ _ header. v2_header header };

    #[inline]
    fn load_from_le(bytes: &[u8]) -> Result<V2Header, Fault> {
        Self::load_from_be(bytes)
    }

    #[inline]
    fn load_from_be(bytes: &[u8]) -> Result<V2Header, Fault> {
        if bytes.len() < Self::ON_DISK_SIZE {
            return Err(Fault::WrongLength);
        }
        Ok(V2Header {
            magic: read_be(bytes, 0),
            version: read_be(bytes, 4),
            backing_file_offset: read_be(bytes, 8),
            backing_file_size: read_be(bytes, 16),
            cluster_bits: read_be(bytes, 20),
            size: read_be(bytes, 24),
            crypt_method: read_be(bytes, 32),
            l1_size: read_be(bytes, 36),
            l1_table_offset: read_be(bytes, 40),
            refcount_table_offset: read_be(bytes, 48),
            refcount_table_clusters: read_be(bytes, 56),
            nb_snapshots: read_be(bytes, 60),
            snapshots_offset: read_be(bytes, 64),
        })
    }

    #[inline]
    fn store_to_le(&self, bytes: &mut [u8]) -> Result<(), Fault> {
        self.store_to_be(bytes)
    }

    #[inline]
    fn store_to_be(&self, bytes: &mut [u8]) -> Result<(), Fault> {
        if bytes.len() < Self::ON_DISK_SIZE {
            return Err(Fault::WrongLength);
        }
        write_be(bytes, 0, &self.magic);
        write_be(bytes, 4, &self.version);
        write_be(bytes, 8, &self.backing_file_offset);
        write_be(bytes, 16, &self.backing_file_size);
        write_be(bytes, 20, &self.cluster_bits);
        write_be(bytes, 24, &self.size);
        write_be(bytes, 32, &self.crypt_method);
        write_be(bytes, 36, &self.l1_size);
        write_be(bytes, 40, &self.l1_table_offset);
        write_be(bytes, 48, &self.refcount_table_offset);
        write_be(bytes, 56, &self.refcount_table_clusters);
        write_be(bytes, 60, &self.nb_snapshots);
        write_be(bytes, 64, &self.snapshots_offset);
        Ok(())
    }

    ghost size_is_end = { λ order header. refl };

    ghost loads_back = { λ order image a b held_a held_b. Prim.search rules };
}
