//! The part of the header that version 3 adds.

ghost use Rattle.std.specs.Prelude.{◌≡◌, false, refl};
ghost use Rattle.std.proofs.Common.{rules};

use super::{OnDiskStruct, V2Header, read_be, write_be};
use crate::Fault;

/// The 32 bytes after the `V2Header` in an image of version 3.
#[derive(Clone, Copy, Debug, PartialEq, Eq)]
pub struct V3HeaderBase {
    /// A bit for each feature that a program must know to open the image.
    pub incompatible_features: u64,
    /// A bit for each feature that a program may ignore.
    pub compatible_features: u64,
    /// A bit for each feature that a program must clear before it writes, unless it knows the feature.
    pub autoclear_features: u64,
    /// A refcount has `2^refcount_order` bits.
    pub refcount_order: u32,
    /// The length of the header in bytes, without its extensions.
    pub header_length: u32,
}

/// The fields of a new image: no features, and refcounts of 16 bits.
impl Default for V3HeaderBase {
    ghost is_default = { λ header. header ≡ record {
      incompatible_features = 0;
      compatible_features = 0;
      autoclear_features = 0;
      refcount_order = 4;
      header_length = 104;
    } };

    fn default() -> V3HeaderBase {
        V3HeaderBase {
            incompatible_features: 0,
            compatible_features: 0,
            autoclear_features: 0,
            refcount_order: 4,
            header_length: (V2Header::ON_DISK_SIZE + V3HeaderBase::ON_DISK_SIZE) as u32,
        }
    }
}

impl OnDiskStruct for V3HeaderBase {
    ghost use Rattle.qcow2_base.specs.OnDiskStruct.{v3_header_base};

    const ON_DISK_SIZE: usize = 32;

    ghost ON_DISK_SIZE = { 32 };

    ghost exact = { false };

    ghost layout = { λ _ header. v3_header_base header };

    #[inline]
    fn load_from_le(bytes: &[u8]) -> Result<V3HeaderBase, Fault> {
        Self::load_from_be(bytes)
    }

    #[inline]
    fn load_from_be(bytes: &[u8]) -> Result<V3HeaderBase, Fault> {
        if bytes.len() < Self::ON_DISK_SIZE {
            return Err(Fault::WrongLength);
        }
        Ok(V3HeaderBase {
            incompatible_features: read_be(bytes, 0),
            compatible_features: read_be(bytes, 8),
            autoclear_features: read_be(bytes, 16),
            refcount_order: read_be(bytes, 24),
            header_length: read_be(bytes, 28),
        })
    }

    #[inline]
    fn store_to_le(&self, bytes: &mut [u8]) -> Result<(), Fault> {
        self.store_to_be(bytes)
    }

    #[inline]
    fn store_to_be(&self, bytes: &mut [u8]) -> Result<(), Fault> {
        if bytes.len() < Self::ON_DISK_SIZE {
            return Err(Fault::WrongLength);
        }
        write_be(bytes, 0, &self.incompatible_features);
        write_be(bytes, 8, &self.compatible_features);
        write_be(bytes, 16, &self.autoclear_features);
        write_be(bytes, 24, &self.refcount_order);
        write_be(bytes, 28, &self.header_length);
        Ok(())
    }

    ghost size_is_end = { λ order header. refl };

    ghost loads_back = { λ order image a b held_a held_b. Prim.search rules };
}
