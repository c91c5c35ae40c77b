//! The type and length before the data of a header extension.

ghost use Rattle.std.specs.Prelude.{false, refl};
ghost use Rattle.std.proofs.Common.{rules};

use super::{OnDiskStruct, read_be, write_be};
use crate::Fault;

/// The 8 bytes before the data of a header extension.
#[derive(Clone, Copy, Debug, PartialEq, Eq)]
pub struct HeaderExtensionHeader {
    /// The type of the data; 0 ends the extensions.
    pub extension_type: u32,
    /// The length of the data in bytes, without its padding to a multiple of 8.
    pub length: u32,
}

impl OnDiskStruct for HeaderExtensionHeader {
    ghost use Rattle.qcow2_base.specs.OnDiskStruct.{header_extension_header};

    const ON_DISK_SIZE: usize = 8;

    ghost ON_DISK_SIZE = { 8 };

    ghost exact = { false };

    ghost layout = { λ _ header. header_extension_header header };

    #[inline]
    fn load_from_le(bytes: &[u8]) -> Result<HeaderExtensionHeader, Fault> {
        Self::load_from_be(bytes)
    }

    #[inline]
    fn load_from_be(bytes: &[u8]) -> Result<HeaderExtensionHeader, Fault> {
        if bytes.len() < Self::ON_DISK_SIZE {
            return Err(Fault::WrongLength);
        }
        Ok(HeaderExtensionHeader {
            extension_type: read_be(bytes, 0),
            length: read_be(bytes, 4),
        })
    }

    #[inline]
    fn store_to_le(&self, bytes: &mut [u8]) -> Result<(), Fault> {
        self.store_to_be(bytes)
    }

    #[inline]
    fn store_to_be(&self, bytes: &mut [u8]) -> Result<(), Fault> {
        if bytes.len() < Self::ON_DISK_SIZE {
            return Err(Fault::WrongLength);
        }
        write_be(bytes, 0, &self.extension_type);
        write_be(bytes, 4, &self.length);
        Ok(())
    }

    ghost size_is_end = { λ order header. refl };

    ghost loads_back = { λ order image a b held_a held_b. Prim.search rules };
}
