//! The marks `dirty` and `corrupt` of an image: incompatible features 0 and 1.

ghost use Rattle.std.specs.Prelude.{◌≡◌, ◌∷◌, List, [], MatchResult, Ok, false};
ghost use Rattle.qcow2_base.specs.OnDiskStruct.{big};
ghost use Rattle.qcow2_metadata.specs.Header.Marks.{is_marked, unmarked_fields, without_marks};
ghost use Rattle.qcow2_metadata.specs.Header.Pointers.{WritesPart};

use super::Header;
use super::features::IncompatibleFeatures;
use super::fixed_parts::FIXED_BYTES;
use qcow2_base::{Fault, OnDiskStruct, Storage, V2Header, V3HeaderBase, write_be};

impl Header {
    /// Whether the image is marked dirty or corrupt. Refcounts of a dirty image may be wrong, as a program
    /// stopped before it had written all of them. Any structure of a corrupt image may be wrong, as a program
    /// found one that is. A program must not change such an image before it has repaired it.
    pub fn is_marked(&self) -> bool
        ensures { result ≡ is_marked self.now }
    {
        self.has_feature(IncompatibleFeatures::Dirty)
            || self.has_feature(IncompatibleFeatures::Corrupt)
    }

    /// Clears the marks `dirty` and `corrupt`, in the header and in the image. Writes the 8 bytes at 72, in
    /// one call of the storage, so that no other field can be torn. Call it only once the image is repaired
    /// and on the device.
    ///
    /// A header without marks stays, and the storage isn't called. Allocates nothing. The only fault is 34,
    /// which leaves the header unchanged and may leave any bytes in that range; no other byte changes. The
    /// format allows the backing file's name to overlap these bytes; it then changes too.
    pub fn clear_marks<S: Storage>(&mut self, image: &mut S) -> Result<(), Fault>
        ensures header { MatchResult result (λ _. self.new ≡ without_marks self.old)
            (λ _. self.new ≡ self.old) }
        ensures idle { is_marked self.old ≡ false → (result ≡ Ok tt) × (image.new ≡ image.old) }
        ensures written { WritesPart result (unmarked_fields self.old) 72 80
            (S.state image.old) (S.state image.new) }
    {
        if !self.is_marked() {
            return Ok(());
        }
        let base = V3HeaderBase {
            incompatible_features: self.base.incompatible_features >> 2 << 2,
            ..self.base
        };
        write_features(&base, image)?;
        self.base = base;
        Ok(())
    }
}

// Writes the incompatible features of a header's second part: the 8 bytes at 72.
fn write_features<S: Storage>(base: &V3HeaderBase, image: &mut S) -> Result<(), Fault>
    ensures { WritesPart result (big 72 8 base.now.incompatible_features ∷ []) 72 80
        (S.state image.old) (S.state image.new) }
{
    let mut bytes = [0u8; FIXED_BYTES];
    write_be(&mut bytes, V2Header::ON_DISK_SIZE, base);
    image.write(&bytes[72..80], 72)?;
    Ok(())
}
