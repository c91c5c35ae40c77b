//! The common part of tables and refcount blocks: a place in the image, a modified flag, and writes.

ghost use Rattle.std.specs.Prelude.{◌≡◌, false, true, IsOk};
ghost use Rattle.qcow2_metadata.specs.Placed.{FlagAfterWrite, Writes};

use crate::pieces::{Packed, Pieces, write_in_pieces};
use qcow2_base::{Fault, HostCluster, Storage};

/// The first cluster of a table or refcount block in the image, if it has a place, and whether it was changed
/// since it was last read or written.
#[derive(Clone, Copy, Debug)]
pub(crate) struct Placement {
    pub(crate) cluster: Option<HostCluster>,
    pub(crate) modified: bool,
}

impl Placement {
    /// Writes the bytes to the image, from the cluster on. Refuses without a cluster (22), then if the bytes
    /// can't lie there. `Ok` clears the flag, a storage fault sets it, and any other fault leaves it.
    pub(crate) fn write<P: Packed, S: Storage>(
        &mut self,
        packed: &P,
        pieces: Pieces,
        image: &mut S,
    ) -> Result<(), Fault>
        ensures written { Writes (P.layout packed.now) (P.numbers packed.now) self.old.cluster result
            (S.state image.old) (S.state image.new) }
        ensures cluster { self.new.cluster ≡ self.old.cluster }
        ensures flag { FlagAfterWrite result self.old.modified self.new.modified }
    {
        let Some(cluster) = self.cluster else {
            return Err(Fault::NoOffset);
        };
        let offset = packed.offset_at(cluster)?;
        match write_in_pieces(packed, image, pieces, offset) {
            Ok(()) => {
                self.modified = false;
                Ok(())
            }
            Err(fault) => {
                self.modified = true;
                Err(fault.into())
            }
        }
    }

    /// Writes the bytes, as `write` does, if the flag is set.
    pub(crate) fn write_if_modified<P: Packed, S: Storage>(
        &mut self,
        packed: &P,
        pieces: Pieces,
        image: &mut S,
    ) -> Result<(), Fault>
        ensures idle { self.old.modified ≡ false →
            IsOk result × (self.new ≡ self.old) × (image.new ≡ image.old) }
        ensures written { self.old.modified ≡ true → Writes (P.layout packed.now) (P.numbers packed.now)
            self.old.cluster result (S.state image.old) (S.state image.new) }
        ensures cluster { self.new.cluster ≡ self.old.cluster }
        ensures flag { FlagAfterWrite result self.old.modified self.new.modified }
    {
        if !self.modified {
            return Ok(());
        }
        self.write(packed, pieces, image)
    }
}
