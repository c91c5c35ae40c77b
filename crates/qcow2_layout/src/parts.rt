//! The parts of an image that a host cluster can be.

ghost use Rattle.std.specs.Prelude.{◌≡◌, ◌↔◌, ◌<◌, IsTrue, None, Some};
ghost use Rattle.qcow2_base.specs.Types.{IsClusterBits};
ghost use Rattle.qcow2_check.specs.Walk.{IsOwned, most_owners};
ghost use Rattle.qcow2_check.specs.declared.uses.Use.{Use as AnyUse};
ghost use Rattle.qcow2_layout.specs.Layout.{moved_part};
ghost use Rattle.qcow2_layout.specs.Parts.{unused_part, used_part};
ghost use Rattle.qcow2_layout.specs.Window.{code_of};

use qcow2_base::{GuestOffset, HostCluster};
use qcow2_check::UseKind;

/// The code of compressed data.
pub(crate) const COMPRESSED_CODE: u64 = 7;

/// The code of guest data of guest cluster 0. The smaller numbers are codes of the other kinds.
pub(crate) const DATA_CODE: u64 = 8;

/// The code, in a cell, of a cluster whose first reference is of this kind.
#[inline(always)]
pub(crate) fn code_of(kind: UseKind, owner: u64) -> u64
    requires { owner < most_owners kind }
    ensures { result ≡ code_of kind owner }
{
    match kind {
        UseKind::Header => 1,
        UseKind::L1Table => 2,
        UseKind::RefcountTable => 3,
        UseKind::EncryptionHeader => 4,
        UseKind::RefcountBlock => 5,
        UseKind::L2Table => 6,
        UseKind::Compressed => COMPRESSED_CODE,
        UseKind::Data => DATA_CODE + owner,
    }
}

/// What a host cluster is. One with references of several kinds is the first of these that applies, except
/// that guest and compressed data go by the lowest guest offset.
#[derive(Clone, Copy, Debug, PartialEq, Eq)]
pub enum Part {
    /// The header, in cluster 0.
    Header,
    /// Bytes of the L1 table.
    L1Table,
    /// Bytes of the refcount table.
    RefcountTable,
    /// Bytes of the encryption header, which keeps the keys of LUKS.
    EncryptionHeader,
    /// A refcount block that an entry of the refcount table names.
    RefcountBlock,
    /// An L2 table that an entry of the L1 table names.
    L2Table,
    /// Guest data, or the cluster of a zero entry: a standard L2 entry names it. The offset is that of its
    /// guest cluster, the lowest if several entries name it.
    Data(GuestOffset),
    /// Compressed data, perhaps of several guest clusters, and perhaps not all of theirs.
    Compressed,
    /// A refcount other than 0, and no reference.
    Leaked,
    /// A refcount of 0 or no refcount, and no reference.
    Free,
}

/// Consecutive clusters that are the same part. Those of guest data are consecutive on the guest's disk too.
#[derive(Clone, Copy, Debug, PartialEq, Eq)]
pub struct Run {
    pub first: HostCluster,
    /// The number of clusters. Never 0.
    pub count: u64,
    /// The part of the clusters. For guest data its offset is that of the first cluster.
    pub part: Part,
}

impl Part {
    // The part of a cluster with this cell. `None` for 0.
    #[inline]
    #[tactic(auto, using(crate::proofs::PartsLemmas::part_decoded))]
    pub(crate) fn of_cell(cell: u64, cluster_bits: u32) -> Option<Part>
        requires { IsClusterBits cluster_bits }
        ensures none { result ≡ None ↔ cell ≡ 0 }
        ensures some { (used : AnyUse) → IsOwned used → cell ≡ code_of used.kind used.owner →
            result ≡ Some (used_part cluster_bits used) }
    {
        match cell {
            0 => None,
            1 => Some(Part::Header),
            2 => Some(Part::L1Table),
            3 => Some(Part::RefcountTable),
            4 => Some(Part::EncryptionHeader),
            5 => Some(Part::RefcountBlock),
            6 => Some(Part::L2Table),
            7 => Some(Part::Compressed),
            _ => Some(Part::Data(GuestOffset((cell - DATA_CODE) << cluster_bits))),
        }
    }

    // The part of a cluster with this refcount and no reference.
    #[inline]
    pub(crate) fn unused(counter: u64) -> Part
        ensures { result ≡ unused_part counter }
    {
        if counter == 0 {
            Part::Free
        } else {
            Part::Leaked
        }
    }

    // Whether a cluster of part `next`, `bytes` after a first one of this part, continues its run.
    #[inline]
    pub(crate) fn goes_on_as(self, bytes: u64, next: Part) -> bool
        ensures { IsTrue result ↔ (next ≡ moved_part bytes self) }
    {
        match (self, next) {
            (Part::Data(before), Part::Data(offset)) => {
                offset.0 >= bytes && offset.0 - bytes == before.0
            }
            _ => self == next,
        }
    }
}
