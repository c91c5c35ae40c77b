//! The references of an image to its host clusters.

ghost use Rattle.std.specs.Prelude.{◌≡◌, IfSome, ◌+◌, ◌*◌, ◌<◌, option_to_list, slice_index};
ghost use Rattle.qcow2_base.specs.Format.{most_l1_entries};
ghost use Rattle.qcow2_metadata.specs.Table.{l2_entries};
ghost use Rattle.qcow2_check.specs.Walk.{IsOwned, entry_list, one_use};

use qcow2_base::{ClusterCount, GuestCluster, HostCluster};
use qcow2_metadata::{ClustersToFreeEntry, L2Table, Table, TableEntry};

/// What host clusters serve as.
#[derive(Clone, Copy, Debug, PartialEq, Eq)]
pub enum UseKind {
    /// The header, in cluster 0.
    Header,
    /// The bytes of the active L1 table.
    L1Table,
    /// The refcount table.
    RefcountTable,
    /// The encryption header, which keeps the keys of LUKS.
    EncryptionHeader,
    /// A refcount block.
    RefcountBlock,
    /// An L2 table.
    L2Table,
    /// Guest data, or the cluster of a zero entry.
    Data,
    /// Compressed data of one guest cluster.
    Compressed,
}

/// One reference to consecutive host clusters.
#[derive(Clone, Copy, Debug, PartialEq, Eq)]
pub struct Use {
    /// What the clusters serve as.
    pub kind: UseKind,
    /// The clusters.
    pub clusters: ClustersToFreeEntry,
    /// What refers to them: for a block the index of its refcount table entry, for an L2 table that of its L1
    /// entry, for data the guest cluster, for all else 0.
    pub owner: u64,
}

impl Use {
    /// A reference to `count` clusters from `first` on.
    #[inline]
    pub fn new(kind: UseKind, first: HostCluster, count: u64, owner: u64) -> Use
        ensures { result ≡ one_use kind first count owner }
    {
        let count = ClusterCount(count);
        Use {
            kind,
            clusters: ClustersToFreeEntry { first, count },
            owner,
        }
    }
}

/// The reference of an L2 entry, where `l1_index` is the index of the L1 entry that names the table. `None`
/// if the entry refers to no cluster or guest data lies in an external data file.
#[inline]
#[tactic(auto, using(crate::proofs::UsesLemmas::guest_fits))]
pub(crate) fn entry_use(table: &L2Table, l1_index: usize, index: usize) -> Option<Use>
    requires l1_index { l1_index < most_l1_entries }
    requires index { index < l2_entries table.now.geometry.cluster_bits }
    ensures owned { IfSome result IsOwned }
    ensures list { let g = table.now.geometry in
        option_to_list result ≡ entry_list g (l1_index * l2_entries g.cluster_bits + index)
        (slice_index table.now.numbers index) }
{
    if table.external_data_file() {
        return None;
    }
    let cluster_bits = table.cluster_bits();
    let entry = table.get(index);
    let (first, count) = entry.allocation(cluster_bits, false)?;
    let kind = if entry.is_compressed() {
        UseKind::Compressed
    } else {
        UseKind::Data
    };
    let guest = GuestCluster::from_l1_l2_indices(l1_index, index, cluster_bits);
    Some(Use::new(kind, first, count.0, guest.0))
}
