//! Updates of the refcounts in the bytes of a refcount block after an edit.

ghost use Rattle.std.specs.Prelude.{◌≡◌, ◌^◌, IfErr, IfOk, length, map};
ghost use Rattle.qcow2_base.specs.Storage.{image_of};
ghost use Rattle.qcow2_base.specs.declared.fault.Fault.TheVariants.{NoMemory};
ghost use Rattle.qcow2_metadata.specs.Refblock.{block_entries, block_geometry_of};
ghost use Rattle.qcow2_metadata.specs.Refblock.Packing.{counters_at};
ghost use Rattle.qcow2_metadata.specs.Results.{Computes};
ghost use Rattle.qcow2_bytes.specs.Refcounts.{cluster_of, clusters_to_free, refcounts_of, settled_refcounts};

use super::block_bits;
use qcow2_base::{ClusterCount, Fault, HostCluster, SliceStorage};
use qcow2_edits::{Outcome, settle};
use qcow2_metadata::{ClustersToFreeEntry, Header, RefBlock};
use std::alloc::{AllocError, Global};

/// Consecutive host clusters.
#[repr(C)]
#[derive(Clone, Copy, Debug, PartialEq, Eq)]
pub struct HostClusters {
    /// The number of the first cluster: its offset divided by the cluster size.
    pub first: u64,
    /// The number of clusters.
    pub count: u64,
}

/// Updates the refcounts in the bytes of a whole refcount block after an edit of an L2 table, as `settle`
/// does: adds one for each time that a cluster is gained, and subtracts one for each freed range that has the
/// cluster. A block with N refcounts counts N clusters, from its index in the refcount table times N on.
/// Skips all other clusters.
///
/// Refuses orders past 6 (8), and bytes whose number isn't a cluster size, a power of two from 512 to 2^21
/// (31). Then refuses gains that raise a refcount above its maximum, and losses that exceed a refcount and
/// its gains (30). Takes memory for a copy of the block and of both lists. After a fault no byte has changed.
///
/// The clusters of an external data file have no refcounts: don't pass their gains and losses.
pub fn settle_refcounts(
    alloc: Global,
    bytes: &mut [u8],
    refcount_order: u32,
    block_index: u64,
    freed: &[HostClusters],
    gained: &[u64],
) -> Result<(), Fault>
    ensures exact { Computes (λ done. refcounts_of bytes.new refcount_order) result
        (settled_refcounts bytes.old refcount_order block_index freed.now gained.now) }
    ensures unchanged { IfErr result (λ fault. bytes.new ≡ bytes.old) }
    ensures len { length bytes.new ≡ length bytes.old }
{
    let cluster_bits = block_bits(bytes, refcount_order)?;
    let header = Header::new(alloc, cluster_bits, refcount_order, None, None, None)?;
    let outcome = Outcome {
        gained: gained_clusters(alloc, gained)?,
        freed: freed_clusters(alloc, freed)?,
    };
    let mut block = load_block(alloc, bytes, &header)?;
    settle(&mut block, &header, block_index as usize, &outcome)?;
    block.copy_to_bytes(bytes);
    Ok(())
}

// The clusters with these numbers.
fn gained_clusters(alloc: Global, gained: &[u64]) -> Result<Vec<HostCluster>, AllocError>
    ensures { IfOk result (λ list. list.items ≡ map cluster_of gained.now) }
{
    gained
        .iter()
        .map(
            |number: &u64| -> HostCluster
                ensures { result ≡ cluster_of number.now }
            { HostCluster(*number) },
        )
        .collect(alloc)
}

// The same ranges in the form of an `Outcome`.
fn freed_clusters(
    alloc: Global,
    freed: &[HostClusters],
) -> Result<Vec<ClustersToFreeEntry>, AllocError>
    ensures { IfOk result (λ list. list.items ≡ map clusters_to_free freed.now) }
{
    freed
        .iter()
        .map(
            |clusters: &HostClusters| -> ClustersToFreeEntry
                ensures { result ≡ clusters_to_free clusters.now }
            {
                ClustersToFreeEntry {
                    first: HostCluster(clusters.first),
                    count: ClusterCount(clusters.count),
                }
            },
        )
        .collect(alloc)
}

// Loads the refcount block that has these bytes, in an image with this header.
fn load_block(alloc: Global, bytes: &[u8], header: &Header) -> Result<RefBlock, Fault>
    ensures fault { IfErr result (λ fault. fault ≡ NoMemory) }
    ensures geometry { IfOk result (λ block. block.geometry ≡ block_geometry_of header.now) }
    ensures numbers { let header = header.now in IfOk result (λ block. block.numbers
        ≡ counters_at header.base.refcount_order (image_of bytes.now) 0
        (block_entries header.v2.cluster_bits header.base.refcount_order)) }
{
    let mut image = SliceStorage::new(bytes, 0);
    match RefBlock::load(alloc, &mut image, header, HostCluster(0)) {
        Ok(block) => Ok(block),
        // Can't happen: a block can lie at the image's start, and no read of a slice fails.
        Err(_) => Err(Fault::NoMemory),
    }
}
