//! Refcount blocks: the refcounts of the host clusters of a part of the image.

ghost use Rattle.std.specs.Prelude.{◌≡◌, ◌≢◌, ◌+◌, ◌*◌, ◌^◌, ◌<◌, ◌≤◌, ◌==◌, IfErr, IfOk, IsOkUnless, None, Ok, OnErr, OnOk, Some, false, length, option_map, replicate, slice_index, true};
ghost use Rattle.qcow2_base.specs.Format.{max_file_length};
ghost use Rattle.qcow2_base.specs.Storage.{OnImage, OnlyReads};
ghost use Rattle.qcow2_base.specs.Types.{IsClusterBits};
ghost use Rattle.qcow2_base.specs.declared.types.HostOffset.{HostOffset as Offset};
ghost use Rattle.qcow2_metadata.specs.Placed.{FollowsWrite, IsLoaded, LeavesReloaded, RefusesPlace, Writes, WritesIfModified, new_placed, offset_of, with_number};
ghost use Rattle.qcow2_metadata.specs.Results.{Reads};
ghost use Rattle.qcow2_metadata.specs.Refblock.Guard.{IsBlockGuard};
ghost use Rattle.qcow2_metadata.specs.Refblock.Counters.{IsOfOrder, kept_counters};
ghost use Rattle.qcow2_metadata.specs.Refblock.{IsBlockFault, IsValidBlock, block_entries, block_geometry_of, block_layout, greatest_counter, loaded_block};

mod bytes;
mod counters;
mod guard;
mod one_counter;
mod packing;

use crate::Header;
use crate::pieces::{PIECE_BYTES, Packed, Pieces};
use crate::placed::Placement;
use crate::range::{range_offset, read_range};
use counters::Counters;
pub use guard::RefBlockWriteGuard;
use qcow2_base::{Fault, HostCluster, HostOffset, Storage};
use std::alloc::Global;
use std::marker::Model;

/// The greatest refcount, by the refcount order.
const GREATEST_COUNTERS: [u64; 7] = [1, 3, 15, 255, 65535, 4294967295, 18446744073709551615];

/// The refcounts of the host clusters of one part of an image. The block fills one cluster.
///
/// A refcount has `2^refcount_order` bits. The block may have a place in the image, given by its cluster, and
/// knows whether it was changed since it was last read or written.
#[derive(Debug, Drop)]
pub struct RefBlock {
    counters: Counters,
    placement: Placement,
    cluster_bits: u32,
    refcount_order: u32,
}

impl Model for RefBlock {
    ghost use Rattle.qcow2_metadata.specs.Refblock.{BlockState, IsValidBlock, block_geometry};
    ghost use Rattle.qcow2_metadata.specs.Refblock.Counters.{IsOfOrder, kept_counters};

    ghost Value = { BlockState };

    ghost view = { λ b. record {
      numbers = kept_counters b.counters;
      cluster = b.placement.cluster;
      modified = b.placement.modified;
      geometry = block_geometry b.cluster_bits b.refcount_order;
    } };

    ghost invariant = { λ b. IsOfOrder b.refcount_order b.counters
        × IsValidBlock (block_geometry b.cluster_bits b.refcount_order) b.placement.cluster
        (kept_counters b.counters) };
}

// Reads the refcounts of the block at an offset of the image, in pieces of 4096 bytes. A fault may leave any
// refcounts that fit.
fn read_counters<S: Storage>(
    counters: &mut Counters,
    image: &mut S,
    header: &Header,
    offset: HostOffset,
) -> Result<(), Fault>
    requires kind { IsOfOrder header.now.base.refcount_order counters.old }
    requires valid { IsValidBlock (block_geometry_of header.now) None (kept_counters counters.old) }
    requires fits { offset.0 + 2 ^ header.now.v2.cluster_bits ≤ max_file_length }
    ensures fault { IsOkUnless result Fault.Storage }
    ensures numbers { OnOk result (OnImage (S.state image.old) (λ bytes. kept_counters counters.new
        ≡ (block_layout (block_geometry_of header.now)).numbers_from bytes offset.0)) }
    ensures kind { IsOfOrder header.now.base.refcount_order counters.new }
    ensures valid { IsValidBlock (block_geometry_of header.now) None (kept_counters counters.new) }
    ensures storage { OnlyReads result (S.state image.old) (S.state image.new) }
{
    let (order, size) = (header.refcount_order(), header.cluster_size());
    let mut array = [0u8; PIECE_BYTES];
    for piece in 0..size.div_ceil(PIECE_BYTES) {
        let first = PIECE_BYTES * piece;
        let buffer = &mut array[..(size - first).min(PIECE_BYTES)];
        read_range(image, HostOffset(offset.0 + first as u64), buffer)?;
        counters.unpack(order, piece, buffer);
    }
    Ok(())
}

impl RefBlock {
    /// Returns a block of zeros for an image with this header. It has no cluster, and counts as modified.
    /// Fails only if memory runs out.
    #[tactic(auto, using(crate::proofs::RefblockLemmas::zeros_are_valid))]
    pub fn new_cleared<S: Storage>(
        alloc: Global,
        image: &S,
        header: &Header,
    ) -> Result<RefBlock, Fault>
        ensures fault { IsOkUnless result Fault.NoMemory }
        ensures block { let header = header.now in IfOk result (λ block. block ≡ new_placed
            (replicate (block_entries header.v2.cluster_bits header.base.refcount_order) 0)
            (block_geometry_of header)) }
    {
        // Refcounts in memory need none of the image's alignment.
        let _ = image;
        let refcount_order = header.refcount_order();
        let counters = Counters::zeros(alloc, refcount_order, header.rb_entries())?;
        Ok(RefBlock {
            counters,
            placement: Placement {
                cluster: None,
                modified: true,
            },
            cluster_bits: header.cluster_bits(),
            refcount_order,
        })
    }

    /// Loads the block at a cluster of the image, in pieces of 4096 bytes. It then has that cluster and
    /// doesn't count as modified. Refuses an end past 2^56 (21). Never changes a byte.
    #[tactic(auto, using(crate::proofs::RefblockLemmas::zeros_are_valid))]
    pub fn load<S: Storage>(
        alloc: Global,
        image: &mut S,
        header: &Header,
        cluster: HostCluster,
    ) -> Result<RefBlock, Fault>
        ensures refused { RefusesPlace (block_layout (block_geometry_of header.now)) cluster result }
        ensures reads { Reads (λ block. block.numbers) result (loaded_block header.now cluster)
            (IsBlockFault header.now cluster) (S.state image.old) (S.state image.new) }
        ensures loaded { let geometry = block_geometry_of header.now in IfOk result
            (IsLoaded (block_layout geometry) geometry cluster (S.state image.old)) }
    {
        let (bits, order) = (header.cluster_bits(), header.refcount_order());
        let offset = range_offset(cluster, bits, 1 << bits)?;
        let mut counters = Counters::zeros(alloc, order, header.rb_entries())?;
        read_counters(&mut counters, image, header, offset)?;
        Ok(RefBlock {
            counters,
            placement: Placement {
                cluster: Some(cluster),
                modified: false,
            },
            cluster_bits: bits,
            refcount_order: order,
        })
    }

    /// Reads the block at a cluster of the image over this one, as `load` does, but allocates nothing.
    /// Refuses an end past 2^56 (21), and then leaves this block unchanged. A storage fault (34) may leave
    /// any refcounts; the block then has no cluster, and counts as modified. Never changes a byte.
    pub fn reload<S: Storage>(
        &mut self,
        image: &mut S,
        header: &Header,
        cluster: HostCluster,
    ) -> Result<(), Fault>
        requires geometry { self.old.geometry ≡ block_geometry_of header.now }
        ensures refused { RefusesPlace (block_layout self.old.geometry) cluster result }
        ensures reads { Reads (λ done. self.new.numbers) result (loaded_block header.now cluster)
            (IsBlockFault header.now cluster) (S.state image.old) (S.state image.new) }
        ensures loaded { OnOk result (IsLoaded (block_layout self.old.geometry) self.old.geometry cluster
            (S.state image.old) self.new) }
        ensures memory { IfErr result (λ fault. fault ≢ Fault.NoMemory) }
        ensures left { LeavesReloaded result self.old self.new }
    {
        let offset = range_offset(cluster, self.cluster_bits, 1 << self.cluster_bits)?;
        self.placement = Placement {
            cluster: None,
            modified: true,
        };
        read_counters(&mut self.counters, image, header, offset)?;
        self.placement = Placement {
            cluster: Some(cluster),
            modified: false,
        };
        Ok(())
    }

    /// Writes the block to the image, at its cluster, in pieces of 4096 bytes.
    ///
    /// Refuses a block without a cluster (22), then an end past 2^56 (21). After `Ok` the block doesn't count
    /// as modified. After a storage fault (34) it does, some pieces are written, the next one may have any
    /// bytes, and those after it are unchanged. Any other refusal changes nothing. Refcounts and cluster
    /// always stay, and no byte outside the block's cluster changes.
    pub fn write<S: Storage>(&mut self, image: &mut S) -> Result<(), Fault>
        ensures written { Writes (block_layout self.old.geometry) self.old.numbers self.old.cluster result
            (S.state image.old) (S.state image.new) }
        ensures flag { FollowsWrite result self.old self.new }
    {
        let mut placement = self.placement;
        let written = placement.write(&*self, Pieces::All, image);
        self.placement = placement;
        written
    }

    /// Writes the block to the image, as `write` does, if it counts as modified. Its cluster must then be the
    /// given one. Else changes neither block nor image.
    pub fn write_if_modified<S: Storage>(
        &mut self,
        image: &mut S,
        cluster: HostCluster,
    ) -> Result<(), Fault>
        requires { self.old.modified ≡ true → self.old.cluster ≡ Some cluster }
        ensures { WritesIfModified S.state (block_layout self.old.geometry) result self.old self.new
            image.old image.new }
    {
        // Only the contract uses the cluster.
        let _ = cluster;
        let mut placement = self.placement;
        let written = placement.write_if_modified(&*self, Pieces::All, image);
        self.placement = placement;
        written
    }

    /// Writes only those pieces of the block that differ from the image, if the block counts as modified. Its
    /// cluster must then be the given one. Has the effect of `write_if_modified` with fewer bytes written,
    /// but reads each piece first.
    pub fn write_changes<S: Storage>(
        &mut self,
        image: &mut S,
        cluster: HostCluster,
    ) -> Result<(), Fault>
        requires { self.old.modified ≡ true → self.old.cluster ≡ Some cluster }
        ensures { WritesIfModified S.state (block_layout self.old.geometry) result self.old self.new
            image.old image.new }
    {
        // Only the contract uses the cluster.
        let _ = cluster;
        let mut placement = self.placement;
        let written = placement.write_if_modified(&*self, Pieces::Changed, image);
        self.placement = placement;
        written
    }

    /// Returns the number of refcounts in the block.
    #[inline]
    pub fn entries(&self) -> usize
        ensures count { result ≡ length self.now.numbers }
        ensures value { let g = self.now.geometry in
            result ≡ block_entries g.cluster_bits g.refcount_order }
        ensures valid { IsValidBlock self.now.geometry self.now.cluster self.now.numbers }
    {
        1 << (self.cluster_bits + 3 - self.refcount_order)
    }

    /// Returns the refcount at an index.
    #[inline]
    pub fn get(&self, index: usize) -> u64
        requires { index < length self.now.numbers }
        ensures counter { result ≡ slice_index self.now.numbers index }
        ensures fits { result ≤ greatest_counter self.now.geometry.refcount_order }
    {
        self.counters.get(index)
    }

    /// Whether the refcount at an index is 0.
    #[inline]
    pub fn is_zero(&self, index: usize) -> bool
        requires { index < length self.now.numbers }
        ensures { result ≡ (slice_index self.now.numbers index == 0) }
    {
        self.get(index) == 0
    }

    /// Returns the block's cluster in the image, or `None` if it has no place.
    #[inline]
    pub fn get_cluster(&self) -> Option<HostCluster>
        ensures { result ≡ self.now.cluster }
    {
        self.placement.cluster
    }

    /// Returns the block's offset in the image, or `None` if it has no place.
    #[inline]
    pub fn get_offset(&self) -> Option<HostOffset>
        ensures { option_map (λ (offset : Offset). offset.0) result
            ≡ option_map (offset_of (block_layout self.now.geometry)) self.now.cluster }
    {
        Some(self.placement.cluster?.offset(self.cluster_bits))
    }

    /// Places the block at a cluster of the image, whose offset must fit 64 bits. The block then counts as
    /// modified.
    pub fn set_cluster(&mut self, cluster: HostCluster)
        requires { offset_of (block_layout self.old.geometry) cluster < 2 ^ 64 }
        ensures { self.new ≡ record self.old { cluster = Some cluster; modified = true } }
    {
        self.placement.cluster = Some(cluster);
        self.placement.modified = true;
    }

    /// Returns the logarithm of the cluster size in bytes, from 9 to 21.
    #[inline]
    pub fn cluster_bits(&self) -> u32
        ensures value { result ≡ self.now.geometry.cluster_bits }
        ensures range { IsClusterBits result }
    {
        self.cluster_bits
    }

    /// Returns the logarithm of the width of a refcount in bits, from 0 to 6.
    #[inline]
    pub fn refcount_order(&self) -> u32
        ensures value { result ≡ self.now.geometry.refcount_order }
        ensures range { result ≤ 6 }
    {
        self.refcount_order
    }

    /// Whether the block was changed since it was last read or written.
    #[inline]
    pub fn is_modified(&self) -> bool
        ensures { result ≡ self.now.modified }
    {
        self.placement.modified
    }

    /// Marks the block as equal to the image's.
    pub fn clear_modified(&mut self)
        ensures { self.new ≡ record self.old { modified = false } }
    {
        self.placement.modified = false;
    }

    /// Marks the block as different from the image's.
    pub fn set_modified(&mut self)
        ensures { self.new ≡ record self.old { modified = true } }
    {
        self.placement.modified = true;
    }

    /// Returns the allocator of the block's refcounts.
    pub fn allocator(&self) -> Global {
        self.kept().allocator()
    }

    // Returns the refcounts as memory has them: one integer each, of the smallest type for the refcount
    // order.
    #[inline]
    fn kept(&self) -> &Counters
        ensures integers { IsOfOrder self.now.geometry.refcount_order result.now }
        ensures numbers { kept_counters result.now ≡ self.now.numbers }
        ensures count { let block = self.now in
            length (kept_counters result.now)
            ≡ block_entries block.geometry.cluster_bits block.geometry.refcount_order }
    {
        &self.counters
    }

    #[inline]
    fn greatest(&self) -> u64
        ensures { result ≡ greatest_counter self.now.geometry.refcount_order }
    {
        GREATEST_COUNTERS[self.refcount_order as usize]
    }

    // Replaces the refcount at an index by one that fits its width. The block then counts as modified.
    #[inline]
    fn set(&mut self, index: usize, counter: u64)
        requires index { index < length self.old.numbers }
        requires counter { counter ≤ greatest_counter self.old.geometry.refcount_order }
        ensures { self.new ≡ with_number self.old index counter }
    {
        self.counters.set(index, counter);
        self.placement.modified = true;
    }

    /// Returns a guard for changes of the block's refcounts.
    pub fn lock_write(&mut self) -> RefBlockWriteGuard<'_>
        ensures { IsBlockGuard self.entry result }
    {
        RefBlockWriteGuard { block: self }
    }
}

impl Packed for RefBlock {
    ghost use Rattle.qcow2_metadata.specs.Refblock.{block_layout};

    ghost layout = { λ b. block_layout b.geometry };

    ghost numbers = { λ b. b.numbers };

    fn byte_count(&self) -> usize {
        1 << self.cluster_bits
    }

    #[tactic(auto, using(crate::proofs::RefblockLemmas::block_reads_back))]
    fn offset_at(&self, cluster: HostCluster) -> Result<HostOffset, Fault> {
        range_offset(cluster, self.cluster_bits, 1 << self.cluster_bits)
    }

    fn pack(&self, piece: usize, buffer: &mut [u8]) {
        self.kept().pack(self.refcount_order, piece, buffer);
    }
}
