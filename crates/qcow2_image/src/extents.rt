//! The content of a whole disk, in extents as long as possible.

ghost use Rattle.std.specs.Prelude.{◌≡◌, ◌⊎◌, ◌+◌, ◌-◌, ◌*◌, ◌/◌, ◌^◌, ◌<◌, ◌≤◌, ◌↔◌, None, Some, Ok, Err, IfErr, IfOk, IfSome, IsOkAnd, IsSome, IsSomeAnd, IsTrue, MatchResult, min};
ghost use Rattle.qcow2_base.specs.Storage.{OnImage, OnlyReads};
ghost use Rattle.qcow2_base.specs.declared.fault.Fault.TheVariants.{NoMemory, Storage as StorageFailed};
ghost use Rattle.qcow2_metadata.specs.Results.{Reads, result_map};
ghost use Rattle.qcow2_metadata.specs.Entries.L2Mapping.{IsPlaced, meaning};
ghost use Rattle.qcow2_metadata.specs.Header.{geometry_of};
ghost use Rattle.qcow2_metadata.specs.Placed.{RefusesPlace};
ghost use Rattle.qcow2_metadata.specs.Table.{IsContentFault, IsEntryFault, IsTableFault, loaded_l2_table};
ghost use Rattle.qcow2_check.specs.NamedTables.{IsInImage, l1_cluster, l1_layout, loaded_l1_table};
ghost use Rattle.qcow2_image.specs.Lookups.{l2_cluster};
ghost use Rattle.qcow2_image.specs.Extents.{AreInOneTable, HasNoTable, IsKeptOf, IsPiece, content_in, contents_in, kept_numbers, moved_on};

use crate::kept_table::KeptTable;
use crate::lookups::{l2_cluster, next_named};
use qcow2_base::{Fault, GuestOffset, HostCluster, HostOffset, Storage};
use qcow2_check::{load_l1_table, load_l2_table};
use qcow2_metadata::{Header, L1Table, L2Mapping, Table};
use std::alloc::Global;
use std::marker::Model;

/// The content of consecutive bytes of the guest's disk.
#[derive(Clone, Copy, Debug, PartialEq, Eq)]
pub enum Content {
    /// Data of the image or its external data file, in consecutive host clusters. The first byte is at this
    /// offset.
    Data(HostOffset),
    /// Zeros without host clusters.
    Zeros,
    /// Zeros with consecutive allocated host clusters. The first byte is at this offset.
    AllocatedZeros(HostOffset),
    /// Compressed data, each cluster by itself.
    Compressed,
    /// The backing file's data there, or zeros if there is no backing file.
    Absent,
}

/// A range of the guest's disk with one content.
#[derive(Clone, Copy, Debug, PartialEq, Eq)]
pub struct Extent {
    pub start: GuestOffset,
    /// The length in bytes, never 0.
    pub length: u64,
    pub content: Content,
}

impl Content {
    // Returns the content of the byte at a distance from the start of its cluster, by the cluster's mapping.
    #[inline]
    fn within(mapping: L2Mapping, distance: u64, cluster_bits: u32) -> Content
        requires placed { IsPlaced cluster_bits mapping }
        requires distance { distance < 2 ^ 21 }
        ensures { result ≡ content_in cluster_bits distance (meaning mapping) }
    {
        match mapping {
            L2Mapping::DataFile {
                host_cluster,
                copied: _,
            } => Content::Data(HostOffset(host_cluster.offset(cluster_bits).0 + distance)),
            L2Mapping::Backing { backing_offset: _ } => Content::Absent,
            L2Mapping::Zero {
                host_cluster: Some(host_cluster),
                copied: _,
            } => Content::AllocatedZeros(HostOffset(
                host_cluster.offset(cluster_bits).0 + distance,
            )),
            L2Mapping::Zero {
                host_cluster: None,
                copied: _,
            } => Content::Zeros,
            L2Mapping::Compressed {
                host_offset: _,
                length: _,
            } => Content::Compressed,
        }
    }

    // Whether `next` continues this content, if it begins `distance` bytes after it begins.
    #[inline]
    fn goes_on_as(self, distance: u64, next: Content) -> bool
        ensures { IsTrue result ↔ (next ≡ moved_on distance self) }
    {
        match (self, next) {
            (Content::Data(before), Content::Data(offset))
            | (Content::AllocatedZeros(before), Content::AllocatedZeros(offset)) => {
                offset.0 >= distance && offset.0 - distance == before.0
            }
            (Content::Zeros, Content::Zeros)
            | (Content::Compressed, Content::Compressed)
            | (Content::Absent, Content::Absent) => true,
            _ => false,
        }
    }
}

// Returns the next offset after this one that has an L2 table, or the disk's size.
fn gap_end(l1_table: &L1Table, from: u64, size: u64) -> u64
    requires within { from < size }
    requires none { let cb = l1_table.now.geometry.cluster_bits in
        l2_cluster cb l1_table.now.numbers (from / 2 ^ cb) ≡ None }
    ensures some { from < result }
    ensures within { result ≤ size }
    ensures none { HasNoTable l1_table.now.geometry.cluster_bits l1_table.now.numbers from result }
    ensures ends { result < size → let cb = l1_table.now.geometry.cluster_bits in
        IsSome (l2_cluster cb l1_table.now.numbers (result / 2 ^ cb)) }
{
    let cluster_bits = l1_table.cluster_bits();
    let index = GuestOffset(from).l1_index(cluster_bits);
    match next_named(l1_table, index + 1) {
        Some(next) => (next as u64)
            .saturating_mul(1 << (2 * cluster_bits - 3))
            .min(size),
        None => size,
    }
}

// Returns the content of the byte at an offset by the table that has its entry, and the end of that content
// in this table, at most the disk's size. Always returns `Ok`.
#[inline(always)]
#[tactic(auto, using(crate::proofs::ExtentsLemmas::distance_below))]
fn piece_of_table(kept: &mut KeptTable, from: u64, size: u64) -> Result<(Content, u64), Fault>
    requires { from < size }
    ensures piece { IsOkAnd result (λ piece. IsPiece (contents_in kept.old) size from piece
        × AreInOneTable kept.old.geometry.cluster_bits from piece.1) }
    ensures table { kept.new ≡ kept.old }
{
    let cluster_bits = kept.table().cluster_bits();
    let guest_cluster = GuestOffset(from).cluster(cluster_bits);
    let distance = GuestOffset(from).in_cluster_offset(cluster_bits);
    let mapping = kept.table().get_mapping(guest_cluster)?;
    let content = Content::within(mapping, distance, cluster_bits);
    let run = kept.run_length(guest_cluster).byte_size(cluster_bits) - distance;
    Ok((content, from + run.min(size - from)))
}

/// A reader of the content of a whole disk, extent by extent. It has the L1 table and at most one L2 table in
/// memory. In contracts it is its `ExtentsState`: what it has of the image, and its position.
#[derive(Drop)]
pub struct Extents<'a> {
    header: &'a Header,
    l1_table: L1Table,
    position: u64,
    table: Option<KeptTable>,
    // The content and end from the position on, if `next` has read them to see that the extent before ends
    // there.
    ahead: Option<(Content, u64)>,
}

impl<'a> Model for Extents<'a> {
    ghost use Rattle.std.specs.Prelude.{◌≡◌, ◌<◌, ◌≤◌, IfSome};
    ghost use Rattle.qcow2_metadata.specs.Header.{geometry_of};
    ghost use Rattle.qcow2_image.specs.Extents.{ExtentsState};

    ghost Value = { ExtentsState };

    ghost view = { λ e. record {
      header = e.header.now;
      l1 = e.l1_table.numbers;
      position = e.position;
      table = e.table;
      ahead = e.ahead;
    } };

    ghost invariant = { λ e. (e.l1_table.geometry ≡ geometry_of e.header.now)
        × (e.position ≤ e.header.now.v2.size)
        × IfSome e.table (λ table. table.geometry ≡ geometry_of e.header.now)
        × IfSome e.ahead (λ piece. (e.position < piece.1) × (piece.1 ≤ e.header.now.v2.size)) };
}

// Makes `kept` the L2 table that begins with a cluster: leaves it if it is that one, or else loads it by
// `L2Table::load`. A fault leaves `None`.
fn keep_table<S: Storage>(
    kept: &mut Option<KeptTable>,
    image: &mut S,
    header: &Header,
    alloc: Global,
    cluster: HostCluster,
) -> Result<(), Fault>
    requires kept { OnImage (S.state image.old) (λ bytes. IsKeptOf (geometry_of header.now) bytes kept.old) }
    requires geometry { IfSome kept.old (λ table. table.geometry ≡ geometry_of header.now) }
    requires end { IsInImage header.now.v2.cluster_bits cluster }
    ensures kept { MatchResult result
        (λ done. IsSomeAnd kept.new (λ table. (table.cluster ≡ Some cluster)
        × (table.geometry ≡ geometry_of header.now)))
        (λ fault. kept.new ≡ None) }
    ensures reads { Reads (λ done. kept_numbers kept.new) result
        (loaded_l2_table (geometry_of header.now) cluster) IsEntryFault
        (S.state image.old) (S.state image.new) }
{
    let is_kept = match kept {
        Some(kept) => kept.table().get_cluster() == Some(cluster),
        None => false,
    };
    if !is_kept {
        // Frees its memory before the next table takes as much.
        *kept = None;
        *kept = Some(KeptTable::new(load_l2_table(alloc, image, header, cluster)?));
    }
    Ok(())
}

impl<'a> Extents<'a> {
    ghost use Rattle.qcow2_image.specs.Extents.{IsReaderOf, MovesReader, PassesExtent, StaysReader, contents_for, extent_of};

    /// Returns a reader of the extents of an image with this header, from the start of the disk on. Reads the
    /// L1 table, and returns its fault if that is refused. Changes no byte.
    pub fn new<S: Storage>(
        alloc: Global,
        image: &mut S,
        header: &'a Header,
    ) -> Result<Extents<'a>, Fault>
        ensures refused { RefusesPlace (l1_layout header.now) (l1_cluster header.now) result }
        ensures reads { Reads (λ extents. extents.l1) result (loaded_l1_table header.now)
            (IsTableFault (l1_layout header.now) (l1_cluster header.now))
            (S.state image.old) (S.state image.new) }
        ensures begun { IfOk result (λ extents. extents ≡ record {
          header = header.now;
          l1 = extents.l1;
          position = 0;
          table = None;
          ahead = None;
        }) }
    {
        let l1_table = load_l1_table(alloc, image, header)?;
        Ok(Extents {
            header,
            l1_table,
            position: 0,
            table: None,
            ahead: None,
        })
    }

    /// Moves to an offset, or to the disk's end if that is lower. The next extent begins there, even if its
    /// bytes continue those before. Keeps the loaded L2 table, and reads nothing.
    pub fn seek(&mut self, offset: GuestOffset)
        ensures { self.new ≡ record self.old {
          position = min offset.0 self.old.header.v2.size;
          ahead = None;
        } }
    {
        self.position = offset.0.min(self.header.size());
        self.ahead = None;
    }

    // Returns the content of the byte at an offset, and an offset up to which it continues, at most the
    // disk's size.
    fn piece<S: Storage>(&mut self, image: &mut S, from: u64) -> Result<(Content, u64), Fault>
        requires within { from < self.old.header.v2.size }
        requires kept { OnImage (S.state image.old) (λ bytes.
            IsKeptOf (geometry_of self.old.header) bytes self.old.table) }
        ensures told { OnImage (S.state image.old) (λ bytes.
            MatchResult result (IsPiece (contents_for self.old bytes) self.old.header.v2.size from)
            (λ fault. (fault ≡ StorageFailed) ⊎ (fault ≡ NoMemory)
            ⊎ (contents_for self.old bytes from ≡ Err fault))) }
        ensures within { IfOk result (λ piece. (from < piece.1) × (piece.1 ≤ self.old.header.v2.size)) }
        ensures reader { StaysReader (S.state image.old) self.old self.new }
        ensures faults { IfErr result IsContentFault }
        ensures storage { OnlyReads result (S.state image.old) (S.state image.new) }
    {
        let cluster_bits = self.header.cluster_bits();
        let size = self.header.size();
        let guest_cluster = GuestOffset(from).cluster(cluster_bits);
        let Some(cluster) = l2_cluster(&self.l1_table, guest_cluster) else {
            return Ok((Content::Absent, gap_end(&self.l1_table, from, size)));
        };
        let alloc = self.l1_table.allocator();
        keep_table(&mut self.table, image, self.header, alloc, cluster)?;
        piece_of_table(self.table.as_mut().unwrap(), from, size)
    }

    // Moves past the extent at the position, and returns its content.
    fn pass_extent<S: Storage>(&mut self, image: &mut S) -> Result<Content, Fault>
        requires within { self.old.position < self.old.header.v2.size }
        requires kept { OnImage (S.state image.old) (λ bytes. IsReaderOf bytes self.old) }
        ensures extent { PassesExtent (S.state image.old) self.old
            (result_map (λ content. Some (extent_of self.old.position (content, self.new.position))) result)
            self.new.position }
        ensures reader { MovesReader (S.state image.old) self.old self.new }
        ensures faults { IfErr result IsContentFault }
        ensures storage { OnlyReads result (S.state image.old) (S.state image.new) }
    {
        let start = self.position;
        let size = self.header.size();
        let (content, mut end) = match self.ahead {
            Some(piece) => piece,
            None => self.piece(image, start)?,
        };
        while end < size {
            let (next, next_end) = self.piece(image, end)?;
            if !content.goes_on_as(end - start, next) {
                self.position = end;
                self.ahead = Some((next, next_end));
                return Ok(content);
            }
            end = next_end;
        }
        self.position = end;
        self.ahead = None;
        Ok(content)
    }

    /// Returns the next extent, or `None` at the disk's end. Extents are consecutive from offset 0 to the
    /// disk's size, and each is as long as possible: data or allocated zeros in consecutive host clusters, or
    /// bytes of one other content.
    ///
    /// Returns the fault of an L2 table that it must read to find the extent's end. The reader then stays
    /// before that extent, and the call can be repeated. Never returns a fault of a table past the disk's
    /// size. The image must be the one that the reader was made for, unchanged since. Changes no byte.
    pub fn next<S: Storage>(&mut self, image: &mut S) -> Result<Option<Extent>, Fault>
        requires { OnImage (S.state image.old) (λ bytes. IsReaderOf bytes self.old) }
        ensures extent { PassesExtent (S.state image.old) self.old result self.new.position }
        ensures reader { MovesReader (S.state image.old) self.old self.new }
        ensures faults { IfErr result IsContentFault }
        ensures storage { OnlyReads result (S.state image.old) (S.state image.new) }
    {
        let start = self.position;
        if start == self.header.size() {
            return Ok(None);
        }
        let content = self.pass_extent(image)?;
        Ok(Some(Extent {
            start: GuestOffset(start),
            length: self.position - start,
            content,
        }))
    }
}
