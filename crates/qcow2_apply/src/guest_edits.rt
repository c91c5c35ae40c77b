//! Edits of guest ranges, and the edits of L2 entries that they consist of.

ghost use Rattle.std.specs.Prelude.{◌≡◌, ℕ, ◌*◌, ◌+◌, ◌^◌, ◌<◌, ◌≤◌, ◌++◌, ◌&&◌, IfOk, Ok, OnOk, map, nat_le, nat_lt, not, true};
ghost use Rattle.std.specs.List.{flat_map, list_any, position, range_with_len};
ghost use Rattle.qcow2_metadata.specs.Results.{unless_refused};
ghost use Rattle.qcow2_metadata.specs.Table.{l2_entries};
ghost use Rattle.qcow2_base.specs.Types.{IsClusterBits};
ghost use Rattle.qcow2_apply.specs.EditsByTable.{positions_in};
ghost use Rattle.qcow2_apply.specs.GuestEdits.{cluster_end, disk_refusal, edit_at, edits_by, edits_in, edits_refusal, ends_after, first_cluster, first_unfit_of, guest_edit_fits, guest_length, guest_offset, has_clusters_in, is_discard, is_mappable_by, is_zeros, table_end, table_start};
ghost use Rattle.qcow2_apply.specs.Tables.{IsLeftBy, IsL2TableOf};

use qcow2_base::{Fault, GuestCluster, GuestOffset, HostCluster, MAX_OFFSET};
use qcow2_check::refuse_short_l1;
use qcow2_edits::Edit;
use qcow2_metadata::{Header, L2Table};
use std::alloc::{AllocError, Global};

/// A change of what a guest range reads as. Offsets and lengths are in bytes, and multiples of the cluster
/// size.
#[derive(Clone, Copy, Debug, PartialEq, Eq)]
pub enum GuestEdit {
    /// One guest cluster reads as the data of a host cluster that has no other reference.
    Map {
        offset: GuestOffset,
        host_cluster: HostCluster,
    },
    /// A range reads as zeros, which needs version 3. With `keep_allocation` an entry keeps its host cluster,
    /// except that compressed data is always freed.
    Zero {
        offset: GuestOffset,
        length: u64,
        keep_allocation: bool,
    },
    /// A range is discarded: it has no data.
    Discard {
        offset: GuestOffset,
        length: u64,
    },
}

impl GuestEdit {
    /// The offset of the range.
    #[inline]
    pub fn offset(&self) -> GuestOffset
        ensures { result ≡ guest_offset self.now }
    {
        match *self {
            GuestEdit::Map { offset, .. }
            | GuestEdit::Zero { offset, .. }
            | GuestEdit::Discard { offset, .. } => offset,
        }
    }

    /// The length of the range in bytes: one cluster for a mapping.
    #[inline]
    pub fn length(&self, cluster_bits: u32) -> u64
        requires { IsClusterBits cluster_bits }
        ensures { result ≡ guest_length cluster_bits self.now }
    {
        match *self {
            GuestEdit::Map { .. } => 1 << cluster_bits,
            GuestEdit::Zero { length, .. } | GuestEdit::Discard { length, .. } => length,
        }
    }

    /// Whether it writes zeros.
    #[inline]
    pub fn is_zeros(&self) -> bool
        ensures { result ≡ is_zeros self.now }
    {
        match *self {
            GuestEdit::Zero { .. } => true,
            GuestEdit::Map { .. } | GuestEdit::Discard { .. } => false,
        }
    }

    /// Whether it discards data, which needs no L2 table.
    #[inline]
    pub fn is_discard(&self) -> bool
        ensures { result ≡ is_discard self.now }
    {
        match *self {
            GuestEdit::Discard { .. } => true,
            GuestEdit::Map { .. } | GuestEdit::Zero { .. } => false,
        }
    }

    // The edit of the L2 entry at an index.
    #[inline]
    fn at(&self, index: usize) -> Edit
        ensures { result ≡ edit_at self.now index }
    {
        match *self {
            GuestEdit::Map { host_cluster, .. } => Edit::Map {
                index,
                host_cluster,
            },
            GuestEdit::Zero {
                keep_allocation,
                ..
            } => Edit::Zero {
                index,
                keep_allocation,
            },
            GuestEdit::Discard { .. } => Edit::Discard { index },
        }
    }

    // Whether an entry can refer to the host cluster that the edit maps. True if it maps none.
    fn is_mappable(&self, header: &Header) -> bool
        ensures { result ≡ is_mappable_by header.now self.now }
    {
        match *self {
            GuestEdit::Map { host_cluster, .. } => {
                let greatest = MAX_OFFSET.cluster(header.cluster_bits());
                host_cluster.0 <= greatest.0 && (header.external_data_file() || host_cluster.0 != 0)
            }
            GuestEdit::Zero { .. } | GuestEdit::Discard { .. } => true,
        }
    }

    // The first guest cluster of the range, and the one after the last.
    #[tactic(auto, using(crate::proofs::GuestEditsLemmas::sum_fits))]
    fn clusters(&self, cluster_bits: u32) -> (u64, u64)
        requires { IsClusterBits cluster_bits }
        ensures first { result.0 ≡ first_cluster cluster_bits self.now }
        ensures end { result.1 ≡ cluster_end cluster_bits self.now }
    {
        let first = self.offset().cluster(cluster_bits).0;
        let length = GuestOffset(self.length(cluster_bits));
        (first, first + length.cluster(cluster_bits).0)
    }

    /// Whether the edit fits a disk of this header: its range is one or more clusters of the disk, the last
    /// of which may reach past the disk's end, and an entry can refer to the host cluster that it maps, which
    /// isn't the header's.
    pub fn fits(&self, header: &Header) -> bool
        ensures { result ≡ guest_edit_fits header.now self.now }
    {
        let cluster_bits = header.cluster_bits();
        let length = GuestOffset(self.length(cluster_bits));
        let (first, end) = self.clusters(cluster_bits);
        self.offset().in_cluster_offset(cluster_bits) == 0
            && length.in_cluster_offset(cluster_bits) == 0
            && first < end
            && end <= header.size().div_ceil(1 << cluster_bits)
            && self.is_mappable(header)
    }

    // The guest clusters of the range that the L2 table of an L1 entry maps: the first, and the one after the
    // last.
    fn clusters_in(&self, cluster_bits: u32, l1_index: usize) -> (u64, u64)
        requires bits { IsClusterBits cluster_bits }
        requires index { l1_index < 2 ^ 32 }
        ensures start { result.0 ≡ table_start cluster_bits l1_index self.now }
        ensures end { result.1 ≡ table_end cluster_bits l1_index self.now }
    {
        let (first, end) = self.clusters(cluster_bits);
        let of_table = GuestCluster::from_l1_l2_indices(l1_index, 0, cluster_bits).0;
        let entries = 1u64 << (cluster_bits - 3);
        (first.max(of_table), end.min(of_table + entries))
    }

    /// Whether the L2 table of an L1 entry maps guest clusters of the range.
    pub fn has_clusters_in(&self, header: &Header, l1_index: u32) -> bool
        ensures { result ≡ has_clusters_in header.now.v2.cluster_bits l1_index self.now }
    {
        let (start, end) = self.clusters_in(header.cluster_bits(), l1_index as usize);
        start < end
    }

    /// The L1 entries whose L2 tables map guest clusters of the range, if it fits the disk: the first, and
    /// the one after the last.
    pub fn tables(&self, header: &Header) -> (usize, usize)
        requires fits { guest_edit_fits header.now self.now ≡ true }
        ensures { (i : ℕ) → has_clusters_in header.now.v2.cluster_bits i self.now
            ≡ (nat_le result.0 i && nat_lt i result.1) }
    {
        let cluster_bits = header.cluster_bits();
        let (first, end) = self.clusters(cluster_bits);
        let entries = 1u64 << (cluster_bits - 3);
        (
            GuestCluster(first).l1_index(cluster_bits),
            end.div_ceil(entries) as usize,
        )
    }

    /// Whether the range has guest clusters after those of all L1 entries.
    pub fn ends_after(&self, header: &Header) -> bool
        ensures { result ≡ ends_after header.now.v2.cluster_bits header.now.v2.l1_size self.now }
    {
        let (_, end) = self.clusters(header.cluster_bits());
        (header.l1_table_entries() as u64) << (header.cluster_bits() - 3) < end
    }

    /// Makes the part of the edit that concerns the L2 table of an L1 entry. The edit must fit the disk.
    /// Takes no memory.
    pub(crate) fn make_in(&self, table: &mut L2Table, header: &Header, l1_index: usize)
        requires index { l1_index < 2 ^ 32 }
        requires table { IsL2TableOf header.now table.old }
        requires fits { guest_edit_fits header.now self.now ≡ true }
        ensures { IsLeftBy header.now (edits_by header.now.v2.cluster_bits l1_index self.now)
            table.old table.new }
    {
        let cluster_bits = header.cluster_bits();
        let (start, end) = self.clusters_in(cluster_bits, l1_index);
        for cluster in start..end {
            let edit = self.at(GuestCluster(cluster).l2_index(cluster_bits));
            let _ = edit.make(table);
        }
    }

    // Appends the entry edits of this edit that concern the L2 table of an L1 entry.
    fn push_edits(
        &self,
        edits: &mut Vec<Edit>,
        cluster_bits: u32,
        l1_index: usize,
    ) -> Result<(), AllocError>
        requires bits { IsClusterBits cluster_bits }
        requires index { l1_index < 2 ^ 32 }
        ensures { OnOk result (edits.new.items ≡ edits.old.items ++ edits_by cluster_bits l1_index self.now) }
    {
        let (start, end) = self.clusters_in(cluster_bits, l1_index);
        for cluster in start..end {
            edits.push(self.at(GuestCluster(cluster).l2_index(cluster_bits)))?;
        }
        Ok(())
    }
}

/// The position of the first edit that doesn't fit a disk of this header, if there is one.
pub fn first_unfit(header: &Header, edits: &[GuestEdit]) -> Option<usize>
    ensures { result ≡ first_unfit_of header.now edits.now }
{
    edits.iter().position(
        |edit: &GuestEdit| -> bool
            ensures { result ≡ not (guest_edit_fits header.entry.now edit.now) }
        { !edit.fits(header) },
    )
}

/// The position of the first edit that concerns the L2 table of an L1 entry, if there is one.
pub(crate) fn first_in(edits: &[GuestEdit], header: &Header, index: u32) -> Option<usize>
    ensures { result ≡ position (has_clusters_in header.now.v2.cluster_bits index) edits.now }
{
    edits.iter().position(
        |edit: &GuestEdit| -> bool
            ensures { result ≡ has_clusters_in header.entry.now.v2.cluster_bits index edit.now }
        { edit.has_clusters_in(header, index) },
    )
}

/// Refuses an image whose disk must not be edited, since that could free clusters in use: one that is marked
/// dirty or corrupt (fault 42), then one whose L1 table is too short for the disk (41).
pub fn refuse_uneditable(header: &Header) -> Result<(), Fault>
    ensures { result ≡ unless_refused (disk_refusal header.now) (Ok tt) }
{
    if header.is_marked() {
        return Err(Fault::Marked);
    }
    refuse_short_l1(header)
}

/// Refuses edits that no image with this header allows: all of them if it is refused by `refuse_uneditable`
/// or has an external data file (36), then one that doesn't fit the disk (32), then zeros in version 2 (27).
pub(crate) fn check_edits(header: &Header, edits: &[GuestEdit]) -> Result<(), Fault>
    ensures { result ≡ unless_refused (edits_refusal header.now edits.now) (Ok tt) }
{
    refuse_uneditable(header)?;
    if header.external_data_file() {
        return Err(Fault::ExternalData);
    }
    if let Some(position) = first_unfit(header, edits) {
        return Err(Fault::BadEdit(position));
    }
    if header.version() == 2 && has_zeros(edits) {
        return Err(Fault::VersionNeeded);
    }
    Ok(())
}

// Whether one of the edits writes zeros.
fn has_zeros(edits: &[GuestEdit]) -> bool
    ensures { result ≡ list_any is_zeros edits.now }
{
    edits.iter().any(
        |edit: &GuestEdit| -> bool
            ensures { result ≡ is_zeros edit.now }
        { edit.is_zeros() },
    )
}

/// The entry edits that concern the L2 table of an L1 entry, in the order of the edits.
pub fn edits_in(
    alloc: Global,
    edits: &[GuestEdit],
    cluster_bits: u32,
    l1_index: usize,
) -> Result<Vec<Edit>, AllocError>
    requires bits { IsClusterBits cluster_bits }
    requires index { l1_index < 2 ^ 32 }
    ensures { IfOk result (λ list. list.items ≡ edits_in cluster_bits l1_index edits.now) }
{
    let mut list = Vec::new(alloc);
    for edit in edits {
        edit.push_edits(&mut list, cluster_bits, l1_index)?;
    }
    Ok(list)
}

/// The same from the positions of the edits that concern the table.
pub(crate) fn edits_at(
    alloc: Global,
    edits: &[GuestEdit],
    positions: &[usize],
    cluster_bits: u32,
    l1_index: usize,
) -> Result<Vec<Edit>, AllocError>
    requires bits { IsClusterBits cluster_bits }
    requires index { l1_index < 2 ^ 32 }
    requires positions { positions.now ≡ positions_in cluster_bits l1_index edits.now }
    ensures { IfOk result (λ list. list.items ≡ edits_in cluster_bits l1_index edits.now) }
{
    let mut list = Vec::new(alloc);
    for position in positions {
        edits[*position].push_edits(&mut list, cluster_bits, l1_index)?;
    }
    Ok(list)
}
