//! Mappings of guest offsets, by an image's header, L1 table and L2 table.

ghost use Rattle.std.specs.Prelude.{◌≡◌, ℕ, ◌*◌, ◌/◌, ◌^◌, ◌<◌, ◌≤◌, None, IfErr, IfOk, IfSome, IsOkAnd, IsSome, MatchOption, slice_index};
ghost use Rattle.qcow2_metadata.specs.Entries.L2Mapping.{IsPlaced, meaning, backing};
ghost use Rattle.qcow2_metadata.specs.Header.{geometry_of};
ghost use Rattle.qcow2_metadata.specs.Placed.{IsLoaded, RefusesPlace};
ghost use Rattle.qcow2_metadata.specs.Results.{Reads};
ghost use Rattle.qcow2_metadata.specs.Table.{IsContentFault, IsEntryFault, IsTableFault, l2_layout, loaded_l2_table};
ghost use Rattle.qcow2_check.specs.NamedTables.{IsInImage, l1_cluster, l1_layout, loaded_l1_table, named_cluster};
ghost use Rattle.qcow2_image.specs.Lookups.{IsImageFault, guest_mapping, image_mapping, l2_cluster, mapping_in};

use qcow2_base::{Fault, GuestCluster, GuestOffset, HostCluster, Storage};
use qcow2_check::{load_l1_table, load_l2_table, named_cluster};
use qcow2_metadata::{Header, L1Table, L2Mapping, L2Table, Table};
use std::alloc::Global;

/// Returns the mapping of the cluster of a guest offset, in an image with this header and this L1 table,
/// which have the same cluster bits. If the L1 table names no L2 table for it, or ends before it, that is the
/// backing file from the cluster's own offset on. Doesn't check the offset against the disk's size.
///
/// Reads at most that one L2 table, and returns the fault of its first invalid entry, wherever that is in the
/// table. Changes no byte.
#[tactic(auto, using(crate::proofs::LookupsLemmas::cluster_fits))]
pub fn lookup<S: Storage>(
    alloc: Global,
    image: &mut S,
    header: &Header,
    l1_table: &L1Table,
    guest_offset: GuestOffset,
) -> Result<L2Mapping, Fault>
    requires cluster_bits { header.now.v2.cluster_bits ≡ l1_table.now.geometry.cluster_bits }
    ensures reads { Reads meaning result
        (guest_mapping (geometry_of header.now) l1_table.now.numbers guest_offset.0)
        IsEntryFault (S.state image.old) (S.state image.new) }

    // Without an L2 table the call doesn't read the image.
    ensures unmapped { let cb = header.now.v2.cluster_bits in
        l2_cluster cb l1_table.now.numbers (guest_offset.0 / 2 ^ cb) ≡ None →
        IsOkAnd result (λ found. meaning found ≡ backing (guest_offset.0 / 2 ^ cb * 2 ^ cb))
        × (image.new ≡ image.old) }
    ensures placed { IfOk result (IsPlaced header.now.v2.cluster_bits) }
{
    let cluster_bits = header.cluster_bits();
    let guest_cluster = guest_offset.cluster(cluster_bits);
    let Some(cluster) = l2_cluster(l1_table, guest_cluster) else {
        let backing_offset = guest_cluster.offset(cluster_bits).0;
        return Ok(L2Mapping::Backing { backing_offset });
    };
    let l2_table = load_l2_table(alloc, image, header, cluster)?;
    l2_table.get_mapping(guest_cluster)
}

/// Returns the mapping of the cluster of a guest offset, by the image alone. Doesn't check the offset against
/// the disk's size.
///
/// Reads the header, the L1 table and at most one L2 table, and returns the fault of the first that it
/// refuses: one of 1 to 21, or 34 or 35 instead. Changes no byte.
pub fn lookup_image<S: Storage>(
    alloc: Global,
    image: &mut S,
    guest_offset: GuestOffset,
) -> Result<L2Mapping, Fault>
    ensures { Reads meaning result (image_mapping guest_offset.0) IsImageFault
        (S.state image.old) (S.state image.new) }
{
    let header = Header::load(alloc, image, false)?;
    lookup_with_header(alloc, image, &header, guest_offset)
}

/// Returns the mapping of the cluster of a guest offset, in an image with this header.
pub fn lookup_with_header<S: Storage>(
    alloc: Global,
    image: &mut S,
    header: &Header,
    guest_offset: GuestOffset,
) -> Result<L2Mapping, Fault>
    ensures reads { Reads meaning result (mapping_in header.now guest_offset.0) IsImageFault
        (S.state image.old) (S.state image.new) }
    ensures placed { IfOk result (IsPlaced header.now.v2.cluster_bits) }
{
    let l1_table = load_l1_table(alloc, image, header)?;
    lookup(alloc, image, header, &l1_table, guest_offset)
}

/// Returns the index of the first L1 entry from `first` on that names an L2 table, or `None`.
#[tactic(auto, using(crate::proofs::ExtentsLemmas::unnamed_from, crate::proofs::ExtentsLemmas::unnamed_more))]
pub(crate) fn next_named(l1_table: &L1Table, first: usize) -> Option<usize>
    ensures { let cb = l1_table.now.geometry.cluster_bits in
        MatchOption result
        ((k : ℕ) → first ≤ k → named_cluster cb (slice_index l1_table.now.numbers k) ≡ None)
        (λ next. (first ≤ next) × IsSome (named_cluster cb (slice_index l1_table.now.numbers next))
        × ((k : ℕ) → first ≤ k → k < next →
        named_cluster cb (slice_index l1_table.now.numbers k) ≡ None)) }
{
    for index in first..l1_table.entries() {
        if named_cluster(l1_table, index).is_some() {
            return Some(index);
        }
    }
    None
}

/// Returns the first cluster of the L2 table of a guest cluster, or `None`. That table's cluster ends at or
/// below 2^56.
pub(crate) fn l2_cluster(l1_table: &L1Table, guest_cluster: GuestCluster) -> Option<HostCluster>
    ensures value { let cb = l1_table.now.geometry.cluster_bits in
        result ≡ l2_cluster cb l1_table.now.numbers guest_cluster.0 }
    ensures end { IfSome result (IsInImage l1_table.now.geometry.cluster_bits) }
{
    named_cluster(l1_table, guest_cluster.l1_index(l1_table.cluster_bits()))
}
