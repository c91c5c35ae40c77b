//! Edits of the bytes of an L2 table.

ghost use Rattle.std.specs.Prelude.{◌≡◌, ◌^◌, ◌≤◌, IfErr, IfOk, Ok, length, map};
ghost use Rattle.std.specs.List.{list_any};
ghost use Rattle.qcow2_base.specs.Storage.{image_of};
ghost use Rattle.qcow2_base.specs.Types.{IsClusterBits};
ghost use Rattle.qcow2_base.specs.declared.fault.Fault.TheVariants.{NoMemory};
ghost use Rattle.qcow2_edits.specs.Edits.{cluster_numbers, edits_left};
ghost use Rattle.qcow2_metadata.specs.Header.{geometry, geometry_of};
ghost use Rattle.qcow2_metadata.specs.Results.{Computes, result_map};
ghost use Rattle.qcow2_metadata.specs.Table.{l2_entries, table_numbers};
ghost use Rattle.qcow2_bytes.specs.Images.Extents.{IsPutOver};
ghost use Rattle.qcow2_bytes.specs.Tables.Edit.{AnswersEdits, EditsBytes, edit_geometry, edit_said, host_clusters, is_marked_in, run_of_bytes, says_zeros, table_of_bytes};

use crate::entries::first_bad;
use crate::{BadEntry, HeaderFields, HostClusters};
use qcow2_base::{Fault, HostCluster, SliceStorage, write_be};
use qcow2_edits::{Edit, Outcome, edit_table};
use qcow2_metadata::{ClustersToFreeEntry, Header, L2Table, Table, TableEntry};
use std::alloc::{AllocError, Global};

/// A change of what one guest cluster reads as, in plain numbers.
#[repr(C)]
#[derive(Clone, Copy, Debug, PartialEq, Eq)]
pub struct EditFields {
    /// 1: data in a host cluster. 2: zeros. 3: zeros that keep a host cluster. 4: no data.
    pub kind: u32,
    /// Ignored.
    pub reserved: u32,
    /// The index of the guest cluster's entry in the table.
    pub index: u64,
    /// For kind 1 the offset of the host cluster in bytes. Ignored for the others.
    pub host_offset: u64,
}

/// The lengths of the lists of clusters that edits free and give references.
#[derive(Clone, Copy, Debug, PartialEq, Eq)]
pub struct EditCounts {
    /// The number of ranges of clusters that lost a reference.
    pub freed: usize,
    /// The number of clusters that gained a reference.
    pub gained: usize,
}

/// The refusal of edits.
#[derive(Clone, Copy, Debug, PartialEq, Eq)]
pub enum EditRefusal {
    /// The edits or other arguments are invalid. A bad edit (32) has its position.
    Edits(Fault),
    /// The table has an invalid entry, the first of which this is (18, 19).
    Table(BadEntry),
    /// The lists are too short for that many elements.
    NoRoom(EditCounts),
}

/// Makes edits in the bytes of a whole L2 table, all or none, as `edit_table` does. Writes the ranges of
/// clusters that lost a reference each to `freed`, and the clusters that gained one to `gained`, in the order
/// of the edits, and returns their numbers. Pass them on to `settle_refcounts`. Elements after them don't
/// change. Lists as long as that of the edits are always long enough.
///
/// The caller maps data to a cluster that has no other reference. This call doesn't check whether another
/// entry refers to it, or the table itself lies there. Zeros that keep a host cluster still free compressed
/// data.
///
/// Refuses zeros in an image of version 2 (27), then fields that no header has (3, 17), then those of an
/// image that is marked dirty or corrupt (42), then bytes whose number isn't the cluster size (31), and the
/// first invalid entry in them (18, 19). Then refuses the first edit of an unknown kind, past the table's
/// end, or to an offset that isn't a multiple of the cluster size or that an entry can't hold (32), and then
/// lists that are too short. Takes memory for the table, the edits and the outcome. After any refusal no byte
/// and no element has changed.
#[tactic(auto, using(crate::proofs::EditLemmas::whole_entries))]
pub fn edit_l2_table(
    alloc: Global,
    bytes: &mut [u8],
    fields: &HeaderFields,
    edits: &[EditFields],
    freed: &mut [HostClusters],
    gained: &mut [u64],
) -> Result<EditCounts, EditRefusal>
    ensures { EditsBytes fields.now edits.now
        (record { bytes = bytes.old; freed = freed.old; gained = gained.old })
        (record { bytes = bytes.new; freed = freed.new; gained = gained.new }) result }
{
    let (cluster_bits, external) = match edit_geometry(bytes, fields, edits) {
        Ok(geometry) => geometry,
        Err(fault) => return Err(EditRefusal::Edits(fault)),
    };
    if let Some(bad) = first_bad(bytes, cluster_bits) {
        return Err(EditRefusal::Table(bad));
    }
    match edited_table(alloc, bytes, cluster_bits, external, edits) {
        Ok(edited) => edited.put(bytes, freed, gained),
        Err(fault) => Err(EditRefusal::Edits(fault)),
    }
}

impl EditFields {
    // Whether the edit makes zeros.
    fn says_zeros(&self) -> bool
        ensures { result ≡ says_zeros self.now }
    {
        self.kind == 2 || self.kind == 3
    }

    // The edit with these fields. For invalid fields, an edit past the end of every table, which is refused.
    fn edit(&self, cluster_bits: u32) -> Edit
        requires { IsClusterBits cluster_bits }
        ensures { result ≡ edit_said cluster_bits self.now }
    {
        let index = self.index as usize;
        match self.kind {
            1 if self.host_offset % (1 << cluster_bits) == 0 => Edit::Map {
                index,
                host_cluster: HostCluster(self.host_offset >> cluster_bits),
            },
            2 => Edit::Zero {
                index,
                keep_allocation: false,
            },
            3 => Edit::Zero {
                index,
                keep_allocation: true,
            },
            4 => Edit::Discard { index },
            _ => Edit::Discard { index: usize::MAX },
        }
    }
}

impl HeaderFields {
    // Whether the image is marked dirty or corrupt.
    fn is_marked(&self) -> bool
        ensures { result ≡ is_marked_in self.now }
    {
        self.incompatible_features % 4 != 0
    }
}

// The cluster bits, and whether guest data lies in an external data file. Refuses zeros in version 2 (27),
// fields that no header has (3, 17), those of a marked image (42), and a number of bytes that isn't the
// cluster size (31).
fn edit_geometry(
    bytes: &[u8],
    fields: &HeaderFields,
    edits: &[EditFields],
) -> Result<(u32, bool), Fault>
    ensures value { result_map (λ pair. geometry pair.0 pair.1) result
        ≡ edit_geometry fields.now edits.now bytes.now }
    ensures bits { IfOk result (λ pair. IsClusterBits pair.0) }
    ensures size { IfOk result (λ pair. length bytes.now ≡ 2 ^ pair.0) }
{
    if fields.version < 3 && have_zeros(edits) {
        return Err(Fault::VersionNeeded);
    }
    let (cluster_bits, external) = fields.geometry()?;
    if fields.is_marked() {
        return Err(Fault::Marked);
    }
    if bytes.len() != 1 << cluster_bits {
        return Err(Fault::WrongLength);
    }
    Ok((cluster_bits, external))
}

// Whether one of the edits makes zeros.
fn have_zeros(edits: &[EditFields]) -> bool
    ensures { result ≡ list_any says_zeros edits.now }
{
    edits.iter().any(
        |edit: &EditFields| -> bool
            ensures { result ≡ says_zeros edit.now }
        { edit.says_zeros() },
    )
}

// The edits with these fields.
fn edits_of(alloc: Global, edits: &[EditFields], cluster_bits: u32) -> Result<Vec<Edit>, AllocError>
    requires { IsClusterBits cluster_bits }
    ensures { IfOk result (λ list. list.items ≡ map (edit_said cluster_bits) edits.now) }
{
    edits
        .iter()
        .map(
            |edit: &EditFields| -> Edit
                requires { IsClusterBits cluster_bits }
                ensures { result ≡ edit_said cluster_bits edit.now }
            { edit.edit(cluster_bits) },
        )
        .collect(alloc)
}

/// An edited table, and the references that its clusters gained and lost.
#[derive(Drop)]
struct EditedTable {
    table: L2Table,
    outcome: Outcome,
}

// Loads the table that has these bytes, and makes the edits. All its entries must be valid.
fn edited_table(
    alloc: Global,
    bytes: &[u8],
    cluster_bits: u32,
    external: bool,
    edits: &[EditFields],
) -> Result<EditedTable, Fault>
    requires { IsClusterBits cluster_bits }
    ensures exact { Computes (λ edited. edits_left edited.table edited.outcome) result
        (run_of_bytes (geometry cluster_bits external) edits.now bytes.now) }
    ensures geometry { IfOk result (λ edited. edited.table.geometry ≡ geometry cluster_bits external) }
{
    let mut table = load_table(alloc, bytes, cluster_bits, external)?;
    let edits = edits_of(alloc, edits, cluster_bits)?;
    let outcome = edit_table(alloc, &mut table, edits.as_slice())?;
    Ok(EditedTable { table, outcome })
}

// Loads the table that has these bytes, in an image with such clusters. All its entries must be valid.
fn load_table(
    alloc: Global,
    bytes: &[u8],
    cluster_bits: u32,
    external: bool,
) -> Result<L2Table, Fault>
    requires { IsClusterBits cluster_bits }
    ensures fault { IfErr result (λ fault. fault ≡ NoMemory) }
    ensures geometry { IfOk result (λ table. table.geometry ≡ geometry cluster_bits external) }
    ensures numbers { IfOk result (λ table. table.numbers
        ≡ table_numbers (image_of bytes.now) 0 (l2_entries cluster_bits)) }
{
    let data_file = external.then_some(String::new(alloc));
    let header = Header::new(alloc, cluster_bits, 4, None, None, data_file)?;
    let mut image = SliceStorage::new(bytes, 0);
    match L2Table::load(
        alloc,
        &mut image,
        &header,
        HostCluster(0),
        header.l2_entries(),
    ) {
        Ok(table) => Ok(table),
        // Can't happen: a table can lie at the image's start, no read of a slice fails, and the entries are
        // valid.
        Err(_) => Err(Fault::NoMemory),
    }
}

impl EditedTable {
    // Writes the table's entries to the bytes, and the freed and gained clusters to the lists. Refuses lists
    // that are too short, and then changes nothing.
    fn put(
        &self,
        bytes: &mut [u8],
        freed: &mut [HostClusters],
        gained: &mut [u64],
    ) -> Result<EditCounts, EditRefusal>
        requires { length bytes.old ≡ 2 ^ self.now.table.geometry.cluster_bits }
        ensures { AnswersEdits self.now.table.geometry (Ok (edits_left self.now.table self.now.outcome))
            (record { bytes = bytes.old; freed = freed.old; gained = gained.old })
            (record { bytes = bytes.new; freed = freed.new; gained = gained.new }) result }
    {
        let (ranges, clusters) = (
            self.outcome.freed.as_slice(),
            self.outcome.gained.as_slice(),
        );
        let counts = EditCounts {
            freed: ranges.len(),
            gained: clusters.len(),
        };
        if counts.freed > freed.len() || counts.gained > gained.len() {
            return Err(EditRefusal::NoRoom(counts));
        }
        put_numbers(&self.table, bytes);
        put_freed(ranges, freed);
        put_gained(clusters, gained);
        Ok(counts)
    }
}

// Writes the entries of a table to bytes of the cluster size.
#[tactic(auto, using(crate::proofs::EditLemmas::entry_bytes))]
fn put_numbers(table: &L2Table, bytes: &mut [u8])
    requires { length bytes.old ≡ 2 ^ table.now.geometry.cluster_bits }
    ensures numbers { (table_of_bytes table.now.geometry bytes.new).numbers ≡ table.now.numbers }
    ensures len { length bytes.new ≡ length bytes.old }
{
    for index in 0..table.entries() {
        write_be(bytes, 8 * index, &table.get(index).to_plain());
    }
}

// Writes ranges of clusters to the list, which is long enough.
fn put_freed(clusters: &[ClustersToFreeEntry], freed: &mut [HostClusters])
    requires { length clusters.now ≤ length freed.old }
    ensures { IsPutOver (map host_clusters clusters.now) freed.old freed.new }
{
    for (index, range) in clusters.iter().enumerate() {
        freed[index] = HostClusters {
            first: range.first.0,
            count: range.count.0,
        };
    }
}

// Writes the numbers of clusters to the list, which is long enough.
fn put_gained(clusters: &[HostCluster], gained: &mut [u64])
    requires { length clusters.now ≤ length gained.old }
    ensures { IsPutOver (cluster_numbers clusters.now) gained.old gained.new }
{
    for (index, cluster) in clusters.iter().enumerate() {
        gained[index] = cluster.0;
    }
}
