//! The search for the first table or refcount block that lies past the end of an image's file.

ghost use Rattle.std.specs.Prelude.{IsErrOf};
ghost use Rattle.qcow2_base.specs.Storage.{ReadsFor};
ghost use Rattle.qcow2_base.specs.declared.fault.Fault.TheVariants.{Storage as StorageFailed};

use super::fields::{Topic, fields_of};
use super::places::Place;
use super::refusals::Refusal;
use super::tables::{block_past, l2_table_past, places_of};
use qcow2_base::{ClusterCount, Fault, Storage};
use qcow2_check::{FileEnd, UseKind, load_l1_table, load_reftable, walk_header};
use qcow2_metadata::Header;
use std::alloc::Global;

/// The refusal by the first table or refcount block with a cluster past the end of a file of `length` bytes,
/// in the order of the L1 table, the refcount table, refcount blocks and L2 tables. The file's last cluster
/// may be partial. Changes no byte.
pub(super) fn past_end_refusal<S: Storage>(
    alloc: Global,
    image: &mut S,
    header: &Header,
    length: u64,
) -> Result<Option<Refusal>, Fault>
    ensures storage { ReadsFor (IsErrOf result StorageFailed) (S.state image.old) (S.state image.new) }
{
    let clusters = ClusterCount::from_byte_size(length, header.cluster_bits());
    let mut places = places_past_end(alloc, image, header, clusters)?;
    if places.is_empty() {
        return Ok(None);
    }
    places.push(Place::FileEnd(length))?;
    let fault = Fault::TablePlace;
    Ok(Some(Refusal { fault, places }))
}

// The fields or the entry that name the first table or refcount block with a cluster past the end of a file
// of that many clusters. Loads a table only if all before it lie in the file.
fn places_past_end<S: Storage>(
    alloc: Global,
    image: &mut S,
    header: &Header,
    clusters: ClusterCount,
) -> Result<Vec<Place>, Fault>
    ensures storage { ReadsFor (IsErrOf result StorageFailed) (S.state image.old) (S.state image.new) }
{
    let mut file = FileEnd::new(clusters);
    walk_header(header, &mut file)?;
    match file.missing.map(|used| used.kind) {
        Some(UseKind::L1Table) => return fields_of(alloc, image, Topic::L1Table),
        Some(UseKind::RefcountTable) => return fields_of(alloc, image, Topic::RefTable),
        // `walk_header` takes none of these, except headers, which `FileEnd` accepts.
        Some(UseKind::Header | UseKind::EncryptionHeader) => {}
        Some(UseKind::RefcountBlock | UseKind::L2Table) => {}
        Some(UseKind::Data | UseKind::Compressed) | None => {}
    }
    let reftable = load_reftable(alloc, image, header)?;
    let block = block_past(header, &reftable, clusters)?;
    if block.is_some() {
        return Ok(places_of(alloc, block)?);
    }
    let l1_table = load_l1_table(alloc, image, header)?;
    let l2_table = l2_table_past(header, &l1_table, clusters)?;
    Ok(places_of(alloc, l2_table)?)
}
