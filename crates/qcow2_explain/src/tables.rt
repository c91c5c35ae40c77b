//! The search for the first refused table of an image, and the entry that it is refused for.

ghost use Rattle.std.specs.Prelude.{◌≡◌, ◌≤◌, IsErrOf, IsOkUnless, length};
ghost use Rattle.qcow2_base.specs.Format.{most_l1_entries, most_reftable_entries};
ghost use Rattle.qcow2_base.specs.Storage.{ReadsFor};
ghost use Rattle.qcow2_base.specs.declared.fault.Fault.TheVariants.{NoMemory, Storage as StorageFailed};
ghost use Rattle.qcow2_metadata.specs.Header.{geometry_of};

use super::fields::{Topic, fields_of, read_number};
use super::places::{Place, entry_offset};
use super::refusals::{Refusal, is_of};
use qcow2_base::{ClusterCount, Fault, MAX_FILE_LENGTH, Storage};
use qcow2_check::{
    FileEnd, load_l1_table, load_l2_table, load_reftable, named_cluster, walk_blocks,
    walk_l2_tables,
};
use qcow2_metadata::{
    Header, L1Entry, L1Table, L2Entry, RefTable, RefTableEntry, Table, TableEntry,
};
use std::alloc::{AllocError, Global};

// An invalid entry: its index, its offset in the image, and its value.
#[derive(Clone, Copy)]
struct BadEntry {
    index: usize,
    offset: u64,
    number: u64,
}

// A table of an image: its kind, its header fields, its offset, and the number of its entries.
#[derive(Clone, Copy)]
struct TablePlace {
    kind: &'static str,
    topic: Topic,
    offset: u64,
    entries: usize,
}

/// The refusal of a table by this fault, or else of the first refused one. The order is the L1 table, L2
/// tables, the refcount table and refcount blocks. Changes no byte.
pub(super) fn table_refusal<S: Storage>(
    alloc: Global,
    image: &mut S,
    header: &Header,
    fault: Fault,
) -> Result<Option<Refusal>, Fault>
    ensures storage { ReadsFor (IsErrOf result StorageFailed) (S.state image.old) (S.state image.new) }
{
    let of_guest = guest_refusal(alloc, image, header, fault)?;
    if is_of(&of_guest, fault) {
        return Ok(of_guest);
    }
    let of_counters = reftable_refusal(alloc, image, header)?;
    if of_guest.is_some() && !is_of(&of_counters, fault) {
        return Ok(of_guest);
    }
    Ok(of_counters)
}

// The refusal of the L1 table, or of an L2 table that it names.
fn guest_refusal<S: Storage>(
    alloc: Global,
    image: &mut S,
    header: &Header,
    fault: Fault,
) -> Result<Option<Refusal>, Fault>
    ensures storage { ReadsFor (IsErrOf result StorageFailed) (S.state image.old) (S.state image.new) }
{
    match load_l1_table(alloc, image, header) {
        Ok(l1_table) => l2_refusal(alloc, image, header, &l1_table, fault),
        Err(fault) => Ok(Some(l1_refusal(alloc, image, header, fault)?)),
    }
}

// The refusal of the L1 table by a fault of its load.
fn l1_refusal<S: Storage>(
    alloc: Global,
    image: &mut S,
    header: &Header,
    fault: Fault,
) -> Result<Refusal, Fault>
    ensures storage { ReadsFor (IsErrOf result StorageFailed) (S.state image.old) (S.state image.new) }
    ensures passed_on { fault ≡ StorageFailed → IsErrOf result StorageFailed }
{
    refusal_at::<S, L1Entry>(alloc, image, header, fault, &l1_place(header))
}

// The L1 table of an image with this header.
fn l1_place(header: &Header) -> TablePlace {
    TablePlace {
        kind: "L1",
        topic: Topic::L1Table,
        offset: header.l1_table_offset().0,
        entries: header.l1_table_entries(),
    }
}

// The refcount table of an image with this header.
fn reftable_place(header: &Header) -> TablePlace {
    TablePlace {
        kind: "refcount table",
        topic: Topic::RefTable,
        offset: header.reftable_offset().0,
        entries: header.reftable_entries(),
    }
}

// The refusal of the refcount table, or of a refcount block that it names.
fn reftable_refusal<S: Storage>(
    alloc: Global,
    image: &mut S,
    header: &Header,
) -> Result<Option<Refusal>, Fault>
    ensures storage { ReadsFor (IsErrOf result StorageFailed) (S.state image.old) (S.state image.new) }
{
    match load_reftable(alloc, image, header) {
        Ok(reftable) => block_refusal(alloc, header, &reftable),
        Err(fault) => Ok(Some(refusal_at::<S, RefTableEntry>(
            alloc,
            image,
            header,
            fault,
            &reftable_place(header),
        )?)),
    }
}

// The refusal of a table by a fault of its load, with the first invalid entry or the header fields that say
// where it lies.
fn refusal_at<S: Storage, E: TableEntry>(
    alloc: Global,
    image: &mut S,
    header: &Header,
    fault: Fault,
    table: &TablePlace,
) -> Result<Refusal, Fault>
    ensures storage { ReadsFor (IsErrOf result StorageFailed) (S.state image.old) (S.state image.new) }
    ensures passed_on { fault ≡ StorageFailed → IsErrOf result StorageFailed }
{
    let places = match fault {
        Fault::EntryReserved | Fault::EntryUnaligned => {
            let bad = first_bad::<S, E>(image, header, table.offset, table.entries)?;
            places_of(alloc, bad.map(|bad| entry_place(table, &bad)))?
        }
        Fault::TableTooBig | Fault::TablePlace => fields_of(alloc, image, table.topic)?,
        _ => return Err(fault),
    };
    Ok(Refusal { fault, places })
}

fn entry_place(table: &TablePlace, bad: &BadEntry) -> Place {
    Place::Entry {
        kind: table.kind,
        index: bad.index,
        offset: bad.offset,
        number: bad.number,
    }
}

// The first invalid entry of a table.
fn first_bad<S: Storage, E: TableEntry>(
    image: &mut S,
    header: &Header,
    begin: u64,
    entries: usize,
) -> Result<Option<BadEntry>, Fault>
    ensures storage { ReadsFor (IsErrOf result StorageFailed) (S.state image.old) (S.state image.new) }
{
    for index in 0..entries {
        let offset = entry_offset(begin, index);
        let number = read_number(image, offset, 8)?;
        if !E::is_lawful(number, header) {
            return Ok(Some(BadEntry {
                index,
                offset,
                number,
            }));
        }
    }
    Ok(None)
}

// The refusal of an L2 table that an L1 table names: the first by this fault, or else the first.
fn l2_refusal<S: Storage>(
    alloc: Global,
    image: &mut S,
    header: &Header,
    l1_table: &L1Table,
    fault: Fault,
) -> Result<Option<Refusal>, Fault>
    requires { l1_table.now.geometry ≡ geometry_of header.now }
    ensures storage { ReadsFor (IsErrOf result StorageFailed) (S.state image.old) (S.state image.new) }
{
    let mut first = None;
    for l1_index in 0..l1_table.entries() {
        let refusal = l2_refusal_at(alloc, image, header, l1_table, l1_index)?;
        if is_of(&refusal, fault) {
            return Ok(refusal);
        }
        first = first.or(refusal);
    }
    Ok(first)
}

// The refusal of the L2 table that an L1 entry names, if the entry names one and it is refused.
fn l2_refusal_at<S: Storage>(
    alloc: Global,
    image: &mut S,
    header: &Header,
    l1_table: &L1Table,
    l1_index: usize,
) -> Result<Option<Refusal>, Fault>
    ensures storage { ReadsFor (IsErrOf result StorageFailed) (S.state image.old) (S.state image.new) }
{
    let Some(cluster) = named_cluster(l1_table, l1_index) else {
        return Ok(None);
    };
    let fault = match load_l2_table(alloc, image, header, cluster) {
        Ok(_) => return Ok(None),
        Err(Fault::NoMemory) => return Err(Fault::NoMemory),
        Err(Fault::Storage) => return Err(Fault::Storage),
        Err(fault) => fault,
    };
    let offset = cluster.0.wrapping_shl(header.cluster_bits());
    let bad = first_bad::<S, L2Entry>(image, header, offset, header.l2_entries())?;
    let places = places_of(alloc, bad.map(|bad| guest_place(header, l1_index, &bad)))?;
    Ok(Some(Refusal { fault, places }))
}

// The place of an invalid entry in the L2 table of an L1 entry.
fn guest_place(header: &Header, l1_index: usize, bad: &BadEntry) -> Place {
    let guest_cluster = l1_index
        .wrapping_mul(header.l2_entries())
        .wrapping_add(bad.index);
    Place::GuestEntry {
        guest_offset: (guest_cluster as u64).wrapping_shl(header.cluster_bits()),
        offset: bad.offset,
        number: bad.number,
    }
}

// The refusal by the first entry of a refcount table whose block would end past 2^56.
fn block_refusal(
    alloc: Global,
    header: &Header,
    reftable: &RefTable,
) -> Result<Option<Refusal>, Fault>
    requires { length reftable.now.numbers ≤ most_reftable_entries }
    ensures { IsOkUnless result NoMemory }
{
    let clusters = ClusterCount(MAX_FILE_LENGTH >> header.cluster_bits());
    match block_past(header, reftable, clusters)? {
        Some(place) => Ok(Some(Refusal::at(alloc, Fault::TablePlace, place)?)),
        None => Ok(None),
    }
}

/// The first entry of a refcount table that names a block past the end of a file of that many clusters.
pub(super) fn block_past(
    header: &Header,
    reftable: &RefTable,
    clusters: ClusterCount,
) -> Result<Option<Place>, Fault>
    requires { length reftable.now.numbers ≤ most_reftable_entries }
    ensures { IsOkUnless result NoMemory }
{
    let mut file = FileEnd::new(clusters);
    walk_blocks(reftable, &mut file)?;
    Ok(
        file.missing.map(|used| {
            let index = used.owner as usize;
            let number = reftable.get(index).to_plain();
            pointer_place(&reftable_place(header), index, number)
        }),
    )
}

/// The first entry of an L1 table that names an L2 table past the end of a file of that many clusters.
pub(super) fn l2_table_past(
    header: &Header,
    l1_table: &L1Table,
    clusters: ClusterCount,
) -> Result<Option<Place>, Fault>
    requires { length l1_table.now.numbers ≤ most_l1_entries }
    ensures { IsOkUnless result NoMemory }
{
    let mut file = FileEnd::new(clusters);
    walk_l2_tables(l1_table, &mut file)?;
    Ok(
        file.missing.map(|used| {
            let index = used.owner as usize;
            let number = l1_table.get(index).to_plain();
            pointer_place(&l1_place(header), index, number)
        }),
    )
}

// The place of the table entry at an index, with this value.
fn pointer_place(table: &TablePlace, index: usize, number: u64) -> Place {
    let offset = entry_offset(table.offset, index);
    let entry = BadEntry {
        index,
        offset,
        number,
    };
    entry_place(table, &entry)
}

/// A list with the place, if there is one.
pub(super) fn places_of(alloc: Global, place: Option<Place>) -> Result<Vec<Place>, AllocError> {
    let mut places = Vec::new(alloc);
    if let Some(place) = place {
        places.push(place)?;
    }
    Ok(places)
}
