//! The refusal of an image, with its fault and its places in the image.

ghost use Rattle.std.specs.Prelude.{◌≡◌, IsErrOf};
ghost use Rattle.qcow2_base.specs.Storage.{OnlyReads, ReadsFor};
ghost use Rattle.qcow2_base.specs.declared.fault.Fault.TheVariants.{Storage as StorageFailed};

use super::clusters::{cluster_refusal, shared_table_refusal};
use super::extensions::{ExtensionTopic, extensions_of};
use super::fields::{Field, Topic, fields_of, read_fields};
use super::past_end::past_end_refusal;
use super::places::Place;
use super::searches::Search;
use super::tables::table_refusal;
use qcow2_base::{Fault, MemStorage, Storage, UncountedPart};
use qcow2_check::{is_l1_short, needed_l1_entries};
use qcow2_metadata::{AcceptedFeatures, Header};
use std::alloc::{AllocError, Global};

/// A fault of an image, and where in the image it is.
#[derive(Drop)]
pub(super) struct Refusal {
    pub(super) fault: Fault,
    pub(super) places: Vec<Place>,
}

impl Refusal {
    /// A refusal with one place.
    pub(super) fn at(alloc: Global, fault: Fault, place: Place) -> Result<Refusal, AllocError> {
        let mut places = Vec::new(alloc);
        places.push(place)?;
        Ok(Refusal { fault, places })
    }

    /// Whether it has this fault, whatever the fault carries.
    pub(super) fn is_by(&self, fault: Fault) -> bool {
        self.fault.number() == fault.number()
    }
}

/// Whether there is a refusal with this fault.
pub(super) fn is_of(refusal: &Option<Refusal>, fault: Fault) -> bool {
    match refusal {
        Some(refusal) => refusal.is_by(fault),
        None => false,
    }
}

/// The refusal of an image by this fault, or else by one that comes before it. If `length` is known, 21 also
/// means a table past the file's end. Fails only if memory runs out or the storage fails. Changes no byte.
pub(super) fn refusal_of<S: Storage>(
    alloc: Global,
    image: &mut S,
    fault: Fault,
    length: Option<u64>,
) -> Result<Option<Refusal>, Fault>
    ensures storage { ReadsFor (IsErrOf result StorageFailed) (S.state image.old) (S.state image.new) }
{
    match load_header(alloc, image, fault) {
        Ok(header) => image_refusal(alloc, image, &header, fault, length),
        Err(fault) => Ok(Some(header_refusal(alloc, image, fault)?)),
    }
}

/// Loads the header of an image whose fault is looked for. Any fault but 17 may come from a command that
/// accepts incompatible features, so they are accepted. 17 may also come from one that doesn't.
pub(super) fn load_header<S: Storage>(
    alloc: Global,
    image: &mut S,
    fault: Fault,
) -> Result<Header, Fault>
    ensures storage { OnlyReads result (S.state image.old) (S.state image.new) }
{
    let header = Header::load_accepting(alloc, image, false, AcceptedFeatures::each())?;
    match fault {
        Fault::Incompatible(_) => Header::load(alloc, image, false),
        _ => Ok(header),
    }
}

// `refusal_of` for an image with this header.
fn image_refusal<S: Storage>(
    alloc: Global,
    image: &mut S,
    header: &Header,
    fault: Fault,
    length: Option<u64>,
) -> Result<Option<Refusal>, Fault>
    ensures storage { ReadsFor (IsErrOf result StorageFailed) (S.state image.old) (S.state image.new) }
{
    match refusal_by(alloc, image, header, fault, length) {
        Err(Fault::NoMemory) => Err(Fault::NoMemory),
        Err(Fault::Storage) => Err(Fault::Storage),
        Err(fault) => plain_refusal(alloc, image, header, fault, length),
        Ok(refusal) => Ok(refusal),
    }
}

// The same, but a fault that keeps the references from being counted is an error.
fn refusal_by<S: Storage>(
    alloc: Global,
    image: &mut S,
    header: &Header,
    fault: Fault,
    length: Option<u64>,
) -> Result<Option<Refusal>, Fault>
    ensures storage { ReadsFor (IsErrOf result StorageFailed) (S.state image.old) (S.state image.new) }
{
    match Search::of(fault) {
        Search::Clusters => cluster_refusal(alloc, image, header, fault),
        Search::SharedTables => shared_table_refusal(alloc, image, header),
        _ => plain_refusal(alloc, image, header, fault, length),
    }
}

// The same for a fault whose search counts no references.
fn plain_refusal<S: Storage>(
    alloc: Global,
    image: &mut S,
    header: &Header,
    fault: Fault,
    length: Option<u64>,
) -> Result<Option<Refusal>, Fault>
    ensures storage { ReadsFor (IsErrOf result StorageFailed) (S.state image.old) (S.state image.new) }
{
    match Search::of(fault) {
        Search::Tables => refusal_of_tables(alloc, image, header, fault, length),
        Search::Room(fields) => room_refusal(alloc, image, header, fields),
        Search::Version(fields) if header.version() == 2 => by_fields(alloc, image, fault, fields),
        Search::DataFile(fields) if header.external_data_file() => {
            by_fields(alloc, image, fault, fields)
        }
        Search::L1Length(fields) if is_l1_short(header) => {
            short_l1_refusal(alloc, image, header, fields)
        }
        Search::Marks(fields) if header.is_marked() => by_fields(alloc, image, fault, fields),
        Search::UncountedParts => match header.uncounted_part() {
            Some(part) => by_part(alloc, image, part),
            None => Ok(None),
        },
        Search::Fields(_) | Search::Extensions(_) => Ok(None),
        Search::Version(_) | Search::DataFile(_) => Ok(None),
        Search::L1Length(_) | Search::Marks(_) => Ok(None),
        Search::Clusters | Search::SharedTables => Ok(None),
        Search::File | Search::Locks | Search::Elsewhere(_) => Ok(None),
    }
}

// The refusal by a fault of a table. For 21, if no table has a fault, the refusal by a table past the file's
// end.
fn refusal_of_tables<S: Storage>(
    alloc: Global,
    image: &mut S,
    header: &Header,
    fault: Fault,
    length: Option<u64>,
) -> Result<Option<Refusal>, Fault>
    ensures storage { ReadsFor (IsErrOf result StorageFailed) (S.state image.old) (S.state image.new) }
{
    let refusal = table_refusal(alloc, image, header, fault)?;
    match length {
        Some(length) if fault == Fault::TablePlace && refusal.is_none() => {
            past_end_refusal(alloc, image, header, length)
        }
        _ => Ok(refusal),
    }
}

// The refusal of a header that has no room for being written anew. A copy of the first cluster is loaded for
// writing.
fn room_refusal<S: Storage>(
    alloc: Global,
    image: &mut S,
    header: &Header,
    fields: &[Field],
) -> Result<Option<Refusal>, Fault>
    ensures storage { ReadsFor (IsErrOf result StorageFailed) (S.state image.old) (S.state image.new) }
{
    let mut bytes = vec![in alloc; 0; header.cluster_size()]?;
    image.read(&mut bytes, 0)?;
    let mut copy = MemStorage::new(bytes);
    match Header::load_accepting(alloc, &mut copy, true, AcceptedFeatures::each()) {
        Ok(_) => Ok(None),
        Err(Fault::HeaderTooLong) => by_fields(alloc, image, Fault::HeaderTooLong, fields),
        Err(fault) => Err(fault),
    }
}

// The refusal of an L1 table that is too short for the disk.
fn short_l1_refusal<S: Storage>(
    alloc: Global,
    image: &mut S,
    header: &Header,
    fields: &[Field],
) -> Result<Option<Refusal>, Fault>
    ensures storage { ReadsFor (IsErrOf result StorageFailed) (S.state image.old) (S.state image.new) }
{
    let mut places = read_fields(alloc, image, fields)?;
    places.push(Place::NeededEntries(needed_l1_entries(header)))?;
    let fault = Fault::L1Short;
    Ok(Some(Refusal { fault, places }))
}

// The refusal of a header by a fault of its load. An error if memory ran out or the storage failed.
fn header_refusal<S: Storage>(alloc: Global, image: &mut S, fault: Fault) -> Result<Refusal, Fault>
    ensures storage { ReadsFor (IsErrOf result StorageFailed) (S.state image.old) (S.state image.new) }
    ensures passed_on { fault ≡ StorageFailed → IsErrOf result StorageFailed }
{
    if fault == Fault::Storage {
        return Err(Fault::Storage);
    }
    let places = match Search::of(fault) {
        Search::Fields(fields) => read_fields(alloc, image, fields)?,
        Search::Extensions(topic) => extensions_of(alloc, image, topic)?,
        _ => return Err(fault),
    };
    Ok(Refusal { fault, places })
}

// The refusal by a fault that these header fields show.
fn by_fields<S: Storage>(
    alloc: Global,
    image: &mut S,
    fault: Fault,
    fields: &[Field],
) -> Result<Option<Refusal>, Fault>
    ensures storage { ReadsFor (IsErrOf result StorageFailed) (S.state image.old) (S.state image.new) }
{
    let places = read_fields(alloc, image, fields)?;
    Ok(Some(Refusal { fault, places }))
}

// The refusal of an image that has a part whose references aren't counted.
fn by_part<S: Storage>(
    alloc: Global,
    image: &mut S,
    part: UncountedPart,
) -> Result<Option<Refusal>, Fault>
    ensures storage { ReadsFor (IsErrOf result StorageFailed) (S.state image.old) (S.state image.new) }
{
    let fault = Fault::Uncounted(part);
    let places = match part {
        UncountedPart::Snapshots => fields_of(alloc, image, Topic::Snapshots)?,
        UncountedPart::Bitmaps => extensions_of(alloc, image, ExtensionTopic::Bitmaps)?,
        UncountedPart::Encryption => places_of_keys(alloc, image)?,
    };
    Ok(Some(Refusal { fault, places }))
}

// The places that say that an image has encryption with keys in clusters that aren't known: extensions, or
// without these a header field.
fn places_of_keys<S: Storage>(alloc: Global, image: &mut S) -> Result<Vec<Place>, Fault>
    ensures storage { ReadsFor (IsErrOf result StorageFailed) (S.state image.old) (S.state image.new) }
{
    let extensions = extensions_of(alloc, image, ExtensionTopic::Encryption)?;
    if extensions.is_empty() {
        return fields_of(alloc, image, Topic::Encryption);
    }
    Ok(extensions)
}
