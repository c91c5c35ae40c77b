//! The header extensions, and those that a fault concerns.

ghost use Rattle.std.specs.Prelude.{IsErrOf};
ghost use Rattle.qcow2_base.specs.Storage.{ReadsFor};
ghost use Rattle.qcow2_base.specs.declared.fault.Fault.TheVariants.{Storage as StorageFailed};

use super::fields::read_number;
use super::places::Place;
use qcow2_base::{Fault, Storage};
use qcow2_metadata::HeaderExtensionType;
use std::alloc::Global;
use std::fmt;

// The type of the extension with the place of the bitmaps.
const BITMAPS: u64 = 0x23852875;

// The type of the extension with the place of the encryption header.
const ENCRYPTION: u64 = 0x0537be77;

// The largest cluster size in bytes.
const LARGEST_CLUSTER: u64 = 1 << 21;

// The bytes of an entry in the feature name table. An entry names one feature.
const FEATURE_NAME_BYTES: u64 = 48;

/// What is wrong with an extension, or what it holds.
#[derive(Clone, Copy)]
pub(super) enum ExtensionTopic {
    /// It ends past the first cluster.
    PastEnd,
    /// It must be UTF-8 text, and isn't.
    NoText,
    /// It is a feature name table whose last entry has only its first byte.
    CutName,
    /// It holds the backing format.
    BackingFormat,
    /// It holds the external data file's name.
    DataFile,
    /// It holds the place of the bitmaps.
    Bitmaps,
    /// It holds the place of the encryption header.
    Encryption,
}

/// A header extension: its offset in the image, its type, and the length of its data in bytes.
#[derive(Clone, Copy)]
pub(super) struct Extension {
    offset: u64,
    extension_type: u64,
    length: u64,
}

impl Extension {
    // Whether it has this type.
    fn is(&self, extension_type: HeaderExtensionType) -> bool {
        self.extension_type == extension_type as u64
    }

    // The offset of its data.
    fn data(&self) -> u64 {
        self.offset.saturating_add(8)
    }

    // The end of its data.
    fn end(&self) -> u64 {
        self.data().saturating_add(self.length)
    }

    // The offset of the next extension: the data is padded to a multiple of eight bytes.
    fn next(&self) -> u64 {
        self.data()
            .saturating_add(self.length.div_ceil(8).saturating_mul(8))
    }
}

impl fmt::Display for Extension {
    fn fmt<W: fmt::Write>(&self, f: &mut fmt::Formatter<W>) -> fmt::Result {
        let Extension {
            offset,
            extension_type,
            length,
        } = *self;
        write!(
            f,
            "byte {offset}: extension {extension_type:#x} of {length} bytes"
        )
    }
}

/// The extensions of an image's header that a topic applies to, up to the first that can't be read. Version 2
/// has none. Changes no byte.
pub(super) fn extensions_of<S: Storage>(
    alloc: Global,
    image: &mut S,
    topic: ExtensionTopic,
) -> Result<Vec<Place>, Fault>
    ensures storage { ReadsFor (IsErrOf result StorageFailed) (S.state image.old) (S.state image.new) }
{
    let cluster_bits = read_number(image, 20, 4)?;
    let header_length = read_number(image, 100, 4)?;
    if read_number(image, 4, 4)? < 3 || cluster_bits > 21 {
        return Ok(Vec::new(alloc));
    }
    read_chain(alloc, image, topic, header_length, 1 << cluster_bits)
}

// The extensions that a topic applies to, in a chain from offset `first` to `end`.
fn read_chain<S: Storage>(
    alloc: Global,
    image: &mut S,
    topic: ExtensionTopic,
    first: u64,
    end: u64,
) -> Result<Vec<Place>, Fault>
    ensures storage { ReadsFor (IsErrOf result StorageFailed) (S.state image.old) (S.state image.new) }
{
    let mut places = Vec::new(alloc);
    let mut offset = first;
    for _ in 0..end / 8 {
        let extension = read_extension(image, offset)?;
        if is_about(alloc, image, topic, &extension, end)? {
            places.push(Place::Extension(extension))?;
        }
        if extension.is(HeaderExtensionType::End) || extension.end() > end {
            return Ok(places);
        }
        offset = extension.next();
    }
    Ok(places)
}

fn read_extension<S: Storage>(image: &mut S, offset: u64) -> Result<Extension, Fault>
    ensures storage { ReadsFor (IsErrOf result StorageFailed) (S.state image.old) (S.state image.new) }
{
    let extension_type = read_number(image, offset, 4)?;
    let length = read_number(image, offset.saturating_add(4), 4)?;
    Ok(Extension {
        offset,
        extension_type,
        length,
    })
}

// Whether a topic applies to an extension of a chain that must end by `end`.
fn is_about<S: Storage>(
    alloc: Global,
    image: &mut S,
    topic: ExtensionTopic,
    extension: &Extension,
    end: u64,
) -> Result<bool, Fault>
    ensures storage { ReadsFor (IsErrOf result StorageFailed) (S.state image.old) (S.state image.new) }
{
    let is_format = extension.is(HeaderExtensionType::BackingFileFormat);
    let is_data_file = extension.is(HeaderExtensionType::ExternalDataFileName);
    let is_names = extension.is(HeaderExtensionType::FeatureNameTable);
    match topic {
        ExtensionTopic::PastEnd => Ok(extension.end() > end),
        ExtensionTopic::NoText if is_format || is_data_file => Ok(!is_text(
            alloc, image, extension,
        )?),
        ExtensionTopic::NoText => Ok(false),
        ExtensionTopic::CutName => Ok(is_names && extension.length % FEATURE_NAME_BYTES == 1),
        ExtensionTopic::BackingFormat => Ok(is_format),
        ExtensionTopic::DataFile => Ok(is_data_file),
        ExtensionTopic::Bitmaps => Ok(extension.extension_type == BITMAPS),
        ExtensionTopic::Encryption => Ok(extension.extension_type == ENCRYPTION),
    }
}

// Whether the data of an extension is UTF-8 text. Returns false if it begins past the largest cluster size or
// is longer.
fn is_text<S: Storage>(alloc: Global, image: &mut S, extension: &Extension) -> Result<bool, Fault>
    ensures storage { ReadsFor (IsErrOf result StorageFailed) (S.state image.old) (S.state image.new) }
{
    let (begin, len) = (extension.data(), extension.length);
    if begin > LARGEST_CLUSTER || len > LARGEST_CLUSTER {
        return Ok(false);
    }
    let mut data = vec![in alloc; 0; len as usize]?;
    image.read(&mut data, begin)?;
    Ok(std::str::from_utf8(&data).is_ok())
}
