//! Reads and writes header extensions, which follow the fields of a version 3 header.

ghost use Rattle.std.specs.Prelude.{◌≡◌, ◌≢◌, ◌⊎◌, ◌+◌, ◌^◌, ◌<◌, ◌≤◌, ◌++◌, nat_le, [], ◌∷◌, All, IfErr, IfOk, IfSome, IsOkUnless, Ok, OnOk, SomeIff, length, map, option_map, string_bytes};
ghost use Rattle.qcow2_base.specs.OnDiskStruct.{header_extension_header};
ghost use Rattle.qcow2_base.specs.Storage.{be};
ghost use Rattle.qcow2_base.specs.declared.fault.Fault.TheVariants.{ExtensionText};
ghost use Rattle.qcow2_metadata.specs.Results.{after_conditions, result_map};
ghost use Rattle.qcow2_metadata.specs.Header.Chain.{data_end, extension_at, extensions_at, link_at};
ghost use Rattle.std.specs.List.{list_any};
ghost use Rattle.qcow2_metadata.specs.Header.Extensions.{IsStorable, data_of, extension_number, extension_of, feature_name_in, is_unknown, name_in, extension_from_data, type_number};
ghost use Rattle.qcow2_metadata.specs.Header.Features.{HasNumber};
ghost use Rattle.qcow2_metadata.specs.Header.Grammar.{AreValidParts, IsHeaderFault, header_extensions};
ghost use Rattle.qcow2_metadata.specs.Header.Text.{chosen_extensions, extension_text, extensions_text, fields_text, is_other, written_text};
ghost use Rattle.qcow2_metadata.specs.Range.{bytes_at};
ghost use Rattle.qcow2_metadata.specs.ReadAhead.{ReadsThrough};
ghost use Rattle.qcow2_metadata.specs.declared.header.extensions.HeaderExtensionType.TheVariants as kind;

use super::bytes::{parse_text, push_bytes, push_padded, push_zeros, read_bytes};
use super::feature_names::{FEATURE_NAME_BYTES, push_names, read_feature_names};
use super::features::{FeatureType, UnknownValue};
use super::fixed_parts::cluster_size;
use crate::read_ahead::ReadAhead;
use qcow2_base::{
    Fault, HeaderExtensionHeader, HostOffset, OnDiskStruct, Storage, V2Header, V3HeaderBase,
    read_be, write_be,
};
use std::alloc::{AllocError, Global};
use std::collections::BTreeMap;

/// The type of a header extension, by the number before its data.
#[derive(Clone, Copy, Debug, PartialEq, Eq)]
pub enum HeaderExtensionType {
    /// The end of the extensions.
    End = 0,
    /// The format of the backing file.
    BackingFileFormat = 0xe2792aca,
    /// The names of features.
    FeatureNameTable = 0x6803f857,
    /// The name of the external data file.
    ExternalDataFileName = 0x44415441,
}

impl TryFrom<u32> for HeaderExtensionType {
    type Error = UnknownValue;

    ghost try_from_gives = { λ number result. HasNumber extension_number result number };

    fn try_from(number: u32) -> Result<HeaderExtensionType, UnknownValue> {
        match number {
            0 => Ok(HeaderExtensionType::End),
            0xe2792aca => Ok(HeaderExtensionType::BackingFileFormat),
            0x6803f857 => Ok(HeaderExtensionType::FeatureNameTable),
            0x44415441 => Ok(HeaderExtensionType::ExternalDataFileName),
            _ => Err(UnknownValue),
        }
    }
}

/// The number before the extension's data.
impl From<HeaderExtensionType> for u32 {
    ghost from_gives = { λ value number. number ≡ extension_number value };

    fn from(value: HeaderExtensionType) -> u32 {
        value as u32
    }
}

/// A header extension.
#[derive(Clone, Debug, PartialEq, Eq, Drop)]
pub enum HeaderExtension {
    /// The format of the backing file.
    BackingFileFormat(String),
    /// The names of features, by the field of their bit, and the bit.
    FeatureNameTable(BTreeMap<(FeatureType, u8), String>),
    /// The name of the external data file.
    ExternalDataFileName(String),
    /// An extension of an unknown type, as it is in the image.
    Unknown {
        /// Its type.
        extension_type: u32,
        /// Its data.
        content: Vec<u8>,
    },
}

impl HeaderExtension {
    // Returns the name in the extension, if it is of this type.
    pub(super) fn name(&self, extension_type: HeaderExtensionType) -> Option<&String>
        ensures { option_map (λ name. string_bytes name.now) result
            ≡ name_in extension_type (extension_of self.now) }
    {
        match (self, extension_type) {
            (HeaderExtension::BackingFileFormat(name), HeaderExtensionType::BackingFileFormat) =>
                Some(name),
            (
                HeaderExtension::ExternalDataFileName(name),
                HeaderExtensionType::ExternalDataFileName,
            ) => Some(name),
            _ => None,
        }
    }

    // Whether it is of the unknown type with this number.
    pub(super) fn is_unknown(&self, number: u32) -> bool
        ensures { result ≡ is_unknown number (extension_of self.now) }
    {
        match self {
            HeaderExtension::Unknown {
                extension_type,
                content: _,
            } => *extension_type == number,
            _ => false,
        }
    }

    pub(super) fn feature_name(&self, feature_type: FeatureType, bit: u8) -> Option<&String>
        ensures { option_map (λ name. string_bytes name.now) result
            ≡ feature_name_in (feature_type, bit) (extension_of self.now) }
    {
        match self {
            HeaderExtension::FeatureNameTable(names) => names.get(&(feature_type, bit)),
            _ => None,
        }
    }
}

/// Whether there is an extension of the unknown type with this number.
pub(super) fn has_unknown(extensions: &[HeaderExtension], number: u32) -> bool
    ensures { result ≡ list_any (is_unknown number) (map extension_of extensions.now) }
{
    for extension in extensions {
        if extension.is_unknown(number) {
            return true;
        }
    }
    false
}

// Returns the extensions; version 2 has none.
pub(super) fn read_header_extensions<S: Storage>(
    alloc: Global,
    image: &mut ReadAhead<S>,
    v2: &V2Header,
    base: &V3HeaderBase,
) -> Result<Vec<HeaderExtension>, Fault>
    requires { AreValidParts v2.now base.now }
    ensures reads { ReadsThrough S.state (λ list. map extension_of list.items) result
        (λ bytes. header_extensions bytes v2.now base.now) IsHeaderFault image.old image.new }
    ensures storable { IfOk result (λ list. All IsStorable (map extension_of list.items)) }
    ensures older { IfOk result (λ list. v2.now.version ≡ 2 → list.items ≡ []) }
{
    if v2.version != 3 {
        return Ok(Vec::new(alloc));
    }
    read_extensions(alloc, image, cluster_size(v2), base.header_length as u64)
}

// Returns the extensions from a place on, up to End. All must end within `len` bytes.
fn read_extensions<S: Storage>(
    alloc: Global,
    image: &mut ReadAhead<S>,
    len: u64,
    first: u64,
) -> Result<Vec<HeaderExtension>, Fault>
    requires { len ≤ 2 ^ 21 }
    ensures reads { ReadsThrough S.state (λ list. map extension_of list.items) result
        (λ bytes. extensions_at bytes len first) IsHeaderFault image.old image.new }
    ensures storable { IfOk result (λ list. All IsStorable (map extension_of list.items)) }
{
    let mut extensions = Vec::new(alloc);
    let mut place = first;
    while let Some((extension, next)) = read_extension(alloc, image, len, place)? {
        extensions.push(extension)?;
        place = next;
    }
    Ok(extensions)
}

// Returns the extension at a place, which must end within `len` bytes, and the place of the next one, or
// `None` for End.
fn read_extension<S: Storage>(
    alloc: Global,
    image: &mut ReadAhead<S>,
    len: u64,
    place: u64,
) -> Result<Option<(HeaderExtension, u64)>, Fault>
    requires { len ≤ 2 ^ 21 }
    ensures reads { ReadsThrough S.state (option_map (λ found. (extension_of found.0, found.1))) result
        (λ bytes. extension_at bytes len place) IsHeaderFault image.old image.new }
    ensures next { IfOk result (λ found. IfSome found (λ found.
        (place + 8 ≤ found.1) × (found.1 ≤ len + 8))) }
    ensures storable { IfOk result (λ found. IfSome found (λ found. IsStorable (extension_of found.0))) }
{
    let header = read_extension_header(image, len, place)?;
    if header.extension_type == HeaderExtensionType::End as u32 {
        return Ok(None);
    }
    let extension = read_data(alloc, image, place + 8, &header)?;
    let next = place + 8 + (header.length as u64).next_multiple_of(8);
    Ok(Some((extension, next)))
}

// Returns the type and length of the extension at a place, which must end within `len` bytes.
fn read_extension_header<S: Storage>(
    image: &mut ReadAhead<S>,
    len: u64,
    place: u64,
) -> Result<HeaderExtensionHeader, Fault>
    requires { len ≤ 2 ^ 21 }
    ensures reads { ReadsThrough S.state (λ header. header) result (λ bytes. after_conditions
        ((nat_le (data_end (link_at bytes place)) len, Fault.ExtensionsExceed) ∷ [])
        (λ _. Ok (record { extension_type = be bytes place 4; length = be bytes (place + 4) 4 })))
        (λ fault. fault ≡ Fault.ExtensionsExceed) image.old image.new }
    ensures bounded { IfOk result (λ header. place + 8 + header.length ≤ len) }
{
    if place > len || len - place < 8 {
        return Err(Fault::ExtensionsExceed);
    }
    let mut bytes = [0u8; HeaderExtensionHeader::ON_DISK_SIZE];
    image.read_range(HostOffset(place), &mut bytes)?;
    let header: HeaderExtensionHeader = read_be(&bytes, 0);
    if place + 8 + header.length as u64 > len {
        return Err(Fault::ExtensionsExceed);
    }
    Ok(header)
}

// Returns the extension whose data begins at a place. It must not be End.
fn read_data<S: Storage>(
    alloc: Global,
    image: &mut ReadAhead<S>,
    place: u64,
    header: &HeaderExtensionHeader,
) -> Result<HeaderExtension, Fault>
    requires end { header.now.extension_type ≢ 0 }
    requires within { place + header.now.length ≤ 2 ^ 21 }
    ensures reads { ReadsThrough S.state extension_of result (λ bytes.
        extension_from_data header.now.extension_type (bytes_at bytes place header.now.length))
        IsHeaderFault image.old image.new }
    ensures storable { IfOk result (λ extension. IsStorable (extension_of extension)) }
{
    let len = header.length as usize;
    if header.extension_type == HeaderExtensionType::FeatureNameTable as u32 {
        let names = read_feature_names(alloc, image, place, len)?;
        return Ok(HeaderExtension::FeatureNameTable(names));
    }
    let bytes = read_bytes(alloc, image, place, len)?;
    parse(header.extension_type, bytes)
}

// Returns the extension with these bytes of data. Its type must be neither End nor the feature name table.
#[tactic(auto, using(crate::proofs::ExtensionsLemmas::string_is_text))]
fn parse(extension_type: u32, bytes: Vec<u8>) -> Result<HeaderExtension, Fault>
    requires end { extension_type ≢ extension_number kind.End }
    requires names { extension_type ≢ extension_number kind.FeatureNameTable }
    ensures exact { result_map extension_of result ≡ extension_from_data extension_type bytes.items }
    ensures storable { IfOk result (λ extension. IsStorable (extension_of extension)) }
    ensures faults { IsOkUnless result ExtensionText }
{
    if extension_type == HeaderExtensionType::BackingFileFormat as u32 {
        let format = parse_text(bytes, Fault::ExtensionText)?;
        return Ok(HeaderExtension::BackingFileFormat(format));
    }
    if extension_type == HeaderExtensionType::ExternalDataFileName as u32 {
        let name = parse_text(bytes, Fault::ExtensionText)?;
        return Ok(HeaderExtension::ExternalDataFileName(name));
    }
    Ok(HeaderExtension::Unknown {
        extension_type,
        content: bytes,
    })
}

impl HeaderExtension {
    // Whether it isn't a feature name table.
    pub(super) fn is_other(&self) -> bool
        ensures { result ≡ is_other (extension_of self.now) }
    {
        !matches!(self, HeaderExtension::FeatureNameTable(_))
    }

    // Returns the number of its type.
    fn number(&self) -> u32
        ensures { result ≡ type_number (extension_of self.now) }
    {
        match self {
            HeaderExtension::BackingFileFormat(_) => HeaderExtensionType::BackingFileFormat as u32,
            HeaderExtension::FeatureNameTable(_) => HeaderExtensionType::FeatureNameTable as u32,
            HeaderExtension::ExternalDataFileName(_) =>
                HeaderExtensionType::ExternalDataFileName as u32,
            HeaderExtension::Unknown { extension_type, .. } => *extension_type,
        }
    }

    #[tactic(auto, using(crate::proofs::LayoutLemmas::table_lens))]
    fn data_len(&self) -> Option<usize>
        ensures { SomeIff result (length (data_of (extension_of self.now)) < 2 ^ 64)
            (length (data_of (extension_of self.now))) }
    {
        match self {
            HeaderExtension::BackingFileFormat(name) => Some(name.len()),
            HeaderExtension::FeatureNameTable(names) => names.len().checked_mul(FEATURE_NAME_BYTES),
            HeaderExtension::ExternalDataFileName(name) => Some(name.len()),
            HeaderExtension::Unknown { content, .. } => Some(content.len()),
        }
    }

    // Returns the number of bytes that it takes in an image.
    fn text_len(&self) -> Option<usize>
        ensures { SomeIff result (length (extension_text (extension_of self.now)) < 2 ^ 64)
            (length (extension_text (extension_of self.now))) }
    {
        self.data_len()?.checked_next_multiple_of(8)?.checked_add(8)
    }

    // Returns the number of bytes that it takes in a header with feature name tables or without.
    fn written_len(&self, with_names: bool) -> Option<usize>
        ensures { SomeIff result (length (written_text with_names (extension_of self.now)) < 2 ^ 64)
            (length (written_text with_names (extension_of self.now))) }
    {
        if with_names || self.is_other() {
            self.text_len()
        } else {
            Some(0)
        }
    }
}

// Returns the number of bytes of all extensions in an image, with feature name tables or without, and of End.
#[tactic(auto, using(crate::proofs::LayoutLemmas::lens))]
pub(super) fn extensions_len(extensions: &[HeaderExtension], with_names: bool) -> Option<usize>
    ensures { SomeIff result
        (length (extensions_text (chosen_extensions with_names (map extension_of extensions.now))) < 2 ^ 64)
        (length (extensions_text (chosen_extensions with_names (map extension_of extensions.now)))) }
{
    let mut len: usize = 8;
    for extension in extensions {
        len = len.checked_add(extension.written_len(with_names)?)?;
    }
    Some(len)
}

// Appends the extensions to the text, with feature name tables or without, and End.
pub(super) fn push_extensions(
    text: &mut Vec<u8>,
    extensions: &[HeaderExtension],
    with_names: bool,
) -> Result<(), AllocError>
    requires { length (extensions_text (chosen_extensions with_names (map extension_of extensions.now)))
        < 2 ^ 32 }
    ensures { OnOk result (text.new.items ≡ text.old.items
        ++ extensions_text (chosen_extensions with_names (map extension_of extensions.now))) }
{
    for extension in extensions {
        push_written(text, extension, with_names)?;
    }
    push_zeros(text, 8)
}

// Appends an extension to the text of a header with feature name tables or without.
fn push_written(
    text: &mut Vec<u8>,
    extension: &HeaderExtension,
    with_names: bool,
) -> Result<(), AllocError>
    requires { length (written_text with_names (extension_of extension.now)) < 2 ^ 32 }
    ensures { OnOk result (text.new.items
        ≡ text.old.items ++ written_text with_names (extension_of extension.now)) }
{
    if with_names || extension.is_other() {
        push_extension(text, extension)
    } else {
        Ok(())
    }
}

#[tactic(auto, using(crate::proofs::LayoutLemmas::names_padded))]
fn push_extension(text: &mut Vec<u8>, extension: &HeaderExtension) -> Result<(), AllocError>
    requires { length (data_of (extension_of extension.now)) < 2 ^ 32 }
    ensures { OnOk result
        (text.new.items ≡ text.old.items ++ extension_text (extension_of extension.now)) }
{
    let header = HeaderExtensionHeader {
        extension_type: extension.number(),
        length: extension.data_len().unwrap() as u32,
    };
    push_extension_header(text, &header)?;
    match extension {
        HeaderExtension::BackingFileFormat(name) => push_padded(text, name.as_bytes()),
        HeaderExtension::FeatureNameTable(names) => push_names(text, names),
        HeaderExtension::ExternalDataFileName(name) => push_padded(text, name.as_bytes()),
        HeaderExtension::Unknown { content, .. } => push_padded(text, content),
    }
}

// Appends the type and length before an extension's data to the text.
fn push_extension_header(
    text: &mut Vec<u8>,
    header: &HeaderExtensionHeader,
) -> Result<(), AllocError>
    ensures { OnOk result
        (text.new.items ≡ text.old.items ++ fields_text (header_extension_header header.now)) }
{
    let mut bytes = [0u8; HeaderExtensionHeader::ON_DISK_SIZE];
    write_be(&mut bytes, 0, header);
    push_bytes(text, &bytes)
}
