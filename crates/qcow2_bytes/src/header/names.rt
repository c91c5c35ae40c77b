//! The places of a header's names in its bytes.

ghost use Rattle.std.specs.Prelude.{◌≡◌, ◌⊎◌, ◌+◌, ◌^◌, ◌<◌, ◌≤◌, ◌==◌, List, if◌then◌else◌, length};
ghost use Rattle.qcow2_base.specs.Storage.{image_of};
ghost use Rattle.qcow2_metadata.specs.Header.{first_by};
ghost use Rattle.qcow2_metadata.specs.Header.Chain.{SaysExtensions, link_at};
ghost use Rattle.qcow2_metadata.specs.Header.Grammar.{HasExtensions};
ghost use Rattle.qcow2_metadata.specs.Header.Extensions.{Extension, extension_number, name_in};
ghost use Rattle.qcow2_metadata.specs.declared.header.extensions.HeaderExtensionType.TheVariants as types;
ghost use Rattle.qcow2_bytes.specs.Header.{IsNameAt, no_name};

use super::NameRange;
use qcow2_base::{HeaderExtensionHeader, V2Header, V3HeaderBase, read_be};
use qcow2_metadata::HeaderExtensionType;

const NO_NAME: NameRange = NameRange {
    offset: 0,
    length: 0,
};

// The place of the backing file's name, by the first part of a header.
pub(super) fn backing_name(v2: &V2Header) -> NameRange
    ensures { v2.now.backing_file_offset < 2 ^ 32 → result ≡ (if v2.now.backing_file_offset == 0 then no_name
        else record { offset = v2.now.backing_file_offset; length = v2.now.backing_file_size }) }
{
    match u32::try_from(v2.backing_file_offset) {
        Ok(offset) if offset != 0 => NameRange {
            offset,
            length: v2.backing_file_size,
        },
        _ => NO_NAME,
    }
}

// The place of the name in the first extension of this type, of a header with these parts. `NO_NAME` in
// version 2.
pub(super) fn extension_name(
    bytes: &[u8],
    cluster_size: usize,
    v2: &V2Header,
    base: &V3HeaderBase,
    kind: HeaderExtensionType,
) -> NameRange
    requires whole { cluster_size ≤ length bytes.now }
    requires size { cluster_size ≤ 2 ^ 21 }
    requires kind { (kind ≡ types.BackingFileFormat) ⊎ (kind ≡ types.ExternalDataFileName) }
    ensures { (extensions : List Extension) → cluster_size ≡ 2 ^ v2.now.cluster_bits →
        (v2.now.version ≡ 2) ⊎ (v2.now.version ≡ 3) →
        HasExtensions (image_of bytes.now) v2.now base.now extensions →
        IsNameAt (image_of bytes.now) cluster_size (first_by (name_in kind) extensions) result }
{
    if v2.version != 3 {
        return NO_NAME;
    }
    find_name(bytes, cluster_size, base.header_length as usize, kind)
}

// The place of the name in the first extension of this type, from `first` on. All extensions end within `len`
// bytes.
fn find_name(bytes: &[u8], len: usize, first: usize, kind: HeaderExtensionType) -> NameRange
    requires whole { len ≤ length bytes.now }
    requires len { len ≤ 2 ^ 21 }
    requires kind { (kind ≡ types.BackingFileFormat) ⊎ (kind ≡ types.ExternalDataFileName) }
    ensures { (extensions : List Extension) → SaysExtensions (image_of bytes.now) len first extensions →
        IsNameAt (image_of bytes.now) len (first_by (name_in kind) extensions) result }
{
    let mut place = first;
    while place <= len && len - place >= 8 {
        let extension = read_extension_header(bytes, place);
        let length = extension.length as usize;
        if extension.extension_type == 0 || length > len - place - 8 {
            return NO_NAME;
        }
        if extension.extension_type == number(kind) {
            return NameRange {
                offset: (place + 8) as u32,
                length: extension.length,
            };
        }
        place += 8 + length.next_multiple_of(8);
    }
    NO_NAME
}

// The type and length of the extension at a place.
fn read_extension_header(bytes: &[u8], place: usize) -> HeaderExtensionHeader
    requires { place + 8 ≤ length bytes.now }
    ensures number { (link_at (image_of bytes.now) place).number ≡ result.extension_type }
    ensures size { (link_at (image_of bytes.now) place).size ≡ result.length }
{
    read_be(bytes, place)
}

// The number of an extension type.
fn number(kind: HeaderExtensionType) -> u32
    ensures { result ≡ extension_number kind }
{
    kind as u32
}
