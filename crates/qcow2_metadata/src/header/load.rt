//! Loads a header from the first cluster of an image.

ghost use Rattle.std.specs.Prelude.{◌≡◌, IfOk, true};
ghost use Rattle.qcow2_metadata.specs.Results.{Reads};
ghost use Rattle.qcow2_metadata.specs.Header.Open.{Loads, LoadsAccepted};
ghost use Rattle.qcow2_metadata.specs.Header.Grammar.{AreValidParts, IsHeaderFault, accepted_header, header_with_parts};
ghost use Rattle.qcow2_metadata.specs.Header.Text.{is_short};
ghost use Rattle.qcow2_metadata.specs.ReadAhead.{ReadsThrough};

use super::Header;
use super::backing_filename::read_backing_filename;
use super::bytes::read_bytes;
use super::extensions::read_header_extensions;
use super::features::AcceptedFeatures;
use super::fixed_parts::{FIXED_BYTES, cluster_size, read_fixed_parts};
use super::names::check_extensions;
use crate::read_ahead::ReadAhead;
use qcow2_base::{Fault, Storage, V2Header, V3HeaderBase};
use std::alloc::Global;

impl Header {
    /// Loads the header of an image. The result depends on the first cluster alone, and in version 2 on its
    /// first 72 bytes and the backing file's name.
    ///
    /// Returns the fault of the first condition of the format that the image violates: 1 to 17 in the order
    /// of their numbers, except that 12 to 14 are tested extension by extension. Such a fault changes no
    /// byte. Allocates memory for bytes of the image only once it knows that they end within the largest
    /// cluster.
    ///
    /// Pass `writable` to write to the image later. A program that writes must know each autoclear feature of
    /// the header, and this one knows none, so the call writes the header without any if it has some, and
    /// returns it as written, perhaps without feature names. If that header doesn't fit the first cluster,
    /// the call refuses it (fault 24) and changes no byte. A failed write (34) may leave any bytes in the
    /// range of the header's text, and changes none past it.
    pub fn load<S: Storage>(alloc: Global, image: &mut S, writable: bool) -> Result<Header, Fault>
        ensures { Loads writable result (S.state image.old) (S.state image.new) }
    {
        Header::load_accepting(alloc, image, writable, AcceptedFeatures::none())
    }

    /// Loads the header of an image as [`Header::load`] does, and accepts some incompatible features that
    /// that call refuses (fault 17).
    ///
    /// A program must know an image's incompatible features to open it. By `accepted` the caller says which
    /// ones it knows. The external data file is always accepted. If `compression_type` is accepted, the byte
    /// at 104 must be 1 (zstd) if the feature's bit is set, and else 0 (zlib) or past the header's end: any
    /// other value is refused by fault 17 with that bit.
    pub fn load_accepting<S: Storage>(
        alloc: Global,
        image: &mut S,
        writable: bool,
        accepted: AcceptedFeatures,
    ) -> Result<Header, Fault>
        ensures { LoadsAccepted accepted writable result (S.state image.old) (S.state image.new) }
    {
        let header = read_header(alloc, image, accepted)?;
        if !writable {
            return Ok(header);
        }
        header.into_writable(image)
    }
}

fn read_header<S: Storage>(
    alloc: Global,
    image: &mut S,
    accepted: AcceptedFeatures,
) -> Result<Header, Fault>
    ensures reads { Reads (λ header. header) result (accepted_header accepted) IsHeaderFault
        (S.state image.old) (S.state image.new) }
    ensures short { IfOk result (λ header. is_short header.backing_filename ≡ true) }
{
    let (v2, base) = read_fixed_parts(image)?;
    let mut ahead = ReadAhead::new(image, cluster_size(&v2));
    read_other_parts(alloc, &mut ahead, v2, base, accepted)
}

// Returns the header of an image with these two fixed parts.
fn read_other_parts<S: Storage>(
    alloc: Global,
    image: &mut ReadAhead<S>,
    v2: V2Header,
    base: V3HeaderBase,
    accepted: AcceptedFeatures,
) -> Result<Header, Fault>
    requires { AreValidParts v2 base }
    ensures reads { ReadsThrough S.state (λ header. header) result
        (λ bytes. header_with_parts accepted bytes (v2, base)) IsHeaderFault image.old image.new }
    ensures short { IfOk result (λ header. is_short header.backing_filename ≡ true) }
{
    let unknown_len = base.header_length as usize - FIXED_BYTES;
    let unknown_header_fields = read_bytes(alloc, image, FIXED_BYTES as u64, unknown_len)?;
    let backing_filename = read_backing_filename(alloc, image, &v2)?;
    let extensions = read_header_extensions(alloc, image, &v2, &base)?;
    check_extensions(&base, &unknown_header_fields, &extensions, accepted)?;
    Ok(Header {
        alloc,
        v2,
        base,
        unknown_header_fields,
        backing_filename,
        extensions,
    })
}
