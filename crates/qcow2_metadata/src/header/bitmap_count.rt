//! The number of persistent bitmaps by the header. The bitmaps themselves aren't read.

ghost use Rattle.std.specs.Prelude.{◌≡◌, map};
ghost use Rattle.qcow2_metadata.specs.Header.BitmapCount.{bitmap_count_in, first_bitmap_count};
ghost use Rattle.qcow2_metadata.specs.Header.Extensions.{extension_of};

use super::extensions::HeaderExtension;
use qcow2_base::read_be;

// The type of the extension with the number of bitmaps and the place of their directory.
pub(super) const BITMAPS: u32 = 0x23852875;

/// Returns the number of bitmaps from the first extension that has one.
#[tactic(auto, using(crate::proofs::BitmapCountLemmas::said))]
pub(super) fn first_bitmap_count(extensions: &[HeaderExtension]) -> Option<u32>
    ensures { result ≡ first_bitmap_count (map extension_of extensions.now) }
{
    for extension in extensions {
        if let Some(count) = bitmap_count(extension) {
            return Some(count);
        }
    }
    None
}

// Returns the number of bitmaps in an extension, if it has the bitmaps type and at least the 4 bytes of a
// number.
fn bitmap_count(extension: &HeaderExtension) -> Option<u32>
    ensures { result ≡ bitmap_count_in (extension_of extension.now) }
{
    match extension {
        HeaderExtension::Unknown {
            extension_type,
            content,
        } if *extension_type == BITMAPS && 4 <= content.len() => {
            Some(read_be(content.as_slice(), 0))
        }
        _ => None,
    }
}
