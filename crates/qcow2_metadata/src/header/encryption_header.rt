//! The clusters of the encryption header, which keeps the keys of LUKS.

ghost use Rattle.std.specs.Prelude.{◌≡◌, map};
ghost use Rattle.qcow2_base.specs.Types.{IsClusterBits};
ghost use Rattle.qcow2_metadata.specs.Header.EncryptionHeader.{encryption_at, encryption_by, encryption_in};
ghost use Rattle.qcow2_metadata.specs.Header.Extensions.{extension_of};

use super::extensions::{HeaderExtension, has_unknown};
use qcow2_base::{ClusterCount, HostCluster, HostOffset, MAX_FILE_LENGTH, read_be};

// The type of the extension with the offset and the length of the encryption header.
pub(super) const ENCRYPTION: u32 = 0x0537be77;

// The encryption method LUKS, which keeps its keys in clusters. Later methods may do so too.
pub(super) const LUKS: u32 = 2;

// The most bytes of an encryption header. LUKS takes some 2 MiB.
const MOST_BYTES: u64 = 1 << 25;

/// Returns the clusters that the one extension of the type names. `None` without one or with several, and if
/// it doesn't have an offset and a length that can be.
#[tactic(auto, using(crate::proofs::EncryptionHeaderLemmas::named))]
pub(super) fn encryption_clusters(
    extensions: &[HeaderExtension],
    cluster_bits: u32,
) -> Option<(HostCluster, ClusterCount)>
    requires { IsClusterBits cluster_bits }
    ensures { result ≡ encryption_by cluster_bits (map extension_of extensions.now) }
{
    for index in 0..extensions.len() {
        let extension = &extensions[index];
        if extension.is_unknown(ENCRYPTION) {
            if has_unknown(&extensions[index + 1..], ENCRYPTION) {
                return None;
            }
            return clusters_in(extension, cluster_bits);
        }
    }
    None
}

// Returns the clusters that an extension names, if it has the type and 16 bytes: an offset and a length.
fn clusters_in(
    extension: &HeaderExtension,
    cluster_bits: u32,
) -> Option<(HostCluster, ClusterCount)>
    requires { IsClusterBits cluster_bits }
    ensures { result ≡ encryption_in cluster_bits (extension_of extension.now) }
{
    match extension {
        HeaderExtension::Unknown {
            extension_type,
            content,
        } if *extension_type == ENCRYPTION && content.len() == 16 => {
            let bytes = content.as_slice();
            clusters_at(read_be(bytes, 0), read_be(bytes, 8), cluster_bits)
        }
        _ => None,
    }
}

// Returns the clusters of `len` bytes from an offset on. `None` if the offset is within a cluster, the bytes
// are too many, or they end past 2^56.
fn clusters_at(offset: u64, len: u64, cluster_bits: u32) -> Option<(HostCluster, ClusterCount)>
    requires { IsClusterBits cluster_bits }
    ensures { result ≡ encryption_at cluster_bits offset len }
{
    let begins = offset % (1 << cluster_bits) == 0;
    if !begins || len > MOST_BYTES || offset > MAX_FILE_LENGTH - len {
        return None;
    }
    let cluster = HostOffset(offset).cluster(cluster_bits);
    Some((cluster, ClusterCount::from_byte_size(len, cluster_bits)))
}
