//! Ranges of an image's bytes, for tables, blocks and headers.

ghost use Rattle.std.specs.Prelude.{◌≡◌, ◌+◌, ◌*◌, ◌^◌, ◌≤◌, length, None, Some, IsOkUnless, IfOk, OnOk, MatchResult};
ghost use Rattle.qcow2_base.specs.Format.{max_file_length};
ghost use Rattle.qcow2_base.specs.Storage.{Holds, OnImage, OnlyReads};
ghost use Rattle.qcow2_base.specs.Types.{IsClusterBits};
ghost use Rattle.qcow2_metadata.specs.Range.{range_fault};

use qcow2_base::{Fault, HostCluster, HostOffset, MAX_FILE_LENGTH, Storage};

// Returns the offset of `len` bytes that begin with a cluster, or fault 21 if they end past 2^56.
pub(crate) fn range_offset(
    cluster: HostCluster,
    cluster_bits: u32,
    len: u64,
) -> Result<HostOffset, Fault>
    requires cluster_bits { IsClusterBits cluster_bits }
    requires len { len ≤ max_file_length }
    ensures place { MatchResult result
        (λ offset. range_fault (cluster.0 * 2 ^ cluster_bits) len ≡ None)
        (λ fault. range_fault (cluster.0 * 2 ^ cluster_bits) len ≡ Some fault) }
    ensures offset { IfOk result (λ offset. offset.0 ≡ cluster.0 * 2 ^ cluster_bits) }
    ensures fits { IfOk result (λ offset. offset.0 + len ≤ max_file_length) }
{
    // The cluster's offset may not fit 64 bits, so compare with the greatest cluster instead.
    let greatest = (MAX_FILE_LENGTH - len) >> cluster_bits;
    if cluster.0 > greatest {
        return Err(Fault::TablePlace);
    }
    Ok(cluster.offset(cluster_bits))
}

// Fills the buffer with the image's bytes from an offset on.
pub(crate) fn read_range<S: Storage>(
    image: &mut S,
    offset: HostOffset,
    buffer: &mut [u8],
) -> Result<(), Fault>
    requires { offset.0 + length buffer.old ≤ max_file_length }
    ensures fault { IsOkUnless result Fault.Storage }
    ensures held { OnOk result (OnImage (S.state image.old) (λ bytes. Holds bytes offset.0 buffer.new)) }
    ensures storage { OnlyReads result (S.state image.old) (S.state image.new) }
{
    image.read(buffer, offset.0)?;
    Ok(())
}
