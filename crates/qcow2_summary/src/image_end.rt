//! The end of an image, by its refcounts and its references.

ghost use Rattle.std.specs.Prelude.{◌≡◌, ◌≤◌, Ok, IfErr, IfOk};
ghost use Rattle.qcow2_base.specs.Format.{max_file_length};
ghost use Rattle.qcow2_base.specs.Storage.{OnImage, OnlyReads};
ghost use Rattle.qcow2_metadata.specs.Results.{IsFromOutside, Reads};
ghost use Rattle.qcow2_check.specs.Counters.{IsKeptBlockOf, IsSameButBlock};
ghost use Rattle.qcow2_summary.specs.ImageEnd.{end_of, findings_end, image_end, is_counted, most_clusters};
ghost use Rattle.qcow2_check.specs.Uses.{ImageTables};

use qcow2_base::{Fault, HostCluster, MAX_FILE_LENGTH, Storage};
use qcow2_check::Counters;
use qcow2_metadata::Header;

/// The number of clusters of an image with this header that end at or below 2^56.
pub fn most_clusters(header: &Header) -> u64
    ensures { result ≡ most_clusters header.now }
{
    MAX_FILE_LENGTH >> header.cluster_bits()
}

// The number after the last cluster below `limit` whose refcount isn't 0, or 0.
fn counters_end<S: Storage>(
    counters: &mut Counters<'_>,
    image: &mut S,
    limit: u64,
) -> Result<u64, Fault>
    requires limit { limit ≤ max_file_length }
    requires reader { OnImage (S.state image.old) (λ bytes.
        IsKeptBlockOf counters.old.header bytes counters.old.block) }
    ensures reads { Reads (λ end. end) result
        (λ bytes. Ok (end_of (is_counted counters.old.header counters.old.reftable bytes) limit))
        (λ _. ⊥) (S.state image.old) (S.state image.new) }
    ensures reader { IsSameButBlock (S.state image.old) counters.old counters.new }
{
    let mut end = counters.counted().min(limit);
    while end > 0 {
        let last = HostCluster(end - 1);
        if !counters.has_block(last) {
            end = counters.block_start(last);
        } else if counters.get_in_order(image, last)? != 0 {
            return Ok(end);
        } else {
            end = counters.free_start(last);
        }
    }
    Ok(0)
}

/// Returns the end of an image in bytes: after the last cluster with a refcount other than 0 or with a
/// reference, among those that end at or below 2^56. The caller passes in `found_end` the number after the
/// last of these clusters that has a finding.
///
/// Fails if the storage fails or memory runs out, and can be called again then. The image must be the one
/// that the reader of refcounts was made for, unchanged since. Changes no byte.
pub fn end_of_image<S: Storage>(
    counters: &mut Counters<'_>,
    image: &mut S,
    found_end: u64,
) -> Result<u64, Fault>
    requires reader { OnImage (S.state image.old) (λ bytes.
        IsKeptBlockOf counters.old.header bytes counters.old.block) }
    requires within { found_end ≤ most_clusters counters.old.header }
    ensures end { (tables : ImageTables) → (tables.header ≡ counters.old.header)
        → (tables.reftable ≡ counters.old.reftable)
        → OnImage (S.state image.old) (λ bytes. (found_end ≡ findings_end tables bytes)
        → IfOk result (λ end. end ≡ image_end tables bytes)) }
    ensures reader { IsSameButBlock (S.state image.old) counters.old counters.new }
    ensures fault { IfErr result IsFromOutside }
    ensures storage { OnlyReads result (S.state image.old) (S.state image.new) }
{
    let header = counters.header();
    let counted_end = counters_end(counters, image, most_clusters(header))?;
    Ok(counted_end.max(found_end) << header.cluster_bits())
}
