//! Whether the L1 table of an image covers the guest's disk.

ghost use Rattle.std.specs.Prelude.{◌≡◌, Ok};
ghost use Rattle.qcow2_metadata.specs.Results.{unless_refused};
ghost use Rattle.qcow2_check.specs.L1Length.{is_l1_short, needed_l1_entries, short_l1_refusal};

use qcow2_base::{ClusterCount, Fault};
use qcow2_metadata::Header;

/// Returns the number of L1 entries that the whole disk needs: one for each L2 table, the last of which may
/// be used only in part. More entries do no harm.
pub fn needed_l1_entries(header: &Header) -> u64
    ensures { result ≡ needed_l1_entries header.now }
{
    let cluster_bits = header.cluster_bits();
    let guest_clusters = ClusterCount::from_byte_size(header.size(), cluster_bits);
    guest_clusters.0.div_ceil(1 << (cluster_bits - 3))
}

/// Whether the L1 table has fewer entries than the disk needs, as after damage to the header. Nothing shows
/// what the missing entries named, so clusters in use seem to have no references.
pub fn is_l1_short(header: &Header) -> bool
    ensures { result ≡ is_l1_short header.now }
{
    (header.l1_table_entries() as u64) < needed_l1_entries(header)
}

/// Refuses an image whose L1 table is too short for its disk (fault 41), since a change could free clusters
/// in use.
pub fn refuse_short_l1(header: &Header) -> Result<(), Fault>
    ensures { result ≡ unless_refused (short_l1_refusal header.now) (Ok tt) }
{
    if is_l1_short(header) {
        return Err(Fault::L1Short);
    }
    Ok(())
}
