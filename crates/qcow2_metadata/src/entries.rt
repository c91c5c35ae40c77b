//! Table entries: the valid numbers, and their meanings.

ghost use Rattle.std.specs.Prelude.{◌≡◌, ℕ, ◌⊎◌, ◌↔◌, IsTrue, Option, None, IfOk, IfErr, OnOk};
ghost use Rattle.qcow2_base.specs.declared.fault.Fault.{Fault as AnyFault};
ghost use Rattle.qcow2_base.specs.declared.fault.Fault.TheVariants.{EntryReserved, EntryUnaligned};
ghost use Rattle.qcow2_metadata.specs.Entries as spec;

use crate::Header;
use qcow2_base::{ClusterCount, Fault, HostCluster};

mod l1_entry;
mod l2_entry;
mod l2_mapping;
mod pending_clusters;
mod ref_table_entry;
mod runs;

pub use l1_entry::L1Entry;
pub use l2_entry::{AtomicL2Entry, L2Entry};
pub use l2_mapping::L2Mapping;
pub(crate) use pending_clusters::refuse;
pub use pending_clusters::{PendingClusters, Refused};
pub use ref_table_entry::RefTableEntry;
pub(crate) use runs::RunPattern;

/// Host clusters that each lost a reference, or that were given up before they got one.
#[derive(Clone, Copy, Debug, PartialEq, Eq)]
pub struct ClustersToFreeEntry {
    pub first: HostCluster,
    pub count: ClusterCount,
}

// Returns the copied flag as a number: bit 63, or 0.
#[inline]
fn copied_bit(copied: bool) -> u64
    ensures { result ≡ spec.copied_bit copied }
{
    if copied { 1 << 63 } else { 0 }
}

/// A table entry: an eight-byte number that is valid under the image's cluster size.
pub trait TableEntry: Sized {
    /// The number.
    ghost plain: { Self → ℕ };

    /// By cluster_bits and number: the fault of a number that is no valid entry of this kind.
    ghost fault_of: { ℕ → ℕ → Option AnyFault };

    /// Returns the entry with this number. Refuses a number with a reserved bit (fault 18), then one whose
    /// offset is no multiple of the cluster size (19). Bits of an L1 or L2 entry's offset from 2^56 on count
    /// as reserved.
    fn try_from_plain(value: u64, header: &Header) -> Result<Self, Fault>
        ensures accepted { OnOk result (fault_of header.now.v2.cluster_bits value ≡ None) }
        ensures number { IfOk result (λ entry. plain entry ≡ value) }
        ensures refused { IfErr result (λ fault. fault_of header.now.v2.cluster_bits value ≡ Some fault) }
        ensures faults { IfErr result (λ fault. (fault ≡ EntryReserved) ⊎ (fault ≡ EntryUnaligned)) };

    /// Whether `try_from_plain` accepts a number. Has no early exit, so that a loop over many numbers tests
    /// several at once.
    fn is_lawful(value: u64, header: &Header) -> bool
        ensures { IsTrue result ↔ (fault_of header.now.v2.cluster_bits value ≡ None) };

    /// Returns the entry with a number that `is_lawful` accepts.
    fn from_lawful(value: u64, header: &Header) -> Self
        requires { fault_of header.now.v2.cluster_bits value ≡ None }
        ensures { plain result ≡ value };

    /// Returns the entry's number.
    fn to_plain(&self) -> u64
        ensures { result ≡ plain self.now };
}
