//! L2 tables that leave all guest clusters to the backing file, so that each is read only once.

ghost use Rattle.std.specs.Prelude.{◌≡◌, ℕ, false, IfOk, IsTrue, length};
ghost use Rattle.qcow2_metadata.specs.Table.{l2_entries};
ghost use Rattle.qcow2_image.specs.BlankTables.{AddsBlank, IsBlank, is_noted};

use qcow2_base::{GuestCluster, HostCluster};
use qcow2_metadata::{L2Mapping, L2Table, Table};
use std::alloc::{AllocFailed, Global};
use std::collections::BTreeSet;

// The most clusters that are noted, so that they take little memory beside a table.
const MOST: usize = 4096;

/// The first clusters of L2 tables that were found to leave all guest clusters to the backing file.
#[derive(Drop)]
pub struct BlankTables {
    clusters: BTreeSet<u64>,
}

// Whether a table leaves all guest clusters to the backing file.
fn is_blank(table: &L2Table) -> bool
    requires { length table.now.numbers ≡ l2_entries table.now.geometry.cluster_bits }
    ensures { IsTrue result → IsBlank table.now.geometry table.now.numbers }
{
    let first = GuestCluster(0);
    match table.get_mapping(first) {
        Ok(L2Mapping::Backing { .. }) => table.run_length(first).0 == table.entries() as u64,
        _ => false,
    }
}

impl BlankTables {
    /// No table at all. Takes no memory.
    pub fn new(alloc: Global) -> BlankTables
        ensures { (cluster : ℕ) → is_noted result cluster ≡ false }
    {
        BlankTables {
            clusters: BTreeSet::new(alloc),
        }
    }

    /// Whether the L2 table at a cluster was noted.
    pub fn has(&self, cluster: HostCluster) -> bool
        ensures { result ≡ is_noted self.now cluster.0 }
    {
        self.clusters.contains(&cluster.0)
    }

    /// Returns whether an L2 table, which begins with this cluster, leaves all guest clusters to the backing
    /// file. If so, notes the cluster, unless 4096 are noted already. Fails only if memory runs out.
    pub fn note(&mut self, cluster: HostCluster, table: &L2Table) -> Result<bool, AllocFailed<u64>>
        requires { length table.now.numbers ≡ l2_entries table.now.geometry.cluster_bits }
        ensures blank { IfOk result (λ blank. IsTrue blank → IsBlank table.now.geometry table.now.numbers) }
        ensures noted { IfOk result (λ blank. AddsBlank blank cluster.0 self.old self.new) }
    {
        let blank = is_blank(table);
        if blank && self.clusters.len() < MOST {
            self.clusters.insert(cluster.0)?;
        }
        Ok(blank)
    }
}
