//! The host clusters that edits map, and which of them only one edit maps.

ghost use Rattle.std.specs.Prelude.{◌≡◌, ℕ, ◌==◌, IfOk, OnOk};
ghost use Rattle.qcow2_apply.specs.MappedClusters.{CountsMapping, HoldsMappings, mark_of_times, mapping_mark};

use crate::guest_edits::GuestEdit;
use qcow2_base::HostCluster;
use std::alloc::{AllocFailed, Global};
use std::collections::BTreeMap;

/// The host clusters that edits map, and for each whether only one edit does.
#[derive(Drop)]
pub(crate) struct MappedClusters {
    are_sole: BTreeMap<u64, bool>,
}

impl MappedClusters {
    /// Collects the host clusters that these edits map.
    pub(crate) fn of(
        alloc: Global,
        edits: &[GuestEdit],
    ) -> Result<MappedClusters, AllocFailed<(u64, bool)>>
        ensures { IfOk result (HoldsMappings edits.now) }
    {
        let mut mapped = MappedClusters {
            are_sole: BTreeMap::new(alloc),
        };
        for edit in edits {
            mapped.add(edit)?;
        }
        Ok(mapped)
    }

    // Adds the host cluster of an edit, if it maps one.
    fn add(&mut self, edit: &GuestEdit) -> Result<(), AllocFailed<(u64, bool)>>
        ensures { OnOk result (CountsMapping edit.now self.old self.new) }
    {
        let GuestEdit::Map { host_cluster, .. } = *edit else {
            return Ok(());
        };
        let is_first = self.are_sole.remove(&host_cluster.0).is_none();
        self.are_sole.insert(host_cluster.0, is_first)?;
        Ok(())
    }

    /// Whether exactly one edit maps a host cluster.
    pub(crate) fn is_sole(&self, cluster: HostCluster) -> bool
        ensures { (times : ℕ) → mapping_mark self.now cluster.0 ≡ mark_of_times times →
            result ≡ (times == 1) }
    {
        self.are_sole.get(&cluster.0) == Some(&true)
    }
}
