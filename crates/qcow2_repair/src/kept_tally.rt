//! The counted references that all passes of a repair share, so that they are counted as few times as memory
//! allows.

ghost use Rattle.std.specs.Prelude.{◌≡◌, ◌<◌, ◌≤◌, IfErr, IfSome, IsSomeAnd, OnOk};
ghost use Rattle.qcow2_base.specs.Format.{max_file_length};
ghost use Rattle.qcow2_base.specs.Storage.{OnImage, OnlyReads};
ghost use Rattle.qcow2_check.specs.Findings.{CountsAll, IsLaterFault};
ghost use Rattle.qcow2_repair.specs.Repair.{IsRepairable};

use qcow2_base::{Fault, Storage};
use qcow2_check::{ImageTables, Tally, Windows};

/// The last counted references, which don't change while copied flags and refcounts do, and the image's
/// windows.
#[derive(Drop)]
pub(crate) struct KeptTally {
    pub(crate) windows: Windows,
    pub(crate) tally: Option<Tally>,
}

impl KeptTally {
    /// Counts the references to a cluster and to those after it, unless this cluster's are counted.
    pub(crate) fn keep<S: Storage>(
        &mut self,
        image: &mut S,
        tables: &ImageTables<'_>,
        cluster: u64,
    ) -> Result<(), Fault>
        requires cluster { cluster < max_file_length }
        requires loads { OnImage (S.state image.old) (IsRepairable tables.now) }
        requires kept { OnImage (S.state image.old) (λ bytes.
            IfSome self.old.tally (CountsAll tables.now bytes)) }
        ensures fault { IfErr result (IsLaterFault (S.state image.old)) }
        ensures storage { OnlyReads result (S.state image.old) (S.state image.new) }
        ensures counted { OnImage (S.state image.old) (λ bytes.
            IfSome self.new.tally (CountsAll tables.now bytes)) }
        ensures window { OnOk result (IsSomeAnd self.new.tally (λ tally.
            (tally.first ≤ cluster) × (cluster < tally.end) × (tally.end ≤ max_file_length))) }
    {
        if let Some(tally) = &self.tally
            && tally.first() <= cluster
            && cluster < tally.end()
        {
            return Ok(());
        }
        self.count(image, tables, cluster)
    }

    /// Counts the references to the clusters from `first` on, unless the counted ones begin there.
    pub(crate) fn keep_from<S: Storage>(
        &mut self,
        image: &mut S,
        tables: &ImageTables<'_>,
        first: u64,
    ) -> Result<(), Fault>
        requires first { first < max_file_length }
        requires loads { OnImage (S.state image.old) (IsRepairable tables.now) }
        requires kept { OnImage (S.state image.old) (λ bytes.
            IfSome self.old.tally (CountsAll tables.now bytes)) }
        ensures fault { IfErr result (IsLaterFault (S.state image.old)) }
        ensures storage { OnlyReads result (S.state image.old) (S.state image.new) }
        ensures counted { OnImage (S.state image.old) (λ bytes.
            IfSome self.new.tally (CountsAll tables.now bytes)) }
        ensures window { OnOk result (IsSomeAnd self.new.tally (λ tally.
            (tally.first ≡ first) × (first < tally.end) × (tally.end ≤ max_file_length))) }
    {
        if let Some(tally) = &self.tally
            && tally.first() == first
        {
            prove!(first < tally.end());
            return Ok(());
        }
        self.count(image, tables, first)
    }

    // Counts the references to as many clusters from `first` on as fit, in place of those counted before.
    fn count<S: Storage>(
        &mut self,
        image: &mut S,
        tables: &ImageTables<'_>,
        first: u64,
    ) -> Result<(), Fault>
        requires first { first < max_file_length }
        requires loads { OnImage (S.state image.old) (IsRepairable tables.now) }
        ensures fault { IfErr result (IsLaterFault (S.state image.old)) }
        ensures storage { OnlyReads result (S.state image.old) (S.state image.new) }
        ensures counted { OnImage (S.state image.old) (λ bytes.
            IfSome self.new.tally (CountsAll tables.now bytes)) }
        ensures window { OnOk result (IsSomeAnd self.new.tally (λ tally.
            (tally.first ≡ first) × (first < tally.end) × (tally.end ≤ max_file_length))) }
    {
        // Free its memory before the next window takes as much.
        self.tally = None;
        self.tally = Some(self.windows.count(image, tables, first)?);
        Ok(())
    }
}
