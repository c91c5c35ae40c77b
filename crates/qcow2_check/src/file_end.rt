//! The end of an image's file: which tables and refcount blocks that the image names lie past it.

ghost use Rattle.std.specs.Prelude.{◌≡◌, IfOk, IsOkUnless, None, refl};
ghost use Rattle.qcow2_base.specs.Storage.{OnImage, OnlyReads};
ghost use Rattle.std.specs.List.{fold};
ghost use Rattle.std.proofs.Common.{arith};
ghost use Rattle.std.proofs.lemmas.Grind.{fold-append};
ghost use Rattle.qcow2_base.specs.declared.fault.Fault.TheVariants.{NoMemory, Storage as StorageFailed};
ghost use Rattle.qcow2_metadata.specs.Results.{Reads};
ghost use Rattle.qcow2_check.specs.Counters.{IsTablesFault};
ghost use Rattle.qcow2_check.specs.FileEnd.{file_clusters, file_end_after, has_use, missing_use, tables_in_file};
ghost use Rattle.qcow2_check.specs.Walk.{tables_list};

use crate::image_tables::ImageTables;
use crate::named_tables::{load_l1_table, load_reftable};
use crate::use_sink::UseSink;
use crate::uses::{Use, UseKind};
use crate::walk::walk_tables;
use qcow2_base::{ClusterCount, Device, Fault, MAX_FILE_LENGTH};
use qcow2_metadata::Header;
use std::alloc::Global;

/// A sink of the walk that finds the first reference to clusters past the end of a file. It accepts the
/// header, which was read from the file, and the encryption header, which isn't read.
#[derive(Drop)]
pub struct FileEnd {
    /// The number of clusters in the file. The last may be partial.
    pub clusters: u64,
    /// The first reference to clusters past the end.
    pub missing: Option<Use>,
}

impl FileEnd {
    /// The end of a file of that many clusters, before any reference.
    pub fn new(clusters: ClusterCount) -> FileEnd
        ensures { result ≡ record { clusters = clusters.0; missing = None } }
    {
        FileEnd {
            clusters: clusters.0,
            missing: None,
        }
    }

    // Whether the file has the clusters of a reference.
    #[inline]
    fn has_use(&self, used: Use) -> bool
        ensures { result ≡ has_use self.now.clusters used }
    {
        let (first, count) = (used.clusters.first.0, used.clusters.count.0);
        match used.kind {
            UseKind::Header | UseKind::EncryptionHeader => true,
            _ => count == 0 || (first <= self.clusters && count <= self.clusters - first),
        }
    }
}

impl UseSink for FileEnd {
    ghost takes = { λ uses old new. new ≡ fold file_end_after old uses };

    fn take(&mut self, used: Use) -> Result<(), Fault> {
        if self.missing.is_none() && !self.has_use(used) {
            self.missing = Some(used);
        }
        Ok(())
    }

    ghost takes_none = { λ s. refl };

    ghost takes_both = { λ first second a b c one other. Prim.grind (arith, one, other, fold-append) };
}

/// Returns the number of clusters in the file of an image with this header, the last of which may be partial.
/// If the length isn't known, that is as many as any image can have. Changes no byte.
pub(crate) fn file_clusters<S: Device>(
    image: &mut S,
    header: &Header,
) -> Result<ClusterCount, Fault>
    ensures clusters { IfOk result (λ clusters. OnImage (S.state image.old) (λ _.
        clusters.0 ≡ file_clusters (S.state image.old).len header.now)) }
    ensures fault { IsOkUnless result StorageFailed }
    ensures storage { OnlyReads result (S.state image.old) (S.state image.new) }
{
    let Some(len) = image.len()? else {
        return Ok(ClusterCount(MAX_FILE_LENGTH));
    };
    Ok(ClusterCount::from_byte_size(len, header.cluster_bits()))
}

// The first table or refcount block of an image with these tables that has a cluster past the end of a file
// of that many clusters.
fn missing_table(tables: &ImageTables<'_>, clusters: ClusterCount) -> Result<Option<Use>, Fault>
    ensures fault { IsOkUnless result NoMemory }
    ensures missing { IfOk result (λ missing. missing ≡ missing_use clusters.0 (tables_list tables.now)) }
{
    let mut file = FileEnd::new(clusters);
    walk_tables(tables, &mut file)?;
    Ok(file.missing)
}

/// Refuses an image that ends before a table or refcount block that the header or the active L1 table names.
/// Bytes past the end read as zeros: a repair would free the clusters that such a table names, and a write
/// would lengthen the image and hide the truncation. A partial last cluster counts as present, and an image
/// of unknown length has all clusters.
///
/// Returns the first of these faults: that of the L1 table, that of the refcount table, or 21 if a table or
/// block has a cluster past the end. Changes no byte.
pub fn refuse_tables_past_end<S: Device>(
    alloc: Global,
    image: &mut S,
    header: &Header,
) -> Result<(), Fault>
    ensures reads { Reads (λ done. done) result (tables_in_file (S.state image.old).len header.now)
        (IsTablesFault header.now) (S.state image.old) (S.state image.new) }
{
    let l1_table = load_l1_table(alloc, image, header)?;
    let reftable = load_reftable(alloc, image, header)?;
    let Some(len) = image.len()? else {
        return Ok(());
    };
    let tables = ImageTables {
        header,
        l1_table: &l1_table,
        reftable: &reftable,
    };
    let clusters = ClusterCount::from_byte_size(len, header.cluster_bits());
    match missing_table(&tables, clusters)? {
        Some(_) => Err(Fault::TablePlace),
        None => Ok(()),
    }
}
