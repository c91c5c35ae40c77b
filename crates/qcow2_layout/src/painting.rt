//! The picture of an image.

ghost use Rattle.std.specs.Prelude.{◌≡◌, ◌⊎◌, Err, IfErr, IfOk, IfSome, IsOkAnd, OnOk};
ghost use Rattle.qcow2_base.specs.Storage.{OnImage, OnlyReads};
ghost use Rattle.qcow2_base.specs.Types.{IsClusterBits};
ghost use Rattle.qcow2_base.specs.declared.fault.Fault.TheVariants.{Uncounted};
ghost use Rattle.qcow2_check.specs.Findings.{IsCheckFault, IsLaterFault, checked_tables};
ghost use Rattle.qcow2_metadata.specs.Header.{uncounted_part};
ghost use Rattle.qcow2_metadata.specs.Results.{IsFromOutside};
ghost use Rattle.qcow2_metadata.specs.Table.{IsContentFault};
ghost use Rattle.qcow2_layout.specs.Layout.{IsLayoutOf, layout_tables};
ghost use Rattle.qcow2_layout.specs.Picture.{IsPictureOf, IsWhole, Shades, Shows};

use crate::{Layout, Picture};
use qcow2_base::{Fault, Storage};
use qcow2_metadata::Header;
use std::alloc::Global;

/// Paints the picture of an image with this header.
///
/// Returns fault 37 before any other, if the header names a part whose references aren't counted. Fails as
/// `Layout::new` and `Layout::next` do. Changes no byte.
pub fn picture_of<S: Storage>(
    alloc: Global,
    image: &mut S,
    header: &Header,
) -> Result<Picture, Fault>
    ensures picture { IfOk result (λ picture. OnImage (S.state image.old) (λ bytes.
        IsOkAnd (checked_tables header.now bytes) (λ tables. IsPictureOf tables bytes picture))) }
    ensures uncounted { IfSome (uncounted_part header.now) (λ part. result ≡ Err (Uncounted part)) }
    ensures fault { IfErr result (λ fault. OnImage (S.state image.old) (λ bytes.
        (checked_tables header.now bytes ≡ Err fault) ⊎ IsFromOutside fault)) }
    ensures faults { IfErr result (λ fault. IsCheckFault header.now fault ⊎ IsContentFault fault) }
    ensures storage { OnlyReads result (S.state image.old) (S.state image.new) }
{
    let mut layout = Layout::new(alloc, image, header)?;
    let mut picture = Picture::new(header.size());
    paint_runs(&mut picture, &mut layout, image, header.cluster_bits())?;
    Ok(picture)
}

// Paints all runs of a reader before its first into an empty picture.
fn paint_runs<S: Storage>(
    picture: &mut Picture,
    layout: &mut Layout<'_>,
    image: &mut S,
    cluster_bits: u32,
) -> Result<(), Fault>
    requires reader { OnImage (S.state image.old) (λ bytes. IsLayoutOf bytes layout.old) }
    requires bits { IsClusterBits cluster_bits × (cluster_bits ≡ layout.old.header.v2.cluster_bits) }
    requires begun { (layout.old.position ≡ 0) × (picture.old.end ≡ 0)
        × (picture.old.size ≡ layout.old.header.v2.size)
        × IsWhole picture.old × ((shades : Shades) → Shows shades picture.old) }
    ensures picture { OnOk result (OnImage (S.state image.old) (λ bytes.
        IsPictureOf (layout_tables layout.old) bytes picture.new)) }
    ensures fault { IfErr result (IsLaterFault (S.state image.old)) }
    ensures storage { OnlyReads result (S.state image.old) (S.state image.new) }
{
    while let Some(run) = layout.next(image)? {
        picture.paint(&run, cluster_bits);
    }
    Ok(())
}
