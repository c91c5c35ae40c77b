//! The tested calls, without their contracts.

use qcow2_base::{Fault, Storage};
use qcow2_layout::{Layout, Run, Shape, picture_of};
use qcow2_metadata::Header;
use std::alloc::Global;

/// Returns the runs of an image in order, the first hundred at most. After a failed read it calls the reader
/// again.
pub(crate) fn runs_of<S: Storage>(alloc: Global, image: &mut S) -> Result<Vec<Run>, Fault> {
    let header = Header::load(alloc, image, false)?;
    let mut found = Vec::new(alloc);
    read_runs(alloc, image, &header, &mut found)?;
    Ok(found)
}

fn read_runs<S: Storage>(
    alloc: Global,
    image: &mut S,
    header: &Header,
    found: &mut Vec<Run>,
) -> Result<(), Fault> {
    let mut layout = Layout::new(alloc, image, header)?;
    for _ in 0..100 {
        match layout.next(image) {
            Ok(Some(run)) => found.push(run)?,
            Ok(None) => return Ok(()),
            Err(Fault::Storage) => {}
            Err(fault) => return Err(fault),
        }
    }
    Ok(())
}

/// Returns the scale of an image's picture, in clusters per square, and its shapes.
pub(super) fn shapes_of_image<S: Storage>(
    alloc: Global,
    image: &mut S,
) -> Result<(u64, Vec<Shape>), Fault> {
    let header = Header::load(alloc, image, false)?;
    let picture = picture_of(alloc, image, &header)?;
    Ok((picture.scale(), picture.shapes(alloc)?))
}
