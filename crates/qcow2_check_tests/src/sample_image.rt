//! The sample image for tests of refcounts, references, layouts and refused calls.

use qcow2_base::{Fault, MemStorage};
use qcow2_testing::sample_image::{self, LARGER, TWO_TABLES};
use qcow2_testing::{Numbers, counted, put_all};
use std::alloc::Global;

/// Returns the sample image with correct refcounts, a disk of two L2 tables, the second of which doesn't
/// exist, and these changes, which may lengthen it.
pub(crate) fn sample_image(alloc: Global, changes: Numbers<'_>) -> Result<MemStorage, Fault> {
    let mut image = sample_image::sample_image(alloc, 9, counted! { LARGER, TWO_TABLES })?;
    put_all(&mut image, changes)?;
    Ok(image)
}
