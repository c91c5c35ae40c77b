//! The example of the repository's front page.

use qcow2_base::{Fault, FileStorage, GuestOffset};
use qcow2_metadata::Header;
use qcow2_session::{ChangedClusters, GuestEdit, apply_edits};
use std::alloc::AllocGlobal;
use std::rt::Files;

/// Discards a range of the disk in an image file. Returns the clusters that this changes.
pub fn discard_range<R: Files + AllocGlobal>(
    rt: &R,
    path: &str,
    offset: GuestOffset,
    length: u64,
) -> Result<ChangedClusters, Fault> {
    let alloc = rt.alloc();
    let mut image = FileStorage::open(rt, path, true)?;
    let mut header = Header::load(alloc, &mut image, false)?;
    let edits = [GuestEdit::Discard { offset, length }];
    apply_edits(alloc, &mut image, &mut header, &edits)
}
