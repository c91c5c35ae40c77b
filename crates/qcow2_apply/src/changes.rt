//! The changes that edits make to the refcounts of an image, by refcount block.

ghost use Rattle.qcow2_base.specs.Types.{IsRefblockBits};

use qcow2_edits::Outcome;
use std::collections::BTreeMap;

mod adding;

pub(crate) use adding::{joined, push_clusters};

/// The references that clusters of an image gain and lose, by the index of the refcount block that counts
/// them. Contracts see how many each cluster gains and loses.
#[derive(Drop)]
pub struct Changes {
    rb_bits: u32,
    blocks: BTreeMap<usize, Outcome>,
    ghost bits: { IsRefblockBits rb_bits },
}
