//! The L2 tables of an image, and the pass that read each last.

ghost use Rattle.std.specs.Prelude.{⊤};

use qcow2_base::{Fault, Storage};
use qcow2_check::{Use, UseSink, load_l1_table, walk_l2_tables};
use qcow2_metadata::Header;
use std::alloc::{AllocError, Global};
use std::cell::Cell;

/// An L2 table: its offset, and the last pass over all tables that has begun to read it, or 0.
#[derive(Drop)]
pub struct WatchedTable {
    pub(crate) offset: u64,
    pub(crate) pass: Cell<u64>,
}

// A sink of the walk over L2 tables that collects their offsets, in an image with this cluster size.
#[derive(Drop)]
struct TableOffsets {
    cluster_bits: u32,
    offsets: Vec<u64>,
}

impl UseSink for TableOffsets {
    // The progress line promises nothing.
    ghost takes = { λ uses old new. ⊤ };

    fn take(&mut self, used: Use) -> Result<(), Fault> {
        let cluster = used.clusters.first.0;
        self.offsets.push(cluster.wrapping_shl(self.cluster_bits))?;
        Ok(())
    }

    ghost takes_none = { λ s. tt };

    ghost takes_both = { λ first second a b c one other. tt };
}

/// Returns the L2 tables of an image, in the order of their offsets. Fails if the header or the L1 table
/// can't be loaded.
pub fn l2_tables<S: Storage>(alloc: Global, image: &mut S) -> Result<Vec<WatchedTable>, Fault> {
    let header = Header::load(alloc, image, false)?;
    let l1_table = load_l1_table(alloc, image, &header)?;
    let mut tables = TableOffsets {
        cluster_bits: header.cluster_bits(),
        offsets: Vec::new(alloc),
    };
    walk_l2_tables(&l1_table, &mut tables)?;
    let mut offsets = tables.offsets;
    offsets.sort_unstable();
    offsets.dedup();
    Ok(unread(alloc, &offsets)?)
}

// Tables that no pass has read yet.
fn unread(alloc: Global, offsets: &[u64]) -> Result<Vec<WatchedTable>, AllocError> {
    let mut tables = Vec::with_capacity(alloc, offsets.len())?;
    for offset in offsets {
        tables.push(WatchedTable {
            offset: *offset,
            pass: Cell::new(0),
        })?;
    }
    Ok(tables)
}
