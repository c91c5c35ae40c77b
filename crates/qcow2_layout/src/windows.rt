//! The choice of the clusters whose parts are held at once.

ghost use Rattle.std.specs.Prelude.{◌≡◌, ◌*◌, ◌^◌, ◌<◌, ◌≤◌, IfOk, false};
ghost use Rattle.qcow2_base.specs.Format.{max_file_length};
ghost use Rattle.qcow2_base.specs.Storage.{OnImage};
ghost use Rattle.qcow2_metadata.specs.Header.{geometry_of};
ghost use Rattle.qcow2_metadata.specs.Results.{Reads};
ghost use Rattle.qcow2_metadata.specs.Table.{IsEntryFault};
ghost use Rattle.qcow2_check.specs.Counters.{IsCountedEnd};
ghost use Rattle.qcow2_check.specs.Repeats.{AreTimesOf, table_names};
ghost use Rattle.qcow2_check.specs.Uses.{all_load};
ghost use Rattle.qcow2_check.specs.Windows.{cell_bytes};
ghost use Rattle.qcow2_layout.specs.Window.{PlacesAll};
ghost use Rattle.qcow2_layout.specs.Windows.{IsSize, most_window_bytes};

use crate::parts::DATA_CODE;
use crate::places::place_image;
use crate::window::Window;
use qcow2_base::{Fault, MAX_FILE_LENGTH, Storage};
use qcow2_check::{ImageTables, Repeats, counted_end};
use qcow2_metadata::Table;

// The fewest dense cells of a window.
const FEW_CELLS: u64 = 4096;

// The most bytes that dense cells take, together with a decoded refcount block and how often L2 tables count.
// If the cells are narrow and blocks have 64 KiB, that suffices for 1 TiB in clusters of 64 KiB, and its
// tables.
const MOST_BYTES: u64 = 68 << 20;

// The most cells in the map.
const MOST_SPARSE: usize = 1 << 20;

// The fewest guest clusters that narrow cells have no codes for.
const MANY_CLUSTERS: u64 = u32::MAX as u64 - DATA_CODE;

// The number of dense cells of a window, the most cells in its map, and whether the dense ones are wide.
#[derive(Clone, Copy)]
struct Size {
    dense: usize,
    most: usize,
    is_wide: bool,
}

// The number of dense cells in a window, given how many clusters from its first on the refcount blocks count,
// and how many bytes its cells may take.
fn dense_cells(counted: u64, room: u64, is_wide: bool) -> usize
    requires room { (2 ^ 20 ≤ room) × (room ≤ most_window_bytes) }
    ensures some { 0 < result }
    ensures bytes { result * cell_bytes is_wide ≤ most_window_bytes }
    ensures all { counted * cell_bytes is_wide ≤ room → counted ≤ result }
{
    let most = if is_wide { room / 8 } else { room / 4 };
    counted.clamp(FEW_CELLS, most) as usize
}

/// The windows of an image: groups of clusters whose parts are held at once, in bounded memory. The size of
/// each window depends on those before it.
#[derive(Clone, Copy)]
pub(crate) struct Windows {
    // The first cluster after all those that the refcount blocks count.
    counted: u64,
    // The bytes that a decoded refcount block and what the caller keeps take beside the cells.
    beside: u64,
    // Whether guest data may have a code that doesn't fit a narrow cell.
    is_wide: bool,
    // Whether an earlier window had few clusters with references: later windows then use mostly the map.
    is_sparse: bool,
}

impl Windows {
    /// The windows of an image with these tables, given how many bytes the caller keeps beside them.
    pub(crate) fn new(tables: &ImageTables<'_>, kept: usize) -> Windows
        ensures counted { IsCountedEnd tables.now.header tables.now.reftable result.counted }
        ensures is_sparse { result.is_sparse ≡ false }
    {
        let header = tables.header;
        let l1_entries = tables.l1_table.entries() as u64;
        Windows {
            counted: counted_end(header, tables.reftable),
            beside: header
                .rb_entries()
                .max(header.cluster_size())
                .saturating_add(kept) as u64,
            is_wide: l1_entries.saturating_mul(header.l2_entries() as u64) >= MANY_CLUSTERS,
            is_sparse: false,
        }
    }

    // The size of the window that begins with a cluster, given how many bytes more lie beside its cells.
    fn size_at(&self, first: u64, more: usize) -> Size
        requires { first < max_file_length }
        ensures { IsSize first result }
    {
        let left = MAX_FILE_LENGTH - first;
        if self.is_sparse {
            return Size {
                dense: left.min(FEW_CELLS) as usize,
                most: MOST_SPARSE,
                is_wide: self.is_wide,
            };
        }
        let counted = self.counted.saturating_sub(first);
        let beside = self.beside.saturating_add(more as u64);
        let room = MOST_BYTES - beside.min(MOST_BYTES / 2);
        let dense = dense_cells(counted, room, self.is_wide) as u64;
        Size {
            dense: left.min(dense) as usize,
            most: 0,
            is_wide: self.is_wide,
        }
    }

    /// Places all references of an image to clusters from `first` on in a new window, for as many clusters as
    /// fit. Their number decides the shape of later windows. `repeats` must be those of the L1 table.
    ///
    /// Fails with the fault of an L2 table that doesn't load, or if memory runs out. Changes no byte.
    pub(crate) fn place<S: Storage>(
        &mut self,
        image: &mut S,
        tables: &ImageTables<'_>,
        repeats: &Repeats,
        first: u64,
    ) -> Result<Window, Fault>
        requires first { first < max_file_length }
        requires repeats { AreTimesOf (table_names tables.now.l1) repeats.now }
        ensures reads { Reads (λ _. tt) result (all_load (geometry_of tables.now.header) tables.now.l1)
            IsEntryFault (S.state image.old) (S.state image.new) }
        ensures placed { IfOk result (λ window. OnImage (S.state image.old) (λ bytes.
            PlacesAll tables.now bytes window)) }
        ensures first { IfOk result (λ window. (window.first ≡ first) × (first < window.end)
            × (window.end ≤ max_file_length)) }
        ensures same { self.new ≡ record self.old { is_sparse = self.new.is_sparse } }
    {
        let Size {
            dense,
            most,
            is_wide,
        } = self.size_at(first, repeats.bytes());
        let alloc = tables.l1_table.allocator();
        let unused = Window::new(alloc, first, dense, most, is_wide)?;
        let window = place_image(unused, image, tables, repeats)?;
        prove!(first < window.end());
        // Counting the cells takes long, so do it only if there are later windows.
        self.is_sparse |= window.end() < MAX_FILE_LENGTH && window.used() < MOST_SPARSE;
        Ok(window)
    }
}
