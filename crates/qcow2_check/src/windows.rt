//! The choice of the clusters whose references are counted at once.

ghost use Rattle.std.specs.Prelude.{◌≡◌, ◌+◌, ◌*◌, ◌^◌, ◌<◌, ◌≤◌, IfOk, false};
ghost use Rattle.qcow2_base.specs.Format.{max_file_length};
ghost use Rattle.qcow2_base.specs.Storage.{OnImage};
ghost use Rattle.qcow2_metadata.specs.Header.{geometry_of};
ghost use Rattle.qcow2_metadata.specs.Results.{Reads};
ghost use Rattle.qcow2_metadata.specs.Table.{IsEntryFault};
ghost use Rattle.qcow2_check.specs.Counters.{IsCountedEnd};
ghost use Rattle.qcow2_check.specs.Findings.{CountsAll};
ghost use Rattle.qcow2_check.specs.Flags.{KeepsMarks};
ghost use Rattle.qcow2_check.specs.Repeats.{AreTimesOf, table_names};
ghost use Rattle.qcow2_check.specs.Uses.{all_load};
ghost use Rattle.qcow2_check.specs.Windows.{IsWindow, cell_bytes, most_cell_bytes};

use crate::counters::counted_end;
use crate::counting::{count_image, most_uses};
use crate::flags::Marks;
use crate::image_tables::ImageTables;
use crate::repeats::Repeats;
use crate::soles::most_mark_bytes;
use crate::tally::Tally;
use qcow2_base::{Fault, MAX_FILE_LENGTH, Storage};
use qcow2_metadata::Table;

// The fewest dense cells of a window.
const FEW_CELLS: usize = 4096;

// The most bytes that dense cells take. If they are narrow, that suffices for 1 TiB in clusters of 64 KiB,
// and its tables.
const MOST_BYTES: usize = 68 << 20;

// The most cells in the map.
const MOST_SPARSE: usize = 1 << 20;

// The smallest number of references that doesn't fit a narrow cell.
const MANY_USES: u64 = 1 << 29;

// Clusters whose references are counted at once: the `dense` ones from `first` on, with consecutive cells,
// and up to `most` others. The cells are wide or narrow.
#[derive(Clone, Copy)]
struct Window {
    first: u64,
    dense: usize,
    most: usize,
    is_wide: bool,
}

// The number of dense cells in a window, given how many clusters from its first on the refcount blocks count,
// and how many bytes its cells may take.
fn dense_cells(counted: u64, room: usize, is_wide: bool) -> usize
    requires room { (2 ^ 20 ≤ room) × (room ≤ most_cell_bytes) }
    ensures some { 0 < result }
    ensures bytes { result * cell_bytes is_wide ≤ most_cell_bytes }
    ensures all { counted * cell_bytes is_wide ≤ room → counted ≤ result }
{
    let most = if is_wide { room / 8 } else { room / 4 };
    counted.clamp(FEW_CELLS as u64, most as u64) as usize
}

/// The windows of an image: groups of clusters whose references are counted at once, in bounded memory. The
/// size of each window depends on those before it.
#[derive(Clone, Copy)]
pub struct Windows {
    // The first cluster after all those that the refcount blocks count.
    counted: u64,
    // The bytes that a decoded refcount block, the marks of clusters and what the caller keeps take beside
    // the cells.
    beside: usize,
    is_wide: bool,
    // Whether an earlier window had few clusters with references: later windows then use mostly the map.
    is_sparse: bool,
}

impl Windows {
    /// The windows of an image with these tables, given how many bytes the caller keeps beside them.
    pub fn new(tables: &ImageTables<'_>, kept: usize) -> Windows
        ensures counted { IsCountedEnd tables.now.header tables.now.reftable result.counted }
        ensures is_sparse { result.is_sparse ≡ false }
    {
        let counted = counted_end(tables.header, tables.reftable);
        let block_bytes = tables.header.rb_entries().max(tables.header.cluster_size());
        Windows {
            counted,
            beside: (block_bytes + most_mark_bytes(counted)).saturating_add(kept),
            is_wide: most_uses(tables) >= MANY_USES,
            is_sparse: false,
        }
    }

    // The window that begins with a cluster, given how many bytes more lie beside the cells.
    fn at(&self, first: u64, more: usize) -> Window
        requires { first < max_file_length }
        ensures { IsWindow self.now first result }
    {
        let left = MAX_FILE_LENGTH - first;
        let (dense, most) = if self.is_sparse {
            (FEW_CELLS, MOST_SPARSE)
        } else {
            let counted = self.counted.saturating_sub(first);
            let beside = self.beside.saturating_add(more);
            let room = MOST_BYTES - beside.min(MOST_BYTES / 2);
            (dense_cells(counted, room, self.is_wide), 0)
        };
        Window {
            first,
            dense: left.min(dense as u64) as usize,
            most,
            is_wide: self.is_wide,
        }
    }

    /// Counts all references to clusters from `first` on in a new tally, for as many clusters as fit. Their
    /// number decides the shape of later windows, until a count begins again at cluster 0.
    ///
    /// Fails with the fault of an L2 table that doesn't load, or if memory runs out. Changes no byte.
    pub fn count<S: Storage>(
        &mut self,
        image: &mut S,
        tables: &ImageTables<'_>,
        first: u64,
    ) -> Result<Tally, Fault>
        requires { first < max_file_length }
        ensures reads { Reads (λ _. tt) result (all_load (geometry_of tables.now.header) tables.now.l1)
            IsEntryFault (S.state image.old) (S.state image.new) }
        ensures counted { IfOk result (λ tally. OnImage (S.state image.old) (λ bytes.
            CountsAll tables.now bytes tally)) }
        ensures first { IfOk result (λ tally. (tally.first ≡ first) × (first < tally.end)
            × (tally.end ≤ max_file_length)) }
        ensures same { self.new ≡ record self.old { is_sparse = self.new.is_sparse } }
    {
        let repeats = Repeats::new(tables.l1_table.allocator(), tables.l1_table)?;
        let mut marks = Marks::none(tables.l1_table.allocator());
        self.count_and_mark(image, tables, &repeats, first, &mut marks)
    }

    /// Counts as `count` does, and notes which of the first L1 entries have no wrong flag, nor their L2
    /// tables. `repeats` must be those of the L1 table.
    pub(crate) fn count_and_mark<S: Storage>(
        &mut self,
        image: &mut S,
        tables: &ImageTables<'_>,
        repeats: &Repeats,
        first: u64,
        marks: &mut Marks,
    ) -> Result<Tally, Fault>
        requires first { first < max_file_length }
        requires repeats { AreTimesOf (table_names tables.now.l1) repeats.now }
        ensures reads { Reads (λ _. tt) result (all_load (geometry_of tables.now.header) tables.now.l1)
            IsEntryFault (S.state image.old) (S.state image.new) }
        ensures counted { IfOk result (λ tally. OnImage (S.state image.old) (λ bytes.
            CountsAll tables.now bytes tally)) }
        ensures first { IfOk result (λ tally. (tally.first ≡ first) × (first < tally.end)
            × (tally.end ≤ max_file_length)) }
        ensures same { self.new ≡ record self.old { is_sparse = self.new.is_sparse } }
        ensures marks { KeepsMarks tables.now (S.state image.old) marks.old marks.new }
    {
        if first == 0 {
            self.is_sparse = false;
        }
        let Window {
            first,
            dense,
            most,
            is_wide,
        } = self.at(first, repeats.bytes());
        let alloc = tables.l1_table.allocator();
        let mut tally = Tally::new(alloc, first, dense, most, is_wide)?;
        count_image(&mut tally, marks, image, tables, repeats)?;
        prove!(first < tally.end());
        // Counting the cells takes long, so do it only if there are later windows.
        self.is_sparse |= tally.end() < MAX_FILE_LENGTH && tally.used() < MOST_SPARSE;
        Ok(tally)
    }
}
