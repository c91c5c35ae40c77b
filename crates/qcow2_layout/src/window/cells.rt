//! Consecutive cells in memory, in integers of 32 or 64 bits each.

ghost use Rattle.std.specs.Prelude.{◌≡◌, ◌≢◌, ◌↔◌, ℕ, ◌+◌, ◌-◌, ◌==◌, ◌^◌, ◌<◌, ◌≤◌, IfOk, IsTrue, false, if◌then◌else◌, length, replicate, slice_index, slice_set};
ghost use Rattle.qcow2_layout.specs.Window.{cell_further};
ghost use Rattle.qcow2_layout.specs.Window.Cells.{PlacesGroup, window_cells};

use crate::parts::DATA_CODE;
use std::alloc::{AllocError, Global};

/// The number of cells that are read or changed at once.
pub(crate) const TOGETHER: usize = 16;

// Gives `TOGETHER` cells from an index on this code and the ones after it, where they are 0. Has no branch,
// so that the compiler can change several at once.
fn place_group(cells: &mut [u32], first: usize, code: u32)
    requires within { first + 16 ≤ length cells.old }
    requires fits { code + 16 ≤ 2 ^ 32 }
    ensures { PlacesGroup first code cells.old cells.new }
{
    for k in 0..TOGETHER {
        let cell = cells[first + k];
        cells[first + k] = if cell == 0 { code + k as u32 } else { cell };
    }
}

// Whether a cell is the one that many clusters after a first one, if they are one run.
#[inline(always)]
fn is_further(first: u64, count: usize, cell: u64) -> bool
    ensures { IsTrue result ↔ cell ≡ cell_further first count }
{
    let step = if first < DATA_CODE { 0 } else { count as u64 };
    cell >= first && cell - first == step
}

// The narrow cell `k` clusters after one with this cell.
#[inline(always)]
fn narrow_further(cell: u32, k: usize) -> u32
    requires { cell + k < 2 ^ 32 }
    ensures { result ≡ cell_further cell k }
{
    if u64::from(cell) < DATA_CODE {
        cell
    } else {
        cell + k as u32
    }
}

// Whether `TOGETHER` cells from an index on are one run, the first with this cell. Tests each, so that the
// compiler can compare several at once.
#[inline(always)]
fn are_further(cells: &[u32], index: usize, cell: u32) -> bool
    requires within { index + 16 ≤ length cells.now }
    requires fits { cell + 16 ≤ 2 ^ 32 }
    ensures { IsTrue result → (k : ℕ) → k < 16 →
        slice_index cells.now (index + k) ≡ cell_further cell k }
{
    let mut are = true;
    for k in 0..TOGETHER {
        are &= cells[index + k] == narrow_further(cell, k);
    }
    are
}

// Whether `TOGETHER` cells from an index on go on from the one before it.
#[inline(always)]
fn goes_on(cells: &[u32], index: usize) -> bool
    requires some { 0 < index }
    requires within { index + 16 ≤ length cells.now }
    ensures { IsTrue result → (k : ℕ) → k < 16 → slice_index cells.now (index + k)
        ≡ cell_further (slice_index cells.now (index - 1)) (k + 1) }
{
    let before = cells[index - 1];
    if before > u32::MAX - 16 {
        return false;
    }
    let cell = narrow_further(before, 1);
    // Usually the first and the last cell show whether they do.
    cells[index] == cell
        && cells[index + 15] == narrow_further(cell, 15)
        && are_further(cells, index, cell)
}

// The end of whole groups after an index whose cells go on from the one there.
#[inline(always)]
fn groups_end(cells: &[u32], index: usize) -> usize
    requires { index < length cells.now }
    ensures within { (index < result) × (result ≤ length cells.now) }
    ensures one { (i : ℕ) → index ≤ i → i < result → slice_index cells.now i
        ≡ cell_further (slice_index cells.now index) (i - index) }
{
    let mut end = index + 1;
    while cells.len() - end >= TOGETHER && goes_on(cells, end) {
        end += TOGETHER;
    }
    end
}

/// Consecutive cells.
#[derive(Drop)]
pub(super) enum Cells {
    Narrow(Vec<u32>),
    Wide(Vec<u64>),
}

impl Cells {
    pub(super) fn zeros(alloc: Global, count: usize, is_wide: bool) -> Result<Cells, AllocError>
        ensures { IfOk result (λ cells. window_cells cells ≡ replicate count 0) }
    {
        if is_wide {
            return Ok(Cells::Wide(vec![in alloc; 0; count]?));
        }
        Ok(Cells::Narrow(vec![in alloc; 0; count]?))
    }

    #[inline]
    pub(super) fn len(&self) -> usize
        ensures { result ≡ length (window_cells self.now) }
    {
        match self {
            Cells::Narrow(list) => list.len(),
            Cells::Wide(list) => list.len(),
        }
    }

    #[inline]
    pub(super) fn get(&self, index: usize) -> u64
        requires { index < length (window_cells self.now) }
        ensures { result ≡ slice_index (window_cells self.now) index }
    {
        match self {
            Cells::Narrow(list) => u64::from(list[index]),
            Cells::Wide(list) => list[index],
        }
    }

    // Gives a cell a code if it is 0 and `is_used`. Returns false and changes nothing if the index is past
    // the end or the code doesn't fit. Branches on neither the cell nor `is_used`.
    #[inline(always)]
    pub(super) fn put_if(&mut self, index: usize, code: u64, is_used: bool) -> bool
        ensures placed { IsTrue result → IsTrue is_used → (index < length (window_cells self.old))
            × (window_cells self.new ≡ slice_set (window_cells self.old) index
            (if slice_index (window_cells self.old) index == 0 then code
            else slice_index (window_cells self.old) index)) }
        ensures unused { is_used ≡ false → window_cells self.new ≡ window_cells self.old }
        ensures same { result ≡ false → window_cells self.new ≡ window_cells self.old }
        ensures count { length (window_cells self.new) ≡ length (window_cells self.old) }
    {
        if index >= self.len() {
            return false;
        }
        match self {
            Cells::Narrow(list) => {
                let Ok(narrow) = u32::try_from(code) else {
                    return false;
                };
                let cell = list[index];
                list[index] = if (cell == 0) & is_used { narrow } else { cell };
            }
            Cells::Wide(list) => {
                let cell = list[index];
                list[index] = if (cell == 0) & is_used { code } else { cell };
            }
        }
        true
    }

    // Gives `TOGETHER` cells from an index on this code and the ones after it, where they are 0. Returns
    // false and changes nothing if the cells are wide, one is past the end or a code doesn't fit.
    #[inline]
    pub(super) fn put_group(&mut self, first: usize, code: u64) -> bool
        ensures placed { IsTrue result →
            PlacesGroup first code (window_cells self.old) (window_cells self.new) }
        ensures same { result ≡ false → window_cells self.new ≡ window_cells self.old }
        ensures count { length (window_cells self.new) ≡ length (window_cells self.old) }
    {
        let Cells::Narrow(list) = self else {
            return false;
        };
        let cells = list.as_mut_slice();
        if first > cells.len()
            || cells.len() - first < TOGETHER
            || code > u64::from(u32::MAX - 15)
        {
            return false;
        }
        place_group(cells, first, code as u32);
        true
    }

    // The end of whole groups after an index whose cells are narrow and go on from the one there.
    #[inline(always)]
    fn groups_end(&self, index: usize) -> usize
        requires { index < length (window_cells self.now) }
        ensures within { (index < result) × (result ≤ length (window_cells self.now)) }
        ensures one { (i : ℕ) → index ≤ i → i < result → slice_index (window_cells self.now) i
            ≡ cell_further (slice_index (window_cells self.now) index) (i - index) }
    {
        match self {
            Cells::Narrow(list) => groups_end(list, index),
            Cells::Wide(_) => index + 1,
        }
    }

    // The end of the run that the cell at an index begins. A cell there doesn't go on from it.
    #[inline(always)]
    pub(super) fn run_end(&self, index: usize) -> usize
        requires { index < length (window_cells self.now) }
        ensures within { (index < result) × (result ≤ length (window_cells self.now)) }
        ensures one { (i : ℕ) → index ≤ i → i < result → slice_index (window_cells self.now) i
            ≡ cell_further (slice_index (window_cells self.now) index) (i - index) }
        ensures ends { result < length (window_cells self.now) → slice_index (window_cells self.now) result
            ≢ cell_further (slice_index (window_cells self.now) index) (result - index) }
    {
        let first = self.get(index);
        let mut end = self.groups_end(index);
        while end < self.len() && is_further(first, end - index, self.get(end)) {
            end += 1;
        }
        end
    }

    // The number of cells that aren't 0.
    pub(super) fn used(&self) -> usize {
        match self {
            Cells::Narrow(list) => list.iter().filter(|cell| **cell != 0).count(),
            Cells::Wide(list) => list.iter().filter(|cell| **cell != 0).count(),
        }
    }
}
