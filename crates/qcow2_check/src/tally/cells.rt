//! Consecutive cells in memory, in integers of 32 or 64 bits each.

ghost use Rattle.std.specs.Prelude.{◌≡◌, ◌↔◌, ℕ, ◌+◌, ◌^◌, ◌<◌, ◌≤◌, IfOk, IsTrue, false, length, replicate, slice_index, slice_set};
ghost use Rattle.qcow2_check.specs.Tally.{IsPlain, with_use, with_uses};
ghost use Rattle.qcow2_check.specs.Tally.Cells.{AddsGroup, kept_cells};

use super::{TallyKind, with_use_if, with_uses};
use crate::groups::TOGETHER;
use std::alloc::{AllocError, Global};

// Whether a cell has as many references as the refcount says, all of them by guest data.
#[inline]
fn is_plain(cell: u64, counter: u64) -> bool
    ensures { IsTrue result ↔ IsPlain cell counter }
{
    (cell / 8 == counter) & (cell % 4 == 0)
}

// Whether `is_plain` holds for all cells. Tests each, so that the compiler can compare several at once.
fn are_plain_narrow(cells: &[u32], counters: &[u64]) -> bool
    requires { length cells.now ≡ length counters.now }
    ensures { IsTrue result → (k : ℕ) → k < length counters.now →
        IsPlain (slice_index cells.now k) (slice_index counters.now k) }
{
    let mut plain = true;
    for k in 0..cells.len() {
        plain &= is_plain(u64::from(cells[k]), counters[k]);
    }
    plain
}

// The same for wide cells.
fn are_plain_wide(cells: &[u64], counters: &[u64]) -> bool
    requires { length cells.now ≡ length counters.now }
    ensures { IsTrue result → (k : ℕ) → k < length counters.now →
        IsPlain (slice_index cells.now k) (slice_index counters.now k) }
{
    let mut plain = true;
    for k in 0..cells.len() {
        plain &= is_plain(cells[k], counters[k]);
    }
    plain
}

// Whether each of `TOGETHER` cells from an index on can count one more reference. Tests each, so that the
// compiler can compare several at once.
fn have_room(cells: &[u32], first: usize) -> bool
    requires { first + 16 ≤ length cells.now }
    ensures { IsTrue result → (k : ℕ) → k < 16 → slice_index cells.now (first + k) + 12 < 2 ^ 32 }
{
    let mut room = true;
    for k in 0..TOGETHER {
        room &= cells[first + k] < u32::MAX - 11;
    }
    room
}

// Counts a reference by guest data in each of `TOGETHER` cells from an index on.
fn add_group(cells: &mut [u32], first: usize)
    requires within { first + 16 ≤ length cells.old }
    requires room { (k : ℕ) → k < 16 → slice_index cells.old (first + k) + 12 < 2 ^ 32 }
    ensures { AddsGroup first cells.old cells.new }
{
    for k in 0..TOGETHER {
        let cell = cells[first + k];
        cells[first + k] = cell + if cell / 4 % 2 == 1 { 8 } else { 12 };
    }
}

/// Consecutive cells. A narrow one counts up to 2^29 - 1 references.
#[derive(Drop)]
pub(super) enum Cells {
    Narrow(Vec<u32>),
    Wide(Vec<u64>),
}

impl Cells {
    pub(super) fn zeros(alloc: Global, count: usize, is_wide: bool) -> Result<Cells, AllocError>
        ensures { IfOk result (λ cells. kept_cells cells ≡ replicate count 0) }
    {
        if is_wide {
            return Ok(Cells::Wide(vec![in alloc; 0; count]?));
        }
        Ok(Cells::Narrow(vec![in alloc; 0; count]?))
    }

    #[inline]
    pub(super) fn len(&self) -> usize
        ensures { result ≡ length (kept_cells self.now) }
    {
        match self {
            Cells::Narrow(list) => list.len(),
            Cells::Wide(list) => list.len(),
        }
    }

    #[inline]
    pub(super) fn get(&self, index: usize) -> u64
        requires { index < length (kept_cells self.now) }
        ensures { result ≡ slice_index (kept_cells self.now) index }
    {
        match self {
            Cells::Narrow(list) => u64::from(list[index]),
            Cells::Wide(list) => list[index],
        }
    }

    // Counts a reference in a cell if `is_used`. Returns false and changes nothing if the index is past the
    // end or the count doesn't fit.
    #[inline(always)]
    pub(super) fn add_if(&mut self, index: usize, kind: TallyKind, is_used: bool) -> bool
        ensures counted { IsTrue result → IsTrue is_used → (index < length (kept_cells self.old))
            × (kept_cells self.new ≡ slice_set (kept_cells self.old) index
            (with_use kind (slice_index (kept_cells self.old) index))) }
        ensures unused { is_used ≡ false → kept_cells self.new ≡ kept_cells self.old }
        ensures same { result ≡ false → kept_cells self.new ≡ kept_cells self.old }
        ensures count { length (kept_cells self.new) ≡ length (kept_cells self.old) }
    {
        if index >= self.len() {
            return false;
        }
        match self {
            Cells::Narrow(list) => {
                let more = with_use_if(u64::from(list[index]), kind, is_used);
                let Some(Ok(cell)) = more.map(u32::try_from) else {
                    return false;
                };
                list[index] = cell;
            }
            Cells::Wide(list) => {
                let Some(cell) = with_use_if(list[index], kind, is_used) else {
                    return false;
                };
                list[index] = cell;
            }
        }
        true
    }

    // Counts `times` references in a cell. Returns false and changes nothing if the count doesn't fit.
    pub(super) fn add(&mut self, index: usize, kind: TallyKind, times: u32) -> bool
        requires { index < length (kept_cells self.old) }
        ensures counted { IsTrue result → kept_cells self.new ≡ slice_set (kept_cells self.old) index
            (with_uses kind times (slice_index (kept_cells self.old) index)) }
        ensures same { result ≡ false → kept_cells self.new ≡ kept_cells self.old }
        ensures count { length (kept_cells self.new) ≡ length (kept_cells self.old) }
    {
        let Some(more) = with_uses(self.get(index), kind, times) else {
            return false;
        };
        match self {
            Cells::Narrow(list) => {
                let Ok(cell) = u32::try_from(more) else {
                    return false;
                };
                list[index] = cell;
            }
            Cells::Wide(list) => list[index] = more,
        }
        true
    }

    // Counts a reference by guest data in each of `TOGETHER` cells from an index on. Returns false and
    // changes nothing if the cells are wide, one is past the end or a count may not fit.
    #[inline]
    pub(super) fn add_group(&mut self, first: usize) -> bool
        ensures counted { IsTrue result → AddsGroup first (kept_cells self.old) (kept_cells self.new) }
        ensures same { result ≡ false → kept_cells self.new ≡ kept_cells self.old }
        ensures count { length (kept_cells self.new) ≡ length (kept_cells self.old) }
    {
        let Cells::Narrow(list) = self else {
            return false;
        };
        let cells = list.as_mut_slice();
        if first > cells.len() || cells.len() - first < TOGETHER || !have_room(cells, first) {
            return false;
        }
        add_group(cells, first);
        true
    }

    // Whether `is_plain` holds for the cells from an index on, with these refcounts.
    #[inline]
    pub(super) fn are_plain(&self, index: usize, counters: &[u64]) -> bool
        requires { index + length counters.now ≤ length (kept_cells self.now) }
        ensures { IsTrue result → (k : ℕ) → k < length counters.now →
            IsPlain (slice_index (kept_cells self.now) (index + k)) (slice_index counters.now k) }
    {
        match self {
            Cells::Narrow(list) => are_plain_narrow(&list[index..index + counters.len()], counters),
            Cells::Wide(list) => are_plain_wide(&list[index..index + counters.len()], counters),
        }
    }

    // The number of cells that count a reference.
    pub(super) fn used(&self) -> usize {
        match self {
            Cells::Narrow(list) => list.iter().filter(|cell| **cell != 0).count(),
            Cells::Wide(list) => list.iter().filter(|cell| **cell != 0).count(),
        }
    }
}
