//! L2 tables and refcount blocks that several entries name, so that each is read or reported only once.

ghost use Rattle.std.specs.Prelude.{◌≡◌, ℕ, ◌+◌, ◌*◌, ◌^◌, ◌<◌, ◌≤◌, List, false, IfOk, IsTrue, length, replicate, slice_index};
ghost use Rattle.std.specs.List.{range_with_len};
ghost use Rattle.qcow2_metadata.specs.Entries.{offset_field};
ghost use Rattle.qcow2_check.specs.Repeats.{ArePlacesInOrder, AreTimesOf, is_again, sort_key, table_names};

use qcow2_base::{Fault, HostOffset};
use qcow2_metadata::{L1Table, RefTable, Table};
use std::alloc::{AllocError, Global};
use std::marker::Model;

/// A table whose entries name L2 tables or refcount blocks.
pub trait NamesOffsets {
    /// The offset that each entry names, 0 if it names none.
    ghost names: { Self → List ℕ };

    /// The number of entries.
    fn count(&self) -> usize
        ensures { result ≡ length (names self.now) };

    /// The offset that the entry at an index names, 0 if it names none.
    fn offset_at(&self, index: usize) -> u64
        requires { index < length (names self.now) }
        ensures { result ≡ slice_index (names self.now) index };
}

impl NamesOffsets for L1Table {
    ghost names = { λ table. table_names table.numbers };

    fn count(&self) -> usize {
        self.entries()
    }

    fn offset_at(&self, index: usize) -> u64 {
        self.get(index).l2_offset().unwrap_or(HostOffset(0)).0
    }
}

impl NamesOffsets for RefTable {
    ghost names = { λ table. table.numbers };

    fn count(&self) -> usize {
        self.entries()
    }

    fn offset_at(&self, index: usize) -> u64 {
        self.get(index).refblock_offset().unwrap_or(HostOffset(0)).0
    }
}

/// How often L2 tables or refcount blocks count at the entries that name them: at the first of these for all
/// of them, and 0 times at the others. Contracts see a number for each entry, or none at all if each counts
/// once.
#[derive(Drop)]
pub struct Repeats {
    times: Vec<u32>,
}

impl Model for Repeats {
    ghost use Rattle.std.specs.Prelude.{List, ℕ};

    ghost Value = { List ℕ };

    ghost view = { λ r. r.times.items };
}

// Whether all offsets that a table names ascend, so that none stands there twice.
fn are_ascending<T: NamesOffsets>(table: &T) -> bool
    ensures { IsTrue result → let names = T.names table.now in
        (index : ℕ) → index < length names → 0 < slice_index names index → is_again names index ≡ false }
{
    let mut last = 0;
    for index in 0..table.count() {
        let offset = table.offset_at(index);
        if offset != 0 && offset <= last {
            return false;
        }
        last = last.max(offset);
    }
    true
}

// A number that orders the places of a list by their offsets, and those of one offset by themselves.
fn sort_key(offsets: &[u64], index: u32) -> u128
    ensures { result ≡ sort_key offsets.now index }
{
    let offset = offsets.get(index as usize).copied().unwrap_or(0);
    u128::from(offset) * (1 << 32) + u128::from(index)
}

// The numbers from 0 to before an end.
fn places(alloc: Global, end: u32) -> Result<Vec<u32>, AllocError>
    ensures { IfOk result (λ places. places.items ≡ range_with_len 0 end) }
{
    let mut places = Vec::with_capacity(alloc, end as usize)?;
    for place in 0..end {
        places.push(place)?;
    }
    Ok(places)
}

// The places of a list in the order of their offsets, those of one offset as they stand.
fn in_order(alloc: Global, offsets: &[u64]) -> Result<Vec<u32>, AllocError>
    requires { length offsets.now ≤ 2 ^ 22 }
    ensures { IfOk result (λ order. ArePlacesInOrder offsets.now order.items) }
{
    let mut order = places(alloc, offsets.len() as u32)?;
    order.sort_unstable_by_key(|index| sort_key(offsets, *index));
    Ok(order)
}

// Gives the count of each place whose offset stands before to the first place of that offset.
fn gather(offsets: &[u64], order: &[u32], times: &mut [u32])
    requires few { length offsets.now ≤ 2 ^ 22 }
    requires order { ArePlacesInOrder offsets.now order.now }
    requires once { times.old ≡ replicate (length offsets.now) 1 }
    ensures { AreTimesOf offsets.now times.new }
{
    let mut first = 0;
    for place in 0..order.len() {
        let index = order[place] as usize;
        if place > 0 && offsets[index] == offsets[first] {
            times[first] += 1;
            times[index] = 0;
        } else {
            first = index;
        }
    }
}

// The offsets that the entries of a table name, 0 if one names none.
fn table_offsets<T: NamesOffsets>(alloc: Global, table: &T) -> Result<Vec<u64>, AllocError>
    ensures { IfOk result (λ offsets. offsets.items ≡ T.names table.now) }
{
    let mut offsets = Vec::with_capacity(alloc, table.count())?;
    for index in 0..table.count() {
        offsets.push(table.offset_at(index))?;
    }
    Ok(offsets)
}

impl Repeats {
    ghost use Rattle.std.specs.Prelude.{◌≡◌, ◌≤◌, ◌^◌, IfOk, IsOkUnless, length};
    ghost use Rattle.qcow2_base.specs.declared.fault.Fault.TheVariants.{NoMemory};
    ghost use Rattle.qcow2_check.specs.Repeats.{AreTimesOf, times_at};

    /// The counts of the L2 tables or blocks that a table names. Takes memory only if their offsets don't
    /// ascend, and fails only if it runs out (fault 35).
    pub fn new<T: NamesOffsets>(alloc: Global, table: &T) -> Result<Repeats, Fault>
        requires { length (T.names table.now) ≤ 2 ^ 22 }
        ensures fault { IsOkUnless result NoMemory }
        ensures counts { IfOk result (AreTimesOf (T.names table.now)) }
    {
        if are_ascending(table) {
            return Ok(Repeats {
                times: Vec::new(alloc),
            });
        }
        let offsets = table_offsets(alloc, table)?;
        Ok(Repeats::of(alloc, &offsets)?)
    }

    // The counts of these offsets.
    fn of(alloc: Global, offsets: &[u64]) -> Result<Repeats, AllocError>
        requires { length offsets.now ≤ 2 ^ 22 }
        ensures { IfOk result (AreTimesOf offsets.now) }
    {
        let order = in_order(alloc, offsets)?;
        let mut times = vec![in alloc; 1u32; offsets.len()]?;
        gather(offsets, &order, &mut times);
        Ok(Repeats { times })
    }

    /// How often the L2 table or block that the entry at an index names counts there: 0 times if an entry
    /// before it names the same. Says nothing if the entry names none.
    #[inline]
    pub fn times(&self, index: usize) -> u32
        ensures { result ≡ times_at self.now index }
    {
        self.times.get(index).copied().unwrap_or(1)
    }

    /// How many bytes of memory the counts take.
    pub fn bytes(&self) -> usize {
        self.times.len().saturating_mul(size_of::<u32>())
    }
}
