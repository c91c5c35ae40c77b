//! The extents in the bytes of an L2 table.

ghost use Rattle.std.specs.Prelude.{◌≡◌, ℕ, true, None, ◌+◌, ◌*◌, ◌/◌, ◌%◌, ◌^◌, ◌<◌, ◌≤◌, ◌↔◌, IsTrue, length};
ghost use Rattle.qcow2_base.specs.Format.{most_l2_entries};
ghost use Rattle.qcow2_base.specs.Types.{IsClusterBits};
ghost use Rattle.qcow2_metadata.specs.Entries.L2Entry.{l2_fault};
ghost use Rattle.qcow2_metadata.specs.Header.{geometry};
ghost use Rattle.qcow2_bytes.specs.Entries.{IsFirstBad};
ghost use Rattle.qcow2_bytes.specs.Entries as spec;
ghost use Rattle.qcow2_bytes.specs.Tables.{HoldsExtents, IsEntryPattern, IsTableExtent, JoinsEntries, KeepPattern, are_in_table, has_pattern};

use crate::entries::{first_bad, mapping_of, number_at};
use crate::{ExtentFields, HeaderFields};
use qcow2_base::{Fault, field};

mod edit;

pub use edit::{EditCounts, EditFields, EditRefusal, edit_l2_table};

// The number of entries that are tested one by one, before they are tested in blocks.
const FEW: usize = 16;

// The number of entries in a block.
const BLOCK: usize = 64;

/// Joins the entries in the bytes of an L2 table, or of a part of one, into extents, and returns their
/// number: all, or as many as fit. The first entry is that of the guest cluster at `first_guest_offset`.
///
/// An extent is as long as possible. Its clusters all have the same kind of content, and data and zeros with
/// clusters lie in consecutive host clusters. The copied flag makes no difference, unless it alone says that
/// an entry has a cluster. A list as long as the number of entries is always long enough. To go on, pass the
/// bytes after the entries of all extents, `length >> cluster_bits` for each.
///
/// Refuses fields that no header has (3, 17). Then refuses bytes that aren't whole entries of eight bytes or
/// exceed a cluster, an offset that isn't a multiple of the cluster size, and one for which a guest cluster
/// would end at or past 2^64 (31). Then refuses the first invalid entry in all the bytes (18, 19). Takes no
/// memory. After a refusal no extent has changed.
pub fn l2_extents(
    bytes: &[u8],
    fields: &HeaderFields,
    first_guest_offset: u64,
    extents: &mut [ExtentFields],
) -> Result<usize, Fault>
    ensures { JoinsEntries fields.now bytes.now first_guest_offset extents.old extents.new result }
{
    let (cluster_bits, external) = fields.geometry()?;
    if !are_in_table(bytes, cluster_bits, first_guest_offset) {
        return Err(Fault::WrongLength);
    }
    if let Some(bad) = first_bad(bytes, cluster_bits) {
        return Err(bad.fault);
    }
    Ok(join(bytes, cluster_bits, external, first_guest_offset, extents))
}

// Whether the bytes are whole entries of at most one table, the first is that of a cluster at this offset,
// and all their clusters end below 2^64.
fn are_in_table(bytes: &[u8], cluster_bits: u32, first_guest_offset: u64) -> bool
    requires { IsClusterBits cluster_bits }
    ensures { result ≡ are_in_table cluster_bits bytes.now first_guest_offset }
{
    let cluster_size: u64 = 1 << cluster_bits;
    let len = bytes.len() as u64;
    if len % 8 != 0 || len > cluster_size || first_guest_offset % cluster_size != 0 {
        return false;
    }
    first_guest_offset
        .checked_add(len / 8 * cluster_size)
        .is_some()
}

// Joins the entries in the bytes, which must all be valid.
fn join(
    bytes: &[u8],
    cluster_bits: u32,
    external: bool,
    first_guest_offset: u64,
    extents: &mut [ExtentFields],
) -> usize
    requires bits { IsClusterBits cluster_bits }
    requires part { are_in_table cluster_bits bytes.now first_guest_offset ≡ true }
    requires valid { IsFirstBad cluster_bits bytes.now None }
    ensures { (end : ℕ) × HoldsExtents (geometry cluster_bits external) first_guest_offset bytes.now
        extents.old extents.new result end }
{
    let entries = bytes.len() / 8;
    let (mut index, mut count) = (0, 0);
    while index < entries && count < extents.len() {
        let extent = extent_at(bytes, index, cluster_bits, external, first_guest_offset);
        extents[count] = extent;
        count += 1;
        index += (extent.length >> cluster_bits) as usize;
    }
    count
}

// The extent that begins with the entry at an index. All entries must be valid.
#[inline]
fn extent_at(
    bytes: &[u8],
    index: usize,
    cluster_bits: u32,
    external: bool,
    first_guest_offset: u64,
) -> ExtentFields
    requires bits { IsClusterBits cluster_bits }
    requires within { 8 * index + 8 ≤ length bytes.now }
    requires part { are_in_table cluster_bits bytes.now first_guest_offset ≡ true }
    requires valid { IsFirstBad cluster_bits bytes.now None }
    ensures { (count : ℕ) × IsTableExtent (geometry cluster_bits external) first_guest_offset bytes.now
        index count result }
{
    let guest_offset = first_guest_offset + ((index as u64) << cluster_bits);
    let entry = number_at(bytes, index);
    let mapping = mapping_of(entry, cluster_bits, external, guest_offset);
    let end = EntryPattern::of(entry, cluster_bits, external).end(bytes, index);
    ExtentFields {
        kind: mapping.kind,
        reserved: 0,
        guest_offset,
        length: ((end - index) as u64) << cluster_bits,
        offset: mapping.offset,
    }
}

/// What the entries of an extent have in common: under the mask the value of the first, which grows by `step`
/// from one entry to the next.
#[derive(Clone, Copy)]
struct EntryPattern {
    mask: u64,
    value: u64,
    step: u64,
}

impl EntryPattern {
    // The pattern of the entries that continue the extent of this valid one. Entries with a host cluster name
    // consecutive ones. If guest data is external, the mask has the copied flag of an entry without one,
    // which tells it from an entry with cluster 0.
    #[inline]
    fn of(entry: u64, cluster_bits: u32, external: bool) -> EntryPattern
        requires bits { IsClusterBits cluster_bits }
        requires lawful { l2_fault cluster_bits entry ≡ None }
        ensures exact { IsEntryPattern (geometry cluster_bits external) entry result }
        ensures fits { result.value + most_l2_entries * result.step < 2 ^ 64 }
    {
        if field(entry, 62, 1) == 1 {
            return EntryPattern {
                mask: 1 << 62,
                value: 1 << 62,
                step: 0,
            };
        }
        let is_allocated = field(entry, 9, 47) != 0 || external && field(entry, 63, 1) == 1;
        let (mask, step) = match (is_allocated, external) {
            (true, _) => ((1 << 63) - 1, 1 << cluster_bits),
            (false, true) => (u64::MAX, 0),
            (false, false) => ((1 << 63) - 1, 0),
        };
        EntryPattern {
            mask,
            value: field(entry, 0, 63),
            step,
        }
    }

    // The index after the last entry that has the pattern of the one at `index`.
    #[inline]
    fn end(&self, bytes: &[u8], index: usize) -> usize
        requires within { 8 * index + 8 ≤ length bytes.now }
        requires fits { self.now.value + length bytes.now / 8 * self.now.step < 2 ^ 64 }
        ensures { KeepPattern self.now bytes.now index (length bytes.now / 8) result }
    {
        let entries = bytes.len() / 8;
        // On a mixed disk most extents end soon.
        let near = entries.min(index + 1 + FEW);
        let mut end = self.end_before(bytes, index, index + 1, near);
        if end < near {
            return end;
        }
        while end + BLOCK <= entries {
            if !self.all_have(bytes, index, end) {
                break;
            }
            end += BLOCK;
        }
        self.end_before(bytes, index, end, entries)
    }

    // Whether a block of entries has the pattern of the one at `index`. Has no early exit, so that the
    // compiler can test several at once.
    #[inline]
    fn all_have(&self, bytes: &[u8], index: usize, first: usize) -> bool
        requires order { index < first }
        requires within { 8 * (first + 64) ≤ length bytes.now }
        requires fits { self.now.value + length bytes.now / 8 * self.now.step < 2 ^ 64 }
        ensures { IsTrue result ↔ ((k : ℕ) → first ≤ index + k → index + k < first + 64 →
            has_pattern self.now bytes.now index k ≡ true) }
    {
        let mut expected = self.value + (first - index) as u64 * self.step;
        let mut all = true;
        for next in first..first + BLOCK {
            all &= number_at(bytes, next) & self.mask == expected;
            expected += self.step;
        }
        all
    }

    // The same, searched from `first` to before `limit`. Returns `limit` if no entry there breaks the
    // pattern.
    #[inline]
    fn end_before(&self, bytes: &[u8], index: usize, first: usize, limit: usize) -> usize
        requires order { (index < first) × (first ≤ limit) }
        requires within { 8 * limit ≤ length bytes.now }
        requires fits { self.now.value + length bytes.now / 8 * self.now.step < 2 ^ 64 }
        requires before { (k : ℕ) → 1 ≤ k → index + k < first →
            has_pattern self.now bytes.now index k ≡ true }
        ensures { KeepPattern self.now bytes.now index limit result }
    {
        let mut expected = self.value + (first - index) as u64 * self.step;
        for next in first..limit {
            if number_at(bytes, next) & self.mask != expected {
                return next;
            }
            expected += self.step;
        }
        limit
    }
}
