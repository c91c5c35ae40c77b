//! The meaning of L1 and L2 entries, by the fields of a header.

ghost use Rattle.std.specs.Prelude.{◌≡◌, ◌↔◌, ℕ, ◌+◌, ◌*◌, ◌%◌, ◌^◌, ◌≤◌, IsTrue, IsOkAnd, MatchResult, None, Err, length};
ghost use Rattle.qcow2_base.specs.Types.{IsClusterBits};
ghost use Rattle.qcow2_metadata.specs.Entries.{is_copied, offset_field};
ghost use Rattle.qcow2_metadata.specs.Entries.L2Entry.{compressed_length, compressed_offset, is_zero, l2_fault};
ghost use Rattle.qcow2_metadata.specs.Entries.L2Mapping as spec;
ghost use Rattle.qcow2_metadata.specs.Header.{geometry};
ghost use Rattle.qcow2_bytes.specs.Entries.{IsFirstBad, l1_entry_in, l2_entry_in, mapping_fields, number_at, table_geometry};

use crate::HeaderFields;
use qcow2_base::{Fault, HostOffset, MAX_FILE_LENGTH, field, read_be};

/// The L2 table that an L1 entry names.
#[derive(Clone, Copy, Debug, PartialEq, Eq)]
pub struct L2Pointer {
    /// The offset of the L2 table in the image, in bytes. 0 if the entry names none.
    pub offset: u64,
    /// Whether the entry's copied flag is set, which says that the refcount of the table's cluster is exactly
    /// one.
    pub copied: bool,
}

/// What a guest cluster reads as, in plain numbers.
#[repr(C)]
#[derive(Clone, Copy, Debug, PartialEq, Eq)]
pub struct EntryMapping {
    /// 0: data of the backing file. 1: data. 2: zeros without a cluster. 3: zeros with a cluster. 4:
    /// compressed data.
    pub kind: u32,
    /// 1 if the entry's copied flag is set, which says that the refcount of its cluster is exactly one; else
    /// 0.
    pub copied: u32,
    /// The offset of the data or of the zeros' cluster: for kind 0 in the backing file, for kind 4 in the
    /// image, for kinds 1 and 3 in the external data file, or in the image if it has none. 0 for kind 2.
    pub offset: u64,
    /// The number of bytes there: the cluster size; for kind 4 the most that the data can take; 0 for kind 2.
    pub length: u64,
}

/// An invalid entry of a table: its index, and its fault.
#[derive(Clone, Copy, Debug, PartialEq, Eq)]
pub struct BadEntry {
    pub index: usize,
    pub fault: Fault,
}

/// Decodes an L1 entry.
///
/// Refuses fields that no header has (3, 17), and what `L1Entry::try_from_plain` refuses (18, 19). Takes no
/// memory.
#[inline]
pub fn l1_entry(entry: u64, fields: &HeaderFields) -> Result<L2Pointer, Fault>
    ensures { result ≡ l1_entry_in fields.now entry }
{
    let (cluster_bits, _) = fields.geometry()?;
    if field(entry, 0, 9) + (field(entry, 56, 7) << 56) != 0 {
        return Err(Fault::EntryReserved);
    }
    let offset = field(entry, 9, 47) * 512;
    if HostOffset(offset).in_cluster_offset(cluster_bits) != 0 {
        return Err(Fault::EntryUnaligned);
    }
    Ok(L2Pointer {
        offset,
        copied: field(entry, 63, 1) == 1,
    })
}

/// Decodes the L2 entry of a guest offset's cluster.
///
/// Refuses fields that no header has (3, 17), and what `L2Entry::try_from_plain` refuses (18, 19). Takes no
/// memory.
#[inline]
pub fn l2_entry(entry: u64, fields: &HeaderFields, guest_offset: u64) -> Result<EntryMapping, Fault>
    ensures { result ≡ l2_entry_in fields.now entry guest_offset }
{
    let (cluster_bits, external) = fields.geometry()?;
    if let Some(fault) = l2_fault_of(entry, cluster_bits) {
        return Err(fault);
    }
    let guest_begin = guest_offset >> cluster_bits << cluster_bits;
    Ok(mapping_of(entry, cluster_bits, external, guest_begin))
}

// The mapping of the guest cluster at offset `guest_begin`, by its L2 entry, which must be valid.
#[inline]
pub(crate) fn mapping_of(
    entry: u64,
    cluster_bits: u32,
    external: bool,
    guest_begin: u64,
) -> EntryMapping
    requires bits { IsClusterBits cluster_bits }
    requires lawful { l2_fault cluster_bits entry ≡ None }
    ensures { (guest_cluster : ℕ) → guest_begin ≡ guest_cluster * 2 ^ cluster_bits →
        result ≡ mapping_fields cluster_bits
        (spec.mapping (geometry cluster_bits external) guest_cluster entry) }
{
    if field(entry, 62, 1) == 1 {
        return compressed_mapping(entry, cluster_bits);
    }
    standard_mapping(entry, cluster_bits, external, guest_begin)
}

// The fault of an L2 entry, if it is invalid.
#[inline]
fn l2_fault_of(entry: u64, cluster_bits: u32) -> Option<Fault>
    requires { IsClusterBits cluster_bits }
    ensures { result ≡ l2_fault cluster_bits entry }
{
    if field(entry, 62, 1) == 1 {
        let is_lawful = field(entry, 63, 1) == 0
            && field(entry, 0, 70 - cluster_bits) < MAX_FILE_LENGTH;
        return (!is_lawful).then_some(Fault::EntryReserved);
    }
    if field(entry, 1, 8) != 0 || field(entry, 56, 6) != 0 {
        return Some(Fault::EntryReserved);
    }
    let offset = HostOffset(field(entry, 9, 47) * 512);
    (offset.in_cluster_offset(cluster_bits) != 0).then_some(Fault::EntryUnaligned)
}

// The mapping of a compressed entry.
#[inline]
fn compressed_mapping(entry: u64, cluster_bits: u32) -> EntryMapping
    requires { IsClusterBits cluster_bits }
    ensures { result ≡ mapping_fields cluster_bits (spec.compressed (compressed_offset cluster_bits entry)
        (compressed_length cluster_bits entry)) }
{
    let offset_bits = 70 - cluster_bits;
    let offset = field(entry, 0, offset_bits) % MAX_FILE_LENGTH;
    let sectors = field(entry, offset_bits, cluster_bits - 8) + 1;
    EntryMapping {
        kind: 4,
        copied: 0,
        offset,
        length: sectors * 512 - offset % 512,
    }
}

// The mapping of a standard entry. The guest cluster begins at offset `guest_begin`.
#[inline]
fn standard_mapping(entry: u64, cluster_bits: u32, external: bool, guest_begin: u64) -> EntryMapping
    requires bits { IsClusterBits cluster_bits }
    requires aligned { offset_field entry % 2 ^ cluster_bits ≡ 0 }
    ensures { (guest_cluster : ℕ) → guest_begin ≡ guest_cluster * 2 ^ cluster_bits →
        result ≡ mapping_fields cluster_bits (spec.standard_mapping (is_zero entry)
        (spec.host_cluster (geometry cluster_bits external) entry) (is_copied entry) guest_begin) }
{
    let copied = field(entry, 63, 1) as u32;
    let offset = field(entry, 9, 47) * 512;
    let is_zero = field(entry, 0, 1) == 1;
    let is_allocated = offset != 0 || external && copied == 1;
    let (kind, copied, offset, length) = match (is_zero, is_allocated) {
        (false, false) => (0, 0, guest_begin, 1 << cluster_bits),
        (false, true) => (1, copied, offset, 1 << cluster_bits),
        (true, false) => (2, 0, 0, 0),
        (true, true) => (3, copied, offset, 1 << cluster_bits),
    };
    EntryMapping {
        kind,
        copied,
        offset,
        length,
    }
}

/// Returns the first invalid entry in the bytes of an L2 table, or of a part of one, if there is one.
///
/// Refuses fields that no header has (3, 17), and bytes that aren't whole entries of eight bytes (31). Takes
/// no memory.
pub fn first_bad_l2_entry(bytes: &[u8], fields: &HeaderFields) -> Result<Option<BadEntry>, Fault>
    ensures { MatchResult result (λ found. IsOkAnd (table_geometry fields.now bytes.now) (λ g.
        IsFirstBad g.cluster_bits bytes.now found))
        (λ fault. table_geometry fields.now bytes.now ≡ Err fault) }
{
    let (cluster_bits, _) = fields.geometry()?;
    if bytes.len() % 8 != 0 {
        return Err(Fault::WrongLength);
    }
    Ok(first_bad(bytes, cluster_bits))
}

// The entry at an index, as a number.
#[inline]
pub(crate) fn number_at(bytes: &[u8], index: usize) -> u64
    requires { 8 * index + 8 ≤ length bytes.now }
    ensures { result ≡ number_at bytes.now index }
{
    read_be(bytes, 8 * index)
}

// The first invalid L2 entry in the bytes.
pub(crate) fn first_bad(bytes: &[u8], cluster_bits: u32) -> Option<BadEntry>
    requires bits { IsClusterBits cluster_bits }
    requires whole { length bytes.now % 8 ≡ 0 }
    ensures { IsFirstBad cluster_bits bytes.now result }
{
    if are_entries(bytes, cluster_bits) {
        return None;
    }
    for index in 0..bytes.len() / 8 {
        if let Some(fault) = l2_fault_of(number_at(bytes, index), cluster_bits) {
            return Some(BadEntry { index, fault });
        }
    }
    None
}

// Whether all L2 entries in the bytes are valid. Tests each, so that the compiler can test several at once.
fn are_entries(bytes: &[u8], cluster_bits: u32) -> bool
    requires bits { IsClusterBits cluster_bits }
    requires whole { length bytes.now % 8 ≡ 0 }
    ensures { IsTrue result ↔ IsFirstBad cluster_bits bytes.now None }
{
    let mut all = true;
    for index in 0..bytes.len() / 8 {
        all &= is_entry(number_at(bytes, index), cluster_bits);
    }
    all
}

// Whether an L2 entry is valid: a compressed one with neither bit 63 nor bits of its offset from 56 on, or a
// standard one with no bits except 0, 63 and those of its cluster's offset.
#[inline]
fn is_entry(entry: u64, cluster_bits: u32) -> bool
    requires { IsClusterBits cluster_bits }
    ensures { IsTrue result ↔ (l2_fault cluster_bits entry ≡ None) }
{
    let standard = (127 << 56) + ((1 << cluster_bits) - 2);
    let compressed = (3 << 62) + (((1 << (70 - cluster_bits)) - 1) >> 56 << 56);
    (entry & compressed == 1 << 62) | (entry & standard == 0)
}
