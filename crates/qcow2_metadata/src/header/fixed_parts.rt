//! Reads, checks and writes the fixed parts of a header.

ghost use Rattle.std.specs.Prelude.{unwrap_or, [], ◌≡◌, ◌⊎◌, ◌%◌, ◌^◌, ◌<◌, ◌≤◌, ◌++◌, IfErr, IfOk, Ok, OnOk, length};
ghost use Rattle.qcow2_base.specs.OnDiskStruct.{v2_header, v3_header_base};
ghost use Rattle.qcow2_base.specs.Storage.{image_of};
ghost use Rattle.qcow2_base.specs.Types.{IsClusterBits};
ghost use Rattle.qcow2_metadata.specs.Results.{Reads, after_conditions};
ghost use Rattle.qcow2_metadata.specs.Header.{magic};
ghost use Rattle.qcow2_metadata.specs.Header.Grammar.{AreValidParts, IsBase, IsHeaderFault, field_conditions, fixed_parts, version_conditions};
ghost use Rattle.qcow2_metadata.specs.Header.Text.{AreFitting, base_with_length, fields_text, v2_with_name};

use super::Header;
use super::bytes::push_bytes;
use crate::range::read_range;
use qcow2_base::{
    Fault, HostOffset, MAGIC, OnDiskStruct, Storage, V2Header, V3HeaderBase, read_be, write_be,
};
use std::alloc::AllocError;

/// The length of the two fixed parts in bytes.
pub(super) const FIXED_BYTES: usize = V2Header::ON_DISK_SIZE + V3HeaderBase::ON_DISK_SIZE;

// Returns the two fixed parts, once checked. In version 2 ignores the bytes after the first part.
pub(super) fn read_fixed_parts<S: Storage>(image: &mut S) -> Result<(V2Header, V3HeaderBase), Fault>
    ensures reads { Reads (λ parts. (parts.0, parts.1)) result fixed_parts IsHeaderFault
        (S.state image.old) (S.state image.new) }
    ensures valid { IfOk result (λ parts. AreValidParts parts.0 parts.1) }
{
    let mut bytes = [0u8; FIXED_BYTES];
    read_range(image, HostOffset(0), &mut bytes)?;
    let v2: V2Header = read_be(&bytes, 0);
    check_version(&v2)?;
    let base = read_base(&bytes, v2.version);
    check_fields(&v2, &base)?;
    Ok((v2, base))
}

// Returns the second part of a header of this version, from its first 104 bytes.
fn read_base(bytes: &[u8], version: u32) -> V3HeaderBase
    requires { length bytes.now ≡ 104 }
    ensures { IsBase (image_of bytes.now) version result }
{
    if version == 3 {
        read_be(bytes, V2Header::ON_DISK_SIZE)
    } else {
        V3HeaderBase::default()
    }
}

// Refuses an image that isn't qcow2, an unknown version, and a cluster size that the format doesn't allow.
fn check_version(v2: &V2Header) -> Result<(), Fault>
    ensures exact { result ≡ after_conditions (version_conditions v2.now) (λ _. Ok tt) }
    ensures faults { IfErr result IsHeaderFault }
    ensures magic { OnOk result (v2.now.magic ≡ magic) }
    ensures version { OnOk result ((v2.now.version ≡ 2) ⊎ (v2.now.version ≡ 3)) }
    ensures cluster_bits { OnOk result (IsClusterBits v2.now.cluster_bits) }
{
    if v2.magic != MAGIC {
        return Err(Fault::NotQcow2);
    }
    if v2.version != 2 && v2.version != 3 {
        return Err(Fault::Version);
    }
    if !(9..=21).contains(&v2.cluster_bits) {
        return Err(Fault::ClusterSize);
    }
    Ok(())
}

// Refuses a header that is shorter than 104 bytes or longer than a cluster, tables that don't begin with a
// cluster, and refcounts of more than 64 bits.
fn check_fields(v2: &V2Header, base: &V3HeaderBase) -> Result<(), Fault>
    requires { IsClusterBits v2.now.cluster_bits }
    ensures exact { result ≡ after_conditions (field_conditions v2.now base.now) (λ _. Ok tt) }
    ensures faults { IfErr result IsHeaderFault }
    ensures header_length { OnOk result
        ((104 ≤ base.now.header_length) × (base.now.header_length ≤ 2 ^ v2.now.cluster_bits)) }
    ensures aligned { OnOk result ((v2.now.l1_table_offset % 2 ^ v2.now.cluster_bits ≡ 0)
        × (v2.now.refcount_table_offset % 2 ^ v2.now.cluster_bits ≡ 0)) }
    ensures refcount_order { OnOk result (base.now.refcount_order ≤ 6) }
{
    let cluster_size = cluster_size(v2);
    if (base.header_length as usize) < FIXED_BYTES {
        return Err(Fault::HeaderShort);
    }
    if base.header_length as u64 > cluster_size {
        return Err(Fault::HeaderBig);
    }
    if v2.l1_table_offset % cluster_size != 0 {
        return Err(Fault::L1Unaligned);
    }
    if v2.refcount_table_offset % cluster_size != 0 {
        return Err(Fault::ReftableUnaligned);
    }
    if base.refcount_order > 6 {
        return Err(Fault::RefcountWidth);
    }
    Ok(())
}

#[tactic(auto, using(crate::proofs::HeaderLemmas::powers))]
pub(super) fn cluster_size(v2: &V2Header) -> u64
    requires { IsClusterBits v2.now.cluster_bits }
    ensures value { result ≡ 2 ^ v2.now.cluster_bits }
    ensures bound { result ≤ 2 ^ 21 }
{
    1 << v2.cluster_bits
}

impl Header {
    // Returns the first part of the header, if the backing file's name is at a place.
    pub(super) fn placed_v2(&self, name_place: usize) -> V2Header
        requires { length (unwrap_or self.now.backing_filename []) < 2 ^ 32 }
        ensures { result ≡ v2_with_name self.now.v2 name_place self.now.backing_filename }
    {
        match &self.backing_filename {
            Some(name) => V2Header {
                backing_file_offset: name_place as u64,
                backing_file_size: name.len() as u32,
                ..self.v2
            },
            None => V2Header {
                backing_file_offset: 0,
                backing_file_size: 0,
                ..self.v2
            },
        }
    }

    // Returns the second part of the header, if the extensions begin at a place.
    pub(super) fn placed_base(&self, header_end: usize) -> V3HeaderBase
        requires { header_end < 2 ^ 32 }
        ensures { result ≡ base_with_length self.now.v2.version self.now.base header_end }
    {
        if self.v2.version != 3 {
            return self.base;
        }
        V3HeaderBase {
            header_length: header_end as u32,
            ..self.base
        }
    }
}

// Appends the first part of a header to the text.
pub(super) fn push_v2(text: &mut Vec<u8>, v2: &V2Header) -> Result<(), AllocError>
    ensures pushed { OnOk result
        (text.new.items ≡ text.old.items ++ fields_text (v2_header v2.now)) }
    ensures fits { AreFitting (v2_header v2.now) }
{
    let mut bytes = [0u8; V2Header::ON_DISK_SIZE];
    write_be(&mut bytes, 0, v2);
    push_bytes(text, &bytes)
}

// Appends the second part of a header to the text.
pub(super) fn push_base(text: &mut Vec<u8>, base: &V3HeaderBase) -> Result<(), AllocError>
    ensures pushed { OnOk result
        (text.new.items ≡ text.old.items ++ fields_text (v3_header_base base.now)) }
    ensures fits { AreFitting (v3_header_base base.now) }
{
    let mut bytes = [0u8; V3HeaderBase::ON_DISK_SIZE];
    write_be(&mut bytes, 0, base);
    push_bytes(text, &bytes)
}
