//! Feature name tables, a kind of header extension: reads and writes them, and has that of new images.

ghost use Rattle.std.specs.Prelude.{◌≡◌, ◌⊎◌, ◌+◌, ◌^◌, ◌≤◌, ◌++◌, IfErr, IfOk, OnOk, length, string_bytes};
ghost use Rattle.std.specs.BTreeMap.{IsOrdered, insert_entry};
ghost use Rattle.std.specs.List.{flat_map};
ghost use Rattle.std.specs.Str.Lossy.{utf8_lossy};
ghost use Rattle.qcow2_base.specs.declared.fault.Fault.TheVariants.{FeatureNameCut, NoMemory};
ghost use Rattle.qcow2_metadata.specs.Results.{Computes};
ghost use Rattle.qcow2_metadata.specs.Header.{known_names};
ghost use Rattle.qcow2_metadata.specs.Header.Extensions.{FeatureNameTable, IsStorable, feature_names, key_cmp, name_chunk, names_of, until_zero, with_feature_name};
ghost use Rattle.qcow2_metadata.specs.Header.Grammar.{IsHeaderFault};
ghost use Rattle.qcow2_metadata.specs.Range.{bytes_at};
ghost use Rattle.qcow2_metadata.specs.ReadAhead.{ReadsThrough};

use super::bytes::push_zeros;
use super::features::FeatureType::{self, Autoclear, Compatible, Incompatible};
use crate::read_ahead::ReadAhead;
use bstr::ByteSlice;
use qcow2_base::{Fault, HostOffset, Storage};
use std::alloc::{AllocError, Global};
use std::collections::BTreeMap;

/// The size of an entry of a feature name table in bytes: a type, a bit and a name.
pub(super) const FEATURE_NAME_BYTES: usize = 48;

/// The greatest length of a feature's name in a table, in bytes.
const FEATURE_NAME_LEN: usize = FEATURE_NAME_BYTES - 2;

// Returns the names of features in new images.
pub(super) fn known_names(alloc: Global) -> Result<BTreeMap<(FeatureType, u8), String>, AllocError>
    ensures { IfOk result (λ names. names_of names ≡ known_names) }
{
    let mut names = BTreeMap::new(alloc);
    set_name(alloc, &mut names, (Incompatible, 0), "dirty")?;
    set_name(alloc, &mut names, (Incompatible, 1), "corrupt")?;
    set_name(alloc, &mut names, (Incompatible, 2), "external data file")?;
    set_name(
        alloc,
        &mut names,
        (Incompatible, 3),
        "extended compression type",
    )?;
    set_name(alloc, &mut names, (Incompatible, 4), "extended L2 entries")?;
    set_name(alloc, &mut names, (Compatible, 0), "lazy refcounts")?;
    set_name(
        alloc,
        &mut names,
        (Autoclear, 0),
        "persistent dirty bitmaps",
    )?;
    set_name(alloc, &mut names, (Autoclear, 1), "raw external data file")?;
    Ok(names)
}

fn set_name(
    alloc: Global,
    names: &mut BTreeMap<(FeatureType, u8), String>,
    key: (FeatureType, u8),
    name: &str,
) -> Result<(), AllocError>
    ensures { OnOk result
        (names_of names.new ≡ insert_entry key_cmp (names_of names.old) key name.now) }
{
    let name = String::from_str(alloc, name)?;
    names.insert(key, name)?;
    Ok(())
}

// Returns the names of a feature name table of `len` bytes at a place.
pub(super) fn read_feature_names<S: Storage>(
    alloc: Global,
    image: &mut ReadAhead<S>,
    place: u64,
    len: usize,
) -> Result<BTreeMap<(FeatureType, u8), String>, Fault>
    requires { place + len ≤ 2 ^ 21 }
    ensures reads { ReadsThrough S.state names_of result
        (λ bytes. feature_names (bytes_at bytes place len)) IsHeaderFault image.old image.new }
    ensures storable { IfOk result (λ names. IsStorable (FeatureNameTable (names_of names))) }
{
    let mut names = BTreeMap::new(alloc);
    let mut buffer = [0u8; FEATURE_NAME_BYTES];
    for index in 0..len.div_ceil(FEATURE_NAME_BYTES) {
        let first = FEATURE_NAME_BYTES * index;
        let chunk = &mut buffer[..FEATURE_NAME_BYTES.min(len - first)];
        image.read_range(HostOffset(place + first as u64), chunk)?;
        add_feature_name(alloc, &mut names, chunk)?;
    }
    Ok(names)
}

// Adds the name in one entry of a feature name table. Ignores an entry of an unknown type.
fn add_feature_name(
    alloc: Global,
    names: &mut BTreeMap<(FeatureType, u8), String>,
    chunk: &[u8],
) -> Result<(), Fault>
    requires { length chunk.now ≤ 48 }
    ensures exact { Computes (λ _. names_of names.new) result
        (with_feature_name (names_of names.old) chunk.now) }
    ensures ordered { IsOrdered key_cmp names.old → IsOrdered key_cmp names.new }
    ensures faults { IfErr result (λ fault. (fault ≡ FeatureNameCut) ⊎ (fault ≡ NoMemory)) }
{
    let Some(number) = chunk.first() else {
        return Ok(());
    };
    let Ok(feature_type) = FeatureType::try_from(*number) else {
        return Ok(());
    };
    let Some(bit) = chunk.get(1) else {
        return Err(Fault::FeatureNameCut);
    };
    let name = name_of(alloc, &chunk[2..])?;
    names.insert((feature_type, *bit), name)?;
    Ok(())
}

// Returns the name up to the first zero byte, with U+FFFD for bytes that aren't UTF-8.
#[tactic(auto, using(crate::proofs::FeatureNamesLemmas::names_read))]
fn name_of(alloc: Global, bytes: &[u8]) -> Result<String, AllocError>
    requires { length bytes.now ≤ 46 }
    ensures { IfOk result (λ name. string_bytes name ≡ utf8_lossy (until_zero bytes.now)) }
{
    let end = bytes.find_byte(0).unwrap_or(bytes.len());
    let front = &bytes[..end];
    let mut name = String::new(alloc);
    front.to_str_lossy_into(&mut name)?;
    Ok(name)
}

// Appends the data of a feature name table to the text.
pub(super) fn push_names(
    text: &mut Vec<u8>,
    names: &BTreeMap<(FeatureType, u8), String>,
) -> Result<(), AllocError>
    ensures { OnOk result
        (text.new.items ≡ text.old.items ++ flat_map name_chunk (names_of names.now)) }
{
    for (key, name) in names {
        push_name(text, *key, name)?;
    }
    Ok(())
}

#[tactic(auto, using(crate::proofs::LayoutLemmas::name_chunk_pieces))]
fn push_name(text: &mut Vec<u8>, key: (FeatureType, u8), name: &str) -> Result<(), AllocError>
    ensures { OnOk result (text.new.items ≡ text.old.items ++ name_chunk (key, name.now)) }
{
    text.push(u8::from(key.0))?;
    text.push(key.1)?;
    let len = FEATURE_NAME_LEN.min(name.len());
    text.extend_from_slice(&name.as_bytes()[..len])?;
    push_zeros(text, FEATURE_NAME_LEN - len)
}
