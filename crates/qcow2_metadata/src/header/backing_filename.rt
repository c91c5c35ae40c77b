//! Reads and writes the backing file's name.

ghost use Rattle.std.specs.Prelude.{unwrap_or, [], ◌≡◌, ◌++◌, IfOk, OnOk, length, option_map, string_bytes, true};
ghost use Rattle.qcow2_base.specs.Types.{IsClusterBits};
ghost use Rattle.qcow2_metadata.specs.Header.Grammar.{IsHeaderFault, backing_name};
ghost use Rattle.qcow2_metadata.specs.Header.Text.{is_short};
ghost use Rattle.qcow2_metadata.specs.ReadAhead.{ReadsThrough};

use super::Header;
use super::bytes::{parse_text, read_bytes};
use super::fixed_parts::cluster_size;
use crate::read_ahead::ReadAhead;
use qcow2_base::{Fault, MAX_BACKING_FILENAME, Storage, V2Header};
use std::alloc::{AllocError, Global};

// Returns the backing file's name, or `None` if the header gives no offset for it.
pub(super) fn read_backing_filename<S: Storage>(
    alloc: Global,
    image: &mut ReadAhead<S>,
    v2: &V2Header,
) -> Result<Option<String>, Fault>
    requires { IsClusterBits v2.now.cluster_bits }
    ensures reads { ReadsThrough S.state (option_map string_bytes) result
        (λ bytes. backing_name bytes v2.now) IsHeaderFault image.old image.new }
    ensures short { IfOk result (λ name. is_short (option_map string_bytes name) ≡ true) }
{
    if v2.backing_file_offset == 0 {
        return Ok(None);
    }
    if v2.backing_file_size > MAX_BACKING_FILENAME {
        return Err(Fault::BackingNameLong);
    }
    let len = v2.backing_file_size as u64;
    let cluster_size = cluster_size(v2);
    if len > cluster_size || v2.backing_file_offset > cluster_size - len {
        return Err(Fault::BackingNamePlace);
    }
    let bytes = read_bytes(alloc, image, v2.backing_file_offset, len as usize)?;
    Ok(Some(parse_text(bytes, Fault::BackingNameText)?))
}

impl Header {
    pub(super) fn backing_filename_len(&self) -> usize
        ensures { result ≡ length (unwrap_or self.now.backing_filename []) }
    {
        match &self.backing_filename {
            Some(name) => name.len(),
            None => 0,
        }
    }

    pub(super) fn push_backing_filename(&self, text: &mut Vec<u8>) -> Result<(), AllocError>
        ensures { OnOk result
            (text.new.items ≡ text.old.items ++ unwrap_or self.now.backing_filename []) }
    {
        match &self.backing_filename {
            Some(name) => text.extend_from_slice(name.as_bytes()),
            None => Ok(()),
        }
    }
}
