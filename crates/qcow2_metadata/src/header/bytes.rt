//! Bytes of a header: reads them from an image, also as text, and appends them to a text.

ghost use Rattle.std.specs.Prelude.{◌≡◌, ◌+◌, ◌^◌, ◌≤◌, ◌++◌, IfOk, Ok, OnOk, length, replicate, string_bytes};
ghost use Rattle.qcow2_base.specs.Storage.{IsBytes, image_of};
ghost use Rattle.qcow2_metadata.specs.Results.{result_map};
ghost use Rattle.qcow2_metadata.specs.Header.Extensions.{text};
ghost use Rattle.qcow2_metadata.specs.Header.Text.{padded_bytes};
ghost use Rattle.qcow2_metadata.specs.Range.{bytes_at};
ghost use Rattle.qcow2_metadata.specs.ReadAhead.{ReadsThrough};

use crate::read_ahead::ReadAhead;
use qcow2_base::{Fault, HostOffset, Storage};
use std::alloc::{AllocError, Global};

// Returns `len` bytes of the image from an offset on. Allocates memory for them, so they must end within the
// largest cluster.
#[tactic(auto, using(crate::proofs::LoadLemmas::bytes_read))]
pub(super) fn read_bytes<S: Storage>(
    alloc: Global,
    image: &mut ReadAhead<S>,
    offset: u64,
    len: usize,
) -> Result<Vec<u8>, Fault>
    requires { offset + len ≤ 2 ^ 21 }
    ensures reads { ReadsThrough S.state (λ bytes. bytes.items) result
        (λ stored. Ok (bytes_at stored offset len)) (λ _. ⊥) image.old image.new }
    ensures len { IfOk result (λ bytes. length bytes.items ≡ len) }
{
    if len == 0 {
        return Ok(Vec::new(alloc));
    }
    let mut bytes = vec![in alloc; 0u8; len]?;
    image.read_range(HostOffset(offset), &mut bytes)?;
    Ok(bytes)
}

// Returns the bytes as text, or the fault if they aren't UTF-8.
#[tactic(auto, using(crate::proofs::ExtensionsLemmas::texts))]
pub(super) fn parse_text(bytes: Vec<u8>, fault: Fault) -> Result<String, Fault>
    ensures { result_map string_bytes result ≡ text fault bytes.items }
{
    match String::from_utf8(bytes) {
        Ok(text) => Ok(text),
        Err(_) => Err(fault),
    }
}

pub(super) fn push_bytes(text: &mut Vec<u8>, bytes: &[u8]) -> Result<(), AllocError>
    ensures pushed { OnOk result (text.new.items ≡ text.old.items ++ bytes.now) }
    ensures bytes { IsBytes (image_of bytes.now) }
{
    text.extend_from_slice(bytes)
}

pub(super) fn push_zeros(text: &mut Vec<u8>, count: usize) -> Result<(), AllocError>
    requires { count ≤ 46 }
    ensures { OnOk result (text.new.items ≡ text.old.items ++ replicate count 0) }
{
    text.resize(text.len() + count, 0)
}

// Appends bytes to the text, padded with zeros to a multiple of 8.
#[tactic(auto, using(crate::proofs::LayoutLemmas::padded_pieces))]
pub(super) fn push_padded(text: &mut Vec<u8>, bytes: &[u8]) -> Result<(), AllocError>
    ensures { OnOk result (text.new.items ≡ text.old.items ++ padded_bytes bytes.now) }
{
    text.extend_from_slice(bytes)?;
    push_zeros(text, (8 - bytes.len() % 8) % 8)
}
