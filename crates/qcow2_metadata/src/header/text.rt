//! The text of a header: the bytes that a write stores at the start of an image.

ghost use Rattle.std.specs.Prelude.{◌≡◌, ◌^◌, ◌<◌, ◌≤◌, ◌++◌, IfOk, IfSome, MatchOption, OnOk, SomeIff, false, replicate};
ghost use Rattle.qcow2_base.specs.OnDiskStruct.{v2_header, v3_header_base};
ghost use Rattle.qcow2_metadata.specs.Header.{IsValidHeader};
ghost use Rattle.qcow2_metadata.specs.Header.Text.{AreFitting, IsLayout, header_to_write, fits_first_cluster, header_end, header_text, padded_bytes, parts_text};

use super::Header;
use super::bytes::push_padded;
use super::extensions::{extensions_len, push_extensions};
use super::fixed_parts::{FIXED_BYTES, push_base, push_v2};
use qcow2_base::{OnDiskStruct, V2Header, V3HeaderBase};
use std::alloc::AllocError;

/// The layout of a header's text: its fixed parts, with the offsets of the other parts.
#[derive(Drop)]
pub(super) struct Layout {
    /// Whether the text has feature name tables.
    pub(super) with_names: bool,
    /// The fixed part of both versions.
    pub(super) v2: V2Header,
    /// The fixed part of version 3.
    pub(super) base: V3HeaderBase,
    /// The length of the text in bytes.
    pub(super) len: usize,
}

impl Header {
    // Returns the layout of the text with feature name tables or without, or `None` if the text doesn't fit
    // the first cluster.
    #[tactic(auto, using(crate::proofs::HeaderLemmas::held_are, crate::proofs::LayoutLemmas::too_long))]
    pub(super) fn layout(&self, with_names: bool) -> Option<Layout>
        ensures layout { MatchOption result (fits_first_cluster (header_to_write with_names self.now) ≡ false)
            (IsLayout (header_to_write with_names self.now)) }
        ensures names { IfSome result (λ layout. layout.with_names ≡ with_names) }
    {
        let extensions_len = extensions_len(&self.extensions, with_names)?;
        let header_end = self.header_end()?;
        let name_place = header_end.checked_add(extensions_len)?;
        let len = name_place.checked_add(self.backing_filename_len())?;
        if len > self.cluster_size() {
            return None;
        }
        Some(Layout {
            with_names,
            v2: self.placed_v2(name_place),
            base: self.placed_base(header_end),
            len,
        })
    }

    // Returns the offset of the extensions.
    fn header_end(&self) -> Option<usize>
        ensures { SomeIff result (header_end self.now < 2 ^ 64) (header_end self.now) }
    {
        if self.v2.version != 3 {
            return Some(V2Header::ON_DISK_SIZE);
        }
        self.unknown_header_fields
            .len()
            .checked_next_multiple_of(8)?
            .checked_add(FIXED_BYTES)
    }

    // Returns the text in that layout, in one buffer of its length.
    pub(super) fn text(&self, layout: &Layout) -> Result<Vec<u8>, AllocError>
        requires { IsLayout (header_to_write layout.now.with_names self.now) layout.now }
        ensures text { IfOk result (λ text.
            text.items ≡ header_text (header_to_write layout.now.with_names self.now)) }
        ensures v2_fits { OnOk result (AreFitting (v2_header layout.now.v2)) }
        ensures base_fits { OnOk result
            (self.now.v2.version ≡ 3 → AreFitting (v3_header_base layout.now.base)) }
        ensures valid { IsValidHeader self.now }
    {
        let mut text = Vec::with_capacity(self.alloc, layout.len)?;
        self.push_parts(&mut text, layout)?;
        push_extensions(&mut text, &self.extensions, layout.with_names)?;
        self.push_backing_filename(&mut text)?;
        Ok(text)
    }

    // Appends everything before the extensions to the text.
    fn push_parts(&self, text: &mut Vec<u8>, layout: &Layout) -> Result<(), AllocError>
        requires { IsLayout (header_to_write layout.now.with_names self.now) layout.now }
        ensures pushed { OnOk result (text.new.items
            ≡ text.old.items ++ parts_text (header_to_write layout.now.with_names self.now)) }
        ensures v2_fits { OnOk result (AreFitting (v2_header layout.now.v2)) }
        ensures base_fits { OnOk result
            (self.now.v2.version ≡ 3 → AreFitting (v3_header_base layout.now.base)) }
    {
        push_v2(text, &layout.v2)?;
        if self.v2.version != 3 {
            return Ok(());
        }
        push_base(text, &layout.base)?;
        push_padded(text, &self.unknown_header_fields)
    }
}
