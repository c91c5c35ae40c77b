//! Writes a header to the start of an image.

ghost use Rattle.std.specs.Prelude.{◌≡◌, OnErr, OnOk, Ok, Some, length};
ghost use Rattle.qcow2_base.specs.Storage.{OnImages, OnlyWrites};
ghost use Rattle.qcow2_metadata.specs.Results.{RefusesFirst};
ghost use Rattle.qcow2_metadata.specs.Header.{IsValidHeader};
ghost use Rattle.qcow2_metadata.specs.Header.Open.{BecomesWritable, without_autoclear};
ghost use Rattle.qcow2_metadata.specs.Header.Text.{IsChosen, IsLayout, IsWrittenHeader, header_to_write, chosen_text, header_after_write, header_with_places};

use super::Header;
use super::text::Layout;
use qcow2_base::{Fault, MAX_BACKING_FILENAME, Storage};

impl Header {
    /// Writes the header to the start of the image, in one call of the storage: its fields, the extensions,
    /// and last the backing file's name. Later bytes stay.
    ///
    /// Sets the header's length, and the offset and length of the backing file's name. If the text doesn't
    /// fit the first cluster, drops the feature name tables from it and from the header. The header changes
    /// only after a successful write.
    ///
    /// Refuses a backing file's name of more than 1023 bytes (fault 25), then a text that doesn't fit the
    /// first cluster (24). Only then allocates the text and calls the storage. Any fault leaves the header
    /// unchanged, and any but the storage's leaves the image unchanged.
    pub fn write<S: Storage>(&mut self, image: &mut S) -> Result<(), Fault>
        ensures exact { RefusesFirst (λ _. self.new) result (header_after_write self.old) }
        ensures unchanged { OnErr result (self.new ≡ self.old) }
        ensures written { OnOk result (OnImages (S.state image.old) (S.state image.new) (λ _ after.
            IsWrittenHeader after self.new)) }
        ensures storage { OnlyWrites result (Some 0) (length (chosen_text self.old))
            (S.state image.old) (S.state image.new) }
    {
        let layout = self.chosen_layout()?;
        let text = self.text(&layout)?;
        image.write(&text, 0)?;
        self.take_over(layout);
        Ok(())
    }

    // Returns the layout to write: with feature name tables if that fits, else without.
    #[tactic(auto, using(crate::proofs::LayoutLemmas::choices))]
    fn chosen_layout(&self) -> Result<Layout, Fault>
        ensures { IsChosen self.now result }
    {
        if self.backing_filename_len() > MAX_BACKING_FILENAME as usize {
            return Err(Fault::NameTooLong);
        }
        if let Some(layout) = self.layout(true) {
            return Ok(layout);
        }
        self.layout(false).ok_or(Fault::HeaderTooLong)
    }

    // Makes this the header that was written.
    fn take_over(&mut self, layout: Layout)
        requires { IsLayout (header_to_write layout.with_names self.old) layout }
        ensures { self.new ≡ header_with_places (header_to_write layout.with_names self.old) }
    {
        self.v2 = layout.v2;
        self.base = layout.base;
        if !layout.with_names {
            self.extensions.retain(|extension| extension.is_other());
        }
    }

    /// Makes a header writable, and returns it as a load for writing does. A program that writes to an image
    /// must know each autoclear feature of its header, and this one knows none.
    ///
    /// Returns a header without autoclear features as it is, without a call of the storage. Else clears them,
    /// writes the header as `write` does, and returns what it wrote. Refuses a backing file's name of more
    /// than 1023 bytes (fault 25), which no loaded header has, and a header that doesn't fit the first
    /// cluster (24). Only then allocates the text and calls the storage. Any fault but the storage's leaves
    /// the image unchanged. The storage's may leave any bytes in the range of the text.
    pub fn into_writable<S: Storage>(mut self, image: &mut S) -> Result<Header, Fault>
        ensures idle { self.base.autoclear_features ≡ 0 → (result ≡ Ok self) × (image.new ≡ image.old) }
        ensures writable { BecomesWritable self result (S.state image.old) (S.state image.new) }
    {
        if self.base.autoclear_features == 0 {
            return Ok(self);
        }
        self.clear_autoclear_features();
        self.write(image)?;
        Ok(self)
    }

    pub(super) fn clear_autoclear_features(&mut self)
        ensures cleared { self.new ≡ without_autoclear self.old }
        ensures valid { IsValidHeader self.new }
    {
        self.base.autoclear_features = 0;
    }
}
