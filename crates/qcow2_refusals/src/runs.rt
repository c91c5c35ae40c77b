//! Runs: a call of the library, the values that it begins with, and what must hold after it.

use qcow2_base::{Fault, MemStorage};
use qcow2_testing::put_all;
use std::alloc::Global;

/// A call and its variant.
#[derive(Clone, Copy, Debug, PartialEq, Eq)]
pub(crate) enum Call {
    NewHeader,
    LoadHeader { for_writing: bool },
    LoadSnapshots,
    WriteHeader,
    WriteSize,
    WriteL1TablePointer,
    WriteReftablePointer,
    CopyExtension,
    Placed(PlacedCall, Kind),
    NewL2Table,
    NewBlock,
    CopyL2Table,
    GrowL1Table,
    GrowReftable,
    EditTable,
    StepBlock,
    EditSettled,
    /// The same if the refcounts can't follow.
    EditUnsettled,
    EditImage,
    StepImage,
    PlanEdits,
    ApplyEdits,
    LookUp,
    LookUpImage,
    /// The command of a line without the image's name.
    Command(&'static str),
}

/// A call of a table or block that takes an image.
#[derive(Clone, Copy, Debug, PartialEq, Eq)]
pub(crate) enum PlacedCall {
    Load,
    Write,
    WriteEntry,
    WriteIfModified,
}

/// The tables, and the block.
#[derive(Clone, Copy, Debug, PartialEq, Eq)]
pub(crate) enum Kind {
    L1Table,
    L2Table,
    Reftable,
    Block,
}

/// The header that a run begins with.
#[derive(Clone, Copy)]
pub(crate) enum HeaderOf {
    /// A new one with these cluster bits and this refcount order.
    New(u32, u32),
    /// A new one for the backing file `backing.1`.
    Named,
    /// That of the disk, with this size in bytes.
    Disk(u64),
    /// That of the run's image.
    OfImage,
}

/// Numbers of eight bytes, and their places in an image.
pub(crate) type Numbers = &'static [(u64, u64)];

/// An image of `len` bytes of 0xa5, except for zeros between two places, and for some numbers.
#[derive(Clone, Copy)]
pub(crate) struct Image {
    pub(crate) len: usize,
    pub(crate) zeros: (usize, usize),
    pub(crate) numbers: Numbers,
}

/// A call of the library, with what it begins with, and what must hold after it.
#[derive(Clone, Copy)]
pub(crate) struct Run {
    pub(crate) call: Call,
    pub(crate) header: HeaderOf,
    /// The image that tables and block are loaded from.
    pub(crate) source: Image,
    /// Whether tables and block are modified before the call.
    pub(crate) modified: bool,
    /// The image of the call, if it takes one, without the numbers `before` or `after` the call.
    pub(crate) image: Option<Image>,
    /// The storage is aligned to 2^`align_bits` bytes. A file isn't.
    pub(crate) align_bits: u32,
    pub(crate) before: Numbers,
    /// The numbers of the image after a command has rewritten the header that it loaded, or has repaired
    /// the image.
    pub(crate) opened: Numbers,
    pub(crate) after: Numbers,
    /// The numbers that change of what `Held::show` shows, with their places.
    pub(crate) changes: &'static [(usize, u64)],
    /// The text that the call reports.
    pub(crate) reports: &'static str,
}

impl Run {
    /// The image before the call.
    pub(crate) fn before(&self, alloc: Global) -> Result<MemStorage, Fault> {
        let image = self.image_with(alloc, self.before, &[])?;
        Ok(image.with_align(1 << self.align_bits.min(30)))
    }

    /// The image after a command has loaded its header, and maybe rewritten it, or has repaired the image.
    pub(crate) fn opened(&self, alloc: Global) -> Result<MemStorage, Fault> {
        self.image_with(alloc, self.before, self.opened)
    }

    /// The image after the call.
    pub(crate) fn after(&self, alloc: Global) -> Result<MemStorage, Fault> {
        self.image_with(alloc, self.after, &[])
    }

    fn image_with(
        &self,
        alloc: Global,
        first: Numbers,
        then: Numbers,
    ) -> Result<MemStorage, Fault> {
        let mut image = image_of(alloc, self.image.unwrap_or(EMPTY))?;
        put_all(&mut image, first)?;
        put_all(&mut image, then)?;
        Ok(image)
    }

    /// Whether the call takes an image that a file can hold.
    pub(crate) fn is_in_a_file(&self) -> bool {
        self.image.is_some() && self.align_bits == 0
    }
}

/// An image without a byte.
pub(crate) const EMPTY: Image = Image {
    len: 0,
    zeros: (0, 0),
    numbers: &[],
};

/// Makes the bytes of an image.
pub(crate) fn image_of(alloc: Global, image: Image) -> Result<MemStorage, Fault> {
    let mut bytes = vec![in alloc; 0xa5; image.len]?;
    let (start, end) = image.zeros;
    for place in start..end {
        if let Some(byte) = bytes.get_mut(place) {
            *byte = 0;
        }
    }
    let mut bytes = MemStorage::new(bytes);
    put_all(&mut bytes, image.numbers)?;
    Ok(bytes)
}
