//! The runs. Each table is named in one function only, since every proof that names it pays for all its
//! rows.

pub(crate) mod blocks;
pub(crate) mod headers;
pub(crate) mod lists;
pub(crate) mod new_values;
pub(crate) mod sessions;
pub(crate) mod tables;

use crate::runs::{Call, EMPTY, HeaderOf, Run};

// A run without an image, whose tables and block have no bytes.
const RUN: Run = Run {
    call: Call::NewHeader,
    header: HeaderOf::New(9, 4),
    source: EMPTY,
    modified: false,
    image: None,
    align_bits: 0,
    before: &[],
    opened: &[],
    after: &[],
    changes: &[],
    reports: "",
};
