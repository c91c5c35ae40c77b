//! Runs of tables of 1024 entries, in two parts of 512: each part begins with a number other than 0, and
//! the second ends with one.

use crate::rows::RUN;
use crate::runs::Call::Placed;
use crate::runs::HeaderOf::New;
use crate::runs::Kind::{L1Table, L2Table, Reftable};
use crate::runs::PlacedCall::{Load, Write, WriteEntry, WriteIfModified};
use crate::runs::{Image, Numbers, Run};
use qcow2_testing::rows;

// A call of a table, with the numbers that the image has after it.
macro_rules! run {
    ($call:expr, $kind:expr, $after:expr) => {
        Run {
            call: Placed($call, $kind),
            after: $after,
            ..ZEROS
        }
    };
}

/// The runs of this file.
pub(crate) fn runs() -> &'static [Run] {
    RUNS
}

const RUNS: &[Run] = rows! {
    Run { modified: true, image: WRITTEN, changes: &[(0, 0)], ..run!(Load, L1Table, &[]) },
    Run { modified: true, image: WRITTEN, changes: &[(1, 0)], ..run!(Load, L2Table, &[]) },
    Run { modified: true, image: WRITTEN, changes: &[(2, 0)], ..run!(Load, Reftable, &[]) },
    run!(Write, L1Table, TABLE), run!(Write, L2Table, TABLE), run!(Write, Reftable, TABLE),
    Run { modified: true, ..run!(WriteEntry, L1Table, LAST) },
    Run { modified: true, ..run!(WriteEntry, L2Table, LAST) },
    Run { modified: true, ..run!(WriteEntry, Reftable, LAST) },
    run!(WriteEntry, L1Table, LAST), run!(WriteEntry, L2Table, LAST), run!(WriteEntry, Reftable, LAST),
    // over a storage with an alignment of 8192 bytes
    Run { modified: true, align_bits: 13, ..run!(WriteEntry, L1Table, TABLE) },
    Run { modified: true, align_bits: 13, ..run!(WriteEntry, L2Table, TABLE) },
    Run { modified: true, align_bits: 13, ..run!(WriteEntry, Reftable, TABLE) },
    Run { modified: true, changes: &[(1, 0)], ..run!(WriteIfModified, L2Table, TABLE) },
};

const TABLE: Numbers = rows! { (8192, 0x2000_0000), (12288, 0x4000_0000), (16376, 0x6000_0000) };

const LAST: Numbers = rows! { (16376, 0x6000_0000) };

// Before the call the table isn't modified, and is zero in the image.
const ZEROS: Run = Run {
    header: New(13, 4),
    source: Image {
        len: 32768,
        zeros: (8192, 24576),
        numbers: TABLE,
    },
    image: Some(ZERO),
    ..RUN
};

const ZERO: Image = Image {
    len: 32768,
    zeros: (8192, 16384),
    numbers: &[],
};

const WRITTEN: Option<Image> = Some(Image {
    numbers: TABLE,
    ..ZERO
});
