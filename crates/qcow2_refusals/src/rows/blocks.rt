//! Runs of refcount blocks of 8192 bytes, of each refcount order.

use crate::rows::RUN;
use crate::runs::Call::Placed;
use crate::runs::HeaderOf::New;
use crate::runs::Kind::Block;
use crate::runs::PlacedCall::{Load, Write, WriteIfModified};
use crate::runs::{Image, Numbers, Run};
use qcow2_testing::rows;

// A run with a block of this refcount order.
macro_rules! of_order {
    ($run:expr, $order:expr) => {
        Run {
            header: New(13, $order),
            ..$run
        }
    };
}

/// The runs of this file.
pub(crate) fn runs() -> &'static [Run] {
    RUNS
}

const RUNS: &[Run] = rows! {
    of_order!(LOAD, 0), of_order!(WRITE, 0), of_order!(WRITE_IF_MODIFIED, 0),
    of_order!(LOAD, 1), of_order!(WRITE, 1), of_order!(WRITE_IF_MODIFIED, 1),
    of_order!(LOAD, 2), of_order!(WRITE, 2), of_order!(WRITE_IF_MODIFIED, 2),
    of_order!(LOAD, 3), of_order!(WRITE, 3), of_order!(WRITE_IF_MODIFIED, 3),
    of_order!(LOAD, 4), of_order!(WRITE, 4), of_order!(WRITE_IF_MODIFIED, 4),
    of_order!(LOAD, 5), of_order!(WRITE, 5), of_order!(WRITE_IF_MODIFIED, 5),
    of_order!(LOAD, 6), of_order!(WRITE, 6), of_order!(WRITE_IF_MODIFIED, 6),
};

const COUNTERS: Numbers =
    rows! { (16384, 0x1be4_8001_0000_0000), (20480, 0xff00_0000_0000_007f), (24568, 0x81) };

const LOAD: Run = Run {
    call: Placed(Load, Block),
    modified: true,
    before: COUNTERS,
    changes: &[(3, 0)],
    ..WRITE
};

// The block isn't modified, and is zero in the image.
const WRITE: Run = Run {
    call: Placed(Write, Block),
    source: Image {
        len: 32768,
        zeros: (8192, 24576),
        numbers: COUNTERS,
    },
    image: Some(Image {
        len: 32768,
        zeros: (16384, 24576),
        numbers: &[],
    }),
    after: COUNTERS,
    ..RUN
};

const WRITE_IF_MODIFIED: Run = Run {
    call: Placed(WriteIfModified, Block),
    modified: true,
    changes: &[(3, 0)],
    ..WRITE
};
