//! Runs that make, copy and grow a table, a block or a name, and write nothing.

use crate::rows::RUN;
use crate::runs::Call::{
    CopyExtension, CopyL2Table, GrowL1Table, GrowReftable, NewBlock, NewHeader, NewL2Table,
};
use crate::runs::{Image, Run};
use qcow2_testing::rows;

/// The runs of this file.
pub(crate) fn runs() -> &'static [Run] {
    RUNS
}

const RUNS: &[Run] = rows! {
    Run { call: NewHeader, reports: "Some(\"base.img\")Some(\"qcow2\")Some(\"data.raw\")", ..OF_ONE_ENTRY },
    Run { call: CopyExtension,
        reports: "BackingFileFormat(\"qcow2\")BackingFileFormat(\"qcow2\")", ..OF_ONE_ENTRY },
    Run { call: NewL2Table, reports: "(64, 0, None, true)", ..OF_ONE_ENTRY },
    Run { call: NewBlock, reports: "(256, None, true)", ..OF_ONE_ENTRY },
    Run { call: CopyL2Table, reports: "(64, 2097152, None, false)", ..OF_ONE_ENTRY },
    Run { call: GrowL1Table, reports: "(192, 2097152, None, true)", ..OF_ONE_ENTRY },
    Run { call: GrowReftable, reports: "(128, 2097152, None, true)", ..OF_ONE_ENTRY },
};

// Tables of 64 entries, all 0 except the one at index 3.
const OF_ONE_ENTRY: Run = Run {
    source: Image {
        len: 1536,
        zeros: (0, 1536),
        numbers: &[(536, 0x20_0000)],
    },
    ..RUN
};
