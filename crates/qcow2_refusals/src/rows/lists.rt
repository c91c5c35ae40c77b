//! Runs of lists of edits and steps in memory, with tables and blocks modified before or not.

use crate::rows::RUN;
use crate::runs::Call::{EditSettled, EditTable, EditUnsettled, StepBlock};
use crate::runs::{Image, Run};
use qcow2_testing::rows;

/// The runs of this file.
pub(crate) fn runs() -> &'static [Run] {
    RUNS
}

const RUNS: &[Run] = rows! {
    EDITED, STEPPED, SETTLED, UNSETTLED,
    Run { modified: true, ..EDITED }, Run { modified: true, ..STEPPED },
    Run { modified: true, ..SETTLED }, Run { modified: true, ..UNSETTLED },
};

const EDITED: Run = Run {
    call: EditTable,
    source: COUNTED,
    changes: &[(1, 1), (11, 0x8000_0000_0000_1000), (12, 0xa01), (13, 0)],
    reports: OUTCOME,
    ..RUN
};

const STEPPED: Run = Run {
    call: StepBlock,
    changes: &[(3, 1), (81, 3), (82, 0)],
    reports: "[Done(2), Refused, Done(1)]",
    ..EDITED
};

const SETTLED: Run = Run {
    call: EditSettled,
    changes: rows! {
        (1, 1), (11, 0x8000_0000_0000_1000), (12, 0xa01), (13, 0), (3, 1), (81, 1), (82, 0), (84, 1),
    },
    ..EDITED
};

const UNSETTLED: Run = Run {
    call: EditUnsettled,
    source: UNCOUNTED,
    changes: &[],
    reports: "",
    ..EDITED
};

const OUTCOME: &str =
    "Outcome { gained: [HostCluster(8)], freed: [ClustersToFreeEntry { first: HostCluster(5), \
    count: ClusterCount(1) }, ClustersToFreeEntry { first: HostCluster(6), count: ClusterCount(1) }] }";

// A table with data in clusters 5, 5 and 6, and a block with refcount 2 for cluster 5 and 1 for cluster 6.
const COUNTED: Image = Image {
    len: 1536,
    zeros: (0, 1536),
    numbers: rows! {
        (512, 0x8000_0000_0000_0a00), (520, 0xa00), (528, 0x8000_0000_0000_0c00), (1032, 0x2_0001_0000),
    },
};

// The same, with refcount 0 for cluster 6.
const UNCOUNTED: Image = Image {
    numbers: rows! {
        (512, 0x8000_0000_0000_0a00), (520, 0xa00), (528, 0x8000_0000_0000_0c00), (1032, 0x2_0000_0000),
    },
    ..COUNTED
};
