//! Runs of edits and steps in an image, of lookups and of commands.

use crate::held::DISK;
use crate::rows::RUN;
use crate::runs::Call::{
    ApplyEdits, Command, EditImage, LookUp, LookUpImage, PlanEdits, StepImage,
};
use crate::runs::HeaderOf::{Disk, New, OfImage};
use crate::runs::{EMPTY, Image, Numbers, Run};
use qcow2_testing::sample_image::{
    AUTOCLEAR, BLOCK, COUNTERS_4, DATA_ENTRY, EXTENTS, INFO, JSON, L2_TABLE, TABLE_LINES,
};
use qcow2_testing::{COPIED, counted, picture, rows};

/// The runs of this file.
pub(crate) fn runs() -> &'static [Run] {
    RUNS
}

const RUNS: &[Run] = rows! {
    Run { call: EditImage, header: New(16, 4),
        image: Some(Image { len: 131_072, zeros: (0, 131_072), ..EMPTY }),
        after: &[(65536, 0x8000_0000_0005_0000), (131_064, 0x8000_0000_0006_0000)],
        reports: "Outcome { gained: [HostCluster(5), HostCluster(6)], freed: [] }", ..RUN },
    Run { call: StepImage, header: New(12, 4),
        image: Some(Image { len: 12288, zeros: (8192, 12288), ..EMPTY }), before: &[(8192, 7 << 48)],
        after: &[(8192, 8 << 48), (12280, 1)], reports: "[Done(7), Refused, Done(0)]", ..RUN },
    Run { call: PlanEdits, after: UNCLEARED, ..OF_EDITS },
    // it allocates everything before it clears the autoclear bits
    Run { call: ApplyEdits, after: APPLIED, ..OF_EDITS },
    Run { call: LookUp, reports: DATA, ..OF_A_DISK },
    Run { call: LookUpImage, reports: DATA, ..OF_A_DISK },
    Run { call: Command("info"), reports: INFO, ..OF_A_DISK },
    Run { call: Command("list"), reports: "0x600 data 0xa00 copied\n", ..OF_A_DISK },
    Run { call: Command("at 1543"), reports: "data 0xa00 copied\n", ..OF_A_DISK },
    Run { call: Command("map"), reports: EXTENTS, ..OF_A_DISK },
    Run { call: Command("map json"), reports: JSON, ..OF_A_DISK },
    Run { call: Command("tables"), before: COUNTED, after: COUNTED, reports: TABLE_LINES, ..OF_A_DISK },
    Run { call: Command("layout"), before: COUNTED, after: COUNTED, reports: LAYOUT, ..OF_A_DISK },
    Run { call: Command("layout svg"), before: COUNTED, after: COUNTED, reports: PICTURE, ..OF_A_DISK },
    Run { call: Command("refcount 5 0"), before: COUNTED, after: COUNTED, reports: "5 2\n0 1\n",
        ..OF_A_DISK },
    Run { call: Command("check"), before: COUNTED, after: COUNTED, reports: CHECKED, ..OF_A_DISK },
    Run { call: Command("check json"), before: COUNTED, after: COUNTED, reports: OBJECT, ..OF_A_DISK },
    // if refused after its one write, it leaves the image repaired
    Run { call: Command("check repair"), before: COUNTED, opened: REPAIRED, after: REPAIRED,
        reports: "consistent\n", ..OF_A_DISK },
    Run { call: Command("l2 9 2"), reports: "3 data 0xa00 copied\n", ..OF_A_DISK },
    Run { call: Command("edit 0 map:3:5 map:3:6 discard:3"), after: &[(1048, 0)],
        reports: "freed 5 1\nfreed 6 1\ngained 6\n", ..OF_A_DISK },
    Run { call: Command("count 3 inc:0 inc:0 dec:0 dec:1"), after: &[(1536, 1 << 48)],
        reports: "ok 0\nok 1\nok 2\nrefused\n", ..OF_A_DISK },
    // autoclear bits, which a load for writing clears
    Run { call: Command("edit 0 map:3:6 map:3:5"), before: &[(88, 1)], opened: &[(88, 0)],
        after: &[(88, 0)], reports: "freed 5 1\nfreed 6 1\ngained 6\ngained 5\n", ..OF_A_DISK },
    Run { call: Command("count 3 inc:0 dec:0"), before: &[(88, 1)], opened: &[(88, 0)], after: &[(88, 0)],
        reports: "ok 0\nok 1\n", ..OF_A_DISK },
};

const OF_A_DISK: Run = Run {
    header: Disk(0x8000),
    source: DISK,
    image: Some(DISK),
    ..RUN
};

const OF_EDITS: Run = Run {
    header: OfImage,
    before: UNCLEARED,
    reports: "ChangedClusters { freed: [ClustersToFreeEntry { first: HostCluster(5), \
        count: ClusterCount(1) }], kept: [], gained: [HostCluster(6)] }",
    ..OF_A_DISK
};

// A refcount table in cluster 3, and its block in cluster 4: clusters 0 to 4 and 7 have refcount 1, cluster
// 5 has 2, and cluster 6 has 0.
const COUNTED: Numbers = counted! { (COUNTERS_4, 0x0001_0002_0000_0001) };

// The output of `layout`.
const LAYOUT: &str = "0 1 header\n1 1 l1\n2 1 l2\n3 1 refcount-table\n4 1 refcount-block\n\
    5 1 data 0x600\n6 1 free\n7 1 leaked\n";

const PICTURE: &str = picture!(
    "\
<path class='s10' d='M0 0h3v1h-3z'/>
<path class='s11' d='M3 0h2v1h-2z'/>
<path class='s1' d='M5 0h1v1h-1z'/>
<path class='s0' d='M6 0h1v1h-1z'/>
<path class='s12' d='M7 0h1v1h-1z'/>
"
);

// The same with each refcount equal to its cluster's references.
const REPAIRED: Numbers = counted! {};

// The same with an autoclear bit.
const UNCLEARED: Numbers = counted! { AUTOCLEAR };

// The same without it, with guest cluster 0 mapped to the data in cluster 6, and guest cluster 3 unmapped.
const APPLIED: Numbers = counted! {
    (88, 0),
    (L2_TABLE, COPIED + 0xc00),
    (DATA_ENTRY, 0),
    (COUNTERS_4, 0x0001_0000_0001_0000),
};

// The output of `check`: the data has one reference, from an entry with the copied flag.
const CHECKED: &str = "leaked 5 1 2 1\nleaked 7 1 1 0\nfalse 0x600 5 2\n\
    leaked 2 missing 0 shared 0 false 1 late 0\n";

const OBJECT: &str = "{\n    \"image-end-offset\": 4096,\n    \"total-clusters\": 64,\n    \
    \"corruptions\": 1,\n    \"check-errors\": 0,\n    \"leaks\": 2,\n    \"false-flags\": 1,\n    \
    \"allocated-clusters\": 1,\n    \
    \"filename\": \"IMAGE\",\n    \"format\": \"qcow2\"\n}\n";

const DATA: &str = "DataFile { host_cluster: HostCluster(5), copied: true }";
