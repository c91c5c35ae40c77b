//! Runs of headers: loads, writes, and the pointer writes.

use crate::held::DISK;
use crate::rows::RUN;
use crate::runs::Call::{
    LoadHeader, LoadSnapshots, WriteHeader, WriteL1TablePointer, WriteReftablePointer, WriteSize,
};
use crate::runs::HeaderOf::{Disk, Named, New, OfImage};
use crate::runs::{EMPTY, Image, Numbers, Run};
use qcow2_testing::{VERSION_3, rows};

/// The runs of this file.
pub(crate) fn runs() -> &'static [Run] {
    RUNS
}

const RUNS: &[Run] = rows! {
    Run { call: LoadHeader { for_writing: false }, header: New(9, 4), image: Some(DISK),
        changes: &[(4, 0x8000), (5, 0x200), (6, 1), (9, 0)], ..RUN },
    // a load that clears autoclear bits, and one that also lengthens the image
    Run { call: LoadHeader { for_writing: true }, header: Disk(4096),
        image: Some(Image { len: 1024, zeros: (0, 512), numbers: SMALL }),
        before: &[(88, 1)], after: &[(88, 0)], changes: &[(4, 0), (5, 0), (6, 0)], ..RUN },
    Run { call: LoadHeader { for_writing: true }, header: Disk(4096),
        image: Some(Image { len: 104, zeros: (0, 104), numbers: SMALL }),
        before: &[(88, 1)], after: &[(88, 0), (104, 0)], changes: &[(4, 0), (5, 0), (6, 0)], ..RUN },
    Run { call: LoadSnapshots, header: OfImage,
        image: Some(Image { len: 1024, zeros: (0, 1024), numbers: SMALL }),
        before: THREE, after: THREE, reports: "(3, 120)", ..RUN },
    // a write within an image, and one past the end
    Run { call: WriteHeader, header: Named,
        image: Some(Image { len: 1024, zeros: (0, 121), ..EMPTY }), after: NAMED, changes: &[(9, 0)], ..RUN },
    Run { call: WriteHeader, header: Named, image: Some(EMPTY), after: NAMED, changes: &[(9, 0)], ..RUN },
    Run { call: WriteSize, header: Disk(4096), image: Some(DISK), after: &[(24, 4096)], ..RUN },
    Run { call: WriteL1TablePointer, header: Disk(0x8000), image: Some(Image { len: 1024, ..EMPTY }),
        after: &[(36, 0x1_0000_0000), (40, 0x200)], ..RUN },
    Run { call: WriteReftablePointer, header: Disk(0x8000), image: Some(Image { len: 1024, ..EMPTY }),
        after: &[(48, 0), (52, 0)], ..RUN },
};

const SMALL: Numbers = rows! { (0, VERSION_3), (16, 9), (96, 0x4_0000_0068) };

// Three snapshots, by a table at byte 512.
const THREE: Numbers = rows! { (56, 3), (64, 0x200) };

// A header of 112 bytes, and the name backing.1 after it.
const NAMED: Numbers = rows! {
    (0, VERSION_3), (8, 0x70), (16, 0x9_0000_0009), (96, 0x4_0000_0068),
    (112, 0x6261_636b_696e_672e), (113, 0x6163_6b69_6e67_2e31),
};
