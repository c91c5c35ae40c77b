//! Many edits over many L2 tables. The call looks at each edit for its own table alone; for all tables it
//! would be 6553600000 looks.

use crate::tables::edit;
use qcow2_apply::GuestEdit;
use qcow2_base::{Fault, GuestOffset, MemStorage};
use qcow2_testing::{COPIED, VERSION_3, image_with, put, same, same_image};
use std::alloc::{AllocError, Global};
use std::test::Fail;

// Clusters of 512 bytes: an L1 table of 65536 entries from cluster 1 on, and its L2 tables of 64 entries from
// cluster 1025 on. No other cluster is read.
const TABLES: u64 = 65536;

const FIRST_TABLE: u64 = 1025 * 512;

const EDITS: u64 = 100000;

// Returns the image, in which the first two entries of each table are data.
fn many_tables(alloc: Global) -> Result<MemStorage, Fault> {
    let header = [
        (0, VERSION_3),
        (16, 9),
        (24, TABLES * 64 * 512),
        (32, TABLES),
        (40, 512),
        (48, FIRST_TABLE + TABLES * 512),
        (56, 1 << 32),
        (96, 0x0000_0004_0000_0068),
    ];
    let mut image = image_with(alloc, (1025 + 65536 + 1) * 512, &header)?;
    for table in 0..TABLES {
        let place = FIRST_TABLE + table * 512;
        put(&mut image, 512 + table * 8, COPIED | place)?;
        put(&mut image, place, COPIED | 1 << 30)?;
        put(&mut image, place + 8, COPIED | 1 << 31)?;
    }
    Ok(image)
}

// Returns the table and the entry that an edit discards. As the factor is odd, the edits visit every table,
// in a scattered order, before any table a second time.
fn discarded(edit: u64) -> (u64, u64) {
    (edit % TABLES * 40503 % TABLES, edit / TABLES)
}

// Returns the edits, each a discard of one cluster.
fn discards(alloc: Global) -> Result<Vec<GuestEdit>, AllocError> {
    let mut edits = Vec::new(alloc);
    for number in 0..EDITS {
        let (table, entry) = discarded(number);
        edits.push(GuestEdit::Discard {
            offset: GuestOffset((table % TABLES * 64 + entry % 64) * 512),
            length: 512,
        })?;
    }
    Ok(edits)
}

// Returns the image without these entries.
fn without_discarded(alloc: Global) -> Result<MemStorage, Fault> {
    let mut image = many_tables(alloc)?;
    for number in 0..EDITS {
        let (table, entry) = discarded(number);
        put(
            &mut image,
            FIRST_TABLE + table % TABLES * 512 + entry % 64 * 8,
            0,
        )?;
    }
    Ok(image)
}

#[test]
fn many_edits_of_many_tables_are_made(rt: HostRuntime) -> Result<(), Fail> {
    let alloc = rt.alloc();
    let mut image = many_tables(alloc)?;
    let edits = discards(alloc)?;
    same(edit(alloc, &mut image, edits.as_slice()), Ok(()), EDITS)?;
    same_image(&image, without_discarded(alloc), EDITS)
}
