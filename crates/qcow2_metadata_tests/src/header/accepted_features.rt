//! Loads of headers whose incompatible features are accepted.

use super::fixtures::{Changes, least_with};
use qcow2_base::Fault;
use qcow2_metadata::{AcceptedFeatures, Header, IncompatibleFeatures};
use qcow2_testing::{each, rows, same};
use std::alloc::Global;
use std::test::Fail;

// What a header says of features: dirty, corrupt, of another compression, and the number of that.
type Said = (bool, bool, bool, u8);

// Changes of the minimal header, the features that are accepted (dirty, corrupt, compression), and what the
// header says, or the fault.
#[derive(Clone, Copy)]
struct Row {
    changes: Changes,
    accepted: (bool, bool, bool),
    found: Result<Said, Fault>,
}

const NONE: (bool, bool, bool) = (false, false, false);

const EACH: (bool, bool, bool) = (true, true, true);

const PLAIN: Said = (false, false, false, 0);

const ROWS: &[Row] = rows! {
    Row { changes: "", accepted: NONE, found: Ok(PLAIN) },
    Row { changes: "", accepted: EACH, found: Ok(PLAIN) },
    Row { changes: "version=2", accepted: EACH, found: Ok(PLAIN) },
    Row { changes: "incompatible_features=1", accepted: EACH, found: Ok((true, false, false, 0)) },
    Row { changes: "incompatible_features=2", accepted: EACH, found: Ok((false, true, false, 0)) },
    Row { changes: "incompatible_features=7", accepted: EACH, found: Ok((true, true, false, 0)) },
    // what isn't accepted is refused, by its bit alone
    Row { changes: "incompatible_features=3", accepted: (true, false, false),
        found: Err(Fault::Incompatible(2)) },
    Row { changes: "incompatible_features=3", accepted: (false, true, false),
        found: Err(Fault::Incompatible(1)) },
    Row { changes: "incompatible_features=15", accepted: NONE, found: Err(Fault::Incompatible(11)) },
    Row { changes: "incompatible_features=0x1b", accepted: EACH, found: Err(Fault::Incompatible(16)) },
    Row {
        changes: "incompatible_features=0x8000000000000000", accepted: EACH,
        found: Err(Fault::Incompatible(0x8000_0000_0000_0000)),
    },
    // the compression type: 1 exactly with the bit
    Row {
        changes: "incompatible_features=8, header_length=112, 104=01", accepted: EACH,
        found: Ok((false, false, true, 1)),
    },
    Row { changes: "incompatible_features=8", accepted: EACH, found: Err(Fault::Incompatible(8)) },
    Row {
        changes: "incompatible_features=8, header_length=112, 104=00", accepted: EACH,
        found: Err(Fault::Incompatible(8)),
    },
    Row {
        changes: "incompatible_features=8, header_length=112, 104=02", accepted: EACH,
        found: Err(Fault::Incompatible(8)),
    },
    Row { changes: "header_length=112, 104=01", accepted: EACH, found: Err(Fault::Incompatible(8)) },
    Row { changes: "header_length=112, 104=01", accepted: NONE, found: Ok((false, false, false, 1)) },
    Row { changes: "header_length=112, 104=00ff", accepted: EACH, found: Ok(PLAIN) },
    // a byte past the header's end is none of its fields
    Row { changes: "104=format 03:raw", accepted: EACH, found: Ok(PLAIN) },
};

fn check_row(alloc: Global, row: Row) -> Result<(), Fail> {
    let (dirty, corrupt, compression_type) = row.accepted;
    let accepted = AcceptedFeatures {
        dirty,
        corrupt,
        compression_type,
    };
    let mut image = least_with(alloc, row.changes, "")?;
    let loaded = Header::load_accepting(alloc, &mut image, false, accepted);
    let found = match &loaded {
        Ok(header) => Ok(said(header)),
        Err(fault) => Err(*fault),
    };
    same(found, row.found, row.changes)
}

fn said(header: &Header) -> Said {
    (
        header.has_feature(IncompatibleFeatures::Dirty),
        header.has_feature(IncompatibleFeatures::Corrupt),
        header.has_feature(IncompatibleFeatures::CompressionType),
        header.compression_type(),
    )
}

#[test]
fn accepted_features_load_and_others_are_refused(rt: HostRuntime) -> Result<(), Fail> {
    each(rt.alloc(), ROWS, check_row)
}
