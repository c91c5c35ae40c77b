//! The clusters of the encryption header, and whether the image may keep keys elsewhere.

use super::fixtures::{Changes, least_with};
use qcow2_base::{ClusterCount, HostCluster, UncountedPart};
use qcow2_metadata::{AcceptedFeatures, Header};
use qcow2_testing::{each, rows, same};
use std::alloc::Global;
use std::test::Fail;

// Changes of the minimal header, the first cluster and the number of clusters of the encryption header, and
// the part that isn't counted.
#[derive(Clone, Copy)]
struct Row {
    changes: Changes,
    clusters: Option<(u64, u64)>,
    part: Option<UncountedPart>,
}

const KEYS: Option<UncountedPart> = Some(UncountedPart::Encryption);

const ROWS: &[Row] = rows! {
    Row { changes: "", clusters: None, part: None },
    Row { changes: "crypt_method=1", clusters: None, part: None },
    Row { changes: "crypt_method=2", clusters: None, part: KEYS },
    // two clusters in part from cluster 3 on
    Row { changes: "crypt_method=2, 104=0537be77 00000010 0000000000000600 0000000000000201",
        clusters: Some((3, 2)), part: None },
    Row { changes: "104=0537be77 00000010 0000000000000600 0000000000000201",
        clusters: Some((3, 2)), part: KEYS },
    Row { changes: "crypt_method=3, 104=0537be77 00000010 0000000000000600 0000000000000201",
        clusters: Some((3, 2)), part: KEYS },
    Row { changes: "version=2, crypt_method=2, 72=0537be77 00000010 0000000000000600 0000000000000201",
        clusters: None, part: KEYS },
    Row { changes: "crypt_method=2, 104=0537be77 00000010 0000000000000600 0000000000000000",
        clusters: Some((3, 0)), part: None },
    // 2 MiB of LUKS, in clusters of 64 KiB and of 2 MiB
    Row { changes: "cluster_bits=16, crypt_method=2, 104=0537be77 00000010 0000000000040000 00000000001f9000",
        clusters: Some((4, 32)), part: None },
    Row { changes: "cluster_bits=21, crypt_method=2, 104=0537be77 00000010 0000000000400000 00000000001f9000",
        clusters: Some((2, 1)), part: None },
    // 32 MiB, and a byte more
    Row { changes: "crypt_method=2, 104=0537be77 00000010 0000000000000600 0000000002000000",
        clusters: Some((3, 65536)), part: None },
    Row { changes: "crypt_method=2, 104=0537be77 00000010 0000000000000600 0000000002000001",
        clusters: None, part: KEYS },
    // up to 2^56, and past it
    Row { changes: "crypt_method=2, 104=0537be77 00000010 00fffffffffffe00 0000000000000200",
        clusters: Some((140737488355327, 1)), part: None },
    Row { changes: "crypt_method=2, 104=0537be77 00000010 00fffffffffffe00 0000000000000201",
        clusters: None, part: KEYS },
    Row { changes: "crypt_method=2, 104=0537be77 00000010 fffffffffffffe00 0000000000000200",
        clusters: None, part: KEYS },
    Row { changes: "crypt_method=2, 104=0537be77 00000010 0000000000000601 0000000000000201",
        clusters: None, part: KEYS },
    Row { changes: "cluster_bits=10, crypt_method=2, \
        104=0537be77 00000010 0000000000000600 0000000000000201",
        clusters: None, part: KEYS },
    // another length of the data
    Row { changes: "crypt_method=2, 104=0537be77 0000000f 0000000000000600 0000000000000201",
        clusters: None, part: KEYS },
    Row { changes: "crypt_method=2, 104=0537be77 00000018 0000000000000600 0000000000000201",
        clusters: None, part: KEYS },
    // another extension before it, and a second one
    Row { changes: "crypt_method=2, 104=00000007 00000000 \
        0537be77 00000010 0000000000000600 0000000000000201",
        clusters: Some((3, 2)), part: None },
    Row { changes: "crypt_method=2, 104=0537be77 00000010 0000000000000600 0000000000000201 \
        0537be77 00000010 0000000000000600 0000000000000201",
        clusters: None, part: KEYS },
    // bitmaps count if their autoclear bit is set
    Row { changes: "104=23852875 00000000", clusters: None, part: None },
    Row { changes: "autoclear_features=2, 104=23852875 00000000", clusters: None, part: None },
    Row { changes: "autoclear_features=1", clusters: None, part: None },
    Row { changes: "autoclear_features=1, 104=23852875 00000000", clusters: None,
        part: Some(UncountedPart::Bitmaps) },
    Row { changes: "autoclear_features=3, crypt_method=2, 104=23852875 00000000", clusters: None,
        part: Some(UncountedPart::Bitmaps) },
    Row { changes: "autoclear_features=1, nb_snapshots=1, 104=23852875 00000000", clusters: None,
        part: Some(UncountedPart::Snapshots) },
};

fn check_row(alloc: Global, row: Row) -> Result<(), Fail> {
    let mut image = least_with(alloc, row.changes, "")?;
    let header = Header::load_accepting(alloc, &mut image, false, AcceptedFeatures::none())?;
    let expected = match row.clusters {
        Some((first, count)) => Some((HostCluster(first), ClusterCount(count))),
        None => None,
    };
    same(header.encryption_clusters(), expected, row.changes)?;
    same(header.uncounted_part(), row.part, row.changes)
}

#[test]
fn an_encryption_header_has_its_clusters_or_the_image_is_uncounted(
    rt: HostRuntime,
) -> Result<(), Fail> {
    each(rt.alloc(), ROWS, check_row)
}
