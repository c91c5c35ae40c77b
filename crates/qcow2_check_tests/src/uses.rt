//! The references of an image to host clusters, and their owners.

ghost use Rattle.std.specs.Prelude.{◌≡◌, ◌++◌};
ghost use Rattle.std.proofs.Common.{arith};
ghost use Rattle.std.proofs.lemmas.List.{append-nil, append_assoc};

use crate::sample_image::sample_image;
use qcow2_base::{Fault, HostCluster, MemStorage};
use qcow2_check::{ImageTables, Use, UseKind, UseSink, load_l1_table, load_reftable, walk_uses};
use qcow2_metadata::Header;
use qcow2_testing::sample_image::{
    KEYS, KEYS_LENGTH, KEYS_OFFSET, L2_TABLE, LUKS, NEXT_ENTRY, NEXT_TABLE,
};
use qcow2_testing::{Numbers, each, rows, same};
use std::alloc::Global;
use std::test::Fail;

// A sink that collects every reference.
#[derive(Drop)]
struct Taken {
    uses: Vec<Use>,
}

impl UseSink for Taken {
    ghost takes = { λ uses old new. new.uses.items ≡ old.uses.items ++ uses };

    fn take(&mut self, used: Use) -> Result<(), Fault> {
        self.uses.push(used)?;
        Ok(())
    }

    ghost takes_none = { λ s. Prim.grind (arith, append-nil) };

    ghost takes_both = { λ first second a b c one other. Prim.grind (arith, one, other, append_assoc) };
}

// A reference: its kind, its first cluster, its number of clusters, and its owner.
type Reference = (UseKind, u64, u64, u64);

#[derive(Clone, Copy)]
struct Walked<'a> {
    name: &'a str,
    changes: Numbers<'a>,
    uses: &'a [Reference],
}

// An image without an encryption header has one without clusters.
const WALKED: &[Walked<'static>] = rows! { Walked:
    { name: "the sample image", changes: &[], uses: &[
        (UseKind::Header, 0, 1, 0), (UseKind::L1Table, 1, 1, 0), (UseKind::RefcountTable, 3, 1, 0),
        (UseKind::EncryptionHeader, 0, 0, 0), (UseKind::RefcountBlock, 4, 1, 0),
        (UseKind::L2Table, 2, 1, 0), (UseKind::Data, 5, 1, 3)] },
    { name: "an encryption header", changes: &[LUKS, KEYS, KEYS_OFFSET, KEYS_LENGTH], uses: &[
        (UseKind::Header, 0, 1, 0), (UseKind::L1Table, 1, 1, 0), (UseKind::RefcountTable, 3, 1, 0),
        (UseKind::EncryptionHeader, 6, 2, 0), (UseKind::RefcountBlock, 4, 1, 0), (UseKind::L2Table, 2, 1, 0),
        (UseKind::Data, 5, 1, 3)] },
    // both L1 entries name the table, which has 64 entries; the compressed data crosses a cluster boundary
    { name: "an L2 table with compressed data, twice",
        changes: &[(NEXT_TABLE, L2_TABLE), (NEXT_ENTRY, 1 << 62 | 1 << 61 | 2600)], uses: &[
        (UseKind::Header, 0, 1, 0), (UseKind::L1Table, 1, 1, 0), (UseKind::RefcountTable, 3, 1, 0),
        (UseKind::EncryptionHeader, 0, 0, 0), (UseKind::RefcountBlock, 4, 1, 0),
        (UseKind::L2Table, 2, 1, 0), (UseKind::L2Table, 2, 1, 1),
        (UseKind::Data, 5, 1, 3), (UseKind::Compressed, 5, 2, 4),
        (UseKind::Data, 5, 1, 67), (UseKind::Compressed, 5, 2, 68)] },
};

// Returns all references of an image.
fn uses_of(alloc: Global, image: &mut MemStorage) -> Result<Vec<Use>, Fault> {
    let header = Header::load(alloc, image, false)?;
    let l1_table = load_l1_table(alloc, image, &header)?;
    let reftable = load_reftable(alloc, image, &header)?;
    let tables = ImageTables {
        header: &header,
        l1_table: &l1_table,
        reftable: &reftable,
    };
    let mut taken = Taken {
        uses: Vec::new(alloc),
    };
    walk_uses(&tables, image, &mut taken)?;
    Ok(taken.uses)
}

fn check_walked(alloc: Global, row: Walked<'_>) -> Result<(), Fail> {
    let mut expected = Vec::new(alloc);
    for (kind, first, count, owner) in row.uses {
        expected.push(Use::new(*kind, HostCluster(*first), *count, *owner))?;
    }
    let found = uses_of(alloc, &mut sample_image(alloc, row.changes)?)?;
    same(found.as_slice(), expected.as_slice(), row.name)
}

#[test]
fn a_walk_comes_to_each_reference_with_who_refers(rt: HostRuntime) -> Result<(), Fail> {
    each(rt.alloc(), WALKED, check_walked)
}
