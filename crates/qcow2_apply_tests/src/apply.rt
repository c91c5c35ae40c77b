//! Images after edits of their disks.

use crate::sized_image::{
    Content, Guest, LARGE, LARGEST, NARROW, Shape, WIDE, guest_cluster, host_cluster, sized_image,
};
use crate::small_image::{apply, header_of, is_image_consistent};
use qcow2_apply::GuestEdit;
use qcow2_base::{Fault, GuestOffset, HostCluster, MemStorage};
use qcow2_testing::{each, put, rows, same, same_image};
use std::alloc::Global;
use std::test::Fail;

// An edit, given by the index of its first guest cluster among the six of an image.
#[derive(Clone, Copy)]
enum Change {
    Map { guest: u64, host: u64 },
    Zero { guest: u64, count: u64 },
    Keep { guest: u64, count: u64 },
    Discard { guest: u64, count: u64 },
    DiscardAll,
}

// The content of an image before and after some edits, and whether it is consistent afterwards.
#[derive(Clone, Copy)]
struct Applied<'a> {
    name: &'a str,
    before: Content<'a>,
    edits: &'a [Change],
    after: Content<'a>,
    consistent: bool,
}

// Makes content, in two lines.
macro_rules! content {
    ([$($guest:ident$(($host:literal))?),*], $counters:expr) => {
        Content { guests: &[$(Guest::$guest$(($host))?),*], counters: $counters }
    };
}

// Content without compressed data, and with it.
const PLAIN: Content<'static> = content!(
    [Nothing, Data(0), Data(3), Data(1), Data(4), Zeros],
    [1, 1, 0, 1, 1, 0]
);

const COMPRESSED: Content<'static> = content!(
    [Over(0), First(0), Later(0), First(0), Data(4), Later(3)],
    [4, 1, 0, 1, 1, 0]
);

// Content in which two guest clusters share a host cluster.
const SHARED: Content<'static> = content!(
    [Shared(0), Nothing, Nothing, Shared(0), Nothing, Nothing],
    [2, 0, 0, 0, 0, 0]
);

const EMPTY: Content<'static> = content!(
    [Nothing, Nothing, Nothing, Nothing, Nothing, Nothing],
    [0, 0, 0, 0, 0, 0]
);

const APPLIED: &[Applied<'static>] = rows! { Applied:
    { name: "nothing", before: PLAIN, edits: &[], after: PLAIN, consistent: true },
    { name: "all of both tables' border", before: PLAIN, edits: &[Change::Discard { guest: 1, count: 4 }],
        after: content!([Nothing, Nothing, Nothing, Nothing, Nothing, Zeros], [0, 0, 0, 0, 0, 0]),
        consistent: true },
    { name: "a cluster on each side", before: PLAIN, edits: &[Change::Discard { guest: 2, count: 2 }],
        after: content!([Nothing, Data(0), Nothing, Nothing, Data(4), Zeros], [1, 0, 0, 0, 1, 0]),
        consistent: true },
    { name: "the whole disk", before: PLAIN, edits: &[Change::DiscardAll], after: EMPTY, consistent: true },
    { name: "zeros", before: PLAIN, edits: &[Change::Zero { guest: 2, count: 2 }],
        after: content!([Nothing, Data(0), Zeros, Zeros, Data(4), Zeros], [1, 0, 0, 0, 1, 0]),
        consistent: true },
    { name: "zeros that keep their clusters", before: PLAIN, edits: &[Change::Keep { guest: 2, count: 2 }],
        after: content!([Nothing, Data(0), Kept(3), Kept(1), Data(4), Zeros], [1, 1, 0, 1, 1, 0]),
        consistent: true },
    { name: "zeros where nothing is", before: PLAIN,
        edits: &[Change::Keep { guest: 0, count: 1 }, Change::Keep { guest: 5, count: 1 }],
        after: content!([Zeros, Data(0), Data(3), Data(1), Data(4), Zeros], [1, 1, 0, 1, 1, 0]),
        consistent: true },
    { name: "maps where nothing is", before: PLAIN,
        edits: &[Change::Map { guest: 0, host: 2 }, Change::Map { guest: 5, host: 5 }],
        after: content!([Data(2), Data(0), Data(3), Data(1), Data(4), Data(5)], [1, 1, 1, 1, 1, 1]),
        consistent: true },
    { name: "maps in the place of data", before: PLAIN,
        edits: &[Change::Map { guest: 3, host: 5 }, Change::Map { guest: 2, host: 2 }],
        after: content!([Nothing, Data(0), Data(2), Data(5), Data(4), Zeros], [1, 0, 1, 0, 1, 1]),
        consistent: true },
    { name: "a map that is discarded", before: PLAIN,
        edits: &[Change::Map { guest: 0, host: 5 }, Change::Discard { guest: 0, count: 1 }],
        after: PLAIN, consistent: true },
    { name: "a map that is replaced", before: PLAIN,
        edits: &[Change::Map { guest: 0, host: 5 }, Change::Map { guest: 0, host: 2 }],
        after: content!([Data(2), Data(0), Data(3), Data(1), Data(4), Zeros], [1, 1, 1, 1, 1, 0]),
        consistent: true },
    { name: "a map that keeps its cluster as zeros", before: PLAIN,
        edits: &[Change::Map { guest: 5, host: 2 }, Change::Keep { guest: 5, count: 1 }],
        after: content!([Nothing, Data(0), Data(3), Data(1), Data(4), Kept(2)], [1, 1, 1, 1, 1, 0]),
        consistent: true },
    { name: "a map in what is discarded", before: PLAIN,
        edits: &[Change::DiscardAll, Change::Map { guest: 2, host: 5 }],
        after: content!([Nothing, Nothing, Data(5), Nothing, Nothing, Nothing], [0, 0, 0, 0, 0, 1]),
        consistent: true },
    { name: "kept zeros that are discarded", before: PLAIN,
        edits: &[Change::Keep { guest: 1, count: 4 }, Change::Discard { guest: 2, count: 2 }],
        after: content!([Nothing, Kept(0), Nothing, Nothing, Kept(4), Zeros], [1, 0, 0, 0, 1, 0]),
        consistent: true },
};

// Edits of both tables and of both blocks.
const IN_LARGE: Applied<'static> = Applied {
    name: "edits over the border",
    before: content!(
        [Nothing, Data(0), Data(3), Data(1), Over(4), Zeros],
        [1, 1, 0, 1, 1, 1]
    ),
    edits: &[
        Change::Discard { guest: 1, count: 4 },
        Change::Map { guest: 0, host: 2 },
        Change::Zero { guest: 3, count: 1 },
    ],
    after: content!(
        [Data(2), Nothing, Nothing, Zeros, Nothing, Zeros],
        [0, 0, 1, 0, 0, 0]
    ),
    consistent: true,
};

// Edits of images with refcounts of more than one bit.
const COUNTED: &[Applied<'static>] = rows! { Applied:
    { name: "compressed data in a cluster that has more", before: COMPRESSED,
        edits: &[Change::Discard { guest: 1, count: 3 }],
        after: content!([Over(0), Nothing, Nothing, Nothing, Data(4), Later(3)], [1, 1, 0, 1, 1, 0]),
        consistent: true },
    { name: "compressed data in two clusters", before: COMPRESSED,
        edits: &[Change::Discard { guest: 0, count: 1 }],
        after: content!([Nothing, First(0), Later(0), First(0), Data(4), Later(3)], [3, 0, 0, 1, 1, 0]),
        consistent: true },
    { name: "all compressed data", before: COMPRESSED, edits: &[Change::DiscardAll], after: EMPTY,
        consistent: true },
    { name: "zeros that keep no compressed data", before: COMPRESSED,
        edits: &[Change::Keep { guest: 2, count: 3 }],
        after: content!([Over(0), First(0), Zeros, Zeros, Kept(4), Later(3)], [2, 1, 0, 1, 1, 0]),
        consistent: true },
    { name: "maps in the place of compressed data", before: COMPRESSED,
        edits: &[Change::Map { guest: 5, host: 2 }, Change::Map { guest: 0, host: 5 }],
        after: content!([Data(5), First(0), Later(0), First(0), Data(4), Data(2)], [3, 0, 1, 0, 1, 1]),
        consistent: true },
    { name: "data of two guest clusters", before: SHARED, edits: &[Change::DiscardAll], after: EMPTY,
        consistent: true },
    { name: "one of two, where the other one's flag is late then", before: SHARED,
        edits: &[Change::Discard { guest: 3, count: 1 }],
        after: content!([Shared(0), Nothing, Nothing, Nothing, Nothing, Nothing], [1, 0, 0, 0, 0, 0]),
        consistent: false },
};

// Returns a change as an edit of an image.
fn edit_of(shape: Shape<'_>, change: Change) -> GuestEdit {
    let size = shape.cluster_size;
    let offset = |guest: u64| -> GuestOffset {
        GuestOffset(guest_cluster(shape, guest).wrapping_mul(size))
    };
    match change {
        Change::Map { guest, host } => GuestEdit::Map {
            offset: offset(guest),
            host_cluster: HostCluster(host_cluster(shape, host)),
        },
        Change::Zero { guest, count } => GuestEdit::Zero {
            offset: offset(guest),
            length: size.wrapping_mul(count),
            keep_allocation: false,
        },
        Change::Keep { guest, count } => GuestEdit::Zero {
            offset: offset(guest),
            length: size.wrapping_mul(count),
            keep_allocation: true,
        },
        Change::Discard { guest, count } => GuestEdit::Discard {
            offset: offset(guest),
            length: size.wrapping_mul(count),
        },
        Change::DiscardAll => GuestEdit::Discard {
            offset: GuestOffset(0),
            length: shape.entries.wrapping_mul(2).wrapping_mul(size),
        },
    }
}

fn edits_of(alloc: Global, shape: Shape<'_>, changes: &[Change]) -> Result<Vec<GuestEdit>, Fault> {
    let mut edits = Vec::new(alloc);
    for change in changes {
        edits.push(edit_of(shape, *change))?;
    }
    Ok(edits)
}

// Makes edits of an image.
fn edit(alloc: Global, image: &mut MemStorage, edits: &[GuestEdit]) -> Result<(), Fault> {
    let mut header = header_of(alloc, image)?;
    apply(alloc, image, &mut header, edits)
}

// Makes the edits of a row in its image, and compares all bytes.
fn check_edited(
    alloc: Global,
    image: &mut MemStorage,
    shape: Shape<'_>,
    row: Applied<'_>,
) -> Result<(), Fail> {
    let name = (row.name, shape.name);
    let edits = edits_of(alloc, shape, row.edits)?;
    same(edit(alloc, image, edits.as_slice()), Ok(()), name)?;
    same_image(image, sized_image(alloc, shape, row.after), name)
}

// Does the same with an image that is consistent before, and checks its consistency afterwards.
fn check_shape(alloc: Global, shape: Shape<'_>, row: Applied<'_>) -> Result<(), Fail> {
    let name = (row.name, shape.name);
    let mut image = sized_image(alloc, shape, row.before)?;
    same(is_image_consistent(alloc, &mut image), Ok(true), name)?;
    check_edited(alloc, &mut image, shape, row)?;
    same(
        is_image_consistent(alloc, &mut image),
        Ok(row.consistent),
        name,
    )
}

fn check_shapes(alloc: Global, shapes: &[Shape<'_>], row: Applied<'_>) -> Result<(), Fail> {
    for shape in shapes {
        check_shape(alloc, *shape, row)?;
    }
    Ok(())
}

fn check_wide(alloc: Global, row: Applied<'_>) -> Result<(), Fail> {
    check_shapes(alloc, WIDE, row)
}

fn check_narrow(alloc: Global, row: Applied<'_>) -> Result<(), Fail> {
    check_shape(alloc, NARROW, row)
}

#[test]
fn edits_leave_tables_and_counters_as_they_say(rt: HostRuntime) -> Result<(), Fail> {
    each(rt.alloc(), APPLIED, check_wide)
}

#[test]
fn so_with_counters_of_one_bit(rt: HostRuntime) -> Result<(), Fail> {
    each(rt.alloc(), APPLIED, check_narrow)
}

#[test]
fn so_with_larger_clusters(rt: HostRuntime) -> Result<(), Fail> {
    check_shapes(rt.alloc(), LARGE, IN_LARGE)
}

// A check of the largest image's consistency would take too long.
#[test]
fn so_with_the_largest_clusters(rt: HostRuntime) -> Result<(), Fail> {
    let alloc = rt.alloc();
    let mut image = sized_image(alloc, LARGEST, IN_LARGE.before)?;
    check_edited(alloc, &mut image, LARGEST, IN_LARGE)
}

// Returns an image of larger clusters with an offset of 512 in a table.
fn unaligned_image(alloc: Global, shape: Shape<'_>) -> Result<MemStorage, Fault> {
    let mut image = sized_image(alloc, shape, PLAIN)?;
    put(&mut image, shape.cluster_size.wrapping_mul(4), 512)?;
    Ok(image)
}

#[test]
fn an_entry_whose_offset_is_not_of_a_cluster_refuses_edits(rt: HostRuntime) -> Result<(), Fail> {
    let alloc = rt.alloc();
    for shape in LARGE {
        let mut image = unaligned_image(alloc, *shape)?;
        let found = edit(alloc, &mut image, &[edit_of(*shape, Change::DiscardAll)]);
        same(found, Err(Fault::EntryUnaligned), shape.name)?;
        same_image(&image, unaligned_image(alloc, *shape), shape.name)?;
    }
    Ok(())
}

#[test]
fn clusters_that_lose_one_reference_keep_their_others(rt: HostRuntime) -> Result<(), Fail> {
    each(rt.alloc(), COUNTED, check_wide)
}
