//! The squares of a picture, and images without one.

use super::calls::shapes_of_image;
use crate::sample_image::sample_image;
use qcow2_base::Fault;
use qcow2_layout::Shape;
use qcow2_testing::sample_image::{BLOCK, L2_TABLE, LAST, NEXT_ENTRY, REFTABLE};
use qcow2_testing::{Numbers, each, rows, same};
use std::alloc::Global;
use std::test::Fail;

#[derive(Clone, Copy)]
struct Painted<'a> {
    name: &'a str,
    changes: Numbers<'a>,
    // The shapes that follow those of the first five clusters: header, L1 table, L2 table, refcount table and
    // block.
    shapes: &'a [Shape],
}

// Makes shapes, each from its first square, its number of squares and its colour.
macro_rules! shapes {
    ($($first:literal + $count:literal $shade:literal),* $(,)?) => {
        &[$(Shape { first: $first, count: $count, shade: $shade }),*]
    };
}

const TABLES: &[Shape] = shapes! { 0 + 3 10, 3 + 2 11 };

// An eighth of the disk is 8192 bytes long.
const SMALL: &[Painted<'static>] = rows! { Painted:
    { name: "a cluster of data", changes: &[], shapes: shapes! { 5 + 1 1 } },
    { name: "data in a row, in two eighths of the disk",
        changes: &[(L2_TABLE + 120, 3072), (L2_TABLE + 128, 3584)], shapes: shapes! { 5 + 2 1, 7 + 1 2 } },
    { name: "a disk of eight bytes more", changes: &[(24, 65544), (L2_TABLE + 128, 3072)],
        shapes: shapes! { 5 + 2 1 } },
    { name: "a disk of eight clusters", changes: &[(24, 4096), (L2_TABLE + 56, 3072)],
        shapes: shapes! { 5 + 1 4, 6 + 1 8 } },
    { name: "data of the last eighth that the table maps", changes: &[(L2_TABLE + 504, 3072)],
        shapes: shapes! { 5 + 1 1, 6 + 1 4 } },
    { name: "data past the end of the disk", changes: &[(24, 512)], shapes: shapes! { 5 + 1 8 } },
    { name: "an empty disk", changes: &[(24, 0)], shapes: shapes! { 5 + 1 8 } },
    { name: "compressed data", changes: &[(NEXT_ENTRY, 1 << 62 | 3072)],
        shapes: shapes! { 5 + 1 1, 6 + 1 9 } },
    { name: "leaked clusters after free ones", changes: &[(BLOCK + 16, 0x0000_0001_0002_0000)],
        shapes: shapes! { 5 + 1 1, 6 + 3 0, 9 + 2 12 } },
    { name: "free clusters in three rows", changes: &[(NEXT_ENTRY, 130 << 9)],
        shapes: shapes! { 5 + 1 1, 6 + 58 0, 64 + 64 0, 128 + 2 0, 130 + 1 1 } },
};

#[test]
fn each_square_has_the_colour_of_its_cluster(rt: HostRuntime) -> Result<(), Fail> {
    each(rt.alloc(), SMALL, check_painted)
}

fn check_painted(alloc: Global, row: Painted<'_>) -> Result<(), Fail> {
    let (scale, shapes) = shapes_of_image(alloc, &mut sample_image(alloc, row.changes)?)?;
    same((scale, shapes.get(..2)), (1, Some(TABLES)), row.name)?;
    same(shapes.get(2..), Some(row.shapes), row.name)
}

#[derive(Clone, Copy)]
struct Scaled<'a> {
    name: &'a str,
    changes: Numbers<'a>,
    scale: u64,
    // The number of shapes, the first of them, and the last.
    count: usize,
    first: &'a [Shape],
    last: Shape,
}

const LARGE: &[Scaled<'static>] = rows! { Scaled:
    { name: "4096 clusters", changes: &[(NEXT_ENTRY, 4095 << 9)], scale: 1, count: 68,
        first: shapes! { 0 + 3 10, 3 + 2 11, 5 + 1 1, 6 + 58 0 },
        last: Shape { first: 4095, count: 1, shade: 1 } },
    { name: "one cluster more", changes: &[(NEXT_ENTRY, 4096 << 9)], scale: 2, count: 35,
        first: shapes! { 0 + 1 10, 1 + 2 11, 3 + 61 0, 64 + 64 0 },
        last: Shape { first: 2048, count: 1, shade: 1 } },
    { name: "8192 clusters", changes: &[(NEXT_ENTRY, 8191 << 9)], scale: 2, count: 67,
        first: shapes! { 0 + 1 10, 1 + 2 11, 3 + 61 0 },
        last: Shape { first: 4095, count: 1, shade: 1 } },
    // cluster 11 is leaked, and lies in the second square of eight clusters
    { name: "32768 clusters, one of them leaked", changes: &[(NEXT_ENTRY, 32767 << 9), (BLOCK + 16, 1)],
        scale: 8, count: 67, first: shapes! { 0 + 1 11, 1 + 1 12, 2 + 62 0 },
        last: Shape { first: 4095, count: 1, shade: 1 } },
    { name: "the last cluster that can be", changes: &[(NEXT_ENTRY, LAST)], scale: 1 << 35, count: 66,
        first: shapes! { 0 + 1 11, 1 + 63 0, 64 + 64 0 },
        last: Shape { first: 4095, count: 1, shade: 1 } },
};

#[test]
fn a_square_stands_for_more_clusters_of_a_larger_image(rt: HostRuntime) -> Result<(), Fail> {
    each(rt.alloc(), LARGE, check_scaled)
}

fn check_scaled(alloc: Global, row: Scaled<'_>) -> Result<(), Fail> {
    let (scale, shapes) = shapes_of_image(alloc, &mut sample_image(alloc, row.changes)?)?;
    let found = (
        scale,
        shapes.len(),
        shapes.get(row.count.saturating_sub(1)).copied(),
    );
    same(found, (row.scale, row.count, Some(row.last)), row.name)?;
    same(shapes.get(..row.first.len()), Some(row.first), row.name)
}

const REFUSED: &[(Numbers<'static>, Fault)] = rows! {
    (&[(REFTABLE + 504, 1 << 56)], Fault::TablePlace),
    (&[(L2_TABLE + 504, 2)], Fault::EntryReserved),
};

#[test]
fn an_image_without_a_layout_has_no_picture(rt: HostRuntime) -> Result<(), Fail> {
    let alloc = rt.alloc();
    for (changes, fault) in REFUSED {
        let found = shapes_of_image(alloc, &mut sample_image(alloc, changes)?);
        same(found.err(), Some(*fault), *fault)?;
    }
    Ok(())
}
