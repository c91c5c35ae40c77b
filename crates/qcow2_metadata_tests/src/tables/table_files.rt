//! Tables with the most entries of their kind, and tables of images in real files.

use super::fixtures::{
    DISK, NUMBER, State, check_table, check_written_as, disk_of, load, loaded, table_with,
};
use qcow2_base::{Fault, FileStorage, MemStorage};
use qcow2_calls::write_table;
use qcow2_metadata::{L1Table, L2Table, Table};
use qcow2_testing::{file_holds, filled_image, put, put_bytes, same, temporary_file};
use std::alloc::Global;
use std::fs;
use std::fs::File;
use std::test::Fail;

fn open(rt: &HostRuntime, path: &str) -> Result<FileStorage<File>, Fault> {
    FileStorage::open(rt, path, true)
}

// Returns the state of an L1 table with the most entries, of which only the last isn't 0.
fn largest() -> State {
    loaded(4194304, 4194303, NUMBER).placed(Some(8), false)
}

// Loads that table from byte 4096 of a file on. The file then has zeros before the last entry.
fn largest_table(rt: &HostRuntime, path: &str) -> Result<L1Table, Fault> {
    let mut image = open(rt, path)?;
    put(&mut image, 4096 + 8 * 4194303, NUMBER)?;
    load(rt.alloc(), &mut image, DISK, 8, 4194304)
}

// Loads the table from one file and writes it to another.
fn check_written(rt: &HostRuntime, path: &str, other: &str) -> Result<(), Fail> {
    let mut table = largest_table(rt, path)?;
    check_table(&table, largest(), "loaded")?;
    same(
        write_table(&mut table, &mut open(rt, other)?),
        Ok(()),
        "write",
    )?;
    check_table(&table, largest(), "written")
}

fn check_same(rt: &HostRuntime, path: &str, other: &str) -> Result<(), Fail> {
    let bytes = fs::read(rt, path)?;
    same(bytes.len(), 33558528, "length")?;
    file_holds(rt, other, &bytes, "written")
}

#[test]
fn an_l1_table_of_the_most_entries_goes_from_file_to_file(rt: HostRuntime) -> Result<(), Fail> {
    let file = temporary_file(&rt, "largest-l1-table", &[0xa5; 4096])?;
    let other = temporary_file(&rt, "written-l1-table", &[0xa5; 4096])?;
    check_written(&rt, file.path.as_str(), other.path.as_str())?;
    check_same(&rt, file.path.as_str(), other.path.as_str())
}

// Loads the table at a cluster of a file, in which only entry 3 may differ from 0.
fn check_loaded(rt: &HostRuntime, path: &str, cluster: u64, number: u64) -> Result<(), Fail> {
    let table: L2Table = load(rt.alloc(), &mut open(rt, path)?, DISK, cluster, 64)?;
    let state = loaded(64, 3, number).placed(Some(cluster), false);
    check_table(&table, state, cluster)
}

// Returns two clusters of bytes 0xa5, and a table that ends with its entry 3.
fn cut_table(alloc: Global) -> Result<MemStorage, Fault> {
    let mut image = filled_image(alloc, 1024)?;
    put_bytes(&mut image, 1024, &[0; 24])?;
    put(&mut image, 1048, NUMBER)?;
    Ok(image)
}

// Loads three tables: the file ends within the one at cluster 2, and before the others.
fn check_both_loaded(rt: &HostRuntime, path: &str, bytes: &[u8]) -> Result<(), Fail> {
    check_loaded(rt, path, 2, NUMBER)?;
    check_loaded(rt, path, 3, 0)?;
    check_loaded(rt, path, (1 << 47) - 1, 0)?;
    file_holds(rt, path, bytes, "the file")
}

#[test]
fn a_load_near_the_end_of_a_writable_file_leaves_the_file(rt: HostRuntime) -> Result<(), Fail> {
    let image = cut_table(rt.alloc())?;
    let file = temporary_file(&rt, "end-of-file", image.bytes())?;
    check_both_loaded(&rt, file.path.as_str(), image.bytes())
}

// Returns an image of bytes 0xa5, except the table that begins at byte 2097152 with zeros.
fn largest_l2_table(alloc: Global) -> Result<MemStorage, Fault> {
    let mut image = filled_image(alloc, 2097152)?;
    put(&mut image, 4194296, NUMBER)?;
    put(&mut image, 4194304, 0xa5a5_a5a5_a5a5_a5a5)?;
    Ok(image)
}

fn largest_of_l2() -> State {
    loaded(262144, 262143, NUMBER).placed(Some(1), false)
}

// Writes the table, and loads it again.
fn check_round_trip(table: &mut L2Table) -> Result<(), Fail> {
    let alloc = table.allocator();
    let mut image = filled_image(alloc, 4194312)?;
    check_written_as(table, &mut image, largest_l2_table(alloc))?;
    let found: L2Table = load(alloc, &mut image, disk_of(21), 1, 262144)?;
    check_table(&found, largest_of_l2(), "read back")
}

#[test]
fn an_l2_table_of_the_most_entries_is_written_and_read_back(rt: HostRuntime) -> Result<(), Fail> {
    check_round_trip(&mut table_with(rt.alloc(), disk_of(21), largest_of_l2())?)
}
