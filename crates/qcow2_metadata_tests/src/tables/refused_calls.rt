//! Calls of tables and blocks over a storage that fails each call in turn: entries, refcounts and cluster
//! stay, and the image has the pieces before. The same call succeeds afterwards.

use super::blocks;
use super::fixtures::{NUMBER, check_table, disk_of, load, loaded};
use super::pieces::{Pieces, check_calls};
use qcow2_base::{Fault, HostCluster, MemStorage, Storage};
use qcow2_calls::{
    write_block, write_block_if_modified, write_entry, write_l2_table_if_modified, write_table,
};
use qcow2_metadata::{L1Table, L2Table, RefBlock, RefTable, Table};
use qcow2_testing::{
    FailingStorage, filled_image, part_of, put, put_bytes, recorded, rows, same, same_image,
};
use std::alloc::Global;
use std::fmt::Debug;
use std::test::Fail;

/// A table of 1024 entries, or a block of this refcount order. It has 8192 bytes from byte 16384 on, which
/// are zero, except the last eight.
#[derive(Clone, Copy, Debug)]
enum Kind {
    L1Table,
    L2Table,
    Reftable,
    Block(u32),
}

#[derive(Drop)]
enum Held {
    L1Table(L1Table),
    L2Table(L2Table),
    Reftable(RefTable),
    Block(RefBlock),
}

#[derive(Clone, Copy, Debug, PartialEq, Eq)]
enum Call {
    Load,
    Write,
    WriteEntry,
    WriteIfModified,
}

use Call::{Load, Write, WriteEntry, WriteIfModified};

// A call, with the storage's alignment in bits; the modified flag before it, after it was refused, and after
// it succeeded; and the pieces that it reads or writes, each by one storage call.
#[derive(Clone, Copy, Debug)]
struct Run {
    call: Call,
    align_bits: u32,
    modified: bool,
    refused: bool,
    done: bool,
    pieces: Pieces,
}

const LOAD: Run = Run {
    call: Load,
    align_bits: 0,
    modified: true,
    refused: true,
    done: false,
    pieces: &[(16384, 4096), (20480, 4096)],
};

const OF_TABLES: &[Run] = rows! { Run:
    { ..LOAD },
    { call: Write, modified: false, refused: true, done: false, ..LOAD },
    { call: Write, modified: true, refused: true, done: false, ..LOAD },
    { call: WriteEntry, modified: false, refused: false, done: false, pieces: &[(24568, 8)], ..LOAD },
    { call: WriteEntry, modified: true, refused: true, done: true, pieces: &[(24568, 8)], ..LOAD },
    { call: WriteEntry, modified: false, refused: false, done: false, pieces: ALIGNED, align_bits: 13 },
    { call: WriteEntry, modified: true, refused: true, done: true, pieces: ALIGNED, align_bits: 13 },
};

const ALIGNED: Pieces = &[(16384, 8192)];

const IF_MODIFIED: &[Run] = rows! { Run:
    { call: WriteIfModified, modified: true, refused: true, done: false, ..LOAD },
};

const OF_BLOCKS: &[Run] = rows! { Run:
    { ..LOAD },
    { call: Write, modified: false, refused: true, done: false, ..LOAD },
    { call: Write, modified: true, refused: true, done: false, ..LOAD },
};

// The cluster of the table or block.
const CLUSTER: HostCluster = HostCluster(2);

// Returns an image of bytes 0xa5, except these pieces of the table or block.
fn image_with(alloc: Global, pieces: &[(u64, usize)]) -> Result<MemStorage, Fault> {
    let mut image = filled_image(alloc, 24576)?;
    for (offset, len) in pieces {
        put_bytes(&mut image, *offset, vec![in alloc; 0; *len]?.as_slice())?;
        if offset.saturating_add(*len as u64) == 24576 {
            put(&mut image, 24568, NUMBER)?;
        }
    }
    Ok(image)
}

fn read<S: Storage>(alloc: Global, kind: Kind, image: &mut S) -> Result<Held, Fault> {
    Ok(match kind {
        Kind::L1Table => Held::L1Table(load(alloc, image, disk_of(13), 2, 1024)?),
        Kind::L2Table => Held::L2Table(load(alloc, image, disk_of(13), 2, 1024)?),
        Kind::Reftable => Held::Reftable(load(alloc, image, disk_of(13), 2, 1024)?),
        Kind::Block(order) => Held::Block(blocks::load(alloc, image, (13, order), 2)?),
    })
}

fn hold(alloc: Global, kind: Kind, modified: bool) -> Result<Held, Fault> {
    let mut held = read(alloc, kind, &mut image_with(alloc, LOAD.pieces)?)?;
    if modified {
        match &mut held {
            Held::L1Table(table) => table.set_modified(),
            Held::L2Table(table) => table.set_modified(),
            Held::Reftable(table) => table.set_modified(),
            Held::Block(block) => block.set_modified(),
        }
    }
    Ok(held)
}

fn make_of_table<T: Table, S: Storage>(
    table: &mut T,
    call: Call,
    image: &mut S,
) -> Result<(), Fault> {
    if call == WriteEntry {
        write_entry(table, image, 1023)
    } else {
        write_table(table, image)
    }
}

fn make<S: Storage>(
    alloc: Global,
    kind: Kind,
    held: &mut Held,
    call: Call,
    image: &mut S,
) -> Result<(), Fault> {
    if call == Load {
        *held = read(alloc, kind, image)?;
        return Ok(());
    }
    let is_conditional = call == WriteIfModified;
    match held {
        Held::L1Table(table) => make_of_table(table, call, image),
        Held::L2Table(table) if is_conditional => write_l2_table_if_modified(table, image, CLUSTER),
        Held::L2Table(table) => make_of_table(table, call, image),
        Held::Reftable(table) => make_of_table(table, call, image),
        Held::Block(block) if is_conditional => write_block_if_modified(block, image, CLUSTER),
        Held::Block(block) => write_block(block, image),
    }
}

// Fails unless the entries and the cluster are unchanged, and the modified flag is this. Refcounts of a block
// are checked once it is written.
fn check_held<R: Debug + Copy + Drop>(held: &Held, modified: bool, row: R) -> Result<(), Fail> {
    let state = loaded(1024, 1023, NUMBER).placed(Some(2), modified);
    match held {
        Held::L1Table(table) => check_table(table, state, row),
        Held::L2Table(table) => check_table(table, state, row),
        Held::Reftable(table) => check_table(table, state, row),
        Held::Block(block) => {
            let found = (block.get_cluster(), block.is_modified());
            same(found, (Some(CLUSTER), modified), row)
        }
    }
}

fn image_before(alloc: Global, run: Run) -> Result<FailingStorage<MemStorage>, Fault> {
    let image = image_with(alloc, if run.call == Load { run.pieces } else { &[] })?;
    Ok(recorded(alloc, image.with_align(1 << run.align_bits.min(30))))
}

// Fails unless the call is refused after this many pieces are read or written.
fn check_refused(
    alloc: Global,
    (kind, run): (Kind, Run),
    held: &mut Held,
    image: &mut FailingStorage<MemStorage>,
    passes: usize,
) -> Result<(), Fail> {
    image.plan = Some(passes as u64);
    let answer = make(alloc, kind, held, run.call, image);
    same(answer, Err(Fault::Storage), (kind, run))?;
    check_held(held, run.refused, (kind, run))?;
    let end = if run.call == Load {
        run.pieces.len()
    } else {
        passes
    };
    let expected = image_with(alloc, part_of(run.pieces, 0, end)?);
    same_image(&image.inner, expected, (kind, run))
}

// Fails unless the call succeeds, piece by piece.
fn check_done(
    alloc: Global,
    (kind, run): (Kind, Run),
    held: &mut Held,
    image: &mut FailingStorage<MemStorage>,
) -> Result<(), Fail> {
    image.calls.clear();
    let answer = make(alloc, kind, held, run.call, image);
    same(answer, Ok(()), (kind, run))?;
    check_calls(alloc, &image.calls, run.pieces, run.call == Load)?;
    check_held(held, run.done, (kind, run))?;
    same_image(&image.inner, image_with(alloc, run.pieces), (kind, run))
}

fn check_run(alloc: Global, kind: Kind, run: Run) -> Result<(), Fail> {
    for passes in 0..run.pieces.len() {
        let mut held = hold(alloc, kind, run.modified)?;
        let mut image = image_before(alloc, run)?;
        check_refused(alloc, (kind, run), &mut held, &mut image, passes)?;
        check_done(alloc, (kind, run), &mut held, &mut image)?;
    }
    Ok(())
}

fn check_runs(alloc: Global, kind: Kind, runs: &[Run]) -> Result<(), Fail> {
    for run in runs {
        check_run(alloc, kind, *run)?;
    }
    Ok(())
}

#[test]
fn a_table_keeps_its_entries_where_the_storage_refuses_a_call(rt: HostRuntime) -> Result<(), Fail> {
    check_runs(rt.alloc(), Kind::L1Table, OF_TABLES)?;
    check_runs(rt.alloc(), Kind::L2Table, OF_TABLES)?;
    check_runs(rt.alloc(), Kind::L2Table, IF_MODIFIED)?;
    check_runs(rt.alloc(), Kind::Reftable, OF_TABLES)
}

#[test]
fn a_block_keeps_its_counters_where_the_storage_refuses_a_call(
    rt: HostRuntime,
) -> Result<(), Fail> {
    for order in 0..7u32 {
        check_runs(rt.alloc(), Kind::Block(order), OF_BLOCKS)?;
        check_runs(rt.alloc(), Kind::Block(order), IF_MODIFIED)?;
    }
    Ok(())
}
