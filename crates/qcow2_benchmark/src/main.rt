//! Measures how long it takes to load tables from an image in memory, to edit them, and to write them to
//! one. Prints the least time of a round in nanoseconds to standard error: `scripts/benchmark` runs it
//! beside plain Rust.
#![tactic(auto)]

use anyhow::Result;
use qcow2_base::{Fault, HostCluster, MemStorage};
use qcow2_metadata::{Header, L2Table, RefBlock, Table};
use qcow2_session::{Edit, Outcome, edit_settled, edit_table};
use std::alloc::{AllocError, Global};
use std::env;
use std::time::{CpuClock, Duration};

/// The entries of a table.
#[derive(Clone, Copy)]
enum Entries {
    /// Each maps its guest cluster to data.
    Data,
    /// Data, zeros, compressed data and unmapped entries, in no predictable order.
    Mixed,
}

/// Runs as many rounds as the first argument says, or one.
fn main(rt: HostRuntime) -> Result<()> {
    let rounds = rounds(&rt)?;
    for (name, entries) in [("data", Entries::Data), ("mixed", Entries::Mixed)] {
        for cluster_bits in [16, 21] {
            measure(&rt, name, entries, cluster_bits, rounds)?;
        }
    }
    measure_edits(&rt, rounds.min(20))
}

fn rounds(rt: &HostRuntime) -> Result<u32> {
    match env::args(rt)?.nth(1) {
        Some(word) => Ok(word.parse::<u32>()?),
        None => Ok(1),
    }
}

// Returns the time now, and lowers `least` to the time since `start` if that is less.
fn lap(rt: &HostRuntime, start: Duration, least: &mut Duration) -> Result<Duration> {
    let now = rt.thread_cpu_time()?;
    *least = (*least).min(now.saturating_sub(start));
    Ok(now)
}

// Prints the least time of a kind of work on this many entries.
fn tell(rt: &HostRuntime, work: &str, entries: &str, count: usize, least: Duration) -> Result<()> {
    eprintln!(rt; "{work}{entries} {count} {}", least.as_nanos())?;
    Ok(())
}

// Measures a load and a write of an L2 table that fills a cluster.
fn measure(
    rt: &HostRuntime,
    name: &str,
    entries: Entries,
    cluster_bits: u32,
    rounds: u32,
) -> Result<()> {
    let header = header_with(rt.alloc(), cluster_bits)?;
    let mut image = image_with(rt.alloc(), &header, entries)?;
    let (mut loaded, mut written) = (Duration::MAX, Duration::MAX);
    for _ in 0..rounds {
        time_table(rt, &mut image, &header, &mut loaded, &mut written)?;
    }
    let count = header.l2_entries();
    tell(rt, "load-", name, count, loaded)?;
    tell(rt, "write-", name, count, written)
}

// Loads and writes a table once.
fn time_table(
    rt: &HostRuntime,
    image: &mut MemStorage,
    header: &Header,
    loaded: &mut Duration,
    written: &mut Duration,
) -> Result<()> {
    let start = rt.thread_cpu_time()?;
    let mut table = load_table(rt.alloc(), image, header)?;
    let after_load = lap(rt, start, loaded)?;
    write_table(&mut table, image)?;
    lap(rt, after_load, written)?;
    Ok(())
}

// An image of an L2 table with 262144 entries, one of a block, and 8192 edits of the table. Clusters have 2
// MiB.
#[derive(Drop)]
struct Edited {
    header: Header,
    image: MemStorage,
    counters: MemStorage,
    edits: Vec<Edit>,
}

// The least times to copy a table, to edit it, and to edit it together with its refcounts.
#[derive(Clone, Copy)]
struct EditTimes {
    copied: Duration,
    edited: Duration,
    settled: Duration,
}

fn begin_edits(alloc: Global) -> Result<Edited, Fault> {
    let header = header_with(alloc, 21)?;
    Ok(Edited {
        image: image_with(alloc, &header, Entries::Data)?,
        counters: image_of_ones(alloc)?,
        edits: edits_of_every_32nd_entry(alloc)?,
        header,
    })
}

fn measure_edits(rt: &HostRuntime, rounds: u32) -> Result<()> {
    let mut edited = begin_edits(rt.alloc())?;
    let mut times = EditTimes {
        copied: Duration::MAX,
        edited: Duration::MAX,
        settled: Duration::MAX,
    };
    for _ in 0..rounds {
        measure_round(rt, &mut edited, &mut times)?;
    }
    tell(rt, "copied", "", 262144, times.copied)?;
    tell(rt, "edited", "", 8192, times.edited)?;
    tell(rt, "settled", "", 8192, times.settled)
}

// Measures edits of a table and a block, both loaded anew.
fn measure_round(rt: &HostRuntime, edited: &mut Edited, times: &mut EditTimes) -> Result<()> {
    let mut table = load_table(rt.alloc(), &mut edited.image, &edited.header)?;
    let mut block = load_block(rt.alloc(), &mut edited.counters, &edited.header)?;
    time_edits(rt, edited, &mut table, &mut block, times)
}

fn time_edits(
    rt: &HostRuntime,
    edited: &Edited,
    table: &mut L2Table,
    block: &mut RefBlock,
    times: &mut EditTimes,
) -> Result<()> {
    let start = rt.thread_cpu_time()?;
    let mut copy = copy_of(table)?;
    let after_copy = lap(rt, start, &mut times.copied)?;
    edit(&mut copy, &edited.edits)?;
    let after_edits = lap(rt, after_copy, &mut times.edited)?;
    settle(table, block, &edited.header, 0, &edited.edits)?;
    lap(rt, after_edits, &mut times.settled)?;
    Ok(())
}

// Edits that each map an entry to another cluster.
fn edits_of_every_32nd_entry(alloc: Global) -> Result<Vec<Edit>, AllocError> {
    let mut edits = Vec::new(alloc);
    for at in 0..8192 {
        edits.push(Edit::Map {
            index: 32 * at,
            host_cluster: HostCluster(300000 + at as u64),
        })?;
    }
    Ok(edits)
}

// An image of a refcount block of 2 MiB, whose refcounts of 16 bits are all 1.
fn image_of_ones(alloc: Global) -> Result<MemStorage, AllocError> {
    let mut bytes = Vec::new(alloc);
    for _ in 0..1u32 << 20 {
        bytes.extend_from_slice(&[0, 1])?;
    }
    Ok(MemStorage::new(bytes))
}

// An image whose second cluster is an L2 table.
fn image_with(alloc: Global, header: &Header, entries: Entries) -> Result<MemStorage, AllocError> {
    let mut bytes = vec![in alloc; 0u8; header.cluster_size()]?;
    for index in 0..header.l2_entries() {
        bytes.extend_from_slice(&number(index as u64, entries).to_be_bytes())?;
    }
    Ok(MemStorage::new(bytes))
}

// The number of an entry, valid for each cluster size.
fn number(index: u64, entries: Entries) -> u64 {
    let data = (1 << 63) + (index % (1 << 20) << 21);
    match entries {
        Entries::Data => data,
        Entries::Mixed => match index.wrapping_mul(0x9e37_79b9_7f4a_7c15) >> 62 {
            0 => data,
            1 => 1,
            2 => (1 << 62) + index % (1 << 20) * 512,
            _ => 0,
        },
    }
}

// The measured calls are in functions of their own, so that no proof about a measurement has to read their
// contracts.

fn header_with(alloc: Global, cluster_bits: u32) -> Result<Header, Fault> {
    if cluster_bits < 9 || cluster_bits > 21 {
        return Err(Fault::ClusterSize);
    }
    Header::new(alloc, cluster_bits, 4, None, None, None)
}

fn load_table(alloc: Global, image: &mut MemStorage, header: &Header) -> Result<L2Table, Fault> {
    L2Table::load(alloc, image, header, HostCluster(1), header.l2_entries())
}

fn write_table(table: &mut L2Table, image: &mut MemStorage) -> Result<(), Fault> {
    table.write(image)
}

fn load_block(alloc: Global, image: &mut MemStorage, header: &Header) -> Result<RefBlock, Fault> {
    RefBlock::load(alloc, image, header, HostCluster(0))
}

fn copy_of(table: &L2Table) -> Result<L2Table, Fault> {
    table.try_clone()
}

fn edit(table: &mut L2Table, edits: &[Edit]) -> Result<Outcome, Fault> {
    edit_table(table.allocator(), table, edits)
}

fn settle(
    table: &mut L2Table,
    block: &mut RefBlock,
    header: &Header,
    rt_index: usize,
    edits: &[Edit],
) -> Result<Outcome, Fault> {
    if header.cluster_bits() != block.cluster_bits()
        || header.refcount_order() != block.refcount_order()
        || header.cluster_bits() != table.cluster_bits()
        || header.external_data_file() != table.external_data_file()
    {
        return Err(Fault::WrongLength);
    }
    edit_settled(table.allocator(), table, block, header, rt_index, edits)
}
