//! The values that a call works on besides an image, and the numbers that they show.

use crate::runs::{HeaderOf, Image, Run, image_of};
use qcow2_base::{Fault, HostCluster, MemStorage};
use qcow2_calls::{header_of, load_block, load_header, load_table, new_header};
use qcow2_metadata::{
    FeatureType, Header, L1Table, L2Table, RefBlock, RefTable, Table, TableEntry,
};
use qcow2_testing::sample_image::{DATA_ENTRY, L1_TABLE, L2_TABLE};
use qcow2_testing::{COPIED, VERSION_3, rows};
use std::alloc::Global;

/// The first cluster of each table.
pub(crate) const TABLES: HostCluster = HostCluster(1);

/// The cluster of the block.
pub(crate) const BLOCK: HostCluster = HostCluster(2);

/// More numbers than any run shows.
pub(crate) const MOST_NUMBERS: usize = 1 << 17;

/// More bytes than any call reports, so that writing them allocates nothing.
const MOST_REPORTED: usize = 4096;

/// The sample image of the tests, and a cluster of zeros: a disk of 64 clusters of 512 bytes, whose guest
/// cluster 3 is the data in host cluster 5.
pub(crate) const DISK: Image = Image {
    len: 2048,
    zeros: (0, 2048),
    numbers: rows! {
        (0, VERSION_3), (16, 9), (24, 0x8000), (32, 1), (40, 0x200), (96, 0x4_0000_0068),
        (L1_TABLE, COPIED + L2_TABLE), (DATA_ENTRY, COPIED + 0xa00),
    },
};

/// A header, a table of each kind and a block, and the text that a call has reported.
#[derive(Drop)]
pub(crate) struct Held {
    pub(crate) alloc: Global,
    pub(crate) header: Header,
    pub(crate) l1_table: L1Table,
    pub(crate) l2_table: L2Table,
    pub(crate) reftable: RefTable,
    pub(crate) block: RefBlock,
    pub(crate) out: Vec<u8>,
}

/// Makes the values for a run's call.
pub(crate) fn hold(alloc: Global, run: &Run) -> Result<Held, Fault> {
    let mut image = image_of(alloc, run.source)?;
    let header = described_header(alloc, run)?;
    let mut held = hold_over(alloc, &mut image, header)?;
    if run.modified {
        held.l1_table.set_modified();
        held.l2_table.set_modified();
        held.reftable.set_modified();
        held.block.set_modified();
    }
    Ok(held)
}

/// Makes the values over an image, with this header.
pub(crate) fn hold_over(
    alloc: Global,
    image: &mut MemStorage,
    header: Header,
) -> Result<Held, Fault> {
    let entries = header.l2_entries();
    Ok(Held {
        alloc,
        l1_table: load_table(alloc, image, &header, TABLES, entries)?,
        l2_table: load_table(alloc, image, &header, TABLES, entries)?,
        reftable: load_table(alloc, image, &header, TABLES, entries)?,
        block: load_block(alloc, image, &header, BLOCK)?,
        out: Vec::with_capacity(alloc, MOST_REPORTED)?,
        header,
    })
}

fn described_header(alloc: Global, run: &Run) -> Result<Header, Fault> {
    match run.header {
        HeaderOf::New(cluster_bits, order) => header_of(alloc, cluster_bits, order, false),
        HeaderOf::Named => new_header(alloc, 9, 4, Some("backing.1"), None, None),
        HeaderOf::Disk(size) => disk_header(alloc, size),
        HeaderOf::OfImage => {
            let mut image = run.before(alloc)?;
            load_header(alloc, &mut image, false)
        }
    }
}

/// The header of the disk, with this size in bytes.
pub(crate) fn disk_header(alloc: Global, size: u64) -> Result<Header, Fault> {
    let mut image = image_of(alloc, DISK)?;
    let mut header = load_header(alloc, &mut image, false)?;
    header.set_size(size);
    Ok(header)
}

// ---- The numbers that they show

/// A list with room for all numbers shown, so that adding one allocates nothing.
#[derive(Drop)]
pub(crate) struct Shown(pub(crate) Vec<u64>);

impl Shown {
    fn add(&mut self, number: u64) {
        let _ = self.0.push(number);
    }

    fn note(&mut self, holds: bool) {
        self.add(if holds { 1 } else { 0 });
    }
}

impl Held {
    /// Shows everything: whether L1 table, L2 table, refcount table and block are modified (places 0 to 3),
    /// the header (from place 4 on), and then cluster and numbers of L2 table, block, L1 table and refcount
    /// table.
    pub(crate) fn show(&self, shown: &mut Shown) {
        shown.0.clear();
        shown.note(self.l1_table.is_modified());
        shown.note(self.l2_table.is_modified());
        shown.note(self.reftable.is_modified());
        shown.note(self.block.is_modified());
        show_header(&self.header, shown);
        show_table(&self.l2_table, shown);
        show_block(&self.block, shown);
        show_table(&self.l1_table, shown);
        show_table(&self.reftable, shown);
    }
}

fn show_header(header: &Header, shown: &mut Shown) {
    shown.add(header.size());
    shown.add(header.l1_table_offset().0);
    shown.add(header.l1_table_entries() as u64);
    shown.add(header.reftable_offset().0);
    shown.add(header.reftable_clusters().0);
    let name = header.feature_name(FeatureType::Incompatible, 0);
    shown.note(matches!(name, Some(name) if name.as_str() == "dirty"));
}

fn show_table<T: Table>(table: &T, shown: &mut Shown) {
    show_cluster(table.get_cluster(), shown);
    for index in 0..table.entries() {
        shown.add(table.get(index).to_plain());
    }
}

fn show_block(block: &RefBlock, shown: &mut Shown) {
    show_cluster(block.get_cluster(), shown);
    for index in 0..block.entries() {
        shown.add(block.get(index));
    }
}

// Shows the number of a cluster, or a number that no cluster has.
fn show_cluster(cluster: Option<HostCluster>, shown: &mut Shown) {
    match cluster {
        Some(cluster) => shown.add(cluster.0),
        None => shown.add(u64::MAX),
    }
}
