//! The command `tables`: where the header, the tables and the refcount blocks lie.

ghost use Rattle.std.specs.Prelude.{◌≡◌, ◌⊎◌, ◌+◌, ◌<◌, ◌≤◌, ◌++◌, Ok, OnOk, flat_map, length, map};
ghost use Rattle.std.proofs.Common.{arith};
ghost use Rattle.std.proofs.lemmas.Grind.{flat_map-append};
ghost use Rattle.std.proofs.lemmas.List.{append-nil, append_assoc};
ghost use Rattle.qcow2_base.specs.Format.{most_l1_entries, most_reftable_entries};
ghost use Rattle.qcow2_base.specs.Storage.{OnImage};
ghost use Rattle.qcow2_check.specs.Counters.{IsKeptBlockOf, IsReftableFault, IsSameButBlock, counter_of};
ghost use Rattle.qcow2_check.specs.NamedTables.{l1_cluster, l1_layout};
ghost use Rattle.qcow2_metadata.specs.Results.{Reads};
ghost use Rattle.qcow2_metadata.specs.Table.{IsTableFault};
ghost use Rattle.qcow2_session.specs.Commands.Printing.{Prints, PrintsLast, PrintsText, run_over};
ghost use Rattle.qcow2_session.specs.Commands.Tables.{AddsRows, block_row, counted_row, image_rows, key_rows, l2_row, pair_text, range_text, table_line, tables_lines};

use crate::lines::{LineBuffer, ToLine, print_lines};
use qcow2_base::{Fault, GuestCluster, GuestOffset, HostCluster, Storage};
use qcow2_check::{Counters, ImageTables, Use, UseKind, UseSink, load_l1_table, walk_tables};
use qcow2_metadata::{Header, Table};
use std::alloc::{AllocError, Global};
use std::io::Write;
use std::marker::Model;

/// A line: the place of the header, a table or a refcount block.
#[derive(Clone, Copy)]
pub(super) enum TableLine {
    Header,
    /// The clusters with bytes of the L1 table.
    L1Table {
        first: HostCluster,
        count: u64,
    },
    /// The L2 table that an L1 entry names, the range of the disk that it maps, and the refcount of its
    /// cluster.
    L2Table {
        l1_index: u64,
        cluster: HostCluster,
        start: GuestOffset,
        mapped: u64,
        counter: u64,
    },
    /// The clusters of the encryption header.
    EncryptionHeader {
        first: HostCluster,
        count: u64,
    },
    /// The clusters of the refcount table.
    RefcountTable {
        first: HostCluster,
        count: u64,
    },
    /// The refcount block that a refcount table entry names, and the first cluster that it counts.
    RefcountBlock {
        index: u64,
        cluster: HostCluster,
        counted: HostCluster,
    },
}

// A sink of the walk over an image with this header: a row for each table, with those that map the disk and
// the encryption header apart from those that count clusters.
#[derive(Drop)]
struct Rows<'a> {
    header: &'a Header,
    mapping: Vec<TableLine>,
    counting: Vec<TableLine>,
}

impl<'a> Model for Rows<'a> {
    ghost use Rattle.qcow2_session.specs.Commands.Tables.{RowsState};

    ghost Value = { RowsState };

    ghost view = { λ r. record {
      header = r.header.now;
      mapping = r.mapping.items;
      counting = r.counting.items;
    } };
}

/// Prints where everything lies in an image with this header, in lines: the header, the L1 table, the
/// encryption header if there is one, the L2 table of each L1 entry that names one, the refcount table, and
/// the block of each of its entries that names one. Places are numbers of host clusters. An L2 table's line
/// has its L1 index, its cluster, the guest offset and the length in bytes of what it maps, and the refcount
/// of its cluster. A block's line has its index, its cluster, and the first cluster that it counts.
///
/// Returns the fault of the L1 table, that of the refcount table, and then 21 if a block that it names
/// would end past 2^56. Each fault comes before any line; a failed write to `out` is the storage fault.
/// Doesn't read L2 tables. Changes no byte of the image.
pub fn print_tables<S: Storage, O: Write>(
    alloc: Global,
    image: &mut S,
    header: &Header,
    out: &mut O,
) -> Result<(), Fault>
    ensures prints { Prints (run_over S.state O.contents result image.old image.new out.old out.new)
        (tables_lines header.now) }
    ensures last { PrintsLast (run_over S.state O.contents result image.old image.new out.old out.new) }
    ensures unchanged { (S.state image.new).byte_at ≡ (S.state image.old).byte_at }
{
    let rows = image_rows(alloc, image, header)?;
    print_rows(&rows, out)
}

// Returns the rows of an image with this header.
fn image_rows<'a, S: Storage>(
    alloc: Global,
    image: &mut S,
    header: &'a Header,
) -> Result<Rows<'a>, Fault>
    ensures { Reads (λ rows. rows.mapping ++ rows.counting) result (image_rows header.now)
        (λ fault. IsTableFault (l1_layout header.now) (l1_cluster header.now) fault
        ⊎ IsReftableFault header.now fault)
        (S.state image.old) (S.state image.new) }
{
    let l1_table = load_l1_table(alloc, image, header)?;
    let mut counters = Counters::new(alloc, image, header)?;
    let mut rows = Rows {
        header,
        mapping: Vec::new(alloc),
        counting: Vec::new(alloc),
    };
    let tables = ImageTables {
        header,
        l1_table: &l1_table,
        reftable: counters.reftable(),
    };
    walk_tables(&tables, &mut rows)?;
    read_counters(rows.mapping.as_mut_slice(), &mut counters, image)?;
    Ok(rows)
}

impl UseSink for Rows<'_> {
    ghost takes = { AddsRows };

    fn take(&mut self, used: Use) -> Result<(), Fault> {
        let (first, count) = (used.clusters.first, used.clusters.count.0);
        match used.kind {
            UseKind::Header => self.mapping.push(TableLine::Header)?,
            UseKind::L1Table => self.mapping.push(TableLine::L1Table { first, count })?,
            UseKind::EncryptionHeader => self.take_keys(first, count)?,
            UseKind::L2Table => self.mapping.push(l2_row(self.header, first, used.owner))?,
            UseKind::RefcountTable => {
                self.counting
                    .push(TableLine::RefcountTable { first, count })?
            }
            UseKind::RefcountBlock => self
                .counting
                .push(block_row(self.header, first, used.owner))?,
            UseKind::Data | UseKind::Compressed => {}
        }
        Ok(())
    }

    ghost takes_none = { λ s. Prim.grind (arith, append-nil) };

    ghost takes_both = { λ first second a b c one other.
        Prim.grind (arith, one, other, flat_map-append, append_assoc) };
}

impl Rows<'_> {
    // Adds the row of the encryption header, if it has clusters.
    fn take_keys(&mut self, first: HostCluster, count: u64) -> Result<(), AllocError>
        ensures { OnOk result (self.new ≡ record self.old {
          mapping = self.old.mapping ++ key_rows first count;
        }) }
    {
        if count > 0 {
            self.mapping
                .push(TableLine::EncryptionHeader { first, count })?;
        }
        Ok(())
    }
}

// The row of the L2 table at a cluster, before its refcount is read.
#[tactic(auto, using(crate::proofs::TablesLemmas::table_starts, crate::proofs::TablesLemmas::mapped_fits))]
fn l2_row(header: &Header, cluster: HostCluster, l1_index: u64) -> TableLine
    requires { l1_index < most_l1_entries }
    ensures { result ≡ l2_row header.now (λ c. 0) cluster l1_index }
{
    let cluster_bits = header.cluster_bits();
    let first = GuestCluster::from_l1_l2_indices(l1_index as usize, 0, cluster_bits);
    TableLine::L2Table {
        l1_index,
        cluster,
        start: first.offset(cluster_bits),
        mapped: header.l2_entries() as u64 * header.cluster_size() as u64,
        counter: 0,
    }
}

// The row of a refcount block.
#[tactic(auto, using(crate::proofs::TablesLemmas::block_start_fits))]
fn block_row(header: &Header, cluster: HostCluster, index: u64) -> TableLine
    requires { index < most_reftable_entries }
    ensures { result ≡ block_row header.now cluster index }
{
    TableLine::RefcountBlock {
        index,
        cluster,
        counted: HostCluster::from_ref_indices(index as usize, 0, header.rb_bits()),
    }
}

// Reads the refcounts of the L2 tables' clusters into their rows.
fn read_counters<S: Storage>(
    rows: &mut [TableLine],
    counters: &mut Counters<'_>,
    image: &mut S,
) -> Result<(), Fault>
    requires { OnImage (S.state image.old) (λ bytes.
        IsKeptBlockOf counters.old.header bytes counters.old.block) }
    ensures reads { Reads (λ done. rows.new) result (λ bytes. Ok (map
        (counted_row (counter_of counters.old.header counters.old.reftable bytes)) rows.old))
        (λ _. ⊥) (S.state image.old) (S.state image.new) }
    ensures reader { IsSameButBlock (S.state image.old) counters.old counters.new }
{
    for row in rows.iter_mut() {
        read_counter(row, counters, image)?;
    }
    Ok(())
}

// Reads the refcount of the cluster into a row, if the row is of an L2 table.
fn read_counter<S: Storage>(
    row: &mut TableLine,
    counters: &mut Counters<'_>,
    image: &mut S,
) -> Result<(), Fault>
    requires { OnImage (S.state image.old) (λ bytes.
        IsKeptBlockOf counters.old.header bytes counters.old.block) }
    ensures reads { Reads (λ done. row.new) result (λ bytes. Ok
        (counted_row (counter_of counters.old.header counters.old.reftable bytes) row.old))
        (λ _. ⊥) (S.state image.old) (S.state image.new) }
    ensures reader { IsSameButBlock (S.state image.old) counters.old counters.new }
{
    if let TableLine::L2Table {
        cluster,
        counter,
        ..
    } = row
    {
        *counter = counters.get(image, *cluster)?;
    }
    Ok(())
}

// Prints the rows that map the disk, and then those that count clusters.
#[tactic(auto, using(crate::proofs::TablesLemmas::rows_printed))]
fn print_rows<O: Write>(rows: &Rows<'_>, out: &mut O) -> Result<(), Fault>
    ensures { PrintsText result (O.contents out.old) (O.contents out.new)
        (flat_map table_line (rows.now.mapping ++ rows.now.counting)) }
{
    print_lines(rows.mapping.as_slice(), out)?;
    print_lines(rows.counting.as_slice(), out)
}

impl ToLine for TableLine {
    ghost text = { table_line };

    fn put_in(&self, line: &mut LineBuffer) {
        line.clear();
        line.prepend("\n");
        match self {
            TableLine::Header => line.prepend("header 0 1"),
            TableLine::L1Table { first, count } => prepend_clusters(line, "l1 ", *first, *count),
            TableLine::L2Table {
                l1_index,
                cluster,
                start,
                mapped,
                counter,
            } => {
                line.prepend_decimal(*counter);
                line.prepend(" ");
                prepend_range(line, *start, *mapped);
                line.prepend(" ");
                prepend_pair(line, *l1_index, cluster.0);
                line.prepend("l2 ");
            }
            TableLine::EncryptionHeader { first, count } => {
                prepend_clusters(line, "encryption-header ", *first, *count);
            }
            TableLine::RefcountTable { first, count } => {
                prepend_clusters(line, "refcount-table ", *first, *count);
            }
            TableLine::RefcountBlock {
                index,
                cluster,
                counted,
            } => {
                line.prepend_decimal(counted.0);
                line.prepend(" ");
                prepend_pair(line, *index, cluster.0);
                line.prepend("refcount-block ");
            }
        }
    }
}

// Puts a name and clusters in front of a line.
fn prepend_clusters(line: &mut LineBuffer, name: &str, first: HostCluster, count: u64)
    requires line { length line.old ≤ 100 }
    requires name { length name.now ≤ 20 }
    ensures text { line.new ≡ name.now ++ pair_text first.0 count ++ line.old }
{
    prepend_pair(line, first.0, count);
    line.prepend(name);
}

/// Puts two numbers in front of a line.
pub(super) fn prepend_pair(line: &mut LineBuffer, first: u64, second: u64)
    requires { length line.old ≤ 100 }
    ensures text { line.new ≡ pair_text first second ++ line.old }
    ensures bound { length line.new ≤ length line.old + 41 }
{
    line.prepend_decimal(second);
    line.prepend(" ");
    line.prepend_decimal(first);
}

// Puts a guest offset and a length in front of a line.
fn prepend_range(line: &mut LineBuffer, start: GuestOffset, bytes: u64)
    requires { length line.old ≤ 100 }
    ensures text { line.new ≡ range_text start bytes ++ line.old }
    ensures bound { length line.new ≤ length line.old + 37 }
{
    line.prepend_offset(bytes);
    line.prepend(" ");
    line.prepend_offset(start.0);
}
