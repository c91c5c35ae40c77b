//! A walk over the L2 tables of an image.

ghost use Rattle.std.specs.Prelude.{Ok, IfOk, IfSome};
ghost use Rattle.qcow2_base.specs.Storage.{OnImage, OnlyReads};
ghost use Rattle.qcow2_metadata.specs.Results.{Reads};
ghost use Rattle.qcow2_metadata.specs.Table.{IsTableFault};
ghost use Rattle.qcow2_check.specs.NamedTables.{l1_cluster, l1_layout, loaded_l1_table};

use crate::lookups::next_named;
use qcow2_base::{Fault, HostCluster, Storage};
use qcow2_check::{load_l1_table, load_l2_table, named_cluster};
use qcow2_metadata::{Header, L1Table, L2Table, Table};
use std::alloc::Global;
use std::marker::Model;

/// A walk over the L2 tables that an image's L1 table names, in its order. It has the L1 table in memory, and
/// returns one L2 table after the other. In contracts it is its `WalkState`: what it has of the image, and
/// its position.
#[derive(Drop)]
pub struct L2Tables<'a> {
    header: &'a Header,
    l1_table: L1Table,
    index: usize,
}

impl<'a> Model for L2Tables<'a> {
    ghost use Rattle.std.specs.Prelude.{◌≡◌, ◌≤◌, length};
    ghost use Rattle.qcow2_base.specs.Format.{most_l1_entries};
    ghost use Rattle.qcow2_metadata.specs.Header.{geometry_of};
    ghost use Rattle.qcow2_image.specs.L2Tables.{WalkState};

    ghost Value = { WalkState };

    ghost view = { λ w. record { header = w.header.now; l1 = w.l1_table.numbers; index = w.index } };

    ghost invariant = { λ w. (w.l1_table.geometry ≡ geometry_of w.header.now)
        × (w.index ≤ length w.l1_table.numbers) × (length w.l1_table.numbers ≤ most_l1_entries) };
}

impl<'a> L2Tables<'a> {
    ghost use Rattle.std.specs.Prelude.{◌≡◌};
    ghost use Rattle.qcow2_image.specs.L2Tables.{GoesOn, IsPlaceOf, IsTableOf, PassesTable, TellsTable, tables_left};

    /// Returns a walk over the L2 tables of an image with this header, before the first one. Reads the L1
    /// table, and returns its fault if that is refused. Changes no byte.
    pub fn new<S: Storage>(
        alloc: Global,
        image: &mut S,
        header: &'a Header,
    ) -> Result<L2Tables<'a>, Fault>
        ensures reads { Reads (λ walk. walk.l1) result (loaded_l1_table header.now)
            (IsTableFault (l1_layout header.now) (l1_cluster header.now))
            (S.state image.old) (S.state image.new) }
        ensures begun { IfOk result (λ walk. walk ≡ record { header = header.now; l1 = walk.l1; index = 0 }) }
    {
        let l1_table = load_l1_table(alloc, image, header)?;
        Ok(L2Tables {
            header,
            l1_table,
            index: 0,
        })
    }

    /// Returns the next L2 table with the index of its L1 entry, or `None` after the last. Returns the fault
    /// of a refused table, and stays before it. Changes no byte.
    pub fn next<S: Storage>(&mut self, image: &mut S) -> Result<Option<(usize, L2Table)>, Fault>
        ensures told { OnImage (S.state image.old) (λ bytes.
            TellsTable (tables_left self.old bytes) (tables_left self.new bytes) result) }
        ensures table { IfOk result (λ found. IfSome found (IsTableOf self.old)) }
        ensures walk { GoesOn result self.old self.new }
        ensures storage { OnlyReads result (S.state image.old) (S.state image.new) }
    {
        let before = self.index;
        let Some((index, cluster)) = self.pass() else {
            return Ok(None);
        };
        let alloc = self.l1_table.allocator();
        match load_l2_table(alloc, image, self.header, cluster) {
            Ok(table) => Ok(Some((index, table))),
            Err(fault) => {
                self.index = before;
                Err(fault)
            }
        }
    }

    /// Goes past the next L2 table without reading it. Returns the index of its L1 entry and its first
    /// cluster, or `None` after the last table.
    pub fn pass(&mut self) -> Option<(usize, HostCluster)>
        ensures passed { PassesTable self.old self.new result }
        ensures place { IfSome result (IsPlaceOf self.old) }
        ensures walk { GoesOn (Ok result) self.old self.new }
    {
        let Some(index) = next_named(&self.l1_table, self.index) else {
            return None;
        };
        self.index = index + 1;
        Some((index, named_cluster(&self.l1_table, index).unwrap()))
    }
}
