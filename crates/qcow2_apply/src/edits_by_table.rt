//! The edits of each L2 table, so that none is tried on a table that it doesn't concern.

ghost use Rattle.std.specs.Prelude.{◌≡◌, ◌==◌, ◌++◌, ◌∷◌, ℕ, [], if◌then◌else◌, IfOk, IsOkUnless, OnOk, true};
ghost use Rattle.qcow2_base.specs.declared.fault.Fault.TheVariants.{NoMemory};
ghost use Rattle.qcow2_metadata.specs.Header.{geometry_of};
ghost use Rattle.qcow2_apply.specs.EditsByTable.{AddsEdit, IsByTable, kept_positions};
ghost use Rattle.qcow2_apply.specs.GuestEdits.{guest_edit_fits};
ghost use Rattle.qcow2_apply.specs.Tables.{AllFit};

use crate::guest_edits::GuestEdit;
use qcow2_base::Fault;
use qcow2_check::named_cluster;
use qcow2_metadata::{Header, L1Table, Table};
use std::alloc::Global;
use std::collections::BTreeMap;

/// The positions of edits of guest ranges, by the L2 tables that map a part of their ranges.
#[derive(Drop)]
pub struct EditsByTable {
    positions: BTreeMap<usize, Vec<usize>>,
}

impl EditsByTable {
    /// Groups edits that fit a disk of this header by the L2 tables that the L1 table names. Fails if memory
    /// runs out. Takes memory and time in proportion to the number of edits and of the tables that each
    /// concerns.
    pub fn of(
        alloc: Global,
        header: &Header,
        l1_table: &L1Table,
        edits: &[GuestEdit],
    ) -> Result<EditsByTable, Fault>
        requires geometry { l1_table.now.geometry ≡ geometry_of header.now }
        requires fit { AllFit header.now edits.now }
        ensures by_table { IfOk result (IsByTable header.now l1_table.now.numbers edits.now) }
        ensures fault { IsOkUnless result NoMemory }
    {
        let mut by_table = EditsByTable {
            positions: BTreeMap::new(alloc),
        };
        for position in 0..edits.len() {
            by_table.add(alloc, header, l1_table, position, edits[position])?;
        }
        Ok(by_table)
    }

    // Adds the position of an edit to each table that it concerns.
    fn add(
        &mut self,
        alloc: Global,
        header: &Header,
        l1_table: &L1Table,
        position: usize,
        edit: GuestEdit,
    ) -> Result<(), Fault>
        requires geometry { l1_table.now.geometry ≡ geometry_of header.now }
        requires fits { guest_edit_fits header.now edit ≡ true }
        ensures kept { OnOk result
            (AddsEdit header.now l1_table.now.numbers position edit self.old self.new) }
        ensures fault { IsOkUnless result NoMemory }
    {
        let (first, end) = edit.tables(header);
        for index in first..end.min(l1_table.entries()) {
            if named_cluster(l1_table, index).is_some() {
                self.keep(alloc, index, position)?;
            }
        }
        Ok(())
    }

    // Adds a position to the table of the L1 entry at an index.
    fn keep(&mut self, alloc: Global, index: usize, position: usize) -> Result<(), Fault>
        ensures kept { OnOk result ((i : ℕ) → kept_positions self.new i
            ≡ kept_positions self.old i ++ (if i == index then position ∷ [] else [])) }
        ensures fault { IsOkUnless result NoMemory }
    {
        let list = self.positions.entry(index)?.or_insert(Vec::new(alloc));
        list.push(position)?;
        Ok(())
    }

    /// The positions of the edits that concern the table of the L1 entry at an index, in order.
    pub fn positions_in(&self, index: usize) -> &[usize]
        ensures { result.now ≡ kept_positions self.now index }
    {
        match self.positions.get(&index) {
            Some(list) => list.as_slice(),
            None => &[],
        }
    }
}
