//! The tables of an image that name clusters, as one value.

ghost use Rattle.std.specs.Prelude.{◌≡◌, Err, IfOk, IfSome, None};
ghost use Rattle.qcow2_base.specs.declared.fault.Fault.TheVariants.{Uncounted};
ghost use Rattle.qcow2_metadata.specs.Header.{uncounted_part};
ghost use Rattle.qcow2_metadata.specs.Results.{Reads};
ghost use Rattle.qcow2_check.specs.Findings.{IsCheckFault};
ghost use Rattle.qcow2_check.specs.ImageTables.{IsOpenedL1, opened_tables};
ghost use Rattle.qcow2_check.specs.Uses.{image_tables};

use crate::counters::Counters;
use crate::named_tables::load_l1_table;
use qcow2_base::{Fault, Storage};
use qcow2_metadata::{Header, L1Table, RefTable};
use std::alloc::Global;
use std::marker::Model;

/// The header, the active L1 table and the refcount table of one image. The tables have the header's cluster
/// size and no more entries than the format allows. Contracts see the header and the entries of both.
#[derive(Drop)]
pub struct ImageTables<'a> {
    pub header: &'a Header,
    pub l1_table: &'a L1Table,
    pub reftable: &'a RefTable,
}

impl<'a> Model for ImageTables<'a> {
    ghost use Rattle.qcow2_check.specs.ImageTables.{AreTablesOf};
    ghost use Rattle.qcow2_check.specs.Uses.{ImageTables as TablesRecord, image_tables};

    ghost Value = { TablesRecord };

    ghost view = { λ t. image_tables t.header.now t.l1_table.now.numbers t.reftable.now.numbers };

    ghost invariant = { λ t. AreTablesOf t.header.now t.l1_table.now t.reftable.now };
}

/// The L1 table of an image that can be checked, and a reader of its refcounts.
#[derive(Drop)]
pub struct OpenTables<'a> {
    pub l1_table: L1Table,
    pub counters: Counters<'a>,
}

/// Opens the tables of an image with this header for a check of all its references.
///
/// Returns the first of these faults: 37 if `Header::uncounted_part` returns a part, that of the L1 table,
/// that of the refcount table, or 21 if a refcount block would end past 2^56. Changes no byte.
pub fn open_tables<'a, S: Storage>(
    alloc: Global,
    image: &mut S,
    header: &'a Header,
) -> Result<OpenTables<'a>, Fault>
    ensures uncounted { IfSome (uncounted_part header.now) (λ part. result ≡ Err (Uncounted part)) }
    ensures reads { Reads (λ opened. image_tables header.now opened.l1_table.numbers opened.counters.reftable)
        result (opened_tables header.now) (IsCheckFault header.now) (S.state image.old) (S.state image.new) }
    ensures begun { IfOk result (λ opened. opened.counters ≡ record {
      header = header.now;
      reftable = opened.counters.reftable;
      block = None;
    }) }
    ensures l1_table { IfOk result (λ opened.
        IsOpenedL1 header.now (S.state image.old) opened.l1_table) }
{
    if let Some(part) = header.uncounted_part() {
        return Err(Fault::Uncounted(part));
    }
    let l1_table = load_l1_table(alloc, image, header)?;
    let counters = Counters::new(alloc, image, header)?;
    Ok(OpenTables { l1_table, counters })
}
