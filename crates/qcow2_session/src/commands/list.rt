//! The command `list`: lists all L2 tables of an image.

ghost use Rattle.std.specs.Prelude.{◌≡◌, IsErrOf};
ghost use Rattle.qcow2_base.specs.Storage.{ReadsFor};
ghost use Rattle.qcow2_base.specs.declared.fault.Fault.TheVariants.{Storage as StorageFailed};
ghost use Rattle.qcow2_session.specs.Commands.List.{PrintsList, PrintsTables, texts_of_tables, texts_left};
ghost use Rattle.qcow2_session.specs.Commands.Printing.{run_over};

use super::entries::{Label, print_entries};
use crate::{BlankTables, L2Tables, load_l2_table};
use qcow2_base::{Fault, Storage};
use qcow2_metadata::Header;
use std::alloc::Global;
use std::io::Write;

/// Lists all L2 tables of an image with this header, in the order of the L1 table: for each entry, except
/// those left to the backing file, its guest offset, a space, and its mapping. Holds one L2 table in memory
/// at a time.
///
/// Returns the fault of the L1 table before any line. A refused L2 table ends the list after the lines of
/// the tables before it. A failed write to `out` is the storage fault. Changes no byte of the image.
pub fn list_tables<S: Storage, O: Write>(
    alloc: Global,
    image: &mut S,
    header: &Header,
    out: &mut O,
) -> Result<(), Fault>
    ensures prints { PrintsList (run_over S.state O.contents result image.old image.new out.old out.new)
        (texts_of_tables header.now) }
    ensures storage { ReadsFor (IsErrOf result StorageFailed) (S.state image.old) (S.state image.new) }
{
    let mut tables = L2Tables::new(alloc, image, header)?;
    print_tables(alloc, image, header, &mut tables, out)
}

// Lists the L2 tables that a walk over an image with this header has left. Several L1 entries may name a
// table that has no line: it is then read once.
fn print_tables<S: Storage, O: Write>(
    alloc: Global,
    image: &mut S,
    header: &Header,
    tables: &mut L2Tables<'_>,
    out: &mut O,
) -> Result<(), Fault>
    requires { tables.old.header ≡ header.now }
    ensures prints { PrintsTables (run_over S.state O.contents result image.old image.new out.old out.new)
        (texts_left tables.old) }
    ensures storage { ReadsFor (IsErrOf result StorageFailed) (S.state image.old) (S.state image.new) }
{
    let mut blank = BlankTables::new(alloc);
    while let Some((index, cluster)) = tables.pass() {
        if blank.has(cluster) {
            continue;
        }
        let table = load_l2_table(alloc, image, header, cluster)?;
        if !blank.note(cluster, &table)? {
            print_entries(&table, index, Label::Offset, out)?;
        }
    }
    Ok(())
}
