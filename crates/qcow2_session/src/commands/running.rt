//! Runs a command over its image.

ghost use Rattle.std.specs.Prelude.{◌≡◌, ◌⊎◌, ℕ, Err, false, IfErr, IfOk, IfSome, IsErr, MatchResult, OnErr, OnOk, Some};
ghost use Rattle.std.specs.Io.KnownBytes.{Keeps};
ghost use Rattle.qcow2_base.specs.Storage.{OnImage, OnlyReads};
ghost use Rattle.qcow2_base.specs.Storage.File.{file_state};
ghost use Rattle.qcow2_base.specs.Storage.ImageFiles.{ChangesOne};
ghost use Rattle.qcow2_base.specs.declared.fault.Fault.TheVariants.{Storage as StorageFailed};
ghost use Rattle.qcow2_check.specs.declared.verdict.Verdict.TheVariants.{Fine};
ghost use Rattle.qcow2_session.specs.Commands.{facts_of};
ghost use Rattle.qcow2_session.specs.Commands.Apply.{maps_refusal};
ghost use Rattle.qcow2_session.specs.Commands.Printing.{PrintsLast, run_over};
ghost use Rattle.qcow2_session.specs.Commands.RunningOnFiles.{ComparesWithEnd, RefusesBy, RunsOnFile, StopsOrEnds, told_beside};
ghost use Rattle.qcow2_session.specs.Commands.Running.{AfterHeader, EndsAndFlushes, FindsHeader, IsHeaderFor, Runs, fine_unless_failed};

use super::Command;
use super::apply::{DiskEdit, edit_disk, first_unfit_within};
use super::at::print_mapping_at;
use super::check::check_in_form;
use super::count::count_and_wait;
use super::edit::edit_and_wait;
use super::info::print_info;
use super::l2::{new_header, print_l2_table};
use super::layout::print_layout;
use super::list::list_tables;
use super::map::print_extents;
use super::refcount::print_counters;
use super::tables::print_tables;
use qcow2_apply::refuse_uneditable;
use qcow2_base::{Device, Fault, FileStorage, ImageFile, ImageFiles, Storage};
use qcow2_buffered::BufferedStorage;
use qcow2_check::Verdict;
use qcow2_metadata::Header;
use std::alloc::Global;
use std::io;
use std::io::Write;

/// Opens the image at a path, for writing if the command may change it, runs the command, and closes the
/// image. Flushes what the command prints, also before a fault. A command that reads all tables reads them
/// in pages.
///
/// Returns 34 if the file can't be opened, and 35 if memory for the pages runs out. `apply` returns 42 if the
/// image is marked dirty or corrupt, and 41 if the L1 table is too short. Unless the data is in an external
/// data file, it returns 32 and the position of the first edit that doesn't fit the disk or maps a cluster
/// past the image's end; regular files and block devices have an end. These faults come before any output,
/// and leave the file unchanged except for what loading the header wrote. Otherwise returns what `run` does,
/// and 34 if the flush fails. Changes no other file, unless that is the same one. If `files` report that
/// another program came to the image, returns 39 instead of 34: the request may be partly done then.
pub fn run_on_file<R: ImageFiles, O: Write>(
    alloc: Global,
    files: &mut R,
    path: &str,
    command: &Command,
    out: &mut O,
) -> Result<Verdict, Fault>
    ensures runs { RunsOnFile command.now (R.file_at files.old path.now) (R.file_at files.new path.now) result
        O.contents out.old out.new }
    ensures others { ChangesOne path.now (R.file_at files.old) (R.file_at files.new) }
    ensures place { IfSome (facts_of command.now).place_fault (λ fault.
        IsErr result × Keeps (O.contents out.old) (O.contents out.new)) }
    ensures verdict { (facts_of command.now).has_verdict ≡ false → IfOk result (λ verdict. verdict ≡ Fine) }
{
    let image = files.open_image(path, command.changes_image())?;
    let (image, ran) = run_in_file(alloc, image, command, out);
    let told = unless_in_use(ran, files.is_in_use(path));
    files.close_image(path, image);
    told
}

// The result of a run beside other programs: if one has come to the image, the storage fault becomes 39.
fn unless_in_use(ran: Result<Verdict, Fault>, is_in_use: bool) -> Result<Verdict, Fault>
    ensures told { result ≡ told_beside is_in_use ran }
    ensures errs { IsErr ran → IsErr result }
{
    match ran {
        Err(Fault::Storage) if is_in_use => Err(Fault::InUse),
        _ => ran,
    }
}

// Runs a command over the image in an open file, and returns the file, to be closed.
fn run_in_file<F: ImageFile, O: Write>(
    alloc: Global,
    mut image: FileStorage<F>,
    command: &Command,
    out: &mut O,
) -> (FileStorage<F>, Result<Verdict, Fault>)
    ensures runs { AfterHeader (facts_of command.now) (StopsOrEnds command.now)
        (run_over (file_state F.content) O.contents result.1 image result.0 out.old out.new) }
    ensures place { IfSome (facts_of command.now).place_fault (λ fault.
        IsErr result.1 × Keeps (O.contents out.old) (O.contents out.new)) }
    ensures verdict { (facts_of command.now).has_verdict ≡ false →
        IfOk result.1 (λ verdict. verdict ≡ Fine) }
{
    let header = match find_header(alloc, &mut image, command) {
        Ok(header) => header,
        Err(fault) => return (image, Err(fault)),
    };
    if let Err(fault) = compare_with_end(&mut image, &header, command) {
        return (image, Err(fault));
    }
    if !command.reads_all_tables() {
        let ran = run_and_flush(alloc, &mut image, header, command, out);
        return (image, ran);
    }
    match BufferedStorage::new(alloc, image, header.cluster_size()) {
        Ok(mut pages) => {
            let ran = run_and_flush(alloc, &mut pages, header, command, out);
            (pages.into_inner(), ran)
        }
        Err(image) => (image, Err(Fault::NoMemory)),
    }
}

// Refuses edits of a disk that don't fit it or map clusters past the image's end, if that is known, by the
// first such edit.
fn compare_with_end<S: Device>(
    image: &mut S,
    header: &Header,
    command: &Command,
) -> Result<(), Fault>
    ensures compares { ComparesWithEnd command.now header.now (S.state image.old) result }
    ensures reads { OnlyReads result (S.state image.old) (S.state image.new) }
{
    match command {
        Command::Apply { edits, .. } => refuse_maps_past_end(image, header, edits.as_slice()),
        _ => Ok(()),
    }
}

// Refuses edits of a disk: by 42 if the image is marked dirty or corrupt, by 41 if the L1 table is too short,
// and by 32 with the position of the first edit that doesn't fit the disk or maps a cluster past the image's
// end. With an external data file `apply` refuses all edits later.
fn refuse_maps_past_end<S: Device>(
    image: &mut S,
    header: &Header,
    edits: &[DiskEdit],
) -> Result<(), Fault>
    ensures refusal { IfErr result (λ fault. (fault ≡ StorageFailed)
        ⊎ ((len : ℕ) × (maps_refusal edits.now header.now len ≡ Some fault))) }
    ensures known { OnImage (S.state image.old) (λ _. RefusesBy
        (maps_refusal edits.now header.now (S.state image.old).len) result) }
    ensures reads { OnlyReads result (S.state image.old) (S.state image.new) }
{
    refuse_uneditable(header)?;
    if header.external_data_file() {
        return Ok(());
    }
    let Some(len) = image.len()? else {
        return Ok(());
    };
    match first_unfit_within(header, edits, len) {
        Some(position) => Err(Fault::BadEdit(position)),
        None => Ok(()),
    }
}

// Runs a command over an image with its header, and flushes what it printed, also before a fault.
fn run_and_flush<S: Device, O: Write>(
    alloc: Global,
    image: &mut S,
    header: Header,
    command: &Command,
    out: &mut O,
) -> Result<Verdict, Fault>
    requires { IsHeaderFor (facts_of command.now) header }
    ensures ends { EndsAndFlushes (facts_of command.now) header
        (run_over S.state O.contents result image.old image.new out.old out.new) }
    ensures place { IfSome (facts_of command.now).place_fault (λ fault.
        IsErr result × Keeps (O.contents out.old) (O.contents out.new)) }
    ensures verdict { (facts_of command.now).has_verdict ≡ false → IfOk result (λ verdict. verdict ≡ Fine) }
{
    let ran = run_with(alloc, image, header, command, out);
    after_flush(ran, out.flush())
}

/// Returns the result of a run once its output was flushed. The run's own fault comes before that of the
/// flush.
pub(super) fn after_flush(
    ran: Result<Verdict, Fault>,
    flushed: io::Result<()>,
) -> Result<Verdict, Fault>
    ensures own { OnErr ran (result ≡ ran) }
    ensures flush { OnOk ran (MatchResult flushed (λ _. result ≡ ran) (λ _. result ≡ Err StorageFailed)) }
{
    let verdict = ran?;
    match flushed {
        Ok(()) => Ok(verdict),
        Err(_) => Err(Fault::Storage),
    }
}

/// Runs a command over an image, and prints its results to `out`. Loads the image's header first, for
/// writing if the command is `edit` or `count`; `l2` doesn't look at it. `apply` and `check IMAGE repair`
/// load it for reading, and write once they know that they can make the edits or the repair.
///
/// Returns the fault of the header, or what the command's own function returns: `Fine` if that returns no
/// verdict.
#[tactic(auto, using(crate::proofs::RunningLemmas::runs))]
pub fn run<S: Device, O: Write>(
    alloc: Global,
    image: &mut S,
    command: &Command,
    out: &mut O,
) -> Result<Verdict, Fault>
    ensures runs { Runs (facts_of command.now)
        (run_over S.state O.contents result image.old image.new out.old out.new) }
    ensures at_once { (facts_of command.now).prints_before_faults ≡ false →
        PrintsLast (run_over S.state O.contents result image.old image.new out.old out.new) }
    ensures unchanged { (facts_of command.now).changes_image ≡ false →
        (S.state image.new).byte_at ≡ (S.state image.old).byte_at }
    ensures place { IfSome (facts_of command.now).place_fault (λ fault.
        IsErr result × (out.new ≡ out.old)) }
    ensures verdict { (facts_of command.now).has_verdict ≡ false → IfOk result (λ verdict. verdict ≡ Fine) }
{
    let header = find_header(alloc, image, command)?;
    run_with(alloc, image, header, command, out)
}

// Runs a command over an image with its header.
fn run_with<S: Device, O: Write>(
    alloc: Global,
    image: &mut S,
    header: Header,
    command: &Command,
    out: &mut O,
) -> Result<Verdict, Fault>
    requires { IsHeaderFor (facts_of command.now) header }
    ensures ends { (facts_of command.now).Ends header
        (run_over S.state O.contents result image.old image.new out.old out.new) }
    ensures at_once { (facts_of command.now).prints_before_faults ≡ false →
        PrintsLast (run_over S.state O.contents result image.old image.new out.old out.new) }
    ensures unchanged { (facts_of command.now).changes_image ≡ false →
        (S.state image.new).byte_at ≡ (S.state image.old).byte_at }
    ensures place { IfSome (facts_of command.now).place_fault (λ fault.
        IsErr result × (out.new ≡ out.old)) }
    ensures verdict { (facts_of command.now).has_verdict ≡ false → IfOk result (λ verdict. verdict ≡ Fine) }
{
    match command {
        Command::Info => fine(print_info(&header, out)),
        Command::List => fine(list_tables(alloc, image, &header, out)),
        Command::Map { format } => fine(print_extents(alloc, image, &header, *format, out)),
        Command::At { guest_offset } => {
            fine(print_mapping_at(alloc, image, &header, *guest_offset, out))
        }
        Command::Tables => fine(print_tables(alloc, image, &header, out)),
        Command::Layout { form } => fine(print_layout(alloc, image, &header, *form, out)),
        Command::Refcount { clusters } => {
            fine(print_counters(alloc, image, &header, clusters.as_slice(), out))
        }
        Command::Check { form } => check_in_form(alloc, image, header, form, out),
        Command::Apply { form, edits } => {
            fine(edit_disk(alloc, image, header, *form, edits.as_slice(), out))
        }
        Command::Edit { l1_index, edits } => {
            fine(edit_and_wait(alloc, image, &header, *l1_index, edits.as_slice(), out))
        }
        Command::Count { cluster, steps } => {
            fine(count_and_wait(alloc, image, &header, *cluster, steps.as_slice(), out))
        }
        Command::L2 { cluster, .. } => {
            fine(print_l2_table(alloc, image, &header, *cluster, out))
        }
    }
}

/// Returns `Fine` for a command whose function returns no verdict, or its fault.
pub(super) fn fine(ran: Result<(), Fault>) -> Result<Verdict, Fault>
    ensures answer { result ≡ fine_unless_failed ran }
    ensures verdict { IfOk result (λ verdict. verdict ≡ Fine) }
{
    ran.map(|()| Verdict::Fine)
}

// Returns the header for a command: a new one with the cluster bits of its words, or else that of the
// image.
fn find_header<S: Storage>(alloc: Global, image: &mut S, command: &Command) -> Result<Header, Fault>
    ensures { FindsHeader (facts_of command.now) result (S.state image.old) (S.state image.new) }
{
    match command {
        Command::L2 { cluster_bits, .. } => new_header(alloc, cluster_bits.get()),
        _ => Header::load_accepting(
            alloc,
            image,
            command.loads_to_write(),
            command.accepted_features(),
        ),
    }
}
