//! The command `apply`: edits ranges of the guest's disk, refcounts included.

ghost use Rattle.std.specs.Prelude.{◌≡◌, ◌++◌, IfOk, false, map, not, string_bytes};
ghost use Rattle.qcow2_base.specs.Storage.{OnImage, OnImages, OnlyReads};
ghost use Rattle.qcow2_metadata.specs.Header.{HeaderRecord};
ghost use Rattle.qcow2_check.specs.Failures.{RefusesAs, ReportsFailures};
ghost use Rattle.qcow2_apply.specs.Apply.{EditsDisk};
ghost use Rattle.qcow2_apply.specs.Plan.{edits_within};
ghost use Rattle.qcow2_session.specs.Commands.Apply as spec;
ghost use Rattle.qcow2_session.specs.Commands.Apply.{EndsApply, EndsEdits, PlansEdits, makes_edits};
ghost use Rattle.qcow2_session.specs.Commands.Printing.{PrintsLast, PrintsText, run_over};
ghost use Rattle.qcow2_session.specs.Commands.Words.{Parses};

use super::Command;
use super::words::{Arguments, FromWord, number, parts};
use crate::lines::{LineBuffer, ToLine, print, print_lines};
use qcow2_apply::{ChangedClusters, GuestEdit, KeptCluster, Plan, apply_edits};
use qcow2_base::{Device, Fault, GuestOffset, HostCluster};
use qcow2_metadata::Header;
use std::alloc::{AllocError, Global};
use std::io::Write;

/// Whether edits of a disk are made or only planned.
#[derive(Clone, Copy, Debug, PartialEq, Eq)]
pub enum ApplyForm {
    /// Makes the edits.
    Make,
    /// Finds what they would do, and writes nothing.
    Plan,
}

/// An edit of a disk, as a word of the command line gives it. Offsets and lengths are in bytes.
#[derive(Clone, Copy, Debug, PartialEq, Eq)]
pub enum DiskEdit {
    /// An edit that the word gives in full.
    Range(GuestEdit),
    /// A discard of one cluster, without a length.
    DiscardCluster { offset: GuestOffset },
}

impl DiskEdit {
    /// Returns the edit of a disk whose clusters have this size in bytes.
    pub fn guest_edit(&self, cluster_size: usize) -> GuestEdit
        ensures { result ≡ spec.guest_edit cluster_size self.now }
    {
        match *self {
            DiskEdit::Range(edit) => edit,
            DiskEdit::DiscardCluster { offset } => GuestEdit::Discard {
                offset,
                length: cluster_size as u64,
            },
        }
    }

    // Whether the edit fits the disk of an image with this header and this length in bytes, and a cluster
    // that it maps begins before the image's end.
    fn fits_within(&self, header: &Header, len: u64) -> bool
        ensures { result ≡ spec.fits_within len header.now self.now }
    {
        let edit = self.guest_edit(header.cluster_size());
        if !edit.fits(header) {
            return false;
        }
        match edit {
            GuestEdit::Map { host_cluster, .. } => {
                host_cluster.0 < len.div_ceil(1 << header.cluster_bits())
            }
            GuestEdit::Zero { .. } | GuestEdit::Discard { .. } => true,
        }
    }
}

/// Makes or plans edits of the disk of an image with this header. Prints the clusters that are free
/// afterwards, those that lost a reference and have others, and those that gained one. A plan ends with the
/// number of bitmaps that agree with the disk, if there are any: the edits make them stale.
///
/// Returns the faults of `apply_edits`, before any line. 35 comes before a byte changes. So do all others
/// except 34, if no cluster belongs to two tables or blocks, or to one and the header. A failed write to
/// `out` is the storage fault: the edits are made by then.
pub fn edit_disk<S: Device, O: Write>(
    alloc: Global,
    image: &mut S,
    header: Header,
    form: ApplyForm,
    edits: &[DiskEdit],
    out: &mut O,
) -> Result<(), Fault>
    ensures ends { EndsApply form edits.now header
        (run_over S.state O.contents result image.old image.new out.old out.new) }
    ensures last { PrintsLast (run_over S.state O.contents result image.old image.new out.old out.new) }
    ensures unchanged { makes_edits form ≡ false → (S.state image.new).byte_at ≡ (S.state image.old).byte_at }
{
    let bitmaps = stale_bitmaps(form, &header);
    let edits = guest_edits(alloc, &header, edits)?;
    let clusters = changed_clusters(alloc, image, header, form, edits.as_slice())?;
    print_changes(&clusters, bitmaps, out)
}

// The number of bitmaps that planned edits make stale, if there are any.
fn stale_bitmaps(form: ApplyForm, header: &Header) -> Option<u32>
    ensures { result ≡ spec.stale_bitmaps form header.now }
{
    match form {
        ApplyForm::Make => None,
        ApplyForm::Plan => header.consistent_bitmaps(),
    }
}

// Makes or plans edits of the disk, and returns the clusters that they change.
fn changed_clusters<S: Device>(
    alloc: Global,
    image: &mut S,
    header: Header,
    form: ApplyForm,
    edits: &[GuestEdit],
) -> Result<ChangedClusters, Fault>
    ensures edits { EndsEdits form header edits.now result (S.state image.old) (S.state image.new) }
    ensures end { OnImage (S.state image.old) (λ bytes.
        RefusesAs (edits_within header edits.now (S.state image.old).len bytes) result) }
    ensures storage { ReportsFailures result (S.state image.old) (S.state image.new) }
    ensures unchanged { makes_edits form ≡ false →
        (S.state image.new).byte_at ≡ (S.state image.old).byte_at }
{
    match form {
        ApplyForm::Make => made_clusters(alloc, image, header, edits),
        ApplyForm::Plan => planned_clusters(alloc, image, &header, edits),
    }
}

// Makes the edits.
fn made_clusters<S: Device>(
    alloc: Global,
    image: &mut S,
    header: Header,
    edits: &[GuestEdit],
) -> Result<ChangedClusters, Fault>
    ensures edits { (left : HeaderRecord) × OnImages (S.state image.old) (S.state image.new)
        (EditsDisk header left edits.now result) }
    ensures end { OnImage (S.state image.old) (λ bytes.
        RefusesAs (edits_within header edits.now (S.state image.old).len bytes) result) }
    ensures storage { ReportsFailures result (S.state image.old) (S.state image.new) }
{
    let mut header = header;
    apply_edits(alloc, image, &mut header, edits)
}

// Plans the edits.
fn planned_clusters<S: Device>(
    alloc: Global,
    image: &mut S,
    header: &Header,
    edits: &[GuestEdit],
) -> Result<ChangedClusters, Fault>
    ensures edits { OnImage (S.state image.old) (PlansEdits header.now edits.now result) }
    ensures end { OnImage (S.state image.old) (λ bytes.
        RefusesAs (edits_within header.now edits.now (S.state image.old).len bytes) result) }
    ensures storage { OnlyReads result (S.state image.old) (S.state image.new) }
{
    let plan = Plan::new(alloc, image, header, edits)?;
    Ok(plan.clusters)
}

/// The position of the first edit that doesn't fit the disk of an image with this header and this length in
/// bytes, or maps a cluster past the image's end, if there is one.
pub(super) fn first_unfit_within(header: &Header, edits: &[DiskEdit], len: u64) -> Option<usize>
    ensures { result ≡ spec.first_unfit_within len header.now edits.now }
{
    edits.iter().position(
        |edit: &DiskEdit| -> bool
            ensures { result ≡ not (spec.fits_within len header.entry.now edit.now) }
        { !edit.fits_within(header, len) },
    )
}

// The edits of a disk with this header.
fn guest_edits(
    alloc: Global,
    header: &Header,
    edits: &[DiskEdit],
) -> Result<Vec<GuestEdit>, AllocError>
    ensures { IfOk result (λ list. list.items ≡ spec.guest_edits header.now edits.now) }
{
    let cluster_size = header.cluster_size();
    edits
        .iter()
        .map(
            |edit: &DiskEdit| -> GuestEdit
                ensures { result ≡ spec.guest_edit cluster_size edit.now }
            { edit.guest_edit(cluster_size) },
        )
        .collect(alloc)
}

// Prints the changed clusters, and then the number of stale bitmaps.
fn print_changes<O: Write>(
    clusters: &ChangedClusters,
    bitmaps: Option<u32>,
    out: &mut O,
) -> Result<(), Fault>
    ensures { PrintsText result (O.contents out.old) (O.contents out.new)
        (spec.changed_lines clusters.now ++ spec.bitmaps_line bitmaps) }
{
    print_clusters(clusters, out)?;
    print_bitmaps(bitmaps, out)
}

// Prints the number of stale bitmaps, if there are any.
fn print_bitmaps<O: Write>(bitmaps: Option<u32>, out: &mut O) -> Result<(), Fault>
    ensures { PrintsText result (O.contents out.old) (O.contents out.new) (spec.bitmaps_line bitmaps) }
{
    let Some(count) = bitmaps else {
        return Ok(());
    };
    let mut line = LineBuffer::new();
    line.prepend("\n");
    line.prepend_decimal(count as u64);
    line.prepend("stale-bitmaps ");
    print(line.as_bytes(), out)
}

// Prints the changed clusters.
fn print_clusters<O: Write>(clusters: &ChangedClusters, out: &mut O) -> Result<(), Fault>
    ensures { PrintsText result (O.contents out.old) (O.contents out.new) (spec.changed_lines clusters.now) }
{
    print_lines(clusters.freed.as_slice(), out)?;
    print_lines(clusters.kept.as_slice(), out)?;
    print_lines(clusters.gained.as_slice(), out)
}

/// A cluster that lost a reference and has others.
impl ToLine for KeptCluster {
    ghost text = { spec.kept_line };

    fn put_in(&self, line: &mut LineBuffer) {
        line.clear();
        line.prepend("\n");
        line.prepend_decimal(self.counter);
        line.prepend(" ");
        line.prepend_decimal(self.cluster.0);
        line.prepend("kept ");
    }
}

/// Parses the arguments of the command `apply`.
pub(super) fn parse(alloc: Global, arguments: &[String]) -> Option<Result<Command, AllocError>>
    ensures { Parses result (spec.apply_command (map string_bytes arguments.now)) }
{
    match arguments {
        [word, edits @ ..] if word.as_str() == "plan" => {
            parse_edits(alloc, ApplyForm::Plan, edits)
        }
        _ => parse_edits(alloc, ApplyForm::Make, arguments),
    }
}

// Parses the words of the edits, at least one.
fn parse_edits(
    alloc: Global,
    form: ApplyForm,
    words: &[String],
) -> Option<Result<Command, AllocError>>
    ensures { Parses result (spec.edits_command form (map string_bytes words.now)) }
{
    if words.is_empty() {
        return None;
    }
    match Arguments::parse(alloc, words)? {
        Ok(edits) => Some(Ok(Command::Apply { form, edits })),
        Err(error) => Some(Err(error)),
    }
}

impl FromWord for DiskEdit {
    ghost from_word = { spec.disk_edit_of };

    fn from_word(word: &str) -> Option<DiskEdit> {
        let (name, numbers) = parts(word)?;
        match name {
            "map" => map_of(numbers),
            "zero" => zero_of(numbers, false),
            "keep" => zero_of(numbers, true),
            "discard" => discard_of(numbers),
            _ => None,
        }
    }
}

// Parses the two numbers of a word, before and after its first colon.
fn two_numbers(numbers: &str) -> Option<(u64, u64)>
    ensures { result ≡ spec.two_numbers numbers.now }
{
    let (first, second) = parts(numbers)?;
    Some((any_number(first)?, any_number(second)?))
}

// Parses an edit that maps a cluster: its offset and the host cluster.
fn map_of(numbers: &str) -> Option<DiskEdit>
    ensures { result ≡ spec.map_of numbers.now }
{
    let (offset, cluster) = two_numbers(numbers)?;
    Some(DiskEdit::Range(GuestEdit::Map {
        offset: GuestOffset(offset),
        host_cluster: HostCluster(cluster),
    }))
}

// Parses an edit that makes zeros: its offset and length.
fn zero_of(numbers: &str, keep_allocation: bool) -> Option<DiskEdit>
    ensures { result ≡ spec.zero_of keep_allocation numbers.now }
{
    let (offset, length) = two_numbers(numbers)?;
    Some(DiskEdit::Range(GuestEdit::Zero {
        offset: GuestOffset(offset),
        length,
        keep_allocation,
    }))
}

// Parses a discard: its offset, and its length or else one cluster.
fn discard_of(numbers: &str) -> Option<DiskEdit>
    ensures { result ≡ spec.discard_of numbers.now }
{
    if parts(numbers).is_none() {
        let offset = GuestOffset(any_number(numbers)?);
        return Some(DiskEdit::DiscardCluster { offset });
    }
    let (offset, length) = two_numbers(numbers)?;
    Some(DiskEdit::Range(GuestEdit::Discard {
        offset: GuestOffset(offset),
        length,
    }))
}

// Parses decimal digits, or hexadecimal ones after `0x`.
fn any_number(word: &str) -> Option<u64>
    ensures { result ≡ spec.any_number word.now }
{
    match word.strip_prefix("0x") {
        Some(digits) => hexadecimal(digits),
        None => number(word),
    }
}

// Parses 1 to 16 hexadecimal digits, without a sign.
#[tactic(auto, using(crate::proofs::CommandsLemmas::hexadecimal_of_parsed))]
fn hexadecimal(digits: &str) -> Option<u64>
    ensures { result ≡ spec.hexadecimal digits.now }
{
    // `from_str_radix` accepts a leading plus.
    if digits.len() > 16 || digits.starts_with('+') {
        return None;
    }
    u64::from_str_radix(digits, 16).ok()
}
