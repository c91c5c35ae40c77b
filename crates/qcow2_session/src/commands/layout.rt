//! The command `layout`: what each host cluster of an image is, in runs or as a picture.

ghost use Rattle.std.specs.Prelude.{◌≡◌, ◌+◌, ◌≤◌, ◌++◌, IsErrOf, length, map, string_bytes};
ghost use Rattle.qcow2_base.specs.Storage.{OnImage, ReadsFor};
ghost use Rattle.qcow2_base.specs.declared.fault.Fault.TheVariants.{Storage as StorageFailed};
ghost use Rattle.qcow2_layout.specs.Layout.{IsLayoutOf};
ghost use Rattle.qcow2_session.specs.Commands.Layout.{PrintsInLines, PrintsLayout, PrintsRunsFrom, layout_command, part_text, run_line};
ghost use Rattle.qcow2_session.specs.Commands.Printing.{PrintsLast, run_over};
ghost use Rattle.qcow2_session.specs.Commands.Words.{Parses};
ghost use Rattle.qcow2_session.specs.declared.commands.layout.LayoutForm.TheVariants.{Svg};

use super::Command;
use super::tables::prepend_pair;
use crate::lines::{LineBuffer, ToLine, print};
use qcow2_base::{Fault, Storage};
use qcow2_layout::{Layout, Part, Run};
use qcow2_metadata::Header;
use std::alloc::{AllocError, Global};
use std::io::Write;

mod picture;

use picture::print_picture;

/// The form of a layout's output.
#[derive(Clone, Copy, Debug, PartialEq, Eq)]
pub enum LayoutForm {
    /// A line for each run.
    Lines,
    /// An SVG picture.
    Svg,
}

/// Prints what each host cluster of an image with this header is, from cluster 0 to the last that isn't
/// free, in runs: a run's first cluster, its number of clusters, and what they are. For guest data that has
/// the guest offset of the first cluster; the next ones follow on the disk as in the image. A cluster with
/// several references is printed as the header, a table or a block, or else with the lowest guest offset.
///
/// A picture has at most 4096 squares, in rows of 64. Each stands for the same number of clusters, a power
/// of two, and has the colour of the most severe content in them.
///
/// Returns the fault of `Layout::new` before any line. A fault after a line is 34 or 35; one of a picture
/// comes before any output. A failed write to `out` is the storage fault. Changes no byte of the image.
pub fn print_layout<S: Storage, O: Write>(
    alloc: Global,
    image: &mut S,
    header: &Header,
    form: LayoutForm,
    out: &mut O,
) -> Result<(), Fault>
    ensures prints { PrintsLayout form
        (run_over S.state O.contents result image.old image.new out.old out.new) header.now }
    ensures last { form ≡ Svg →
        PrintsLast (run_over S.state O.contents result image.old image.new out.old out.new) }
    ensures storage { ReadsFor (IsErrOf result StorageFailed) (S.state image.old) (S.state image.new) }
{
    match form {
        LayoutForm::Lines => print_in_lines(alloc, image, header, out),
        LayoutForm::Svg => print_picture(alloc, image, header, out),
    }
}

// Prints a line for each run.
fn print_in_lines<S: Storage, O: Write>(
    alloc: Global,
    image: &mut S,
    header: &Header,
    out: &mut O,
) -> Result<(), Fault>
    ensures prints { PrintsInLines (run_over S.state O.contents result image.old image.new out.old out.new)
        header.now }
    ensures storage { ReadsFor (IsErrOf result StorageFailed) (S.state image.old) (S.state image.new) }
{
    let mut layout = Layout::new(alloc, image, header)?;
    print_runs(&mut layout, image, out)
}

// Prints all runs of a reader that is at their start.
fn print_runs<S: Storage, O: Write>(
    layout: &mut Layout<'_>,
    image: &mut S,
    out: &mut O,
) -> Result<(), Fault>
    requires reader { OnImage (S.state image.old) (λ bytes. IsLayoutOf bytes layout.old) }
    requires begun { layout.old.position ≡ 0 }
    ensures prints { PrintsRunsFrom (run_over S.state O.contents result image.old image.new out.old out.new)
        layout.old }
    ensures storage { ReadsFor (IsErrOf result StorageFailed) (S.state image.old) (S.state image.new) }
{
    let mut line = LineBuffer::new();
    while let Some(run) = layout.next(image)? {
        run.put_in(&mut line);
        print(line.as_bytes(), out)?;
    }
    Ok(())
}

impl ToLine for Run {
    ghost text = { run_line };

    fn put_in(&self, line: &mut LineBuffer) {
        line.clear();
        line.prepend("\n");
        prepend_part(line, self.part);
        line.prepend(" ");
        prepend_pair(line, self.first.0, self.count);
    }
}

// Puts the text of a part in front of a line.
fn prepend_part(line: &mut LineBuffer, part: Part)
    requires { length line.old ≤ 100 }
    ensures text { line.new ≡ part_text part ++ line.old }
    ensures bound { length line.new ≤ length line.old + 23 }
{
    match part {
        Part::Header => line.prepend("header"),
        Part::L1Table => line.prepend("l1"),
        Part::L2Table => line.prepend("l2"),
        Part::EncryptionHeader => line.prepend("encryption-header"),
        Part::RefcountTable => line.prepend("refcount-table"),
        Part::RefcountBlock => line.prepend("refcount-block"),
        Part::Data(offset) => {
            line.prepend_offset(offset.0);
            line.prepend("data ");
        }
        Part::Compressed => line.prepend("compressed"),
        Part::Leaked => line.prepend("leaked"),
        Part::Free => line.prepend("free"),
    }
}

/// Parses the arguments of the command `layout`.
pub(super) fn parse(arguments: &[String]) -> Option<Result<Command, AllocError>>
    ensures { Parses result (layout_command (map string_bytes arguments.now)) }
{
    let form = match arguments {
        [] => LayoutForm::Lines,
        [word] if word.as_str() == "svg" => LayoutForm::Svg,
        _ => return None,
    };
    Some(Ok(Command::Layout { form }))
}
