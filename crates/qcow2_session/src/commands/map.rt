//! The command `map`: what the guest's disk reads as, extent by extent.

ghost use Rattle.std.specs.Prelude.{◌≡◌, ◌+◌, ◌≤◌, ◌++◌, IsErrOf, length, map, string_bytes};
ghost use Rattle.qcow2_base.specs.Storage.{OnImage, ReadsFor};
ghost use Rattle.qcow2_base.specs.declared.fault.Fault.TheVariants.{Storage as StorageFailed};
ghost use Rattle.qcow2_image.specs.Extents.{IsReaderOf};
ghost use Rattle.qcow2_session.specs.Commands.Map.{PrintsExtents, PrintsRest, closing, content_text, disk_of, extent_line, extent_text, map_command, json_content, json_row, opening};
ghost use Rattle.qcow2_session.specs.Commands.Printing.{PrintsText, run_over};
ghost use Rattle.qcow2_session.specs.Commands.Words.{Parses};

use super::Command;
use crate::lines::{LineBuffer, print};
use crate::{Content, Extent, Extents};
use qcow2_base::{Fault, Storage};
use qcow2_metadata::Header;
use std::alloc::{AllocError, Global};
use std::io::Write;

/// The format of printed extents.
#[derive(Clone, Copy, Debug, PartialEq, Eq)]
pub enum ExtentFormat {
    /// A line for each, for people.
    Lines,
    /// A JSON list, as `qemu-img map --output=json` prints it.
    Json,
}

impl ExtentFormat {
    // The text before the first extent.
    fn opening(self) -> &'static str
        ensures { result.now ≡ opening self }
    {
        match self {
            ExtentFormat::Lines => "",
            ExtentFormat::Json => "[",
        }
    }

    // The text after the last extent.
    fn closing(self) -> &'static str
        ensures { result.now ≡ closing self }
    {
        match self {
            ExtentFormat::Lines => "",
            ExtentFormat::Json => "]\n",
        }
    }
}

/// Prints the extents of an image with this header, from offset 0 to the disk's size.
///
/// Returns the fault of the L1 table before it prints anything. A refused L2 table ends the output: the
/// extents that are known to end before its range stay. Doesn't read L2 tables past the disk's size. A
/// failed write to `out` is the storage fault. Changes no byte of the image.
pub fn print_extents<S: Storage, O: Write>(
    alloc: Global,
    image: &mut S,
    header: &Header,
    format: ExtentFormat,
    out: &mut O,
) -> Result<(), Fault>
    ensures prints { PrintsExtents (run_over S.state O.contents result image.old image.new out.old out.new)
        format (disk_of header.now) }
    ensures storage { ReadsFor (IsErrOf result StorageFailed) (S.state image.old) (S.state image.new) }
{
    let mut extents = Extents::new(alloc, image, header)?;
    print_text(format.opening(), out)?;
    print_all(&mut extents, image, format, out)?;
    print_text(format.closing(), out)
}

// Prints the extents from a reader's offset to the disk's size.
fn print_all<S: Storage, O: Write>(
    extents: &mut Extents<'_>,
    image: &mut S,
    format: ExtentFormat,
    out: &mut O,
) -> Result<(), Fault>
    requires kept { OnImage (S.state image.old) (λ bytes. IsReaderOf bytes extents.old) }
    ensures prints { PrintsRest (run_over S.state O.contents result image.old image.new out.old out.new)
        format extents.old }
    ensures storage { ReadsFor (IsErrOf result StorageFailed) (S.state image.old) (S.state image.new) }
{
    let mut line = LineBuffer::new();
    while let Some(extent) = extents.next(image)? {
        print_extent(&extent, format, &mut line, out)?;
    }
    Ok(())
}

fn print_text<O: Write>(text: &str, out: &mut O) -> Result<(), Fault>
    ensures { PrintsText result (O.contents out.old) (O.contents out.new) text.now }
{
    print(text.as_bytes(), out)
}

// Prints an extent. Overwrites `line`.
#[inline(always)]
fn print_extent<O: Write>(
    extent: &Extent,
    format: ExtentFormat,
    line: &mut LineBuffer,
    out: &mut O,
) -> Result<(), Fault>
    ensures { PrintsText result (O.contents out.old) (O.contents out.new)
        (extent_text format extent.now) }
{
    line.clear();
    match format {
        ExtentFormat::Lines => prepend_line(line, extent),
        ExtentFormat::Json => prepend_row(line, extent),
    }
    print(line.as_bytes(), out)
}

// Puts the line of an extent in front of a line.
fn prepend_line(line: &mut LineBuffer, extent: &Extent)
    requires { length line.old ≤ 100 }
    ensures { line.new ≡ extent_line extent.now ++ line.old }
{
    line.prepend("\n");
    prepend_content(line, extent.content);
    line.prepend(" ");
    line.prepend_offset(extent.length);
    line.prepend(" ");
    line.prepend_offset(extent.start.0);
}

// Puts the text of a content in front of a line.
fn prepend_content(line: &mut LineBuffer, content: Content)
    requires { length line.old ≤ 110 }
    ensures text { line.new ≡ content_text content ++ line.old }
    ensures bound { length line.new ≤ length line.old + 23 }
{
    match content {
        Content::Data(offset) => {
            line.prepend_offset(offset.0);
            line.prepend("data ");
        }
        Content::Zeros => line.prepend("zero"),
        Content::AllocatedZeros(offset) => {
            line.prepend_offset(offset.0);
            line.prepend("zero ");
        }
        Content::Compressed => line.prepend("compressed"),
        Content::Absent => line.prepend("backing"),
    }
}

// Puts an extent of the JSON list in front of a line.
fn prepend_row(line: &mut LineBuffer, extent: &Extent)
    requires { length line.old ≤ 10 }
    ensures { line.new ≡ json_row extent.now ++ line.old }
{
    prepend_json_content(line, extent.content);
    line.prepend_decimal(extent.length);
    line.prepend(", \"length\": ");
    line.prepend_decimal(extent.start.0);
    line.prepend("{ \"start\": ");
    if extent.start.0 != 0 {
        line.prepend(",\n");
    }
}

// Puts the JSON members of a content, and the closing brace, in front of a line.
fn prepend_json_content(line: &mut LineBuffer, content: Content)
    requires { length line.old ≤ 10 }
    ensures text { line.new ≡ json_content content ++ line.old }
    ensures bound { length line.new ≤ length line.old + 95 }
{
    match content {
        Content::Data(offset) => {
            line.prepend("}");
            line.prepend_decimal(offset.0);
            line.prepend(
                ", \"depth\": 0, \"present\": true, \"zero\": false, \"data\": true, \"offset\": ",
            );
        }
        Content::AllocatedZeros(offset) => {
            line.prepend("}");
            line.prepend_decimal(offset.0);
            line.prepend(
                ", \"depth\": 0, \"present\": true, \"zero\": true, \"data\": false, \"offset\": ",
            );
        }
        Content::Zeros => line.prepend(
            ", \"depth\": 0, \"present\": true, \"zero\": true, \"data\": false}",
        ),
        Content::Compressed => line.prepend(
            ", \"depth\": 0, \"present\": true, \"zero\": false, \"data\": true}",
        ),
        Content::Absent => line.prepend(
            ", \"depth\": 0, \"present\": false, \"zero\": true, \"data\": false}",
        ),
    }
}

/// Parses the arguments of the command `map`.
pub(super) fn parse(arguments: &[String]) -> Option<Result<Command, AllocError>>
    ensures { Parses result (map_command (map string_bytes arguments.now)) }
{
    let format = match arguments {
        [] => ExtentFormat::Lines,
        [word] if word.as_str() == "json" => ExtentFormat::Json,
        _ => return None,
    };
    Some(Ok(Command::Map { format }))
}
